//! `-` and `!` of each cell of an array.

ghost use Rattle.ndarray.specs.Elementwise.{CanMap, ClonesAreEqual, MakesMapped, UpdatesMapped};

use crate::base::array::Array;
use crate::base::dimension::Lengths;
use crate::ops::cell_calls::OnOne;
use crate::ops::computing::{map_cells, map_cells_in_place};
use crate::ops::operations::{Complement, Negation};
use std::alloc::AllocError;
use std::marker::PhantomData;
use std::ops::{Neg, Not};

impl<A, D> Neg for Array<A, D>
where
    A: Clone + Neg<Output = A>,
    D: Lengths,
{
    type Output = Result<Array<A, D>, AllocError>;

    ghost can_neg = { λ a. CanMap A.can_neg a × ClonesAreEqual A.is_clone };

    ghost neg_gives = { λ a r. UpdatesMapped D.has_axes A.neg_gives A.is_infallible a r };

    fn neg(self) -> Self::Output {
        let operation: OnOne<Negation> = OnOne(PhantomData);
        map_cells_in_place(self, operation)
    }
}

impl<'a, A, D> Neg for &'a Array<A, D>
where
    A: Clone + Neg<Output = A>,
    D: Lengths,
{
    type Output = Result<Array<A, D>, AllocError>;

    ghost can_neg = { λ a. CanMap A.can_neg a.now × ClonesAreEqual A.is_clone };

    ghost neg_gives = { λ a r. MakesMapped D.has_axes A.neg_gives a.now r };

    fn neg(self) -> Self::Output {
        let operation: OnOne<Negation> = OnOne(PhantomData);
        map_cells(self, operation)
    }
}

impl<A, D> Not for Array<A, D>
where
    A: Clone + Not<Output = A>,
    D: Lengths,
{
    type Output = Result<Array<A, D>, AllocError>;

    ghost can_not = { λ a. CanMap A.can_not a × ClonesAreEqual A.is_clone };

    ghost not_gives = { λ a r. UpdatesMapped D.has_axes A.not_gives A.is_infallible a r };

    fn not(self) -> Self::Output {
        let operation: OnOne<Complement> = OnOne(PhantomData);
        map_cells_in_place(self, operation)
    }
}

impl<'a, A, D> Not for &'a Array<A, D>
where
    A: Clone + Not<Output = A>,
    D: Lengths,
{
    type Output = Result<Array<A, D>, AllocError>;

    ghost can_not = { λ a. CanMap A.can_not a.now × ClonesAreEqual A.is_clone };

    ghost not_gives = { λ a r. MakesMapped D.has_axes A.not_gives a.now r };

    fn not(self) -> Self::Output {
        let operation: OnOne<Complement> = OnOne(PhantomData);
        map_cells(self, operation)
    }
}
