//! `|` and `|=` between arrays, and between an array and a scalar.

ghost use Rattle.std.specs.Prelude.{⊤};
ghost use Rattle.ndarray.specs.Elementwise.{Assigns, CanAssign, CanCombine, CanMap, ClonesAreEqual, MakesCombined, MakesMapped, Maps, UpdatesCombined, UpdatesMapped};

use crate::base::array::{Array, ArrayBase, ArrayView};
use crate::base::dim_max::DimMax;
use crate::base::dimension::Lengths;
use crate::base::storage::{Data, DataMut};
use crate::elements::ScalarOperand;
use crate::ops::assign_operators::{assign, assign_scalar};
use crate::ops::computing::{
    combine, combine_into_left, combine_into_left_by_value, combine_into_right,
    combine_left_scalar, combine_left_scalar_in_place, combine_scalar, combine_scalar_in_place,
};
use crate::ops::operations::{Disjunction, DisjunctionAssign};
use std::alloc::AllocError;
use std::ops::{BitOr, BitOrAssign};

impl<'a, 'b, A, B, S2, D: DimMax<E>, E: Lengths> BitOr<&'b ArrayBase<S2, E>> for &'a Array<A, D>
where
    A: Clone + BitOr<B, Output = A>,
    B: Clone,
    S2: Data<Elem = B>,
{
    type Output = Result<Array<A, <D as DimMax<E>>::Output>, AllocError>;

    ghost can_bitor = { λ a b. CanCombine a.now b.now A.can_bitor × ClonesAreEqual A.is_clone × ClonesAreEqual B.is_clone };

    ghost bitor_gives = { λ a b r. MakesCombined D.Output.has_axes A.bitor_gives a.now b.now r };

    fn bitor(self, rhs: &'b ArrayBase<S2, E>) -> Self::Output {
        combine::<Disjunction, A, B, _, D, E>(self, rhs)
    }
}

impl<'b, A, B, S2, D: DimMax<E>, E: Lengths> BitOr<&'b ArrayBase<S2, E>> for Array<A, D>
where
    A: Clone + BitOr<B, Output = A>,
    B: Clone,
    S2: Data<Elem = B>,
{
    type Output = Result<Array<A, <D as DimMax<E>>::Output>, AllocError>;

    ghost can_bitor = { λ a b. CanCombine a b.now A.can_bitor × ClonesAreEqual A.is_clone × ClonesAreEqual B.is_clone };

    ghost bitor_gives = { λ a b r. UpdatesCombined D.Output.has_axes A.bitor_gives A.is_infallible B.is_infallible a.lengths a b.now r };

    fn bitor(self, rhs: &'b ArrayBase<S2, E>) -> Self::Output {
        combine_into_left::<Disjunction, A, B, _, D, E>(self, rhs)
    }
}

impl<A, B, S2, D: DimMax<E>, E: Lengths> BitOr<ArrayBase<S2, E>> for Array<A, D>
where
    A: Clone + BitOr<B, Output = A>,
    B: Clone,
    S2: Data<Elem = B>,
{
    type Output = Result<Array<A, <D as DimMax<E>>::Output>, AllocError>;

    ghost can_bitor = { λ a b. CanCombine a b A.can_bitor × ClonesAreEqual A.is_clone × ClonesAreEqual B.is_clone };

    ghost bitor_gives = { λ a b r. UpdatesCombined D.Output.has_axes A.bitor_gives A.is_infallible B.is_infallible a.lengths a b r };

    fn bitor(self, rhs: ArrayBase<S2, E>) -> Self::Output {
        combine_into_left_by_value::<Disjunction, A, B, _, D, E>(self, rhs)
    }
}

impl<'a, A, B, S, D: Lengths, E: DimMax<D>> BitOr<Array<B, E>> for &'a ArrayBase<S, D>
where
    A: Clone + BitOr<B, Output = B>,
    B: Clone,
    S: Data<Elem = A>,
{
    type Output = Result<Array<B, <E as DimMax<D>>::Output>, AllocError>;

    ghost can_bitor = { λ a b. CanCombine a.now b A.can_bitor × ClonesAreEqual A.is_clone × ClonesAreEqual B.is_clone };

    ghost bitor_gives = { λ a b r. UpdatesCombined E.Output.has_axes A.bitor_gives A.is_infallible B.is_infallible b.lengths a.now b r };

    fn bitor(self, rhs: Array<B, E>) -> Self::Output {
        combine_into_right::<Disjunction, A, B, _, D, E>(self, rhs)
    }
}

impl<A, B, D> BitOr<B> for Array<A, D>
where
    A: Clone + BitOr<B, Output = A>,
    B: ScalarOperand,
    D: Lengths,
{
    type Output = Result<Array<A, D>, AllocError>;

    ghost can_bitor = { λ a b. CanMap (λ x. A.can_bitor x b) a × ClonesAreEqual A.is_clone × ClonesAreEqual B.is_clone };

    ghost bitor_gives = { λ a b r. UpdatesMapped D.has_axes (λ x z. A.bitor_gives x b z) (λ x. A.is_infallible x × B.is_infallible b) a r };

    fn bitor(self, rhs: B) -> Self::Output {
        combine_scalar_in_place::<Disjunction, A, B, D>(self, rhs)
    }
}

impl<'a, A, B, D> BitOr<B> for &'a Array<A, D>
where
    A: Clone + BitOr<B, Output = A>,
    B: ScalarOperand,
    D: Lengths,
{
    type Output = Result<Array<A, D>, AllocError>;

    ghost can_bitor = { λ a b. CanMap (λ x. A.can_bitor x b) a.now × ClonesAreEqual A.is_clone × ClonesAreEqual B.is_clone };

    ghost bitor_gives = { λ a b r. MakesMapped D.has_axes (λ x z. A.bitor_gives x b z) a.now r };

    fn bitor(self, rhs: B) -> Self::Output {
        combine_scalar::<Disjunction, A, B, D>(self, rhs)
    }
}

impl<'b, A, B, S, S2, D, E> BitOrAssign<&'b ArrayBase<S2, E>> for ArrayBase<S, D>
where
    A: Copy + BitOrAssign<B>,
    B: Copy,
    S: DataMut<Elem = A>,
    S2: Data<Elem = B>,
    D: Lengths,
    E: Lengths,
{
    ghost can_bitor_assign = { λ a b. CanAssign A.can_bitor_assign a b.now };

    ghost bitor_assign_gives = { λ a b r. Assigns A.bitor_assign_gives a b.now r };

    fn bitor_assign(&mut self, rhs: &'b ArrayBase<S2, E>) {
        assign::<DisjunctionAssign, A, B, _, _, D, E>(self, rhs)
    }
}

impl<'b, A, B, S, D, E> BitOrAssign<ArrayView<'b, B, E>> for ArrayBase<S, D>
where
    A: Copy + BitOrAssign<B>,
    B: Copy,
    S: DataMut<Elem = A>,
    D: Lengths,
    E: Lengths,
{
    ghost can_bitor_assign = { λ a b. CanAssign A.can_bitor_assign a b };

    ghost bitor_assign_gives = { λ a b r. Assigns A.bitor_assign_gives a b r };

    fn bitor_assign(&mut self, rhs: ArrayView<'b, B, E>) {
        assign::<DisjunctionAssign, A, B, _, _, D, E>(self, &rhs)
    }
}

impl<A, S, D> BitOrAssign<A> for ArrayBase<S, D>
where
    A: ScalarOperand + Copy + BitOrAssign<A>,
    S: DataMut<Elem = A>,
    D: Lengths,
{
    ghost can_bitor_assign = { λ a b. CanMap (λ x. A.can_bitor_assign x b) a };

    ghost bitor_assign_gives = { λ a b r. Maps (λ x z. A.bitor_assign_gives x b z) a r };

    fn bitor_assign(&mut self, rhs: A) {
        assign_scalar::<DisjunctionAssign, A, A, _, D>(self, rhs)
    }
}

impl<D: Lengths> BitOr<Array<u8, D>> for u8 {
    type Output = Result<Array<u8, D>, AllocError>;

    ghost can_bitor = { λ a b. CanMap (λ x. ⟦<u8 as BitOr<u8>>⟧.can_bitor a x) b };

    ghost bitor_gives = { λ a b r. UpdatesMapped D.has_axes (λ x z. ⟦<u8 as BitOr<u8>>⟧.bitor_gives a x z) (λ _. ⊤) b r };

    fn bitor(self, rhs: Array<u8, D>) -> Self::Output {
        combine_left_scalar_in_place::<Disjunction, u8, u8, D>(self, rhs)
    }
}

impl<'b, D: Lengths> BitOr<&'b Array<u8, D>> for u8 {
    type Output = Result<Array<u8, D>, AllocError>;

    ghost can_bitor = { λ a b. CanMap (λ x. ⟦<u8 as BitOr<u8>>⟧.can_bitor a x) b.now };

    ghost bitor_gives = { λ a b r. MakesMapped D.has_axes (λ x z. ⟦<u8 as BitOr<u8>>⟧.bitor_gives a x z) b.now r };

    fn bitor(self, rhs: &'b Array<u8, D>) -> Self::Output {
        combine_left_scalar::<Disjunction, u8, u8, D>(self, rhs)
    }
}

impl<D: Lengths> BitOr<Array<i32, D>> for i32 {
    type Output = Result<Array<i32, D>, AllocError>;

    ghost can_bitor = { λ a b. CanMap (λ x. ⟦<i32 as BitOr<i32>>⟧.can_bitor a x) b };

    ghost bitor_gives = { λ a b r. UpdatesMapped D.has_axes (λ x z. ⟦<i32 as BitOr<i32>>⟧.bitor_gives a x z) (λ _. ⊤) b r };

    fn bitor(self, rhs: Array<i32, D>) -> Self::Output {
        combine_left_scalar_in_place::<Disjunction, i32, i32, D>(self, rhs)
    }
}

impl<'b, D: Lengths> BitOr<&'b Array<i32, D>> for i32 {
    type Output = Result<Array<i32, D>, AllocError>;

    ghost can_bitor = { λ a b. CanMap (λ x. ⟦<i32 as BitOr<i32>>⟧.can_bitor a x) b.now };

    ghost bitor_gives = { λ a b r. MakesMapped D.has_axes (λ x z. ⟦<i32 as BitOr<i32>>⟧.bitor_gives a x z) b.now r };

    fn bitor(self, rhs: &'b Array<i32, D>) -> Self::Output {
        combine_left_scalar::<Disjunction, i32, i32, D>(self, rhs)
    }
}

impl<D: Lengths> BitOr<Array<i64, D>> for i64 {
    type Output = Result<Array<i64, D>, AllocError>;

    ghost can_bitor = { λ a b. CanMap (λ x. ⟦<i64 as BitOr<i64>>⟧.can_bitor a x) b };

    ghost bitor_gives = { λ a b r. UpdatesMapped D.has_axes (λ x z. ⟦<i64 as BitOr<i64>>⟧.bitor_gives a x z) (λ _. ⊤) b r };

    fn bitor(self, rhs: Array<i64, D>) -> Self::Output {
        combine_left_scalar_in_place::<Disjunction, i64, i64, D>(self, rhs)
    }
}

impl<'b, D: Lengths> BitOr<&'b Array<i64, D>> for i64 {
    type Output = Result<Array<i64, D>, AllocError>;

    ghost can_bitor = { λ a b. CanMap (λ x. ⟦<i64 as BitOr<i64>>⟧.can_bitor a x) b.now };

    ghost bitor_gives = { λ a b r. MakesMapped D.has_axes (λ x z. ⟦<i64 as BitOr<i64>>⟧.bitor_gives a x z) b.now r };

    fn bitor(self, rhs: &'b Array<i64, D>) -> Self::Output {
        combine_left_scalar::<Disjunction, i64, i64, D>(self, rhs)
    }
}

impl<D: Lengths> BitOr<Array<usize, D>> for usize {
    type Output = Result<Array<usize, D>, AllocError>;

    ghost can_bitor = { λ a b. CanMap (λ x. ⟦<usize as BitOr<usize>>⟧.can_bitor a x) b };

    ghost bitor_gives = { λ a b r. UpdatesMapped D.has_axes (λ x z. ⟦<usize as BitOr<usize>>⟧.bitor_gives a x z) (λ _. ⊤) b r };

    fn bitor(self, rhs: Array<usize, D>) -> Self::Output {
        combine_left_scalar_in_place::<Disjunction, usize, usize, D>(self, rhs)
    }
}

impl<'b, D: Lengths> BitOr<&'b Array<usize, D>> for usize {
    type Output = Result<Array<usize, D>, AllocError>;

    ghost can_bitor = { λ a b. CanMap (λ x. ⟦<usize as BitOr<usize>>⟧.can_bitor a x) b.now };

    ghost bitor_gives = { λ a b r. MakesMapped D.has_axes (λ x z. ⟦<usize as BitOr<usize>>⟧.bitor_gives a x z) b.now r };

    fn bitor(self, rhs: &'b Array<usize, D>) -> Self::Output {
        combine_left_scalar::<Disjunction, usize, usize, D>(self, rhs)
    }
}

impl<D: Lengths> BitOr<Array<bool, D>> for bool {
    type Output = Result<Array<bool, D>, AllocError>;

    ghost can_bitor = { λ a b. CanMap (λ x. ⟦<bool as BitOr<bool>>⟧.can_bitor a x) b };

    ghost bitor_gives = { λ a b r. UpdatesMapped D.has_axes (λ x z. ⟦<bool as BitOr<bool>>⟧.bitor_gives a x z) (λ _. ⊤) b r };

    fn bitor(self, rhs: Array<bool, D>) -> Self::Output {
        combine_left_scalar_in_place::<Disjunction, bool, bool, D>(self, rhs)
    }
}

impl<'b, D: Lengths> BitOr<&'b Array<bool, D>> for bool {
    type Output = Result<Array<bool, D>, AllocError>;

    ghost can_bitor = { λ a b. CanMap (λ x. ⟦<bool as BitOr<bool>>⟧.can_bitor a x) b.now };

    ghost bitor_gives = { λ a b r. MakesMapped D.has_axes (λ x z. ⟦<bool as BitOr<bool>>⟧.bitor_gives a x z) b.now r };

    fn bitor(self, rhs: &'b Array<bool, D>) -> Self::Output {
        combine_left_scalar::<Disjunction, bool, bool, D>(self, rhs)
    }
}
