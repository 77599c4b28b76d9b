//! `&` and `&=` between arrays, and between an array and a scalar.

ghost use Rattle.std.specs.Prelude.{⊤};
ghost use Rattle.ndarray.specs.Elementwise.{Assigns, CanAssign, CanCombine, CanMap, ClonesAreEqual, MakesCombined, MakesMapped, Maps, UpdatesCombined, UpdatesMapped};

use crate::base::array::{Array, ArrayBase, ArrayView};
use crate::base::dim_max::DimMax;
use crate::base::dimension::Lengths;
use crate::base::storage::{Data, DataMut};
use crate::elements::ScalarOperand;
use crate::ops::assign_operators::{assign, assign_scalar};
use crate::ops::computing::{
    combine, combine_into_left, combine_into_left_by_value, combine_into_right,
    combine_left_scalar, combine_left_scalar_in_place, combine_scalar, combine_scalar_in_place,
};
use crate::ops::operations::{Conjunction, ConjunctionAssign};
use std::alloc::AllocError;
use std::ops::{BitAnd, BitAndAssign};

impl<'a, 'b, A, B, S2, D: DimMax<E>, E: Lengths> BitAnd<&'b ArrayBase<S2, E>> for &'a Array<A, D>
where
    A: Clone + BitAnd<B, Output = A>,
    B: Clone,
    S2: Data<Elem = B>,
{
    type Output = Result<Array<A, <D as DimMax<E>>::Output>, AllocError>;

    ghost can_bitand = { λ a b. CanCombine a.now b.now A.can_bitand × ClonesAreEqual A.is_clone × ClonesAreEqual B.is_clone };

    ghost bitand_gives = { λ a b r. MakesCombined D.Output.has_axes A.bitand_gives a.now b.now r };

    fn bitand(self, rhs: &'b ArrayBase<S2, E>) -> Self::Output {
        combine::<Conjunction, A, B, _, D, E>(self, rhs)
    }
}

impl<'b, A, B, S2, D: DimMax<E>, E: Lengths> BitAnd<&'b ArrayBase<S2, E>> for Array<A, D>
where
    A: Clone + BitAnd<B, Output = A>,
    B: Clone,
    S2: Data<Elem = B>,
{
    type Output = Result<Array<A, <D as DimMax<E>>::Output>, AllocError>;

    ghost can_bitand = { λ a b. CanCombine a b.now A.can_bitand × ClonesAreEqual A.is_clone × ClonesAreEqual B.is_clone };

    ghost bitand_gives = { λ a b r. UpdatesCombined D.Output.has_axes A.bitand_gives A.is_infallible B.is_infallible a.lengths a b.now r };

    fn bitand(self, rhs: &'b ArrayBase<S2, E>) -> Self::Output {
        combine_into_left::<Conjunction, A, B, _, D, E>(self, rhs)
    }
}

impl<A, B, S2, D: DimMax<E>, E: Lengths> BitAnd<ArrayBase<S2, E>> for Array<A, D>
where
    A: Clone + BitAnd<B, Output = A>,
    B: Clone,
    S2: Data<Elem = B>,
{
    type Output = Result<Array<A, <D as DimMax<E>>::Output>, AllocError>;

    ghost can_bitand = { λ a b. CanCombine a b A.can_bitand × ClonesAreEqual A.is_clone × ClonesAreEqual B.is_clone };

    ghost bitand_gives = { λ a b r. UpdatesCombined D.Output.has_axes A.bitand_gives A.is_infallible B.is_infallible a.lengths a b r };

    fn bitand(self, rhs: ArrayBase<S2, E>) -> Self::Output {
        combine_into_left_by_value::<Conjunction, A, B, _, D, E>(self, rhs)
    }
}

impl<'a, A, B, S, D: Lengths, E: DimMax<D>> BitAnd<Array<B, E>> for &'a ArrayBase<S, D>
where
    A: Clone + BitAnd<B, Output = B>,
    B: Clone,
    S: Data<Elem = A>,
{
    type Output = Result<Array<B, <E as DimMax<D>>::Output>, AllocError>;

    ghost can_bitand = { λ a b. CanCombine a.now b A.can_bitand × ClonesAreEqual A.is_clone × ClonesAreEqual B.is_clone };

    ghost bitand_gives = { λ a b r. UpdatesCombined E.Output.has_axes A.bitand_gives A.is_infallible B.is_infallible b.lengths a.now b r };

    fn bitand(self, rhs: Array<B, E>) -> Self::Output {
        combine_into_right::<Conjunction, A, B, _, D, E>(self, rhs)
    }
}

impl<A, B, D> BitAnd<B> for Array<A, D>
where
    A: Clone + BitAnd<B, Output = A>,
    B: ScalarOperand,
    D: Lengths,
{
    type Output = Result<Array<A, D>, AllocError>;

    ghost can_bitand = { λ a b. CanMap (λ x. A.can_bitand x b) a × ClonesAreEqual A.is_clone × ClonesAreEqual B.is_clone };

    ghost bitand_gives = { λ a b r. UpdatesMapped D.has_axes (λ x z. A.bitand_gives x b z) (λ x. A.is_infallible x × B.is_infallible b) a r };

    fn bitand(self, rhs: B) -> Self::Output {
        combine_scalar_in_place::<Conjunction, A, B, D>(self, rhs)
    }
}

impl<'a, A, B, D> BitAnd<B> for &'a Array<A, D>
where
    A: Clone + BitAnd<B, Output = A>,
    B: ScalarOperand,
    D: Lengths,
{
    type Output = Result<Array<A, D>, AllocError>;

    ghost can_bitand = { λ a b. CanMap (λ x. A.can_bitand x b) a.now × ClonesAreEqual A.is_clone × ClonesAreEqual B.is_clone };

    ghost bitand_gives = { λ a b r. MakesMapped D.has_axes (λ x z. A.bitand_gives x b z) a.now r };

    fn bitand(self, rhs: B) -> Self::Output {
        combine_scalar::<Conjunction, A, B, D>(self, rhs)
    }
}

impl<'b, A, B, S, S2, D, E> BitAndAssign<&'b ArrayBase<S2, E>> for ArrayBase<S, D>
where
    A: Copy + BitAndAssign<B>,
    B: Copy,
    S: DataMut<Elem = A>,
    S2: Data<Elem = B>,
    D: Lengths,
    E: Lengths,
{
    ghost can_bitand_assign = { λ a b. CanAssign A.can_bitand_assign a b.now };

    ghost bitand_assign_gives = { λ a b r. Assigns A.bitand_assign_gives a b.now r };

    fn bitand_assign(&mut self, rhs: &'b ArrayBase<S2, E>) {
        assign::<ConjunctionAssign, A, B, _, _, D, E>(self, rhs)
    }
}

impl<'b, A, B, S, D, E> BitAndAssign<ArrayView<'b, B, E>> for ArrayBase<S, D>
where
    A: Copy + BitAndAssign<B>,
    B: Copy,
    S: DataMut<Elem = A>,
    D: Lengths,
    E: Lengths,
{
    ghost can_bitand_assign = { λ a b. CanAssign A.can_bitand_assign a b };

    ghost bitand_assign_gives = { λ a b r. Assigns A.bitand_assign_gives a b r };

    fn bitand_assign(&mut self, rhs: ArrayView<'b, B, E>) {
        assign::<ConjunctionAssign, A, B, _, _, D, E>(self, &rhs)
    }
}

impl<A, S, D> BitAndAssign<A> for ArrayBase<S, D>
where
    A: ScalarOperand + Copy + BitAndAssign<A>,
    S: DataMut<Elem = A>,
    D: Lengths,
{
    ghost can_bitand_assign = { λ a b. CanMap (λ x. A.can_bitand_assign x b) a };

    ghost bitand_assign_gives = { λ a b r. Maps (λ x z. A.bitand_assign_gives x b z) a r };

    fn bitand_assign(&mut self, rhs: A) {
        assign_scalar::<ConjunctionAssign, A, A, _, D>(self, rhs)
    }
}

impl<D: Lengths> BitAnd<Array<u8, D>> for u8 {
    type Output = Result<Array<u8, D>, AllocError>;

    ghost can_bitand = { λ a b. CanMap (λ x. ⟦<u8 as BitAnd<u8>>⟧.can_bitand a x) b };

    ghost bitand_gives = { λ a b r. UpdatesMapped D.has_axes (λ x z. ⟦<u8 as BitAnd<u8>>⟧.bitand_gives a x z) (λ _. ⊤) b r };

    fn bitand(self, rhs: Array<u8, D>) -> Self::Output {
        combine_left_scalar_in_place::<Conjunction, u8, u8, D>(self, rhs)
    }
}

impl<'b, D: Lengths> BitAnd<&'b Array<u8, D>> for u8 {
    type Output = Result<Array<u8, D>, AllocError>;

    ghost can_bitand = { λ a b. CanMap (λ x. ⟦<u8 as BitAnd<u8>>⟧.can_bitand a x) b.now };

    ghost bitand_gives = { λ a b r. MakesMapped D.has_axes (λ x z. ⟦<u8 as BitAnd<u8>>⟧.bitand_gives a x z) b.now r };

    fn bitand(self, rhs: &'b Array<u8, D>) -> Self::Output {
        combine_left_scalar::<Conjunction, u8, u8, D>(self, rhs)
    }
}

impl<D: Lengths> BitAnd<Array<i32, D>> for i32 {
    type Output = Result<Array<i32, D>, AllocError>;

    ghost can_bitand = { λ a b. CanMap (λ x. ⟦<i32 as BitAnd<i32>>⟧.can_bitand a x) b };

    ghost bitand_gives = { λ a b r. UpdatesMapped D.has_axes (λ x z. ⟦<i32 as BitAnd<i32>>⟧.bitand_gives a x z) (λ _. ⊤) b r };

    fn bitand(self, rhs: Array<i32, D>) -> Self::Output {
        combine_left_scalar_in_place::<Conjunction, i32, i32, D>(self, rhs)
    }
}

impl<'b, D: Lengths> BitAnd<&'b Array<i32, D>> for i32 {
    type Output = Result<Array<i32, D>, AllocError>;

    ghost can_bitand = { λ a b. CanMap (λ x. ⟦<i32 as BitAnd<i32>>⟧.can_bitand a x) b.now };

    ghost bitand_gives = { λ a b r. MakesMapped D.has_axes (λ x z. ⟦<i32 as BitAnd<i32>>⟧.bitand_gives a x z) b.now r };

    fn bitand(self, rhs: &'b Array<i32, D>) -> Self::Output {
        combine_left_scalar::<Conjunction, i32, i32, D>(self, rhs)
    }
}

impl<D: Lengths> BitAnd<Array<i64, D>> for i64 {
    type Output = Result<Array<i64, D>, AllocError>;

    ghost can_bitand = { λ a b. CanMap (λ x. ⟦<i64 as BitAnd<i64>>⟧.can_bitand a x) b };

    ghost bitand_gives = { λ a b r. UpdatesMapped D.has_axes (λ x z. ⟦<i64 as BitAnd<i64>>⟧.bitand_gives a x z) (λ _. ⊤) b r };

    fn bitand(self, rhs: Array<i64, D>) -> Self::Output {
        combine_left_scalar_in_place::<Conjunction, i64, i64, D>(self, rhs)
    }
}

impl<'b, D: Lengths> BitAnd<&'b Array<i64, D>> for i64 {
    type Output = Result<Array<i64, D>, AllocError>;

    ghost can_bitand = { λ a b. CanMap (λ x. ⟦<i64 as BitAnd<i64>>⟧.can_bitand a x) b.now };

    ghost bitand_gives = { λ a b r. MakesMapped D.has_axes (λ x z. ⟦<i64 as BitAnd<i64>>⟧.bitand_gives a x z) b.now r };

    fn bitand(self, rhs: &'b Array<i64, D>) -> Self::Output {
        combine_left_scalar::<Conjunction, i64, i64, D>(self, rhs)
    }
}

impl<D: Lengths> BitAnd<Array<usize, D>> for usize {
    type Output = Result<Array<usize, D>, AllocError>;

    ghost can_bitand = { λ a b. CanMap (λ x. ⟦<usize as BitAnd<usize>>⟧.can_bitand a x) b };

    ghost bitand_gives = { λ a b r. UpdatesMapped D.has_axes (λ x z. ⟦<usize as BitAnd<usize>>⟧.bitand_gives a x z) (λ _. ⊤) b r };

    fn bitand(self, rhs: Array<usize, D>) -> Self::Output {
        combine_left_scalar_in_place::<Conjunction, usize, usize, D>(self, rhs)
    }
}

impl<'b, D: Lengths> BitAnd<&'b Array<usize, D>> for usize {
    type Output = Result<Array<usize, D>, AllocError>;

    ghost can_bitand = { λ a b. CanMap (λ x. ⟦<usize as BitAnd<usize>>⟧.can_bitand a x) b.now };

    ghost bitand_gives = { λ a b r. MakesMapped D.has_axes (λ x z. ⟦<usize as BitAnd<usize>>⟧.bitand_gives a x z) b.now r };

    fn bitand(self, rhs: &'b Array<usize, D>) -> Self::Output {
        combine_left_scalar::<Conjunction, usize, usize, D>(self, rhs)
    }
}

impl<D: Lengths> BitAnd<Array<bool, D>> for bool {
    type Output = Result<Array<bool, D>, AllocError>;

    ghost can_bitand = { λ a b. CanMap (λ x. ⟦<bool as BitAnd<bool>>⟧.can_bitand a x) b };

    ghost bitand_gives = { λ a b r. UpdatesMapped D.has_axes (λ x z. ⟦<bool as BitAnd<bool>>⟧.bitand_gives a x z) (λ _. ⊤) b r };

    fn bitand(self, rhs: Array<bool, D>) -> Self::Output {
        combine_left_scalar_in_place::<Conjunction, bool, bool, D>(self, rhs)
    }
}

impl<'b, D: Lengths> BitAnd<&'b Array<bool, D>> for bool {
    type Output = Result<Array<bool, D>, AllocError>;

    ghost can_bitand = { λ a b. CanMap (λ x. ⟦<bool as BitAnd<bool>>⟧.can_bitand a x) b.now };

    ghost bitand_gives = { λ a b r. MakesMapped D.has_axes (λ x z. ⟦<bool as BitAnd<bool>>⟧.bitand_gives a x z) b.now r };

    fn bitand(self, rhs: &'b Array<bool, D>) -> Self::Output {
        combine_left_scalar::<Conjunction, bool, bool, D>(self, rhs)
    }
}
