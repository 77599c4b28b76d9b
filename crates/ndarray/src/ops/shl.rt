//! `<<` and `<<=` between arrays, and between an array and a scalar.

ghost use Rattle.std.specs.Prelude.{⊤};
ghost use Rattle.ndarray.specs.Elementwise.{Assigns, CanAssign, CanCombine, CanMap, ClonesAreEqual, MakesCombined, MakesMapped, Maps, UpdatesCombined, UpdatesMapped};

use crate::base::array::{Array, ArrayBase, ArrayView};
use crate::base::dim_max::DimMax;
use crate::base::dimension::Lengths;
use crate::base::storage::{Data, DataMut};
use crate::elements::ScalarOperand;
use crate::ops::assign_operators::{assign, assign_scalar};
use crate::ops::computing::{
    combine, combine_into_left, combine_into_left_by_value, combine_into_right,
    combine_left_scalar, combine_left_scalar_in_place, combine_scalar, combine_scalar_in_place,
};
use crate::ops::operations::{LeftShift, LeftShiftAssign};
use std::alloc::AllocError;
use std::ops::{Shl, ShlAssign};

impl<'a, 'b, A, B, S2, D: DimMax<E>, E: Lengths> Shl<&'b ArrayBase<S2, E>> for &'a Array<A, D>
where
    A: Clone + Shl<B, Output = A>,
    B: Clone,
    S2: Data<Elem = B>,
{
    type Output = Result<Array<A, <D as DimMax<E>>::Output>, AllocError>;

    ghost can_shl = { λ a b. CanCombine a.now b.now A.can_shl × ClonesAreEqual A.is_clone × ClonesAreEqual B.is_clone };

    ghost shl_gives = { λ a b r. MakesCombined D.Output.has_axes A.shl_gives a.now b.now r };

    fn shl(self, rhs: &'b ArrayBase<S2, E>) -> Self::Output {
        combine::<LeftShift, A, B, _, D, E>(self, rhs)
    }
}

impl<'b, A, B, S2, D: DimMax<E>, E: Lengths> Shl<&'b ArrayBase<S2, E>> for Array<A, D>
where
    A: Clone + Shl<B, Output = A>,
    B: Clone,
    S2: Data<Elem = B>,
{
    type Output = Result<Array<A, <D as DimMax<E>>::Output>, AllocError>;

    ghost can_shl = { λ a b. CanCombine a b.now A.can_shl × ClonesAreEqual A.is_clone × ClonesAreEqual B.is_clone };

    ghost shl_gives = { λ a b r. UpdatesCombined D.Output.has_axes A.shl_gives A.is_infallible B.is_infallible a.lengths a b.now r };

    fn shl(self, rhs: &'b ArrayBase<S2, E>) -> Self::Output {
        combine_into_left::<LeftShift, A, B, _, D, E>(self, rhs)
    }
}

impl<A, B, S2, D: DimMax<E>, E: Lengths> Shl<ArrayBase<S2, E>> for Array<A, D>
where
    A: Clone + Shl<B, Output = A>,
    B: Clone,
    S2: Data<Elem = B>,
{
    type Output = Result<Array<A, <D as DimMax<E>>::Output>, AllocError>;

    ghost can_shl = { λ a b. CanCombine a b A.can_shl × ClonesAreEqual A.is_clone × ClonesAreEqual B.is_clone };

    ghost shl_gives = { λ a b r. UpdatesCombined D.Output.has_axes A.shl_gives A.is_infallible B.is_infallible a.lengths a b r };

    fn shl(self, rhs: ArrayBase<S2, E>) -> Self::Output {
        combine_into_left_by_value::<LeftShift, A, B, _, D, E>(self, rhs)
    }
}

impl<'a, A, B, S, D: Lengths, E: DimMax<D>> Shl<Array<B, E>> for &'a ArrayBase<S, D>
where
    A: Clone + Shl<B, Output = B>,
    B: Clone,
    S: Data<Elem = A>,
{
    type Output = Result<Array<B, <E as DimMax<D>>::Output>, AllocError>;

    ghost can_shl = { λ a b. CanCombine a.now b A.can_shl × ClonesAreEqual A.is_clone × ClonesAreEqual B.is_clone };

    ghost shl_gives = { λ a b r. UpdatesCombined E.Output.has_axes A.shl_gives A.is_infallible B.is_infallible b.lengths a.now b r };

    fn shl(self, rhs: Array<B, E>) -> Self::Output {
        combine_into_right::<LeftShift, A, B, _, D, E>(self, rhs)
    }
}

impl<A, B, D> Shl<B> for Array<A, D>
where
    A: Clone + Shl<B, Output = A>,
    B: ScalarOperand,
    D: Lengths,
{
    type Output = Result<Array<A, D>, AllocError>;

    ghost can_shl = { λ a b. CanMap (λ x. A.can_shl x b) a × ClonesAreEqual A.is_clone × ClonesAreEqual B.is_clone };

    ghost shl_gives = { λ a b r. UpdatesMapped D.has_axes (λ x z. A.shl_gives x b z) (λ x. A.is_infallible x × B.is_infallible b) a r };

    fn shl(self, rhs: B) -> Self::Output {
        combine_scalar_in_place::<LeftShift, A, B, D>(self, rhs)
    }
}

impl<'a, A, B, D> Shl<B> for &'a Array<A, D>
where
    A: Clone + Shl<B, Output = A>,
    B: ScalarOperand,
    D: Lengths,
{
    type Output = Result<Array<A, D>, AllocError>;

    ghost can_shl = { λ a b. CanMap (λ x. A.can_shl x b) a.now × ClonesAreEqual A.is_clone × ClonesAreEqual B.is_clone };

    ghost shl_gives = { λ a b r. MakesMapped D.has_axes (λ x z. A.shl_gives x b z) a.now r };

    fn shl(self, rhs: B) -> Self::Output {
        combine_scalar::<LeftShift, A, B, D>(self, rhs)
    }
}

impl<'b, A, B, S, S2, D, E> ShlAssign<&'b ArrayBase<S2, E>> for ArrayBase<S, D>
where
    A: Copy + ShlAssign<B>,
    B: Copy,
    S: DataMut<Elem = A>,
    S2: Data<Elem = B>,
    D: Lengths,
    E: Lengths,
{
    ghost can_shl_assign = { λ a b. CanAssign A.can_shl_assign a b.now };

    ghost shl_assign_gives = { λ a b r. Assigns A.shl_assign_gives a b.now r };

    fn shl_assign(&mut self, rhs: &'b ArrayBase<S2, E>) {
        assign::<LeftShiftAssign, A, B, _, _, D, E>(self, rhs)
    }
}

impl<'b, A, B, S, D, E> ShlAssign<ArrayView<'b, B, E>> for ArrayBase<S, D>
where
    A: Copy + ShlAssign<B>,
    B: Copy,
    S: DataMut<Elem = A>,
    D: Lengths,
    E: Lengths,
{
    ghost can_shl_assign = { λ a b. CanAssign A.can_shl_assign a b };

    ghost shl_assign_gives = { λ a b r. Assigns A.shl_assign_gives a b r };

    fn shl_assign(&mut self, rhs: ArrayView<'b, B, E>) {
        assign::<LeftShiftAssign, A, B, _, _, D, E>(self, &rhs)
    }
}

impl<A, S, D> ShlAssign<A> for ArrayBase<S, D>
where
    A: ScalarOperand + Copy + ShlAssign<A>,
    S: DataMut<Elem = A>,
    D: Lengths,
{
    ghost can_shl_assign = { λ a b. CanMap (λ x. A.can_shl_assign x b) a };

    ghost shl_assign_gives = { λ a b r. Maps (λ x z. A.shl_assign_gives x b z) a r };

    fn shl_assign(&mut self, rhs: A) {
        assign_scalar::<LeftShiftAssign, A, A, _, D>(self, rhs)
    }
}

impl<D: Lengths> Shl<Array<u8, D>> for u8 {
    type Output = Result<Array<u8, D>, AllocError>;

    ghost can_shl = { λ a b. CanMap (λ x. ⟦<u8 as Shl<u8>>⟧.can_shl a x) b };

    ghost shl_gives = { λ a b r. UpdatesMapped D.has_axes (λ x z. ⟦<u8 as Shl<u8>>⟧.shl_gives a x z) (λ _. ⊤) b r };

    fn shl(self, rhs: Array<u8, D>) -> Self::Output {
        combine_left_scalar_in_place::<LeftShift, u8, u8, D>(self, rhs)
    }
}

impl<'b, D: Lengths> Shl<&'b Array<u8, D>> for u8 {
    type Output = Result<Array<u8, D>, AllocError>;

    ghost can_shl = { λ a b. CanMap (λ x. ⟦<u8 as Shl<u8>>⟧.can_shl a x) b.now };

    ghost shl_gives = { λ a b r. MakesMapped D.has_axes (λ x z. ⟦<u8 as Shl<u8>>⟧.shl_gives a x z) b.now r };

    fn shl(self, rhs: &'b Array<u8, D>) -> Self::Output {
        combine_left_scalar::<LeftShift, u8, u8, D>(self, rhs)
    }
}

impl<D: Lengths> Shl<Array<i32, D>> for i32 {
    type Output = Result<Array<i32, D>, AllocError>;

    ghost can_shl = { λ a b. CanMap (λ x. ⟦<i32 as Shl<i32>>⟧.can_shl a x) b };

    ghost shl_gives = { λ a b r. UpdatesMapped D.has_axes (λ x z. ⟦<i32 as Shl<i32>>⟧.shl_gives a x z) (λ _. ⊤) b r };

    fn shl(self, rhs: Array<i32, D>) -> Self::Output {
        combine_left_scalar_in_place::<LeftShift, i32, i32, D>(self, rhs)
    }
}

impl<'b, D: Lengths> Shl<&'b Array<i32, D>> for i32 {
    type Output = Result<Array<i32, D>, AllocError>;

    ghost can_shl = { λ a b. CanMap (λ x. ⟦<i32 as Shl<i32>>⟧.can_shl a x) b.now };

    ghost shl_gives = { λ a b r. MakesMapped D.has_axes (λ x z. ⟦<i32 as Shl<i32>>⟧.shl_gives a x z) b.now r };

    fn shl(self, rhs: &'b Array<i32, D>) -> Self::Output {
        combine_left_scalar::<LeftShift, i32, i32, D>(self, rhs)
    }
}

impl<D: Lengths> Shl<Array<i64, D>> for i64 {
    type Output = Result<Array<i64, D>, AllocError>;

    ghost can_shl = { λ a b. CanMap (λ x. ⟦<i64 as Shl<i64>>⟧.can_shl a x) b };

    ghost shl_gives = { λ a b r. UpdatesMapped D.has_axes (λ x z. ⟦<i64 as Shl<i64>>⟧.shl_gives a x z) (λ _. ⊤) b r };

    fn shl(self, rhs: Array<i64, D>) -> Self::Output {
        combine_left_scalar_in_place::<LeftShift, i64, i64, D>(self, rhs)
    }
}

impl<'b, D: Lengths> Shl<&'b Array<i64, D>> for i64 {
    type Output = Result<Array<i64, D>, AllocError>;

    ghost can_shl = { λ a b. CanMap (λ x. ⟦<i64 as Shl<i64>>⟧.can_shl a x) b.now };

    ghost shl_gives = { λ a b r. MakesMapped D.has_axes (λ x z. ⟦<i64 as Shl<i64>>⟧.shl_gives a x z) b.now r };

    fn shl(self, rhs: &'b Array<i64, D>) -> Self::Output {
        combine_left_scalar::<LeftShift, i64, i64, D>(self, rhs)
    }
}

impl<D: Lengths> Shl<Array<usize, D>> for usize {
    type Output = Result<Array<usize, D>, AllocError>;

    ghost can_shl = { λ a b. CanMap (λ x. ⟦<usize as Shl<usize>>⟧.can_shl a x) b };

    ghost shl_gives = { λ a b r. UpdatesMapped D.has_axes (λ x z. ⟦<usize as Shl<usize>>⟧.shl_gives a x z) (λ _. ⊤) b r };

    fn shl(self, rhs: Array<usize, D>) -> Self::Output {
        combine_left_scalar_in_place::<LeftShift, usize, usize, D>(self, rhs)
    }
}

impl<'b, D: Lengths> Shl<&'b Array<usize, D>> for usize {
    type Output = Result<Array<usize, D>, AllocError>;

    ghost can_shl = { λ a b. CanMap (λ x. ⟦<usize as Shl<usize>>⟧.can_shl a x) b.now };

    ghost shl_gives = { λ a b r. MakesMapped D.has_axes (λ x z. ⟦<usize as Shl<usize>>⟧.shl_gives a x z) b.now r };

    fn shl(self, rhs: &'b Array<usize, D>) -> Self::Output {
        combine_left_scalar::<LeftShift, usize, usize, D>(self, rhs)
    }
}
