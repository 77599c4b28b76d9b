//! `>>` and `>>=` between arrays, and between an array and a scalar.

ghost use Rattle.std.specs.Prelude.{⊤};
ghost use Rattle.ndarray.specs.Elementwise.{Assigns, CanAssign, CanCombine, CanMap, ClonesAreEqual, MakesCombined, MakesMapped, Maps, UpdatesCombined, UpdatesMapped};

use crate::base::array::{Array, ArrayBase, ArrayView};
use crate::base::dim_max::DimMax;
use crate::base::dimension::Lengths;
use crate::base::storage::{Data, DataMut};
use crate::elements::ScalarOperand;
use crate::ops::assign_operators::{assign, assign_scalar};
use crate::ops::computing::{
    combine, combine_into_left, combine_into_left_by_value, combine_into_right,
    combine_left_scalar, combine_left_scalar_in_place, combine_scalar, combine_scalar_in_place,
};
use crate::ops::operations::{RightShift, RightShiftAssign};
use std::alloc::AllocError;
use std::ops::{Shr, ShrAssign};

impl<'a, 'b, A, B, S2, D: DimMax<E>, E: Lengths> Shr<&'b ArrayBase<S2, E>> for &'a Array<A, D>
where
    A: Clone + Shr<B, Output = A>,
    B: Clone,
    S2: Data<Elem = B>,
{
    type Output = Result<Array<A, <D as DimMax<E>>::Output>, AllocError>;

    ghost can_shr = { λ a b. CanCombine a.now b.now A.can_shr × ClonesAreEqual A.is_clone × ClonesAreEqual B.is_clone };

    ghost shr_gives = { λ a b r. MakesCombined D.Output.has_axes A.shr_gives a.now b.now r };

    fn shr(self, rhs: &'b ArrayBase<S2, E>) -> Self::Output {
        combine::<RightShift, A, B, _, D, E>(self, rhs)
    }
}

impl<'b, A, B, S2, D: DimMax<E>, E: Lengths> Shr<&'b ArrayBase<S2, E>> for Array<A, D>
where
    A: Clone + Shr<B, Output = A>,
    B: Clone,
    S2: Data<Elem = B>,
{
    type Output = Result<Array<A, <D as DimMax<E>>::Output>, AllocError>;

    ghost can_shr = { λ a b. CanCombine a b.now A.can_shr × ClonesAreEqual A.is_clone × ClonesAreEqual B.is_clone };

    ghost shr_gives = { λ a b r. UpdatesCombined D.Output.has_axes A.shr_gives A.is_infallible B.is_infallible a.lengths a b.now r };

    fn shr(self, rhs: &'b ArrayBase<S2, E>) -> Self::Output {
        combine_into_left::<RightShift, A, B, _, D, E>(self, rhs)
    }
}

impl<A, B, S2, D: DimMax<E>, E: Lengths> Shr<ArrayBase<S2, E>> for Array<A, D>
where
    A: Clone + Shr<B, Output = A>,
    B: Clone,
    S2: Data<Elem = B>,
{
    type Output = Result<Array<A, <D as DimMax<E>>::Output>, AllocError>;

    ghost can_shr = { λ a b. CanCombine a b A.can_shr × ClonesAreEqual A.is_clone × ClonesAreEqual B.is_clone };

    ghost shr_gives = { λ a b r. UpdatesCombined D.Output.has_axes A.shr_gives A.is_infallible B.is_infallible a.lengths a b r };

    fn shr(self, rhs: ArrayBase<S2, E>) -> Self::Output {
        combine_into_left_by_value::<RightShift, A, B, _, D, E>(self, rhs)
    }
}

impl<'a, A, B, S, D: Lengths, E: DimMax<D>> Shr<Array<B, E>> for &'a ArrayBase<S, D>
where
    A: Clone + Shr<B, Output = B>,
    B: Clone,
    S: Data<Elem = A>,
{
    type Output = Result<Array<B, <E as DimMax<D>>::Output>, AllocError>;

    ghost can_shr = { λ a b. CanCombine a.now b A.can_shr × ClonesAreEqual A.is_clone × ClonesAreEqual B.is_clone };

    ghost shr_gives = { λ a b r. UpdatesCombined E.Output.has_axes A.shr_gives A.is_infallible B.is_infallible b.lengths a.now b r };

    fn shr(self, rhs: Array<B, E>) -> Self::Output {
        combine_into_right::<RightShift, A, B, _, D, E>(self, rhs)
    }
}

impl<A, B, D> Shr<B> for Array<A, D>
where
    A: Clone + Shr<B, Output = A>,
    B: ScalarOperand,
    D: Lengths,
{
    type Output = Result<Array<A, D>, AllocError>;

    ghost can_shr = { λ a b. CanMap (λ x. A.can_shr x b) a × ClonesAreEqual A.is_clone × ClonesAreEqual B.is_clone };

    ghost shr_gives = { λ a b r. UpdatesMapped D.has_axes (λ x z. A.shr_gives x b z) (λ x. A.is_infallible x × B.is_infallible b) a r };

    fn shr(self, rhs: B) -> Self::Output {
        combine_scalar_in_place::<RightShift, A, B, D>(self, rhs)
    }
}

impl<'a, A, B, D> Shr<B> for &'a Array<A, D>
where
    A: Clone + Shr<B, Output = A>,
    B: ScalarOperand,
    D: Lengths,
{
    type Output = Result<Array<A, D>, AllocError>;

    ghost can_shr = { λ a b. CanMap (λ x. A.can_shr x b) a.now × ClonesAreEqual A.is_clone × ClonesAreEqual B.is_clone };

    ghost shr_gives = { λ a b r. MakesMapped D.has_axes (λ x z. A.shr_gives x b z) a.now r };

    fn shr(self, rhs: B) -> Self::Output {
        combine_scalar::<RightShift, A, B, D>(self, rhs)
    }
}

impl<'b, A, B, S, S2, D, E> ShrAssign<&'b ArrayBase<S2, E>> for ArrayBase<S, D>
where
    A: Copy + ShrAssign<B>,
    B: Copy,
    S: DataMut<Elem = A>,
    S2: Data<Elem = B>,
    D: Lengths,
    E: Lengths,
{
    ghost can_shr_assign = { λ a b. CanAssign A.can_shr_assign a b.now };

    ghost shr_assign_gives = { λ a b r. Assigns A.shr_assign_gives a b.now r };

    fn shr_assign(&mut self, rhs: &'b ArrayBase<S2, E>) {
        assign::<RightShiftAssign, A, B, _, _, D, E>(self, rhs)
    }
}

impl<'b, A, B, S, D, E> ShrAssign<ArrayView<'b, B, E>> for ArrayBase<S, D>
where
    A: Copy + ShrAssign<B>,
    B: Copy,
    S: DataMut<Elem = A>,
    D: Lengths,
    E: Lengths,
{
    ghost can_shr_assign = { λ a b. CanAssign A.can_shr_assign a b };

    ghost shr_assign_gives = { λ a b r. Assigns A.shr_assign_gives a b r };

    fn shr_assign(&mut self, rhs: ArrayView<'b, B, E>) {
        assign::<RightShiftAssign, A, B, _, _, D, E>(self, &rhs)
    }
}

impl<A, S, D> ShrAssign<A> for ArrayBase<S, D>
where
    A: ScalarOperand + Copy + ShrAssign<A>,
    S: DataMut<Elem = A>,
    D: Lengths,
{
    ghost can_shr_assign = { λ a b. CanMap (λ x. A.can_shr_assign x b) a };

    ghost shr_assign_gives = { λ a b r. Maps (λ x z. A.shr_assign_gives x b z) a r };

    fn shr_assign(&mut self, rhs: A) {
        assign_scalar::<RightShiftAssign, A, A, _, D>(self, rhs)
    }
}

impl<D: Lengths> Shr<Array<u8, D>> for u8 {
    type Output = Result<Array<u8, D>, AllocError>;

    ghost can_shr = { λ a b. CanMap (λ x. ⟦<u8 as Shr<u8>>⟧.can_shr a x) b };

    ghost shr_gives = { λ a b r. UpdatesMapped D.has_axes (λ x z. ⟦<u8 as Shr<u8>>⟧.shr_gives a x z) (λ _. ⊤) b r };

    fn shr(self, rhs: Array<u8, D>) -> Self::Output {
        combine_left_scalar_in_place::<RightShift, u8, u8, D>(self, rhs)
    }
}

impl<'b, D: Lengths> Shr<&'b Array<u8, D>> for u8 {
    type Output = Result<Array<u8, D>, AllocError>;

    ghost can_shr = { λ a b. CanMap (λ x. ⟦<u8 as Shr<u8>>⟧.can_shr a x) b.now };

    ghost shr_gives = { λ a b r. MakesMapped D.has_axes (λ x z. ⟦<u8 as Shr<u8>>⟧.shr_gives a x z) b.now r };

    fn shr(self, rhs: &'b Array<u8, D>) -> Self::Output {
        combine_left_scalar::<RightShift, u8, u8, D>(self, rhs)
    }
}

impl<D: Lengths> Shr<Array<i32, D>> for i32 {
    type Output = Result<Array<i32, D>, AllocError>;

    ghost can_shr = { λ a b. CanMap (λ x. ⟦<i32 as Shr<i32>>⟧.can_shr a x) b };

    ghost shr_gives = { λ a b r. UpdatesMapped D.has_axes (λ x z. ⟦<i32 as Shr<i32>>⟧.shr_gives a x z) (λ _. ⊤) b r };

    fn shr(self, rhs: Array<i32, D>) -> Self::Output {
        combine_left_scalar_in_place::<RightShift, i32, i32, D>(self, rhs)
    }
}

impl<'b, D: Lengths> Shr<&'b Array<i32, D>> for i32 {
    type Output = Result<Array<i32, D>, AllocError>;

    ghost can_shr = { λ a b. CanMap (λ x. ⟦<i32 as Shr<i32>>⟧.can_shr a x) b.now };

    ghost shr_gives = { λ a b r. MakesMapped D.has_axes (λ x z. ⟦<i32 as Shr<i32>>⟧.shr_gives a x z) b.now r };

    fn shr(self, rhs: &'b Array<i32, D>) -> Self::Output {
        combine_left_scalar::<RightShift, i32, i32, D>(self, rhs)
    }
}

impl<D: Lengths> Shr<Array<i64, D>> for i64 {
    type Output = Result<Array<i64, D>, AllocError>;

    ghost can_shr = { λ a b. CanMap (λ x. ⟦<i64 as Shr<i64>>⟧.can_shr a x) b };

    ghost shr_gives = { λ a b r. UpdatesMapped D.has_axes (λ x z. ⟦<i64 as Shr<i64>>⟧.shr_gives a x z) (λ _. ⊤) b r };

    fn shr(self, rhs: Array<i64, D>) -> Self::Output {
        combine_left_scalar_in_place::<RightShift, i64, i64, D>(self, rhs)
    }
}

impl<'b, D: Lengths> Shr<&'b Array<i64, D>> for i64 {
    type Output = Result<Array<i64, D>, AllocError>;

    ghost can_shr = { λ a b. CanMap (λ x. ⟦<i64 as Shr<i64>>⟧.can_shr a x) b.now };

    ghost shr_gives = { λ a b r. MakesMapped D.has_axes (λ x z. ⟦<i64 as Shr<i64>>⟧.shr_gives a x z) b.now r };

    fn shr(self, rhs: &'b Array<i64, D>) -> Self::Output {
        combine_left_scalar::<RightShift, i64, i64, D>(self, rhs)
    }
}

impl<D: Lengths> Shr<Array<usize, D>> for usize {
    type Output = Result<Array<usize, D>, AllocError>;

    ghost can_shr = { λ a b. CanMap (λ x. ⟦<usize as Shr<usize>>⟧.can_shr a x) b };

    ghost shr_gives = { λ a b r. UpdatesMapped D.has_axes (λ x z. ⟦<usize as Shr<usize>>⟧.shr_gives a x z) (λ _. ⊤) b r };

    fn shr(self, rhs: Array<usize, D>) -> Self::Output {
        combine_left_scalar_in_place::<RightShift, usize, usize, D>(self, rhs)
    }
}

impl<'b, D: Lengths> Shr<&'b Array<usize, D>> for usize {
    type Output = Result<Array<usize, D>, AllocError>;

    ghost can_shr = { λ a b. CanMap (λ x. ⟦<usize as Shr<usize>>⟧.can_shr a x) b.now };

    ghost shr_gives = { λ a b r. MakesMapped D.has_axes (λ x z. ⟦<usize as Shr<usize>>⟧.shr_gives a x z) b.now r };

    fn shr(self, rhs: &'b Array<usize, D>) -> Self::Output {
        combine_left_scalar::<RightShift, usize, usize, D>(self, rhs)
    }
}
