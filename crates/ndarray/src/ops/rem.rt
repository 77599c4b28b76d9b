//! `%` and `%=` between arrays, and between an array and a scalar.

ghost use Rattle.std.specs.Prelude.{⊤};
ghost use Rattle.ndarray.specs.Elementwise.{Assigns, CanAssign, CanCombine, CanMap, ClonesAreEqual, MakesCombined, MakesMapped, Maps, UpdatesCombined, UpdatesMapped};

use crate::base::array::{Array, ArrayBase, ArrayView};
use crate::base::dim_max::DimMax;
use crate::base::dimension::Lengths;
use crate::base::storage::{Data, DataMut};
use crate::elements::ScalarOperand;
use crate::ops::assign_operators::{assign, assign_scalar};
use crate::ops::computing::{
    combine, combine_into_left, combine_into_left_by_value, combine_into_right,
    combine_left_scalar, combine_left_scalar_in_place, combine_scalar, combine_scalar_in_place,
};
use crate::ops::operations::{Remainder, RemainderAssign};
use std::alloc::AllocError;
use std::ops::{Rem, RemAssign};

impl<'a, 'b, A, B, S2, D: DimMax<E>, E: Lengths> Rem<&'b ArrayBase<S2, E>> for &'a Array<A, D>
where
    A: Clone + Rem<B, Output = A>,
    B: Clone,
    S2: Data<Elem = B>,
{
    type Output = Result<Array<A, <D as DimMax<E>>::Output>, AllocError>;

    ghost can_rem = { λ a b. CanCombine a.now b.now A.can_rem × ClonesAreEqual A.is_clone × ClonesAreEqual B.is_clone };

    ghost rem_gives = { λ a b r. MakesCombined D.Output.has_axes A.rem_gives a.now b.now r };

    fn rem(self, rhs: &'b ArrayBase<S2, E>) -> Self::Output {
        combine::<Remainder, A, B, _, D, E>(self, rhs)
    }
}

impl<'b, A, B, S2, D: DimMax<E>, E: Lengths> Rem<&'b ArrayBase<S2, E>> for Array<A, D>
where
    A: Clone + Rem<B, Output = A>,
    B: Clone,
    S2: Data<Elem = B>,
{
    type Output = Result<Array<A, <D as DimMax<E>>::Output>, AllocError>;

    ghost can_rem = { λ a b. CanCombine a b.now A.can_rem × ClonesAreEqual A.is_clone × ClonesAreEqual B.is_clone };

    ghost rem_gives = { λ a b r. UpdatesCombined D.Output.has_axes A.rem_gives A.is_infallible B.is_infallible a.lengths a b.now r };

    fn rem(self, rhs: &'b ArrayBase<S2, E>) -> Self::Output {
        combine_into_left::<Remainder, A, B, _, D, E>(self, rhs)
    }
}

impl<A, B, S2, D: DimMax<E>, E: Lengths> Rem<ArrayBase<S2, E>> for Array<A, D>
where
    A: Clone + Rem<B, Output = A>,
    B: Clone,
    S2: Data<Elem = B>,
{
    type Output = Result<Array<A, <D as DimMax<E>>::Output>, AllocError>;

    ghost can_rem = { λ a b. CanCombine a b A.can_rem × ClonesAreEqual A.is_clone × ClonesAreEqual B.is_clone };

    ghost rem_gives = { λ a b r. UpdatesCombined D.Output.has_axes A.rem_gives A.is_infallible B.is_infallible a.lengths a b r };

    fn rem(self, rhs: ArrayBase<S2, E>) -> Self::Output {
        combine_into_left_by_value::<Remainder, A, B, _, D, E>(self, rhs)
    }
}

impl<'a, A, B, S, D: Lengths, E: DimMax<D>> Rem<Array<B, E>> for &'a ArrayBase<S, D>
where
    A: Clone + Rem<B, Output = B>,
    B: Clone,
    S: Data<Elem = A>,
{
    type Output = Result<Array<B, <E as DimMax<D>>::Output>, AllocError>;

    ghost can_rem = { λ a b. CanCombine a.now b A.can_rem × ClonesAreEqual A.is_clone × ClonesAreEqual B.is_clone };

    ghost rem_gives = { λ a b r. UpdatesCombined E.Output.has_axes A.rem_gives A.is_infallible B.is_infallible b.lengths a.now b r };

    fn rem(self, rhs: Array<B, E>) -> Self::Output {
        combine_into_right::<Remainder, A, B, _, D, E>(self, rhs)
    }
}

impl<A, B, D> Rem<B> for Array<A, D>
where
    A: Clone + Rem<B, Output = A>,
    B: ScalarOperand,
    D: Lengths,
{
    type Output = Result<Array<A, D>, AllocError>;

    ghost can_rem = { λ a b. CanMap (λ x. A.can_rem x b) a × ClonesAreEqual A.is_clone × ClonesAreEqual B.is_clone };

    ghost rem_gives = { λ a b r. UpdatesMapped D.has_axes (λ x z. A.rem_gives x b z) (λ x. A.is_infallible x × B.is_infallible b) a r };

    fn rem(self, rhs: B) -> Self::Output {
        combine_scalar_in_place::<Remainder, A, B, D>(self, rhs)
    }
}

impl<'a, A, B, D> Rem<B> for &'a Array<A, D>
where
    A: Clone + Rem<B, Output = A>,
    B: ScalarOperand,
    D: Lengths,
{
    type Output = Result<Array<A, D>, AllocError>;

    ghost can_rem = { λ a b. CanMap (λ x. A.can_rem x b) a.now × ClonesAreEqual A.is_clone × ClonesAreEqual B.is_clone };

    ghost rem_gives = { λ a b r. MakesMapped D.has_axes (λ x z. A.rem_gives x b z) a.now r };

    fn rem(self, rhs: B) -> Self::Output {
        combine_scalar::<Remainder, A, B, D>(self, rhs)
    }
}

impl<'b, A, B, S, S2, D, E> RemAssign<&'b ArrayBase<S2, E>> for ArrayBase<S, D>
where
    A: Copy + RemAssign<B>,
    B: Copy,
    S: DataMut<Elem = A>,
    S2: Data<Elem = B>,
    D: Lengths,
    E: Lengths,
{
    ghost can_rem_assign = { λ a b. CanAssign A.can_rem_assign a b.now };

    ghost rem_assign_gives = { λ a b r. Assigns A.rem_assign_gives a b.now r };

    fn rem_assign(&mut self, rhs: &'b ArrayBase<S2, E>) {
        assign::<RemainderAssign, A, B, _, _, D, E>(self, rhs)
    }
}

impl<'b, A, B, S, D, E> RemAssign<ArrayView<'b, B, E>> for ArrayBase<S, D>
where
    A: Copy + RemAssign<B>,
    B: Copy,
    S: DataMut<Elem = A>,
    D: Lengths,
    E: Lengths,
{
    ghost can_rem_assign = { λ a b. CanAssign A.can_rem_assign a b };

    ghost rem_assign_gives = { λ a b r. Assigns A.rem_assign_gives a b r };

    fn rem_assign(&mut self, rhs: ArrayView<'b, B, E>) {
        assign::<RemainderAssign, A, B, _, _, D, E>(self, &rhs)
    }
}

impl<A, S, D> RemAssign<A> for ArrayBase<S, D>
where
    A: ScalarOperand + Copy + RemAssign<A>,
    S: DataMut<Elem = A>,
    D: Lengths,
{
    ghost can_rem_assign = { λ a b. CanMap (λ x. A.can_rem_assign x b) a };

    ghost rem_assign_gives = { λ a b r. Maps (λ x z. A.rem_assign_gives x b z) a r };

    fn rem_assign(&mut self, rhs: A) {
        assign_scalar::<RemainderAssign, A, A, _, D>(self, rhs)
    }
}

impl<D: Lengths> Rem<Array<u8, D>> for u8 {
    type Output = Result<Array<u8, D>, AllocError>;

    ghost can_rem = { λ a b. CanMap (λ x. ⟦<u8 as Rem<u8>>⟧.can_rem a x) b };

    ghost rem_gives = { λ a b r. UpdatesMapped D.has_axes (λ x z. ⟦<u8 as Rem<u8>>⟧.rem_gives a x z) (λ _. ⊤) b r };

    fn rem(self, rhs: Array<u8, D>) -> Self::Output {
        combine_left_scalar_in_place::<Remainder, u8, u8, D>(self, rhs)
    }
}

impl<'b, D: Lengths> Rem<&'b Array<u8, D>> for u8 {
    type Output = Result<Array<u8, D>, AllocError>;

    ghost can_rem = { λ a b. CanMap (λ x. ⟦<u8 as Rem<u8>>⟧.can_rem a x) b.now };

    ghost rem_gives = { λ a b r. MakesMapped D.has_axes (λ x z. ⟦<u8 as Rem<u8>>⟧.rem_gives a x z) b.now r };

    fn rem(self, rhs: &'b Array<u8, D>) -> Self::Output {
        combine_left_scalar::<Remainder, u8, u8, D>(self, rhs)
    }
}

impl<D: Lengths> Rem<Array<i32, D>> for i32 {
    type Output = Result<Array<i32, D>, AllocError>;

    ghost can_rem = { λ a b. CanMap (λ x. ⟦<i32 as Rem<i32>>⟧.can_rem a x) b };

    ghost rem_gives = { λ a b r. UpdatesMapped D.has_axes (λ x z. ⟦<i32 as Rem<i32>>⟧.rem_gives a x z) (λ _. ⊤) b r };

    fn rem(self, rhs: Array<i32, D>) -> Self::Output {
        combine_left_scalar_in_place::<Remainder, i32, i32, D>(self, rhs)
    }
}

impl<'b, D: Lengths> Rem<&'b Array<i32, D>> for i32 {
    type Output = Result<Array<i32, D>, AllocError>;

    ghost can_rem = { λ a b. CanMap (λ x. ⟦<i32 as Rem<i32>>⟧.can_rem a x) b.now };

    ghost rem_gives = { λ a b r. MakesMapped D.has_axes (λ x z. ⟦<i32 as Rem<i32>>⟧.rem_gives a x z) b.now r };

    fn rem(self, rhs: &'b Array<i32, D>) -> Self::Output {
        combine_left_scalar::<Remainder, i32, i32, D>(self, rhs)
    }
}

impl<D: Lengths> Rem<Array<i64, D>> for i64 {
    type Output = Result<Array<i64, D>, AllocError>;

    ghost can_rem = { λ a b. CanMap (λ x. ⟦<i64 as Rem<i64>>⟧.can_rem a x) b };

    ghost rem_gives = { λ a b r. UpdatesMapped D.has_axes (λ x z. ⟦<i64 as Rem<i64>>⟧.rem_gives a x z) (λ _. ⊤) b r };

    fn rem(self, rhs: Array<i64, D>) -> Self::Output {
        combine_left_scalar_in_place::<Remainder, i64, i64, D>(self, rhs)
    }
}

impl<'b, D: Lengths> Rem<&'b Array<i64, D>> for i64 {
    type Output = Result<Array<i64, D>, AllocError>;

    ghost can_rem = { λ a b. CanMap (λ x. ⟦<i64 as Rem<i64>>⟧.can_rem a x) b.now };

    ghost rem_gives = { λ a b r. MakesMapped D.has_axes (λ x z. ⟦<i64 as Rem<i64>>⟧.rem_gives a x z) b.now r };

    fn rem(self, rhs: &'b Array<i64, D>) -> Self::Output {
        combine_left_scalar::<Remainder, i64, i64, D>(self, rhs)
    }
}

impl<D: Lengths> Rem<Array<usize, D>> for usize {
    type Output = Result<Array<usize, D>, AllocError>;

    ghost can_rem = { λ a b. CanMap (λ x. ⟦<usize as Rem<usize>>⟧.can_rem a x) b };

    ghost rem_gives = { λ a b r. UpdatesMapped D.has_axes (λ x z. ⟦<usize as Rem<usize>>⟧.rem_gives a x z) (λ _. ⊤) b r };

    fn rem(self, rhs: Array<usize, D>) -> Self::Output {
        combine_left_scalar_in_place::<Remainder, usize, usize, D>(self, rhs)
    }
}

impl<'b, D: Lengths> Rem<&'b Array<usize, D>> for usize {
    type Output = Result<Array<usize, D>, AllocError>;

    ghost can_rem = { λ a b. CanMap (λ x. ⟦<usize as Rem<usize>>⟧.can_rem a x) b.now };

    ghost rem_gives = { λ a b r. MakesMapped D.has_axes (λ x z. ⟦<usize as Rem<usize>>⟧.rem_gives a x z) b.now r };

    fn rem(self, rhs: &'b Array<usize, D>) -> Self::Output {
        combine_left_scalar::<Remainder, usize, usize, D>(self, rhs)
    }
}
