//! `/` and `/=` between arrays, and between an array and a scalar.

ghost use Rattle.std.specs.Prelude.{⊤};
ghost use Rattle.ndarray.specs.Elementwise.{Assigns, CanAssign, CanCombine, CanMap, ClonesAreEqual, MakesCombined, MakesMapped, Maps, UpdatesCombined, UpdatesMapped};

use crate::base::array::{Array, ArrayBase, ArrayView};
use crate::base::dim_max::DimMax;
use crate::base::dimension::Lengths;
use crate::base::storage::{Data, DataMut};
use crate::elements::ScalarOperand;
use crate::ops::assign_operators::{assign, assign_scalar};
use crate::ops::computing::{
    combine, combine_into_left, combine_into_left_by_value, combine_into_right,
    combine_left_scalar, combine_left_scalar_in_place, combine_scalar, combine_scalar_in_place,
};
use crate::ops::operations::{Division, DivisionAssign};
use std::alloc::AllocError;
use std::ops::{Div, DivAssign};

impl<'a, 'b, A, B, S2, D: DimMax<E>, E: Lengths> Div<&'b ArrayBase<S2, E>> for &'a Array<A, D>
where
    A: Clone + Div<B, Output = A>,
    B: Clone,
    S2: Data<Elem = B>,
{
    type Output = Result<Array<A, <D as DimMax<E>>::Output>, AllocError>;

    ghost can_div = { λ a b. CanCombine a.now b.now A.can_div × ClonesAreEqual A.is_clone × ClonesAreEqual B.is_clone };

    ghost div_gives = { λ a b r. MakesCombined D.Output.has_axes A.div_gives a.now b.now r };

    fn div(self, rhs: &'b ArrayBase<S2, E>) -> Self::Output {
        combine::<Division, A, B, _, D, E>(self, rhs)
    }
}

impl<'b, A, B, S2, D: DimMax<E>, E: Lengths> Div<&'b ArrayBase<S2, E>> for Array<A, D>
where
    A: Clone + Div<B, Output = A>,
    B: Clone,
    S2: Data<Elem = B>,
{
    type Output = Result<Array<A, <D as DimMax<E>>::Output>, AllocError>;

    ghost can_div = { λ a b. CanCombine a b.now A.can_div × ClonesAreEqual A.is_clone × ClonesAreEqual B.is_clone };

    ghost div_gives = { λ a b r. UpdatesCombined D.Output.has_axes A.div_gives A.is_infallible B.is_infallible a.lengths a b.now r };

    fn div(self, rhs: &'b ArrayBase<S2, E>) -> Self::Output {
        combine_into_left::<Division, A, B, _, D, E>(self, rhs)
    }
}

impl<A, B, S2, D: DimMax<E>, E: Lengths> Div<ArrayBase<S2, E>> for Array<A, D>
where
    A: Clone + Div<B, Output = A>,
    B: Clone,
    S2: Data<Elem = B>,
{
    type Output = Result<Array<A, <D as DimMax<E>>::Output>, AllocError>;

    ghost can_div = { λ a b. CanCombine a b A.can_div × ClonesAreEqual A.is_clone × ClonesAreEqual B.is_clone };

    ghost div_gives = { λ a b r. UpdatesCombined D.Output.has_axes A.div_gives A.is_infallible B.is_infallible a.lengths a b r };

    fn div(self, rhs: ArrayBase<S2, E>) -> Self::Output {
        combine_into_left_by_value::<Division, A, B, _, D, E>(self, rhs)
    }
}

impl<'a, A, B, S, D: Lengths, E: DimMax<D>> Div<Array<B, E>> for &'a ArrayBase<S, D>
where
    A: Clone + Div<B, Output = B>,
    B: Clone,
    S: Data<Elem = A>,
{
    type Output = Result<Array<B, <E as DimMax<D>>::Output>, AllocError>;

    ghost can_div = { λ a b. CanCombine a.now b A.can_div × ClonesAreEqual A.is_clone × ClonesAreEqual B.is_clone };

    ghost div_gives = { λ a b r. UpdatesCombined E.Output.has_axes A.div_gives A.is_infallible B.is_infallible b.lengths a.now b r };

    fn div(self, rhs: Array<B, E>) -> Self::Output {
        combine_into_right::<Division, A, B, _, D, E>(self, rhs)
    }
}

impl<A, B, D> Div<B> for Array<A, D>
where
    A: Clone + Div<B, Output = A>,
    B: ScalarOperand,
    D: Lengths,
{
    type Output = Result<Array<A, D>, AllocError>;

    ghost can_div = { λ a b. CanMap (λ x. A.can_div x b) a × ClonesAreEqual A.is_clone × ClonesAreEqual B.is_clone };

    ghost div_gives = { λ a b r. UpdatesMapped D.has_axes (λ x z. A.div_gives x b z) (λ x. A.is_infallible x × B.is_infallible b) a r };

    fn div(self, rhs: B) -> Self::Output {
        combine_scalar_in_place::<Division, A, B, D>(self, rhs)
    }
}

impl<'a, A, B, D> Div<B> for &'a Array<A, D>
where
    A: Clone + Div<B, Output = A>,
    B: ScalarOperand,
    D: Lengths,
{
    type Output = Result<Array<A, D>, AllocError>;

    ghost can_div = { λ a b. CanMap (λ x. A.can_div x b) a.now × ClonesAreEqual A.is_clone × ClonesAreEqual B.is_clone };

    ghost div_gives = { λ a b r. MakesMapped D.has_axes (λ x z. A.div_gives x b z) a.now r };

    fn div(self, rhs: B) -> Self::Output {
        combine_scalar::<Division, A, B, D>(self, rhs)
    }
}

impl<'b, A, B, S, S2, D, E> DivAssign<&'b ArrayBase<S2, E>> for ArrayBase<S, D>
where
    A: Copy + DivAssign<B>,
    B: Copy,
    S: DataMut<Elem = A>,
    S2: Data<Elem = B>,
    D: Lengths,
    E: Lengths,
{
    ghost can_div_assign = { λ a b. CanAssign A.can_div_assign a b.now };

    ghost div_assign_gives = { λ a b r. Assigns A.div_assign_gives a b.now r };

    fn div_assign(&mut self, rhs: &'b ArrayBase<S2, E>) {
        assign::<DivisionAssign, A, B, _, _, D, E>(self, rhs)
    }
}

impl<'b, A, B, S, D, E> DivAssign<ArrayView<'b, B, E>> for ArrayBase<S, D>
where
    A: Copy + DivAssign<B>,
    B: Copy,
    S: DataMut<Elem = A>,
    D: Lengths,
    E: Lengths,
{
    ghost can_div_assign = { λ a b. CanAssign A.can_div_assign a b };

    ghost div_assign_gives = { λ a b r. Assigns A.div_assign_gives a b r };

    fn div_assign(&mut self, rhs: ArrayView<'b, B, E>) {
        assign::<DivisionAssign, A, B, _, _, D, E>(self, &rhs)
    }
}

impl<A, S, D> DivAssign<A> for ArrayBase<S, D>
where
    A: ScalarOperand + Copy + DivAssign<A>,
    S: DataMut<Elem = A>,
    D: Lengths,
{
    ghost can_div_assign = { λ a b. CanMap (λ x. A.can_div_assign x b) a };

    ghost div_assign_gives = { λ a b r. Maps (λ x z. A.div_assign_gives x b z) a r };

    fn div_assign(&mut self, rhs: A) {
        assign_scalar::<DivisionAssign, A, A, _, D>(self, rhs)
    }
}

impl<D: Lengths> Div<Array<u8, D>> for u8 {
    type Output = Result<Array<u8, D>, AllocError>;

    ghost can_div = { λ a b. CanMap (λ x. ⟦<u8 as Div<u8>>⟧.can_div a x) b };

    ghost div_gives = { λ a b r. UpdatesMapped D.has_axes (λ x z. ⟦<u8 as Div<u8>>⟧.div_gives a x z) (λ _. ⊤) b r };

    fn div(self, rhs: Array<u8, D>) -> Self::Output {
        combine_left_scalar_in_place::<Division, u8, u8, D>(self, rhs)
    }
}

impl<'b, D: Lengths> Div<&'b Array<u8, D>> for u8 {
    type Output = Result<Array<u8, D>, AllocError>;

    ghost can_div = { λ a b. CanMap (λ x. ⟦<u8 as Div<u8>>⟧.can_div a x) b.now };

    ghost div_gives = { λ a b r. MakesMapped D.has_axes (λ x z. ⟦<u8 as Div<u8>>⟧.div_gives a x z) b.now r };

    fn div(self, rhs: &'b Array<u8, D>) -> Self::Output {
        combine_left_scalar::<Division, u8, u8, D>(self, rhs)
    }
}

impl<D: Lengths> Div<Array<i32, D>> for i32 {
    type Output = Result<Array<i32, D>, AllocError>;

    ghost can_div = { λ a b. CanMap (λ x. ⟦<i32 as Div<i32>>⟧.can_div a x) b };

    ghost div_gives = { λ a b r. UpdatesMapped D.has_axes (λ x z. ⟦<i32 as Div<i32>>⟧.div_gives a x z) (λ _. ⊤) b r };

    fn div(self, rhs: Array<i32, D>) -> Self::Output {
        combine_left_scalar_in_place::<Division, i32, i32, D>(self, rhs)
    }
}

impl<'b, D: Lengths> Div<&'b Array<i32, D>> for i32 {
    type Output = Result<Array<i32, D>, AllocError>;

    ghost can_div = { λ a b. CanMap (λ x. ⟦<i32 as Div<i32>>⟧.can_div a x) b.now };

    ghost div_gives = { λ a b r. MakesMapped D.has_axes (λ x z. ⟦<i32 as Div<i32>>⟧.div_gives a x z) b.now r };

    fn div(self, rhs: &'b Array<i32, D>) -> Self::Output {
        combine_left_scalar::<Division, i32, i32, D>(self, rhs)
    }
}

impl<D: Lengths> Div<Array<i64, D>> for i64 {
    type Output = Result<Array<i64, D>, AllocError>;

    ghost can_div = { λ a b. CanMap (λ x. ⟦<i64 as Div<i64>>⟧.can_div a x) b };

    ghost div_gives = { λ a b r. UpdatesMapped D.has_axes (λ x z. ⟦<i64 as Div<i64>>⟧.div_gives a x z) (λ _. ⊤) b r };

    fn div(self, rhs: Array<i64, D>) -> Self::Output {
        combine_left_scalar_in_place::<Division, i64, i64, D>(self, rhs)
    }
}

impl<'b, D: Lengths> Div<&'b Array<i64, D>> for i64 {
    type Output = Result<Array<i64, D>, AllocError>;

    ghost can_div = { λ a b. CanMap (λ x. ⟦<i64 as Div<i64>>⟧.can_div a x) b.now };

    ghost div_gives = { λ a b r. MakesMapped D.has_axes (λ x z. ⟦<i64 as Div<i64>>⟧.div_gives a x z) b.now r };

    fn div(self, rhs: &'b Array<i64, D>) -> Self::Output {
        combine_left_scalar::<Division, i64, i64, D>(self, rhs)
    }
}

impl<D: Lengths> Div<Array<usize, D>> for usize {
    type Output = Result<Array<usize, D>, AllocError>;

    ghost can_div = { λ a b. CanMap (λ x. ⟦<usize as Div<usize>>⟧.can_div a x) b };

    ghost div_gives = { λ a b r. UpdatesMapped D.has_axes (λ x z. ⟦<usize as Div<usize>>⟧.div_gives a x z) (λ _. ⊤) b r };

    fn div(self, rhs: Array<usize, D>) -> Self::Output {
        combine_left_scalar_in_place::<Division, usize, usize, D>(self, rhs)
    }
}

impl<'b, D: Lengths> Div<&'b Array<usize, D>> for usize {
    type Output = Result<Array<usize, D>, AllocError>;

    ghost can_div = { λ a b. CanMap (λ x. ⟦<usize as Div<usize>>⟧.can_div a x) b.now };

    ghost div_gives = { λ a b r. MakesMapped D.has_axes (λ x z. ⟦<usize as Div<usize>>⟧.div_gives a x z) b.now r };

    fn div(self, rhs: &'b Array<usize, D>) -> Self::Output {
        combine_left_scalar::<Division, usize, usize, D>(self, rhs)
    }
}
