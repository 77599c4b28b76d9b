//! `*` and `*=` between arrays, and between an array and a scalar.

ghost use Rattle.std.specs.Prelude.{⊤};
ghost use Rattle.ndarray.specs.Elementwise.{Assigns, CanAssign, CanCombine, CanMap, ClonesAreEqual, MakesCombined, MakesMapped, Maps, UpdatesCombined, UpdatesMapped};

use crate::base::array::{Array, ArrayBase, ArrayView};
use crate::base::dim_max::DimMax;
use crate::base::dimension::Lengths;
use crate::base::storage::{Data, DataMut};
use crate::elements::ScalarOperand;
use crate::ops::assign_operators::{assign, assign_scalar};
use crate::ops::computing::{
    combine, combine_into_left, combine_into_left_by_value, combine_into_right,
    combine_left_scalar, combine_left_scalar_in_place, combine_scalar, combine_scalar_in_place,
};
use crate::ops::operations::{Multiplication, MultiplicationAssign};
use std::alloc::AllocError;
use std::ops::{Mul, MulAssign};

impl<'a, 'b, A, B, S2, D: DimMax<E>, E: Lengths> Mul<&'b ArrayBase<S2, E>> for &'a Array<A, D>
where
    A: Clone + Mul<B, Output = A>,
    B: Clone,
    S2: Data<Elem = B>,
{
    type Output = Result<Array<A, <D as DimMax<E>>::Output>, AllocError>;

    ghost can_mul = { λ a b. CanCombine a.now b.now A.can_mul × ClonesAreEqual A.is_clone × ClonesAreEqual B.is_clone };

    ghost mul_gives = { λ a b r. MakesCombined D.Output.has_axes A.mul_gives a.now b.now r };

    fn mul(self, rhs: &'b ArrayBase<S2, E>) -> Self::Output {
        combine::<Multiplication, A, B, _, D, E>(self, rhs)
    }
}

impl<'b, A, B, S2, D: DimMax<E>, E: Lengths> Mul<&'b ArrayBase<S2, E>> for Array<A, D>
where
    A: Clone + Mul<B, Output = A>,
    B: Clone,
    S2: Data<Elem = B>,
{
    type Output = Result<Array<A, <D as DimMax<E>>::Output>, AllocError>;

    ghost can_mul = { λ a b. CanCombine a b.now A.can_mul × ClonesAreEqual A.is_clone × ClonesAreEqual B.is_clone };

    ghost mul_gives = { λ a b r. UpdatesCombined D.Output.has_axes A.mul_gives A.is_infallible B.is_infallible a.lengths a b.now r };

    fn mul(self, rhs: &'b ArrayBase<S2, E>) -> Self::Output {
        combine_into_left::<Multiplication, A, B, _, D, E>(self, rhs)
    }
}

impl<A, B, S2, D: DimMax<E>, E: Lengths> Mul<ArrayBase<S2, E>> for Array<A, D>
where
    A: Clone + Mul<B, Output = A>,
    B: Clone,
    S2: Data<Elem = B>,
{
    type Output = Result<Array<A, <D as DimMax<E>>::Output>, AllocError>;

    ghost can_mul = { λ a b. CanCombine a b A.can_mul × ClonesAreEqual A.is_clone × ClonesAreEqual B.is_clone };

    ghost mul_gives = { λ a b r. UpdatesCombined D.Output.has_axes A.mul_gives A.is_infallible B.is_infallible a.lengths a b r };

    fn mul(self, rhs: ArrayBase<S2, E>) -> Self::Output {
        combine_into_left_by_value::<Multiplication, A, B, _, D, E>(self, rhs)
    }
}

impl<'a, A, B, S, D: Lengths, E: DimMax<D>> Mul<Array<B, E>> for &'a ArrayBase<S, D>
where
    A: Clone + Mul<B, Output = B>,
    B: Clone,
    S: Data<Elem = A>,
{
    type Output = Result<Array<B, <E as DimMax<D>>::Output>, AllocError>;

    ghost can_mul = { λ a b. CanCombine a.now b A.can_mul × ClonesAreEqual A.is_clone × ClonesAreEqual B.is_clone };

    ghost mul_gives = { λ a b r. UpdatesCombined E.Output.has_axes A.mul_gives A.is_infallible B.is_infallible b.lengths a.now b r };

    fn mul(self, rhs: Array<B, E>) -> Self::Output {
        combine_into_right::<Multiplication, A, B, _, D, E>(self, rhs)
    }
}

impl<A, B, D> Mul<B> for Array<A, D>
where
    A: Clone + Mul<B, Output = A>,
    B: ScalarOperand,
    D: Lengths,
{
    type Output = Result<Array<A, D>, AllocError>;

    ghost can_mul = { λ a b. CanMap (λ x. A.can_mul x b) a × ClonesAreEqual A.is_clone × ClonesAreEqual B.is_clone };

    ghost mul_gives = { λ a b r. UpdatesMapped D.has_axes (λ x z. A.mul_gives x b z) (λ x. A.is_infallible x × B.is_infallible b) a r };

    fn mul(self, rhs: B) -> Self::Output {
        combine_scalar_in_place::<Multiplication, A, B, D>(self, rhs)
    }
}

impl<'a, A, B, D> Mul<B> for &'a Array<A, D>
where
    A: Clone + Mul<B, Output = A>,
    B: ScalarOperand,
    D: Lengths,
{
    type Output = Result<Array<A, D>, AllocError>;

    ghost can_mul = { λ a b. CanMap (λ x. A.can_mul x b) a.now × ClonesAreEqual A.is_clone × ClonesAreEqual B.is_clone };

    ghost mul_gives = { λ a b r. MakesMapped D.has_axes (λ x z. A.mul_gives x b z) a.now r };

    fn mul(self, rhs: B) -> Self::Output {
        combine_scalar::<Multiplication, A, B, D>(self, rhs)
    }
}

impl<'b, A, B, S, S2, D, E> MulAssign<&'b ArrayBase<S2, E>> for ArrayBase<S, D>
where
    A: Copy + MulAssign<B>,
    B: Copy,
    S: DataMut<Elem = A>,
    S2: Data<Elem = B>,
    D: Lengths,
    E: Lengths,
{
    ghost can_mul_assign = { λ a b. CanAssign A.can_mul_assign a b.now };

    ghost mul_assign_gives = { λ a b r. Assigns A.mul_assign_gives a b.now r };

    fn mul_assign(&mut self, rhs: &'b ArrayBase<S2, E>) {
        assign::<MultiplicationAssign, A, B, _, _, D, E>(self, rhs)
    }
}

impl<'b, A, B, S, D, E> MulAssign<ArrayView<'b, B, E>> for ArrayBase<S, D>
where
    A: Copy + MulAssign<B>,
    B: Copy,
    S: DataMut<Elem = A>,
    D: Lengths,
    E: Lengths,
{
    ghost can_mul_assign = { λ a b. CanAssign A.can_mul_assign a b };

    ghost mul_assign_gives = { λ a b r. Assigns A.mul_assign_gives a b r };

    fn mul_assign(&mut self, rhs: ArrayView<'b, B, E>) {
        assign::<MultiplicationAssign, A, B, _, _, D, E>(self, &rhs)
    }
}

impl<A, S, D> MulAssign<A> for ArrayBase<S, D>
where
    A: ScalarOperand + Copy + MulAssign<A>,
    S: DataMut<Elem = A>,
    D: Lengths,
{
    ghost can_mul_assign = { λ a b. CanMap (λ x. A.can_mul_assign x b) a };

    ghost mul_assign_gives = { λ a b r. Maps (λ x z. A.mul_assign_gives x b z) a r };

    fn mul_assign(&mut self, rhs: A) {
        assign_scalar::<MultiplicationAssign, A, A, _, D>(self, rhs)
    }
}

impl<D: Lengths> Mul<Array<u8, D>> for u8 {
    type Output = Result<Array<u8, D>, AllocError>;

    ghost can_mul = { λ a b. CanMap (λ x. ⟦<u8 as Mul<u8>>⟧.can_mul a x) b };

    ghost mul_gives = { λ a b r. UpdatesMapped D.has_axes (λ x z. ⟦<u8 as Mul<u8>>⟧.mul_gives a x z) (λ _. ⊤) b r };

    fn mul(self, rhs: Array<u8, D>) -> Self::Output {
        combine_left_scalar_in_place::<Multiplication, u8, u8, D>(self, rhs)
    }
}

impl<'b, D: Lengths> Mul<&'b Array<u8, D>> for u8 {
    type Output = Result<Array<u8, D>, AllocError>;

    ghost can_mul = { λ a b. CanMap (λ x. ⟦<u8 as Mul<u8>>⟧.can_mul a x) b.now };

    ghost mul_gives = { λ a b r. MakesMapped D.has_axes (λ x z. ⟦<u8 as Mul<u8>>⟧.mul_gives a x z) b.now r };

    fn mul(self, rhs: &'b Array<u8, D>) -> Self::Output {
        combine_left_scalar::<Multiplication, u8, u8, D>(self, rhs)
    }
}

impl<D: Lengths> Mul<Array<i32, D>> for i32 {
    type Output = Result<Array<i32, D>, AllocError>;

    ghost can_mul = { λ a b. CanMap (λ x. ⟦<i32 as Mul<i32>>⟧.can_mul a x) b };

    ghost mul_gives = { λ a b r. UpdatesMapped D.has_axes (λ x z. ⟦<i32 as Mul<i32>>⟧.mul_gives a x z) (λ _. ⊤) b r };

    fn mul(self, rhs: Array<i32, D>) -> Self::Output {
        combine_left_scalar_in_place::<Multiplication, i32, i32, D>(self, rhs)
    }
}

impl<'b, D: Lengths> Mul<&'b Array<i32, D>> for i32 {
    type Output = Result<Array<i32, D>, AllocError>;

    ghost can_mul = { λ a b. CanMap (λ x. ⟦<i32 as Mul<i32>>⟧.can_mul a x) b.now };

    ghost mul_gives = { λ a b r. MakesMapped D.has_axes (λ x z. ⟦<i32 as Mul<i32>>⟧.mul_gives a x z) b.now r };

    fn mul(self, rhs: &'b Array<i32, D>) -> Self::Output {
        combine_left_scalar::<Multiplication, i32, i32, D>(self, rhs)
    }
}

impl<D: Lengths> Mul<Array<i64, D>> for i64 {
    type Output = Result<Array<i64, D>, AllocError>;

    ghost can_mul = { λ a b. CanMap (λ x. ⟦<i64 as Mul<i64>>⟧.can_mul a x) b };

    ghost mul_gives = { λ a b r. UpdatesMapped D.has_axes (λ x z. ⟦<i64 as Mul<i64>>⟧.mul_gives a x z) (λ _. ⊤) b r };

    fn mul(self, rhs: Array<i64, D>) -> Self::Output {
        combine_left_scalar_in_place::<Multiplication, i64, i64, D>(self, rhs)
    }
}

impl<'b, D: Lengths> Mul<&'b Array<i64, D>> for i64 {
    type Output = Result<Array<i64, D>, AllocError>;

    ghost can_mul = { λ a b. CanMap (λ x. ⟦<i64 as Mul<i64>>⟧.can_mul a x) b.now };

    ghost mul_gives = { λ a b r. MakesMapped D.has_axes (λ x z. ⟦<i64 as Mul<i64>>⟧.mul_gives a x z) b.now r };

    fn mul(self, rhs: &'b Array<i64, D>) -> Self::Output {
        combine_left_scalar::<Multiplication, i64, i64, D>(self, rhs)
    }
}

impl<D: Lengths> Mul<Array<usize, D>> for usize {
    type Output = Result<Array<usize, D>, AllocError>;

    ghost can_mul = { λ a b. CanMap (λ x. ⟦<usize as Mul<usize>>⟧.can_mul a x) b };

    ghost mul_gives = { λ a b r. UpdatesMapped D.has_axes (λ x z. ⟦<usize as Mul<usize>>⟧.mul_gives a x z) (λ _. ⊤) b r };

    fn mul(self, rhs: Array<usize, D>) -> Self::Output {
        combine_left_scalar_in_place::<Multiplication, usize, usize, D>(self, rhs)
    }
}

impl<'b, D: Lengths> Mul<&'b Array<usize, D>> for usize {
    type Output = Result<Array<usize, D>, AllocError>;

    ghost can_mul = { λ a b. CanMap (λ x. ⟦<usize as Mul<usize>>⟧.can_mul a x) b.now };

    ghost mul_gives = { λ a b r. MakesMapped D.has_axes (λ x z. ⟦<usize as Mul<usize>>⟧.mul_gives a x z) b.now r };

    fn mul(self, rhs: &'b Array<usize, D>) -> Self::Output {
        combine_left_scalar::<Multiplication, usize, usize, D>(self, rhs)
    }
}
