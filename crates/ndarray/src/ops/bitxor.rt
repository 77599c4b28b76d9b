//! `^` and `^=` between arrays, and between an array and a scalar.

ghost use Rattle.std.specs.Prelude.{⊤};
ghost use Rattle.ndarray.specs.Elementwise.{Assigns, CanAssign, CanCombine, CanMap, ClonesAreEqual, MakesCombined, MakesMapped, Maps, UpdatesCombined, UpdatesMapped};

use crate::base::array::{Array, ArrayBase, ArrayView};
use crate::base::dim_max::DimMax;
use crate::base::dimension::Lengths;
use crate::base::storage::{Data, DataMut};
use crate::elements::ScalarOperand;
use crate::ops::assign_operators::{assign, assign_scalar};
use crate::ops::computing::{
    combine, combine_into_left, combine_into_left_by_value, combine_into_right,
    combine_left_scalar, combine_left_scalar_in_place, combine_scalar, combine_scalar_in_place,
};
use crate::ops::operations::{ExclusiveDisjunction, ExclusiveDisjunctionAssign};
use std::alloc::AllocError;
use std::ops::{BitXor, BitXorAssign};

impl<'a, 'b, A, B, S2, D: DimMax<E>, E: Lengths> BitXor<&'b ArrayBase<S2, E>> for &'a Array<A, D>
where
    A: Clone + BitXor<B, Output = A>,
    B: Clone,
    S2: Data<Elem = B>,
{
    type Output = Result<Array<A, <D as DimMax<E>>::Output>, AllocError>;

    ghost can_bitxor = { λ a b. CanCombine a.now b.now A.can_bitxor × ClonesAreEqual A.is_clone × ClonesAreEqual B.is_clone };

    ghost bitxor_gives = { λ a b r. MakesCombined D.Output.has_axes A.bitxor_gives a.now b.now r };

    fn bitxor(self, rhs: &'b ArrayBase<S2, E>) -> Self::Output {
        combine::<ExclusiveDisjunction, A, B, _, D, E>(self, rhs)
    }
}

impl<'b, A, B, S2, D: DimMax<E>, E: Lengths> BitXor<&'b ArrayBase<S2, E>> for Array<A, D>
where
    A: Clone + BitXor<B, Output = A>,
    B: Clone,
    S2: Data<Elem = B>,
{
    type Output = Result<Array<A, <D as DimMax<E>>::Output>, AllocError>;

    ghost can_bitxor = { λ a b. CanCombine a b.now A.can_bitxor × ClonesAreEqual A.is_clone × ClonesAreEqual B.is_clone };

    ghost bitxor_gives = { λ a b r. UpdatesCombined D.Output.has_axes A.bitxor_gives A.is_infallible B.is_infallible a.lengths a b.now r };

    fn bitxor(self, rhs: &'b ArrayBase<S2, E>) -> Self::Output {
        combine_into_left::<ExclusiveDisjunction, A, B, _, D, E>(self, rhs)
    }
}

impl<A, B, S2, D: DimMax<E>, E: Lengths> BitXor<ArrayBase<S2, E>> for Array<A, D>
where
    A: Clone + BitXor<B, Output = A>,
    B: Clone,
    S2: Data<Elem = B>,
{
    type Output = Result<Array<A, <D as DimMax<E>>::Output>, AllocError>;

    ghost can_bitxor = { λ a b. CanCombine a b A.can_bitxor × ClonesAreEqual A.is_clone × ClonesAreEqual B.is_clone };

    ghost bitxor_gives = { λ a b r. UpdatesCombined D.Output.has_axes A.bitxor_gives A.is_infallible B.is_infallible a.lengths a b r };

    fn bitxor(self, rhs: ArrayBase<S2, E>) -> Self::Output {
        combine_into_left_by_value::<ExclusiveDisjunction, A, B, _, D, E>(self, rhs)
    }
}

impl<'a, A, B, S, D: Lengths, E: DimMax<D>> BitXor<Array<B, E>> for &'a ArrayBase<S, D>
where
    A: Clone + BitXor<B, Output = B>,
    B: Clone,
    S: Data<Elem = A>,
{
    type Output = Result<Array<B, <E as DimMax<D>>::Output>, AllocError>;

    ghost can_bitxor = { λ a b. CanCombine a.now b A.can_bitxor × ClonesAreEqual A.is_clone × ClonesAreEqual B.is_clone };

    ghost bitxor_gives = { λ a b r. UpdatesCombined E.Output.has_axes A.bitxor_gives A.is_infallible B.is_infallible b.lengths a.now b r };

    fn bitxor(self, rhs: Array<B, E>) -> Self::Output {
        combine_into_right::<ExclusiveDisjunction, A, B, _, D, E>(self, rhs)
    }
}

impl<A, B, D> BitXor<B> for Array<A, D>
where
    A: Clone + BitXor<B, Output = A>,
    B: ScalarOperand,
    D: Lengths,
{
    type Output = Result<Array<A, D>, AllocError>;

    ghost can_bitxor = { λ a b. CanMap (λ x. A.can_bitxor x b) a × ClonesAreEqual A.is_clone × ClonesAreEqual B.is_clone };

    ghost bitxor_gives = { λ a b r. UpdatesMapped D.has_axes (λ x z. A.bitxor_gives x b z) (λ x. A.is_infallible x × B.is_infallible b) a r };

    fn bitxor(self, rhs: B) -> Self::Output {
        combine_scalar_in_place::<ExclusiveDisjunction, A, B, D>(self, rhs)
    }
}

impl<'a, A, B, D> BitXor<B> for &'a Array<A, D>
where
    A: Clone + BitXor<B, Output = A>,
    B: ScalarOperand,
    D: Lengths,
{
    type Output = Result<Array<A, D>, AllocError>;

    ghost can_bitxor = { λ a b. CanMap (λ x. A.can_bitxor x b) a.now × ClonesAreEqual A.is_clone × ClonesAreEqual B.is_clone };

    ghost bitxor_gives = { λ a b r. MakesMapped D.has_axes (λ x z. A.bitxor_gives x b z) a.now r };

    fn bitxor(self, rhs: B) -> Self::Output {
        combine_scalar::<ExclusiveDisjunction, A, B, D>(self, rhs)
    }
}

impl<'b, A, B, S, S2, D, E> BitXorAssign<&'b ArrayBase<S2, E>> for ArrayBase<S, D>
where
    A: Copy + BitXorAssign<B>,
    B: Copy,
    S: DataMut<Elem = A>,
    S2: Data<Elem = B>,
    D: Lengths,
    E: Lengths,
{
    ghost can_bitxor_assign = { λ a b. CanAssign A.can_bitxor_assign a b.now };

    ghost bitxor_assign_gives = { λ a b r. Assigns A.bitxor_assign_gives a b.now r };

    fn bitxor_assign(&mut self, rhs: &'b ArrayBase<S2, E>) {
        assign::<ExclusiveDisjunctionAssign, A, B, _, _, D, E>(self, rhs)
    }
}

impl<'b, A, B, S, D, E> BitXorAssign<ArrayView<'b, B, E>> for ArrayBase<S, D>
where
    A: Copy + BitXorAssign<B>,
    B: Copy,
    S: DataMut<Elem = A>,
    D: Lengths,
    E: Lengths,
{
    ghost can_bitxor_assign = { λ a b. CanAssign A.can_bitxor_assign a b };

    ghost bitxor_assign_gives = { λ a b r. Assigns A.bitxor_assign_gives a b r };

    fn bitxor_assign(&mut self, rhs: ArrayView<'b, B, E>) {
        assign::<ExclusiveDisjunctionAssign, A, B, _, _, D, E>(self, &rhs)
    }
}

impl<A, S, D> BitXorAssign<A> for ArrayBase<S, D>
where
    A: ScalarOperand + Copy + BitXorAssign<A>,
    S: DataMut<Elem = A>,
    D: Lengths,
{
    ghost can_bitxor_assign = { λ a b. CanMap (λ x. A.can_bitxor_assign x b) a };

    ghost bitxor_assign_gives = { λ a b r. Maps (λ x z. A.bitxor_assign_gives x b z) a r };

    fn bitxor_assign(&mut self, rhs: A) {
        assign_scalar::<ExclusiveDisjunctionAssign, A, A, _, D>(self, rhs)
    }
}

impl<D: Lengths> BitXor<Array<u8, D>> for u8 {
    type Output = Result<Array<u8, D>, AllocError>;

    ghost can_bitxor = { λ a b. CanMap (λ x. ⟦<u8 as BitXor<u8>>⟧.can_bitxor a x) b };

    ghost bitxor_gives = { λ a b r. UpdatesMapped D.has_axes (λ x z. ⟦<u8 as BitXor<u8>>⟧.bitxor_gives a x z) (λ _. ⊤) b r };

    fn bitxor(self, rhs: Array<u8, D>) -> Self::Output {
        combine_left_scalar_in_place::<ExclusiveDisjunction, u8, u8, D>(self, rhs)
    }
}

impl<'b, D: Lengths> BitXor<&'b Array<u8, D>> for u8 {
    type Output = Result<Array<u8, D>, AllocError>;

    ghost can_bitxor = { λ a b. CanMap (λ x. ⟦<u8 as BitXor<u8>>⟧.can_bitxor a x) b.now };

    ghost bitxor_gives = { λ a b r. MakesMapped D.has_axes (λ x z. ⟦<u8 as BitXor<u8>>⟧.bitxor_gives a x z) b.now r };

    fn bitxor(self, rhs: &'b Array<u8, D>) -> Self::Output {
        combine_left_scalar::<ExclusiveDisjunction, u8, u8, D>(self, rhs)
    }
}

impl<D: Lengths> BitXor<Array<i32, D>> for i32 {
    type Output = Result<Array<i32, D>, AllocError>;

    ghost can_bitxor = { λ a b. CanMap (λ x. ⟦<i32 as BitXor<i32>>⟧.can_bitxor a x) b };

    ghost bitxor_gives = { λ a b r. UpdatesMapped D.has_axes (λ x z. ⟦<i32 as BitXor<i32>>⟧.bitxor_gives a x z) (λ _. ⊤) b r };

    fn bitxor(self, rhs: Array<i32, D>) -> Self::Output {
        combine_left_scalar_in_place::<ExclusiveDisjunction, i32, i32, D>(self, rhs)
    }
}

impl<'b, D: Lengths> BitXor<&'b Array<i32, D>> for i32 {
    type Output = Result<Array<i32, D>, AllocError>;

    ghost can_bitxor = { λ a b. CanMap (λ x. ⟦<i32 as BitXor<i32>>⟧.can_bitxor a x) b.now };

    ghost bitxor_gives = { λ a b r. MakesMapped D.has_axes (λ x z. ⟦<i32 as BitXor<i32>>⟧.bitxor_gives a x z) b.now r };

    fn bitxor(self, rhs: &'b Array<i32, D>) -> Self::Output {
        combine_left_scalar::<ExclusiveDisjunction, i32, i32, D>(self, rhs)
    }
}

impl<D: Lengths> BitXor<Array<i64, D>> for i64 {
    type Output = Result<Array<i64, D>, AllocError>;

    ghost can_bitxor = { λ a b. CanMap (λ x. ⟦<i64 as BitXor<i64>>⟧.can_bitxor a x) b };

    ghost bitxor_gives = { λ a b r. UpdatesMapped D.has_axes (λ x z. ⟦<i64 as BitXor<i64>>⟧.bitxor_gives a x z) (λ _. ⊤) b r };

    fn bitxor(self, rhs: Array<i64, D>) -> Self::Output {
        combine_left_scalar_in_place::<ExclusiveDisjunction, i64, i64, D>(self, rhs)
    }
}

impl<'b, D: Lengths> BitXor<&'b Array<i64, D>> for i64 {
    type Output = Result<Array<i64, D>, AllocError>;

    ghost can_bitxor = { λ a b. CanMap (λ x. ⟦<i64 as BitXor<i64>>⟧.can_bitxor a x) b.now };

    ghost bitxor_gives = { λ a b r. MakesMapped D.has_axes (λ x z. ⟦<i64 as BitXor<i64>>⟧.bitxor_gives a x z) b.now r };

    fn bitxor(self, rhs: &'b Array<i64, D>) -> Self::Output {
        combine_left_scalar::<ExclusiveDisjunction, i64, i64, D>(self, rhs)
    }
}

impl<D: Lengths> BitXor<Array<usize, D>> for usize {
    type Output = Result<Array<usize, D>, AllocError>;

    ghost can_bitxor = { λ a b. CanMap (λ x. ⟦<usize as BitXor<usize>>⟧.can_bitxor a x) b };

    ghost bitxor_gives = { λ a b r. UpdatesMapped D.has_axes (λ x z. ⟦<usize as BitXor<usize>>⟧.bitxor_gives a x z) (λ _. ⊤) b r };

    fn bitxor(self, rhs: Array<usize, D>) -> Self::Output {
        combine_left_scalar_in_place::<ExclusiveDisjunction, usize, usize, D>(self, rhs)
    }
}

impl<'b, D: Lengths> BitXor<&'b Array<usize, D>> for usize {
    type Output = Result<Array<usize, D>, AllocError>;

    ghost can_bitxor = { λ a b. CanMap (λ x. ⟦<usize as BitXor<usize>>⟧.can_bitxor a x) b.now };

    ghost bitxor_gives = { λ a b r. MakesMapped D.has_axes (λ x z. ⟦<usize as BitXor<usize>>⟧.bitxor_gives a x z) b.now r };

    fn bitxor(self, rhs: &'b Array<usize, D>) -> Self::Output {
        combine_left_scalar::<ExclusiveDisjunction, usize, usize, D>(self, rhs)
    }
}

impl<D: Lengths> BitXor<Array<bool, D>> for bool {
    type Output = Result<Array<bool, D>, AllocError>;

    ghost can_bitxor = { λ a b. CanMap (λ x. ⟦<bool as BitXor<bool>>⟧.can_bitxor a x) b };

    ghost bitxor_gives = { λ a b r. UpdatesMapped D.has_axes (λ x z. ⟦<bool as BitXor<bool>>⟧.bitxor_gives a x z) (λ _. ⊤) b r };

    fn bitxor(self, rhs: Array<bool, D>) -> Self::Output {
        combine_left_scalar_in_place::<ExclusiveDisjunction, bool, bool, D>(self, rhs)
    }
}

impl<'b, D: Lengths> BitXor<&'b Array<bool, D>> for bool {
    type Output = Result<Array<bool, D>, AllocError>;

    ghost can_bitxor = { λ a b. CanMap (λ x. ⟦<bool as BitXor<bool>>⟧.can_bitxor a x) b.now };

    ghost bitxor_gives = { λ a b r. MakesMapped D.has_axes (λ x z. ⟦<bool as BitXor<bool>>⟧.bitxor_gives a x z) b.now r };

    fn bitxor(self, rhs: &'b Array<bool, D>) -> Self::Output {
        combine_left_scalar::<ExclusiveDisjunction, bool, bool, D>(self, rhs)
    }
}
