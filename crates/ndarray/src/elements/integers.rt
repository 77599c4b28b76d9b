//! The integer types as elements: the value of each is its whole number.

ghost use Rattle.std.specs.Prelude.{ℤ, pos, ◌+ℤ◌, ◌*ℤ◌, ◌+◌, ◌*◌, refl};
ghost use Rattle.num_traits.specs.Ints.{signed-eq, unsigned-eq};
ghost use Rattle.std.proofs.Common.{ap};
ghost use Rattle.ndarray.specs.Integers.{int_products, int_sums};
ghost use Rattle.ndarray.specs.IntegerProducts.{int_absorbs, int_distributes, natural-same};

use crate::elements::{LinalgScalar, ProductElem, ScalarOperand, SumElem, Valued};

impl ScalarOperand for bool {}

impl ScalarOperand for i8 {}

impl Valued for i8 {
    ghost Carrier = { ℤ };

    ghost addition = { int_sums };

    ghost multiplication = { int_products };

    ghost meaning = { λ x. x };

    ghost InRange = { ⟦<i8 as num_traits::Number>⟧.fits };

    fn tell_range(self) {}

    ghost same_meaning = { λ a b e. e };
}

impl SumElem for i8 {
    ghost zero_meaning = { refl };

    ghost is_zero_meaning = { λ a. signed-eq a (pos 0) };

    ghost add_in_range = { λ a b h. h };

    ghost add_answers = { λ a b h. (a +ℤ b, refl) };

    ghost add_meaning = { λ a b r h e. e };
}

impl ProductElem for i8 {
    ghost one_meaning = { refl };

    ghost is_one_meaning = { λ a. signed-eq a (pos 1) };

    ghost mul_in_range = { λ a b h. h };

    ghost mul_answers = { λ a b h. (a *ℤ b, refl) };

    ghost mul_meaning = { λ a b r h e. e };
}

impl LinalgScalar for i8 {
    ghost distributes = { int_distributes };

    ghost absorbs = { int_absorbs };
}

impl ScalarOperand for i16 {}

impl Valued for i16 {
    ghost Carrier = { ℤ };

    ghost addition = { int_sums };

    ghost multiplication = { int_products };

    ghost meaning = { λ x. x };

    ghost InRange = { ⟦<i16 as num_traits::Number>⟧.fits };

    fn tell_range(self) {}

    ghost same_meaning = { λ a b e. e };
}

impl SumElem for i16 {
    ghost zero_meaning = { refl };

    ghost is_zero_meaning = { λ a. signed-eq a (pos 0) };

    ghost add_in_range = { λ a b h. h };

    ghost add_answers = { λ a b h. (a +ℤ b, refl) };

    ghost add_meaning = { λ a b r h e. e };
}

impl ProductElem for i16 {
    ghost one_meaning = { refl };

    ghost is_one_meaning = { λ a. signed-eq a (pos 1) };

    ghost mul_in_range = { λ a b h. h };

    ghost mul_answers = { λ a b h. (a *ℤ b, refl) };

    ghost mul_meaning = { λ a b r h e. e };
}

impl LinalgScalar for i16 {
    ghost distributes = { int_distributes };

    ghost absorbs = { int_absorbs };
}

impl ScalarOperand for i32 {}

impl Valued for i32 {
    ghost Carrier = { ℤ };

    ghost addition = { int_sums };

    ghost multiplication = { int_products };

    ghost meaning = { λ x. x };

    ghost InRange = { ⟦<i32 as num_traits::Number>⟧.fits };

    fn tell_range(self) {}

    ghost same_meaning = { λ a b e. e };
}

impl SumElem for i32 {
    ghost zero_meaning = { refl };

    ghost is_zero_meaning = { λ a. signed-eq a (pos 0) };

    ghost add_in_range = { λ a b h. h };

    ghost add_answers = { λ a b h. (a +ℤ b, refl) };

    ghost add_meaning = { λ a b r h e. e };
}

impl ProductElem for i32 {
    ghost one_meaning = { refl };

    ghost is_one_meaning = { λ a. signed-eq a (pos 1) };

    ghost mul_in_range = { λ a b h. h };

    ghost mul_answers = { λ a b h. (a *ℤ b, refl) };

    ghost mul_meaning = { λ a b r h e. e };
}

impl LinalgScalar for i32 {
    ghost distributes = { int_distributes };

    ghost absorbs = { int_absorbs };
}

impl ScalarOperand for i64 {}

impl Valued for i64 {
    ghost Carrier = { ℤ };

    ghost addition = { int_sums };

    ghost multiplication = { int_products };

    ghost meaning = { λ x. x };

    ghost InRange = { ⟦<i64 as num_traits::Number>⟧.fits };

    fn tell_range(self) {}

    ghost same_meaning = { λ a b e. e };
}

impl SumElem for i64 {
    ghost zero_meaning = { refl };

    ghost is_zero_meaning = { λ a. signed-eq a (pos 0) };

    ghost add_in_range = { λ a b h. h };

    ghost add_answers = { λ a b h. (a +ℤ b, refl) };

    ghost add_meaning = { λ a b r h e. e };
}

impl ProductElem for i64 {
    ghost one_meaning = { refl };

    ghost is_one_meaning = { λ a. signed-eq a (pos 1) };

    ghost mul_in_range = { λ a b h. h };

    ghost mul_answers = { λ a b h. (a *ℤ b, refl) };

    ghost mul_meaning = { λ a b r h e. e };
}

impl LinalgScalar for i64 {
    ghost distributes = { int_distributes };

    ghost absorbs = { int_absorbs };
}

impl ScalarOperand for i128 {}

impl Valued for i128 {
    ghost Carrier = { ℤ };

    ghost addition = { int_sums };

    ghost multiplication = { int_products };

    ghost meaning = { λ x. x };

    ghost InRange = { ⟦<i128 as num_traits::Number>⟧.fits };

    fn tell_range(self) {}

    ghost same_meaning = { λ a b e. e };
}

impl SumElem for i128 {
    ghost zero_meaning = { refl };

    ghost is_zero_meaning = { λ a. signed-eq a (pos 0) };

    ghost add_in_range = { λ a b h. h };

    ghost add_answers = { λ a b h. (a +ℤ b, refl) };

    ghost add_meaning = { λ a b r h e. e };
}

impl ProductElem for i128 {
    ghost one_meaning = { refl };

    ghost is_one_meaning = { λ a. signed-eq a (pos 1) };

    ghost mul_in_range = { λ a b h. h };

    ghost mul_answers = { λ a b h. (a *ℤ b, refl) };

    ghost mul_meaning = { λ a b r h e. e };
}

impl LinalgScalar for i128 {
    ghost distributes = { int_distributes };

    ghost absorbs = { int_absorbs };
}

impl ScalarOperand for isize {}

impl Valued for isize {
    ghost Carrier = { ℤ };

    ghost addition = { int_sums };

    ghost multiplication = { int_products };

    ghost meaning = { λ x. x };

    ghost InRange = { ⟦<isize as num_traits::Number>⟧.fits };

    fn tell_range(self) {}

    ghost same_meaning = { λ a b e. e };
}

impl SumElem for isize {
    ghost zero_meaning = { refl };

    ghost is_zero_meaning = { λ a. signed-eq a (pos 0) };

    ghost add_in_range = { λ a b h. h };

    ghost add_answers = { λ a b h. (a +ℤ b, refl) };

    ghost add_meaning = { λ a b r h e. e };
}

impl ProductElem for isize {
    ghost one_meaning = { refl };

    ghost is_one_meaning = { λ a. signed-eq a (pos 1) };

    ghost mul_in_range = { λ a b h. h };

    ghost mul_answers = { λ a b h. (a *ℤ b, refl) };

    ghost mul_meaning = { λ a b r h e. e };
}

impl LinalgScalar for isize {
    ghost distributes = { int_distributes };

    ghost absorbs = { int_absorbs };
}

impl ScalarOperand for u8 {}

impl Valued for u8 {
    ghost Carrier = { ℤ };

    ghost addition = { int_sums };

    ghost multiplication = { int_products };

    ghost meaning = { pos };

    ghost InRange = { ⟦<u8 as num_traits::Number>⟧.fits };

    fn tell_range(self) {}

    ghost same_meaning = { natural-same };
}

impl SumElem for u8 {
    ghost zero_meaning = { refl };

    ghost is_zero_meaning = { λ a. unsigned-eq a 0 };

    ghost add_in_range = { λ a b h. h };

    ghost add_answers = { λ a b h. (a + b, refl) };

    ghost add_meaning = { λ a b r h e. ap pos e };
}

impl ProductElem for u8 {
    ghost one_meaning = { refl };

    ghost is_one_meaning = { λ a. unsigned-eq a 1 };

    ghost mul_in_range = { λ a b h. h };

    ghost mul_answers = { λ a b h. (a * b, refl) };

    ghost mul_meaning = { λ a b r h e. ap pos e };
}

impl LinalgScalar for u8 {
    ghost distributes = { int_distributes };

    ghost absorbs = { int_absorbs };
}

impl ScalarOperand for u16 {}

impl Valued for u16 {
    ghost Carrier = { ℤ };

    ghost addition = { int_sums };

    ghost multiplication = { int_products };

    ghost meaning = { pos };

    ghost InRange = { ⟦<u16 as num_traits::Number>⟧.fits };

    fn tell_range(self) {}

    ghost same_meaning = { natural-same };
}

impl SumElem for u16 {
    ghost zero_meaning = { refl };

    ghost is_zero_meaning = { λ a. unsigned-eq a 0 };

    ghost add_in_range = { λ a b h. h };

    ghost add_answers = { λ a b h. (a + b, refl) };

    ghost add_meaning = { λ a b r h e. ap pos e };
}

impl ProductElem for u16 {
    ghost one_meaning = { refl };

    ghost is_one_meaning = { λ a. unsigned-eq a 1 };

    ghost mul_in_range = { λ a b h. h };

    ghost mul_answers = { λ a b h. (a * b, refl) };

    ghost mul_meaning = { λ a b r h e. ap pos e };
}

impl LinalgScalar for u16 {
    ghost distributes = { int_distributes };

    ghost absorbs = { int_absorbs };
}

impl ScalarOperand for u32 {}

impl Valued for u32 {
    ghost Carrier = { ℤ };

    ghost addition = { int_sums };

    ghost multiplication = { int_products };

    ghost meaning = { pos };

    ghost InRange = { ⟦<u32 as num_traits::Number>⟧.fits };

    fn tell_range(self) {}

    ghost same_meaning = { natural-same };
}

impl SumElem for u32 {
    ghost zero_meaning = { refl };

    ghost is_zero_meaning = { λ a. unsigned-eq a 0 };

    ghost add_in_range = { λ a b h. h };

    ghost add_answers = { λ a b h. (a + b, refl) };

    ghost add_meaning = { λ a b r h e. ap pos e };
}

impl ProductElem for u32 {
    ghost one_meaning = { refl };

    ghost is_one_meaning = { λ a. unsigned-eq a 1 };

    ghost mul_in_range = { λ a b h. h };

    ghost mul_answers = { λ a b h. (a * b, refl) };

    ghost mul_meaning = { λ a b r h e. ap pos e };
}

impl LinalgScalar for u32 {
    ghost distributes = { int_distributes };

    ghost absorbs = { int_absorbs };
}

impl ScalarOperand for u64 {}

impl Valued for u64 {
    ghost Carrier = { ℤ };

    ghost addition = { int_sums };

    ghost multiplication = { int_products };

    ghost meaning = { pos };

    ghost InRange = { ⟦<u64 as num_traits::Number>⟧.fits };

    fn tell_range(self) {}

    ghost same_meaning = { natural-same };
}

impl SumElem for u64 {
    ghost zero_meaning = { refl };

    ghost is_zero_meaning = { λ a. unsigned-eq a 0 };

    ghost add_in_range = { λ a b h. h };

    ghost add_answers = { λ a b h. (a + b, refl) };

    ghost add_meaning = { λ a b r h e. ap pos e };
}

impl ProductElem for u64 {
    ghost one_meaning = { refl };

    ghost is_one_meaning = { λ a. unsigned-eq a 1 };

    ghost mul_in_range = { λ a b h. h };

    ghost mul_answers = { λ a b h. (a * b, refl) };

    ghost mul_meaning = { λ a b r h e. ap pos e };
}

impl LinalgScalar for u64 {
    ghost distributes = { int_distributes };

    ghost absorbs = { int_absorbs };
}

impl ScalarOperand for u128 {}

impl Valued for u128 {
    ghost Carrier = { ℤ };

    ghost addition = { int_sums };

    ghost multiplication = { int_products };

    ghost meaning = { pos };

    ghost InRange = { ⟦<u128 as num_traits::Number>⟧.fits };

    fn tell_range(self) {}

    ghost same_meaning = { natural-same };
}

impl SumElem for u128 {
    ghost zero_meaning = { refl };

    ghost is_zero_meaning = { λ a. unsigned-eq a 0 };

    ghost add_in_range = { λ a b h. h };

    ghost add_answers = { λ a b h. (a + b, refl) };

    ghost add_meaning = { λ a b r h e. ap pos e };
}

impl ProductElem for u128 {
    ghost one_meaning = { refl };

    ghost is_one_meaning = { λ a. unsigned-eq a 1 };

    ghost mul_in_range = { λ a b h. h };

    ghost mul_answers = { λ a b h. (a * b, refl) };

    ghost mul_meaning = { λ a b r h e. ap pos e };
}

impl LinalgScalar for u128 {
    ghost distributes = { int_distributes };

    ghost absorbs = { int_absorbs };
}

impl ScalarOperand for usize {}

impl Valued for usize {
    ghost Carrier = { ℤ };

    ghost addition = { int_sums };

    ghost multiplication = { int_products };

    ghost meaning = { pos };

    ghost InRange = { ⟦<usize as num_traits::Number>⟧.fits };

    fn tell_range(self) {}

    ghost same_meaning = { natural-same };
}

impl SumElem for usize {
    ghost zero_meaning = { refl };

    ghost is_zero_meaning = { λ a. unsigned-eq a 0 };

    ghost add_in_range = { λ a b h. h };

    ghost add_answers = { λ a b h. (a + b, refl) };

    ghost add_meaning = { λ a b r h e. ap pos e };
}

impl ProductElem for usize {
    ghost one_meaning = { refl };

    ghost is_one_meaning = { λ a. unsigned-eq a 1 };

    ghost mul_in_range = { λ a b h. h };

    ghost mul_answers = { λ a b h. (a * b, refl) };

    ghost mul_meaning = { λ a b r h e. ap pos e };
}

impl LinalgScalar for usize {
    ghost distributes = { int_distributes };

    ghost absorbs = { int_absorbs };
}
