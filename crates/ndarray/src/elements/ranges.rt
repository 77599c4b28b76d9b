//! The ranges of the integer types.

ghost use Rattle.std.specs.Prelude.{ℕ, pos, negsuc, neg_ℤ};
ghost use Rattle.ndarray.specs.Integers.{signed-negated};

use num_traits::{CheckedAdd, CheckedMul, CheckedSub, One, Zero};

/// One of the twelve integer types. If such a type has a negative number, it has the negative of each of its positive numbers.
pub trait IntegerElem: Copy + Zero + One + CheckedAdd + CheckedSub + CheckedMul {
    /// Proves that the number is in the range of the type. The call does nothing.
    fn tell_fits(self)
        ensures { Self.fits (Self.value self) };

    ghost negated_fits: { (m n : ℕ) → Self.fits (negsuc m) → Self.fits (pos n) → Self.fits (neg_ℤ (pos n)) };
}

impl IntegerElem for i8 {
    fn tell_fits(self) {}

    ghost negated_fits = { λ m n h k. signed-negated _ n k };
}

impl IntegerElem for i16 {
    fn tell_fits(self) {}

    ghost negated_fits = { λ m n h k. signed-negated _ n k };
}

impl IntegerElem for i32 {
    fn tell_fits(self) {}

    ghost negated_fits = { λ m n h k. signed-negated _ n k };
}

impl IntegerElem for i64 {
    fn tell_fits(self) {}

    ghost negated_fits = { λ m n h k. signed-negated _ n k };
}

impl IntegerElem for i128 {
    fn tell_fits(self) {}

    ghost negated_fits = { λ m n h k. signed-negated _ n k };
}

impl IntegerElem for isize {
    fn tell_fits(self) {}

    ghost negated_fits = { λ m n h k. signed-negated _ n k };
}

impl IntegerElem for u8 {
    fn tell_fits(self) {}

    ghost negated_fits = { λ m n h k. absurd h };
}

impl IntegerElem for u16 {
    fn tell_fits(self) {}

    ghost negated_fits = { λ m n h k. absurd h };
}

impl IntegerElem for u32 {
    fn tell_fits(self) {}

    ghost negated_fits = { λ m n h k. absurd h };
}

impl IntegerElem for u64 {
    fn tell_fits(self) {}

    ghost negated_fits = { λ m n h k. absurd h };
}

impl IntegerElem for u128 {
    fn tell_fits(self) {}

    ghost negated_fits = { λ m n h k. absurd h };
}

impl IntegerElem for usize {
    fn tell_fits(self) {}

    ghost negated_fits = { λ m n h k. absurd h };
}
