//! Types of elements that have values, and that add and multiply as their values do.

ghost use Rattle.std.specs.Prelude.{◌≡◌, ◌↔◌, IsTrue};
ghost use Rattle.ndarray.specs.Algebra.{CommutativeMonoid};

mod integers;
mod ranges;
pub(crate) mod sums;
mod whole_values;

pub use crate::elements::ranges::IntegerElem;
pub use crate::elements::whole_values::IntegerScalar;
use num_traits::{One, Zero};
use std::ops::{Add, Div, Mul, Sub};

/// A type whose values may be scalars on the right of an operator with an array, as in `&array + scalar`: `bool` and the integer types.
pub trait ScalarOperand: 'static + Clone {}

/// An element type whose elements have values. Those of the integer types are whole numbers.
pub trait Valued: Copy {
    // The values.
    ghost Carrier: { Type 0 };

    // Addition with zero, and multiplication with one, on all values.
    ghost addition: { CommutativeMonoid Carrier };

    ghost multiplication: { CommutativeMonoid Carrier };

    // The value of an element.
    ghost meaning: { Self → Carrier };

    // Whether a value is in range, as for an integer type each from its least to its greatest.
    ghost InRange: { Carrier → Type 0 };

    /// Proves that the value of the element is in range. The call does nothing.
    fn tell_range(self)
        ensures { InRange (meaning self) };

    // Elements of one value are equal.
    ghost same_meaning: { (a b : Self) → meaning a ≡ meaning b → a ≡ b };
}

/// An element type that adds as the values do: if the sum of two values is in range, `+` is defined and returns the element with that
/// value.
pub trait SumElem: Valued + Zero + Add<Self, Output = Self> {
    // The element `zero` has the value zero, and `is_zero` tells the elements of that value.
    ghost zero_meaning: { Self.meaning Self.zero ≡ Self.addition.unit };

    ghost is_zero_meaning: { (a : Self) → IsTrue (Self.eq a Self.zero)
        ↔ (Self.meaning a ≡ Self.addition.unit) };

    // A sum in range may be taken, has an answer, and each answer has its value.
    ghost add_in_range: { (a b : Self)
        → Self.InRange (Self.addition.op (Self.meaning a) (Self.meaning b))
        → Self.can_add a b };

    ghost add_answers: { (a b : Self)
        → Self.InRange (Self.addition.op (Self.meaning a) (Self.meaning b))
        → (r : Self) × Self.add_gives a b r };

    ghost add_meaning: { (a b r : Self)
        → Self.InRange (Self.addition.op (Self.meaning a) (Self.meaning b))
        → Self.add_gives a b r
        → Self.meaning r ≡ Self.addition.op (Self.meaning a) (Self.meaning b) };
}

/// An element type that multiplies as the values do: if the product of two values is in range, `*` is defined and returns the element with
/// that value.
pub trait ProductElem: Valued + One + Mul<Self, Output = Self> {
    // The element `one` has the value one, and `is_one` tells the elements of that value.
    ghost one_meaning: { Self.meaning Self.one ≡ Self.multiplication.unit };

    ghost is_one_meaning: { (a : Self) → IsTrue (Self.eq a Self.one)
        ↔ (Self.meaning a ≡ Self.multiplication.unit) };

    // A product in range may be taken, has an answer, and each answer has its value.
    ghost mul_in_range: { (a b : Self)
        → Self.InRange (Self.multiplication.op (Self.meaning a) (Self.meaning b))
        → Self.can_mul a b };

    ghost mul_answers: { (a b : Self)
        → Self.InRange (Self.multiplication.op (Self.meaning a) (Self.meaning b))
        → (r : Self) × Self.mul_gives a b r };

    ghost mul_meaning: { (a b r : Self)
        → Self.InRange (Self.multiplication.op (Self.meaning a) (Self.meaning b))
        → Self.mul_gives a b r
        → Self.meaning r ≡ Self.multiplication.op (Self.meaning a) (Self.meaning b) };
}

/// An element type for matrix products: it adds and multiplies as the values do, multiplication of values distributes over addition, and
/// zero times a value is zero. Nothing is required of `-` and `/`.
pub trait LinalgScalar: 'static
    + SumElem
    + ProductElem
    + Sub<Self, Output = Self>
    + Div<Self, Output = Self> {
    ghost distributes: { (x y z : Self.Carrier)
        → Self.multiplication.op x (Self.addition.op y z)
        ≡ Self.addition.op (Self.multiplication.op x y) (Self.multiplication.op x z) };

    ghost absorbs: { (x : Self.Carrier)
        → Self.multiplication.op Self.addition.unit x ≡ Self.addition.unit };
}
