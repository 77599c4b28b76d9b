//! The integer types as elements whose values are whole numbers.

ghost use Rattle.std.specs.Prelude.{◌≡◌, ◌+ℤ◌, ◌*ℤ◌, List, pos, refl};
ghost use Rattle.ndarray.specs.Integers.{int_products, int_sums};
ghost use Rattle.ndarray.specs.Products.{products_of};
ghost use Rattle.ndarray.specs.Sums.{IsSummable, IsSummableBy, total, total_by};
ghost use Rattle.ndarray.specs.WholeValues.{HasWholeValues, whole_numbers};
ghost use Rattle.ndarray.specs.base.WholeValues.{whole-inner, whole-inner_sum, whole-multipliable, whole-product, whole-sum, whole-summable, whole-values};

use crate::elements::{IntegerElem, LinalgScalar};

/// One of the twelve integer types, whose values are whole numbers. So code that is generic over such a type may call `sum`, `product` and
/// `dot` after `sums_fit`, `products_fit` and `dot_fits`.
pub trait IntegerScalar: 'static + IntegerElem + LinalgScalar {
    ghost whole_values: { HasWholeValues Self.Valued Self.value Self.fits };

    // What `sum`, `product` and `dot` of vectors require is what the tests say, in whole numbers.
    ghost summable: { (xs : List Self) → IsSummableBy int_sums Self.fits Self.value xs
        → IsSummableBy Self.addition Self.InRange Self.meaning xs } = { λ xs h. whole-summable whole_values xs h };

    ghost multipliable: { (xs : List Self) → IsSummableBy int_products Self.fits Self.value xs
        → IsSummableBy Self.multiplication Self.InRange Self.meaning xs } = { λ xs h. whole-multipliable whole_values xs h };

    ghost inner_summable: { (xs ys : List Self)
        → IsSummable int_sums Self.fits (products_of int_products Self.value xs ys)
        → IsSummable Self.addition Self.InRange (products_of Self.multiplication Self.meaning xs ys) } = { λ xs ys h. whole-inner whole_values xs ys h };

    // What they return is the sum, the product and the inner sum of the whole numbers.
    ghost sum_value: { (x : Self) (xs : List Self) → Self.meaning x ≡ total_by Self.addition Self.meaning xs
        → Self.value x ≡ total_by int_sums Self.value xs } = { λ x xs e. whole-sum whole_values x xs e };

    ghost product_value: { (x : Self) (xs : List Self)
        → Self.meaning x ≡ total_by Self.multiplication Self.meaning xs
        → Self.value x ≡ total_by int_products Self.value xs } = { λ x xs e. whole-product whole_values x xs e };

    ghost inner_value: { (x : Self) (xs ys : List Self)
        → Self.meaning x ≡ total Self.addition (products_of Self.multiplication Self.meaning xs ys)
        → Self.value x ≡ total int_sums (products_of int_products Self.value xs ys) } = { λ x xs ys e. whole-inner_sum whole_values x xs ys e };
}

impl IntegerScalar for i8 {
    ghost whole_values = { whole-values _ _ };
}

impl IntegerScalar for i16 {
    ghost whole_values = { whole-values _ _ };
}

impl IntegerScalar for i32 {
    ghost whole_values = { whole-values _ _ };
}

impl IntegerScalar for i64 {
    ghost whole_values = { whole-values _ _ };
}

impl IntegerScalar for i128 {
    ghost whole_values = { whole-values _ _ };
}

impl IntegerScalar for isize {
    ghost whole_values = { whole-values _ _ };
}

impl IntegerScalar for u8 {
    ghost whole_values = { whole-values _ _ };
}

impl IntegerScalar for u16 {
    ghost whole_values = { whole-values _ _ };
}

impl IntegerScalar for u32 {
    ghost whole_values = { whole-values _ _ };
}

impl IntegerScalar for u64 {
    ghost whole_values = { whole-values _ _ };
}

impl IntegerScalar for u128 {
    ghost whole_values = { whole-values _ _ };
}

impl IntegerScalar for usize {
    ghost whole_values = { whole-values _ _ };
}
