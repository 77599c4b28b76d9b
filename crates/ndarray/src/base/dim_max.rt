//! The dimension of two shapes broadcast together.

ghost use Rattle.std.specs.Prelude.{ℕ, max};
ghost use Rattle.std.proofs.Common.{rules, arith};
ghost use Rattle.ndarray.specs.base.FixedAxes.{dynamic-not-fixed, fixed-larger_of_two};
ghost use Rattle.ndarray.specs.FixedAxes.{IsFixed};

use crate::base::dimension::{Dimension, Ix0, Ix1, Ix2, Ix3, Ix4, Ix5, Ix6, IxDyn, Lengths};

/// A dimension whose shapes may be broadcast together with those of another one.
pub trait DimMax<Other: Lengths>: Lengths {
    /// The dimension of the result: the one with more axes of two that have a fixed number, and `IxDyn` if one of them is `IxDyn`.
    type Output: Dimension;

    ghost larger_has_both: { (n m : ℕ) → Self.has_axes n → Other.has_axes m → Self.Output.has_axes (max n m) };

    ghost output_is_fixed: { (n m : ℕ) → IsFixed Self.has_axes n → IsFixed Other.has_axes m → IsFixed Self.Output.has_axes (max n m) };
}

impl DimMax<Ix0> for Ix0 {
    type Output = Ix0;

    ghost larger_has_both = { Prim.search rules };

    ghost output_is_fixed = { fixed-larger_of_two 0 0 };
}

impl DimMax<Ix1> for Ix0 {
    type Output = Ix1;

    ghost larger_has_both = { Prim.search rules };

    ghost output_is_fixed = { fixed-larger_of_two 0 1 };
}

impl DimMax<Ix2> for Ix0 {
    type Output = Ix2;

    ghost larger_has_both = { Prim.search rules };

    ghost output_is_fixed = { fixed-larger_of_two 0 2 };
}

impl DimMax<Ix3> for Ix0 {
    type Output = Ix3;

    ghost larger_has_both = { Prim.search rules };

    ghost output_is_fixed = { fixed-larger_of_two 0 3 };
}

impl DimMax<Ix4> for Ix0 {
    type Output = Ix4;

    ghost larger_has_both = { Prim.search rules };

    ghost output_is_fixed = { fixed-larger_of_two 0 4 };
}

impl DimMax<Ix5> for Ix0 {
    type Output = Ix5;

    ghost larger_has_both = { Prim.search rules };

    ghost output_is_fixed = { fixed-larger_of_two 0 5 };
}

impl DimMax<Ix6> for Ix0 {
    type Output = Ix6;

    ghost larger_has_both = { Prim.search rules };

    ghost output_is_fixed = { fixed-larger_of_two 0 6 };
}

impl DimMax<IxDyn> for Ix0 {
    type Output = IxDyn;

    ghost larger_has_both = { Prim.search rules };

    ghost output_is_fixed = { λ _ m _ fixed. absurd (dynamic-not-fixed m fixed) };
}

impl DimMax<Ix0> for Ix1 {
    type Output = Ix1;

    ghost larger_has_both = { Prim.search rules };

    ghost output_is_fixed = { fixed-larger_of_two 1 0 };
}

impl DimMax<Ix1> for Ix1 {
    type Output = Ix1;

    ghost larger_has_both = { Prim.search rules };

    ghost output_is_fixed = { fixed-larger_of_two 1 1 };
}

impl DimMax<Ix2> for Ix1 {
    type Output = Ix2;

    ghost larger_has_both = { Prim.search rules };

    ghost output_is_fixed = { fixed-larger_of_two 1 2 };
}

impl DimMax<Ix3> for Ix1 {
    type Output = Ix3;

    ghost larger_has_both = { Prim.search rules };

    ghost output_is_fixed = { fixed-larger_of_two 1 3 };
}

impl DimMax<Ix4> for Ix1 {
    type Output = Ix4;

    ghost larger_has_both = { Prim.search rules };

    ghost output_is_fixed = { fixed-larger_of_two 1 4 };
}

impl DimMax<Ix5> for Ix1 {
    type Output = Ix5;

    ghost larger_has_both = { Prim.search rules };

    ghost output_is_fixed = { fixed-larger_of_two 1 5 };
}

impl DimMax<Ix6> for Ix1 {
    type Output = Ix6;

    ghost larger_has_both = { Prim.search rules };

    ghost output_is_fixed = { fixed-larger_of_two 1 6 };
}

impl DimMax<IxDyn> for Ix1 {
    type Output = IxDyn;

    ghost larger_has_both = { Prim.search rules };

    ghost output_is_fixed = { λ _ m _ fixed. absurd (dynamic-not-fixed m fixed) };
}

impl DimMax<Ix0> for Ix2 {
    type Output = Ix2;

    ghost larger_has_both = { Prim.search rules };

    ghost output_is_fixed = { fixed-larger_of_two 2 0 };
}

impl DimMax<Ix1> for Ix2 {
    type Output = Ix2;

    ghost larger_has_both = { Prim.search rules };

    ghost output_is_fixed = { fixed-larger_of_two 2 1 };
}

impl DimMax<Ix2> for Ix2 {
    type Output = Ix2;

    ghost larger_has_both = { Prim.search rules };

    ghost output_is_fixed = { fixed-larger_of_two 2 2 };
}

impl DimMax<Ix3> for Ix2 {
    type Output = Ix3;

    ghost larger_has_both = { Prim.search rules };

    ghost output_is_fixed = { fixed-larger_of_two 2 3 };
}

impl DimMax<Ix4> for Ix2 {
    type Output = Ix4;

    ghost larger_has_both = { Prim.search rules };

    ghost output_is_fixed = { fixed-larger_of_two 2 4 };
}

impl DimMax<Ix5> for Ix2 {
    type Output = Ix5;

    ghost larger_has_both = { Prim.search rules };

    ghost output_is_fixed = { fixed-larger_of_two 2 5 };
}

impl DimMax<Ix6> for Ix2 {
    type Output = Ix6;

    ghost larger_has_both = { Prim.search rules };

    ghost output_is_fixed = { fixed-larger_of_two 2 6 };
}

impl DimMax<IxDyn> for Ix2 {
    type Output = IxDyn;

    ghost larger_has_both = { Prim.search rules };

    ghost output_is_fixed = { λ _ m _ fixed. absurd (dynamic-not-fixed m fixed) };
}

impl DimMax<Ix0> for Ix3 {
    type Output = Ix3;

    ghost larger_has_both = { Prim.search rules };

    ghost output_is_fixed = { fixed-larger_of_two 3 0 };
}

impl DimMax<Ix1> for Ix3 {
    type Output = Ix3;

    ghost larger_has_both = { Prim.search rules };

    ghost output_is_fixed = { fixed-larger_of_two 3 1 };
}

impl DimMax<Ix2> for Ix3 {
    type Output = Ix3;

    ghost larger_has_both = { Prim.search rules };

    ghost output_is_fixed = { fixed-larger_of_two 3 2 };
}

impl DimMax<Ix3> for Ix3 {
    type Output = Ix3;

    ghost larger_has_both = { Prim.search rules };

    ghost output_is_fixed = { fixed-larger_of_two 3 3 };
}

impl DimMax<Ix4> for Ix3 {
    type Output = Ix4;

    ghost larger_has_both = { Prim.search rules };

    ghost output_is_fixed = { fixed-larger_of_two 3 4 };
}

impl DimMax<Ix5> for Ix3 {
    type Output = Ix5;

    ghost larger_has_both = { Prim.search rules };

    ghost output_is_fixed = { fixed-larger_of_two 3 5 };
}

impl DimMax<Ix6> for Ix3 {
    type Output = Ix6;

    ghost larger_has_both = { Prim.search rules };

    ghost output_is_fixed = { fixed-larger_of_two 3 6 };
}

impl DimMax<IxDyn> for Ix3 {
    type Output = IxDyn;

    ghost larger_has_both = { Prim.search rules };

    ghost output_is_fixed = { λ _ m _ fixed. absurd (dynamic-not-fixed m fixed) };
}

impl DimMax<Ix0> for Ix4 {
    type Output = Ix4;

    ghost larger_has_both = { Prim.search rules };

    ghost output_is_fixed = { fixed-larger_of_two 4 0 };
}

impl DimMax<Ix1> for Ix4 {
    type Output = Ix4;

    ghost larger_has_both = { Prim.search rules };

    ghost output_is_fixed = { fixed-larger_of_two 4 1 };
}

impl DimMax<Ix2> for Ix4 {
    type Output = Ix4;

    ghost larger_has_both = { Prim.search rules };

    ghost output_is_fixed = { fixed-larger_of_two 4 2 };
}

impl DimMax<Ix3> for Ix4 {
    type Output = Ix4;

    ghost larger_has_both = { Prim.search rules };

    ghost output_is_fixed = { fixed-larger_of_two 4 3 };
}

impl DimMax<Ix4> for Ix4 {
    type Output = Ix4;

    ghost larger_has_both = { Prim.search rules };

    ghost output_is_fixed = { fixed-larger_of_two 4 4 };
}

impl DimMax<Ix5> for Ix4 {
    type Output = Ix5;

    ghost larger_has_both = { Prim.search rules };

    ghost output_is_fixed = { fixed-larger_of_two 4 5 };
}

impl DimMax<Ix6> for Ix4 {
    type Output = Ix6;

    ghost larger_has_both = { Prim.search rules };

    ghost output_is_fixed = { fixed-larger_of_two 4 6 };
}

impl DimMax<IxDyn> for Ix4 {
    type Output = IxDyn;

    ghost larger_has_both = { Prim.search rules };

    ghost output_is_fixed = { λ _ m _ fixed. absurd (dynamic-not-fixed m fixed) };
}

impl DimMax<Ix0> for Ix5 {
    type Output = Ix5;

    ghost larger_has_both = { Prim.search rules };

    ghost output_is_fixed = { fixed-larger_of_two 5 0 };
}

impl DimMax<Ix1> for Ix5 {
    type Output = Ix5;

    ghost larger_has_both = { Prim.search rules };

    ghost output_is_fixed = { fixed-larger_of_two 5 1 };
}

impl DimMax<Ix2> for Ix5 {
    type Output = Ix5;

    ghost larger_has_both = { Prim.search rules };

    ghost output_is_fixed = { fixed-larger_of_two 5 2 };
}

impl DimMax<Ix3> for Ix5 {
    type Output = Ix5;

    ghost larger_has_both = { Prim.search rules };

    ghost output_is_fixed = { fixed-larger_of_two 5 3 };
}

impl DimMax<Ix4> for Ix5 {
    type Output = Ix5;

    ghost larger_has_both = { Prim.search rules };

    ghost output_is_fixed = { fixed-larger_of_two 5 4 };
}

impl DimMax<Ix5> for Ix5 {
    type Output = Ix5;

    ghost larger_has_both = { Prim.search rules };

    ghost output_is_fixed = { fixed-larger_of_two 5 5 };
}

impl DimMax<Ix6> for Ix5 {
    type Output = Ix6;

    ghost larger_has_both = { Prim.search rules };

    ghost output_is_fixed = { fixed-larger_of_two 5 6 };
}

impl DimMax<IxDyn> for Ix5 {
    type Output = IxDyn;

    ghost larger_has_both = { Prim.search rules };

    ghost output_is_fixed = { λ _ m _ fixed. absurd (dynamic-not-fixed m fixed) };
}

impl DimMax<Ix0> for Ix6 {
    type Output = Ix6;

    ghost larger_has_both = { Prim.search rules };

    ghost output_is_fixed = { fixed-larger_of_two 6 0 };
}

impl DimMax<Ix1> for Ix6 {
    type Output = Ix6;

    ghost larger_has_both = { Prim.search rules };

    ghost output_is_fixed = { fixed-larger_of_two 6 1 };
}

impl DimMax<Ix2> for Ix6 {
    type Output = Ix6;

    ghost larger_has_both = { Prim.search rules };

    ghost output_is_fixed = { fixed-larger_of_two 6 2 };
}

impl DimMax<Ix3> for Ix6 {
    type Output = Ix6;

    ghost larger_has_both = { Prim.search rules };

    ghost output_is_fixed = { fixed-larger_of_two 6 3 };
}

impl DimMax<Ix4> for Ix6 {
    type Output = Ix6;

    ghost larger_has_both = { Prim.search rules };

    ghost output_is_fixed = { fixed-larger_of_two 6 4 };
}

impl DimMax<Ix5> for Ix6 {
    type Output = Ix6;

    ghost larger_has_both = { Prim.search rules };

    ghost output_is_fixed = { fixed-larger_of_two 6 5 };
}

impl DimMax<Ix6> for Ix6 {
    type Output = Ix6;

    ghost larger_has_both = { Prim.search rules };

    ghost output_is_fixed = { fixed-larger_of_two 6 6 };
}

impl DimMax<IxDyn> for Ix6 {
    type Output = IxDyn;

    ghost larger_has_both = { Prim.search rules };

    ghost output_is_fixed = { λ _ m _ fixed. absurd (dynamic-not-fixed m fixed) };
}

impl DimMax<Ix0> for IxDyn {
    type Output = IxDyn;

    ghost larger_has_both = { Prim.search rules };

    ghost output_is_fixed = { λ n _ fixed _. absurd (dynamic-not-fixed n fixed) };
}

impl DimMax<Ix1> for IxDyn {
    type Output = IxDyn;

    ghost larger_has_both = { Prim.search rules };

    ghost output_is_fixed = { λ n _ fixed _. absurd (dynamic-not-fixed n fixed) };
}

impl DimMax<Ix2> for IxDyn {
    type Output = IxDyn;

    ghost larger_has_both = { Prim.search rules };

    ghost output_is_fixed = { λ n _ fixed _. absurd (dynamic-not-fixed n fixed) };
}

impl DimMax<Ix3> for IxDyn {
    type Output = IxDyn;

    ghost larger_has_both = { Prim.search rules };

    ghost output_is_fixed = { λ n _ fixed _. absurd (dynamic-not-fixed n fixed) };
}

impl DimMax<Ix4> for IxDyn {
    type Output = IxDyn;

    ghost larger_has_both = { Prim.search rules };

    ghost output_is_fixed = { λ n _ fixed _. absurd (dynamic-not-fixed n fixed) };
}

impl DimMax<Ix5> for IxDyn {
    type Output = IxDyn;

    ghost larger_has_both = { Prim.search rules };

    ghost output_is_fixed = { λ n _ fixed _. absurd (dynamic-not-fixed n fixed) };
}

impl DimMax<Ix6> for IxDyn {
    type Output = IxDyn;

    ghost larger_has_both = { Prim.search rules };

    ghost output_is_fixed = { λ n _ fixed _. absurd (dynamic-not-fixed n fixed) };
}

impl DimMax<IxDyn> for IxDyn {
    type Output = IxDyn;

    ghost larger_has_both = { Prim.search rules };

    ghost output_is_fixed = { λ _ m _ fixed. absurd (dynamic-not-fixed m fixed) };
}
