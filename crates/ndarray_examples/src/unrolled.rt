//! Sums, inner sums and comparisons of slices, unrolled.

ghost use Rattle.std.specs.Prelude.{◌≡◌, ◌↔◌, IfSome, IsSome, IsTrue, length};
ghost use Rattle.ndarray.specs.Products.{products_of};
ghost use Rattle.ndarray.specs.Sums.{IsSummableBy, total, total_by};
ghost use Rattle.residue.specs.Residue.{modulus, modulus_pos, residue_products, residue_sums};

use ndarray::SumElem;
use ndarray::unrolled::{unrolled_dot, unrolled_eq, unrolled_fold};
use num_traits::Zero;
use residue::Residue;

/// The sum of the elements of a slice.
pub fn sum_of_slice<A: SumElem>(xs: &[A]) -> A
    requires { IsSummableBy A.addition A.InRange A.meaning xs.now }
    ensures { A.meaning result ≡ total_by A.addition A.meaning xs.now }
{
    unrolled_fold(
        xs,
        || -> A
            ensures { result ≡ A.zero }
        { A::zero() },
        |a: A, b: A| -> A
            requires { A.can_add a b }
            ensures { A.add_gives a b result }
        { a + b },
    )
}

/// The sum of the products of two slices' residues modulo 97, place by place, which never leaves the range; or `None`, where the
/// slices have not one length.
pub fn inner_sum_of_slices(xs: &[Residue<97>], ys: &[Residue<97>]) -> Option<Residue<97>>
    ensures lengths { IsSome result ↔ (length xs.now ≡ length ys.now) }
    ensures sum { IfSome result (λ s. s ≡ total (residue_sums (modulus 97) (modulus_pos 97)) (products_of (residue_products (modulus 97) (modulus_pos 97)) (λ x. x) xs.now ys.now)) }
{
    if xs.len() != ys.len() {
        return None;
    }
    Some(unrolled_dot(xs, ys))
}

/// Whether two slices have the same numbers.
pub fn are_equal(xs: &[i64], ys: &[i64]) -> bool
    ensures { IsTrue result ↔ (xs.now ≡ ys.now) }
{
    xs.len() == ys.len() && unrolled_eq(xs, ys)
}
