//! Functions that rest on the laws of sums, products and triangles, at `i64` behind range tests.

ghost use Rattle.std.specs.Prelude.{◌≡◌, ◌↔◌, ◌<◌, ◌≤◌, ◌+ℤ◌, ◌*ℤ◌, ℤ, pos, FitsSigned, IfOk, IfSome, IsOk, IsSome, length};
ghost use Rattle.std.specs.Int.{w64};
ghost use Rattle.ndarray.specs.Chains.{HasMatrix};
ghost use Rattle.ndarray.specs.Elementwise.{CanCombine};
ghost use Rattle.ndarray.specs.Grid.{Grid};
ghost use Rattle.ndarray.specs.Index.{size};
ghost use Rattle.ndarray.specs.Integers.{int_products, int_sums};
ghost use Rattle.ndarray.specs.MatrixSums.{matrix_sum};
ghost use Rattle.ndarray.specs.Products.{ShapesMultiply, magnitude_sum, matrix_of, product_of, products_of};
ghost use Rattle.ndarray.specs.SumLaws.{AddsUp, MultipliesBy};
ghost use Rattle.ndarray.specs.Sums.{IsSummable, total};
ghost use Rattle.ndarray.specs.Triangles.{lower_triangle, upper_triangle};
ghost use Rattle.ndarray.specs.WholeValues.{HasMagnitudesInRange};

use ndarray::laws::{
    axis_sums, dot_commutes, mat_distributes, sums_add, sums_multiply, triangles_meet,
};
use ndarray::linalg::entries_fit;
use ndarray::reduce::dot_fits;
use ndarray::{Array, ArrayBase, Axis, Data, Ix1, Ix2, Lengths, RemoveAxis, Valued};
use std::alloc::{AllocError, Global};

/// The sum of all cells of `a + b`, of two arrays of one shape, without making that array: the sum of the two sums. `None` where cells
/// of one array, or the two sums, add up to more than an `i64`.
pub fn sum_of_both<S: Data<Elem = i64>, T: Data<Elem = i64>, D: Lengths>(
    a: &ArrayBase<S, D>,
    b: &ArrayBase<T, D>,
) -> Option<i64>
    ensures when { IsSome result ↔ (IsSummable int_sums (FitsSigned w64) a.now.cells × IsSummable int_sums (FitsSigned w64) b.now.cells × FitsSigned w64 (total int_sums a.now.cells +ℤ total int_sums b.now.cells)) }
    ensures sum { IfSome result (λ s. (r : Grid ℤ) → AddsUp int_sums (λ x. x) a.now b.now r → s ≡ total int_sums r.cells) }
{
    sums_add::<i64>();
    if !a.sums_fit() {
        return None;
    }
    if !b.sums_fit() {
        return None;
    }
    a.sum().checked_add(b.sum())
}

/// The sum of all cells of `a * factor`, without making that array: the sum of `a` times the factor. `None` where cells of `a` add up
/// to more than an `i64`, or the product is none.
pub fn sum_of_multiple<S: Data<Elem = i64>, D: Lengths>(
    a: &ArrayBase<S, D>,
    factor: i64,
) -> Option<i64>
    ensures when { IsSome result ↔ (IsSummable int_sums (FitsSigned w64) a.now.cells × FitsSigned w64 (total int_sums a.now.cells *ℤ factor)) }
    ensures sum { IfSome result (λ s. (r : Grid ℤ) → MultipliesBy int_sums int_products (λ x. x) factor a.now r → s ≡ total int_sums r.cells) }
{
    sums_multiply::<i64>();
    if !a.sums_fit() {
        return None;
    }
    a.sum().checked_mul(factor)
}

/// The sum of all cells, as the sum of the sums of the lanes along an axis, behind one test of the whole array. `None` where there is no axis of
/// that number, or some of the array's numbers add up to no `i64`. The error is allocation failure.
pub fn sum_by_lanes<S: Data<Elem = i64>, D: RemoveAxis>(
    alloc: Global,
    a: &ArrayBase<S, D>,
    axis: Axis,
) -> Result<Option<i64>, AllocError>
    ensures when { IfOk result (λ made. IsSome made ↔ ((axis.0 < length a.now.lengths) × IsSummable int_sums (FitsSigned w64) a.now.cells)) }
    ensures sum { IfOk result (λ made. IfSome made (λ s. s ≡ total int_sums a.now.cells)) }
{
    axis_sums::<i64>();
    let _whole = a.raw_dim();
    if !a.axis_ok(axis) {
        return Ok(None);
    }
    if !a.sums_fit() {
        return Ok(None);
    }
    let sums = a.sum_axis(alloc, axis)?;
    Ok(Some(sums.sum()))
}

/// The inner sum of two vectors, which is that of the second and the first. `None` where they are not of one length, or the absolute values
/// of the products add up to more than the greatest `i64`.
pub fn inner_sum_either_way<S: Data<Elem = i64>, T: Data<Elem = i64>>(
    alloc: Global,
    x: &ArrayBase<S, Ix1>,
    y: &ArrayBase<T, Ix1>,
) -> Option<i64>
    ensures when { IsSome result ↔ ((x.now.lengths ≡ y.now.lengths) × FitsSigned w64 (pos (magnitude_sum (products_of int_products (λ v. v) x.now.cells y.now.cells)))) }
    ensures sum { IfSome result (λ s. (s ≡ total int_sums (products_of int_products (λ v. v) x.now.cells y.now.cells)) × (s ≡ total int_sums (products_of int_products (λ v. v) y.now.cells x.now.cells))) }
{
    dot_commutes::<i64>();
    if !dot_fits(x, y) {
        return None;
    }
    Some(x.dot(alloc, y))
}

/// The cells between two diagonals of the last two axes, from `k` on and up to `l`, with zeros for the others: whichever side is cut
/// off first. The error is allocation failure.
pub fn band<S: Data<Elem = i64>, D: Lengths>(
    alloc: Global,
    a: &ArrayBase<S, D>,
    k: isize,
    l: isize,
) -> Result<Array<i64, D>, AllocError>
    requires axes { 2 ≤ length a.now.lengths }
    ensures first { IfOk result (λ r. r ≡ lower_triangle l (pos 0) (upper_triangle k (pos 0) a.now)) }
    ensures second { IfOk result (λ r. r ≡ upper_triangle k (pos 0) (lower_triangle l (pos 0) a.now)) }
    ensures empty { size a.now.lengths ≡ 0 → IsOk result }
{
    triangles_meet::<i64>();
    let a = a.view();
    let upper = a.triu(alloc, k)?;
    upper.tril(alloc, l)
}

/// AB + AC by one product of matrices, A times B + C. `None` where B and C are not of one shape, or a sum or a product may be no
/// `i64`. The error is allocation failure.
pub fn sum_of_products_by_one<S: Data<Elem = i64>, T: Data<Elem = i64>, U: Data<Elem = i64>>(
    alloc: Global,
    a: &ArrayBase<S, Ix2>,
    b: &ArrayBase<T, Ix2>,
    c: &ArrayBase<U, Ix2>,
) -> Result<Option<Array<i64, Ix2>>, AllocError>
    ensures when { let values = ⟦<i64 as Valued>⟧ in IfOk result (λ made. IsSome made ↔ ((b.now.lengths ≡ c.now.lengths) × CanCombine b.now c.now (λ x y. FitsSigned w64 (x +ℤ y))
        × ShapesMultiply a.now.lengths b.now.lengths × HasMagnitudesInRange (FitsSigned w64) (matrix_of values a.now) (matrix_sum int_sums (matrix_of values b.now) (matrix_of values c.now)))) }
    ensures product { let values = ⟦<i64 as Valued>⟧ in IfOk result (λ made. IfSome made (HasMatrix values (matrix_sum int_sums (product_of values (matrix_of values a.now) (matrix_of values b.now)) (product_of values (matrix_of values a.now) (matrix_of values c.now))))) }
{
    mat_distributes::<i64>();
    let _lengths = (a.raw_dim(), b.raw_dim(), c.raw_dim());
    if b.shape() != c.shape() {
        return Ok(None);
    }
    if !b.add_fits(c) {
        return Ok(None);
    }
    let copy = b.to_owned(alloc)?;
    let sum = (copy + c)?;
    if !entries_fit(a, &sum) {
        return Ok(None);
    }
    let product = a.dot(alloc, &sum)?;
    Ok(Some(product))
}
