//! Tests whether products of three and of four arrays of integers are in the range of their type.

ghost use Rattle.std.specs.Prelude.{◌≢◌, ◌↔◌, IfErr, IfOk, IsTrue, slice_index};
ghost use Rattle.ndarray.specs.ChainRanges.{HasChainInRange, HasMixedProductInRange, MixedProductHasCells};
ghost use Rattle.ndarray.specs.Chains.{ShapesChain, ShapesMultiplyInPairs};
ghost use Rattle.ndarray.specs.Products.{HasProductsInRange, HasSumsInRange, column_of, matrix_of, product_of};
ghost use Rattle.ndarray.specs.WholeValues.{HasMagnitudesInRange, whole_numbers};

use crate::base::array::{ArrayBase, ArrayView};
use crate::base::axis::Axis;
use crate::base::dimension::{Dimension, Ix1, Ix2};
use crate::base::storage::Data;
use crate::elements::IntegerScalar;
use crate::linalg::chains::{chain_ok, kron_dot_ok};
use crate::linalg::kronecker_range_test::cell_products_fit;
use crate::linalg::products::Dot;
use crate::linalg::range_tests::{rows_and_columns_fit, rows_fit};
use std::alloc::{AllocError, Global};

/// Whether `mat_vec_chain(alloc, &a, &b, &x)` may be called: the lengths agree, as [`chain_ok`] tests; and, if `a` has rows, the absolute
/// values of the products of each row of `b` with `x`, and those of each row of `a` with the vector Bx, add up to at most the type's
/// greatest number.
///
/// Requires nothing. It may return `false` although the call may be made, as for large products of both signs. The error is an allocation
/// failure, for the vector Bx. It is reported only if the lengths agree, the absolute values of the products of each row of `b` with `x`
/// add up to a number of the type, and `a` and `b` have rows.
///
/// ```
/// if chain_fits(alloc, &a, &b, &x)? {
///     let product = mat_vec_chain(alloc, &a, &b, &x)?;
/// }
/// ```
pub fn chain_fits<A, S, S2, S3>(
    alloc: Global,
    a: &ArrayBase<S, Ix2>,
    b: &ArrayBase<S2, Ix2>,
    x: &ArrayBase<S3, Ix1>,
) -> Result<bool, AllocError>
where
    A: IntegerScalar,
    S: Data<Elem = A>,
    S2: Data<Elem = A>,
    S3: Data<Elem = A>,
    ensures exact { IfOk result (λ fits. IsTrue fits ↔ (ShapesChain a.now.lengths b.now.lengths x.now.lengths × HasChainInRange A.value A.fits a.now b.now x.now)) }
    ensures shapes { IfOk result (λ fits. IsTrue fits → ShapesChain a.now.lengths b.now.lengths x.now.lengths) }
    ensures inner_sums { IfOk result (λ fits. IsTrue fits → slice_index a.now.lengths 0 ≢ 0 → HasSumsInRange A.Valued (matrix_of A.Valued b.now) (column_of A.Valued x.now)) }
    ensures outer_sums { IfOk result (λ fits. IsTrue fits → HasSumsInRange A.Valued (matrix_of A.Valued a.now) (product_of A.Valued (matrix_of A.Valued b.now) (column_of A.Valued x.now))) }
    ensures error { let values = whole_numbers A.value A.fits in
        IfErr result (λ _. ShapesChain a.now.lengths b.now.lengths x.now.lengths
        × HasMagnitudesInRange A.fits (matrix_of values b.now) (column_of values x.now) × (slice_index a.now.lengths 0 ≢ 0) × (slice_index b.now.lengths 0 ≢ 0)) }
{
    if !chain_ok(a, b, x) {
        return Ok(false);
    }
    chain_sums_fit(alloc, &a.view(), &b.view(), &x.view())
}

/// The ranges of [`chain_fits`].
fn chain_sums_fit<A: IntegerScalar>(
    alloc: Global,
    a: &ArrayView<'_, A, Ix2>,
    b: &ArrayView<'_, A, Ix2>,
    x: &ArrayView<'_, A, Ix1>,
) -> Result<bool, AllocError>
    requires { ShapesChain a.now.lengths b.now.lengths x.now.lengths }
    ensures exact { IfOk result (λ fits. IsTrue fits ↔ HasChainInRange A.value A.fits a.now b.now x.now) }
    ensures inner_sums { IfOk result (λ fits. IsTrue fits → slice_index a.now.lengths 0 ≢ 0 → HasSumsInRange A.Valued (matrix_of A.Valued b.now) (column_of A.Valued x.now)) }
    ensures outer_sums { IfOk result (λ fits. IsTrue fits → HasSumsInRange A.Valued (matrix_of A.Valued a.now) (product_of A.Valued (matrix_of A.Valued b.now) (column_of A.Valued x.now))) }
    ensures error { let values = whole_numbers A.value A.fits in
        IfErr result (λ _. HasMagnitudesInRange A.fits (matrix_of values b.now) (column_of values x.now) × (slice_index a.now.lengths 0 ≢ 0) × (slice_index b.now.lengths 0 ≢ 0)) }
{
    let _lengths = (a.raw_dim(), b.raw_dim(), x.raw_dim());
    if a.len_of(Axis(0)) == 0 {
        return Ok(true);
    }
    if !rows_fit(b, x) {
        return Ok(false);
    }
    let y = Dot::dot(b, alloc, x)?;
    Ok(rows_fit(a, &y.view()))
}

/// Whether `kron_dot(alloc, &a, &b, &c, &d)` may be called: the lengths agree, as [`kron_dot_ok`] tests; and, if the result has cells, for
/// each row of `a` and column of `c`, and for each row of `b` and column of `d`, the absolute values of the products add up to at most the
/// type's greatest number, and the product of each cell of AC and each of BD is in the type's range.
///
/// Requires nothing. It may return `false` although the call may be made, as for large products of both signs. The error is an allocation
/// failure, for AC or BD. It is reported only if the lengths agree, the absolute values of the products in each inner sum of AC and of BD
/// add up to a number of the type, and the result has cells.
///
/// ```
/// if kron_dot_fits(alloc, &a, &b, &c, &d)? {
///     let product = kron_dot(alloc, &a, &b, &c, &d)?;
/// }
/// ```
pub fn kron_dot_fits<A, S, S2, S3, S4>(
    alloc: Global,
    a: &ArrayBase<S, Ix2>,
    b: &ArrayBase<S2, Ix2>,
    c: &ArrayBase<S3, Ix2>,
    d: &ArrayBase<S4, Ix2>,
) -> Result<bool, AllocError>
where
    A: IntegerScalar,
    S: Data<Elem = A>,
    S2: Data<Elem = A>,
    S3: Data<Elem = A>,
    S4: Data<Elem = A>,
    ensures exact { IfOk result (λ fits. IsTrue fits ↔ (ShapesMultiplyInPairs a.now.lengths b.now.lengths c.now.lengths d.now.lengths × HasMixedProductInRange A.value A.fits a.now b.now c.now d.now)) }
    ensures shapes { IfOk result (λ fits. IsTrue fits → ShapesMultiplyInPairs a.now.lengths b.now.lengths c.now.lengths d.now.lengths) }
    ensures left_sums { IfOk result (λ fits. IsTrue fits → MixedProductHasCells a.now b.now c.now d.now → HasSumsInRange A.Valued (matrix_of A.Valued a.now) (matrix_of A.Valued c.now)) }
    ensures right_sums { IfOk result (λ fits. IsTrue fits → MixedProductHasCells a.now b.now c.now d.now → HasSumsInRange A.Valued (matrix_of A.Valued b.now) (matrix_of A.Valued d.now)) }
    ensures products { IfOk result (λ fits. IsTrue fits → HasProductsInRange A.Valued (product_of A.Valued (matrix_of A.Valued a.now) (matrix_of A.Valued c.now)) (product_of A.Valued (matrix_of A.Valued b.now) (matrix_of A.Valued d.now))) }
    ensures error { let values = whole_numbers A.value A.fits in
        IfErr result (λ _. ShapesMultiplyInPairs a.now.lengths b.now.lengths c.now.lengths d.now.lengths
        × HasMagnitudesInRange A.fits (matrix_of values a.now) (matrix_of values c.now) × HasMagnitudesInRange A.fits (matrix_of values b.now) (matrix_of values d.now)
        × (MixedProductHasCells a.now b.now c.now d.now)) }
{
    if !kron_dot_ok(a, b, c, d) {
        return Ok(false);
    }
    mixed_products_fit(alloc, &a.view(), &b.view(), &c.view(), &d.view())
}

/// The ranges of [`kron_dot_fits`].
fn mixed_products_fit<A: IntegerScalar>(
    alloc: Global,
    a: &ArrayView<'_, A, Ix2>,
    b: &ArrayView<'_, A, Ix2>,
    c: &ArrayView<'_, A, Ix2>,
    d: &ArrayView<'_, A, Ix2>,
) -> Result<bool, AllocError>
    requires { ShapesMultiplyInPairs a.now.lengths b.now.lengths c.now.lengths d.now.lengths }
    ensures exact { IfOk result (λ fits. IsTrue fits ↔ HasMixedProductInRange A.value A.fits a.now b.now c.now d.now) }
    ensures left_sums { IfOk result (λ fits. IsTrue fits → MixedProductHasCells a.now b.now c.now d.now → HasSumsInRange A.Valued (matrix_of A.Valued a.now) (matrix_of A.Valued c.now)) }
    ensures right_sums { IfOk result (λ fits. IsTrue fits → MixedProductHasCells a.now b.now c.now d.now → HasSumsInRange A.Valued (matrix_of A.Valued b.now) (matrix_of A.Valued d.now)) }
    ensures products { IfOk result (λ fits. IsTrue fits → HasProductsInRange A.Valued (product_of A.Valued (matrix_of A.Valued a.now) (matrix_of A.Valued c.now)) (product_of A.Valued (matrix_of A.Valued b.now) (matrix_of A.Valued d.now))) }
    ensures error { let values = whole_numbers A.value A.fits in
        IfErr result (λ _. HasMagnitudesInRange A.fits (matrix_of values a.now) (matrix_of values c.now) × HasMagnitudesInRange A.fits (matrix_of values b.now) (matrix_of values d.now)
        × (MixedProductHasCells a.now b.now c.now d.now)) }
{
    let _lengths = (a.raw_dim(), b.raw_dim(), c.raw_dim(), d.raw_dim());
    // Without cells nothing is added.
    if !has_cells(a, c) {
        return Ok(true);
    }
    if !has_cells(b, d) {
        return Ok(true);
    }
    if !rows_and_columns_fit(a, c) {
        return Ok(false);
    }
    if !rows_and_columns_fit(b, d) {
        return Ok(false);
    }
    let left = Dot::dot(a, alloc, c)?;
    let right = Dot::dot(b, alloc, d)?;
    Ok(cell_products_fit(&left.view(), &right.view()))
}

/// Whether the product of two matrices has cells.
fn has_cells<A>(left: &ArrayView<'_, A, Ix2>, right: &ArrayView<'_, A, Ix2>) -> bool
    ensures { IsTrue result ↔ ((slice_index left.now.lengths 0 ≢ 0) × (slice_index right.now.lengths 1 ≢ 0)) }
{
    let (rows, _) = left.raw_dim().into_pattern();
    let (_, columns) = right.raw_dim().into_pattern();
    rows != 0 && columns != 0
}
