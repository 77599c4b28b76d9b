//! Functions that rest on the laws of products of matrices: of three, of powers and of transposes, of blocks and of ranges, of triangular matrices and of
//! Kronecker products, at `i64` behind range tests. A contract without a clause `when` does not say when the result is `None`.

ghost use Rattle.std.specs.Prelude.{◌≡◌, ◌↔◌, ◌<◌, ◌∷◌, [], ℕ, ℤ, pos, FitsSigned, IfOk, IfSome, IsSome, Some, slice_index};
ghost use Rattle.std.specs.Int.{w64};
ghost use Rattle.ndarray.specs.BlockLaws.{one_row};
ghost use Rattle.ndarray.specs.Chains.{HasMatrix};
ghost use Rattle.ndarray.specs.Grid.{cell};
ghost use Rattle.ndarray.specs.KroneckerLaws.{kronecker_of_all};
ghost use Rattle.ndarray.specs.Limits.{IsWithinLimit};
ghost use Rattle.ndarray.specs.Matrices.{transpose};
ghost use Rattle.ndarray.specs.MatrixPowers.{identity_matrix, matrix_power};
ghost use Rattle.ndarray.specs.Products.{HasValues, ShapesMultiply, matrix_of, product_of, row_entries, row_of};
ghost use Rattle.ndarray.specs.Triangles.{lower_triangle};
ghost use Rattle.ndarray.specs.Views.{axis_item, transpose_of};
ghost use Rattle.ndarray.specs.WholeValues.{HasMagnitudesInRange};

use crate::product_ranges::checked_kronecker_product;
use crate::range_tests::Checked;
use ndarray::laws::{
    kron_identity, kron_mixed_all, lower_products, mat_assoc, mat_blocks, mat_powers,
    mat_transpose, product_ranges_pass,
};
use ndarray::linalg::entries_fit;
use ndarray::{Array, ArrayBase, ArrayView, Data, Ix1, Ix2, Lengths, Valued};
use std::alloc::Global;

/// Row `i` of the product of two matrices, as that row of the left one times the right one: the other rows are not multiplied, and may be
/// out of range. `None` where there is no such row, the lengths do not meet or, for some column, the absolute values of the products add up
/// to more than the greatest `i64`. The error is allocation failure.
pub fn row_of_product<S: Data<Elem = i64>, T: Data<Elem = i64>>(
    alloc: Global,
    a: &ArrayBase<S, Ix2>,
    b: &ArrayBase<T, Ix2>,
    i: usize,
) -> Checked<i64, Ix1>
    ensures when { let values = ⟦<i64 as Valued>⟧ in let row = axis_item a.now 0 i in IfOk result (λ made. IsSome made ↔ ((i < slice_index a.now.lengths 0) × ShapesMultiply row.lengths b.now.lengths × HasMagnitudesInRange (FitsSigned w64) (row_of values row) (matrix_of values b.now))) }
    ensures row { let values = ⟦<i64 as Valued>⟧ in IfOk result (λ made. IfSome made (HasValues values (slice_index b.now.lengths 1 ∷ []) (row_entries (one_row i (product_of values (matrix_of values a.now) (matrix_of values b.now)))))) }
{
    mat_blocks::<i64>();
    let _lengths = (a.raw_dim(), b.raw_dim());
    if i >= a.nrows() {
        return Ok(None);
    }
    let row = a.row(i);
    if !entries_fit(&row, b) {
        return Ok(None);
    }
    let product = row.dot(alloc, b)?;
    Ok(Some(product))
}

/// Row `i` of the product of two matrices, behind one test of the whole product: the row is not tested again, nor would another one be. `None`
/// where there is no such row, the lengths do not meet or, for some row and column, the absolute values of the products add up to more than
/// the greatest `i64`. The error is allocation failure.
pub fn row_behind_one_test<S: Data<Elem = i64>, T: Data<Elem = i64>>(
    alloc: Global,
    a: &ArrayBase<S, Ix2>,
    b: &ArrayBase<T, Ix2>,
    i: usize,
) -> Checked<i64, Ix1>
    ensures when { let values = ⟦<i64 as Valued>⟧ in IfOk result (λ made. IsSome made ↔ ((i < slice_index a.now.lengths 0) × ShapesMultiply a.now.lengths b.now.lengths × HasMagnitudesInRange (FitsSigned w64) (matrix_of values a.now) (matrix_of values b.now))) }
    ensures row { let values = ⟦<i64 as Valued>⟧ in IfOk result (λ made. IfSome made (HasValues values (slice_index b.now.lengths 1 ∷ []) (row_entries (one_row i (product_of values (matrix_of values a.now) (matrix_of values b.now)))))) }
{
    mat_blocks::<i64>();
    product_ranges_pass::<i64>();
    let _lengths = (a.raw_dim(), b.raw_dim());
    if i >= a.nrows() {
        return Ok(None);
    }
    if !entries_fit(a, b) {
        return Ok(None);
    }
    let row = a.row(i);
    let _limit = row.raw_dim();
    let product = row.dot(alloc, b)?;
    Ok(Some(product))
}

/// The product of the lower triangles of two matrices, which is a lower triangle too. `None` where the shapes do not multiply or, for some
/// row and column, the absolute values of the products add up to more than the greatest `i64`. The error is allocation failure.
pub fn product_of_lowers<S: Data<Elem = i64>, T: Data<Elem = i64>>(
    alloc: Global,
    a: &ArrayBase<S, Ix2>,
    b: &ArrayBase<T, Ix2>,
) -> Checked<i64, Ix2>
    ensures when { let values = ⟦<i64 as Valued>⟧ in IfOk result (λ made. IsSome made ↔ (ShapesMultiply a.now.lengths b.now.lengths × HasMagnitudesInRange (FitsSigned w64) (matrix_of values (lower_triangle (pos 0) (pos 0) a.now)) (matrix_of values (lower_triangle (pos 0) (pos 0) b.now)))) }
    ensures product { let values = ⟦<i64 as Valued>⟧ in IfOk result (λ made. IfSome made (HasMatrix values (product_of values (matrix_of values (lower_triangle (pos 0) (pos 0) a.now)) (matrix_of values (lower_triangle (pos 0) (pos 0) b.now))))) }
    ensures lower { IfOk result (λ made. IfSome made (λ r. (i j : ℕ) (z : ℤ) → cell r (i ∷ j ∷ []) ≡ Some z → i < j → z ≡ pos 0)) }
{
    lower_products::<i64>();
    let _lengths = (a.raw_dim(), b.raw_dim());
    let left = a.tril(alloc, 0)?;
    let right = b.tril(alloc, 0)?;
    if !entries_fit(&left, &right) {
        return Ok(None);
    }
    let product = left.dot(alloc, &right)?;
    Ok(Some(product))
}

/// The identity matrix of a number of rows. `None` where it would be beyond the limit. The error is allocation failure.
pub fn identity(alloc: Global, rows: usize) -> Checked<i64, Ix2>
    ensures when { IfOk result (λ made. IsSome made ↔ IsWithinLimit (rows ∷ rows ∷ [])) }
    ensures matrix { let values = ⟦<i64 as Valued>⟧ in IfOk result (λ made. IfSome made (HasMatrix values (identity_matrix values.addition values.multiplication rows))) }
{
    if !Ix2(rows, rows).size_ok() {
        return Ok(None);
    }
    let made = Array::from_shape_fn(alloc, (rows, rows), |(i, j)| if i == j { 1 } else { 0 })?;
    Ok(Some(made))
}

/// The Kronecker product of the identity matrix of one row with a matrix, which is the matrix. `None` where the test of the product says no.
/// The error is allocation failure.
pub fn kronecker_with_one<S: Data<Elem = i64>>(
    alloc: Global,
    a: &ArrayBase<S, Ix2>,
) -> Checked<i64, Ix2>
    ensures { IfOk result (λ made. IfSome made (λ r. r ≡ a.now)) }
{
    kron_identity::<i64>();
    let _lengths = a.raw_dim();
    let Some(one) = identity(alloc, 1)? else {
        return Ok(None);
    };
    checked_kronecker_product(alloc, &one, a)
}

/// The product of two matrices, or `None` where their shapes do not multiply or, for some row and column, the absolute values of the products
/// add up to more than the greatest `i64`.
fn product_of_pair(
    alloc: Global,
    a: &ArrayView<'_, i64, Ix2>,
    b: &ArrayView<'_, i64, Ix2>,
) -> Checked<i64, Ix2>
    ensures { let values = ⟦<i64 as Valued>⟧ in IfOk result (λ made. IfSome made (λ r. (slice_index a.now.lengths 1 ≡ slice_index b.now.lengths 0) × HasMatrix values (product_of values (matrix_of values a.now) (matrix_of values b.now)) r)) }
{
    let _lengths = (a.raw_dim(), b.raw_dim());
    if !entries_fit(a, b) {
        return Ok(None);
    }
    let product = a.dot(alloc, b)?;
    Ok(Some(product))
}

/// The product of two Kronecker products of three matrices, (A kron (B kron C))(D kron (E kron F)), without these: as AD kron (BE kron CF).
/// `None` where AD, BE or CF may not be formed, or a product of cells of them is no `i64`. The error is allocation failure.
pub fn mixed_product_of_three(
    alloc: Global,
    a: &ArrayView<'_, i64, Ix2>,
    b: &ArrayView<'_, i64, Ix2>,
    c: &ArrayView<'_, i64, Ix2>,
    d: &ArrayView<'_, i64, Ix2>,
    e: &ArrayView<'_, i64, Ix2>,
    f: &ArrayView<'_, i64, Ix2>,
) -> Checked<i64, Ix2>
    ensures { let values = ⟦<i64 as Valued>⟧ in let times = values.multiplication in IfOk result (λ made. IfSome made (HasMatrix values (product_of values
        (kronecker_of_all times (matrix_of values a.now) (matrix_of values b.now ∷ matrix_of values c.now ∷ []))
        (kronecker_of_all times (matrix_of values d.now) (matrix_of values e.now ∷ matrix_of values f.now ∷ []))))) }
{
    kron_mixed_all::<i64>();
    let Some(ad) = product_of_pair(alloc, a, d)? else {
        return Ok(None);
    };
    let Some(be) = product_of_pair(alloc, b, e)? else {
        return Ok(None);
    };
    let Some(cf) = product_of_pair(alloc, c, f)? else {
        return Ok(None);
    };
    let Some(rest) = checked_kronecker_product(alloc, &be, &cf)? else {
        return Ok(None);
    };
    checked_kronecker_product(alloc, &ad, &rest)
}

/// (AB)C, which is A(BC). `None` where the shapes do not multiply or, for some row and column of AB or of (AB)C, the absolute values of the
/// products add up to more than the greatest `i64`. The error is allocation failure.
pub fn product_of_three<S: Data<Elem = i64>, T: Data<Elem = i64>, U: Data<Elem = i64>>(
    alloc: Global,
    a: &ArrayBase<S, Ix2>,
    b: &ArrayBase<T, Ix2>,
    c: &ArrayBase<U, Ix2>,
) -> Checked<i64, Ix2>
    ensures when { let values = ⟦<i64 as Valued>⟧ in let left = matrix_of values a.now in let right = matrix_of values b.now in IfOk result (λ made. IsSome made ↔ (ShapesMultiply a.now.lengths b.now.lengths × HasMagnitudesInRange (FitsSigned w64) left right
        × ShapesMultiply (slice_index a.now.lengths 0 ∷ slice_index b.now.lengths 1 ∷ []) c.now.lengths × HasMagnitudesInRange (FitsSigned w64) (product_of values left right) (matrix_of values c.now))) }
    ensures from_left { let values = ⟦<i64 as Valued>⟧ in IfOk result (λ made. IfSome made (HasMatrix values (product_of values (product_of values (matrix_of values a.now) (matrix_of values b.now)) (matrix_of values c.now)))) }
    ensures from_right { let values = ⟦<i64 as Valued>⟧ in IfOk result (λ made. IfSome made (HasMatrix values (product_of values (matrix_of values a.now) (product_of values (matrix_of values b.now) (matrix_of values c.now))))) }
{
    mat_assoc::<i64>();
    let _lengths = (a.raw_dim(), b.raw_dim(), c.raw_dim());
    if !entries_fit(a, b) {
        return Ok(None);
    }
    let left = a.dot(alloc, b)?;
    if !entries_fit(&left, c) {
        return Ok(None);
    }
    let product = left.dot(alloc, c)?;
    Ok(Some(product))
}

/// The transpose of AB, as the transpose of B times that of A. `None` where the shapes do not multiply or, for some row and column, the absolute
/// values of the products add up to more than the greatest `i64`. The error is allocation failure.
pub fn product_transposed<S: Data<Elem = i64>, T: Data<Elem = i64>>(
    alloc: Global,
    a: &ArrayBase<S, Ix2>,
    b: &ArrayBase<T, Ix2>,
) -> Checked<i64, Ix2>
    ensures when { let values = ⟦<i64 as Valued>⟧ in IfOk result (λ made. IsSome made ↔ (ShapesMultiply (transpose_of b.now).lengths (transpose_of a.now).lengths × HasMagnitudesInRange (FitsSigned w64) (matrix_of values (transpose_of b.now)) (matrix_of values (transpose_of a.now)))) }
    ensures product { let values = ⟦<i64 as Valued>⟧ in IfOk result (λ made. IfSome made (HasMatrix values (transpose (product_of values (matrix_of values a.now) (matrix_of values b.now))))) }
{
    mat_transpose::<i64>();
    let (left, right) = (b.t(), a.t());
    if !entries_fit(&left, &right) {
        return Ok(None);
    }
    let product = left.dot(alloc, &right)?;
    Ok(Some(product))
}

/// The fourth power of a square matrix, as the square of its square. `None` where the matrix is not square or, for some row and column of one
/// of the two products, the absolute values of the products add up to more than the greatest `i64`. The error is allocation failure.
pub fn fourth_power<S: Data<Elem = i64>>(alloc: Global, a: &ArrayBase<S, Ix2>) -> Checked<i64, Ix2>
    ensures when { let values = ⟦<i64 as Valued>⟧ in let m = matrix_of values a.now in let square = product_of values m m in IfOk result (λ made. IsSome made ↔ (ShapesMultiply a.now.lengths a.now.lengths × HasMagnitudesInRange (FitsSigned w64) m m × HasMagnitudesInRange (FitsSigned w64) square square)) }
    ensures power { let values = ⟦<i64 as Valued>⟧ in IfOk result (λ made. IfSome made (HasMatrix values (matrix_power values.addition values.multiplication (matrix_of values a.now) 4))) }
{
    mat_powers::<i64>();
    let _lengths = a.raw_dim();
    if !entries_fit(a, a) {
        return Ok(None);
    }
    let square = a.dot(alloc, a)?;
    if !entries_fit(&square, &square) {
        return Ok(None);
    }
    let fourth = square.dot(alloc, &square)?;
    Ok(Some(fourth))
}
