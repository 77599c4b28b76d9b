//! Tests whether the sums and products of general products of integers are in the range of their type.

ghost use Rattle.std.specs.Prelude.{◌≡◌, ◌↔◌, ◌∷◌, [], IsTrue, pos, slice_index};
ghost use Rattle.ndarray.specs.Integers.{int_products, int_sums};
ghost use Rattle.ndarray.specs.Products.{CanAccumulate, CanAddScaled, HasSumsInRange, ShapesMultiplyInto, column_entries, column_of, magnitude_sum, matrix_entries, matrix_of, product_of, products_of};
ghost use Rattle.ndarray.specs.Sums.{IsSummable, total};
ghost use Rattle.ndarray.specs.WholeValues.{HasMagnitudesInRange, whole_numbers};

use crate::base::array::{ArrayBase, ArrayView};
use crate::base::axis::Axis;
use crate::base::dimension::{Dimension, Ix1, Ix2};
use crate::base::storage::Data;
use crate::elements::{IntegerElem, IntegerScalar};
use crate::linalg::general::{mat_mul_ok, mat_vec_ok};
use crate::reduce::checked_dot;

/// Whether `general_mat_mul(alpha, &a, &b, beta, &mut c)` may be called: the shapes agree, as [`mat_mul_ok`] tests; for each row of `a` and
/// column of `b` the absolute values of the products add up to at most the type's greatest number; `alpha` times each inner sum is in the
/// type's range; and, if `beta` is not zero, so are each old value of `c` times `beta`, and the sum of the two.
///
/// Requires nothing, and the test allocates nothing. It may return `false` although the call may be made, as for large products of both
/// signs.
///
/// ```
/// if mat_mul_fits(2, &a, &b, 3, &c) {
///     general_mat_mul(2, &a, &b, 3, &mut c);
/// }
/// ```
pub fn mat_mul_fits<A, S1, S2, S3>(
    alpha: A,
    a: &ArrayBase<S1, Ix2>,
    b: &ArrayBase<S2, Ix2>,
    beta: A,
    c: &ArrayBase<S3, Ix2>,
) -> bool
where
    A: IntegerScalar,
    S1: Data<Elem = A>,
    S2: Data<Elem = A>,
    S3: Data<Elem = A>,
    ensures exact { let values = whole_numbers A.value A.fits in let left = matrix_of values a.now in let right = matrix_of values b.now in
        IsTrue result ↔ (ShapesMultiplyInto a.now.lengths b.now.lengths c.now.lengths × HasMagnitudesInRange A.fits left right
        × CanAccumulate values alpha beta (matrix_entries (product_of values left right)) c.now) }
    ensures shapes { IsTrue result → ShapesMultiplyInto a.now.lengths b.now.lengths c.now.lengths }
    ensures sums { IsTrue result → HasSumsInRange A.Valued (matrix_of A.Valued a.now) (matrix_of A.Valued b.now) }
    ensures scaled { IsTrue result → CanAccumulate A.Valued alpha beta (matrix_entries (product_of A.Valued (matrix_of A.Valued a.now) (matrix_of A.Valued b.now))) c.now }
{
    let _lengths = (a.raw_dim(), b.raw_dim());
    mat_mul_ok(a, b, c) && columns_accumulate(alpha, &a.view(), &b.view(), beta, &c.view())
}

/// Whether `general_mat_vec_mul(alpha, &a, &x, beta, &mut y)` may be called: the shapes agree, as [`mat_vec_ok`] tests, and the sums and
/// products are in range, as [`mat_mul_fits`] tests, with `x` as the only column.
///
/// Requires nothing, and the test allocates nothing. It may return `false` although the call may be made, as for large products of both
/// signs.
///
/// ```
/// if mat_vec_fits(2, &a, &x, 3, &y) {
///     general_mat_vec_mul(2, &a, &x, 3, &mut y);
/// }
/// ```
pub fn mat_vec_fits<A, S1, S2, S3>(
    alpha: A,
    a: &ArrayBase<S1, Ix2>,
    x: &ArrayBase<S2, Ix1>,
    beta: A,
    y: &ArrayBase<S3, Ix1>,
) -> bool
where
    A: IntegerScalar,
    S1: Data<Elem = A>,
    S2: Data<Elem = A>,
    S3: Data<Elem = A>,
    ensures exact { let values = whole_numbers A.value A.fits in let left = matrix_of values a.now in let right = column_of values x.now in
        IsTrue result ↔ (ShapesMultiplyInto a.now.lengths x.now.lengths y.now.lengths × HasMagnitudesInRange A.fits left right
        × CanAccumulate values alpha beta (column_entries (product_of values left right)) y.now) }
    ensures shapes { IsTrue result → ShapesMultiplyInto a.now.lengths x.now.lengths y.now.lengths }
    ensures sums { IsTrue result → HasSumsInRange A.Valued (matrix_of A.Valued a.now) (column_of A.Valued x.now) }
    ensures scaled { IsTrue result → CanAccumulate A.Valued alpha beta (column_entries (product_of A.Valued (matrix_of A.Valued a.now) (column_of A.Valued x.now))) y.now }
{
    let _lengths = (a.raw_dim(), x.raw_dim());
    mat_vec_ok(a, x, y) && rows_accumulate(alpha, &a.view(), &x.view(), beta, &y.view())
}

/// The ranges of [`mat_mul_fits`]: those of each column.
fn columns_accumulate<A: IntegerScalar>(
    alpha: A,
    a: &ArrayView<'_, A, Ix2>,
    b: &ArrayView<'_, A, Ix2>,
    beta: A,
    c: &ArrayView<'_, A, Ix2>,
) -> bool
    requires inner { slice_index a.now.lengths 1 ≡ slice_index b.now.lengths 0 }
    requires lengths { c.now.lengths ≡ slice_index a.now.lengths 0 ∷ slice_index b.now.lengths 1 ∷ [] }
    ensures exact { let values = whole_numbers A.value A.fits in let left = matrix_of values a.now in let right = matrix_of values b.now in
        IsTrue result ↔ (HasMagnitudesInRange A.fits left right × CanAccumulate values alpha beta (matrix_entries (product_of values left right)) c.now) }
    ensures sums { let values = whole_numbers A.value A.fits in IsTrue result → HasSumsInRange values (matrix_of values a.now) (matrix_of values b.now) }
{
    let (_left, _into) = (a.raw_dim(), c.raw_dim());
    let (_, n) = b.raw_dim().into_pattern();
    // Without cells there may be more columns than could be walked.
    if c.len() == 0 {
        return true;
    }
    for j in 0..n {
        let column = b.index_axis(Axis(1), j);
        if !rows_accumulate(alpha, a, &column, beta, &c.index_axis(Axis(1), j)) {
            return false;
        }
    }
    true
}

/// The ranges of [`mat_vec_fits`]: those of each row.
fn rows_accumulate<A: IntegerScalar>(
    alpha: A,
    a: &ArrayView<'_, A, Ix2>,
    x: &ArrayView<'_, A, Ix1>,
    beta: A,
    y: &ArrayView<'_, A, Ix1>,
) -> bool
    requires inner { slice_index a.now.lengths 1 ≡ slice_index x.now.lengths 0 }
    requires lengths { y.now.lengths ≡ slice_index a.now.lengths 0 ∷ [] }
    ensures exact { let values = whole_numbers A.value A.fits in let left = matrix_of values a.now in let right = column_of values x.now in
        IsTrue result ↔ (HasMagnitudesInRange A.fits left right × CanAccumulate values alpha beta (column_entries (product_of values left right)) y.now) }
    ensures sums { let values = whole_numbers A.value A.fits in IsTrue result → HasSumsInRange values (matrix_of values a.now) (column_of values x.now) }
{
    let (_vector, _into) = (x.raw_dim(), y.raw_dim());
    let (m, _) = a.raw_dim().into_pattern();
    for i in 0..m {
        let Some(entry) = y.get(i) else {
            unreachable!()
        };
        let row = a.index_axis(Axis(0), i);
        if !entry_accumulates(alpha, &row, x, beta, *entry) {
            return false;
        }
    }
    true
}

/// Whether `alpha` times the inner sum of two vectors of one length may be added to `beta` times a number.
fn entry_accumulates<A: IntegerScalar>(
    alpha: A,
    row: &ArrayView<'_, A, Ix1>,
    column: &ArrayView<'_, A, Ix1>,
    beta: A,
    old: A,
) -> bool
    requires { row.now.lengths ≡ column.now.lengths }
    ensures exact { let products = products_of int_products A.value row.now.cells column.now.cells in
        IsTrue result ↔ (A.fits (pos (magnitude_sum products)) × CanAddScaled (whole_numbers A.value A.fits) (A.value alpha) (A.value beta) (A.value old) (total int_sums products)) }
    ensures sums { IsTrue result → IsSummable int_sums A.fits (products_of int_products A.value row.now.cells column.now.cells) }
{
    let Some(sum) = checked_dot(row, column) else {
        return false;
    };
    scaled_sum_fits(alpha, sum, beta, old)
}

/// Whether the type has `alpha` times a sum and, if `beta` is not zero, a number times `beta`, and the two added.
fn scaled_sum_fits<A: IntegerElem>(alpha: A, sum: A, beta: A, old: A) -> bool
    ensures { IsTrue result ↔ CanAddScaled (whole_numbers A.value A.fits) (A.value alpha) (A.value beta) (A.value old) (A.value sum) }
{
    let Some(scaled) = alpha.checked_mul(&sum) else {
        return false;
    };
    if beta.is_zero() {
        return true;
    }
    let Some(kept) = old.checked_mul(&beta) else {
        return false;
    };
    kept.checked_add(&scaled).is_some()
}
