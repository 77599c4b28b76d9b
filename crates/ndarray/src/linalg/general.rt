//! General products: a multiple of the old array plus a multiple of a product. They allocate nothing.

ghost use Rattle.std.specs.Prelude.{◌≡◌, ◌↔◌, ◌≤◌, IsTrue, MatchResult, Some};
ghost use Rattle.std.specs.Mem.{type_size};
ghost use Rattle.ndarray.specs.Grid.{cell};
ghost use Rattle.ndarray.specs.linalg.GeneralProducts.{AccumulatesColumn, AccumulatesProduct, CanAccumulateColumn, CanAccumulateProduct};
ghost use Rattle.ndarray.specs.Products.{Accumulates, AccumulatesEntries, AddsScaled, CanAccumulate, CanAddScaled, HasSumsInRange, ShapesMultiplyInto, column_entries, column_of, matrix_entries, matrix_of, product_of};

use crate::base::array::{ArrayBase, ArrayView};
use crate::base::dimension::{Dimension, Ix1, Ix2, Lengths};
use crate::base::index_lists::Indices;
use crate::base::storage::{Data, DataMut};
use crate::elements::LinalgScalar;
use crate::linalg::entries::Entries;
use crate::linalg::inner::{RowsByColumns, RowsByVector};
use crate::linalg::product_tiles::{accumulate_matrix, accumulate_vector, scaled_sum};
use crate::linalg::row_sums::has_close_rows;
use crate::zip::updating::{CellCall, try_update};
use std::alloc::AllocError;
use std::mem::size_of_val;

/// Whether the shapes of three matrices are (m, k), (k, n) and (m, n), as [`general_mat_mul`] requires.
///
/// ```
/// if mat_mul_ok(&a, &b, &c) {
/// // `general_mat_mul(2, &a, &b, 3, &mut c)`, if the sums are in range too
/// }
/// ```
pub fn mat_mul_ok<S1: Data, S2: Data, S3: Data>(
    a: &ArrayBase<S1, Ix2>,
    b: &ArrayBase<S2, Ix2>,
    c: &ArrayBase<S3, Ix2>,
) -> bool
    ensures { IsTrue result ↔ ShapesMultiplyInto a.now.lengths b.now.lengths c.now.lengths }
{
    let (m, k) = a.raw_dim().into_pattern();
    let (l, n) = b.raw_dim().into_pattern();
    let (rows, columns) = c.raw_dim().into_pattern();
    k == l && rows == m && columns == n
}

/// Whether the shapes of a matrix and two vectors are (m, k), (k) and (m), as [`general_mat_vec_mul`] requires.
///
/// ```
/// if mat_vec_ok(&a, &x, &y) {
/// // `general_mat_vec_mul(2, &a, &x, 3, &mut y)`, if the sums are in range too
/// }
/// ```
pub fn mat_vec_ok<S1: Data, S2: Data, S3: Data>(
    a: &ArrayBase<S1, Ix2>,
    x: &ArrayBase<S2, Ix1>,
    y: &ArrayBase<S3, Ix1>,
) -> bool
    ensures { IsTrue result ↔ ShapesMultiplyInto a.now.lengths x.now.lengths y.now.lengths }
{
    let (m, k) = a.raw_dim().into_pattern();
    x.raw_dim().into_pattern() == k && y.raw_dim().into_pattern() == m
}

/// Sets `c` to `alpha` times the product of `a` and `b` plus `beta` times the old `c`. If `beta` is zero, the old values are not multiplied
/// and may be any.
///
/// Requires the shapes (m, k), (k, n) and (m, n), which [`mat_mul_ok`] tests. Requires that in each inner sum every selection of the
/// products has its sum in range, and that `alpha` times each inner sum is in range; if `beta` is not zero, also that each old value times
/// `beta`, and the sum of the two, is in range. For integers check all this with [`mat_mul_fits`](crate::linalg::mat_mul_fits). It
/// allocates nothing.
///
/// ```
/// // a = [[1, 2], [0, 1]], b = [[1, 2], [2, 3]], c = [[1, 1], [1, 1]]
/// general_mat_mul(2, &a, &b, 3, &mut c);
/// // c = [[13, 19], [7, 9]]
/// ```
pub fn general_mat_mul<A, S1, S2, S3>(
    alpha: A,
    a: &ArrayBase<S1, Ix2>,
    b: &ArrayBase<S2, Ix2>,
    beta: A,
    c: &mut ArrayBase<S3, Ix2>,
)
where
    A: LinalgScalar,
    S1: Data<Elem = A>,
    S2: Data<Elem = A>,
    S3: DataMut<Elem = A>,
    requires shapes { ShapesMultiplyInto a.now.lengths b.now.lengths c.old.lengths }
    requires sums { HasSumsInRange A.Valued (matrix_of A.Valued a.now) (matrix_of A.Valued b.now) }
    requires scaled { CanAccumulate A.Valued alpha beta (matrix_entries (product_of A.Valued (matrix_of A.Valued a.now) (matrix_of A.Valued b.now))) c.old }
    ensures { Accumulates A.Valued alpha beta (matrix_entries (product_of A.Valued (matrix_of A.Valued a.now) (matrix_of A.Valued b.now))) c.old c.new }
{
    accumulate_product(alpha, &a.view(), &b.view(), beta, c);
}

/// Sets `y` to `alpha` times the product of `a` and `x` plus `beta` times the old `y`. If `beta` is zero, the old values are not multiplied
/// and may be any.
///
/// Requires the shapes (m, k), (k) and (m), which [`mat_vec_ok`] tests, and of the sums and products what [`general_mat_mul`] requires. For
/// integers check all this with [`mat_vec_fits`](crate::linalg::mat_vec_fits). It allocates nothing.
///
/// ```
/// // a = [[1, 2], [0, 1]], x = [1, 1], y = [1, 1]
/// general_mat_vec_mul(2, &a, &x, 3, &mut y);
/// // y = [9, 5]
/// ```
pub fn general_mat_vec_mul<A, S1, S2, S3>(
    alpha: A,
    a: &ArrayBase<S1, Ix2>,
    x: &ArrayBase<S2, Ix1>,
    beta: A,
    y: &mut ArrayBase<S3, Ix1>,
)
where
    A: LinalgScalar,
    S1: Data<Elem = A>,
    S2: Data<Elem = A>,
    S3: DataMut<Elem = A>,
    requires shapes { ShapesMultiplyInto a.now.lengths x.now.lengths y.old.lengths }
    requires sums { HasSumsInRange A.Valued (matrix_of A.Valued a.now) (column_of A.Valued x.now) }
    requires scaled { CanAccumulate A.Valued alpha beta (column_entries (product_of A.Valued (matrix_of A.Valued a.now) (column_of A.Valued x.now))) y.old }
    ensures { Accumulates A.Valued alpha beta (column_entries (product_of A.Valued (matrix_of A.Valued a.now) (column_of A.Valued x.now))) y.old y.new }
{
    accumulate_column(alpha, &a.view(), &x.view(), beta, y);
}

/// [`general_mat_mul`] of views: by the rows of the right matrix if these are read fast, else by the columns of the left one if those are,
/// else by inner sums.
fn accumulate_product<A: LinalgScalar, S: DataMut<Elem = A>>(
    alpha: A,
    left: &ArrayView<'_, A, Ix2>,
    right: &ArrayView<'_, A, Ix2>,
    beta: A,
    array: &mut ArrayBase<S, Ix2>,
)
    requires { CanAccumulateProduct A.Valued alpha beta left.now right.now array.old }
    ensures { AccumulatesProduct A.Valued alpha beta left.now right.now array.old array.new }
{
    if size_of_val(&alpha) <= 64 && has_close_rows(right) {
        accumulate_by_rows(alpha, left, right, beta, array);
    } else if size_of_val(&alpha) <= 64 && has_close_rows(&left.t()) {
        accumulate_by_columns(alpha, left, right, beta, array);
    } else {
        accumulate_inner_sums(alpha, left, right, beta, array);
    }
}

/// The same by the rows of the right matrix.
fn accumulate_by_rows<A: LinalgScalar, S: DataMut<Elem = A>>(
    alpha: A,
    left: &ArrayView<'_, A, Ix2>,
    right: &ArrayView<'_, A, Ix2>,
    beta: A,
    array: &mut ArrayBase<S, Ix2>,
)
    requires small { type_size A.row ≤ 64 }
    requires can { CanAccumulateProduct A.Valued alpha beta left.now right.now array.old }
    ensures { AccumulatesProduct A.Valued alpha beta left.now right.now array.old array.new }
{
    let _two = (left.raw_dim(), right.raw_dim());
    accumulate_matrix(alpha, left, right, beta, array, 1);
}

/// The same by the columns of the left matrix: the transposed array takes the product of the transposed matrices.
fn accumulate_by_columns<A: LinalgScalar, S: DataMut<Elem = A>>(
    alpha: A,
    left: &ArrayView<'_, A, Ix2>,
    right: &ArrayView<'_, A, Ix2>,
    beta: A,
    array: &mut ArrayBase<S, Ix2>,
)
    requires small { type_size A.row ≤ 64 }
    requires can { CanAccumulateProduct A.Valued alpha beta left.now right.now array.old }
    ensures { AccumulatesProduct A.Valued alpha beta left.now right.now array.old array.new }
{
    accumulate_matrix(alpha, &right.t(), &left.t(), beta, array, 0);
}

/// The same by inner sums.
fn accumulate_inner_sums<A: LinalgScalar, S: DataMut<Elem = A>>(
    alpha: A,
    left: &ArrayView<'_, A, Ix2>,
    right: &ArrayView<'_, A, Ix2>,
    beta: A,
    array: &mut ArrayBase<S, Ix2>,
)
    requires { CanAccumulateProduct A.Valued alpha beta left.now right.now array.old }
    ensures { AccumulatesProduct A.Valued alpha beta left.now right.now array.old array.new }
{
    let sums = RowsByColumns {
        left: left.view(),
        right: right.view(),
    };
    accumulate(alpha, sums, beta, array);
}

/// [`general_mat_vec_mul`] of views: as the product of the vector and the transposed matrix if the columns of the matrix are read fast,
/// else by inner sums.
fn accumulate_column<A: LinalgScalar, S: DataMut<Elem = A>>(
    alpha: A,
    left: &ArrayView<'_, A, Ix2>,
    x: &ArrayView<'_, A, Ix1>,
    beta: A,
    array: &mut ArrayBase<S, Ix1>,
)
    requires { CanAccumulateColumn A.Valued alpha beta left.now x.now array.old }
    ensures { AccumulatesColumn A.Valued alpha beta left.now x.now array.old array.new }
{
    if size_of_val(&alpha) <= 64 && has_close_rows(&left.t()) {
        accumulate_as_row(alpha, left, x, beta, array);
    } else {
        accumulate_column_sums(alpha, left, x, beta, array);
    }
}

/// The same by inner sums.
fn accumulate_column_sums<A: LinalgScalar, S: DataMut<Elem = A>>(
    alpha: A,
    left: &ArrayView<'_, A, Ix2>,
    x: &ArrayView<'_, A, Ix1>,
    beta: A,
    array: &mut ArrayBase<S, Ix1>,
)
    requires { CanAccumulateColumn A.Valued alpha beta left.now x.now array.old }
    ensures { AccumulatesColumn A.Valued alpha beta left.now x.now array.old array.new }
{
    let sums = RowsByVector {
        left: left.view(),
        right: x.view(),
    };
    accumulate(alpha, sums, beta, array);
}

/// The same as the product of the vector and the transposed matrix.
fn accumulate_as_row<A: LinalgScalar, S: DataMut<Elem = A>>(
    alpha: A,
    left: &ArrayView<'_, A, Ix2>,
    x: &ArrayView<'_, A, Ix1>,
    beta: A,
    array: &mut ArrayBase<S, Ix1>,
)
    requires small { type_size A.row ≤ 64 }
    requires can { CanAccumulateColumn A.Valued alpha beta left.now x.now array.old }
    ensures { AccumulatesColumn A.Valued alpha beta left.now x.now array.old array.new }
{
    let _one = x.raw_dim();
    accumulate_vector(alpha, x, &left.t(), beta, array);
}

/// Leaves in each cell its old value times `beta` plus `alpha` times the entry there.
fn accumulate<A, S, D, C>(alpha: A, sums: C, beta: A, array: &mut ArrayBase<S, D>)
where
    A: LinalgScalar,
    S: DataMut<Elem = A>,
    D: Dimension,
    C: Entries<D::Pattern, Elem = A>,
    requires { (x : D.Pattern) (old : A) → cell array.old (D.pattern_numbers x) ≡ Some old → C.can_compute sums x × ((s : A) → C.computes sums x s → CanAddScaled A.Valued (A.meaning alpha) (A.meaning beta) (A.meaning old) (A.meaning s)) }
    ensures { AccumulatesEntries A.Valued D.pattern_numbers (C.computes sums) alpha beta array.old array.new }
{
    let lists = Indices::of(array.raw_dim());
    match try_update(array, lists, Accumulation { alpha, sums, beta }) {
        Ok(()) => {}
        Err(_) => unreachable!(),
    }
}

/// A cell's old value times `beta` plus `alpha` times the entry there, as a call.
#[derive(Drop)]
struct Accumulation<A, C> {
    alpha: A,
    sums: C,
    beta: A,
}

impl<A: LinalgScalar, X, C: Entries<X, Elem = A>> CellCall<A, X> for Accumulation<A, C> {
    ghost can_call = { λ c t. C.can_compute c.sums t.1 × ((s : A) → C.computes c.sums t.1 s → CanAddScaled A.Valued (A.meaning c.alpha) (A.meaning c.beta) (A.meaning t.0) (A.meaning s)) };

    ghost call_gives = { λ c t r d. MatchResult r (λ z. (s : A) × C.computes c.sums t.1 s × AddsScaled A.Valued (A.meaning c.alpha) (A.meaning c.beta) (A.meaning t.0) (A.meaning s) (A.meaning z)) (λ _. ⊥) × (d ≡ c) };

    fn call(&mut self, cell: &A, at: X) -> Result<A, AllocError> {
        let sum = self.sums.entry(at);
        Ok(scaled_sum(self.alpha, sum, self.beta, *cell))
    }
}
