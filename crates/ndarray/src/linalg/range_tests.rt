//! Tests whether the entries of a product of integers are in the range of their type: `dot_fits` of each row and column.

ghost use Rattle.std.specs.Prelude.{◌≡◌, ◌↔◌, IsTrue, pos, length, slice_index};
ghost use Rattle.ndarray.specs.Grid.{IsGrid};
ghost use Rattle.ndarray.specs.Integers.{int_products};
ghost use Rattle.ndarray.specs.Products.{HasSumsInRange, ShapesMultiply, column_of, magnitude_sum, matrix_of, products_of, row_of};
ghost use Rattle.ndarray.specs.WholeValues.{HasMagnitudesInRange, whole_numbers};

use crate::base::array::{ArrayBase, ArrayView};
use crate::base::axis::Axis;
use crate::base::dimension::{Dimension, Ix1, Ix2};
use crate::base::storage::Data;
use crate::base::strided::cells_of;
use crate::elements::{IntegerElem, IntegerScalar};
use crate::linalg::products::{Dot, dot_ok};
use crate::reduce::dot_fits;
use crate::reduce::range_tests::inner_stays_in_range;
use crate::reduce::small_products::have_small_products;

/// Arrays of integers that have a product with `Rhs`, so that its range can be tested: vectors and matrices with vectors and matrices, and
/// arrays of `IxDyn` with arrays of `IxDyn`.
pub trait IntegerDot<Rhs>: Dot<Rhs> {
    // Whether the shapes agree, and for each row and column, or each two lanes that meet, the absolute values of the products add up to a
    // number of the type.
    ghost entries_in_range: { Self → Rhs → Type 0 };

    /// Whether `self.dot(alloc, rhs)` may be called, as [`entries_fit`] tests. Requires nothing.
    ///
    /// ```
    /// if a.entries_fit(&b) {
    ///     let product = a.dot(alloc, &b)?;
    /// }
    /// ```
    fn entries_fit(&self, rhs: &Rhs) -> bool
        ensures exact { IsTrue result ↔ entries_in_range self.now rhs.now }
        ensures defined { IsTrue result → Self.can_dot self.now rhs.now };
}

/// Whether `left.dot(alloc, right)` may be called for two vectors or matrices of integers: the shapes agree, as [`dot_ok`] tests, and for
/// each row of the left and column of the right the absolute values of the products add up to at most the type's greatest number.
///
/// For arrays of `IxDyn`, the rows are the lanes of the left along its last axis, and the columns the lanes of the right along its last
/// axis but one, or its only one.
///
/// Requires nothing, and the test allocates nothing. It may return `false` although `dot` may be called, as for large products of both
/// signs.
///
/// ```
/// if entries_fit(&a, &b) {
///     let product = a.dot(alloc, &b)?;
/// }
/// ```
pub fn entries_fit<L: IntegerDot<R>, R>(left: &L, right: &R) -> bool
    ensures exact { IsTrue result ↔ L.entries_in_range left.now right.now }
    ensures defined { IsTrue result → L.can_dot left.now right.now }
{
    left.entries_fit(right)
}

impl<A: IntegerScalar, S: Data<Elem = A>, S2: Data<Elem = A>> IntegerDot<ArrayBase<S2, Ix1>>
    for ArrayBase<S, Ix1> {
    ghost entries_in_range = { λ a b. (a.lengths ≡ b.lengths) × A.fits (pos (magnitude_sum (products_of int_products A.value a.cells b.cells))) };

    fn entries_fit(&self, rhs: &ArrayBase<S2, Ix1>) -> bool {
        dot_fits(self, rhs)
    }
}

impl<A: IntegerScalar, S: Data<Elem = A>, S2: Data<Elem = A>> IntegerDot<ArrayBase<S2, Ix2>>
    for ArrayBase<S, Ix1> {
    ghost entries_in_range = { λ a b. ShapesMultiply a.lengths b.lengths × HasMagnitudesInRange A.fits (row_of (whole_numbers A.value A.fits) a) (matrix_of (whole_numbers A.value A.fits) b) };

    fn entries_fit(&self, rhs: &ArrayBase<S2, Ix2>) -> bool {
        dot_ok(self, rhs) && columns_fit(&self.view(), &rhs.view())
    }
}

impl<A: IntegerScalar, S: Data<Elem = A>, S2: Data<Elem = A>> IntegerDot<ArrayBase<S2, Ix1>>
    for ArrayBase<S, Ix2> {
    ghost entries_in_range = { λ a b. ShapesMultiply a.lengths b.lengths × HasMagnitudesInRange A.fits (matrix_of (whole_numbers A.value A.fits) a) (column_of (whole_numbers A.value A.fits) b) };

    fn entries_fit(&self, rhs: &ArrayBase<S2, Ix1>) -> bool {
        dot_ok(self, rhs) && rows_fit(&self.view(), &rhs.view())
    }
}

impl<A: IntegerScalar, S: Data<Elem = A>, S2: Data<Elem = A>> IntegerDot<ArrayBase<S2, Ix2>>
    for ArrayBase<S, Ix2> {
    ghost entries_in_range = { λ a b. ShapesMultiply a.lengths b.lengths × HasMagnitudesInRange A.fits (matrix_of (whole_numbers A.value A.fits) a) (matrix_of (whole_numbers A.value A.fits) b) };

    fn entries_fit(&self, rhs: &ArrayBase<S2, Ix2>) -> bool {
        dot_ok(self, rhs) && rows_and_columns_fit(&self.view(), &rhs.view())
    }
}

/// Whether a vector and each column of a matrix pass `dot_fits`.
fn columns_fit<A: IntegerElem>(x: &ArrayView<'_, A, Ix1>, b: &ArrayView<'_, A, Ix2>) -> bool
    requires vector { IsGrid x.now × (length x.now.lengths ≡ 1) }
    requires inner { slice_index x.now.lengths 0 ≡ slice_index b.now.lengths 0 }
    ensures magnitudes { IsTrue result ↔ HasMagnitudesInRange A.fits (row_of (whole_numbers A.value A.fits) x.now) (matrix_of (whole_numbers A.value A.fits) b.now) }
    ensures sums { IsTrue result → HasSumsInRange (whole_numbers A.value A.fits) (row_of (whole_numbers A.value A.fits) x.now) (matrix_of (whole_numbers A.value A.fits) b.now) }
{
    let (k, n) = b.raw_dim().into_pattern();
    // Without sums, or where all are empty, the other axes may be longer than could be walked.
    if k == 0 || n == 0 {
        return true;
    }
    if have_small_products(x, b, k) {
        return true;
    }
    let numbers = cells_of(x.view());
    for j in 0..n {
        let column = cells_of(b.index_axis(Axis(1), j));
        if !inner_stays_in_range(numbers.again(), column) {
            return false;
        }
    }
    true
}

/// Whether each row of a matrix and a vector pass `dot_fits`.
pub(crate) fn rows_fit<A: IntegerElem>(a: &ArrayView<'_, A, Ix2>, x: &ArrayView<'_, A, Ix1>) -> bool
    requires vector { IsGrid x.now × (length x.now.lengths ≡ 1) }
    requires inner { slice_index a.now.lengths 1 ≡ slice_index x.now.lengths 0 }
    ensures magnitudes { IsTrue result ↔ HasMagnitudesInRange A.fits (matrix_of (whole_numbers A.value A.fits) a.now) (column_of (whole_numbers A.value A.fits) x.now) }
    ensures sums { IsTrue result → HasSumsInRange (whole_numbers A.value A.fits) (matrix_of (whole_numbers A.value A.fits) a.now) (column_of (whole_numbers A.value A.fits) x.now) }
{
    let (m, k) = a.raw_dim().into_pattern();
    // As above.
    if k == 0 || m == 0 {
        return true;
    }
    if have_small_products(a, x, k) {
        return true;
    }
    let numbers = cells_of(x.view());
    for i in 0..m {
        let row = cells_of(a.index_axis(Axis(0), i));
        if !inner_stays_in_range(row, numbers.again()) {
            return false;
        }
    }
    true
}

/// Whether each row of a matrix and each column of another pass `dot_fits`.
pub(crate) fn rows_and_columns_fit<A: IntegerElem>(
    a: &ArrayView<'_, A, Ix2>,
    b: &ArrayView<'_, A, Ix2>,
) -> bool
    requires { slice_index a.now.lengths 1 ≡ slice_index b.now.lengths 0 }
    ensures magnitudes { IsTrue result ↔ HasMagnitudesInRange A.fits (matrix_of (whole_numbers A.value A.fits) a.now) (matrix_of (whole_numbers A.value A.fits) b.now) }
    ensures sums { IsTrue result → HasSumsInRange (whole_numbers A.value A.fits) (matrix_of (whole_numbers A.value A.fits) a.now) (matrix_of (whole_numbers A.value A.fits) b.now) }
{
    let (m, k) = a.raw_dim().into_pattern();
    let (_, n) = b.raw_dim().into_pattern();
    // As above.
    if k == 0 || m == 0 || n == 0 {
        return true;
    }
    if have_small_products(a, b, k) {
        return true;
    }
    for i in 0..m {
        if !columns_fit(&a.index_axis(Axis(0), i), b) {
            return false;
        }
    }
    true
}
