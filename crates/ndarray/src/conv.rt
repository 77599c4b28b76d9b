//! Convolutions: the valid one of an array with a kernel, and the full one of two vectors.
//!
//! A convolution is defined on the values of the cells (`specs/Convolution.antt`), and each call requires that in each of its sums every
//! selection of the products has its sum in range, so that no order of adding leaves the range.

ghost use Rattle.std.specs.Prelude.{ℕ, List, ◌≡◌, ◌+◌, ◌*◌, ◌^◌, ◌<◌, ◌≤◌, ◌++◌, IfOk, IsTrue, ◌↔◌, drop, length, pos, replicate, reverse};
ghost use Rattle.ndarray.specs.Convolution.{CanPad, HasFullMagnitudesInRange, HasFullSelectionsInRange, HasFullSumsInRange, HasValidMagnitudesInRange, HasValidSumsInRange, HasWindowMagnitudesInRange, MakesFullConvolution, MakesValidConvolution, TestsProducts, convolution_products, padded, valid_counts, window_products};
ghost use Rattle.ndarray.specs.Grid.{IsGrid, one_axis};
ghost use Rattle.ndarray.specs.Index.{InBox};
ghost use Rattle.ndarray.specs.Integers.{int_products, int_sums};
ghost use Rattle.ndarray.specs.Products.{MakesValues, magnitude_sum, products_of};
ghost use Rattle.ndarray.specs.Subviews.{ArePositive};
ghost use Rattle.ndarray.specs.Sums.{IsSummable, total};
ghost use Rattle.ndarray.specs.conv.WindowSums.{CanSumWindows, window_sum};

mod rows;

use crate::base::strided::cells_of;
use crate::conv::rows::{has_long_rows, sums_by_rows};
use crate::linalg::inner::inner_of;
use crate::linalg::row_sums::push_zeros;
use crate::order::Order;
use crate::order::rows::BoxRows;
use crate::reduce::range_tests::{inner_stays_in_range, products_stay_in_range};
use crate::reduce::small_products::have_small_products;
use crate::zip::all_items::all_in_either_order;
use crate::zip::closures::ItemCall;
use crate::zip::collecting::collect_in_either_order;
use crate::{
    Array, ArrayBase, ArrayView, Axis, Data, Dimension, IntegerElem, IntegerScalar, Ix1, Lengths,
    LinalgScalar,
};
use std::alloc::{AllocError, Global};

/// The valid convolution of an array with a kernel of as many axes: at each position at which the kernel lies within the array, the sum of
/// the products of the cells there with those of the mirrored kernel, whose cells are reversed on each axis. On an axis of length n on
/// which the kernel has length m there are n - m + 1 positions, and none if m is greater than n.
///
/// Requires equal numbers of axes and kernel lengths of at least 1; check with [`conv_valid_ok`]. Requires too that at each position every
/// selection of the products has its sum in range, for which [`valid_fits`] is enough. The error is an allocation failure, and is never
/// reported if the result has no cells. Nothing but the result is allocated.
///
/// ```
/// // a = [[1, 2, 3], [4, 5, 6], [7, 8, 9]], k = [[1, 0], [0, 2]]
/// conv_valid(alloc, &a, &k)?; // [[7, 10], [16, 19]]
/// ```
pub fn conv_valid<A: LinalgScalar, S: Data<Elem = A>, S2: Data<Elem = A>, D: Dimension>(
    alloc: Global,
    a: &ArrayBase<S, D>,
    k: &ArrayBase<S2, D>,
) -> Result<Array<A, D>, AllocError>
    requires shapes { ArePositive a.now.lengths k.now.lengths }
    requires sums { HasValidSumsInRange A.Valued a.now k.now }
    ensures { MakesValidConvolution A.Valued a.now k.now result }
{
    over_windows(alloc, &a.view(), &mirrored_view(&k.view()))
}

/// Whether two arrays have a valid convolution: they have equal numbers of axes, and each kernel length is at least 1.
///
/// ```
/// let a = ArrayView::from_shape((3, 3), &[1, 2, 3, 4, 5, 6, 7, 8, 9])?;
/// let k = ArrayView::from_shape((2, 0), &[])?;
/// assert!(!conv_valid_ok(&a, &k)); // a kernel length of 0
/// ```
pub fn conv_valid_ok<S: Data, S2: Data, D: Dimension>(
    a: &ArrayBase<S, D>,
    k: &ArrayBase<S2, D>,
) -> bool
    ensures { IsTrue result ↔ ArePositive a.now.lengths k.now.lengths }
{
    let steps = k.raw_dim();
    a.windows_ok(&k.raw_dim(), &steps)
}

/// Whether at each position of the valid convolution of two arrays of integers the absolute values of the products add up to at most
/// the type's greatest number. Then [`conv_valid`] may be called.
///
/// Requires that the two have a valid convolution; check with [`conv_valid_ok`]. The test allocates nothing. It may return `false` although
/// the convolution may be computed, as for large products of both signs.
///
/// ```
/// if conv_valid_ok(&a, &k) && valid_fits(&a, &k) {
///     let filtered = conv_valid(alloc, &a, &k)?;
/// }
/// ```
pub fn valid_fits<A: IntegerScalar, S: Data<Elem = A>, S2: Data<Elem = A>, D: Dimension>(
    a: &ArrayBase<S, D>,
    k: &ArrayBase<S2, D>,
) -> bool
    requires { ArePositive a.now.lengths k.now.lengths }
    ensures magnitudes { IsTrue result ↔ HasValidMagnitudesInRange A.value A.fits a.now k.now }
    ensures sums { IsTrue result → HasValidSumsInRange A.Valued a.now k.now }
{
    windows_fit(&a.view(), &mirrored_view(&k.view()))
}

/// An array seen from the other end on each axis.
fn mirrored_view<'a, A, D: Lengths>(array: &'a ArrayView<'_, A, D>) -> ArrayView<'a, A, D>
    ensures lengths { result.lengths ≡ array.now.lengths }
    ensures cells { result.cells ≡ reverse array.now.cells }
    ensures whole { IsGrid result }
{
    let mut mirrored = array.view();
    for axis in 0..array.ndim() {
        mirrored.invert_axis(Axis(axis));
    }
    mirrored
}

/// At each position of a window with the lengths of one array on the other, the sum of the products of the window's cells with that
/// array's. If the other array is read faster in column order, the result is column-major.
fn over_windows<A: LinalgScalar, D: Dimension>(
    alloc: Global,
    a: &ArrayView<'_, A, D>,
    mirrored: &ArrayView<'_, A, D>,
) -> Result<Array<A, D>, AllocError>
    requires whole { IsGrid a.now }
    requires shapes { ArePositive a.now.lengths mirrored.now.lengths }
    requires sums { (ps : List ℕ) → InBox (valid_counts a.now.lengths mirrored.now.lengths) ps → IsSummable A.addition A.InRange (window_products A.multiplication A.meaning a.now mirrored.now ps) }
    ensures { MakesValues A.Valued (valid_counts a.now.lengths mirrored.now.lengths) (λ ps. total A.addition (window_products A.multiplication A.meaning a.now mirrored.now ps)) result }
{
    match a.fast_order() {
        Order::RowMajor => over_rows(alloc, a, mirrored),
        Order::ColumnMajor => over_columns(alloc, a.again(), mirrored.again()),
    }
}

/// The sums over windows, computed on the transposes of both arrays and transposed back.
fn over_columns<A: LinalgScalar, D: Dimension>(
    alloc: Global,
    a: ArrayView<'_, A, D>,
    mirrored: ArrayView<'_, A, D>,
) -> Result<Array<A, D>, AllocError>
    requires can { CanSumWindows A.Valued a mirrored }
    ensures { MakesValues A.Valued (valid_counts a.entry.lengths mirrored.entry.lengths) (window_sum A.Valued a.entry mirrored.entry) result }
{
    let _whole = mirrored.raw_dim();
    let reversed = a.reversed_axes();
    let mirrored_reversed = mirrored.reversed_axes();
    let sums = over_rows(alloc, &reversed, &mirrored_reversed)?;
    Ok(sums.reversed_axes())
}

/// The sums over windows: row by row of the result if its rows are no shorter than the kernel's and have at least eight cells, else window
/// by window.
fn over_rows<A: LinalgScalar, D: Dimension>(
    alloc: Global,
    a: &ArrayView<'_, A, D>,
    mirrored: &ArrayView<'_, A, D>,
) -> Result<Array<A, D>, AllocError>
    requires can { CanSumWindows A.Valued a.now mirrored.now }
    ensures { MakesValues A.Valued (valid_counts a.now.lengths mirrored.now.lengths) (window_sum A.Valued a.now mirrored.now) result }
{
    let windows = a.windows(mirrored.raw_dim());
    let positions = windows.raw_dim();
    if has_long_rows(&positions, &mirrored.raw_dim()) {
        return sums_by_rows(alloc, a, mirrored, positions);
    }
    collect_in_either_order(alloc, windows, WindowSum(mirrored.view()))
}

/// The sum of the products of a window's cells with those of an array of its lengths, as a call.
#[derive(Drop)]
struct WindowSum<'k, A, D: Lengths>(ArrayView<'k, A, D>);

impl<'a, 'k, A: LinalgScalar, D: Lengths> ItemCall<ArrayView<'a, A, D>> for WindowSum<'k, A, D> {
    type Out = A;

    ghost can_call = { λ c w. (w.lengths ≡ c.0.lengths) × IsSummable A.addition A.InRange (products_of A.multiplication A.meaning w.cells c.0.cells) };

    ghost call_gives = { λ c w r d. (A.meaning r ≡ total A.addition (products_of A.multiplication A.meaning w.cells c.0.cells)) × (d ≡ c) };

    fn call(&mut self, window: ArrayView<'a, A, D>) -> A {
        sum_of_products(&window, &self.0)
    }
}

/// The sum of the products of two arrays' cells, row by row.
fn sum_of_products<A: LinalgScalar, D: Lengths>(
    x: &ArrayView<'_, A, D>,
    y: &ArrayView<'_, A, D>,
) -> A
    requires same { x.now.lengths ≡ y.now.lengths }
    requires sums { IsSummable A.addition A.InRange (products_of A.multiplication A.meaning x.now.cells y.now.cells) }
    ensures { A.meaning result ≡ total A.addition (products_of A.multiplication A.meaning x.now.cells y.now.cells) }
{
    let _whole = y.raw_dim();
    let mut sum = A::zero();
    let mut rows = BoxRows::new(x.raw_dim(), Order::RowMajor);
    while let Some(row) = rows.next() {
        let left = x.cells_along(&row.first, row.axis, row.count);
        let right = y.cells_along(&row.first, row.axis, row.count);
        sum = sum + inner_of(left, right);
    }
    sum
}

/// Whether at each position of a window of the lengths of an array on another, the absolute values of the products of the window's cells
/// with that array's add up to at most the type's greatest number.
fn windows_fit<A: IntegerElem, D: Dimension>(
    a: &ArrayView<'_, A, D>,
    mirrored: &ArrayView<'_, A, D>,
) -> bool
    requires { ArePositive a.now.lengths mirrored.now.lengths }
    ensures magnitudes { IsTrue result ↔ HasWindowMagnitudesInRange A.value A.fits a.now mirrored.now }
    ensures selections { IsTrue result → (ps : List ℕ) → InBox (valid_counts a.now.lengths mirrored.now.lengths) ps → IsSummable int_sums A.fits (window_products int_products A.value a.now mirrored.now ps) }
{
    let _whole = a.raw_dim();
    let windows = a.windows(mirrored.raw_dim());
    // Without windows either array may have more cells than could be walked.
    if windows.raw_dim().size() == 0 {
        return true;
    }
    if have_small_products(a, mirrored, mirrored.len()) {
        return true;
    }
    all_in_either_order(windows, WindowTest(mirrored.view()))
}

/// Whether the absolute values of the products of a window's cells with those of an array of its lengths add up to at most the type's
/// greatest number, as a call.
#[derive(Drop)]
struct WindowTest<'k, A, D: Lengths>(ArrayView<'k, A, D>);

impl<'a, 'k, A: IntegerElem, D: Lengths> ItemCall<ArrayView<'a, A, D>> for WindowTest<'k, A, D> {
    type Out = bool;

    ghost can_call = { λ c w. w.lengths ≡ c.0.lengths };

    ghost call_gives = { λ c w r d. TestsProducts A.value A.fits w.cells c.0.cells r × (d ≡ c) };

    fn call(&mut self, window: ArrayView<'a, A, D>) -> bool {
        products_stay_in_range(&window, &self.0)
    }
}

/// The full convolution of two vectors: at s, the sum of the products `x[i] * y[j]` over all i and j with i + j = s. If the vectors have
/// the lengths n and m, it has length n + m - 1, or length 0 if one of them has no cells.
///
/// Requires, if both have cells, that n + 2m - 2 is at most `isize::MAX`; check with [`conv_full_ok`]. Requires too that at each s every
/// selection of the products has its sum in range, for which [`full_fits`] is enough. The error is an allocation failure, and is never
/// reported if one of them has no cells. Besides the result, a copy of the longer vector is allocated, with zeros on each side: one fewer
/// than the other vector has cells.
///
/// ```
/// // x = [1, 2, 3], y = [1, 1]
/// conv_full(alloc, &x, &y)?; // [1, 3, 5, 3]
/// ```
pub fn conv_full<A: LinalgScalar, S: Data<Elem = A>, S2: Data<Elem = A>>(
    alloc: Global,
    x: &ArrayBase<S, Ix1>,
    y: &ArrayBase<S2, Ix1>,
) -> Result<Array<A, Ix1>, AllocError>
    requires limit { CanPad (length x.now.cells) (length y.now.cells) }
    requires sums { HasFullSumsInRange A.Valued x.now.cells y.now.cells }
    ensures { MakesFullConvolution A.Valued x.now.cells y.now.cells result }
{
    let x = x.view();
    let y = y.view();
    if x.len() < y.len() {
        convolution_of_longer(alloc, &y, &x)
    } else {
        convolution_of_longer(alloc, &x, &y)
    }
}

/// The same for two vectors of which the first is mostly the longer one: the valid convolution of the first, between zeros, with the
/// second.
fn convolution_of_longer<A: LinalgScalar>(
    alloc: Global,
    x: &ArrayView<'_, A, Ix1>,
    y: &ArrayView<'_, A, Ix1>,
) -> Result<Array<A, Ix1>, AllocError>
    requires limit { CanPad (length x.now.cells) (length y.now.cells) }
    requires sums { HasFullSumsInRange A.Valued x.now.cells y.now.cells }
    ensures { MakesFullConvolution A.Valued x.now.cells y.now.cells result }
{
    let _whole = y.raw_dim();
    let m = y.len();
    if x.len() == 0 || m == 0 {
        return Array::zeros(alloc, 0);
    }
    let padded = between_zeros(alloc, x, m - 1)?;
    conv_valid(alloc, &padded, y)
}

/// Whether the full convolution of two vectors of lengths n and m may be computed: n + 2m - 2 is at most `isize::MAX`, or one of them has
/// no cells.
///
/// ```
/// if conv_full_ok(&x, &y) && full_fits(&x, &y) {
///     let product = conv_full(alloc, &x, &y)?;
/// }
/// ```
pub fn conv_full_ok<S: Data, S2: Data>(x: &ArrayBase<S, Ix1>, y: &ArrayBase<S2, Ix1>) -> bool
    ensures { IsTrue result ↔ CanPad (length x.now.cells) (length y.now.cells) }
{
    let _limits = (x.raw_dim(), y.raw_dim());
    let (n, m) = (x.len(), y.len());
    n == 0 || m == 0 || 2 * (m - 1) <= isize::MAX as usize - n
}

/// Whether at each s of the full convolution of two vectors of integers the absolute values of the products add up to at most the type's
/// greatest number. Then [`conv_full`] may be called if [`conv_full_ok`] is true too.
///
/// Requires nothing, and the test allocates nothing. It may return `false` although the convolution may be computed, as for large products
/// of both signs. If one of the vectors has no cells, it returns `true`.
///
/// ```
/// if conv_full_ok(&x, &y) && full_fits(&x, &y) {
///     let product = conv_full(alloc, &x, &y)?;
/// }
/// ```
pub fn full_fits<A: IntegerScalar, S: Data<Elem = A>, S2: Data<Elem = A>>(
    x: &ArrayBase<S, Ix1>,
    y: &ArrayBase<S2, Ix1>,
) -> bool
    ensures magnitudes { IsTrue result ↔ HasFullMagnitudesInRange A.value A.fits x.now.cells y.now.cells }
    ensures sums { IsTrue result → HasFullSumsInRange A.Valued x.now.cells y.now.cells }
{
    overlaps_fit(&x.view(), &mirrored_view(&y.view()))
}

/// The test of [`full_fits`] for views, the second of which is mirrored.
fn overlaps_fit<A: IntegerElem>(x: &ArrayView<'_, A, Ix1>, mirrored: &ArrayView<'_, A, Ix1>) -> bool
    ensures magnitudes { IsTrue result ↔ HasFullMagnitudesInRange A.value A.fits x.now.cells (reverse mirrored.now.cells) }
    ensures selections { IsTrue result → HasFullSelectionsInRange A.value A.fits x.now.cells (reverse mirrored.now.cells) }
{
    let n = x.raw_dim().into_pattern();
    let m = mirrored.raw_dim().into_pattern();
    if n == 0 || m == 0 {
        return true;
    }
    if have_small_products(x, mirrored, mirrored.len()) {
        return true;
    }
    for s in 0..n + m - 1 {
        if !overlap_fits(x, mirrored, s) {
            return false;
        }
    }
    true
}

/// The same test at one s: the cells of the two vectors are multiplied in pairs, each vector from its first cell on that meets a cell of
/// the other.
fn overlap_fits<A: IntegerElem>(
    x: &ArrayView<'_, A, Ix1>,
    mirrored: &ArrayView<'_, A, Ix1>,
    s: usize,
) -> bool
    requires small { s + 1 < 2 ^ 64 }
    requires place { s + 1 < length x.now.cells + length mirrored.now.cells }
    ensures magnitudes { IsTrue result ↔ A.fits (pos (magnitude_sum (convolution_products int_products A.value x.now.cells (reverse mirrored.now.cells) s))) }
    ensures selections { IsTrue result → IsSummable int_sums A.fits (convolution_products int_products A.value x.now.cells (reverse mirrored.now.cells) s) }
{
    let first = (s + 1).saturating_sub(mirrored.len());
    let first_mirrored = mirrored.len().saturating_sub(s + 1);
    let left = cells_of(cells_from(x, first));
    let right = cells_of(cells_from(mirrored, first_mirrored));
    inner_stays_in_range(left, right)
}

/// The cells of a vector from one on.
fn cells_from<'a, A>(x: &'a ArrayView<'_, A, Ix1>, first: usize) -> ArrayView<'a, A, Ix1>
    requires { first ≤ length x.now.cells }
    ensures { result.cells ≡ drop first x.now.cells }
{
    let (_, rest) = x.view().split_at(Axis(0), first);
    rest
}

/// A vector between as many zeros on each side.
fn between_zeros<A: LinalgScalar>(
    alloc: Global,
    x: &ArrayView<'_, A, Ix1>,
    count: usize,
) -> Result<Array<A, Ix1>, AllocError>
    requires { length x.now.cells + 2 * count < 2 ^ 63 }
    ensures { IfOk result (λ w. w ≡ one_axis (padded A.zero count x.now.cells)) }
{
    let len = x.len() + 2 * count;
    let mut cells = Vec::with_capacity(alloc, len)?;
    push_zeros(&mut cells, count);
    for cell in x.iter() {
        cells.push_reserved(*cell);
    }
    push_zeros(&mut cells, count);
    let Ok(array) = Array::from_shape_vec(len, cells) else {
        unreachable!()
    };
    Ok(array)
}
