//! Filters: two of a signal, one after another, one of a picture in two parts, one of two pictures, and the greatest cells of a table's
//! windows; and full convolutions of two signals and of three. A contract without a clause `when` or `error` does not say when the result is
//! `None`.

ghost use Rattle.std.specs.Prelude.{◌≡◌, ◌≤◌, ◌↔◌, ◌+ℤ◌, ◌∷◌, [], ℤ, FitsSigned, int_lt, length, slice_index, IfErr, IfOk, IfSome, IsSome, IsTrue};
ghost use Rattle.std.specs.Int.{w64};
ghost use Rattle.std.specs.List.{count_by};
ghost use Rattle.ndarray.specs.Convolution.{CanPad, HasFullMagnitudesInRange, HasValidMagnitudesInRange, filtered, full_convolution, valid_convolution_by, valid_counts};
ghost use Rattle.ndarray.specs.FilterLaws.{IsColumnTimesRow, filtered_at};
ghost use Rattle.ndarray.specs.Grid.{Grid, IsGrid, array_by, one_axis};
ghost use Rattle.ndarray.specs.Integers.{int_products, int_sums};
ghost use Rattle.ndarray.specs.Subviews.{ArePositive, window, window_counts};
ghost use Rattle.ndarray.specs.Sums.{IsSummable, total};
ghost use Rattle.ndarray_examples.specs.Filters.{AreLocalMaxima, AreZeroTests, IsZero, convolved_residues, filtered_residues};

use crate::range_tests::Checked;
use crate::{count_above, maximum_filter};
use ndarray::conv::{conv_full, conv_full_ok, conv_valid, conv_valid_ok, full_fits, valid_fits};
use ndarray::laws::{conv_assoc, conv_commutes, conv_filters, filters_add, filters_compose};
use ndarray::{Array, ArrayBase, ArrayView, Data, Dimension, Ix1, Ix2, Lengths, Zip};
use residue::Residue;
use std::alloc::{AllocError, Global};

/// A signal filtered by two kernels one after another, and filtered once by the convolution of the kernels: the same.
pub fn filter_twice(
    alloc: Global,
    signal: &ArrayView<'_, Residue<5>, Ix1>,
    first: &ArrayView<'_, Residue<5>, Ix1>,
    second: &ArrayView<'_, Residue<5>, Ix1>,
) -> Result<(Array<Residue<5>, Ix1>, Array<Residue<5>, Ix1>), AllocError>
    requires first { 1 ≤ length first.now.cells }
    requires second { 1 ≤ length second.now.cells }
    requires limit { CanPad (length first.now.cells) (length second.now.cells) }
    ensures same { IfOk result (λ r. r.0 ≡ r.1) }
    ensures twice { IfOk result (λ r. r.0 ≡ one_axis (filtered_residues (filtered_residues signal.now.cells first.now.cells) second.now.cells)) }
    ensures once { IfOk result (λ r. r.1 ≡ one_axis (filtered_residues signal.now.cells (convolved_residues first.now.cells second.now.cells))) }
{
    conv_filters::<Residue<5>>();
    let _lengths = (signal.raw_dim(), first.raw_dim(), second.raw_dim());
    let once = conv_valid(alloc, signal, first)?;
    let twice = conv_valid(alloc, &once, second)?;
    let kernel = conv_full(alloc, first, second)?;
    let direct = conv_valid(alloc, signal, &kernel)?;
    Ok((twice, direct))
}

/// A signal filtered by two kernels one after another, by one filter: by the convolution of the kernels. `None` where a kernel has no cells, they
/// are too long for a convolution, or a sum may be no `i64`. The error is allocation failure.
pub fn filter_by_one<S: Data<Elem = i64>, T: Data<Elem = i64>, U: Data<Elem = i64>>(
    alloc: Global,
    signal: &ArrayBase<S, Ix1>,
    first: &ArrayBase<T, Ix1>,
    second: &ArrayBase<U, Ix1>,
) -> Checked<i64, Ix1>
    ensures when { let kernel = full_convolution int_sums int_products first.now.cells second.now.cells in IfOk result (λ made. IsSome made ↔ ((1 ≤ length first.now.cells) × (1 ≤ length second.now.cells) × CanPad (length first.now.cells) (length second.now.cells)
        × HasFullMagnitudesInRange (λ x. x) (FitsSigned w64) first.now.cells second.now.cells × HasValidMagnitudesInRange (λ x. x) (FitsSigned w64) signal.now (one_axis kernel))) }
    ensures filtered { IfOk result (λ made. IfSome made (λ r. r ≡ one_axis (filtered int_sums int_products (filtered int_sums int_products signal.now.cells first.now.cells) second.now.cells))) }
{
    conv_filters::<i64>();
    let _lengths = (signal.raw_dim(), first.raw_dim(), second.raw_dim());
    if first.len() == 0 {
        return Ok(None);
    }
    if second.len() == 0 {
        return Ok(None);
    }
    let Some(kernel) = convolution_either_way(alloc, first, second)? else {
        return Ok(None);
    };
    if !conv_valid_ok(signal, &kernel) {
        return Ok(None);
    }
    if !valid_fits(signal, &kernel) {
        return Ok(None);
    }
    let direct = conv_valid(alloc, signal, &kernel)?;
    Ok(Some(direct))
}

/// The greatest cell of each square of three by three cells of a table, or `None` where a side is shorter.
pub fn local_maxima<S: Data<Elem = u64>>(
    alloc: Global,
    table: &ArrayBase<S, Ix2>,
) -> Result<Option<Array<u64, Ix2>>, AllocError>
    ensures when { IfOk result (λ made. IsSome made ↔ ((3 ≤ slice_index table.now.lengths 0) × (3 ≤ slice_index table.now.lengths 1))) }
    ensures maxima { IfOk result (λ made. IfSome made (AreLocalMaxima table.now)) }
    ensures error { IfErr result (λ _. (3 ≤ slice_index table.now.lengths 0) × (3 ≤ slice_index table.now.lengths 1)) }
{
    let (rows, columns) = table.raw_dim().into_pattern();
    if rows < 3 || columns < 3 {
        return Ok(None);
    }
    let maxima = maximum_filter(alloc, table)?;
    Ok(Some(maxima))
}

/// How many cells of each square of two by two cells of a table are above a bound; there is no square where a side of the table is shorter.
///
/// The error is allocation failure.
pub fn counts_above<S: Data<Elem = i64>>(
    alloc: Global,
    table: &ArrayBase<S, Ix2>,
    bound: i64,
) -> Result<Array<usize, Ix2>, AllocError>
    ensures { IfOk result (λ counts. counts ≡ array_by (window_counts table.now.lengths (2 ∷ 2 ∷ []) (1 ∷ 1 ∷ [])) (λ is. count_by (λ x. int_lt bound x) (window table.now (2 ∷ 2 ∷ []) (1 ∷ 1 ∷ []) is).cells)) }
{
    let _axes = table.ndim();
    Zip::from(table.windows((2, 2))).map_collect(alloc, |square| count_above(&square, bound))
}

/// Whether all cells are zero.
pub fn is_zero<S: Data<Elem = i64>, D: Lengths>(a: &ArrayBase<S, D>) -> bool
    ensures { IsTrue result ↔ IsZero a.now }
{
    Zip::from(a.view()).all(|x| *x == 0)
}

/// Of each window of so many rows and columns in a table, whether all its cells are zero; or `None` where one of these is 0 or more than
/// the table has.
pub fn zero_windows<S: Data<Elem = i64>>(
    alloc: Global,
    table: &ArrayBase<S, Ix2>,
    rows: usize,
    columns: usize,
) -> Result<Option<Array<bool, Ix2>>, AllocError>
    ensures when { IfOk result (λ made. IsSome made ↔ ((1 ≤ rows) × (1 ≤ columns) × (rows ≤ slice_index table.now.lengths 0) × (columns ≤ slice_index table.now.lengths 1))) }
    ensures tests { IfOk result (λ made. IfSome made (AreZeroTests rows columns table.now)) }
    ensures error { IfErr result (λ _. (1 ≤ rows) × (1 ≤ columns) × (rows ≤ slice_index table.now.lengths 0) × (columns ≤ slice_index table.now.lengths 1)) }
{
    let (height, width) = table.raw_dim().into_pattern();
    if rows == 0 || columns == 0 || height < rows || width < columns {
        return Ok(None);
    }
    let windows = table.windows((rows, columns));
    let tests = Zip::from(windows).map_collect(alloc, |window| is_zero(&window))?;
    Ok(Some(tests))
}

/// The filter of a picture by a kernel that is a column times a row, by two smaller filters in turn: by the column, and then by the row. `None` where
/// one of them has no row or no column, or the sums of a filter may be no `i64`. The error is allocation failure.
pub fn filter_by_parts<S: Data<Elem = i64>, T: Data<Elem = i64>, U: Data<Elem = i64>>(
    alloc: Global,
    picture: &ArrayBase<S, Ix2>,
    column: &ArrayBase<T, Ix2>,
    row: &ArrayBase<U, Ix2>,
) -> Result<Option<Array<i64, Ix2>>, AllocError>
    ensures { IfOk result (λ made. IfSome made (λ r. (kernel : Grid ℤ) → IsGrid kernel → ArePositive picture.now.lengths kernel.lengths → IsColumnTimesRow int_sums int_products column.now row.now kernel → r ≡ valid_convolution_by int_sums int_products (λ x. x) picture.now kernel)) }
{
    filters_compose::<i64>();
    let _whole = (picture.raw_dim(), column.raw_dim(), row.raw_dim());
    if !conv_valid_ok(picture, column) {
        return Ok(None);
    }
    if !valid_fits(picture, column) {
        return Ok(None);
    }
    let once = conv_valid(alloc, picture, column)?;
    if !conv_valid_ok(&once, row) {
        return Ok(None);
    }
    if !valid_fits(&once, row) {
        return Ok(None);
    }
    let twice = conv_valid(alloc, &once, row)?;
    Ok(Some(twice))
}

/// The filters of two pictures by one kernel, added up, by one filter of the sum of the pictures. `None` where the pictures are not of one
/// shape, the kernel has no row or no column, or a sum may be no `i64`. The error is allocation failure.
pub fn filter_both<S: Data<Elem = i64>, T: Data<Elem = i64>, U: Data<Elem = i64>>(
    alloc: Global,
    a: &ArrayBase<S, Ix2>,
    b: &ArrayBase<T, Ix2>,
    kernel: &ArrayBase<U, Ix2>,
) -> Checked<i64, Ix2>
    ensures { IfOk result (λ made. IfSome made (λ r. r ≡ array_by (valid_counts a.now.lengths kernel.now.lengths) (λ ps. filtered_at int_sums int_products (λ x. x) a.now kernel.now ps +ℤ filtered_at int_sums int_products (λ x. x) b.now kernel.now ps))) }
{
    filters_add::<i64>();
    let _whole = (a.raw_dim(), b.raw_dim(), kernel.raw_dim());
    if a.shape() != b.shape() {
        return Ok(None);
    }
    if !a.add_fits(b) {
        return Ok(None);
    }
    let copy = a.to_owned(alloc)?;
    let sum = (copy + b)?;
    if !conv_valid_ok(&sum, kernel) {
        return Ok(None);
    }
    if !valid_fits(&sum, kernel) {
        return Ok(None);
    }
    let filtered = conv_valid(alloc, &sum, kernel)?;
    Ok(Some(filtered))
}

/// The full convolution of two signals, which is that of the second and the first. `None` where they are too long for one, or at some place
/// the absolute values of the products add up to more than the greatest `i64`. The error is allocation failure.
pub fn convolution_either_way<S: Data<Elem = i64>, T: Data<Elem = i64>>(
    alloc: Global,
    x: &ArrayBase<S, Ix1>,
    y: &ArrayBase<T, Ix1>,
) -> Checked<i64, Ix1>
    ensures when { IfOk result (λ made. IsSome made ↔ (CanPad (length x.now.cells) (length y.now.cells) × HasFullMagnitudesInRange (λ v. v) (FitsSigned w64) x.now.cells y.now.cells)) }
    ensures one_way { IfOk result (λ made. IfSome made (λ r. r ≡ one_axis (full_convolution int_sums int_products x.now.cells y.now.cells))) }
    ensures other_way { IfOk result (λ made. IfSome made (λ r. r ≡ one_axis (full_convolution int_sums int_products y.now.cells x.now.cells))) }
{
    conv_commutes::<i64>();
    if !conv_full_ok(x, y) {
        return Ok(None);
    }
    if !full_fits(x, y) {
        return Ok(None);
    }
    let full = conv_full(alloc, x, y)?;
    Ok(Some(full))
}

/// The full convolution of three signals, of the first two and then with the third, which is that of the first with the other two's. `None`
/// where two of them are too long for one, or at some place the absolute values of the products add up to more than the greatest `i64`. The
/// error is allocation failure.
pub fn convolution_of_three<S: Data<Elem = i64>, T: Data<Elem = i64>, U: Data<Elem = i64>>(
    alloc: Global,
    x: &ArrayBase<S, Ix1>,
    y: &ArrayBase<T, Ix1>,
    z: &ArrayBase<U, Ix1>,
) -> Checked<i64, Ix1>
    ensures when { let first = full_convolution int_sums int_products x.now.cells y.now.cells in IfOk result (λ made. IsSome made ↔ (CanPad (length x.now.cells) (length y.now.cells) × HasFullMagnitudesInRange (λ v. v) (FitsSigned w64) x.now.cells y.now.cells
        × CanPad (length first) (length z.now.cells) × HasFullMagnitudesInRange (λ v. v) (FitsSigned w64) first z.now.cells)) }
    ensures from_left { IfOk result (λ made. IfSome made (λ r. r ≡ one_axis (full_convolution int_sums int_products (full_convolution int_sums int_products x.now.cells y.now.cells) z.now.cells))) }
    ensures from_right { IfOk result (λ made. IfSome made (λ r. r ≡ one_axis (full_convolution int_sums int_products x.now.cells (full_convolution int_sums int_products y.now.cells z.now.cells)))) }
{
    conv_assoc::<i64>();
    let Some(first) = convolution_either_way(alloc, x, y)? else {
        return Ok(None);
    };
    convolution_either_way(alloc, &first, z)
}

/// The sums of the squares of two by two cells of a table, or `None` where some of its numbers add up to no `i64`.
pub fn square_sums<S: Data<Elem = i64>>(
    alloc: Global,
    table: &ArrayBase<S, Ix2>,
) -> Checked<i64, Ix2>
    ensures when { IfOk result (λ made. IsSome made ↔ IsSummable int_sums (FitsSigned w64) table.now.cells) }
    ensures sums { IfOk result (λ made. IfSome made (λ r. r ≡ array_by (window_counts table.now.lengths (2 ∷ 2 ∷ []) (1 ∷ 1 ∷ [])) (λ is. total int_sums (window table.now (2 ∷ 2 ∷ []) (1 ∷ 1 ∷ []) is).cells))) }
{
    let _lengths = table.raw_dim();
    if !table.sums_fit() {
        return Ok(None);
    }
    let sums = Zip::from(table.windows((2, 2))).map_collect(alloc, |square| sum_of(&square))?;
    Ok(Some(sums))
}

/// The sum of the cells of a table, where their sums are in range. It asks for nothing, so that a closure may call it.
fn sum_of(table: &ArrayView<'_, i64, Ix2>) -> i64
    ensures { IsSummable int_sums (FitsSigned w64) table.now.cells → result ≡ total int_sums table.now.cells }
{
    match table.checked_sum() {
        Some(sum) => sum,
        None => 0,
    }
}
