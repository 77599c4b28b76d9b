//! Sums and products of all cells and of the lanes along an axis, and differences and
//! running products along an axis, where they are in range.

ghost use Rattle.std.specs.Prelude.{◌≡◌, ◌↔◌, ◌<◌, ◌-ℤ◌, ℕ, ℤ, List, Some, slice_index, IsTrue, IsSome, IfSome, IfOk, IfErr, FitsSigned};
ghost use Rattle.std.specs.Int.{w64};
ghost use Rattle.ndarray.specs.Elementwise.{CanMap};
ghost use Rattle.ndarray.specs.Grid.{cell};
ghost use Rattle.ndarray.specs.Subviews.{lanes_of};
ghost use Rattle.ndarray.specs.Sums.{IsSummable, total};
ghost use Rattle.ndarray.specs.Integers.{int_products, int_sums};
ghost use Rattle.ndtables.specs.Reducing.{AreDifferences, AreRunningProducts, AreTotalsAlong, CanCumulateAlong, CanCumulateList, CanMultiplyAlong, CanSubtractAlong, CanSumAlong, ForbidsDifferences, ForbidsMaking, HasAxis, ProductsFit, SumsFit};

use crate::fault::Fault;
use crate::views::{Made, View};
use ndarray::{ArrayView, Axis, Ix1, Lengths, Zip};
use std::alloc::Global;

/// The sum of all cells, or `None` where some selection of them has a sum that does not fit `i64`.
pub fn sum_in_range<D: Lengths>(table: &ArrayView<'_, i64, D>) -> Option<i64>
    ensures fits { IsSome result ↔ SumsFit table.now.cells }
    ensures value { IfSome result (λ sum. sum ≡ total int_sums table.now.cells) }
{
    if table.sums_fit() {
        Some(table.sum())
    } else {
        None
    }
}

/// The product of all cells, or `None` where the absolute values of those that are not zero multiply
/// to more than the greatest `i64`.
pub fn product_in_range<D: Lengths>(table: &ArrayView<'_, i64, D>) -> Option<i64>
    ensures fits { IsSome result ↔ ProductsFit table.now.cells }
    ensures value { IfSome result (λ product. product ≡ total int_products table.now.cells) }
{
    if table.products_fit() {
        Some(table.product())
    } else {
        None
    }
}

/// The array of the sums of the lanes along an axis.
///
/// The fault is `shape` where there is no such axis, else `range` where some selection of a lane's
/// cells has a sum that does not fit `i64`, else `memory`.
pub fn sums_along(alloc: Global, table: &View<'_>, axis: Axis) -> Made
    ensures sums { IfOk result (AreTotalsAlong int_sums SumsFit table.now axis.0) }
    ensures err { IfErr result (ForbidsMaking (HasAxis table.now axis.0) (CanSumAlong table.now axis.0)) }
{
    if !table.axis_ok(axis) {
        return Err(Fault::Shape);
    }
    if !lane_sums_fit(table, axis) {
        return Err(Fault::Range);
    }
    Ok(table.sum_axis(alloc, axis)?)
}

/// Whether on each lane along an axis every selection of the cells has a sum that fits `i64`.
fn lane_sums_fit(table: &View<'_>, axis: Axis) -> bool
    requires axis { HasAxis table.now axis.0 }
    ensures { IsTrue result ↔ CanSumAlong table.now axis.0 }
{
    // All cells in one walk of memory, and only where they may not be added lane after lane. This ends at once where there are no cells, however
    // many lanes there are.
    if table.view().sums_fit() {
        return true;
    }
    Zip::from(table.lanes(axis)).all(|lane| lane.sums_fit())
}

/// The array of the products of the lanes along an axis.
///
/// The fault is `shape` where there is no such axis, else `range` where the absolute values of a
/// lane's cells that are not zero multiply to more than the greatest `i64`, else `memory`.
pub fn products_along(alloc: Global, table: &View<'_>, axis: Axis) -> Made
    ensures products { IfOk result (AreTotalsAlong int_products ProductsFit table.now axis.0) }
    ensures err { IfErr result (ForbidsMaking (HasAxis table.now axis.0) (CanMultiplyAlong table.now axis.0)) }
{
    if !table.axis_ok(axis) {
        return Err(Fault::Shape);
    }
    if !lane_products_fit(table, axis) {
        return Err(Fault::Range);
    }
    Ok(table.product_axis(alloc, axis)?)
}

/// Whether on each lane along an axis the absolute values of the cells that are not zero multiply to
/// at most the greatest `i64`.
fn lane_products_fit(table: &View<'_>, axis: Axis) -> bool
    requires axis { HasAxis table.now axis.0 }
    ensures magnitudes { IsTrue result ↔ CanMultiplyAlong table.now axis.0 }
    ensures selections { IsTrue result → CanMap (λ lane. IsSummable int_products (FitsSigned w64) lane.cells) (lanes_of table.now axis.0) }
{
    // All cells in one walk of memory, as in `lane_sums_fit`.
    if table.view().products_fit() {
        return true;
    }
    Zip::from(table.lanes(axis)).all(|lane| lane.products_fit())
}

/// The difference of order `n` along an axis.
///
/// The fault is `shape` where there is no such axis or it is too short, `range` where a difference on
/// the way is no `i64`, and `memory` where an allocation fails before that.
pub fn differences(alloc: Global, table: &View<'_>, n: usize, axis: Axis) -> Made
    ensures differences { IfOk result (AreDifferences table.now n axis.0) }
    ensures err { IfErr result (ForbidsDifferences table.now n axis.0) }
{
    if !table.diff_ok(n, axis) {
        return Err(Fault::Shape);
    }
    if table.len() == 0 {
        // Nothing is subtracted, whatever the order.
        return Ok(table.diff(alloc, n, axis)?);
    }
    let mut cells = table.to_owned(alloc)?;
    for _ in 0..n {
        if !neighbours_subtract(&cells.view(), axis) {
            return Err(Fault::Range);
        }
        cells = cells.diff(alloc, 1, axis)?;
    }
    Ok(cells)
}

/// Whether each cell that is one further along an axis, minus the cell, is an `i64`.
fn neighbours_subtract(table: &View<'_>, axis: Axis) -> bool
    requires axis { HasAxis table.now axis.0 }
    requires some { 0 < slice_index table.now.lengths axis.0 }
    ensures { IsTrue result ↔ CanSubtractAlong table.now axis.0 }
{
    let len = table.len_of(axis);
    let (_first, later) = table.view().split_at(axis, 1);
    let (earlier, _last) = table.view().split_at(axis, len - 1);
    differences_fit(&later, &earlier)
}

/// Whether the cell minus the other array's is an `i64` at each index list. Requires equal lengths.
fn differences_fit(left: &View<'_>, right: &View<'_>) -> bool
    requires same { left.now.lengths ≡ right.now.lengths }
    ensures { IsTrue result ↔ ((is : List ℕ) (x y : ℤ) → cell left.now is ≡ Some x → cell right.now is ≡ Some y → FitsSigned w64 (x -ℤ y)) }
{
    let _whole = (left.raw_dim(), right.raw_dim());
    left.sub_fits(right)
}

/// The running products along an axis.
///
/// The fault is `shape` where there is no such axis, else `range` where a product on the way is no
/// `i64`, else `memory`.
pub fn running_products(alloc: Global, table: &View<'_>, axis: Axis) -> Made
    ensures products { IfOk result (AreRunningProducts table.now axis.0) }
    ensures err { IfErr result (ForbidsMaking (HasAxis table.now axis.0) (CanCumulateAlong table.now axis.0)) }
{
    if !table.axis_ok(axis) {
        return Err(Fault::Shape);
    }
    if !running_products_fit(table, axis) {
        return Err(Fault::Range);
    }
    Ok(table.cumprod(alloc, axis)?)
}

/// Whether on each lane along an axis the running products are `i64`s.
fn running_products_fit(table: &View<'_>, axis: Axis) -> bool
    requires axis { HasAxis table.now axis.0 }
    ensures { IsTrue result ↔ CanCumulateAlong table.now axis.0 }
{
    // Without cells there may be more lanes than could be walked.
    if table.len() == 0 {
        return true;
    }
    Zip::from(table.lanes(axis)).all(|lane| lane_cumulates(&lane))
}

/// Whether the running products of a lane are `i64`s.
fn lane_cumulates(lane: &ArrayView<'_, i64, Ix1>) -> bool
    ensures { IsTrue result ↔ CanCumulateList lane.now.cells }
{
    let mut cells = lane.iter();
    let Some(first) = cells.next() else {
        return true;
    };
    let mut product = *first;
    for cell in cells {
        let Some(next) = cell.checked_mul(product) else {
            return false;
        };
        product = next;
    }
    true
}
