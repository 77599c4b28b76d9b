//! Sums of the windows of a table, each by four cells of a table of summed areas.
//!
//! A window of nine by nine cells has 81 of them, and the next window has most of these again. So the sums of all rows and columns up to
//! each cell come first, the summed areas: a running sum down the columns, and one along the rows of that. Then the sum of any window
//! is that of all rows up to its last, less that of all rows above it, both up to its last column, and less the same up to the column in
//! front of it: four cells, however large the window is.
//!
//! The running sums are two calls of `scan_lanes`. What they come to is a law of the library, `running_totals`, which the body cites by a
//! call that does nothing; and so is that four of them make a rectangle, and that one range test, `sums_fit`, is enough for both scans and
//! all differences. The contract speaks of none of this: each sum is that of the window's cells.
//!
//! ```
//! let table = ArrayView::from_shape((3, 3), &[1, 2, 3, 4, 5, 6, 7, 8, 9])?;
//! box_sums(alloc, &table, 2, 2)?; // [[12, 16], [24, 28]]
//! ```

ghost use Rattle.std.specs.Prelude.{◌≡◌, ◌↔◌, ◌<◌, ◌-ℤ◌, length, FitsSigned, IfErr, IfOk, IfSome, IsSome};
ghost use Rattle.std.specs.Int.{w64};
ghost use Rattle.ndarray.specs.AlongAxis.{IsSummableArray};
ghost use Rattle.ndarray.specs.Elementwise.{CanMap};
ghost use Rattle.ndarray.specs.Integers.{int_sums};
ghost use Rattle.ndarray.specs.ScanLaws.{HasRunningTotals};
ghost use Rattle.ndarray.specs.Subviews.{lanes_of};
ghost use Rattle.ndarray.specs.Sums.{IsSummable};
ghost use Rattle.uses.specs.BoxSums.{AreSummedAreas, CanSumBoxes, area, band, box_sums};

use ndarray::laws::{ranges_pass, running_totals};
use ndarray::{Array, ArrayBase, Axis, Data, Ix2, NdProducer};
use std::alloc::{AllocError, Global};

/// Of each window of so many rows and columns the sum of its cells; or `None` where a window has no rows or no columns, or some of the
/// table's numbers add up to no `i64`. The error is allocation failure.
pub fn box_sums<S: Data<Elem = i64>>(
    alloc: Global,
    table: &ArrayBase<S, Ix2>,
    rows: usize,
    columns: usize,
) -> Result<Option<Array<i64, Ix2>>, AllocError>
    ensures when { IfOk result (λ made. IsSome made ↔ CanSumBoxes rows columns table.now) }
    ensures sums { IfOk result (λ made. IfSome made (λ r. r ≡ box_sums rows columns table.now)) }
    ensures error { IfErr result (λ _. CanSumBoxes rows columns table.now) }
{
    running_totals::<i64>();
    let _whole = table.raw_dim();
    if !table.windows_ok(&Ix2(rows, columns), &Ix2(1, 1)) {
        return Ok(None);
    }
    if !table.sums_fit() {
        return Ok(None);
    }
    let areas = summed_areas(alloc, table)?;
    let positions = NdProducer::raw_dim(&table.windows((rows, columns)));
    let sums = Array::from_shape_fn(alloc, positions, |(row, column)| {
        box_sum(&areas, row, column, row + rows, column + columns)
    })?;
    Ok(Some(sums))
}

/// The sum of the rows from `top` up to `bottom`, and of these the columns from `left` up to `right`, by the summed areas of a table.
fn box_sum(areas: &Array<i64, Ix2>, top: usize, left: usize, bottom: usize, right: usize) -> i64
    requires upto_right { FitsSigned w64 (band areas.now top bottom right) }
    requires upto_left { FitsSigned w64 (band areas.now top bottom left) }
    requires both { FitsSigned w64 (band areas.now top bottom right -ℤ band areas.now top bottom left) }
    ensures { result ≡ band areas.now top bottom right -ℤ band areas.now top bottom left }
{
    let up_to_right = area(areas, bottom, right) - area(areas, top, right);
    let up_to_left = area(areas, bottom, left) - area(areas, top, left);
    up_to_right - up_to_left
}

/// The sum of so many first rows, and of these so many first columns, by the summed areas of a table.
fn area(areas: &Array<i64, Ix2>, rows: usize, columns: usize) -> i64
    ensures { result ≡ area areas.now rows columns }
{
    if rows == 0 {
        return 0;
    }
    if columns == 0 {
        return 0;
    }
    match areas.get((rows - 1, columns - 1)) {
        Some(area) => *area,
        None => 0,
    }
}

/// The summed areas of a table, no selection of whose cells has a sum out of range.
fn summed_areas<S: Data<Elem = i64>>(
    alloc: Global,
    table: &ArrayBase<S, Ix2>,
) -> Result<Array<i64, Ix2>, AllocError>
    requires { IsSummable int_sums (FitsSigned w64) table.now.cells }
    ensures { IfOk result (AreSummedAreas table.now) }
{
    running_totals::<i64>();
    ranges_pass::<i64>();
    let _whole = table.raw_dim();
    let mut areas = table.to_owned(alloc)?;
    add_up(&mut areas, Axis(0));
    add_up(&mut areas, Axis(1));
    Ok(areas)
}

/// Replaces each cell of a table by the sum of the cells of its lane along an axis up to it.
fn add_up(table: &mut Array<i64, Ix2>, axis: Axis)
    requires axis { axis.0 < length table.old.lengths }
    requires fits { CanMap (IsSummableArray int_sums (FitsSigned w64) (λ x. x)) (lanes_of table.old axis.0) }
    ensures { HasRunningTotals int_sums (λ x. x) axis.0 table.old table.new }
{
    let _whole = table.raw_dim();
    table.scan_lanes(axis, 0, |sum, x| (sum + x, sum + x));
}
