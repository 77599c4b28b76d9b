//! Functions that update the cells of arrays in place, each with what it computes as its contract.

ghost use Rattle.std.specs.Prelude.{◌≡◌, ◌↔◌, ◌<◌, false, length, FitsSigned, IsTrue};
ghost use Rattle.std.specs.Int.{w64};
ghost use Rattle.ndarray.specs.Grid.{array_by};
ghost use Rattle.ndarray.specs.Integers.{int_sums};
ghost use Rattle.ndarray.specs.Sums.{IsSummable};
ghost use Rattle.ndarray_examples.specs.Updating.{greatest_up_to, index_added, inside_border, recurrence_at, sum_up_to};

use ndarray::{ArrayBase, Axis, DataMut, Dimension, Ix2, Lengths};

/// Adds to each cell of a table ten times its row and its column, wrapping.
pub fn add_index<S: DataMut<Elem = u64>>(table: &mut ArrayBase<S, Ix2>)
    ensures { table.new ≡ array_by table.old.lengths (index_added table.old) }
{
    table.update(|(i, j), x| {
        x.wrapping_add((i as u64).wrapping_mul(10))
            .wrapping_add(j as u64)
    });
}

/// Clears the first and last row and column of a table.
pub fn clear_border<S: DataMut<Elem = u64>>(table: &mut ArrayBase<S, Ix2>)
    ensures { table.new ≡ array_by table.old.lengths (inside_border table.old) }
{
    let (rows, columns) = table.raw_dim().into_pattern();
    let (bottom, right) = (rows.saturating_sub(1), columns.saturating_sub(1));
    table.update(|(i, j), x| {
        if i == 0 || i == bottom || j == 0 || j == right {
            0
        } else {
            x
        }
    });
}

/// Replaces each cell by the sum of the cells of its lane along an axis up to it; or returns `false`, where there is no such
/// axis or some of the array's numbers add up to no `i64`, and leaves the array as it is.
pub fn running_sums<S: DataMut<Elem = i64>, D: Lengths>(
    array: &mut ArrayBase<S, D>,
    axis: Axis,
) -> bool
    ensures when { IsTrue result ↔ ((axis.0 < length array.old.lengths) × IsSummable int_sums (FitsSigned w64) array.old.cells) }
    ensures unchanged { result ≡ false → array.new ≡ array.old }
    ensures sums { IsTrue result → array.new ≡ array_by array.old.lengths (sum_up_to array.old axis.0) }
{
    let _whole = array.raw_dim();
    if !array.axis_ok(axis) || !array.sums_fit() {
        return false;
    }
    array.scan_lanes(axis, 0, |sum, x| (sum + x, sum + x));
    true
}

/// Replaces each cell by the greatest of the cells of its lane along an axis up to it; or returns `false`, where there is no
/// such axis, and leaves the array as it is.
pub fn running_maxima<S: DataMut<Elem = u64>, D: Lengths>(
    array: &mut ArrayBase<S, D>,
    axis: Axis,
) -> bool
    ensures when { IsTrue result ↔ (axis.0 < length array.old.lengths) }
    ensures unchanged { result ≡ false → array.new ≡ array.old }
    ensures maxima { IsTrue result → array.new ≡ array_by array.old.lengths (greatest_up_to array.old axis.0) }
{
    let _whole = array.raw_dim();
    if !array.axis_ok(axis) {
        return false;
    }
    array.scan_lanes(axis, 0, |most: u64, x| (most.max(x), most.max(x)));
    true
}

/// Adds to each cell a factor times the new cell before it in its lane along an axis, wrapping; or returns `false`, where
/// there is no such axis, and leaves the array as it is.
pub fn recur_along<S: DataMut<Elem = u64>, D: Lengths>(
    array: &mut ArrayBase<S, D>,
    axis: Axis,
    factor: u64,
) -> bool
    ensures when { IsTrue result ↔ (axis.0 < length array.old.lengths) }
    ensures unchanged { result ≡ false → array.new ≡ array.old }
    ensures recurrence { IsTrue result → array.new ≡ array_by array.old.lengths (recurrence_at factor array.old axis.0) }
{
    let _whole = array.raw_dim();
    if !array.axis_ok(axis) {
        return false;
    }
    array.scan_lanes(axis, 0, |before: u64, x| {
        let next = before.wrapping_mul(factor).wrapping_add(x);
        (next, next)
    });
    true
}
