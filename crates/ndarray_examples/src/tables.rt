//! Functions of the rows, the columns and the ends of a table, and of cells in brackets. Of `clear_row`, `clear_column` and `has_zero`, and of
//! what `are_within` answers where the limits broadcast, nothing is said but that they end and read nothing outside the array.

ghost use Rattle.std.specs.Prelude.{◌≡◌, ◌↔◌, ◌<◌, ◌≤◌, ◌+◌, ◌-◌, ◌*◌, ◌^◌, ◌∷◌, [], ℕ, Some, FitsSigned, IfOk, IfSome, IsSome, IsTrue, MatchOption, drop, length, map, slice_get, slice_index, take};
ghost use Rattle.std.specs.Int.{w64};
ghost use Rattle.ndarray.specs.Broadcast.{BroadcastTogether, BroadcastsTo, broadcast_lengths};
ghost use Rattle.ndarray.specs.Grid.{cell};
ghost use Rattle.ndarray.specs.Index.{InBox, size};
ghost use Rattle.ndarray.specs.Integers.{int_sums};
ghost use Rattle.ndarray.specs.Joining.{stack_of};
ghost use Rattle.ndarray.specs.Subviews.{axis_items};
ghost use Rattle.ndarray.specs.Sums.{IsSummable, total};
ghost use Rattle.ndarray.specs.Views.{axis_item};
ghost use Rattle.ndarray.specs.Writes.{with_cell};
ghost use Rattle.ndarray_examples.specs.Callers.{AreSumsInRange, sum_of};

use crate::range_tests::Checked;
use ndarray::{
    ArrayBase, ArrayView1, Axis, Data, DataMut, DimMax, FoldWhile, Ix2, Lengths, StackError, Zip,
    stack,
};
use std::alloc::{AllocError, Global};

/// The sum of a row of a table, or `None` where there is no such row, or some of its numbers add up to no `i64`.
pub fn sum_of_row<S: Data<Elem = i64>>(table: &ArrayBase<S, Ix2>, row: usize) -> Option<i64>
    ensures when { IsSome result ↔ ((row < slice_index table.now.lengths 0) × IsSummable int_sums (FitsSigned w64) (axis_item table.now 0 row).cells) }
    ensures sum { IfSome result (λ s. s ≡ total int_sums (axis_item table.now 0 row).cells) }
{
    if row >= table.nrows() {
        return None;
    }
    table.row(row).checked_sum()
}

/// The sum of a column of a table, or `None` where there is no such column, or some of its numbers add up to no `i64`.
pub fn sum_of_column<S: Data<Elem = i64>>(table: &ArrayBase<S, Ix2>, column: usize) -> Option<i64>
    ensures when { IsSome result ↔ ((column < slice_index table.now.lengths 1) × IsSummable int_sums (FitsSigned w64) (axis_item table.now 1 column).cells) }
    ensures sum { IfSome result (λ s. s ≡ total int_sums (axis_item table.now 1 column).cells) }
{
    if column >= table.ncols() {
        return None;
    }
    table.column(column).checked_sum()
}

/// The numbers of a row of a table in a vector: those from the first of the row on, as many as there are columns.
///
/// Requires that there is such a row. The error is allocation failure.
pub fn list_row<S: Data<Elem = i64>>(
    alloc: Global,
    table: &ArrayBase<S, Ix2>,
    row: usize,
) -> Result<Vec<i64>, AllocError>
    requires { row < slice_index table.now.lengths 0 }
    ensures { let columns = slice_index table.now.lengths 1 in IfOk result (λ numbers. numbers.items ≡ take columns (drop (row * columns) table.now.cells)) }
{
    let _whole = table.raw_dim();
    numbers_of(alloc, &table.row(row))
}

/// The numbers of a view in a vector.
fn numbers_of(alloc: Global, view: &ArrayView1<'_, i64>) -> Result<Vec<i64>, AllocError>
    ensures { IfOk result (λ numbers. numbers.items ≡ view.now.cells) }
{
    view.iter().copied().collect(alloc)
}

/// The sums of the rows of a table in a vector, or `None` where some of its numbers add up to no `i64`.
pub fn list_row_sums<S: Data<Elem = i64>>(
    alloc: Global,
    table: &ArrayBase<S, Ix2>,
) -> Result<Option<Vec<i64>>, AllocError>
    ensures when { IfOk result (λ made. IsSome made ↔ AreSumsInRange table.now) }
    ensures sums { IfOk result (λ made. IfSome made (λ sums. sums.items ≡ map sum_of (axis_items table.now 0))) }
{
    let _lengths = table.raw_dim();
    if !table.sums_fit() {
        return Ok(None);
    }
    let mut sums = Vec::new(alloc);
    for row in table.outer_iter() {
        sums.push(row.sum())?;
    }
    Ok(Some(sums))
}

/// Two rows of a table, one above the other, or `None` where there is no such row.
///
/// Requires that the table has two rows or more. The error is allocation failure.
pub fn stack_rows<S: Data<Elem = i64>>(
    alloc: Global,
    table: &ArrayBase<S, Ix2>,
    first: usize,
    second: usize,
) -> Checked<i64, Ix2>
    requires { 2 ≤ slice_index table.now.lengths 0 }
    ensures when { IfOk result (λ made. IsSome made ↔ ((first < slice_index table.now.lengths 0) × (second < slice_index table.now.lengths 0))) }
    ensures rows { IfOk result (λ made. IfSome made (λ r. r ≡ stack_of 0 (axis_item table.now 0 first ∷ axis_item table.now 0 second ∷ []))) }
{
    let _lengths = table.raw_dim();
    if first >= table.nrows() {
        return Ok(None);
    }
    if second >= table.nrows() {
        return Ok(None);
    }
    match stack(alloc, Axis(0), &[table.row(first), table.row(second)]) {
        Ok(rows) => Ok(Some(rows)),
        Err(StackError::Memory(error)) => Err(error),
        Err(StackError::Shape(_)) => unreachable!(),
    }
}

/// Clears a row of a table, if there is one of that index.
pub fn clear_row<S: DataMut<Elem = i64>>(table: &mut ArrayBase<S, Ix2>, row: usize) {
    if row < table.nrows() {
        table.row_mut(row).fill(0);
    }
}

/// Clears a column of a table, if there is one of that index.
pub fn clear_column<S: DataMut<Elem = i64>>(table: &mut ArrayBase<S, Ix2>, column: usize) {
    if column < table.ncols() {
        table.column_mut(column).fill(0);
    }
}

/// Whether a table has as many rows as columns.
pub fn is_square<S: Data>(table: &ArrayBase<S, Ix2>) -> bool
    ensures { IsTrue result ↔ (slice_index table.now.lengths 0 ≡ slice_index table.now.lengths 1) }
{
    let (rows, columns) = table.dim();
    rows == columns
}

/// The first and the last cell, or `None` where there is none.
pub fn ends<S: Data<Elem = u64>, D: Lengths>(array: &ArrayBase<S, D>) -> Option<(u64, u64)>
    ensures when { IsSome result ↔ (0 < length array.now.cells) }
    ensures first { IfSome result (λ e. slice_get array.now.cells 0 ≡ Some e.0) }
    ensures last { IfSome result (λ e. slice_get array.now.cells (length array.now.cells - 1) ≡ Some e.1) }
{
    let first = array.first()?;
    let last = array.last()?;
    Some((*first, *last))
}

/// Whether each cell is at most its limit. The limits are broadcast, as one for each column; `None` where they do not broadcast.
pub fn are_within<S: Data<Elem = u64>, T: Data<Elem = u64>, D: Lengths, E: Lengths>(
    array: &ArrayBase<S, D>,
    limits: &ArrayBase<T, E>,
) -> Option<bool>
    ensures { IsSome result ↔ BroadcastsTo limits.now.lengths array.now.lengths }
{
    let cells = Zip::from(array);
    if !cells.broadcasts(&limits.view()) {
        return None;
    }
    Some(cells.and_broadcast(limits).all(|x, limit| x <= limit))
}

/// How many cells the sum of two arrays has, or `None` where they do not broadcast together.
pub fn size_of_sum<S: Data, T: Data, D: DimMax<E>, E: Lengths>(
    left: &ArrayBase<S, D>,
    right: &ArrayBase<T, E>,
) -> Option<usize>
    ensures { MatchOption result (BroadcastTogether left.now.lengths right.now.lengths → ⊥) (λ n. n ≡ size (broadcast_lengths left.now.lengths right.now.lengths)) }
{
    let dim = left.broadcast_dim(right)?;
    Some(dim.size())
}

/// Whether a cell is zero, looked for up to the first one.
pub fn has_zero<S: Data<Elem = u64>, D: Lengths>(array: &ArrayBase<S, D>) -> bool {
    let found = Zip::from(array).fold_while((), |_none, x| {
        if *x == 0 {
            FoldWhile::Done(())
        } else {
            FoldWhile::Continue(())
        }
    });
    found.is_done()
}

/// The cell of a table at a place. Requires that there is one.
pub fn cell_at<S: Data<Elem = u64>>(table: &ArrayBase<S, Ix2>, row: usize, column: usize) -> u64
    requires { InBox table.now.lengths (row ∷ column ∷ []) }
    ensures { cell table.now (row ∷ column ∷ []) ≡ Some result }
{
    table[[row, column]]
}

/// Adds one to the cell of a table at a place. Requires that there is one, and that the sum is a `u64`.
pub fn count_at<S: DataMut<Elem = u64>>(table: &mut ArrayBase<S, Ix2>, row: usize, column: usize)
    requires within { InBox table.old.lengths (row ∷ column ∷ []) }
    requires room { (x : ℕ) → cell table.old (row ∷ column ∷ []) ≡ Some x → x + 1 < 2 ^ 64 }
    ensures { (x : ℕ) → cell table.old (row ∷ column ∷ []) ≡ Some x → table.new ≡ with_cell table.old (row ∷ column ∷ []) (x + 1) }
{
    table[[row, column]] += 1;
}
