//! A table report: row sums, column sums and a grand total, and a table with its totals below it.
//!
//! The sums of a table's rows, added up, are the sum of all its cells, and so are the sums of its columns. Here that is proved:
//! `totals` returns all three, and its clause `agree` says that they agree. It rests on a law of the library, `axis_sums`, which
//! the body cites by a call that does nothing.
//!
//! Sums of `i64` may leave their range. So one test comes first, `sums_fit`, which is true exactly where every selection of the
//! cells has its sum in range. Behind it every row, every column and the whole may be added up, whatever the order, and the caller
//! gets `None` where it is false.
//!
//! ```
//! let table = ArrayView::from_shape((2, 3), &[1, 2, 3, 4, 5, 6])?;
//! totals(alloc, &table)?; // rows [6, 15], columns [5, 7, 9], all 21
//! with_totals(alloc, &table)?; // [[1, 2, 3], [4, 5, 6], [5, 7, 9]]
//! ```

ghost use Rattle.std.specs.Prelude.{◌≡◌, ◌≢◌, ◌↔◌, ◌+◌, ◌∷◌, [], drop, slice_index, Err, Some, FitsSigned, IfErr, IfOk, IfSome, IsOk, IsSome};
ghost use Rattle.std.specs.Int.{w64};
ghost use Rattle.ndarray.specs.Errors.{shape_error};
ghost use Rattle.ndarray.specs.Grid.{IsGrid, array_by};
ghost use Rattle.ndarray.specs.Integers.{int_sums};
ghost use Rattle.ndarray.specs.Joining.{concatenate_error, concatenation};
ghost use Rattle.ndarray.specs.Sums.{IsSummable, total};
ghost use Rattle.ndarray.specs.Views.{axis_inserted};
ghost use Rattle.ndarray.specs.declared.base.error.ErrorKind.{ErrorKind};
ghost use Rattle.ndarray.specs.declared.stacking.error.StackError.TheVariants.{Shape};
ghost use Rattle.uses.specs.Report.{column_total, row_total, total_below};

use ndarray::laws::axis_sums;
use ndarray::{Array, ArrayBase, ArrayView, Axis, Data, Ix1, Ix2, StackError, concatenate};
use std::alloc::{AllocError, Global};

/// The sums of a table's rows, those of its columns, and the sum of all cells; or `None` where some of its numbers add up to no
/// `i64`. The error is allocation failure.
pub fn totals<S: Data<Elem = i64>>(
    alloc: Global,
    table: &ArrayBase<S, Ix2>,
) -> Result<Option<(Array<i64, Ix1>, Array<i64, Ix1>, i64)>, AllocError>
    ensures fits { IfOk result (λ made. IsSome made ↔ IsSummable int_sums (FitsSigned w64) table.now.cells) }
    ensures rows { IfOk result (λ made. IfSome made (λ t. t.0 ≡ array_by (slice_index table.now.lengths 0 ∷ []) (row_total table.now))) }
    ensures columns { IfOk result (λ made. IfSome made (λ t. t.1 ≡ array_by (slice_index table.now.lengths 1 ∷ []) (column_total table.now))) }
    ensures all { IfOk result (λ made. IfSome made (λ t. t.2 ≡ total int_sums table.now.cells)) }
    ensures agree { IfOk result (λ made. IfSome made (λ t. (total int_sums t.0.cells ≡ t.2) × (total int_sums t.1.cells ≡ t.2))) }
    ensures error { IfErr result (λ _. IsSummable int_sums (FitsSigned w64) table.now.cells × (slice_index table.now.lengths 0 + slice_index table.now.lengths 1 ≢ 0)) }
{
    axis_sums::<i64>();
    let table = table.view();
    if !table.sums_fit() {
        return Ok(None);
    }
    let rows = table.sum_axis(alloc, Axis(1))?;
    let columns = table.sum_axis(alloc, Axis(0))?;
    let all = rows.sum();
    Ok(Some((rows, columns, all)))
}

/// A table with one more row below it, which holds the sum of each column; or `None` where some of the table's numbers add up to
/// no `i64`. The error is that of `concatenate`, of the table and a table of one row, or allocation failure.
pub fn with_totals<S: Data<Elem = i64>>(
    alloc: Global,
    table: &ArrayBase<S, Ix2>,
) -> Result<Option<Array<i64, Ix2>>, StackError>
    ensures fits { IfOk result (λ made. IsSome made ↔ IsSummable int_sums (FitsSigned w64) table.now.cells) }
    ensures errors { (k : ErrorKind) → result ≡ Err (Shape (shape_error k)) → concatenate_error 0 (table.now.lengths ∷ (1 ∷ drop 1 table.now.lengths) ∷ []) ≡ Some k }
    ensures unfit { (IsSummable int_sums (FitsSigned w64) table.now.cells → ⊥) → IsOk result }
    ensures totals { IfOk result (λ made. IfSome made (λ t. t ≡ array_by ((slice_index table.now.lengths 0 + 1) ∷ drop 1 table.now.lengths) (total_below table.now))) }
{
    let table = table.view();
    if !table.sums_fit() {
        return Ok(None);
    }
    let totals = table.sum_axis(alloc, Axis(0))?;
    let made = with_row_below(alloc, &table, &totals.view())?;
    Ok(Some(made))
}

/// A table with one more row below it. The error is that of `concatenate`, of the table and a table of that row.
fn with_row_below(
    alloc: Global,
    table: &ArrayView<'_, i64, Ix2>,
    row: &ArrayView<'_, i64, Ix1>,
) -> Result<Array<i64, Ix2>, StackError>
    ensures errors { (k : ErrorKind) → (result ≡ Err (Shape (shape_error k))) ↔ (concatenate_error 0 (table.now.lengths ∷ (1 ∷ row.now.lengths) ∷ []) ≡ Some k) }
    ensures cells { IfOk result (λ t. t ≡ concatenation 0 (table.now ∷ axis_inserted row.now 0 ∷ [])) }
    ensures whole { IfOk result IsGrid }
{
    let above = table.view();
    let below = row.view().insert_axis(Axis(0));
    concatenate(alloc, Axis(0), &[above, below])
}
