//! Functions that a user would write with arrays that grow, each with what it leaves as its contract. None takes a proof.

ghost use Rattle.std.specs.Prelude.{◌≡◌, ◌+◌, ◌++◌, ◌∷◌, [], slice_index, slice_set, IfErr, IfOk};
ghost use Rattle.ndarray.specs.Grid.{grid};
ghost use Rattle.ndarray.specs.Joining.{concatenation};
ghost use Rattle.ndarray.specs.Views.{axis_inserted};

use ndarray::{Array, ArrayView, ArrayView1, Axis, Ix1, Ix2, Ix3, StackError};

/// Puts a row of measurements below a table. An error leaves the table as it was.
pub fn record(table: &mut Array<i64, Ix2>, row: ArrayView1<'_, i64>) -> Result<(), StackError>
    ensures grown { IfOk result (λ _. table.new ≡ grid (slice_set table.old.lengths 0 (slice_index table.old.lengths 0 + 1)) (table.old.cells ++ row.entry.cells)) }
    ensures kept { IfErr result (λ _. table.new ≡ table.old) }
{
    table.push_row(row)
}

/// Puts a picture behind those of a film.
pub fn add_frame(film: &mut Array<u8, Ix3>, frame: ArrayView<'_, u8, Ix2>) -> Result<(), StackError>
    ensures grown { IfOk result (λ _. film.new.cells ≡ film.old.cells ++ frame.entry.cells) }
    ensures kept { IfErr result (λ _. film.new ≡ film.old) }
{
    film.push(Axis(0), frame)
}

/// Puts a column of measurements to the right of a table.
pub fn record_column(
    table: &mut Array<i64, Ix2>,
    column: ArrayView1<'_, i64>,
) -> Result<(), StackError>
    ensures grown { IfOk result (λ _. table.new ≡ concatenation 1 (table.old ∷ axis_inserted column.entry 1 ∷ [])) }
    ensures kept { IfErr result (λ _. table.new ≡ table.old) }
{
    table.push_column(column)
}

/// Puts the numbers of a vector behind those of a signal.
pub fn extend(signal: &mut Array<i64, Ix1>, more: ArrayView1<'_, i64>) -> Result<(), StackError>
    ensures grown { IfOk result (λ _. signal.new.cells ≡ signal.old.cells ++ more.entry.cells) }
    ensures kept { IfErr result (λ _. signal.new ≡ signal.old) }
{
    signal.append(Axis(0), more)
}
