//! The means of the columns of a table, and the table minus these, behind tests of their ranges.

ghost use Rattle.std.specs.Prelude.{◌≡◌, ◌<◌, ◌-ℤ◌, ◌<ℤ◌, ◌∷◌, ℕ, ℤ, List, Some, IfOk, IfSome, IsSome, FitsSigned, int_div, pos, remove, slice_index};
ghost use Rattle.std.specs.Int.{w64};
ghost use Rattle.ndarray.specs.Grid.{array_by, cell};
ghost use Rattle.ndarray.specs.Integers.{int_sums};
ghost use Rattle.ndarray.specs.Sums.{IsSummable};
ghost use Rattle.ndarray_examples.specs.Centring.{centred_at, column_mean};

use ndarray::{Array, ArrayBase, Axis, Data, Ix1, Ix2};
use std::alloc::{AllocError, Global};

/// The mean of each column, rounded toward zero; or `None` where there is no row, or some of the numbers add up to no `i64`.
pub fn column_means<S: Data<Elem = i64>>(
    alloc: Global,
    table: &ArrayBase<S, Ix2>,
) -> Result<Option<Array<i64, Ix1>>, AllocError>
    ensures means { IfOk result (λ made. IfSome made (λ means. means ≡ array_by (remove table.now.lengths 0) (column_mean table.now))) }
    ensures some { IfOk result (λ made. 0 < slice_index table.now.lengths 0 → IsSummable int_sums (FitsSigned w64) table.now.cells → IsSome made) }
{
    let rows = table.nrows() as i64;
    if rows == 0 {
        return Ok(None);
    }
    if !table.sums_fit() {
        return Ok(None);
    }
    let _whole = table.raw_dim();
    let sums = table.sum_axis(alloc, Axis(0))?;
    Ok(Some(sums.mapv(alloc, |sum| mean(sum, rows))?))
}

/// A table minus the means of its columns; or `None` where these are `None`, or a difference is no `i64`.
pub fn centre<S: Data<Elem = i64>>(
    alloc: Global,
    table: &ArrayBase<S, Ix2>,
) -> Result<Option<Array<i64, Ix2>>, AllocError>
    ensures differences { IfOk result (λ made. IfSome made (λ centred. centred ≡ array_by table.now.lengths (centred_at table.now))) }
    ensures some { IfOk result (λ made. 0 < slice_index table.now.lengths 0 → IsSummable int_sums (FitsSigned w64) table.now.cells
        → ((i : ℕ) (js : List ℕ) (x : ℤ) → cell table.now (i ∷ js) ≡ Some x → FitsSigned w64 (x -ℤ column_mean table.now js)) → IsSome made) }
{
    let _whole = table.raw_dim();
    let Some(means) = column_means(alloc, table)? else {
        return Ok(None);
    };
    let mut centred = table.to_owned(alloc)?;
    if !centred.sub_assign_fits(&means) {
        return Ok(None);
    }
    centred -= &means;
    Ok(Some(centred))
}

/// A sum over a count.
fn mean(sum: i64, count: i64) -> i64
    requires { pos 0 <ℤ count }
    ensures { result ≡ int_div sum count }
{
    sum / count
}
