//! Functions that rest on the laws of joined arrays, running totals, ranges and orders, at `i64` behind range tests.

ghost use Rattle.std.specs.Prelude.{◌≡◌, ◌≢◌, ◌↔◌, ◌+◌, ◌<◌, ◌≤◌, ℕ, ◌+ℤ◌, ℤ, neg_ℤ, pos, FitsSigned, IfOk, IfSome, IsOk, IsSome, MatchOption, Err, [], ◌∷◌, length, max, slice_index, Some, None};
ghost use Rattle.std.specs.Int.{w64};
ghost use Rattle.std.specs.List.{fold};
ghost use Rattle.std.specs.Ordering.{int_cmp};
ghost use Rattle.ndarray.specs.Errors.{shape_error};
ghost use Rattle.ndarray.specs.Extremes.{less};
ghost use Rattle.ndarray.specs.Grid.{Grid, IsGrid, cell};
ghost use Rattle.ndarray.specs.Index.{row_order, size};
ghost use Rattle.ndarray.specs.Integers.{int_sums};
ghost use Rattle.ndarray.specs.Joining.{concatenate_error, concatenation, shapes_of, stack_error};
ghost use Rattle.ndarray.specs.OrderLaws.{IsBestAlong};
ghost use Rattle.ndarray.specs.ScanLaws.{rectangle};
ghost use Rattle.ndarray.specs.Sums.{IsSummable, total};
ghost use Rattle.ndarray.specs.Triangles.{upper_triangle};
ghost use Rattle.ndarray.specs.Views.{axis_part, transpose_of};
ghost use Rattle.ndarray.specs.declared.base.error.ErrorKind.{ErrorKind};
ghost use Rattle.ndarray.specs.declared.stacking.error.StackError.TheVariants.{Shape};

use crate::greatest;
use crate::updating::running_sums;
use ndarray::laws::{
    column_order, concat_adds, fold_orders, parts_join, ranges_pass, running_totals,
    triangles_transpose,
};
use ndarray::{
    Array, ArrayBase, ArrayView, Axis, Data, Ix1, Ix2, Lengths, StackError, concatenate, stack,
};
use std::alloc::{AllocError, Global};

/// The sum of all cells of two arrays joined along an axis, without joining them. `None` where cells of one array, or the two sums, add
/// up to no `i64`.
pub fn sum_of_joined<S: Data<Elem = i64>, T: Data<Elem = i64>, D: Lengths>(
    a: &ArrayBase<S, D>,
    b: &ArrayBase<T, D>,
    axis: Axis,
) -> Option<i64>
    ensures when { IsSome result ↔ (IsSummable int_sums (FitsSigned w64) a.now.cells × IsSummable int_sums (FitsSigned w64) b.now.cells × FitsSigned w64 (total int_sums a.now.cells +ℤ total int_sums b.now.cells)) }
    ensures sum { concatenate_error axis.0 (shapes_of (a.now ∷ b.now ∷ [])) ≡ None → IfSome result (λ s. s ≡ total int_sums (concatenation axis.0 (a.now ∷ b.now ∷ [])).cells) }
{
    concat_adds::<i64>();
    let _whole = (a.raw_dim(), b.raw_dim());
    if !a.sums_fit() {
        return None;
    }
    if !b.sums_fit() {
        return None;
    }
    a.sum().checked_add(b.sum())
}

/// The array from its two parts at an index of an axis, joined again. The error is allocation failure.
pub fn split_and_join(
    alloc: Global,
    a: ArrayView<'_, i64, Ix2>,
    axis: Axis,
    index: usize,
) -> Result<Array<i64, Ix2>, StackError>
    requires axis { axis.0 < length a.lengths }
    requires within { index ≤ slice_index a.lengths axis.0 }
    ensures shapes { (k : ErrorKind) → result ≢ Err (Shape (shape_error k)) }
    ensures same { IfOk result (λ r. r ≡ a.entry) }
    ensures empty { size a.entry.lengths ≡ 0 → IsOk result }
{
    parts_join::<i64>();
    let _whole = a.raw_dim();
    let (first, second) = a.split_at(axis, index);
    concatenate(alloc, axis, &[first, second])
}

/// The second of two vectors, out of their stack along a new axis. The error is allocation failure.
pub fn second_of_stack(
    alloc: Global,
    first: &ArrayView<'_, i64, Ix1>,
    second: &ArrayView<'_, i64, Ix1>,
    axis: Axis,
) -> Result<Array<i64, Ix1>, StackError>
    requires may_stack { stack_error axis.0 (shapes_of (first.now ∷ second.now ∷ [])) ≡ None }
    ensures same { IfOk result (λ r. r ≡ second.now) }
{
    parts_join::<i64>();
    let _whole = (first.raw_dim(), second.raw_dim());
    let both = stack(alloc, axis, &[first.view(), second.view()])?;
    Ok(both.index_axis_move(axis, 1))
}

/// The transpose of the cells of a matrix from diagonal `k` on, by cutting the transpose. The error is allocation failure.
pub fn upper_transposed<S: Data<Elem = i64>>(
    alloc: Global,
    a: &ArrayBase<S, Ix2>,
    k: i32,
) -> Result<Array<i64, Ix2>, AllocError>
    ensures { IfOk result (λ r. r ≡ transpose_of (upper_triangle k (pos 0) a.now)) }
{
    triangles_transpose::<i64>();
    let _axes = a.raw_dim();
    a.view().t().tril(alloc, -(k as isize))
}

/// A table of summed areas: at row i and column j the sum of the rectangle of all rows up to i and columns up to j. `None` where some of the
/// array's numbers, or of its running sums down the columns, add up to no `i64`. The error is allocation failure.
pub fn summed_areas<S: Data<Elem = i64>>(
    alloc: Global,
    a: &ArrayBase<S, Ix2>,
) -> Result<Option<Array<i64, Ix2>>, AllocError>
    ensures lengths { IfOk result (λ made. IfSome made (λ r. IsGrid r × (r.lengths ≡ a.now.lengths))) }
    ensures areas { IfOk result (λ made. IfSome made (λ r. (i j : ℕ) (z : ℤ) → cell r (i ∷ j ∷ []) ≡ Some z → z ≡ total int_sums (rectangle a.now 0 (i + 1) 0 (j + 1)).cells)) }
{
    running_totals::<i64>();
    let _axes = a.raw_dim();
    let mut sums = a.to_owned(alloc)?;
    if !running_sums(&mut sums, Axis(0)) {
        return Ok(None);
    }
    if !running_sums(&mut sums, Axis(1)) {
        return Ok(None);
    }
    Ok(Some(sums))
}

/// The sums of the two parts of an array at an index of an axis, behind one test of the whole array. `None` where some of its numbers
/// add up to no `i64`.
pub fn sums_of_parts<S: Data<Elem = i64>, D: Lengths>(
    a: &ArrayBase<S, D>,
    axis: Axis,
    index: usize,
) -> Option<(i64, i64)>
    requires axis { axis.0 < length a.now.lengths }
    requires within { index ≤ slice_index a.now.lengths axis.0 }
    ensures when { IsSome result ↔ IsSummable int_sums (FitsSigned w64) a.now.cells }
    ensures first { IfSome result (λ s. s.0 ≡ total int_sums (axis_part a.now axis.0 0 index).cells) }
    ensures second { IfSome result (λ s. s.1 ≡ total int_sums (axis_part a.now axis.0 index (slice_index a.now.lengths axis.0)).cells) }
{
    ranges_pass::<i64>();
    let _whole = a.raw_dim();
    if !a.sums_fit() {
        return None;
    }
    let (first, second) = a.view().split_at(axis, index);
    Some((first.sum(), second.sum()))
}

/// The greatest cell of the transpose, or 0 where there is none: that of the array.
pub fn greatest_of_transposed<S: Data<Elem = u64>, D: Lengths>(a: &ArrayBase<S, D>) -> u64
    ensures { result ≡ fold max 0 a.now.cells }
{
    fold_orders::<u64, u64>();
    let _whole = a.raw_dim();
    greatest(&a.view().reversed_axes())
}

/// The least cell, sought column by column, or `None` exactly where there is no cell: the least one row by row.
pub fn least_by_columns<S: Data<Elem = i64>, D: Lengths>(a: &ArrayBase<S, D>) -> Option<i64>
    ensures { MatchOption result (length a.now.cells ≡ 0) (IsBestAlong (less int_cmp) a.now (row_order a.now.lengths)) }
{
    column_order::<i64>();
    fold_orders::<i64, i64>();
    let _whole = a.raw_dim();
    let columns = a.view().reversed_axes();
    columns.min().copied()
}
