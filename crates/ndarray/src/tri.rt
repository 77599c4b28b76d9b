//! Triangles of the last two axes.

ghost use Rattle.std.specs.Prelude.{◌≡◌, ℕ, pos, neg_ℤ, FitsSigned, ◌+ℤ◌, ◌+◌, ◌-◌, ◌<◌, ◌≤◌, ◌^◌, ◌&&◌, if◌then◌else◌, int_le, length, slice_index, filter_map, replicate, true, false, All, IfOk, IsOk, Some};
ghost use Rattle.std.specs.Int.{w64};
ghost use Rattle.ndarray.specs.Elementwise.{ClonesAreEqual};
ghost use Rattle.ndarray.specs.Grid.{IsGrid, cell};
ghost use Rattle.ndarray.specs.Index.{InBox, size};
ghost use Rattle.ndarray.specs.Limits.{IsWithinLimit};
ghost use Rattle.ndarray.specs.Triangles.{column_minus_row, diagonals_kept, lower_triangle, upper_triangle};
ghost use Rattle.ndarray.specs.base.Builder.{pushed_all};
ghost use Rattle.ndarray.specs.base.Ranks.{row_at, row_from};

use crate::base::array::{Array, ArrayBase, ArrayView};
use crate::base::builder::ArrayBuilder;
use crate::base::dimension::Lengths;
use crate::base::storage::Data;
use crate::order::rows::one_if_some;
use crate::order::{Order, Walk};
use num_traits::Zero;
use std::alloc::{AllocError, Global};

impl<A: Clone + Zero, S: Data<Elem = A>, D: Lengths> ArrayBase<S, D> {
    /// The upper triangle of the last two axes: an array of the same lengths, with clones of the cells whose column minus row is at least
    /// `k`, and zero elsewhere. With fewer than two axes all cells are kept.
    ///
    /// Requires that each clone equals its source. The error is an allocation failure, for the array or for a clone, and is never reported
    /// if there are no cells.
    ///
    /// ```
    /// let view = ArrayView::from_shape((2, 3), &[1, 2, 3, 4, 5, 6])?;
    /// view.triu(alloc, 0)?; // [[1, 2, 3], [0, 5, 6]]
    /// view.triu(alloc, 1)?; // [[0, 2, 3], [0, 0, 6]]
    /// ```
    pub fn triu(&self, alloc: Global, k: isize) -> Result<Array<A, D>, AllocError>
        requires clones { ClonesAreEqual A.is_clone }
        ensures cells { IfOk result (λ r. r ≡ upper_triangle k A.zero self.now) }
        ensures lengths { IfOk result (λ r. r.lengths ≡ self.now.lengths) }
        ensures whole { IfOk result IsGrid }
        ensures axes { IfOk result (λ r. D.has_axes (length r.lengths)) }
        ensures empty { size self.now.lengths ≡ 0 → IsOk result }
    {
        diagonals(alloc, &self.view(), k, isize::MAX)
    }

    /// The lower triangle of the last two axes: an array of the same lengths, with clones of the cells whose column minus row is at most
    /// `k`, and zero elsewhere. With fewer than two axes all cells are kept.
    ///
    /// Requires that each clone equals its source. The error is an allocation failure, for the array or for a clone, and is never reported
    /// if there are no cells.
    ///
    /// ```
    /// let view = ArrayView::from_shape((2, 3), &[1, 2, 3, 4, 5, 6])?;
    /// view.tril(alloc, 0)?; // [[1, 0, 0], [4, 5, 0]]
    /// view.tril(alloc, -1)?; // [[0, 0, 0], [4, 0, 0]]
    /// ```
    pub fn tril(&self, alloc: Global, k: isize) -> Result<Array<A, D>, AllocError>
        requires clones { ClonesAreEqual A.is_clone }
        ensures cells { IfOk result (λ r. r ≡ lower_triangle k A.zero self.now) }
        ensures lengths { IfOk result (λ r. r.lengths ≡ self.now.lengths) }
        ensures whole { IfOk result IsGrid }
        ensures axes { IfOk result (λ r. D.has_axes (length r.lengths)) }
        ensures empty { size self.now.lengths ≡ 0 → IsOk result }
    {
        diagonals(alloc, &self.view(), -isize::MAX, k)
    }
}

/// The cells whose column minus row lies between two numbers, and zero elsewhere. An array that is read faster in column order is computed
/// with its last two axes exchanged.
fn diagonals<A: Clone + Zero, D: Lengths>(
    alloc: Global,
    array: &ArrayView<'_, A, D>,
    first: isize,
    last: isize,
) -> Result<Array<A, D>, AllocError>
    requires clones { ClonesAreEqual A.is_clone }
    ensures cells { IfOk result (λ r. r ≡ diagonals_kept (λ d. int_le first d && int_le d last) A.zero array.now) }
    ensures limit { IsWithinLimit array.now.lengths }
    ensures given { IsGrid array.now }
    ensures whole { IfOk result IsGrid }
    ensures axes { IfOk result (λ r. D.has_axes (length r.lengths)) }
    ensures empty { size array.now.lengths ≡ 0 → IsOk result }
{
    if array.raw_dim().ndim() < 2 {
        return array.to_owned(alloc);
    }
    match array.fast_order() {
        // The least number has no opposite.
        Order::ColumnMajor if isize::MIN < first && isize::MIN < last => {
            diagonals_by_columns(alloc, array, first, last)
        }
        _ => diagonals_by_rows(alloc, array, first, last),
    }
}

/// The same for an array with at least two axes, computed with its last two exchanged and then exchanged back.
fn diagonals_by_columns<A: Clone + Zero, D: Lengths>(
    alloc: Global,
    array: &ArrayView<'_, A, D>,
    first: isize,
    last: isize,
) -> Result<Array<A, D>, AllocError>
    requires clones { ClonesAreEqual A.is_clone }
    requires axes { 2 ≤ length array.now.lengths }
    requires first { FitsSigned w64 (neg_ℤ first) }
    requires last { FitsSigned w64 (neg_ℤ last) }
    ensures cells { IfOk result (λ r. r ≡ diagonals_kept (λ d. int_le first d && int_le d last) A.zero array.now) }
    ensures whole { IfOk result IsGrid }
    ensures axes { IfOk result (λ r. D.has_axes (length r.lengths)) }
    ensures empty { size array.now.lengths ≡ 0 → IsOk result }
{
    let axis = array.raw_dim().ndim() - 1;
    let mut columns = array.again();
    columns.swap_axes(axis - 1, axis);
    let mut kept = diagonals_by_rows(alloc, &columns, opposite(last), opposite(first))?;
    kept.swap_axes(axis - 1, axis);
    Ok(kept)
}

/// The number on the other side of zero.
fn opposite(bound: isize) -> isize
    requires { FitsSigned w64 (neg_ℤ bound) }
    ensures { result ≡ neg_ℤ bound }
{
    -bound
}

/// The same for an array with at least two axes, row by row.
fn diagonals_by_rows<A: Clone + Zero, D: Lengths>(
    alloc: Global,
    array: &ArrayView<'_, A, D>,
    first: isize,
    last: isize,
) -> Result<Array<A, D>, AllocError>
    requires clones { ClonesAreEqual A.is_clone }
    requires axes { 2 ≤ length array.now.lengths }
    ensures cells { IfOk result (λ r. r ≡ diagonals_kept (λ d. int_le first d && int_le d last) A.zero array.now) }
    ensures lengths { IfOk result (λ r. r.lengths ≡ array.now.lengths) }
    ensures whole { IfOk result IsGrid }
    ensures axes { IfOk result (λ r. D.has_axes (length r.lengths)) }
    ensures empty { size array.now.lengths ≡ 0 → IsOk result }
{
    let mut kept = ArrayBuilder::with_capacity(alloc, array.raw_dim(), Order::RowMajor)?;
    let mut firsts = array.raw_dim();
    let axis = firsts.ndim() - 1;
    let columns = firsts.axis(axis);
    firsts.set_axis(axis, one_if_some(columns));
    for index in Walk::new(firsts, Order::RowMajor) {
        push_row(&mut kept, array, &index, columns, first, last)?;
    }
    Ok(kept.finish())
}

/// Pushes a row: clones of the cells whose diagonal is kept, and zeros on both sides of them.
fn push_row<A: Clone + Zero, D: Lengths>(
    kept: &mut ArrayBuilder<A, D>,
    array: &ArrayView<'_, A, D>,
    index: &D,
    columns: usize,
    first: isize,
    last: isize,
) -> Result<(), AllocError>
    requires clones { ClonesAreEqual A.is_clone }
    requires limit { IsWithinLimit array.now.lengths }
    requires axes { 2 ≤ length array.now.lengths }
    requires some { 0 < columns }
    requires fits { columns < 2 ^ 63 }
    requires inside { All (InBox array.now.lengths) (row_from (D.numbers index.now) (length array.now.lengths - 1) columns) }
    requires room { length kept.old.cells + columns ≤ size kept.old.lengths }
    ensures pushed { IfOk result (λ _. kept.new ≡ pushed_all kept.old (filter_map (λ is. if int_le first (column_minus_row is) && int_le (column_minus_row is) last
        then cell array.now is else Some A.zero) (row_from (D.numbers index.now) (length array.now.lengths - 1) columns))) }
{
    let diagonal = column_minus_row(index);
    let from = columns_below(first, diagonal, columns);
    let to = columns_up_to(last, diagonal, columns).max(from);
    kept.push_zeros(from);
    push_cells(kept, array, index, from, to - from)?;
    kept.push_zeros(columns - to);
    Ok(())
}

/// Pushes clones of `count` cells along the last axis, from `from` cells behind an index list on.
fn push_cells<A: Clone, D: Lengths>(
    kept: &mut ArrayBuilder<A, D>,
    array: &ArrayView<'_, A, D>,
    index: &D,
    from: usize,
    count: usize,
) -> Result<(), AllocError>
    requires clones { ClonesAreEqual A.is_clone }
    requires axes { 1 ≤ length (D.numbers index.now) }
    requires fits { slice_index (D.numbers index.now) (length (D.numbers index.now) - 1) + from < 2 ^ 64 }
    requires inside { All (InBox array.now.lengths) (row_from (row_at (D.numbers index.now) (length (D.numbers index.now) - 1) from) (length (D.numbers index.now) - 1) count) }
    requires room { length kept.old.cells + count ≤ size kept.old.lengths }
    ensures pushed { IfOk result (λ _. kept.new ≡ pushed_all kept.old (filter_map (cell array.now) (row_from (row_at (D.numbers index.now) (length (D.numbers index.now) - 1) from) (length (D.numbers index.now) - 1) count))) }
{
    if count == 0 {
        return Ok(());
    }
    let axis = index.ndim() - 1;
    let mut start = index.copied();
    start.set_axis(axis, start.axis(axis) + from);
    kept.push_clones(array.cells_along(&start, axis, count))
}

/// How many of the diagonals from one on are below another.
fn columns_below(bound: isize, diagonal: isize, columns: usize) -> usize
    ensures within { result ≤ columns }
    ensures below { (c : ℕ) → c < result → int_le bound (diagonal +ℤ pos c) ≡ false }
    ensures others { (c : ℕ) → result ≤ c → c < columns → int_le bound (diagonal +ℤ pos c) ≡ true }
{
    if bound <= diagonal {
        0
    } else {
        bound.abs_diff(diagonal).min(columns)
    }
}

/// How many of the diagonals from one on are at most another.
fn columns_up_to(bound: isize, diagonal: isize, columns: usize) -> usize
    ensures within { result ≤ columns }
    ensures below { (c : ℕ) → c < result → int_le (diagonal +ℤ pos c) bound ≡ true }
    ensures others { (c : ℕ) → result ≤ c → c < columns → int_le (diagonal +ℤ pos c) bound ≡ false }
{
    if bound < diagonal {
        return 0;
    }
    let apart = bound.abs_diff(diagonal);
    if apart < columns { apart + 1 } else { columns }
}

/// The last index less the one before it.
fn column_minus_row<D: Lengths>(index: &D) -> isize
    requires some { 2 ≤ length (D.numbers index.now) }
    requires fit { All (λ i. i < 2 ^ 63) (D.numbers index.now) }
    ensures { result ≡ column_minus_row (D.numbers index.now) }
{
    let ndim = index.ndim();
    index.axis(ndim - 1).cast_signed() - index.axis(ndim - 2).cast_signed()
}
