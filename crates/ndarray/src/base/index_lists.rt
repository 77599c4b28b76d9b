//! The index lists of a box, as an array of them.

ghost use Rattle.std.specs.Prelude.{◌≡◌, ◌+◌, ◌≤◌, ◌<◌, ◌^◌, ℕ, All, length, filter_map, slice_index, Some, ⊤};
ghost use Rattle.std.specs.Iterator.{YieldsFirstBy};
ghost use Rattle.ndarray.specs.Grid.{IsGrid, array_by, cell};
ghost use Rattle.ndarray.specs.Index.{InBox};
ghost use Rattle.ndarray.specs.Limits.{IsWithinLimit};
ghost use Rattle.ndarray.specs.Views.{axis_part};
ghost use Rattle.ndarray.specs.base.IndexLists.{shifted_index};
ghost use Rattle.ndarray.specs.base.Ranks.{row_from};

use crate::base::axis::Axis;
use crate::base::dimension::Lengths;
use std::alloc::AllocError;
use std::marker::Model;

/// The index lists of a box: an array whose cell at each index list is that list. A part of it keeps the index lists of the whole.
///
/// As a producer it yields each list as a pattern. It allocates nothing.
#[derive(Drop)]
pub struct Indices<D: Lengths> {
    // the list at the index list of zeros
    start: D,
    dim: D,
}

impl<D: Lengths> Model for Indices<D> {
    ghost use Rattle.std.specs.Prelude.{List, ℕ};
    ghost use Rattle.ndarray.specs.Grid.{Grid, array_by};

    ghost Value = { Grid (List ℕ) };

    ghost use Rattle.ndarray.specs.base.IndexLists.{StartsAt, shifted_index};

    ghost view = { λ s. array_by (D.numbers s.dim) (shifted_index (D.numbers s.start)) };

    ghost invariant = { λ s. StartsAt (D.numbers s.start) (D.numbers s.dim) };
}

/// An index list counted from a start, axis by axis.
pub(crate) fn counted_from<D: Lengths>(start: &D, index: &D) -> D
    requires as_many { length (D.numbers start.now) ≡ length (D.numbers index.now) }
    requires room { (k : ℕ) → k < length (D.numbers index.now) → slice_index (D.numbers start.now) k + slice_index (D.numbers index.now) k < 2 ^ 64 }
    ensures { D.numbers result ≡ shifted_index (D.numbers start.now) (D.numbers index.now) }
{
    let mut list = index.copied();
    for k in 0..start.ndim() {
        list.set_axis(k, start.axis(k) + index.axis(k));
    }
    list
}

impl<D: Lengths> Indices<D> {
    /// The index lists of the box of the lengths.
    pub(crate) fn of(dim: D) -> Self
        requires { IsWithinLimit (D.numbers dim) }
        ensures { result ≡ array_by (D.numbers dim) (λ is. is) }
    {
        let start = D::zeros(dim.ndim());
        Indices { start, dim }
    }

    /// The lengths.
    ///
    /// ```
    /// let lists = indices((2, 3));
    /// let (rows, columns) = lists.raw_dim().into_pattern(); // 2 and 3
    /// ```
    pub fn raw_dim(&self) -> D
        ensures lengths { D.numbers result ≡ self.now.lengths }
        ensures limit { IsWithinLimit self.now.lengths }
        ensures whole { IsGrid self.now }
    {
        self.dim.copied()
    }

    /// The list at an index list of the box.
    pub(crate) fn list(&self, index: &D) -> D
        requires { InBox self.now.lengths (D.numbers index.now) }
        ensures { cell self.now (D.numbers index.now) ≡ Some (D.numbers result) }
    {
        counted_from(&self.start, index)
    }

    /// The `len` places of an axis from `from` on.
    fn part(&self, axis: usize, from: usize, len: usize) -> Self
        requires axis { axis < length self.now.lengths }
        requires within { from + len ≤ slice_index self.now.lengths axis }
        ensures value { result ≡ axis_part self.now axis from (from + len) }
        ensures whole { IsGrid result }
    {
        let mut start = self.start.copied();
        start.set_axis(axis, start.axis(axis) + from);
        let mut dim = self.dim.copied();
        dim.set_axis(axis, len);
        Indices { start, dim }
    }

    /// Splits the index lists at an index of an axis: into those whose index there is below `index`, and the rest.
    ///
    /// Requires that the axis is below the number of axes and the index at most its length; compare with `raw_dim`.
    ///
    /// ```
    /// // (0, 0), (0, 1) and (1, 0), (1, 1)
    /// let (upper, lower) = indices((2, 2)).split_at(Axis(0), 1);
    /// ```
    pub fn split_at(self, axis: Axis, index: usize) -> (Self, Self)
        requires axis { axis.0 < length self.lengths }
        requires within { index ≤ slice_index self.lengths axis.0 }
        ensures first { result.0 ≡ axis_part self axis.0 0 index }
        ensures second { result.1 ≡ axis_part self axis.0 index (slice_index self.lengths axis.0) }
        ensures first_whole { IsGrid result.0 }
        ensures second_whole { IsGrid result.1 }
    {
        let len = self.dim.axis(axis.0);
        (
            self.part(axis.0, 0, index),
            self.part(axis.0, index, len - index),
        )
    }
}

impl<D: Lengths> Clone for Indices<D> {
    ghost is_clone = { λ s r. r ≡ s };

    ghost is_infallible = { λ _. ⊤ };

    fn clone(&self) -> Result<Indices<D>, AllocError> {
        Ok(Indices {
            start: self.start.copied(),
            dim: self.dim.copied(),
        })
    }
}

/// Index lists of a row that are still to come: `left` of them, from `next` on along the axis.
#[derive(Drop)]
pub struct IndexRow<D: Lengths> {
    // an index list of the row
    list: D,
    axis: usize,
    next: usize,
    left: usize,
}

impl<D: Lengths> Model for IndexRow<D> {
    ghost use Rattle.std.specs.Prelude.{List, ℕ, ◌+◌, ◌≤◌, ◌^◌, slice_set};
    ghost use Rattle.ndarray.specs.base.Ranks.{row_from};

    ghost Value = { List (List ℕ) };

    ghost view = { λ s. row_from (slice_set (D.numbers s.list) s.axis s.next) s.axis s.left };

    ghost invariant = { λ s. s.next + s.left ≤ 2 ^ 64 };
}

impl<D: Lengths> IndexRow<D> {
    /// The next index list.
    #[inline(always)]
    pub(crate) fn next_list(&mut self) -> Option<D>
        ensures { YieldsFirstBy D.numbers (λ rest. rest) self.old result self.new }
    {
        if self.left == 0 {
            return None;
        }
        let mut list = self.list.copied();
        if self.axis < list.ndim() {
            list.set_axis(self.axis, self.next);
        }
        self.left -= 1;
        self.next = self.next.wrapping_add(1);
        Some(list)
    }
}

impl<D: Lengths> Indices<D> {
    /// The lists from an index list of the box on along an axis.
    pub(crate) fn lists_along(&self, first: &D, axis: usize, count: usize) -> IndexRow<D>
        requires some { 0 < count }
        requires within { All (InBox self.now.lengths) (row_from (D.numbers first.now) axis count) }
        ensures { result ≡ filter_map (cell self.now) (row_from (D.numbers first.now) axis count) }
    {
        let list = counted_from(&self.start, first);
        let next = if axis < list.ndim() {
            list.axis(axis)
        } else {
            0
        };
        IndexRow {
            list,
            axis,
            next,
            left: count,
        }
    }
}
