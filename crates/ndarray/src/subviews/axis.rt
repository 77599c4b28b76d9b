//! The items along an axis.

ghost use Rattle.std.specs.Prelude.{◌≡◌, ◌<◌, ◌≤◌, ◌+◌, ◌^◌, ◌∷◌, [], length, take, drop, slice_get, slice_index};
ghost use Rattle.ndarray.specs.Grid.{array_by};
ghost use Rattle.ndarray.specs.Subviews.{axis_items};
ghost use Rattle.ndarray.specs.Views.{axis_item};

use crate::base::array::{ArrayBase, ArrayView};
use crate::base::axis::Axis;
use crate::base::dimension::{Ix1, Lengths, RemoveAxis};
use crate::base::layout::Layout;
use crate::base::storage::Data;
use crate::subviews::pieces::{Pieces, PiecesIter};

/// The iterator over the items along an axis: views with that axis taken out. A contract sees it as the list of those still to come.
///
/// Neither making an iterator nor any of its steps allocates; a step takes constant time.
pub type AxisIter<'a, A, D> = PiecesIter<'a, A, Ix1, D>;

impl<S: Data, D: RemoveAxis> ArrayBase<S, D> {
    /// An iterator over the items along an axis, from the first to the last: item i is the view that `index_axis` returns at i.
    ///
    /// Requires an axis below the number of axes; check with `axis_ok`.
    ///
    /// ```
    /// let view = ArrayView::from_shape((2, 3), &[1, 2, 3, 4, 5, 6])?;
    /// for column in view.axis_iter(Axis(1)) { .. } // [1, 4], [2, 5], [3, 6]
    /// ```
    pub fn axis_iter(&self, axis: Axis) -> AxisIter<'_, S::Elem, D::Smaller>
        requires { axis.0 < length self.now.lengths }
        ensures items { result ≡ axis_items self.now axis.0 }
        ensures fits { length result < 2 ^ 63 }
    {
        self.items(axis).into_iter()
    }

    /// An iterator over the items along axis 0, from the first to the last.
    ///
    /// Requires at least one axis; check with `axis_ok(Axis(0))`.
    ///
    /// ```
    /// // of [[1, 2, 3], [4, 5, 6]]: [1, 2, 3] and [4, 5, 6]
    /// for row in a.outer_iter() { .. }
    /// ```
    pub fn outer_iter(&self) -> AxisIter<'_, S::Elem, D::Smaller>
        requires { 0 < length self.now.lengths }
        ensures items { result ≡ axis_items self.now 0 }
        ensures fits { length result < 2 ^ 63 }
    {
        self.axis_iter(Axis(0))
    }

    /// The items along an axis, by their indices.
    fn items(&self, axis: Axis) -> Pieces<'_, S::Elem, Ix1, D::Smaller>
        requires { axis.0 < length self.now.lengths }
        ensures { result ≡ array_by (slice_index self.now.lengths axis.0 ∷ []) (λ is. axis_item self.now axis.0 (slice_index is 0)) }
    {
        Pieces {
            storage: self.storage.seen(),
            positions: Layout {
                start: self.layout.start,
                dim: Ix1(self.layout.dim.axis(axis.0)),
                strides: Ix1(self.layout.strides.axis(axis.0)),
            },
            dim: self.layout.dim.remove_axis(axis),
            strides: self.layout.strides.remove_axis(axis),
        }
    }
}

impl<'a, A, D: Lengths> AxisIter<'a, A, D> {
    /// Splits the iterator, in constant time: into the first `index` items still to come, and the rest.
    ///
    /// Requires that the index is at most the number of items still to come; compare with `len`.
    ///
    /// ```
    /// // of three columns the first, and the other two
    /// let (first, others) = a.axis_iter(Axis(1)).split_at(1);
    /// ```
    pub fn split_at(self, index: usize) -> (Self, Self)
        requires { index ≤ length self }
        ensures first { result.0 ≡ take index self.entry }
        ensures second { result.1 ≡ drop index self.entry }
    {
        let mut rest = self;
        let first = rest.take_first(index);
        (first, rest)
    }

    /// Leaves out the next `n` items and takes the one after them, in constant time; `None` if there is none.
    ///
    /// ```
    /// let mut columns = a.axis_iter(Axis(1)); // of [[1, 2, 3], [4, 5, 6]]
    /// columns.nth(1); // [2, 5]
    /// columns.next(); // [3, 6]
    /// ```
    pub fn nth(&mut self, n: usize) -> Option<ArrayView<'a, A, D>>
        ensures taken { result ≡ slice_get self.old n }
        ensures rest { self.new ≡ drop (n + 1) self.old }
    {
        let left_out = n.min(self.len());
        let _ = self.take_first(left_out);
        self.next()
    }
}
