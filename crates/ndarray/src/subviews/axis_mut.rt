//! The items along an axis, to write in.

ghost use Rattle.std.specs.Prelude.{◌≡◌, ◌<◌, ◌^◌, ◌∷◌, [], length, slice_index};
ghost use Rattle.ndarray.specs.Grid.{array_by};
ghost use Rattle.ndarray.specs.Limits.{IsWithinLimit};
ghost use Rattle.ndarray.specs.Subviews.{axis_items};
ghost use Rattle.ndarray.specs.Views.{axis_item};

use crate::base::array::{ArrayBase, ArrayViewMut};
use crate::base::axis::Axis;
use crate::base::dimension::{Ix1, Lengths, RemoveAxis};
use crate::base::layout::Layout;
use crate::base::storage::DataMut;
use crate::subviews::pieces_mut::{EqualPiecesIterMut, PiecesMut};
use std::marker::PhantomData;

/// The iterator over the items along an axis, to write in: views with that axis taken out. No two of them share a cell. A contract sees it
/// as the list of those still to come.
///
/// Neither making an iterator nor any of its steps allocates; a step takes constant time.
pub type AxisIterMut<'a, A, D> = EqualPiecesIterMut<'a, A, Ix1, D>;

impl<S: DataMut, D: RemoveAxis> ArrayBase<S, D> {
    /// An iterator over the items along an axis, from the first to the last, to write in: item i is the view that `index_axis_mut` returns
    /// at i. No two of them share a cell.
    ///
    /// Requires an axis below the number of axes; check with `axis_ok`.
    ///
    /// ```
    /// for mut row in array.axis_iter_mut(Axis(0)) {
    ///     if let Some(cell) = row.get_mut(0) {
    ///         *cell = 7;
    ///     }
    /// }
    /// ```
    pub fn axis_iter_mut(&mut self, axis: Axis) -> AxisIterMut<'_, S::Elem, D::Smaller>
        requires { axis.0 < length self.old.lengths }
        ensures items { result ≡ axis_items self.old axis.0 }
        ensures fits { length result < 2 ^ 63 }
    {
        items(self.view_mut(), axis).into_iter()
    }

    /// An iterator over the items along axis 0, from the first to the last, to write in.
    ///
    /// Requires at least one axis; check with `axis_ok(Axis(0))`.
    ///
    /// ```
    /// for mut row in array.outer_iter_mut() {
    ///     row.update(|j, x| 0);
    /// }
    /// ```
    pub fn outer_iter_mut(&mut self) -> AxisIterMut<'_, S::Elem, D::Smaller>
        requires { 0 < length self.old.lengths }
        ensures items { result ≡ axis_items self.old 0 }
        ensures fits { length result < 2 ^ 63 }
    {
        self.axis_iter_mut(Axis(0))
    }
}

/// The items along an axis, by their indices.
fn items<'a, A, D: RemoveAxis>(
    view: ArrayViewMut<'a, A, D>,
    axis: Axis,
) -> PiecesMut<'a, A, Ix1, D::Smaller>
    requires { axis.0 < length view.lengths }
    ensures { result ≡ array_by (slice_index view.entry.lengths axis.0 ∷ []) (λ is. axis_item view.entry axis.0 (slice_index is 0)) }
{
    let ArrayBase { storage, layout } = view;
    PiecesMut {
        region: storage,
        positions: Layout {
            start: layout.start,
            dim: Ix1(layout.dim.axis(axis.0)),
            strides: Ix1(layout.strides.axis(axis.0)),
        },
        dim: layout.dim.remove_axis(axis),
        strides: layout.strides.remove_axis(axis),
        lifetime: PhantomData,
    }
}

impl<'a, A, D: Lengths> AxisIterMut<'a, A, D> {
    /// The number of items still to come, as lengths of one axis.
    pub(crate) fn raw_dim(&self) -> Ix1
        ensures value { result.0 ≡ length self.now ∷ [] }
        ensures limit { IsWithinLimit (length self.now ∷ []) }
    {
        Ix1(self.layouts.bounded_len())
    }
}
