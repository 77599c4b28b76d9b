//! The lanes along an axis, to write in.

ghost use Rattle.std.specs.Prelude.{◌≡◌, ◌⊎◌, ◌-◌, ◌<◌, [], length};
ghost use Rattle.ndarray.specs.Subviews.{lanes_of};

use crate::base::array::{ArrayBase, ArrayViewMut};
use crate::base::axis::Axis;
use crate::base::dimension::{Dimension, Ix1};
use crate::base::storage::DataMut;
use crate::subviews::lanes::{first_cells, len_and_stride};
use crate::subviews::pieces_mut::{EqualPiecesIterMut, PiecesMut};
use std::marker::PhantomData;

/// The lanes along an axis, to write in: one-dimensional views, one for each index list of the other axes, whose dimension is `D`. No two
/// of them share a cell. They are a producer, and an iterator by `into_iter`, in row order of these index lists.
pub type LanesMut<'a, A, D> = PiecesMut<'a, A, D, Ix1>;

/// The iterator over the lanes along an axis, to write in, in row order of their index lists, or in the order that was asked for by `run`.
pub type LanesIterMut<'a, A, D> = EqualPiecesIterMut<'a, A, D, Ix1>;

impl<S: DataMut, D: Dimension> ArrayBase<S, D> {
    /// The lanes along an axis, one for each index list of the other axes, to write in. No two of them share a cell. An array without axes
    /// has one lane of length 1, whichever axis is named.
    ///
    /// Requires that the axis is below the number of axes, or that there are no axes; check with `lanes_ok`.
    ///
    /// ```
    /// for mut lane in array.lanes_mut(Axis(0)) {
    ///     if let Some(cell) = lane.get_mut(0) {
    ///         *cell = 7;
    ///     }
    /// }
    /// ```
    pub fn lanes_mut(&mut self, axis: Axis) -> LanesMut<'_, S::Elem, D::Smaller>
        requires { (self.old.lengths ≡ []) ⊎ (axis.0 < length self.old.lengths) }
        ensures { result ≡ lanes_of self.old axis.0 }
    {
        pieces(self.view_mut(), axis)
    }

    /// The lanes along the last axis, to write in: of a matrix, its rows. An array without axes has one of length 1.
    ///
    /// ```
    /// for mut row in array.rows_mut() {
    /// row.update(|j, x| x + j); // adds to each cell the number of its column
    /// }
    /// ```
    pub fn rows_mut(&mut self) -> LanesMut<'_, S::Elem, D::Smaller>
        ensures { result ≡ lanes_of self.old (length self.old.lengths - 1) }
    {
        let last = self.ndim().saturating_sub(1);
        self.lanes_mut(Axis(last))
    }

    /// The lanes along axis 0, to write in: of a matrix, its columns. An array without axes has one of length 1.
    ///
    /// ```
    /// for mut column in array.columns_mut() {
    /// column.update(|i, x| x + i); // adds to each cell the number of its row
    /// }
    /// ```
    pub fn columns_mut(&mut self) -> LanesMut<'_, S::Elem, D::Smaller>
        ensures { result ≡ lanes_of self.old 0 }
    {
        self.lanes_mut(Axis(0))
    }
}

/// The lanes along an axis, by the index lists of the other axes.
fn pieces<'a, A, D: Dimension>(
    view: ArrayViewMut<'a, A, D>,
    axis: Axis,
) -> LanesMut<'a, A, D::Smaller>
    requires { (view.lengths ≡ []) ⊎ (axis.0 < length view.lengths) }
    ensures { result ≡ lanes_of view.entry axis.0 }
{
    let ArrayBase { storage, layout } = view;
    let (len, stride) = len_and_stride(&layout, axis);
    PiecesMut {
        region: storage,
        positions: first_cells(&layout, axis),
        dim: Ix1(len),
        strides: Ix1(stride),
        lifetime: PhantomData,
    }
}
