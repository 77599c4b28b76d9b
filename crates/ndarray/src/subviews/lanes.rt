//! The lanes along an axis: one-dimensional views, one for each index list of the other axes.

ghost use Rattle.std.specs.Prelude.{◌≡◌, ◌⊎◌, ◌-◌, ◌<◌, ◌↔◌, [], length, remove, slice_index, IsTrue};
ghost use Rattle.ndarray.specs.Subviews.{lanes_of};

use crate::base::array::ArrayBase;
use crate::base::axis::Axis;
use crate::base::dimension::{Dimension, Ix1, Lengths};
use crate::base::layout::Layout;
use crate::base::storage::Data;
use crate::subviews::pieces::{Pieces, PiecesIter};

/// The lanes along an axis: one-dimensional views, one for each index list of the other axes, whose dimension is `D`. They are a producer,
/// and an iterator by `into_iter`, in row order of these index lists.
pub type Lanes<'a, A, D> = Pieces<'a, A, D, Ix1>;

/// The iterator over the lanes along an axis, in row order of their index lists, or in the order that was asked for by `run`.
pub type LanesIter<'a, A, D> = PiecesIter<'a, A, D, Ix1>;

impl<S: Data, D: Dimension> ArrayBase<S, D> {
    /// Whether `lanes` may be called: the axis is below the number of axes, or there are no axes.
    ///
    /// ```
    /// if a.lanes_ok(axis) {
    ///     for lane in a.lanes(axis) { .. }
    /// }
    /// ```
    pub fn lanes_ok(&self, axis: Axis) -> bool
        ensures { IsTrue result ↔ ((self.now.lengths ≡ []) ⊎ (axis.0 < length self.now.lengths)) }
    {
        let ndim = self.ndim();
        ndim == 0 || axis.0 < ndim
    }

    /// The lanes along an axis, one for each index list of the other axes. An array without axes has one lane of length 1, whichever axis
    /// is named.
    ///
    /// Requires that the axis is below the number of axes, or that there are no axes; check with `lanes_ok`.
    ///
    /// ```
    /// let view = ArrayView::from_shape((2, 3), &[1, 2, 3, 4, 5, 6])?;
    /// for lane in view.lanes(Axis(0)) { .. } // [1, 4], [2, 5], [3, 6]
    /// ```
    pub fn lanes(&self, axis: Axis) -> Lanes<'_, S::Elem, D::Smaller>
        requires { (self.now.lengths ≡ []) ⊎ (axis.0 < length self.now.lengths) }
        ensures { result ≡ lanes_of self.now axis.0 }
    {
        let layout = &self.layout;
        let (len, stride) = len_and_stride(layout, axis);
        Pieces {
            storage: self.storage.seen(),
            positions: first_cells(layout, axis),
            dim: Ix1(len),
            strides: Ix1(stride),
        }
    }

    /// The lanes along the last axis: of a matrix, its rows. An array without axes has one of length 1.
    ///
    /// ```
    /// // of [[1, 2, 3], [4, 5, 6]]: [1, 2, 3] and [4, 5, 6]
    /// for row in a.rows() { .. }
    /// ```
    pub fn rows(&self) -> Lanes<'_, S::Elem, D::Smaller>
        ensures { result ≡ lanes_of self.now (length self.now.lengths - 1) }
    {
        self.lanes(Axis(self.ndim().saturating_sub(1)))
    }

    /// The lanes along axis 0: of a matrix, its columns. An array without axes has one of length 1.
    ///
    /// ```
    /// // of [[1, 2, 3], [4, 5, 6]]: [1, 4], [2, 5] and [3, 6]
    /// for column in a.columns() { .. }
    /// ```
    pub fn columns(&self) -> Lanes<'_, S::Elem, D::Smaller>
        ensures { result ≡ lanes_of self.now 0 }
    {
        self.lanes(Axis(0))
    }
}

/// Where the first cells of the lanes along an axis lie.
pub(super) fn first_cells<D: Dimension>(layout: &Layout<D>, axis: Axis) -> Layout<D::Smaller>
    requires dim { (D.numbers layout.now.dim ≡ []) ⊎ (axis.0 < length (D.numbers layout.now.dim)) }
    requires strides { (D.numbers layout.now.strides ≡ []) ⊎ (axis.0 < length (D.numbers layout.now.strides)) }
    ensures start { result.start ≡ layout.now.start }
    ensures dim { D.Smaller.numbers result.dim ≡ remove (D.numbers layout.now.dim) axis.0 }
    ensures strides { D.Smaller.numbers result.strides ≡ remove (D.numbers layout.now.strides) axis.0 }
{
    Layout {
        start: layout.start,
        dim: layout.dim.try_remove_axis(axis),
        strides: layout.strides.try_remove_axis(axis),
    }
}

/// The length of each lane along an axis and the stride in it: 1 and 0 if there are no axes.
pub(super) fn len_and_stride<D: Lengths>(layout: &Layout<D>, axis: Axis) -> (usize, usize)
    requires dim { (D.numbers layout.now.dim ≡ []) ⊎ (axis.0 < length (D.numbers layout.now.dim)) }
    requires as_many { length (D.numbers layout.now.strides) ≡ length (D.numbers layout.now.dim) }
    ensures { ((D.numbers layout.now.dim ≡ []) × (result.0 ≡ 1)) ⊎ ((axis.0 < length (D.numbers layout.now.dim)) × (result.0 ≡ slice_index (D.numbers layout.now.dim) axis.0) × (result.1 ≡ slice_index (D.numbers layout.now.strides) axis.0)) }
{
    if layout.dim.ndim() == 0 {
        (1, 0)
    } else {
        (layout.dim.axis(axis.0), layout.strides.axis(axis.0))
    }
}
