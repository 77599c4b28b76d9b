//! The windows of an array, along all axes or along one.

ghost use Rattle.std.specs.Prelude.{◌≡◌, ◌≤◌, ◌<◌, ◌↔◌, length, replicate, IsTrue};
ghost use Rattle.ndarray.specs.Subviews.{ArePositive, axis_windows_of, windows_of};

use crate::base::array::{ArrayBase, ArrayView};
use crate::base::axis::Axis;
use crate::base::dimension::{Dimension, Lengths};
use crate::base::into_dimension::IntoDimension;
use crate::base::storage::Data;
use crate::subviews::pieces::{Pieces, PiecesIter};
use crate::subviews::positions::{are_positive, ones};
use std::marker::Model;

/// The windows of an array, one at each position: a producer, and an iterator by `into_iter`, in row order of the positions.
pub type Windows<'a, A, D> = Pieces<'a, A, D, D>;

/// The iterator over the windows of an array, in row order of their positions, or in the order that was asked for by `run`.
pub type WindowsIter<'a, A, D> = PiecesIter<'a, A, D, D>;

/// The windows of an array along one axis, from the first to the last; on the other axes they have the array's length. They are a producer,
/// and an iterator by `into_iter`.
#[derive(Drop)]
pub struct AxisWindows<'a, A, D: Lengths> {
    // on each axis but this one there is one position
    pub(crate) axis: usize,
    pub(crate) pieces: Pieces<'a, A, D, D>,
}

impl<'a, A, D: Lengths> Model for AxisWindows<'a, A, D> {
    ghost use Rattle.ndarray.specs.Grid.{Grid, one_axis};
    ghost use Rattle.ndarray.specs.base.Pieces.{AreAlong};

    ghost Value = { Grid (Grid A) };

    ghost view = { λ s. one_axis s.pieces.cells };

    ghost invariant = { λ s. AreAlong s.axis s.pieces };
}

impl<S: Data, D: Dimension> ArrayBase<S, D> {
    /// Whether `windows_with_stride` may be called: there are as many window lengths and as many steps as axes, and each is at least 1.
    ///
    /// ```
    /// if a.windows_ok(&Ix2(2, 2), &Ix2(1, 1)) {
    ///     for window in a.windows((2, 2)) { .. }
    /// }
    /// ```
    pub fn windows_ok(&self, window: &D, steps: &D) -> bool
        ensures { IsTrue result ↔ (ArePositive self.now.lengths (D.numbers window.now) × ArePositive self.now.lengths (D.numbers steps.now)) }
    {
        are_positive(&self.layout.dim, window) && are_positive(&self.layout.dim, steps)
    }

    /// The windows with the lengths `window`, one at each position at which a whole window begins.
    ///
    /// Requires as many window lengths as there are axes, each at least 1; check with `windows_ok` at steps of 1.
    ///
    /// ```
    /// let a = ArrayView::from_shape(4, &[1, 2, 3, 4])?;
    /// for window in a.windows(2) { .. } // [1, 2], [2, 3], [3, 4]
    /// ```
    pub fn windows<E: IntoDimension<Dim = D>>(&self, window: E) -> Windows<'_, S::Elem, D>
        requires { ArePositive self.now.lengths (E.written_numbers window) }
        ensures { result ≡ windows_of self.now (E.written_numbers window) (replicate (length self.now.lengths) 1) }
    {
        self.pieces(window.into_dimension(), &ones(&self.layout.dim))
    }

    /// The windows with the lengths `window` at positions `steps` apart: along an axis, window i starts at i times the axis's step.
    ///
    /// Requires as many window lengths and as many steps as there are axes, each at least 1; check with `windows_ok`.
    ///
    /// ```
    /// let a = ArrayView::from_shape(4, &[1, 2, 3, 4])?;
    /// for window in a.windows_with_stride(2, 2) { .. } // [1, 2], [3, 4]
    /// ```
    pub fn windows_with_stride<E: IntoDimension<Dim = D>>(
        &self,
        window: E,
        steps: E,
    ) -> Windows<'_, S::Elem, D>
        requires window { ArePositive self.now.lengths (E.written_numbers window) }
        requires steps { ArePositive self.now.lengths (E.written_numbers steps) }
        ensures { result ≡ windows_of self.now (E.written_numbers window) (E.written_numbers steps) }
    {
        self.pieces(window.into_dimension(), &steps.into_dimension())
    }
}

impl<S: Data, D: Lengths> ArrayBase<S, D> {
    /// The windows along one axis, one at each index at which a whole window begins: they have the length `window` on it, and on the other
    /// axes the array's length.
    ///
    /// Requires an axis below the number of axes and a window length of at least 1; check with
    /// `chunk_ok(axis, window)`.
    ///
    /// ```
    /// // of [[1, 2, 3], [4, 5, 6]]: [[1, 2], [4, 5]] and [[2, 3], [5, 6]]
    /// for window in a.axis_windows(Axis(1), 2) { .. }
    /// ```
    pub fn axis_windows(&self, axis: Axis, window: usize) -> AxisWindows<'_, S::Elem, D>
        requires axis { axis.0 < length self.now.lengths }
        requires window { 1 ≤ window }
        ensures { result ≡ axis_windows_of self.now axis.0 window 1 }
    {
        self.axis_windows_with_stride(axis, window, 1)
    }

    /// The windows along one axis, as those of [`axis_windows`](Self::axis_windows), but a step apart: window i starts at i times the step.
    ///
    /// Requires an axis below the number of axes, and a window length and a step of at least 1;
    /// check with `chunk_ok(axis, window)` and `chunk_ok(axis, step)`.
    ///
    /// ```
    /// let a = ArrayView::from_shape(4, &[1, 2, 3, 4])?;
    /// for window in a.axis_windows_with_stride(Axis(0), 1, 3) { .. } // [1], [4]
    /// ```
    pub fn axis_windows_with_stride(
        &self,
        axis: Axis,
        window: usize,
        step: usize,
    ) -> AxisWindows<'_, S::Elem, D>
        requires axis { axis.0 < length self.now.lengths }
        requires window { 1 ≤ window }
        requires step { 1 ≤ step }
        ensures { result ≡ axis_windows_of self.now axis.0 window step }
    {
        let mut lengths = self.layout.dim.copied();
        lengths.set_axis(axis.0, window);
        let mut steps = ones(&self.layout.dim);
        steps.set_axis(axis.0, step);
        AxisWindows {
            axis: axis.0,
            pieces: self.pieces(lengths, &steps),
        }
    }
}

impl<'a, A, D: Lengths> IntoIterator for AxisWindows<'a, A, D> {
    ghost use Rattle.std.specs.Prelude.{◌<◌, ◌^◌, length};

    type Item = ArrayView<'a, A, D>;

    type IntoIter = WindowsIter<'a, A, D>;

    ghost into_iter_gives = { λ s it. (it ≡ s.cells) × (length it < 2 ^ 63) };

    fn into_iter(self) -> WindowsIter<'a, A, D> {
        self.pieces.into_iter()
    }
}
