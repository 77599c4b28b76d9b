//! Slices of several axes at once. None of these calls copies a cell or allocates.

ghost use Rattle.std.specs.Prelude.{◌≡◌, ◌↔◌, IsTrue, length};
ghost use Rattle.ndarray.specs.AxisSlices.{AreSlicesOf, axes_sliced};
ghost use Rattle.ndarray.specs.Grid.{IsGrid};

use crate::base::array::{ArrayBase, ArrayView, ArrayViewMut};
use crate::base::axis::Axis;
use crate::base::dimension::Lengths;
use crate::base::slice::Slice;
use crate::base::storage::{Data, DataMut};

impl<S: Data, D: Lengths> ArrayBase<S, D> {
    /// Whether `slice` may be called: there is a slice for each axis, within its length, and no step is 0.
    ///
    /// ```
    /// let part = [Slice::from(1..), Slice::new(0, None, 2)];
    /// if a.slices_ok(&part) {
    ///     let corner = a.slice(&part);
    /// }
    /// ```
    pub fn slices_ok(&self, slices: &[Slice]) -> bool
        ensures { IsTrue result ↔ AreSlicesOf self.now.lengths slices.now }
    {
        if slices.len() != self.ndim() {
            return false;
        }
        for axis in 0..slices.len() {
            if !self.slice_ok(Axis(axis), slices[axis]) {
                return false;
            }
        }
        true
    }

    /// A view of the indices that a list of slices takes, one for each axis, that of axis 0 first.
    ///
    /// Requires a slice for each axis, within its length, and steps that are not 0; check with `slices_ok`.
    ///
    /// ```
    /// let a = ArrayView::from_shape((2, 3), &[1, 2, 3, 4, 5, 6])?;
    /// a.slice(&[Slice::from(1..), Slice::new(0, None, 2)]); // [[4, 6]]
    /// ```
    pub fn slice(&self, slices: &[Slice]) -> ArrayView<'_, S::Elem, D>
        requires { AreSlicesOf self.now.lengths slices.now }
        ensures value { result ≡ axes_sliced 0 self.now slices.now }
        ensures axes { D.has_axes (length result.lengths) }
        ensures whole { IsGrid result }
    {
        let mut view = self.view();
        view.slice_inplace(slices);
        let _whole = view.raw_dim();
        view
    }

    /// Cuts the array itself down to what [`slice`](Self::slice) returns. An array that owns its elements keeps those that are then hidden.
    ///
    /// Requires what `slice` requires; check with `slices_ok`.
    ///
    /// ```
    /// let mut a = ArrayView::from_shape((2, 3), &[1, 2, 3, 4, 5, 6])?;
    /// a.slice_inplace(&[Slice::from(1..), Slice::new(0, None, 2)]); // [[4, 6]]
    /// ```
    pub fn slice_inplace(&mut self, slices: &[Slice])
        requires { AreSlicesOf self.old.lengths slices.now }
        ensures value { self.new ≡ axes_sliced 0 self.old slices.now }
        ensures whole { IsGrid self.new }
    {
        for axis in 0..slices.len() {
            self.slice_axis_inplace(Axis(axis), slices[axis]);
        }
        let _whole = self.raw_dim();
    }
}

impl<S: DataMut, D: Lengths> ArrayBase<S, D> {
    /// A view to write in of the indices that a list of slices takes, one for each axis.
    ///
    /// Requires what `slice` requires; check with `slices_ok`.
    ///
    /// ```
    /// // a = [[1, 2, 3], [4, 5, 6]]
    /// a.slice_mut(&[Slice::from(1..), Slice::new(0, None, 2)]).fill(0); // a = [[1, 2, 3], [0, 5, 0]]
    /// ```
    pub fn slice_mut(&mut self, slices: &[Slice]) -> ArrayViewMut<'_, S::Elem, D>
        requires { AreSlicesOf self.old.lengths slices.now }
        ensures value { result ≡ axes_sliced 0 self.old slices.now }
        ensures axes { D.has_axes (length result.lengths) }
        ensures whole { IsGrid result }
    {
        let mut view = self.view_mut();
        view.slice_inplace(slices);
        let _whole = view.raw_dim();
        view
    }
}
