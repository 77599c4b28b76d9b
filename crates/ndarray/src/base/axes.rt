//! Views of parts of an axis, and views with other axes, each by an index equation. None of these calls copies a cell or allocates.

ghost use Rattle.std.specs.Prelude.{◌≡◌, ◌+◌, ◌<◌, ◌≤◌, length, slice_index, ◌↔◌, IsTrue, IsOk, IfOk, IfErr};
ghost use Rattle.ndarray.specs.Errors.{shape_error};
ghost use Rattle.ndarray.specs.Grid.{IsGrid};
ghost use Rattle.ndarray.specs.Slices.{IsSliceOf, axis_slice};
ghost use Rattle.ndarray.specs.Views.{axes_swapped, axis_item, axis_inserted, axis_part};
ghost use Rattle.ndarray.specs.declared.base.error.ErrorKind.TheVariants.{IncompatibleShape};

use crate::base::array::{ArrayBase, ArrayView, ArrayViewMut};
use crate::base::axis::Axis;
use crate::base::dimension::{Dimension, Lengths, RemoveAxis};
use crate::base::error::{ErrorKind, ShapeError};
use crate::base::slice::Slice;
use crate::base::storage::{Data, DataMut};

impl<S: Data, D: Lengths> ArrayBase<S, D> {
    /// Whether the axis is below the number of axes.
    ///
    /// ```
    /// let a = ArrayView::from_shape((2, 3), &[1, 2, 3, 4, 5, 6])?;
    /// assert!(a.axis_ok(Axis(1)));
    /// assert!(!a.axis_ok(Axis(2)));
    /// ```
    pub fn axis_ok(&self, axis: Axis) -> bool
        ensures { IsTrue result ↔ (axis.0 < length self.now.lengths) }
    {
        axis.0 < self.ndim()
    }

    /// Exchanges two axes.
    ///
    /// Requires both to be below the number of axes; compare with `ndim`.
    ///
    /// ```
    /// let mut a = ArrayView::from_shape((2, 3), &[1, 2, 3, 4, 5, 6])?;
    /// a.swap_axes(0, 1); // [[1, 4], [2, 5], [3, 6]]
    /// ```
    pub fn swap_axes(&mut self, ax: usize, bx: usize)
        requires first { ax < length self.old.lengths }
        requires second { bx < length self.old.lengths }
        ensures value { self.new ≡ axes_swapped self.old ax bx }
        ensures whole { IsGrid self.new }
    {
        self.layout.swap_axes(ax, bx);
    }

    /// Whether `slice_axis` may be called: the axis is below the number of axes, the slice
    /// is within its length, and its step is not 0.
    ///
    /// ```
    /// let second = Slice::new(0, None, 2);
    /// if a.slice_ok(Axis(1), second) {
    ///     let columns = a.slice_axis(Axis(1), second);
    /// }
    /// ```
    pub fn slice_ok(&self, axis: Axis, slice: Slice) -> bool
        ensures { IsTrue result ↔ ((axis.0 < length self.now.lengths) × IsSliceOf (slice_index self.now.lengths axis.0) slice) }
    {
        self.axis_ok(axis) && slice.is_within(self.layout.dim.axis(axis.0))
    }

    /// A view of the indices that a slice takes on an axis, in the slice's order.
    ///
    /// Requires an axis below the number of axes, a slice within its length, and a step that is not
    /// 0; check with `slice_ok`.
    ///
    /// ```
    /// let a = ArrayView::from_shape((2, 3), &[1, 2, 3, 4, 5, 6])?;
    /// a.slice_axis(Axis(1), Slice::from(1..)); // [[2, 3], [5, 6]]
    /// a.slice_axis(Axis(1), Slice::new(0, None, -1)); // [[3, 2, 1], [6, 5, 4]]
    /// ```
    pub fn slice_axis(&self, axis: Axis, slice: Slice) -> ArrayView<'_, S::Elem, D>
        requires axis { axis.0 < length self.now.lengths }
        requires within { IsSliceOf (slice_index self.now.lengths axis.0) slice }
        ensures value { result ≡ axis_slice self.now axis.0 slice }
        ensures axes { D.has_axes (length result.lengths) }
        ensures whole { IsGrid result }
    {
        let mut view = self.view();
        view.slice_axis_inplace(axis, slice);
        view
    }

    /// Cuts the array itself down to what [`slice_axis`](Self::slice_axis) returns. An array that owns its elements keeps those that are
    /// then hidden.
    ///
    /// Requires what `slice_axis` requires; check with `slice_ok`.
    ///
    /// ```
    /// let mut a = ArrayView::from_shape((2, 3), &[1, 2, 3, 4, 5, 6])?;
    /// a.slice_axis_inplace(Axis(1), Slice::new(0, None, 2)); // [[1, 3], [4, 6]]
    /// ```
    pub fn slice_axis_inplace(&mut self, axis: Axis, slice: Slice)
        requires axis { axis.0 < length self.old.lengths }
        requires within { IsSliceOf (slice_index self.old.lengths axis.0) slice }
        ensures value { self.new ≡ axis_slice self.old axis.0 slice }
        ensures whole { IsGrid self.new }
    {
        let (from, len) = slice.extent(self.layout.dim.axis(axis.0));
        self.layout
            .cut(axis.0, from, len, slice.step.cast_unsigned());
    }

    /// The array under another type of dimension, with the same lengths and cells.
    ///
    /// The error is `IncompatibleShape`, exactly if that type cannot have this number of axes; the array is then dropped.
    ///
    /// ```
    /// let a = ArrayView::from_shape(IxDyn(&[2, 3]), &[1, 2, 3, 4, 5, 6])?;
    /// let table = a.into_dimensionality::<Ix2>()?; // with `into_pattern`, `rows`, `dot` ..
    /// ```
    pub fn into_dimensionality<E: Lengths>(self) -> Result<ArrayBase<S, E>, ShapeError>
        ensures accepts { IsOk result ↔ E.has_axes (length self.lengths) }
        ensures value { IfOk result (λ a. a ≡ self) }
        ensures axes { IfOk result (λ a. E.has_axes (length a.lengths)) }
        ensures whole { IfOk result IsGrid }
        ensures kind { IfErr result (λ e. e ≡ shape_error IncompatibleShape) }
    {
        if !E::may_have(self.layout.dim.ndim()) {
            return Err(ShapeError::from_kind(ErrorKind::IncompatibleShape));
        }
        let ArrayBase { storage, layout } = self;
        let array = ArrayBase {
            storage,
            layout: layout.into_dimensionality(),
        };
        Ok(array)
    }
}

impl<S: Data, D: RemoveAxis> ArrayBase<S, D> {
    /// Item `index` along an axis: a view whose cell at an index list is the array's cell at that list with `index` put in at the axis.
    ///
    /// Requires an axis below the number of axes (check with `axis_ok`) and an index below its
    /// length (compare with `len_of`).
    ///
    /// ```
    /// let a = ArrayView::from_shape((2, 3), &[1, 2, 3, 4, 5, 6])?;
    /// a.index_axis(Axis(0), 1); // [4, 5, 6]
    /// a.index_axis(Axis(1), 1); // [2, 5]
    /// ```
    pub fn index_axis(&self, axis: Axis, index: usize) -> ArrayView<'_, S::Elem, D::Smaller>
        requires axis { axis.0 < length self.now.lengths }
        requires within { index < slice_index self.now.lengths axis.0 }
        ensures value { result ≡ axis_item self.now axis.0 index }
        ensures axes { D.Smaller.has_axes (length result.lengths) }
        ensures whole { IsGrid result }
    {
        self.view().index_axis_move(axis, index)
    }

    /// The item that [`index_axis`](Self::index_axis) returns, but made of the array itself: a view to write in stays one.
    ///
    /// Requires an axis below the number of axes (check with `axis_ok`) and an index below its length (compare with `len_of`).
    ///
    /// ```
    /// let a = ArrayView::from_shape((2, 3), &[1, 2, 3, 4, 5, 6])?;
    /// a.index_axis_move(Axis(1), 0); // [1, 4]
    /// ```
    pub fn index_axis_move(self, axis: Axis, index: usize) -> ArrayBase<S, D::Smaller>
        requires axis { axis.0 < length self.lengths }
        requires within { index < slice_index self.lengths axis.0 }
        ensures value { result ≡ axis_item self axis.0 index }
        ensures axes { D.Smaller.has_axes (length result.lengths) }
        ensures whole { IsGrid result }
    {
        self.into_item(axis, index)
    }
}

impl<S: Data, D: Dimension> ArrayBase<S, D> {
    /// Item `index` along an axis, also of an array whose type of dimension may have no axes.
    pub(crate) fn into_item(self, axis: Axis, index: usize) -> ArrayBase<S, D::Smaller>
        requires axis { axis.0 < length self.lengths }
        requires within { index < slice_index self.lengths axis.0 }
        ensures value { result ≡ axis_item self axis.0 index }
        ensures axes { D.Smaller.has_axes (length result.lengths) }
        ensures whole { IsGrid result }
    {
        let _axes = self.ndim();
        let ArrayBase { storage, layout } = self;
        ArrayBase {
            storage,
            layout: layout.item(axis, index),
        }
    }
}

impl<S: DataMut, D: Lengths> ArrayBase<S, D> {
    /// A view to write in of the indices that a slice takes on an axis, in the slice's order.
    ///
    /// Requires what `slice_axis` requires; check with `slice_ok`.
    ///
    /// ```
    /// // a = [[1, 2, 3], [4, 5, 6]]
    /// a.slice_axis_mut(Axis(1), Slice::new(0, None, 2)).update(|_, x| 0); // a = [[0, 2, 0], [0, 5, 0]]
    /// ```
    pub fn slice_axis_mut(&mut self, axis: Axis, slice: Slice) -> ArrayViewMut<'_, S::Elem, D>
        requires axis { axis.0 < length self.old.lengths }
        requires within { IsSliceOf (slice_index self.old.lengths axis.0) slice }
        ensures value { result ≡ axis_slice self.old axis.0 slice }
        ensures axes { D.has_axes (length result.lengths) }
        ensures whole { IsGrid result }
    {
        let mut view = self.view_mut();
        view.slice_axis_inplace(axis, slice);
        view
    }
}

impl<S: DataMut, D: RemoveAxis> ArrayBase<S, D> {
    /// Item `index` along an axis, as a view to write in.
    ///
    /// Requires an axis below the number of axes (check with `axis_ok`) and an index below its length (compare with `len_of`).
    ///
    /// ```
    /// // a = [[1, 2, 3], [4, 5, 6]]
    /// a.index_axis_mut(Axis(0), 1).update(|_, x| 0); // a = [[1, 2, 3], [0, 0, 0]]
    /// ```
    pub fn index_axis_mut(
        &mut self,
        axis: Axis,
        index: usize,
    ) -> ArrayViewMut<'_, S::Elem, D::Smaller>
        requires axis { axis.0 < length self.old.lengths }
        requires within { index < slice_index self.old.lengths axis.0 }
        ensures value { result ≡ axis_item self.old axis.0 index }
        ensures axes { D.Smaller.has_axes (length result.lengths) }
        ensures whole { IsGrid result }
    {
        self.view_mut().index_axis_move(axis, index)
    }
}

impl<S: Data, D: Dimension> ArrayBase<S, D> {
    /// The array with an axis of length 1 put in at `axis`.
    ///
    /// Requires that the axis is at most the number of axes, and that this number is below 32; compare with `ndim`.
    ///
    /// ```
    /// let row = ArrayView::from_shape(3, &[1, 2, 3])?;
    /// row.insert_axis(Axis(0)); // [[1, 2, 3]]
    /// ```
    pub fn insert_axis(self, axis: Axis) -> ArrayBase<S, D::Larger>
        requires axis { axis.0 ≤ length self.lengths }
        requires room { length self.lengths < 32 }
        ensures value { result ≡ axis_inserted self axis.0 }
        ensures axes { D.Larger.has_axes (length result.lengths) }
        ensures whole { IsGrid result }
    {
        let _axes = self.ndim();
        let ArrayBase { storage, layout } = self;
        ArrayBase {
            storage,
            layout: layout.insert_axis(axis),
        }
    }
}

impl<'a, A, D: Lengths> ArrayView<'a, A, D> {
    /// Splits the view at an index of an axis: into the cells whose index there is below `index`, and the rest.
    ///
    /// Requires an axis below the number of axes (check with `axis_ok`) and an index that is at most
    /// its length (compare with `len_of`).
    ///
    /// ```
    /// let a = ArrayView::from_shape((2, 3), &[1, 2, 3, 4, 5, 6])?;
    /// let (left, right) = a.split_at(Axis(1), 1); // [[1], [4]] and [[2, 3], [5, 6]]
    /// ```
    pub fn split_at(self, axis: Axis, index: usize) -> (Self, Self)
        requires axis { axis.0 < length self.lengths }
        requires within { index ≤ slice_index self.lengths axis.0 }
        ensures first { result.0 ≡ axis_part self.entry axis.0 0 index }
        ensures second { result.1 ≡ axis_part self.entry axis.0 index (slice_index self.entry.lengths axis.0) }
        ensures first_whole { IsGrid result.0 }
        ensures second_whole { IsGrid result.1 }
    {
        let len = self.layout.dim.axis(axis.0);
        (
            self.part(axis.0, 0, index),
            self.part(axis.0, index, len - index),
        )
    }

    /// The `len` places of an axis from `from` on.
    pub(crate) fn part(&self, axis: usize, from: usize, len: usize) -> Self
        requires axis { axis < length self.now.lengths }
        requires within { from + len ≤ slice_index self.now.lengths axis }
        ensures value { result ≡ axis_part self.now axis from (from + len) }
        ensures whole { IsGrid result }
    {
        let mut part = self.again();
        part.layout.cut(axis, from, len, 1);
        part
    }
}

impl<'a, A, D: Lengths> ArrayViewMut<'a, A, D> {
    /// Splits the view at an index of an axis: into the cells whose index there is below `index`, and the rest. No cell is in both parts.
    ///
    /// Requires an axis below the number of axes (check with `axis_ok`) and an index that is at most
    /// its length (compare with `len_of`).
    ///
    /// ```
    /// let (mut left, right) = a.view_mut().split_at(Axis(0), 1);
    /// for (x, y) in left.iter_mut().zip(right.iter()) {
    ///     *x += *y;
    /// }
    /// ```
    pub fn split_at(self, axis: Axis, index: usize) -> (Self, Self)
        requires axis { axis.0 < length self.lengths }
        requires within { index ≤ slice_index self.lengths axis.0 }
        ensures first { result.0 ≡ axis_part self.entry axis.0 0 index }
        ensures second { result.1 ≡ axis_part self.entry axis.0 index (slice_index self.entry.lengths axis.0) }
        ensures first_whole { IsGrid result.0 }
        ensures second_whole { IsGrid result.1 }
    {
        let ArrayBase { storage, layout } = self;
        let len = layout.dim.axis(axis.0);
        let mut first = layout.copied();
        first.cut(axis.0, 0, index, 1);
        let mut second = layout;
        second.cut(axis.0, index, len - index, 1);
        let (here, rest) = storage.split(&first);
        (
            ArrayBase {
                storage: here,
                layout: first,
            },
            ArrayBase {
                storage: rest,
                layout: second,
            },
        )
    }
}
