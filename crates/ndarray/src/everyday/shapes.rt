//! The lengths of arrays, the rows and columns of matrices, and the first and last cell.

ghost use Rattle.std.specs.Prelude.{◌≡◌, ◌↔◌, ◌<◌, ◌-◌, ◌^◌, IsTrue, length, slice_get, slice_index};
ghost use Rattle.std.specs.Option.{option_copied};
ghost use Rattle.ndarray.specs.Grid.{IsGrid};
ghost use Rattle.ndarray.specs.Index.{size};
ghost use Rattle.ndarray.specs.Views.{axis_item};

use crate::base::array::{ArrayBase, ArrayView1, ArrayViewMut1};
use crate::base::axis::Axis;
use crate::base::dimension::{Dimension, Ix2, Lengths};
use crate::base::storage::{Data, DataMut};

impl<S: Data, D: Lengths> ArrayBase<S, D> {
    /// Whether the array has no cells.
    ///
    /// ```
    /// let a = ArrayView::<i32, _>::from_shape((0, 3), &[])?;
    /// assert!(a.is_empty());
    /// ```
    pub fn is_empty(&self) -> bool
        ensures size { IsTrue result ↔ (size self.now.lengths ≡ 0) }
        ensures cells { IsTrue result ↔ (length self.now.cells ≡ 0) }
    {
        self.len() == 0
    }

    /// The first cell in row order, or `None` if there is no cell.
    ///
    /// ```
    /// let a = ArrayView::from_shape((2, 2), &[1, 2, 3, 4])?;
    /// assert_eq!(a.first(), Some(&1));
    /// ```
    pub fn first(&self) -> Option<&S::Elem>
        ensures { option_copied result ≡ slice_get self.now.cells 0 }
    {
        self.iter().next()
    }

    /// The last cell in row order, or `None` if there is no cell.
    ///
    /// ```
    /// let a = ArrayView::from_shape((2, 2), &[1, 2, 3, 4])?;
    /// assert_eq!(a.last(), Some(&4));
    /// ```
    pub fn last(&self) -> Option<&S::Elem>
        ensures { option_copied result ≡ slice_get self.now.cells (length self.now.cells - 1) }
    {
        let mut index = self.raw_dim();
        for axis in 0..self.ndim() {
            index.set_axis(axis, index.axis(axis).saturating_sub(1));
        }
        self.cell(&index)
    }
}

impl<S: Data, D: Dimension> ArrayBase<S, D> {
    /// The lengths as a pattern: `()` without axes, a `usize` for one axis, a tuple for two to six, and an `IxDyn` for `IxDyn`.
    ///
    /// ```
    /// let a = ArrayView::from_shape((2, 3), &[1, 2, 3, 4, 5, 6])?;
    /// let (rows, columns) = a.dim(); // 2 and 3
    /// ```
    pub fn dim(&self) -> D::Pattern
        ensures { D.pattern_numbers result ≡ self.now.lengths }
    {
        self.raw_dim().into_pattern()
    }
}

impl<S: Data> ArrayBase<S, Ix2> {
    /// The number of rows, which is the length of axis 0.
    ///
    /// ```
    /// let a = ArrayView::from_shape((2, 3), &[1, 2, 3, 4, 5, 6])?;
    /// assert_eq!(a.nrows(), 2);
    /// ```
    pub fn nrows(&self) -> usize
        ensures value { result ≡ slice_index self.now.lengths 0 }
        ensures fits { result < 2 ^ 63 }
    {
        let _axes = self.ndim();
        self.len_of(Axis(0))
    }

    /// The number of columns, which is the length of axis 1.
    ///
    /// ```
    /// let a = ArrayView::from_shape((2, 3), &[1, 2, 3, 4, 5, 6])?;
    /// assert_eq!(a.ncols(), 3);
    /// ```
    pub fn ncols(&self) -> usize
        ensures value { result ≡ slice_index self.now.lengths 1 }
        ensures fits { result < 2 ^ 63 }
    {
        let _axes = self.ndim();
        self.len_of(Axis(1))
    }

    /// Row `index`, which is item `index` along axis 0.
    ///
    /// Requires an index below the number of rows; compare with `nrows`.
    ///
    /// ```
    /// let a = ArrayView::from_shape((2, 3), &[1, 2, 3, 4, 5, 6])?;
    /// a.row(1); // [4, 5, 6]
    /// ```
    pub fn row(&self, index: usize) -> ArrayView1<'_, S::Elem>
        requires { index < slice_index self.now.lengths 0 }
        ensures value { result ≡ axis_item self.now 0 index }
        ensures axes { length result.lengths ≡ 1 }
        ensures whole { IsGrid result }
    {
        let _axes = self.ndim();
        self.index_axis(Axis(0), index)
    }

    /// Column `index`, which is item `index` along axis 1.
    ///
    /// Requires an index below the number of columns; compare with `ncols`.
    ///
    /// ```
    /// let a = ArrayView::from_shape((2, 3), &[1, 2, 3, 4, 5, 6])?;
    /// a.column(1); // [2, 5]
    /// ```
    pub fn column(&self, index: usize) -> ArrayView1<'_, S::Elem>
        requires { index < slice_index self.now.lengths 1 }
        ensures value { result ≡ axis_item self.now 1 index }
        ensures axes { length result.lengths ≡ 1 }
        ensures whole { IsGrid result }
    {
        let _axes = self.ndim();
        self.index_axis(Axis(1), index)
    }
}

impl<S: DataMut> ArrayBase<S, Ix2> {
    /// Row `index`, as a view to write in.
    ///
    /// Requires an index below the number of rows; compare with `nrows`.
    ///
    /// ```
    /// // a = [[1, 2, 3], [4, 5, 6]]
    /// a.row_mut(1).fill(0); // a = [[1, 2, 3], [0, 0, 0]]
    /// ```
    pub fn row_mut(&mut self, index: usize) -> ArrayViewMut1<'_, S::Elem>
        requires { index < slice_index self.old.lengths 0 }
        ensures value { result ≡ axis_item self.old 0 index }
        ensures axes { length result.lengths ≡ 1 }
        ensures whole { IsGrid result }
    {
        let _axes = self.ndim();
        self.index_axis_mut(Axis(0), index)
    }

    /// Column `index`, as a view to write in.
    ///
    /// Requires an index below the number of columns; compare with `ncols`.
    ///
    /// ```
    /// // a = [[1, 2, 3], [4, 5, 6]]
    /// a.column_mut(1).fill(0); // a = [[1, 0, 3], [4, 0, 6]]
    /// ```
    pub fn column_mut(&mut self, index: usize) -> ArrayViewMut1<'_, S::Elem>
        requires { index < slice_index self.old.lengths 1 }
        ensures value { result ≡ axis_item self.old 1 index }
        ensures axes { length result.lengths ≡ 1 }
        ensures whole { IsGrid result }
    {
        let _axes = self.ndim();
        self.index_axis_mut(Axis(1), index)
    }
}
