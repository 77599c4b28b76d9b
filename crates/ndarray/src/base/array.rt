//! Arrays and views, and what they mean: their lengths and their cells.

ghost use Rattle.std.specs.Prelude.{◌≡◌, List, ℕ, ◌<◌, ◌^◌, length, slice_index, ◌↔◌, IsSome, Some, ⊤};
ghost use Rattle.std.specs.Option.{option_copied, option_copied_mut};
ghost use Rattle.std.specs.Borrow.{sem};
ghost use Rattle.ndarray.specs.Index.{InBox, size};
ghost use Rattle.ndarray.specs.Grid.{cell, IsGrid, IsKnownByCells};
ghost use Rattle.ndarray.specs.Limits.{IsWithinLimit};
ghost use Rattle.ndarray.specs.Writes.{lends_cell};

use crate::base::axis::Axis;
use crate::base::dimension::{Dimension, Ix1, Lengths};
use crate::base::into_dimension::IntoDimension;
use crate::base::layout::Layout;
use crate::base::region::{Life, RegionRepr};
use crate::base::storage::{CowRepr, Data, DataMut, OwnedRepr, ViewRepr};
use std::alloc::AllocError;
use std::marker::Model;

/// An array of any number of axes, over a storage `S` and with lengths of the type `D`.
///
/// A contract sees an array as its lengths and its cells, in row order, and nothing else of it. Where the cells lie in memory changes how
/// fast a call is, never its result.
///
/// ```
/// let a = Array::from_shape_vec((2, 3), vec![in alloc; 1i64, 2, 3, 4, 5, 6]?)?; // [[1, 2, 3], [4, 5, 6]]
/// assert_eq!(a.get((1, 0)), Some(&4));
/// assert_eq!(a.t().shape(), &[3, 2]);
/// if a.sums_fit() {
///     assert_eq!(a.sum(), 21);
/// }
/// let twice = (&a + &a)?; // if `a.add_fits(&a)`
/// ```
///
/// # Storages
///
/// [`Array`] owns its cells, [`ArrayView`] reads those of a slice or of another array, [`ArrayViewMut`] reads and writes them, and
/// [`CowArray`] either reads or owns its cells. A function over `S: Data` takes all four, one over `S: DataMut` those that may be written
/// in.
///
/// # Dimensions
///
/// [`Ix0`](crate::Ix0) to [`Ix6`](crate::Ix6) have a fixed number of axes, [`IxDyn`](crate::IxDyn) has any number up to 32. The lengths
/// that are not 0 multiply to at most `isize::MAX`; this also holds if there are no cells. A shape is written `3`, `(2, 3)`, `Ix2(2, 3)` or
/// `IxDyn(&[2, 3])`, with `.f()` behind it for column order in memory.
///
/// # Making arrays
///
/// - `zeros`, `from_elem`: arrays of equal cells. `from_shape_vec`: an array of a vector's elements, without a copy.
/// - `ArrayView::from_shape`, `ArrayView::from`: views of slices and arrays.
/// - [`to_owned`](Self::to_owned), [`into_owned`](Self::into_owned): copies. [`map_collect`](crate::Zip) of a [`Zip`](crate::Zip): computed
///   cells.
/// - [`concatenate`](crate::concatenate), [`stack`](crate::stack): joined arrays; `append`, `push`: arrays that grow. `triu`, `tril`: triangles.
///
/// # Lengths and cells
///
/// - [`ndim`](Self::ndim), [`shape`](Self::shape), [`raw_dim`](Self::raw_dim), [`len`](Self::len), [`len_of`](Self::len_of): lengths.
/// - [`get`](Self::get), [`get_mut`](Self::get_mut): one cell. [`as_slice`](Self::as_slice): all cells, if they lie side by side in row
///   order.
///
/// # Views, without a copy
///
/// - [`view`](Self::view), [`view_mut`](Self::view_mut): the whole array.
/// - [`t`](Self::t), [`reversed_axes`](Self::reversed_axes), [`swap_axes`](Self::swap_axes), [`invert_axis`](Self::invert_axis): axes
///   exchanged or reversed.
/// - [`slice_axis`](Self::slice_axis), [`index_axis`](Self::index_axis), `split_at`: parts. [`insert_axis`](Self::insert_axis): one more
///   axis.
/// - [`broadcast`](Self::broadcast): lengths of 1 stretched. [`into_dimensionality`](Self::into_dimensionality): another type of dimension.
///
/// # Iterating
///
/// - [`iter`](Self::iter), [`iter_mut`](Self::iter_mut), [`indexed_iter`](Self::indexed_iter), `indexed_iter_mut`, `into_iter`: cells in
///   row order.
/// - `outer_iter`, `axis_iter`, `rows`, `columns`, `lanes`: subviews along an axis. `axis_chunks_iter`, `exact_chunks`: chunks. `windows`,
///   `windows_with_stride`, `axis_windows`: windows. Most have a form with `_mut`.
/// - [`Zip`](crate::Zip): several arrays in lock step, in the order that suits their memory layouts.
/// - `update`, `scan_lanes`: cells changed in place.
///
/// # Computing
///
/// - `+ - * / % & | ^ << >>`, `-`, `!` and the assigning forms (see the head of the crate), [`scalar_left`](crate::scalar_left),
///   `try_zip_assign`.
/// - `sum`, `product`, `sum_axis`, `product_axis`, `cumprod`, `diff`; [`dot`](crate::linalg::Dot), [`kron`](crate::linalg::kron),
///   [`general_mat_mul`](crate::linalg::general_mat_mul), `scaled_add`; [`conv_valid`](crate::conv::conv_valid),
///   [`conv_full`](crate::conv::conv_full).
/// - Arithmetic that could leave the range of its type requires that it does not. For integers there are tests: `sums_fit`, `products_fit`,
///   `dot_fits`, `add_fits` and the like.
///
/// # Errors
///
/// A call that allocates takes `alloc` and returns a `Result`. Its error is an allocation failure, and leaves borrowed arrays as they were.
/// A shape at fault is a [`ShapeError`](crate::ShapeError). A call requires that its axis, index or slice is in bounds, so that a proved
/// program makes no other call. Tests for this are [`axis_ok`](Self::axis_ok), [`slice_ok`](Self::slice_ok) and the like.
#[derive(Drop)]
pub struct ArrayBase<S: Data, D: Lengths> {
    pub(crate) storage: S,
    pub(crate) layout: Layout<D>,
}

/// An array that owns its cells.
pub type Array<A, D> = ArrayBase<OwnedRepr<A>, D>;

/// A view to read: the cells are those of a slice or of another array.
pub type ArrayView<'a, A, D> = ArrayBase<ViewRepr<'a, A>, D>;

/// A one-dimensional view to read.
pub type ArrayView1<'a, A> = ArrayView<'a, A, Ix1>;

/// A view to read and to write in.
pub type ArrayViewMut<'a, A, D> = ArrayBase<RegionRepr<Life<'a>, A>, D>;

/// A one-dimensional view to read and to write in.
pub type ArrayViewMut1<'a, A> = ArrayViewMut<'a, A, Ix1>;

/// An array that either reads its cells, as a view does, or owns them.
pub type CowArray<'a, A, D> = ArrayBase<CowRepr<'a, A>, D>;

impl<S: Data, D: Lengths> Model for ArrayBase<S, D> {
    ghost use Rattle.ndarray.specs.Grid.{Grid};

    ghost Value = { Grid S.Elem };

    ghost use Rattle.ndarray.specs.base.Places.{grid_at, Reaches};

    ghost view = { λ a. grid_at (S.at a.storage) (D.numbers a.layout.dim) a.layout.start (D.numbers a.layout.strides) };

    ghost invariant = { λ a. Reaches (S.apart a.storage) (S.at a.storage) (D.numbers a.layout.dim) a.layout.start (D.numbers a.layout.strides) };
}

impl<S: Data, D: Lengths> ArrayBase<S, D> {
    /// The number of axes.
    ///
    /// ```
    /// let a = ArrayView::from_shape((2, 3), &[1, 2, 3, 4, 5, 6])?;
    /// assert_eq!(a.ndim(), 2);
    /// ```
    pub fn ndim(&self) -> usize
        ensures value { result ≡ length self.now.lengths }
        ensures axes { D.has_axes (length self.now.lengths) }
    {
        self.layout.dim.ndim()
    }

    /// The lengths, that of axis 0 first.
    ///
    /// ```
    /// let a = ArrayView::from_shape((2, 3), &[1, 2, 3, 4, 5, 6])?;
    /// assert_eq!(a.shape(), &[2, 3]);
    /// assert_eq!(a.t().shape(), &[3, 2]);
    /// ```
    pub fn shape(&self) -> &[usize]
        ensures value { result.now ≡ self.now.lengths }
        ensures axes { D.has_axes (length self.now.lengths) }
    {
        self.layout.dim.slice()
    }

    /// The lengths as a dimension.
    ///
    /// ```
    /// let a = ArrayView::from_shape((2, 3), &[1, 2, 3, 4, 5, 6])?;
    /// let (rows, columns) = a.raw_dim().into_pattern(); // 2 and 3
    /// let zeros = Array::<i32, _>::zeros(alloc, a.raw_dim())?;
    /// ```
    pub fn raw_dim(&self) -> D
        ensures lengths { D.numbers result ≡ self.now.lengths }
        ensures axes { D.has_axes (length self.now.lengths) }
        ensures limit { IsWithinLimit self.now.lengths }
        ensures whole { IsGrid self.now }
    {
        self.layout.dim.copied()
    }

    /// The number of cells.
    ///
    /// ```
    /// let a = ArrayView::from_shape((2, 3), &[1, 2, 3, 4, 5, 6])?;
    /// assert_eq!(a.len(), 6);
    /// ```
    pub fn len(&self) -> usize
        ensures size { result ≡ size self.now.lengths }
        ensures cells { result ≡ length self.now.cells }
    {
        self.layout.dim.size()
    }

    /// The length of an axis.
    ///
    /// Requires an axis below the number of axes; check with `axis_ok`.
    ///
    /// ```
    /// let a = ArrayView::from_shape((2, 3), &[1, 2, 3, 4, 5, 6])?;
    /// assert_eq!(a.len_of(Axis(1)), 3);
    /// ```
    pub fn len_of(&self, axis: Axis) -> usize
        requires { axis.0 < length self.now.lengths }
        ensures value { result ≡ slice_index self.now.lengths axis.0 }
        ensures axes { D.has_axes (length self.now.lengths) }
        ensures fits { result < 2 ^ 63 }
    {
        self.layout.dim.slice()[axis.0]
    }

    /// The cell at an index list, or `None` outside the box.
    pub(crate) fn cell(&self, index: &D) -> Option<&S::Elem>
        ensures value { option_copied result ≡ cell self.now (D.numbers index.now) }
        ensures within { IsSome result ↔ InBox self.now.lengths (D.numbers index.now) }
    {
        match self.layout.find(index) {
            Some(place) => Some(self.storage.element(place)),
            None => None,
        }
    }

    /// A view to read, with the lengths and cells of the array.
    ///
    /// In a contract the view equals the array, as it has the same lengths and cells.
    ///
    /// ```
    /// let zeros = Array::<i32, _>::zeros(alloc, (2, 3))?;
    /// let mut view = zeros.view();
    /// view.invert_axis(Axis(0)); // reverses an axis of the view, not of the array
    /// ```
    pub fn view(&self) -> ArrayView<'_, S::Elem, D>
        ensures same { result ≡ self.now }
        ensures axes { D.has_axes (length self.now.lengths) }
        ensures whole { IsGrid result }
        ensures known { IsKnownByCells result }
    {
        ArrayBase {
            storage: self.storage.seen(),
            layout: self.layout.copied(),
        }
    }
}

impl<S: Data, D: Dimension> ArrayBase<S, D> {
    /// The cell at an index list, or `None` exactly outside the box.
    ///
    /// ```
    /// let view = ArrayView::from_shape((2, 3), &[1, 2, 3, 4, 5, 6])?;
    /// assert_eq!(view.get((1, 0)), Some(&4));
    /// assert_eq!(view.get((0, 3)), None);
    /// ```
    pub fn get<I: IntoDimension<Dim = D>>(&self, index: I) -> Option<&S::Elem>
        ensures value { option_copied result ≡ cell self.now (I.written_numbers index) }
        ensures within { IsSome result ↔ InBox self.now.lengths (I.written_numbers index) }
    {
        self.cell(&index.into_dimension())
    }
}

impl<S: DataMut, D: Lengths> ArrayBase<S, D> {
    /// The cell at an index list, to write to, or `None` outside the box.
    #[inline(always)]
    pub(crate) fn cell_mut(&mut self, index: &D) -> Option<&mut S::Elem>
        ensures* writes_back { sem 𝓛 (lends_cell S.row D.row S.Elem.row S.Data D.Lengths self.entry (D.numbers index.now) result) }
        ensures value { option_copied_mut result ≡ cell self.old (D.numbers index.now) }
        ensures within { IsSome result ↔ InBox self.old.lengths (D.numbers index.now) }
    {
        match self.layout.find(index) {
            Some(place) => Some(self.storage.element_mut(place)),
            None => None,
        }
    }
}

impl<S: DataMut, D: Dimension> ArrayBase<S, D> {
    /// The cell at an index list, to write to, or `None` exactly outside the box.
    ///
    /// A write through it changes that cell alone.
    ///
    /// ```
    /// let mut array = Array::zeros(alloc, (2, 3))?;
    /// if let Some(cell) = array.get_mut((1, 0)) {
    ///     *cell = 7;
    /// }
    /// ```
    pub fn get_mut<I: IntoDimension<Dim = D>>(&mut self, index: I) -> Option<&mut S::Elem>
        ensures* writes_back { sem 𝓛 (lends_cell S.row D.row S.Elem.row S.Data D.Lengths self.entry (I.written_numbers index) result) }
        ensures value { option_copied_mut result ≡ cell self.old (I.written_numbers index) }
        ensures within { IsSome result ↔ InBox self.old.lengths (I.written_numbers index) }
    {
        self.cell_mut(&index.into_dimension())
    }
}

impl<'a, A, D: Lengths> ArrayView<'a, A, D> {
    /// A copy of the view.
    pub(crate) fn again(&self) -> ArrayView<'a, A, D>
        ensures same { result ≡ self.now }
        ensures whole { IsGrid result }
    {
        ArrayBase {
            storage: self.storage,
            layout: self.layout.copied(),
        }
    }

    /// The cell at an index list of the box.
    pub(crate) fn item(&self, index: &D) -> &'a A
        requires { InBox self.now.lengths (D.numbers index.now) }
        ensures { cell self.now (D.numbers index.now) ≡ Some result.now }
    {
        self.storage.get(self.layout.place(index))
    }
}

impl<'a, A, D: Lengths> Clone for ArrayView<'a, A, D> {
    ghost is_clone = { λ s r. r ≡ s };

    ghost is_infallible = { λ _. ⊤ };

    fn clone(&self) -> Result<ArrayView<'a, A, D>, AllocError> {
        Ok(self.again())
    }
}
