//! Making arrays: views over slices, arrays that own their cells, and arrays by `From`.

ghost use Rattle.std.specs.Prelude.{◌≡◌, ◌≢◌, ◌↔◌, ◌<◌, ◌≤◌, ◌-◌, ◌^◌, [], ◌∷◌, length, min, replicate, take, IsOk, IfOk, IsErrOf};
ghost use Rattle.std.specs.List.{AllClonesOf};
ghost use Rattle.ndarray.specs.Errors.{shape_error};
ghost use Rattle.ndarray.specs.Grid.{IsGrid, IsKnownByCells, one_axis};
ghost use Rattle.ndarray.specs.declared.base.error.ErrorKind.TheVariants.{OutOfBounds, Overflow};
ghost use Rattle.ndarray.specs.declared.base.shape.Order.TheVariants.{RowMajor};
ghost use Rattle.ndarray.specs.Index.{size};
ghost use Rattle.ndarray.specs.Limits.{IsWithinLimit};
ghost use Rattle.ndarray.specs.Orders.{HasInOrder, cells_in};

use crate::base::array::{Array, ArrayBase, ArrayView, ArrayView1, ArrayViewMut1, CowArray};
use crate::base::builder::ArrayBuilder;
use crate::base::dimension::{Dimension, Ix1, Lengths};
use crate::base::error::{ErrorKind, ShapeError};
use crate::base::layout::{Layout, default_strides};
use crate::base::shape::{Order, Shape, ShapeBuilder};
use crate::base::storage::{CowRepr, Data, DataOwned, ViewRepr};
use crate::base::view_mut::Parts;
use num_traits::Zero;
use std::alloc::{AllocError, Global};

impl<'a, A, D: Dimension> ArrayView<'a, A, D> {
    /// A view of a slice's first elements, as many as the shape has cells: they are its cells in row order, or in column order if the shape
    /// has `.f()`.
    ///
    /// The error is `Overflow` for a shape whose nonzero lengths multiply to more than `isize::MAX`, and otherwise `OutOfBounds` for a
    /// slice with fewer elements than the shape has cells.
    ///
    /// ```
    /// let rows = ArrayView::from_shape((2, 3), &[1, 2, 3, 4, 5, 6])?;
    /// let same = ArrayView::from_shape((2, 3).f(), &[1, 4, 2, 5, 3, 6])?;
    /// ```
    pub fn from_shape<Sh: ShapeBuilder<Dim = D>>(
        shape: Sh,
        slice: &'a [A],
    ) -> Result<Self, ShapeError>
        ensures accepts { IsOk result ↔ (IsWithinLimit (Sh.shape_lengths shape) × (size (Sh.shape_lengths shape) ≤ length slice.now)) }
        ensures overflow { IsErrOf result (shape_error Overflow) ↔ (IsWithinLimit (Sh.shape_lengths shape) → ⊥) }
        ensures short { IsErrOf result (shape_error OutOfBounds) ↔ (IsWithinLimit (Sh.shape_lengths shape) × (length slice.now < size (Sh.shape_lengths shape))) }
        ensures lengths { IfOk result (λ v. v.lengths ≡ Sh.shape_lengths shape) }
        ensures axes { IfOk result (λ v. D.has_axes (length v.lengths)) }
        ensures cells { IfOk result (λ v. HasInOrder (Sh.shape_order shape) v (take (size v.lengths) slice.now)) }
        ensures list { IfOk result (λ v. cells_in (Sh.shape_order shape) v ≡ take (size v.lengths) slice.now) }
        ensures row_major { Sh.shape_order shape ≡ RowMajor → IfOk result (λ v. v.cells ≡ take (size v.lengths) slice.now) }
        ensures whole { IfOk result IsGrid }
    {
        let Shape { dim, order } = shape.into_shape_with_order();
        if !dim.size_ok() {
            return Err(ShapeError::from_kind(ErrorKind::Overflow));
        }
        if dim.size() > slice.len() {
            return Err(ShapeError::from_kind(ErrorKind::OutOfBounds));
        }
        let strides = default_strides(&dim, order);
        Ok(ArrayBase {
            storage: ViewRepr::new(slice),
            layout: Layout {
                start: 0,
                dim,
                strides,
            },
        })
    }
}

/// How the elements of a slice lie in one axis: all of them, or as many as a shape may have. Only a
/// slice of elements of size zero has more.
fn one_axis_layout(len: usize) -> Layout<Ix1>
    ensures start { result.start ≡ 0 }
    ensures dim { result.dim.0 ≡ min (2 ^ 63 - 1) len ∷ [] }
    ensures strides { result.strides.0 ≡ 1 ∷ [] }
{
    Layout {
        start: 0,
        dim: Ix1((isize::MAX as usize).min(len)),
        strides: Ix1(1),
    }
}

impl<'a, A> From<&'a [A]> for ArrayView1<'a, A> {
    /// The view whose cells are the slice's elements. If the slice has more than `isize::MAX` elements, which is possible only for elements
    /// of size zero, the view has the first `isize::MAX`.
    ///
    /// ```
    /// let row = ArrayView1::from([1, 2, 3].as_slice()); // [1, 2, 3]
    /// ```
    fn from(slice: &'a [A]) -> Self
        ensures cells { length slice.now < 2 ^ 63 → result ≡ one_axis slice.now }
        ensures limited { result ≡ one_axis (take (2 ^ 63 - 1) slice.now) }
        ensures whole { IsGrid result }
    {
        ArrayBase {
            layout: one_axis_layout(slice.len()),
            storage: ViewRepr::new(slice),
        }
    }
}

impl<'a, A> From<&'a mut [A]> for ArrayViewMut1<'a, A> {
    /// The view to write in whose cells are the slice's elements. If the slice has more than `isize::MAX` elements, which is possible only
    /// for elements of size zero, the view has the first `isize::MAX`.
    ///
    /// ```
    /// // numbers, a `&mut [i64]`, becomes 0, 0, 0
    /// ArrayViewMut1::from(numbers).fill(0);
    /// ```
    fn from(slice: &'a mut [A]) -> Self
        ensures cells { length slice.old < 2 ^ 63 → result ≡ one_axis slice.old }
        ensures limited { result ≡ one_axis (take (2 ^ 63 - 1) slice.old) }
        ensures whole { IsGrid result }
    {
        let layout = one_axis_layout(slice.len());
        Parts { slice, layout }.into_view()
    }
}

impl<'a, S: Data, D: Lengths> From<&'a ArrayBase<S, D>> for ArrayView<'a, S::Elem, D> {
    /// The view of an array that `view` returns.
    ///
    /// ```
    /// let view = ArrayView::from(&table); // the view that `view` returns
    /// ```
    fn from(array: &'a ArrayBase<S, D>) -> Self
        ensures same { result ≡ array.now }
        ensures axes { D.has_axes (length result.lengths) }
        ensures whole { IsGrid result }
        ensures known { IsKnownByCells result }
    {
        array.view()
    }
}

impl<A, S: DataOwned<Elem = A>, D: Lengths> ArrayBase<S, D> {
    /// The array whose cells in the order are the vector's elements, one for each index list.
    pub(crate) fn from_elements(dim: D, order: Order, items: Vec<A>) -> Self
        requires limit { IsWithinLimit (D.numbers dim) }
        requires many { length items.items ≡ size (D.numbers dim) }
        ensures lengths { result.lengths ≡ D.numbers dim }
        ensures axes { D.has_axes (length result.lengths) }
        ensures cells { HasInOrder order result items.items }
        ensures list { cells_in order result ≡ items.items }
        ensures whole { IsGrid result }
    {
        let strides = default_strides(&dim, order);
        ArrayBase {
            storage: S::new(items),
            layout: Layout {
                start: 0,
                dim,
                strides,
            },
        }
    }
}

impl<A: Drop, D: Lengths> Array<A, D> {
    /// The allocator of its storage.
    pub(crate) fn allocator(&self) -> Global {
        *self.storage.items.allocator()
    }
}

impl<A: Drop, S: DataOwned<Elem = A>, D: Dimension> ArrayBase<S, D> {
    /// The array that takes over a vector with one element for each cell of the shape: they are its cells in row order, or in column order
    /// if the shape has `.f()`.
    ///
    /// The error is `Overflow` for a shape whose nonzero lengths multiply to more than `isize::MAX`, and otherwise `OutOfBounds` for a
    /// vector of another length. An error drops the vector.
    ///
    /// ```
    /// let array = Array::from_shape_vec((2, 3), vec![in alloc; 1, 2, 3, 4, 5, 6]?)?;
    /// ```
    pub fn from_shape_vec<Sh: ShapeBuilder<Dim = D>>(
        shape: Sh,
        v: Vec<A>,
    ) -> Result<Self, ShapeError>
        ensures accepts { IsOk result ↔ (IsWithinLimit (Sh.shape_lengths shape) × (size (Sh.shape_lengths shape) ≡ length v.items)) }
        ensures overflow { IsErrOf result (shape_error Overflow) ↔ (IsWithinLimit (Sh.shape_lengths shape) → ⊥) }
        ensures other { IsErrOf result (shape_error OutOfBounds) ↔ (IsWithinLimit (Sh.shape_lengths shape) × (size (Sh.shape_lengths shape) ≢ length v.items)) }
        ensures lengths { IfOk result (λ a. a.lengths ≡ Sh.shape_lengths shape) }
        ensures axes { IfOk result (λ a. D.has_axes (length a.lengths)) }
        ensures cells { IfOk result (λ a. HasInOrder (Sh.shape_order shape) a v.items) }
        ensures list { IfOk result (λ a. cells_in (Sh.shape_order shape) a ≡ v.items) }
        ensures row_major { Sh.shape_order shape ≡ RowMajor → IfOk result (λ a. a.cells ≡ v.items) }
        ensures whole { IfOk result IsGrid }
    {
        let Shape { dim, order } = shape.into_shape_with_order();
        if !dim.size_ok() {
            return Err(ShapeError::from_kind(ErrorKind::Overflow));
        }
        if dim.size() != v.len() {
            return Err(ShapeError::from_kind(ErrorKind::OutOfBounds));
        }
        Ok(ArrayBase::from_elements(dim, order, v))
    }
}

impl<A: Clone, S: DataOwned<Elem = A>, D: Dimension> ArrayBase<S, D> {
    /// The array whose cells are an element and clones of it.
    ///
    /// Requires that the nonzero lengths multiply to at most `isize::MAX`; check with `size_ok` of the dimension. The error is an
    /// allocation failure, for the array or for a clone, and is never reported if the array has no cells.
    ///
    /// ```
    /// let sevens = Array::from_elem(alloc, (2, 1), 7)?;
    /// ```
    pub fn from_elem<Sh: ShapeBuilder<Dim = D>>(
        alloc: Global,
        shape: Sh,
        elem: A,
    ) -> Result<Self, AllocError>
        requires { IsWithinLimit (Sh.shape_lengths shape) }
        ensures lengths { IfOk result (λ a. a.lengths ≡ Sh.shape_lengths shape) }
        ensures axes { IfOk result (λ a. D.has_axes (length a.lengths)) }
        ensures cells { IfOk result (λ a. AllClonesOf A.is_clone elem a.cells) }
        ensures whole { IfOk result IsGrid }
        ensures same { IfOk result (λ a. ((y : A) → A.is_clone elem y → y ≡ elem) → a.cells ≡ replicate (size a.lengths) elem) }
        ensures empty { size (Sh.shape_lengths shape) ≡ 0 → IsOk result }
    {
        let Shape { dim, order } = shape.into_shape_with_order();
        let items = repeated(alloc, elem, dim.size())?;
        Ok(ArrayBase::from_elements(dim, order, items))
    }
}

/// A vector of as many clones of an element, the element itself among them. Of none it allocates nothing.
fn repeated<A: Clone>(alloc: Global, elem: A, count: usize) -> Result<Vec<A>, AllocError>
    ensures len { IfOk result (λ v. length v.items ≡ count) }
    ensures clones { IfOk result (λ v. AllClonesOf A.is_clone elem v.items) }
    ensures same { IfOk result (λ v. ((y : A) → A.is_clone elem y → y ≡ elem) → v.items ≡ replicate count elem) }
    ensures empty { count ≡ 0 → IsOk result }
{
    if count == 0 {
        return Ok(Vec::new(alloc));
    }
    Vec::from_elem(alloc, elem, count)
}

impl<A: Zero + Drop, S: DataOwned<Elem = A>, D: Dimension> ArrayBase<S, D> {
    /// The array whose cells are all zero.
    ///
    /// Requires that the nonzero lengths multiply to at most `isize::MAX`; check with `size_ok` of the dimension. The error is an
    /// allocation failure, and is never reported if the array has no cells.
    ///
    /// ```
    /// let zeros = Array::<i64, Ix2>::zeros(alloc, (2, 3))?;
    /// ```
    pub fn zeros<Sh: ShapeBuilder<Dim = D>>(alloc: Global, shape: Sh) -> Result<Self, AllocError>
        requires { IsWithinLimit (Sh.shape_lengths shape) }
        ensures lengths { IfOk result (λ a. a.lengths ≡ Sh.shape_lengths shape) }
        ensures axes { IfOk result (λ a. D.has_axes (length a.lengths)) }
        ensures cells { IfOk result (λ a. a.cells ≡ replicate (size a.lengths) A.zero) }
        ensures whole { IfOk result IsGrid }
        ensures empty { size (Sh.shape_lengths shape) ≡ 0 → IsOk result }
    {
        let Shape { dim, order } = shape.into_shape_with_order();
        let size = dim.size();
        let mut builder = ArrayBuilder::with_capacity(alloc, dim, order)?;
        builder.push_zeros(size);
        Ok(builder.finish())
    }
}

impl<'a, A: Drop, D: Lengths> From<ArrayView<'a, A, D>> for CowArray<'a, A, D> {
    /// An array with the lengths and cells of the view, whose cells it borrows.
    ///
    /// ```
    /// let array = CowArray::from(table.view());
    /// ```
    fn from(view: ArrayView<'a, A, D>) -> Self
        ensures same { result ≡ view.entry }
        ensures axes { D.has_axes (length result.lengths) }
        ensures whole { IsGrid result }
    {
        let _axes = view.ndim();
        let (storage, layout) = (CowRepr::View(view.storage), view.layout);
        ArrayBase { storage, layout }
    }
}

impl<'a, A: Drop, D: Lengths> From<Array<A, D>> for CowArray<'a, A, D> {
    /// An array with the lengths and cells of the given one, whose cells it takes over.
    ///
    /// ```
    /// let array = CowArray::from(Array::<i64, _>::zeros(alloc, (2, 3))?);
    /// ```
    fn from(array: Array<A, D>) -> Self
        ensures same { result ≡ array }
        ensures axes { D.has_axes (length result.lengths) }
        ensures whole { IsGrid result }
    {
        let _axes = array.ndim();
        let (storage, layout) = (CowRepr::Owned(array.storage), array.layout);
        ArrayBase { storage, layout }
    }
}
