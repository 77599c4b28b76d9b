//! The cells of an array under other lengths.

ghost use Rattle.std.specs.Prelude.{◌≡◌, ◌↔◌, IfOk, IsOk, IsTrue, length};
ghost use Rattle.ndarray.specs.Elementwise.{ClonesAreEqual};
ghost use Rattle.ndarray.specs.Grid.{IsGrid, grid};
ghost use Rattle.ndarray.specs.Index.{size};
ghost use Rattle.ndarray.specs.Limits.{IsWithinLimit};

use crate::base::array::{ArrayBase, ArrayView, CowArray};
use crate::base::builder::ArrayBuilder;
use crate::base::dimension::{Dimension, Lengths};
use crate::base::into_dimension::IntoDimension;
use crate::base::storage::Data;
use crate::iter::row_elements::RowElements;
use crate::order::Order;
use crate::stacking::blocks::push_clones;
use std::alloc::{AllocError, Global};

impl<S: Data, D: Lengths> ArrayBase<S, D> {
    /// Whether `to_shape` may be called with these lengths: they ask for as many cells as the array has, and the nonzero ones multiply to
    /// at most `isize::MAX`.
    ///
    /// ```
    /// let a = ArrayView::from_shape((2, 3), &[1, 2, 3, 4, 5, 6])?;
    /// assert!(a.to_shape_ok((3, 2)));
    /// assert!(!a.to_shape_ok((2, 2)));
    /// ```
    pub fn to_shape_ok<I: IntoDimension>(&self, shape: I) -> bool
        ensures { IsTrue result ↔ (IsWithinLimit (I.written_numbers shape) × (size (I.written_numbers shape) ≡ size self.now.lengths)) }
    {
        let dim = shape.into_dimension();
        dim.size_ok() && dim.size() == self.len()
    }
}

impl<A: Clone, S: Data<Elem = A>, D: Lengths> ArrayBase<S, D> {
    /// The array with other lengths and the same cells in row order. It borrows the cells if they lie side by side in row order; else it
    /// owns clones of them.
    ///
    /// Requires that the lengths ask for as many cells as the array has and the nonzero ones multiply to at most `isize::MAX`, which
    /// `to_shape_ok` tests; and that each clone equals its source. The error is an allocation failure, for the array or for a clone, and is
    /// never reported if there are no cells.
    ///
    /// ```
    /// let a = ArrayView::from_shape((2, 3), &[1, 2, 3, 4, 5, 6])?;
    /// a.to_shape(alloc, (3, 2))?; // [[1, 2], [3, 4], [5, 6]]
    /// a.t().to_shape(alloc, 6)?; // [1, 4, 2, 5, 3, 6]
    /// ```
    pub fn to_shape<I: IntoDimension>(
        &self,
        alloc: Global,
        shape: I,
    ) -> Result<CowArray<'_, A, I::Dim>, AllocError>
        requires limit { IsWithinLimit (I.written_numbers shape) }
        requires same { size (I.written_numbers shape) ≡ size self.now.lengths }
        requires clones { ClonesAreEqual A.is_clone }
        ensures value { IfOk result (λ b. b ≡ grid (I.written_numbers shape) self.now.cells) }
        ensures axes { IfOk result (λ b. I.Dim.has_axes (length b.lengths)) }
        ensures whole { IfOk result IsGrid }
        ensures empty { size self.now.lengths ≡ 0 → IsOk result }
    {
        let _whole = self.raw_dim();
        let dim = shape.into_dimension();
        match self.as_slice() {
            Some(cells) => Ok(CowArray::from(over_slice(dim, cells))),
            None => cloned_to(alloc, self.view(), dim),
        }
    }
}

/// The view of a slice's elements, which are its cells in row order.
fn over_slice<'a, A, E: Dimension>(dim: E, cells: &'a [A]) -> ArrayView<'a, A, E>
    requires limit { IsWithinLimit (E.numbers dim) }
    requires many { size (E.numbers dim) ≡ length cells.now }
    ensures value { result ≡ grid (E.numbers dim) cells.now }
    ensures axes { E.has_axes (length result.lengths) }
    ensures whole { IsGrid result }
{
    match ArrayView::from_shape(dim, cells) {
        Ok(view) => view,
        Err(_error) => unreachable!(),
    }
}

/// An array of other lengths with clones of a view's cells, in row order.
fn cloned_to<'a, A: Clone, D: Lengths, E: Lengths>(
    alloc: Global,
    view: ArrayView<'_, A, D>,
    dim: E,
) -> Result<CowArray<'a, A, E>, AllocError>
    requires limit { IsWithinLimit (E.numbers dim) }
    requires same { size (E.numbers dim) ≡ length view.cells }
    requires clones { ClonesAreEqual A.is_clone }
    ensures value { IfOk result (λ b. b ≡ grid (E.numbers dim) view.entry.cells) }
    ensures axes { IfOk result (λ b. E.has_axes (length b.lengths)) }
    ensures whole { IfOk result IsGrid }
    ensures empty { size (E.numbers dim) ≡ 0 → IsOk result }
{
    let _whole = view.raw_dim();
    let mut builder = ArrayBuilder::with_capacity(alloc, dim, Order::RowMajor)?;
    push_clones(&mut builder, RowElements::in_order(view, Order::RowMajor))?;
    let array = builder.finish();
    Ok(array)
}
