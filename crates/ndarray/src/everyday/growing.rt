//! Arrays that grow along an axis, by clones of the cells of a view.

ghost use Rattle.std.specs.Prelude.{◌≡◌, ◌↔◌, ◌+◌, ◌<◌, ◌≤◌, ◌++◌, ◌∷◌, [], length, insert, slice_index, slice_set, swap, take, Err, IfErr, IfOk, IsOk, None, Some};
ghost use Rattle.ndarray.specs.Elementwise.{ClonesAreEqual};
ghost use Rattle.ndarray.specs.Errors.{shape_error};
ghost use Rattle.ndarray.specs.Grid.{IsGrid, grid};
ghost use Rattle.ndarray.specs.Index.{size};
ghost use Rattle.ndarray.specs.Joining.{concatenate_error, concatenation, concatenation_lengths};
ghost use Rattle.ndarray.specs.Limits.{IsWithinLimit};
ghost use Rattle.ndarray.specs.Views.{axis_inserted};
ghost use Rattle.ndarray.specs.base.Builder.{pushed_all};
ghost use Rattle.ndarray.specs.declared.base.error.ErrorKind.{ErrorKind};
ghost use Rattle.ndarray.specs.declared.base.shape.Order.TheVariants.{RowMajor};
ghost use Rattle.ndarray.specs.declared.stacking.error.StackError.TheVariants.{Shape, Memory};

use crate::base::array::{Array, ArrayBase, ArrayView};
use crate::base::axis::Axis;
use crate::base::builder::ArrayBuilder;
use crate::base::dimension::{Ix1, Ix2, Lengths, RemoveAxis};
use crate::base::error::{ErrorKind, ShapeError};
use crate::base::strided::Strided;
use crate::iter::row_elements::RowElements;
use crate::order::Order;
use crate::stacking::StackError;
use crate::stacking::blocks::push_clones;
use crate::stacking::shapes::is_same_but_along;
use core::mem::replace_with;
use std::alloc::AllocError;

impl<A: Clone, D: RemoveAxis> Array<A, D> {
    /// Puts clones of the cells of a view behind the array along an axis: the array becomes what `concatenate` makes of both.
    ///
    /// The error is the first of these that applies: `OutOfBounds` if the array does not have the axis; `IncompatibleShape` if the view has
    /// another number of axes, or another length on an axis other than this one; `Overflow` if the nonzero lengths of the result multiply
    /// to more than `isize::MAX`. If none applies, the error is an allocation failure, for the array or for a clone, and is never reported
    /// if the result has no cells. An error leaves the array as it was. Requires that each clone equals its source.
    ///
    /// The array grows in place if its elements in memory are its cells, and no others, with this axis slowest: exchanged with axis 0, they
    /// are in row order. So do arrays in row order along axis 0. Otherwise its cells are first moved so, once. Calls along one axis in turn
    /// take time, on average, for the cells that they append.
    ///
    /// ```
    /// let mut a = Array::from_shape_vec((2, 2), vec![in alloc; 1, 2, 3, 4]?)?;
    /// a.append(Axis(1), ArrayView::from_shape((2, 1), &[5, 6])?)?; // [[1, 2, 5], [3, 4, 6]]
    /// ```
    pub fn append(&mut self, axis: Axis, other: ArrayView<'_, A, D>) -> Result<(), StackError>
        requires clones { ClonesAreEqual A.is_clone }
        ensures errors { (k : ErrorKind) → (result ≡ Err (Shape (shape_error k))) ↔ (concatenate_error axis.0 (self.old.lengths ∷ other.entry.lengths ∷ []) ≡ Some k) }
        ensures memory { (e : AllocError) → result ≡ Err (Memory e) → concatenate_error axis.0 (self.old.lengths ∷ other.entry.lengths ∷ []) ≡ None }
        ensures value { IfOk result (λ _. self.new ≡ concatenation axis.0 (self.old ∷ other.entry ∷ [])) }
        ensures first_axis { axis.0 ≡ 0 → IfOk result (λ _. self.new.cells ≡ self.old.cells ++ other.entry.cells) }
        ensures kept { IfErr result (λ _. self.new ≡ self.old) }
        ensures whole { IsGrid self.new }
        ensures axes { D.has_axes (length self.new.lengths) }
        ensures empty { concatenate_error axis.0 (self.old.lengths ∷ other.entry.lengths ∷ []) ≡ None → size (concatenation_lengths axis.0 (self.old.lengths ∷ other.entry.lengths ∷ [])) ≡ 0 → IsOk result }
    {
        let joined = joined_dim(axis, self.raw_dim(), other.raw_dim())?;
        if other.len_of(axis) == 0 {
            return Ok(());
        }
        let mut other = other;
        other.swap_axes(0, axis.0);
        self.swap_axes(0, axis.0);
        let dim = exchanged(joined, axis.0);
        let grown = replace_with(self, Growth { other, dim }, grow);
        self.swap_axes(0, axis.0);
        grown?;
        Ok(())
    }

    /// Puts clones of the cells of a view behind the array as one more item along an axis: [`append`](Self::append) of the view with that
    /// axis put in.
    ///
    /// The error is the first of these that applies: `OutOfBounds` if the array does not have the axis; `IncompatibleShape` if the lengths
    /// of the view are not those of an item; `Overflow` if the nonzero lengths of the result multiply to more than `isize::MAX`. If none
    /// applies, the error is an allocation failure, for the array or for a clone, and is never reported if the result has no cells. An
    /// error leaves the array as it was. Requires that each clone equals its source.
    ///
    /// ```
    /// let mut a = Array::<i64, Ix3>::zeros(alloc, (0, 1, 2))?;
    /// a.push(Axis(0), ArrayView::from_shape((1, 2), &[1, 2])?)?; // [[[1, 2]]]
    /// ```
    pub fn push(&mut self, axis: Axis, item: ArrayView<'_, A, D::Smaller>) -> Result<(), StackError>
        requires clones { ClonesAreEqual A.is_clone }
        ensures errors { (k : ErrorKind) → (result ≡ Err (Shape (shape_error k))) ↔ (concatenate_error axis.0 (self.old.lengths ∷ insert item.entry.lengths axis.0 1 ∷ []) ≡ Some k) }
        ensures memory { (e : AllocError) → result ≡ Err (Memory e) → concatenate_error axis.0 (self.old.lengths ∷ insert item.entry.lengths axis.0 1 ∷ []) ≡ None }
        ensures value { IfOk result (λ _. self.new ≡ concatenation axis.0 (self.old ∷ axis_inserted item.entry axis.0 ∷ [])) }
        ensures first_axis { axis.0 ≡ 0 → IfOk result (λ _. self.new.cells ≡ self.old.cells ++ item.entry.cells) }
        ensures kept { IfErr result (λ _. self.new ≡ self.old) }
        ensures whole { IsGrid self.new }
        ensures axes { D.has_axes (length self.new.lengths) }
        ensures empty { concatenate_error axis.0 (self.old.lengths ∷ insert item.entry.lengths axis.0 1 ∷ []) ≡ None → size (concatenation_lengths axis.0 (self.old.lengths ∷ insert item.entry.lengths axis.0 1 ∷ [])) ≡ 0 → IsOk result }
    {
        let ndim = self.ndim();
        let _own = self.raw_dim();
        if axis.0 >= ndim {
            return Err(StackError::from(ShapeError::from_kind(ErrorKind::OutOfBounds)));
        }
        let _whole = item.raw_dim();
        if item.ndim() != ndim - 1 {
            return Err(StackError::from(ShapeError::from_kind(ErrorKind::IncompatibleShape)));
        }
        self.append(axis, item.with_axis(axis.0, ndim))
    }
}

impl<A: Clone> Array<A, Ix2> {
    /// Puts clones of the cells of a view below the matrix as one more row. Repeated calls are fast for a matrix in row order, as one that
    /// was just made without `.f()`.
    ///
    /// The error is the first of these that applies: `IncompatibleShape` if the row is not as long as those of the matrix; `Overflow` if
    /// the nonzero lengths of the result multiply to more than `isize::MAX`. If none applies, the error is an allocation failure, for the
    /// matrix or for a clone, and is never reported if the result has no cells. An error leaves the matrix as it was. Requires that each
    /// clone equals its source.
    ///
    /// ```
    /// let mut a = Array::<i64, Ix2>::zeros(alloc, (0, 2))?;
    /// a.push_row(ArrayView::from([1, 2].as_slice()))?; // [[1, 2]]
    /// a.push_row(ArrayView::from([3, 4].as_slice()))?; // [[1, 2], [3, 4]]
    /// ```
    pub fn push_row(&mut self, row: ArrayView<'_, A, Ix1>) -> Result<(), StackError>
        requires clones { ClonesAreEqual A.is_clone }
        ensures errors { (k : ErrorKind) → (result ≡ Err (Shape (shape_error k))) ↔ (concatenate_error 0 (self.old.lengths ∷ insert row.entry.lengths 0 1 ∷ []) ≡ Some k) }
        ensures memory { (e : AllocError) → result ≡ Err (Memory e) → concatenate_error 0 (self.old.lengths ∷ insert row.entry.lengths 0 1 ∷ []) ≡ None }
        ensures value { IfOk result (λ _. self.new ≡ concatenation 0 (self.old ∷ axis_inserted row.entry 0 ∷ [])) }
        ensures cells { IfOk result (λ _. self.new ≡ grid (slice_set self.old.lengths 0 (slice_index self.old.lengths 0 + 1)) (self.old.cells ++ row.entry.cells)) }
        ensures kept { IfErr result (λ _. self.new ≡ self.old) }
        ensures whole { IsGrid self.new }
        ensures axes { length self.new.lengths ≡ 2 }
        ensures empty { concatenate_error 0 (self.old.lengths ∷ insert row.entry.lengths 0 1 ∷ []) ≡ None → size (concatenation_lengths 0 (self.old.lengths ∷ insert row.entry.lengths 0 1 ∷ [])) ≡ 0 → IsOk result }
    {
        let _whole = row.raw_dim();
        self.append(Axis(0), row.insert_axis(Axis(0)))
    }

    /// Puts clones of the cells of a view to the right of the matrix as one more column. Repeated calls are fast for a matrix in column
    /// order, which one in row order becomes at the first of them.
    ///
    /// The error is the first of these that applies: `IncompatibleShape` if the column is not as long as those of the matrix; `Overflow`
    /// if the nonzero lengths of the result multiply to more than `isize::MAX`. If none applies, the error is an allocation failure, for
    /// the matrix or for a clone, and is never reported if the result has no cells. An error leaves the matrix as it was. Requires that
    /// each clone equals its source.
    ///
    /// ```
    /// let mut a = Array::from_shape_vec((2, 1), vec![in alloc; 1, 2]?)?;
    /// a.push_column(ArrayView::from([3, 4].as_slice()))?; // [[1, 3], [2, 4]]
    /// ```
    pub fn push_column(&mut self, column: ArrayView<'_, A, Ix1>) -> Result<(), StackError>
        requires clones { ClonesAreEqual A.is_clone }
        ensures errors { (k : ErrorKind) → (result ≡ Err (Shape (shape_error k))) ↔ (concatenate_error 1 (self.old.lengths ∷ insert column.entry.lengths 1 1 ∷ []) ≡ Some k) }
        ensures memory { (e : AllocError) → result ≡ Err (Memory e) → concatenate_error 1 (self.old.lengths ∷ insert column.entry.lengths 1 1 ∷ []) ≡ None }
        ensures value { IfOk result (λ _. self.new ≡ concatenation 1 (self.old ∷ axis_inserted column.entry 1 ∷ [])) }
        ensures kept { IfErr result (λ _. self.new ≡ self.old) }
        ensures whole { IsGrid self.new }
        ensures axes { length self.new.lengths ≡ 2 }
        ensures empty { concatenate_error 1 (self.old.lengths ∷ insert column.entry.lengths 1 1 ∷ []) ≡ None → size (concatenation_lengths 1 (self.old.lengths ∷ insert column.entry.lengths 1 1 ∷ [])) ≡ 0 → IsOk result }
    {
        self.append(Axis(1), column.insert_axis(Axis(1)))
    }
}

/// The lengths of two arrays joined along an axis, or the first reason why they cannot be joined.
fn joined_dim<D: Lengths>(axis: Axis, first: D, second: D) -> Result<D, ShapeError>
    requires first_limit { IsWithinLimit (D.numbers first) }
    requires second_limit { IsWithinLimit (D.numbers second) }
    ensures lengths { IfOk result (λ d. D.numbers d ≡ concatenation_lengths axis.0 (D.numbers first ∷ D.numbers second ∷ [])) }
    ensures none { IfOk result (λ _. concatenate_error axis.0 (D.numbers first ∷ D.numbers second ∷ []) ≡ None) }
    ensures error { IfErr result (λ e. concatenate_error axis.0 (D.numbers first ∷ D.numbers second ∷ []) ≡ Some e.kind) }
{
    if axis.0 >= first.ndim() {
        return Err(ShapeError::from_kind(ErrorKind::OutOfBounds));
    }
    if !is_same_but_along(axis.0, &first, second.copied()) {
        return Err(ShapeError::from_kind(ErrorKind::IncompatibleShape));
    }
    let len = first.axis(axis.0) + second.axis(axis.0);
    let mut dim = first;
    dim.set_axis(axis.0, len);
    if !dim.size_ok() {
        return Err(ShapeError::from_kind(ErrorKind::Overflow));
    }
    Ok(dim)
}

/// The lengths with an axis exchanged with axis 0.
fn exchanged<D: Lengths>(dim: D, axis: usize) -> D
    requires { axis < length (D.numbers dim) }
    ensures { D.numbers result ≡ swap (D.numbers dim) 0 axis }
{
    let mut result = dim;
    result.slice_mut().swap(0, axis);
    result
}

/// What an array grows by along axis 0: a view, and the lengths that it has then.
#[derive(Drop)]
struct Growth<'a, A, D: Lengths> {
    other: ArrayView<'a, A, D>,
    dim: D,
}

/// The array with clones of the cells of a view behind its own in row order, and other lengths; or the array with an error.
fn grow<A: Clone, D: Lengths>(
    array: Array<A, D>,
    growth: Growth<'_, A, D>,
) -> (Array<A, D>, Result<(), AllocError>)
    requires clones { ClonesAreEqual A.is_clone }
    requires limit { IsWithinLimit (D.numbers growth.dim) }
    requires many { length array.cells + length growth.other.cells ≡ size (D.numbers growth.dim) }
    ensures grown { IfOk result.1 (λ _. result.0 ≡ grid (D.numbers growth.entry.dim) (array.cells ++ growth.entry.other.cells)) }
    ensures kept { IfErr result.1 (λ _. result.0 ≡ array) }
    ensures whole { IsGrid result.0 }
    ensures empty { size (D.numbers growth.entry.dim) ≡ 0 → IsOk result.1 }
{
    let Growth { other, dim } = growth;
    let (before, count) = (array.raw_dim(), array.len());
    match begin(array, dim) {
        Ok(mut builder) => match push_cells(&mut builder, &other) {
            Ok(()) => (builder.finish(), Ok(())),
            Err(refused) => (
                ArrayBase::from_elements(before, Order::RowMajor, builder.into_first(count)),
                Err(refused),
            ),
        },
        Err((array, refused)) => (array, Err(refused)),
    }
}

/// The cells of an array as the first ones of an array of other lengths: in its own memory, if its elements are the cells in row order, else
/// moved; or the array with an error.
fn begin<A: Drop, D: Lengths>(
    array: Array<A, D>,
    dim: D,
) -> Result<ArrayBuilder<A, D>, (Array<A, D>, AllocError)>
    requires limit { IsWithinLimit (D.numbers dim) }
    requires fewer { length array.cells ≤ size (D.numbers dim) }
    ensures begun { IfOk result (λ f. f ≡ record { lengths = D.numbers dim; order = RowMajor; cells = array.cells }) }
    ensures back { IfErr result (λ e. e.0 ≡ array) }
    ensures empty { size (D.numbers dim) ≡ 0 → IsOk result }
{
    let before = array.raw_dim();
    match array.try_into_cells() {
        Ok(items) => match ArrayBuilder::extending(items, dim, Order::RowMajor) {
            Ok(builder) => Ok(builder),
            Err((items, refused)) => Err((
                ArrayBase::from_elements(before, Order::RowMajor, items),
                refused,
            )),
        },
        Err(array) => {
            match ArrayBuilder::with_capacity(array.allocator(), dim, Order::RowMajor) {
                Ok(mut builder) => {
                    push_moved(&mut builder, array);
                    Ok(builder)
                }
                Err(refused) => Err((array, refused)),
            }
        }
    }
}

/// Pushes the cells of an array in row order, and drops what else it had.
fn push_moved<A: Drop, D: Lengths>(builder: &mut ArrayBuilder<A, D>, array: Array<A, D>)
    requires room { length builder.old.cells + length array.cells ≤ size builder.old.lengths }
    ensures { builder.new ≡ pushed_all builder.old array.cells }
{
    for cell in array {
        builder.push(cell);
    }
}

/// Pushes clones of the cells of a view in row order, up to the first error. The cells that were there stay.
fn push_cells<A: Clone, D: Lengths>(
    builder: &mut ArrayBuilder<A, D>,
    view: &ArrayView<'_, A, D>,
) -> Result<(), AllocError>
    requires clones { ClonesAreEqual A.is_clone }
    requires room { length builder.old.cells + length view.now.cells ≤ size builder.old.lengths }
    ensures pushed { IfOk result (λ _. builder.new ≡ pushed_all builder.old view.now.cells) }
    ensures front { take (length builder.old.cells) builder.new.cells ≡ builder.old.cells }
    ensures none { length view.now.cells ≡ 0 → IsOk result }
{
    match view.to_slice() {
        Some(cells) => builder.push_clones(Strided::over(cells)),
        None => push_clones(
            builder,
            RowElements::in_order(view.again(), Order::RowMajor),
        ),
    }
}
