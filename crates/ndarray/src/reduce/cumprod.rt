//! Running products along an axis.

ghost use Rattle.std.specs.Prelude.{◌≡◌, ◌≢◌, ◌<◌, ◌≤◌, ◌-◌, ◌++◌, List, ℕ, filter_map, length, slice_get, IfOk, IsOk, Some};
ghost use Rattle.ndarray.specs.AlongAxis.{CanCumulate, Cumulates};
ghost use Rattle.ndarray.specs.Elementwise.{CanMap};
ghost use Rattle.ndarray.specs.Grid.{cell};
ghost use Rattle.ndarray.specs.Index.{size};
ghost use Rattle.ndarray.specs.Subviews.{lanes_of};
ghost use Rattle.ndarray.specs.base.Ranks.{row_from};
ghost use Rattle.ndarray.specs.base.RunningProducts.{AreBlocks, RunningProducts};

use crate::base::array::{Array, ArrayBase, ArrayView};
use crate::base::axis::Axis;
use crate::base::builder::ArrayBuilder;
use crate::base::dimension::Lengths;
use crate::base::layout::default_strides;
use crate::base::storage::Data;
use crate::base::strided::Strided;
use crate::order::rows::BoxRows;
use crate::order::{Order, Row};
use std::alloc::{AllocError, Global};
use std::ops::Mul;

impl<A: Copy + Mul<A, Output = A>, S: Data<Elem = A>, D: Lengths> ArrayBase<S, D> {
    /// The running products along an axis: at index 0 the cell itself, and at each further index the cell times the product before it, with
    /// the cell as the left factor.
    ///
    /// Requires an axis below the number of axes, which `axis_ok` tests, and that each of these products is defined; for integers check
    /// both with [`cumprod_fits`](Self::cumprod_fits). The error is an allocation failure, and is never reported if there are no cells.
    ///
    /// ```
    /// let view = ArrayView::from_shape((2, 3), &[1i64, 2, 3, 4, 5, 6])?;
    /// view.cumprod(alloc, Axis(0))?; // [[1, 2, 3], [4, 10, 18]]
    /// view.cumprod(alloc, Axis(1))?; // [[1, 2, 6], [4, 20, 120]]
    /// ```
    pub fn cumprod(&self, alloc: Global, axis: Axis) -> Result<Array<A, D>, AllocError>
        requires axis { axis.0 < length self.now.lengths }
        requires defined { CanMap (λ lane. CanCumulate A.can_mul A.mul_gives lane.cells) (lanes_of self.now axis.0) }
        ensures products { IfOk result (Cumulates A.mul_gives axis.0 self.now) }
        ensures axes { IfOk result (λ r. D.has_axes (length r.lengths)) }
        ensures empty { size self.now.lengths ≡ 0 → IsOk result }
    {
        running_products(alloc, &self.view(), axis)
    }
}

/// The running products along an axis of a view. If the view is read faster in column order, the result is column-major.
fn running_products<A: Copy + Mul<A, Output = A>, D: Lengths>(
    alloc: Global,
    array: &ArrayView<'_, A, D>,
    axis: Axis,
) -> Result<Array<A, D>, AllocError>
    requires axis { axis.0 < length array.now.lengths }
    requires defined { CanMap (λ lane. CanCumulate A.can_mul A.mul_gives lane.cells) (lanes_of array.now axis.0) }
    ensures products { IfOk result (Cumulates A.mul_gives axis.0 array.now) }
    ensures axes { IfOk result (λ r. D.has_axes (length r.lengths)) }
    ensures empty { size array.now.lengths ≡ 0 → IsOk result }
{
    match array.fast_order() {
        Order::RowMajor => products_by_rows(alloc, array, axis),
        Order::ColumnMajor => products_by_columns(alloc, array, axis),
    }
}

/// The running products, computed on the transpose and transposed back.
fn products_by_columns<A: Copy + Mul<A, Output = A>, D: Lengths>(
    alloc: Global,
    array: &ArrayView<'_, A, D>,
    axis: Axis,
) -> Result<Array<A, D>, AllocError>
    requires axis { axis.0 < length array.now.lengths }
    requires defined { CanMap (λ lane. CanCumulate A.can_mul A.mul_gives lane.cells) (lanes_of array.now axis.0) }
    ensures products { IfOk result (Cumulates A.mul_gives axis.0 array.now) }
    ensures axes { IfOk result (λ r. D.has_axes (length r.lengths)) }
    ensures empty { size array.now.lengths ≡ 0 → IsOk result }
{
    let reversed = array.again().reversed_axes();
    let reversed_axis = Axis(array.ndim() - 1 - axis.0);
    let products = products_by_rows(alloc, &reversed, reversed_axis)?;
    Ok(products.reversed_axes())
}

/// The running products, computed row by row.
fn products_by_rows<A: Copy + Mul<A, Output = A>, D: Lengths>(
    alloc: Global,
    array: &ArrayView<'_, A, D>,
    axis: Axis,
) -> Result<Array<A, D>, AllocError>
    requires axis { axis.0 < length array.now.lengths }
    requires defined { CanMap (λ lane. CanCumulate A.can_mul A.mul_gives lane.cells) (lanes_of array.now axis.0) }
    ensures products { IfOk result (Cumulates A.mul_gives axis.0 array.now) }
    ensures axes { IfOk result (λ r. D.has_axes (length r.lengths)) }
    ensures empty { size array.now.lengths ≡ 0 → IsOk result }
{
    let dim = array.raw_dim();
    // How many cells there are from one to the next along the axis.
    let step = default_strides(&dim, Order::RowMajor).axis(axis.0);
    let mut products = ArrayBuilder::with_capacity(alloc, array.raw_dim(), Order::RowMajor)?;
    let mut rows = BoxRows::new(dim, Order::RowMajor);
    while let Some(row) = rows.next() {
        products = with_row(products, array, axis.0, step, &row);
    }
    Ok(products.finish())
}

/// Pushes the products of a row.
fn with_row<A: Copy + Mul<A, Output = A>, D: Lengths>(
    products: ArrayBuilder<A, D>,
    array: &ArrayView<'_, A, D>,
    axis: usize,
    step: usize,
    row: &Row<D>,
) -> ArrayBuilder<A, D>
    requires step { AreBlocks array.now axis step }
    requires defined { CanMap (λ lane. CanCumulate A.can_mul A.mul_gives lane.cells) (lanes_of array.now axis) }
    requires lengths { products.lengths ≡ array.now.lengths }
    requires some { 0 < row.now.count }
    requires next { (rest : List (List ℕ)) × RunningProducts A.mul_gives array.now axis products.cells (row_from (D.numbers row.now.first) row.now.axis row.now.count ++ rest) }
    ensures lengths { result.lengths ≡ products.lengths }
    ensures order { result.order ≡ products.order }
    ensures pushed { (rest : List (List ℕ)) → RunningProducts A.mul_gives array.now axis products.cells (row_from (D.numbers row.now.first) row.now.axis row.now.count ++ rest) → RunningProducts A.mul_gives array.now axis result.cells rest }
{
    if row.axis == axis {
        with_lane(products, array, step, row)
    } else {
        with_other_row(products, array, axis, step, row)
    }
}

/// Pushes the products of a row along the axis: each product but the first is made of the one before it.
fn with_lane<A: Copy + Mul<A, Output = A>, D: Lengths>(
    products: ArrayBuilder<A, D>,
    array: &ArrayView<'_, A, D>,
    step: usize,
    row: &Row<D>,
) -> ArrayBuilder<A, D>
    requires step { AreBlocks array.now row.now.axis step }
    requires defined { CanMap (λ lane. CanCumulate A.can_mul A.mul_gives lane.cells) (lanes_of array.now row.now.axis) }
    requires lengths { products.lengths ≡ array.now.lengths }
    requires some { 0 < row.now.count }
    requires next { (rest : List (List ℕ)) × RunningProducts A.mul_gives array.now row.now.axis products.cells (row_from (D.numbers row.now.first) row.now.axis row.now.count ++ rest) }
    ensures lengths { result.lengths ≡ products.lengths }
    ensures order { result.order ≡ products.order }
    ensures pushed { (rest : List (List ℕ)) → RunningProducts A.mul_gives array.now row.now.axis products.cells (row_from (D.numbers row.now.first) row.now.axis row.now.count ++ rest) → RunningProducts A.mul_gives array.now row.now.axis result.cells rest }
{
    let mut cells = array.cells_along(&row.first, row.axis, row.count);
    let Some(first) = cells.next() else {
        unreachable!()
    };
    let mut products = products;
    let mut product = next_product(first, row.first.axis(row.axis), &products, step);
    products.push(product);
    while let Some(cell) = cells.next() {
        product = *cell * product;
        products.push(product);
    }
    products
}

/// Pushes the products of a row all of whose cells have the same index on the axis.
fn with_other_row<A: Copy + Mul<A, Output = A>, D: Lengths>(
    products: ArrayBuilder<A, D>,
    array: &ArrayView<'_, A, D>,
    axis: usize,
    step: usize,
    row: &Row<D>,
) -> ArrayBuilder<A, D>
    requires step { AreBlocks array.now axis step }
    requires defined { CanMap (λ lane. CanCumulate A.can_mul A.mul_gives lane.cells) (lanes_of array.now axis) }
    requires lengths { products.lengths ≡ array.now.lengths }
    requires other { row.now.axis ≢ axis }
    requires some { 0 < row.now.count }
    requires next { (rest : List (List ℕ)) × RunningProducts A.mul_gives array.now axis products.cells (row_from (D.numbers row.now.first) row.now.axis row.now.count ++ rest) }
    ensures lengths { result.lengths ≡ products.lengths }
    ensures order { result.order ≡ products.order }
    ensures pushed { (rest : List (List ℕ)) → RunningProducts A.mul_gives array.now axis products.cells (row_from (D.numbers row.now.first) row.now.axis row.now.count ++ rest) → RunningProducts A.mul_gives array.now axis result.cells rest }
{
    let cells = array.cells_along(&row.first, row.axis, row.count);
    match cells.side_by_side() {
        Some(slice) => with_cells(products, array, axis, step, row, Strided::over(slice)),
        None => with_cells(products, array, axis, step, row, cells),
    }
}

/// The same for the row's cells. If they lie side by side, their step is a constant, so that the loop takes vectors of them.
#[inline(always)]
fn with_cells<A: Copy + Mul<A, Output = A>, D: Lengths>(
    products: ArrayBuilder<A, D>,
    array: &ArrayView<'_, A, D>,
    axis: usize,
    step: usize,
    row: &Row<D>,
    cells: Strided<'_, A>,
) -> ArrayBuilder<A, D>
    requires step { AreBlocks array.now axis step }
    requires defined { CanMap (λ lane. CanCumulate A.can_mul A.mul_gives lane.cells) (lanes_of array.now axis) }
    requires lengths { products.lengths ≡ array.now.lengths }
    requires other { row.now.axis ≢ axis }
    requires cells { cells ≡ filter_map (cell array.now) (row_from (D.numbers row.now.first) row.now.axis row.now.count) }
    requires some { 0 < row.now.count }
    requires next { (rest : List (List ℕ)) × RunningProducts A.mul_gives array.now axis products.cells (row_from (D.numbers row.now.first) row.now.axis row.now.count ++ rest) }
    ensures lengths { result.lengths ≡ products.lengths }
    ensures order { result.order ≡ products.order }
    ensures pushed { (rest : List (List ℕ)) → RunningProducts A.mul_gives array.now axis products.cells (row_from (D.numbers row.now.first) row.now.axis row.now.count ++ rest) → RunningProducts A.mul_gives array.now axis result.cells rest }
{
    let index = row.first.axis(axis);
    let mut cells = cells;
    let mut products = products;
    while let Some(cell) = cells.next() {
        let product = next_product(cell, index, &products, step);
        products.push(product);
    }
    products
}

/// The product at a cell: the cell itself at index 0 of the axis, else times the product that was pushed `step` pushes ago.
#[inline(always)]
fn next_product<A: Copy + Mul<A, Output = A>, D: Lengths>(
    cell: &A,
    index: usize,
    products: &ArrayBuilder<A, D>,
    step: usize,
) -> A
    requires some { 0 < index → 1 ≤ step }
    requires within { 0 < index → step ≤ length products.now.cells }
    requires defined { 0 < index → (p : A) → slice_get products.now.cells (length products.now.cells - step) ≡ Some p → A.can_mul cell.now p }
    ensures first { index ≡ 0 → result ≡ cell.now }
    ensures next { 0 < index → (p : A) → slice_get products.now.cells (length products.now.cells - step) ≡ Some p → A.mul_gives cell.now p result }
{
    if index == 0 {
        *cell
    } else {
        *cell * *products.back(step)
    }
}
