//! Tables: a shape and its cells.

ghost use Rattle.std.specs.Prelude.{◌≡◌, length, IfOk};
ghost use Rattle.ndarray.specs.Grid.{grid, IsGrid};
ghost use Rattle.ndarray.specs.Index.{size};
ghost use Rattle.ndarray.specs.Limits.{IsWithinLimit};
ghost use Rattle.ndarray.specs.declared.base.shape.Order.TheVariants.{ColumnMajor};
ghost use Rattle.ndarray.specs.Orders.{cells_in};

use ndarray::order::{Order, Walk};
use ndarray::{ArrayView, Dimension, Lengths, ShapeBuilder};
use std::alloc::{AllocError, Global};
use std::marker::Model;

/// Lengths, and as many cells as they have index lists, in the order of storage.
#[derive(Drop)]
pub struct Table<D: Dimension> {
    dim: D,
    order: Order,
    cells: Vec<i64>,
}

impl<D: Dimension> Model for Table<D> {
    ghost use Rattle.std.specs.Prelude.{ℤ};
    ghost use Rattle.ndarray.specs.Grid.{Grid};

    ghost Value = { Grid ℤ };

    ghost use Rattle.ndtables.specs.Stored.{stored_array, IsStored};

    ghost view = { λ t. stored_array t.order (D.numbers t.dim) t.cells.items };

    ghost invariant = { λ t. IsStored (D.numbers t.dim) t.cells.items };
}

impl<D: Dimension> Table<D> {
    /// The table of these cells, which are given in row order.
    ///
    /// Requires that the lengths that are not 0 multiply to at most `isize::MAX`, and as many cells
    /// as the lengths have index lists.
    pub fn new(alloc: Global, dim: D, order: Order, cells: Vec<i64>) -> Result<Self, AllocError>
        requires limit { IsWithinLimit (D.numbers dim) }
        requires as_many { length cells.items ≡ size (D.numbers dim) }
        ensures { IfOk result (λ t. t ≡ grid (D.numbers dim) cells.items) }
    {
        match order {
            Order::RowMajor => Ok(Table { dim, order, cells }),
            Order::ColumnMajor => {
                let rows = ArrayView::from_shape(dim.copied(), cells.as_slice()).unwrap();
                let cells = in_column_order(alloc, &rows)?;
                Ok(Table { dim, order, cells })
            }
        }
    }

    /// The table as an array.
    pub fn view(&self) -> ArrayView<'_, i64, D>
        ensures same { result ≡ self.now }
        ensures whole { IsGrid result }
    {
        let dim = self.dim.copied();
        let shape = match self.order {
            Order::RowMajor => dim.into_shape_with_order(),
            Order::ColumnMajor => dim.f(),
        };
        ArrayView::from_shape(shape, self.cells.as_slice()).unwrap()
    }
}

/// The cells of an array in column order.
fn in_column_order<D: Dimension>(
    alloc: Global,
    array: &ArrayView<'_, i64, D>,
) -> Result<Vec<i64>, AllocError>
    ensures { IfOk result (λ v. v.items ≡ cells_in ColumnMajor array.now) }
{
    let mut cells = Vec::with_capacity(alloc, array.len())?;
    for index in Walk::new(array.raw_dim(), Order::ColumnMajor) {
        cells.push(*array.get(index).unwrap())?;
    }
    Ok(cells)
}
