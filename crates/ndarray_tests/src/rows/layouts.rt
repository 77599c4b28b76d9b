//! The layouts of a table.

use crate::rows::spelling;
use ndarray::{
    Array, ArrayBase, ArrayView, Axis, Data, IxDyn, Lengths, ShapeBuilder, ShapeError, Slice,
};
use std::alloc::{AllocError, Global};
use std::fmt;

/// How the cells of a table lie in memory.
#[derive(Clone, Copy, PartialEq, Eq)]
pub enum Layout {
    /// One after another, the last index fastest.
    RowMajor,
    /// One after another, the first index fastest.
    ColumnMajor,
    /// At every second place along each axis of a larger table.
    Stepped,
    /// From the last place to the first, with each axis reversed.
    Reversed,
    /// One after another, the last index but one fastest; of three axes or more.
    MiddleFast,
}

/// All layouts.
pub const LAYOUTS: &[Layout] = &[
    Layout::RowMajor,
    Layout::ColumnMajor,
    Layout::Stepped,
    Layout::Reversed,
    Layout::MiddleFast,
];

/// What the places of a larger table hold that the table does not reach.
pub const HIDDEN: i64 = -77;

impl fmt::Display for Layout {
    fn fmt<W: fmt::Write>(&self, f: &mut fmt::Formatter<W>) -> fmt::Result {
        let name = match self {
            Layout::RowMajor => "row-major",
            Layout::ColumnMajor => "column-major",
            Layout::Stepped => "every second place",
            Layout::Reversed => "reversed",
            Layout::MiddleFast => "last axis but one fastest",
        };
        write!(f, "{name}")
    }
}

/// A table: its lengths, and its cells as they lie in memory.
#[derive(Drop)]
pub struct Table {
    /// How they lie.
    pub layout: Layout,
    // The lengths of what lies in memory: larger than the table's where it has every second place, and with the last two exchanged
    // where the last index but one is fastest.
    lengths: IxDyn,
    /// What lies in memory.
    pub cells: Vec<i64>,
}

impl Table {
    /// The table of these cells, which are given in row order.
    ///
    /// Where there are not as many as the lengths have index lists, they stay as they are given.
    pub fn new(
        alloc: Global,
        lengths: IxDyn,
        cells: Vec<i64>,
        layout: Layout,
    ) -> Result<Table, AllocError> {
        if !lengths.size_ok() || lengths.size() != cells.len() {
            return Ok(Table::in_rows(lengths, cells));
        }
        if layout == Layout::Stepped {
            return spread(alloc, lengths, cells);
        }
        if layout == Layout::MiddleFast {
            return with_middle_fast(alloc, lengths, cells);
        }
        let cells = arrange(alloc, lengths.slice(), cells, layout)?;
        Ok(Table {
            layout,
            lengths,
            cells,
        })
    }

    /// The table whose cells lie one after another in row order.
    fn in_rows(lengths: IxDyn, cells: Vec<i64>) -> Table {
        Table {
            layout: Layout::RowMajor,
            lengths,
            cells,
        }
    }

    /// The table to read.
    pub fn view(&self) -> Result<ArrayView<'_, i64, IxDyn>, ShapeError> {
        self.view_of(self.cells.as_slice())
    }

    /// The table to read where these cells lie in memory in place of its own.
    pub fn view_of<'a, A>(&self, cells: &'a [A]) -> Result<ArrayView<'a, A, IxDyn>, ShapeError> {
        let lengths = self.lengths.copied();
        let mut view = if self.layout == Layout::ColumnMajor {
            ArrayView::from_shape(lengths.f(), cells)?
        } else {
            ArrayView::from_shape(lengths, cells)?
        };
        cut(&mut view, self.layout);
        Ok(view)
    }

    /// The table as an array, where these cells lie in memory in place of its own.
    pub fn array_of<A: Drop>(&self, cells: Vec<A>) -> Result<Array<A, IxDyn>, ShapeError> {
        let mut array = lay_out(self.layout, self.lengths.copied(), cells)?;
        cut(&mut array, self.layout);
        Ok(array)
    }

    /// An array of what lies in memory.
    pub fn into_array(self) -> Result<Array<i64, IxDyn>, ShapeError> {
        let Table {
            layout,
            lengths,
            cells,
        } = self;
        lay_out(layout, lengths, cells)
    }
}

/// An array of cells as they lie in memory.
fn lay_out<A: Drop>(
    layout: Layout,
    lengths: IxDyn,
    cells: Vec<A>,
) -> Result<Array<A, IxDyn>, ShapeError> {
    if layout == Layout::ColumnMajor {
        Array::from_shape_vec(lengths.f(), cells)
    } else {
        Array::from_shape_vec(lengths, cells)
    }
}

/// Cells as they lie in memory, which are given in row order, where they lie one after another.
fn arrange(
    alloc: Global,
    lengths: &[usize],
    given: Vec<i64>,
    layout: Layout,
) -> Result<Vec<i64>, AllocError> {
    if layout == Layout::ColumnMajor {
        return in_column_order(alloc, lengths, given.as_slice());
    }
    let mut cells = given;
    if layout == Layout::Reversed {
        cells.reverse();
    }
    Ok(cells)
}

/// Leaves of what lies in memory the table.
pub fn cut<S: Data>(array: &mut ArrayBase<S, IxDyn>, layout: Layout) {
    let ndim = array.ndim();
    if layout == Layout::MiddleFast && ndim >= 2 {
        array.swap_axes(ndim - 2, ndim - 1);
    }
    let second = Slice::new(0, None, 2);
    for axis in 0..array.ndim() {
        if layout == Layout::Stepped && array.slice_ok(Axis(axis), second) {
            array.slice_axis_inplace(Axis(axis), second);
        }
        if layout == Layout::Reversed && array.axis_ok(Axis(axis)) {
            array.invert_axis(Axis(axis));
        }
    }
}

/// The cells with the first index fastest.
fn in_column_order(
    alloc: Global,
    lengths: &[usize],
    cells: &[i64],
) -> Result<Vec<i64>, AllocError> {
    let mut turned = Vec::new(alloc);
    for place in 0..cells.len() {
        let Some(cell) = cells.get(row_position(lengths, place)) else {
            return Ok(turned);
        };
        turned.push(*cell)?;
    }
    Ok(turned)
}

/// Which index list of a box in row order is the one of this number in column order.
fn row_position(lengths: &[usize], place: usize) -> usize {
    let mut rest = place;
    let mut position = 0usize;
    for length in lengths {
        position = position
            .wrapping_mul(*length)
            .wrapping_add(rest.checked_rem(*length).unwrap_or(0));
        rest = rest.checked_div(*length).unwrap_or(0);
    }
    position
}

/// The table with the last index but one fastest, where there are three axes or more.
fn with_middle_fast(alloc: Global, lengths: IxDyn, cells: Vec<i64>) -> Result<Table, AllocError> {
    let ndim = lengths.ndim();
    if ndim < 3 {
        return Ok(Table::in_rows(lengths, cells));
    }
    let (rows, columns) = (lengths.axis(ndim - 2), lengths.axis(ndim - 1));
    let mut exchanged = lengths;
    exchanged.set_axis(ndim - 2, columns);
    exchanged.set_axis(ndim - 1, rows);
    Ok(Table {
        layout: Layout::MiddleFast,
        lengths: exchanged,
        cells: by_columns(alloc, rows, columns, cells.as_slice())?,
    })
}

/// The cells of tables of so many rows and columns, one table after another, each with the row index fastest.
fn by_columns(
    alloc: Global,
    rows: usize,
    columns: usize,
    cells: &[i64],
) -> Result<Vec<i64>, AllocError> {
    let mut turned = Vec::new(alloc);
    let table = rows.wrapping_mul(columns);
    for place in 0..cells.len() {
        let inside = place.checked_rem(table).unwrap_or(0);
        let row = inside.checked_rem(rows).unwrap_or(0);
        let column = inside.checked_div(rows).unwrap_or(0);
        let position = place
            .wrapping_sub(inside)
            .wrapping_add(row.wrapping_mul(columns))
            .wrapping_add(column);
        let Some(cell) = cells.get(position) else {
            return Ok(turned);
        };
        turned.push(*cell)?;
    }
    Ok(turned)
}

/// The table at every second place along each axis of a larger one, where that is not too large.
fn spread(alloc: Global, lengths: IxDyn, cells: Vec<i64>) -> Result<Table, AllocError> {
    let larger = double(alloc, lengths.slice())?.unwrap_or(lengths.copied());
    if larger.slice() == lengths.slice() || !larger.size_ok() {
        return Ok(Table::in_rows(lengths, cells));
    }
    let cells = at_even_places(alloc, larger.slice(), larger.size(), cells.as_slice())?;
    Ok(Table {
        layout: Layout::Stepped,
        lengths: larger,
        cells,
    })
}

/// So many places of a table of these lengths, with the cells at those that have even indices alone.
fn at_even_places(
    alloc: Global,
    lengths: &[usize],
    count: usize,
    cells: &[i64],
) -> Result<Vec<i64>, AllocError> {
    let mut places = Vec::new(alloc);
    let mut left = cells.iter();
    for place in 0..count {
        let mut cell = HIDDEN;
        if is_even(lengths, place) {
            cell = *left.next().unwrap_or(&HIDDEN);
        }
        places.push(cell)?;
    }
    Ok(places)
}

/// Twice each length above 1, where the lengths are small.
fn double(alloc: Global, lengths: &[usize]) -> Result<Option<IxDyn>, AllocError> {
    let mut numbers = Vec::new(alloc);
    for length in lengths {
        if *length > 1000 {
            return Ok(None);
        }
        numbers.push(if *length > 1 { *length * 2 } else { *length })?;
    }
    Ok(spelling::dimension(numbers.as_slice()))
}

/// Whether the index list of this number in row order has even indices alone.
fn is_even(lengths: &[usize], place: usize) -> bool {
    let mut rest = place;
    for length in lengths.iter().rev() {
        if rest.checked_rem(*length).unwrap_or(0) % 2 == 1 {
            return false;
        }
        rest = rest.checked_div(*length).unwrap_or(0);
    }
    true
}
