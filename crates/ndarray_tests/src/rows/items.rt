//! What iterators of rows yield, to read or to write.

ghost use Rattle.std.specs.Iterator.{IsFinite};

use crate::rows::text::{push_numbers, push_view};
use ndarray::{ArrayView, ArrayViewMut, IxDyn, Lengths};
use std::alloc::AllocError;

/// An item of a row: one to read is shown, and one to write is written.
pub trait Item: Sized + Drop {
    /// Whether it is one to read.
    const IS_READ: bool;

    /// Appends the item, or writes this number to each of its cells.
    fn take(self, text: &mut String, number: i64) -> Result<(), AllocError>;

    /// Writes to one cell after another the number `first` and those after it, and returns the next one. One to read
    /// stays as it is.
    fn number_cells(self, first: i64) -> i64 {
        first
    }
}

impl<'a> Item for &'a i64 {
    const IS_READ: bool = true;

    fn take(self, text: &mut String, _number: i64) -> Result<(), AllocError> {
        write!(text, "{self}")
    }
}

/// A cell that is moved out.
impl Item for i64 {
    const IS_READ: bool = true;

    fn take(self, text: &mut String, _number: i64) -> Result<(), AllocError> {
        write!(text, "{self}")
    }
}

/// A view, as `2x3 1 2 3 4 5 6`: its lengths, and its cells in row order.
impl<'a, D: Lengths> Item for ArrayView<'a, i64, D> {
    const IS_READ: bool = true;

    fn take(self, text: &mut String, _number: i64) -> Result<(), AllocError> {
        push_view(text, &self)
    }
}

/// An index list and the cell there, as `0 1: 2`.
impl<'a> Item for (IxDyn, &'a i64) {
    const IS_READ: bool = true;

    fn take(self, text: &mut String, _number: i64) -> Result<(), AllocError> {
        let (index, cell) = self;
        push_numbers(text, index.slice(), " ")?;
        write!(text, ": {cell}")
    }
}

impl<'a> Item for &'a mut i64 {
    const IS_READ: bool = false;

    fn take(self, _text: &mut String, number: i64) -> Result<(), AllocError> {
        *self = number;
        Ok(())
    }

    fn number_cells(self, first: i64) -> i64 {
        *self = first;
        first.wrapping_add(1)
    }
}

impl<'a, D: Lengths> Item for ArrayViewMut<'a, i64, D> {
    const IS_READ: bool = false;

    fn take(self, _text: &mut String, number: i64) -> Result<(), AllocError> {
        fill(self, number);
        Ok(())
    }

    fn number_cells(self, first: i64) -> i64 {
        let mut view = self;
        number_all(view.iter_mut(), first)
    }
}

/// Writes a number to each cell.
pub fn fill<D: Lengths>(given: ArrayViewMut<'_, i64, D>, number: i64) {
    let mut view = given;
    for cell in view.iter_mut() {
        *cell = number;
    }
}

/// Writes the number `first` and those after it to the cells of all items, and returns the next one.
pub fn number_all<I: Iterator>(items: I, first: i64) -> i64
where
    I::Item: Item,
    requires can { I.can_next items }
    requires ends { IsFinite (I.remaining items) }
{
    let mut number = first;
    for item in items {
        number = item.number_cells(number);
    }
    number
}

/// An index list and the cell there, which is written with the digits of the list.
impl<'a> Item for (IxDyn, &'a mut i64) {
    const IS_READ: bool = false;

    fn take(self, _text: &mut String, _number: i64) -> Result<(), AllocError> {
        let (index, cell) = self;
        *cell = digits(index.slice());
        Ok(())
    }

    fn number_cells(self, first: i64) -> i64 {
        let (_index, cell) = self;
        *cell = first;
        first.wrapping_add(1)
    }
}

/// The number with these digits.
pub fn digits(index: &[usize]) -> i64 {
    let mut number = 0i64;
    for digit in index {
        number = number
            .wrapping_mul(10)
            .wrapping_add(digit.cast_signed() as i64);
    }
    number
}
