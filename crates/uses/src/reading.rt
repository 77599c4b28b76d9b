//! What the commands read from their input, as arrays.

ghost use Rattle.std.specs.Prelude.{◌∷◌, [], IfOk, IfErr};
ghost use Rattle.uses.specs.Faults.{IsFaultOf};
ghost use Rattle.uses.specs.Inputs.{IsArrayOf, ReadsGrid, ReadsPicture, ReadsTable};

use crate::fault::{Fault, Place};
use crate::pixels::pixels;
use crate::rows::{Column, cells, rows};
use crate::spelling::numbers;
use ndarray::{Array, Ix2};
use std::alloc::Global;

/// A grey picture in plain PGM: `P2`, the numbers of columns and rows, the greatest pixel, which is at most 255, and the pixels, row
/// after row. Comments are not read.
pub fn picture(alloc: Global, text: &str) -> Result<Array<i64, Ix2>, Fault>
    ensures read { IfOk result (ReadsPicture text.now) }
    ensures err { IfErr result (IsFaultOf (ReadsPicture text.now)) }
{
    let (rows, columns, pixels) = pixels(alloc, text)?;
    let picture = array_of(rows, columns, pixels)?;
    Ok(picture)
}

/// A table: a line for each row, with its numbers. White space at the end is passed over.
pub fn table(alloc: Global, text: &str) -> Result<Array<i64, Ix2>, Fault>
    ensures read { IfOk result (ReadsTable text.now) }
    ensures err { IfErr result (IsFaultOf (ReadsTable text.now)) }
{
    let numbers = numbers(alloc, text, 0)?;
    let (rows, columns) = rows(text, Column::Word)?;
    let table = array_of(rows, columns, numbers)?;
    Ok(table)
}

/// A grid of cells: a line for each row, with `#` for a living cell and `.` for a dead one. White space at the end is passed over.
pub fn grid(alloc: Global, text: &str) -> Result<Array<bool, Ix2>, Fault>
    ensures read { IfOk result (ReadsGrid text.now) }
    ensures err { IfErr result (IsFaultOf (ReadsGrid text.now)) }
{
    let cells = cells(alloc, text)?;
    let (rows, columns) = rows(text, Column::Byte)?;
    let grid = array_of(rows, columns, cells)?;
    Ok(grid)
}

/// The array of so many rows and columns with these cells. The fault is that there are more or fewer cells.
fn array_of<T: Drop>(rows: usize, columns: usize, cells: Vec<T>) -> Result<Array<T, Ix2>, Fault>
    ensures made { IfOk result (IsArrayOf (rows ∷ columns ∷ []) cells.items) }
    ensures err { IfErr result (IsFaultOf (IsArrayOf (rows ∷ columns ∷ []) cells.items)) }
{
    match Array::from_shape_vec((rows, columns), cells) {
        Ok(array) => Ok(array),
        Err(_error) => Err(Fault::Shape(Place::Whole)),
    }
}
