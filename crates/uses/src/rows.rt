//! The rows of a text: its lines, less the white space at its end.

ghost use Rattle.std.specs.Prelude.{◌≡◌, ◌==◌, ◌∷◌, ◌++◌, [], length, IfOk, IfErr, OnOk};
ghost use Rattle.std.specs.List.{concat};
ghost use Rattle.std.specs.Result.{OkIff};
ghost use Rattle.uses.specs.Faults.{IsFaultOf};
ghost use Rattle.uses.specs.Rows.{HasRows, IsMark, SpellCells, SpellsMore};
ghost use Rattle.uses.specs.Words.{rows_of, words_of};

use crate::fault::{Fault, Place};
use std::alloc::Global;

/// What a column of a row is.
#[derive(Clone, Copy, PartialEq, Eq, Debug)]
pub enum Column {
    /// A word.
    Word,
    /// A byte.
    Byte,
}

impl Column {
    ghost use Rattle.uses.specs.Rows.{columns_of};

    /// How many columns a row has.
    fn count(self, row: &str) -> usize
        ensures { result ≡ columns_of self row.now }
    {
        match self {
            Column::Word => row.split_ascii_whitespace().count(),
            Column::Byte => row.len(),
        }
    }
}

/// How many rows a text has, and how many columns each; a text without rows has no columns. The fault is the first row that has
/// not as many columns as the first one.
pub fn rows(text: &str, column: Column) -> Result<(usize, usize), Fault>
    ensures read { IfOk result (λ n. HasRows column (rows_of text.now) (n.0 ∷ n.1 ∷ [])) }
    ensures err { IfErr result (IsFaultOf (HasRows column (rows_of text.now))) }
{
    let text = text.trim_ascii_end();
    let columns = match text.lines().next() {
        Some(row) => column.count(row),
        None => 0,
    };
    let mut rows = 0usize;
    for row in text.lines() {
        if column.count(row) != columns {
            return Err(Fault::Shape(Place::Line(rows)));
        }
        rows += 1;
    }
    Ok((rows, columns))
}

/// The cells of the rows of a text, with `#` for a living cell and `.` for a dead one.
pub fn cells(alloc: Global, text: &str) -> Result<Vec<bool>, Fault>
    ensures read { IfOk result (λ cells. SpellCells (concat (rows_of text.now)) cells.items) }
    ensures err { IfErr result (IsFaultOf (SpellCells (concat (rows_of text.now)))) }
{
    let text = text.trim_ascii_end();
    let mut cells = Vec::new(alloc);
    let mut line = 0usize;
    for row in text.lines() {
        push_cells(&mut cells, row, Place::Line(line))?;
        line = line.saturating_add(1);
    }
    Ok(cells)
}

/// Appends the cells of a row.
fn push_cells(cells: &mut Vec<bool>, row: &str, place: Place) -> Result<(), Fault>
    ensures read { OnOk result (SpellsMore row.now cells.old.items cells.new.items) }
    ensures err { IfErr result (IsFaultOf (SpellCells row.now)) }
{
    for byte in row.as_bytes() {
        let alive = is_living(*byte, place)?;
        cells.push(alive)?;
    }
    Ok(())
}

/// Whether a byte means a living cell.
fn is_living(byte: u8, place: Place) -> Result<bool, Fault>
    ensures { OkIff result (IsMark byte) (byte == 35) }
{
    match byte {
        b'#' => Ok(true),
        b'.' => Ok(false),
        _ => Err(Fault::Input(place)),
    }
}
