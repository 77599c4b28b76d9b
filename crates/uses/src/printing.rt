//! How the commands print.

ghost use Rattle.std.specs.Prelude.{◌≡◌, ◌<◌, ◌++◌, ◌∷◌, [], map, IfOk, OnOk, string_bytes};
ghost use Rattle.ndarray.specs.Subviews.{lanes_of};
ghost use Rattle.uses.specs.Printing.{grid_text, line_text, mark_of, others_text, picture_text, pixels_text, report_text, rows_text, sum_text};

use ndarray::iter::Iter;
use ndarray::{ArrayView, Dimension, Ix1, Ix2};
use std::alloc::{AllocError, Global};

/// A table as text, a line for each row with its sum at the end; and a line of the sums of the columns, with that of all.
pub fn report_text(
    alloc: Global,
    table: &ArrayView<'_, i64, Ix2>,
    rows: &ArrayView<'_, i64, Ix1>,
    columns: &ArrayView<'_, i64, Ix1>,
    all: i64,
) -> Result<String, AllocError>
    ensures { IfOk result (λ text. string_bytes text ≡ report_text table.now rows.now columns.now all) }
{
    let mut text = String::new(alloc);
    let _axes = table.ndim();
    for (row, sum) in table.rows().into_iter().zip(rows.iter()) {
        push_sum(&mut text, &row, *sum)?;
    }
    push_sum(&mut text, columns, all)?;
    Ok(text)
}

/// Appends a line of numbers and one more.
fn push_sum(text: &mut String, line: &ArrayView<'_, i64, Ix1>, sum: i64) -> Result<(), AllocError>
    ensures { OnOk result (string_bytes text.new ≡ string_bytes text.old ++ sum_text line.now.cells sum) }
{
    for number in line.iter() {
        write!(text, "{number} ")?;
    }
    write!(text, "{sum}\n")
}

/// A table as text: a line for each row, where it has cells.
pub fn table_text(alloc: Global, table: &ArrayView<'_, i64, Ix2>) -> Result<String, AllocError>
    ensures { IfOk result (λ text. string_bytes text ≡ pixels_text table.now) }
{
    let mut text = String::new(alloc);
    push_pixels(&mut text, table)?;
    Ok(text)
}

/// A picture as plain PGM: a line for each row, where it has pixels.
pub fn picture_text(alloc: Global, picture: &ArrayView<'_, i64, Ix2>) -> Result<String, AllocError>
    ensures { IfOk result (λ text. string_bytes text ≡ picture_text picture.now) }
{
    let (rows, columns) = picture.raw_dim().into_pattern();
    let mut text = format!(in alloc; "P2\n{columns} {rows}\n255\n")?;
    push_pixels(&mut text, picture)?;
    Ok(text)
}

/// Appends a line for each row of a picture, and nothing where it has no pixels, however many rows it has.
fn push_pixels(text: &mut String, picture: &ArrayView<'_, i64, Ix2>) -> Result<(), AllocError>
    ensures { OnOk result (string_bytes text.new ≡ string_bytes text.old ++ pixels_text picture.now) }
{
    if picture.len() == 0 {
        return Ok(());
    }
    push_rows(text, picture)
}

/// Appends a line for each row.
fn push_rows(text: &mut String, table: &ArrayView<'_, i64, Ix2>) -> Result<(), AllocError>
    ensures { OnOk result (string_bytes text.new ≡ string_bytes text.old ++ rows_text (lanes_of table.now 1).cells) }
{
    let _axes = table.ndim();
    for row in table.rows() {
        push_line(text, &row)?;
    }
    Ok(())
}

/// A line of numbers as text.
pub fn line_text(alloc: Global, line: &ArrayView<'_, i64, Ix1>) -> Result<String, AllocError>
    ensures { IfOk result (λ text. string_bytes text ≡ line_text line.now.cells) }
{
    let mut text = String::new(alloc);
    push_line(&mut text, line)?;
    Ok(text)
}

/// Appends a line of numbers, with a blank between two of them.
fn push_line(text: &mut String, line: &ArrayView<'_, i64, Ix1>) -> Result<(), AllocError>
    ensures { OnOk result (string_bytes text.new ≡ string_bytes text.old ++ line_text line.now.cells) }
{
    let mut numbers = line.iter();
    let Some(first) = numbers.next() else {
        return text.push('\n');
    };
    write!(text, "{first}")?;
    push_others(text, numbers)?;
    text.push('\n')
}

/// Appends numbers, each behind a blank.
fn push_others(text: &mut String, numbers: Iter<'_, i64, Ix1>) -> Result<(), AllocError>
    ensures { OnOk result (string_bytes text.new ≡ string_bytes text.old ++ others_text numbers.entry) }
{
    for number in numbers {
        write!(text, " {number}")?;
    }
    Ok(())
}

/// A grid of cells as text: a line for each row, with `#` for a living cell and `.` for a dead one.
pub fn grid_text(alloc: Global, grid: &ArrayView<'_, bool, Ix2>) -> Result<String, AllocError>
    ensures { IfOk result (λ text. string_bytes text ≡ grid_text grid.now) }
{
    let mut text = String::new(alloc);
    let _axes = grid.ndim();
    for row in grid.rows() {
        push_cells(&mut text, &row)?;
    }
    Ok(text)
}

/// Appends a row of a grid.
fn push_cells(text: &mut String, row: &ArrayView<'_, bool, Ix1>) -> Result<(), AllocError>
    ensures { OnOk result (string_bytes text.new ≡ string_bytes text.old ++ (map mark_of row.now.cells ++ 10 ∷ [])) }
{
    for alive in row.iter() {
        text.push(mark(*alive))?;
    }
    text.push('\n')
}

/// How a cell is written.
fn mark(alive: bool) -> char
    ensures mark { result ≡ mark_of alive }
    ensures ascii { result < 128 }
{
    if alive { '#' } else { '.' }
}
