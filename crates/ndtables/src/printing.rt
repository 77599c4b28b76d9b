//! How arrays are printed.

ghost use Rattle.std.specs.Prelude.{◌≡◌, ◌++◌, ⊤, take, drop, flat_map, map, IfErr, IfOk, OnOk, string_bytes};
ghost use Rattle.std.specs.Fmt.{signed_decimal};
ghost use Rattle.ndarray.specs.Index.{size};
ghost use Rattle.ndtables.specs.Lines.{AsksForm};
ghost use Rattle.ndtables.specs.Printing.{HasForm, array_text_by, cells_text, csv_text, form_text, separator_text, shape_word, table_text};
ghost use Rattle.ndtables.specs.Reducing.{ForbidsMaking};

use crate::fault::Fault;
use crate::views::View;
use ndarray::Lengths;
use ndarray::iter::Iter;
use std::alloc::{AllocError, Global};

/// How a result is printed.
#[derive(Clone, Copy, PartialEq, Eq, Debug)]
pub enum Form {
    /// As its cells, a line for each row.
    Plain,
    /// As a table to be read: a line with its shape word, and then its cells.
    Table,
    /// As records of fields, at most two axes.
    Csv,
}

impl Form {
    /// The form that is asked for before the command, and the words after it.
    pub fn asked(words: &[String]) -> (Form, &[String])
        ensures { AsksForm (map string_bytes words.now) result.0 (map string_bytes result.1.now) }
    {
        let [word, rest @ ..] = words else {
            return (Form::Plain, words);
        };
        match word.as_str() {
            "--table" => (Form::Table, rest),
            "--to-csv" => (Form::Csv, rest),
            _ => (Form::Plain, words),
        }
    }

    /// An array as text in the form. The fault is `shape` where it is to be records and has more than two axes, and `memory`.
    pub fn text_of(self, alloc: Global, array: &View<'_>) -> Result<String, Fault>
        ensures shape { OnOk result (HasForm self array.now) }
        ensures text { IfOk result (λ text. string_bytes text ≡ form_text self array.now) }
        ensures err { IfErr result (ForbidsMaking (HasForm self array.now) ⊤) }
    {
        match self {
            Form::Plain => Ok(text_of(alloc, array, " ")?),
            Form::Table => Ok(table_text_of(alloc, array)?),
            Form::Csv => Ok(csv_text_of(alloc, array)?),
        }
    }
}

/// An array as a table to be read: its shape word as a line, and its text.
fn table_text_of(alloc: Global, array: &View<'_>) -> Result<String, AllocError>
    ensures { IfOk result (λ text. string_bytes text ≡ table_text array.now) }
{
    let mut text = String::new(alloc);
    push_shape(&mut text, array.shape())?;
    text.push('\n')?;
    push_array(&mut text, array, " ")?;
    Ok(text)
}

/// Appends the shape word of lengths.
pub fn push_shape(text: &mut String, lengths: &[usize]) -> Result<(), AllocError>
    ensures { OnOk result (string_bytes text.new ≡ string_bytes text.old ++ shape_word lengths.now) }
{
    let [first, rest @ ..] = lengths else {
        return text.push('.');
    };
    write!(text, "{first}")?;
    for length in rest {
        write!(text, "x{length}")?;
    }
    Ok(())
}

/// An array as records of fields, a line for each row. The fault is `shape` where it has more than two axes.
fn csv_text_of(alloc: Global, array: &View<'_>) -> Result<String, Fault>
    ensures shape { OnOk result (HasForm Form.Csv array.now) }
    ensures text { IfOk result (λ text. string_bytes text ≡ csv_text array.now) }
    ensures err { IfErr result (ForbidsMaking (HasForm Form.Csv array.now) ⊤) }
{
    if array.ndim() > 2 {
        return Err(Fault::Shape);
    }
    let text = text_of(alloc, array, ",")?;
    Ok(text)
}

/// An array as text: its cells in decimal, in row order, with `between` between two cells of a row, a
/// line for each row, and an empty line between two blocks, the subarrays of the last two axes.
///
/// An array of no axes or of one is a line. One of more axes that has no cells is no text.
fn text_of(alloc: Global, array: &View<'_>, between: &str) -> Result<String, AllocError>
    ensures { IfOk result (λ text. string_bytes text ≡ array_text_by between.now array.now) }
{
    let mut text = String::new(alloc);
    push_array(&mut text, array, between)?;
    Ok(text)
}

/// Appends an array.
fn push_array(text: &mut String, array: &View<'_>, between: &str) -> Result<(), AllocError>
    ensures { OnOk result (string_bytes text.new ≡ string_bytes text.old ++ array_text_by between.now array.now) }
{
    if array.len() == 0 && array.ndim() > 1 {
        return Ok(());
    }
    push_cells(text, array.shape(), &mut array.iter(), between)?;
    text.push('\n')?;
    Ok(())
}

/// Appends an array of these lengths, which takes its cells off the front.
fn push_cells<D: Lengths>(
    text: &mut String,
    lengths: &[usize],
    cells: &mut Iter<'_, i64, D>,
    between: &str,
) -> Result<(), AllocError>
    ensures text { OnOk result (string_bytes text.new ≡ string_bytes text.old ++ cells_text between.now lengths.now (take (size lengths.now) cells.old)) }
    ensures rest { OnOk result (cells.new ≡ drop (size lengths.now) cells.old) }
{
    let Some((length, rest)) = lengths.split_first() else {
        return push_cell(text, cells);
    };
    let mut before = "";
    for _ in 0..*length {
        text.push_str(before)?;
        push_cells(text, rest, cells, between)?;
        before = separator(rest, between);
    }
    Ok(())
}

/// Appends the first cell and takes it off.
fn push_cell<D: Lengths>(text: &mut String, cells: &mut Iter<'_, i64, D>) -> Result<(), AllocError>
    ensures text { OnOk result (string_bytes text.new ≡ string_bytes text.old ++ flat_map signed_decimal (take 1 cells.old)) }
    ensures rest { OnOk result (cells.new ≡ drop 1 cells.old) }
{
    if let Some(cell) = cells.next() {
        write!(text, "{cell}")?;
    }
    Ok(())
}

/// The text between two subarrays of these lengths: what is between two cells, a newline between two
/// rows, and an empty line too between two larger ones.
fn separator<'a>(lengths: &[usize], between: &'a str) -> &'a str
    ensures { result.now ≡ separator_text between.now lengths.now }
{
    match lengths {
        [] => between,
        [_] => "\n",
        _ => "\n\n",
    }
}
