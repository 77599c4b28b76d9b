//! The line that says where a fault is in an input.

ghost use Rattle.std.specs.Prelude.{◌<◌, IfOk, IfSome, OnOk, string_bytes};
ghost use Rattle.ndtables.specs.Places.{AreShown, Extends, IsPlaceLine};

use crate::records::cell_word;
use csv::{ByteRecord, ReaderBuilder};
use std::alloc::{AllocError, Global};
use std::str;

/// The most characters of a word or a field that are printed.
const LONGEST: usize = 40;

/// Where the word of that number, counted from 1, is in a text. `None` where there is no such word, or no memory for the line.
pub fn of_word(alloc: Global, text: &str, number: usize) -> Option<String>
    ensures line { IfSome result (λ line. IsPlaceLine (string_bytes line)) }
    ensures some { IfSome result (λ _. 0 < number) }
{
    let at = number.checked_sub(1)?;
    let (line, place, word) = word_at(text, at)?;
    item_line(alloc, line, ", word ", place, word).ok()
}

/// The line and the place in it, both from 1, of a word of a text, and the word.
fn word_at(text: &str, at: usize) -> Option<(usize, usize, &str)> {
    let mut left = at;
    let mut number = 1usize;
    for line in text.lines() {
        let words = line.split_ascii_whitespace().count();
        if left < words {
            let word = line.split_ascii_whitespace().nth(left)?;
            return Some((number, left + 1, word));
        }
        left -= words;
        number = number.saturating_add(1);
    }
    None
}

/// Where the records of a text are first no rows of a table: a record that has not as many fields as the first, or a field of a row that
/// spells no cell. `None` where there is neither, or no memory.
pub fn of_record(alloc: Global, csv: &str, below_header: bool) -> Option<String>
    ensures { IfSome result (λ line. IsPlaceLine (string_bytes line)) }
{
    let mut fields = ByteRecord::new(alloc);
    let mut reader = ReaderBuilder::new()
        .has_headers(false)
        .flexible(true)
        .from_reader(alloc, csv.as_bytes());
    let mut columns = 0;
    let mut is_row = !below_header;
    for count in 0..usize::MAX {
        let Ok(true) = reader.read_byte_record(&mut fields) else {
            return None;
        };
        if count == 0 {
            columns = fields.len();
        }
        if fields.len() != columns {
            return length_line(alloc, line_of(csv, &fields), fields.len(), columns).ok();
        }
        if is_row {
            if let Some((number, field)) = no_cell(&fields) {
                return item_line(alloc, line_of(csv, &fields), ", field ", number, field).ok();
            }
        }
        is_row = true;
    }
    None
}

/// The first field of a record that spells no cell, and its number, counted from 1.
fn no_cell(fields: &ByteRecord) -> Option<(usize, &str)> {
    let mut number = 1usize;
    for field in fields.iter() {
        if cell_word(field).is_err() {
            return Some((number, str::from_utf8(field).unwrap_or("")));
        }
        number = number.saturating_add(1);
    }
    None
}

/// The line, counted from 1, in which a record of a text begins. Its position may be before the line's end of the record above it, and before
/// empty lines, which are no records.
fn line_of(csv: &str, fields: &ByteRecord) -> usize {
    let mut before = match fields.position() {
        Some(position) => position.byte(),
        None => 0,
    };
    let mut line = 1usize;
    for byte in csv.as_bytes() {
        if before == 0 && *byte != b'\n' && *byte != b'\r' {
            return line;
        }
        if *byte == b'\n' {
            line = line.saturating_add(1);
        }
        before = before.saturating_sub(1);
    }
    line
}

/// The line of a word or a field, which is an item of that name and number in its own line. Requires that the name can be shown as it is.
fn item_line(
    alloc: Global,
    line: usize,
    name: &str,
    number: usize,
    item: &str,
) -> Result<String, AllocError>
    requires { AreShown name.now }
    ensures { IfOk result (λ text. IsPlaceLine (string_bytes text)) }
{
    let mut text = format!(in alloc; "ndtables: line {line}")?;
    push_item(&mut text, name, number, item)?;
    text.push('\n')?;
    Ok(text)
}

/// Appends an item, behind its name and number. Requires that the name can be shown as it is.
fn push_item(line: &mut String, name: &str, number: usize, item: &str) -> Result<(), AllocError>
    requires { AreShown name.now }
    ensures { OnOk result (Extends (string_bytes line.old) (string_bytes line.new)) }
{
    push_number(line, name, number)?;
    line.push_str(": ")?;
    push_quoted(line, item)?;
    Ok(())
}

/// The line of a record that has so many fields, and not as many as there are columns.
fn length_line(
    alloc: Global,
    line: usize,
    fields: usize,
    columns: usize,
) -> Result<String, AllocError>
    ensures { IfOk result (λ text. IsPlaceLine (string_bytes text)) }
{
    let mut text = format!(in alloc; "ndtables: line {line}")?;
    push_lengths(&mut text, fields, columns)?;
    text.push('\n')?;
    Ok(text)
}

/// Appends how many fields a record has, and how many it is to have.
fn push_lengths(line: &mut String, fields: usize, columns: usize) -> Result<(), AllocError>
    ensures { OnOk result (Extends (string_bytes line.old) (string_bytes line.new)) }
{
    push_number(line, ": ", fields)?;
    line.push_str(noun_for(fields))?;
    push_number(line, ", not ", columns)?;
    Ok(())
}

/// What so many fields are called, behind their number.
fn noun_for(fields: usize) -> &'static str
    ensures { AreShown result.now }
{
    match fields {
        1 => " field",
        _ => " fields",
    }
}

/// Appends a name and a number. Requires that the name can be shown as it is.
fn push_number(line: &mut String, name: &str, number: usize) -> Result<(), AllocError>
    requires { AreShown name.now }
    ensures { OnOk result (Extends (string_bytes line.old) (string_bytes line.new)) }
{
    write!(line, "{name}{number}")?;
    Ok(())
}

/// Appends the front of a text in quotation marks, and dots where there is more.
fn push_quoted(line: &mut String, text: &str) -> Result<(), AllocError>
    ensures { OnOk result (Extends (string_bytes line.old) (string_bytes line.new)) }
{
    line.push('\'')?;
    for letter in text.chars().take(LONGEST) {
        push_shown(line, letter)?;
    }
    if text.chars().nth(LONGEST).is_some() {
        line.push_str("..'")?;
        return Ok(());
    }
    line.push('\'')?;
    Ok(())
}

/// Appends a character, and a control character by its code: `\x1b`.
fn push_shown(line: &mut String, letter: char) -> Result<(), AllocError>
    ensures { OnOk result (Extends (string_bytes line.old) (string_bytes line.new)) }
{
    if letter.is_control() {
        let code = u32::from(letter);
        line.push_str("\\x")?;
        push_digit(line, code / 16)?;
        push_digit(line, code % 16)?;
        return Ok(());
    }
    line.push(letter)?;
    Ok(())
}

/// Appends a hexadecimal digit.
fn push_digit(line: &mut String, digit: u32) -> Result<(), AllocError>
    ensures { OnOk result (Extends (string_bytes line.old) (string_bytes line.new)) }
{
    let Some(letter) = char::from_digit(digit, 16) else {
        return Ok(());
    };
    line.push(letter)?;
    Ok(())
}
