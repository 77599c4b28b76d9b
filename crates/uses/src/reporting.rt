//! The line that a fault prints.

ghost use Rattle.std.specs.Prelude.{IfOk, OnOk, string_bytes};
ghost use Rattle.uses.specs.Streams.{Extends, IsInLine, IsLineOf};

use crate::fault::{Fault, Place};
use std::alloc::{AllocError, Global};

/// The characters of a word or a line that are printed at most.
const LONGEST: usize = 40;

/// The line of a fault: `uses: `, its word, and where it is in the words of the command or in the input.
pub fn fault_line(
    alloc: Global,
    fault: Fault,
    words: &[String],
    input: &str,
) -> Result<String, AllocError>
    ensures { IfOk result (λ line. IsLineOf fault (string_bytes line)) }
{
    let word = fault.word();
    let mut line = format!(in alloc; "uses: {word}")?;
    push_place(&mut line, fault.place(), words, input)?;
    line.push('\n')?;
    Ok(line)
}

/// Appends where a fault is.
fn push_place(
    line: &mut String,
    place: Place,
    words: &[String],
    input: &str,
) -> Result<(), AllocError>
    ensures { OnOk result (Extends (string_bytes line.old) (string_bytes line.new)) }
{
    match place {
        Place::Whole => Ok(()),
        Place::End => push_end(line),
        Place::Argument(at) => push_argument(line, words, at),
        Place::Line(at) => push_line(line, input, at),
        Place::Word(at) => push_word(line, input, at),
    }
}

/// Appends that it is the end.
fn push_end(line: &mut String) -> Result<(), AllocError>
    ensures { OnOk result (Extends (string_bytes line.old) (string_bytes line.new)) }
{
    line.push_str(": at the end")?;
    Ok(())
}

/// Appends a number of a command.
fn push_argument(line: &mut String, words: &[String], at: usize) -> Result<(), AllocError>
    ensures { OnOk result (Extends (string_bytes line.old) (string_bytes line.new)) }
{
    let Some(argument) = words.get(at) else {
        return Ok(());
    };
    line.push_str(": ")?;
    push_quoted(line, argument.as_str())?;
    Ok(())
}

/// Appends a line of a text.
fn push_line(line: &mut String, text: &str, at: usize) -> Result<(), AllocError>
    ensures { OnOk result (Extends (string_bytes line.old) (string_bytes line.new)) }
{
    let Some(row) = text.lines().nth(at) else {
        return Ok(());
    };
    push_number(line, ": line ", at.saturating_add(1))?;
    line.push_str(": ")?;
    push_quoted(line, row)?;
    Ok(())
}

/// Appends a word of a text.
fn push_word(line: &mut String, text: &str, at: usize) -> Result<(), AllocError>
    ensures { OnOk result (Extends (string_bytes line.old) (string_bytes line.new)) }
{
    let Some((row, place, word)) = word_at(text, at) else {
        return Ok(());
    };
    push_number(line, ": line ", row)?;
    push_number(line, ", word ", place)?;
    line.push_str(": ")?;
    push_quoted(line, word)?;
    Ok(())
}

/// Appends a name and a number. Requires that there is no newline in the name.
fn push_number(line: &mut String, name: &str, number: usize) -> Result<(), AllocError>
    requires { IsInLine name.now }
    ensures { OnOk result (Extends (string_bytes line.old) (string_bytes line.new)) }
{
    write!(line, "{name}{number}")?;
    Ok(())
}

/// The line and the place in it, both from 1, of a word of a text, and the word.
fn word_at(text: &str, at: usize) -> Option<(usize, usize, &str)> {
    let mut left = at;
    let mut number = 1usize;
    for line in text.lines() {
        let words = line.split_ascii_whitespace().count();
        if left < words {
            let word = line.split_ascii_whitespace().nth(left)?;
            return Some((number, left + 1, word));
        }
        left -= words;
        number = number.saturating_add(1);
    }
    None
}

/// Appends the front of a text in quotation marks, and dots where there is more.
fn push_quoted(line: &mut String, text: &str) -> Result<(), AllocError>
    ensures { OnOk result (Extends (string_bytes line.old) (string_bytes line.new)) }
{
    line.push('\'')?;
    for letter in text.chars().take(LONGEST) {
        push_shown(line, letter)?;
    }
    if text.chars().nth(LONGEST).is_some() {
        line.push_str("..'")?;
        return Ok(());
    }
    line.push('\'')?;
    Ok(())
}

/// Appends a character, and a question mark in place of a control character.
fn push_shown(line: &mut String, letter: char) -> Result<(), AllocError>
    ensures { OnOk result (Extends (string_bytes line.old) (string_bytes line.new)) }
{
    if letter.is_control() {
        line.push('?')?;
        return Ok(());
    }
    line.push(letter)?;
    Ok(())
}
