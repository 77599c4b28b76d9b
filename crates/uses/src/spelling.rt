//! How numbers are spelled.

ghost use Rattle.std.specs.Prelude.{◌≡◌, IfOk, IfErr};
ghost use Rattle.std.specs.Int.{w64};
ghost use Rattle.std.specs.Str.Parse.{ParsesSigned, ParsesUnsigned};
ghost use Rattle.uses.specs.Faults.{IsFaultOf};
ghost use Rattle.uses.specs.Spelling.{SpellNumbers};
ghost use Rattle.uses.specs.Words.{words_of};

use crate::fault::{Fault, Place};
use std::alloc::Global;

/// The words of a text as numbers. So many words of the input come before the text.
pub fn numbers(alloc: Global, text: &str, before: usize) -> Result<Vec<i64>, Fault>
    ensures read { IfOk result (λ numbers. SpellNumbers (words_of text.now) numbers.items) }
    ensures err { IfErr result (IsFaultOf (SpellNumbers (words_of text.now))) }
{
    let mut numbers = Vec::new(alloc);
    for word in text.split_ascii_whitespace() {
        let number = number(word, before.saturating_add(numbers.len()))?;
        numbers.push(number)?;
    }
    Ok(numbers)
}

/// A word of the input as a number: digits after an optional sign.
fn number(word: &str, at: usize) -> Result<i64, Fault>
    ensures { ParsesSigned w64 10 word.now result }
{
    word.parse::<i64>()
        .map_err(|_| Fault::Number(Place::Word(at)))
}

/// A word of the input as a length: digits after an optional plus.
pub fn length(word: &str, at: usize) -> Result<usize, Fault>
    ensures { ParsesUnsigned 64 10 word.now result }
{
    word.parse::<usize>()
        .map_err(|_| Fault::Number(Place::Word(at)))
}

/// A word of the input as a pixel: a number up to 255.
pub fn pixel(word: &str, at: usize) -> Result<u8, Fault>
    ensures { ParsesUnsigned 8 10 word.now result }
{
    word.parse::<u8>()
        .map_err(|_| Fault::Number(Place::Word(at)))
}
