//! The words of a picture in plain PGM.

ghost use Rattle.std.specs.Prelude.{◌≡◌, ◌∷◌, [], IfOk, IfErr, MatchResult};
ghost use Rattle.std.specs.Str.Iter.{split_ascii_whitespace_text};
ghost use Rattle.uses.specs.Faults.{IsFaultOf};
ghost use Rattle.std.specs.Result.{OkIff};
ghost use Rattle.uses.specs.Pixels.{IsPixelWord, ReadsPixels, SpellPixels};
ghost use Rattle.uses.specs.Spelling.{count_of};
ghost use Rattle.uses.specs.Words.{words_of};

use crate::fault::{Fault, Place};
use crate::spelling::{length, pixel};
use std::alloc::Global;
use std::str::SplitAsciiWhitespace;

/// The words before the pixels.
const HEAD: usize = 4;

/// A grey picture in plain PGM: `P2`, the numbers of columns and rows, the greatest pixel, which is at most 255, and the pixels, row
/// after row. Comments are not read. These are the number of rows, that of columns, and the pixels, whose count is not tested.
pub fn pixels(alloc: Global, text: &str) -> Result<(usize, usize, Vec<i64>), Fault>
    ensures read { IfOk result (λ p. ReadsPixels (words_of text.now) (p.0 ∷ p.1 ∷ [], p.2.items)) }
    ensures err { IfErr result (IsFaultOf (ReadsPixels (words_of text.now))) }
{
    let mut words = text.split_ascii_whitespace();
    let form = following(&mut words)?;
    if form != "P2" {
        return Err(Fault::Input(Place::Word(0)));
    }
    let columns = following(&mut words)?;
    let columns = length(columns, 1)?;
    let rows = following(&mut words)?;
    let rows = length(rows, 2)?;
    let most = following(&mut words)?;
    let most = pixel(most, 3)?;
    let pixels = pixels_up_to(alloc, words, most)?;
    Ok((rows, columns, pixels))
}

/// The next word. The fault is that there is none.
fn following<'a>(words: &mut SplitAsciiWhitespace<'a>) -> Result<&'a str, Fault>
    ensures { MatchResult result (λ word. words_of (split_ascii_whitespace_text words.old) ≡ word.now ∷ words_of (split_ascii_whitespace_text words.new)) (λ _. words_of (split_ascii_whitespace_text words.old) ≡ []) }
{
    match words.next() {
        Some(word) => Ok(word),
        None => Err(Fault::Input(Place::End)),
    }
}

/// The words to come as pixels that are not above the greatest one.
fn pixels_up_to(alloc: Global, words: SplitAsciiWhitespace<'_>, most: u8) -> Result<Vec<i64>, Fault>
    ensures read { IfOk result (λ pixels. SpellPixels most (words_of (split_ascii_whitespace_text words.entry)) pixels.items) }
    ensures err { IfErr result (IsFaultOf (SpellPixels most (words_of (split_ascii_whitespace_text words.entry)))) }
{
    let mut pixels = Vec::new(alloc);
    for word in words {
        let number = pixel_up_to(word, most, pixels.len().saturating_add(HEAD))?;
        pixels.push(i64::from(number))?;
    }
    Ok(pixels)
}

/// A word of the input as a pixel that is not above the greatest one.
fn pixel_up_to(word: &str, most: u8, at: usize) -> Result<u8, Fault>
    ensures { OkIff result (IsPixelWord most word.now) (count_of word.now) }
{
    let number = pixel(word, at)?;
    if number > most {
        return Err(Fault::Number(Place::Word(at)));
    }
    Ok(number)
}
