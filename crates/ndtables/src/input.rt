//! The words of an input.

ghost use Rattle.std.specs.Prelude.{◌≡◌, ◌↔◌, length, map, IfErr, IfOk, IfSome, IsSome, MatchOption, string_bytes};
ghost use Rattle.ndtables.specs.Lines.{EndsInDash, EndsInNoDash, IsFaultOfReader, IsInput};
ghost use Rattle.ndtables.specs.Words.{AreShort, words_of};

use crate::fault::Fault;
use std::alloc::Global;
use std::io;
use std::io::{ErrorKind, Read};

/// The most bytes of a word of an input.
const LONGEST: usize = 4096;

/// The words before a `-`, where that is the last word.
pub fn before_dash(words: &[String]) -> Option<&[String]>
    ensures { MatchOption result (EndsInNoDash (map string_bytes words.now)) (λ front. EndsInDash (map string_bytes words.now) (map string_bytes front.now)) }
{
    let Some((last, front)) = words.split_last() else {
        return None;
    };
    if last.as_str() == "-" {
        Some(front)
    } else {
        None
    }
}

/// What a reader has, as text of which no word has more than 4096 bytes, and how many words it has. Else the fault is `input`.
pub fn read_words<R: Read + Drop>(alloc: Global, input: R) -> Result<(String, usize), Fault>
    ensures text { IfOk result (λ both. IsInput (R.remaining input) (string_bytes both.0)) }
    ensures short { IfOk result (λ both. AreShort (words_of (string_bytes both.0))) }
    ensures count { IfOk result (λ both. both.1 ≡ length (words_of (string_bytes both.0))) }
    ensures err { IfErr result IsFaultOfReader }
{
    let text = read(alloc, input)?;
    let Some(count) = count_short(text.as_str()) else {
        return Err(Fault::Input);
    };
    Ok((text, count))
}

/// What a reader has, as text. The fault is `input` where it fails or has no text.
pub fn read<R: Read + Drop>(alloc: Global, input: R) -> Result<String, Fault>
    ensures text { IfOk result (λ text. IsInput (R.remaining input) (string_bytes text)) }
    ensures err { IfErr result IsFaultOfReader }
{
    io::read_to_string(alloc, input).map_err(|error| match error.kind() {
        ErrorKind::OutOfMemory => Fault::Memory,
        _ => Fault::Input,
    })
}

/// How many words a text has, where none of them has more than 4096 bytes.
fn count_short(text: &str) -> Option<usize>
    ensures short { IsSome result ↔ AreShort (words_of text.now) }
    ensures count { IfSome result (λ count. count ≡ length (words_of text.now)) }
{
    let mut count = 0usize;
    for word in text.split_ascii_whitespace() {
        if word.len() > LONGEST {
            return None;
        }
        count += 1;
    }
    Some(count)
}
