//! How lengths, cells and shapes are spelled.

ghost use Rattle.std.specs.Prelude.{◌≡◌, ◌≤◌, ◌<◌, ◌^◌, pos, length, SomeIff, IfOk, IfErr, IfSome};
ghost use Rattle.std.specs.Char.{digit_value};
ghost use Rattle.std.specs.Int.{w64};
ghost use Rattle.std.specs.Str.Parse.{IsNumeral, digits_value, signed_digits_value, ParsesSigned};
ghost use Rattle.ndtables.specs.Spelling.{IsCellWord, IsCountWord, SpellsLengths, SpellsNoLengths, SpellsNoShape, SpellsShape};

use crate::fault::Fault;
use arrayvec::ArrayVec;
use ndarray::order::Order;
use ndarray::{IxDyn, Lengths};

/// A length: one or more ASCII digits that fit `usize`.
pub fn length(word: &str) -> Option<usize>
    ensures { SomeIff result (IsCountWord word.now) (digits_value 10 word.now) }
{
    // Before a number `parse` takes a sign too.
    if let [b'+', ..] = word.as_bytes() {
        return None;
    }
    word.parse::<usize>().ok()
}

/// A cell: one or more ASCII digits after an optional `+` or `-`, that fit `i64`.
pub fn cell(word: &str) -> Result<i64, Fault>
    ensures value { ParsesSigned w64 10 word.now result }
    ensures err { IfErr result (λ fault. fault ≡ Fault.Number) }
{
    // Much faster than `parse`, for nearly all cells.
    if let Some(number) = short_cell(word.as_bytes()) {
        return Ok(number);
    }
    word.parse::<i64>().map_err(|_| Fault::Number)
}

/// The cell that up to 18 digits after an optional `-` spell.
fn short_cell(word: &[u8]) -> Option<i64>
    ensures { IfSome result (λ number. IsCellWord word.now × (number ≡ signed_digits_value 10 word.now)) }
{
    if let [b'-', digits @ ..] = word {
        let number = natural(digits)?;
        return Some(-number);
    }
    natural(word)
}

/// The number of up to 18 digits.
fn natural(digits: &[u8]) -> Option<i64>
    ensures { IfSome result (λ number. IsNumeral 10 digits.now × (number ≡ pos (digits_value 10 digits.now)) × (digits_value 10 digits.now < 2 ^ 63)) }
{
    // So many digits fit, and no sum needs to be tested.
    if digits.is_empty() || digits.len() > 18 {
        return None;
    }
    let mut number = 0u64;
    for byte in digits {
        let digit = digit(*byte)?;
        number = number * 10 + digit;
    }
    i64::try_from(number).ok()
}

/// The number of a digit.
fn digit(byte: u8) -> Option<u64>
    ensures { IfSome result (λ digit. (digit ≡ digit_value byte) × (digit_value byte < 10)) }
{
    if !byte.is_ascii_digit() {
        return None;
    }
    Some(u64::from(byte - b'0'))
}

/// A shape word: `.` for no axes, or lengths joined by `x`, and at its end an `f` where the table
/// is stored column-major.
pub fn shape(word: &str) -> Result<(IxDyn, Order), Fault>
    ensures spelled { IfOk result (λ shape. SpellsShape word.now (⟦<IxDyn as Lengths>⟧.numbers shape.0) shape.1) }
    ensures err { IfErr result (λ fault. SpellsNoShape word.now × (fault ≡ Fault.Shape)) }
{
    let (spelled, order) = match word.strip_suffix('f') {
        Some(spelled) => (spelled, Order::ColumnMajor),
        None => (word, Order::RowMajor),
    };
    let dim = lengths(spelled)?;
    if !dim.size_ok() {
        return Err(Fault::Shape);
    }
    Ok((dim, order))
}

/// `.` for no lengths, or lengths joined by `x`, of which there are at most 32.
fn lengths(word: &str) -> Result<IxDyn, Fault>
    ensures spelled { IfOk result (λ dim. SpellsLengths word.now (⟦<IxDyn as Lengths>⟧.numbers dim)) }
    ensures axes { IfOk result (λ dim. length (⟦<IxDyn as Lengths>⟧.numbers dim) ≤ 32) }
    ensures err { IfErr result (λ fault. SpellsNoLengths word.now × (fault ≡ Fault.Shape)) }
{
    if word == "." {
        return Ok(IxDyn(&[]));
    }
    let mut axes: ArrayVec<usize, 32> = ArrayVec::new();
    for piece in word.split('x') {
        let Some(len) = length(piece) else {
            return Err(Fault::Shape);
        };
        if axes.is_full() {
            return Err(Fault::Shape);
        }
        axes.push(len);
    }
    Ok(IxDyn(axes.as_slice()))
}
