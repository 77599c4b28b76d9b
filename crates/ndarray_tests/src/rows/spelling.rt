//! How lengths, axes, slices and cells are spelled.

use ndarray::{Axis, IxDyn, Slice};
use std::alloc::{AllocError, Global};

/// A length, an index or a number of items.
pub fn number(word: &str) -> Option<usize> {
    word.parse::<usize>().ok()
}

/// An axis.
pub fn axis(word: &str) -> Option<Axis> {
    Some(Axis(number(word)?))
}

/// Up to three numbers, and 0 for each that no word spells.
pub fn numbers(words: &[&str]) -> Option<(usize, usize, usize)> {
    if words.len() > 3 {
        return None;
    }
    Some((
        number_at(words, 0)?,
        number_at(words, 1)?,
        number_at(words, 2)?,
    ))
}

/// The number that the word at a place spells, and 0 where there is no such word.
fn number_at(words: &[&str], place: usize) -> Option<usize> {
    match words.get(place) {
        Some(word) => number(*word),
        None => Some(0),
    }
}

/// A whole number, which may be negative.
pub fn whole_number(word: &str) -> Option<isize> {
    word.parse::<isize>().ok()
}

/// An axis and a slice of it: a range, and a step, which is 1 where it is left out.
pub fn slice_of_axis(words: &[&str]) -> Option<(Axis, Slice)> {
    let (at, words) = words.split_first()?;
    let axis = axis(*at)?;
    let (range, step) = words.split_first()?;
    Some((axis, slice(*range, step_of(step)?)?))
}

/// The word of a step, which is 1 where it is left out.
fn step_of<'a>(words: &[&'a str]) -> Option<&'a str> {
    match words {
        [] => Some("1"),
        [step] => Some(*step),
        _ => None,
    }
}

/// A slice: a range, as `1..4`, `-2..`, `..-1` or `..`, and a step.
fn slice(range: &str, step: &str) -> Option<Slice> {
    let (start, end) = range.split_once("..")?;
    let step = whole_number(step)?;
    let start = if start.is_empty() {
        0
    } else {
        whole_number(start)?
    };
    let end = if end.is_empty() {
        None
    } else {
        Some(whole_number(end)?)
    };
    Some(Slice::new(start, end, step))
}

/// Lengths joined by `x`, or `.` for none.
pub fn lengths(alloc: Global, word: &str) -> Result<Option<IxDyn>, AllocError> {
    if word == "." {
        return index(alloc, &[]);
    }
    let words: Vec<&str> = word.split('x').collect(alloc)?;
    index(alloc, words.as_slice())
}

/// The lengths that a single word spells.
pub fn shape(alloc: Global, words: &[&str]) -> Result<Option<IxDyn>, AllocError> {
    match words {
        [word] => lengths(alloc, *word),
        _ => Ok(None),
    }
}

/// Two lists of lengths, each of which a word spells.
pub fn two_shapes(alloc: Global, words: &[&str]) -> Result<Option<(IxDyn, IxDyn)>, AllocError> {
    let Some((first, rest)) = words.split_first() else {
        return Ok(None);
    };
    let Some(first) = lengths(alloc, *first)? else {
        return Ok(None);
    };
    match shape(alloc, rest)? {
        Some(second) => Ok(Some((first, second))),
        None => Ok(None),
    }
}

/// The dimension of these numbers, of which there are at most 32.
pub fn dimension(numbers: &[usize]) -> Option<IxDyn> {
    if numbers.len() > 32 {
        return None;
    }
    Some(IxDyn(numbers))
}

/// An index list: an index for each word.
pub fn index(alloc: Global, words: &[&str]) -> Result<Option<IxDyn>, AllocError> {
    let mut numbers = Vec::new(alloc);
    for word in words {
        let Some(index) = number(*word) else {
            return Ok(None);
        };
        numbers.push(index)?;
    }
    Ok(dimension(numbers.as_slice()))
}

/// Cells: numbers, `1..=15` for all from 1 to 15, and `7*48` for 7 forty-eight times.
pub fn cells(alloc: Global, words: &[&str]) -> Result<Option<Vec<i64>>, AllocError> {
    let mut cells = Vec::new(alloc);
    for word in words {
        let is_spelled = match word.split_once("..=") {
            Some((first, last)) => push_range(&mut cells, first, last)?,
            None => push_copies(&mut cells, *word)?,
        };
        if !is_spelled {
            return Ok(None);
        }
    }
    Ok(Some(cells))
}

/// A cell.
pub fn cell(word: &str) -> Option<i64> {
    word.parse::<i64>().ok()
}

/// Pushes all cells from the first to the last, and returns whether both are spelled.
fn push_range(cells: &mut Vec<i64>, first: &str, last: &str) -> Result<bool, AllocError> {
    let (Some(first), Some(last)) = (cell(first), cell(last)) else {
        return Ok(false);
    };
    for value in first..=last {
        cells.push(value)?;
    }
    Ok(true)
}

/// Pushes a cell as often as a word says, and returns whether it is spelled.
fn push_copies(cells: &mut Vec<i64>, word: &str) -> Result<bool, AllocError> {
    let (word, count) = word.split_once('*').unwrap_or((word, "1"));
    let (Some(cell), Some(count)) = (cell(word), number(count)) else {
        return Ok(false);
    };
    for _ in 0..count {
        cells.push(cell)?;
    }
    Ok(true)
}
