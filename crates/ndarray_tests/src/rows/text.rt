//! Answers as text.

use ndarray::{ArrayView, Lengths};
use std::alloc::{AllocError, Global};

/// Appends a view, as `2x3 1 2 3 4 5 6`: its lengths, and its cells in row order.
pub fn push_view<D: Lengths>(
    text: &mut String,
    view: &ArrayView<'_, i64, D>,
) -> Result<(), AllocError> {
    push_lengths(text, view.shape())?;
    for cell in view.iter() {
        write!(text, " {cell}")?;
    }
    Ok(())
}

/// A view as text.
pub fn as_text<D: Lengths>(
    alloc: Global,
    view: &ArrayView<'_, i64, D>,
) -> Result<String, AllocError> {
    let mut text = String::new(alloc);
    push_view(&mut text, view)?;
    Ok(text)
}

/// Appends lengths joined by `x`, or `.` for none.
pub fn push_lengths(text: &mut String, lengths: &[usize]) -> Result<(), AllocError> {
    if lengths.is_empty() {
        return text.push_str(".");
    }
    push_numbers(text, lengths, "x")
}

/// Appends numbers with a text between any two.
pub fn push_numbers(text: &mut String, numbers: &[usize], between: &str) -> Result<(), AllocError> {
    let mut is_first = true;
    for number in numbers {
        if !is_first {
            text.push_str(between)?;
        }
        write!(text, "{number}")?;
        is_first = false;
    }
    Ok(())
}

/// Appends what comes between two results, where there is one already.
pub fn push_separator(text: &mut String) -> Result<(), AllocError> {
    if text.is_empty() {
        return Ok(());
    }
    text.push_str(", ")
}

/// Appends a word after the results before it.
pub fn push_word(text: &mut String, word: &str) -> Result<(), AllocError> {
    push_separator(text)?;
    text.push_str(word)
}
