//! Running products and differences along an axis of a table.

use crate::rows::operators::{View, push_answer};
use crate::rows::reading::Asked;
use crate::rows::spelling::numbers;
use crate::rows::wrapping::wrap_all;
use ndarray::Axis;
use std::alloc::{AllocError, Global};

/// What a call gives on a table, after calls that view it; `None` where the words spell none of these.
pub fn answer(alloc: Global, asked: &Asked<'_>) -> Result<Option<String>, AllocError> {
    match AlongCall::parse(asked.words) {
        Some(call) => compute(alloc, asked, call).map(Some),
        None => Ok(None),
    }
}

/// A call along an axis.
#[derive(Clone, Copy)]
enum AlongCall {
    Cumprod(Axis),
    Diff(usize, Axis),
}

impl AlongCall {
    /// The call that these words spell.
    fn parse(words: &[&str]) -> Option<AlongCall> {
        let (name, arguments) = words.split_first()?;
        let (first, second, _third) = numbers(arguments)?;
        match (*name, arguments.len()) {
            ("cumprod", 1) => Some(AlongCall::Cumprod(Axis(first))),
            ("diff", 2) => Some(AlongCall::Diff(first, Axis(second))),
            _ => None,
        }
    }
}

/// What a call gives on a table, after calls that view it; `refused` where a test of the library says no.
fn compute(alloc: Global, asked: &Asked<'_>, call: AlongCall) -> Result<String, AllocError> {
    let cells = wrap_all(alloc, asked.table.cells.as_slice())?;
    match asked.view_of(alloc, cells.as_slice())? {
        Ok(view) => along(alloc, &view, call),
        Err(refusal) => Ok(refusal),
    }
}

/// What a call gives on a view.
fn along(alloc: Global, view: &View<'_>, call: AlongCall) -> Result<String, AllocError> {
    let mut text = String::new(alloc);
    match call {
        AlongCall::Cumprod(axis) if view.axis_ok(axis) => {
            push_answer(&mut text, alloc, view.cumprod(alloc, axis)?)?;
        }
        AlongCall::Diff(order, axis) if view.diff_ok(order, axis) => {
            push_answer(&mut text, alloc, view.diff(alloc, order, axis)?)?;
        }
        _ => text.push_str("refused")?,
    }
    Ok(text)
}
