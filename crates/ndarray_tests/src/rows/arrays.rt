//! Calls on arrays that own their cells, or may own them.

use crate::rows::calls::{ViewCall, WriteCall};
use crate::rows::layouts::{Layout, Table, cut};
use crate::rows::stepping::step_forward;
use crate::rows::steps::Step;
use crate::rows::text::as_text;
use crate::rows::updating::update;
use crate::rows::{reading, spelling, writing};
use ndarray::iter::IntoIter;
use ndarray::{Array, CowArray, IxDyn, Lengths, ShapeBuilder};
use std::alloc::{AllocError, Global};

/// What calls give on an array that owns the cells of a table.
pub fn answer(alloc: Global, table: Table, calls: &[&str]) -> Result<String, AllocError> {
    let layout = table.layout;
    match table.into_array() {
        Ok(whole) => {
            let mut array = whole;
            cut(&mut array, layout);
            carry_out(alloc, array, layout, calls)
        }
        Err(error) => reading::kind(alloc, &error),
    }
}

/// What calls give on an array that borrows the cells of a table, and would own a copy of them.
pub fn borrow(alloc: Global, table: &Table, calls: &[&str]) -> Result<String, AllocError> {
    match table.view() {
        Ok(view) => share(alloc, CowArray::from(view), calls),
        Err(error) => reading::kind(alloc, &error),
    }
}

/// What calls give on an array: calls that make another array of it, and then one of another kind.
fn carry_out(
    alloc: Global,
    given: Array<i64, IxDyn>,
    layout: Layout,
    calls: &[&str],
) -> Result<String, AllocError> {
    let mut array = given;
    for (at, call) in calls.iter().enumerate() {
        let Some(call) = ArrayCall::parse(alloc, *call)? else {
            return finish(alloc, array, calls.get(at..).unwrap_or(&[]));
        };
        array = match make(alloc, array, layout, call)? {
            Some(next) => next,
            None => return "refused".to_string(alloc),
        };
    }
    as_text(alloc, &array.view())
}

/// The array that a call makes of an array; `None` where its test says no.
fn make(
    alloc: Global,
    array: Array<i64, IxDyn>,
    layout: Layout,
    call: ArrayCall,
) -> Result<Option<Array<i64, IxDyn>>, AllocError> {
    match call {
        ArrayCall::View(call) => Ok(reading::apply(array, call).unwrap_or(None)),
        ArrayCall::ToOwned => Array::to_owned(&array, alloc).map(Some),
        ArrayCall::IntoOwned => array.into_owned(alloc).map(Some),
        ArrayCall::Zeros => zeros(alloc, &array, layout).map(Some),
        ArrayCall::FromElem(cell) => of_one_cell(alloc, &array, layout, cell).map(Some),
    }
}

/// A call that makes an array of an array.
#[derive(Clone, Copy)]
enum ArrayCall {
    View(ViewCall),
    ToOwned,
    IntoOwned,
    Zeros,
    FromElem(i64),
}

impl ArrayCall {
    /// The call that this text spells.
    fn parse(alloc: Global, call: &str) -> Result<Option<ArrayCall>, AllocError> {
        let words: Vec<&str> = call.split_whitespace().collect(alloc)?;
        match ViewCall::parse(words.as_slice()) {
            Some(call) => Ok(Some(ArrayCall::View(call))),
            None => Ok(ArrayCall::parse_maker(words.as_slice())),
        }
    }

    /// The call that these words spell, which makes an array anew.
    fn parse_maker(words: &[&str]) -> Option<ArrayCall> {
        match words {
            ["from_elem", word] => Some(ArrayCall::FromElem(spelling::cell(*word)?)),
            [name] => ArrayCall::by_name(*name),
            _ => None,
        }
    }

    /// The call of this name without arguments.
    fn by_name(name: &str) -> Option<ArrayCall> {
        match name {
            "to_owned" => Some(ArrayCall::ToOwned),
            "into_owned" => Some(ArrayCall::IntoOwned),
            "zeros" => Some(ArrayCall::Zeros),
            _ => None,
        }
    }
}

/// An array of zeros with the lengths of another one.
fn zeros(
    alloc: Global,
    array: &Array<i64, IxDyn>,
    layout: Layout,
) -> Result<Array<i64, IxDyn>, AllocError> {
    let lengths = array.raw_dim();
    if layout == Layout::ColumnMajor {
        Array::zeros(alloc, lengths.f())
    } else {
        Array::zeros(alloc, lengths)
    }
}

/// An array with one element in each cell, with the lengths of another one.
fn of_one_cell(
    alloc: Global,
    array: &Array<i64, IxDyn>,
    layout: Layout,
    cell: i64,
) -> Result<Array<i64, IxDyn>, AllocError> {
    let lengths = array.raw_dim();
    if layout == Layout::ColumnMajor {
        Array::from_elem(alloc, lengths.f(), cell)
    } else {
        Array::from_elem(alloc, lengths, cell)
    }
}

/// What a call gives that makes no other array: the cells that are moved out, an array that may be owned, or what the
/// array holds after a call that writes.
fn finish(alloc: Global, array: Array<i64, IxDyn>, calls: &[&str]) -> Result<String, AllocError> {
    let Some((call, rest)) = calls.split_first() else {
        return as_text(alloc, &array.view());
    };
    match call.trim() {
        "cow_array" => share(alloc, CowArray::from(array), rest),
        "into_iter" => move_out(alloc, array.into_iter(), rest),
        _ => write(alloc, array, calls),
    }
}

/// What an array holds after a call that writes, the first of these.
fn write(alloc: Global, given: Array<i64, IxDyn>, calls: &[&str]) -> Result<String, AllocError> {
    let Some((call, steps)) = writing::parse_last(alloc, calls)? else {
        return "not understood".to_string(alloc);
    };
    let mut array = given;
    let ending = match call {
        WriteCall::GetMut(at, value) => writing::set(alloc, &mut array, at, value)?,
        WriteCall::Update(call) => update(alloc, &mut array, call),
        call => writing::write_call(alloc, &mut array.view_mut(), call, steps.as_slice())?,
    };
    writing::show_ending(alloc, &array.view(), ending)
}

/// What a call gives on an array that may be owned.
fn share(
    alloc: Global,
    array: CowArray<'_, i64, IxDyn>,
    calls: &[&str],
) -> Result<String, AllocError> {
    let (name, rest) = match calls.split_first() {
        Some((name, rest)) => (name.trim(), rest),
        None => ("", calls),
    };
    match name {
        "into_owned" if rest.is_empty() => as_text(alloc, &array.into_owned(alloc)?.view()),
        "try_into_iter" => move_out(alloc, array.try_into_iter(alloc)?, rest),
        _ => reading::answer(alloc, array.view(), calls),
    }
}

/// What the steps of an iterator give that moves cells out.
fn move_out(
    alloc: Global,
    cells: IntoIter<i64, IxDyn>,
    steps: &[&str],
) -> Result<String, AllocError> {
    match Step::parse_all(alloc, steps)? {
        Some(steps) => step_forward(alloc, cells, steps.as_slice())?.into_text(alloc),
        None => "not understood".to_string(alloc),
    }
}
