//! Tables joined along an axis or stacked along a new one, and triangles of a table.

use crate::rows::answer::parse_table;
use crate::rows::calls::ViewCall;
use crate::rows::layouts::{LAYOUTS, Layout, Table};
use crate::rows::operators::push_text;
use crate::rows::reading::{apply_all, kind};
use crate::rows::spelling::{axis, whole_number};
use crate::rows::text::as_text;
use ndarray::{Array, ArrayView, Axis, IxDyn, StackError, concatenate, stack};
use std::alloc::{AllocError, Global};

/// A view of a table.
type View<'a> = ArrayView<'a, i64, IxDyn>;

/// What a call gives on a table, after calls that view it; `None` where it is none of these.
///
/// Further tables of the call, which are joined by commas, have each layout in turn. Answers that differ are joined by
/// `or`.
pub fn answer(
    alloc: Global,
    table: &Table,
    views: &[ViewCall],
    call: &str,
) -> Result<Option<String>, AllocError> {
    let pieces: Vec<&str> = call.split(',').collect(alloc)?;
    let Some((first, others)) = pieces.as_slice().split_first() else {
        return Ok(None);
    };
    let words: Vec<&str> = first.split_whitespace().collect(alloc)?;
    let [name, argument, words @ ..] = words.as_slice() else {
        return Ok(None);
    };
    let Some(call) = JoinCall::parse(*name, *argument) else {
        return Ok(None);
    };
    match table.view() {
        Ok(view) => match apply_all(view, views) {
            Some(view) if call.takes(words, others) => {
                in_each_layout(alloc, &view, call, words, others).map(Some)
            }
            Some(_) => Ok(None),
            None => "refused".to_string(alloc).map(Some),
        },
        Err(error) => kind(alloc, &error).map(Some),
    }
}

/// A call that joins tables, or takes a triangle of one.
#[derive(Clone, Copy)]
enum JoinCall {
    Concatenate(Axis),
    Stack(Axis),
    Triu(isize),
    Tril(isize),
}

impl JoinCall {
    /// The call of this name with this argument.
    fn parse(name: &str, argument: &str) -> Option<JoinCall> {
        match name {
            "concatenate" => Some(JoinCall::Concatenate(axis(argument)?)),
            "stack" => Some(JoinCall::Stack(axis(argument)?)),
            "triu" => Some(JoinCall::Triu(whole_number(argument)?)),
            "tril" => Some(JoinCall::Tril(whole_number(argument)?)),
            _ => None,
        }
    }

    /// Whether the call takes further tables: the words of the first, and the others.
    fn takes(self, first: &[&str], others: &[&str]) -> bool {
        match self {
            JoinCall::Concatenate(_) | JoinCall::Stack(_) => !first.is_empty() || others.is_empty(),
            JoinCall::Triu(_) | JoinCall::Tril(_) => first.is_empty() && others.is_empty(),
        }
    }
}

/// What a call gives on a view and further tables, in each layout of those.
fn in_each_layout(
    alloc: Global,
    view: &View<'_>,
    call: JoinCall,
    first: &[&str],
    others: &[&str],
) -> Result<String, AllocError> {
    let mut text = String::new(alloc);
    for layout in LAYOUTS {
        let Some(tables) = parse_all(alloc, first, others, *layout)? else {
            return "not understood".to_string(alloc);
        };
        let next = match join(alloc, view, call, tables.as_slice())? {
            Ok(array) => as_text(alloc, &array.view())?,
            Err(StackError::Shape(error)) => kind(alloc, &error)?,
            Err(StackError::Memory(error)) => return Err(error),
        };
        push_text(&mut text, next.as_str())?;
    }
    Ok(text)
}

/// The further tables of a call; `None` where words spell none.
fn parse_all(
    alloc: Global,
    first: &[&str],
    others: &[&str],
    layout: Layout,
) -> Result<Option<Vec<Table>>, AllocError> {
    let mut tables = Vec::new(alloc);
    if first.is_empty() {
        return Ok(Some(tables));
    }
    let Some(table) = parse_table(alloc, first, layout)? else {
        return Ok(None);
    };
    tables.push(table)?;
    for other in others {
        let words: Vec<&str> = other.split_whitespace().collect(alloc)?;
        let Some(table) = parse_table(alloc, words.as_slice(), layout)? else {
            return Ok(None);
        };
        tables.push(table)?;
    }
    Ok(Some(tables))
}

/// What a call gives on a view and further tables.
fn join(
    alloc: Global,
    view: &View<'_>,
    call: JoinCall,
    tables: &[Table],
) -> Result<Result<Array<i64, IxDyn>, StackError>, AllocError> {
    let mut views = Vec::new(alloc);
    views.push(view.view())?;
    for table in tables {
        match table.view() {
            Ok(view) => views.push(view)?,
            Err(error) => return Ok(Err(StackError::from(error))),
        }
    }
    Ok(match call {
        JoinCall::Concatenate(axis) => concatenate(alloc, axis, views.as_slice()),
        JoinCall::Stack(axis) => stack(alloc, axis, views.as_slice()),
        JoinCall::Triu(k) => Ok(view.triu(alloc, k)?),
        JoinCall::Tril(k) => Ok(view.tril(alloc, k)?),
    })
}
