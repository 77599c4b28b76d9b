//! Calls that write, and what the table holds afterwards.

use crate::rows::calls::{CellsMut, PartCall, Pieces, ViewCall, WriteCall};
use crate::rows::items::fill;
use crate::rows::layouts::{HIDDEN, Layout, Table, cut};
use crate::rows::reading::{View, apply_all, kind};
use crate::rows::stepping::{Ending, Stepped, step_both_ends, step_forward};
use crate::rows::steps::Step;
use crate::rows::text::push_view;
use crate::rows::updating::update;
use ndarray::iter::ElementsBaseMut;
use ndarray::{Array, ArrayBase, ArrayViewMut, Axis, DataMut, IxDyn, Lengths, Slice};
use std::alloc::{AllocError, Global};

/// A view to write in with any number of axes.
type ViewMut<'a> = ArrayViewMut<'a, i64, IxDyn>;

/// What a table holds after the calls on a view to write in, and behind it the results of the steps.
///
/// Each item that a step takes is written with its number, counted from 1: the cell, each cell of the
/// subview, or for an indexed item the digits of its index list.
pub fn answer(alloc: Global, table: Table, calls: &[&str]) -> Result<String, AllocError> {
    let Some(calls) = Calls::parse(alloc, calls)? else {
        return "not understood".to_string(alloc);
    };
    let layout = table.layout;
    match table.into_array() {
        Ok(array) => write_in(alloc, array, layout, calls),
        Err(error) => kind(alloc, &error),
    }
}

/// The calls of a row on a view to write in.
#[derive(Drop)]
struct Calls {
    // The part that is borrowed before the others.
    part: Option<PartCall>,
    views: Vec<ViewCall>,
    last: WriteCall,
    steps: Vec<Step>,
}

impl Calls {
    /// The calls that these texts spell.
    fn parse(alloc: Global, calls: &[&str]) -> Result<Option<Calls>, AllocError> {
        let Some((first, rest)) = calls.split_first() else {
            return Ok(None);
        };
        match parse_part(alloc, *first)? {
            Some(part) => Calls::after(alloc, Some(part), rest),
            None => Calls::after(alloc, None, calls),
        }
    }

    /// The calls that these texts spell, after that of a part.
    fn after(
        alloc: Global,
        part: Option<PartCall>,
        calls: &[&str],
    ) -> Result<Option<Calls>, AllocError> {
        let views = parse_views(alloc, calls)?;
        let rest = calls.get(views.len()..).unwrap_or(&[]);
        match parse_last(alloc, rest)? {
            Some((last, steps)) => Ok(Some(Calls {
                part,
                views,
                last,
                steps,
            })),
            None => Ok(None),
        }
    }
}

/// The calls that make views, up to the first other one.
pub fn parse_views(alloc: Global, calls: &[&str]) -> Result<Vec<ViewCall>, AllocError> {
    let mut views = Vec::new(alloc);
    for call in calls {
        match ViewCall::of_text(alloc, *call)? {
            Some(view) => views.push(view)?,
            None => return Ok(views),
        }
    }
    Ok(views)
}

/// The call that writes, the first of these, and its steps.
pub fn parse_last(
    alloc: Global,
    calls: &[&str],
) -> Result<Option<(WriteCall, Vec<Step>)>, AllocError> {
    let Some((call, steps)) = calls.split_first() else {
        return Ok(None);
    };
    let Some(steps) = Step::parse_all(alloc, steps)? else {
        return Ok(None);
    };
    let words: Vec<&str> = call.split_whitespace().collect(alloc)?;
    match WriteCall::parse(alloc, words.as_slice())? {
        Some(call) => Ok(Some((call, steps))),
        None => Ok(None),
    }
}

/// The call that this text spells, where it borrows a part to write in.
fn parse_part(alloc: Global, call: &str) -> Result<Option<PartCall>, AllocError> {
    let words: Vec<&str> = call.split_whitespace().collect(alloc)?;
    let Some((name, arguments)) = words.as_slice().split_first() else {
        return Ok(None);
    };
    match name.strip_suffix("_mut") {
        Some(name) => Ok(PartCall::parse(name, arguments)),
        None => Ok(None),
    }
}

/// What a table holds after the calls on a view to write in of the array in which it lies.
fn write_in(
    alloc: Global,
    given: Array<i64, IxDyn>,
    layout: Layout,
    calls: Calls,
) -> Result<String, AllocError> {
    let mut array = given;
    let everywhere = array.len();
    let mut view = array.view_mut();
    cut(&mut view, layout);
    let inside = view.len();
    let ending = write_part(alloc, view, calls)?;
    let hidden = count_hidden(&array.view());
    cut(&mut array, layout);
    let table = array.view();
    if hidden.wrapping_sub(count_hidden(&table)) != everywhere.wrapping_sub(inside) {
        return "a place outside the table is written".to_string(alloc);
    }
    show_ending(alloc, &table, ending)
}

/// What a table holds after the calls and the results of the steps, or why they ended.
pub fn show_ending(alloc: Global, table: &View<'_>, ending: Ending) -> Result<String, AllocError> {
    match ending {
        Ending::Done(answers) => show_table(alloc, table, answers.as_str()),
        ending => ending.into_text(alloc),
    }
}

/// What a table holds, and the results of the steps.
fn show_table(alloc: Global, table: &View<'_>, answers: &str) -> Result<String, AllocError> {
    let mut text = String::new(alloc);
    push_view(&mut text, table)?;
    if !answers.is_empty() {
        text.push_str(", ")?;
        text.push_str(answers)?;
    }
    Ok(text)
}

/// How many cells hold what lies outside a table.
fn count_hidden(array: &View<'_>) -> usize {
    let mut count = 0usize;
    for cell in array.iter() {
        if *cell == HIDDEN {
            count = count.wrapping_add(1);
        }
    }
    count
}

/// Carries out calls on a view, or on the part of it that the first of them borrows.
fn write_part(alloc: Global, given: ViewMut<'_>, calls: Calls) -> Stepped {
    let mut view = given;
    match calls.part {
        Some(part) => match part_of(&mut view, part) {
            Some(part) => view_written(alloc, part, calls),
            None => Ok(Ending::Refused),
        },
        None => view_written(alloc, view, calls),
    }
}

/// The part of a view that a call borrows; `None` where its test says no.
fn part_of<'b>(view: &'b mut ViewMut<'_>, call: PartCall) -> Option<ViewMut<'b>> {
    match call {
        PartCall::View => Some(view.view_mut()),
        PartCall::SliceAxis(axis, slice) => slice_of(view, axis, slice),
        PartCall::IndexAxis(axis, index) => item_of(view, axis, index),
        PartCall::Transposed => None,
    }
}

/// A slice of an axis of a view; `None` where its test says no.
fn slice_of<'b>(view: &'b mut ViewMut<'_>, axis: Axis, slice: Slice) -> Option<ViewMut<'b>> {
    if view.slice_ok(axis, slice) {
        Some(view.slice_axis_mut(axis, slice))
    } else {
        None
    }
}

/// An item along an axis of a view; `None` where there is none.
fn item_of<'b>(view: &'b mut ViewMut<'_>, axis: Axis, index: usize) -> Option<ViewMut<'b>> {
    if view.axis_ok(axis) && index < view.len_of(axis) {
        Some(view.index_axis_mut(axis, index))
    } else {
        None
    }
}

/// Makes the views that the calls name, one of another, and writes to the last.
fn view_written(alloc: Global, view: ViewMut<'_>, calls: Calls) -> Stepped {
    match apply_all(view, calls.views.as_slice()) {
        Some(view) => last_written(alloc, view, calls.last, calls.steps.as_slice()),
        None => Ok(Ending::Refused),
    }
}

/// Writes to the items of a call, which may take the view itself.
fn last_written(alloc: Global, given: ViewMut<'_>, call: WriteCall, steps: &[Step]) -> Stepped {
    match call {
        WriteCall::IntoIter => step_forward(alloc, given.into_iter(), steps),
        WriteCall::ElementsBaseMut => step_forward(alloc, ElementsBaseMut::new(given), steps),
        call => {
            let mut view = given;
            write_call(alloc, &mut view, call, steps)
        }
    }
}

/// Writes to the items of a call.
pub fn write_call(
    alloc: Global,
    view: &mut ViewMut<'_>,
    call: WriteCall,
    steps: &[Step],
) -> Stepped {
    match call {
        WriteCall::GetMut(at, value) => set(alloc, view, at, value),
        WriteCall::SplitAt(axis, index) => Ok(write_both(alloc, view.view_mut(), axis, index)),
        WriteCall::Update(call) => Ok(update(alloc, view, call)),
        WriteCall::Cells(call) => write_cells(alloc, view, call, steps),
        WriteCall::Pieces(pieces) => write_pieces(alloc, view, pieces, steps),
        WriteCall::IntoIter | WriteCall::ElementsBaseMut => Ok(Ending::Unknown),
    }
}

/// Writes to each cell of an iterator over cells.
fn write_cells(alloc: Global, view: &mut ViewMut<'_>, call: CellsMut, steps: &[Step]) -> Stepped {
    match call {
        CellsMut::IterMut => step_forward(alloc, view.iter_mut(), steps),
        CellsMut::IndexedIterMut => step_forward(alloc, view.indexed_iter_mut(), steps),
        CellsMut::MutIntoIter => by_reference(alloc, view, steps),
    }
}

/// Writes to the items of an iterator that is made of a reference to a view.
fn by_reference(alloc: Global, view: &mut ViewMut<'_>, steps: &[Step]) -> Stepped {
    step_forward(alloc, view.into_iter(), steps)
}

/// Writes a number to the cell at an index list, whatever keeps the cells.
pub fn set<S: DataMut<Elem = i64>>(
    alloc: Global,
    array: &mut ArrayBase<S, IxDyn>,
    index: IxDyn,
    value: i64,
) -> Stepped {
    match array.get_mut(index) {
        Some(cell) => {
            *cell = value;
            Ok(Ending::Done(String::new(alloc)))
        }
        None => Ok(Ending::Done("none".to_string(alloc)?)),
    }
}

/// Writes 2 to the second part of a view and then 1 to the first, which is held at the same time.
fn write_both(alloc: Global, view: ViewMut<'_>, axis: Axis, index: usize) -> Ending {
    if !view.axis_ok(axis) || view.len_of(axis) < index {
        return Ending::Refused;
    }
    let (first, second) = view.split_at(axis, index);
    fill(second, 2);
    fill(first, 1);
    Ending::Done(String::new(alloc))
}

/// Writes to the subviews of a call.
fn write_pieces(alloc: Global, view: &mut ViewMut<'_>, pieces: Pieces, steps: &[Step]) -> Stepped {
    match pieces {
        Pieces::AxisIter(axis) => write_items(alloc, view, axis, steps),
        Pieces::OuterIter => write_outer_items(alloc, view, steps),
        Pieces::AxisChunksIter(axis, size) => write_chunks(alloc, view, axis, size, steps),
        Pieces::Lanes(axis) => write_lanes(alloc, view, axis, steps),
        Pieces::Rows => step_forward(alloc, view.rows_mut().into_iter(), steps),
        Pieces::Columns => step_forward(alloc, view.columns_mut().into_iter(), steps),
        Pieces::ExactChunks(chunk) => write_exact_chunks(alloc, view, chunk, steps),
        _ => Ok(Ending::Unknown),
    }
}

/// Writes to the items along an axis.
fn write_items(alloc: Global, view: &mut ViewMut<'_>, axis: Axis, steps: &[Step]) -> Stepped {
    if !view.axis_ok(axis) {
        return Ok(Ending::Refused);
    }
    step_both_ends(alloc, view.axis_iter_mut(axis), steps)
}

/// Writes to the items along the first axis.
fn write_outer_items(alloc: Global, view: &mut ViewMut<'_>, steps: &[Step]) -> Stepped {
    if !view.axis_ok(Axis(0)) {
        return Ok(Ending::Refused);
    }
    step_both_ends(alloc, view.outer_iter_mut(), steps)
}

/// Writes to the chunks along an axis.
fn write_chunks(
    alloc: Global,
    view: &mut ViewMut<'_>,
    axis: Axis,
    size: usize,
    steps: &[Step],
) -> Stepped {
    if !view.chunk_ok(axis, size) {
        return Ok(Ending::Refused);
    }
    step_both_ends(alloc, view.axis_chunks_iter_mut(axis, size), steps)
}

/// Writes to the lanes along an axis.
fn write_lanes(alloc: Global, view: &mut ViewMut<'_>, axis: Axis, steps: &[Step]) -> Stepped {
    if !view.lanes_ok(axis) {
        return Ok(Ending::Refused);
    }
    step_forward(alloc, view.lanes_mut(axis).into_iter(), steps)
}

/// Writes to the whole chunks of these lengths.
fn write_exact_chunks(
    alloc: Global,
    view: &mut ViewMut<'_>,
    chunk: IxDyn,
    steps: &[Step],
) -> Stepped {
    if !view.chunks_ok(&chunk) {
        return Ok(Ending::Refused);
    }
    step_forward(alloc, view.exact_chunks_mut(chunk).into_iter(), steps)
}
