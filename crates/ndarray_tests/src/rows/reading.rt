//! Calls that read.

use crate::rows::calls::{Cells, PartCall, Pieces, ViewCall};
use crate::rows::layouts::Table;
use crate::rows::stepping::{Ending, Stepped};
use crate::rows::steps::Step;
use crate::rows::text::as_text;
use crate::rows::{lists, spelling, values};
use ndarray::{
    ArrayBase, ArrayView, Axis, Data, Ix0, Ix1, Ix2, Ix3, Ix6, IxDyn, Lengths, ShapeError,
};
use std::alloc::{AllocError, Global};

/// A view with any number of axes.
pub type View<'a> = ArrayView<'a, i64, IxDyn>;

/// What calls give on a view, from the first to the last: `refused` where a test of the library says no, and
/// `not understood` where one is no call of rows.
pub fn answer(alloc: Global, view: View<'_>, calls: &[&str]) -> Result<String, AllocError> {
    let Some((call, rest)) = calls.split_first() else {
        return as_text(alloc, &view);
    };
    match Call::parse(alloc, *call, rest)? {
        Call::View(call) => match apply(view, call) {
            Ok(Some(next)) => answer(alloc, next, rest),
            Ok(None) => "refused".to_string(alloc),
            Err(error) => kind(alloc, &error),
        },
        Call::Part(call) => match part_of(&view, call) {
            Some(part) => answer(alloc, part, rest),
            None => "refused".to_string(alloc),
        },
        Call::Broadcast(lengths) => match view.broadcast(lengths) {
            Some(wide) => answer(alloc, wide, rest),
            None => "none".to_string(alloc),
        },
        Call::Item(pieces, number) => match (lists::nth(&view, &pieces, number), rest) {
            (Some(item), [_, rest @ ..]) => answer(alloc, item, rest),
            _ => "refused".to_string(alloc),
        },
        Call::ToOwned => {
            let array = ArrayView::to_owned(&view, alloc)?;
            answer(alloc, array.view(), rest)
        }
        Call::Last => answer_last(alloc, &view, *call, rest),
    }
}

/// The kind of an error of the library.
pub fn kind(alloc: Global, error: &ShapeError) -> Result<String, AllocError> {
    format!(in alloc; "{:?}", error.kind())
}

/// A call that computes with a table: the table, the calls that view it before, and the words of this one.
#[derive(Clone, Copy)]
pub struct Asked<'a> {
    pub table: &'a Table,
    pub views: &'a [ViewCall],
    pub words: &'a [&'a str],
}

impl Asked<'_> {
    /// A view of cells that lie as those of the table, after the calls that view it; what the row says where there is none
    /// is the error.
    pub fn view_of<'c, A>(
        &self,
        alloc: Global,
        cells: &'c [A],
    ) -> Result<Result<ArrayView<'c, A, IxDyn>, String>, AllocError> {
        let view = match self.table.view_of(cells) {
            Ok(view) => view,
            Err(error) => return Ok(Err(kind(alloc, &error)?)),
        };
        match apply_all(view, self.views) {
            Some(view) => Ok(Ok(view)),
            None => Ok(Err("refused".to_string(alloc)?)),
        }
    }
}

/// The next call of a row.
#[derive(Drop)]
enum Call {
    View(ViewCall),
    Part(PartCall),
    Broadcast(IxDyn),
    // The subview of a number among those that a call yields: two calls of the row.
    Item(Pieces, usize),
    ToOwned,
    // One that makes no view.
    Last,
}

impl Call {
    /// What a call is, before the other ones.
    fn parse(alloc: Global, call: &str, rest: &[&str]) -> Result<Call, AllocError> {
        let words: Vec<&str> = call.split_whitespace().collect(alloc)?;
        let words = words.as_slice();
        if let Some(call) = ViewCall::parse(words) {
            return Ok(Call::View(call));
        }
        match words.split_first() {
            Some((name, arguments)) => Call::by_name(alloc, *name, arguments, rest),
            None => Ok(Call::Last),
        }
    }

    /// The call of this name with these arguments, before the other ones.
    fn by_name(
        alloc: Global,
        name: &str,
        arguments: &[&str],
        rest: &[&str],
    ) -> Result<Call, AllocError> {
        if let Some(part) = PartCall::parse(name, arguments) {
            return Ok(Call::Part(part));
        }
        match arguments {
            [] if name == "to_owned" => Ok(Call::ToOwned),
            [shape] if name == "broadcast" => Call::broadcast(alloc, *shape),
            arguments => Call::item(alloc, name, arguments, rest),
        }
    }

    /// The broadcast to these lengths.
    fn broadcast(alloc: Global, shape: &str) -> Result<Call, AllocError> {
        match spelling::lengths(alloc, shape)? {
            Some(lengths) => Ok(Call::Broadcast(lengths)),
            None => Ok(Call::Last),
        }
    }

    /// The subview that the call after this one names, where it names one.
    fn item(
        alloc: Global,
        name: &str,
        arguments: &[&str],
        rest: &[&str],
    ) -> Result<Call, AllocError> {
        let Some(number) = item_number(rest) else {
            return Ok(Call::Last);
        };
        match Pieces::parse(alloc, name, arguments)? {
            Some(pieces) => Ok(Call::Item(pieces, number)),
            None => Ok(Call::Last),
        }
    }
}

/// The number that `item` names, as the first of some calls.
fn item_number(calls: &[&str]) -> Option<usize> {
    let (call, _rest) = calls.split_first()?;
    spelling::number(call.trim().strip_prefix("item ")?)
}

/// The part of a view that a call borrows; `None` where its test says no.
fn part_of<'b>(view: &'b View<'_>, call: PartCall) -> Option<View<'b>> {
    match call {
        PartCall::View => Some(view.view()),
        PartCall::Transposed => Some(view.t()),
        PartCall::SliceAxis(axis, slice) if view.slice_ok(axis, slice) => {
            Some(view.slice_axis(axis, slice))
        }
        PartCall::IndexAxis(axis, index) if view.axis_ok(axis) && index < view.len_of(axis) => {
            Some(view.index_axis(axis, index))
        }
        _ => None,
    }
}

/// What a call gives that makes no view: a value, or the items of a list.
fn answer_last(
    alloc: Global,
    view: &View<'_>,
    call: &str,
    rest: &[&str],
) -> Result<String, AllocError> {
    let words: Vec<&str> = call.split_whitespace().collect(alloc)?;
    let words = words.as_slice();
    if rest.is_empty() {
        if let Some(text) = values::answer(alloc, view, words)? {
            return Ok(text);
        }
    }
    step_through(alloc, view, words, rest)?.into_text(alloc)
}

/// What the steps of a list give.
fn step_through(alloc: Global, view: &View<'_>, words: &[&str], calls: &[&str]) -> Stepped {
    let (Some((name, arguments)), Some(steps)) = (
        words.split_first(),
        Step::parse_all(alloc, calls)?,
    ) else {
        return Ok(Ending::Unknown);
    };
    if let Some(call) = Cells::parse(words) {
        return lists::cells(alloc, view, call, steps.as_slice());
    }
    match Pieces::parse(alloc, *name, arguments)? {
        Some(pieces) => lists::pieces(alloc, view, &pieces, steps.as_slice()),
        None => Ok(Ending::Unknown),
    }
}

/// The view that calls make of a view, one of another; `None` where a test of one of them says no.
pub fn apply_all<S: Data>(
    given: ArrayBase<S, IxDyn>,
    calls: &[ViewCall],
) -> Option<ArrayBase<S, IxDyn>> {
    let mut view = given;
    for call in calls {
        view = match apply(view, *call) {
            Ok(Some(next)) => next,
            _ => return None,
        };
    }
    Some(view)
}

/// The view that a call makes of a view, or `None` where its test says no.
pub fn apply<S: Data>(
    view: ArrayBase<S, IxDyn>,
    call: ViewCall,
) -> Result<Option<ArrayBase<S, IxDyn>>, ShapeError> {
    match call {
        ViewCall::ReversedAxes => Ok(Some(view.reversed_axes())),
        ViewCall::IndexAxisMove(axis, index) => Ok(item_of(view, axis, index)),
        ViewCall::InsertAxis(axis) => Ok(with_axis(view, axis)),
        ViewCall::IntoDimensionality(axes) => round_trip_by_axes(view, axes),
        call => Ok(apply_in_place(view, call)),
    }
}

/// A view that is changed in place; `None` where the test of the call says no.
fn apply_in_place<S: Data>(
    given: ArrayBase<S, IxDyn>,
    call: ViewCall,
) -> Option<ArrayBase<S, IxDyn>> {
    let mut view = given;
    match call {
        ViewCall::InvertAxis(axis) if view.axis_ok(axis) => view.invert_axis(axis),
        ViewCall::SwapAxes(first, second)
            if view.axis_ok(Axis(first)) && view.axis_ok(Axis(second)) => {
            view.swap_axes(first, second)
        }
        ViewCall::SliceAxisInplace(axis, slice) if view.slice_ok(axis, slice) => {
            view.slice_axis_inplace(axis, slice)
        }
        _ => return None,
    }
    Some(view)
}

/// An item along an axis; `None` where there is none.
fn item_of<S: Data>(
    view: ArrayBase<S, IxDyn>,
    axis: Axis,
    index: usize,
) -> Option<ArrayBase<S, IxDyn>> {
    if view.axis_ok(axis) && index < view.len_of(axis) {
        Some(view.index_axis_move(axis, index))
    } else {
        None
    }
}

/// A view with an axis more; `None` where it has no place.
fn with_axis<S: Data>(view: ArrayBase<S, IxDyn>, axis: Axis) -> Option<ArrayBase<S, IxDyn>> {
    if axis.0 <= view.ndim() && view.ndim() < 32 {
        Some(view.insert_axis(axis))
    } else {
        None
    }
}

/// An array under so many fixed axes, and back; `None` for a number that rows do not have.
fn round_trip_by_axes<S: Data>(
    array: ArrayBase<S, IxDyn>,
    axes: usize,
) -> Result<Option<ArrayBase<S, IxDyn>>, ShapeError> {
    match axes {
        0 => round_trip::<S, Ix0>(array).map(Some),
        1 => round_trip::<S, Ix1>(array).map(Some),
        2 => round_trip::<S, Ix2>(array).map(Some),
        3 => round_trip::<S, Ix3>(array).map(Some),
        6 => round_trip::<S, Ix6>(array).map(Some),
        _ => Ok(None),
    }
}

/// An array under a fixed number of axes, and back.
fn round_trip<S: Data, E: Lengths>(
    array: ArrayBase<S, IxDyn>,
) -> Result<ArrayBase<S, IxDyn>, ShapeError> {
    array
        .into_dimensionality::<E>()?
        .into_dimensionality::<IxDyn>()
}
