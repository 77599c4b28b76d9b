//! Calls that answer a number, a cell, or yes or no.

use crate::rows::reading::View;
use crate::rows::spelling::{index, numbers, shape, slice_of_axis, two_shapes};
use crate::rows::text::{as_text, push_lengths, push_view};
use ndarray::Axis;
use std::alloc::{AllocError, Global};

/// What a call returns; `None` for another call.
pub fn answer(
    alloc: Global,
    view: &View<'_>,
    words: &[&str],
) -> Result<Option<String>, AllocError> {
    let Some((name, arguments)) = words.split_first() else {
        return Ok(None);
    };
    match *name {
        "get" => cell_at(alloc, view, arguments),
        "slice_ok" => is_so(alloc, slice_fits(view, arguments)),
        "chunks_ok" => is_so(alloc, chunks_fit(alloc, view, arguments)?),
        "windows_ok" => is_so(alloc, windows_fit(alloc, view, arguments)?),
        name => of_numbers(alloc, view, name, arguments),
    }
}

/// What a call returns whose arguments are numbers.
fn of_numbers(
    alloc: Global,
    view: &View<'_>,
    name: &str,
    arguments: &[&str],
) -> Result<Option<String>, AllocError> {
    let Some((first, second, _third)) = numbers(arguments) else {
        return Ok(None);
    };
    match arguments.len() {
        0 => of_view(alloc, view, name),
        1 => along(alloc, view, name, Axis(first)),
        2 => of_two(alloc, view, name, first, second),
        _ => Ok(None),
    }
}

/// Yes or no, where it is known.
fn is_so(alloc: Global, answer: Option<bool>) -> Result<Option<String>, AllocError> {
    match answer {
        Some(answer) => answer.to_string(alloc).map(Some),
        None => Ok(None),
    }
}

/// What a call without arguments returns.
fn of_view(alloc: Global, view: &View<'_>, name: &str) -> Result<Option<String>, AllocError> {
    match name {
        "shape" => lengths(alloc, view).map(Some),
        "ndim" => view.ndim().to_string(alloc).map(Some),
        "len" => view.len().to_string(alloc).map(Some),
        "sums_fit" => view.sums_fit().to_string(alloc).map(Some),
        "sum" => sum(alloc, view).map(Some),
        "checked_sum" => checked_sum(alloc, view).map(Some),
        "products_fit" => view.products_fit().to_string(alloc).map(Some),
        "product" => product(alloc, view).map(Some),
        _ => Ok(None),
    }
}

/// What a call returns of an axis.
fn along(
    alloc: Global,
    view: &View<'_>,
    name: &str,
    axis: Axis,
) -> Result<Option<String>, AllocError> {
    match name {
        "axis_ok" => view.axis_ok(axis).to_string(alloc).map(Some),
        "lanes_ok" => view.lanes_ok(axis).to_string(alloc).map(Some),
        "len_of" if view.axis_ok(axis) => view.len_of(axis).to_string(alloc).map(Some),
        "sum_axis" => sum_axis(alloc, view, axis).map(Some),
        "product_axis" => product_axis(alloc, view, axis).map(Some),
        _ => Ok(None),
    }
}

/// What a call with two numbers returns.
fn of_two(
    alloc: Global,
    view: &View<'_>,
    name: &str,
    first: usize,
    second: usize,
) -> Result<Option<String>, AllocError> {
    match name {
        "chunk_ok" => view
            .chunk_ok(Axis(first), second)
            .to_string(alloc)
            .map(Some),
        "diff_ok" => view.diff_ok(first, Axis(second)).to_string(alloc).map(Some),
        "split_at" => split(alloc, view, Axis(first), second).map(Some),
        _ => Ok(None),
    }
}

/// What `slice_ok` returns of a spelled slice.
fn slice_fits(view: &View<'_>, words: &[&str]) -> Option<bool> {
    let (axis, slice) = slice_of_axis(words)?;
    Some(view.slice_ok(axis, slice))
}

/// What `chunks_ok` returns of spelled lengths.
fn chunks_fit(alloc: Global, view: &View<'_>, words: &[&str]) -> Result<Option<bool>, AllocError> {
    match shape(alloc, words)? {
        Some(chunk) => Ok(Some(view.chunks_ok(&chunk))),
        None => Ok(None),
    }
}

/// What `windows_ok` returns of spelled lengths and steps.
fn windows_fit(alloc: Global, view: &View<'_>, words: &[&str]) -> Result<Option<bool>, AllocError> {
    match two_shapes(alloc, words)? {
        Some((window, strides)) => Ok(Some(view.windows_ok(&window, &strides))),
        None => Ok(None),
    }
}

/// Both parts of a view that is split; `refused` where there is no such place to split it.
fn split(alloc: Global, view: &View<'_>, axis: Axis, index: usize) -> Result<String, AllocError> {
    if !view.axis_ok(axis) || view.len_of(axis) < index {
        return "refused".to_string(alloc);
    }
    let (first, second) = view.view().split_at(axis, index);
    let mut text = as_text(alloc, &first)?;
    text.push_str(", ")?;
    push_view(&mut text, &second)?;
    Ok(text)
}

/// The lengths.
fn lengths(alloc: Global, view: &View<'_>) -> Result<String, AllocError> {
    let mut text = String::new(alloc);
    push_lengths(&mut text, view.shape())?;
    Ok(text)
}

/// The cell at an index list; `None` where that is misspelled.
fn cell_at(alloc: Global, view: &View<'_>, at: &[&str]) -> Result<Option<String>, AllocError> {
    let Some(index) = index(alloc, at)? else {
        return Ok(None);
    };
    match view.get(index) {
        Some(cell) => cell.to_string(alloc).map(Some),
        None => "none".to_string(alloc).map(Some),
    }
}

/// The sum of the cells; `refused` where one of their selections may be out of range.
fn sum(alloc: Global, view: &View<'_>) -> Result<String, AllocError> {
    if view.sums_fit() {
        view.sum().to_string(alloc)
    } else {
        "refused".to_string(alloc)
    }
}

/// The sum of the cells, with its test at once; `none` where one of their selections may be out of range.
fn checked_sum(alloc: Global, view: &View<'_>) -> Result<String, AllocError> {
    match view.checked_sum() {
        Some(sum) => sum.to_string(alloc),
        None => "none".to_string(alloc),
    }
}

/// The product of the cells; `refused` where one of their selections may be out of range.
fn product(alloc: Global, view: &View<'_>) -> Result<String, AllocError> {
    if view.products_fit() {
        view.product().to_string(alloc)
    } else {
        "refused".to_string(alloc)
    }
}

/// The sum of each lane; `refused` where a sum of some cells may be out of range.
fn sum_axis(alloc: Global, view: &View<'_>, axis: Axis) -> Result<String, AllocError> {
    let table = view.view();
    if !table.axis_ok(axis) || !table.sums_fit() {
        return "refused".to_string(alloc);
    }
    as_text(alloc, &table.sum_axis(alloc, axis)?.view())
}

/// The product of each lane; `refused` where a product of some cells may be out of range.
fn product_axis(alloc: Global, view: &View<'_>, axis: Axis) -> Result<String, AllocError> {
    let table = view.view();
    if !table.axis_ok(axis) || !table.products_fit() {
        return "refused".to_string(alloc);
    }
    as_text(alloc, &table.product_axis(alloc, axis)?.view())
}
