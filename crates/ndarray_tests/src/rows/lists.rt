//! Calls that yield items to read.

use crate::rows::calls::{Cells, Pieces};
use crate::rows::reading::View;
use crate::rows::stepping::{Ending, Stepped, read_both_ends, step_with_clones};
use crate::rows::steps::Step;
use ndarray::iter::ElementsBase;
use ndarray::{ArrayView1, Axis, IxDyn, Lengths};
use std::alloc::{AllocError, Global};

/// What the steps of an iterator over cells give.
pub fn cells(alloc: Global, view: &View<'_>, call: Cells, steps: &[Step]) -> Stepped {
    match call {
        Cells::Iter => step_with_clones(alloc, view.iter(), steps),
        Cells::IndexedIter => step_with_clones(alloc, view.indexed_iter(), steps),
        Cells::IntoIter => step_with_clones(alloc, view.view().into_iter(), steps),
        Cells::RefIntoIter => step_with_clones(alloc, (&*view).into_iter(), steps),
        Cells::ElementsBase => step_with_clones(alloc, ElementsBase::new(view.view()), steps),
    }
}

/// What the steps of an iterator over subviews give; `refused` where the test of the call says no.
pub fn pieces(alloc: Global, view: &View<'_>, pieces: &Pieces, steps: &[Step]) -> Stepped {
    match pieces {
        Pieces::AxisIter(_) | Pieces::OuterIter | Pieces::AxisChunksIter(_, _) => {
            along_axis(alloc, view, pieces, steps)
        }
        Pieces::Lanes(_) | Pieces::Rows | Pieces::Columns | Pieces::ExactChunks(_) => {
            lanes(alloc, view, pieces, steps)
        }
        _ => windows(alloc, view, pieces, steps),
    }
}

/// What the steps of an iterator over the items or the chunks along an axis give.
fn along_axis(alloc: Global, view: &View<'_>, pieces: &Pieces, steps: &[Step]) -> Stepped {
    match pieces {
        Pieces::AxisIter(axis) if view.axis_ok(*axis) => {
            read_both_ends(alloc, view.axis_iter(*axis), steps)
        }
        Pieces::OuterIter if view.axis_ok(Axis(0)) => read_both_ends(
            alloc,
            view.outer_iter(),
            steps,
        ),
        Pieces::AxisChunksIter(axis, size) if view.chunk_ok(*axis, *size) => {
            read_both_ends(alloc, view.axis_chunks_iter(*axis, *size), steps)
        }
        _ => Ok(Ending::Refused),
    }
}

/// What the steps of an iterator over lanes or whole chunks give.
fn lanes(alloc: Global, view: &View<'_>, pieces: &Pieces, steps: &[Step]) -> Stepped {
    match pieces {
        Pieces::Lanes(axis) if view.lanes_ok(*axis) => {
            step_with_clones(alloc, view.lanes(*axis).into_iter(), steps)
        }
        Pieces::Rows => step_with_clones(alloc, view.rows().into_iter(), steps),
        Pieces::Columns => step_with_clones(alloc, view.columns().into_iter(), steps),
        Pieces::ExactChunks(chunk) if view.chunks_ok(chunk) => {
            step_with_clones(alloc, view.exact_chunks(chunk.copied()).into_iter(), steps)
        }
        _ => Ok(Ending::Refused),
    }
}

/// What the steps of an iterator over windows give.
fn windows(alloc: Global, view: &View<'_>, pieces: &Pieces, steps: &[Step]) -> Stepped {
    match pieces {
        Pieces::Windows(window) if view.chunks_ok(window) => {
            step_with_clones(alloc, view.windows(window.copied()).into_iter(), steps)
        }
        Pieces::WindowsWithStride(window, strides) if view.windows_ok(window, strides) => {
            let windows = view.windows_with_stride(window.copied(), strides.copied());
            step_with_clones(alloc, windows.into_iter(), steps)
        }
        Pieces::AxisWindows(axis, window) if view.chunk_ok(*axis, *window) => {
            step_with_clones(alloc, view.axis_windows(*axis, *window).into_iter(), steps)
        }
        Pieces::AxisWindowsWithStride(axis, window, stride)
            if view.chunk_ok(*axis, *window) && view.chunk_ok(*axis, *stride) => {
            let windows = view.axis_windows_with_stride(*axis, *window, *stride);
            step_with_clones(alloc, windows.into_iter(), steps)
        }
        _ => Ok(Ending::Refused),
    }
}

/// The subview of this number among those that a call yields; `None` where there are fewer, or where the test of
/// the call says no.
pub fn nth<'b>(view: &'b View<'_>, pieces: &Pieces, number: usize) -> Option<View<'b>> {
    match pieces {
        Pieces::AxisIter(axis) if view.axis_ok(*axis) => view.axis_iter(*axis).nth(number),
        Pieces::OuterIter if view.axis_ok(Axis(0)) => view.outer_iter().nth(number),
        Pieces::AxisChunksIter(axis, size) if view.chunk_ok(*axis, *size) => {
            view.axis_chunks_iter(*axis, *size).nth(number)
        }
        Pieces::Lanes(axis) if view.lanes_ok(*axis) => {
            one_axis(view.lanes(*axis).into_iter().nth(number))
        }
        Pieces::Rows => one_axis(view.rows().into_iter().nth(number)),
        Pieces::Columns => one_axis(view.columns().into_iter().nth(number)),
        Pieces::ExactChunks(chunk) if view.chunks_ok(chunk) => {
            view.exact_chunks(chunk.copied()).into_iter().nth(number)
        }
        _ => nth_window(view, pieces, number),
    }
}

/// The window of this number among those that a call yields; `None` where there are fewer, or where the test of the
/// call says no.
fn nth_window<'b>(view: &'b View<'_>, pieces: &Pieces, number: usize) -> Option<View<'b>> {
    match pieces {
        Pieces::Windows(window) if view.chunks_ok(window) => {
            view.windows(window.copied()).into_iter().nth(number)
        }
        Pieces::WindowsWithStride(window, strides) if view.windows_ok(window, strides) => {
            view.windows_with_stride(window.copied(), strides.copied())
                .into_iter()
                .nth(number)
        }
        Pieces::AxisWindows(axis, window) if view.chunk_ok(*axis, *window) => {
            view.axis_windows(*axis, *window).into_iter().nth(number)
        }
        Pieces::AxisWindowsWithStride(axis, window, stride)
            if view.chunk_ok(*axis, *window) && view.chunk_ok(*axis, *stride) => {
            view.axis_windows_with_stride(*axis, *window, *stride)
                .into_iter()
                .nth(number)
        }
        _ => None,
    }
}

/// A lane as a view of any number of axes.
fn one_axis(lane: Option<ArrayView1<'_, i64>>) -> Option<View<'_>> {
    lane?.into_dimensionality::<IxDyn>().ok()
}
