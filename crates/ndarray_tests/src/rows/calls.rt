//! The calls of a row, as its words spell them.

use crate::rows::spelling::{cell, index, numbers, shape, slice_of_axis, two_shapes};
use crate::rows::updating::UpdateCall;
use ndarray::{Axis, IxDyn, Lengths, Slice};
use std::alloc::{AllocError, Global};

/// A call that makes a view of a view, whatever keeps the cells.
#[derive(Clone, Copy)]
pub enum ViewCall {
    ReversedAxes,
    InvertAxis(Axis),
    SwapAxes(usize, usize),
    SliceAxisInplace(Axis, Slice),
    IndexAxisMove(Axis, usize),
    InsertAxis(Axis),
    IntoDimensionality(usize),
}

impl ViewCall {
    /// The call that this text spells.
    pub fn of_text(alloc: Global, call: &str) -> Result<Option<ViewCall>, AllocError> {
        let words: Vec<&str> = call.split_whitespace().collect(alloc)?;
        Ok(ViewCall::parse(words.as_slice()))
    }

    /// The call that these words spell.
    pub fn parse(words: &[&str]) -> Option<ViewCall> {
        let (name, arguments) = words.split_first()?;
        if *name == "slice_axis_inplace" {
            let (axis, slice) = slice_of_axis(arguments)?;
            return Some(ViewCall::SliceAxisInplace(axis, slice));
        }
        ViewCall::of_numbers(*name, arguments)
    }

    /// The call of this name whose arguments are numbers.
    fn of_numbers(name: &str, arguments: &[&str]) -> Option<ViewCall> {
        let (first, second, _third) = numbers(arguments)?;
        match (name, arguments.len()) {
            ("reversed_axes", 0) => Some(ViewCall::ReversedAxes),
            ("invert_axis", 1) => Some(ViewCall::InvertAxis(Axis(first))),
            ("insert_axis", 1) => Some(ViewCall::InsertAxis(Axis(first))),
            ("into_dimensionality", 1) => Some(ViewCall::IntoDimensionality(first)),
            ("swap_axes", 2) => Some(ViewCall::SwapAxes(first, second)),
            ("index_axis_move", 2) => Some(ViewCall::IndexAxisMove(Axis(first), second)),
            _ => None,
        }
    }
}

/// A call that borrows a part of a view.
#[derive(Clone, Copy)]
pub enum PartCall {
    View,
    Transposed,
    SliceAxis(Axis, Slice),
    IndexAxis(Axis, usize),
}

impl PartCall {
    /// The call of this name with these arguments.
    pub fn parse(name: &str, arguments: &[&str]) -> Option<PartCall> {
        if name == "slice_axis" {
            let (axis, slice) = slice_of_axis(arguments)?;
            return Some(PartCall::SliceAxis(axis, slice));
        }
        PartCall::of_numbers(name, arguments)
    }

    /// The call of this name whose arguments are numbers.
    fn of_numbers(name: &str, arguments: &[&str]) -> Option<PartCall> {
        let (first, second, _third) = numbers(arguments)?;
        match (name, arguments.len()) {
            ("view", 0) => Some(PartCall::View),
            ("t", 0) => Some(PartCall::Transposed),
            ("index_axis", 2) => Some(PartCall::IndexAxis(Axis(first), second)),
            _ => None,
        }
    }
}

/// A call that yields subviews, to read or to write in.
#[derive(Drop)]
pub enum Pieces {
    AxisIter(Axis),
    OuterIter,
    AxisChunksIter(Axis, usize),
    Lanes(Axis),
    Rows,
    Columns,
    ExactChunks(IxDyn),
    Windows(IxDyn),
    WindowsWithStride(IxDyn, IxDyn),
    AxisWindows(Axis, usize),
    AxisWindowsWithStride(Axis, usize, usize),
}

impl Pieces {
    /// The call of this name with these arguments.
    pub fn parse(
        alloc: Global,
        name: &str,
        arguments: &[&str],
    ) -> Result<Option<Pieces>, AllocError> {
        match name {
            "exact_chunks" => Ok(shape(alloc, arguments)?.map(Pieces::ExactChunks)),
            "windows" => Ok(shape(alloc, arguments)?.map(Pieces::Windows)),
            "windows_with_stride" => Pieces::windows_with_stride(alloc, arguments),
            name => Ok(Pieces::of_numbers(name, arguments)),
        }
    }

    /// Windows of spelled lengths, with spelled steps between them.
    fn windows_with_stride(
        alloc: Global,
        arguments: &[&str],
    ) -> Result<Option<Pieces>, AllocError> {
        match two_shapes(alloc, arguments)? {
            Some((window, strides)) => Ok(Some(Pieces::WindowsWithStride(window, strides))),
            None => Ok(None),
        }
    }

    /// The call of this name whose arguments are numbers, of which the first is an axis.
    fn of_numbers(name: &str, arguments: &[&str]) -> Option<Pieces> {
        let (first, second, third) = numbers(arguments)?;
        let axis = Axis(first);
        match (name, arguments.len()) {
            ("outer_iter", 0) => Some(Pieces::OuterIter),
            ("rows", 0) => Some(Pieces::Rows),
            ("columns", 0) => Some(Pieces::Columns),
            ("axis_iter", 1) => Some(Pieces::AxisIter(axis)),
            ("lanes", 1) => Some(Pieces::Lanes(axis)),
            ("axis_chunks_iter", 2) => Some(Pieces::AxisChunksIter(axis, second)),
            ("axis_windows", 2) => Some(Pieces::AxisWindows(axis, second)),
            ("axis_windows_with_stride", 3) => {
                Some(Pieces::AxisWindowsWithStride(axis, second, third))
            }
            _ => None,
        }
    }
}

/// A call that yields cells to read.
#[derive(Clone, Copy)]
pub enum Cells {
    Iter,
    IndexedIter,
    IntoIter,
    RefIntoIter,
    ElementsBase,
}

impl Cells {
    /// The call that these words spell, of which none has arguments.
    pub fn parse(words: &[&str]) -> Option<Cells> {
        let [name] = words else {
            return None;
        };
        match *name {
            "iter" => Some(Cells::Iter),
            "indexed_iter" => Some(Cells::IndexedIter),
            "into_iter" => Some(Cells::IntoIter),
            "ref_into_iter" => Some(Cells::RefIntoIter),
            "elements_base" => Some(Cells::ElementsBase),
            _ => None,
        }
    }
}

/// A call that writes.
#[derive(Drop)]
pub enum WriteCall {
    GetMut(IxDyn, i64),
    SplitAt(Axis, usize),
    Update(UpdateCall),
    Cells(CellsMut),
    Pieces(Pieces),
    // These two take the view.
    IntoIter,
    ElementsBaseMut,
}

/// A call that yields cells to write to, of an array that stays.
#[derive(Clone, Copy)]
pub enum CellsMut {
    IterMut,
    IndexedIterMut,
    MutIntoIter,
}

impl WriteCall {
    /// The call that these words spell.
    pub fn parse(alloc: Global, words: &[&str]) -> Result<Option<WriteCall>, AllocError> {
        let Some((name, arguments)) = words.split_first() else {
            return Ok(None);
        };
        match *name {
            "get_mut" => WriteCall::get_mut(alloc, arguments),
            "split_at" => Ok(WriteCall::split_at(arguments)),
            "update" | "scan_lanes" | "shift_lanes" => {
                Ok(UpdateCall::parse(*name, arguments).map(WriteCall::Update))
            }
            name => match WriteCall::to_cells(name) {
                Some(call) if arguments.is_empty() => Ok(Some(call)),
                _ => WriteCall::to_pieces(alloc, name, arguments),
            },
        }
    }

    /// The cell at an index list, and its value, the last argument.
    fn get_mut(alloc: Global, arguments: &[&str]) -> Result<Option<WriteCall>, AllocError> {
        let Some((value, at)) = arguments.split_last() else {
            return Ok(None);
        };
        let Some(value) = cell(*value) else {
            return Ok(None);
        };
        match index(alloc, at)? {
            Some(at) => Ok(Some(WriteCall::GetMut(at, value))),
            None => Ok(None),
        }
    }

    /// The parts of an axis before and from an index on.
    fn split_at(arguments: &[&str]) -> Option<WriteCall> {
        let (axis, index, _third) = numbers(arguments)?;
        if arguments.len() == 2 {
            Some(WriteCall::SplitAt(Axis(axis), index))
        } else {
            None
        }
    }

    /// The call of this name without arguments, which yields cells.
    fn to_cells(name: &str) -> Option<WriteCall> {
        match name {
            "mut_into_iter" => Some(WriteCall::Cells(CellsMut::MutIntoIter)),
            "into_iter" => Some(WriteCall::IntoIter),
            "iter_mut" => Some(WriteCall::Cells(CellsMut::IterMut)),
            "indexed_iter_mut" => Some(WriteCall::Cells(CellsMut::IndexedIterMut)),
            "elements_base_mut" => Some(WriteCall::ElementsBaseMut),
            _ => None,
        }
    }

    /// The call of this name, which ends with `_mut` and yields subviews.
    fn to_pieces(
        alloc: Global,
        name: &str,
        arguments: &[&str],
    ) -> Result<Option<WriteCall>, AllocError> {
        match name.strip_suffix("_mut") {
            Some(stem) => Ok(Pieces::parse(alloc, stem, arguments)?.map(WriteCall::Pieces)),
            None => Ok(None),
        }
    }
}
