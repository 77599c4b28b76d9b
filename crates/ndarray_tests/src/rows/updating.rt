//! Updates in place of rows, whatever keeps the cells.

use crate::rows::items::digits;
use crate::rows::spelling::{axis, cell};
use crate::rows::stepping::Ending;
use ndarray::{ArrayBase, Axis, DataMut, IxDyn, Lengths};
use std::alloc::Global;

/// A call that updates cells where they are.
#[derive(Clone, Copy)]
pub enum UpdateCall {
    // Adds to each cell the digits of its index list.
    Update,
    // Replaces each cell by the sum of this number and the cells of its lane up to it.
    Sums(Axis, i64),
    // Replaces each cell by the one before it in its lane, and the first by this number.
    Shift(Axis, i64),
}

impl UpdateCall {
    /// The call of this name with these arguments.
    pub fn parse(name: &str, arguments: &[&str]) -> Option<UpdateCall> {
        if name == "update" {
            return if arguments.is_empty() {
                Some(UpdateCall::Update)
            } else {
                None
            };
        }
        let [along, init] = arguments else {
            return None;
        };
        let (along, init) = (axis(*along)?, cell(*init)?);
        match name {
            "scan_lanes" => Some(UpdateCall::Sums(along, init)),
            "shift_lanes" => Some(UpdateCall::Shift(along, init)),
            _ => None,
        }
    }
}

/// Carries out a call on an array; where a test of the library says no, it stays as it is.
pub fn update<S: DataMut<Elem = i64>>(
    alloc: Global,
    array: &mut ArrayBase<S, IxDyn>,
    call: UpdateCall,
) -> Ending {
    match call {
        UpdateCall::Update => {
            array.update(|index, x| x.wrapping_add(digits(index.slice())));
        }
        UpdateCall::Sums(axis, init) if array.lanes_ok(axis) => {
            array.scan_lanes(axis, init, |sum, x| {
                let next = sum.wrapping_add(x);
                (next, next)
            });
        }
        UpdateCall::Shift(axis, init) if array.lanes_ok(axis) => {
            array.scan_lanes(axis, init, |before, x| (x, before));
        }
        _ => return Ending::Refused,
    }
    Ending::Done(String::new(alloc))
}
