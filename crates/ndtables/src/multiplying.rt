//! Products of two arrays.

ghost use Rattle.std.specs.Prelude.{IfOk, IfErr};
ghost use Rattle.ndtables.specs.Multiplying.{ForbidsProduct, IsProduct};

use crate::fault::Fault;
use crate::views::{Made, View};
use ndarray::linalg::{Dot, dot_ok, entries_fit};
use std::alloc::Global;

/// The product of two arrays: at each index list the sum of the products of the lane of the left along its last axis and the lane
/// of the right along its last axis but one, or its only one.
///
/// The fault is `shape` where their shapes do not multiply, else `range` where the absolute values of the products of two lanes
/// add up to more than the greatest `i64`, else `memory`.
pub fn dot_in_range(alloc: Global, left: &View<'_>, right: &View<'_>) -> Made
    ensures product { IfOk result (IsProduct left.now right.now) }
    ensures err { IfErr result (ForbidsProduct left.now right.now) }
{
    if !dot_ok(left, right) {
        return Err(Fault::Shape);
    }
    if !entries_fit(left, right) {
        return Err(Fault::Range);
    }
    let product = left.dot(alloc, right)?;
    Ok(product)
}
