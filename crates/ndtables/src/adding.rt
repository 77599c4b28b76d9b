//! Sums of two arrays, cell by cell, their shapes broadcast together.

ghost use Rattle.std.specs.Prelude.{IfOk, IfErr};
ghost use Rattle.ndtables.specs.Adding.{AreSums, ForbidsSums};

use crate::fault::Fault;
use crate::views::{Made, View};
use std::alloc::Global;

/// The array of the sums of the cells of two arrays, which are broadcast together.
///
/// The fault is `shape` where their shapes do not broadcast together, else `range` where a sum is no
/// `i64`, else `memory`.
pub fn sums_in_range(alloc: Global, left: &View<'_>, right: &View<'_>) -> Made
    ensures sums { IfOk result (AreSums left.now right.now) }
    ensures err { IfErr result (ForbidsSums left.now right.now) }
{
    if !left.broadcast_ok(right) {
        return Err(Fault::Shape);
    }
    if !left.add_fits(right) {
        return Err(Fault::Range);
    }
    let copy = left.to_owned(alloc)?;
    let sums = (copy + right)?;
    Ok(sums)
}
