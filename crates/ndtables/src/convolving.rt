//! Convolutions of two tables.

ghost use Rattle.std.specs.Prelude.{IfOk, IfErr};
ghost use Rattle.ndarray.specs.Subviews.{ArePositive};
ghost use Rattle.ndtables.specs.Convolving.{AreVectors, CanConvolve, CanConvolveInFull, IsFullConvolution, IsValidConvolution};
ghost use Rattle.ndtables.specs.Reducing.{ForbidsMaking};

use crate::fault::Fault;
use crate::views::{Made, View};
use ndarray::Ix1;
use ndarray::conv::{conv_full, conv_full_ok, conv_valid, conv_valid_ok, full_fits, valid_fits};
use std::alloc::Global;

/// The valid convolution of a table with a kernel.
///
/// The fault is `shape` where they have not as many axes or a length of the kernel is 0, else `range` where at some position the
/// absolute values of the products add up to no `i64`, else `memory`.
pub fn valid_convolution(alloc: Global, table: &View<'_>, kernel: &View<'_>) -> Made
    ensures sums { IfOk result (IsValidConvolution table.now kernel.now) }
    ensures err { IfErr result (ForbidsMaking (ArePositive table.now.lengths kernel.now.lengths) (CanConvolve table.now kernel.now)) }
{
    if !conv_valid_ok(table, kernel) {
        return Err(Fault::Shape);
    }
    if !valid_fits(table, kernel) {
        return Err(Fault::Range);
    }
    let sums = conv_valid(alloc, table, kernel)?;
    Ok(sums)
}

/// The full convolution of two tables of one axis each.
///
/// The fault is `shape` where one has another number of axes, or the first between zeros would be too long, else `range` where at some
/// place the absolute values of the products add up to no `i64`, else `memory`.
pub fn full_convolution(alloc: Global, left: &View<'_>, right: &View<'_>) -> Made
    ensures sums { IfOk result (IsFullConvolution left.now right.now) }
    ensures err { IfErr result (ForbidsMaking (AreVectors left.now right.now) (CanConvolveInFull left.now right.now)) }
{
    let Ok(x) = left.view().into_dimensionality::<Ix1>() else {
        return Err(Fault::Shape);
    };
    let Ok(y) = right.view().into_dimensionality::<Ix1>() else {
        return Err(Fault::Shape);
    };
    if !conv_full_ok(&x, &y) {
        return Err(Fault::Shape);
    }
    if !full_fits(&x, &y) {
        return Err(Fault::Range);
    }
    let sums = conv_full(alloc, &x, &y)?;
    Ok(sums.into_dimensionality().unwrap())
}
