//! Functions that rest on the laws of running products and running sums, at `i64` behind range tests.

ghost use Rattle.std.specs.Prelude.{◌≡◌, ◌↔◌, ◌<◌, ℤ, FitsSigned, IfOk, IfSome, IsSome, length, slice_index};
ghost use Rattle.std.specs.Int.{w64};
ghost use Rattle.ndarray.specs.AlongAxis.{IsTotalOf};
ghost use Rattle.ndarray.specs.AlongAxisRanges.{HasRunningProductsInRange};
ghost use Rattle.ndarray.specs.Elementwise.{CanMap, Maps};
ghost use Rattle.ndarray.specs.Grid.{Grid};
ghost use Rattle.ndarray.specs.Integers.{int_products, int_sums};
ghost use Rattle.ndarray.specs.Subviews.{lanes_of};
ghost use Rattle.ndarray.specs.Sums.{IsSummable};
ghost use Rattle.ndarray.specs.Views.{axis_part};

use crate::range_tests::Checked;
use crate::updating::running_sums;
use ndarray::laws::{cumprod_totals, diff_of_totals, running_totals};
use ndarray::{ArrayBase, Axis, Data, Lengths, RemoveAxis};
use std::alloc::Global;

/// The product of each lane along an axis, as `product_axis` makes it, out of the running products: their last item. `None` where there
/// is no axis of that number, it has no items, or a running product is no `i64`. The error is allocation failure.
pub fn products_by_running<S: Data<Elem = i64>, D: RemoveAxis>(
    alloc: Global,
    a: &ArrayBase<S, D>,
    axis: Axis,
) -> Checked<i64, D::Smaller>
    ensures when { IfOk result (λ made. IsSome made ↔ ((axis.0 < length a.now.lengths) × (0 < slice_index a.now.lengths axis.0) × CanMap (λ lane. HasRunningProductsInRange (λ x. x) (FitsSigned w64) lane.cells) (lanes_of a.now axis.0))) }
    ensures products { IfOk result (λ made. IfSome made (λ r. (s : Grid ℤ) → Maps (IsTotalOf int_products (λ x. x)) (lanes_of a.now axis.0) s → r ≡ s)) }
{
    cumprod_totals::<i64>();
    running_totals::<i64>();
    let _whole = a.raw_dim();
    if !a.cumprod_fits(axis) {
        return Ok(None);
    }
    let len = a.len_of(axis);
    if len == 0 {
        return Ok(None);
    }
    let running = a.cumprod(alloc, axis)?;
    Ok(Some(running.index_axis_move(axis, len - 1)))
}

/// The difference of order 1 along an axis of an array's running sums, which is the array without its first item. `None` where there is no
/// axis of that number, it has fewer than two items, or some of the array's numbers add up to no `i64`. The error is allocation failure.
pub fn differences_of_sums<S: Data<Elem = i64>, D: Lengths>(
    alloc: Global,
    a: &ArrayBase<S, D>,
    axis: Axis,
) -> Checked<i64, D>
    ensures when { IfOk result (λ made. IsSome made ↔ ((axis.0 < length a.now.lengths) × (1 < slice_index a.now.lengths axis.0) × IsSummable int_sums (FitsSigned w64) a.now.cells)) }
    ensures same { IfOk result (λ made. IfSome made (λ r. r ≡ axis_part a.now axis.0 1 (slice_index a.now.lengths axis.0))) }
{
    diff_of_totals::<i64>();
    let _whole = a.raw_dim();
    if !a.diff_ok(1, axis) {
        return Ok(None);
    }
    let mut sums = a.to_owned(alloc)?;
    if !running_sums(&mut sums, axis) {
        return Ok(None);
    }
    let differences = sums.diff(alloc, 1, axis)?;
    Ok(Some(differences))
}
