//! Totals of the cells of an array, and of each lane: what sums and products have in common, once.

ghost use Rattle.std.specs.Prelude.{◌≡◌, ◌<◌, length, IfOk, IsOk, ⊤};
ghost use Rattle.ndarray.specs.Algebra.{CommutativeMonoid};
ghost use Rattle.ndarray.specs.AlongAxis.{IsSummableArray, IsTotalOf};
ghost use Rattle.ndarray.specs.Elementwise.{CanMap, MakesMapped};
ghost use Rattle.ndarray.specs.Grid.{array_by};
ghost use Rattle.ndarray.specs.Index.{size};
ghost use Rattle.ndarray.specs.Limits.{IsWithinLimit};
ghost use Rattle.ndarray.specs.Subviews.{lanes_of};
ghost use Rattle.ndarray.specs.Sums.{IsSummableBy, total_by};

use crate::base::array::{Array, ArrayBase, ArrayView};
use crate::base::axis::Axis;
use crate::base::dimension::{Dimension, Ix1, Lengths};
use crate::base::storage::Data;
use crate::base::strided::Strided;
use crate::elements::{ProductElem, SumElem};
use crate::iter::runs::CellRuns;
use crate::ops::assign_operators::assign;
use crate::ops::operations::{Addition, Multiplication, Operation};
use crate::order::Order;
use crate::unrolled::unrolled_fold;
use crate::zip::closures::ItemCall;
use crate::zip::collecting::collect_items;
use crate::zip::units::Units;
use std::alloc::{AllocError, Global};
use std::marker::PhantomData;

/// An operation that makes one element of two, and so a total of any number.
pub(crate) trait TotalOperation<A: Copy> {
    // The values that elements have, and those in range.
    ghost Carrier: { Type 0 };

    ghost meaning: { A → Carrier };

    ghost InRange: { Carrier → Type 0 };

    // The operation on values, with the total of none.
    ghost operation: { CommutativeMonoid Carrier };

    /// The total of no elements.
    fn of_none() -> A
        ensures { meaning result ≡ operation.unit };

    /// The total of two.
    fn of_two(x: A, y: A) -> A
        requires { InRange (operation.op (meaning x) (meaning y)) }
        ensures { meaning result ≡ operation.op (meaning x) (meaning y) };

    // A total in range is that of an element, and elements of one value are equal.
    ghost has_total: { (x y : A) → InRange (operation.op (meaning x) (meaning y))
        → (r : A) × (meaning r ≡ operation.op (meaning x) (meaning y)) };

    ghost same_meaning: { (x y : A) → meaning x ≡ meaning y → x ≡ y };
}

impl<A: SumElem> TotalOperation<A> for Addition {
    ghost Carrier = { A.Carrier };

    ghost meaning = { A.meaning };

    ghost InRange = { A.InRange };

    ghost operation = { A.addition };

    fn of_none() -> A {
        A::zero()
    }

    fn of_two(x: A, y: A) -> A {
        x + y
    }

    ghost has_total = { λ x y h. (let r = A.add_answers x y h in (r.0, A.add_meaning x y r.0 h r.1)) };

    ghost same_meaning = { A.same_meaning };
}

impl<A: ProductElem> TotalOperation<A> for Multiplication {
    ghost Carrier = { A.Carrier };

    ghost meaning = { A.meaning };

    ghost InRange = { A.InRange };

    ghost operation = { A.multiplication };

    fn of_none() -> A {
        A::one()
    }

    fn of_two(x: A, y: A) -> A {
        x * y
    }

    ghost has_total = { λ x y h. (let r = A.mul_answers x y h in (r.0, A.mul_meaning x y r.0 h r.1)) };

    ghost same_meaning = { A.same_meaning };
}

/// The total of all cells.
pub(crate) fn total<T: TotalOperation<A>, A: Copy, D: Lengths>(array: &ArrayView<'_, A, D>) -> A
    requires { IsSummableBy T.operation T.InRange T.meaning array.now.cells }
    ensures { T.meaning result ≡ total_by T.operation T.meaning array.now.cells }
{
    let mut total = T::of_none();
    let mut runs = CellRuns::of(array.view());
    while let Some(run) = runs.next() {
        total = T::of_two(total, total_of_run::<T, A>(run));
    }
    total
}

/// The total of the elements of a slice.
fn total_of<T: TotalOperation<A>, A: Copy>(cells: &[A]) -> A
    requires { IsSummableBy T.operation T.InRange T.meaning cells.now }
    ensures { T.meaning result ≡ total_by T.operation T.meaning cells.now }
{
    unrolled_fold(
        cells,
        || -> A
            ensures { T.meaning result ≡ T.operation.unit }
        { T::of_none() },
        |x: A, y: A| -> A
            requires { T.InRange (T.operation.op (T.meaning x) (T.meaning y)) }
            ensures { T.meaning result ≡ T.operation.op (T.meaning x) (T.meaning y) }
        { T::of_two(x, y) },
    )
}

/// The total of the cells of a run.
fn total_of_run<T: TotalOperation<A>, A: Copy>(cells: Strided<'_, A>) -> A
    requires { IsSummableBy T.operation T.InRange T.meaning cells }
    ensures { T.meaning result ≡ total_by T.operation T.meaning cells.entry }
{
    // A short run has no use of eight partial results.
    if cells.len() >= 8 {
        if let Some(slice) = cells.side_by_side() {
            return total_of::<T, A>(slice);
        }
    }
    let mut cells = cells;
    let mut total = T::of_none();
    // By two sums, neither of which waits for the other.
    let mut others = T::of_none();
    while let Some((x, y)) = cells.next_two() {
        total = T::of_two(total, *x);
        others = T::of_two(others, *y);
    }
    match cells.next() {
        Some(x) => T::of_two(T::of_two(total, *x), others),
        None => T::of_two(total, others),
    }
}

/// The total of each lane along an axis: lane by lane if the cells of lanes lie nearer to one another than those of the items along the
/// axis, else item by item.
pub(crate) fn totals_along<T: TotalOperation<A>, A: Copy, D: Dimension>(
    alloc: Global,
    array: &ArrayView<'_, A, D>,
    axis: Axis,
) -> Result<Array<A, D::Smaller>, AllocError>
    requires axis { axis.0 < length array.now.lengths }
    requires lanes { CanMap (IsSummableArray T.operation T.InRange T.meaning) (lanes_of array.now axis.0) }
    ensures { MakesMapped D.Smaller.has_axes (IsTotalOf T.operation T.meaning) (lanes_of array.now axis.0) result }
{
    if array.has_smallest_steps(axis) {
        totals_by_lanes::<T, A, D>(alloc, array, axis)
    } else {
        totals_by_items::<T, A, D>(alloc, array, axis)
    }
}

/// The same lane by lane.
fn totals_by_lanes<T: TotalOperation<A>, A: Copy, D: Dimension>(
    alloc: Global,
    array: &ArrayView<'_, A, D>,
    axis: Axis,
) -> Result<Array<A, D::Smaller>, AllocError>
    requires axis { axis.0 < length array.now.lengths }
    requires lanes { CanMap (IsSummableArray T.operation T.InRange T.meaning) (lanes_of array.now axis.0) }
    ensures { MakesMapped D.Smaller.has_axes (IsTotalOf T.operation T.meaning) (lanes_of array.now axis.0) result }
{
    let call: LaneTotal<T> = LaneTotal(PhantomData);
    collect_items(alloc, array.lanes(axis), Order::RowMajor, call)
}

/// The total of a lane, as a call.
#[derive(Drop)]
struct LaneTotal<T>(PhantomData<T>);

impl<'a, A: Copy, T: TotalOperation<A>> ItemCall<ArrayView<'a, A, Ix1>> for LaneTotal<T> {
    type Out = A;

    ghost can_call = { λ _ lane. IsSummableArray T.operation T.InRange T.meaning lane };

    ghost call_gives = { λ _ lane r _. IsTotalOf T.operation T.meaning lane r };

    fn call(&mut self, lane: ArrayView<'a, A, Ix1>) -> A {
        total::<T, A, Ix1>(&lane)
    }
}

/// The same item by item: each item along the axis in turn is joined to the totals so far.
fn totals_by_items<T: TotalOperation<A>, A: Copy, D: Dimension>(
    alloc: Global,
    array: &ArrayView<'_, A, D>,
    axis: Axis,
) -> Result<Array<A, D::Smaller>, AllocError>
    requires axis { axis.0 < length array.now.lengths }
    requires lanes { CanMap (IsSummableArray T.operation T.InRange T.meaning) (lanes_of array.now axis.0) }
    ensures { MakesMapped D.Smaller.has_axes (IsTotalOf T.operation T.meaning) (lanes_of array.now axis.0) result }
{
    let dim = array.raw_dim().try_remove_axis(axis);
    let mut totals = filled(alloc, dim, T::of_none())?;
    if totals.len() == 0 {
        // The axis may be long where there is nothing to join.
        return Ok(totals);
    }
    for k in 0..array.len_of(axis) {
        let item = array.view().into_item(axis, k);
        assign::<TotalOfTwo<T>, A, A, _, _, D::Smaller, D::Smaller>(&mut totals, &item);
    }
    Ok(totals)
}

/// An array that has one element in all cells.
fn filled<A: Copy, D: Lengths>(alloc: Global, dim: D, element: A) -> Result<Array<A, D>, AllocError>
    requires { IsWithinLimit (D.numbers dim) }
    ensures cells { IfOk result (λ r. r ≡ array_by (D.numbers dim) (λ _. element)) }
    ensures axes { IfOk result (λ r. D.has_axes (length r.lengths)) }
    ensures empty { size (D.numbers dim) ≡ 0 → IsOk result }
{
    collect_items(alloc, Units::of(dim), Order::RowMajor, Same(element))
}

/// One element wherever it is called.
#[derive(Drop)]
struct Same<A>(A);

impl<A: Copy> ItemCall<()> for Same<A> {
    type Out = A;

    ghost can_call = { λ _ _. ⊤ };

    ghost call_gives = { λ c _ r d. (d ≡ c) × (r ≡ c.0) };

    fn call(&mut self, _item: ()) -> A {
        self.0
    }
}

/// The total of two elements, as an operation.
struct TotalOfTwo<T>(PhantomData<T>);

impl<A: Copy, T: TotalOperation<A>> Operation<A, A> for TotalOfTwo<T> {
    type Output = A;

    ghost can_apply = { λ x y. T.InRange (T.operation.op (T.meaning x) (T.meaning y)) };

    ghost apply_gives = { λ x y z. T.meaning z ≡ T.operation.op (T.meaning x) (T.meaning y) };

    fn apply(a: A, b: A) -> A {
        T::of_two(a, b)
    }
}
