//! Differences along an axis.

ghost use Rattle.std.specs.Prelude.{◌≡◌, ◌⊎◌, ◌<◌, ◌↔◌, length, slice_index, IfOk, IsOk, IsTrue, List, ℕ, Some, ⊤};
ghost use Rattle.ndarray.specs.AlongAxis.{CanDiffer, IsDifference, IsDifferenceOf, one_further};
ghost use Rattle.ndarray.specs.Grid.{cell};
ghost use Rattle.ndarray.specs.Index.{size};
ghost use Rattle.ndarray.specs.base.Differences.{MakesDifferences};

use crate::base::array::{Array, ArrayBase, ArrayView};
use crate::base::axis::Axis;
use crate::base::dimension::Lengths;
use crate::base::storage::Data;
use crate::zip::closures::ItemCall;
use crate::zip::collecting::{collect_in_either_order, collect_of_both};
use std::alloc::{AllocError, Global};
use std::ops::Sub;

impl<S: Data, D: Lengths> ArrayBase<S, D> {
    /// Whether the axis is below the number of axes, and the order `n` is 0 or below its length, as [`diff`](Self::diff) requires.
    ///
    /// ```
    /// let view = ArrayView::from_shape(3, &[1i64, 2, 5])?;
    /// assert!(view.diff_ok(2, Axis(0)));
    /// assert!(!view.diff_ok(3, Axis(0)));
    /// ```
    pub fn diff_ok(&self, n: usize, axis: Axis) -> bool
        ensures { IsTrue result ↔ ((axis.0 < length self.now.lengths) × ((n ≡ 0) ⊎ (n < slice_index self.now.lengths axis.0))) }
    {
        self.axis_ok(axis) && (n == 0 || n < self.len_of(axis))
    }
}

impl<A: Copy + Sub<A, Output = A>, S: Data<Elem = A>, D: Lengths> ArrayBase<S, D> {
    /// The difference of order `n` along an axis. That of order 0 is a copy; each further order has the cell one further along the axis
    /// minus the cell, so that the axis gets shorter by one.
    ///
    /// Requires an axis below the number of axes, and that `n` is 0 or below the length of the axis; check with [`diff_ok`](Self::diff_ok).
    /// Requires that each difference of each order is defined; for integers check all this with [`diff_fits`](Self::diff_fits). The error
    /// is an allocation failure, and is never reported if the array has no cells. Besides the result, only the array of the order before is
    /// kept.
    ///
    /// ```
    /// let view = ArrayView::from_shape(3, &[1i64, 2, 5])?;
    /// view.diff(alloc, 1, Axis(0))?; // [1, 3]
    /// view.diff(alloc, 2, Axis(0))?; // [2]
    /// ```
    pub fn diff(&self, alloc: Global, n: usize, axis: Axis) -> Result<Array<A, D>, AllocError>
        requires axis { axis.0 < length self.now.lengths }
        requires order { (n ≡ 0) ⊎ (n < slice_index self.now.lengths axis.0) }
        requires defined { CanDiffer A.sub_gives axis.0 A.can_sub n self.now }
        ensures differences { IfOk result (IsDifferenceOf A.sub_gives axis.0 n self.now) }
        ensures axes { IfOk result (λ r. D.has_axes (length r.lengths)) }
        ensures empty { size self.now.lengths ≡ 0 → IsOk result }
    {
        differences(alloc, &self.view(), n, axis)
    }
}

/// The difference of order `n` along an axis of a view.
fn differences<A: Copy + Sub<A, Output = A>, D: Lengths>(
    alloc: Global,
    array: &ArrayView<'_, A, D>,
    n: usize,
    axis: Axis,
) -> Result<Array<A, D>, AllocError>
    requires axis { axis.0 < length array.now.lengths }
    requires order { (n ≡ 0) ⊎ (n < slice_index array.now.lengths axis.0) }
    requires defined { CanDiffer A.sub_gives axis.0 A.can_sub n array.now }
    ensures { MakesDifferences D.has_axes A.sub_gives axis.0 n array.now result }
{
    if n == 0 {
        return copy_of(alloc, array);
    }
    if array.len() == 0 {
        // Without cells nothing is subtracted, whatever the order: what is left is the shorter axis.
        let rest = array.len_of(axis) - n;
        return copy_of(alloc, &array.view().part(axis.0, 0, rest));
    }
    let mut cells = difference(alloc, array, axis)?;
    for _ in 1..n {
        cells = difference(alloc, &cells, axis)?;
    }
    Ok(cells)
}

/// An array of copies of an array's cells.
fn copy_of<A: Copy, D: Lengths>(
    alloc: Global,
    array: &ArrayView<'_, A, D>,
) -> Result<Array<A, D>, AllocError>
    ensures same { IfOk result (λ r. r ≡ array.now) }
    ensures axes { IfOk result (λ r. D.has_axes (length r.lengths)) }
    ensures empty { size array.now.lengths ≡ 0 → IsOk result }
{
    collect_in_either_order(alloc, array.view(), Copies)
}

/// The difference of order 1.
pub(crate) fn difference<A: Copy + Sub<A, Output = A>, S: Data<Elem = A>, D: Lengths>(
    alloc: Global,
    array: &ArrayBase<S, D>,
    axis: Axis,
) -> Result<Array<A, D>, AllocError>
    requires some { 0 < slice_index array.now.lengths axis.0 }
    requires axis { axis.0 < length array.now.lengths }
    requires defined { (is : List ℕ) (y x : A) → cell array.now (one_further axis.0 is) ≡ Some y → cell array.now is ≡ Some x → A.can_sub y x }
    ensures made { IfOk result (IsDifference A.sub_gives axis.0 array.now) }
    ensures axes { IfOk result (λ r. D.has_axes (length r.lengths)) }
    ensures empty { size array.now.lengths ≡ 0 → IsOk result }
{
    let view = array.view();
    let rest = view.len_of(axis) - 1;
    collect_of_both(
        alloc,
        view.part(axis.0, 1, rest),
        view.part(axis.0, 0, rest),
        Minus,
    )
}

/// A copy of a cell, as a call.
#[derive(Drop)]
struct Copies;

impl<'a, A: Copy> ItemCall<&'a A> for Copies {
    type Out = A;

    ghost can_call = { λ _ _. ⊤ };

    ghost call_gives = { λ _ x r _. r ≡ x.now };

    fn call(&mut self, item: &'a A) -> A {
        *item
    }
}

/// A cell minus another, as a call.
#[derive(Drop)]
struct Minus;

impl<'a, 'b, A: Copy + Sub<A, Output = A>> ItemCall<(&'a A, &'b A)> for Minus {
    type Out = A;

    ghost can_call = { λ _ t. A.can_sub t.0.now t.1.now };

    ghost call_gives = { λ _ t r _. A.sub_gives t.0.now t.1.now r };

    fn call(&mut self, item: (&'a A, &'b A)) -> A {
        let (later, earlier) = item;
        *later - *earlier
    }
}
