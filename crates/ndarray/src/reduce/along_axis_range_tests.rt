//! Tests whether the running products and the differences of integers along an axis are in the range of their type.

ghost use Rattle.std.specs.Prelude.{◌≡◌, ◌≢◌, ◌⊎◌, ◌<◌, ◌↔◌, IfErr, IfOk, IsTrue, length, slice_index};
ghost use Rattle.ndarray.specs.AlongAxis.{CanCumulate, CanDiffer};
ghost use Rattle.ndarray.specs.AlongAxisRanges.{HasDifferencesInRange, HasRunningProductsInRange, SubtractsAlong};
ghost use Rattle.ndarray.specs.Elementwise.{CanMap};
ghost use Rattle.ndarray.specs.Index.{size};
ghost use Rattle.ndarray.specs.Subviews.{lanes_of};

use crate::base::array::{ArrayBase, ArrayView};
use crate::base::axis::Axis;
use crate::base::dimension::Lengths;
use crate::base::storage::Data;
use crate::base::strided::Strided;
use crate::ops::operations::Subtraction;
use crate::ops::range_tests::pairs_fit;
use crate::order::{Order, Walk};
use crate::reduce::diff::difference;
use num_traits::{CheckedMul, CheckedSub, Num, One};
use std::alloc::{AllocError, Global};

impl<A: Copy + One + CheckedMul, S: Data<Elem = A>, D: Lengths> ArrayBase<S, D> {
    /// Whether [`cumprod`](Self::cumprod) may be called along an axis: the axis is below the number of axes, and each running product along
    /// it is in the type's range.
    ///
    /// Requires nothing, and the test allocates nothing.
    ///
    /// ```
    /// let view = ArrayView::from_shape((2, 2), &[100i8, 2, 1, 64])?;
    /// assert!(view.cumprod_fits(Axis(0))); // [[100, 2], [100, 128]]: no
    /// assert!(!view.cumprod_fits(Axis(1)));
    /// ```
    pub fn cumprod_fits(&self, axis: Axis) -> bool
        ensures exact { IsTrue result ↔ ((axis.0 < length self.now.lengths) × CanMap (λ lane. HasRunningProductsInRange A.value A.fits lane.cells) (lanes_of self.now axis.0)) }
        ensures axis { IsTrue result → axis.0 < length self.now.lengths }
        ensures defined { IsTrue result → CanMap (λ lane. CanCumulate A.can_mul A.mul_gives lane.cells) (lanes_of self.now axis.0) }
    {
        self.axis_ok(axis) && lanes_cumulate(&self.view(), axis)
    }
}

/// Whether the type has the running products of each lane along an axis.
fn lanes_cumulate<A: Copy + One + CheckedMul, D: Lengths>(
    array: &ArrayView<'_, A, D>,
    axis: Axis,
) -> bool
    requires { axis.0 < length array.now.lengths }
    ensures { IsTrue result ↔ CanMap (λ lane. HasRunningProductsInRange A.value A.fits lane.cells) (lanes_of array.now axis.0) }
{
    let dim = array.raw_dim();
    // Without cells there may be more lanes than could be walked.
    if array.len() == 0 {
        return true;
    }
    let len = dim.axis(axis.0);
    // The index lists of the first cells of the lanes.
    let mut firsts = dim;
    firsts.set_axis(axis.0, 1);
    for first in Walk::new(firsts, Order::RowMajor) {
        if !cells_cumulate(array.cells_along(&first, axis.0, len)) {
            return false;
        }
    }
    true
}

/// Whether the type has the running products of some cells.
fn cells_cumulate<A: Copy + One + CheckedMul>(cells: Strided<'_, A>) -> bool
    ensures { IsTrue result ↔ HasRunningProductsInRange A.value A.fits cells.entry }
{
    let mut cells = cells;
    let Some(first) = cells.next() else {
        return true;
    };
    let mut product = *first;
    while let Some(x) = cells.next() {
        let Some(next) = x.checked_mul(&product) else {
            return false;
        };
        product = next;
    }
    true
}

impl<A: Copy + Num + CheckedSub, S: Data<Elem = A>, D: Lengths> ArrayBase<S, D> {
    /// Whether [`diff`](Self::diff) of order `n` may be called along an axis: the axis is below the number of axes and the order 0 or below
    /// the axis's length, as [`diff_ok`](Self::diff_ok) tests, and each difference of the orders 1 to `n` is in the type's range.
    ///
    /// Requires nothing. The error is an allocation failure, for the differences of lower orders; it is reported only if `n` is at least 2
    /// and below the axis's length, and the array has cells.
    ///
    /// ```
    /// let view = ArrayView::from_shape(3, &[-100i8, 20, 100])?;
    /// view.diff_fits(alloc, 1, Axis(0))?; // true: [120, 80]
    /// view.diff_fits(alloc, 2, Axis(0))?; // true: [-40]
    /// ArrayView::from_shape(2, &[-100i8, 28])?.diff_fits(alloc, 1, Axis(0))?; // false
    /// ```
    pub fn diff_fits(&self, alloc: Global, n: usize, axis: Axis) -> Result<bool, AllocError>
        ensures exact { IfOk result (λ fits. IsTrue fits ↔ ((axis.0 < length self.now.lengths) × ((n ≡ 0) ⊎ (n < slice_index self.now.lengths axis.0)) × HasDifferencesInRange A.value A.fits axis.0 n self.now)) }
        ensures axis { IfOk result (λ fits. IsTrue fits → axis.0 < length self.now.lengths) }
        ensures order { IfOk result (λ fits. IsTrue fits → (n ≡ 0) ⊎ (n < slice_index self.now.lengths axis.0)) }
        ensures defined { IfOk result (λ fits. IsTrue fits → CanDiffer A.sub_gives axis.0 A.can_sub n self.now) }
        ensures error { IfErr result (λ _. (1 < n) × (n < slice_index self.now.lengths axis.0) × (size self.now.lengths ≢ 0)) }
    {
        if !self.diff_ok(n, axis) {
            return Ok(false);
        }
        differences_fit(alloc, &self.view(), n, axis)
    }
}

/// Whether the type has each difference that is taken on the way to order `n` along an axis.
fn differences_fit<A: Copy + Num + CheckedSub, D: Lengths>(
    alloc: Global,
    array: &ArrayView<'_, A, D>,
    n: usize,
    axis: Axis,
) -> Result<bool, AllocError>
    requires axis { axis.0 < length array.now.lengths }
    requires order { (n ≡ 0) ⊎ (n < slice_index array.now.lengths axis.0) }
    ensures exact { IfOk result (λ fits. IsTrue fits ↔ HasDifferencesInRange A.value A.fits axis.0 n array.now) }
    ensures error { IfErr result (λ _. (1 < n) × (size array.now.lengths ≢ 0)) }
{
    let _lengths = array.raw_dim();
    if n == 0 {
        return Ok(true);
    }
    // Without cells nothing is subtracted, whatever the order.
    if array.len() == 0 {
        return Ok(true);
    }
    if !neighbours_fit(array, axis) {
        return Ok(false);
    }
    if n == 1 {
        return Ok(true);
    }
    let mut cells = difference(alloc, array, axis)?;
    for _ in 1..n - 1 {
        if !neighbours_fit(&cells, axis) {
            return Ok(false);
        }
        cells = difference(alloc, &cells, axis)?;
    }
    Ok(neighbours_fit(&cells, axis))
}

/// Whether the type has each cell that is one further along an axis, minus the cell.
fn neighbours_fit<A: Num + CheckedSub, S: Data<Elem = A>, D: Lengths>(
    array: &ArrayBase<S, D>,
    axis: Axis,
) -> bool
    requires axis { axis.0 < length array.now.lengths }
    requires some { 0 < slice_index array.now.lengths axis.0 }
    ensures { IsTrue result ↔ SubtractsAlong A.value A.fits axis.0 array.now }
{
    let view = array.view();
    let rest = view.len_of(axis) - 1;
    pairs_fit::<Subtraction, A, D>(&view.part(axis.0, 1, rest), &view.part(axis.0, 0, rest))
}
