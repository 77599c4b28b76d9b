//! Where the cells of an array lie in its storage: for `base`, `order`, `places`, `reduce` and `subviews`.

ghost use Rattle.std.specs.Prelude.{◌≡◌, ◌<◌, ◌≤◌, ◌+◌, ◌*◌, ◌%◌, ◌^◌, ◌↔◌, ℕ, List, IsTrue, length, insert, remove, reverse, slice_index, slice_set, swap, MatchOption};
ghost use Rattle.ndarray.specs.Index.{InBox, size};
ghost use Rattle.ndarray.specs.Limits.{IsWithinLimit};
ghost use Rattle.ndarray.specs.Broadcast.{BroadcastsTo};
ghost use Rattle.ndarray.specs.base.Places.{place};
ghost use Rattle.ndarray.specs.base.Strides.{AreStridesOf, StretchedBy};
ghost use Rattle.ndarray.specs.base.Ranks.{rank};
ghost use Rattle.ndarray.specs.base.Strided.{LieSideBySide};
ghost use Rattle.ndarray.specs.declared.base.shape.Order.TheVariants.{RowMajor};

use crate::base::axis::Axis;
use crate::base::dimension::{Dimension, Lengths};
use crate::base::shape::{Order, axis_at};

/// The lengths of an array, the place of its first index list, and how far the next place lies on
/// each axis. Strides are the bits of signed numbers, so places are counted modulo 2^64.
#[derive(Drop)]
pub struct Layout<D> {
    pub(crate) start: usize,
    pub(crate) dim: D,
    pub(crate) strides: D,
}

impl<D: Lengths> Layout<D> {
    /// Where the cell of an index list lies; `None` outside the box.
    #[inline(always)]
    pub(crate) fn find(&self, index: &D) -> Option<usize>
        requires { length (D.numbers self.now.strides) ≡ length (D.numbers self.now.dim) }
        ensures { MatchOption result (InBox (D.numbers self.now.dim) (D.numbers index.now) → ⊥) (λ at. InBox (D.numbers self.now.dim) (D.numbers index.now) × (at ≡ place self.now.start (D.numbers self.now.strides) (D.numbers index.now))) }
    {
        let ndim = self.dim.ndim();
        if index.ndim() != ndim {
            return None;
        }
        let mut at = self.start;
        for k in 0..ndim {
            let i = index.axis(k);
            if i >= self.dim.axis(k) {
                return None;
            }
            at = at.wrapping_add(i.wrapping_mul(self.strides.axis(k)));
        }
        Some(at)
    }

    /// Where the cell of an index list of the box lies.
    #[inline(always)]
    pub(crate) fn place(&self, index: &D) -> usize
        requires { length (D.numbers self.now.strides) ≡ length (D.numbers index.now) }
        ensures { result ≡ place self.now.start (D.numbers self.now.strides) (D.numbers index.now) }
    {
        let mut at = self.start;
        for k in 0..index.ndim() {
            at = at.wrapping_add(index.axis(k).wrapping_mul(self.strides.axis(k)));
        }
        at
    }

    /// How far the next place lies on an axis; 0 for an axis that is not there.
    #[inline(always)]
    pub(crate) fn stride(&self, axis: usize) -> usize
        ensures { result ≡ slice_index (D.numbers self.now.strides) axis }
    {
        if axis < self.strides.ndim() {
            self.strides.axis(axis)
        } else {
            0
        }
    }

    /// Whether the cells lie side by side in row order, the first one at the start. An axis of length 1
    /// may have any stride.
    ///
    /// Requires a box that is not empty.
    pub(crate) fn is_row_major(&self) -> bool
        requires as_many { length (D.numbers self.now.strides) ≡ length (D.numbers self.now.dim) }
        requires limit { IsWithinLimit (D.numbers self.now.dim) }
        requires some { 0 < size (D.numbers self.now.dim) }
        ensures places { IsTrue result ↔ ((is : List ℕ) → InBox (D.numbers self.now.dim) is → place self.now.start (D.numbers self.now.strides) is ≡ self.now.start + rank (D.numbers self.now.dim) is) }
        ensures one { size (D.numbers self.now.dim) ≡ 1 → IsTrue result }
    {
        let ndim = self.dim.ndim();
        let mut block: usize = 1;
        for p in 0..ndim {
            let k = ndim - 1 - p;
            let len = self.dim.axis(k);
            if len != 1 && self.strides.axis(k) != block {
                return false;
            }
            block *= len;
        }
        // Places are counted modulo 2^64, and none may come before the start.
        self.start.checked_add(block - 1).is_some()
    }

    /// Which way the cells lie: 2 if they are side by side in row order, -2 if they are in column order; else -1 or 1 if those along the
    /// first or the last axis are; else 0. It is 0 too if at most one axis is longer than 1, so that both orders are one.
    pub(crate) fn tendency(&self) -> i32
        requires as_many { length (D.numbers self.now.strides) ≡ length (D.numbers self.now.dim) }
        requires limit { IsWithinLimit (D.numbers self.now.dim) }
    {
        let ndim = self.dim.ndim();
        if self.is_contiguous_in(Order::RowMajor) {
            return if self.has_long_axes() { 2 } else { 0 };
        }
        if ndim < 2 {
            return 0;
        }
        if self.is_contiguous_in(Order::ColumnMajor) {
            return -2;
        }
        if self.dim.axis(0) > 1 && self.strides.axis(0) == 1 {
            return -1;
        }
        if self.dim.axis(ndim - 1) > 1 && self.strides.axis(ndim - 1) == 1 {
            return 1;
        }
        0
    }

    /// Whether each row in an order has more than one cell, all at one place. No contract speaks of it.
    pub(crate) fn is_still_in(&self, order: Order) -> bool {
        let ndim = self.dim.ndim();
        if ndim == 0 {
            return false;
        }
        let axis = axis_at(order, ndim, 0);
        self.dim.axis(axis) > 1 && self.stride(axis) == 0
    }

    /// Whether the cells are known to lie side by side in an order, as no cells do.
    pub(crate) fn is_contiguous_in(&self, order: Order) -> bool
        requires as_many { length (D.numbers self.now.strides) ≡ length (D.numbers self.now.dim) }
        requires limit { IsWithinLimit (D.numbers self.now.dim) }
        ensures { IsTrue result → LieSideBySide order (D.numbers self.now.dim) self.now.start (D.numbers self.now.strides) }
    {
        match order {
            Order::RowMajor => self.is_contiguous(),
            Order::ColumnMajor => self.reversed_axes().is_contiguous(),
        }
    }

    /// Whether the cells are known to lie side by side in row order.
    fn is_contiguous(&self) -> bool
        requires as_many { length (D.numbers self.now.strides) ≡ length (D.numbers self.now.dim) }
        requires limit { IsWithinLimit (D.numbers self.now.dim) }
        ensures { IsTrue result → LieSideBySide RowMajor (D.numbers self.now.dim) self.now.start (D.numbers self.now.strides) }
    {
        if self.dim.size() == 0 {
            return true;
        }
        self.is_row_major()
    }

    /// Whether two or more axes are longer than 1.
    fn has_long_axes(&self) -> bool {
        let mut long = false;
        for k in 0..self.dim.ndim() {
            if self.dim.axis(k) > 1 {
                if long {
                    return true;
                }
                long = true;
            }
        }
        false
    }

    /// The layout with its axes from the last to the first.
    pub(crate) fn reversed_axes(&self) -> Self
        ensures start { result.start ≡ self.now.start }
        ensures dim { D.numbers result.dim ≡ reverse (D.numbers self.now.dim) }
        ensures strides { D.numbers result.strides ≡ reverse (D.numbers self.now.strides) }
    {
        let start = self.start;
        Layout {
            start,
            dim: reversed(&self.dim),
            strides: reversed(&self.strides),
        }
    }

    /// A copy of it.
    pub(crate) fn copied(&self) -> Self
        ensures start { result.start ≡ self.now.start }
        ensures dim { D.numbers result.dim ≡ D.numbers self.now.dim }
        ensures strides { D.numbers result.strides ≡ D.numbers self.now.strides }
        ensures axes { D.has_axes (length (D.numbers self.now.dim)) }
    {
        Layout {
            start: self.start,
            dim: self.dim.copied(),
            strides: self.strides.copied(),
        }
    }

    /// Exchanges two axes.
    pub(crate) fn swap_axes(&mut self, i: usize, j: usize)
        requires as_many { length (D.numbers self.old.strides) ≡ length (D.numbers self.old.dim) }
        requires first { i < length (D.numbers self.old.dim) }
        requires second { j < length (D.numbers self.old.dim) }
        ensures start { self.new.start ≡ self.old.start }
        ensures dim { D.numbers self.new.dim ≡ swap (D.numbers self.old.dim) i j }
        ensures strides { D.numbers self.new.strides ≡ swap (D.numbers self.old.strides) i j }
    {
        self.dim.slice_mut().swap(i, j);
        self.strides.slice_mut().swap(i, j);
    }

    /// Keeps `len` places of an axis: that of index `from`, and on from it `step` at a time. A step
    /// is the bits of a signed number.
    pub(crate) fn cut(&mut self, axis: usize, from: usize, len: usize, step: usize)
        requires as_many { length (D.numbers self.old.strides) ≡ length (D.numbers self.old.dim) }
        requires axis { axis < length (D.numbers self.old.dim) }
        ensures start { self.new.start ≡ (self.old.start + (from * slice_index (D.numbers self.old.strides) axis) % 2 ^ 64) % 2 ^ 64 }
        ensures dim { D.numbers self.new.dim ≡ slice_set (D.numbers self.old.dim) axis len }
        ensures strides { D.numbers self.new.strides ≡ slice_set (D.numbers self.old.strides) axis ((slice_index (D.numbers self.old.strides) axis * step) % 2 ^ 64) }
    {
        let stride = self.strides.axis(axis);
        self.start = self.start.wrapping_add(from.wrapping_mul(stride));
        self.dim.set_axis(axis, len);
        self.strides.set_axis(axis, stride.wrapping_mul(step));
    }

    /// The layout under another type of dimension, which has this number of axes.
    pub(crate) fn into_dimensionality<E: Lengths>(self) -> Layout<E>
        requires as_many { length (D.numbers self.strides) ≡ length (D.numbers self.dim) }
        requires has { E.has_axes (length (D.numbers self.dim)) }
        ensures start { result.start ≡ self.start }
        ensures dim { E.numbers result.dim ≡ D.numbers self.dim }
        ensures strides { E.numbers result.strides ≡ D.numbers self.strides }
    {
        Layout {
            start: self.start,
            dim: same_numbers(&self.dim),
            strides: same_numbers(&self.strides),
        }
    }
}

impl<D: Dimension> Layout<D> {
    /// The layout of the item at an index of an axis.
    pub(crate) fn item(&self, axis: Axis, index: usize) -> Layout<D::Smaller>
        requires as_many { length (D.numbers self.now.strides) ≡ length (D.numbers self.now.dim) }
        requires axis { axis.0 < length (D.numbers self.now.dim) }
        ensures start { result.start ≡ (self.now.start + (index * slice_index (D.numbers self.now.strides) axis.0) % 2 ^ 64) % 2 ^ 64 }
        ensures dim { D.Smaller.numbers result.dim ≡ remove (D.numbers self.now.dim) axis.0 }
        ensures strides { D.Smaller.numbers result.strides ≡ remove (D.numbers self.now.strides) axis.0 }
    {
        Layout {
            start: self
                .start
                .wrapping_add(index.wrapping_mul(self.strides.axis(axis.0))),
            dim: self.dim.try_remove_axis(axis),
            strides: self.strides.try_remove_axis(axis),
        }
    }

    /// The layout with an axis of length 1 put in.
    pub(crate) fn insert_axis(self, axis: Axis) -> Layout<D::Larger>
        requires as_many { length (D.numbers self.strides) ≡ length (D.numbers self.dim) }
        requires axis { axis.0 ≤ length (D.numbers self.dim) }
        requires room { length (D.numbers self.dim) < 32 }
        ensures start { result.start ≡ self.start }
        ensures dim { D.Larger.numbers result.dim ≡ insert (D.numbers self.dim) axis.0 1 }
        ensures strides { D.Larger.numbers result.strides ≡ insert (D.numbers self.strides) axis.0 1 }
    {
        let Layout {
            start,
            dim,
            strides,
        } = self;
        Layout {
            start,
            dim: dim.insert_axis(axis),
            strides: strides.insert_axis(axis),
        }
    }
}

/// The same numbers under another type of dimension, which has this number of axes.
pub(crate) fn same_numbers<D: Lengths, E: Lengths>(numbers: &D) -> E
    requires { E.has_axes (length (D.numbers numbers.now)) }
    ensures { E.numbers result ≡ D.numbers numbers.now }
{
    let ndim = numbers.ndim();
    let mut same = E::zeros(ndim);
    for k in 0..ndim {
        same.set_axis(k, numbers.axis(k));
    }
    same
}

/// The strides of a box whose cells lie side by side in the order.
pub(crate) fn default_strides<D: Lengths>(dim: &D, order: Order) -> D
    requires { IsWithinLimit (D.numbers dim.now) }
    ensures strides { AreStridesOf order (D.numbers dim.now) (D.numbers result) }
    ensures axes { D.has_axes (length (D.numbers dim.now)) }
{
    let ndim = dim.ndim();
    let mut strides = D::zeros(ndim);
    let mut block: usize = 1;
    for p in 0..ndim {
        let k = axis_at(order, ndim, p);
        strides.set_axis(k, block);
        block *= dim.axis(k);
    }
    strides
}

/// The numbers from the last axis to the first.
pub(crate) fn reversed<D: Lengths>(numbers: &D) -> D
    ensures { D.numbers result ≡ reverse (D.numbers numbers.now) }
{
    let ndim = numbers.ndim();
    let mut result = numbers.copied();
    for k in 0..ndim {
        result.set_axis(ndim - 1 - k, numbers.axis(k));
    }
    result
}

/// The strides by which an array is seen at the lengths `to`; `None` if it does not broadcast to
/// them.
pub(crate) fn broadcast_strides<D: Lengths, E: Lengths>(dim: &D, strides: &D, to: &E) -> Option<E>
    requires { length (D.numbers strides.now) ≡ length (D.numbers dim.now) }
    ensures { MatchOption result (BroadcastsTo (D.numbers dim.now) (E.numbers to.now) → ⊥) (λ s. StretchedBy (D.numbers dim.now) (E.numbers to.now) (D.numbers strides.now) (E.numbers s)) }
{
    let n = dim.ndim();
    let m = to.ndim();
    if n > m {
        return None;
    }
    let missing = m - n;
    let mut result = E::zeros(m);
    for k in 0..n {
        let len = dim.axis(k);
        if len != 1 && len != to.axis(missing + k) {
            return None;
        }
        let stride = if len == 1 { 0 } else { strides.axis(k) };
        result.set_axis(missing + k, stride);
    }
    Some(result)
}
