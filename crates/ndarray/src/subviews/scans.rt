//! Scans of the lanes of an array in place: a value is carried along each lane, and each cell is replaced on the way.

ghost use Rattle.std.specs.Prelude.{◌≡◌, ◌≢◌, ◌⊎◌, ◌<◌, ℕ, Contains, List, [], Some, filter_map, length, remove, slice_index};
ghost use Rattle.ndarray.specs.Grid.{IsGrid, cell};
ghost use Rattle.ndarray.specs.Index.{InBox};
ghost use Rattle.ndarray.specs.Scans.{MayScan, MayScanLanes, ScansLanes, ScansTo, can_step, step_gives};
ghost use Rattle.ndarray.specs.Subviews.{lane};
ghost use Rattle.ndarray.specs.Writes.{with_cell};
ghost use Rattle.ndarray.specs.places.ElementPlaces.{AreDistinctPlaces};

use crate::base::array::ArrayBase;
use crate::base::axis::Axis;
use crate::base::dimension::Lengths;
use crate::base::storage::DataMut;
use crate::order::{Order, Walk};
use crate::places::place_rows::PlaceRow;
use crate::subviews::lane_tiles::{are_tiles_faster, scan_by_tiles};
use core::mem::replace_with;
use std::mem::size_of_val;

impl<A: Copy, S: DataMut<Elem = A>, D: Lengths> ArrayBase<S, D> {
    /// Scans each lane along an axis in place: the value is `init` at the lane's first cell, and `f` takes the value and the old cell and
    /// returns the next value and the new cell. Nothing is allocated.
    ///
    /// There is one call for each cell, `len()` in all, in each lane in the order of its indices. An array without axes has one lane of
    /// length 1, whichever axis is named.
    ///
    /// Requires that the axis is below the number of axes, or that there are no axes (check with `lanes_ok`), and that each of these calls
    /// may be made.
    ///
    /// ```
    /// // [[1, 2, 3], [4, 5, 6]] becomes [[1, 3, 6], [4, 9, 15]]
    /// array.scan_lanes(Axis(1), 0, |sum, x| (sum + x, sum + x));
    /// ```
    pub fn scan_lanes<B: Copy, F: Fn(B, A) -> (B, A)>(&mut self, axis: Axis, init: B, f: F)
        requires lane { (self.old.lengths ≡ []) ⊎ (axis.0 < length self.old.lengths) }
        requires callable { MayScanLanes (step_gives F.Fn f) (can_step F.Fn f) axis.0 init self.old }
        ensures { ScansLanes (step_gives F.Fn f) axis.0 init self.old self.new }
    {
        replace_with(self, Scan { axis, init, f }, scan_taken)
    }
}

/// A scan: the axis of its lanes, the value at the first cell of each, and the closure of its steps.
#[derive(Drop)]
struct Scan<B, F> {
    axis: Axis,
    init: B,
    f: F,
}

/// The same for an array that is taken by value, so that no write to a cell can change where its elements are.
fn scan_taken<A: Copy, S: DataMut<Elem = A>, D: Lengths, B: Copy, F: Fn(B, A) -> (B, A)>(
    array: ArrayBase<S, D>,
    scan: Scan<B, F>,
) -> (ArrayBase<S, D>, ())
    requires lane { (array.lengths ≡ []) ⊎ (scan.axis.0 < length array.lengths) }
    requires callable { MayScanLanes (step_gives F.Fn scan.f) (can_step F.Fn scan.f) scan.axis.0 scan.init array }
    ensures { ScansLanes (step_gives F.Fn scan.f) scan.axis.0 scan.init array result.0 }
{
    let mut array = array;
    let Scan { axis, init, f } = scan;
    if array.ndim() == 0 {
        scan_cell(&mut array, axis, init, &f);
    } else if size_of_val(&init) <= 32 && are_tiles_faster(&array, axis.0) {
        scan_by_tiles(&mut array, axis, init, &f);
    } else {
        scan_axis(&mut array, axis, init, &f);
    }
    (array, ())
}

/// The same for an array of no axes.
fn scan_cell<A: Copy, S: DataMut<Elem = A>, D: Lengths, B: Copy, F: Fn(B, A) -> (B, A)>(
    array: &mut ArrayBase<S, D>,
    axis: Axis,
    init: B,
    f: &F,
)
    requires none { array.old.lengths ≡ [] }
    requires callable { MayScanLanes (step_gives F.Fn f.now) (can_step F.Fn f.now) axis.0 init array.old }
    ensures { ScansLanes (step_gives F.Fn f.now) axis.0 init array.old array.new }
{
    let index = array.raw_dim();
    let _last = scan_step(array, &index, init, f);
}

/// The same for an array that has the axis, lane by lane.
#[inline(always)]
fn scan_axis<A: Copy, S: DataMut<Elem = A>, D: Lengths, B: Copy, F: Fn(B, A) -> (B, A)>(
    array: &mut ArrayBase<S, D>,
    axis: Axis,
    init: B,
    f: &F,
)
    requires axis { axis.0 < length array.old.lengths }
    requires callable { MayScanLanes (step_gives F.Fn f.now) (can_step F.Fn f.now) axis.0 init array.old }
    ensures { ScansLanes (step_gives F.Fn f.now) axis.0 init array.old array.new }
{
    let dim = array.raw_dim();
    let len = dim.axis(axis.0);
    // The index lists of the first cells of the lanes.
    let mut firsts = dim;
    firsts.set_axis(axis.0, len.min(1));
    for first in Walk::new(firsts, Order::RowMajor) {
        scan_lane(array, axis.0, &first, len, init, f);
    }
}

/// The same along one lane, from the index list of its first cell on.
#[inline(always)]
fn scan_lane<A: Copy, S: DataMut<Elem = A>, D: Lengths, B: Copy, F: Fn(B, A) -> (B, A)>(
    array: &mut ArrayBase<S, D>,
    axis: usize,
    first: &D,
    len: usize,
    init: B,
    f: &F,
)
    requires axis { axis < length array.old.lengths }
    requires whole { IsGrid array.old }
    requires len { len ≡ slice_index array.old.lengths axis }
    requires within { InBox array.old.lengths (D.numbers first.now) }
    requires first { slice_index (D.numbers first.now) axis ≡ 0 }
    requires callable { MayScan (step_gives F.Fn f.now) (can_step F.Fn f.now) init (lane array.old axis (remove (D.numbers first.now) axis)).cells }
    ensures lengths { array.new.lengths ≡ array.old.lengths }
    ensures whole { IsGrid array.new }
    ensures scan { ScansTo (step_gives F.Fn f.now) init (lane array.old axis (remove (D.numbers first.now) axis)).cells (lane array.new axis (remove (D.numbers first.now) axis)).cells }
    ensures others { (is : List ℕ) → remove is axis ≢ remove (D.numbers first.now) axis → cell array.new is ≡ cell array.old is }
{
    let places = PlaceRow {
        place: array.layout.place(first),
        stride: array.layout.stride(axis),
        left: len,
    };
    scan_places(&mut array.storage, places, init, f);
}

/// Scans the elements at some places, one after another.
#[inline(always)]
fn scan_places<A: Copy, S: DataMut<Elem = A>, B: Copy, F: Fn(B, A) -> (B, A)>(
    storage: &mut S,
    places: PlaceRow,
    init: B,
    f: &F,
)
    requires distinct { AreDistinctPlaces (S.at storage.old) places }
    requires callable { MayScan (step_gives F.Fn f.now) (can_step F.Fn f.now) init (filter_map (S.at storage.old) places) }
    ensures distinct { AreDistinctPlaces (S.at storage.new) places }
    ensures scan { ScansTo (step_gives F.Fn f.now) init (filter_map (S.at storage.old) places) (filter_map (S.at storage.new) places) }
    ensures kept { (p : ℕ) → (Contains places p → ⊥) → S.at storage.new p ≡ S.at storage.old p }
{
    let mut places = places;
    let mut value = init;
    while let Some(place) = places.next() {
        let (next, new) = f(value, *storage.element(place));
        *storage.element_mut(place) = new;
        value = next;
    }
}

/// Replaces a cell by the one that a call at a value and the old cell returns, and returns the next value.
#[inline(always)]
fn scan_step<A: Copy, S: DataMut<Elem = A>, D: Lengths, B: Copy, F: Fn(B, A) -> (B, A)>(
    array: &mut ArrayBase<S, D>,
    index: &D,
    value: B,
    f: &F,
) -> B
    requires within { InBox array.old.lengths (D.numbers index.now) }
    requires callable { (x : A) → cell array.old (D.numbers index.now) ≡ Some x → can_step F.Fn f.now value x }
    ensures { (x : A) × (y : A) × (cell array.old (D.numbers index.now) ≡ Some x) × step_gives F.Fn f.now value x (result, y) × (array.new ≡ with_cell array.old (D.numbers index.now) y) }
{
    let Some(cell) = array.cell_mut(index) else {
        unreachable!()
    };
    let (next, new) = f(value, *cell);
    *cell = new;
    next
}
