//! Scans of lanes in tiles: one step along each of many lanes, and then the next step, so that cells that lie close together
//! follow one another.

ghost use Rattle.core.specs.Mem.{type_size};
ghost use Rattle.std.specs.Prelude.{◌≡◌, ◌≢◌, ◌<◌, ◌≤◌, All, AllPairs, length, replicate, slice_index};
ghost use Rattle.ndarray.specs.Grid.{IsGrid, cell};
ghost use Rattle.ndarray.specs.Index.{InBox};
ghost use Rattle.ndarray.specs.Limits.{IsWithinLimit};
ghost use Rattle.ndarray.specs.Scans.{MayScanLanes, ScansLanes, can_step, step_gives};
ghost use Rattle.ndarray.specs.base.LaneScans.{AreOnLanes, MayScanEach, MayStepEach, ScansEach, StepsEach, lanes_at};
ghost use Rattle.ndarray.specs.base.Ranks.{row_from};
ghost use Rattle.ndarray.specs.places.ElementPlaces.{AreDistinctPlaces};

use crate::base::array::ArrayBase;
use crate::base::axis::Axis;
use crate::base::dimension::Lengths;
use crate::base::shape::axis_at;
use crate::base::storage::{Data, DataMut};
use crate::order::Row;
use crate::order::rows::BoxRows;
use crate::places::place_rows::PlaceRow;

/// How many lanes are scanned side by side at most.
const TILE: usize = 512;

/// From how many cells on an array does not fit into the first-level cache, so that the cells of a lane may evict each other.
const MANY_CELLS: usize = 1 << 14;

/// Whether lanes are scanned faster in tiles: there are many cells, and those of neighbouring lanes lie no farther apart than
/// those of one lane. No contract speaks of it.
pub(super) fn are_tiles_faster<S: Data, D: Lengths>(array: &ArrayBase<S, D>, axis: usize) -> bool
    requires { axis < length array.now.lengths }
{
    if array.len() < MANY_CELLS {
        return false;
    }
    let along = axis_at(array.fast_order(), array.ndim(), 0);
    along != axis && array.len_of(Axis(along)) >= 8 && array.are_closer_along(along, axis)
}

/// Scans the lanes of an axis in place, in tiles of at most 512 lanes. The array of their values is cleared whenever this
/// function is entered, so `scan_lanes` itself has none.
#[inline(always)]
pub(super) fn scan_by_tiles<
    A: Copy,
    S: DataMut<Elem = A>,
    D: Lengths,
    B: Copy,
    F: Fn(B, A) -> (B, A),
>(array: &mut ArrayBase<S, D>, axis: Axis, init: B, f: &F)
    requires axis { axis.0 < length array.old.lengths }
    requires small { type_size B.row ≤ 32 }
    requires callable { MayScanLanes (step_gives F.Fn f.now) (can_step F.Fn f.now) axis.0 init array.old }
    ensures { ScansLanes (step_gives F.Fn f.now) axis.0 init array.old array.new }
{
    let mut values = [init; TILE];
    let dim = array.raw_dim();
    let len = dim.axis(axis.0);
    // The index lists of the first cells of the lanes.
    let mut firsts = dim;
    firsts.set_axis(axis.0, len.min(1));
    let mut rows = BoxRows::new(firsts, array.fast_order());
    while let Some(row) = rows.next() {
        scan_row(array, axis.0, &row, init, &mut values, f);
    }
}

/// The same along the lanes whose first cells are on a row.
#[inline(always)]
fn scan_row<A: Copy, S: DataMut<Elem = A>, D: Lengths, B: Copy, F: Fn(B, A) -> (B, A)>(
    array: &mut ArrayBase<S, D>,
    axis: usize,
    row: &Row<D>,
    init: B,
    values: &mut [B],
    f: &F,
)
    requires axis { axis < length array.old.lengths }
    requires whole { IsGrid array.old }
    requires limit { IsWithinLimit array.old.lengths }
    requires some { 0 < length values.old }
    requires lanes { AreOnLanes array.old.lengths axis (row_from (D.numbers row.now.first) row.now.axis row.now.count) }
    requires callable { MayScanEach (step_gives F.Fn f.now) (can_step F.Fn f.now) axis init (lanes_at axis (row_from (D.numbers row.now.first) row.now.axis row.now.count)) array.old }
    ensures { ScansEach (step_gives F.Fn f.now) axis init (lanes_at axis (row_from (D.numbers row.now.first) row.now.axis row.now.count)) array.old array.new }
{
    let len = array.len_of(Axis(axis));
    let mut done = 0;
    'tiles: while done < row.count {
        let tile = row.part(done, values.len());
        scan_side_by_side(array, axis, len, &tile, init, &mut values[..tile.count], f);
        done += tile.count;
    }
}

/// The same for no more lanes than there are values: each step along all of them before the next one.
#[inline(always)]
fn scan_side_by_side<A: Copy, S: DataMut<Elem = A>, D: Lengths, B: Copy, F: Fn(B, A) -> (B, A)>(
    array: &mut ArrayBase<S, D>,
    axis: usize,
    len: usize,
    row: &Row<D>,
    init: B,
    values: &mut [B],
    f: &F,
)
    requires len { len ≡ slice_index array.old.lengths axis }
    requires axis { axis < length array.old.lengths }
    requires whole { IsGrid array.old }
    requires some { 0 < row.now.count }
    requires many { length values.old ≡ row.now.count }
    requires lanes { AreOnLanes array.old.lengths axis (row_from (D.numbers row.now.first) row.now.axis row.now.count) }
    requires callable { MayScanEach (step_gives F.Fn f.now) (can_step F.Fn f.now) axis init (lanes_at axis (row_from (D.numbers row.now.first) row.now.axis row.now.count)) array.old }
    ensures { ScansEach (step_gives F.Fn f.now) axis init (lanes_at axis (row_from (D.numbers row.now.first) row.now.axis row.now.count)) array.old array.new }
{
    fill(values, init);
    let mut index = row.first.copied();
    for k in 0..len {
        index.set_axis(axis, k);
        step_along(array, &index, row.axis, values, f);
    }
}

/// Makes all values the same.
fn fill<B: Copy>(values: &mut [B], value: B)
    ensures { values.new ≡ replicate (length values.old) value }
{
    for t in 0..values.len() {
        values[t] = value;
    }
}

/// One step at each cell from an index list on along an axis, with a value for each.
#[inline(always)]
fn step_along<A: Copy, S: DataMut<Elem = A>, D: Lengths, B: Copy, F: Fn(B, A) -> (B, A)>(
    array: &mut ArrayBase<S, D>,
    first: &D,
    axis: usize,
    values: &mut [B],
    f: &F,
)
    requires some { 0 < length values.old }
    requires within { All (InBox array.old.lengths) (row_from (D.numbers first.now) axis (length values.old)) }
    requires apart { AllPairs (λ is js. is ≢ js) (row_from (D.numbers first.now) axis (length values.old)) }
    requires callable { MayStepEach (can_step F.Fn f.now) (row_from (D.numbers first.now) axis (length values.old)) values.old (cell array.old) }
    ensures steps { StepsEach (step_gives F.Fn f.now) (row_from (D.numbers first.now) axis (length values.old)) values.old (cell array.old) values.new (cell array.new) }
    ensures lengths { array.new.lengths ≡ array.old.lengths }
    ensures whole { IsGrid array.new }
{
    let places = PlaceRow {
        place: array.layout.place(first),
        stride: array.layout.stride(axis),
        left: values.len(),
    };
    step_each(&mut array.storage, places, values, f);
}

/// One step at the element at each place, with a value for each.
#[inline(always)]
fn step_each<A: Copy, S: DataMut<Elem = A>, B: Copy, F: Fn(B, A) -> (B, A)>(
    storage: &mut S,
    places: PlaceRow,
    values: &mut [B],
    f: &F,
)
    requires many { length places ≡ length values.old }
    requires distinct { AreDistinctPlaces (S.at storage.old) places }
    requires callable { MayStepEach (can_step F.Fn f.now) places values.old (S.at storage.old) }
    ensures { StepsEach (step_gives F.Fn f.now) places values.old (S.at storage.old) values.new (S.at storage.new) }
{
    let mut places = places;
    for t in 0..values.len() {
        let Some(place) = places.next() else {
            unreachable!()
        };
        let (next, new) = f(values[t], *storage.element(place));
        *storage.element_mut(place) = new;
        values[t] = next;
    }
}
