//! The places of an array's cells, and the index list whose cell lies at a place: for `base` and `places`.

ghost use Rattle.std.specs.Prelude.{◌≡◌, ◌≢◌, ◌<◌, ◌≤◌, ◌^◌, ℕ, List, length, slice_index, slice_get, IfSome, IfOk, IfErr, MatchOption};
ghost use Rattle.ndarray.specs.Grid.{cell, IsGrid};
ghost use Rattle.ndarray.specs.Index.{InBox, size};
ghost use Rattle.ndarray.specs.Limits.{IsWithinLimit};
ghost use Rattle.ndarray.specs.base.Places.{place};
ghost use Rattle.ndarray.specs.base.Nested.{distance, reach, sum_over_axes, forward_index, below_first, AreNested};
ghost use Rattle.ndarray.specs.base.CellLayouts.{place_in};
ghost use Rattle.ndarray.specs.base.Slots.{held_at};

use crate::base::array::{Array, ArrayBase, ArrayViewMut};
use crate::base::dimension::Lengths;
use crate::base::layout::Layout;
use crate::base::region::{Life, RegionRepr};
use crate::base::storage::OwnedRepr;
use std::marker::Model;

/// A stride without its sign.
pub(crate) fn distance(stride: usize) -> usize
    ensures { result ≡ distance stride }
{
    stride.min(stride.wrapping_neg())
}

/// How far an axis goes below its first place.
fn below_first(len: usize, stride: usize) -> usize
    requires some { 0 < len }
    requires near { reach len stride < 2 ^ 63 }
    ensures { result ≡ below_first len stride }
{
    let m = distance(stride);
    if m == stride { 0 } else { (len - 1) * m }
}

/// An index on the axis turned so that its stride goes up.
fn forward_index(len: usize, stride: usize, i: usize) -> usize
    requires { i < len }
    ensures { result ≡ forward_index len stride i }
{
    if distance(stride) == stride {
        i
    } else {
        len - 1 - i
    }
}

/// Of the axes longer than 1 the one of the largest stride, signs left out.
fn axis_of_largest_stride<D: Lengths>(dim: &D, strides: &D) -> Option<usize>
    requires { length (D.numbers strides.now) ≡ length (D.numbers dim.now) }
    ensures { MatchOption result ((k : ℕ) → k < length (D.numbers dim.now) → slice_index (D.numbers dim.now) k ≤ 1) (λ k. (k < length (D.numbers dim.now)) × (1 < slice_index (D.numbers dim.now) k) × ((j : ℕ) → j < length (D.numbers dim.now) → 1 < slice_index (D.numbers dim.now) j → distance (slice_index (D.numbers strides.now) j) ≤ distance (slice_index (D.numbers strides.now) k))) }
{
    let mut best = None;
    let mut most = 0;
    for k in 0..dim.ndim() {
        let m = distance(strides.axis(k));
        if dim.axis(k) > 1 && m >= most {
            best = Some(k);
            most = m;
        }
    }
    best
}

impl<D: Lengths> Layout<D> {
    /// The stride of an axis without its sign; `usize::MAX` for an axis of length 0 or 1, along which there is no step.
    pub(crate) fn step_size(&self, axis: usize) -> usize
        requires as_many { length (D.numbers self.now.strides) ≡ length (D.numbers self.now.dim) }
        requires axis { axis < length (D.numbers self.now.dim) }
    {
        if self.dim.axis(axis) <= 1 {
            return usize::MAX;
        }
        distance(self.strides.axis(axis))
    }

    /// How far the lowest place of a box that is not empty lies below the first.
    fn below_start(&self) -> usize
        requires as_many { length (D.numbers self.now.strides) ≡ length (D.numbers self.now.dim) }
        requires some { 0 < size (D.numbers self.now.dim) }
        requires nested { AreNested (D.numbers self.now.dim) (D.numbers self.now.strides) }
        ensures { result ≡ sum_over_axes below_first (D.numbers self.now.dim) (D.numbers self.now.strides) }
    {
        let mut below_start = 0;
        for k in 0..self.dim.ndim() {
            below_start += below_first(self.dim.axis(k), self.strides.axis(k));
        }
        below_start
    }

    /// The index list whose cell lies at a place, of a box whose strides are nested; `None` if none does.
    ///
    /// It allocates nothing: the indices are found axis by axis, that of the largest stride first, as all other axes together do not reach
    /// as far as one such stride.
    pub(crate) fn index_of(&self, at: usize) -> Option<D>
        requires as_many { length (D.numbers self.now.strides) ≡ length (D.numbers self.now.dim) }
        requires limit { IsWithinLimit (D.numbers self.now.dim) }
        requires nested { 0 < size (D.numbers self.now.dim) → AreNested (D.numbers self.now.dim) (D.numbers self.now.strides) }
        ensures { MatchOption result ((is : List ℕ) → InBox (D.numbers self.now.dim) is → place self.now.start (D.numbers self.now.strides) is ≢ at) (λ is. InBox (D.numbers self.now.dim) (D.numbers is) × (place self.now.start (D.numbers self.now.strides) (D.numbers is) ≡ at)) }
    {
        if self.dim.size() == 0 {
            return None;
        }
        let mut rest = at.wrapping_sub(self.start).wrapping_add(self.below_start());
        let mut dim = self.dim.copied();
        let mut index = D::zeros(dim.ndim());
        while let Some(k) = axis_of_largest_stride(&dim, &self.strides) {
            let stride = self.strides.axis(k);
            let m = distance(stride);
            let len = dim.axis(k);
            let i = rest / m;
            if i >= len {
                return None;
            }
            rest %= m;
            index.set_axis(k, forward_index(len, stride, i));
            dim.set_axis(k, 1);
        }
        match self.find(&index) {
            Some(found) if found == at => Some(index),
            _ => None,
        }
    }
}

/// The place of the cell at each index list, and the index list whose cell lies at a place. Each undoes the other.
#[derive(Drop)]
pub struct PlaceMap<D: Lengths> {
    layout: Layout<D>,
}

impl<D: Lengths> Model for PlaceMap<D> {
    ghost use Rattle.ndarray.specs.base.PlaceMap.{LiesApart};
    ghost use Rattle.ndarray.specs.base.CellLayouts.{CellLayout, cell_layout};

    ghost Value = { CellLayout };

    ghost view = { λ m. cell_layout (D.numbers m.layout.dim) m.layout.start (D.numbers m.layout.strides) };

    ghost invariant = { λ m. LiesApart (cell_layout (D.numbers m.layout.dim) m.layout.start (D.numbers m.layout.strides)) };
}

impl<D: Lengths> PlaceMap<D> {
    /// The lengths.
    pub(crate) fn raw_dim(&self) -> D
        ensures lengths { D.numbers result ≡ self.now.lengths }
        ensures limit { IsWithinLimit self.now.lengths }
    {
        self.layout.dim.copied()
    }

    /// The place of the cell at an index list of the box. No other index list has this place.
    pub(crate) fn place(&self, index: &D) -> usize
        requires { InBox self.now.lengths (D.numbers index.now) }
        ensures value { result ≡ place_in self.now (D.numbers index.now) }
        ensures alone { (is : List ℕ) → InBox self.now.lengths is → place_in self.now is ≡ result → is ≡ D.numbers index.now }
    {
        self.layout.place(index)
    }

    /// The one index list whose cell lies at a place; `None` if none does.
    pub(crate) fn index_of(&self, at: usize) -> Option<D>
        ensures value { MatchOption result ((is : List ℕ) → InBox self.now.lengths is → place_in self.now is ≢ at) (λ is. InBox self.now.lengths (D.numbers is) × (place_in self.now (D.numbers is) ≡ at)) }
        ensures alone { IfSome result (λ index. (is : List ℕ) → InBox self.now.lengths is → place_in self.now is ≡ at → is ≡ D.numbers index) }
    {
        self.layout.index_of(at)
    }
}

impl<A: Drop, D: Lengths> Array<A, D> {
    /// The array's vector, if its elements are the cells in row order; else the array as it is.
    pub(crate) fn try_into_cells(self) -> Result<Vec<A>, Self>
        ensures cells { IfOk result (λ v. v.items ≡ self.cells) }
        ensures back { IfErr result (λ a. a ≡ self) }
    {
        let ArrayBase { storage, layout } = self;
        let len = layout.dim.size();
        if storage.items.len() != len {
            return Err(ArrayBase { storage, layout });
        }
        if len == 0 {
            return Ok(storage.items);
        }
        if !layout.is_row_major() {
            return Err(ArrayBase { storage, layout });
        }
        let OwnedRepr { items } = storage;
        Ok(items)
    }

    /// The array's vector, and where its cells lie in it: at each index list's place its cell.
    pub(crate) fn into_storage(self) -> (Vec<A>, PlaceMap<D>)
        ensures lengths { result.1.lengths ≡ self.lengths }
        ensures cells { (is : List ℕ) → InBox self.lengths is → slice_get result.0.items (place_in result.1 is) ≡ cell self is }
        ensures whole { IsGrid self }
        ensures limit { IsWithinLimit self.lengths }
    {
        let ArrayBase { storage, layout } = self;
        let OwnedRepr { items } = storage;
        (items, PlaceMap { layout })
    }
}

impl<'a, A, D: Lengths> ArrayViewMut<'a, A, D> {
    /// The view's region, and where its cells lie in it: at each index list's place its cell.
    pub(crate) fn into_region(self) -> (RegionRepr<Life<'a>, A>, PlaceMap<D>)
        ensures lengths { result.1.lengths ≡ self.entry.lengths }
        ensures cells { (is : List ℕ) → InBox self.entry.lengths is → held_at result.0.slots (place_in result.1 is) ≡ cell self.entry is }
        ensures whole { IsGrid self.entry }
        ensures limit { IsWithinLimit self.entry.lengths }
    {
        let ArrayBase { storage, layout } = self;
        (storage, PlaceMap { layout })
    }
}
