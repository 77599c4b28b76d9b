//! Index lists with the places of their cells, row by row: on a row the last index is counted up, and each place is
//! a stride after the one before.

ghost use Rattle.std.specs.Prelude.{◌≡◌, ◌<◌, ◌^◌, length, zip};
ghost use Rattle.std.specs.Iterator.{YieldsFirstBy};
ghost use Rattle.ndarray.specs.Limits.{IsWithinLimit};
ghost use Rattle.ndarray.specs.Orders.{box_in};
ghost use Rattle.ndarray.specs.base.Strided.{places_from};
ghost use Rattle.ndarray.specs.base.Ranks.{row_from};
ghost use Rattle.ndarray.specs.order.Walks.{FitsOnAxis};
ghost use Rattle.ndarray.specs.places.ElementPlaces.{with_places};

use crate::base::dimension::Lengths;
use crate::base::layout::Layout;
use crate::base::shape::axis_at;
use crate::order::rows::BoxRows;
use crate::order::{Order, Row};
use std::marker::Model;

/// The index lists of one row that are still to come, each with its place: `left` of them, from `next` on along the
/// axis.
#[derive(Drop)]
struct IndexedRow<D: Lengths> {
    // an index list of the row
    index: D,
    axis: usize,
    next: usize,
    place: usize,
    stride: usize,
    left: usize,
}

impl<D: Lengths> Model for IndexedRow<D> {
    ghost use Rattle.std.specs.Prelude.{List, ℕ, ◌<◌, ◌+◌, ◌^◌, slice_set, zip};
    ghost use Rattle.ndarray.specs.base.Strided.{places_from};
    ghost use Rattle.ndarray.specs.base.Ranks.{row_from};

    ghost Value = { List (List ℕ × ℕ) };

    ghost view = { λ r. zip (row_from (slice_set (D.numbers r.index) r.axis r.next) r.axis r.left) (places_from r.place r.stride r.left) };

    ghost invariant = { λ r. 0 < r.left → r.next + r.left < 2 ^ 64 };
}

impl<D: Lengths> IndexedRow<D> {
    /// The index lists of a row, the first of which lies at a place, and each other a stride after the one before.
    #[inline(always)]
    fn new(row: &Row<D>, place: usize, stride: usize) -> Self
        requires { FitsOnAxis (D.numbers row.now.first) row.now.axis row.now.count }
        ensures { result ≡ zip (row_from (D.numbers row.now.first) row.now.axis row.now.count) (places_from place stride row.now.count) }
    {
        let axis = row.axis;
        let next = if axis < row.first.ndim() {
            row.first.axis(axis)
        } else {
            0
        };
        IndexedRow {
            index: row.first.copied(),
            axis,
            next,
            place,
            stride,
            left: row.count,
        }
    }

    /// How many are still to come.
    #[inline(always)]
    fn len(&self) -> usize
        ensures { result ≡ length self.now }
    {
        self.left
    }

    /// The next index list and its place.
    #[inline(always)]
    fn next(&mut self) -> Option<(D, usize)>
        ensures { YieldsFirstBy (λ item. (D.numbers item.0, item.1)) (λ rest. rest) self.old result self.new }
    {
        if self.left == 0 {
            return None;
        }
        let mut index = self.index.copied();
        if self.axis < index.ndim() {
            index.set_axis(self.axis, self.next);
        }
        let place = self.place;
        self.next += 1;
        self.place = place.wrapping_add(self.stride);
        self.left -= 1;
        Some((index, place))
    }

    /// A copy of it.
    fn again(&self) -> Self
        ensures { result ≡ self.now }
    {
        IndexedRow {
            index: self.index.copied(),
            axis: self.axis,
            next: self.next,
            place: self.place,
            stride: self.stride,
            left: self.left,
        }
    }
}

/// The index lists of cells that are still to come, each with the place of its cell: those of a row, and those behind
/// it.
#[derive(Drop)]
pub(crate) struct IndexedPlaces<D: Lengths> {
    row: IndexedRow<D>,
    layout: Layout<D>,
    rows: BoxRows<D>,
}

impl<D: Lengths> Model for IndexedPlaces<D> {
    ghost use Rattle.std.specs.Prelude.{List, ℕ, ◌++◌, length};
    ghost use Rattle.ndarray.specs.order.Rows.{joined};
    ghost use Rattle.ndarray.specs.places.ElementPlaces.{HaveIndexedRows, with_places};

    ghost Value = { List (List ℕ × ℕ) };

    ghost view = { λ s. s.row ++ with_places s.layout.start (D.numbers s.layout.strides) (joined s.rows) };

    ghost invariant = { λ s. HaveIndexedRows (D.numbers s.layout.dim) (D.numbers s.layout.strides) s.rows (length s.row) };
}

impl<D: Lengths> IndexedPlaces<D> {
    /// All index lists of a box in an order, each with its place.
    pub(crate) fn new(layout: Layout<D>, order: Order) -> Self
        requires limit { IsWithinLimit (D.numbers layout.dim) }
        requires as_many { length (D.numbers layout.strides) ≡ length (D.numbers layout.dim) }
        ensures { result ≡ with_places layout.start (D.numbers layout.strides) (box_in order (D.numbers layout.dim)) }
    {
        let rows = BoxRows::new(layout.dim.copied(), order);
        // The axis of each row to come, so that the compiler knows which index is written.
        let ndim = layout.dim.ndim();
        let axis = if ndim == 0 {
            0
        } else {
            axis_at(order, ndim, 0)
        };
        IndexedPlaces {
            row: IndexedRow {
                index: layout.dim.copied(),
                axis,
                next: 0,
                place: 0,
                stride: 0,
                left: 0,
            },
            layout,
            rows,
        }
    }

    /// How many are still to come.
    pub(crate) fn len(&self) -> usize
        ensures value { result ≡ length self.now }
        ensures fits { result < 2 ^ 63 }
    {
        self.row.len() + self.rows.len()
    }

    /// The next index list and its place.
    #[inline(always)]
    pub(crate) fn next(&mut self) -> Option<(D, usize)>
        ensures { YieldsFirstBy (λ item. (D.numbers item.0, item.1)) (λ rest. rest) self.old result self.new }
    {
        if self.row.len() == 0 {
            let Some(row) = self.rows.next() else {
                return None;
            };
            let place = self.layout.place(&row.first);
            let stride = self.layout.stride(row.axis);
            self.row = IndexedRow::new(&row, place, stride);
        }
        self.row.next()
    }

    /// A copy of it.
    pub(crate) fn again(&self) -> Self
        ensures { result ≡ self.now }
    {
        IndexedPlaces {
            row: self.row.again(),
            layout: self.layout.copied(),
            rows: self.rows.again(),
        }
    }
}
