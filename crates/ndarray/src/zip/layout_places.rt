//! The places of an array's cells as a producer: what updates an array walks them next to the items that it takes.

ghost use Rattle.std.specs.Prelude.{◌≡◌, ℕ, length, IsSome};
ghost use Rattle.std.specs.Iterator.{YieldsFirst, item_count};
ghost use Rattle.ndarray.specs.Limits.{IsWithinLimit};
ghost use Rattle.ndarray.specs.base.Places.{place};
ghost use Rattle.ndarray.specs.base.Strided.{places_from};
ghost use Rattle.ndarray.specs.order.Rows.{AreRowsIn};
ghost use Rattle.ndarray.specs.places.ElementPlaces.{places_along};

use crate::base::axis::Axis;
use crate::base::dimension::Lengths;
use crate::base::layout::Layout;
use crate::order::Order;
use crate::order::rows::BoxRows;
use crate::places::place_rows::PlaceRow;
use crate::zip::producer::{NdProducer, Shaped};
use std::marker::Model;

/// Where the cells of an array lie: at each index list the place of the cell there.
#[derive(Drop)]
pub(crate) struct LayoutPlaces<D: Lengths> {
    pub(crate) layout: Layout<D>,
    ghost as_many: { length (D.numbers layout.strides) ≡ length (D.numbers layout.dim) },
    ghost limit: { IsWithinLimit (D.numbers layout.dim) },
}

impl<D: Lengths> LayoutPlaces<D> {
    /// The places of the cells of a layout.
    pub(crate) fn of(layout: Layout<D>) -> Self
        requires as_many { length (D.numbers layout.strides) ≡ length (D.numbers layout.dim) }
        requires limit { IsWithinLimit (D.numbers layout.dim) }
        ensures { result.layout ≡ layout }
    {
        LayoutPlaces { layout }
    }
}

impl<D: Lengths> Shaped for LayoutPlaces<D> {
    ghost lengths = { λ s. D.numbers s.layout.dim };
}

impl<D: Lengths> NdProducer for LayoutPlaces<D> {
    type Item = usize;

    type Dim = D;

    ghost yields_at = { λ s i p. p ≡ place s.layout.start (D.numbers s.layout.strides) i };

    fn raw_dim(&self) -> D {
        self.layout.dim.copied()
    }

    fn split_at(self, axis: Axis, index: usize) -> (Self, Self) {
        let len = self.layout.dim.axis(axis.0);
        let mut low = self.layout.copied();
        low.cut(axis.0, 0, index, 1);
        let mut high = self.layout;
        high.cut(axis.0, index, len - index, 1);
        (LayoutPlaces::of(low), LayoutPlaces::of(high))
    }

    fn tendency(&self) -> i32 {
        0
    }

    type Row = PlaceRow;

    type Rows = PlaceRows<D>;

    type RowRun = PlaceRow;

    type FlatRow = PlaceRow;

    ghost row_form = { λ s is r. r ≡ places_along s.layout.start (D.numbers s.layout.strides) is };

    ghost is_flat = { λ r. (p : ℕ) × (r ≡ places_from p 1 (length r)) };

    ghost rows_form = { λ s o r. AreRowsIn (places_along s.layout.start (D.numbers s.layout.strides)) o (D.numbers s.layout.dim) r };

    ghost is_one = { λ r. IsSome r.one };

    #[inline(always)]
    fn into_rows(self, order: Order) -> PlaceRows<D> {
        let rows = BoxRows::new(self.raw_dim(), order);
        PlaceRows {
            one: PlaceRow::in_order(&self.layout, order),
            layout: self.layout,
            rows,
        }
    }

    #[inline(always)]
    fn is_one_row(rows: &PlaceRows<D>) -> bool {
        rows.one.is_some()
    }

    #[inline(always)]
    fn one_row(rows: PlaceRows<D>) -> Option<PlaceRow> {
        rows.one
    }

    #[inline(always)]
    fn is_flat_row(row: &PlaceRow) -> bool {
        row.stride == 1
    }

    /// Its stride is a constant, so that a loop over it takes vectors of elements.
    #[inline(always)]
    fn flat_row(row: PlaceRow) -> PlaceRow {
        PlaceRow {
            place: row.place,
            stride: 1,
            left: row.left,
        }
    }

    #[inline(always)]
    fn run_row(row: PlaceRow) -> PlaceRow {
        row
    }
}

/// The rows of places that are still to come, and all places as one row if they are known to follow one another.
#[derive(Drop)]
pub(crate) struct PlaceRows<D: Lengths> {
    one: Option<PlaceRow>,
    layout: Layout<D>,
    rows: BoxRows<D>,
}

impl<D: Lengths> Model for PlaceRows<D> {
    ghost use Rattle.std.specs.Prelude.{List, ℕ, ◌<◌, ◌≡◌, All, length, map};
    ghost use Rattle.ndarray.specs.order.Rows.{RowsAndOne};
    ghost use Rattle.ndarray.specs.places.ElementPlaces.{places_along};

    ghost Value = { RowsAndOne (List ℕ) };

    ghost view = { λ s. record { one = s.one; rows = map (places_along s.layout.start (D.numbers s.layout.strides)) s.rows } };

    ghost invariant = { λ s. All (λ row. (0 < length row) × All (λ is. length (D.numbers s.layout.strides) ≡ length is) row) s.rows };
}

impl<D: Lengths> Iterator for PlaceRows<D> {
    type Item = PlaceRow;

    ghost next_gives = { YieldsFirst (λ s. s.rows) };

    ghost remaining = { item_count (λ s. s.rows) };

    #[inline(always)]
    fn next(&mut self) -> Option<PlaceRow> {
        let Some(row) = self.rows.next() else {
            return None;
        };
        Some(PlaceRow::along(&self.layout, &row))
    }
}
