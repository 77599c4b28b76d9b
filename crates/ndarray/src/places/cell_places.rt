//! The places of an array's cells as a way.

ghost use Rattle.std.specs.Prelude.{◌≡◌};
ghost use Rattle.ndarray.specs.Index.{row_order};
ghost use Rattle.ndarray.specs.places.CellPlaces.{stepping};

use crate::base::dimension::Lengths;
use crate::base::place_map::PlaceMap;
use crate::order::{Order, Walk};
use crate::places::move_out::PlaceSequence;
use std::marker::Model;

/// The places of the cells of an array, in row order. The place map and the number of places still to come say whether a place was passed,
/// so no mark is kept.
#[derive(Drop)]
pub struct CellPlaces<D: Lengths> {
    map: PlaceMap<D>,
    walk: Walk<D>,
}

impl<D: Lengths> Model for CellPlaces<D> {
    ghost use Rattle.ndarray.specs.places.CellPlaces.{Stepping, stepping, AreOnceInBox};

    ghost Value = { Stepping };

    ghost view = { λ s. stepping s.map s.walk };

    ghost invariant = { λ s. AreOnceInBox s.map.lengths s.walk };
}

impl<D: Lengths> CellPlaces<D> {
    /// From the first cell on.
    pub(crate) fn new(map: PlaceMap<D>) -> Self
        ensures { result ≡ stepping map (row_order map.lengths) }
    {
        let walk = Walk::new(map.raw_dim(), Order::RowMajor);
        CellPlaces { map, walk }
    }
}

impl<D: Lengths> PlaceSequence for CellPlaces<D> {
    ghost use Rattle.ndarray.specs.places.CellPlaces.{places_ahead, HasPassed};

    ghost to_come = { places_ahead };

    ghost passed = { HasPassed };

    fn next_place(&mut self) -> Option<usize> {
        let Some(index) = self.walk.next() else {
            return None;
        };
        Some(self.map.place(&index))
    }

    fn len(&self) -> usize {
        self.walk.len()
    }

    fn has_passed(&self, place: usize) -> bool {
        match self.map.index_of(place) {
            Some(index) => !self.walk.is_to_come(&index),
            None => false,
        }
    }
}
