//! The cells of a view to write in, borrowed one after another, each at most once.

ghost use Rattle.std.specs.Prelude.{◌≡◌, length, zip};
ghost use Rattle.std.specs.Iterator.{YieldsFirstBy};
ghost use Rattle.std.specs.Borrow.{sem};
ghost use Rattle.ndarray.specs.Grid.{IsGrid};
ghost use Rattle.ndarray.specs.Index.{row_order};
ghost use Rattle.ndarray.specs.Limits.{IsWithinLimit};
ghost use Rattle.ndarray.specs.Writes.{keeps_lengths};

use crate::base::array::ArrayBase;
use crate::base::dimension::Lengths;
use crate::base::region::{Life, RegionRepr};
use crate::base::storage::DataMut;
use crate::base::view_mut::RegionParts;
use crate::order::Order;
use crate::places::indexed_rows::IndexedPlaces;
use std::marker::{Model, PhantomData};

/// A region, and the index lists still to come, each with the place of its cell. A clause sees these index lists,
/// each with its cell, and the name of the borrow of the array.
#[derive(Drop)]
pub struct Places<'a, A, D: Lengths> {
    indexed: IndexedPlaces<D>,
    region: RegionRepr<Life<'a>, A>,
    // the lifetime of what it yields, so that `A: 'a` follows from the type
    lifetime: PhantomData<&'a mut A>,
}

impl<'a, A, D: Lengths> Model for Places<'a, A, D> {
    ghost use Rattle.std.specs.Prelude.{ℕ, List};
    ghost use Rattle.ndarray.specs.Writes.{BorrowedItems};
    ghost use Rattle.ndarray.specs.base.Slots.{held_at};
    ghost use Rattle.ndarray.specs.places.ElementPlaces.{with_elements, places_of, AreDistinctPlaces};

    ghost Value = { BorrowedItems (List ℕ × A) };

    ghost view = { λ p. record { items = with_elements (held_at p.region.slots) p.indexed; borrow_name = p.region.reborrow_name } };

    ghost invariant = { λ p. AreDistinctPlaces (held_at p.region.slots) (places_of p.indexed) };
}

impl<S: DataMut, D: Lengths> ArrayBase<S, D> {
    /// The cells to write to, in row order, each with its index list.
    pub(crate) fn places_mut(&mut self) -> Places<'_, S::Elem, D>
        ensures* writes_back { sem 𝓛 (keeps_lengths S.row D.row S.Elem.row S.Data D.Lengths self.entry result.borrow_name) }
        ensures list { result.items ≡ zip (row_order self.old.lengths) self.old.cells }
        ensures whole { IsGrid self.old }
        ensures limit { IsWithinLimit self.old.lengths }
    {
        let RegionParts { region, layout } = self.region_parts();
        Places {
            region,
            indexed: IndexedPlaces::new(layout, Order::RowMajor),
            lifetime: PhantomData,
        }
    }
}

impl<'a, A, D: Lengths> Places<'a, A, D> {
    /// How many cells are still to come.
    pub(crate) fn len(&self) -> usize
        ensures { result ≡ length self.now.items }
    {
        self.indexed.len()
    }

    /// The next index list and its cell.
    #[inline(always)]
    pub(crate) fn next(&mut self) -> Option<(D, &'a mut A)>
        ensures { YieldsFirstBy (λ item. (D.numbers item.0, item.1.now)) (λ s. s.items) self.old result self.new }
    {
        let Some((index, place)) = self.indexed.next() else {
            return None;
        };
        let cell = self.region.take(place);
        Some((index, cell))
    }
}
