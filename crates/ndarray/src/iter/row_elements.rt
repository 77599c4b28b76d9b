//! The cells of a view, row by row.

ghost use Rattle.std.specs.Prelude.{◌≡◌, [], ◌++◌, ◌+◌, ◌<◌, ◌≤◌, ◌^◌, length, take, drop, MatchOption};
ghost use Rattle.std.specs.Iterator.{YieldsFirstRef, YieldsLastRef};
ghost use Rattle.ndarray.specs.Index.{InBox, size};
ghost use Rattle.ndarray.specs.base.Ranks.{rank};
ghost use Rattle.ndarray.specs.Orders.{cells_in};

use crate::base::array::{ArrayBase, ArrayView};
use crate::base::dimension::{Ix1, Lengths};
use crate::base::storage::ViewRepr;
use crate::base::strided::Strided;
use crate::order::{Order, Walk};
use crate::places::place_rows::RowPlaces;
use std::marker::Model;

/// The cells of a view that are still to come: where they lie, row by row.
#[derive(Drop)]
pub(crate) struct RowElements<'a, A, D: Lengths> {
    storage: ViewRepr<'a, A>,
    places: RowPlaces<D>,
}

impl<'a, A, D: Lengths> Model for RowElements<'a, A, D> {
    ghost use Rattle.std.specs.Prelude.{List, filter_map};
    ghost use Rattle.ndarray.specs.base.Storage.{seen_at};
    ghost use Rattle.ndarray.specs.base.Strided.{HaveElements};

    ghost Value = { List A };

    ghost view = { λ s. filter_map (seen_at s.storage) s.places };

    ghost invariant = { λ s. HaveElements (seen_at s.storage) s.places };
}

impl<'a, A, D: Lengths> RowElements<'a, A, D> {
    /// The cells of a view in an order.
    pub(crate) fn in_order(v: ArrayView<'a, A, D>, order: Order) -> Self
        ensures { result ≡ cells_in order v.entry }
    {
        let ArrayBase { storage, layout } = v;
        RowElements {
            storage,
            places: RowPlaces::new(layout, order),
        }
    }

    /// `count` cells of a view in row order, from that at `index` on.
    pub(crate) fn starting_at(v: ArrayView<'a, A, D>, index: D, count: usize) -> Self
        requires within { 0 < count → InBox v.lengths (D.numbers index) }
        requires fits { 0 < count → rank v.lengths (D.numbers index) + count ≤ size v.lengths }
        ensures { result ≡ take count (drop (rank v.entry.lengths (D.numbers index)) v.entry.cells) }
    {
        let walk = Walk::starting_at(v.raw_dim(), Order::RowMajor, index, count);
        let ArrayBase { storage, layout } = v;
        RowElements {
            storage,
            places: RowPlaces::over(layout, walk),
        }
    }

    /// How many are still to come.
    pub(crate) fn len(&self) -> usize
        ensures { result ≡ length self.now }
    {
        self.places.len()
    }

    /// A copy of it.
    pub(crate) fn again(&self) -> Self
        ensures { result ≡ self.now }
    {
        RowElements {
            storage: self.storage,
            places: self.places.again(),
        }
    }

    /// Takes the cells still to come that are on one row with the next one.
    pub(crate) fn take_row(&mut self) -> Option<Strided<'a, A>>
        ensures { MatchOption result ((self.old ≡ []) × (self.new ≡ [])) (λ row. (0 < length row) × (self.old ≡ row ++ self.new)) }
    {
        let Some(row) = self.places.take_row() else {
            return None;
        };
        Some(Strided::at(self.storage, row.place, row.stride, row.left))
    }

    /// The next cell.
    #[inline(always)]
    pub(crate) fn next(&mut self) -> Option<&'a A>
        ensures { YieldsFirstRef (λ rest. rest) self.old result self.new }
    {
        let Some(place) = self.places.next() else {
            return None;
        };
        Some(self.storage.get(place))
    }
}

impl<'a, A> RowElements<'a, A, Ix1> {
    /// The last cell.
    pub(crate) fn next_back(&mut self) -> Option<&'a A>
        ensures { YieldsLastRef (λ rest. rest) self.old result self.new }
    {
        let Some(place) = self.places.next_back() else {
            return None;
        };
        Some(self.storage.get(place))
    }
}
