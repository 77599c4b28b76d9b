//! The index lists of a box, as a producer.

ghost use Rattle.std.specs.Prelude.{◌≡◌, Some, filter_map, ⊤};
ghost use Rattle.std.specs.Iterator.{YieldsFirst, YieldsFirstBy, item_count};
ghost use Rattle.std.proofs.Common.{ap};
ghost use Rattle.ndarray.specs.Grid.{cell, HasCells};

use crate::base::axis::Axis;
use crate::base::dimension::{Dimension, Lengths};
use crate::base::index_lists::{IndexRow, Indices};
use crate::order::Order;
use crate::order::rows::BoxRows;
use crate::zip::producer::{KeepsLengths, NdProducer, Shaped};
use std::marker::Model;

impl<D: Lengths> Shaped for Indices<D> {
    ghost lengths = { λ s. s.lengths };
}

impl<D: Dimension> NdProducer for Indices<D> {
    type Item = D::Pattern;

    type Dim = D;

    ghost yields_at = { λ s i x. cell s i ≡ Some (D.pattern_numbers x) };

    fn raw_dim(&self) -> D {
        self.raw_dim()
    }

    fn split_at(self, axis: Axis, index: usize) -> (Self, Self) {
        self.split_at(axis, index)
    }

    fn tendency(&self) -> i32 {
        0
    }

    type Row = IndexRow<D>;

    type Rows = PatternRows<D>;

    type RowRun = IndexRow<D>;

    type FlatRow = IndexRow<D>;

    ghost row_form = { λ s is r. (r ≡ filter_map (cell s) is) × HasCells s is };

    ghost is_flat = { λ _. ⊤ };

    ghost rows_form = { λ _ _ _. ⊤ };

    ghost is_one = { λ _. ⊥ };

    fn into_rows(self, order: Order) -> PatternRows<D> {
        let rows = BoxRows::new(self.raw_dim(), order);
        PatternRows { lists: self, rows }
    }

    fn is_one_row(_rows: &PatternRows<D>) -> bool {
        false
    }

    fn one_row(_rows: PatternRows<D>) -> Option<IndexRow<D>> {
        None
    }

    fn is_flat_row(_row: &IndexRow<D>) -> bool {
        true
    }

    #[inline(always)]
    fn flat_row(row: IndexRow<D>) -> IndexRow<D> {
        row
    }

    #[inline(always)]
    fn run_row(row: IndexRow<D>) -> IndexRow<D> {
        row
    }
}

impl<D: Dimension> Iterator for IndexRow<D> {
    type Item = D::Pattern;

    ghost next_gives = { YieldsFirstBy D.pattern_numbers (λ rest. rest) };

    ghost remaining = { item_count (λ rest. rest) };

    #[inline(always)]
    fn next(&mut self) -> Option<D::Pattern> {
        let Some(list) = self.next_list() else {
            return None;
        };
        Some(list.into_pattern())
    }
}

/// The rows of index lists that are still to come.
#[derive(Drop)]
pub struct PatternRows<D: Lengths> {
    lists: Indices<D>,
    rows: BoxRows<D>,
}

impl<D: Lengths> Model for PatternRows<D> {
    ghost use Rattle.std.specs.Prelude.{List, ℕ, map, filter_map};
    ghost use Rattle.ndarray.specs.Grid.{cell};
    ghost use Rattle.ndarray.specs.order.Rows.{HasRows};

    ghost Value = { List (List (List ℕ)) };

    ghost view = { λ s. map (filter_map (cell s.lists)) s.rows };

    ghost invariant = { λ s. HasRows s.lists s.rows };
}

impl<D: Lengths> Iterator for PatternRows<D> {
    type Item = IndexRow<D>;

    ghost next_gives = { YieldsFirst (λ rest. rest) };

    ghost remaining = { item_count (λ rest. rest) };

    #[inline(always)]
    fn next(&mut self) -> Option<IndexRow<D>> {
        let Some(row) = self.rows.next() else {
            return None;
        };
        Some(self.lists.lists_along(&row.first, row.axis, row.count))
    }
}

impl<D: Lengths> KeepsLengths for Indices<D> {
    ghost keeps = { λ s r e. ap (λ v. v.lengths) e };
}
