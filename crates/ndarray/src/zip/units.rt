//! A producer of nothing: `()` at each index list of a box.

ghost use Rattle.std.specs.Prelude.{◌≡◌, ⊤, length};
ghost use Rattle.std.specs.Iterator.{YieldsFirstBy, item_count};
ghost use Rattle.std.specs.Iterator.Adapters.{repeat_n_count};
ghost use Rattle.ndarray.specs.Limits.{IsWithinLimit};
ghost use Rattle.ndarray.specs.order.Rows.{AreRowsIn};

use crate::base::axis::Axis;
use crate::base::dimension::Lengths;
use crate::base::index_lists::Indices;
use crate::order::Order;
use crate::order::rows::BoxRows;
use crate::zip::producer::{NdProducer, Shaped};
use std::iter::{RepeatN, repeat_n};
use std::marker::Model;

/// A producer of `()` at each index list of a box. Beside it an operation sees the cells of an array alone.
#[derive(Drop)]
pub(crate) struct Units<D: Lengths> {
    lists: Indices<D>,
}

impl<D: Lengths> Units<D> {
    /// One for the box of the lengths.
    pub(crate) fn of(dim: D) -> Self
        requires { IsWithinLimit (D.numbers dim) }
        ensures { result.lists.lengths ≡ D.numbers dim }
    {
        Units {
            lists: Indices::of(dim),
        }
    }
}

impl<D: Lengths> Shaped for Units<D> {
    ghost lengths = { λ s. s.lists.lengths };
}

impl<D: Lengths> NdProducer for Units<D> {
    type Item = ();

    type Dim = D;

    ghost yields_at = { λ _ _ _. ⊤ };

    fn raw_dim(&self) -> D {
        self.lists.raw_dim()
    }

    fn split_at(self, axis: Axis, index: usize) -> (Self, Self) {
        let (first, second) = self.lists.split_at(axis, index);
        (Units { lists: first }, Units { lists: second })
    }

    fn tendency(&self) -> i32 {
        0
    }

    type Row = RepeatN<()>;

    type Rows = UnitRows<D>;

    type RowRun = RepeatN<()>;

    type FlatRow = RepeatN<()>;

    ghost row_form = { λ _ is r. repeat_n_count r ≡ length is };

    ghost is_flat = { λ _. ⊤ };

    ghost rows_form = { λ s o r. AreRowsIn length o s.lists.lengths r };

    ghost is_one = { λ _. ⊤ };

    #[inline(always)]
    fn into_rows(self, order: Order) -> UnitRows<D> {
        let dim = self.raw_dim();
        let size = dim.size();
        UnitRows {
            size,
            rows: BoxRows::new(dim, order),
        }
    }

    fn is_one_row(_rows: &UnitRows<D>) -> bool {
        true
    }

    fn one_row(rows: UnitRows<D>) -> Option<RepeatN<()>> {
        Some(repeat_n((), rows.size))
    }

    fn is_flat_row(_row: &RepeatN<()>) -> bool {
        true
    }

    #[inline(always)]
    fn flat_row(row: RepeatN<()>) -> RepeatN<()> {
        row
    }

    #[inline(always)]
    fn run_row(row: RepeatN<()>) -> RepeatN<()> {
        row
    }
}

/// As many `()` as each row of a box has index lists, and as many as the box has.
#[derive(Drop)]
pub struct UnitRows<D: Lengths> {
    size: usize,
    rows: BoxRows<D>,
}

impl<D: Lengths> Model for UnitRows<D> {
    ghost use Rattle.std.specs.Prelude.{ℕ, Some, map, length};
    ghost use Rattle.ndarray.specs.order.Rows.{RowsAndOne};

    ghost Value = { RowsAndOne ℕ };

    ghost view = { λ s. record { one = Some s.size; rows = map length s.rows } };
}

impl<D: Lengths> Iterator for UnitRows<D> {
    type Item = RepeatN<()>;

    ghost next_gives = { YieldsFirstBy repeat_n_count (λ s. s.rows) };

    ghost remaining = { item_count (λ s. s.rows) };

    #[inline(always)]
    fn next(&mut self) -> Option<RepeatN<()>> {
        let Some(row) = self.rows.next() else {
            return None;
        };
        Some(repeat_n((), row.count))
    }
}
