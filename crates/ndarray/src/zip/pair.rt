//! Two producers as one.

ghost use Rattle.std.specs.Prelude.{◌≡◌};
ghost use Rattle.ndarray.specs.Producers.{both, steps_of_both};
ghost use Rattle.ndarray.specs.order.Rows.{AsLong};

use crate::base::axis::Axis;
use crate::order::Order;
use crate::zip::producer::{KeepsLengths, NdProducer, Shaped};
use std::alloc::AllocError;

/// Two producers of the same lengths, as one producer of pairs of their items.
#[derive(Drop)]
pub struct Pair<P: Shaped, Q: Shaped> {
    /// The first producer.
    pub first: P,
    /// The second producer.
    pub second: Q,
    ghost same: { P.lengths first ≡ Q.lengths second },
}

impl<P: Shaped, Q: Shaped> Shaped for Pair<P, Q> {
    ghost lengths = { λ s. P.lengths s.first };
}

impl<P: NdProducer, Q: NdProducer> NdProducer for Pair<P, Q> {
    type Item = (P::Item, Q::Item);

    type Dim = P::Dim;

    ghost yields_at = { λ s. both (P.yields_at s.first) (Q.yields_at s.second) };

    fn raw_dim(&self) -> P::Dim {
        self.first.raw_dim()
    }

    #[inline(always)]
    fn split_at(self, axis: Axis, index: usize) -> (Self, Self) {
        let Pair { first, second } = self;
        let (first_low, first_high) = first.split_at(axis, index);
        let (second_low, second_high) = second.split_at(axis, index);
        (
            Pair {
                first: first_low,
                second: second_low,
            },
            Pair {
                first: first_high,
                second: second_high,
            },
        )
    }

    fn tendency(&self) -> i32 {
        self.first.tendency().saturating_add(self.second.tendency())
    }

    type Row = (P::Row, Q::Row);

    type Rows = PairRun<P::Rows, Q::Rows>;

    type RowRun = PairRow<P::RowRun, Q::RowRun>;

    type FlatRow = PairRow<P::FlatRow, Q::FlatRow>;

    ghost row_form = { λ s is r. P.row_form s.first is r.0 × Q.row_form s.second is r.1 };

    ghost is_flat = { λ r. P.is_flat r.0 × Q.is_flat r.1 };

    ghost rows_form = { λ s o r. P.rows_form s.first o r.first × Q.rows_form s.second o r.second };

    ghost is_one = { λ r. P.is_one r.first × Q.is_one r.second };

    #[inline(always)]
    fn into_rows(self, order: Order) -> PairRun<P::Rows, Q::Rows> {
        let Pair { first, second } = self;
        PairRun {
            first: first.into_rows(order),
            second: second.into_rows(order),
        }
    }

    #[inline(always)]
    fn is_one_row(rows: &PairRun<P::Rows, Q::Rows>) -> bool {
        P::is_one_row(&rows.first) && Q::is_one_row(&rows.second)
    }

    #[inline(always)]
    fn one_row(rows: PairRun<P::Rows, Q::Rows>) -> Option<(P::Row, Q::Row)> {
        let PairRun { first, second } = rows;
        let Some(first) = P::one_row(first) else {
            return None;
        };
        let Some(second) = Q::one_row(second) else {
            return None;
        };
        Some((first, second))
    }

    #[inline(always)]
    fn is_flat_row(row: &(P::Row, Q::Row)) -> bool {
        P::is_flat_row(&row.0) && Q::is_flat_row(&row.1)
    }

    #[inline(always)]
    fn flat_row(row: (P::Row, Q::Row)) -> PairRow<P::FlatRow, Q::FlatRow> {
        let (first, second) = row;
        PairRow {
            first: P::flat_row(first),
            second: Q::flat_row(second),
        }
    }

    #[inline(always)]
    fn run_row(row: (P::Row, Q::Row)) -> PairRow<P::RowRun, Q::RowRun> {
        let (first, second) = row;
        PairRow {
            first: P::run_row(first),
            second: Q::run_row(second),
        }
    }
}

/// The items of two iterators, side by side. Its step is inlined, while that of the standard library's `zip` is a call.
#[derive(Drop)]
pub struct PairRun<R, S> {
    pub(crate) first: R,
    pub(crate) second: S,
}

impl<R: Iterator, S: Iterator> Iterator for PairRun<R, S>
where
    R::Item: Drop,
{
    type Item = (R::Item, S::Item);

    ghost can_next = { λ s. R.can_next s.first × S.can_next s.second };

    ghost next_gives = { steps_of_both (λ s. s.first) (λ s. s.second) R.next_gives S.next_gives };

    ghost remaining = { λ s. R.remaining s.first };

    #[inline(always)]
    fn next(&mut self) -> Option<(R::Item, S::Item)> {
        let Some(x) = self.first.next() else {
            return None;
        };
        let Some(y) = self.second.next() else {
            return None;
        };
        Some((x, y))
    }
}

/// The items of two rows of one length, side by side: the second cannot end before the first.
#[derive(Drop)]
pub struct PairRow<R, S> {
    first: R,
    second: S,
}

impl<R: Iterator, S: Iterator> Iterator for PairRow<R, S>
where
    R::Item: Drop,
{
    type Item = (R::Item, S::Item);

    ghost can_next = { λ s. R.can_next s.first × (S.can_next s.second × AsLong R.next_gives S.next_gives s.first s.second) };

    ghost next_gives = { steps_of_both (λ s. s.first) (λ s. s.second) R.next_gives S.next_gives };

    ghost remaining = { λ s. R.remaining s.first };

    #[inline(always)]
    fn next(&mut self) -> Option<(R::Item, S::Item)> {
        let Some(x) = self.first.next() else {
            return None;
        };
        let Some(y) = self.second.next() else {
            unreachable!()
        };
        Some((x, y))
    }
}

impl<P: KeepsLengths, Q: KeepsLengths> Clone for Pair<P, Q> {
    ghost is_clone = { λ s r. P.is_clone s.first r.first × Q.is_clone s.second r.second };

    ghost is_infallible = { λ s. P.is_infallible s.first × Q.is_infallible s.second };

    fn clone(&self) -> Result<Pair<P, Q>, AllocError> {
        let first = self.first.clone()?;
        let second = self.second.clone()?;
        Ok(Pair { first, second })
    }
}

impl<P: KeepsLengths, Q: KeepsLengths> KeepsLengths for Pair<P, Q> {
    ghost keeps = { λ s r e. P.keeps s.first r.first e.0 };
}
