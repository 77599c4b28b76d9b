//! The one walk over all items of a producer, row by row. If they lie evenly, all are one row.

ghost use Rattle.std.specs.Prelude.{List, ℕ, MatchResult};
ghost use Rattle.std.specs.Iterator.{IsFinite};
ghost use Rattle.ndarray.specs.Orders.{box_in};
ghost use Rattle.ndarray.specs.Producers.{YieldsInTurn};
ghost use Rattle.ndarray.specs.order.Rows.{RowsInTurn, joined};
ghost use Rattle.ndarray.specs.Runs.{MayTurnAt, TurnAt, TakesAt, StopsAt, EndsOrStops};

use crate::order::Order;
use crate::zip::producer::NdProducer;

/// What accepts items one after another, up to one at which it stops.
pub(crate) trait Turn<X>: Sized {
    /// What it stops with.
    type Stop;

    // Whether it may accept an item.
    ghost can_accept: { Self → X → Type 0 };

    // Whether it may go on from an item as this.
    ghost goes: { Self → X → Self → Type 0 };

    // Whether it may stop at an item with this.
    ghost stops: { Self → X → Self.Stop → Type 0 };

    /// Accepts an item.
    fn accept(self, item: X) -> Result<Self, Self::Stop>
        requires { can_accept self item }
        ensures { MatchResult result (goes self item) (stops self item) };
}

/// Has all items of a producer accepted in an order, one after another.
pub(crate) fn walk_items<P: NdProducer, T: Turn<P::Item>>(
    p: P,
    order: Order,
    turn: T,
) -> Result<T, T::Stop>
    requires can { MayTurnAt (TurnAt (P.yields_at p) T.goes) (TakesAt (P.yields_at p) T.can_accept) turn (box_in order (P.lengths p)) }
    ensures ran { EndsOrStops (TurnAt (P.yields_at p) T.goes) (StopsAt (P.yields_at p) T.stops) turn (box_in order (P.lengths p)) result }
{
    let rows = p.into_rows(order);
    if P::is_one_row(&rows) {
        let Some(row) = P::one_row(rows) else {
            unreachable!()
        };
        walk_row::<P, _>(row, turn)
    } else {
        walk_rows::<P, _>(rows, turn)
    }
}

/// Has the items of rows accepted, one row after another.
fn walk_rows<P: NdProducer, T: Turn<P::Item>>(rows: P::Rows, turn: T) -> Result<T, T::Stop>
    requires can_next { P.Rows.can_next rows }
    requires finite { IsFinite (P.Rows.remaining rows) }
    requires can { (p : P) × ((iss : List (List (List ℕ))) × (RowsInTurn P.Rows.next_gives (P.row_form p) rows iss × MayTurnAt (TurnAt (P.yields_at p) T.goes) (TakesAt (P.yields_at p) T.can_accept) turn (joined iss))) }
    ensures ran { (p : P) (iss : List (List (List ℕ))) → RowsInTurn P.Rows.next_gives (P.row_form p) rows iss → EndsOrStops (TurnAt (P.yields_at p) T.goes) (StopsAt (P.yields_at p) T.stops) turn (joined iss) result }
{
    let mut rows = rows;
    let mut turn = turn;
    while let Some(row) = rows.next() {
        match walk_row::<P, _>(row, turn) {
            Ok(next) => turn = next,
            Err(stop) => return Err(stop),
        }
    }
    Ok(turn)
}

/// Has the items of a row accepted, without strides if they are known to lie side by side.
#[inline(always)]
fn walk_row<P: NdProducer, T: Turn<P::Item>>(row: P::Row, turn: T) -> Result<T, T::Stop>
    requires { (p : P) × ((is : List (List ℕ)) × (P.row_form p is row × MayTurnAt (TurnAt (P.yields_at p) T.goes) (TakesAt (P.yields_at p) T.can_accept) turn is)) }
    ensures { (p : P) (is : List (List ℕ)) → P.row_form p is row → EndsOrStops (TurnAt (P.yields_at p) T.goes) (StopsAt (P.yields_at p) T.stops) turn is result }
{
    if P::is_flat_row(&row) {
        walk_run::<P, _, _>(P::flat_row(row), turn)
    } else {
        walk_run::<P, _, _>(P::run_row(row), turn)
    }
}

/// Has the items of a run accepted, one after another. It tests one end.
fn walk_run<P: NdProducer, R: Iterator<Item = P::Item>, T: Turn<P::Item>>(
    mut run: R,
    turn: T,
) -> Result<T, T::Stop>
    requires can_next { R.can_next run }
    requires finite { IsFinite (R.remaining run) }
    requires can { (p : P) × ((is : List (List ℕ)) × (YieldsInTurn R.next_gives (P.yields_at p) run is × MayTurnAt (TurnAt (P.yields_at p) T.goes) (TakesAt (P.yields_at p) T.can_accept) turn is)) }
    ensures ran { (p : P) (is : List (List ℕ)) → YieldsInTurn R.next_gives (P.yields_at p) run is → EndsOrStops (TurnAt (P.yields_at p) T.goes) (StopsAt (P.yields_at p) T.stops) turn is result }
{
    let mut turn = turn;
    while let Some(item) = run.next() {
        match turn.accept(item) {
            Ok(next) => turn = next,
            Err(stop) => return Err(stop),
        }
    }
    Ok(turn)
}
