//! Producers whose rows may repeat one item, as a column that is broadcast along rows: such a row is walked as that item, again and again.

ghost use Rattle.std.specs.Prelude.{◌≡◌, ℕ, List, IfOk, IsOk, IsTrue, length};
ghost use Rattle.std.specs.Iterator.{IsFinite};
ghost use Rattle.ndarray.specs.Grid.{IsGrid, HasCells};
ghost use Rattle.ndarray.specs.Index.{size};
ghost use Rattle.ndarray.specs.Orders.{box_in};
ghost use Rattle.ndarray.specs.Producers.{YieldsInTurn, both};
ghost use Rattle.ndarray.specs.Runs.{MayGather, Collects};
ghost use Rattle.ndarray.specs.Updates.{is_cell_beside, answers, UpdatesUntil};
ghost use Rattle.ndarray.specs.declared.base.shape.Order.{Order};

use crate::base::array::{Array, ArrayBase};
use crate::base::axis::Axis;
use crate::base::storage::DataMut;
use crate::order::Order;
use crate::zip::assigning::assigning_order;
use crate::zip::closures::ItemCall;
use crate::zip::collecting::try_collect_items;
use crate::zip::pair::Pair;
use crate::zip::producer::{NdProducer, Shaped, preferred_order};
use crate::zip::updating::{CellCall, try_update_in};
use std::alloc::{AllocError, Global};

/// A producer that knows of a row whether it is one item again and again.
pub(crate) trait RepeatsItems: NdProducer {
    /// The items of such a row.
    type SameRow: Iterator<Item = Self::Item>;

    // Whether a row is one item again and again.
    ghost is_same: { Self.Row → Type 0 };

    /// Whether each row in an order has more than one item, and is one item again and again. No contract speaks of it.
    fn repeats_in(&self, order: Order) -> bool;

    /// Whether a row is known to be one item again and again.
    fn is_same_row(row: &Self::Row) -> bool
        ensures { IsTrue result → is_same row.now };

    /// The items of a row that is one item again and again. Requires that it is; check with `is_same_row`.
    fn same_row(row: Self::Row) -> Self::SameRow
        requires same { is_same row }
        requires form { (p : Self) × ((is : List (List ℕ)) × Self.row_form p is row) }
        ensures can { Self.SameRow.can_next result }
        ensures finite { IsFinite (Self.SameRow.remaining result) }
        ensures gives { (p : Self) (is : List (List ℕ)) → Self.row_form p is row → YieldsInTurn Self.SameRow.next_gives (Self.yields_at p) result is };
}

/// The same producer, whose fast rows are those of one item again and again, in place of those whose items lie side by side.
#[derive(Drop)]
pub(crate) struct Repeated<P>(P);

impl<P: RepeatsItems> Shaped for Repeated<P> {
    ghost lengths = { λ s. P.lengths s.0 };
}

impl<P: RepeatsItems> NdProducer for Repeated<P> {
    type Item = P::Item;

    type Dim = P::Dim;

    ghost yields_at = { λ s. P.yields_at s.0 };

    fn raw_dim(&self) -> P::Dim {
        self.0.raw_dim()
    }

    fn split_at(self, axis: Axis, index: usize) -> (Self, Self) {
        let (low, high) = self.0.split_at(axis, index);
        (Repeated(low), Repeated(high))
    }

    fn tendency(&self) -> i32 {
        self.0.tendency()
    }

    type Row = P::Row;

    type Rows = P::Rows;

    type RowRun = P::RowRun;

    type FlatRow = P::SameRow;

    ghost row_form = { λ s. P.row_form s.0 };

    ghost is_flat = { P.is_same };

    ghost rows_form = { λ s. P.rows_form s.0 };

    ghost is_one = { P.is_one };

    #[inline(always)]
    fn into_rows(self, order: Order) -> P::Rows {
        self.0.into_rows(order)
    }

    #[inline(always)]
    fn is_one_row(rows: &P::Rows) -> bool {
        P::is_one_row(rows)
    }

    #[inline(always)]
    fn one_row(rows: P::Rows) -> Option<P::Row> {
        P::one_row(rows)
    }

    #[inline(always)]
    fn is_flat_row(row: &P::Row) -> bool {
        P::is_same_row(row)
    }

    #[inline(always)]
    fn flat_row(row: P::Row) -> P::SameRow {
        P::same_row(row)
    }

    #[inline(always)]
    fn run_row(row: P::Row) -> P::RowRun {
        P::run_row(row)
    }
}

/// The array of what a closure that may fail returns at the items of two producers of one shape, side by side.
pub(crate) fn try_collect_of_both<P, Q, R, C>(
    alloc: Global,
    first: P,
    second: Q,
    f: C,
) -> Result<Array<R, P::Dim>, AllocError>
where
    P: RepeatsItems,
    Q: RepeatsItems,
    R: Drop,
    C: ItemCall<(P::Item, Q::Item), Out = Result<R, AllocError>>,
    requires same { P.lengths first ≡ Q.lengths second }
    requires callable { (o : Order) → MayGather (both (P.yields_at first) (Q.yields_at second)) (answers C.call_gives) C.can_call (box_in o (P.lengths first)) f }
    ensures ran { IfOk result (λ g. (o : Order) × Collects (both (P.yields_at first) (Q.yields_at second)) (answers C.call_gives) o (P.lengths first) f g) }
    ensures axes { IfOk result (λ g. P.Dim.has_axes (length g.lengths)) }
    ensures whole { IfOk result IsGrid }
    ensures empty { size (P.lengths first) ≡ 0 → IsOk result }
{
    let items = Pair { first, second };
    let order = preferred_order(&items);
    let Pair { first, second } = items;
    if second.repeats_in(order) {
        let second = Repeated(second);
        return try_collect_items(alloc, Pair { first, second }, order, f);
    }
    if first.repeats_in(order) {
        let first = Repeated(first);
        return try_collect_items(alloc, Pair { first, second }, order, f);
    }
    try_collect_items(alloc, Pair { first, second }, order, f)
}

/// As `try_update`, beside a producer whose rows may repeat one item.
pub(crate) fn try_update_beside<P, A, S, C>(
    array: &mut ArrayBase<S, P::Dim>,
    other: P,
    f: C,
) -> Result<(), AllocError>
where
    P: RepeatsItems,
    A: Drop,
    S: DataMut<Elem = A>,
    C: CellCall<A, P::Item>,
    requires same { P.lengths other ≡ array.old.lengths }
    requires callable { (o : Order) → MayGather (is_cell_beside array.old (P.yields_at other)) (answers C.call_gives) C.can_call (box_in o array.old.lengths) f }
    ensures ran { (o : Order) × UpdatesUntil (is_cell_beside array.old (P.yields_at other)) C.call_gives o f array.old result array.new }
    ensures whole { IsGrid array.new }
{
    let order = assigning_order(&other, array);
    if other.repeats_in(order) {
        return try_update_in(array, Repeated(other), order, f);
    }
    try_update_in(array, other, order, f)
}
