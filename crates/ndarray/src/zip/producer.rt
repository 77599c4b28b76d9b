//! Producers, and what can be turned into one.

ghost use Rattle.std.specs.Prelude.{◌≡◌, ℕ, ◌<◌, ◌≤◌, List, length, slice_index, MatchOption, IsTrue};
ghost use Rattle.std.specs.Iterator.{IsFinite};
ghost use Rattle.std.specs.Iterator.Adapters.{once_item};
ghost use Rattle.ndarray.specs.Broadcast.{BroadcastsTo};
ghost use Rattle.ndarray.specs.Limits.{IsWithinLimit};
ghost use Rattle.ndarray.specs.Orders.{box_in};
ghost use Rattle.ndarray.specs.Producers.{YieldsInTurn, IsPart};
ghost use Rattle.ndarray.specs.order.Rows.{rows_in, RowsInTurn, some_unless_none};
ghost use Rattle.ndarray.specs.declared.base.shape.Order.{Order};

use crate::base::axis::Axis;
use crate::base::dimension::Lengths;
use crate::order::Order;
use std::iter::Once;

/// A type whose values have lengths.
pub trait Shaped {
    // The lengths, that of axis 0 first.
    ghost lengths: { Self → List ℕ };
}

/// A producer: lengths, and an item at each index list of their box.
pub trait NdProducer: Shaped + Drop + Sized {
    /// The type of an item.
    type Item: Drop;

    /// The dimension of its lengths.
    type Dim: Lengths;

    // Whether an item may be yielded at an index list.
    ghost yields_at: { Self → List ℕ → Self.Item → Type 0 };

    /// The lengths.
    fn raw_dim(&self) -> Self::Dim
        ensures lengths { Self.Dim.numbers result ≡ Self.lengths self.now }
        ensures limit { IsWithinLimit (Self.lengths self.now) };

    /// Splits the producer at an index of an axis: into the items whose index there is below `index`, and the rest, whose indices there are
    /// counted from `index`.
    ///
    /// Requires that the axis is below the number of axes and the index at most its length; compare with `raw_dim`.
    fn split_at(self, axis: Axis, index: usize) -> (Self, Self)
        requires axis_below { axis.0 < length (Self.lengths self) }
        requires index_at_most { index ≤ slice_index (Self.lengths self) axis.0 }
        ensures first { IsPart axis.0 0 index (Self.lengths self) (yields_at self) (Self.lengths result.0) (yields_at result.0) }
        ensures second { IsPart axis.0 index (slice_index (Self.lengths self) axis.0) (Self.lengths self) (yields_at self) (Self.lengths result.1) (yields_at result.1) };

    /// Which order is faster: row order if it is positive, column order if it is negative, and neither if it is 0. No contract speaks of
    /// it.
    fn tendency(&self) -> i32 {
        0
    }

    /// A row: the items at some index lists, one after another along the axis that varies fastest in an order.
    type Row: Drop;

    /// The rows, one after another.
    type Rows: Iterator<Item = Self::Row>;

    /// The items of a row, one after another.
    type RowRun: Iterator<Item = Self::Item>;

    /// The items of a row that lie side by side, so that a run over them takes no strides.
    type FlatRow: Iterator<Item = Self::Item>;

    // Whether a row is that of a producer at these index lists.
    ghost row_form: { Self → List (List ℕ) → Self.Row → Type 0 };

    // Whether the items of a row lie side by side.
    ghost is_flat: { Self.Row → Type 0 };

    // Whether these are the rows of a producer in an order.
    ghost rows_form: { Self → Order → Self.Rows → Type 0 };

    // Whether the items of all rows are known to be one row.
    ghost is_one: { Self.Rows → Type 0 };

    /// The rows in an order, one after another.
    fn into_rows(self, order: Order) -> Self::Rows
        ensures form { rows_form self order result }
        ensures can { Self.Rows.can_next result }
        ensures finite { IsFinite (Self.Rows.remaining result) }
        ensures gives { RowsInTurn Self.Rows.next_gives (row_form self) result (rows_in order (Self.lengths self)) };

    /// Whether all items are known to be one row.
    fn is_one_row(rows: &Self::Rows) -> bool
        ensures { IsTrue result → is_one rows.now };

    /// All items as one row, if they are known to be one. It is for rows of which none was taken.
    fn one_row(rows: Self::Rows) -> Option<Self::Row>
        ensures { is_one rows → MatchOption result ⊥ (λ row. (p : Self) (o : Order) → rows_form p o rows → row_form p (box_in o (Self.lengths p)) row) };

    /// Whether the items of a row are known to lie side by side.
    fn is_flat_row(row: &Self::Row) -> bool
        ensures { IsTrue result → is_flat row.now };

    /// The items of a row that lie side by side. Requires that they do; check with `is_flat_row`.
    fn flat_row(row: Self::Row) -> Self::FlatRow
        requires flat { is_flat row }
        requires form { (p : Self) × ((is : List (List ℕ)) × row_form p is row) }
        ensures can { Self.FlatRow.can_next result }
        ensures finite { IsFinite (Self.FlatRow.remaining result) }
        ensures gives { (p : Self) (is : List (List ℕ)) → row_form p is row → YieldsInTurn Self.FlatRow.next_gives (yields_at p) result is };

    /// The items of a row, however they lie. Requires that it is a row of a producer of this type.
    fn run_row(row: Self::Row) -> Self::RowRun
        requires { (p : Self) × ((is : List (List ℕ)) × row_form p is row) }
        ensures can { Self.RowRun.can_next result }
        ensures finite { IsFinite (Self.RowRun.remaining result) }
        ensures gives { (p : Self) (is : List (List ℕ)) → row_form p is row → YieldsInTurn Self.RowRun.next_gives (yields_at p) result is };
}

/// A producer whose clones have its lengths.
pub trait KeepsLengths: Shaped + Clone {
    ghost keeps: { (s r : Self) → Self.is_clone s r → Self.lengths r ≡ Self.lengths s };
}

/// What can be broadcast to a shape and joined to a `Zip`: views to read, and references to arrays.
pub trait IntoBroadcast<D: Lengths> {
    /// The type of the broadcast view.
    type Output: NdProducer;

    // Its own lengths.
    ghost own_lengths: { Self → List ℕ };

    // Whether a view is what is seen at these lengths.
    ghost broadcasts_as: { Self → List ℕ → Self.Output → Type 0 };

    /// The view at the shape. Requires that it broadcasts to the shape, and that the nonzero lengths of this multiply to at most
    /// `isize::MAX`; check with `broadcasts` of a `Zip` of that shape.
    fn into_broadcast(self, dim: D) -> Self::Output
        requires broadcasts { BroadcastsTo (own_lengths self) (D.numbers dim) }
        requires limit { IsWithinLimit (D.numbers dim) }
        ensures seen { broadcasts_as self (D.numbers dim) result }
        ensures lengths { Self.Output.lengths result ≡ D.numbers dim };
}

/// What can be turned into a producer: every producer, which stays as it is, and references to arrays.
pub trait IntoNdProducer {
    /// The type of the producer's items.
    type Item: Drop;

    /// The dimension of its lengths.
    type Dim: Lengths;

    /// The type of the producer.
    type Output: NdProducer<Item = Self::Item, Dim = Self::Dim>;

    // Whether it becomes this producer.
    ghost converts_to: { Self → Self.Output → Type 0 };

    /// The producer that it is turned into.
    fn into_producer(self) -> Self::Output
        ensures { converts_to self result };
}

impl<P: NdProducer> IntoNdProducer for P {
    type Item = P::Item;

    type Dim = P::Dim;

    type Output = P;

    ghost converts_to = { λ s r. r ≡ s };

    fn into_producer(self) -> P {
        self
    }
}

/// The order in which a producer is walked.
pub(crate) fn preferred_order<P: NdProducer>(p: &P) -> Order {
    Order::by_tendency(p.tendency())
}

/// The rows of a one-dimensional producer: one row, or none if the axis is empty.
pub(crate) fn rows_of_axis<R: Drop>(row: R, len: usize) -> Once<R>
    ensures { once_item result ≡ some_unless_none len row }
{
    if len == 0 {
        None.into_iter()
    } else {
        Some(row).into_iter()
    }
}
