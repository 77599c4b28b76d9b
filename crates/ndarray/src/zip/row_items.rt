//! The items of a producer in an order, one after another.

ghost use Rattle.std.specs.Prelude.{◌≡◌, ◌+◌, ℕ, IfSome, List, None, length};
ghost use Rattle.std.specs.Iterator.{IsFinite, at_most};
ghost use Rattle.ndarray.specs.Orders.{box_in};
ghost use Rattle.ndarray.specs.Producers.{YieldsInTurn};
ghost use Rattle.ndarray.specs.zip.RowItems.{GivesFirst, HoldsItems};

use crate::base::dimension::Lengths;
use crate::order::Order;
use crate::zip::producer::NdProducer;

/// What yields its items in an order, one after another: each producer.
pub trait Run: NdProducer {
    /// An iterator over the items, one for each index list, in the order.
    ///
    /// ```
    /// // the first cell of each window, column after column
    /// for window in view.windows((2, 2)).run(Order::ColumnMajor) { .. }
    /// ```
    fn run(self, order: Order) -> RowItems<Self>
        ensures can { ⟦<RowItems<Self> as Iterator>⟧.can_next result }
        ensures finite { IsFinite (⟦<RowItems<Self> as Iterator>⟧.remaining result) }
        ensures gives { YieldsInTurn ⟦<RowItems<Self> as Iterator>⟧.next_gives (Self.yields_at self) result (box_in order (Self.lengths self)) };
}

impl<P: NdProducer> Run for P {
    fn run(self, order: Order) -> RowItems<P> {
        let left = self.raw_dim().size();
        RowItems {
            row: None,
            rows: self.into_rows(order),
            left,
        }
    }
}

/// The items of a producer that are still to come: those of a row, and those of the rows behind it.
#[derive(Drop)]
pub struct RowItems<P: NdProducer> {
    row: Option<P::RowRun>,
    rows: P::Rows,
    left: usize,
}

impl<P: NdProducer> RowItems<P> {
    /// The first item of the row behind the one that has begun, which is at its end.
    #[inline(always)]
    fn next_of_next_row(&mut self) -> Option<P::Item>
        requires { (p : P) × ((is : List (List ℕ)) × (HoldsItems P.Rows.next_gives P.Rows.can_next (P.row_form p) P.RowRun.next_gives P.RowRun.can_next (P.yields_at p) None self.old.rows is × (length is ≡ self.old.left))) }
        ensures steps { (p : P) (is : List (List ℕ)) → HoldsItems P.Rows.next_gives P.Rows.can_next (P.row_form p) P.RowRun.next_gives P.RowRun.can_next (P.yields_at p) None self.old.rows is → GivesFirst (P.yields_at p) (HoldsItems P.Rows.next_gives P.Rows.can_next (P.row_form p) P.RowRun.next_gives P.RowRun.can_next (P.yields_at p) self.new.row self.new.rows) is result }
        ensures can { IfSome result (λ _. (p : P) × ((is : List (List ℕ)) × (HoldsItems P.Rows.next_gives P.Rows.can_next (P.row_form p) P.RowRun.next_gives P.RowRun.can_next (P.yields_at p) self.new.row self.new.rows is × (length is ≡ self.new.left)))) }
        ensures left { IfSome result (λ _. self.new.left + 1 ≡ self.old.left) }
    {
        let Some(row) = self.rows.next() else {
            return None;
        };
        let mut row = P::run_row(row);
        let Some(item) = row.next() else {
            unreachable!()
        };
        self.row = Some(row);
        self.left -= 1;
        Some(item)
    }
}

impl<P: NdProducer> Iterator for RowItems<P> {
    type Item = P::Item;

    ghost can_next = { λ s. (p : P) × ((is : List (List ℕ)) × (HoldsItems P.Rows.next_gives P.Rows.can_next (P.row_form p) P.RowRun.next_gives P.RowRun.can_next (P.yields_at p) s.row s.rows is × (length is ≡ s.left))) };

    ghost next_gives = { λ s o t. (p : P) (is : List (List ℕ)) → HoldsItems P.Rows.next_gives P.Rows.can_next (P.row_form p) P.RowRun.next_gives P.RowRun.can_next (P.yields_at p) s.row s.rows is → GivesFirst (P.yields_at p) (HoldsItems P.Rows.next_gives P.Rows.can_next (P.row_form p) P.RowRun.next_gives P.RowRun.can_next (P.yields_at p) t.row t.rows) is o };

    ghost remaining = { λ s. at_most s.left };

    #[inline(always)]
    fn next(&mut self) -> Option<P::Item> {
        let Some(row) = &mut self.row else {
            return self.next_of_next_row();
        };
        let Some(item) = row.next() else {
            return self.next_of_next_row();
        };
        self.left -= 1;
        Some(item)
    }
}
