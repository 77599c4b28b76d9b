//! Views and references to arrays as producers of their cells.

ghost use Rattle.std.specs.Prelude.{◌≡◌, Some, filter_map, IsSome};
ghost use Rattle.std.specs.Iterator.{YieldsFirstBy, YieldsFirstRef, item_count};
ghost use Rattle.std.proofs.Common.{ap};
ghost use Rattle.ndarray.specs.Grid.{cell, IsGrid, HasCells};
ghost use Rattle.ndarray.specs.order.Rows.{AreRowsIn};
ghost use Rattle.ndarray.specs.zip.RowCells.{row_cells, IsRepeated, IsSlice};
ghost use Rattle.ndarray.specs.Views.{broadcast_to};

use crate::base::array::{ArrayBase, ArrayView};
use crate::base::axis::Axis;
use crate::base::dimension::Lengths;
use crate::base::storage::{Data, ViewRepr};
use crate::base::strided::Strided;
use crate::order::Order;
use crate::order::rows::BoxRows;
use crate::zip::producer::{IntoBroadcast, IntoNdProducer, KeepsLengths, NdProducer, Shaped};
use crate::zip::repeated::RepeatsItems;
use std::marker::Model;

impl<S: Data, D: Lengths> Shaped for ArrayBase<S, D> {
    ghost lengths = { λ v. v.lengths };
}

impl<'a, A, D: Lengths> NdProducer for ArrayView<'a, A, D> {
    type Item = &'a A;

    type Dim = D;

    ghost yields_at = { λ v i x. cell v i ≡ Some x.now };

    fn raw_dim(&self) -> D {
        self.raw_dim()
    }

    #[inline(always)]
    fn split_at(self, axis: Axis, index: usize) -> (Self, Self) {
        self.split_at(axis, index)
    }

    fn tendency(&self) -> i32 {
        self.layout_tendency()
    }

    type Row = ViewRow<'a, A>;

    type Rows = ViewRows<'a, A, D>;

    type RowRun = Strided<'a, A>;

    type FlatRow = std::slice::Iter<'a, A>;

    ghost row_form = { λ v is r. (row_cells r ≡ filter_map (cell v) is) × HasCells v is };

    ghost is_flat = { IsSlice };

    ghost rows_form = { λ v o r. AreRowsIn (filter_map (cell v)) o v.lengths r × IsGrid v };

    ghost is_one = { λ r. IsSome r.one };

    #[inline(always)]
    fn into_rows(self, order: Order) -> ViewRows<'a, A, D> {
        let rows = BoxRows::new(self.raw_dim(), order);
        ViewRows {
            one: self.slice_in(order),
            view: self,
            rows,
        }
    }

    #[inline(always)]
    fn is_one_row(rows: &ViewRows<'a, A, D>) -> bool {
        rows.one.is_some()
    }

    #[inline(always)]
    fn one_row(rows: ViewRows<'a, A, D>) -> Option<ViewRow<'a, A>> {
        match rows.one {
            Some(slice) => Some(ViewRow::Slice(slice)),
            None => None,
        }
    }

    #[inline(always)]
    fn is_flat_row(row: &ViewRow<'a, A>) -> bool {
        match row {
            ViewRow::Slice(_slice) => true,
            ViewRow::Stepped(_cells) => false,
        }
    }

    #[inline(always)]
    fn flat_row(row: ViewRow<'a, A>) -> std::slice::Iter<'a, A> {
        match row {
            ViewRow::Slice(slice) => slice.iter(),
            ViewRow::Stepped(_cells) => unreachable!(),
        }
    }

    #[inline(always)]
    fn run_row(row: ViewRow<'a, A>) -> Strided<'a, A> {
        row.into_strided()
    }
}

impl<'a, A, D: Lengths> RepeatsItems for ArrayView<'a, A, D> {
    type SameRow = SameCells<'a, A>;

    ghost is_same = { λ r. IsRepeated (row_cells r) };

    fn repeats_in(&self, order: Order) -> bool {
        self.layout.is_still_in(order)
    }

    #[inline(always)]
    fn is_same_row(row: &ViewRow<'a, A>) -> bool {
        match row {
            ViewRow::Slice(_slice) => false,
            ViewRow::Stepped(cells) => cells.is_repeated(),
        }
    }

    #[inline(always)]
    fn same_row(row: ViewRow<'a, A>) -> SameCells<'a, A> {
        SameCells::of(row.into_strided())
    }
}

/// A cell that is still to come so many times.
#[derive(Drop)]
pub struct SameCells<'a, A> {
    cell: &'a A,
    left: usize,
}

impl<'a, A> Model for SameCells<'a, A> {
    ghost use Rattle.std.specs.Prelude.{List, replicate};

    ghost Value = { List A };

    ghost view = { λ s. replicate s.left s.cell.now };
}

impl<'a, A> SameCells<'a, A> {
    /// Cells that are one cell, again and again.
    #[inline(always)]
    fn of(mut cells: Strided<'a, A>) -> Self
        requires { IsRepeated cells }
        ensures { result ≡ cells.entry }
    {
        let left = cells.len();
        let Some(cell) = cells.next() else {
            unreachable!()
        };
        SameCells { cell, left }
    }
}

impl<'a, A> Iterator for SameCells<'a, A> {
    type Item = &'a A;

    ghost next_gives = { YieldsFirstRef (λ rest. rest) };

    ghost remaining = { item_count (λ rest. rest) };

    #[inline(always)]
    fn next(&mut self) -> Option<&'a A> {
        if self.left == 0 {
            return None;
        }
        self.left -= 1;
        Some(self.cell)
    }
}

/// A row of cells of a view.
#[derive(Drop)]
pub enum ViewRow<'a, A> {
    /// Cells that lie side by side.
    Slice(&'a [A]),
    /// Cells that lie a step apart.
    Stepped(Strided<'a, A>),
}

impl<'a, A> ViewRow<'a, A> {
    /// A row of these cells: a slice if they are known to lie side by side.
    #[inline(always)]
    fn of(cells: Strided<'a, A>) -> Self
        ensures { row_cells result ≡ cells.entry }
    {
        match cells.side_by_side() {
            Some(slice) => ViewRow::Slice(slice),
            None => ViewRow::Stepped(cells),
        }
    }

    /// The cells, a step apart.
    #[inline(always)]
    fn into_strided(self) -> Strided<'a, A>
        ensures { result ≡ row_cells self.entry }
    {
        match self {
            ViewRow::Slice(slice) => Strided::over(slice),
            ViewRow::Stepped(cells) => cells,
        }
    }
}

/// The rows of cells of a view that are still to come, and all cells as a slice if they lie side by side in the order.
#[derive(Drop)]
pub struct ViewRows<'a, A, D: Lengths> {
    one: Option<&'a [A]>,
    view: ArrayView<'a, A, D>,
    rows: BoxRows<D>,
}

impl<'a, A, D: Lengths> Model for ViewRows<'a, A, D> {
    ghost use Rattle.std.specs.Prelude.{List, map, filter_map, option_copied};
    ghost use Rattle.ndarray.specs.Grid.{cell};
    ghost use Rattle.ndarray.specs.order.Rows.{HasRows, RowsAndOne};

    ghost Value = { RowsAndOne (List A) };

    ghost view = { λ s. record { one = option_copied s.one; rows = map (filter_map (cell s.view)) s.rows } };

    ghost invariant = { λ s. HasRows s.view s.rows };
}

impl<'a, A, D: Lengths> Iterator for ViewRows<'a, A, D> {
    type Item = ViewRow<'a, A>;

    ghost next_gives = { YieldsFirstBy row_cells (λ s. s.rows) };

    ghost remaining = { item_count (λ s. s.rows) };

    #[inline(always)]
    fn next(&mut self) -> Option<ViewRow<'a, A>> {
        let Some(row) = self.rows.next() else {
            return None;
        };
        let cells = self.view.cells_along(&row.first, row.axis, row.count);
        Some(ViewRow::of(cells))
    }
}

impl<'b, S: Data, D: Lengths> IntoNdProducer for &'b ArrayBase<S, D>
where
    S::Elem: 'b,
{
    type Item = &'b S::Elem;

    type Dim = D;

    type Output = ArrayView<'b, S::Elem, D>;

    ghost converts_to = { λ a v. v ≡ a.now };

    fn into_producer(self) -> ArrayView<'b, S::Elem, D> {
        self.view()
    }
}

impl<'a, A, D: Lengths> KeepsLengths for ArrayView<'a, A, D> {
    ghost keeps = { λ s r e. ap (λ v. v.lengths) e };
}

impl<'a, A, E: Lengths, D: Lengths> IntoBroadcast<D> for ArrayView<'a, A, E> {
    type Output = ArrayView<'a, A, D>;

    ghost own_lengths = { λ v. v.lengths };

    ghost broadcasts_as = { λ v ns r. r ≡ broadcast_to v ns };

    fn into_broadcast(self, dim: D) -> ArrayView<'a, A, D> {
        let Some(view) = self.broadcast_within(dim) else {
            unreachable!()
        };
        view
    }
}

impl<'b, S: Data, E: Lengths, D: Lengths> IntoBroadcast<D> for &'b ArrayBase<S, E>
where
    S::Elem: 'b,
{
    type Output = ArrayView<'b, S::Elem, D>;

    ghost own_lengths = { λ a. a.now.lengths };

    ghost broadcasts_as = { λ a ns r. r ≡ broadcast_to a.now ns };

    fn into_broadcast(self, dim: D) -> ArrayView<'b, S::Elem, D> {
        self.view().into_broadcast(dim)
    }
}
