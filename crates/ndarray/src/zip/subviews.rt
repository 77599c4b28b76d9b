//! Subviews as producers.

ghost use Rattle.std.specs.Prelude.{◌≡◌, ◌∷◌, [], length, Some, filter_map, ⊤};
ghost use Rattle.std.specs.Iterator.{YieldsFirst, item_count};
ghost use Rattle.std.proofs.Common.{ap};
ghost use Rattle.ndarray.specs.Grid.{cell, one_axis, HasCells};
ghost use Rattle.ndarray.specs.Producers.{YieldsInTurn};

use crate::base::array::ArrayView;
use crate::base::axis::Axis;
use crate::base::dimension::{Ix1, Lengths};
use crate::order::Order;
use crate::order::rows::BoxRows;
use crate::subviews::axis::AxisIter;
use crate::subviews::piece_rows::PieceRow;
use crate::subviews::pieces::Pieces;
use crate::subviews::windows::{AxisWindows, WindowsIter};
use crate::zip::producer::{KeepsLengths, NdProducer, Shaped, rows_of_axis};
use std::iter::Once;
use std::marker::Model;

impl<'a, A, P: Lengths, D: Lengths> Shaped for Pieces<'a, A, P, D> {
    ghost lengths = { λ s. s.lengths };
}

impl<'a, A, P: Lengths, D: Lengths> NdProducer for Pieces<'a, A, P, D> {
    type Item = ArrayView<'a, A, D>;

    type Dim = P;

    ghost yields_at = { λ s i x. cell s i ≡ Some x };

    fn raw_dim(&self) -> P {
        self.raw_dim()
    }

    fn split_at(self, axis: Axis, index: usize) -> (Self, Self) {
        self.split_at(axis, index)
    }

    fn tendency(&self) -> i32 {
        0
    }

    type Row = PieceRow<'a, A, D>;

    type Rows = PieceRows<'a, A, P, D>;

    type RowRun = PieceRow<'a, A, D>;

    type FlatRow = PieceRow<'a, A, D>;

    ghost row_form = { λ s is r. (r ≡ filter_map (cell s) is) × HasCells s is };

    ghost is_flat = { λ _. ⊤ };

    ghost rows_form = { λ _ _ _. ⊤ };

    ghost is_one = { λ _. ⊥ };

    fn into_rows(self, order: Order) -> PieceRows<'a, A, P, D> {
        let rows = BoxRows::new(self.raw_dim(), order);
        PieceRows { pieces: self, rows }
    }

    fn is_one_row(_rows: &PieceRows<'a, A, P, D>) -> bool {
        false
    }

    fn one_row(_rows: PieceRows<'a, A, P, D>) -> Option<PieceRow<'a, A, D>> {
        None
    }

    fn is_flat_row(_row: &PieceRow<'a, A, D>) -> bool {
        true
    }

    #[inline(always)]
    fn flat_row(row: PieceRow<'a, A, D>) -> PieceRow<'a, A, D> {
        row
    }

    #[inline(always)]
    fn run_row(row: PieceRow<'a, A, D>) -> PieceRow<'a, A, D> {
        row
    }
}

/// The rows of pieces that are still to come.
#[derive(Drop)]
pub struct PieceRows<'a, A, P: Lengths, D: Lengths> {
    pieces: Pieces<'a, A, P, D>,
    rows: BoxRows<P>,
}

impl<'a, A, P: Lengths, D: Lengths> Model for PieceRows<'a, A, P, D> {
    ghost use Rattle.std.specs.Prelude.{List, map, filter_map};
    ghost use Rattle.ndarray.specs.Grid.{Grid, cell};
    ghost use Rattle.ndarray.specs.order.Rows.{HasRows};

    ghost Value = { List (List (Grid A)) };

    ghost view = { λ s. map (filter_map (cell s.pieces)) s.rows };

    ghost invariant = { λ s. HasRows s.pieces s.rows };
}

impl<'a, A, P: Lengths, D: Lengths> Iterator for PieceRows<'a, A, P, D> {
    type Item = PieceRow<'a, A, D>;

    ghost next_gives = { YieldsFirst (λ rest. rest) };

    ghost remaining = { item_count (λ rest. rest) };

    #[inline(always)]
    fn next(&mut self) -> Option<PieceRow<'a, A, D>> {
        let Some(row) = self.rows.next() else {
            return None;
        };
        Some(self.pieces.pieces_along(&row.first, row.axis, row.count))
    }
}

impl<'a, A, D: Lengths> Shaped for AxisWindows<'a, A, D> {
    ghost lengths = { λ s. s.lengths };
}

impl<'a, A, D: Lengths> NdProducer for AxisWindows<'a, A, D> {
    type Item = ArrayView<'a, A, D>;

    type Dim = Ix1;

    ghost yields_at = { λ s i x. cell s i ≡ Some x };

    fn raw_dim(&self) -> Ix1 {
        Ix1(self.pieces.raw_dim().size())
    }

    fn split_at(self, _axis: Axis, index: usize) -> (Self, Self) {
        let AxisWindows { axis, pieces } = self;
        let (first, second) = pieces.split_at(Axis(axis), index);
        (
            AxisWindows {
                axis,
                pieces: first,
            },
            AxisWindows {
                axis,
                pieces: second,
            },
        )
    }

    fn tendency(&self) -> i32 {
        0
    }

    type Row = WindowsIter<'a, A, D>;

    type Rows = Once<WindowsIter<'a, A, D>>;

    type RowRun = WindowsIter<'a, A, D>;

    type FlatRow = WindowsIter<'a, A, D>;

    ghost row_form = { λ s is r. YieldsInTurn (YieldsFirst (λ rest. rest)) (λ i x. cell s i ≡ Some x) r is };

    ghost is_flat = { λ _. ⊤ };

    ghost rows_form = { λ _ _ _. ⊤ };

    ghost is_one = { λ _. ⊥ };

    fn into_rows(self, _order: Order) -> Once<WindowsIter<'a, A, D>> {
        let len = self.pieces.raw_dim().size();
        rows_of_axis(self.pieces.into_iter(), len)
    }

    fn is_one_row(_rows: &Once<WindowsIter<'a, A, D>>) -> bool {
        false
    }

    fn one_row(_rows: Once<WindowsIter<'a, A, D>>) -> Option<WindowsIter<'a, A, D>> {
        None
    }

    fn is_flat_row(_row: &WindowsIter<'a, A, D>) -> bool {
        true
    }

    #[inline(always)]
    fn flat_row(row: WindowsIter<'a, A, D>) -> WindowsIter<'a, A, D> {
        row
    }

    #[inline(always)]
    fn run_row(row: WindowsIter<'a, A, D>) -> WindowsIter<'a, A, D> {
        row
    }
}

impl<'a, A, D: Lengths> Shaped for AxisIter<'a, A, D> {
    ghost lengths = { λ s. length s ∷ [] };
}

impl<'a, A, D: Lengths> NdProducer for AxisIter<'a, A, D> {
    type Item = ArrayView<'a, A, D>;

    type Dim = Ix1;

    ghost yields_at = { λ s i x. cell (one_axis s) i ≡ Some x };

    fn raw_dim(&self) -> Ix1 {
        Ix1(self.bounded_len())
    }

    fn split_at(self, _axis: Axis, index: usize) -> (Self, Self) {
        self.split_at(index)
    }

    fn tendency(&self) -> i32 {
        0
    }

    type Row = AxisIter<'a, A, D>;

    type Rows = Once<AxisIter<'a, A, D>>;

    type RowRun = AxisIter<'a, A, D>;

    type FlatRow = AxisIter<'a, A, D>;

    ghost row_form = { λ s is r. YieldsInTurn (YieldsFirst (λ rest. rest)) (λ i x. cell (one_axis s) i ≡ Some x) r is };

    ghost is_flat = { λ _. ⊤ };

    ghost rows_form = { λ _ _ _. ⊤ };

    ghost is_one = { λ _. ⊥ };

    fn into_rows(self, _order: Order) -> Once<AxisIter<'a, A, D>> {
        let len = self.bounded_len();
        rows_of_axis(self, len)
    }

    fn is_one_row(_rows: &Once<AxisIter<'a, A, D>>) -> bool {
        false
    }

    fn one_row(_rows: Once<AxisIter<'a, A, D>>) -> Option<AxisIter<'a, A, D>> {
        None
    }

    fn is_flat_row(_row: &AxisIter<'a, A, D>) -> bool {
        true
    }

    #[inline(always)]
    fn flat_row(row: AxisIter<'a, A, D>) -> AxisIter<'a, A, D> {
        row
    }

    #[inline(always)]
    fn run_row(row: AxisIter<'a, A, D>) -> AxisIter<'a, A, D> {
        row
    }
}

impl<'a, A, P: Lengths, D: Lengths> KeepsLengths for Pieces<'a, A, P, D> {
    ghost keeps = { λ s r e. ap (λ v. v.lengths) e };
}

impl<'a, A, D: Lengths> KeepsLengths for AxisIter<'a, A, D> {
    ghost keeps = { λ s r e. ap (λ v. length v ∷ []) e };
}
