//! Equal pieces of an array at positions along one axis, one after another.

ghost use Rattle.std.specs.Prelude.{◌≡◌, ◌<◌, All, map, filter_map};
ghost use Rattle.std.specs.Iterator.{YieldsFirst, item_count};
ghost use Rattle.ndarray.specs.Grid.{IsGrid, cell};
ghost use Rattle.ndarray.specs.Index.{InBox};
ghost use Rattle.ndarray.specs.order.Rows.{rows_in};
ghost use Rattle.ndarray.specs.base.CellLayouts.{cell_layout};
ghost use Rattle.ndarray.specs.base.Ranks.{row_from};

use crate::base::array::ArrayView;
use crate::base::dimension::Lengths;
use crate::base::layout::Layout;
use crate::base::region::{Life, RegionRepr};
use crate::base::storage::ViewRepr;
use crate::order::Order;
use crate::order::rows::BoxRows;
use crate::places::place_rows::PlaceRow;
use crate::subviews::piece_layouts::{PieceLayouts, PiecesIterMut};
use crate::subviews::pieces::{Pieces, piece_at};
use crate::subviews::pieces_mut::PiecesMut;
use std::marker::{Model, PhantomData};

/// Pieces that are still to come, each a step after the one before.
#[derive(Drop)]
pub struct PieceRow<'a, A, D: Lengths> {
    storage: ViewRepr<'a, A>,
    // where each piece begins
    places: PlaceRow,
    // the lengths and the strides of each piece
    dim: D,
    strides: D,
}

impl<'a, A, D: Lengths> Model for PieceRow<'a, A, D> {
    ghost use Rattle.std.specs.Prelude.{List, map, All};
    ghost use Rattle.ndarray.specs.Grid.{Grid};
    ghost use Rattle.ndarray.specs.base.Storage.{seen_at};
    ghost use Rattle.ndarray.specs.base.Places.{Reaches, grid_at};

    ghost Value = { List (Grid A) };

    ghost view = { λ s. map (λ p. grid_at (seen_at s.storage) (D.numbers s.dim) p (D.numbers s.strides)) s.places };

    ghost invariant = { λ s. All (λ p. Reaches ⊥ (seen_at s.storage) (D.numbers s.dim) p (D.numbers s.strides)) s.places };
}

impl<'a, A, D: Lengths> Iterator for PieceRow<'a, A, D> {
    type Item = ArrayView<'a, A, D>;

    ghost next_gives = { YieldsFirst (λ rest. rest) };

    ghost remaining = { item_count (λ rest. rest) };

    #[inline(always)]
    fn next(&mut self) -> Option<ArrayView<'a, A, D>> {
        let Some(start) = self.places.next() else {
            return None;
        };
        Some(piece_at(self.storage, start, &self.dim, &self.strides))
    }
}

impl<'a, A, P: Lengths, D: Lengths> Pieces<'a, A, P, D> {
    /// The pieces from a position of the box on along an axis.
    pub(crate) fn pieces_along(&self, first: &P, axis: usize, count: usize) -> PieceRow<'a, A, D>
        requires some { 0 < count }
        requires within { All (InBox self.now.lengths) (row_from (P.numbers first.now) axis count) }
        ensures { result ≡ filter_map (cell self.now) (row_from (P.numbers first.now) axis count) }
    {
        PieceRow {
            dim: self.dim.copied(),
            strides: self.strides.copied(),
            storage: self.storage,
            places: PlaceRow {
                place: self.positions.place(first),
                stride: self.positions.stride(axis),
                left: count,
            },
        }
    }
}

/// Where pieces lie that are still to come, each a step after the one before.
#[derive(Drop)]
pub struct PieceRowLayouts<D> {
    places: PlaceRow,
    dim: D,
    strides: D,
}

impl<D: Lengths> PieceLayouts for PieceRowLayouts<D> {
    ghost use Rattle.std.specs.Prelude.{map};

    type Dim = D;

    ghost layouts = { λ s. map (λ p. cell_layout (D.numbers s.dim) p (D.numbers s.strides)) s.places };

    #[inline(always)]
    fn next(&mut self) -> Option<Layout<D>> {
        let Some(start) = self.places.next() else {
            return None;
        };
        Some(Layout {
            start,
            dim: self.dim.copied(),
            strides: self.strides.copied(),
        })
    }

    fn len(&self) -> usize {
        self.places.len()
    }
}

/// Pieces to write in that are still to come, each a step after the one before.
pub type PieceRowMut<'a, A, D> = PiecesIterMut<'a, A, PieceRowLayouts<D>>;

/// The rows of pieces to write in that are still to come.
#[derive(Drop)]
pub struct PieceRowsMut<'a, A, P: Lengths, D: Lengths> {
    region: RegionRepr<Life<'a>, A>,
    positions: Layout<P>,
    dim: D,
    strides: D,
    rows: BoxRows<P>,
    // the lifetime of what it yields, so that `A: 'a` follows from the type
    lifetime: PhantomData<&'a mut A>,
}

impl<'a, A, P: Lengths, D: Lengths> Model for PieceRowsMut<'a, A, P, D> {
    ghost use Rattle.std.specs.Prelude.{List, map};
    ghost use Rattle.ndarray.specs.Grid.{Grid};
    ghost use Rattle.ndarray.specs.base.Masks.{grids_at};
    ghost use Rattle.ndarray.specs.base.Pieces.{ShareRows, piece_layouts};
    ghost use Rattle.ndarray.specs.base.Slots.{held_at};

    ghost Value = { List (List (Grid A)) };

    ghost view = { λ s. map (λ row. grids_at (held_at s.region.slots) (piece_layouts s.positions.start (P.numbers s.positions.strides) (D.numbers s.dim) (D.numbers s.strides) row)) s.rows };

    ghost invariant = { λ s. ShareRows (held_at s.region.slots) (P.numbers s.positions.dim) s.positions.start (P.numbers s.positions.strides) (D.numbers s.dim) (D.numbers s.strides) s.rows };
}

impl<'a, A, P: Lengths, D: Lengths> PiecesMut<'a, A, P, D> {
    /// The pieces row by row, in an order of their positions.
    pub(crate) fn into_rows(self, order: Order) -> PieceRowsMut<'a, A, P, D>
        ensures rows { result ≡ map (filter_map (cell self.entry)) (rows_in order self.entry.lengths) }
        ensures whole { IsGrid self.entry }
    {
        let rows = BoxRows::new(self.positions.dim.copied(), order);
        PieceRowsMut {
            region: self.region,
            positions: self.positions,
            dim: self.dim,
            strides: self.strides,
            rows,
            lifetime: self.lifetime,
        }
    }
}

impl<'a, A, P: Lengths, D: Lengths> Iterator for PieceRowsMut<'a, A, P, D> {
    type Item = PieceRowMut<'a, A, D>;

    ghost next_gives = { YieldsFirst (λ rest. rest) };

    ghost remaining = { item_count (λ rest. rest) };

    #[inline(always)]
    fn next(&mut self) -> Option<PieceRowMut<'a, A, D>> {
        let Some(row) = self.rows.next() else {
            return None;
        };
        let layouts = PieceRowLayouts {
            places: PlaceRow::along(&self.positions, &row),
            dim: self.dim.copied(),
            strides: self.strides.copied(),
        };
        Some(PiecesIterMut::taken_from(&mut self.region, layouts))
    }
}
