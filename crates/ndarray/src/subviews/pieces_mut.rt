//! Equal pieces of an array to write in, one at each position of a box: lanes, exact chunks, and the items along an axis.

ghost use Rattle.std.specs.Prelude.{◌≡◌, ◌^◌, ◌<◌, ◌≤◌, length, slice_index};
ghost use Rattle.ndarray.specs.Limits.{IsWithinLimit};
ghost use Rattle.ndarray.specs.base.Splits.{IsSplit};

use crate::base::array::ArrayViewMut;
use crate::base::axis::Axis;
use crate::base::dimension::{Ix1, Lengths};
use crate::base::layout::Layout;
use crate::base::region::{Life, RegionRepr};
use crate::order::{Order, Walk};
use crate::subviews::piece_layouts::{PieceLayouts, PieceLayoutsFromEnds, PiecesIterMut};
use std::marker::{Model, PhantomData};

/// Equal pieces of an array to write in, one at each position of a box: an array of arrays.
#[derive(Drop)]
pub struct PiecesMut<'a, A, P: Lengths, D: Lengths> {
    pub(crate) region: RegionRepr<Life<'a>, A>,
    // where the piece at a position begins
    pub(crate) positions: Layout<P>,
    // the lengths and the strides of each piece
    pub(crate) dim: D,
    pub(crate) strides: D,
    // the lifetime of what it yields, so that `A: 'a` follows from the type
    pub(crate) lifetime: PhantomData<&'a mut A>,
}

impl<'a, A, P: Lengths, D: Lengths> Model for PiecesMut<'a, A, P, D> {
    ghost use Rattle.ndarray.specs.Grid.{Grid};

    ghost Value = { Grid (Grid A) };

    ghost use Rattle.ndarray.specs.base.Slots.{held_at};
    ghost use Rattle.ndarray.specs.base.Pieces.{SharePieces, pieces_at};

    ghost view = { λ t. pieces_at (held_at t.region.slots) (P.numbers t.positions.dim) t.positions.start (P.numbers t.positions.strides) (D.numbers t.dim) (D.numbers t.strides) };

    ghost invariant = { λ t. SharePieces (held_at t.region.slots) (P.numbers t.positions.dim) t.positions.start (P.numbers t.positions.strides) (D.numbers t.dim) (D.numbers t.strides) };
}

/// Where equal pieces lie, all of which go into one part.
#[derive(Drop)]
struct EqualPiecesLayout<P, D> {
    positions: Layout<P>,
    dim: D,
    strides: D,
}

/// Where equal pieces lie that are still to come.
#[derive(Drop)]
pub struct EqualPieceLayouts<P: Lengths, D: Lengths> {
    positions: Layout<P>,
    dim: D,
    strides: D,
    walk: Walk<P>,
}

impl<P: Lengths, D: Lengths> Model for EqualPieceLayouts<P, D> {
    ghost use Rattle.std.specs.Prelude.{List};
    ghost use Rattle.ndarray.specs.base.CellLayouts.{CellLayout};

    ghost Value = { List CellLayout };

    ghost use Rattle.ndarray.specs.base.Pieces.{ArePiecePositions, piece_layouts};

    ghost view = { λ s. piece_layouts s.positions.start (P.numbers s.positions.strides) (D.numbers s.dim) (D.numbers s.strides) s.walk };

    ghost invariant = { λ s. ArePiecePositions (P.numbers s.positions.dim) (P.numbers s.positions.strides) s.walk };
}

impl<'a, A, P: Lengths, D: Lengths> PiecesMut<'a, A, P, D> {
    /// The numbers of positions.
    pub(crate) fn raw_dim(&self) -> P
        ensures lengths { P.numbers result ≡ self.now.lengths }
        ensures limit { IsWithinLimit self.now.lengths }
    {
        self.positions.dim.copied()
    }

    /// The pieces at the first `index` positions of an axis, and the rest. No cell is in both.
    pub(crate) fn split_at(self, axis: Axis, index: usize) -> (Self, Self)
        requires axis { axis.0 < length self.lengths }
        requires within { index ≤ slice_index self.lengths axis.0 }
        ensures { IsSplit self.entry axis.0 index result.0 result.1 }
    {
        let PiecesMut {
            region,
            positions,
            dim,
            strides,
            lifetime: _,
        } = self;
        let len = positions.dim.axis(axis.0);
        let mut low = positions.copied();
        low.cut(axis.0, 0, index, 1);
        let mut high = positions;
        high.cut(axis.0, index, len - index, 1);
        let part = EqualPiecesLayout {
            positions: low,
            dim: dim.copied(),
            strides: strides.copied(),
        };
        let (here, rest) = region.split(&part);
        (
            PiecesMut {
                region: here,
                positions: part.positions,
                dim: part.dim,
                strides: part.strides,
                lifetime: PhantomData,
            },
            PiecesMut {
                region: rest,
                positions: high,
                dim,
                strides,
                lifetime: PhantomData,
            },
        )
    }
}

/// Equal pieces to write in that are still to come.
pub type EqualPiecesIterMut<'a, A, P, D> = PiecesIterMut<'a, A, EqualPieceLayouts<P, D>>;

impl<'a, A, P: Lengths, D: Lengths> IntoIterator for PiecesMut<'a, A, P, D> {
    type Item = ArrayViewMut<'a, A, D>;

    type IntoIter = PiecesIterMut<'a, A, EqualPieceLayouts<P, D>>;

    ghost into_iter_gives = { λ s it. (it ≡ s.cells) × (length it < 2 ^ 63) };

    fn into_iter(self) -> Self::IntoIter {
        let PiecesMut {
            region,
            positions,
            dim,
            strides,
            lifetime,
        } = self;
        let walk = Walk::new(positions.dim.copied(), Order::RowMajor);
        PiecesIterMut {
            region,
            layouts: EqualPieceLayouts {
                positions,
                dim,
                strides,
                walk,
            },
            lifetime,
        }
    }
}

impl<P: Lengths, D: Lengths> EqualPieceLayouts<P, D> {
    /// How many pieces are still to come, which the limit on shapes bounds.
    pub(super) fn bounded_len(&self) -> usize
        ensures value { result ≡ length self.now }
        ensures fits { result < 2 ^ 63 }
    {
        self.walk.bounded_len()
    }
}

impl<P: Lengths, D: Lengths> PieceLayouts for EqualPieceLayouts<P, D> {
    type Dim = D;

    ghost layouts = { λ s. s };

    #[inline(always)]
    fn next(&mut self) -> Option<Layout<D>> {
        let position = self.walk.next()?;
        Some(Layout {
            start: self.positions.place(&position),
            dim: self.dim.copied(),
            strides: self.strides.copied(),
        })
    }

    fn len(&self) -> usize {
        self.walk.len()
    }
}

impl<D: Lengths> PieceLayoutsFromEnds for EqualPieceLayouts<Ix1, D> {
    fn next_back(&mut self) -> Option<Layout<D>> {
        let Some(position) = self.walk.next_back() else {
            return None;
        };
        Some(Layout {
            start: self.positions.place(&position),
            dim: self.dim.copied(),
            strides: self.strides.copied(),
        })
    }

    fn take_first(&mut self, count: usize) -> Self {
        EqualPieceLayouts {
            positions: self.positions.copied(),
            dim: self.dim.copied(),
            strides: self.strides.copied(),
            walk: self.walk.take_first(count),
        }
    }
}
