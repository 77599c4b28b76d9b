//! Equal pieces of an array, one at each position of a box, and the iterator over them. Lanes, exact chunks and windows
//! are such pieces; the items along an axis and the windows along one are made of them.

ghost use Rattle.std.specs.Prelude.{◌≡◌, ◌+◌, ◌^◌, ◌≤◌, ◌<◌, length, slice_index, take, drop, ⊤, IfSome};
ghost use Rattle.std.specs.Iterator.{UpTo, YieldsFirst, YieldsLast, item_count};
ghost use Rattle.std.specs.Iterator.SizeHint.{IsExactHint, IsWithinCount};
ghost use Rattle.ndarray.specs.Grid.{IsGrid};
ghost use Rattle.ndarray.specs.Limits.{IsWithinLimit};
ghost use Rattle.ndarray.specs.base.Places.{Reaches, grid_at};
ghost use Rattle.ndarray.specs.base.Splits.{IsPartAlong, IsSplit};
ghost use Rattle.ndarray.specs.base.Storage.{seen_at};

use crate::base::array::{ArrayBase, ArrayView};
use crate::base::axis::Axis;
use crate::base::dimension::{Ix1, Lengths};
use crate::base::layout::Layout;
use crate::base::storage::ViewRepr;
use crate::order::Order;
use crate::places::place_rows::RowPlaces;
use std::alloc::AllocError;
use std::iter::ExactSizeIterator;
use std::marker::Model;

/// Equal pieces of an array, one at each position of a box: an array of arrays.
#[derive(Drop)]
pub struct Pieces<'a, A, P: Lengths, D: Lengths> {
    pub(crate) storage: ViewRepr<'a, A>,
    // where the piece at a position begins
    pub(crate) positions: Layout<P>,
    // the lengths and the strides of each piece
    pub(crate) dim: D,
    pub(crate) strides: D,
}

impl<'a, A, P: Lengths, D: Lengths> Model for Pieces<'a, A, P, D> {
    ghost use Rattle.ndarray.specs.Grid.{Grid};

    ghost Value = { Grid (Grid A) };

    ghost use Rattle.ndarray.specs.base.Storage.{seen_at};
    ghost use Rattle.ndarray.specs.base.Pieces.{ReachPieces, pieces_at};

    ghost view = { λ t. pieces_at (seen_at t.storage) (P.numbers t.positions.dim) t.positions.start (P.numbers t.positions.strides) (D.numbers t.dim) (D.numbers t.strides) };

    ghost invariant = { λ t. ReachPieces (seen_at t.storage) (P.numbers t.positions.dim) t.positions.start (P.numbers t.positions.strides) (D.numbers t.dim) (D.numbers t.strides) };
}

impl<'a, A, P: Lengths, D: Lengths> Pieces<'a, A, P, D> {
    /// The numbers of positions.
    pub(crate) fn raw_dim(&self) -> P
        ensures lengths { P.numbers result ≡ self.now.lengths }
        ensures limit { IsWithinLimit self.now.lengths }
        ensures whole { IsGrid self.now }
    {
        self.positions.dim.copied()
    }

    /// A copy of it.
    pub(crate) fn again(&self) -> Self
        ensures { result ≡ self.now }
    {
        Pieces {
            storage: self.storage,
            positions: self.positions.copied(),
            dim: self.dim.copied(),
            strides: self.strides.copied(),
        }
    }

    /// The pieces at the first `index` positions of an axis, and the rest.
    pub(crate) fn split_at(self, axis: Axis, index: usize) -> (Self, Self)
        requires axis { axis.0 < length self.lengths }
        requires within { index ≤ slice_index self.lengths axis.0 }
        ensures { IsSplit self.entry axis.0 index result.0 result.1 }
    {
        let low = self.part(axis.0, 0, index);
        let high = self.part(axis.0, index, self.positions.dim.axis(axis.0) - index);
        (low, high)
    }

    /// The pieces at the `len` positions of an axis from `from` on.
    pub(crate) fn part(&self, axis: usize, from: usize, len: usize) -> Self
        requires axis { axis < length self.now.lengths }
        requires within { from + len ≤ slice_index self.now.lengths axis }
        ensures { IsPartAlong self.now axis from (from + len) result }
    {
        let mut part = self.again();
        part.positions.cut(axis, from, len, 1);
        part
    }
}

impl<'a, A, P: Lengths, D: Lengths> Clone for Pieces<'a, A, P, D> {
    ghost is_clone = { λ s r. r ≡ s };

    ghost is_infallible = { λ _. ⊤ };

    fn clone(&self) -> Result<Pieces<'a, A, P, D>, AllocError> {
        Ok(self.again())
    }
}

impl<'a, A, P: Lengths, D: Lengths> IntoIterator for Pieces<'a, A, P, D> {
    type Item = ArrayView<'a, A, D>;

    type IntoIter = PiecesIter<'a, A, P, D>;

    ghost into_iter_gives = { λ s it. (it ≡ s.cells) × (length it < 2 ^ 63) };

    fn into_iter(self) -> PiecesIter<'a, A, P, D> {
        PiecesIter {
            storage: self.storage,
            places: RowPlaces::new(self.positions, Order::RowMajor),
            dim: self.dim,
            strides: self.strides,
        }
    }
}

/// The piece that begins at a place.
#[inline(always)]
pub(crate) fn piece_at<'a, A, D: Lengths>(
    storage: ViewRepr<'a, A>,
    start: usize,
    dim: &D,
    strides: &D,
) -> ArrayView<'a, A, D>
    requires { Reaches ⊥ (seen_at storage) (D.numbers dim.now) start (D.numbers strides.now) }
    ensures { result ≡ grid_at (seen_at storage.entry) (D.numbers dim.now) start (D.numbers strides.now) }
{
    ArrayBase {
        storage,
        layout: Layout {
            start,
            dim: dim.copied(),
            strides: strides.copied(),
        },
    }
}

/// The pieces that are still to come.
#[derive(Drop)]
pub struct PiecesIter<'a, A, P: Lengths, D: Lengths> {
    storage: ViewRepr<'a, A>,
    // where each piece begins
    places: RowPlaces<P>,
    // the lengths and the strides of each piece
    dim: D,
    strides: D,
}

impl<'a, A, P: Lengths, D: Lengths> Model for PiecesIter<'a, A, P, D> {
    ghost use Rattle.std.specs.Prelude.{List, map, All};
    ghost use Rattle.ndarray.specs.Grid.{Grid};
    ghost use Rattle.ndarray.specs.base.Storage.{seen_at};
    ghost use Rattle.ndarray.specs.base.Places.{Reaches, grid_at};

    ghost Value = { List (Grid A) };

    ghost view = { λ s. map (λ p. grid_at (seen_at s.storage) (D.numbers s.dim) p (D.numbers s.strides)) s.places };

    ghost invariant = { λ s. All (λ p. Reaches ⊥ (seen_at s.storage) (D.numbers s.dim) p (D.numbers s.strides)) s.places };
}

impl<'a, A, P: Lengths, D: Lengths> PiecesIter<'a, A, P, D> {
    /// How many pieces are still to come, which the limit on shapes bounds.
    pub(crate) fn bounded_len(&self) -> usize
        ensures value { result ≡ length self.now }
        ensures fits { result < 2 ^ 63 }
    {
        self.places.len()
    }
}

impl<'a, A, P: Lengths, D: Lengths> Iterator for PiecesIter<'a, A, P, D> {
    type Item = ArrayView<'a, A, D>;

    ghost next_gives = { YieldsFirst (λ rest. rest) };

    ghost remaining = { item_count (λ rest. rest) };

    #[inline(always)]
    fn next(&mut self) -> Option<ArrayView<'a, A, D>> {
        let Some(start) = self.places.next() else {
            return None;
        };
        Some(piece_at(self.storage, start, &self.dim, &self.strides))
    }

    fn size_hint(&self) -> (usize, Option<usize>)
        ensures lower { IsWithinCount result.0 (item_count (λ rest. rest) self.now) }
        ensures upper { IfSome result.1 (UpTo (item_count (λ rest. rest) self.now)) }
        ensures exact { IsExactHint result (length self.now) }
    {
        (self.len(), Some(self.len()))
    }
}

impl<'a, A, P: Lengths, D: Lengths> ExactSizeIterator for PiecesIter<'a, A, P, D> {
    fn len(&self) -> usize {
        self.places.len()
    }
}

impl<'a, A, D: Lengths> DoubleEndedIterator for PiecesIter<'a, A, Ix1, D> {
    ghost next_back_gives = { YieldsLast (λ rest. rest) };

    fn next_back(&mut self) -> Option<ArrayView<'a, A, D>> {
        let Some(start) = self.places.next_back() else {
            return None;
        };
        Some(piece_at(self.storage, start, &self.dim, &self.strides))
    }
}

impl<'a, A, P: Lengths, D: Lengths> Clone for PiecesIter<'a, A, P, D> {
    ghost is_clone = { λ s r. r ≡ s };

    ghost is_infallible = { λ _. ⊤ };

    fn clone(&self) -> Result<PiecesIter<'a, A, P, D>, AllocError> {
        Ok(PiecesIter {
            storage: self.storage,
            places: self.places.again(),
            dim: self.dim.copied(),
            strides: self.strides.copied(),
        })
    }
}

impl<'a, A, D: Lengths> PiecesIter<'a, A, Ix1, D> {
    /// Takes the first `count` pieces still to come.
    pub(crate) fn take_first(&mut self, count: usize) -> Self
        requires { count ≤ length self.old }
        ensures first { result ≡ take count self.old }
        ensures rest { self.new ≡ drop count self.old }
    {
        PiecesIter {
            storage: self.storage,
            places: self.places.take_first(count),
            dim: self.dim.copied(),
            strides: self.strides.copied(),
        }
    }
}
