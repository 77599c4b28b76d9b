//! The iterator over cells with their index lists.

ghost use Rattle.std.specs.Prelude.{◌≡◌, ◌<◌, ◌^◌, length, map, zip, ⊤, IfSome, All, Some};
ghost use Rattle.std.specs.Iterator.{YieldsFirstBy, UpTo, item_count};
ghost use Rattle.std.specs.Iterator.SizeHint.{IsExactHint, IsWithinCount};
ghost use Rattle.ndarray.specs.Grid.{cell, IsGrid};
ghost use Rattle.ndarray.specs.Index.{IsRowOrder, row_order};
ghost use Rattle.ndarray.specs.Limits.{IsWithinLimit};

use crate::base::array::{ArrayBase, ArrayView};
use crate::base::dimension::{Dimension, Lengths};
use crate::base::storage::{Data, ViewRepr};
use crate::order::Order;
use crate::places::indexed_rows::IndexedPlaces;
use std::alloc::AllocError;
use std::iter::ExactSizeIterator;
use std::marker::Model;

/// The iterator over the cells of an array in row order, each with its index list. A contract sees it as the list of those still to come.
///
/// Neither making an iterator nor any of its steps allocates.
#[derive(Drop)]
pub struct IndexedIter<'a, A, D: Lengths> {
    storage: ViewRepr<'a, A>,
    indexed: IndexedPlaces<D>,
}

impl<'a, A, D: Lengths> Model for IndexedIter<'a, A, D> {
    ghost use Rattle.std.specs.Prelude.{ℕ, List};
    ghost use Rattle.ndarray.specs.base.Storage.{seen_at};
    ghost use Rattle.ndarray.specs.base.Strided.{HaveElements};
    ghost use Rattle.ndarray.specs.places.ElementPlaces.{with_elements, places_of};

    ghost Value = { List (List ℕ × A) };

    ghost view = { λ s. with_elements (seen_at s.storage) s.indexed };

    ghost invariant = { λ s. HaveElements (seen_at s.storage) (places_of s.indexed) };
}

impl<'a, A, D: Lengths> IndexedIter<'a, A, D> {
    /// The cells of a view in row order.
    fn new(view: ArrayView<'a, A, D>) -> Self
        ensures list { result ≡ zip (row_order view.entry.lengths) view.entry.cells }
        ensures whole { IsGrid view.entry }
        ensures limit { IsWithinLimit view.entry.lengths }
    {
        let ArrayBase { storage, layout } = view;
        IndexedIter {
            storage,
            indexed: IndexedPlaces::new(layout, Order::RowMajor),
        }
    }
}

impl<S: Data, D: Dimension> ArrayBase<S, D> {
    /// An iterator over the cells in row order, whatever the strides, each with its index list as a pattern.
    ///
    /// ```
    /// let view = ArrayView::from_shape((2, 2), &[1, 2, 3, 4])?;
    /// // (0, 0) 1, (0, 1) 3, (1, 0) 2, (1, 1) 4
    /// for ((i, j), x) in view.t().indexed_iter() { .. }
    /// ```
    pub fn indexed_iter(&self) -> IndexedIter<'_, S::Elem, D>
        ensures row_order { IsRowOrder self.now.lengths (map (λ item. item.0) result) }
        ensures cells { map (λ item. item.1) result ≡ self.now.cells }
        ensures list { result ≡ zip (row_order self.now.lengths) self.now.cells }
        ensures own_cells { All (λ item. cell self.now item.0 ≡ Some item.1) result }
        ensures fits { length result < 2 ^ 63 }
    {
        IndexedIter::new(self.view())
    }
}

impl<'a, A, D: Dimension> Iterator for IndexedIter<'a, A, D> {
    type Item = (D::Pattern, &'a A);

    ghost next_gives = { YieldsFirstBy (λ item. (D.pattern_numbers item.0, item.1.now)) (λ rest. rest) };

    ghost remaining = { item_count (λ rest. rest) };

    #[inline(always)]
    fn next(&mut self) -> Option<(D::Pattern, &'a A)> {
        let Some((index, place)) = self.indexed.next() else {
            return None;
        };
        let item = self.storage.get(place);
        Some((index.into_pattern(), item))
    }

    fn size_hint(&self) -> (usize, Option<usize>)
        ensures lower { IsWithinCount result.0 (item_count (λ rest. rest) self.now) }
        ensures upper { IfSome result.1 (UpTo (item_count (λ rest. rest) self.now)) }
        ensures exact { IsExactHint result (length self.now) }
    {
        (self.len(), Some(self.len()))
    }
}

impl<'a, A, D: Dimension> ExactSizeIterator for IndexedIter<'a, A, D> {
    fn len(&self) -> usize {
        self.indexed.len()
    }
}

impl<'a, A, D: Lengths> Clone for IndexedIter<'a, A, D> {
    ghost is_clone = { λ s r. r ≡ s };

    ghost is_infallible = { λ _. ⊤ };

    fn clone(&self) -> Result<IndexedIter<'a, A, D>, AllocError> {
        Ok(IndexedIter {
            storage: self.storage,
            indexed: self.indexed.again(),
        })
    }
}
