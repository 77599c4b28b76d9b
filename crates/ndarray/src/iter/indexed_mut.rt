//! The iterator over cells to write to, each with its index list.

ghost use Rattle.std.specs.Prelude.{◌≡◌, ◌<◌, ◌^◌, length, map, zip, IfSome, All, Some};
ghost use Rattle.std.specs.Iterator.{YieldsFirstBy, UpTo, item_count};
ghost use Rattle.std.specs.Iterator.SizeHint.{IsExactHint, IsWithinCount};
ghost use Rattle.std.specs.Borrow.{sem};
ghost use Rattle.ndarray.specs.Grid.{cell};
ghost use Rattle.ndarray.specs.Index.{IsRowOrder, row_order};
ghost use Rattle.ndarray.specs.Writes.{keeps_lengths};

use crate::base::array::ArrayBase;
use crate::base::dimension::{Dimension, Lengths};
use crate::base::storage::DataMut;
use crate::places::region_places::Places;
use std::iter::ExactSizeIterator;
use std::marker::Model;

/// The iterator over the cells of an array in row order, to write to, each with its index list. A contract sees it as the list of those
/// still to come, and the name of the borrow of the array.
///
/// Neither making an iterator nor any of its steps allocates.
#[derive(Drop)]
pub struct IndexedIterMut<'a, A, D: Lengths> {
    places: Places<'a, A, D>,
}

impl<'a, A, D: Lengths> Model for IndexedIterMut<'a, A, D> {
    ghost use Rattle.std.specs.Prelude.{ℕ, List, ⊤};
    ghost use Rattle.ndarray.specs.Writes.{BorrowedItems};

    ghost Value = { BorrowedItems (List ℕ × A) };

    ghost view = { λ s. s.places };

    ghost invariant = { λ _. ⊤ };
}

impl<S: DataMut, D: Dimension> ArrayBase<S, D> {
    /// An iterator over the cells in row order, to write to, whatever the strides, each with its index list as a pattern. The array keeps
    /// its lengths.
    ///
    /// ```
    /// for ((i, j), cell) in array.indexed_iter_mut() {
    ///     *cell = 10 * i + j;
    /// }
    /// ```
    pub fn indexed_iter_mut(&mut self) -> IndexedIterMut<'_, S::Elem, D>
        ensures* writes_back { sem 𝓛 (keeps_lengths S.row D.row S.Elem.row S.Data D.Lengths self.entry result.borrow_name) }
        ensures row_order { IsRowOrder self.old.lengths (map (λ item. item.0) result.items) }
        ensures cells { map (λ item. item.1) result.items ≡ self.old.cells }
        ensures list { result.items ≡ zip (row_order self.old.lengths) self.old.cells }
        ensures own_cells { All (λ item. cell self.old item.0 ≡ Some item.1) result.items }
        ensures fits { length result.items < 2 ^ 63 }
    {
        IndexedIterMut {
            places: self.places_mut(),
        }
    }
}

impl<'a, A, D: Dimension> Iterator for IndexedIterMut<'a, A, D> {
    type Item = (D::Pattern, &'a mut A);

    ghost next_gives = { YieldsFirstBy (λ item. (D.pattern_numbers item.0, item.1.now)) (λ s. s.items) };

    ghost remaining = { item_count (λ s. s.items) };

    #[inline(always)]
    fn next(&mut self) -> Option<(D::Pattern, &'a mut A)> {
        let Some((index, cell)) = self.places.next() else {
            return None;
        };
        Some((index.into_pattern(), cell))
    }

    fn size_hint(&self) -> (usize, Option<usize>)
        ensures lower { IsWithinCount result.0 (item_count (λ s. s.items) self.now) }
        ensures upper { IfSome result.1 (UpTo (item_count (λ s. s.items) self.now)) }
        ensures exact { IsExactHint result (length self.now.items) }
    {
        (self.len(), Some(self.len()))
    }
}

impl<'a, A, D: Dimension> ExactSizeIterator for IndexedIterMut<'a, A, D> {
    fn len(&self) -> usize {
        self.places.len()
    }
}
