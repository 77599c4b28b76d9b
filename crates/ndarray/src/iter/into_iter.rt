//! The iterator that moves the cells out of an array.

ghost use Rattle.std.specs.Prelude.{◌≡◌, ◌⊎◌, ◌<◌, ◌^◌, length, IfOk, IfSome, IsOk};
ghost use Rattle.std.specs.Iterator.{UpTo, YieldsFirst, item_count};
ghost use Rattle.std.specs.Iterator.SizeHint.{IsExactHint, IsWithinCount};
ghost use Rattle.std.specs.List.{AllZip};
ghost use Rattle.ndarray.specs.Index.{size};

use crate::base::array::{Array, CowArray};
use crate::base::dimension::Lengths;
use crate::places::cell_places::CellPlaces;
use crate::places::move_out::MoveOut;
use std::alloc::{AllocError, Global};
use std::iter::ExactSizeIterator;
use std::marker::Model;
use std::vec;

/// The iterator over the cells of an array in row order, each moved out of it. A contract sees it as the list of the cells still to come.
///
/// Neither making an iterator nor any of its steps allocates. When it is dropped, so is each element that was not moved out, also those
/// that the array hid.
#[derive(Drop)]
pub struct IntoIter<A, D: Lengths> {
    source: Source<A, D>,
}

/// What the cells are moved out of.
#[derive(Drop)]
enum Source<A, D: Lengths> {
    /// A vector whose elements are the cells in row order.
    Whole(vec::IntoIter<A, Global>),
    /// A vector in which the cells lie at some places.
    Places(MoveOut<A, CellPlaces<D>>),
}

impl<A, D: Lengths> Model for IntoIter<A, D> {
    ghost use Rattle.std.specs.Prelude.{List, ⊤};
    ghost use Rattle.ndarray.specs.places.Sources.{cells_left};

    ghost Value = { List A };

    ghost view = { λ s. cells_left s.source };

    ghost invariant = { λ _. ⊤ };
}

impl<A: Drop, D: Lengths> IntoIterator for Array<A, D> {
    ghost use Rattle.std.specs.Prelude.{◌<◌, ◌^◌, length};

    type Item = A;

    type IntoIter = IntoIter<A, D>;

    ghost into_iter_gives = { λ a it. (it ≡ a.cells) × (length it < 2 ^ 63) };

    fn into_iter(self) -> IntoIter<A, D> {
        match self.try_into_cells() {
            Ok(cells) => IntoIter {
                source: Source::Whole(cells.into_iter()),
            },
            Err(array) => {
                let (items, map) = array.into_storage();
                IntoIter {
                    source: Source::Places(MoveOut::new(items, CellPlaces::new(map))),
                }
            }
        }
    }
}

impl<'a, A: Clone, D: Lengths> CowArray<'a, A, D> {
    /// An iterator over the cells in row order: the array's own if it owns them, which are then moved out, else clones of them. Contracts
    /// do not see whether the array owns its cells, so this contract says only that each item is the cell or a clone.
    ///
    /// The error is an allocation failure, for the clones, and is never reported if there are no cells. It drops the array, and leaves what
    /// this borrowed as it was.
    ///
    /// ```
    /// let source = [1, 2];
    /// let array = CowArray::from(ArrayView::from_shape(2, &source)?);
    /// for x in array.try_into_iter(alloc)? { .. } // 1, 2
    /// ```
    pub fn try_into_iter(self, alloc: Global) -> Result<IntoIter<A, D>, AllocError>
        ensures cells { IfOk result (λ it. (it ≡ self.entry.cells) ⊎ AllZip A.is_clone self.entry.cells it) }
        ensures fits { IfOk result (λ it. length it < 2 ^ 63) }
        ensures same { IfOk result (λ it. ((x y : A) → A.is_clone x y → y ≡ x) → it ≡ self.entry.cells) }
        ensures empty { size self.entry.lengths ≡ 0 → IsOk result }
    {
        let array = self.into_owned(alloc)?;
        Ok(array.into_iter())
    }
}

impl<A: Drop, D: Lengths> Iterator for IntoIter<A, D> {
    type Item = A;

    ghost next_gives = { YieldsFirst (λ rest. rest) };

    ghost remaining = { item_count (λ rest. rest) };

    #[inline(always)]
    fn next(&mut self) -> Option<A> {
        match &mut self.source {
            Source::Whole(cells) => cells.next(),
            Source::Places(cells) => cells.next(),
        }
    }

    fn size_hint(&self) -> (usize, Option<usize>)
        ensures lower { IsWithinCount result.0 (item_count (λ rest. rest) self.now) }
        ensures upper { IfSome result.1 (UpTo (item_count (λ rest. rest) self.now)) }
        ensures exact { IsExactHint result (length self.now) }
    {
        (self.len(), Some(self.len()))
    }
}

impl<A: Drop, D: Lengths> ExactSizeIterator for IntoIter<A, D> {
    fn len(&self) -> usize {
        match &self.source {
            Source::Whole(cells) => cells.len(),
            Source::Places(cells) => cells.len(),
        }
    }
}
