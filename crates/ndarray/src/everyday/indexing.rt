//! Cells in brackets: `a[[1, 2]]`.

ghost use Rattle.std.specs.Prelude.{◌≡◌, Some};
ghost use Rattle.std.specs.Borrow.{sem};
ghost use Rattle.ndarray.specs.Grid.{cell};
ghost use Rattle.ndarray.specs.Index.{InBox};
ghost use Rattle.ndarray.specs.Indexing.{lends_own_cell};

use crate::base::array::ArrayBase;
use crate::base::dimension::Dimension;
use crate::base::into_dimension::IntoDimension;
use crate::base::storage::{Data, DataMut};
use std::ops::{Index, IndexMut};

impl<S: Data, D: Dimension, I: IntoDimension<Dim = D>> Index<I> for ArrayBase<S, D> {
    type Output = S::Elem;

    ghost can_index = { λ a i. InBox a.lengths (I.written_numbers i) };

    ghost index_gives = { λ a i x. cell a (I.written_numbers i) ≡ Some x };

    /// The cell at an index list.
    ///
    /// Requires that each index is below the length of its axis; check with `get`.
    ///
    /// ```
    /// let a = ArrayView::from_shape((2, 3), &[1, 2, 3, 4, 5, 6])?;
    /// assert_eq!(a[[1, 0]], 4);
    /// ```
    fn index(&self, index: I) -> &S::Elem {
        match self.get(index) {
            Some(cell) => cell,
            None => unreachable!(),
        }
    }
}

impl<S: DataMut, D: Dimension, I: IntoDimension<Dim = D>> IndexMut<I> for ArrayBase<S, D> {
    /// The cell at an index list, to write to. A write changes that cell alone.
    ///
    /// Requires that each index is below the length of its axis; check with `get`.
    ///
    /// ```
    /// let mut a = Array::zeros(alloc, (2, 3))?;
    /// a[[1, 0]] = 7; // [[0, 0, 0], [7, 0, 0]]
    /// ```
    fn index_mut(&mut self, index: I) -> &mut S::Elem
        requires { InBox self.old.lengths (I.written_numbers index) }
        ensures* writes_back { sem 𝓛 (lends_own_cell S.row D.row S.Elem.row S.Data D.Lengths self.entry (I.written_numbers index) result) }
        ensures value { cell self.old (I.written_numbers index) ≡ Some result.now }
    {
        match self.get_mut(index) {
            Some(cell) => cell,
            None => unreachable!(),
        }
    }
}
