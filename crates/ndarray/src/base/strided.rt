//! Elements that lie a step apart, one after another: for `base`, `iter` and `linalg`.

ghost use Rattle.std.specs.Prelude.{◌≡◌, [], ◌∷◌, ◌<◌, All, length, filter_map, IfSome, IsTrue, MatchOption};
ghost use Rattle.std.specs.Iterator.{YieldsFirstRef, YieldsLastRef, item_count};
ghost use Rattle.ndarray.specs.Grid.{cell};
ghost use Rattle.ndarray.specs.Index.{InBox};
ghost use Rattle.ndarray.specs.base.Ranks.{row_from};
ghost use Rattle.ndarray.specs.base.Storage.{seen_at};
ghost use Rattle.ndarray.specs.base.Strided.{HaveElements, places_from};
ghost use Rattle.ndarray.specs.zip.RowCells.{IsRepeated};

use crate::base::array::ArrayView;
use crate::base::dimension::{Dimension, Ix1, Lengths};
use crate::base::storage::ViewRepr;
use std::marker::Model;

/// The elements of a reading view's storage that are still to come: `left` of them, from a place on, each a
/// step after the one before.
#[derive(Drop)]
pub struct Strided<'a, A> {
    storage: ViewRepr<'a, A>,
    place: usize,
    step: usize,
    left: usize,
}

impl<'a, A> Model for Strided<'a, A> {
    ghost use Rattle.std.specs.Prelude.{List, filter_map};
    ghost use Rattle.ndarray.specs.base.Storage.{seen_at};
    ghost use Rattle.ndarray.specs.base.Strided.{places_from, HaveElements};

    ghost Value = { List A };

    ghost view = { λ s. filter_map (seen_at s.storage) (places_from s.place s.step s.left) };

    ghost invariant = { λ s. HaveElements (seen_at s.storage) (places_from s.place s.step s.left) };
}

impl<'a, A> Strided<'a, A> {
    /// The elements of a slice.
    #[inline(always)]
    pub(crate) fn over(slice: &'a [A]) -> Self
        ensures { result ≡ slice.now }
    {
        Strided {
            storage: ViewRepr::Slice(slice),
            place: 0,
            step: 1,
            left: slice.len(),
        }
    }

    /// The elements at `count` places, each a step after the one before.
    pub(crate) fn at(storage: ViewRepr<'a, A>, place: usize, step: usize, count: usize) -> Self
        requires { HaveElements (seen_at storage) (places_from place step count) }
        ensures { result ≡ filter_map (seen_at storage.entry) (places_from place step count) }
    {
        Strided {
            storage,
            place,
            step,
            left: count,
        }
    }

    /// How many are still to come.
    pub(crate) fn len(&self) -> usize
        ensures { result ≡ length self.now }
    {
        self.left
    }

    /// The next element.
    #[inline(always)]
    pub(crate) fn next(&mut self) -> Option<&'a A>
        ensures { YieldsFirstRef (λ rest. rest) self.old result self.new }
    {
        if self.left == 0 {
            return None;
        }
        let place = self.place;
        self.left -= 1;
        self.place = place.wrapping_add(self.step);
        Some(self.storage.get(place))
    }

    /// The next two elements, if there are two. Both steps are taken at once.
    #[inline(always)]
    pub(crate) fn next_two(&mut self) -> Option<(&'a A, &'a A)>
        ensures { MatchOption result ((length self.old < 2) × (self.new ≡ self.old)) (λ p. self.old ≡ p.0.now ∷ p.1.now ∷ self.new) }
    {
        if self.left < 2 {
            return None;
        }
        let first = self.place;
        let second = first.wrapping_add(self.step);
        self.left -= 2;
        self.place = first.wrapping_add(self.step.wrapping_add(self.step));
        Some((self.storage.get(first), self.storage.get(second)))
    }

    /// The last element.
    pub(crate) fn next_back(&mut self) -> Option<&'a A>
        ensures { YieldsLastRef (λ rest. rest) self.old result self.new }
    {
        if self.left == 0 {
            return None;
        }
        self.left -= 1;
        let place = self.place.wrapping_add(self.left.wrapping_mul(self.step));
        Some(self.storage.get(place))
    }

    /// The elements as a slice, if they are known to lie side by side.
    #[inline(always)]
    pub(crate) fn side_by_side(&self) -> Option<&'a [A]>
        ensures { IfSome result (λ s. s.now ≡ self.now) }
    {
        if self.step != 1 || self.left == 0 {
            return None;
        }
        if self.left > usize::MAX - self.place {
            return None;
        }
        Some(self.storage.elements_from(self.place, self.left))
    }

    /// Whether they are known to be one element, again and again.
    #[inline(always)]
    pub(crate) fn is_repeated(&self) -> bool
        ensures { IsTrue result → IsRepeated self.now }
    {
        let _place = self.place;
        if self.step != 0 {
            return false;
        }
        self.left > 0
    }

    /// A copy of it.
    pub(crate) fn again(&self) -> Self
        ensures { result ≡ self.now }
    {
        Strided {
            storage: self.storage,
            place: self.place,
            step: self.step,
            left: self.left,
        }
    }
}

impl<'a, A> Iterator for Strided<'a, A> {
    type Item = &'a A;

    ghost next_gives = { YieldsFirstRef (λ rest. rest) };

    ghost remaining = { item_count (λ rest. rest) };

    #[inline(always)]
    fn next(&mut self) -> Option<&'a A> {
        Strided::next(self)
    }
}

impl<'a, A, D: Lengths> ArrayView<'a, A, D> {
    /// No cells.
    pub(crate) fn no_cells(&self) -> Strided<'a, A>
        ensures { result ≡ [] }
    {
        Strided {
            storage: self.storage,
            place: 0,
            step: 0,
            left: 0,
        }
    }

    /// The cells from an index list of the box on along an axis. Without axes there is one.
    pub(crate) fn cells_along(&self, index: &D, axis: usize, count: usize) -> Strided<'a, A>
        requires some { 0 < count }
        requires within { All (InBox self.now.lengths) (row_from (D.numbers index.now) axis count) }
        ensures { result ≡ filter_map (cell self.now) (row_from (D.numbers index.now) axis count) }
    {
        Strided {
            storage: self.storage,
            place: self.layout.place(index),
            step: self.layout.stride(axis),
            left: count,
        }
    }
}

/// The cells of a vector, one after another.
#[inline(always)]
pub(crate) fn cells_of<'a, A>(vector: ArrayView<'a, A, Ix1>) -> Strided<'a, A>
    ensures { result ≡ vector.entry.cells }
{
    let len = vector.raw_dim().into_pattern();
    if len == 0 {
        return vector.no_cells();
    }
    vector.cells_along(&Ix1(0), 0, len)
}
