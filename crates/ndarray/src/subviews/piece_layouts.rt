//! Sub-views to write in that are still to come, taken out of one region one after
//! another.

ghost use Rattle.std.specs.Prelude.{◌≡◌, ◌≤◌, ◌++◌, List, [], ◌∷◌, length, take, drop, MatchOption, IfSome, ⊤};
ghost use Rattle.std.specs.Iterator.{UpTo, YieldsFirst, YieldsLast, item_count};
ghost use Rattle.std.specs.Iterator.SizeHint.{IsExactHint, IsWithinCount};
ghost use Rattle.ndarray.specs.base.CellLayouts.{CellLayout, cell_layout};
ghost use Rattle.ndarray.specs.base.Masks.{Shares, SharesBoth, grids_at};
ghost use Rattle.ndarray.specs.base.Places.{Reaches, grid_at};
ghost use Rattle.ndarray.specs.base.Slots.{held_at};

use crate::base::array::{ArrayBase, ArrayViewMut};
use crate::base::dimension::Lengths;
use crate::base::layout::Layout;
use crate::base::region::{Life, RegionRepr};
use std::iter::ExactSizeIterator;
use std::marker::{Model, PhantomData};
use std::mem::replace;

/// Where sub-views lie that are still to come.
pub trait PieceLayouts: Drop {
    /// The dimension of each.
    type Dim: Lengths;

    // Where they lie, in the order in which they come.
    ghost layouts: { Self → List CellLayout };

    /// Where the next one lies.
    fn next(&mut self) -> Option<Layout<Self::Dim>>
        ensures { MatchOption result ((layouts self.old ≡ []) × (layouts self.new ≡ [])) (λ l. layouts self.old ≡ cell_layout (Self.Dim.numbers l.dim) l.start (Self.Dim.numbers l.strides) ∷ layouts self.new) };

    /// How many are still to come.
    fn len(&self) -> usize
        ensures { result ≡ length (layouts self.now) };
}

/// Where sub-views lie that may come from either end.
pub trait PieceLayoutsFromEnds: PieceLayouts {
    /// Where the last one lies.
    fn next_back(&mut self) -> Option<Layout<Self::Dim>>
        ensures { MatchOption result ((Self.layouts self.old ≡ []) × (Self.layouts self.new ≡ [])) (λ l. Self.layouts self.old ≡ Self.layouts self.new ++ cell_layout (Self.Dim.numbers l.dim) l.start (Self.Dim.numbers l.strides) ∷ []) };

    /// Takes the first `count` of them.
    fn take_first(&mut self, count: usize) -> Self
        requires { count ≤ length (Self.layouts self.old) }
        ensures first { Self.layouts result ≡ take count (Self.layouts self.old) }
        ensures rest { Self.layouts self.new ≡ drop count (Self.layouts self.old) };
}

/// Sub-views to write in that are still to come. The region holds the places of all of them.
#[derive(Drop)]
pub struct PiecesIterMut<'a, A, T: PieceLayouts> {
    pub(super) region: RegionRepr<Life<'a>, A>,
    pub(super) layouts: T,
    // the lifetime of what it yields, so that `A: 'a` follows from the type
    pub(super) lifetime: PhantomData<&'a mut A>,
}

impl<'a, A, T: PieceLayouts> Model for PiecesIterMut<'a, A, T> {
    ghost use Rattle.std.specs.Prelude.{List};
    ghost use Rattle.ndarray.specs.Grid.{Grid};

    ghost Value = { List (Grid A) };

    ghost use Rattle.ndarray.specs.base.Masks.{Shares, grids_at};
    ghost use Rattle.ndarray.specs.base.Slots.{held_at};

    ghost view = { λ s. grids_at (held_at s.region.slots) (T.layouts s.layouts) };

    ghost invariant = { λ s. Shares (held_at s.region.slots) (T.layouts s.layouts) };
}

/// Takes the array that lies at `layout` out of a region: sub-views apart from it stay as they are.
#[inline(always)]
fn take_array<'a, A: 'a, D: Lengths>(
    region: &mut RegionRepr<Life<'a>, A>,
    layout: Layout<D>,
) -> ArrayViewMut<'a, A, D>
    requires { Reaches ⊤ (held_at region.old.slots) (D.numbers layout.dim) layout.start (D.numbers layout.strides) }
    ensures value { result ≡ grid_at (held_at region.old.slots) (D.numbers layout.dim) layout.start (D.numbers layout.strides) }
    ensures others { (rest : List CellLayout) → SharesBoth (held_at region.old.slots) (cell_layout (D.numbers layout.dim) layout.start (D.numbers layout.strides) ∷ []) rest → Shares (held_at region.new.slots) rest × (grids_at (held_at region.new.slots) rest ≡ grids_at (held_at region.old.slots) rest) }
{
    let whole = replace(region, RegionRepr::of(&mut []));
    let (storage, others) = whole.split(&layout);
    *region = others;
    ArrayBase { storage, layout }
}

impl<'a, A, T: PieceLayouts> Iterator for PiecesIterMut<'a, A, T> {
    type Item = ArrayViewMut<'a, A, T::Dim>;

    ghost next_gives = { YieldsFirst (λ rest. rest) };

    ghost remaining = { item_count (λ rest. rest) };

    #[inline(always)]
    fn next(&mut self) -> Option<ArrayViewMut<'a, A, T::Dim>> {
        let Some(layout) = self.layouts.next() else {
            return None;
        };
        Some(take_array(&mut self.region, layout))
    }

    fn size_hint(&self) -> (usize, Option<usize>)
        ensures lower { IsWithinCount result.0 (item_count (λ rest. rest) self.now) }
        ensures upper { IfSome result.1 (UpTo (item_count (λ rest. rest) self.now)) }
        ensures exact { IsExactHint result (length self.now) }
    {
        (self.len(), Some(self.len()))
    }
}

impl<'a, A: 'a, T: PieceLayouts> PiecesIterMut<'a, A, T> {
    /// Takes the sub-views that lie there out of a region: others, apart from them, stay as they are.
    #[inline(always)]
    pub(super) fn taken_from(region: &mut RegionRepr<Life<'a>, A>, layouts: T) -> Self
        requires { Shares (held_at region.old.slots) (T.layouts layouts) }
        ensures value { result ≡ grids_at (held_at region.old.slots) (T.layouts layouts) }
        ensures others { (rest : List CellLayout) → SharesBoth (held_at region.old.slots) (T.layouts layouts) rest → Shares (held_at region.new.slots) rest × (grids_at (held_at region.new.slots) rest ≡ grids_at (held_at region.old.slots) rest) }
    {
        let whole = replace(region, RegionRepr::of(&mut []));
        let (here, others) = whole.split(&layouts);
        *region = others;
        PiecesIterMut {
            region: here,
            layouts,
            lifetime: PhantomData,
        }
    }
}

impl<'a, A, T: PieceLayouts> ExactSizeIterator for PiecesIterMut<'a, A, T> {
    fn len(&self) -> usize {
        self.layouts.len()
    }
}

impl<'a, A, T: PieceLayoutsFromEnds> DoubleEndedIterator for PiecesIterMut<'a, A, T> {
    ghost next_back_gives = { YieldsLast (λ rest. rest) };

    fn next_back(&mut self) -> Option<ArrayViewMut<'a, A, T::Dim>> {
        let Some(layout) = self.layouts.next_back() else {
            return None;
        };
        Some(take_array(&mut self.region, layout))
    }
}

impl<'a, A, T: PieceLayoutsFromEnds> PiecesIterMut<'a, A, T> {
    /// Splits the iterator, in constant time: into the first `index` sub-views still to come, and the rest. No cell is in both.
    ///
    /// Requires that the index is at most the number of sub-views still to come; compare with `len`.
    ///
    /// ```
    /// // of three columns the first, and the other two
    /// let (first, others) = a.axis_iter_mut(Axis(1)).split_at(1);
    /// ```
    pub fn split_at(self, index: usize) -> (Self, Self)
        requires { index ≤ length self }
        ensures first { result.0 ≡ take index self.entry }
        ensures second { result.1 ≡ drop index self.entry }
    {
        let PiecesIterMut {
            region,
            mut layouts,
            lifetime: _,
        } = self;
        let first = layouts.take_first(index);
        let (here, others) = region.split(&first);
        (
            PiecesIterMut {
                region: here,
                layouts: first,
                lifetime: PhantomData,
            },
            PiecesIterMut {
                region: others,
                layouts,
                lifetime: PhantomData,
            },
        )
    }
}
