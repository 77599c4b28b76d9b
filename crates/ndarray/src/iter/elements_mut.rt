//! The iterator over cells to write to.

ghost use Rattle.std.specs.Prelude.{◌≡◌, ◌<◌, ◌^◌, length, IfSome};
ghost use Rattle.std.specs.Iterator.{YieldsFirstMut, YieldsLastMut, UpTo, item_count};
ghost use Rattle.std.specs.Iterator.SizeHint.{IsExactHint, IsWithinCount};
ghost use Rattle.std.specs.Borrow.{sem};
ghost use Rattle.ndarray.specs.Grid.{IsGrid};
ghost use Rattle.ndarray.specs.Orders.{HasInOrder, cells_in};
ghost use Rattle.ndarray.specs.Writes.{keeps_lengths};
ghost use Rattle.ndarray.specs.declared.base.shape.Order.TheVariants.{RowMajor};

use crate::base::array::{ArrayBase, ArrayViewMut};
use crate::base::dimension::{Ix1, Lengths};
use crate::base::region::{Life, RegionRepr};
use crate::base::storage::DataMut;
use crate::base::view_mut::RegionParts;
use crate::order::Order;
use crate::places::place_rows::StridedPlaces;
use std::iter::ExactSizeIterator;
use std::marker::{Model, PhantomData};

/// The iterator over the cells of an array in row order, to write to. A contract sees it as the list of the cells still to come, and the
/// name of the borrow of the array.
///
/// Neither making an iterator nor any of its steps allocates.
#[derive(Drop)]
pub struct ElementsBaseMut<'a, A, D: Lengths> {
    region: RegionRepr<Life<'a>, A>,
    places: StridedPlaces<D>,
    // the lifetime of what it yields, so that `A: 'a` follows from the type
    lifetime: PhantomData<&'a mut A>,
}

impl<'a, A, D: Lengths> Model for ElementsBaseMut<'a, A, D> {
    ghost use Rattle.std.specs.Prelude.{filter_map};
    ghost use Rattle.ndarray.specs.Writes.{BorrowedItems};
    ghost use Rattle.ndarray.specs.base.Slots.{held_at};
    ghost use Rattle.ndarray.specs.places.ElementPlaces.{AreDistinctPlaces};

    ghost Value = { BorrowedItems A };

    ghost view = { λ s. record { items = filter_map (held_at s.region.slots) s.places; borrow_name = s.region.reborrow_name } };

    ghost invariant = { λ s. AreDistinctPlaces (held_at s.region.slots) s.places };
}

impl<'a, A, D: Lengths> ElementsBaseMut<'a, A, D> {
    /// An iterator over the cells of a view in row order, to write to, whatever the strides.
    ///
    /// ```
    /// for cell in ElementsBaseMut::new(array.view_mut()) {
    ///     *cell += 1;
    /// }
    /// ```
    pub fn new(v: ArrayViewMut<'a, A, D>) -> Self
        ensures row_order { HasInOrder RowMajor v.entry result.items }
        ensures cells { result.items ≡ v.entry.cells }
        ensures fits { length result.items < 2 ^ 63 }
    {
        ElementsBaseMut::in_order(v, Order::RowMajor)
    }

    /// The cells of a view in an order.
    pub(crate) fn in_order(v: ArrayViewMut<'a, A, D>, order: Order) -> Self
        ensures described { HasInOrder order v.entry result.items }
        ensures cells { result.items ≡ cells_in order v.entry }
        ensures fits { length result.items < 2 ^ 63 }
        ensures whole { IsGrid v.entry }
    {
        let ArrayBase { storage, layout } = v;
        ElementsBaseMut {
            region: storage,
            places: StridedPlaces::new(layout, order),
            lifetime: PhantomData,
        }
    }
}

/// The iterator over the cells of an array in row order, to write to.
pub type IterMut<'a, A, D> = ElementsBaseMut<'a, A, D>;

impl<S: DataMut, D: Lengths> ArrayBase<S, D> {
    /// An iterator over the cells in row order, to write to, whatever the strides. The array keeps its lengths.
    ///
    /// ```
    /// for cell in array.iter_mut() {
    ///     *cell += 1;
    /// }
    /// ```
    pub fn iter_mut(&mut self) -> IterMut<'_, S::Elem, D>
        ensures* writes_back { sem 𝓛 (keeps_lengths S.row D.row S.Elem.row S.Data D.Lengths self.entry result.borrow_name) }
        ensures row_order { HasInOrder RowMajor self.old result.items }
        ensures cells { result.items ≡ self.old.cells }
        ensures fits { length result.items < 2 ^ 63 }
    {
        let RegionParts { region, layout } = self.region_parts();
        ElementsBaseMut {
            region,
            places: StridedPlaces::new(layout, Order::RowMajor),
            lifetime: PhantomData,
        }
    }
}

impl<'a, A, D: Lengths> Iterator for ElementsBaseMut<'a, A, D> {
    type Item = &'a mut A;

    ghost next_gives = { YieldsFirstMut (λ s. s.items) };

    ghost remaining = { item_count (λ s. s.items) };

    #[inline(always)]
    fn next(&mut self) -> Option<&'a mut A> {
        let Some(place) = self.places.next() else {
            return None;
        };
        Some(self.region.take(place))
    }

    fn size_hint(&self) -> (usize, Option<usize>)
        ensures lower { IsWithinCount result.0 (item_count (λ s. s.items) self.now) }
        ensures upper { IfSome result.1 (UpTo (item_count (λ s. s.items) self.now)) }
        ensures exact { IsExactHint result (length self.now.items) }
    {
        (self.len(), Some(self.len()))
    }
}

impl<'a, A> DoubleEndedIterator for ElementsBaseMut<'a, A, Ix1> {
    ghost next_back_gives = { YieldsLastMut (λ s. s.items) };

    fn next_back(&mut self) -> Option<&'a mut A> {
        let Some(place) = self.places.next_back() else {
            return None;
        };
        Some(self.region.take(place))
    }
}

impl<'a, A, D: Lengths> ExactSizeIterator for ElementsBaseMut<'a, A, D> {
    fn len(&self) -> usize {
        self.places.len()
    }
}

impl<'a, S: DataMut, D: Lengths> IntoIterator for &'a mut ArrayBase<S, D>
where
    S::Elem: 'a,
{
    type Item = &'a mut S::Elem;

    type IntoIter = IterMut<'a, S::Elem, D>;

    ghost use Rattle.std.specs.Prelude.{◌<◌, ◌^◌, length};
    ghost use Rattle.std.specs.Borrow.{sem};
    ghost use Rattle.ndarray.specs.Writes.{keeps_lengths};

    ghost into_iter_gives = { λ a it. (it.items ≡ a.now.cells) × (length it.items < 2 ^ 63) };

    fn into_iter(self) -> IterMut<'a, S::Elem, D>
        ensures* writes_back { sem 𝓛 (keeps_lengths S.row D.row S.Elem.row S.Data D.Lengths self.entry result.borrow_name) }
        ensures gives { (result.items ≡ self.old.cells) × (length result.items < 2 ^ 63) }
    {
        self.iter_mut()
    }
}

impl<'a, A: 'a, D: Lengths> IntoIterator for ArrayViewMut<'a, A, D> {
    type Item = &'a mut A;

    type IntoIter = IterMut<'a, A, D>;

    ghost use Rattle.std.specs.Prelude.{◌<◌, ◌^◌, length};

    ghost into_iter_gives = { λ v it. (it.items ≡ v.cells) × (length it.items < 2 ^ 63) };

    fn into_iter(self) -> IterMut<'a, A, D> {
        ElementsBaseMut::new(self)
    }
}
