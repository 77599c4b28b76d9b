//! The storages of arrays.

ghost use Rattle.std.specs.Prelude.{◌≡◌, ◌≢◌, ◌↔◌, ◌<◌, ◌+◌, ℕ, List, length, slice_get, Some, Option, IsTrue, IsOk, IfOk, IfErr, ⊤};
ghost use Rattle.std.specs.Option.{is_some};
ghost use Rattle.std.specs.Borrow.{sem};
ghost use Rattle.ndarray.specs.Grid.{IsGrid};
ghost use Rattle.ndarray.specs.base.Storage.{owned_at, seen_at};

use crate::base::array::{ArrayBase, ArrayViewMut};
use crate::base::dimension::Lengths;
use crate::base::region::SharedRegion;
use crate::base::view_mut::RegionParts;
use std::alloc::AllocError;

/// The storage of an array: elements at places, some of which may hold none.
pub trait Data: Drop {
    /// The element type.
    type Elem;

    // The element at a place, where the storage has one.
    ghost at: { Self → ℕ → Option Self.Elem };

    // Holds where no two index lists of an array over this storage may reach one element, as in owned
    // arrays and writing views.
    ghost apart: { Self → Type 0 };

    // Holds where the elements are the storage's own.
    ghost owns: { Self → Type 0 };

    /// The element at a place. Requires that there is one.
    fn element(&self, place: usize) -> &Self::Elem
        requires { IsTrue (is_some (at self.now place)) }
        ensures { at self.now place ≡ Some result.now };

    /// The same elements at the same places, to read.
    fn seen(&self) -> ViewRepr<'_, Self::Elem>
        ensures { (p : ℕ) → seen_at result p ≡ at self.now p };

    /// The elements as an owned storage, without a copy, exactly if this storage owns them; else this storage as it is.
    fn try_into_owned(self) -> Result<OwnedRepr<Self::Elem>, Self>
        ensures owned { IsOk result ↔ owns self }
        ensures same { IfOk result (λ v. (p : ℕ) → owned_at v p ≡ at self p) }
        ensures apart { IfOk result (λ _. apart self) }
        ensures back { IfErr result (λ s. s ≡ self) };
}

/// A storage whose elements may be written to.
pub trait DataMut: Data {
    ghost use Rattle.std.specs.Borrow.{Lends};
    ghost use Rattle.ndarray.specs.Writes.{keeps_lengths};
    ghost use Rattle.ndarray.specs.base.RegionParts.{array_in, borrow_name_of, HasElements};

    // The same with another element at a place.
    ghost with_element: { Self → ℕ → Self.Elem → Self };

    /// The element at a place, to write to. Requires that there is one.
    fn element_mut(&mut self, place: usize) -> &mut Self::Elem
        requires { IsTrue (is_some (Self.at self.old place)) }
        ensures* writes_back { sem 𝓛 (Lends Self.row Self.Elem.row self.entry result (with_element self.entry.now place)) }
        ensures value { Self.at self.old place ≡ Some result.now };

    /// The cells of an array, to write in.
    fn view_mut_of<D: Lengths>(array: &mut ArrayBase<Self, D>) -> ArrayViewMut<'_, Self::Elem, D>
        ensures same { result ≡ array.old }
        ensures whole { IsGrid result };

    /// The right to read and write the elements of an array, and how its cells lie among them.
    ///
    /// Once it has ended, the array has the lengths that it had, and as many cells.
    fn region_parts<D: Lengths>(array: &mut ArrayBase<Self, D>) -> RegionParts<'_, Self::Elem, D>
        ensures* writes_back { sem 𝓛 (keeps_lengths Self.row D.row Self.Elem.row Self.Data D.Lengths array.entry (borrow_name_of result)) }
        ensures reaches { HasElements D.numbers result }
        ensures same { array_in D.numbers result ≡ array.old };

    // What is written at a place is the element there.
    ghost written_here: { (s : Self) (k : ℕ) (w : Self.Elem) → IsTrue (is_some (Self.at s k)) → Self.at (with_element s k w) k ≡ Some w };

    // All other places keep their elements.
    ghost written_elsewhere: { (s : Self) (k j : ℕ) (w : Self.Elem) → j ≢ k → Self.at (with_element s k w) j ≡ Self.at s j };

    // No two index lists reach one element.
    ghost is_apart: { (s : Self) → Self.apart s };
}

/// A storage that can be made of a vector, whose elements it then owns.
pub trait DataOwned: Data {
    /// The storage whose element at each place is the vector's at that index.
    fn new(items: Vec<Self::Elem>) -> Self
        ensures { (p : ℕ) → Self.at result p ≡ slice_get items.items p };
}

/// The storage of a view to read: the elements of a slice, or those that a view to write in holds.
pub enum ViewRepr<'a, A> {
    /// The elements of a slice.
    Slice(&'a [A]),
    /// The elements that a view to write in holds.
    Part(&'a SharedRegion<A>),
}

impl<'a, A> Clone for ViewRepr<'a, A> {
    ghost is_clone = { λ s r. r ≡ s };

    ghost is_infallible = { λ _. ⊤ };

    fn clone(&self) -> Result<Self, AllocError> {
        Ok(*self)
    }
}

impl<'a, A> Copy for ViewRepr<'a, A> {}

impl<'a, A> ViewRepr<'a, A> {
    /// The elements of a slice, each at its index.
    pub(crate) fn new(slice: &'a [A]) -> Self
        ensures { (p : ℕ) → seen_at result p ≡ slice_get slice.now p }
    {
        ViewRepr::Slice(slice)
    }

    /// The element at a place that has one.
    pub(crate) fn get(&self, place: usize) -> &'a A
        requires { IsTrue (is_some (seen_at self.now place)) }
        ensures { seen_at self.now place ≡ Some result.now }
    {
        match *self {
            ViewRepr::Slice(slice) => &slice[place],
            ViewRepr::Part(reading) => reading.get(place),
        }
    }

    /// The `len` elements from a place on, each of which is there.
    pub(crate) fn elements_from(&self, from: usize, len: usize) -> &'a [A]
        requires some { 0 < len }
        requires there { (k : ℕ) → k < len → IsTrue (is_some (seen_at self.now (from + k))) }
        ensures many { length result.now ≡ len }
        ensures each { (k : ℕ) → k < len → slice_get result.now k ≡ seen_at self.now (from + k) }
    {
        match *self {
            ViewRepr::Slice(slice) => {
                let rest = &slice[from..];
                &rest[..len]
            }
            ViewRepr::Part(reading) => reading.slice(from, len),
        }
    }
}

impl<'a, A> Data for ViewRepr<'a, A> {
    type Elem = A;

    ghost at = { seen_at };

    ghost apart = { λ _. ⊥ };

    ghost owns = { λ _. ⊥ };

    fn element(&self, place: usize) -> &A {
        self.get(place)
    }

    fn seen(&self) -> ViewRepr<'_, A> {
        *self
    }

    fn try_into_owned(self) -> Result<OwnedRepr<A>, Self> {
        Err(self)
    }
}

/// The storage of an array that owns its elements.
#[derive(Drop)]
pub struct OwnedRepr<A> {
    pub(crate) items: Vec<A>,
}

impl<A: Drop> Data for OwnedRepr<A> {
    type Elem = A;

    ghost at = { λ s. slice_get s.items.items };

    ghost apart = { λ _. ⊤ };

    ghost owns = { λ _. ⊤ };

    fn element(&self, place: usize) -> &A {
        &self.items[place]
    }

    fn seen(&self) -> ViewRepr<'_, A> {
        ViewRepr::new(self.items.as_slice())
    }

    fn try_into_owned(self) -> Result<OwnedRepr<A>, Self> {
        Ok(self)
    }
}

impl<A: Drop> DataMut for OwnedRepr<A> {
    ghost use Rattle.std.specs.Vec.{with_item};
    ghost use Rattle.ndarray.specs.base.Laws.{slice_set-here, slice_set-elsewhere};

    ghost with_element = { λ s k w. record s { items = with_item s.items k w } };

    fn element_mut(&mut self, place: usize) -> &mut A {
        &mut self.items[place]
    }

    fn view_mut_of<D: Lengths>(array: &mut ArrayBase<Self, D>) -> ArrayViewMut<'_, A, D> {
        array.parts_mut().into_view()
    }

    fn region_parts<D: Lengths>(array: &mut ArrayBase<Self, D>) -> RegionParts<'_, A, D> {
        array.owned_region_parts()
    }

    ghost written_here = { λ s k w h. slice_set-here s.items.items k w h };

    ghost written_elsewhere = { λ s k j w h. slice_set-elsewhere s.items.items k j w h };

    ghost is_apart = { λ _. tt };
}

impl<A: Drop> DataOwned for OwnedRepr<A> {
    fn new(items: Vec<A>) -> Self
        ensures { (p : ℕ) → owned_at result p ≡ slice_get items.items p }
    {
        OwnedRepr { items }
    }
}

/// The storage of a view to read, or of an array that owns its elements.
#[derive(Drop)]
pub enum CowRepr<'a, A> {
    /// Borrowed elements.
    View(ViewRepr<'a, A>),
    /// Owned elements.
    Owned(OwnedRepr<A>),
}

impl<'a, A: Drop> Data for CowRepr<'a, A> {
    ghost use Rattle.ndarray.specs.base.Storage.{cow_at, cow_owns};

    type Elem = A;

    ghost at = { cow_at };

    ghost apart = { cow_owns };

    ghost owns = { cow_owns };

    fn element(&self, place: usize) -> &A {
        match self {
            CowRepr::View(view) => view.get(place),
            CowRepr::Owned(owned) => owned.element(place),
        }
    }

    fn seen(&self) -> ViewRepr<'_, A> {
        match self {
            CowRepr::View(view) => *view,
            CowRepr::Owned(owned) => owned.seen(),
        }
    }

    fn try_into_owned(self) -> Result<OwnedRepr<A>, Self> {
        match self {
            CowRepr::View(view) => Err(CowRepr::View(view)),
            CowRepr::Owned(owned) => Ok(owned),
        }
    }
}

impl<'a, A: Drop> DataOwned for CowRepr<'a, A> {
    ghost use Rattle.ndarray.specs.base.Storage.{cow_at};

    fn new(items: Vec<A>) -> Self
        ensures { (p : ℕ) → cow_at result p ≡ slice_get items.items p }
    {
        CowRepr::Owned(OwnedRepr { items })
    }
}
