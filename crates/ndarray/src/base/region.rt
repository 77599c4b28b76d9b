//! Elements at some of the places of a slice, behind one lifetime: the storage of views to write in.
//!
//! A region is split by places, and its parts may be used side by side. Raw pointers stay inside `of`, `into_slice`, `split`, `get_mut` and
//! `SharedRegion::slice`, and `ArrayBase::reborrow` next to them.

ghost use Rattle.std.specs.Prelude.{◌≡◌, ◌≢◌, ℕ, Bool, List, Option, Some, None, map, take, drop};
ghost use Rattle.std.specs.Borrow.{sem};
ghost use base.Fml.{GName};
ghost use Rattle.ndarray.specs.base.Slots.{held_at, slots_in, slots_outside, IsFilled, IsRun};
ghost use Rattle.ndarray.specs.base.Scattered.{region_owns, region_lent, shared_region_owns, shared_region_lent};

use crate::base::array::{ArrayBase, ArrayViewMut};
use crate::base::dimension::Lengths;
use crate::base::storage::{Data, DataMut, OwnedRepr, ViewRepr};
use crate::base::view_mut::RegionParts;
use std::marker::{Model, PhantomData};
use std::mem::replace;
use std::slice;

/// A lifetime as a type.
pub struct Life<'a> {
    marker: PhantomData<&'a mut ()>,
}

/// The right to read and write, for as long as `M` lives, the elements at some places of a slice.
/// Places are indices of that slice, and stay so in each part.
#[derive(Drop)]
pub struct RegionRepr<M, A> {
    // Where the slice begins. It has no places here; behind the `&` of `shared` it has the region's.
    pub(super) shared: SharedRegion<A>,
    pub(super) marker: PhantomData<M>,
    // The borrow of the elements.
    ghost name: { GName },
    // The borrow of what was borrowed again, where the region came of that.
    ghost reborrow_name: { GName },
    // The element at each place; `None` at one that is not held.
    ghost slots: { List (Option A) },
}

impl<M, A> Model for RegionRepr<M, A> {
    ghost also_owns = { λ r. region_owns M.row.lives A.row r.shared.ptr r.name r.slots };

    ghost also_shares = { λ r _ κ. region_lent M.row.lives A.row r.shared.ptr r.slots κ };
}

impl<'a, A> RegionRepr<Life<'a>, A> {
    ghost use Rattle.ndarray.specs.base.Follows.{follows_slice, follows_run};

    /// Every place of the slice.
    pub(crate) fn of(s: &'a mut [A]) -> RegionRepr<Life<'a>, A>
        ensures* writes_back { sem 𝓛 (follows_slice A.row s.entry result.name) }
        ensures value { result.slots ≡ map Some s.old }
    {
        RegionRepr {
            shared: SharedRegion {
                ptr: s.as_mut_ptr(),
                marker: PhantomData,
            },
            marker: PhantomData,
        }
    }

    /// The `len` elements from `from` on, for as long as the slice was borrowed.
    pub(crate) fn into_slice(self, from: usize, len: usize) -> &'a mut [A]
        requires { IsRun self.slots from len }
        ensures* writes_back { sem 𝓛 (follows_run A.row self.entry.slots self.entry.name from result.ghost_name) }
        ensures value { take len (drop from self.entry.slots) ≡ map Some result.now }
    {
        let RegionRepr {
            shared: SharedRegion { ptr, marker: _ },
            marker: _,
        } = self;
        unsafe { slice::from_raw_parts_mut(ptr.add(from), len) }
    }

    /// The element at one place, for as long as the slice was borrowed.
    pub(crate) fn into_mut(self, place: usize) -> &'a mut A
        requires { IsFilled self.slots place }
        ensures value { held_at self.entry.slots place ≡ Some result.now }
    {
        let run = self.into_slice(place, 1);
        &mut run[0]
    }

    /// The element at one place, for as long as the slice was borrowed; the place is then no longer
    /// held.
    pub(crate) fn take(&mut self, place: usize) -> &'a mut A
        requires { IsFilled self.old.slots place }
        ensures value { held_at self.old.slots place ≡ Some result.now }
        ensures gone { held_at self.new.slots place ≡ None }
        ensures rest { (p : ℕ) → p ≢ place → held_at self.new.slots p ≡ held_at self.old.slots p }
    {
        let whole = replace(self, RegionRepr::of(&mut []));
        let (one, rest) = whole.split(&place);
        *self = rest;
        one.into_mut(place)
    }
}

impl<A, M> RegionRepr<M, A> {
    ghost use Rattle.ndarray.specs.base.Follows.{follows_parts, lends_place};

    /// The places of the mask, and the others. A caller picks the mask from what `_by` says.
    pub(crate) fn split<B>(self, _by: &B) -> (RegionRepr<M, A>, RegionRepr<M, A>)
        ghost mask: { List Bool }
        ensures* writes_back { sem 𝓛 (follows_parts A.row mask self.slots self.name result.0.name result.1.name) }
        ensures first { result.0.slots ≡ slots_in mask self.slots }
        ensures second { result.1.slots ≡ slots_outside mask self.slots }
    {
        let Self {
            shared: SharedRegion { ptr, marker: _ },
            marker: _,
        } = self;
        (
            RegionRepr {
                shared: SharedRegion {
                    ptr,
                    marker: PhantomData,
                },
                marker: PhantomData,
            },
            RegionRepr {
                shared: SharedRegion {
                    ptr,
                    marker: PhantomData,
                },
                marker: PhantomData,
            },
        )
    }

    /// The element at one place.
    pub(crate) fn get_mut(&mut self, place: usize) -> &mut A
        requires { IsFilled self.old.slots place }
        ensures* writes_back { sem 𝓛 (lends_place M.row A.row self.entry place result) }
        ensures value { held_at self.old.slots place ≡ Some result.now }
    {
        unsafe { &mut *self.shared.ptr.add(place) }
    }

    /// The element at one place, to read.
    pub(crate) fn get(&self, place: usize) -> &A
        requires { IsFilled self.now.slots place }
        ensures { held_at self.now.slots place ≡ Some result.now }
    {
        self.shared().get(place)
    }

    /// The same places, to read.
    pub(crate) fn shared(&self) -> &SharedRegion<A>
        ensures { result.now.slots ≡ self.now.slots }
    {
        &self.shared
    }
}

impl<M, A> Data for RegionRepr<M, A> {
    ghost use Rattle.std.specs.Prelude.{IsTrue, ⊤};
    ghost use Rattle.std.specs.Option.{is_some};
    ghost use Rattle.ndarray.specs.base.Slots.{held_at};

    type Elem = A;

    ghost at = { λ r. held_at r.slots };

    ghost apart = { λ _. ⊤ };

    ghost owns = { λ _. ⊥ };

    fn element(&self, place: usize) -> &A {
        self.get(place)
    }

    fn seen(&self) -> ViewRepr<'_, A> {
        ViewRepr::Part(self.shared())
    }

    fn try_into_owned(self) -> Result<OwnedRepr<A>, Self> {
        Err(self)
    }
}

impl<M, A> DataMut for RegionRepr<M, A> {
    ghost use Rattle.std.specs.Prelude.{IsTrue, slice_set};
    ghost use Rattle.std.specs.Option.{is_some};
    ghost use Rattle.ndarray.specs.base.Slots.{held_at};
    ghost use Rattle.ndarray.specs.base.Follows.{with_slots, lends_place};
    ghost use Rattle.ndarray.specs.base.Laws.{slot_set-here, slot_set-elsewhere};

    ghost with_element = { λ r k w. with_slots r (slice_set r.slots k (Some w)) };

    fn element_mut(&mut self, place: usize) -> &mut A
        requires { IsTrue (is_some (held_at self.old.slots place)) }
        ensures* writes_back { sem 𝓛 (lends_place M.row A.row self.entry place result) }
        ensures value { held_at self.old.slots place ≡ Some result.now }
    {
        self.get_mut(place)
    }

    fn view_mut_of<D: Lengths>(array: &mut ArrayBase<Self, D>) -> ArrayViewMut<'_, A, D> {
        let (layout, storage) = array.reborrow();
        let layout = layout.copied();
        ArrayBase { storage, layout }
    }

    fn region_parts<D: Lengths>(array: &mut ArrayBase<Self, D>) -> RegionParts<'_, A, D> {
        let (layout, region) = array.reborrow();
        let layout = layout.copied();
        RegionParts { region, layout }
    }

    ghost written_here = { λ r k w h. slot_set-here r.slots k w h };

    ghost written_elsewhere = { λ r k j w h. slot_set-elsewhere r.slots k j w h };

    ghost is_apart = { λ _. tt };
}

/// What a `&` to a region's places reaches. Each region has one as a part, and there it has no
/// places.
#[derive(Drop)]
pub struct SharedRegion<A> {
    pub(super) ptr: *mut A,
    pub(super) marker: PhantomData<A>,
    // The element at each place; `None` at one that is not held.
    ghost slots: { List (Option A) },
}

impl<A> Model for SharedRegion<A> {
    ghost also_owns = { λ r. shared_region_owns A.row r.ptr r.slots };

    ghost also_shares = { λ r _ κ. shared_region_lent A.row r.ptr r.slots κ };
}

impl<A> SharedRegion<A> {
    /// The element at one place.
    pub(crate) fn get(&self, place: usize) -> &A
        requires { IsFilled self.now.slots place }
        ensures { held_at self.now.slots place ≡ Some result.now }
    {
        let run = self.slice(place, 1);
        &run[0]
    }

    /// The `len` elements from `from` on.
    pub(crate) fn slice(&self, from: usize, len: usize) -> &[A]
        requires { IsRun self.now.slots from len }
        ensures { take len (drop from self.now.slots) ≡ map Some result.now }
    {
        unsafe { slice::from_raw_parts(self.ptr.add(from), len) }
    }
}
