//! A `Vec` whose elements are moved out by place, each at most once.
ghost use Rattle.std.specs.Prelude.{◌≡◌, map, length, Some, None, get_or, slice_set};
ghost use Rattle.ndarray.specs.base.Slots.{IsFilled};
ghost use Rattle.ndarray.specs.places.PartlyMoved.{AllGone};

use crate::places::slots::{Deed, close, open};
use core::slots::Slots;
use std::alloc::Global;
use std::marker::Model;
use std::mem::ManuallyDrop;

/// A clause sees it as one slot for each place, which holds the element that is still there. It has no mark at run time:
/// whether an element is still there its owner knows. It is no `Drop`, so that `close` is not forgotten.
pub struct PartlyMovedVec<A> {
    row: Slots<A>,
    deed: Deed<A, Global>,
    alloc: Global,
}

impl<A> Model for PartlyMovedVec<A> {
    ghost use Rattle.std.specs.Prelude.{◌≡◌, List, Option};
    ghost use Rattle.core.specs.Mem.Slots.{slots_items, slots_filled, slots_ptr, slots_len};
    ghost use Rattle.ndarray.specs.places.PartlyMoved.{remaining_slots};

    ghost Value = { List (Option A) };

    ghost view = { λ e. remaining_slots (slots_items e.row) (slots_filled e.row) };

    ghost invariant = { λ e. (e.deed.ptr ≡ slots_ptr e.row) × (e.deed.out ≡ slots_len e.row) × (e.deed.alloc ≡ e.alloc) };
}

impl<A> PartlyMovedVec<A> {
    /// Every element is there. No memory is taken, and none is given back.
    pub fn of(mut vec: Vec<A>) -> PartlyMovedVec<A>
        ensures { result ≡ map Some vec.items }
    {
        let alloc = *vec.allocator();
        let ptr = vec.as_mut_ptr();
        let len = vec.len();
        let cap = vec.capacity();
        let (row, deed, bits) = open(vec, ptr, len, cap);
        let _forgotten = unsafe { ManuallyDrop::new_unchecked(bits) };
        PartlyMovedVec { row, deed, alloc }
    }

    /// The number of places.
    pub fn len(&self) -> usize
        ensures { result ≡ length self.now }
    {
        self.row.len()
    }

    /// Moves the element at the place out.
    pub fn take(&mut self, place: usize) -> A
        requires { IsFilled self.old place }
        ensures value { get_or self.old place None ≡ Some result }
        ensures slots { self.new ≡ slice_set self.old place None }
    {
        self.row.take(place)
    }

    /// Gives the block back.
    pub fn close(self)
        requires { AllGone self }
    {
        let PartlyMovedVec { row, deed, alloc } = self;
        close(&alloc, row, deed);
    }
}
