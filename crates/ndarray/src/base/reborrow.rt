//! A view to write in is borrowed again: its elements for a shorter time, with its layout.

ghost use Rattle.std.specs.Prelude.{◌≡◌, ⊤};
ghost use Rattle.std.specs.Borrow.{sem};
ghost use Rattle.ndarray.specs.base.Reborrow.{follows_reborrow};
ghost use Rattle.ndarray.specs.base.Places.{grid_at, Reaches};
ghost use Rattle.ndarray.specs.base.Slots.{held_at};

use crate::base::array::ArrayBase;
use crate::base::dimension::Lengths;
use crate::base::layout::Layout;
use crate::base::region::{Life, RegionRepr, SharedRegion};
use std::marker::PhantomData;

impl<A, D: Lengths, M> ArrayBase<RegionRepr<M, A>, D> {
    /// How the cells lie, and the right to read and write them.
    ///
    /// Once both borrows have ended, the view has the lengths that it had.
    pub(crate) fn reborrow(&mut self) -> (&Layout<D>, RegionRepr<Life<'_>, A>)
        ensures* writes_back { sem 𝓛 (follows_reborrow M.row A.row D.row D.Lengths self.entry result.1.reborrow_name) }
        ensures reaches { Reaches ⊤ (held_at result.1.slots) (D.numbers result.0.now.dim) result.0.now.start (D.numbers result.0.now.strides) }
        ensures same { grid_at (held_at result.1.slots) (D.numbers result.0.now.dim) result.0.now.start (D.numbers result.0.now.strides) ≡ self.old }
    {
        let layout = &raw const self.layout;
        (
            unsafe { &*layout },
            RegionRepr {
                shared: SharedRegion {
                    ptr: self.storage.shared.ptr,
                    marker: PhantomData,
                },
                marker: PhantomData,
            },
        )
    }
}
