//! The block of a `Vec` as a row of places, and its way back to the allocator.
ghost use Rattle.std.specs.Prelude.{◌≡◌, ℕ, ◌^◌, ◌<◌, ◌≤◌, true, false, replicate};
ghost use Rattle.std.specs.Vec.{vec_ptr, vec_len, vec_capacity, vec_allocator};
ghost use Rattle.core.specs.Mem.Slots.{slots_items, slots_filled, slots_ptr, slots_len};
ghost use Rattle.std_alloc.specs.Vec.Detached.{spare};
ghost use base.Fml.{ftrue};

use core::slots::Slots;
use std::alloc::Allocator;
use std::marker::{Model, Move, Owns, PhantomData};
use std::mem::{align_of, size_of};

/// The bits of a value whose memory has gone to another owner.
pub struct ForgottenBits<V> {
    _value: V,
}

impl<V> Owns for ForgottenBits<V> {
    ghost Value = { Unit {0} };

    ghost shr_at = { λ _ _ _. ftrue };
}

impl<V> Move for ForgottenBits<V> {
    ghost own_val = { λ _ _. ftrue };
}

/// What stays of a block while its first `out` places are a row: the room after them, and the right to free it.
pub struct Deed<T, A: Allocator> {
    ptr: *mut T,
    cap: usize,
    by: PhantomData<A>,
    ghost alloc: { A },
    ghost out: { ℕ },
    ghost ok: { (out ≤ cap) × (cap < 2 ^ 63) },
}

impl<T, A: Allocator> Model for Deed<T, A> {
    ghost also_owns = { λ d. spare (A.dealloc_token d.alloc) T.row d.ptr d.out d.cap };
}

/// The elements of a `Vec` as a row of full places, with the rest of its block. Its bits are left over.
pub(crate) fn open<T, A: Allocator>(
    vec: Vec<T, A>,
    ptr: *mut T,
    len: usize,
    cap: usize,
) -> (Slots<T>, Deed<T, A>, ForgottenBits<Vec<T, A>>)
    requires { (ptr ≡ vec_ptr vec) × (len ≡ vec_len vec) × (cap ≡ vec_capacity vec) }
    ensures row { (slots_len result.0 ≡ len) × (slots_items result.0 ≡ vec.items) × (slots_filled result.0 ≡ replicate len true) }
    ensures deed { (result.1.ptr ≡ slots_ptr result.0) × (result.1.out ≡ slots_len result.0) × (result.1.alloc ≡ vec_allocator vec) }
{
    (
        unsafe { Slots::from_raw_parts(ptr, len) },
        Deed {
            ptr,
            cap,
            by: PhantomData,
        },
        ForgottenBits { _value: vec },
    )
}

/// Frees the block of a row that has given up all its values.
pub(crate) fn close<T, A: Allocator>(alloc: &A, row: Slots<T>, deed: Deed<T, A>)
    requires whole { (deed.ptr ≡ slots_ptr row) × (deed.out ≡ slots_len row) × (deed.alloc ≡ alloc.now) }
    requires empty { slots_filled row ≡ replicate (slots_len row) false }
{
    let _parts = unsafe { row.into_raw_parts() };
    let Deed { ptr, cap, by: _ } = deed;
    if cap != 0 {
        unsafe {
            alloc.deallocate(ptr as *mut u8, cap * size_of::<T>(), align_of::<T>());
        }
    }
}
