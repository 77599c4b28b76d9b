//! Vectors of the items of an iterator that knows its length.

ghost use Rattle.std.specs.Prelude.{◌≡◌, List, IfOk, IsOk, length, map};
ghost use Rattle.std.specs.Iterator.{ActsAs, CallableOnAll, Drains, size};
ghost use Rattle.std.specs.Iterator.Runs.{WholeRun};
ghost use Rattle.ndarray.specs.Collected.{GivesEach};

use std::alloc::{AllocError, Global};
use std::iter::ExactSizeIterator;

/// A vector of the items that an iterator has still to yield, in their order.
///
/// Requires that the iterator may be stepped to its end. The vector's memory is reserved once, before the first step. The error is an
/// allocation failure; no step was taken then. It is never reported if there are no items.
///
/// ```
/// let view = ArrayView::from_shape((2, 2), &[1, 2, 3, 4])?;
/// let cells = to_vec(alloc, view.t().iter())?; // [&1, &3, &2, &4]
/// ```
pub fn to_vec<I: ExactSizeIterator>(alloc: Global, iter: I) -> Result<Vec<I::Item>, AllocError>
where
    I::Item: Drop,
    requires { I.can_next iter }
    ensures ran { IfOk result (λ v. Drains I.next_gives iter v.items) }
    ensures runs { IfOk result (λ v. WholeRun I.next_gives iter (λ p. v.items ≡ p.items)) }
    ensures empty { size (I.remaining iter) ≡ 0 → IsOk result }
{
    let mut items = Vec::with_capacity(alloc, iter.len())?;
    for item in iter {
        items.push_reserved(item);
    }
    Ok(items)
}

/// A vector of what `f` returns for each item that an iterator has still to yield, in their order.
///
/// Requires that the iterator may be stepped to its end, and that `f` may be called on each item. The vector's memory is reserved once,
/// before the first step. The error is an allocation failure; no step was taken then, and `f` was not called. It is never reported if there
/// are no items.
///
/// ```
/// let view = ArrayView::from_shape((2, 2), &[1, 2, 3, 4])?;
/// let tens = to_vec_mapped(alloc, view.t().iter(), |x| 10 * x)?; // [10, 30, 20, 40]
/// ```
pub fn to_vec_mapped<I: ExactSizeIterator, F: FnMut(I::Item) -> B, B: Drop>(
    alloc: Global,
    iter: I,
    f: F,
) -> Result<Vec<B>, AllocError>
    requires can { I.can_next iter }
    requires callable { CallableOnAll I.next_gives F.FnMut iter f }
    ensures ran { IfOk result (λ v. (xs : List I.Item) × (last : F) × Drains I.next_gives iter xs × GivesEach F.FnMut f xs v.items last) }
    ensures runs { IfOk result (λ v. WholeRun I.next_gives iter (λ p. (length v.items ≡ p.len) × ((h : I.Item → B) → ActsAs F.FnMut f h → v.items ≡ map h p.items))) }
    ensures empty { size (I.remaining iter) ≡ 0 → IsOk result }
{
    to_vec(alloc, iter.map(f))
}
