//! Arrays of what is computed at each index list of a box.

ghost use Rattle.std.specs.Prelude.{◌≡◌, IfOk, IsOk, length};
ghost use Rattle.ndarray.specs.linalg.Entries.{HasEntries};
ghost use Rattle.ndarray.specs.Index.{InBox, size};
ghost use Rattle.ndarray.specs.Limits.{IsWithinLimit};

use crate::base::array::Array;
use crate::base::dimension::Dimension;
use crate::base::index_lists::Indices;
use crate::zip::closures::ItemCall;
use crate::zip::collecting::collect_in_either_order;
use std::alloc::{AllocError, Global};

/// What computes an element at each pattern of an index list.
pub(crate) trait Entries<X>: Drop {
    /// The elements.
    type Elem;

    // Whether it may be asked at a pattern.
    ghost can_compute: { Self → X → Type 0 };

    // Whether it may answer this there.
    ghost computes: { Self → X → Self.Elem → Type 0 };

    /// The element at a pattern.
    fn entry(&self, at: X) -> Self::Elem
        requires { can_compute self.now at }
        ensures { computes self.now at result };
}

/// The entries as a call at each pattern.
#[derive(Drop)]
struct EachEntry<C>(C);

impl<X, C: Entries<X>> ItemCall<X> for EachEntry<C> {
    type Out = C::Elem;

    ghost can_call = { λ c x. C.can_compute c.0 x };

    ghost call_gives = { λ c x r d. C.computes c.0 x r × (d ≡ c) };

    fn call(&mut self, at: X) -> C::Elem {
        self.0.entry(at)
    }
}

/// The array of the entries at the index lists of a box.
pub(crate) fn array_of<A: Drop, D: Dimension, C: Entries<D::Pattern, Elem = A>>(
    alloc: Global,
    dim: D,
    entries: C,
) -> Result<Array<A, D>, AllocError>
    requires limit { IsWithinLimit (D.numbers dim) }
    requires can { (x : D.Pattern) → InBox (D.numbers dim) (D.pattern_numbers x) → C.can_compute entries x }
    ensures made { IfOk result (HasEntries D.pattern_numbers (C.computes entries) (D.numbers dim)) }
    ensures axes { IfOk result (λ r. D.has_axes (length r.lengths)) }
    ensures empty { size (D.numbers dim) ≡ 0 → IsOk result }
{
    collect_in_either_order(alloc, Indices::of(dim), EachEntry(entries))
}
