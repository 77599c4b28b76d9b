//! The lengths of two shapes broadcast together.

ghost use Rattle.std.specs.Prelude.{◌≡◌, ◌≢◌, ◌⊎◌, ◌↔◌, IsTrue, length, max, MatchOption, slice_index, ◌<◌, ◌≤◌};
ghost use Rattle.ndarray.specs.Limits.{IsWithinLimit};
ghost use Rattle.ndarray.specs.Broadcast.{BroadcastTogether, broadcast_lengths, meeting_length, with_ones_before};

use crate::base::dimension::Lengths;
use crate::base::layout::same_numbers;

/// The lengths of two shapes broadcast together, the left one within the limit; `None` if they do not broadcast, or the result is
/// beyond the limit.
pub(crate) fn co_broadcast<D: Lengths, E: Lengths, O: Lengths>(left: &D, right: &E) -> Option<O>
    requires axes { O.has_axes (max (length (D.numbers left.now)) (length (E.numbers right.now))) }
    requires limit { IsWithinLimit (D.numbers left.now) }
    ensures { MatchOption result (BroadcastTogether (D.numbers left.now) (E.numbers right.now) → ⊥) (λ d. (O.numbers d ≡ broadcast_lengths (D.numbers left.now) (E.numbers right.now)) × BroadcastTogether (D.numbers left.now) (E.numbers right.now)) }
{
    if are_equal(left, right) {
        Some(same_numbers(left))
    } else {
        met_lengths(left, right)
    }
}

/// Whether two lists of numbers are equal.
pub(crate) fn are_equal<D: Lengths, E: Lengths>(left: &D, right: &E) -> bool
    ensures { IsTrue result ↔ (D.numbers left.now ≡ E.numbers right.now) }
{
    let ndim = left.ndim();
    if right.ndim() != ndim {
        return false;
    }
    for k in 0..ndim {
        if left.axis(k) != right.axis(k) {
            return false;
        }
    }
    true
}

/// The same for any two shapes, axis by axis.
fn met_lengths<D: Lengths, E: Lengths, O: Lengths>(left: &D, right: &E) -> Option<O>
    requires { O.has_axes (max (length (D.numbers left.now)) (length (E.numbers right.now))) }
    ensures { MatchOption result (BroadcastTogether (D.numbers left.now) (E.numbers right.now) → ⊥) (λ d. (O.numbers d ≡ broadcast_lengths (D.numbers left.now) (E.numbers right.now)) × BroadcastTogether (D.numbers left.now) (E.numbers right.now)) }
{
    let ndim = left.ndim().max(right.ndim());
    let mut lengths = O::zeros(ndim);
    for k in 0..ndim {
        let met = meeting(length_below(left, ndim, k), length_below(right, ndim, k));
        match met {
            Some(length) => lengths.set_axis(k, length),
            None => return None,
        }
    }
    if !lengths.size_ok() {
        return None;
    }
    Some(lengths)
}

/// The length on an axis of as many as `ndim`, aligned at the last axes: 1 if there is none.
fn length_below<D: Lengths>(dim: &D, ndim: usize, axis: usize) -> usize
    requires below { axis < ndim }
    requires fewer { length (D.numbers dim.now) ≤ ndim }
    ensures { result ≡ slice_index (with_ones_before ndim (D.numbers dim.now)) axis }
{
    let missing = ndim - dim.ndim();
    if axis < missing {
        1
    } else {
        dim.axis(axis - missing)
    }
}

/// The length where two lengths meet: the one that is not 1. `None` if they differ and neither is 1.
fn meeting(n: usize, m: usize) -> Option<usize>
    ensures { MatchOption result ((n ≢ m) × (n ≢ 1) × (m ≢ 1)) (λ length. (length ≡ meeting_length (n, m)) × ((n ≡ m) ⊎ ((n ≡ 1) ⊎ (m ≡ 1)))) }
{
    if n == m || m == 1 {
        return Some(n);
    }
    if n == 1 { Some(m) } else { None }
}
