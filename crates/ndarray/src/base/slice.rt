//! Slices of an axis.

ghost use Rattle.std.specs.Prelude.{◌≡◌, ℕ, ◌+◌, ◌*◌, ◌%◌, ◌^◌, ◌<◌, ◌↔◌, IsTrue, pos, Some, None};
ghost use Rattle.std.specs.Int.{cast_unsigned, w64};
ghost use Rattle.ndarray.specs.Slices.{IsSliceOf, index_from_start, slice_end, slice_index_at, slice_length, slice_start};

use std::ops::{Range, RangeFrom, RangeFull, RangeTo};

/// Every `step`-th index of an axis, from `start` up to the one before `end`; a negative step takes them from the one before `end` down to
/// `start`.
///
/// On an axis of length n, a negative `start` or `end` counts from n, an `end` of `None` stands for n, and an `end` below `start` for
/// `start`.
#[derive(Clone, Copy, PartialEq, Eq, Hash, Debug)]
pub struct Slice {
    /// The first index of the range.
    pub start: isize,
    /// The index behind the last one of the range; it is not taken.
    pub end: Option<isize>,
    /// How far apart the indices are; a negative step takes them from the end of the range to its start.
    pub step: isize,
}

impl Slice {
    /// The slice with a start, an end and a step. Calls that take a slice require that it is within the axis and that its step is not 0.
    ///
    /// ```
    /// Slice::new(0, None, 2); // every second index
    /// Slice::new(-3, None, 1); // the last three
    /// Slice::new(0, None, -1); // all, from the last to the first
    /// ```
    pub fn new(start: isize, end: Option<isize>, step: isize) -> Slice
        ensures { result ≡ record { start = start; end = end; step = step } }
    {
        Slice { start, end, step }
    }

    /// Whether the slice is within an axis of this length, and its step is not 0.
    pub(crate) fn is_within(&self, len: usize) -> bool
        requires { len < 2 ^ 63 }
        ensures { IsTrue result ↔ IsSliceOf len self.now }
    {
        let (start, end) = self.ends(len);
        0 <= start && end <= len as isize && self.step != 0
    }

    /// The start and the end on an axis of this length.
    fn ends(&self, len: usize) -> (isize, isize)
        requires { len < 2 ^ 63 }
        ensures start { result.0 ≡ slice_start len self.now }
        ensures end { result.1 ≡ slice_end len self.now }
    {
        let start = index_from_start(len, self.start);
        let end = match self.end {
            Some(end) => index_from_start(len, end),
            None => len as isize,
        };
        (start, start.max(end))
    }

    /// The first index that the slice takes of an axis of this length, and how many it takes.
    pub(crate) fn extent(&self, len: usize) -> (usize, usize)
        requires fits { len < 2 ^ 63 }
        requires within { IsSliceOf len self.now }
        ensures len { result.1 ≡ slice_length len self.now }
        ensures indices { (i : ℕ) → i < result.1 → (result.0 + i * cast_unsigned w64 self.now.step) % 2 ^ 64 ≡ slice_index_at len self.now i }
    {
        let (start, end) = self.ends(len);
        let taken = ((end - start) as usize).div_ceil(self.step.unsigned_abs());
        let from = if self.step > 0 {
            start
        } else {
            end.wrapping_sub(1)
        };
        (from.cast_unsigned(), taken)
    }
}

/// Each index of a range.
///
/// ```
/// Slice::from(1..3); // the indices 1 and 2
/// ```
impl From<Range<isize>> for Slice {
    ghost from_gives = { λ range s. s ≡ record { start = range.start; end = Some range.end; step = pos 1 } };

    fn from(range: Range<isize>) -> Slice {
        Slice::new(range.start, Some(range.end), 1)
    }
}

/// Each index from a start on.
///
/// ```
/// Slice::from(1..); // all indices but 0
/// ```
impl From<RangeFrom<isize>> for Slice {
    ghost from_gives = { λ range s. s ≡ record { start = range.start; end = None; step = pos 1 } };

    fn from(range: RangeFrom<isize>) -> Slice {
        Slice::new(range.start, None, 1)
    }
}

/// Each index below an end.
///
/// ```
/// Slice::from(..2); // the indices 0 and 1
/// ```
impl From<RangeTo<isize>> for Slice {
    ghost from_gives = { λ range s. s ≡ record { start = pos 0; end = Some range.end; step = pos 1 } };

    fn from(range: RangeTo<isize>) -> Slice {
        Slice::new(0, Some(range.end), 1)
    }
}

/// Each index.
///
/// ```
/// Slice::from(..); // all indices
/// ```
impl From<RangeFull> for Slice {
    ghost from_gives = { λ _ s. s ≡ record { start = pos 0; end = None; step = pos 1 } };

    fn from(_range: RangeFull) -> Slice {
        Slice::new(0, None, 1)
    }
}

/// On an axis of length `len`, a negative number counts from it.
fn index_from_start(len: usize, number: isize) -> isize
    requires { len < 2 ^ 63 }
    ensures { result ≡ index_from_start len number }
{
    if number < 0 {
        len as isize + number
    } else {
        number
    }
}
