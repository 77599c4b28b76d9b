//! The chunks along an axis.

ghost use Rattle.std.specs.Prelude.{◌≡◌, ◌+◌, ◌≤◌, ◌<◌, ◌^◌, ◌↔◌, length, take, drop, slice_get, slice_index, ⊤, IfSome, IsTrue};
ghost use Rattle.std.specs.Int.{div_ceil};
ghost use Rattle.std.specs.Iterator.{UpTo, YieldsFirst, YieldsLast, item_count};
ghost use Rattle.std.specs.Iterator.SizeHint.{IsExactHint, IsWithinCount};
ghost use Rattle.ndarray.specs.Subviews.{axis_chunk, axis_chunks};

use crate::base::array::{ArrayBase, ArrayView};
use crate::base::axis::Axis;
use crate::base::dimension::{Ix1, Lengths};
use crate::base::storage::Data;
use crate::order::{Order, Walk};
use std::alloc::AllocError;
use std::iter::ExactSizeIterator;
use std::marker::Model;

/// The iterator over the chunks along an axis, from the first to the last. A contract sees it as the list of those still to come.
///
/// Neither making an iterator nor any of its steps allocates; a step takes constant time.
#[derive(Drop)]
pub struct AxisChunksIter<'a, A, D: Lengths> {
    view: ArrayView<'a, A, D>,
    axis: usize,
    size: usize,
    walk: Walk<Ix1>,
}

impl<'a, A, D: Lengths> Model for AxisChunksIter<'a, A, D> {
    ghost use Rattle.std.specs.Prelude.{List};
    ghost use Rattle.ndarray.specs.Grid.{Grid};

    ghost Value = { List (Grid A) };

    ghost use Rattle.ndarray.specs.base.Chunks.{AreChunkPositions, chunks_along};

    ghost view = { λ s. chunks_along s.view s.axis s.size s.walk };

    ghost invariant = { λ s. AreChunkPositions s.view s.axis s.size s.walk };
}

impl<S: Data, D: Lengths> ArrayBase<S, D> {
    /// Whether `axis_chunks_iter` may be called: the axis is below the number of axes, and the size is at least 1.
    ///
    /// ```
    /// if a.chunk_ok(Axis(0), size) {
    ///     for chunk in a.axis_chunks_iter(Axis(0), size) { .. }
    /// }
    /// ```
    pub fn chunk_ok(&self, axis: Axis, size: usize) -> bool
        ensures { IsTrue result ↔ ((axis.0 < length self.now.lengths) × (1 ≤ size)) }
    {
        axis.0 < self.ndim() && 1 <= size
    }

    /// An iterator over the chunks along an axis, from the first to the last. Each has the length `size` on the axis, but the last one has
    /// what is left.
    ///
    /// Requires an axis below the number of axes and a size of at least 1; check with `chunk_ok`.
    ///
    /// ```
    /// let view = ArrayView::from_shape(5, &[1, 2, 3, 4, 5])?;
    /// for chunk in view.axis_chunks_iter(Axis(0), 2) { .. } // [1, 2], [3, 4], [5]
    /// ```
    pub fn axis_chunks_iter(&self, axis: Axis, size: usize) -> AxisChunksIter<'_, S::Elem, D>
        requires axis { axis.0 < length self.now.lengths }
        requires size { 1 ≤ size }
        ensures items { result ≡ axis_chunks self.now axis.0 size }
        ensures fits { length result < 2 ^ 63 }
    {
        let count = self.len_of(axis).div_ceil(size);
        AxisChunksIter {
            view: self.view(),
            axis: axis.0,
            size,
            walk: Walk::new(Ix1(count), Order::RowMajor),
        }
    }
}

/// The chunk of a number, which is below the number of chunks.
fn chunk<'a, A, D: Lengths>(
    view: &ArrayView<'a, A, D>,
    axis: usize,
    size: usize,
    number: usize,
) -> ArrayView<'a, A, D>
    requires axis { axis < length view.now.lengths }
    requires size { 1 ≤ size }
    requires number { number < div_ceil (slice_index view.now.lengths axis) size }
    ensures { result ≡ axis_chunk view.now axis size number }
{
    let len = view.len_of(Axis(axis));
    let from = number * size;
    view.part(axis, from, size.min(len - from))
}

impl<'a, A, D: Lengths> Iterator for AxisChunksIter<'a, A, D> {
    type Item = ArrayView<'a, A, D>;

    ghost next_gives = { YieldsFirst (λ rest. rest) };

    ghost remaining = { item_count (λ rest. rest) };

    #[inline(always)]
    fn next(&mut self) -> Option<Self::Item> {
        let Some(position) = self.walk.next() else {
            return None;
        };
        Some(chunk(&self.view, self.axis, self.size, position.axis(0)))
    }

    fn size_hint(&self) -> (usize, Option<usize>)
        ensures lower { IsWithinCount result.0 (item_count (λ rest. rest) self.now) }
        ensures upper { IfSome result.1 (UpTo (item_count (λ rest. rest) self.now)) }
        ensures exact { IsExactHint result (length self.now) }
    {
        (self.len(), Some(self.len()))
    }
}

impl<'a, A, D: Lengths> AxisChunksIter<'a, A, D> {
    /// Takes the first `count` chunks still to come.
    fn take_first(&mut self, count: usize) -> Self
        requires { count ≤ length self.old }
        ensures first { result ≡ take count self.old }
        ensures rest { self.new ≡ drop count self.old }
    {
        AxisChunksIter {
            view: self.view.again(),
            axis: self.axis,
            size: self.size,
            walk: self.walk.take_first(count),
        }
    }

    /// Splits the iterator, in constant time: into the first `index` chunks still to come, and the rest.
    ///
    /// Requires that the index is at most the number of chunks still to come; compare with `len`.
    ///
    /// ```
    /// // of [1, 2], [3, 4] and [5] the first two, and the last
    /// let (first, last) = a.axis_chunks_iter(Axis(0), 2).split_at(2);
    /// ```
    pub fn split_at(self, index: usize) -> (Self, Self)
        requires { index ≤ length self }
        ensures first { result.0 ≡ take index self.entry }
        ensures second { result.1 ≡ drop index self.entry }
    {
        let mut rest = self;
        let first = rest.take_first(index);
        (first, rest)
    }

    /// Leaves out the next `n` chunks and takes the one after them, in constant time; `None` if there is none.
    ///
    /// ```
    /// let mut chunks = a.axis_chunks_iter(Axis(0), 2); // [1, 2], [3, 4], [5]
    /// chunks.nth(1); // [3, 4]
    /// chunks.next(); // [5]
    /// ```
    pub fn nth(&mut self, n: usize) -> Option<ArrayView<'a, A, D>>
        ensures taken { result ≡ slice_get self.old n }
        ensures rest { self.new ≡ drop (n + 1) self.old }
    {
        let left_out = n.min(self.len());
        let _ = self.take_first(left_out);
        self.next()
    }
}

impl<'a, A, D: Lengths> DoubleEndedIterator for AxisChunksIter<'a, A, D> {
    ghost next_back_gives = { YieldsLast (λ rest. rest) };

    fn next_back(&mut self) -> Option<ArrayView<'a, A, D>> {
        let Some(position) = self.walk.next_back() else {
            return None;
        };
        Some(chunk(&self.view, self.axis, self.size, position.axis(0)))
    }
}

impl<'a, A, D: Lengths> Clone for AxisChunksIter<'a, A, D> {
    ghost is_clone = { λ s r. r ≡ s };

    ghost is_infallible = { λ _. ⊤ };

    fn clone(&self) -> Result<AxisChunksIter<'a, A, D>, AllocError> {
        Ok(AxisChunksIter {
            view: self.view.again(),
            axis: self.axis,
            size: self.size,
            walk: self.walk.clone()?,
        })
    }
}

impl<'a, A, D: Lengths> ExactSizeIterator for AxisChunksIter<'a, A, D> {
    fn len(&self) -> usize {
        self.walk.len()
    }
}
