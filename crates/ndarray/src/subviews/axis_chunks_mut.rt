//! The chunks along an axis, to write in.

ghost use Rattle.std.specs.Prelude.{◌≡◌, ◌<◌, ◌≤◌, ◌^◌, length, slice_index};
ghost use Rattle.std.specs.Int.{div_ceil};
ghost use Rattle.ndarray.specs.Subviews.{axis_chunks};
ghost use Rattle.ndarray.specs.base.Chunks.{chunk_layout};
ghost use Rattle.ndarray.specs.base.CellLayouts.{cell_layout};

use crate::base::array::{ArrayBase, ArrayViewMut};
use crate::base::axis::Axis;
use crate::base::dimension::{Ix1, Lengths};
use crate::base::layout::Layout;
use crate::base::storage::DataMut;
use crate::order::{Order, Walk};
use crate::subviews::piece_layouts::{PieceLayouts, PieceLayoutsFromEnds, PiecesIterMut};
use std::marker::{Model, PhantomData};

/// Where those chunks along an axis lie that are still to come.
#[derive(Drop)]
pub struct ChunkLayouts<D: Lengths> {
    layout: Layout<D>,
    axis: usize,
    size: usize,
    walk: Walk<Ix1>,
}

impl<D: Lengths> Model for ChunkLayouts<D> {
    ghost use Rattle.std.specs.Prelude.{List};
    ghost use Rattle.ndarray.specs.base.CellLayouts.{CellLayout};

    ghost Value = { List CellLayout };

    ghost use Rattle.ndarray.specs.base.Chunks.{ChunkLayoutsStand, chunk_layouts};

    ghost view = { λ s. chunk_layouts (D.numbers s.layout.dim) s.layout.start (D.numbers s.layout.strides) s.axis s.size s.walk };

    ghost invariant = { λ s. ChunkLayoutsStand (D.numbers s.layout.dim) (D.numbers s.layout.strides) s.axis s.size s.walk };
}

/// Where the chunk of a number lies, which is below the number of chunks.
fn chunk<D: Lengths>(layout: &Layout<D>, axis: usize, size: usize, number: usize) -> Layout<D>
    requires as_many { length (D.numbers layout.now.strides) ≡ length (D.numbers layout.now.dim) }
    requires axis { axis < length (D.numbers layout.now.dim) }
    requires fits { slice_index (D.numbers layout.now.dim) axis < 2 ^ 63 }
    requires size { 1 ≤ size }
    requires number { number < div_ceil (slice_index (D.numbers layout.now.dim) axis) size }
    ensures { cell_layout (D.numbers result.dim) result.start (D.numbers result.strides) ≡ chunk_layout (D.numbers layout.now.dim) layout.now.start (D.numbers layout.now.strides) axis size number }
{
    let len = layout.dim.axis(axis);
    let from = number * size;
    let mut chunk = layout.copied();
    chunk.cut(axis, from, size.min(len - from), 1);
    chunk
}

impl<D: Lengths> PieceLayouts for ChunkLayouts<D> {
    type Dim = D;

    ghost layouts = { λ s. s };

    #[inline(always)]
    fn next(&mut self) -> Option<Layout<D>> {
        let Some(position) = self.walk.next() else {
            return None;
        };
        Some(chunk(&self.layout, self.axis, self.size, position.axis(0)))
    }

    fn len(&self) -> usize {
        self.walk.len()
    }
}

impl<D: Lengths> PieceLayoutsFromEnds for ChunkLayouts<D> {
    fn next_back(&mut self) -> Option<Layout<D>> {
        let Some(position) = self.walk.next_back() else {
            return None;
        };
        Some(chunk(&self.layout, self.axis, self.size, position.axis(0)))
    }

    fn take_first(&mut self, count: usize) -> Self {
        ChunkLayouts {
            layout: self.layout.copied(),
            axis: self.axis,
            size: self.size,
            walk: self.walk.take_first(count),
        }
    }
}

/// The iterator over the chunks along an axis, from the first to the last, to write in. No two of them share a cell. A contract sees it as
/// the list of those still to come.
///
/// Neither making an iterator nor any of its steps allocates; a step takes constant time.
pub type AxisChunksIterMut<'a, A, D> = PiecesIterMut<'a, A, ChunkLayouts<D>>;

impl<S: DataMut, D: Lengths> ArrayBase<S, D> {
    /// An iterator over the chunks along an axis, from the first to the last, to write in. Each has the length `size` on the axis, but the
    /// last one has what is left. No two of them share a cell.
    ///
    /// Requires an axis below the number of axes and a size of at least 1; check with `chunk_ok`.
    ///
    /// ```
    /// for mut chunk in array.axis_chunks_iter_mut(Axis(0), 2) {
    ///     if let Some(cell) = chunk.get_mut(0) {
    ///         *cell = 7;
    ///     }
    /// }
    /// ```
    pub fn axis_chunks_iter_mut(
        &mut self,
        axis: Axis,
        size: usize,
    ) -> AxisChunksIterMut<'_, S::Elem, D>
        requires axis { axis.0 < length self.old.lengths }
        requires size { 1 ≤ size }
        ensures items { result ≡ axis_chunks self.old axis.0 size }
        ensures fits { length result < 2 ^ 63 }
    {
        chunks(self.view_mut(), axis, size)
    }
}

/// The chunks of a size along an axis.
fn chunks<'a, A, D: Lengths>(
    view: ArrayViewMut<'a, A, D>,
    axis: Axis,
    size: usize,
) -> AxisChunksIterMut<'a, A, D>
    requires axis { axis.0 < length view.lengths }
    requires size { 1 ≤ size }
    ensures items { result ≡ axis_chunks view.entry axis.0 size }
    ensures fits { length result < 2 ^ 63 }
{
    let count = view.len_of(axis).div_ceil(size);
    let ArrayBase { storage, layout } = view;
    PiecesIterMut {
        region: storage,
        layouts: ChunkLayouts {
            layout,
            axis: axis.0,
            size,
            walk: Walk::new(Ix1(count), Order::RowMajor),
        },
        lifetime: PhantomData,
    }
}
