//! The whole chunks of an array, to write in.

ghost use Rattle.std.specs.Prelude.{◌≡◌};
ghost use Rattle.ndarray.specs.Subviews.{ArePositive, exact_chunks_of};

use crate::base::array::{ArrayBase, ArrayViewMut};
use crate::base::dimension::{Dimension, Lengths};
use crate::base::into_dimension::IntoDimension;
use crate::base::storage::DataMut;
use crate::subviews::pieces_mut::{EqualPiecesIterMut, PiecesMut};
use crate::subviews::positions::window_positions;
use std::marker::PhantomData;

/// The whole chunks of an array, to write in, one at each position: a producer, and an iterator by `into_iter`, in row order of the
/// positions. No two of them share a cell.
pub type ExactChunksMut<'a, A, D> = PiecesMut<'a, A, D, D>;

/// The iterator over the whole chunks of an array, to write in, in row order of their positions, or in the order that was asked for by
/// `run`.
pub type ExactChunksIterMut<'a, A, D> = EqualPiecesIterMut<'a, A, D, D>;

impl<S: DataMut, D: Dimension> ArrayBase<S, D> {
    /// The whole chunks of an array, side by side, to write in: on each axis their number is the array's length divided by the chunk's,
    /// rounded down, and what is left of the axis is in none. No two of them share a cell.
    ///
    /// Requires as many chunk lengths as there are axes, each at least 1; check with `chunks_ok`.
    ///
    /// ```
    /// for mut chunk in array.exact_chunks_mut((2, 2)) {
    ///     if let Some(cell) = chunk.get_mut((0, 0)) {
    ///         *cell = 7;
    ///     }
    /// }
    /// ```
    pub fn exact_chunks_mut<E: IntoDimension<Dim = D>>(
        &mut self,
        chunk: E,
    ) -> ExactChunksMut<'_, S::Elem, D>
        requires { ArePositive self.old.lengths (E.written_numbers chunk) }
        ensures { result ≡ exact_chunks_of self.old (E.written_numbers chunk) }
    {
        pieces(self.view_mut(), chunk.into_dimension())
    }
}

/// The whole chunks of these lengths, by their positions.
fn pieces<'a, A, D: Lengths>(view: ArrayViewMut<'a, A, D>, chunk: D) -> ExactChunksMut<'a, A, D>
    requires { ArePositive view.lengths (D.numbers chunk) }
    ensures { result ≡ exact_chunks_of view.entry (D.numbers chunk) }
{
    let ArrayBase { storage, layout } = view;
    PiecesMut {
        region: storage,
        positions: window_positions(&layout, &chunk, &chunk),
        dim: chunk,
        strides: layout.strides,
        lifetime: PhantomData,
    }
}
