//! The whole chunks of an array.

ghost use Rattle.std.specs.Prelude.{◌≡◌, ◌↔◌, length, IsTrue};
ghost use Rattle.ndarray.specs.Subviews.{ArePositive, exact_chunks_of};

use crate::base::array::ArrayBase;
use crate::base::dimension::Dimension;
use crate::base::into_dimension::IntoDimension;
use crate::base::storage::Data;
use crate::subviews::pieces::{Pieces, PiecesIter};
use crate::subviews::positions::are_positive;

/// The whole chunks of an array, one at each position: a producer, and an iterator by `into_iter`, in row order of the positions.
pub type ExactChunks<'a, A, D> = Pieces<'a, A, D, D>;

/// The iterator over the whole chunks of an array, in row order of their positions, or in the order that was asked for by `run`.
pub type ExactChunksIter<'a, A, D> = PiecesIter<'a, A, D, D>;

impl<S: Data, D: Dimension> ArrayBase<S, D> {
    /// Whether `exact_chunks` may be called: there are as many chunk lengths as axes, and each is at least 1.
    ///
    /// ```
    /// if a.chunks_ok(&Ix2(2, 2)) {
    ///     for chunk in a.exact_chunks((2, 2)) { .. }
    /// }
    /// ```
    pub fn chunks_ok(&self, chunk: &D) -> bool
        ensures { IsTrue result ↔ ArePositive self.now.lengths (D.numbers chunk.now) }
    {
        are_positive(&self.layout.dim, chunk)
    }

    /// The whole chunks of an array, side by side: on each axis their number is the array's length divided by the chunk's, rounded down,
    /// and what is left of the axis is in none.
    ///
    /// Requires as many chunk lengths as there are axes, each at least 1; check with `chunks_ok`.
    ///
    /// ```
    /// // of the rows 1..=5, 6..=10 and 11..=15: [[1, 2], [6, 7]] and [[3, 4], [8, 9]]
    /// for chunk in view.exact_chunks((2, 2)) { .. }
    /// ```
    pub fn exact_chunks<E: IntoDimension<Dim = D>>(&self, chunk: E) -> ExactChunks<'_, S::Elem, D>
        requires { ArePositive self.now.lengths (E.written_numbers chunk) }
        ensures { result ≡ exact_chunks_of self.now (E.written_numbers chunk) }
    {
        let chunk = chunk.into_dimension();
        let steps = chunk.copied();
        self.pieces(chunk, &steps)
    }
}
