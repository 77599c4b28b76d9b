//! Operations on arrays, cell by cell.
//!
//! `+ - * / % & | ^ << >>` between arrays whose shapes are broadcast together, and between an array and a scalar, compute the elements'
//! operation on each pair of cells. They write the result into the cells of an operand that they own, or allocate it by the allocator of an
//! operand that is an `Array`, and return `Err` if an allocation fails. The assigning forms, as `+=`, allocate nothing. The head of the
//! crate says what they require.

ghost use Rattle.std.specs.Prelude.{◌≡◌, ◌↔◌, IsTrue, MatchOption};
ghost use Rattle.ndarray.specs.Broadcast.{BroadcastTogether, broadcast_lengths};

mod add;
pub(crate) mod assign_operators;
mod bitand;
mod bitor;
mod bitxor;
mod cell_calls;
mod computing;
mod div;
mod left_scalars;
mod mul;
pub(crate) mod operations;
pub(crate) mod range_tests;
mod rem;
mod shl;
mod shr;
mod sub;
mod try_zip_assign;
mod unary;

use crate::base::array::ArrayBase;
use crate::base::broadcast::co_broadcast;
use crate::base::dim_max::DimMax;
use crate::base::dimension::Lengths;
use crate::base::storage::Data;
pub use crate::ops::left_scalars::scalar_left;

impl<S: Data, D: Lengths> ArrayBase<S, D> {
    /// Whether the shapes of this array and another broadcast together, as the operators require: aligned at the last axes, each two
    /// lengths that meet are equal or one of them is 1, and the nonzero lengths of the result multiply to at most `isize::MAX`.
    ///
    /// ```
    /// if a.broadcast_ok(&b) {
    ///     let sums = (&a + &b)?;
    /// }
    /// ```
    pub fn broadcast_ok<S2: Data, E: Lengths>(&self, rhs: &ArrayBase<S2, E>) -> bool
    where
        D: DimMax<E>,
        ensures { IsTrue result ↔ BroadcastTogether self.now.lengths rhs.now.lengths }
    {
        self.broadcast_dim(rhs).is_some()
    }

    /// The lengths of this array and another broadcast together, which are those of the operators' results; `None` exactly if
    /// `broadcast_ok` returns `false`.
    ///
    /// ```
    /// // tests each pair of cells before the sums are computed
    /// let Some(dim) = a.broadcast_dim(&b) else { .. };
    /// let (Some(left), Some(right)) = (a.broadcast(dim), b.broadcast(dim)) else { .. };
    /// if Zip::from(left).and(right).all(|x, y| x.checked_add(*y).is_some()) {
    ///     let sums = (&a + &b)?;
    /// }
    /// ```
    pub fn broadcast_dim<S2: Data, E: Lengths>(
        &self,
        rhs: &ArrayBase<S2, E>,
    ) -> Option<<D as DimMax<E>>::Output>
    where
        D: DimMax<E>,
        ensures { MatchOption result (BroadcastTogether self.now.lengths rhs.now.lengths → ⊥) (λ dim. (D.Output.numbers dim ≡ broadcast_lengths self.now.lengths rhs.now.lengths) × BroadcastTogether self.now.lengths rhs.now.lengths) }
    {
        let lengths: Option<<D as DimMax<E>>::Output> = co_broadcast(
            &self.raw_dim(),
            &rhs.raw_dim(),
        );
        lengths
    }
}
