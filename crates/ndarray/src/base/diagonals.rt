//! The diagonal of an array. None of these calls copies a cell or allocates.

ghost use Rattle.std.specs.Prelude.{◌≡◌, ◌%◌, ◌^◌, ◌∷◌, [], length, sum};
ghost use Rattle.ndarray.specs.Diagonals.{diagonal_of, shortest};
ghost use Rattle.ndarray.specs.Grid.{IsGrid};

use crate::base::array::{ArrayBase, ArrayView1, ArrayViewMut1};
use crate::base::dimension::{Ix1, Lengths};
use crate::base::layout::Layout;
use crate::base::storage::{Data, DataMut};

impl<S: Data, D: Lengths> ArrayBase<S, D> {
    /// A view of the diagonal: its cell at an index is the array's cell with that index on each axis. It is as long as the shortest axis;
    /// that of an array without axes has the only cell.
    ///
    /// ```
    /// let a = ArrayView::from_shape((2, 3), &[1, 2, 3, 4, 5, 6])?;
    /// a.diag(); // [1, 5]
    /// ```
    pub fn diag(&self) -> ArrayView1<'_, S::Elem>
        ensures value { result ≡ diagonal_of self.now }
        ensures whole { IsGrid result }
    {
        self.view().into_diag()
    }

    /// The diagonal that [`diag`](Self::diag) returns, but made of the array itself: a view to write in stays one.
    ///
    /// ```
    /// let a = ArrayView::from_shape((2, 3), &[1, 2, 3, 4, 5, 6])?;
    /// a.into_diag(); // [1, 5]
    /// ```
    pub fn into_diag(self) -> ArrayBase<S, Ix1>
        ensures value { result ≡ diagonal_of self }
        ensures whole { IsGrid result }
    {
        let _axes = self.ndim();
        let ArrayBase { storage, layout } = self;
        ArrayBase {
            storage,
            layout: layout.diagonal(),
        }
    }
}

impl<S: DataMut, D: Lengths> ArrayBase<S, D> {
    /// The diagonal that [`diag`](Self::diag) returns, as a view to write in.
    ///
    /// ```
    /// // a = [[1, 2, 3], [4, 5, 6]]
    /// a.diag_mut().fill(0); // a = [[0, 2, 3], [4, 0, 6]]
    /// ```
    pub fn diag_mut(&mut self) -> ArrayViewMut1<'_, S::Elem>
        ensures value { result ≡ diagonal_of self.old }
        ensures whole { IsGrid result }
    {
        self.view_mut().into_diag()
    }
}

impl<D: Lengths> Layout<D> {
    /// The layout of the diagonal.
    fn diagonal(&self) -> Layout<Ix1>
        ensures start { result.start ≡ self.now.start }
        ensures dim { result.dim.0 ≡ shortest (D.numbers self.now.dim) ∷ [] }
        ensures strides { result.strides.0 ≡ sum (D.numbers self.now.strides) % 2 ^ 64 ∷ [] }
    {
        Layout {
            start: self.start,
            dim: Ix1(least_length(self.dim.slice())),
            strides: Ix1(wrapping_sum(self.strides.slice())),
        }
    }
}

/// The least of the lengths; 1 if there are none.
fn least_length(lengths: &[usize]) -> usize
    ensures { result ≡ shortest lengths.now }
{
    if lengths.is_empty() {
        return 1;
    }
    let mut least = lengths[0];
    for k in 1..lengths.len() {
        least = least.min(lengths[k]);
    }
    least
}

/// The sum of the strides, modulo 2^64 as these are.
fn wrapping_sum(strides: &[usize]) -> usize
    ensures { result ≡ sum strides.now % 2 ^ 64 }
{
    let mut sum: usize = 0;
    for stride in strides {
        sum = sum.wrapping_add(*stride);
    }
    sum
}
