//! Iterators over the cells of an array, in row order. The iterators over its subviews are exported here too.

ghost use Rattle.std.specs.Prelude.{◌≡◌, ◌<◌, ◌^◌, length};
ghost use Rattle.ndarray.specs.Orders.{HasInOrder};
ghost use Rattle.ndarray.specs.declared.base.shape.Order.TheVariants.{RowMajor};

pub mod elements;
pub mod elements_mut;
pub mod indexed;
pub mod indexed_mut;
pub mod into_iter;
pub(crate) mod row_elements;
pub(crate) mod runs;
mod updates;
pub mod vectors;

use crate::base::array::{ArrayBase, ArrayView};
use crate::base::dimension::Lengths;
pub use crate::base::index_lists::Indices;
use crate::base::storage::Data;
pub use crate::iter::elements::{ElementsBase, Iter};
pub use crate::iter::elements_mut::{ElementsBaseMut, IterMut};
pub use crate::iter::indexed::IndexedIter;
pub use crate::iter::indexed_mut::IndexedIterMut;
pub use crate::iter::into_iter::IntoIter;
pub use crate::iter::vectors::{to_vec, to_vec_mapped};
pub use crate::subviews::axis::AxisIter;
pub use crate::subviews::axis_chunks::AxisChunksIter;
pub use crate::subviews::axis_chunks_mut::AxisChunksIterMut;
pub use crate::subviews::axis_mut::AxisIterMut;
pub use crate::subviews::exact_chunks::{ExactChunks, ExactChunksIter};
pub use crate::subviews::exact_chunks_mut::{ExactChunksIterMut, ExactChunksMut};
pub use crate::subviews::lanes::{Lanes, LanesIter};
pub use crate::subviews::lanes_mut::{LanesIterMut, LanesMut};
pub use crate::subviews::windows::{AxisWindows, Windows, WindowsIter};

impl<S: Data, D: Lengths> ArrayBase<S, D> {
    /// The cells in row order, whatever the strides.
    ///
    /// ```
    /// let view = ArrayView::from_shape((2, 3), &[1, 2, 3, 4, 5, 6])?;
    /// // 1, 4, 2, 5, 3, 6
    /// for x in view.t().iter() { .. }
    /// ```
    pub fn iter(&self) -> Iter<'_, S::Elem, D>
        ensures row_order { HasInOrder RowMajor self.now result }
        ensures cells { result ≡ self.now.cells }
        ensures fits { length result < 2 ^ 63 }
    {
        ElementsBase::new(self.view())
    }
}

impl<'b, S: Data, D: Lengths> IntoIterator for &'b ArrayBase<S, D>
where
    S::Elem: 'b,
{
    ghost use Rattle.std.specs.Prelude.{◌<◌, ◌^◌, length};

    type Item = &'b S::Elem;

    type IntoIter = Iter<'b, S::Elem, D>;

    ghost into_iter_gives = { λ a it. (it ≡ a.now.cells) × (length it < 2 ^ 63) };

    fn into_iter(self) -> Iter<'b, S::Elem, D> {
        self.iter()
    }
}

impl<'a, A, D: Lengths> IntoIterator for ArrayView<'a, A, D> {
    ghost use Rattle.std.specs.Prelude.{◌<◌, ◌^◌, length};

    type Item = &'a A;

    type IntoIter = Iter<'a, A, D>;

    ghost into_iter_gives = { λ a it. (it ≡ a.cells) × (length it < 2 ^ 63) };

    fn into_iter(self) -> Iter<'a, A, D> {
        ElementsBase::new(self)
    }
}
