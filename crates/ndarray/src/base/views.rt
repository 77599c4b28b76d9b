//! Views by index equations. None of these calls copies a cell or allocates.

ghost use Rattle.std.specs.Prelude.{◌≡◌, ◌<◌, length, ◌↔◌, IsSome, IfSome};
ghost use Rattle.ndarray.specs.Broadcast.{BroadcastsTo};
ghost use Rattle.ndarray.specs.Grid.{IsGrid};
ghost use Rattle.ndarray.specs.Limits.{IsWithinLimit};
ghost use Rattle.ndarray.specs.Views.{transpose_of, axis_inversion, broadcast_to};

use crate::base::array::{ArrayBase, ArrayView};
use crate::base::axis::Axis;
use crate::base::broadcast::are_equal;
use crate::base::dimension::{Dimension, Lengths};
use crate::base::into_dimension::IntoDimension;
use crate::base::layout::{Layout, broadcast_strides, reversed};
use crate::base::storage::Data;

impl<S: Data, D: Lengths> ArrayBase<S, D> {
    /// The transpose: a view with the axes from the last to the first, whose cell at an index list is the array's cell at the reversed one.
    ///
    /// ```
    /// let a = ArrayView::from_shape((2, 3), &[1, 2, 3, 4, 5, 6])?;
    /// a.t(); // [[1, 4], [2, 5], [3, 6]]
    /// ```
    pub fn t(&self) -> ArrayView<'_, S::Elem, D>
        ensures value { result ≡ transpose_of self.now }
        ensures axes { D.has_axes (length result.lengths) }
        ensures whole { IsGrid result }
    {
        self.view().reversed_axes()
    }

    /// The transpose that [`t`](Self::t) returns, but made of the array itself: a view to write in stays one.
    ///
    /// ```
    /// let a = ArrayView::from_shape((2, 3), &[1, 2, 3, 4, 5, 6])?;
    /// a.reversed_axes(); // [[1, 4], [2, 5], [3, 6]]
    /// ```
    pub fn reversed_axes(self) -> ArrayBase<S, D>
        ensures value { result ≡ transpose_of self }
        ensures axes { D.has_axes (length result.lengths) }
        ensures whole { IsGrid result }
    {
        let _axes = self.ndim();
        let ArrayBase { storage, layout } = self;
        ArrayBase {
            storage,
            layout: Layout {
                start: layout.start,
                dim: reversed(&layout.dim),
                strides: reversed(&layout.strides),
            },
        }
    }

    /// Reverses an axis: the cell at an index of it is then the one that was at length - 1 - index.
    ///
    /// Requires an axis below the number of axes; check with `axis_ok`.
    ///
    /// ```
    /// let mut a = ArrayView::from_shape((2, 3), &[1, 2, 3, 4, 5, 6])?;
    /// a.invert_axis(Axis(1)); // [[3, 2, 1], [6, 5, 4]]
    /// ```
    pub fn invert_axis(&mut self, axis: Axis)
        requires { axis.0 < length self.old.lengths }
        ensures value { self.new ≡ axis_inversion self.old axis.0 }
        ensures whole { IsGrid self.new }
    {
        let len = self.layout.dim.axis(axis.0);
        // All its places, from the last one back: `usize::MAX` is the bits of -1.
        self.layout
            .cut(axis.0, len.wrapping_sub(1), len, usize::MAX);
    }

    /// A view of the array at other lengths. Aligned at the last axes, each length of the array equals the new one there, or is 1 and is
    /// stretched; axes may be added in front. `None` exactly if the array does not broadcast to the lengths, or the nonzero ones multiply
    /// to more than `isize::MAX`.
    ///
    /// ```
    /// let row = ArrayView::from_shape(3, &[1, 2, 3])?;
    /// let rows = row.broadcast((2, 3)); // [[1, 2, 3], [1, 2, 3]]
    /// ```
    pub fn broadcast<E: IntoDimension>(&self, dim: E) -> Option<ArrayView<'_, S::Elem, E::Dim>>
        ensures answers { IsSome result ↔ (BroadcastsTo self.now.lengths (E.written_numbers dim) × IsWithinLimit (E.written_numbers dim)) }
        ensures value { IfSome result (λ v. v ≡ broadcast_to self.now (E.written_numbers dim)) }
        ensures axes { IfSome result (λ v. E.Dim.has_axes (length v.lengths)) }
        ensures whole { IfSome result IsGrid }
    {
        self.view().broadcast_to(dim.into_dimension())
    }
}

impl<'a, A, D: Lengths> ArrayView<'a, A, D> {
    /// What `broadcast` returns, for a view and a dimension.
    pub(crate) fn broadcast_to<E: Lengths>(&self, dim: E) -> Option<ArrayView<'a, A, E>>
        ensures answers { IsSome result ↔ (BroadcastsTo self.now.lengths (E.numbers dim) × IsWithinLimit (E.numbers dim)) }
        ensures value { IfSome result (λ v. v ≡ broadcast_to self.now (E.numbers dim)) }
        ensures axes { IfSome result (λ v. E.has_axes (length v.lengths)) }
        ensures whole { IfSome result IsGrid }
    {
        if are_equal(&self.layout.dim, &dim) {
            return self.broadcast_within(dim);
        }
        if !dim.size_ok() {
            return None;
        }
        self.broadcast_within(dim)
    }

    /// What `broadcast_to` returns, at a dimension within the limit.
    pub(crate) fn broadcast_within<E: Lengths>(&self, dim: E) -> Option<ArrayView<'a, A, E>>
        requires { IsWithinLimit (E.numbers dim) }
        ensures answers { IsSome result ↔ BroadcastsTo self.now.lengths (E.numbers dim) }
        ensures value { IfSome result (λ v. v ≡ broadcast_to self.now (E.numbers dim)) }
        ensures axes { IfSome result (λ v. E.has_axes (length v.lengths)) }
        ensures whole { IfSome result IsGrid }
    {
        let _axes = dim.ndim();
        let Some(strides) = broadcast_strides(&self.layout.dim, &self.layout.strides, &dim) else {
            return None;
        };
        Some(ArrayBase {
            storage: self.storage,
            layout: Layout {
                start: self.layout.start,
                dim,
                strides,
            },
        })
    }
}
