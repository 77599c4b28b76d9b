//! The axes of an array in another order. None of these calls copies a cell or allocates.

ghost use Rattle.std.specs.Prelude.{◌≡◌, ◌<◌, ◌↔◌, All, IsTrue, length, map, slice_index};
ghost use Rattle.ndarray.specs.AxisOrders.{NamesEachAxis, axes_permuted};
ghost use Rattle.ndarray.specs.Grid.{IsGrid};

use crate::base::array::ArrayBase;
use crate::base::dimension::{Dimension, Lengths};
use crate::base::into_dimension::IntoDimension;
use crate::base::layout::Layout;
use crate::base::storage::Data;

impl<S: Data, D: Dimension> ArrayBase<S, D> {
    /// Whether `permuted_axes` may be called: `axes` names each axis once.
    ///
    /// ```
    /// let a = ArrayView::from_shape((2, 3), &[1, 2, 3, 4, 5, 6])?;
    /// assert!(a.permutation_ok((1, 0)));
    /// assert!(!a.permutation_ok((1, 1)));
    /// ```
    pub fn permutation_ok<I: IntoDimension<Dim = D>>(&self, axes: I) -> bool
        ensures { IsTrue result ↔ NamesEachAxis (length self.now.lengths) (I.written_numbers axes) }
    {
        let axes = axes.into_dimension();
        names_each_axis(axes.slice(), self.ndim())
    }

    /// The array with its axes in another order: axis `k` of it is the one that `axes` names at `k`.
    ///
    /// Requires that `axes` names each axis once; check with `permutation_ok`.
    ///
    /// ```
    /// let a = ArrayView::from_shape((1, 2, 3), &[1, 2, 3, 4, 5, 6])?;
    /// a.permuted_axes((2, 0, 1)); // with the lengths 3, 1, 2: [[[1, 4]], [[2, 5]], [[3, 6]]]
    /// ```
    pub fn permuted_axes<I: IntoDimension<Dim = D>>(self, axes: I) -> ArrayBase<S, D>
        requires { NamesEachAxis (length self.lengths) (I.written_numbers axes) }
        ensures value { result ≡ axes_permuted self (I.written_numbers axes) }
        ensures axes { D.has_axes (length result.lengths) }
        ensures whole { IsGrid result }
    {
        let _axes = self.ndim();
        let ArrayBase { storage, layout } = self;
        ArrayBase {
            storage,
            layout: layout.permuted(&axes.into_dimension()),
        }
    }
}

impl<D: Lengths> Layout<D> {
    /// The layout with its axes in another order.
    fn permuted(&self, axes: &D) -> Self
        requires as_many { length (D.numbers self.now.strides) ≡ length (D.numbers self.now.dim) }
        requires axes { NamesEachAxis (length (D.numbers self.now.dim)) (D.numbers axes.now) }
        ensures start { result.start ≡ self.now.start }
        ensures dim { D.numbers result.dim ≡ map (λ axis. slice_index (D.numbers self.now.dim) axis) (D.numbers axes.now) }
        ensures strides { D.numbers result.strides ≡ map (λ axis. slice_index (D.numbers self.now.strides) axis) (D.numbers axes.now) }
    {
        Layout {
            start: self.start,
            dim: chosen(&self.dim, axes),
            strides: chosen(&self.strides, axes),
        }
    }
}

/// The numbers of the axes that another list names, in its order.
fn chosen<D: Lengths>(numbers: &D, axes: &D) -> D
    requires as_many { length (D.numbers axes.now) ≡ length (D.numbers numbers.now) }
    requires within { All (λ axis. axis < length (D.numbers numbers.now)) (D.numbers axes.now) }
    ensures { D.numbers result ≡ map (λ axis. slice_index (D.numbers numbers.now) axis) (D.numbers axes.now) }
{
    let mut result = numbers.copied();
    for k in 0..axes.ndim() {
        result.set_axis(k, numbers.axis(axes.axis(k)));
    }
    result
}

/// Whether a list has each of the first `ndim` axes once.
fn names_each_axis(axes: &[usize], ndim: usize) -> bool
    ensures { IsTrue result ↔ NamesEachAxis ndim axes.now }
{
    if axes.len() != ndim {
        return false;
    }
    for axis in 0..ndim {
        if !axes.contains(&axis) {
            return false;
        }
    }
    true
}
