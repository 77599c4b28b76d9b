//! Sums and products of the cells of an array and of its lanes, and whether they are in range; running products and
//! differences along an axis.

ghost use Rattle.std.specs.Prelude.{◌≡◌, ◌<◌, length, IfOk};
ghost use Rattle.ndarray.specs.AlongAxis.{IsSummableArray, IsTotalOf};
ghost use Rattle.ndarray.specs.Elementwise.{CanMap, MakesMapped};
ghost use Rattle.ndarray.specs.Everyday.{lanes_mapped};
ghost use Rattle.ndarray.specs.Grid.{Grid};
ghost use Rattle.ndarray.specs.Subviews.{lanes_of};
ghost use Rattle.ndarray.specs.Sums.{IsSummableBy, total_by};

mod along_axis_range_tests;
mod cumprod;
mod diff;
pub(crate) mod range_tests;
pub(crate) mod small_products;
pub(crate) mod totals;

use crate::base::array::{Array, ArrayBase};
use crate::base::axis::Axis;
use crate::base::dimension::{Dimension, Lengths};
use crate::base::storage::Data;
use crate::elements::{ProductElem, SumElem};
use crate::ops::operations::{Addition, Multiplication};
pub use crate::reduce::range_tests::{checked_dot, dot_fits};
use crate::reduce::totals::{total, totals_along};
use std::alloc::{AllocError, Global};

impl<A: SumElem, S: Data<Elem = A>, D: Lengths> ArrayBase<S, D> {
    /// The sum of all cells, which is zero if there are none. It allocates nothing.
    ///
    /// Requires that every selection of the cells has its sum in range, so that no order of adding leaves the range. For integers check
    /// with [`sums_fit`](Self::sums_fit), which is true exactly then.
    ///
    /// ```
    /// let view = ArrayView::from_shape((2, 3), &[1i64, 2, 3, 4, 5, 6])?;
    /// if view.sums_fit() {
    ///     assert_eq!(view.sum(), 21);
    /// }
    /// ```
    pub fn sum(&self) -> A
        requires { IsSummableBy A.addition A.InRange A.meaning self.now.cells }
        ensures { A.meaning result ≡ total_by A.addition A.meaning self.now.cells }
    {
        total::<Addition, A, D>(&self.view())
    }
}

impl<A: ProductElem, S: Data<Elem = A>, D: Lengths> ArrayBase<S, D> {
    /// The product of all cells, which is one if there are none. It allocates nothing.
    ///
    /// Requires that every selection of the cells has its product in range, so that no order of multiplying leaves the range. For integers
    /// check with [`products_fit`](Self::products_fit): it is `true` only then, but may be `false` although the product is allowed.
    ///
    /// ```
    /// let view = ArrayView::from_shape((2, 3), &[1i64, 2, 3, 4, 5, 6])?;
    /// if view.products_fit() {
    ///     assert_eq!(view.product(), 720);
    /// }
    /// ```
    pub fn product(&self) -> A
        requires { IsSummableBy A.multiplication A.InRange A.meaning self.now.cells }
        ensures { A.meaning result ≡ total_by A.multiplication A.meaning self.now.cells }
    {
        total::<Multiplication, A, D>(&self.view())
    }
}

impl<A: SumElem, S: Data<Elem = A>, D: Dimension> ArrayBase<S, D> {
    /// The sum of each lane along an axis, as an array without that axis. A lane of length 0 has the sum zero.
    ///
    /// Requires an axis below the number of axes, which `axis_ok` tests, and that in each lane every selection of the cells has its sum in
    /// range. For integers check this with `Zip::from(array.lanes(axis)).all(|lane| lane.sums_fit())`, or with [`sums_fit`](Self::sums_fit)
    /// of the whole array, which is enough. The error is an allocation failure, and is never reported if the result has no cells.
    ///
    /// ```
    /// let view = ArrayView::from_shape((2, 3), &[1i64, 2, 3, 4, 5, 6])?;
    /// view.sum_axis(alloc, Axis(0))?; // [5, 7, 9]
    /// view.sum_axis(alloc, Axis(1))?; // [6, 15]
    /// ```
    pub fn sum_axis(&self, alloc: Global, axis: Axis) -> Result<Array<A, D::Smaller>, AllocError>
        requires axis { axis.0 < length self.now.lengths }
        requires lanes { CanMap (IsSummableArray A.addition A.InRange A.meaning) (lanes_of self.now axis.0) }
        ensures sums { MakesMapped D.Smaller.has_axes (IsTotalOf A.addition A.meaning) (lanes_of self.now axis.0) result }
        ensures axes { IfOk result (λ r. D.Smaller.has_axes (length r.lengths)) }
        ensures values { (h : Grid A → A) → ((l : Grid A) (z : A) → IsTotalOf A.addition A.meaning l z → z ≡ h l) → IfOk result (λ r. r ≡ lanes_mapped h self.now axis.0) }
    {
        totals_along::<Addition, A, D>(alloc, &self.view(), axis)
    }
}

impl<A: ProductElem, S: Data<Elem = A>, D: Dimension> ArrayBase<S, D> {
    /// The product of each lane along an axis, as an array without that axis. A lane of length 0 has the product one.
    ///
    /// Requires an axis below the number of axes, which `axis_ok` tests, and that in each lane every selection of the cells has its product
    /// in range. For integers `Zip::from(array.lanes(axis)).all(|lane| lane.products_fit())` is enough for this, and so is
    /// [`products_fit`](Self::products_fit) of the whole array. The error is an allocation failure, and is never reported if the result has
    /// no cells.
    ///
    /// ```
    /// let view = ArrayView::from_shape((2, 3), &[1i64, 2, 3, 4, 5, 6])?;
    /// view.product_axis(alloc, Axis(1))?; // [6, 120]
    /// ```
    pub fn product_axis(
        &self,
        alloc: Global,
        axis: Axis,
    ) -> Result<Array<A, D::Smaller>, AllocError>
        requires axis { axis.0 < length self.now.lengths }
        requires lanes { CanMap (IsSummableArray A.multiplication A.InRange A.meaning) (lanes_of self.now axis.0) }
        ensures products { MakesMapped D.Smaller.has_axes (IsTotalOf A.multiplication A.meaning) (lanes_of self.now axis.0) result }
        ensures axes { IfOk result (λ r. D.Smaller.has_axes (length r.lengths)) }
        ensures values { (h : Grid A → A) → ((l : Grid A) (z : A) → IsTotalOf A.multiplication A.meaning l z → z ≡ h l) → IfOk result (λ r. r ≡ lanes_mapped h self.now axis.0) }
    {
        totals_along::<Multiplication, A, D>(alloc, &self.view(), axis)
    }
}
