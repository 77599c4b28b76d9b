//! Tests whether the entries of a product of integers are in the range of their type, for arrays whose number of axes is known only at run
//! time.

ghost use Rattle.std.specs.Prelude.{◌≡◌, ◌↔◌, All, IsTrue};
ghost use Rattle.ndarray.specs.DotRanges.{HasInnerMagnitudeInRange, HasInnerSumInRange, HasLaneMagnitudesInRange};
ghost use Rattle.ndarray.specs.Products.{HasLaneSumsInRange, ShapesMultiply};
ghost use Rattle.ndarray.specs.WholeValues.{whole_numbers};

use crate::base::array::{ArrayBase, ArrayView};
use crate::base::axis::Axis;
use crate::base::dimension::{Ix1, IxDyn, Lengths};
use crate::base::storage::Data;
use crate::elements::{IntegerElem, IntegerScalar};
use crate::linalg::dynamic::inner_lanes;
use crate::linalg::products::dot_ok;
use crate::linalg::range_tests::IntegerDot;
use crate::reduce::dot_fits;
use crate::reduce::small_products::have_small_products;
use crate::subviews::lanes::Lanes;

impl<A: IntegerScalar, S: Data<Elem = A>, S2: Data<Elem = A>> IntegerDot<ArrayBase<S2, IxDyn>>
    for ArrayBase<S, IxDyn> {
    ghost entries_in_range = { λ a b. ShapesMultiply a.lengths b.lengths × HasLaneMagnitudesInRange A.value A.fits a b };

    fn entries_fit(&self, rhs: &ArrayBase<S2, IxDyn>) -> bool {
        dot_ok(self, rhs) && lanes_fit(&self.view(), &rhs.view())
    }
}

/// Whether each two lanes that meet in the product of two arrays pass `dot_fits`.
fn lanes_fit<A: IntegerElem>(x: &ArrayView<'_, A, IxDyn>, y: &ArrayView<'_, A, IxDyn>) -> bool
    requires { ShapesMultiply x.now.lengths y.now.lengths }
    ensures magnitudes { IsTrue result ↔ HasLaneMagnitudesInRange A.value A.fits x.now y.now }
    ensures sums { IsTrue result → HasLaneSumsInRange (whole_numbers A.value A.fits) x.now y.now }
{
    // Without cells there may be more lanes than could be walked.
    if x.len() == 0 || y.len() == 0 {
        return true;
    }
    let (_left, _right) = (x.raw_dim(), y.raw_dim());
    if have_small_products(x, y, x.len_of(Axis(x.ndim() - 1))) {
        return true;
    }
    let columns = inner_lanes(y);
    for row in x.rows() {
        if !row_fits(&row, columns.again()) {
            return false;
        }
    }
    true
}

/// Whether a row and each of some columns pass `dot_fits`.
fn row_fits<A: IntegerElem>(row: &ArrayView<'_, A, Ix1>, columns: Lanes<'_, A, IxDyn>) -> bool
    ensures magnitudes { IsTrue result ↔ All (HasInnerMagnitudeInRange A.value A.fits row.now) columns.entry.cells }
    ensures sums { IsTrue result → All (HasInnerSumInRange A.value A.fits row.now) columns.entry.cells }
{
    for column in columns {
        if !dot_fits(row, &column) {
            return false;
        }
    }
    true
}
