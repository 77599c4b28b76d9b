//! A test whether the cells of a Kronecker product of integers are in the range of their type.

ghost use Rattle.std.specs.Prelude.{◌↔◌, IsTrue};
ghost use Rattle.ndarray.specs.Limits.{IsWithinLimit};
ghost use Rattle.ndarray.specs.Products.{HasProductsInRange, kronecker_lengths, matrix_of};
ghost use Rattle.ndarray.specs.WholeValues.{whole_numbers};

use crate::base::array::{ArrayBase, ArrayView};
use crate::base::dimension::Ix2;
use crate::base::storage::Data;
use crate::elements::{IntegerElem, IntegerScalar};
use crate::linalg::kronecker::kron_ok;
use crate::reduce::small_products::each_product_fits;

/// Whether `kron(alloc, &a, &b)` may be called for two matrices of integers: the result is not too large, as [`kron_ok`] tests, and the
/// product of each cell of `a` and each of `b` is in the type's range.
///
/// Requires nothing, and the test allocates nothing. It goes through each matrix once, and through none if the product has no cells.
///
/// ```
/// if kron_fits(&a, &b) {
///     let product = kron(alloc, &a, &b)?;
/// }
/// ```
pub fn kron_fits<A: IntegerScalar, S: Data<Elem = A>, S2: Data<Elem = A>>(
    a: &ArrayBase<S, Ix2>,
    b: &ArrayBase<S2, Ix2>,
) -> bool
    ensures exact { let values = whole_numbers A.value A.fits in IsTrue result ↔ (IsWithinLimit (kronecker_lengths a.now.lengths b.now.lengths) × HasProductsInRange values (matrix_of values a.now) (matrix_of values b.now)) }
    ensures limit { IsTrue result → IsWithinLimit (kronecker_lengths a.now.lengths b.now.lengths) }
    ensures defined { IsTrue result → HasProductsInRange A.Valued (matrix_of A.Valued a.now) (matrix_of A.Valued b.now) }
{
    kron_ok(a, b) && cell_products_fit(&a.view(), &b.view())
}

/// Whether the type has the product of each cell of one matrix and each of another.
pub(crate) fn cell_products_fit<A: IntegerElem>(
    a: &ArrayView<'_, A, Ix2>,
    b: &ArrayView<'_, A, Ix2>,
) -> bool
    ensures { let values = whole_numbers A.value A.fits in IsTrue result ↔ HasProductsInRange values (matrix_of values a.now) (matrix_of values b.now) }
{
    let (_left, _right) = (a.raw_dim(), b.raw_dim());
    // Next to a matrix without cells there may be more rows than could be walked.
    if a.len() == 0 || b.len() == 0 {
        return true;
    }
    each_product_fits(a, b)
}
