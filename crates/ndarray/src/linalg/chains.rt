//! Products of three and of four arrays, in the order that needs the smaller intermediate arrays.

ghost use Rattle.std.specs.Prelude.{◌≡◌, ◌≢◌, ◌↔◌, ◌*◌, ◌∷◌, [], IfOk, IsOk, IsTrue, slice_index};
ghost use Rattle.ndarray.specs.Chains.{HasColumn, HasMatrix, ShapesChain, ShapesMultiplyInPairs};
ghost use Rattle.ndarray.specs.Index.{size};
ghost use Rattle.ndarray.specs.Matrices.{kronecker_product};
ghost use Rattle.ndarray.specs.Products.{HasProductsInRange, HasSumsInRange, column_of, matrix_of, product_of};

use crate::base::array::{Array, ArrayBase};
use crate::base::axis::Axis;
use crate::base::dimension::{Dimension, Ix1, Ix2, Lengths};
use crate::base::storage::Data;
use crate::elements::LinalgScalar;
use crate::laws::{kron_mixed, mat_assoc};
use crate::linalg::kronecker::{kron, lengths_multiply};
use crate::linalg::products::{Dot, dot_ok};
use std::alloc::{AllocError, Global};

/// Whether two matrices and a vector have the lengths (m, k), (k, n) and (n). The size of the product of the two matrices does not matter.
///
/// ```
/// // with the lengths (2, 3), (3, 4) and (4)
/// assert!(chain_ok(&a, &b, &x));
/// ```
pub fn chain_ok<S: Data, S2: Data, S3: Data>(
    a: &ArrayBase<S, Ix2>,
    b: &ArrayBase<S2, Ix2>,
    x: &ArrayBase<S3, Ix1>,
) -> bool
    ensures { IsTrue result ↔ ShapesChain a.now.lengths b.now.lengths x.now.lengths }
{
    let (_, k) = a.raw_dim().into_pattern();
    let (rows, n) = b.raw_dim().into_pattern();
    k == rows && n == x.raw_dim().into_pattern()
}

/// The product (AB)x of two matrices and a vector, computed as A(Bx), without the product of the matrices. If the lengths are (m, k),
/// (k, n) and (n), the result has m cells.
///
/// Requires such lengths, which [`chain_ok`] tests, and, if A has rows, that in each inner sum of Bx and of A(Bx) every selection of the
/// products has its sum in range; for integers check both with [`chain_fits`](crate::linalg::chain_fits). Nothing is required of the size
/// of AB, nor of the range of its cells. The error is an allocation failure, which leaves the arrays as they were, and is never reported if
/// the result has no cells.
///
/// ```
/// // a = [[2]], b = [[i64::MAX]], x = [0]
/// mat_vec_chain(alloc, &a, &b, &x)?; // [0]
/// ```
pub fn mat_vec_chain<A: LinalgScalar, S: Data<Elem = A>, S2: Data<Elem = A>, S3: Data<Elem = A>>(
    alloc: Global,
    a: &ArrayBase<S, Ix2>,
    b: &ArrayBase<S2, Ix2>,
    x: &ArrayBase<S3, Ix1>,
) -> Result<Array<A, Ix1>, AllocError>
    requires shapes { ShapesChain a.now.lengths b.now.lengths x.now.lengths }
    requires inner_sums { slice_index a.now.lengths 0 ≢ 0 → HasSumsInRange A.Valued (matrix_of A.Valued b.now) (column_of A.Valued x.now) }
    requires outer_sums { HasSumsInRange A.Valued (matrix_of A.Valued a.now) (product_of A.Valued (matrix_of A.Valued b.now) (column_of A.Valued x.now)) }
    ensures product { IfOk result (HasColumn A.Valued (product_of A.Valued (product_of A.Valued (matrix_of A.Valued a.now) (matrix_of A.Valued b.now)) (column_of A.Valued x.now))) }
    ensures empty { slice_index a.now.lengths 0 ≡ 0 → IsOk result }
{
    mat_assoc::<A>();
    let _lengths = (a.raw_dim(), b.raw_dim(), x.raw_dim());
    if a.len_of(Axis(0)) == 0 {
        return Array::zeros(alloc, 0);
    }
    let y = Dot::dot(b, alloc, x)?;
    Dot::dot(a, alloc, &y)
}

/// Whether four matrices have the lengths (m, k), (p, q), (k, n) and (q, r), and the nonzero lengths of each of the shapes (m, n), (p, r)
/// and (m * p, n * r) multiply to at most `isize::MAX`.
///
/// ```
/// if kron_dot_ok(&a, &b, &c, &d) {
/// // `kron_dot(alloc, &a, &b, &c, &d)`, if the sums and products are in range too
/// }
/// ```
pub fn kron_dot_ok<S: Data, S2: Data, S3: Data, S4: Data>(
    a: &ArrayBase<S, Ix2>,
    b: &ArrayBase<S2, Ix2>,
    c: &ArrayBase<S3, Ix2>,
    d: &ArrayBase<S4, Ix2>,
) -> bool
    ensures { IsTrue result ↔ ShapesMultiplyInPairs a.now.lengths b.now.lengths c.now.lengths d.now.lengths }
{
    let (m, _) = a.raw_dim().into_pattern();
    let (p, _) = b.raw_dim().into_pattern();
    let (_, n) = c.raw_dim().into_pattern();
    let (_, r) = d.raw_dim().into_pattern();
    dot_ok(a, c) && dot_ok(b, d) && lengths_multiply((m, n), (p, r))
}

/// The product (A kron B)(C kron D) of two Kronecker products, computed as AC kron BD, without those two. If the lengths are (m, k),
/// (p, q), (k, n) and (q, r), the result has the lengths (m * p, n * r).
///
/// Requires such lengths, and that AC, BD and the result are not too large, which [`kron_dot_ok`] tests; if the result has cells, that in
/// each inner sum of AC and of BD every selection of the products has its sum in range; and that each product of a cell of AC and one of BD
/// is in range. For integers check all this with [`kron_dot_fits`](crate::linalg::kron_dot_fits). Nothing is required of A kron B and of C
/// kron D. The error is an allocation failure, which leaves the arrays as they were, and is never reported if the result has no cells.
///
/// ```
/// // a = [[i64::MAX]], b = [[i64::MAX]], c = [[0]], d = [[0]]
/// kron_dot(alloc, &a, &b, &c, &d)?; // [[0]]
/// ```
pub fn kron_dot<
    A: LinalgScalar,
    S: Data<Elem = A>,
    S2: Data<Elem = A>,
    S3: Data<Elem = A>,
    S4: Data<Elem = A>,
>(
    alloc: Global,
    a: &ArrayBase<S, Ix2>,
    b: &ArrayBase<S2, Ix2>,
    c: &ArrayBase<S3, Ix2>,
    d: &ArrayBase<S4, Ix2>,
) -> Result<Array<A, Ix2>, AllocError>
    requires shapes { ShapesMultiplyInPairs a.now.lengths b.now.lengths c.now.lengths d.now.lengths }
    requires left_sums { size (slice_index a.now.lengths 0 * slice_index b.now.lengths 0 ∷ slice_index c.now.lengths 1 * slice_index d.now.lengths 1 ∷ []) ≢ 0 → HasSumsInRange A.Valued (matrix_of A.Valued a.now) (matrix_of A.Valued c.now) }
    requires right_sums { size (slice_index a.now.lengths 0 * slice_index b.now.lengths 0 ∷ slice_index c.now.lengths 1 * slice_index d.now.lengths 1 ∷ []) ≢ 0 → HasSumsInRange A.Valued (matrix_of A.Valued b.now) (matrix_of A.Valued d.now) }
    requires products { HasProductsInRange A.Valued (product_of A.Valued (matrix_of A.Valued a.now) (matrix_of A.Valued c.now)) (product_of A.Valued (matrix_of A.Valued b.now) (matrix_of A.Valued d.now)) }
    ensures product { IfOk result (HasMatrix A.Valued (product_of A.Valued (kronecker_product A.multiplication (matrix_of A.Valued a.now) (matrix_of A.Valued b.now)) (kronecker_product A.multiplication (matrix_of A.Valued c.now) (matrix_of A.Valued d.now)))) }
    ensures empty { size (slice_index a.now.lengths 0 * slice_index b.now.lengths 0 ∷ slice_index c.now.lengths 1 * slice_index d.now.lengths 1 ∷ []) ≡ 0 → IsOk result }
{
    kron_mixed::<A>();
    let _lengths = (a.raw_dim(), b.raw_dim(), c.raw_dim(), d.raw_dim());
    let dim = Ix2(
        a.len_of(Axis(0)) * b.len_of(Axis(0)),
        c.len_of(Axis(1)) * d.len_of(Axis(1)),
    );
    if dim.size() == 0 {
        return Array::zeros(alloc, dim);
    }
    let left = Dot::dot(a, alloc, c)?;
    let right = Dot::dot(b, alloc, d)?;
    kron(alloc, &left, &right)
}
