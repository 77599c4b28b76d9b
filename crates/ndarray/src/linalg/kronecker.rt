//! Kronecker products.

ghost use Rattle.std.specs.Prelude.{◌↔◌, ◌*◌, ◌+◌, ◌<◌, ◌≤◌, ◌∷◌, [], All, IsTrue, length};
ghost use Rattle.ndarray.specs.linalg.BlockRows.{CanMultiply, CanMultiplyEach, block_rows, multiples, multiples_by};
ghost use Rattle.ndarray.specs.Index.{size};
ghost use Rattle.ndarray.specs.Limits.{IsWithinLimit};
ghost use Rattle.ndarray.specs.Matrices.{kronecker_product};
ghost use Rattle.ndarray.specs.Products.{HasProductsInRange, MakesMatrix, kronecker_lengths, matrix_of};
ghost use Rattle.ndarray.specs.Subviews.{axis_items};
ghost use Rattle.ndarray.specs.base.Builder.{PushesValues};

use crate::base::array::{Array, ArrayBase, ArrayView};
use crate::base::builder::ArrayBuilder;
use crate::base::dimension::{Dimension, Ix1, Ix2, Lengths};
use crate::base::storage::Data;
use crate::base::strided::{Strided, cells_of};
use crate::elements::LinalgScalar;
use crate::elements::sums::multiply;
use crate::order::Order;
use std::alloc::{AllocError, Global};

/// Whether two matrices have a Kronecker product: the nonzero lengths of the result, which are the products of theirs, multiply to at most
/// `isize::MAX`.
///
/// ```
/// if kron_ok(&a, &b) {
/// // `kron(alloc, &a, &b)`, if the products are in range too
/// }
/// ```
pub fn kron_ok<S: Data, S2: Data>(a: &ArrayBase<S, Ix2>, b: &ArrayBase<S2, Ix2>) -> bool
    ensures { IsTrue result ↔ IsWithinLimit (kronecker_lengths a.now.lengths b.now.lengths) }
{
    lengths_multiply(a.raw_dim().into_pattern(), b.raw_dim().into_pattern())
}

/// Whether the lengths of two matrices, multiplied, are within the limit: those that are not 0 multiply to at most `isize::MAX`.
pub(crate) fn lengths_multiply(left: (usize, usize), right: (usize, usize)) -> bool
    ensures { IsTrue result ↔ IsWithinLimit (left.0 * right.0 ∷ left.1 * right.1 ∷ []) }
{
    let (l, n) = left;
    let (m, r) = right;
    let Some(rows) = l.checked_mul(m) else {
        return false;
    };
    let Some(columns) = n.checked_mul(r) else {
        return false;
    };
    Ix2(rows, columns).size_ok()
}

/// The Kronecker product of two matrices: it has a block for each cell of `a`, which is that cell times `b`. If they have the lengths
/// (l, n) and (m, r), it has the lengths (l * m, n * r), and its cell at (i * m + k, j * r + h) is a(i, j) times b(k, h).
///
/// Requires that the nonzero lengths of the result multiply to at most `isize::MAX`, which [`kron_ok`] tests, and that each product of a
/// cell of `a` and one of `b` is in range; for integers check both with [`kron_fits`](crate::linalg::kron_fits). The error is an allocation
/// failure, and is never reported if the result has no cells.
///
/// ```
/// // a = [[1, 2]], b = [[3], [4]]
/// kron(alloc, &a, &b)?; // [[3, 6], [4, 8]]
/// ```
pub fn kron<A: LinalgScalar, S: Data<Elem = A>, S2: Data<Elem = A>>(
    alloc: Global,
    a: &ArrayBase<S, Ix2>,
    b: &ArrayBase<S2, Ix2>,
) -> Result<Array<A, Ix2>, AllocError>
    requires limit { IsWithinLimit (kronecker_lengths a.now.lengths b.now.lengths) }
    requires products { HasProductsInRange A.Valued (matrix_of A.Valued a.now) (matrix_of A.Valued b.now) }
    ensures { MakesMatrix A.Valued (kronecker_product A.multiplication (matrix_of A.Valued a.now) (matrix_of A.Valued b.now)) result }
{
    blocks(alloc, &a.view(), &b.view())
}

/// The product of two views, row by row: a row of it has for each cell of a row of `a` that cell times a row of `b`.
fn blocks<A: LinalgScalar>(
    alloc: Global,
    a: &ArrayView<'_, A, Ix2>,
    b: &ArrayView<'_, A, Ix2>,
) -> Result<Array<A, Ix2>, AllocError>
    requires limit { IsWithinLimit (kronecker_lengths a.now.lengths b.now.lengths) }
    requires products { HasProductsInRange A.Valued (matrix_of A.Valued a.now) (matrix_of A.Valued b.now) }
    ensures { MakesMatrix A.Valued (kronecker_product A.multiplication (matrix_of A.Valued a.now) (matrix_of A.Valued b.now)) result }
{
    let (l, n) = a.raw_dim().into_pattern();
    let (m, r) = b.raw_dim().into_pattern();
    let dim = Ix2(l * m, n * r);
    let size = dim.size();
    let mut products = ArrayBuilder::with_capacity(alloc, dim, Order::RowMajor)?;
    if size == 0 {
        // However many rows there are.
        return Ok(products.finish());
    }
    for row in a.outer_iter() {
        push_block_rows(&mut products, &row, b);
    }
    Ok(products.finish())
}

/// Pushes the products of a row and each row of a matrix.
fn push_block_rows<A: LinalgScalar>(
    products: &mut ArrayBuilder<A, Ix2>,
    row: &ArrayView<'_, A, Ix1>,
    b: &ArrayView<'_, A, Ix2>,
)
    requires axes { 0 < length b.now.lengths }
    requires can { All (λ below. CanMultiplyEach A.Valued row.now.cells below.cells) (axis_items b.now 0) }
    requires room { length products.old.cells + length (block_rows A.Valued row.now (axis_items b.now 0)) ≤ size products.old.lengths }
    ensures { PushesValues A.meaning (block_rows A.Valued row.now (axis_items b.now 0)) products.old products.new }
{
    for below in b.outer_iter() {
        push_products(products, row, &below);
    }
}

/// Pushes the products of each cell of one row and each of another.
fn push_products<A: LinalgScalar>(
    products: &mut ArrayBuilder<A, Ix2>,
    row: &ArrayView<'_, A, Ix1>,
    below: &ArrayView<'_, A, Ix1>,
)
    requires can { CanMultiplyEach A.Valued row.now.cells below.now.cells }
    requires room { length products.old.cells + length (multiples_by A.Valued row.now.cells below.now.cells) ≤ size products.old.lengths }
    ensures { PushesValues A.meaning (multiples_by A.Valued row.now.cells below.now.cells) products.old products.new }
{
    let cells = cells_of(below.again());
    for factor in cells_of(row.again()) {
        push_multiples(products, *factor, cells.again());
    }
}

/// Pushes the products of an element and each of some cells.
fn push_multiples<A: LinalgScalar>(
    products: &mut ArrayBuilder<A, Ix2>,
    factor: A,
    cells: Strided<'_, A>,
)
    requires can { All (CanMultiply A.Valued factor) cells }
    requires room { length products.old.cells + length cells ≤ size products.old.lengths }
    ensures { PushesValues A.meaning (multiples A.Valued factor cells.entry) products.old products.new }
{
    match cells.side_by_side() {
        Some(slice) => push_slice(products, factor, slice),
        None => {
            for cell in cells {
                products.push(multiply(factor, *cell));
            }
        }
    }
}

/// The same for cells that lie side by side.
fn push_slice<A: LinalgScalar>(products: &mut ArrayBuilder<A, Ix2>, factor: A, cells: &[A])
    requires can { All (CanMultiply A.Valued factor) cells.now }
    requires room { length products.old.cells + length cells.now ≤ size products.old.lengths }
    ensures { PushesValues A.meaning (multiples A.Valued factor cells.now) products.old products.new }
{
    for cell in cells {
        products.push(multiply(factor, *cell));
    }
}
