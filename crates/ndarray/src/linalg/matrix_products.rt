//! Products with a matrix, in the order of loops that takes the smaller steps through memory.

ghost use Rattle.std.specs.Prelude.{◌≡◌, ◌∷◌, [], ◌≤◌, ◌*◌, map, slice_index};
ghost use Rattle.std.specs.Vec.{vec_capacity};
ghost use Rattle.ndarray.specs.Index.{row_order};
ghost use Rattle.ndarray.specs.Limits.{IsWithinLimit};
ghost use Rattle.ndarray.specs.Products.{HasSumsInRange, MakesMatrix, MakesRow, matrix_entries, matrix_of, product_of, row_of};
ghost use Rattle.ndarray.specs.linalg.RowSums.{CanSumRow};

use crate::base::array::{Array, ArrayBase, ArrayView};
use crate::base::axis::Axis;
use crate::base::dimension::{Dimension, Ix1, Ix2, Lengths};
use crate::elements::LinalgScalar;
use crate::linalg::row_sums::{has_close_rows, push_row};
use crate::order::Order;
use std::alloc::{AllocError, Global};

/// The product of a vector and a matrix.
pub(crate) fn row_product<A: LinalgScalar>(
    alloc: Global,
    x: &ArrayView<'_, A, Ix1>,
    right: &ArrayView<'_, A, Ix2>,
) -> Result<Array<A, Ix1>, AllocError>
    requires can { CanSumRow A.Valued x.now right.now }
    requires limit { IsWithinLimit (slice_index right.now.lengths 1 ∷ []) }
    ensures { MakesRow A.Valued (product_of A.Valued (row_of A.Valued x.now) (matrix_of A.Valued right.now)) result }
{
    let (_, columns) = right.raw_dim().into_pattern();
    let mut sums = Vec::with_capacity(alloc, columns)?;
    push_row(&mut sums, x, right);
    Ok(ArrayBase::from_elements(Ix1(columns), Order::RowMajor, sums))
}

/// The product of two matrices. If the columns of the left one are read fast and the rows of the right one are not, it is computed as the
/// transpose of the product of the transposed matrices.
pub(crate) fn matrix_product<A: LinalgScalar>(
    alloc: Global,
    left: &ArrayView<'_, A, Ix2>,
    right: &ArrayView<'_, A, Ix2>,
) -> Result<Array<A, Ix2>, AllocError>
    requires inner { slice_index left.now.lengths 1 ≡ slice_index right.now.lengths 0 }
    requires limit { IsWithinLimit (slice_index left.now.lengths 0 ∷ slice_index right.now.lengths 1 ∷ []) }
    requires sums { HasSumsInRange A.Valued (matrix_of A.Valued left.now) (matrix_of A.Valued right.now) }
    ensures { MakesMatrix A.Valued (product_of A.Valued (matrix_of A.Valued left.now) (matrix_of A.Valued right.now)) result }
{
    if !has_close_rows(right) && has_close_rows(&left.t()) {
        transposed_product(alloc, left, right)
    } else {
        product_by_rows(alloc, left, right)
    }
}

/// The product of two matrices, computed by the product of the transposed ones.
fn transposed_product<A: LinalgScalar>(
    alloc: Global,
    left: &ArrayView<'_, A, Ix2>,
    right: &ArrayView<'_, A, Ix2>,
) -> Result<Array<A, Ix2>, AllocError>
    requires inner { slice_index left.now.lengths 1 ≡ slice_index right.now.lengths 0 }
    requires limit { IsWithinLimit (slice_index left.now.lengths 0 ∷ slice_index right.now.lengths 1 ∷ []) }
    requires sums { HasSumsInRange A.Valued (matrix_of A.Valued left.now) (matrix_of A.Valued right.now) }
    ensures { MakesMatrix A.Valued (product_of A.Valued (matrix_of A.Valued left.now) (matrix_of A.Valued right.now)) result }
{
    let transposed = product_by_rows(alloc, &right.t(), &left.t())?;
    Ok(transposed.reversed_axes())
}

/// The product of two matrices, computed row by row.
fn product_by_rows<A: LinalgScalar>(
    alloc: Global,
    left: &ArrayView<'_, A, Ix2>,
    right: &ArrayView<'_, A, Ix2>,
) -> Result<Array<A, Ix2>, AllocError>
    requires inner { slice_index left.now.lengths 1 ≡ slice_index right.now.lengths 0 }
    requires limit { IsWithinLimit (slice_index left.now.lengths 0 ∷ slice_index right.now.lengths 1 ∷ []) }
    requires sums { HasSumsInRange A.Valued (matrix_of A.Valued left.now) (matrix_of A.Valued right.now) }
    ensures { MakesMatrix A.Valued (product_of A.Valued (matrix_of A.Valued left.now) (matrix_of A.Valued right.now)) result }
{
    let (rows, _) = left.raw_dim().into_pattern();
    let (_, columns) = right.raw_dim().into_pattern();
    let dim = Ix2(rows, columns);
    let size = dim.size();
    let mut sums = Vec::with_capacity(alloc, size)?;
    if size == 0 {
        // However many rows there are.
        return Ok(ArrayBase::from_elements(dim, Order::RowMajor, sums));
    }
    push_rows(&mut sums, left, right);
    Ok(ArrayBase::from_elements(dim, Order::RowMajor, sums))
}

/// Pushes each row of a product.
fn push_rows<A: LinalgScalar>(
    sums: &mut Vec<A>,
    left: &ArrayView<'_, A, Ix2>,
    right: &ArrayView<'_, A, Ix2>,
)
    requires inner { slice_index left.now.lengths 1 ≡ slice_index right.now.lengths 0 }
    requires sums { HasSumsInRange A.Valued (matrix_of A.Valued left.now) (matrix_of A.Valued right.now) }
    requires none { sums.old.items ≡ [] }
    requires room { slice_index left.now.lengths 0 * slice_index right.now.lengths 1 ≤ vec_capacity sums.old }
    ensures { map A.meaning sums.new.items ≡ map (matrix_entries (product_of A.Valued (matrix_of A.Valued left.now) (matrix_of A.Valued right.now))) (row_order (slice_index left.now.lengths 0 ∷ slice_index right.now.lengths 1 ∷ [])) }
{
    let (rows, _) = left.raw_dim().into_pattern();
    for i in 0..rows {
        push_row(sums, &left.index_axis(Axis(0), i), right);
    }
}
