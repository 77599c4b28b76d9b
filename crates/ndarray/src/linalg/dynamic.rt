//! Products of arrays whose number of axes is known only at run time.

ghost use Rattle.std.specs.Prelude.{◌≡◌, ◌+◌, ◌-◌, ◌≤◌, All, length};
ghost use Rattle.ndarray.specs.Index.{size};
ghost use Rattle.ndarray.specs.linalg.LaneSums.{CanSumLanes, PushesSums};
ghost use Rattle.ndarray.specs.Products.{HasLaneSumsInRange, MakesValues, ShapesMultiply, dot_entries, product_lengths};
ghost use Rattle.ndarray.specs.Subviews.{lanes_of};

use crate::base::array::{Array, ArrayBase, ArrayView};
use crate::base::axis::Axis;
use crate::base::builder::ArrayBuilder;
use crate::base::dimension::{Ix1, Ix2, IxDyn, Lengths};
use crate::base::storage::Data;
use crate::elements::LinalgScalar;
use crate::linalg::inner::inner;
use crate::linalg::matrix_products::matrix_product;
use crate::linalg::products::{Dot, product_dim};
use crate::linalg::row_sums::push_row;
use crate::order::Order;
use crate::subviews::lanes::Lanes;
use std::alloc::{AllocError, Global};

impl<A: LinalgScalar, S: Data<Elem = A>, S2: Data<Elem = A>> Dot<ArrayBase<S2, IxDyn>>
    for ArrayBase<S, IxDyn> {
    type Output = Result<Array<A, IxDyn>, AllocError>;

    ghost can_dot = { λ a b. ShapesMultiply a.lengths b.lengths × HasLaneSumsInRange A.Valued a b };

    ghost dot_gives = { λ a b r. MakesValues A.Valued (product_lengths a.lengths b.lengths) (dot_entries A.Valued a b) r };

    fn dot(
        &self,
        alloc: Global,
        rhs: &ArrayBase<S2, IxDyn>,
    ) -> Result<Array<A, IxDyn>, AllocError> {
        let (left, right) = (self.view(), rhs.view());
        if let Ok(b) = right.again().into_dimensionality() {
            if let Ok(a) = left.again().into_dimensionality() {
                return product_of_matrices(alloc, &a, &b);
            }
            return product_by_matrix(alloc, &left, &b);
        }
        if let Ok(x) = right.again().into_dimensionality() {
            if let Ok(a) = left.again().into_dimensionality() {
                return product_by_vector(alloc, &a, &x);
            }
        }
        product(alloc, &left, &right)
    }
}

/// The product of two two-dimensional views.
fn product_of_matrices<A: LinalgScalar>(
    alloc: Global,
    a: &ArrayView<'_, A, Ix2>,
    b: &ArrayView<'_, A, Ix2>,
) -> Result<Array<A, IxDyn>, AllocError>
    requires shapes { ShapesMultiply a.now.lengths b.now.lengths }
    requires sums { HasLaneSumsInRange A.Valued a.now b.now }
    ensures { MakesValues A.Valued (product_lengths a.now.lengths b.now.lengths) (dot_entries A.Valued a.now b.now) result }
{
    let _lengths = (a.raw_dim(), b.raw_dim());
    let product = matrix_product(alloc, a, b)?;
    let Ok(product) = product.into_dimensionality() else {
        unreachable!()
    };
    Ok(product)
}

/// The product of a two-dimensional view and a vector.
fn product_by_vector<A: LinalgScalar>(
    alloc: Global,
    a: &ArrayView<'_, A, Ix2>,
    x: &ArrayView<'_, A, Ix1>,
) -> Result<Array<A, IxDyn>, AllocError>
    requires shapes { ShapesMultiply a.now.lengths x.now.lengths }
    requires sums { HasLaneSumsInRange A.Valued a.now x.now }
    ensures { MakesValues A.Valued (product_lengths a.now.lengths x.now.lengths) (dot_entries A.Valued a.now x.now) result }
{
    let _lengths = (a.raw_dim(), x.raw_dim());
    let product = a.dot(alloc, x)?;
    let Ok(product) = product.into_dimensionality() else {
        unreachable!()
    };
    Ok(product)
}

/// The product of a view and a matrix: of each row of the left, its sums with the columns.
fn product_by_matrix<A: LinalgScalar>(
    alloc: Global,
    x: &ArrayView<'_, A, IxDyn>,
    y: &ArrayView<'_, A, Ix2>,
) -> Result<Array<A, IxDyn>, AllocError>
    requires shapes { ShapesMultiply x.now.lengths y.now.lengths }
    requires sums { HasLaneSumsInRange A.Valued x.now y.now }
    ensures { MakesValues A.Valued (product_lengths x.now.lengths y.now.lengths) (dot_entries A.Valued x.now y.now) result }
{
    let (left, right) = (x.raw_dim(), y.raw_dim());
    let dim = product_dim(left.slice(), right.slice());
    let size = dim.size();
    let mut sums = Vec::with_capacity(alloc, size)?;
    if size == 0 {
        // However many rows there are.
        return Ok(ArrayBase::from_elements(dim, Order::RowMajor, sums));
    }
    for row in x.rows() {
        push_row(&mut sums, &row, y);
    }
    Ok(ArrayBase::from_elements(dim, Order::RowMajor, sums))
}

/// The product of two views: the sum of the products of each row of the left and each column of the right.
fn product<A: LinalgScalar>(
    alloc: Global,
    x: &ArrayView<'_, A, IxDyn>,
    y: &ArrayView<'_, A, IxDyn>,
) -> Result<Array<A, IxDyn>, AllocError>
    requires shapes { ShapesMultiply x.now.lengths y.now.lengths }
    requires sums { HasLaneSumsInRange A.Valued x.now y.now }
    ensures { MakesValues A.Valued (product_lengths x.now.lengths y.now.lengths) (dot_entries A.Valued x.now y.now) result }
{
    let (left, right) = (x.raw_dim(), y.raw_dim());
    let dim = product_dim(left.slice(), right.slice());
    let size = dim.size();
    let mut sums = ArrayBuilder::with_capacity(alloc, dim, Order::RowMajor)?;
    if size == 0 {
        // However many rows there are.
        return Ok(sums.finish());
    }
    let columns = inner_lanes(y);
    for row in x.rows() {
        push_sums(&mut sums, &row, columns.again());
    }
    Ok(sums.finish())
}

/// The lanes of the right side of a product that meet the rows of the left: along the last axis but one, or the only one.
pub(crate) fn inner_lanes<'a, A>(right: &'a ArrayView<'_, A, IxDyn>) -> Lanes<'a, A, IxDyn>
    requires { 1 ≤ length right.now.lengths }
    ensures { result ≡ lanes_of right.now (length right.now.lengths - 2) }
{
    right.lanes(Axis(right.ndim().saturating_sub(2)))
}

/// Pushes the sum of the products of a row and each of some columns.
fn push_sums<A: LinalgScalar>(
    sums: &mut ArrayBuilder<A, IxDyn>,
    row: &ArrayView<'_, A, Ix1>,
    columns: Lanes<'_, A, IxDyn>,
)
    requires can { All (CanSumLanes A.Valued row.now) columns.cells }
    requires room { length sums.old.cells + length columns.cells ≤ size sums.old.lengths }
    ensures { PushesSums A.Valued row.now columns.entry.cells sums.old sums.new }
{
    for column in columns {
        sums.push(inner(row, &column));
    }
}
