//! Inner sums: of the products of a row and a column, of which each entry of a product of matrices is one.

ghost use Rattle.std.specs.Prelude.{◌≡◌, length};
ghost use Rattle.ndarray.specs.Grid.{IsGrid};
ghost use Rattle.ndarray.specs.Products.{CanSumInner, column_of, matrix_of, product_of, products_of};
ghost use Rattle.ndarray.specs.Sums.{IsSummable, total};

use crate::base::array::ArrayView;
use crate::base::axis::Axis;
use crate::base::dimension::{Dimension, Ix1, Ix2};
use crate::base::strided::{Strided, cells_of};
use crate::elements::LinalgScalar;
use crate::elements::sums::add_product;
use crate::linalg::entries::Entries;
use crate::unrolled::unrolled_dot;

/// The sum of the products of two vectors' cells, place by place, and zero if they have none. It allocates nothing.
pub(crate) fn inner<A: LinalgScalar>(x: &ArrayView<'_, A, Ix1>, y: &ArrayView<'_, A, Ix1>) -> A
    requires same { length x.now.cells ≡ length y.now.cells }
    requires sums { IsSummable A.addition A.InRange (products_of A.multiplication A.meaning x.now.cells y.now.cells) }
    ensures { A.meaning result ≡ total A.addition (products_of A.multiplication A.meaning x.now.cells y.now.cells) }
{
    inner_of(cells_of(x.view()), cells_of(y.view()))
}

/// The same for two lists of cells.
#[inline(always)]
pub(crate) fn inner_of<A: LinalgScalar>(left: Strided<'_, A>, right: Strided<'_, A>) -> A
    requires same { length left ≡ length right }
    requires sums { IsSummable A.addition A.InRange (products_of A.multiplication A.meaning left right) }
    ensures { A.meaning result ≡ total A.addition (products_of A.multiplication A.meaning left.entry right.entry) }
{
    if let Some(xs) = left.side_by_side() {
        if let Some(ys) = right.side_by_side() {
            return unrolled_dot(xs, ys);
        }
    }
    let mut xs = left;
    let mut ys = right;
    let mut sum = A::zero();
    while let Some(x) = xs.next() {
        let Some(y) = ys.next() else { unreachable!() };
        sum = add_product(sum, *x, *y);
    }
    sum
}

/// The inner sums of the rows of a matrix with the columns of another.
#[derive(Drop)]
pub(crate) struct RowsByColumns<'a, 'b, A> {
    pub(crate) left: ArrayView<'a, A, Ix2>,
    pub(crate) right: ArrayView<'b, A, Ix2>,
}

impl<'a, 'b, A: LinalgScalar> Entries<(usize, usize)> for RowsByColumns<'a, 'b, A> {
    type Elem = A;

    ghost can_compute = { λ s t. CanSumInner A.Valued (matrix_of A.Valued s.left) (matrix_of A.Valued s.right) t.0 t.1 × (length s.left.lengths ≡ 2) × (length s.right.lengths ≡ 2) };

    ghost computes = { λ s t r. A.meaning r ≡ (product_of A.Valued (matrix_of A.Valued s.left) (matrix_of A.Valued s.right)).cell t.0 t.1 };

    fn entry(&self, at: (usize, usize)) -> A {
        let (i, j) = at;
        inner(
            &self.left.index_axis(Axis(0), i),
            &self.right.index_axis(Axis(1), j),
        )
    }
}

/// The inner sums of the rows of a matrix with a vector.
#[derive(Drop)]
pub(crate) struct RowsByVector<'a, 'b, A> {
    pub(crate) left: ArrayView<'a, A, Ix2>,
    pub(crate) right: ArrayView<'b, A, Ix1>,
}

impl<'a, 'b, A: LinalgScalar> Entries<usize> for RowsByVector<'a, 'b, A> {
    type Elem = A;

    ghost can_compute = { λ s i. CanSumInner A.Valued (matrix_of A.Valued s.left) (column_of A.Valued s.right) i 0 × (length s.left.lengths ≡ 2) × (length s.right.lengths ≡ 1) × IsGrid s.right };

    ghost computes = { λ s i r. A.meaning r ≡ (product_of A.Valued (matrix_of A.Valued s.left) (column_of A.Valued s.right)).cell i 0 };

    fn entry(&self, at: usize) -> A {
        inner(&self.left.index_axis(Axis(0), at), &self.right)
    }
}
