//! Products of vectors and matrices by `dot`.

ghost use Rattle.std.specs.Prelude.{◌≡◌, ◌↔◌, ◌+◌, ◌++◌, ◌≤◌, IsTrue, length};
ghost use Rattle.ndarray.specs.Dimensions.{held_numbers};
ghost use Rattle.ndarray.specs.Products.{HasSumsInRange, MakesColumn, MakesMatrix, MakesRow, ShapesMultiply, column_of, matrix_of, product_lengths, product_of, products_of, row_of};
ghost use Rattle.ndarray.specs.Sums.{IsSummable, total};

use crate::base::array::{Array, ArrayBase};
use crate::base::dimension::{Ix1, Ix2, IxDyn, Lengths};
use crate::base::storage::Data;
use crate::elements::LinalgScalar;
use crate::linalg::inner::inner;
use crate::linalg::matrix_products::{matrix_product, row_product};
use arrayvec::ArrayVec;
use std::alloc::{AllocError, Global};

/// Arrays that have a product with `Rhs`: vectors and matrices with vectors and matrices, and arrays of `IxDyn` with arrays of `IxDyn`.
pub trait Dot<Rhs> {
    /// The product: an element for two vectors, else an array or an allocation failure.
    type Output;

    // Whether `dot` may be called.
    ghost can_dot: { Self → Rhs → Type 0 };

    // Whether this is the product.
    ghost dot_gives: { Self → Rhs → Self.Output → Type 0 };

    /// The product of the two, with this one on the left: at row i and column j it has the sum of the products of the cells of row i of the
    /// left and of column j of the right, which is zero if the inner length is 0. A vector on the left is taken as one row, one on the
    /// right as one column, and the product has no axis for it. The product of an (m, k) and a (k, n) matrix has the lengths (m, n), that
    /// of a matrix and a vector (m), and that of a vector and a matrix (n). That of two vectors is a number, or, if they are of `IxDyn`, an
    /// array without axes.
    ///
    /// Arrays of `IxDyn` may have any number of axes, but at least one. The left's last axis meets the right's last but one, or its only
    /// one; the product has the left's other axes, then the right's other axes. Each cell is the sum of the products of the two lanes that
    /// meet there. The product of a (2, 3, 4) and a (5, 4, 6) array has the lengths (2, 3, 5, 6).
    ///
    /// Requires that the shapes agree, which [`dot_ok`] tests, and that in each inner sum every selection of the products has its sum in
    /// range. For integers [`entries_fit`](crate::linalg::entries_fit) tests both. The error is an allocation failure, and is never
    /// reported if the product has no cells.
    ///
    /// ```
    /// let a = ArrayView::from_shape(IxDyn(&[2, 1, 2]), &[1i64, 2, 3, 4])?;
    /// let b = ArrayView::from_shape(IxDyn(&[2, 2]), &[1i64, 0, 1, 1])?;
    /// if entries_fit(&a, &b) {
    ///     a.dot(alloc, &b)?; // [[[3, 2]], [[7, 4]]]
    /// }
    /// ```
    fn dot(&self, alloc: Global, rhs: &Rhs) -> Self::Output
        requires { can_dot self.now rhs.now }
        ensures { dot_gives self.now rhs.now result };
}

/// Whether the shapes of two arrays agree, so that they have a product: each has an axis, the last length of the left is the last but one
/// of the right, or its only one, and the product has at most 32 axes, whose nonzero lengths multiply to at most `isize::MAX`.
///
/// ```
/// assert!(dot_ok(&a, &b)); // with the lengths (2, 3) and (3, 4)
/// assert!(!dot_ok(&b, &a));
/// ```
pub fn dot_ok<S: Data, S2: Data, D: Lengths, E: Lengths>(
    left: &ArrayBase<S, D>,
    right: &ArrayBase<S2, E>,
) -> bool
    ensures { IsTrue result ↔ ShapesMultiply left.now.lengths right.now.lengths }
{
    let (left, right) = (left.raw_dim(), right.raw_dim());
    shapes_multiply(left.slice(), right.slice())
}

/// Whether lengths are those of two arrays that have a product.
fn shapes_multiply(ns: &[usize], ms: &[usize]) -> bool
    ensures { IsTrue result ↔ ShapesMultiply ns.now ms.now }
{
    let (n, m) = (ns.len(), ms.len());
    if n == 0 || m == 0 || n > 33 || m > 33 || n + m > 34 {
        return false;
    }
    ns[n - 1] == ms[m.saturating_sub(2)] && product_dim(ns, ms).size_ok()
}

/// The lengths of the product of two arrays.
pub(crate) fn product_dim(ns: &[usize], ms: &[usize]) -> IxDyn
    requires left { 1 ≤ length ns.now }
    requires right { 1 ≤ length ms.now }
    requires axes { length (product_lengths ns.now ms.now) ≤ 32 }
    ensures { held_numbers result.0 ≡ product_lengths ns.now ms.now }
{
    let inner = ms.len().saturating_sub(2);
    let mut lengths = ArrayVec::new();
    append(&mut lengths, &ns[..ns.len() - 1]);
    append(&mut lengths, &ms[..inner]);
    append(&mut lengths, &ms[inner + 1..]);
    IxDyn(lengths.as_slice())
}

/// Appends lengths. Requires at most 32 in all.
fn append(lengths: &mut ArrayVec<usize, 32>, more: &[usize])
    requires { length lengths.old.items + length more.now ≤ 32 }
    ensures { lengths.new.items ≡ lengths.old.items ++ more.now }
{
    let Ok(()) = lengths.try_extend_from_slice(more) else {
        unreachable!()
    };
}

impl<A: LinalgScalar, S: Data<Elem = A>, S2: Data<Elem = A>> Dot<ArrayBase<S2, Ix1>>
    for ArrayBase<S, Ix1> {
    type Output = A;

    ghost can_dot = { λ a b. (a.lengths ≡ b.lengths) × IsSummable A.addition A.InRange (products_of A.multiplication A.meaning a.cells b.cells) };

    ghost dot_gives = { λ a b r. A.meaning r ≡ total A.addition (products_of A.multiplication A.meaning a.cells b.cells) };

    fn dot(&self, _alloc: Global, rhs: &ArrayBase<S2, Ix1>) -> A {
        inner(&self.view(), &rhs.view())
    }
}

impl<A: LinalgScalar, S: Data<Elem = A>, S2: Data<Elem = A>> Dot<ArrayBase<S2, Ix2>>
    for ArrayBase<S, Ix1> {
    type Output = Result<Array<A, Ix1>, AllocError>;

    ghost can_dot = { λ a b. ShapesMultiply a.lengths b.lengths × HasSumsInRange A.Valued (row_of A.Valued a) (matrix_of A.Valued b) };

    ghost dot_gives = { λ a b r. MakesRow A.Valued (product_of A.Valued (row_of A.Valued a) (matrix_of A.Valued b)) r };

    fn dot(&self, alloc: Global, rhs: &ArrayBase<S2, Ix2>) -> Result<Array<A, Ix1>, AllocError> {
        row_product(alloc, &self.view(), &rhs.view())
    }
}

impl<A: LinalgScalar, S: Data<Elem = A>, S2: Data<Elem = A>> Dot<ArrayBase<S2, Ix1>>
    for ArrayBase<S, Ix2> {
    type Output = Result<Array<A, Ix1>, AllocError>;

    ghost can_dot = { λ a b. ShapesMultiply a.lengths b.lengths × HasSumsInRange A.Valued (matrix_of A.Valued a) (column_of A.Valued b) };

    ghost dot_gives = { λ a b r. MakesColumn A.Valued (product_of A.Valued (matrix_of A.Valued a) (column_of A.Valued b)) r };

    fn dot(&self, alloc: Global, rhs: &ArrayBase<S2, Ix1>) -> Result<Array<A, Ix1>, AllocError> {
        row_product(alloc, &rhs.view(), &self.t())
    }
}

impl<A: LinalgScalar, S: Data<Elem = A>, S2: Data<Elem = A>> Dot<ArrayBase<S2, Ix2>>
    for ArrayBase<S, Ix2> {
    type Output = Result<Array<A, Ix2>, AllocError>;

    ghost can_dot = { λ a b. ShapesMultiply a.lengths b.lengths × HasSumsInRange A.Valued (matrix_of A.Valued a) (matrix_of A.Valued b) };

    ghost dot_gives = { λ a b r. MakesMatrix A.Valued (product_of A.Valued (matrix_of A.Valued a) (matrix_of A.Valued b)) r };

    fn dot(&self, alloc: Global, rhs: &ArrayBase<S2, Ix2>) -> Result<Array<A, Ix2>, AllocError> {
        matrix_product(alloc, &self.view(), &rhs.view())
    }
}

impl<S: Data> ArrayBase<S, Ix1> {
    /// The product with a vector or a matrix on the right; [`Dot::dot`] says what it requires and returns. With a vector it is the sum of
    /// the products of their cells, and allocates nothing.
    ///
    /// ```
    /// let (x, y) = (ArrayView::from_shape(2, &[1i64, 2])?, ArrayView::from_shape(2, &[3i64, 4])?);
    /// if dot_fits(&x, &y) {
    ///     assert_eq!(x.dot(alloc, &y), 11);
    /// }
    /// ```
    pub fn dot<Rhs>(&self, alloc: Global, rhs: &Rhs) -> <Self as Dot<Rhs>>::Output
    where
        Self: Dot<Rhs>,
        requires { ⟦<ArrayBase<S, Ix1> as Dot<Rhs>>⟧.can_dot self.now rhs.now }
        ensures { ⟦<ArrayBase<S, Ix1> as Dot<Rhs>>⟧.dot_gives self.now rhs.now result }
    {
        Dot::dot(self, alloc, rhs)
    }
}

impl<S: Data> ArrayBase<S, Ix2> {
    /// The product with a vector or a matrix on the right; [`Dot::dot`] says what it requires and returns.
    ///
    /// ```
    /// let a = ArrayView::from_shape((2, 2), &[1i64, 2, 0, 1])?;
    /// let b = ArrayView::from_shape((2, 2), &[1i64, 2, 2, 3])?;
    /// a.dot(alloc, &b)?; // [[5, 8], [2, 3]]
    /// ```
    pub fn dot<Rhs>(&self, alloc: Global, rhs: &Rhs) -> <Self as Dot<Rhs>>::Output
    where
        Self: Dot<Rhs>,
        requires { ⟦<ArrayBase<S, Ix2> as Dot<Rhs>>⟧.can_dot self.now rhs.now }
        ensures { ⟦<ArrayBase<S, Ix2> as Dot<Rhs>>⟧.dot_gives self.now rhs.now result }
    {
        Dot::dot(self, alloc, rhs)
    }
}

impl<S: Data> ArrayBase<S, IxDyn> {
    /// The product with an array on the right; both have at least one axis. [`Dot::dot`] says what it requires and returns.
    ///
    /// ```
    /// // a = [[[1, 2]], [[3, 4]]], b = [[1, 0], [1, 1]]
    /// a.dot(alloc, &b)?; // [[[3, 2]], [[7, 4]]]
    /// ```
    pub fn dot<Rhs>(&self, alloc: Global, rhs: &Rhs) -> <Self as Dot<Rhs>>::Output
    where
        Self: Dot<Rhs>,
        requires { ⟦<ArrayBase<S, IxDyn> as Dot<Rhs>>⟧.can_dot self.now rhs.now }
        ensures { ⟦<ArrayBase<S, IxDyn> as Dot<Rhs>>⟧.dot_gives self.now rhs.now result }
    {
        Dot::dot(self, alloc, rhs)
    }
}
