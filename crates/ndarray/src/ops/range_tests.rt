//! Tests whether the results of operators on integers are numbers of their type: for `+`, `-` and `*`, their assigning forms, and unary
//! `-`.

ghost use Rattle.std.specs.Prelude.{◌≡◌, ◌↔◌, ◌+ℤ◌, ◌-ℤ◌, ◌*ℤ◌, ⊤, ℕ, List, Some, IsTrue, neg_ℤ};
ghost use Rattle.ndarray.specs.Broadcast.{BroadcastTogether, broadcast_lengths};
ghost use Rattle.ndarray.specs.Elementwise.{CanAssign, CanCombine, CanMap};
ghost use Rattle.ndarray.specs.Grid.{cell};

use crate::base::array::{ArrayBase, ArrayView};
use crate::base::dim_max::DimMax;
use crate::base::dimension::Lengths;
use crate::base::storage::Data;
use crate::ops::operations::{Addition, Multiplication, Subtraction};
use crate::zip::all_items::all_in_either_order;
use crate::zip::closures::ItemCall;
use crate::zip::pair::Pair;
use crate::zip::producer::IntoBroadcast;
use num_traits::{CheckedAdd, CheckedMul, CheckedNeg, CheckedSub, Num, One, Signed, Zero};
use std::marker::PhantomData;

impl<A: Zero + CheckedAdd, S: Data<Elem = A>, D: Lengths> ArrayBase<S, D> {
    /// Whether `self + rhs` may be computed: the shapes broadcast together, as [`broadcast_ok`](Self::broadcast_ok) tests, and the sum of
    /// the two cells at each index list is in the type's range.
    ///
    /// Requires nothing, and the test allocates nothing. For `self += rhs` there is
    /// [`add_assign_fits`](Self::add_assign_fits).
    ///
    /// ```
    /// if a.add_fits(&b) {
    ///     let sums = (&a + &b)?;
    /// }
    /// ```
    pub fn add_fits<S2: Data<Elem = A>, E: Lengths>(&self, rhs: &ArrayBase<S2, E>) -> bool
    where
        D: DimMax<E>,
        ensures exact { IsTrue result ↔ CanCombine self.now rhs.now (λ x y. A.fits (A.value x +ℤ A.value y)) }
        ensures defined { IsTrue result → CanCombine self.now rhs.now A.can_add }
    {
        combination_fits::<Addition, A, D, E>(&self.view(), &rhs.view())
    }

    /// Whether `self += rhs` may be computed: `rhs` broadcasts to the shape of this array, and the sum of the two cells at each index list
    /// is in the type's range.
    ///
    /// Requires nothing, and the test allocates nothing.
    ///
    /// ```
    /// if table.add_assign_fits(&row) {
    ///     table += &row;
    /// }
    /// ```
    pub fn add_assign_fits<S2: Data<Elem = A>, E: Lengths>(&self, rhs: &ArrayBase<S2, E>) -> bool
        ensures exact { IsTrue result ↔ CanAssign (λ x y. A.fits (A.value x +ℤ A.value y)) self.now rhs.now }
        ensures defined { IsTrue result → CanAssign A.can_add self.now rhs.now }
    {
        assignment_fits::<Addition, A, D, E>(&self.view(), &rhs.view())
    }

    /// Whether `self + scalar` and `self += scalar` may be computed: the sum of each cell and the scalar is in the type's range.
    ///
    /// Requires nothing, and the test allocates nothing.
    ///
    /// ```
    /// assert!(ArrayView::from_shape(2, &[1i8, 126])?.add_scalar_fits(1));
    /// assert!(!ArrayView::from_shape(2, &[1i8, 127])?.add_scalar_fits(1));
    /// ```
    pub fn add_scalar_fits(&self, scalar: A) -> bool
        ensures exact { IsTrue result ↔ CanMap (λ x. A.fits (A.value x +ℤ A.value scalar)) self.now }
        ensures defined { IsTrue result → CanMap (λ x. A.can_add x scalar) self.now }
    {
        scalar_fits::<Addition, A, D>(&self.view(), &scalar)
    }
}

impl<A: Num + CheckedSub, S: Data<Elem = A>, D: Lengths> ArrayBase<S, D> {
    /// Whether `self - rhs` may be computed: the shapes broadcast together, as [`broadcast_ok`](Self::broadcast_ok) tests, and the
    /// difference of the two cells at each index list is in the type's range.
    ///
    /// Requires nothing, and the test allocates nothing. For `self -= rhs` there is
    /// [`sub_assign_fits`](Self::sub_assign_fits).
    ///
    /// ```
    /// if a.sub_fits(&b) {
    ///     let differences = (&a - &b)?;
    /// }
    /// ```
    pub fn sub_fits<S2: Data<Elem = A>, E: Lengths>(&self, rhs: &ArrayBase<S2, E>) -> bool
    where
        D: DimMax<E>,
        ensures exact { IsTrue result ↔ CanCombine self.now rhs.now (λ x y. A.fits (A.value x -ℤ A.value y)) }
        ensures defined { IsTrue result → CanCombine self.now rhs.now A.can_sub }
    {
        combination_fits::<Subtraction, A, D, E>(&self.view(), &rhs.view())
    }

    /// Whether `self -= rhs` may be computed: `rhs` broadcasts to the shape of this array, and the difference of the two cells at each
    /// index list is in the type's range.
    ///
    /// Requires nothing, and the test allocates nothing.
    ///
    /// ```
    /// if table.sub_assign_fits(&row) {
    ///     table -= &row;
    /// }
    /// ```
    pub fn sub_assign_fits<S2: Data<Elem = A>, E: Lengths>(&self, rhs: &ArrayBase<S2, E>) -> bool
        ensures exact { IsTrue result ↔ CanAssign (λ x y. A.fits (A.value x -ℤ A.value y)) self.now rhs.now }
        ensures defined { IsTrue result → CanAssign A.can_sub self.now rhs.now }
    {
        assignment_fits::<Subtraction, A, D, E>(&self.view(), &rhs.view())
    }

    /// Whether `self - scalar` and `self -= scalar` may be computed: the difference of each cell and the scalar is in the type's range.
    ///
    /// Requires nothing, and the test allocates nothing.
    ///
    /// ```
    /// assert!(ArrayView::from_shape(2, &[1u8, 3])?.sub_scalar_fits(1));
    /// assert!(!ArrayView::from_shape(2, &[0u8, 3])?.sub_scalar_fits(1));
    /// ```
    pub fn sub_scalar_fits(&self, scalar: A) -> bool
        ensures exact { IsTrue result ↔ CanMap (λ x. A.fits (A.value x -ℤ A.value scalar)) self.now }
        ensures defined { IsTrue result → CanMap (λ x. A.can_sub x scalar) self.now }
    {
        scalar_fits::<Subtraction, A, D>(&self.view(), &scalar)
    }
}

impl<A: One + CheckedMul, S: Data<Elem = A>, D: Lengths> ArrayBase<S, D> {
    /// Whether `self * rhs` may be computed: the shapes broadcast together, as [`broadcast_ok`](Self::broadcast_ok) tests, and the product
    /// of the two cells at each index list is in the type's range.
    ///
    /// Requires nothing, and the test allocates nothing. For `self *= rhs` there is
    /// [`mul_assign_fits`](Self::mul_assign_fits).
    ///
    /// ```
    /// if a.mul_fits(&b) {
    ///     let products = (&a * &b)?;
    /// }
    /// ```
    pub fn mul_fits<S2: Data<Elem = A>, E: Lengths>(&self, rhs: &ArrayBase<S2, E>) -> bool
    where
        D: DimMax<E>,
        ensures exact { IsTrue result ↔ CanCombine self.now rhs.now (λ x y. A.fits (A.value x *ℤ A.value y)) }
        ensures defined { IsTrue result → CanCombine self.now rhs.now A.can_mul }
    {
        combination_fits::<Multiplication, A, D, E>(&self.view(), &rhs.view())
    }

    /// Whether `self *= rhs` may be computed: `rhs` broadcasts to the shape of this array, and the product of the two cells at each index
    /// list is in the type's range.
    ///
    /// Requires nothing, and the test allocates nothing.
    ///
    /// ```
    /// if table.mul_assign_fits(&row) {
    ///     table *= &row;
    /// }
    /// ```
    pub fn mul_assign_fits<S2: Data<Elem = A>, E: Lengths>(&self, rhs: &ArrayBase<S2, E>) -> bool
        ensures exact { IsTrue result ↔ CanAssign (λ x y. A.fits (A.value x *ℤ A.value y)) self.now rhs.now }
        ensures defined { IsTrue result → CanAssign A.can_mul self.now rhs.now }
    {
        assignment_fits::<Multiplication, A, D, E>(&self.view(), &rhs.view())
    }

    /// Whether `self * scalar` and `self *= scalar` may be computed: the product of each cell and the scalar is in the type's range.
    ///
    /// Requires nothing, and the test allocates nothing.
    ///
    /// ```
    /// assert!(ArrayView::from_shape(2, &[1i8, 64])?.mul_scalar_fits(-2));
    /// assert!(!ArrayView::from_shape(2, &[1i8, 64])?.mul_scalar_fits(2));
    /// ```
    pub fn mul_scalar_fits(&self, scalar: A) -> bool
        ensures exact { IsTrue result ↔ CanMap (λ x. A.fits (A.value x *ℤ A.value scalar)) self.now }
        ensures defined { IsTrue result → CanMap (λ x. A.can_mul x scalar) self.now }
    {
        scalar_fits::<Multiplication, A, D>(&self.view(), &scalar)
    }
}

impl<A: Signed + CheckedNeg, S: Data<Elem = A>, D: Lengths> ArrayBase<S, D> {
    /// Whether `-self` may be computed: the negative of each cell is in the type's range. Like `-`, the test is for signed types only.
    ///
    /// Requires nothing, and the test allocates nothing.
    ///
    /// ```
    /// assert!(ArrayView::from_shape(2, &[127i8, -127])?.neg_fits());
    /// assert!(!ArrayView::from_shape(1, &[-128i8])?.neg_fits());
    /// ```
    pub fn neg_fits(&self) -> bool
        ensures exact { IsTrue result ↔ CanMap (λ x. A.fits (neg_ℤ (A.value x))) self.now }
        ensures defined { IsTrue result → CanMap A.can_neg self.now }
    {
        negatives_fit(&self.view())
    }
}

/// A test of two numbers: whether the result of an operation on them is a number of their type.
pub(crate) trait RangeTest<A> {
    // Whether the type has the result.
    ghost result_fits: { A → A → Type 0 };

    // Whether the operation is defined.
    ghost can_apply: { A → A → Type 0 };

    /// Whether the type has the result.
    fn result_fits(x: &A, y: &A) -> bool
        ensures { IsTrue result ↔ result_fits x.now y.now };

    // Then it is defined.
    ghost defined: { (x y : A) → result_fits x y → can_apply x y };
}

impl<A: Zero + CheckedAdd> RangeTest<A> for Addition {
    ghost result_fits = { λ x y. A.fits (A.value x +ℤ A.value y) };

    ghost can_apply = { A.can_add };

    fn result_fits(x: &A, y: &A) -> bool {
        x.checked_add(y).is_some()
    }

    ghost defined = { λ x y h. A.can_add_law x y (λ _. h) };
}

impl<A: Num + CheckedSub> RangeTest<A> for Subtraction {
    ghost result_fits = { λ x y. A.fits (A.value x -ℤ A.value y) };

    ghost can_apply = { A.can_sub };

    fn result_fits(x: &A, y: &A) -> bool {
        x.checked_sub(y).is_some()
    }

    ghost defined = { λ x y h. A.can_sub_law x y (λ _. h) };
}

impl<A: One + CheckedMul> RangeTest<A> for Multiplication {
    ghost result_fits = { λ x y. A.fits (A.value x *ℤ A.value y) };

    ghost can_apply = { A.can_mul };

    fn result_fits(x: &A, y: &A) -> bool {
        x.checked_mul(y).is_some()
    }

    ghost defined = { λ x y h. A.can_mul_law x y (λ _. h) };
}

/// Whether two arrays broadcast together, and the type has the result at the two cells at each index list.
fn combination_fits<O: RangeTest<A>, A, D: DimMax<E>, E: Lengths>(
    left: &ArrayView<'_, A, D>,
    right: &ArrayView<'_, A, E>,
) -> bool
    ensures exact { IsTrue result ↔ CanCombine left.now right.now O.result_fits }
    ensures defined { IsTrue result → CanCombine left.now right.now O.can_apply }
{
    let Some(dim) = left.broadcast_dim(right) else {
        return false;
    };
    combination_fits_at::<O, A, D, E, _>(left, right, dim)
}

/// The same at the lengths of the two broadcast together.
fn combination_fits_at<O: RangeTest<A>, A, D: Lengths, E: Lengths, R: Lengths>(
    left: &ArrayView<'_, A, D>,
    right: &ArrayView<'_, A, E>,
    dim: R,
) -> bool
    requires shapes { BroadcastTogether left.now.lengths right.now.lengths }
    requires lengths { R.numbers dim ≡ broadcast_lengths left.now.lengths right.now.lengths }
    ensures exact { IsTrue result ↔ CanCombine left.now right.now O.result_fits }
    ensures defined { IsTrue result → CanCombine left.now right.now O.can_apply }
{
    let left = left.view().into_broadcast(dim.copied());
    let right = right.view().into_broadcast(dim);
    pairs_fit::<O, A, R>(&left, &right)
}

/// Whether the right array broadcasts to the lengths of the left one, and the type has the result at each left cell and the
/// right one there.
fn assignment_fits<O: RangeTest<A>, A, D: Lengths, E: Lengths>(
    left: &ArrayView<'_, A, D>,
    right: &ArrayView<'_, A, E>,
) -> bool
    ensures exact { IsTrue result ↔ CanAssign O.result_fits left.now right.now }
    ensures defined { IsTrue result → CanAssign O.can_apply left.now right.now }
{
    let Some(right) = right.broadcast_to(left.raw_dim()) else {
        return false;
    };
    pairs_fit::<O, A, D>(left, &right)
}

/// Whether the type has the result at the two cells at each index list of two arrays of the same lengths.
pub(crate) fn pairs_fit<O: RangeTest<A>, A, R: Lengths>(
    left: &ArrayView<'_, A, R>,
    right: &ArrayView<'_, A, R>,
) -> bool
    requires { left.now.lengths ≡ right.now.lengths }
    ensures { IsTrue result ↔ ((is : List ℕ) (x y : A) → cell left.now is ≡ Some x → cell right.now is ≡ Some y → O.result_fits x y) }
{
    let cells = Pair {
        first: left.view(),
        second: right.view(),
    };
    all_in_either_order(cells, BothFit::<O>(PhantomData))
}

/// Whether the type has the result at two cells, as a call.
#[derive(Drop)]
struct BothFit<O>(PhantomData<O>);

impl<'a, 'b, A, O: RangeTest<A>> ItemCall<(&'a A, &'b A)> for BothFit<O> {
    type Out = bool;

    ghost can_call = { λ _ _. ⊤ };

    ghost call_gives = { λ c t r d. (IsTrue r ↔ O.result_fits t.0.now t.1.now) × (d ≡ c) };

    fn call(&mut self, item: (&'a A, &'b A)) -> bool {
        let (x, y) = item;
        O::result_fits(x, y)
    }
}

/// Whether the type has the result at each cell and a scalar.
fn scalar_fits<O: RangeTest<A>, A, D: Lengths>(array: &ArrayView<'_, A, D>, scalar: &A) -> bool
    ensures exact { IsTrue result ↔ CanMap (λ x. O.result_fits x scalar.now) array.now }
    ensures defined { IsTrue result → CanMap (λ x. O.can_apply x scalar.now) array.now }
{
    let test = RightFits::<'_, O, A> {
        scalar,
        operation: PhantomData,
    };
    all_in_either_order(array.view(), test)
}

/// Whether the type has the result at a cell and a scalar on its right, as a call.
#[derive(Drop)]
struct RightFits<'c, O, A> {
    scalar: &'c A,
    operation: PhantomData<O>,
}

impl<'a, 'c, A, O: RangeTest<A>> ItemCall<&'a A> for RightFits<'c, O, A> {
    type Out = bool;

    ghost can_call = { λ _ _. ⊤ };

    ghost call_gives = { λ c x r d. (IsTrue r ↔ O.result_fits x.now c.scalar.now) × (d ≡ c) };

    fn call(&mut self, item: &'a A) -> bool {
        O::result_fits(item, self.scalar)
    }
}

/// Whether the type has the negative of each cell.
fn negatives_fit<A: CheckedNeg, D: Lengths>(array: &ArrayView<'_, A, D>) -> bool
    ensures { IsTrue result ↔ CanMap (λ x. A.fits (neg_ℤ (A.value x))) array.now }
{
    all_in_either_order(array.view(), NegativeFits)
}

/// Whether the type has the negative of a cell, as a call.
#[derive(Drop)]
struct NegativeFits;

impl<'a, A: CheckedNeg> ItemCall<&'a A> for NegativeFits {
    type Out = bool;

    ghost can_call = { λ _ _. ⊤ };

    ghost call_gives = { λ c x r d. (IsTrue r ↔ A.fits (neg_ℤ (A.value x.now))) × (d ≡ c) };

    fn call(&mut self, item: &'a A) -> bool {
        item.checked_neg().is_some()
    }
}
