//! Tests whether the sums and the products of an array's cells are in the range of their integer type.

ghost use Rattle.std.specs.Prelude.{◌≡◌, ◌↔◌, ◌+ℤ◌, ◌*ℤ◌, ◌<ℤ◌, ◌≤ℤ◌, ◌+◌, ◌<◌, ◌++◌, ◌∷◌, [], ℕ, ℤ, List, IfSome, IsSome, IsTrue, MatchOption, drop, length, map, pos, unsigned_abs};
ghost use Rattle.std.specs.List.{AllByRecursion};
ghost use Rattle.num_traits.specs.Laws.{Checks};
ghost use Rattle.ndarray.specs.AlongAxis.{IsSummableArray};
ghost use Rattle.ndarray.specs.Elementwise.{CanMap};
ghost use Rattle.ndarray.specs.Products.{magnitude_sum, products_of};
ghost use Rattle.ndarray.specs.reduce.NonzeroProducts.{MultipliedSoFar};
ghost use Rattle.ndarray.specs.reduce.SignedSums.{AddedApart, ProductsApart};
ghost use Rattle.ndarray.specs.Subviews.{axis_items, lanes_of};
ghost use Rattle.ndarray.specs.Sums.{IsSummable, IsSummableBy, total, total_by};
ghost use Rattle.ndarray.specs.Integers.{int_products, int_sums, magnitude_product, negative_sum, nonzero_magnitude, positive_sum};

use crate::base::array::{ArrayBase, ArrayView};
use crate::base::dimension::{Dimension, Ix1, Lengths};
use crate::base::storage::Data;
use crate::base::strided::{Strided, cells_of};
use crate::elements::{IntegerElem, IntegerScalar};
use crate::iter::runs::CellRuns;
use crate::order::Order;
use crate::order::rows::BoxRows;
use crate::reduce::small_products::{lists_have_small_products, sum_of_small_products};
use crate::zip::pair::PairRun;
use num_traits::{CheckedAdd, Zero};

impl<A: Zero + CheckedAdd, S: Data<Elem = A>, D: Lengths> ArrayBase<S, D> {
    /// Whether every selection of the cells has its sum in the type's range, as [`sum`](Self::sum) requires.
    ///
    /// This holds exactly if the positive cells add up to at most the type's greatest number and the negative cells to at least its least.
    /// Then [`sum_axis`](Self::sum_axis) may be called too, along any axis, and [`sum`](Self::sum) of each item along any axis, as
    /// [`outer_iter`](Self::outer_iter) yields them along the first. Requires nothing, and the test allocates nothing.
    ///
    /// ```
    /// assert!(ArrayView::from_shape(2, &[127i8, -128])?.sums_fit());
    /// assert!(!ArrayView::from_shape(3, &[127i8, -1, 1])?.sums_fit());
    /// ```
    pub fn sums_fit(&self) -> bool
        ensures selections { IsTrue result ↔ IsSummableBy int_sums A.fits A.value self.now.cells }
        ensures bounds { IsTrue result ↔ (A.fits (positive_sum (map A.value self.now.cells))
            × A.fits (negative_sum (map A.value self.now.cells))) }
        ensures lanes { IsTrue result → (axis : ℕ) → axis < length self.now.lengths → CanMap (IsSummableArray int_sums A.fits A.value) (lanes_of self.now axis) }
        ensures items { IsTrue result → (axis : ℕ) → axis < length self.now.lengths → AllByRecursion (IsSummableArray int_sums A.fits A.value) (axis_items self.now axis) }
    {
        signed_sums(&self.view()).is_some()
    }

    /// The sum of all cells, if every selection of them has its sum in the type's range; else `None`. So it is `Some` exactly if
    /// [`sums_fit`](Self::sums_fit) is true, and then has the value of [`sum`](Self::sum): one pass over the cells both tests and adds.
    ///
    /// It requires nothing, and allocates nothing.
    ///
    /// ```
    /// assert_eq!(ArrayView::from_shape(2, &[127i8, -128])?.checked_sum(), Some(-1));
    /// assert_eq!(ArrayView::from_shape(3, &[127i8, -1, 1])?.checked_sum(), None);
    /// ```
    pub fn checked_sum(&self) -> Option<A>
        ensures selections { IsSome result ↔ IsSummableBy int_sums A.fits A.value self.now.cells }
        ensures bounds { IsSome result ↔ (A.fits (positive_sum (map A.value self.now.cells))
            × A.fits (negative_sum (map A.value self.now.cells))) }
        ensures sum { IfSome result (λ s. A.value s ≡ total_by int_sums A.value self.now.cells) }
    {
        let Some(sums) = signed_sums(&self.view()) else {
            return None;
        };
        sums.up.checked_add(&sums.down)
    }
}

impl<A: IntegerElem, S: Data<Elem = A>, D: Lengths> ArrayBase<S, D> {
    /// Whether the absolute values of the nonzero cells multiply to at most the type's greatest number. Then every selection of the cells
    /// has its product in the type's range, as [`product`](Self::product) requires, and [`product_axis`](Self::product_axis) may be called
    /// too, along any axis, and `product` of each item along any axis, as [`outer_iter`](Self::outer_iter) yields them along the first.
    ///
    /// Requires nothing, and the test allocates nothing. It may return `false` although `product` may be called, as for the least number of
    /// a signed type alone.
    ///
    /// ```
    /// assert!(ArrayView::from_shape(3, &[-127i8, 1, 0])?.products_fit());
    /// assert!(!ArrayView::from_shape(1, &[-128i8])?.products_fit());
    /// ```
    pub fn products_fit(&self) -> bool
        ensures magnitudes { IsTrue result ↔ A.fits (pos (magnitude_product (map A.value self.now.cells))) }
        ensures selections { IsTrue result → IsSummableBy int_products A.fits A.value self.now.cells }
        ensures lanes { IsTrue result → (axis : ℕ) → axis < length self.now.lengths → CanMap (IsSummableArray int_products A.fits A.value) (lanes_of self.now axis) }
        ensures items { IsTrue result → (axis : ℕ) → axis < length self.now.lengths → AllByRecursion (IsSummableArray int_products A.fits A.value) (axis_items self.now axis) }
    {
        magnitudes_multiplied(&self.view()).is_some()
    }
}

/// The sum of the positive and that of the negative cells, if the type has both.
fn signed_sums<A: Zero + CheckedAdd, D: Lengths>(
    array: &ArrayView<'_, A, D>,
) -> Option<SignedSums<A>>
    ensures { MatchOption result (A.fits (positive_sum (map A.value array.now.cells)) × A.fits (negative_sum (map A.value array.now.cells)) → ⊥) (λ sums. AddedApart A.fits (map A.value array.now.cells) [] (A.value sums.up) (A.value sums.down)) }
{
    let mut sums = SignedSums {
        up: A::zero(),
        down: A::zero(),
    };
    let mut runs = CellRuns::of(array.view());
    while let Some(run) = runs.next() {
        sums = add_run(sums, run)?;
    }
    Some(sums)
}

/// The sums with the cells of a run added, each to that of its sign, if the type has them.
fn add_run<A: Zero + CheckedAdd>(sums: SignedSums<A>, run: Strided<'_, A>) -> Option<SignedSums<A>>
    ensures { (whole rest : List ℤ) → AddedApart A.fits whole (map A.value run.entry ++ rest) (A.value sums.up) (A.value sums.down)
        → MatchOption result (A.fits (positive_sum whole) × A.fits (negative_sum whole) → ⊥) (λ more. AddedApart A.fits whole rest (A.value more.up) (A.value more.down)) }
{
    if let Some(cells) = run.side_by_side() {
        return add_cells(sums, cells);
    }
    let mut sums = sums;
    let mut run = run;
    while let Some(x) = run.next() {
        let Some(more) = add_by_sign(sums, x) else {
            return None;
        };
        sums = more;
    }
    Some(sums)
}

/// The same for the cells of a slice, four a turn.
fn add_cells<A: Zero + CheckedAdd>(sums: SignedSums<A>, cells: &[A]) -> Option<SignedSums<A>>
    ensures { (whole rest : List ℤ) → AddedApart A.fits whole (map A.value cells.now ++ rest) (A.value sums.up) (A.value sums.down)
        → MatchOption result (A.fits (positive_sum whole) × A.fits (negative_sum whole) → ⊥) (λ more. AddedApart A.fits whole rest (A.value more.up) (A.value more.down)) }
{
    let mut sums = sums;
    let mut i = 0;
    'fours: while cells.len() - i >= 4 {
        sums = add_cell(sums, cells, i)?;
        sums = add_cell(sums, cells, i + 1)?;
        sums = add_cell(sums, cells, i + 2)?;
        sums = add_cell(sums, cells, i + 3)?;
        i += 4;
    }
    'others: while i < cells.len() {
        sums = add_cell(sums, cells, i)?;
        i += 1;
    }
    Some(sums)
}

/// The same for the cell at a place.
#[inline(always)]
fn add_cell<A: Zero + CheckedAdd>(
    sums: SignedSums<A>,
    cells: &[A],
    i: usize,
) -> Option<SignedSums<A>>
    requires { i < length cells.now }
    ensures { (whole rest : List ℤ) → AddedApart A.fits whole (map A.value (drop i cells.now) ++ rest) (A.value sums.up) (A.value sums.down)
        → MatchOption result (A.fits (positive_sum whole) × A.fits (negative_sum whole) → ⊥) (λ more. AddedApart A.fits whole (map A.value (drop (i + 1) cells.now) ++ rest) (A.value more.up) (A.value more.down)) }
{
    add_by_sign(sums, &cells[i])
}

/// The sum of positive numbers, and that of negative ones.
#[derive(Drop)]
struct SignedSums<A> {
    up: A,
    down: A,
}

/// The sums with a number added to that of its sign, if the type has it.
#[inline(always)]
fn add_by_sign<A: Zero + CheckedAdd>(sums: SignedSums<A>, x: &A) -> Option<SignedSums<A>>
    ensures up { pos 0 ≤ℤ A.value x.now → Checks (λ s. A.value s.up) A.fits (A.value sums.up +ℤ A.value x.now) result × IfSome result (λ s. s.down ≡ sums.down) }
    ensures down { A.value x.now <ℤ pos 0 → Checks (λ s. A.value s.down) A.fits (A.value sums.down +ℤ A.value x.now) result × IfSome result (λ s. s.up ≡ sums.up) }
{
    let SignedSums { up, down } = sums;
    if *x < A::zero() {
        match down.checked_add(x) {
            Some(down) => Some(SignedSums { up, down }),
            None => None,
        }
    } else {
        match up.checked_add(x) {
            Some(up) => Some(SignedSums { up, down }),
            None => None,
        }
    }
}

/// The absolute values of the cells that are not zero, multiplied, if the type has their product.
fn magnitudes_multiplied<A: IntegerElem, D: Lengths>(array: &ArrayView<'_, A, D>) -> Option<A>
    ensures { MatchOption result (A.fits (pos (magnitude_product (map A.value array.now.cells))) → ⊥) (λ product. MultipliedSoFar A.fits (map A.value array.now.cells) [] (A.value product)) }
{
    let mut product = A::one();
    let mut runs = CellRuns::of(array.view());
    while let Some(run) = runs.next() {
        let Some(more) = times_run(product, run) else {
            return None;
        };
        product = more;
    }
    Some(product)
}

/// A product times the absolute values of the cells of a run that are not zero, if the type has it.
fn times_run<A: IntegerElem>(product: A, run: Strided<'_, A>) -> Option<A>
    ensures { (whole rest : List ℤ) → MultipliedSoFar A.fits whole (map A.value run.entry ++ rest) (A.value product)
        → MatchOption result (A.fits (pos (magnitude_product whole)) → ⊥) (λ more. MultipliedSoFar A.fits whole rest (A.value more)) }
{
    let mut product = product;
    let mut run = run;
    while let Some(x) = run.next() {
        let Some(more) = times_magnitude(product, *x) else {
            return None;
        };
        product = more;
    }
    Some(product)
}

/// A product times the absolute value of a number, if the type has both; the product itself for zero.
#[inline(always)]
fn times_magnitude<A: IntegerElem>(product: A, x: A) -> Option<A>
    ensures product { Checks A.value (λ z. A.fits (pos (nonzero_magnitude (A.value x))) × A.fits z) (A.value product *ℤ pos (nonzero_magnitude (A.value x))) result }
    ensures fits { A.fits (A.value x) }
{
    product.tell_fits();
    x.tell_fits();
    if x.is_zero() {
        return Some(product);
    }
    // Where the product fits, nearly all factors are so.
    if x.is_one() {
        return Some(product);
    }
    let Some(factor) = magnitude(x) else {
        return None;
    };
    product.checked_mul(&factor)
}

/// Whether two vectors have the same length, and the absolute values of the products of their cells at each index add up to at most the
/// type's greatest number. Then every selection of the products has its sum in the type's range, as their `dot` requires.
///
/// Requires nothing, and the test allocates nothing. It may return `false` although `dot` may be called, as for large products of both
/// signs.
///
/// ```
/// assert!(dot_fits(&ArrayView::from_shape(2, &[127i8, 0])?, &ArrayView::from_shape(2, &[-1i8, 5])?));
/// assert!(!dot_fits(&ArrayView::from_shape(2, &[100i8, 100])?, &ArrayView::from_shape(2, &[1i8, -1])?));
/// ```
pub fn dot_fits<A: IntegerElem, S: Data<Elem = A>, S2: Data<Elem = A>>(
    x: &ArrayBase<S, Ix1>,
    y: &ArrayBase<S2, Ix1>,
) -> bool
    ensures magnitudes { IsTrue result ↔ ((x.now.lengths ≡ y.now.lengths) × A.fits (pos (magnitude_sum (products_of int_products A.value x.now.cells y.now.cells)))) }
    ensures selections { IsTrue result → (x.now.lengths ≡ y.now.lengths) × IsSummable int_sums A.fits (products_of int_products A.value x.now.cells y.now.cells) }
{
    let Some((xs, ys)) = cells_in_pairs(x.view(), y.view()) else {
        return false;
    };
    if lists_have_small_products(xs.again(), ys.again(), ys.len()) {
        return true;
    }
    inner_stays_in_range(xs, ys)
}

/// The sum of the products of two vectors' cells at each index, if [`dot_fits`] is true of them; else `None`. It is the value of their
/// `dot`, tested and computed in one call.
///
/// It requires nothing, and allocates nothing.
///
/// ```
/// let sum = checked_dot(&ArrayView::from_shape(2, &[127i8, 1])?, &ArrayView::from_shape(2, &[-1i8, 0])?); // Some(-127)
/// let none = checked_dot(&ArrayView::from_shape(2, &[100i8, 100])?, &ArrayView::from_shape(2, &[1i8, -1])?); // None
/// ```
pub fn checked_dot<A: IntegerScalar, S: Data<Elem = A>, S2: Data<Elem = A>>(
    x: &ArrayBase<S, Ix1>,
    y: &ArrayBase<S2, Ix1>,
) -> Option<A>
    ensures magnitudes { IsSome result ↔ ((x.now.lengths ≡ y.now.lengths) × A.fits (pos (magnitude_sum (products_of int_products A.value x.now.cells y.now.cells)))) }
    ensures selections { IsSome result → (x.now.lengths ≡ y.now.lengths) × IsSummable int_sums A.fits (products_of int_products A.value x.now.cells y.now.cells) }
    ensures sum { IfSome result (λ s. A.value s ≡ total int_sums (products_of int_products A.value x.now.cells y.now.cells)) }
{
    let Some((xs, ys)) = cells_in_pairs(x.view(), y.view()) else {
        return None;
    };
    if let Some(sum) = sum_of_small_products(xs.again(), ys.again()) {
        return Some(sum);
    }
    checked_inner(xs, ys)
}

/// The cells of two vectors in turn, if these are equally long.
fn cells_in_pairs<'a, 'b, A>(
    x: ArrayView<'a, A, Ix1>,
    y: ArrayView<'b, A, Ix1>,
) -> Option<(Strided<'a, A>, Strided<'b, A>)>
    ensures same { IsSome result ↔ (x.entry.lengths ≡ y.entry.lengths) }
    ensures cells { IfSome result (λ p. (p.0 ≡ x.entry.cells) × (p.1 ≡ y.entry.cells)) }
    ensures many { IfSome result (λ p. length p.0 ≡ length p.1) }
{
    let n = x.raw_dim().into_pattern();
    let m = y.raw_dim().into_pattern();
    if n != m {
        return None;
    }
    Some((cells_of(x), cells_of(y)))
}

/// Whether the absolute values of the products of two lists of cells, place by place, add up to at most the type's greatest number.
pub(crate) fn inner_stays_in_range<A: IntegerElem>(
    left: Strided<'_, A>,
    right: Strided<'_, A>,
) -> bool
    ensures magnitudes { IsTrue result ↔ A.fits (pos (magnitude_sum (products_of int_products A.value left.entry right.entry))) }
    ensures selections { IsTrue result → IsSummable int_sums A.fits (products_of int_products A.value left.entry right.entry) }
{
    checked_inner(left, right).is_some()
}

/// The sum of the products of two lists of cells, place by place, if their absolute values add up to at most the type's greatest number;
/// else `None`.
fn checked_inner<A: IntegerElem>(left: Strided<'_, A>, right: Strided<'_, A>) -> Option<A>
    ensures magnitudes { IsSome result ↔ A.fits (pos (magnitude_sum (products_of int_products A.value left.entry right.entry))) }
    ensures selections { IsSome result → IsSummable int_sums A.fits (products_of int_products A.value left.entry right.entry) }
    ensures sum { IfSome result (λ s. A.value s ≡ total int_sums (products_of int_products A.value left.entry right.entry)) }
{
    let Some(sums) = add_products(no_sums(), left, right) else {
        return None;
    };
    joined_in_range(&sums)
}

/// Whether the absolute values of the products of the cells of two arrays of the same lengths add up to at most the type's
/// greatest number.
pub(crate) fn products_stay_in_range<A: IntegerElem, D: Lengths>(
    x: &ArrayView<'_, A, D>,
    y: &ArrayView<'_, A, D>,
) -> bool
    requires same { x.now.lengths ≡ y.now.lengths }
    ensures magnitudes { IsTrue result ↔ A.fits (pos (magnitude_sum (products_of int_products A.value x.now.cells y.now.cells))) }
    ensures selections { IsTrue result → IsSummable int_sums A.fits (products_of int_products A.value x.now.cells y.now.cells) }
{
    let _whole = y.raw_dim();
    let mut sums = no_sums();
    let mut rows = BoxRows::new(x.raw_dim(), Order::RowMajor);
    while let Some(row) = rows.next() {
        let left = x.cells_along(&row.first, row.axis, row.count);
        let right = y.cells_along(&row.first, row.axis, row.count);
        let Some(more) = add_products(sums, left, right) else {
            return false;
        };
        sums = more;
    }
    joined_in_range(&sums).is_some()
}

/// The sums of no numbers.
fn no_sums<A: IntegerElem>() -> SignedSums<A>
    ensures { (whole : List ℤ) → ProductsApart A.fits whole whole (A.value result.up) (A.value result.down) }
{
    SignedSums {
        up: A::zero(),
        down: A::zero(),
    }
}

/// Both sums added, if the type has the sum of their absolute values.
fn joined_in_range<A: IntegerElem>(sums: &SignedSums<A>) -> Option<A>
    ensures magnitudes { (whole : List ℤ) → ProductsApart A.fits whole [] (A.value sums.now.up) (A.value sums.now.down) → IsSome result ↔ A.fits (pos (magnitude_sum whole)) }
    ensures selections { (whole : List ℤ) → ProductsApart A.fits whole [] (A.value sums.now.up) (A.value sums.now.down) → IsSome result → IsSummable int_sums A.fits whole }
    ensures sum { (whole : List ℤ) → ProductsApart A.fits whole [] (A.value sums.now.up) (A.value sums.now.down) → IfSome result (λ s. A.value s ≡ total int_sums whole) }
{
    let Some(size) = A::zero().checked_sub(&sums.down) else {
        return None;
    };
    let Some(_magnitude) = sums.up.checked_add(&size) else {
        return None;
    };
    sums.up.checked_add(&sums.down)
}

/// The sums with the products of two lists of cells added, place by place, each to that of its sign, if the type has them.
fn add_products<A: IntegerElem>(
    sums: SignedSums<A>,
    left: Strided<'_, A>,
    right: Strided<'_, A>,
) -> Option<SignedSums<A>>
    ensures { (whole rest : List ℤ) → ProductsApart A.fits whole (products_of int_products A.value left.entry right.entry ++ rest) (A.value sums.up) (A.value sums.down)
        → MatchOption result (A.fits (pos (magnitude_sum whole)) → ⊥) (λ more. ProductsApart A.fits whole rest (A.value more.up) (A.value more.down)) }
{
    if let Some(xs) = left.side_by_side() {
        if let Some(ys) = right.side_by_side() {
            return add_slice_products(sums, xs, ys);
        }
    }
    add_stepped_products(
        sums,
        PairRun {
            first: left,
            second: right,
        },
    )
}

/// The same for slices.
fn add_slice_products<A: IntegerElem>(
    sums: SignedSums<A>,
    xs: &[A],
    ys: &[A],
) -> Option<SignedSums<A>>
    ensures { (whole rest : List ℤ) → ProductsApart A.fits whole (products_of int_products A.value xs.now ys.now ++ rest) (A.value sums.up) (A.value sums.down)
        → MatchOption result (A.fits (pos (magnitude_sum whole)) → ⊥) (λ more. ProductsApart A.fits whole rest (A.value more.up) (A.value more.down)) }
{
    let mut sums = sums;
    let mut i = 0;
    'cells: while i < xs.len() && i < ys.len() {
        let Some(more) = add_product(sums, xs[i], ys[i]) else {
            return None;
        };
        sums = more;
        i += 1;
    }
    Some(sums)
}

/// The same for cells that lie a step apart.
fn add_stepped_products<A: IntegerElem>(
    sums: SignedSums<A>,
    pairs: PairRun<Strided<'_, A>, Strided<'_, A>>,
) -> Option<SignedSums<A>>
    ensures { (whole rest : List ℤ) → ProductsApart A.fits whole (products_of int_products A.value pairs.entry.first pairs.entry.second ++ rest) (A.value sums.up) (A.value sums.down)
        → MatchOption result (A.fits (pos (magnitude_sum whole)) → ⊥) (λ more. ProductsApart A.fits whole rest (A.value more.up) (A.value more.down)) }
{
    let mut sums = sums;
    let mut pairs = pairs;
    while let Some((x, y)) = pairs.next() {
        let Some(more) = add_product(sums, *x, *y) else {
            return None;
        };
        sums = more;
    }
    Some(sums)
}

/// The sums with a product added to that of its sign, if the type has them.
#[inline(always)]
fn add_product<A: IntegerElem>(sums: SignedSums<A>, x: A, y: A) -> Option<SignedSums<A>>
    ensures { (whole rest : List ℤ) → ProductsApart A.fits whole ((A.value x *ℤ A.value y) ∷ rest) (A.value sums.up) (A.value sums.down)
        → MatchOption result (A.fits (pos (magnitude_sum whole)) → ⊥) (λ more. ProductsApart A.fits whole rest (A.value more.up) (A.value more.down)) }
{
    x.tell_fits();
    y.tell_fits();
    let Some(product) = x.checked_mul(&y) else {
        return None;
    };
    add_by_sign(sums, &product)
}

/// The absolute value, if the type has it.
pub(crate) fn magnitude<A: IntegerElem>(x: A) -> Option<A>
    ensures { Checks A.value A.fits (pos (unsigned_abs (A.value x))) result }
{
    if x < A::zero() {
        A::zero().checked_sub(&x)
    } else {
        x.tell_fits();
        Some(x)
    }
}
