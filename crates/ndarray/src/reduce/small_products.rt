//! Whether the cells of two arrays are so small that no sum of so many of their products leaves the integer type: one walk over each
//! array, in place of one over each row and column of a product. Whether each product of two cells is in range, by such walks too. The
//! sum of the products of two lists of such cells.

ghost use Rattle.std.specs.Prelude.{◌≡◌, ◌⊎◌, ◌↔◌, ◌++◌, ◌∷◌, ◌*◌, ◌*ℤ◌, ◌-ℤ◌, ◌≤ℤ◌, [], ℕ, ℤ, List, IfSome, IsTrue, length, map, pos, unsigned_abs};
ghost use Rattle.ndarray.specs.Integers.{int_products};
ghost use Rattle.ndarray.specs.Products.{products_of};
ghost use Rattle.ndarray.specs.reduce.SmallProducts.{AreUpTo, ExtremesSoFar, HaveProductsInRange, HaveSmallProducts, IsSumInRange};

use crate::base::array::ArrayView;
use crate::base::dimension::Lengths;
use crate::base::strided::Strided;
use crate::elements::sums::add_product;
use crate::elements::{IntegerElem, IntegerScalar};
use crate::iter::runs::CellRuns;

/// Whether a number of products, of the largest absolute value of a cell of one array and the largest of another, add up to at most
/// the type's greatest number.
pub(crate) fn have_small_products<A: IntegerElem, D: Lengths, E: Lengths>(
    a: &ArrayView<'_, A, D>,
    b: &ArrayView<'_, A, E>,
    count: usize,
) -> bool
    ensures { IsTrue result → HaveSmallProducts A.fits count (map A.value a.now.cells) (map A.value b.now.cells) }
{
    are_small(&extremes_of_array(a), &extremes_of_array(b), count)
}

/// The same for two lists of equal length.
pub(crate) fn lists_have_small_products<A: IntegerElem>(
    left: Strided<'_, A>,
    right: Strided<'_, A>,
    count: usize,
) -> bool
    requires { length left ≡ length right }
    ensures { IsTrue result → HaveSmallProducts A.fits count (map A.value left.entry) (map A.value right.entry) }
{
    let (x, y) = extremes_of_lists(left, right);
    are_small(&x, &y, count)
}

/// Whether the type has the product of each cell of an array and each cell of another: each lies between two products of their least
/// and greatest cells.
pub(crate) fn each_product_fits<A: IntegerElem, D: Lengths, E: Lengths>(
    a: &ArrayView<'_, A, D>,
    b: &ArrayView<'_, A, E>,
) -> bool
    ensures { IsTrue result ↔ HaveProductsInRange A.fits (map A.value a.now.cells) (map A.value b.now.cells) }
{
    corner_products_fit(&extremes_of_array(a), &extremes_of_array(b))
}

/// The least and the greatest of some numbers and zero.
#[derive(Drop)]
struct Extremes<A> {
    least: A,
    greatest: A,
}

/// Whether a number of products, of the largest absolute value of one list of numbers and that of another, add up to at most the type's
/// greatest number.
fn are_small<A: IntegerElem>(x: &Extremes<A>, y: &Extremes<A>, count: usize) -> bool
    ensures { (xs ys : List ℤ) → ExtremesSoFar A.fits xs [] (A.value x.now.least) (A.value x.now.greatest)
        → ExtremesSoFar A.fits ys [] (A.value y.now.least) (A.value y.now.greatest)
        → IsTrue result → HaveSmallProducts A.fits count xs ys }
{
    let Some(left) = largest_magnitude(x) else {
        return false;
    };
    let Some(right) = largest_magnitude(y) else {
        return false;
    };
    let Some(product) = left.checked_mul(&right) else {
        return false;
    };
    let Some(_most) = times(product, count) else {
        return false;
    };
    true
}

/// Whether the type has the product of each number of one list and each number of another.
fn corner_products_fit<A: IntegerElem>(x: &Extremes<A>, y: &Extremes<A>) -> bool
    ensures { (xs ys : List ℤ) → ExtremesSoFar A.fits xs [] (A.value x.now.least) (A.value x.now.greatest)
        → ExtremesSoFar A.fits ys [] (A.value y.now.least) (A.value y.now.greatest)
        → IsTrue result ↔ HaveProductsInRange A.fits xs ys }
{
    both_products_fit(&x.least, y) && both_products_fit(&x.greatest, y)
}

/// Whether the type has the product of a number and the least of some others, and that of it and the greatest.
fn both_products_fit<A: IntegerElem>(x: &A, y: &Extremes<A>) -> bool
    ensures { IsTrue result ↔ (A.fits (A.value x.now *ℤ A.value y.now.least) × A.fits (A.value x.now *ℤ A.value y.now.greatest)) }
{
    x.checked_mul(&y.least).is_some() && x.checked_mul(&y.greatest).is_some()
}

/// A number that is at least so many times one that is not negative: that one, doubled as often as the count is halved. `None` if the
/// type does not have it.
fn times<A: IntegerElem>(number: A, count: usize) -> Option<A>
    ensures { (n : ℕ) → A.value number ≡ pos n → IfSome result (λ s. A.fits (A.value s) × (pos (count * n) ≤ℤ A.value s)) }
{
    number.tell_fits();
    let mut sum = number;
    let mut left = count;
    'halves: while left > 1 {
        let Some(more) = sum.checked_add(&sum) else {
            return None;
        };
        sum = more;
        left -= left / 2;
    }
    Some(sum)
}

/// The largest absolute value of the numbers, if the type has it.
fn largest_magnitude<A: IntegerElem>(extremes: &Extremes<A>) -> Option<A>
    ensures { (whole : List ℤ) → ExtremesSoFar A.fits whole [] (A.value extremes.now.least) (A.value extremes.now.greatest)
        → IfSome result (λ l. (m : ℕ) × (A.value l ≡ pos m) × AreUpTo A.fits m whole) }
{
    let Some(size) = A::zero().checked_sub(&extremes.least) else {
        return None;
    };
    Some(larger(size, extremes.greatest))
}

/// The extremes of the cells of an array.
fn extremes_of_array<A: IntegerElem, D: Lengths>(array: &ArrayView<'_, A, D>) -> Extremes<A>
    ensures { ExtremesSoFar A.fits (map A.value array.now.cells) [] (A.value result.least) (A.value result.greatest) }
{
    let mut extremes = no_extremes();
    let mut runs = CellRuns::of(array.view());
    while let Some(run) = runs.next() {
        extremes = with_run(extremes, run);
    }
    extremes
}

/// The extremes of two lists of equal length.
fn extremes_of_lists<A: IntegerElem>(
    left: Strided<'_, A>,
    right: Strided<'_, A>,
) -> (Extremes<A>, Extremes<A>)
    requires { length left ≡ length right }
    ensures left { ExtremesSoFar A.fits (map A.value left.entry) [] (A.value result.0.least) (A.value result.0.greatest) }
    ensures right { ExtremesSoFar A.fits (map A.value right.entry) [] (A.value result.1.least) (A.value result.1.greatest) }
{
    if let Some(xs) = left.side_by_side() {
        if let Some(ys) = right.side_by_side() {
            return extremes_of_slices(xs, ys);
        }
    }
    (
        with_run(no_extremes(), left),
        with_run(no_extremes(), right),
    )
}

/// The extremes of two slices of equal length, a block of each in turn: if both are the same memory, it is read once.
fn extremes_of_slices<A: IntegerElem>(xs: &[A], ys: &[A]) -> (Extremes<A>, Extremes<A>)
    requires { length xs.now ≡ length ys.now }
    ensures left { ExtremesSoFar A.fits (map A.value xs.now) [] (A.value result.0.least) (A.value result.0.greatest) }
    ensures right { ExtremesSoFar A.fits (map A.value ys.now) [] (A.value result.1.least) (A.value result.1.greatest) }
{
    let mut first = no_extremes();
    let mut second = no_extremes();
    let mut i = 0;
    'turns: while i < xs.len() {
        let end = i + (xs.len() - i).min(4096);
        first = with_slice(first, &xs[i..end]);
        second = with_slice(second, &ys[i..end]);
        i = end;
    }
    (first, second)
}

/// The extremes of no numbers.
fn no_extremes<A: IntegerElem>() -> Extremes<A>
    ensures { (whole : List ℤ) → ExtremesSoFar A.fits whole whole (A.value result.least) (A.value result.greatest) }
{
    Extremes {
        least: A::zero(),
        greatest: A::zero(),
    }
}

/// The extremes with the cells of a run added.
fn with_run<A: IntegerElem>(extremes: Extremes<A>, run: Strided<'_, A>) -> Extremes<A>
    ensures { (whole rest : List ℤ) → ExtremesSoFar A.fits whole (map A.value run.entry ++ rest) (A.value extremes.least) (A.value extremes.greatest)
        → ExtremesSoFar A.fits whole rest (A.value result.least) (A.value result.greatest) }
{
    if let Some(cells) = run.side_by_side() {
        return with_slice(extremes, cells);
    }
    with_stepped(extremes, run)
}

/// The extremes with the cells of a slice added.
fn with_slice<A: IntegerElem>(extremes: Extremes<A>, cells: &[A]) -> Extremes<A>
    ensures { (whole rest : List ℤ) → ExtremesSoFar A.fits whole (map A.value cells.now ++ rest) (A.value extremes.least) (A.value extremes.greatest)
        → ExtremesSoFar A.fits whole rest (A.value result.least) (A.value result.greatest) }
{
    let mut extremes = extremes;
    let mut i = 0;
    'cells: while i < cells.len() {
        extremes = with_number(extremes, cells[i]);
        i += 1;
    }
    extremes
}

/// The extremes with cells added that lie a step apart.
fn with_stepped<A: IntegerElem>(extremes: Extremes<A>, run: Strided<'_, A>) -> Extremes<A>
    ensures { (whole rest : List ℤ) → ExtremesSoFar A.fits whole (map A.value run.entry ++ rest) (A.value extremes.least) (A.value extremes.greatest)
        → ExtremesSoFar A.fits whole rest (A.value result.least) (A.value result.greatest) }
{
    let mut extremes = extremes;
    let mut run = run;
    while let Some(x) = run.next() {
        extremes = with_number(extremes, *x);
    }
    extremes
}

/// The extremes with a number added.
#[inline(always)]
fn with_number<A: IntegerElem>(extremes: Extremes<A>, x: A) -> Extremes<A>
    ensures { (whole rest : List ℤ) → ExtremesSoFar A.fits whole (A.value x ∷ rest) (A.value extremes.least) (A.value extremes.greatest)
        → ExtremesSoFar A.fits whole rest (A.value result.least) (A.value result.greatest) }
{
    x.tell_fits();
    let Extremes { least, greatest } = extremes;
    Extremes {
        least: smaller(x, least),
        greatest: larger(x, greatest),
    }
}

/// The smaller of two numbers.
#[inline(always)]
fn smaller<A: IntegerElem>(x: A, y: A) -> A
    ensures { (A.value result ≤ℤ A.value x) × (A.value result ≤ℤ A.value y) × ((result ≡ x) ⊎ (result ≡ y)) }
{
    if x < y { x } else { y }
}

/// The larger of two numbers.
#[inline(always)]
fn larger<A: IntegerElem>(x: A, y: A) -> A
    ensures { (A.value x ≤ℤ A.value result) × (A.value y ≤ℤ A.value result) × ((result ≡ x) ⊎ (result ≡ y)) }
{
    if y < x { x } else { y }
}

/// The sum of the products of two lists of equal length, if each cell is so small that no sum of so many products can leave the type:
/// the test of a cell goes with its product. `None` says nothing.
pub(crate) fn sum_of_small_products<A: IntegerScalar>(
    left: Strided<'_, A>,
    right: Strided<'_, A>,
) -> Option<A>
    requires { length left ≡ length right }
    ensures { IfSome result (λ s. IsSumInRange A.fits (products_of int_products A.value left.entry right.entry) (A.value s)) }
{
    // Of few products each is tested in less time than the bounds are found.
    if right.len() < 32 {
        return None;
    }
    let most = largest_factor(right.len())?;
    let least = negative_or_zero(most);
    let mut sum = A::zero();
    let mut xs = left;
    let mut ys = right;
    while let Some(x) = xs.next() {
        let Some(y) = ys.next() else { unreachable!() };
        if !is_between(*x, least, most) || !is_between(*y, least, most) {
            return None;
        }
        sum = add_product(sum, *x, *y);
    }
    Some(sum)
}

/// The largest power of two of which so many squares are known to add up to at most the type's greatest number.
fn largest_factor<A: IntegerElem>(count: usize) -> Option<A>
    ensures { IfSome result (λ m. (pos 0 ≤ℤ A.value m) × A.fits (pos (count * (unsigned_abs (A.value m) * unsigned_abs (A.value m))))) }
{
    let mut squares = times(A::one(), count)?;
    let mut factor = A::one();
    let mut turns = 0usize;
    'doubles: while turns < 64 {
        let Some(four_times) = times(squares, 4) else {
            return Some(factor);
        };
        let Some(twice) = factor.checked_add(&factor) else {
            return Some(factor);
        };
        squares = four_times;
        factor = twice;
        turns += 1;
    }
    Some(factor)
}

/// The negative of a number that is not negative, if the type has it, else zero.
fn negative_or_zero<A: IntegerElem>(x: A) -> A
    ensures { pos 0 ≤ℤ A.value x → (pos 0 -ℤ A.value x) ≤ℤ A.value result }
{
    match A::zero().checked_sub(&x) {
        Some(negative) => negative,
        None => A::zero(),
    }
}

/// Whether a number lies between two others.
#[inline(always)]
fn is_between<A: IntegerElem>(x: A, least: A, most: A) -> bool
    ensures between { IsTrue result → (A.value least ≤ℤ A.value x) × (A.value x ≤ℤ A.value most) }
    ensures fits { A.fits (A.value x) }
{
    x.tell_fits();
    !(x < least) && !(most < x)
}
