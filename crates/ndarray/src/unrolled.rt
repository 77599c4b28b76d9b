//! Folds, inner products and comparisons of slices, eight elements at a time.

ghost use Rattle.std.specs.Prelude.{◌≡◌, ◌↔◌, ◌+◌, ◌<◌, ℕ, Bool, IsTrue, length, nat_lt, slice_index_or};
ghost use Rattle.std.specs.List.{FoldsTo};
ghost use Rattle.ndarray.specs.PartialFolds.{AreApart, AreTwoParts, EndsBefore, FoldsByParts, IsFoldOf, KeepsNothing, KeepsOneMore};
ghost use Rattle.ndarray.specs.Products.{products_of};
ghost use Rattle.ndarray.specs.Sums.{IsSummable, select, total};

use crate::elements::LinalgScalar;
use crate::elements::sums::{add, add_product};
use num_traits::Zero;

/// How results over some places of a sequence are made and joined.
trait PartialResults {
    /// A result.
    type Part: Copy;

    // How many places there are.
    ghost len: { Self → ℕ };

    // Whether results can be made and joined.
    ghost has_parts: { Self → Type 0 };

    // Whether this is a result over the places that are kept.
    ghost is_result: { Self → (ℕ → Bool) → Self.Part → Type 0 };

    /// How many places there are.
    fn len(&self) -> usize
        ensures { result ≡ len self.now };

    /// The result over no place.
    fn none(&self) -> Self::Part
        requires { has_parts self.now }
        ensures { (keep : ℕ → Bool) → KeepsNothing keep → is_result self.now keep result };

    /// The result over one place more, behind all others.
    fn with(&self, part: Self::Part, i: usize) -> Self::Part
        requires parts { has_parts self.now }
        requires place { i < len self.now }
        requires behind { (keep : ℕ → Bool) × (is_result self.now keep part × EndsBefore keep i) }
        ensures { (keep next : ℕ → Bool) → KeepsOneMore keep i next → is_result self.now keep part → is_result self.now next result };

    /// The result over the places of two, of which none is common.
    fn join(&self, a: Self::Part, b: Self::Part) -> Self::Part
        requires parts { has_parts self.now }
        requires apart { (p : ℕ → Bool) × ((q : ℕ → Bool) × (AreApart p q × (is_result self.now p a × is_result self.now q b))) }
        ensures { (p q both : ℕ → Bool) → AreTwoParts p q both → is_result self.now p a → is_result self.now q b → is_result self.now both result };
}

/// The result over all places, of eight that take turns, of these joined two by two, and of the at most seven places behind.
#[inline(always)]
fn unrolled<P: PartialResults>(parts: &P) -> P::Part
    requires { P.has_parts parts.now }
    ensures { P.is_result parts.now (λ k. nat_lt k (P.len parts.now)) result }
{
    let mut all = parts.none();
    let mut p0 = parts.none();
    let mut p1 = parts.none();
    let mut p2 = parts.none();
    let mut p3 = parts.none();
    let mut p4 = parts.none();
    let mut p5 = parts.none();
    let mut p6 = parts.none();
    let mut p7 = parts.none();
    let n = parts.len();
    let mut i = 0;
    'eights: while n - i >= 8 {
        p0 = parts.with(p0, i);
        p1 = parts.with(p1, i + 1);
        p2 = parts.with(p2, i + 2);
        p3 = parts.with(p3, i + 3);
        p4 = parts.with(p4, i + 4);
        p5 = parts.with(p5, i + 5);
        p6 = parts.with(p6, i + 6);
        p7 = parts.with(p7, i + 7);
        i += 8;
    }
    all = parts.join(all, parts.join(p0, p4));
    all = parts.join(all, parts.join(p1, p5));
    all = parts.join(all, parts.join(p2, p6));
    all = parts.join(all, parts.join(p3, p7));
    'rest: while i < n {
        all = parts.with(all, i);
        i += 1;
    }
    all
}

/// Folds of elements of a slice.
#[derive(Drop)]
struct FoldParts<'a, A, I, F> {
    elements: &'a [A],
    init: I,
    f: F,
}

impl<'a, A: Copy, I: Fn() -> A, F: Fn(A, A) -> A> PartialResults for FoldParts<'a, A, I, F> {
    type Part = A;

    ghost len = { λ s. length s.elements.now };

    ghost has_parts = { λ s. I.pre s.init × FoldsByParts (λ z. I.post s.init z) (λ v x. F.pre s.f v x) (λ v x r. F.post s.f v x r) s.elements.now };

    ghost is_result = { λ s. IsFoldOf (λ z. I.post s.init z) (λ v x r. F.post s.f v x r) s.elements.now };

    #[inline(always)]
    fn len(&self) -> usize {
        self.elements.len()
    }

    #[inline(always)]
    fn none(&self) -> A {
        (self.init)()
    }

    #[inline(always)]
    fn with(&self, part: A, i: usize) -> A {
        (self.f)(part, self.elements[i])
    }

    #[inline(always)]
    fn join(&self, a: A, b: A) -> A {
        (self.f)(a, b)
    }
}

/// The fold of the elements of a slice: the total begins with what `init` returns, and `f` takes the total and the next element and returns
/// the next total. It allocates nothing.
///
/// It is computed with eight partial results and an accumulator, each begun by its own call of `init`. While at least eight elements are
/// left, the element at index `i` goes to partial result `i % 8`. Then the accumulator takes the partial results 0 and 4 joined by `f`,
/// then 1 and 5, 2 and 6, 3 and 7, and after them the at most seven elements that are left.
///
/// Requires that `init` may be called and always returns the same value, and that for any two selections of the elements without a common
/// one `f` may be called with their folds and returns the fold of both together. This holds for `+` from zero if each selection of the
/// elements has its sum in range, as [`sums_fit`](crate::ArrayBase::sums_fit) tests, and for an associative and commutative operation that
/// may always be called, from its neutral element.
///
/// ```
/// let numbers = [3u8, 1, 4];
/// let bits = unrolled_fold(&numbers, || 0u8, |a: u8, b: u8| a | b); // 7
/// ```
pub fn unrolled_fold<A: Copy, I: Fn() -> A, F: Fn(A, A) -> A>(xs: &[A], init: I, f: F) -> A
    requires init { I.pre init }
    requires parts { FoldsByParts (λ z. I.post init z) (λ v x. F.pre f v x) (λ v x r. F.post f v x r) xs.now }
    ensures { (z : A) × (I.post init z × FoldsTo (λ v x r. F.post f v x r) z xs.now result) }
{
    unrolled(&FoldParts {
        elements: xs,
        init,
        f,
    })
}

/// Sums of the products of two slices' elements, place by place.
#[derive(Drop)]
struct ProductParts<'a, A> {
    left: &'a [A],
    right: &'a [A],
}

impl<'a, A: LinalgScalar> PartialResults for ProductParts<'a, A> {
    type Part = A;

    ghost len = { λ s. length s.left.now };

    ghost has_parts = { λ s. (length s.left.now ≡ length s.right.now) × IsSummable A.addition A.InRange (products_of A.multiplication A.meaning s.left.now s.right.now) };

    ghost is_result = { λ s keep v. A.meaning v ≡ total A.addition (select keep (products_of A.multiplication A.meaning s.left.now s.right.now)) };

    #[inline(always)]
    fn len(&self) -> usize {
        self.left.len()
    }

    #[inline(always)]
    fn none(&self) -> A {
        A::zero()
    }

    #[inline(always)]
    fn with(&self, part: A, i: usize) -> A {
        add_product(part, self.left[i], self.right[i])
    }

    #[inline(always)]
    fn join(&self, a: A, b: A) -> A {
        add(a, b)
    }
}

/// The inner product of two slices: the sum of the products of their elements at each index, which is zero if they have none. It allocates
/// nothing.
///
/// It is computed as [`unrolled_fold`] is, with eight partial results and an accumulator that begin with zero.
///
/// Requires that the slices are equally long, and that every selection of the products has its sum in range. For integers
/// [`dot_fits`](crate::reduce::dot_fits) of views of the slices is enough.
///
/// ```
/// let inner = unrolled_dot(&[1i64, 2, 3], &[4, 5, 6]); // 32
/// ```
pub fn unrolled_dot<A: LinalgScalar>(xs: &[A], ys: &[A]) -> A
    requires lengths { length xs.now ≡ length ys.now }
    requires sums { IsSummable A.addition A.InRange (products_of A.multiplication A.meaning xs.now ys.now) }
    ensures { A.meaning result ≡ total A.addition (products_of A.multiplication A.meaning xs.now ys.now) }
{
    unrolled(&ProductParts {
        left: xs,
        right: ys,
    })
}

/// Whether each element of a slice equals the element of another at the same index. It allocates nothing.
///
/// Requires that the slices are equally long. Elements are compared eight at a time, and none after eight of which some differ.
///
/// ```
/// let same = unrolled_eq(&[1u8, 2, 3], &[1, 2, 3]); // true
/// ```
pub fn unrolled_eq<A: PartialEq>(xs: &[A], ys: &[A]) -> bool
    requires { length xs.now ≡ length ys.now }
    ensures { IsTrue result ↔ ((i : ℕ) (x y : A) → i < length xs.now → IsTrue (A.eq (slice_index_or xs.now i x) (slice_index_or ys.now i y))) }
{
    let n = xs.len();
    let mut i = 0;
    'eights: while n - i >= 8 {
        if (xs[i] != ys[i])
            | (xs[i + 1] != ys[i + 1])
            | (xs[i + 2] != ys[i + 2])
            | (xs[i + 3] != ys[i + 3])
            | (xs[i + 4] != ys[i + 4])
            | (xs[i + 5] != ys[i + 5])
            | (xs[i + 6] != ys[i + 6])
            | (xs[i + 7] != ys[i + 7])
        {
            return false;
        }
        i += 8;
    }
    'rest: while i < n {
        if xs[i] != ys[i] {
            return false;
        }
        i += 1;
    }
    true
}
