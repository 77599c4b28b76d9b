//! Dimensions: lists of lengths or of indices, one number for each axis.

ghost use Rattle.std.specs.Prelude.{◌≡◌, ◌⊎◌, List, ℕ, [], ◌∷◌, length, ◌<◌, ◌≤◌, ◌+◌, ◌-◌, slice_index, slice_set, replicate, insert, remove, IsTrue, ◌↔◌};
ghost use Rattle.std.specs.Borrow.{Lends, sem, Array as SliceOf, usize as word};
ghost use Rattle.std.proofs.Common.{rules, refl};
ghost use Rattle.std.proofs.lemmas.Grind.{common_steps};
ghost use Rattle.ndarray.specs.base.FixedAxes.{dynamic-not-fixed, fixed-larger, fixed-larger-none, fixed-smaller};
ghost use Rattle.ndarray.specs.Dimensions.{held_numbers, with_held};
ghost use Rattle.ndarray.specs.FixedAxes.{IsFixed};
ghost use Rattle.ndarray.specs.Index.{size};
ghost use Rattle.ndarray.specs.Limits.{IsWithinLimit};

use crate::base::axis::Axis;
use arrayvec::ArrayVec;

/// Writes a number to its place in a list. Each place is tested, so that the compiler may hold a short list in registers: a place that
/// it does not know it could only write in memory.
#[inline(always)]
fn write_number(numbers: &mut [usize], place: usize, number: usize)
    requires { place < length numbers.old }
    ensures { numbers.new ≡ slice_set numbers.old place number }
{
    for k in 0..numbers.len() {
        if k == place {
            numbers[k] = number;
        }
    }
}

/// A list of numbers, one for each axis: the lengths of a shape, or an index list.
///
/// None of its calls allocates.
///
/// ```
/// let mut dim = Ix2(2, 3);
/// assert_eq!((dim.ndim(), dim.axis(1)), (2, 3));
/// if dim.size_ok() {
///     assert_eq!(dim.size(), 6);
/// }
/// dim.set_axis(1, 4);
/// dim.slice_mut()[0] = 1;
/// assert_eq!(dim.copied().slice(), &[1, 4]);
/// if IxDyn::may_have(3) {
///     assert_eq!(IxDyn::zeros(3).slice(), &[0, 0, 0]);
/// }
/// ```
pub trait Lengths: Drop + Sized {
    // The numbers, that of axis 0 first.
    ghost numbers: { Self → List ℕ };

    // Whether the type has values with this many axes.
    ghost has_axes: { ℕ → Type 0 };

    // The same with other numbers, as many as before.
    ghost with_numbers: { Self → List ℕ → Self };

    /// The number of axes.
    fn ndim(&self) -> usize
        ensures value { result ≡ length (numbers self.now) }
        ensures has { has_axes result };

    /// Whether the type has values with `ndim` axes: for `Ix2` only if `ndim` is 2, for `IxDyn` if it is at most 32.
    fn may_have(ndim: usize) -> bool
        ensures { IsTrue result ↔ has_axes ndim };

    /// The list of `ndim` zeros.
    ///
    /// Requires that the type has values with this number of axes; check with `may_have`.
    fn zeros(ndim: usize) -> Self
        requires { has_axes ndim }
        ensures { numbers result ≡ replicate ndim 0 };

    /// The numbers as a slice.
    fn slice(&self) -> &[usize]
        ensures value { result.now ≡ numbers self.now }
        ensures has { has_axes (length (numbers self.now)) };

    /// The numbers as a slice, to write to.
    fn slice_mut(&mut self) -> &mut [usize]
        ensures* writes_back { sem 𝓛 (Lends Self.row (SliceOf word 0) self.entry result (with_numbers self.old)) }
        ensures now { result.now ≡ numbers self.old };

    /// A copy of the list, without an allocation.
    fn copied(&self) -> Self
        ensures value { numbers result ≡ numbers self.now }
        ensures has { has_axes (length (numbers self.now)) };

    /// The number at an axis. Requires that the axis is below the number of axes; compare with `ndim`.
    fn axis(&self, axis: usize) -> usize
        requires { axis < length (numbers self.now) }
        ensures { result ≡ slice_index (numbers self.now) axis }
    {
        self.slice()[axis]
    }

    /// Sets the number at an axis. Requires that the axis is below the number of axes; compare with `ndim`.
    fn set_axis(&mut self, axis: usize, number: usize)
        requires { axis < length (numbers self.old) }
        ensures { numbers self.new ≡ slice_set (numbers self.old) axis number }
    {
        write_number(self.slice_mut(), axis, number);
    }

    /// The number of index lists in the box of the lengths: their product, which is 1 if there are no axes.
    ///
    /// Requires that the lengths that are not 0 multiply to at most `isize::MAX`; check with
    /// `size_ok`.
    #[tactic(auto, using(crate::proofs::boxes::Sizes::sizes))]
    fn size(&self) -> usize
        requires { IsWithinLimit (numbers self.now) }
        ensures { result ≡ size (numbers self.now) }
    {
        let mut size: usize = 1;
        for axis in 0..self.ndim() {
            size *= self.axis(axis);
        }
        size
    }

    /// Whether the lengths that are not 0 multiply to at most `isize::MAX`.
    fn size_ok(&self) -> bool
        ensures { IsTrue result ↔ IsWithinLimit (numbers self.now) }
    {
        let mut product: usize = 1;
        for axis in 0..self.ndim() {
            let len = self.axis(axis);
            if len != 0 {
                let (more, wraps) = product.overflowing_mul(len);
                if wraps || more > isize::MAX as usize {
                    return false;
                }
                product = more;
            }
        }
        true
    }

    ghost with_numbers_law: { (d : Self) (ns : List ℕ) → length ns ≡ length (numbers d) → numbers (with_numbers d ns) ≡ ns };
}

/// A type of dimensions: `Ix0` to `Ix6`, each with its fixed number of axes, and `IxDyn` with at most 32.
///
/// ```
/// let (rows, columns) = Ix2(2, 3).into_pattern(); // 2 and 3
/// Ix2(2, 3).insert_axis(Axis(1)); // Ix3(2, 1, 3)
/// Ix2(2, 3).try_remove_axis(Axis(0)); // Ix1(3)
/// ```
pub trait Dimension: Lengths {
    /// The type of an index list as a closure sees it: `()` for `Ix0`, `usize` for `Ix1`, a tuple of two to six `usize` for `Ix2` to `Ix6`,
    /// and `IxDyn` for `IxDyn`.
    type Pattern: Drop;

    /// The dimension with one axis less; for `Ix0` and `IxDyn` it is the same type.
    type Smaller: Lengths;

    /// The dimension with one axis more; for `Ix6` and `IxDyn` it is `IxDyn`.
    type Larger: Lengths;

    // The numbers that a pattern lists.
    ghost pattern_numbers: { Self.Pattern → List ℕ };

    /// The numbers as a pattern: a `usize` or a tuple of them.
    fn into_pattern(self) -> Self::Pattern
        ensures { pattern_numbers result ≡ Self.numbers self };

    /// The list with a number 1 put in at `axis`.
    ///
    /// Requires that the axis is at most the number of axes, and that this number is below 32; compare with `ndim`.
    fn insert_axis(&self, axis: Axis) -> Self::Larger
        requires axis_at_most { axis.0 ≤ length (Self.numbers self.now) }
        requires room { length (Self.numbers self.now) < 32 }
        ensures { Self.Larger.numbers result ≡ insert (Self.numbers self.now) axis.0 1 }
    {
        let ndim = self.ndim();
        let mut larger = Self::Larger::zeros(ndim + 1);
        for k in 0..axis.0 {
            larger.set_axis(k, self.axis(k));
        }
        larger.set_axis(axis.0, 1);
        for k in axis.0..ndim {
            larger.set_axis(k + 1, self.axis(k));
        }
        larger
    }

    /// The list without the number at an axis; a list without axes stays as it is.
    ///
    /// Requires that the axis is below the number of axes, or that there are no axes; compare with `ndim`.
    fn try_remove_axis(&self, axis: Axis) -> Self::Smaller
        requires { (Self.numbers self.now ≡ []) ⊎ (axis.0 < length (Self.numbers self.now)) }
        ensures { Self.Smaller.numbers result ≡ remove (Self.numbers self.now) axis.0 }
    {
        let ndim = self.ndim();
        if ndim == 0 {
            return Self::Smaller::zeros(0);
        }
        let mut smaller = Self::Smaller::zeros(ndim - 1);
        for k in 0..axis.0 {
            smaller.set_axis(k, self.axis(k));
        }
        for k in axis.0..ndim - 1 {
            smaller.set_axis(k, self.axis(k + 1));
        }
        smaller
    }

    ghost smaller_has: { (n : ℕ) → Self.has_axes (n + 1) → Self.Smaller.has_axes n };

    ghost smaller_has_none: { Self.has_axes 0 → Self.Smaller.has_axes 0 };

    ghost larger_has: { (n : ℕ) → n < 32 → Self.has_axes n → Self.Larger.has_axes (n + 1) };

    ghost smaller_is_fixed: { (n : ℕ) → IsFixed Self.has_axes n → IsFixed Self.Smaller.has_axes (n - 1) };

    ghost larger_is_fixed: { (n : ℕ) → n < 6 → IsFixed Self.has_axes n → IsFixed Self.Larger.has_axes (n + 1) };
}

/// A type of dimensions from which an axis can be removed: all but `Ix0`.
///
/// ```
/// Ix2(2, 3).remove_axis(Axis(0)); // Ix1(3)
/// ```
pub trait RemoveAxis: Dimension {
    /// The list without the number at an axis. Requires that the axis is below the number of axes; compare with `ndim`.
    fn remove_axis(&self, axis: Axis) -> Self::Smaller
        requires { axis.0 < length (Self.numbers self.now) }
        ensures { Self.Smaller.numbers result ≡ remove (Self.numbers self.now) axis.0 }
    {
        self.try_remove_axis(axis)
    }
}

/// A dimension, as the array or list of numbers that it holds. Its aliases are `Ix0` to `Ix6` and `IxDyn`.
#[derive(Clone, Copy, Drop, PartialEq, Eq, Debug)]
pub struct Dim<I>(pub I);

/// At most 32 numbers, held inline.
#[derive(Drop, PartialEq, Eq, Debug)]
pub struct DynLengths {
    held: ArrayVec<usize, 32>,
}

impl DynLengths {
    ghost use Rattle.ndarray.specs.contracts.base.dimension.DynLengths.{the_row};

    fn lengths_mut(&mut self) -> &mut [usize]
        ensures* writes_back { sem 𝓛 (Lends the_row (SliceOf word 0) self.entry result (with_held self.old)) }
        ensures now { result.now ≡ held_numbers self.old }
    {
        self.held.as_mut_slice()
    }
}

/// The type of dimensions without axes.
pub type Ix0 = Dim<[usize; 0]>;
/// The type of dimensions with one axis.
pub type Ix1 = Dim<[usize; 1]>;
/// The type of dimensions with two axes.
pub type Ix2 = Dim<[usize; 2]>;
/// The type of dimensions with three axes.
pub type Ix3 = Dim<[usize; 3]>;
/// The type of dimensions with four axes.
pub type Ix4 = Dim<[usize; 4]>;
/// The type of dimensions with five axes.
pub type Ix5 = Dim<[usize; 5]>;
/// The type of dimensions with six axes.
pub type Ix6 = Dim<[usize; 6]>;
/// The type of dimensions with any number of axes up to 32.
pub type IxDyn = Dim<DynLengths>;

/// The dimension without axes.
///
/// ```
/// assert_eq!(Ix0().slice(), &[]);
/// ```
pub fn Ix0() -> Ix0
    ensures { result.0 ≡ [] }
{
    Dim([])
}

/// The dimension with one axis.
///
/// ```
/// assert_eq!(Ix1(3).slice(), &[3]);
/// ```
pub fn Ix1(a: usize) -> Ix1
    ensures { result.0 ≡ a ∷ [] }
{
    Dim([a])
}

/// The dimension with two axes.
///
/// ```
/// assert_eq!(Ix2(2, 3).slice(), &[2, 3]);
/// ```
pub fn Ix2(a: usize, b: usize) -> Ix2
    ensures { result.0 ≡ a ∷ b ∷ [] }
{
    Dim([a, b])
}

/// The dimension with three axes.
///
/// ```
/// assert_eq!(Ix3(2, 3, 4).slice(), &[2, 3, 4]);
/// ```
pub fn Ix3(a: usize, b: usize, c: usize) -> Ix3
    ensures { result.0 ≡ a ∷ b ∷ c ∷ [] }
{
    Dim([a, b, c])
}

/// The dimension with four axes.
///
/// ```
/// assert_eq!(Ix4(2, 3, 4, 5).slice(), &[2, 3, 4, 5]);
/// ```
pub fn Ix4(a: usize, b: usize, c: usize, d: usize) -> Ix4
    ensures { result.0 ≡ a ∷ b ∷ c ∷ d ∷ [] }
{
    Dim([a, b, c, d])
}

/// The dimension with five axes.
///
/// ```
/// assert_eq!(Ix5(2, 3, 4, 5, 6).slice(), &[2, 3, 4, 5, 6]);
/// ```
pub fn Ix5(a: usize, b: usize, c: usize, d: usize, e: usize) -> Ix5
    ensures { result.0 ≡ a ∷ b ∷ c ∷ d ∷ e ∷ [] }
{
    Dim([a, b, c, d, e])
}

/// The dimension with six axes.
///
/// ```
/// assert_eq!(Ix6(2, 3, 4, 5, 6, 7).slice(), &[2, 3, 4, 5, 6, 7]);
/// ```
pub fn Ix6(a: usize, b: usize, c: usize, d: usize, e: usize, f: usize) -> Ix6
    ensures { result.0 ≡ a ∷ b ∷ c ∷ d ∷ e ∷ f ∷ [] }
{
    Dim([a, b, c, d, e, f])
}

/// The dimension with the numbers of a slice. Requires that there are at most 32; compare with `numbers.len()`.
///
/// ```
/// let lengths = [2, 3, 4];
/// if lengths.len() <= 32 {
///     let dim = IxDyn(&lengths);
/// }
/// ```
pub fn IxDyn(numbers: &[usize]) -> IxDyn
    requires { length numbers.now ≤ 32 }
    ensures { held_numbers result.0 ≡ numbers.now }
{
    match ArrayVec::try_from(numbers) {
        Ok(held) => Dim(DynLengths { held }),
        Err(_) => unreachable!(),
    }
}

impl<const N: usize> Lengths for Dim<[usize; N]> {
    ghost numbers = { λ d. d.0 };

    ghost has_axes = { λ n. n ≡ N };

    ghost with_numbers = { λ d ns. record { 0 = ns } };

    ghost with_numbers_law = { λ d ns h. refl };

    fn ndim(&self) -> usize {
        N
    }

    fn may_have(ndim: usize) -> bool {
        ndim == N
    }

    fn zeros(_ndim: usize) -> Self {
        Dim([0; N])
    }

    fn slice(&self) -> &[usize] {
        &self.0
    }

    fn slice_mut(&mut self) -> &mut [usize] {
        &mut self.0
    }

    fn copied(&self) -> Self {
        *self
    }
}

impl Lengths for Dim<DynLengths> {
    ghost numbers = { λ d. held_numbers d.0 };

    ghost has_axes = { λ n. n ≤ 32 };

    ghost with_numbers = { λ d ns. record { 0 = with_held d.0 ns } };

    ghost with_numbers_law = { Prim.search (rules, common_steps) };

    fn ndim(&self) -> usize {
        self.0.held.len()
    }

    fn may_have(ndim: usize) -> bool {
        ndim <= 32
    }

    fn zeros(ndim: usize) -> Self {
        let mut held = ArrayVec::new();
        for _i in 0..ndim {
            held.push(0);
        }
        Dim(DynLengths { held })
    }

    fn slice(&self) -> &[usize] {
        self.0.held.as_slice()
    }

    fn slice_mut(&mut self) -> &mut [usize] {
        self.0.lengths_mut()
    }

    fn copied(&self) -> Self {
        IxDyn(self.0.held.as_slice())
    }
}

impl Dimension for Dim<[usize; 0]> {
    type Pattern = ();

    type Smaller = Ix0;

    type Larger = Ix1;

    ghost pattern_numbers = { λ _. [] };

    ghost smaller_has = { Prim.search rules };

    ghost smaller_has_none = { Prim.search rules };

    ghost larger_has = { Prim.search rules };

    ghost smaller_is_fixed = { fixed-smaller 0 };

    ghost larger_is_fixed = { fixed-larger 0 };

    fn into_pattern(self) {}
}

impl Dimension for Dim<[usize; 1]> {
    type Pattern = usize;

    type Smaller = Ix0;

    type Larger = Ix2;

    ghost pattern_numbers = { λ i. i ∷ [] };

    ghost smaller_has = { Prim.search rules };

    ghost smaller_has_none = { Prim.search rules };

    ghost larger_has = { Prim.search rules };

    ghost smaller_is_fixed = { fixed-smaller 1 };

    ghost larger_is_fixed = { fixed-larger 1 };

    fn into_pattern(self) -> usize {
        let Dim([a]) = self;
        a
    }
}

impl Dimension for Dim<[usize; 2]> {
    type Pattern = (usize, usize);

    type Smaller = Ix1;

    type Larger = Ix3;

    ghost pattern_numbers = { λ p. p.0 ∷ p.1 ∷ [] };

    ghost smaller_has = { Prim.search rules };

    ghost smaller_has_none = { Prim.search rules };

    ghost larger_has = { Prim.search rules };

    ghost smaller_is_fixed = { fixed-smaller 2 };

    ghost larger_is_fixed = { fixed-larger 2 };

    fn into_pattern(self) -> (usize, usize) {
        let Dim([a, b]) = self;
        (a, b)
    }
}

impl Dimension for Dim<[usize; 3]> {
    type Pattern = (usize, usize, usize);

    type Smaller = Ix2;

    type Larger = Ix4;

    ghost pattern_numbers = { λ p. p.0 ∷ p.1 ∷ p.2 ∷ [] };

    ghost smaller_has = { Prim.search rules };

    ghost smaller_has_none = { Prim.search rules };

    ghost larger_has = { Prim.search rules };

    ghost smaller_is_fixed = { fixed-smaller 3 };

    ghost larger_is_fixed = { fixed-larger 3 };

    fn into_pattern(self) -> (usize, usize, usize) {
        let Dim([a, b, c]) = self;
        (a, b, c)
    }
}

impl Dimension for Dim<[usize; 4]> {
    type Pattern = (usize, usize, usize, usize);

    type Smaller = Ix3;

    type Larger = Ix5;

    ghost pattern_numbers = { λ p. p.0 ∷ p.1 ∷ p.2 ∷ p.3 ∷ [] };

    ghost smaller_has = { Prim.search rules };

    ghost smaller_has_none = { Prim.search rules };

    ghost larger_has = { Prim.search rules };

    ghost smaller_is_fixed = { fixed-smaller 4 };

    ghost larger_is_fixed = { fixed-larger 4 };

    fn into_pattern(self) -> (usize, usize, usize, usize) {
        let Dim([a, b, c, d]) = self;
        (a, b, c, d)
    }
}

impl Dimension for Dim<[usize; 5]> {
    type Pattern = (usize, usize, usize, usize, usize);

    type Smaller = Ix4;

    type Larger = Ix6;

    ghost pattern_numbers = { λ p. p.0 ∷ p.1 ∷ p.2 ∷ p.3 ∷ p.4 ∷ [] };

    ghost smaller_has = { Prim.search rules };

    ghost smaller_has_none = { Prim.search rules };

    ghost larger_has = { Prim.search rules };

    ghost smaller_is_fixed = { fixed-smaller 5 };

    ghost larger_is_fixed = { fixed-larger 5 };

    fn into_pattern(self) -> (usize, usize, usize, usize, usize) {
        let Dim([a, b, c, d, e]) = self;
        (a, b, c, d, e)
    }
}

impl Dimension for Dim<[usize; 6]> {
    type Pattern = (usize, usize, usize, usize, usize, usize);

    type Smaller = Ix5;

    type Larger = IxDyn;

    ghost pattern_numbers = { λ p. p.0 ∷ p.1 ∷ p.2 ∷ p.3 ∷ p.4 ∷ p.5 ∷ [] };

    ghost smaller_has = { Prim.search rules };

    ghost smaller_has_none = { Prim.search rules };

    ghost larger_has = { Prim.search rules };

    ghost smaller_is_fixed = { fixed-smaller 6 };

    ghost larger_is_fixed = { fixed-larger-none _ };

    fn into_pattern(self) -> (usize, usize, usize, usize, usize, usize) {
        let Dim([a, b, c, d, e, f]) = self;
        (a, b, c, d, e, f)
    }
}

impl Dimension for Dim<DynLengths> {
    type Pattern = IxDyn;

    type Smaller = IxDyn;

    type Larger = IxDyn;

    ghost pattern_numbers = { λ d. held_numbers d.0 };

    ghost smaller_has = { Prim.search rules };

    ghost smaller_has_none = { Prim.search rules };

    ghost larger_has = { Prim.search rules };

    ghost smaller_is_fixed = { λ n fixed. absurd (dynamic-not-fixed n fixed) };

    ghost larger_is_fixed = { λ n _ fixed. absurd (dynamic-not-fixed n fixed) };

    fn into_pattern(self) -> IxDyn {
        self
    }
}

impl RemoveAxis for Dim<[usize; 1]> {}

impl RemoveAxis for Dim<[usize; 2]> {}

impl RemoveAxis for Dim<[usize; 3]> {}

impl RemoveAxis for Dim<[usize; 4]> {}

impl RemoveAxis for Dim<[usize; 5]> {}

impl RemoveAxis for Dim<[usize; 6]> {}

impl RemoveAxis for Dim<DynLengths> {}
