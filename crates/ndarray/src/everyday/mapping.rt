//! Arrays of what a closure returns at each cell, or at each index list.

ghost use Rattle.std.specs.Prelude.{◌≡◌, ℕ, List, Some, IfOk, IsOk, length};
ghost use Rattle.std.specs.Fn.{FnReturnsAt, TakesAt};
ghost use Rattle.ndarray.specs.Elementwise.{CanMap, Maps};
ghost use Rattle.ndarray.specs.Everyday.{mapped};
ghost use Rattle.ndarray.specs.Grid.{array_by, cell};
ghost use Rattle.ndarray.specs.Index.{InBox, size};
ghost use Rattle.ndarray.specs.Limits.{IsWithinLimit};

use crate::base::array::{Array, ArrayBase};
use crate::base::dimension::{Dimension, Lengths};
use crate::base::index_lists::Indices;
use crate::base::shape::{Shape, ShapeBuilder};
use crate::base::storage::Data;
use crate::everyday::calls::{OnCopy, OnItem};
use crate::zip::Zip;
use crate::zip::collecting::{collect_in_either_order, collect_items};
use std::alloc::{AllocError, Global};

impl<S: Data, D: Lengths> ArrayBase<S, D> {
    /// The array of what `f` returns at each cell, which it takes by reference.
    ///
    /// Requires that `f` may be called at each cell. The error is an allocation failure, before the first call of `f`, and is never
    /// reported if there are no cells.
    ///
    /// ```
    /// let a = ArrayView::from_shape((2, 2), &[1, 2, 3, 4])?;
    /// a.map(alloc, |x| *x > 2)?; // [[false, false], [true, true]]
    /// ```
    pub fn map<R: Drop, F: Fn(&S::Elem) -> R>(
        &self,
        alloc: Global,
        f: F,
    ) -> Result<Array<R, D>, AllocError>
        requires callable { CanMap (TakesAt F.FnMut f) self.now }
        ensures values { (h : S.Elem → R) → ((p : _) (r : R) → F.post f p r → r ≡ h p.now) → IfOk result (λ b. b ≡ mapped h self.now) }
        ensures cells { IfOk result (Maps (λ x r. FnReturnsAt F.Fn f x r) self.now) }
        ensures axes { IfOk result (λ b. D.has_axes (length b.lengths)) }
        ensures empty { size self.now.lengths ≡ 0 → IsOk result }
    {
        let _whole = self.raw_dim();
        Zip::from(self).map_collect(alloc, f)
    }
}

impl<A: Copy, S: Data<Elem = A>, D: Lengths> ArrayBase<S, D> {
    /// The array of what `f` returns at each cell, which it takes by value.
    ///
    /// Requires that `f` may be called at each cell. The error is an allocation failure, before the first call of `f`, and is never
    /// reported if there are no cells.
    ///
    /// ```
    /// let a = ArrayView::from_shape((2, 2), &[1, 2, 3, 4])?;
    /// a.mapv(alloc, |x| x / 2)?; // [[0, 1], [1, 2]]
    /// ```
    pub fn mapv<R: Drop, F: Fn(A) -> R>(
        &self,
        alloc: Global,
        f: F,
    ) -> Result<Array<R, D>, AllocError>
        requires callable { CanMap (λ x. F.pre f x) self.now }
        ensures values { (h : A → R) → ((x : A) (r : R) → F.post f x r → r ≡ h x) → IfOk result (λ b. b ≡ mapped h self.now) }
        ensures cells { IfOk result (Maps (λ x r. F.post f x r) self.now) }
        ensures axes { IfOk result (λ b. D.has_axes (length b.lengths)) }
        ensures empty { size self.now.lengths ≡ 0 → IsOk result }
    {
        let _whole = self.raw_dim();
        collect_in_either_order(alloc, self.view(), OnCopy(f))
    }
}

impl<A: Drop, D: Dimension> Array<A, D> {
    /// The array of a shape whose cell at each index list is what `f` returns at that list, which it takes as a pattern.
    ///
    /// Requires that the nonzero lengths multiply to at most `isize::MAX` (check with `size_ok` of the dimension), and that `f` may be
    /// called at each index list of the shape. The error is an allocation failure, before the first call of `f`, and is never reported if
    /// there are no cells.
    ///
    /// ```
    /// Array::from_shape_fn(alloc, (2, 3), |(i, j)| 10 * i + j)?; // [[0, 1, 2], [10, 11, 12]]
    /// ```
    pub fn from_shape_fn<Sh: ShapeBuilder<Dim = D>, F: Fn(D::Pattern) -> A>(
        alloc: Global,
        shape: Sh,
        f: F,
    ) -> Result<Self, AllocError>
        requires limit { IsWithinLimit (Sh.shape_lengths shape) }
        requires callable { (x : D.Pattern) → InBox (Sh.shape_lengths shape) (D.pattern_numbers x) → F.pre f x }
        ensures values { (h : List ℕ → A) → ((x : D.Pattern) (r : A) → F.post f x r → r ≡ h (D.pattern_numbers x)) → IfOk result (λ a. a ≡ array_by (Sh.shape_lengths shape) h) }
        ensures inside { (h : List ℕ → A) → ((x : D.Pattern) (r : A) → InBox (Sh.shape_lengths shape) (D.pattern_numbers x) → F.post f x r → r ≡ h (D.pattern_numbers x)) → IfOk result (λ a. a ≡ array_by (Sh.shape_lengths shape) h) }
        ensures cells { IfOk result (λ a. (is : List ℕ) (z : A) → cell a is ≡ Some z → (x : D.Pattern) × (D.pattern_numbers x ≡ is) × F.post f x z) }
        ensures axes { IfOk result (λ a. D.has_axes (length a.lengths)) }
        ensures empty { size (Sh.shape_lengths shape) ≡ 0 → IsOk result }
    {
        let Shape { dim, order } = shape.into_shape_with_order();
        collect_items(alloc, Indices::of(dim), order, OnItem(f))
    }
}
