//! What a closure makes of the lanes of an array.

ghost use Rattle.std.specs.Prelude.{◌≡◌, ◌<◌, List, All, IfOk, IsOk, length, remove};
ghost use Rattle.std.specs.List.{FoldsTo, fold};
ghost use Rattle.ndarray.specs.Elementwise.{CanMap, Maps};
ghost use Rattle.ndarray.specs.Everyday.{ReturnsAtBoth, TakesAtBoth};
ghost use Rattle.ndarray.specs.Grid.{array_by};
ghost use Rattle.ndarray.specs.Index.{size};
ghost use Rattle.ndarray.specs.Subviews.{lane, lanes_of};

use crate::base::array::{Array, ArrayBase, ArrayView};
use crate::base::axis::Axis;
use crate::base::dimension::{Dimension, Ix1};
use crate::base::storage::Data;
use crate::iter::Iter;
use crate::zip::closures::ItemCall;
use crate::zip::collecting::collect_in_either_order;
use std::alloc::{AllocError, Global};

impl<A, S: Data<Elem = A>, D: Dimension> ArrayBase<S, D> {
    /// Folds each lane along an axis. The result lacks this axis, and has at each index list the last total of the lane there: `f` takes
    /// the total so far, which is `init` at first, and the next cell of the lane, and returns the next total. The cells of a lane are taken
    /// in the order of their indices. A lane of length 0 has the total `init`.
    ///
    /// Requires an axis below the number of axes, which `axis_ok` tests, and that `f` may be called at any total and each cell. The error
    /// is an allocation failure, before the first call of `f`, and is never reported if there is no lane.
    ///
    /// ```
    /// let a = ArrayView::from_shape((2, 3), &[1, 5, 3, 4, 2, 6])?;
    /// a.fold_axis(alloc, Axis(1), 0, |most, x| (*most).max(*x))?; // [5, 6]
    /// ```
    pub fn fold_axis<B: Copy, F: Fn(&B, &A) -> B>(
        &self,
        alloc: Global,
        axis: Axis,
        init: B,
        f: F,
    ) -> Result<Array<B, D::Smaller>, AllocError>
        requires axis { axis.0 < length self.now.lengths }
        requires callable { (b : B) → CanMap (TakesAtBoth F.Fn f b) self.now }
        ensures values { (h : B → A → B) → ((p : _) (q : _) (r : B) → F.post f p q r → r ≡ h p.now q.now) → IfOk result (λ c. c ≡ array_by (remove self.now.lengths axis.0) (λ js. fold h init (lane self.now axis.0 js).cells)) }
        ensures cells { IfOk result (Maps (λ l r. FoldsTo (ReturnsAtBoth F.Fn f) init l.cells r) (lanes_of self.now axis.0)) }
        ensures axes { IfOk result (λ c. D.Smaller.has_axes (length c.lengths)) }
        ensures empty { size (remove self.now.lengths axis.0) ≡ 0 → IsOk result }
    {
        let _whole = self.raw_dim();
        collect_in_either_order(alloc, self.lanes(axis), FoldLane { init, f })
    }

    /// The array of what `f` returns for each lane along an axis. The result lacks this axis. `f` takes an iterator over the cells of the
    /// lane, in the order of their indices.
    ///
    /// Requires an axis below the number of axes, which `axis_ok` tests, and that `f` may be called at each lane. The error is an
    /// allocation failure, before the first call of `f`, and is never reported if there is no lane.
    ///
    /// ```
    /// let a = ArrayView::from_shape((2, 3), &[1, 5, 3, 4, 2, 6])?;
    /// a.map_axis(alloc, Axis(1), |lane| lane.copied().max())?; // [Some(5), Some(6)]
    /// ```
    pub fn map_axis<'a, R: Drop, F: Fn(Iter<'a, A, Ix1>) -> R>(
        &'a self,
        alloc: Global,
        axis: Axis,
        f: F,
    ) -> Result<Array<R, D::Smaller>, AllocError>
    where
        A: 'a,
        requires axis { axis.0 < length self.now.lengths }
        requires callable { CanMap (λ l. F.pre f l.cells) (lanes_of self.now axis.0) }
        ensures values { (h : List A → R) → ((l : List A) (r : R) → F.post f l r → r ≡ h l) → IfOk result (λ c. c ≡ array_by (remove self.now.lengths axis.0) (λ js. h (lane self.now axis.0 js).cells)) }
        ensures cells { IfOk result (Maps (λ l r. F.post f l.cells r) (lanes_of self.now axis.0)) }
        ensures axes { IfOk result (λ c. D.Smaller.has_axes (length c.lengths)) }
        ensures empty { size (remove self.now.lengths axis.0) ≡ 0 → IsOk result }
    {
        let _whole = self.raw_dim();
        collect_in_either_order(alloc, self.lanes(axis), OnLane(f))
    }
}

/// A closure of the cells of a lane, as a call.
#[derive(Drop)]
struct OnLane<F>(F);

impl<'a, A: 'a, R, F: Fn(Iter<'a, A, Ix1>) -> R> ItemCall<ArrayView<'a, A, Ix1>> for OnLane<F> {
    type Out = R;

    ghost can_call = { λ c l. F.pre c.0 l.cells };

    ghost call_gives = { λ c l r d. F.post c.0 l.cells r × (d ≡ c) };

    fn call(&mut self, lane: ArrayView<'a, A, Ix1>) -> R {
        (self.0)(Iter::new(lane))
    }
}

/// The last total of a lane, as a call.
#[derive(Drop)]
struct FoldLane<B, F> {
    init: B,
    f: F,
}

impl<'a, A, B: Copy, F: Fn(&B, &A) -> B> ItemCall<ArrayView<'a, A, Ix1>> for FoldLane<B, F> {
    type Out = B;

    ghost can_call = { λ c l. (b : B) → All (TakesAtBoth F.Fn c.f b) l.cells };

    ghost call_gives = { λ c l r d. FoldsTo (ReturnsAtBoth F.Fn c.f) c.init l.cells r × (d ≡ c) };

    fn call(&mut self, lane: ArrayView<'a, A, Ix1>) -> B {
        let mut total = self.init;
        for x in lane.iter() {
            total = (self.f)(&total, x);
        }
        total
    }
}
