//! Calls on two arrays of one shape, cell by cell.

ghost use Rattle.std.specs.Prelude.{◌≡◌, IfOk, IsOk, length};
ghost use Rattle.ndarray.specs.Everyday.{CanMapTwo, LeavesBeside, MapsTwo, ReturnsAtBoth, TakesAtBoth, TakesToWriteBeside, combined};
ghost use Rattle.ndarray.specs.Index.{size};

use crate::base::array::{Array, ArrayBase};
use crate::base::dimension::Lengths;
use crate::base::storage::{Data, DataMut};
use crate::everyday::calls::{Copies, OnTwo, WritingBeside};
use crate::zip::collecting::collect_of_both;
use crate::zip::repeated::try_update_beside;
use std::alloc::{AllocError, Global};

impl<A, S: Data<Elem = A>, D: Lengths> ArrayBase<S, D> {
    /// The array of what `f` returns at the two cells at each index list.
    ///
    /// Requires that the other array has the same shape, and that `f` may be called at each two cells. Compare the shapes with `shape`; if
    /// the other array broadcasts to this one's, `broadcast` makes a view of it that may be passed. The error is an allocation failure,
    /// before the first call of `f`, and is never reported if there are no cells.
    ///
    /// ```
    /// let a = ArrayView::from_shape((2, 2), &[1, 2, 3, 4])?;
    /// a.combine(alloc, &a.t(), |x, y| 10 * x + y)?; // [[11, 23], [32, 44]]
    /// ```
    pub fn combine<B, T: Data<Elem = B>, R: Drop, F: Fn(&A, &B) -> R>(
        &self,
        alloc: Global,
        other: &ArrayBase<T, D>,
        f: F,
    ) -> Result<Array<R, D>, AllocError>
        requires same { other.now.lengths ≡ self.now.lengths }
        requires callable { CanMapTwo (TakesAtBoth F.Fn f) self.now other.now }
        ensures values { (h : A → B → R) → ((p : _) (q : _) (r : R) → F.post f p q r → r ≡ h p.now q.now) → IfOk result (λ c. c ≡ combined h self.now other.now) }
        ensures cells { IfOk result (MapsTwo (ReturnsAtBoth F.Fn f) self.now other.now) }
        ensures axes { IfOk result (λ c. D.has_axes (length c.lengths)) }
        ensures empty { size self.now.lengths ≡ 0 → IsOk result }
    {
        collect_of_both(alloc, self.view(), other.view(), OnTwo(f))
    }
}

impl<A: Copy, S: DataMut<Elem = A>, D: Lengths> ArrayBase<S, D> {
    /// Calls `f` for each cell, which it takes by a reference to write to, and the cell of another array at the same index list.
    ///
    /// Requires that the other array has the same shape, and that `f` may be called at each two cells. Compare the shapes with `shape`; if
    /// the other array broadcasts to this one's, `broadcast` makes a view of it that may be passed. Nothing is allocated.
    ///
    /// ```
    /// // [[1, 2], [3, 4]] and [[4, 3], [2, 1]] become [[4, 3], [3, 4]]
    /// array.zip_mut_with(&other, |x, y| *x = (*x).max(*y));
    /// ```
    pub fn zip_mut_with<B, T: Data<Elem = B>, F: Fn(&mut A, &B)>(
        &mut self,
        rhs: &ArrayBase<T, D>,
        f: F,
    )
        requires same { rhs.now.lengths ≡ self.old.lengths }
        requires callable { CanMapTwo (TakesToWriteBeside F.Fn f) self.old rhs.now }
        ensures values { (h : A → B → A) → ((p : _) (y : _) (q : _) → F.post f p y tt q → q.now ≡ h p.now y.now) → self.new ≡ combined h self.old rhs.now }
        ensures cells { MapsTwo (LeavesBeside F.Fn f) self.old rhs.now self.new }
    {
        let _whole = self.raw_dim();
        match try_update_beside(self, rhs.view(), WritingBeside(f)) {
            Ok(()) => {}
            Err(_) => unreachable!(),
        }
    }

    /// Copies to each cell the cell of another array at the same index list.
    ///
    /// Requires that the other array has the same shape. Compare the shapes with `shape`; if the other array broadcasts to this one's,
    /// `broadcast` makes a view of it that may be passed. Nothing is allocated.
    ///
    /// ```
    /// array.assign(&other); // the same cells in both
    /// ```
    pub fn assign<T: Data<Elem = A>>(&mut self, rhs: &ArrayBase<T, D>)
        requires { rhs.now.lengths ≡ self.old.lengths }
        ensures { self.new ≡ rhs.now }
    {
        match try_update_beside(self, rhs.view(), Copies) {
            Ok(()) => {}
            Err(_) => unreachable!(),
        }
    }
}
