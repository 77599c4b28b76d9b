//! Calls that change the cells of an array in place. Nothing is allocated.

ghost use Rattle.std.specs.Prelude.{◌≡◌};
ghost use Rattle.ndarray.specs.Elementwise.{CanMap, Maps};
ghost use Rattle.ndarray.specs.Everyday.{Leaves, TakesToWrite, mapped};

use crate::base::array::ArrayBase;
use crate::base::dimension::Lengths;
use crate::base::storage::DataMut;
use crate::everyday::calls::{OnCopy, Writing};
use crate::zip::units::Units;
use crate::zip::updating::try_update;

impl<A: Copy, S: DataMut<Elem = A>, D: Lengths> ArrayBase<S, D> {
    /// Replaces each cell by what `f` returns at it.
    ///
    /// Requires that `f` may be called at each cell.
    ///
    /// ```
    /// // [[1, 2], [3, 4]] becomes [[0, 1], [1, 2]]
    /// array.mapv_inplace(|x| x / 2);
    /// ```
    pub fn mapv_inplace<F: Fn(A) -> A>(&mut self, f: F)
        requires callable { CanMap (λ x. F.pre f x) self.old }
        ensures values { (h : A → A) → ((x : A) (r : A) → F.post f x r → r ≡ h x) → self.new ≡ mapped h self.old }
        ensures cells { Maps (λ x r. F.post f x r) self.old self.new }
    {
        let each = Units::of(self.raw_dim());
        match try_update(self, each, OnCopy(f)) {
            Ok(()) => {}
            Err(_) => unreachable!(),
        }
    }

    /// Calls `f` for each cell, which it takes by a reference to write to.
    ///
    /// Requires that `f` may be called at each cell.
    ///
    /// ```
    /// // [[1, 2], [3, 4]] becomes [[1, 2], [3, 3]]
    /// array.map_inplace(|x| *x = (*x).min(3));
    /// ```
    pub fn map_inplace<F: Fn(&mut A)>(&mut self, f: F)
        requires callable { CanMap (TakesToWrite F.Fn f) self.old }
        ensures values { (h : A → A) → ((p : _) (q : _) → F.post f p tt q → q.now ≡ h p.now) → self.new ≡ mapped h self.old }
        ensures cells { Maps (Leaves F.Fn f) self.old self.new }
    {
        let each = Units::of(self.raw_dim());
        match try_update(self, each, Writing(f)) {
            Ok(()) => {}
            Err(_) => unreachable!(),
        }
    }

    /// Sets each cell to `x`.
    ///
    /// ```
    /// // [[1, 2], [3, 4]] becomes [[7, 7], [7, 7]]
    /// array.fill(7);
    /// ```
    pub fn fill(&mut self, x: A)
        ensures { self.new ≡ mapped (λ _. x) self.old }
    {
        self.mapv_inplace(|_old| x);
    }
}
