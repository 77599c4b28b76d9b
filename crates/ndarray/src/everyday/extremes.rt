//! The least and the greatest cell, and where they are.

ghost use Rattle.std.specs.Prelude.{◌≡◌, List, ℕ, All, IfSome, MatchOption, false, length};
ghost use Rattle.ndarray.specs.Extremes.{IsFirstBestCell, greater, less};
ghost use Rattle.ndarray.specs.every_day.Preferences.{preferred};

use crate::base::array::ArrayBase;
use crate::base::dimension::{Dimension, Lengths};
use crate::base::storage::Data;

/// Which of two cells is sought.
#[derive(Clone, Copy)]
enum Extreme {
    /// The lesser one.
    Least,
    /// The greater one.
    Greatest,
}

impl Extreme {
    /// Whether a cell is to be taken in place of the best one before it, which it is not if the two are equal.
    #[inline(always)]
    fn prefers<A: Ord>(self, x: &A, best: &A) -> bool
        ensures { result ≡ preferred A.cmp self x.now best.now }
    {
        match self {
            Extreme::Least => x.cmp(best).is_lt(),
            Extreme::Greatest => best.cmp(x).is_lt(),
        }
    }
}

impl<A: Ord, S: Data<Elem = A>, D: Lengths> ArrayBase<S, D> {
    /// The least cell, and the first of them in row order if several are equal; `None` exactly if there is no cell.
    ///
    /// ```
    /// let a = ArrayView::from_shape((2, 2), &[3, 1, 2, 1])?;
    /// assert_eq!(a.min(), Some(&1));
    /// ```
    pub fn min(&self) -> Option<&A>
        ensures first { MatchOption result (length self.now.cells ≡ 0) (λ x. (is : List ℕ) × IsFirstBestCell (less A.cmp) self.now is x.now) }
        ensures bounds { IfSome result (λ x. All (λ y. less A.cmp y x.now ≡ false) self.now.cells) }
    {
        let _whole = self.raw_dim();
        self.first_best(Extreme::Least)
    }

    /// The greatest cell, and the first of them in row order if several are equal; `None` exactly if there is no cell.
    ///
    /// ```
    /// let a = ArrayView::from_shape((2, 2), &[3, 1, 2, 1])?;
    /// assert_eq!(a.max(), Some(&3));
    /// ```
    pub fn max(&self) -> Option<&A>
        ensures first { MatchOption result (length self.now.cells ≡ 0) (λ x. (is : List ℕ) × IsFirstBestCell (greater A.cmp) self.now is x.now) }
        ensures bounds { IfSome result (λ x. All (λ y. greater A.cmp y x.now ≡ false) self.now.cells) }
    {
        let _whole = self.raw_dim();
        self.first_best(Extreme::Greatest)
    }

    /// The first of the best cells in row order.
    #[inline(always)]
    fn first_best(&self, extreme: Extreme) -> Option<&A>
        ensures { MatchOption result (length self.now.cells ≡ 0) (λ x. (is : List ℕ) × IsFirstBestCell (preferred A.cmp extreme) self.now is x.now) }
    {
        let _whole = self.raw_dim();
        let mut cells = self.iter();
        let Some(mut best) = cells.next() else {
            return None;
        };
        for x in cells {
            if extreme.prefers(x, best) {
                best = x;
            }
        }
        Some(best)
    }
}

impl<A: Ord, S: Data<Elem = A>, D: Dimension> ArrayBase<S, D> {
    /// The index list of the least cell, as a pattern, and of the first of them in row order if several are equal; `None` exactly if there
    /// is no cell.
    ///
    /// ```
    /// let a = ArrayView::from_shape((2, 2), &[3, 1, 2, 1])?;
    /// assert_eq!(a.argmin(), Some((0, 1)));
    /// ```
    pub fn argmin(&self) -> Option<D::Pattern>
        ensures { MatchOption result (length self.now.cells ≡ 0) (λ index. (x : A) × IsFirstBestCell (less A.cmp) self.now (D.pattern_numbers index) x) }
    {
        self.first_best_index(Extreme::Least)
    }

    /// The index list of the greatest cell, as a pattern, and of the first of them in row order if several are equal; `None` exactly if
    /// there is no cell.
    ///
    /// ```
    /// let a = ArrayView::from_shape((2, 2), &[3, 1, 2, 1])?;
    /// assert_eq!(a.argmax(), Some((0, 0)));
    /// ```
    pub fn argmax(&self) -> Option<D::Pattern>
        ensures { MatchOption result (length self.now.cells ≡ 0) (λ index. (x : A) × IsFirstBestCell (greater A.cmp) self.now (D.pattern_numbers index) x) }
    {
        self.first_best_index(Extreme::Greatest)
    }

    /// The index pattern of the first of the best cells in row order.
    #[inline(always)]
    fn first_best_index(&self, extreme: Extreme) -> Option<D::Pattern>
        ensures { MatchOption result (length self.now.cells ≡ 0) (λ index. (x : A) × IsFirstBestCell (preferred A.cmp extreme) self.now (D.pattern_numbers index) x) }
    {
        let _whole = self.raw_dim();
        let mut cells = self.indexed_iter();
        let Some((mut index, mut best)) = cells.next() else {
            return None;
        };
        for (at, x) in cells {
            if extreme.prefers(x, best) {
                index = at;
                best = x;
            }
        }
        Some(index)
    }
}
