//! Whether two arrays are the same.

ghost use Rattle.std.specs.Prelude.{◌≡◌, ◌↔◌, IsTrue};
ghost use Rattle.std.specs.Cmp.{and_equiv, and_per, on_equiv, on_per, partial_equiv_from_equiv};
ghost use Rattle.std.specs.Cmp.Lexicographic.{lists_equiv, lists_per, nat_list_eq_equiv};
ghost use Rattle.ndarray.specs.Everyday.{same_arrays};

use crate::base::array::ArrayBase;
use crate::base::dimension::Lengths;
use crate::base::storage::Data;
use crate::zip::Zip;

impl<A: PartialEq, S: Data<Elem = A>, D: Lengths> ArrayBase<S, D> {
    /// Whether the other array has the same lengths and, at each index list, an equal cell, whatever the storages and memory layouts. The
    /// comparison stops at the first two cells that differ.
    ///
    /// ```
    /// let a = ArrayView::from_shape((2, 2), &[1, 2, 2, 4])?;
    /// assert!(a.equals(&a.t()));
    /// ```
    pub fn equals<T: Data<Elem = A>>(&self, other: &ArrayBase<T, D>) -> bool
        ensures value { result ≡ same_arrays A.eq self.now other.now }
        ensures decides { ((x y : A) → IsTrue (A.eq x y) ↔ (x ≡ y)) → IsTrue result ↔ (self.now ≡ other.now) }
    {
        let _whole = (self.raw_dim(), other.raw_dim());
        if self.shape() != other.shape() {
            return false;
        }
        Zip::from(self).and(other).all(|x, y| *x == *y)
    }
}

impl<A: PartialEq, S: Data<Elem = A>, D: Lengths> PartialEq for ArrayBase<S, D> {
    ghost eq = { same_arrays A.eq };

    ghost laws = { and_per (on_per (λ g. g.lengths) (partial_equiv_from_equiv nat_list_eq_equiv)) (on_per (λ g. g.cells) (lists_per A.laws)) };

    fn eq(&self, other: &Self) -> bool {
        self.equals(other)
    }
}

impl<A: Eq, S: Data<Elem = A>, D: Lengths> Eq for ArrayBase<S, D> {
    ghost laws = { and_equiv (on_equiv (λ g. g.lengths) nat_list_eq_equiv) (on_equiv (λ g. g.cells) (lists_equiv A.Eq.laws)) };
}
