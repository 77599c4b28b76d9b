//! Updates of the cells of an array in place, each by a closure of its index list and its old value.

ghost use Rattle.ndarray.specs.Calls.{can_call2, call_gives2};
ghost use Rattle.ndarray.specs.Grid.{IsGrid, array_by, cell};
ghost use Rattle.ndarray.specs.Index.{InBox};
ghost use Rattle.ndarray.specs.Orders.{box_in};
ghost use Rattle.ndarray.specs.Runs.{MayGather, Collects};
ghost use Rattle.ndarray.specs.IndexedUpdates.{is_pattern_and_cell};
ghost use Rattle.ndarray.specs.declared.base.shape.Order.{Order};
ghost use Rattle.std.specs.Prelude.{◌≡◌, ℕ, List, MatchResult, Some};

use crate::base::array::ArrayBase;
use crate::base::dimension::Dimension;
use crate::base::index_lists::Indices;
use crate::base::storage::DataMut;
use crate::zip::updating::{CellCall, try_update};
use std::alloc::AllocError;

impl<A: Copy, S: DataMut<Elem = A>, D: Dimension> ArrayBase<S, D> {
    /// Replaces each cell by what `f` returns at its index list, which it takes as a pattern, and its old value.
    ///
    /// Requires that these calls may be made, in row order and in column order. There is one for each index list, `len()` in all, in one of
    /// the two orders throughout. Nothing is allocated.
    ///
    /// ```
    /// // [[1, 2], [3, 4]] becomes [[1, 3], [13, 15]]
    /// array.update(|(i, j), x| 10 * i + j + x);
    /// ```
    pub fn update<F: FnMut(D::Pattern, A) -> A>(&mut self, f: F)
        requires callable { (o : Order) → MayGather (is_pattern_and_cell D.pattern_numbers self.old) (call_gives2 F.FnMut) (can_call2 F.FnMut) (box_in o self.old.lengths) f }
        ensures ran { (o : Order) × Collects (is_pattern_and_cell D.pattern_numbers self.old) (call_gives2 F.FnMut) o self.old.lengths f self.new }
        ensures follows { (h : List ℕ → A) → ((i : D.Pattern) (x r : A) (k : F) → InBox self.old.lengths (D.pattern_numbers i) → cell self.old (D.pattern_numbers i) ≡ Some x → call_gives2 F.FnMut f (i, x) r k → (k ≡ f) × (r ≡ h (D.pattern_numbers i))) → self.new ≡ array_by self.old.lengths h }
        ensures whole { IsGrid self.new }
    {
        let lists = Indices::of(self.raw_dim());
        match try_update(self, lists, OnIndexAndCell(f)) {
            Ok(()) => {}
            Err(_) => unreachable!(),
        }
    }
}

/// A closure of an index list and a cell, as one of the cell and the index list, which never fails.
#[derive(Drop)]
struct OnIndexAndCell<F>(F);

impl<A: Copy, X, F: FnMut(X, A) -> A> CellCall<A, X> for OnIndexAndCell<F> {
    ghost can_call = { λ c t. can_call2 F.FnMut c.0 (t.1, t.0) };

    ghost call_gives = { λ c t r d. MatchResult r (λ a. call_gives2 F.FnMut c.0 (t.1, t.0) a d.0) (λ _. ⊥) };

    #[inline(always)]
    fn call(&mut self, cell: &A, at: X) -> Result<A, AllocError> {
        Ok((self.0)(at, *cell))
    }
}
