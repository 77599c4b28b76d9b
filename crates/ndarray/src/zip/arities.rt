//! The calls of `Zip`, for each number of producers.

ghost use Rattle.std.specs.Prelude.{◌≡◌, ℕ, Bool, List, true, false, length, IfOk, IsOk};
ghost use Rattle.std.specs.List.{fold, list_all, list_any};
ghost use Rattle.ndarray.specs.Calls.{can_call1, call_gives1, can_call_fold1, call_gives_fold1, can_call2, call_gives2, can_call_fold2, call_gives_fold2, can_call3, call_gives3, can_call_fold3, call_gives_fold3, can_call4, call_gives4, can_call_fold4, call_gives_fold4, can_call5, call_gives5, can_call_fold5, call_gives_fold5, can_call6, call_gives6, can_call_fold6, call_gives_fold6};
ghost use Rattle.ndarray.specs.Grid.{IsGrid, array_by};
ghost use Rattle.ndarray.specs.Index.{row_order, size};
ghost use Rattle.ndarray.specs.Orders.{box_in};
ghost use Rattle.ndarray.specs.Runs.{MayFold, Folds, MayVisit, Visits, MayTest, TestsUntil, MayFoldWhile, FoldsWhile, MayGather, Collects, Computes, ComputesTotals};
ghost use Rattle.ndarray.specs.declared.base.shape.Order.{Order};

use crate::base::array::{Array, ArrayBase};
use crate::base::dimension::Lengths;
use crate::base::storage::DataMut;
use crate::zip::closures::{On1, On2, On3, On4, On5, On6};
use crate::zip::fold_while::FoldWhile;
use crate::zip::part_counts::{Five, Four, One, Six, Three, Two};
use crate::zip::producer::NdProducer;
use crate::zip::{Parts, Zip};
use std::alloc::{AllocError, Global};

impl<N: NdProducer<Dim = D>, D: Lengths> Zip<Parts<N, One>, D> {
    /// Calls `f` once for each index list, with the items there. Requires that these calls may be made, in row order and in column order.
    ///
    /// ```
    /// Zip::from(a.view_mut()).for_each(|x| *x += 1);
    /// ```
    pub fn for_each<F: FnMut(N::Item)>(self, f: F)
        requires callable { (o : Order) → MayVisit (N.yields_at self.nested) (call_gives1 F.FnMut) (can_call1 F.FnMut) (box_in o (N.lengths self.nested)) f }
        ensures ran { (o : Order) × Visits (N.yields_at self.nested) (call_gives1 F.FnMut) (box_in o (N.lengths self.nested)) f }
    {
        self.visit_items(On1(f))
    }

    /// Calls `f` once for each index list, with the total so far and the items there; `f` returns the next total, and the last total is the
    /// result. Requires that these calls may be made, in row order and in column order.
    ///
    /// ```
    /// let sum = Zip::from(&a).fold(0, |sum, x| sum + x);
    /// ```
    pub fn fold<B, F: FnMut(B, N::Item) -> B>(self, acc: B, f: F) -> B
        requires callable { (o : Order) → MayFold (N.yields_at self.nested) (call_gives_fold1 F.FnMut) (can_call_fold1 F.FnMut) (box_in o (N.lengths self.nested)) f acc }
        ensures ran { (o : Order) × Folds (N.yields_at self.nested) (call_gives_fold1 F.FnMut) (box_in o (N.lengths self.nested)) f acc result }
        ensures follows { (ns : List ℕ) (h : B → List ℕ → B) → N.lengths self.nested ≡ ns → ComputesTotals (N.yields_at self.nested) (call_gives_fold1 F.FnMut) f ns h → result ≡ fold h acc (row_order ns) }
    {
        self.fold_items(acc, On1(f))
    }

    /// Calls `f` as `fold` does, but no more after its first result that is `Done`. It returns the last result of `f`, or `Continue(acc)`
    /// if there is no index list. Requires that these calls may be made, in row order and in column order.
    ///
    /// ```
    /// // how many come before the first cell that is not positive
    /// let count = Zip::from(&a).fold_while(0, |n, x| {
    ///     if *x > 0 { FoldWhile::Continue(n + 1) } else { FoldWhile::Done(n) }
    /// });
    /// ```
    pub fn fold_while<B, F: FnMut(B, N::Item) -> FoldWhile<B>>(self, acc: B, f: F) -> FoldWhile<B>
        requires callable { (o : Order) → MayFoldWhile (N.yields_at self.nested) (call_gives_fold1 F.FnMut) (can_call_fold1 F.FnMut) (box_in o (N.lengths self.nested)) f acc }
        ensures ran { (o : Order) × FoldsWhile (N.yields_at self.nested) (call_gives_fold1 F.FnMut) (box_in o (N.lengths self.nested)) f acc result }
    {
        self.fold_items_while(acc, On1(f))
    }

    /// Whether `f` returns `true` for each index list, with the items there; it stops at the first `false`. Requires that these calls may
    /// be made, in row order and in column order.
    ///
    /// ```
    /// let all = Zip::from(&a).all(|x| *x > 0);
    /// ```
    pub fn all<F: FnMut(N::Item) -> bool>(self, f: F) -> bool
        requires callable { (o : Order) → MayTest (N.yields_at self.nested) (call_gives1 F.FnMut) (can_call1 F.FnMut) (box_in o (N.lengths self.nested)) f true }
        ensures ran { (o : Order) × TestsUntil (N.yields_at self.nested) (call_gives1 F.FnMut) (box_in o (N.lengths self.nested)) f true false result }
        ensures follows { (ns : List ℕ) (h : List ℕ → Bool) → N.lengths self.nested ≡ ns → Computes (N.yields_at self.nested) (call_gives1 F.FnMut) f ns h → result ≡ list_all h (row_order ns) }
    {
        self.all_items(On1(f))
    }

    /// Whether `f` returns `true` for some index list, with the items there; it stops at the first `true`. Requires that these calls may be
    /// made, in row order and in column order.
    ///
    /// ```
    /// let any = Zip::from(&a).any(|x| *x == 0);
    /// ```
    pub fn any<F: FnMut(N::Item) -> bool>(self, f: F) -> bool
        requires callable { (o : Order) → MayTest (N.yields_at self.nested) (call_gives1 F.FnMut) (can_call1 F.FnMut) (box_in o (N.lengths self.nested)) f false }
        ensures ran { (o : Order) × TestsUntil (N.yields_at self.nested) (call_gives1 F.FnMut) (box_in o (N.lengths self.nested)) f false true result }
        ensures follows { (ns : List ℕ) (h : List ℕ → Bool) → N.lengths self.nested ≡ ns → Computes (N.yields_at self.nested) (call_gives1 F.FnMut) f ns h → result ≡ list_any h (row_order ns) }
    {
        self.any_items(On1(f))
    }

    /// The array whose cell at each index list is what `f` returns for the items there. Requires that these calls may be made, in row order
    /// and in column order.
    ///
    /// The error is an allocation failure, before the first call of `f`, and is never reported if there is no index list.
    ///
    /// ```
    /// let made = Zip::from(&a).map_collect(alloc, |x| x * x)?;
    /// ```
    pub fn map_collect<R: Drop, F: FnMut(N::Item) -> R>(
        self,
        alloc: Global,
        f: F,
    ) -> Result<Array<R, D>, AllocError>
        requires callable { (o : Order) → MayGather (N.yields_at self.nested) (call_gives1 F.FnMut) (can_call1 F.FnMut) (box_in o (N.lengths self.nested)) f }
        ensures ran { IfOk result (λ g. (o : Order) × Collects (N.yields_at self.nested) (call_gives1 F.FnMut) o (N.lengths self.nested) f g) }
        ensures follows { (ns : List ℕ) (h : List ℕ → R) → N.lengths self.nested ≡ ns → Computes (N.yields_at self.nested) (call_gives1 F.FnMut) f ns h → IfOk result (λ g. g ≡ array_by ns h) }
        ensures axes { IfOk result (λ g. D.has_axes (length g.lengths)) }
        ensures whole { IfOk result IsGrid }
        ensures empty { size (N.lengths self.nested) ≡ 0 → IsOk result }
    {
        self.collect_items(alloc, On1(f))
    }

    /// Sets the cell of `into` at each index list to what `f` returns for the items there. Nothing is allocated.
    ///
    /// Requires that `into` has the same lengths as the producers (check with `fits` of its view), and that these calls may be made, in row
    /// order and in column order.
    ///
    /// ```
    /// Zip::from(&a).map_assign_into(&mut into, |x| x * x);
    /// ```
    pub fn map_assign_into<R: Drop, S: DataMut<Elem = R>, F: FnMut(N::Item) -> R>(
        self,
        into: &mut ArrayBase<S, D>,
        f: F,
    )
        requires same { N.lengths self.nested ≡ into.old.lengths }
        requires callable { (o : Order) → MayGather (N.yields_at self.nested) (call_gives1 F.FnMut) (can_call1 F.FnMut) (box_in o (N.lengths self.nested)) f }
        ensures ran { (o : Order) × Collects (N.yields_at self.nested) (call_gives1 F.FnMut) o (N.lengths self.nested) f into.new }
        ensures follows { (ns : List ℕ) (h : List ℕ → R) → N.lengths self.nested ≡ ns → Computes (N.yields_at self.nested) (call_gives1 F.FnMut) f ns h → into.new ≡ array_by ns h }
        ensures whole { IsGrid into.new }
    {
        self.assign_items(into, On1(f))
    }
}

impl<X, Y, N: NdProducer<Item = (X, Y), Dim = D>, D: Lengths> Zip<Parts<N, Two>, D> {
    /// Calls `f` once for each index list, with the items there. Requires that these calls may be made, in row order and in column order.
    ///
    /// ```
    /// Zip::from(a.view_mut()).and(&b).for_each(|x, y| *x += *y);
    /// ```
    pub fn for_each<F: FnMut(X, Y)>(self, f: F)
        requires callable { (o : Order) → MayVisit (N.yields_at self.nested) (call_gives2 F.FnMut) (can_call2 F.FnMut) (box_in o (N.lengths self.nested)) f }
        ensures ran { (o : Order) × Visits (N.yields_at self.nested) (call_gives2 F.FnMut) (box_in o (N.lengths self.nested)) f }
    {
        self.visit_items(On2(f))
    }

    /// Calls `f` once for each index list, with the total so far and the items there; `f` returns the next total, and the last total is the
    /// result. Requires that these calls may be made, in row order and in column order.
    ///
    /// ```
    /// let sum = Zip::from(&a).and(&b).fold(0, |sum, x, y| sum + x * y);
    /// ```
    pub fn fold<B, F: FnMut(B, X, Y) -> B>(self, acc: B, f: F) -> B
        requires callable { (o : Order) → MayFold (N.yields_at self.nested) (call_gives_fold2 F.FnMut) (can_call_fold2 F.FnMut) (box_in o (N.lengths self.nested)) f acc }
        ensures ran { (o : Order) × Folds (N.yields_at self.nested) (call_gives_fold2 F.FnMut) (box_in o (N.lengths self.nested)) f acc result }
        ensures follows { (ns : List ℕ) (h : B → List ℕ → B) → N.lengths self.nested ≡ ns → ComputesTotals (N.yields_at self.nested) (call_gives_fold2 F.FnMut) f ns h → result ≡ fold h acc (row_order ns) }
    {
        self.fold_items(acc, On2(f))
    }

    /// Calls `f` as `fold` does, but no more after its first result that is `Done`. It returns the last result of `f`, or `Continue(acc)`
    /// if there is no index list. Requires that these calls may be made, in row order and in column order.
    ///
    /// ```
    /// // how many come before the first sum that is not positive
    /// let count = Zip::from(&a).and(&b).fold_while(0, |n, x, y| {
    ///     if x + y > 0 { FoldWhile::Continue(n + 1) } else { FoldWhile::Done(n) }
    /// });
    /// ```
    pub fn fold_while<B, F: FnMut(B, X, Y) -> FoldWhile<B>>(self, acc: B, f: F) -> FoldWhile<B>
        requires callable { (o : Order) → MayFoldWhile (N.yields_at self.nested) (call_gives_fold2 F.FnMut) (can_call_fold2 F.FnMut) (box_in o (N.lengths self.nested)) f acc }
        ensures ran { (o : Order) × FoldsWhile (N.yields_at self.nested) (call_gives_fold2 F.FnMut) (box_in o (N.lengths self.nested)) f acc result }
    {
        self.fold_items_while(acc, On2(f))
    }

    /// Whether `f` returns `true` for each index list, with the items there; it stops at the first `false`. Requires that these calls may
    /// be made, in row order and in column order.
    ///
    /// ```
    /// let all = Zip::from(&a).and(&b).all(|x, y| x <= y);
    /// ```
    pub fn all<F: FnMut(X, Y) -> bool>(self, f: F) -> bool
        requires callable { (o : Order) → MayTest (N.yields_at self.nested) (call_gives2 F.FnMut) (can_call2 F.FnMut) (box_in o (N.lengths self.nested)) f true }
        ensures ran { (o : Order) × TestsUntil (N.yields_at self.nested) (call_gives2 F.FnMut) (box_in o (N.lengths self.nested)) f true false result }
        ensures follows { (ns : List ℕ) (h : List ℕ → Bool) → N.lengths self.nested ≡ ns → Computes (N.yields_at self.nested) (call_gives2 F.FnMut) f ns h → result ≡ list_all h (row_order ns) }
    {
        self.all_items(On2(f))
    }

    /// Whether `f` returns `true` for some index list, with the items there; it stops at the first `true`. Requires that these calls may be
    /// made, in row order and in column order.
    ///
    /// ```
    /// let any = Zip::from(&a).and(&b).any(|x, y| x + y == 0);
    /// ```
    pub fn any<F: FnMut(X, Y) -> bool>(self, f: F) -> bool
        requires callable { (o : Order) → MayTest (N.yields_at self.nested) (call_gives2 F.FnMut) (can_call2 F.FnMut) (box_in o (N.lengths self.nested)) f false }
        ensures ran { (o : Order) × TestsUntil (N.yields_at self.nested) (call_gives2 F.FnMut) (box_in o (N.lengths self.nested)) f false true result }
        ensures follows { (ns : List ℕ) (h : List ℕ → Bool) → N.lengths self.nested ≡ ns → Computes (N.yields_at self.nested) (call_gives2 F.FnMut) f ns h → result ≡ list_any h (row_order ns) }
    {
        self.any_items(On2(f))
    }

    /// The array whose cell at each index list is what `f` returns for the items there. Requires that these calls may be made, in row order
    /// and in column order.
    ///
    /// The error is an allocation failure, before the first call of `f`, and is never reported if there is no index list.
    ///
    /// ```
    /// let made = Zip::from(&a).and(&b).map_collect(alloc, |x, y| x * y)?;
    /// ```
    pub fn map_collect<R: Drop, F: FnMut(X, Y) -> R>(
        self,
        alloc: Global,
        f: F,
    ) -> Result<Array<R, D>, AllocError>
        requires callable { (o : Order) → MayGather (N.yields_at self.nested) (call_gives2 F.FnMut) (can_call2 F.FnMut) (box_in o (N.lengths self.nested)) f }
        ensures ran { IfOk result (λ g. (o : Order) × Collects (N.yields_at self.nested) (call_gives2 F.FnMut) o (N.lengths self.nested) f g) }
        ensures follows { (ns : List ℕ) (h : List ℕ → R) → N.lengths self.nested ≡ ns → Computes (N.yields_at self.nested) (call_gives2 F.FnMut) f ns h → IfOk result (λ g. g ≡ array_by ns h) }
        ensures axes { IfOk result (λ g. D.has_axes (length g.lengths)) }
        ensures whole { IfOk result IsGrid }
        ensures empty { size (N.lengths self.nested) ≡ 0 → IsOk result }
    {
        self.collect_items(alloc, On2(f))
    }

    /// Sets the cell of `into` at each index list to what `f` returns for the items there. Nothing is allocated.
    ///
    /// Requires that `into` has the same lengths as the producers (check with `fits` of its view), and that these calls may be made, in row
    /// order and in column order.
    ///
    /// ```
    /// Zip::from(&a).and(&b).map_assign_into(&mut into, |x, y| x * y);
    /// ```
    pub fn map_assign_into<R: Drop, S: DataMut<Elem = R>, F: FnMut(X, Y) -> R>(
        self,
        into: &mut ArrayBase<S, D>,
        f: F,
    )
        requires same { N.lengths self.nested ≡ into.old.lengths }
        requires callable { (o : Order) → MayGather (N.yields_at self.nested) (call_gives2 F.FnMut) (can_call2 F.FnMut) (box_in o (N.lengths self.nested)) f }
        ensures ran { (o : Order) × Collects (N.yields_at self.nested) (call_gives2 F.FnMut) o (N.lengths self.nested) f into.new }
        ensures follows { (ns : List ℕ) (h : List ℕ → R) → N.lengths self.nested ≡ ns → Computes (N.yields_at self.nested) (call_gives2 F.FnMut) f ns h → into.new ≡ array_by ns h }
        ensures whole { IsGrid into.new }
    {
        self.assign_items(into, On2(f))
    }
}

impl<X, Y, Z, N: NdProducer<Item = ((X, Y), Z), Dim = D>, D: Lengths> Zip<Parts<N, Three>, D> {
    /// Calls `f` once for each index list, with the items there. Requires that these calls may be made, in row order and in column order.
    ///
    /// ```
    /// Zip::from(a.view_mut()).and(&b).and(&c).for_each(|x, y, z| *x += *y + *z);
    /// ```
    pub fn for_each<F: FnMut(X, Y, Z)>(self, f: F)
        requires callable { (o : Order) → MayVisit (N.yields_at self.nested) (call_gives3 F.FnMut) (can_call3 F.FnMut) (box_in o (N.lengths self.nested)) f }
        ensures ran { (o : Order) × Visits (N.yields_at self.nested) (call_gives3 F.FnMut) (box_in o (N.lengths self.nested)) f }
    {
        self.visit_items(On3(f))
    }

    /// Calls `f` once for each index list, with the total so far and the items there; `f` returns the next total, and the last total is the
    /// result. Requires that these calls may be made, in row order and in column order.
    ///
    /// ```
    /// let sum = Zip::from(&a).and(&b).and(&c).fold(0, |sum, x, y, z| sum + x * y * z);
    /// ```
    pub fn fold<B, F: FnMut(B, X, Y, Z) -> B>(self, acc: B, f: F) -> B
        requires callable { (o : Order) → MayFold (N.yields_at self.nested) (call_gives_fold3 F.FnMut) (can_call_fold3 F.FnMut) (box_in o (N.lengths self.nested)) f acc }
        ensures ran { (o : Order) × Folds (N.yields_at self.nested) (call_gives_fold3 F.FnMut) (box_in o (N.lengths self.nested)) f acc result }
        ensures follows { (ns : List ℕ) (h : B → List ℕ → B) → N.lengths self.nested ≡ ns → ComputesTotals (N.yields_at self.nested) (call_gives_fold3 F.FnMut) f ns h → result ≡ fold h acc (row_order ns) }
    {
        self.fold_items(acc, On3(f))
    }

    /// Calls `f` as `fold` does, but no more after its first result that is `Done`. It returns the last result of `f`, or `Continue(acc)`
    /// if there is no index list. Requires that these calls may be made, in row order and in column order.
    ///
    /// ```
    /// // how many come before the first sum that is not positive
    /// let count = Zip::from(&a).and(&b).and(&c).fold_while(0, |n, x, y, z| {
    ///     if x + y + z > 0 { FoldWhile::Continue(n + 1) } else { FoldWhile::Done(n) }
    /// });
    /// ```
    pub fn fold_while<B, F: FnMut(B, X, Y, Z) -> FoldWhile<B>>(self, acc: B, f: F) -> FoldWhile<B>
        requires callable { (o : Order) → MayFoldWhile (N.yields_at self.nested) (call_gives_fold3 F.FnMut) (can_call_fold3 F.FnMut) (box_in o (N.lengths self.nested)) f acc }
        ensures ran { (o : Order) × FoldsWhile (N.yields_at self.nested) (call_gives_fold3 F.FnMut) (box_in o (N.lengths self.nested)) f acc result }
    {
        self.fold_items_while(acc, On3(f))
    }

    /// Whether `f` returns `true` for each index list, with the items there; it stops at the first `false`. Requires that these calls may
    /// be made, in row order and in column order.
    ///
    /// ```
    /// let all = Zip::from(&a).and(&b).and(&c).all(|x, y, z| x <= y && y <= z);
    /// ```
    pub fn all<F: FnMut(X, Y, Z) -> bool>(self, f: F) -> bool
        requires callable { (o : Order) → MayTest (N.yields_at self.nested) (call_gives3 F.FnMut) (can_call3 F.FnMut) (box_in o (N.lengths self.nested)) f true }
        ensures ran { (o : Order) × TestsUntil (N.yields_at self.nested) (call_gives3 F.FnMut) (box_in o (N.lengths self.nested)) f true false result }
        ensures follows { (ns : List ℕ) (h : List ℕ → Bool) → N.lengths self.nested ≡ ns → Computes (N.yields_at self.nested) (call_gives3 F.FnMut) f ns h → result ≡ list_all h (row_order ns) }
    {
        self.all_items(On3(f))
    }

    /// Whether `f` returns `true` for some index list, with the items there; it stops at the first `true`. Requires that these calls may be
    /// made, in row order and in column order.
    ///
    /// ```
    /// let any = Zip::from(&a).and(&b).and(&c).any(|x, y, z| x + y + z == 0);
    /// ```
    pub fn any<F: FnMut(X, Y, Z) -> bool>(self, f: F) -> bool
        requires callable { (o : Order) → MayTest (N.yields_at self.nested) (call_gives3 F.FnMut) (can_call3 F.FnMut) (box_in o (N.lengths self.nested)) f false }
        ensures ran { (o : Order) × TestsUntil (N.yields_at self.nested) (call_gives3 F.FnMut) (box_in o (N.lengths self.nested)) f false true result }
        ensures follows { (ns : List ℕ) (h : List ℕ → Bool) → N.lengths self.nested ≡ ns → Computes (N.yields_at self.nested) (call_gives3 F.FnMut) f ns h → result ≡ list_any h (row_order ns) }
    {
        self.any_items(On3(f))
    }

    /// The array whose cell at each index list is what `f` returns for the items there. Requires that these calls may be made, in row order
    /// and in column order.
    ///
    /// The error is an allocation failure, before the first call of `f`, and is never reported if there is no index list.
    ///
    /// ```
    /// let made = Zip::from(&a).and(&b).and(&c).map_collect(alloc, |x, y, z| x * y * z)?;
    /// ```
    pub fn map_collect<R: Drop, F: FnMut(X, Y, Z) -> R>(
        self,
        alloc: Global,
        f: F,
    ) -> Result<Array<R, D>, AllocError>
        requires callable { (o : Order) → MayGather (N.yields_at self.nested) (call_gives3 F.FnMut) (can_call3 F.FnMut) (box_in o (N.lengths self.nested)) f }
        ensures ran { IfOk result (λ g. (o : Order) × Collects (N.yields_at self.nested) (call_gives3 F.FnMut) o (N.lengths self.nested) f g) }
        ensures follows { (ns : List ℕ) (h : List ℕ → R) → N.lengths self.nested ≡ ns → Computes (N.yields_at self.nested) (call_gives3 F.FnMut) f ns h → IfOk result (λ g. g ≡ array_by ns h) }
        ensures axes { IfOk result (λ g. D.has_axes (length g.lengths)) }
        ensures whole { IfOk result IsGrid }
        ensures empty { size (N.lengths self.nested) ≡ 0 → IsOk result }
    {
        self.collect_items(alloc, On3(f))
    }

    /// Sets the cell of `into` at each index list to what `f` returns for the items there. Nothing is allocated.
    ///
    /// Requires that `into` has the same lengths as the producers (check with `fits` of its view), and that these calls may be made, in row
    /// order and in column order.
    ///
    /// ```
    /// Zip::from(&a).and(&b).and(&c).map_assign_into(&mut into, |x, y, z| x * y * z);
    /// ```
    pub fn map_assign_into<R: Drop, S: DataMut<Elem = R>, F: FnMut(X, Y, Z) -> R>(
        self,
        into: &mut ArrayBase<S, D>,
        f: F,
    )
        requires same { N.lengths self.nested ≡ into.old.lengths }
        requires callable { (o : Order) → MayGather (N.yields_at self.nested) (call_gives3 F.FnMut) (can_call3 F.FnMut) (box_in o (N.lengths self.nested)) f }
        ensures ran { (o : Order) × Collects (N.yields_at self.nested) (call_gives3 F.FnMut) o (N.lengths self.nested) f into.new }
        ensures follows { (ns : List ℕ) (h : List ℕ → R) → N.lengths self.nested ≡ ns → Computes (N.yields_at self.nested) (call_gives3 F.FnMut) f ns h → into.new ≡ array_by ns h }
        ensures whole { IsGrid into.new }
    {
        self.assign_items(into, On3(f))
    }
}

impl<X, Y, Z, U, N: NdProducer<Item = (((X, Y), Z), U), Dim = D>, D: Lengths> Zip<
    Parts<N, Four>,
    D,
> {
    /// Calls `f` once for each index list, with the items there. Requires that these calls may be made, in row order and in column order.
    ///
    /// ```
    /// Zip::from(a.view_mut()).and(&b).and(&c).and(&d).for_each(|x, y, z, u| *x += *y + *z + *u);
    /// ```
    pub fn for_each<F: FnMut(X, Y, Z, U)>(self, f: F)
        requires callable { (o : Order) → MayVisit (N.yields_at self.nested) (call_gives4 F.FnMut) (can_call4 F.FnMut) (box_in o (N.lengths self.nested)) f }
        ensures ran { (o : Order) × Visits (N.yields_at self.nested) (call_gives4 F.FnMut) (box_in o (N.lengths self.nested)) f }
    {
        self.visit_items(On4(f))
    }

    /// Calls `f` once for each index list, with the total so far and the items there; `f` returns the next total, and the last total is the
    /// result. Requires that these calls may be made, in row order and in column order.
    ///
    /// ```
    /// let sum = Zip::from(&a).and(&b).and(&c).and(&d).fold(0, |sum, x, y, z, u| sum + x * y * z * u);
    /// ```
    pub fn fold<B, F: FnMut(B, X, Y, Z, U) -> B>(self, acc: B, f: F) -> B
        requires callable { (o : Order) → MayFold (N.yields_at self.nested) (call_gives_fold4 F.FnMut) (can_call_fold4 F.FnMut) (box_in o (N.lengths self.nested)) f acc }
        ensures ran { (o : Order) × Folds (N.yields_at self.nested) (call_gives_fold4 F.FnMut) (box_in o (N.lengths self.nested)) f acc result }
        ensures follows { (ns : List ℕ) (h : B → List ℕ → B) → N.lengths self.nested ≡ ns → ComputesTotals (N.yields_at self.nested) (call_gives_fold4 F.FnMut) f ns h → result ≡ fold h acc (row_order ns) }
    {
        self.fold_items(acc, On4(f))
    }

    /// Calls `f` as `fold` does, but no more after its first result that is `Done`. It returns the last result of `f`, or `Continue(acc)`
    /// if there is no index list. Requires that these calls may be made, in row order and in column order.
    ///
    /// ```
    /// // how many come before the first sum that is not positive
    /// let count = Zip::from(&a).and(&b).and(&c).and(&d).fold_while(0, |n, x, y, z, u| {
    ///     if x + y + z + u > 0 { FoldWhile::Continue(n + 1) } else { FoldWhile::Done(n) }
    /// });
    /// ```
    pub fn fold_while<B, F: FnMut(B, X, Y, Z, U) -> FoldWhile<B>>(
        self,
        acc: B,
        f: F,
    ) -> FoldWhile<B>
        requires callable { (o : Order) → MayFoldWhile (N.yields_at self.nested) (call_gives_fold4 F.FnMut) (can_call_fold4 F.FnMut) (box_in o (N.lengths self.nested)) f acc }
        ensures ran { (o : Order) × FoldsWhile (N.yields_at self.nested) (call_gives_fold4 F.FnMut) (box_in o (N.lengths self.nested)) f acc result }
    {
        self.fold_items_while(acc, On4(f))
    }

    /// Whether `f` returns `true` for each index list, with the items there; it stops at the first `false`. Requires that these calls may
    /// be made, in row order and in column order.
    ///
    /// ```
    /// let all = Zip::from(&a).and(&b).and(&c).and(&d).all(|x, y, z, u| x <= y && y <= z && z <= u);
    /// ```
    pub fn all<F: FnMut(X, Y, Z, U) -> bool>(self, f: F) -> bool
        requires callable { (o : Order) → MayTest (N.yields_at self.nested) (call_gives4 F.FnMut) (can_call4 F.FnMut) (box_in o (N.lengths self.nested)) f true }
        ensures ran { (o : Order) × TestsUntil (N.yields_at self.nested) (call_gives4 F.FnMut) (box_in o (N.lengths self.nested)) f true false result }
        ensures follows { (ns : List ℕ) (h : List ℕ → Bool) → N.lengths self.nested ≡ ns → Computes (N.yields_at self.nested) (call_gives4 F.FnMut) f ns h → result ≡ list_all h (row_order ns) }
    {
        self.all_items(On4(f))
    }

    /// Whether `f` returns `true` for some index list, with the items there; it stops at the first `true`. Requires that these calls may be
    /// made, in row order and in column order.
    ///
    /// ```
    /// let any = Zip::from(&a).and(&b).and(&c).and(&d).any(|x, y, z, u| x + y + z + u == 0);
    /// ```
    pub fn any<F: FnMut(X, Y, Z, U) -> bool>(self, f: F) -> bool
        requires callable { (o : Order) → MayTest (N.yields_at self.nested) (call_gives4 F.FnMut) (can_call4 F.FnMut) (box_in o (N.lengths self.nested)) f false }
        ensures ran { (o : Order) × TestsUntil (N.yields_at self.nested) (call_gives4 F.FnMut) (box_in o (N.lengths self.nested)) f false true result }
        ensures follows { (ns : List ℕ) (h : List ℕ → Bool) → N.lengths self.nested ≡ ns → Computes (N.yields_at self.nested) (call_gives4 F.FnMut) f ns h → result ≡ list_any h (row_order ns) }
    {
        self.any_items(On4(f))
    }

    /// The array whose cell at each index list is what `f` returns for the items there. Requires that these calls may be made, in row order
    /// and in column order.
    ///
    /// The error is an allocation failure, before the first call of `f`, and is never reported if there is no index list.
    ///
    /// ```
    /// let made = Zip::from(&a).and(&b).and(&c).and(&d).map_collect(alloc, |x, y, z, u| x * y * z * u)?;
    /// ```
    pub fn map_collect<R: Drop, F: FnMut(X, Y, Z, U) -> R>(
        self,
        alloc: Global,
        f: F,
    ) -> Result<Array<R, D>, AllocError>
        requires callable { (o : Order) → MayGather (N.yields_at self.nested) (call_gives4 F.FnMut) (can_call4 F.FnMut) (box_in o (N.lengths self.nested)) f }
        ensures ran { IfOk result (λ g. (o : Order) × Collects (N.yields_at self.nested) (call_gives4 F.FnMut) o (N.lengths self.nested) f g) }
        ensures follows { (ns : List ℕ) (h : List ℕ → R) → N.lengths self.nested ≡ ns → Computes (N.yields_at self.nested) (call_gives4 F.FnMut) f ns h → IfOk result (λ g. g ≡ array_by ns h) }
        ensures axes { IfOk result (λ g. D.has_axes (length g.lengths)) }
        ensures whole { IfOk result IsGrid }
        ensures empty { size (N.lengths self.nested) ≡ 0 → IsOk result }
    {
        self.collect_items(alloc, On4(f))
    }

    /// Sets the cell of `into` at each index list to what `f` returns for the items there. Nothing is allocated.
    ///
    /// Requires that `into` has the same lengths as the producers (check with `fits` of its view), and that these calls may be made, in row
    /// order and in column order.
    ///
    /// ```
    /// Zip::from(&a).and(&b).and(&c).and(&d).map_assign_into(&mut into, |x, y, z, u| x * y * z * u);
    /// ```
    pub fn map_assign_into<R: Drop, S: DataMut<Elem = R>, F: FnMut(X, Y, Z, U) -> R>(
        self,
        into: &mut ArrayBase<S, D>,
        f: F,
    )
        requires same { N.lengths self.nested ≡ into.old.lengths }
        requires callable { (o : Order) → MayGather (N.yields_at self.nested) (call_gives4 F.FnMut) (can_call4 F.FnMut) (box_in o (N.lengths self.nested)) f }
        ensures ran { (o : Order) × Collects (N.yields_at self.nested) (call_gives4 F.FnMut) o (N.lengths self.nested) f into.new }
        ensures follows { (ns : List ℕ) (h : List ℕ → R) → N.lengths self.nested ≡ ns → Computes (N.yields_at self.nested) (call_gives4 F.FnMut) f ns h → into.new ≡ array_by ns h }
        ensures whole { IsGrid into.new }
    {
        self.assign_items(into, On4(f))
    }
}

impl<X, Y, Z, U, V, N: NdProducer<Item = ((((X, Y), Z), U), V), Dim = D>, D: Lengths> Zip<
    Parts<N, Five>,
    D,
> {
    /// Calls `f` once for each index list, with the items there. Requires that these calls may be made, in row order and in column order.
    ///
    /// ```
    /// Zip::from(a.view_mut()).and(&b).and(&c).and(&d).and(&e).for_each(|x, y, z, u, v| *x += *y + *z + *u + *v);
    /// ```
    pub fn for_each<F: FnMut(X, Y, Z, U, V)>(self, f: F)
        requires callable { (o : Order) → MayVisit (N.yields_at self.nested) (call_gives5 F.FnMut) (can_call5 F.FnMut) (box_in o (N.lengths self.nested)) f }
        ensures ran { (o : Order) × Visits (N.yields_at self.nested) (call_gives5 F.FnMut) (box_in o (N.lengths self.nested)) f }
    {
        self.visit_items(On5(f))
    }

    /// Calls `f` once for each index list, with the total so far and the items there; `f` returns the next total, and the last total is the
    /// result. Requires that these calls may be made, in row order and in column order.
    ///
    /// ```
    /// let sum = Zip::from(&a).and(&b).and(&c).and(&d).and(&e).fold(0, |sum, x, y, z, u, v| sum + x * y * z * u * v);
    /// ```
    pub fn fold<B, F: FnMut(B, X, Y, Z, U, V) -> B>(self, acc: B, f: F) -> B
        requires callable { (o : Order) → MayFold (N.yields_at self.nested) (call_gives_fold5 F.FnMut) (can_call_fold5 F.FnMut) (box_in o (N.lengths self.nested)) f acc }
        ensures ran { (o : Order) × Folds (N.yields_at self.nested) (call_gives_fold5 F.FnMut) (box_in o (N.lengths self.nested)) f acc result }
        ensures follows { (ns : List ℕ) (h : B → List ℕ → B) → N.lengths self.nested ≡ ns → ComputesTotals (N.yields_at self.nested) (call_gives_fold5 F.FnMut) f ns h → result ≡ fold h acc (row_order ns) }
    {
        self.fold_items(acc, On5(f))
    }

    /// Calls `f` as `fold` does, but no more after its first result that is `Done`. It returns the last result of `f`, or `Continue(acc)`
    /// if there is no index list. Requires that these calls may be made, in row order and in column order.
    ///
    /// ```
    /// // how many come before the first sum that is not positive
    /// let count = Zip::from(&a).and(&b).and(&c).and(&d).and(&e).fold_while(0, |n, x, y, z, u, v| {
    ///     if x + y + z + u + v > 0 { FoldWhile::Continue(n + 1) } else { FoldWhile::Done(n) }
    /// });
    /// ```
    pub fn fold_while<B, F: FnMut(B, X, Y, Z, U, V) -> FoldWhile<B>>(
        self,
        acc: B,
        f: F,
    ) -> FoldWhile<B>
        requires callable { (o : Order) → MayFoldWhile (N.yields_at self.nested) (call_gives_fold5 F.FnMut) (can_call_fold5 F.FnMut) (box_in o (N.lengths self.nested)) f acc }
        ensures ran { (o : Order) × FoldsWhile (N.yields_at self.nested) (call_gives_fold5 F.FnMut) (box_in o (N.lengths self.nested)) f acc result }
    {
        self.fold_items_while(acc, On5(f))
    }

    /// Whether `f` returns `true` for each index list, with the items there; it stops at the first `false`. Requires that these calls may
    /// be made, in row order and in column order.
    ///
    /// ```
    /// let all = Zip::from(&a).and(&b).and(&c).and(&d).and(&e).all(|x, y, z, u, v| x <= y && y <= z && z <= u && u <= v);
    /// ```
    pub fn all<F: FnMut(X, Y, Z, U, V) -> bool>(self, f: F) -> bool
        requires callable { (o : Order) → MayTest (N.yields_at self.nested) (call_gives5 F.FnMut) (can_call5 F.FnMut) (box_in o (N.lengths self.nested)) f true }
        ensures ran { (o : Order) × TestsUntil (N.yields_at self.nested) (call_gives5 F.FnMut) (box_in o (N.lengths self.nested)) f true false result }
        ensures follows { (ns : List ℕ) (h : List ℕ → Bool) → N.lengths self.nested ≡ ns → Computes (N.yields_at self.nested) (call_gives5 F.FnMut) f ns h → result ≡ list_all h (row_order ns) }
    {
        self.all_items(On5(f))
    }

    /// Whether `f` returns `true` for some index list, with the items there; it stops at the first `true`. Requires that these calls may be
    /// made, in row order and in column order.
    ///
    /// ```
    /// let any = Zip::from(&a).and(&b).and(&c).and(&d).and(&e).any(|x, y, z, u, v| x + y + z + u + v == 0);
    /// ```
    pub fn any<F: FnMut(X, Y, Z, U, V) -> bool>(self, f: F) -> bool
        requires callable { (o : Order) → MayTest (N.yields_at self.nested) (call_gives5 F.FnMut) (can_call5 F.FnMut) (box_in o (N.lengths self.nested)) f false }
        ensures ran { (o : Order) × TestsUntil (N.yields_at self.nested) (call_gives5 F.FnMut) (box_in o (N.lengths self.nested)) f false true result }
        ensures follows { (ns : List ℕ) (h : List ℕ → Bool) → N.lengths self.nested ≡ ns → Computes (N.yields_at self.nested) (call_gives5 F.FnMut) f ns h → result ≡ list_any h (row_order ns) }
    {
        self.any_items(On5(f))
    }

    /// The array whose cell at each index list is what `f` returns for the items there. Requires that these calls may be made, in row order
    /// and in column order.
    ///
    /// The error is an allocation failure, before the first call of `f`, and is never reported if there is no index list.
    ///
    /// ```
    /// let made = Zip::from(&a).and(&b).and(&c).and(&d).and(&e).map_collect(alloc, |x, y, z, u, v| x * y * z * u * v)?;
    /// ```
    pub fn map_collect<R: Drop, F: FnMut(X, Y, Z, U, V) -> R>(
        self,
        alloc: Global,
        f: F,
    ) -> Result<Array<R, D>, AllocError>
        requires callable { (o : Order) → MayGather (N.yields_at self.nested) (call_gives5 F.FnMut) (can_call5 F.FnMut) (box_in o (N.lengths self.nested)) f }
        ensures ran { IfOk result (λ g. (o : Order) × Collects (N.yields_at self.nested) (call_gives5 F.FnMut) o (N.lengths self.nested) f g) }
        ensures follows { (ns : List ℕ) (h : List ℕ → R) → N.lengths self.nested ≡ ns → Computes (N.yields_at self.nested) (call_gives5 F.FnMut) f ns h → IfOk result (λ g. g ≡ array_by ns h) }
        ensures axes { IfOk result (λ g. D.has_axes (length g.lengths)) }
        ensures whole { IfOk result IsGrid }
        ensures empty { size (N.lengths self.nested) ≡ 0 → IsOk result }
    {
        self.collect_items(alloc, On5(f))
    }

    /// Sets the cell of `into` at each index list to what `f` returns for the items there. Nothing is allocated.
    ///
    /// Requires that `into` has the same lengths as the producers (check with `fits` of its view), and that these calls may be made, in row
    /// order and in column order.
    ///
    /// ```
    /// Zip::from(&a).and(&b).and(&c).and(&d).and(&e).map_assign_into(&mut into, |x, y, z, u, v| x * y * z * u * v);
    /// ```
    pub fn map_assign_into<R: Drop, S: DataMut<Elem = R>, F: FnMut(X, Y, Z, U, V) -> R>(
        self,
        into: &mut ArrayBase<S, D>,
        f: F,
    )
        requires same { N.lengths self.nested ≡ into.old.lengths }
        requires callable { (o : Order) → MayGather (N.yields_at self.nested) (call_gives5 F.FnMut) (can_call5 F.FnMut) (box_in o (N.lengths self.nested)) f }
        ensures ran { (o : Order) × Collects (N.yields_at self.nested) (call_gives5 F.FnMut) o (N.lengths self.nested) f into.new }
        ensures follows { (ns : List ℕ) (h : List ℕ → R) → N.lengths self.nested ≡ ns → Computes (N.yields_at self.nested) (call_gives5 F.FnMut) f ns h → into.new ≡ array_by ns h }
        ensures whole { IsGrid into.new }
    {
        self.assign_items(into, On5(f))
    }
}

impl<X, Y, Z, U, V, W, N: NdProducer<Item = (((((X, Y), Z), U), V), W), Dim = D>, D: Lengths> Zip<
    Parts<N, Six>,
    D,
> {
    /// Calls `f` once for each index list, with the items there. Requires that these calls may be made, in row order and in column order.
    ///
    /// ```
    /// Zip::from(a.view_mut()).and(&b).and(&c).and(&d).and(&e).and(&g).for_each(|x, y, z, u, v, w| *x += *y + *z + *u + *v + *w);
    /// ```
    pub fn for_each<F: FnMut(X, Y, Z, U, V, W)>(self, f: F)
        requires callable { (o : Order) → MayVisit (N.yields_at self.nested) (call_gives6 F.FnMut) (can_call6 F.FnMut) (box_in o (N.lengths self.nested)) f }
        ensures ran { (o : Order) × Visits (N.yields_at self.nested) (call_gives6 F.FnMut) (box_in o (N.lengths self.nested)) f }
    {
        self.visit_items(On6(f))
    }

    /// Calls `f` once for each index list, with the total so far and the items there; `f` returns the next total, and the last total is the
    /// result. Requires that these calls may be made, in row order and in column order.
    ///
    /// ```
    /// let sum = Zip::from(&a).and(&b).and(&c).and(&d).and(&e).and(&g).fold(0, |sum, x, y, z, u, v, w| sum + x * y * z * u * v * w);
    /// ```
    pub fn fold<B, F: FnMut(B, X, Y, Z, U, V, W) -> B>(self, acc: B, f: F) -> B
        requires callable { (o : Order) → MayFold (N.yields_at self.nested) (call_gives_fold6 F.FnMut) (can_call_fold6 F.FnMut) (box_in o (N.lengths self.nested)) f acc }
        ensures ran { (o : Order) × Folds (N.yields_at self.nested) (call_gives_fold6 F.FnMut) (box_in o (N.lengths self.nested)) f acc result }
        ensures follows { (ns : List ℕ) (h : B → List ℕ → B) → N.lengths self.nested ≡ ns → ComputesTotals (N.yields_at self.nested) (call_gives_fold6 F.FnMut) f ns h → result ≡ fold h acc (row_order ns) }
    {
        self.fold_items(acc, On6(f))
    }

    /// Calls `f` as `fold` does, but no more after its first result that is `Done`. It returns the last result of `f`, or `Continue(acc)`
    /// if there is no index list. Requires that these calls may be made, in row order and in column order.
    ///
    /// ```
    /// // how many come before the first sum that is not positive
    /// let count = Zip::from(&a).and(&b).and(&c).and(&d).and(&e).and(&g).fold_while(0, |n, x, y, z, u, v, w| {
    ///     if x + y + z + u + v + w > 0 { FoldWhile::Continue(n + 1) } else { FoldWhile::Done(n) }
    /// });
    /// ```
    pub fn fold_while<B, F: FnMut(B, X, Y, Z, U, V, W) -> FoldWhile<B>>(
        self,
        acc: B,
        f: F,
    ) -> FoldWhile<B>
        requires callable { (o : Order) → MayFoldWhile (N.yields_at self.nested) (call_gives_fold6 F.FnMut) (can_call_fold6 F.FnMut) (box_in o (N.lengths self.nested)) f acc }
        ensures ran { (o : Order) × FoldsWhile (N.yields_at self.nested) (call_gives_fold6 F.FnMut) (box_in o (N.lengths self.nested)) f acc result }
    {
        self.fold_items_while(acc, On6(f))
    }

    /// Whether `f` returns `true` for each index list, with the items there; it stops at the first `false`. Requires that these calls may
    /// be made, in row order and in column order.
    ///
    /// ```
    /// let zip = Zip::from(&a).and(&b).and(&c).and(&d).and(&e).and(&g);
    /// let all = zip.all(|x, y, z, u, v, w| x <= y && y <= z && z <= u && u <= v && v <= w);
    /// ```
    pub fn all<F: FnMut(X, Y, Z, U, V, W) -> bool>(self, f: F) -> bool
        requires callable { (o : Order) → MayTest (N.yields_at self.nested) (call_gives6 F.FnMut) (can_call6 F.FnMut) (box_in o (N.lengths self.nested)) f true }
        ensures ran { (o : Order) × TestsUntil (N.yields_at self.nested) (call_gives6 F.FnMut) (box_in o (N.lengths self.nested)) f true false result }
        ensures follows { (ns : List ℕ) (h : List ℕ → Bool) → N.lengths self.nested ≡ ns → Computes (N.yields_at self.nested) (call_gives6 F.FnMut) f ns h → result ≡ list_all h (row_order ns) }
    {
        self.all_items(On6(f))
    }

    /// Whether `f` returns `true` for some index list, with the items there; it stops at the first `true`. Requires that these calls may be
    /// made, in row order and in column order.
    ///
    /// ```
    /// let any = Zip::from(&a).and(&b).and(&c).and(&d).and(&e).and(&g).any(|x, y, z, u, v, w| x + y + z + u + v + w == 0);
    /// ```
    pub fn any<F: FnMut(X, Y, Z, U, V, W) -> bool>(self, f: F) -> bool
        requires callable { (o : Order) → MayTest (N.yields_at self.nested) (call_gives6 F.FnMut) (can_call6 F.FnMut) (box_in o (N.lengths self.nested)) f false }
        ensures ran { (o : Order) × TestsUntil (N.yields_at self.nested) (call_gives6 F.FnMut) (box_in o (N.lengths self.nested)) f false true result }
        ensures follows { (ns : List ℕ) (h : List ℕ → Bool) → N.lengths self.nested ≡ ns → Computes (N.yields_at self.nested) (call_gives6 F.FnMut) f ns h → result ≡ list_any h (row_order ns) }
    {
        self.any_items(On6(f))
    }
}
