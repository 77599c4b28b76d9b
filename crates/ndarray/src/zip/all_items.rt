//! The calls at all items of a `Zip`, in the order that suits its producers, for any number of them.

ghost use Rattle.std.specs.Prelude.{◌≡◌, ℕ, Bool, List, true, false, length, IfOk, IsOk};
ghost use Rattle.std.specs.List.{fold, list_all, list_any};
ghost use Rattle.ndarray.specs.Grid.{IsGrid, array_by};
ghost use Rattle.ndarray.specs.Index.{row_order, size};
ghost use Rattle.ndarray.specs.Orders.{box_in};
ghost use Rattle.ndarray.specs.Runs.{MayFold, Folds, MayVisit, Visits, MayTest, TestsUntil, MayFoldWhile, FoldsWhile, MayGather, Collects, Computes, ComputesTotals};
ghost use Rattle.ndarray.specs.declared.base.shape.Order.{Order};
ghost use Rattle.ndarray.specs.declared.base.shape.Order.TheVariants.{RowMajor, ColumnMajor};

use crate::base::array::{Array, ArrayBase};
use crate::base::dimension::Lengths;
use crate::base::storage::DataMut;
use crate::zip::assigning::assign_items;
use crate::zip::closures::{FoldCall, ItemCall};
use crate::zip::collecting::collect_items;
use crate::zip::fold_while::FoldWhile;
use crate::zip::producer::{NdProducer, preferred_order};
use crate::zip::turns::{all_items, any_items, fold_items, fold_items_while, visit_items};
use crate::zip::{Parts, Zip};
use std::alloc::{AllocError, Global};

/// Whether a call returns `true` at each item of a producer, up to the first `false`, in the order that suits the producer.
#[tactic(auto, using(crate::proofs::runs::Answers::may_test_in))]
pub(crate) fn all_in_either_order<P: NdProducer, C: ItemCall<P::Item, Out = bool>>(
    p: P,
    f: C,
) -> bool
    requires by_rows { MayTest (P.yields_at p) C.call_gives C.can_call (box_in RowMajor (P.lengths p)) f true }
    requires by_columns { MayTest (P.yields_at p) C.call_gives C.can_call (box_in ColumnMajor (P.lengths p)) f true }
    ensures ran { (o : Order) × TestsUntil (P.yields_at p) C.call_gives (box_in o (P.lengths p)) f true false result }
{
    let order = preferred_order(&p);
    all_items(p, order, f)
}

impl<N: NdProducer<Dim = D>, D: Lengths, K> Zip<Parts<N, K>, D> {
    /// Calls `f` at each item in turn.
    pub(crate) fn visit_items<C: ItemCall<N::Item, Out = ()>>(self, f: C)
        requires callable { (o : Order) → MayVisit (N.yields_at self.nested) C.call_gives C.can_call (box_in o (N.lengths self.nested)) f }
        ensures ran { (o : Order) × Visits (N.yields_at self.nested) C.call_gives (box_in o (N.lengths self.nested)) f }
    {
        let nested = self.parts.nested;
        let order = preferred_order(&nested);
        visit_items(nested, order, f)
    }

    /// Calls `f` at the total and each item in turn; what it returns is the next total.
    pub(crate) fn fold_items<B, C: FoldCall<B, N::Item, Out = B>>(self, init: B, f: C) -> B
        requires callable { (o : Order) → MayFold (N.yields_at self.nested) C.call_gives C.can_call (box_in o (N.lengths self.nested)) f init }
        ensures ran { (o : Order) × Folds (N.yields_at self.nested) C.call_gives (box_in o (N.lengths self.nested)) f init result }
        ensures follows { (ns : List ℕ) (h : B → List ℕ → B) → N.lengths self.nested ≡ ns → ComputesTotals (N.yields_at self.nested) C.call_gives f ns h → result ≡ fold h init (row_order ns) }
    {
        let nested = self.parts.nested;
        let order = preferred_order(&nested);
        fold_items(nested, order, init, f)
    }

    /// The same up to the first result that is `Done`.
    pub(crate) fn fold_items_while<B, C: FoldCall<B, N::Item, Out = FoldWhile<B>>>(
        self,
        init: B,
        f: C,
    ) -> FoldWhile<B>
        requires callable { (o : Order) → MayFoldWhile (N.yields_at self.nested) C.call_gives C.can_call (box_in o (N.lengths self.nested)) f init }
        ensures ran { (o : Order) × FoldsWhile (N.yields_at self.nested) C.call_gives (box_in o (N.lengths self.nested)) f init result }
    {
        let nested = self.parts.nested;
        let order = preferred_order(&nested);
        fold_items_while(nested, order, init, f)
    }

    /// Whether `f` returns `true` at each item, up to the first `false`.
    pub(crate) fn all_items<C: ItemCall<N::Item, Out = bool>>(self, f: C) -> bool
        requires callable { (o : Order) → MayTest (N.yields_at self.nested) C.call_gives C.can_call (box_in o (N.lengths self.nested)) f true }
        ensures ran { (o : Order) × TestsUntil (N.yields_at self.nested) C.call_gives (box_in o (N.lengths self.nested)) f true false result }
        ensures follows { (ns : List ℕ) (h : List ℕ → Bool) → N.lengths self.nested ≡ ns → Computes (N.yields_at self.nested) C.call_gives f ns h → result ≡ list_all h (row_order ns) }
    {
        all_in_either_order(self.parts.nested, f)
    }

    /// Whether `f` returns `true` at some item, up to the first `true`.
    pub(crate) fn any_items<C: ItemCall<N::Item, Out = bool>>(self, f: C) -> bool
        requires callable { (o : Order) → MayTest (N.yields_at self.nested) C.call_gives C.can_call (box_in o (N.lengths self.nested)) f false }
        ensures ran { (o : Order) × TestsUntil (N.yields_at self.nested) C.call_gives (box_in o (N.lengths self.nested)) f false true result }
        ensures follows { (ns : List ℕ) (h : List ℕ → Bool) → N.lengths self.nested ≡ ns → Computes (N.yields_at self.nested) C.call_gives f ns h → result ≡ list_any h (row_order ns) }
    {
        let nested = self.parts.nested;
        let order = preferred_order(&nested);
        any_items(nested, order, f)
    }

    /// The array of what `f` returns at the items.
    pub(crate) fn collect_items<R: Drop, C: ItemCall<N::Item, Out = R>>(
        self,
        alloc: Global,
        f: C,
    ) -> Result<Array<R, D>, AllocError>
        requires callable { (o : Order) → MayGather (N.yields_at self.nested) C.call_gives C.can_call (box_in o (N.lengths self.nested)) f }
        ensures ran { IfOk result (λ g. (o : Order) × Collects (N.yields_at self.nested) C.call_gives o (N.lengths self.nested) f g) }
        ensures follows { (ns : List ℕ) (h : List ℕ → R) → N.lengths self.nested ≡ ns → Computes (N.yields_at self.nested) C.call_gives f ns h → IfOk result (λ g. g ≡ array_by ns h) }
        ensures axes { IfOk result (λ g. D.has_axes (length g.lengths)) }
        ensures whole { IfOk result IsGrid }
        ensures empty { size (N.lengths self.nested) ≡ 0 → IsOk result }
    {
        let nested = self.parts.nested;
        let order = preferred_order(&nested);
        collect_items(alloc, nested, order, f)
    }

    /// Leaves in the cells of an array what `f` returns at the items.
    pub(crate) fn assign_items<R: Drop, S: DataMut<Elem = R>, C: ItemCall<N::Item, Out = R>>(
        self,
        into: &mut ArrayBase<S, D>,
        f: C,
    )
        requires same { N.lengths self.nested ≡ into.old.lengths }
        requires callable { (o : Order) → MayGather (N.yields_at self.nested) C.call_gives C.can_call (box_in o (N.lengths self.nested)) f }
        ensures ran { (o : Order) × Collects (N.yields_at self.nested) C.call_gives o (N.lengths self.nested) f into.new }
        ensures follows { (ns : List ℕ) (h : List ℕ → R) → N.lengths self.nested ≡ ns → Computes (N.yields_at self.nested) C.call_gives f ns h → into.new ≡ array_by ns h }
        ensures whole { IsGrid into.new }
    {
        let nested = self.parts.nested;
        assign_items(nested, into, f)
    }
}
