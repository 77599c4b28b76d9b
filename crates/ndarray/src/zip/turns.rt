//! What is done with the items of a producer: one small type for each kind of turn, and the walk with it.

ghost use Rattle.std.specs.Prelude.{◌≡◌, true, false};
ghost use Rattle.ndarray.specs.Orders.{box_in};
ghost use Rattle.ndarray.specs.Runs.{MayFold, Folds, FoldTurn, MayVisit, Visits, AnswerTurn, MayTest, TestsUntil, MayFoldWhile, FoldsWhile, GoTurn};
ghost use Rattle.ndarray.specs.declared.zip.fold_while.FoldWhile.TheVariants.{Done};

use crate::order::Order;
use crate::zip::closures::{FoldCall, ItemCall};
use crate::zip::fold_while::FoldWhile;
use crate::zip::producer::NdProducer;
use crate::zip::walk::{Turn, walk_items};
use std::convert::Infallible;
use std::marker::Model;

/// A closure, and the total of its calls so far.
struct Folding<C, B>(C, B);

impl<C, B> Model for Folding<C, B> {
    ghost Value = { C × B };

    ghost view = { λ s. (s.0, s.1) };
}

impl<X, B, C: FoldCall<B, X, Out = B>> Turn<X> for Folding<C, B> {
    type Stop = Infallible;

    ghost can_accept = { λ s x. C.can_call s.0 s.1 x };

    ghost goes = { FoldTurn C.call_gives };

    ghost stops = { λ _ _ _. ⊥ };

    #[inline(always)]
    fn accept(self, item: X) -> Result<Folding<C, B>, Infallible> {
        let Folding(mut f, total) = self;
        let total = f.call(total, item);
        Ok(Folding(f, total))
    }
}

/// Calls a closure at the total and each item in turn; what it returns is the next total.
pub(crate) fn fold_items<P: NdProducer, B, C: FoldCall<B, P::Item, Out = B>>(
    p: P,
    order: Order,
    init: B,
    f: C,
) -> B
    requires callable { MayFold (P.yields_at p) C.call_gives C.can_call (box_in order (P.lengths p)) f init }
    ensures ran { Folds (P.yields_at p) C.call_gives (box_in order (P.lengths p)) f init result }
{
    match walk_items(p, order, Folding(f, init)) {
        Ok(Folding(_f, total)) => total,
        Err(_) => unreachable!(),
    }
}

/// A closure to be called at items, whose results say nothing.
#[derive(Drop)]
struct Visiting<C>(C);

impl<C> Model for Visiting<C> {
    ghost Value = { C };

    ghost view = { λ s. s.0 };
}

impl<X, C: ItemCall<X, Out = ()>> Turn<X> for Visiting<C> {
    type Stop = Infallible;

    ghost can_accept = { C.can_call };

    ghost goes = { AnswerTurn C.call_gives tt };

    ghost stops = { λ _ _ _. ⊥ };

    #[inline(always)]
    fn accept(self, item: X) -> Result<Visiting<C>, Infallible> {
        let Visiting(mut f) = self;
        f.call(item);
        Ok(Visiting(f))
    }
}

/// Calls a closure at each item in turn.
pub(crate) fn visit_items<P: NdProducer, C: ItemCall<P::Item, Out = ()>>(p: P, order: Order, f: C)
    requires callable { MayVisit (P.yields_at p) C.call_gives C.can_call (box_in order (P.lengths p)) f }
    ensures ran { Visits (P.yields_at p) C.call_gives (box_in order (P.lengths p)) f }
{
    match walk_items(p, order, Visiting(f)) {
        Ok(_) => {}
        Err(_) => unreachable!(),
    }
}

/// A closure that has returned `true` at each item.
#[derive(Drop)]
struct WhileTrue<C>(C);

impl<C> Model for WhileTrue<C> {
    ghost Value = { C };

    ghost view = { λ s. s.0 };
}

impl<X, C: ItemCall<X, Out = bool>> Turn<X> for WhileTrue<C> {
    type Stop = ();

    ghost can_accept = { C.can_call };

    ghost goes = { AnswerTurn C.call_gives true };

    ghost stops = { λ f x _. (h : C) × C.call_gives f x false h };

    #[inline(always)]
    fn accept(self, item: X) -> Result<WhileTrue<C>, ()> {
        let WhileTrue(mut f) = self;
        if f.call(item) {
            Ok(WhileTrue(f))
        } else {
            Err(())
        }
    }
}

/// Whether a closure returns `true` at each item; it stops at the first `false`.
pub(crate) fn all_items<P: NdProducer, C: ItemCall<P::Item, Out = bool>>(
    p: P,
    order: Order,
    f: C,
) -> bool
    requires callable { MayTest (P.yields_at p) C.call_gives C.can_call (box_in order (P.lengths p)) f true }
    ensures ran { TestsUntil (P.yields_at p) C.call_gives (box_in order (P.lengths p)) f true false result }
{
    walk_items(p, order, WhileTrue(f)).is_ok()
}

/// A closure that has returned `false` at each item.
#[derive(Drop)]
struct WhileFalse<C>(C);

impl<C> Model for WhileFalse<C> {
    ghost Value = { C };

    ghost view = { λ s. s.0 };
}

impl<X, C: ItemCall<X, Out = bool>> Turn<X> for WhileFalse<C> {
    type Stop = ();

    ghost can_accept = { C.can_call };

    ghost goes = { AnswerTurn C.call_gives false };

    ghost stops = { λ f x _. (h : C) × C.call_gives f x true h };

    #[inline(always)]
    fn accept(self, item: X) -> Result<WhileFalse<C>, ()> {
        let WhileFalse(mut f) = self;
        if f.call(item) {
            Err(())
        } else {
            Ok(WhileFalse(f))
        }
    }
}

/// Whether a closure returns `true` at some item; it stops at the first `true`.
pub(crate) fn any_items<P: NdProducer, C: ItemCall<P::Item, Out = bool>>(
    p: P,
    order: Order,
    f: C,
) -> bool
    requires callable { MayTest (P.yields_at p) C.call_gives C.can_call (box_in order (P.lengths p)) f false }
    ensures ran { TestsUntil (P.yields_at p) C.call_gives (box_in order (P.lengths p)) f false true result }
{
    walk_items(p, order, WhileFalse(f)).is_err()
}

/// A closure that has gone on at each item, and the total of its calls.
struct FoldingWhile<C, B>(C, B);

impl<C, B> Model for FoldingWhile<C, B> {
    ghost Value = { C × B };

    ghost view = { λ s. (s.0, s.1) };
}

impl<X, B, C: FoldCall<B, X, Out = FoldWhile<B>>> Turn<X> for FoldingWhile<C, B> {
    type Stop = B;

    ghost can_accept = { λ s x. C.can_call s.0 s.1 x };

    ghost goes = { GoTurn C.call_gives };

    ghost stops = { λ s x v. (h : C) × C.call_gives s.0 s.1 x (Done v) h };

    #[inline(always)]
    fn accept(self, item: X) -> Result<FoldingWhile<C, B>, B> {
        let FoldingWhile(mut f, total) = self;
        match f.call(total, item) {
            FoldWhile::Continue(total) => Ok(FoldingWhile(f, total)),
            FoldWhile::Done(last) => Err(last),
        }
    }
}

/// Calls a closure at the total and each item in turn, up to the first result that is done.
pub(crate) fn fold_items_while<P: NdProducer, B, C: FoldCall<B, P::Item, Out = FoldWhile<B>>>(
    p: P,
    order: Order,
    init: B,
    f: C,
) -> FoldWhile<B>
    requires callable { MayFoldWhile (P.yields_at p) C.call_gives C.can_call (box_in order (P.lengths p)) f init }
    ensures ran { FoldsWhile (P.yields_at p) C.call_gives (box_in order (P.lengths p)) f init result }
{
    match walk_items(p, order, FoldingWhile(f, init)) {
        Ok(folded) => {
            let FoldingWhile(_f, total) = folded;
            FoldWhile::Continue(total)
        }
        Err(last) => FoldWhile::Done(last),
    }
}
