//! Arrays of what a closure returns at the items of a producer.

ghost use Rattle.std.specs.Prelude.{◌≡◌, ◌<◌, IfOk, IsOk, Err, length, MatchResult};
ghost use Rattle.ndarray.specs.base.Builder.{pushed_to};
ghost use Rattle.ndarray.specs.Grid.{IsGrid};
ghost use Rattle.ndarray.specs.Index.{size};
ghost use Rattle.ndarray.specs.Orders.{box_in};
ghost use Rattle.ndarray.specs.Producers.{both};
ghost use Rattle.ndarray.specs.Runs.{MayGather, Collects};
ghost use Rattle.ndarray.specs.Updates.{answers};
ghost use Rattle.ndarray.specs.declared.base.shape.Order.{Order};
ghost use Rattle.ndarray.specs.declared.base.shape.Order.TheVariants.{RowMajor, ColumnMajor};

use crate::base::array::Array;
use crate::base::builder::ArrayBuilder;
use crate::base::dimension::Lengths;
use crate::order::Order;
use crate::zip::closures::ItemCall;
use crate::zip::pair::Pair;
use crate::zip::producer::{NdProducer, preferred_order};
use crate::zip::walk::{Turn, walk_items};
use std::alloc::{AllocError, Global};
use std::marker::Model;

/// The array that has at each index list what a closure returns at the item there, filled in an order.
pub(crate) fn collect_items<P: NdProducer, R: Drop, C: ItemCall<P::Item, Out = R>>(
    alloc: Global,
    p: P,
    order: Order,
    f: C,
) -> Result<Array<R, P::Dim>, AllocError>
    requires callable { MayGather (P.yields_at p) C.call_gives C.can_call (box_in order (P.lengths p)) f }
    ensures ran { IfOk result (λ g. Collects (P.yields_at p) C.call_gives order (P.lengths p) f g) }
    ensures axes { IfOk result (λ g. P.Dim.has_axes (length g.lengths)) }
    ensures whole { IfOk result IsGrid }
    ensures empty { size (P.lengths p) ≡ 0 → IsOk result }
{
    try_collect_items(alloc, p, order, NeverRefused(f))
}

/// The same for a closure that may fail: the array if it returns `Ok` at each item, else its first error.
pub(crate) fn try_collect_items<
    P: NdProducer,
    R: Drop,
    C: ItemCall<P::Item, Out = Result<R, AllocError>>,
>(alloc: Global, p: P, order: Order, f: C) -> Result<Array<R, P::Dim>, AllocError>
    requires callable { MayGather (P.yields_at p) (answers C.call_gives) C.can_call (box_in order (P.lengths p)) f }
    ensures ran { IfOk result (λ g. Collects (P.yields_at p) (answers C.call_gives) order (P.lengths p) f g) }
    ensures axes { IfOk result (λ g. P.Dim.has_axes (length g.lengths)) }
    ensures whole { IfOk result IsGrid }
    ensures empty { size (P.lengths p) ≡ 0 → IsOk result }
{
    let builder = ArrayBuilder::with_capacity(alloc, p.raw_dim(), order)?;
    match walk_items(p, order, Collecting { builder, f }) {
        Ok(collected) => Ok(collected.builder.finish()),
        Err(refused) => Err(refused),
    }
}

/// The array of what a closure returns at the items of a producer, filled in the order that suits it.
pub(crate) fn collect_in_either_order<P: NdProducer, R: Drop, C: ItemCall<P::Item, Out = R>>(
    alloc: Global,
    p: P,
    f: C,
) -> Result<Array<R, P::Dim>, AllocError>
    requires by_rows { MayGather (P.yields_at p) C.call_gives C.can_call (box_in RowMajor (P.lengths p)) f }
    requires by_columns { MayGather (P.yields_at p) C.call_gives C.can_call (box_in ColumnMajor (P.lengths p)) f }
    ensures ran { IfOk result (λ g. (o : Order) × Collects (P.yields_at p) C.call_gives o (P.lengths p) f g) }
    ensures axes { IfOk result (λ g. P.Dim.has_axes (length g.lengths)) }
    ensures whole { IfOk result IsGrid }
    ensures empty { size (P.lengths p) ≡ 0 → IsOk result }
{
    try_collect_in_either_order(alloc, p, NeverRefused(f))
}

/// The same for a closure that may fail.
#[tactic(auto, using(crate::proofs::runs::Answers::may_gather_in))]
pub(crate) fn try_collect_in_either_order<
    P: NdProducer,
    R: Drop,
    C: ItemCall<P::Item, Out = Result<R, AllocError>>,
>(alloc: Global, p: P, f: C) -> Result<Array<R, P::Dim>, AllocError>
    requires by_rows { MayGather (P.yields_at p) (answers C.call_gives) C.can_call (box_in RowMajor (P.lengths p)) f }
    requires by_columns { MayGather (P.yields_at p) (answers C.call_gives) C.can_call (box_in ColumnMajor (P.lengths p)) f }
    ensures ran { IfOk result (λ g. (o : Order) × Collects (P.yields_at p) (answers C.call_gives) o (P.lengths p) f g) }
    ensures axes { IfOk result (λ g. P.Dim.has_axes (length g.lengths)) }
    ensures whole { IfOk result IsGrid }
    ensures empty { size (P.lengths p) ≡ 0 → IsOk result }
{
    let order = preferred_order(&p);
    try_collect_items(alloc, p, order, f)
}

/// The array of what a closure returns at the items of two producers of one shape, side by side.
pub(crate) fn collect_of_both<
    P: NdProducer,
    Q: NdProducer,
    R: Drop,
    C: ItemCall<(P::Item, Q::Item), Out = R>,
>(alloc: Global, first: P, second: Q, f: C) -> Result<Array<R, P::Dim>, AllocError>
    requires same { P.lengths first ≡ Q.lengths second }
    requires callable { (o : Order) → MayGather (both (P.yields_at first) (Q.yields_at second)) C.call_gives C.can_call (box_in o (P.lengths first)) f }
    ensures ran { IfOk result (λ g. (o : Order) × Collects (both (P.yields_at first) (Q.yields_at second)) C.call_gives o (P.lengths first) f g) }
    ensures axes { IfOk result (λ g. P.Dim.has_axes (length g.lengths)) }
    ensures whole { IfOk result IsGrid }
    ensures empty { size (P.lengths first) ≡ 0 → IsOk result }
{
    collect_in_either_order(alloc, Pair { first, second }, f)
}

/// An array that is being filled with what a closure returns.
#[derive(Drop)]
struct Collecting<R, D: Lengths, C> {
    builder: ArrayBuilder<R, D>,
    f: C,
}

impl<X, R: Drop, D: Lengths, C: ItemCall<X, Out = Result<R, AllocError>>> Turn<X>
    for Collecting<R, D, C> {
    type Stop = AllocError;

    ghost can_accept = { λ s x. C.can_call s.f x × (length s.builder.cells < size s.builder.lengths) };

    ghost goes = { λ s x t. (r : R) × (answers C.call_gives s.f x r t.f × (t.builder ≡ pushed_to s.builder r)) };

    ghost stops = { λ s x e. (h : C) × C.call_gives s.f x (Err e) h };

    #[inline(always)]
    fn accept(self, item: X) -> Result<Collecting<R, D, C>, AllocError> {
        let Collecting { mut builder, mut f } = self;
        match f.call(item) {
            Ok(answer) => {
                builder.push(answer);
                Ok(Collecting { builder, f })
            }
            Err(refused) => Err(refused),
        }
    }
}

/// A call that never fails, as one that may.
#[derive(Drop)]
struct NeverRefused<C>(C);

impl<C> Model for NeverRefused<C> {
    ghost Value = { C };

    ghost view = { λ c. c.0 };
}

impl<X, C: ItemCall<X>> ItemCall<X> for NeverRefused<C> {
    type Out = Result<C::Out, AllocError>;

    ghost can_call = { λ c t. C.can_call c t };

    ghost call_gives = { λ c t r d. MatchResult r (λ a. C.call_gives c t a d) (λ _. ⊥) };

    fn call(&mut self, item: X) -> Result<C::Out, AllocError> {
        Ok(self.0.call(item))
    }
}
