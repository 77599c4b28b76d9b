//! Arrays whose cells become what a closure returns at the items of a producer.

ghost use Rattle.std.specs.Prelude.{◌≡◌, MatchResult};
ghost use Rattle.ndarray.specs.Grid.{IsGrid};
ghost use Rattle.ndarray.specs.Orders.{box_in};
ghost use Rattle.ndarray.specs.Runs.{MayGather, Collects};
ghost use Rattle.ndarray.specs.declared.base.shape.Order.{Order};

use crate::base::array::ArrayBase;
use crate::base::dimension::Lengths;
use crate::base::storage::DataMut;
use crate::order::Order;
use crate::zip::closures::ItemCall;
use crate::zip::producer::NdProducer;
use crate::zip::updating::{CellCall, try_update};
use std::alloc::AllocError;

/// The order in which a producer and an array to assign to are walked together.
pub(crate) fn assigning_order<P: NdProducer, S: DataMut, D: Lengths>(
    p: &P,
    into: &ArrayBase<S, D>,
) -> Order
    ensures { IsGrid into.now }
{
    let _dim = into.raw_dim();
    Order::by_tendency(p.tendency().saturating_add(into.layout_tendency()))
}

/// Leaves in an array at each index list what a closure returns at the item there.
pub(crate) fn assign_items<
    P: NdProducer,
    R: Drop,
    S: DataMut<Elem = R>,
    C: ItemCall<P::Item, Out = R>,
>(p: P, into: &mut ArrayBase<S, P::Dim>, f: C)
    requires same { P.lengths p ≡ into.old.lengths }
    requires callable { (o : Order) → MayGather (P.yields_at p) C.call_gives C.can_call (box_in o (P.lengths p)) f }
    ensures ran { (o : Order) × Collects (P.yields_at p) C.call_gives o (P.lengths p) f into.new }
    ensures whole { IsGrid into.new }
{
    match try_update(into, p, Anew(f)) {
        Ok(()) => {}
        Err(_) => unreachable!(),
    }
}

/// A closure of an item, as one of the cell before and the item, which never fails.
#[derive(Drop)]
struct Anew<C>(C);

impl<A: Drop, X, C: ItemCall<X, Out = A>> CellCall<A, X> for Anew<C> {
    ghost can_call = { λ c t. C.can_call c.0 t.1 };

    ghost call_gives = { λ c t r d. MatchResult r (λ a. C.call_gives c.0 t.1 a d.0) (λ _. ⊥) };

    #[inline(always)]
    fn call(&mut self, _cell: &A, item: X) -> Result<A, AllocError> {
        Ok(self.0.call(item))
    }
}
