//! Arrays whose cells become what calls return at them and at the items of a producer, up to the first error.

ghost use Rattle.std.specs.Prelude.{◌≡◌, Result};
ghost use Rattle.ndarray.specs.Calls.{can_call_by_ref2, call_gives_by_ref2};
ghost use Rattle.ndarray.specs.Grid.{IsGrid};
ghost use Rattle.ndarray.specs.Orders.{box_in};
ghost use Rattle.ndarray.specs.Producers.{both};
ghost use Rattle.ndarray.specs.Runs.{MayGather, MayTurnAt, TurnAt, TakesAt};
ghost use Rattle.ndarray.specs.Updates.{is_cell_beside, answers, UpdatesUntil};
ghost use Rattle.ndarray.specs.base.Places.{place};
ghost use Rattle.ndarray.specs.base.Overwrites.{WriteTurn, WriteStop, MayWrite, WritesUntil};
ghost use Rattle.ndarray.specs.declared.base.shape.Order.{Order};
ghost use Rattle.std.specs.declared.alloc.AllocError.{AllocError};

use crate::base::array::ArrayBase;
use crate::base::storage::DataMut;
use crate::order::Order;
use crate::zip::assigning::assigning_order;
use crate::zip::layout_places::LayoutPlaces;
use crate::zip::pair::Pair;
use crate::zip::producer::NdProducer;
use crate::zip::walk::{Turn, walk_items};
use core::mem::replace_with;
use std::alloc::AllocError;
use std::marker::Model;

/// What returns the new cell at an old one and an item next to it, or an error.
pub(crate) trait CellCall<A, X>: Drop {
    // Whether it may be called.
    ghost can_call: { Self → A × X → Type 0 };

    // Whether a call may give this answer and leave it so.
    ghost call_gives: { Self → A × X → Result A AllocError → Self → Type 0 };

    /// Calls it.
    fn call(&mut self, cell: &A, item: X) -> Result<A, AllocError>
        requires { can_call self.old (cell.now, item) }
        ensures { call_gives self.old (cell.now, item) result self.new };
}

/// A closure of references to a cell and to the item next to it.
#[derive(Drop)]
pub(crate) struct ByRef2<F>(pub(crate) F);

impl<'b, A: Drop, B, F: FnMut(&A, &B) -> Result<A, AllocError>> CellCall<A, &'b B> for ByRef2<F> {
    ghost can_call = { λ c t. can_call_by_ref2 F.FnMut c.0 (t.0, t.1.now) };

    ghost call_gives = { λ c t r d. call_gives_by_ref2 F.FnMut c.0 (t.0, t.1.now) r d.0 };

    fn call(&mut self, cell: &A, item: &'b B) -> Result<A, AllocError> {
        (self.0)(cell, item)
    }
}

/// Sets each cell of an array to what `f` returns for the cell and the item of a producer at its index list, up to the first error, which
/// is returned. The cells from there on stay as they are.
///
/// The elements are taken out of the array for the walk, and the places of the cells are walked next to the items.
pub(crate) fn try_update<P: NdProducer, A: Drop, S: DataMut<Elem = A>, C: CellCall<A, P::Item>>(
    array: &mut ArrayBase<S, P::Dim>,
    other: P,
    f: C,
) -> Result<(), AllocError>
    requires same { P.lengths other ≡ array.old.lengths }
    requires callable { (o : Order) → MayGather (is_cell_beside array.old (P.yields_at other)) (answers C.call_gives) C.can_call (box_in o array.old.lengths) f }
    ensures ran { (o : Order) × UpdatesUntil (is_cell_beside array.old (P.yields_at other)) C.call_gives o f array.old result array.new }
    ensures whole { IsGrid array.new }
{
    let order = assigning_order(&other, array);
    try_update_in(array, other, order, f)
}

/// The same in an order.
pub(crate) fn try_update_in<P, A, S, C>(
    array: &mut ArrayBase<S, P::Dim>,
    other: P,
    order: Order,
    f: C,
) -> Result<(), AllocError>
where
    P: NdProducer,
    A: Drop,
    S: DataMut<Elem = A>,
    C: CellCall<A, P::Item>,
    requires same { P.lengths other ≡ array.old.lengths }
    requires callable { MayGather (is_cell_beside array.old (P.yields_at other)) (answers C.call_gives) C.can_call (box_in order array.old.lengths) f }
    ensures ran { UpdatesUntil (is_cell_beside array.old (P.yields_at other)) C.call_gives order f array.old result array.new }
    ensures whole { IsGrid array.new }
{
    let places = LayoutPlaces::of(array.layout.copied());
    let updates = Updates {
        items: Pair {
            first: other,
            second: places,
        },
        order,
        f,
    };
    replace_with(&mut array.storage, updates, update_beside)
}

/// A call at the elements at some places, each with an item.
#[derive(Drop)]
struct Updates<P, C> {
    items: P,
    order: Order,
    f: C,
}

/// Leaves in the element at each place what the call returns at it and the item next to it, up to the first error.
fn update_elements<
    X,
    P: NdProducer<Item = (X, usize)>,
    A: Drop,
    S: DataMut<Elem = A>,
    C: CellCall<A, X>,
>(storage: S, updates: Updates<P, C>) -> (S, Result<(), AllocError>)
    requires { MayTurnAt (TurnAt (P.yields_at updates.items) (WriteTurn S.at C.call_gives)) (TakesAt (P.yields_at updates.items) (MayWrite S.at C.can_call)) (storage, updates.f) (box_in updates.order (P.lengths updates.items)) }
    ensures { WritesUntil S.at C.call_gives (P.yields_at updates.items) (box_in updates.order (P.lengths updates.items)) updates.f storage result.0 result.1 }
{
    let Updates { items, order, f } = updates;
    match walk_items(items, order, Overwriting { storage, f }) {
        Ok(overwritten) => {
            let Overwriting { storage, f: _f } = overwritten;
            (storage, Ok(()))
        }
        Err((storage, refused)) => (storage, Err(refused)),
    }
}

/// The same over the places of an array's cells and a producer next to them.
fn update_beside<P: NdProducer, A: Drop, S: DataMut<Elem = A>, C: CellCall<A, P::Item>>(
    storage: S,
    updates: Updates<Pair<P, LayoutPlaces<P::Dim>>, C>,
) -> (S, Result<(), AllocError>)
    requires { MayTurnAt (TurnAt (both (P.yields_at updates.items.first) (λ i p. p ≡ place updates.items.second.layout.start (P.Dim.numbers updates.items.second.layout.strides) i)) (WriteTurn S.at C.call_gives)) (TakesAt (both (P.yields_at updates.items.first) (λ i p. p ≡ place updates.items.second.layout.start (P.Dim.numbers updates.items.second.layout.strides) i)) (MayWrite S.at C.can_call)) (storage, updates.f) (box_in updates.order (P.lengths updates.items.first)) }
    ensures { WritesUntil S.at C.call_gives (both (P.yields_at updates.items.first) (λ i p. p ≡ place updates.items.second.layout.start (P.Dim.numbers updates.items.second.layout.strides) i)) (box_in updates.order (P.lengths updates.items.first)) updates.f storage result.0 result.1 }
{
    update_elements(storage, updates)
}

/// Elements that are overwritten with what a call returns.
#[derive(Drop)]
struct Overwriting<S, C> {
    storage: S,
    f: C,
}

impl<S, C> Model for Overwriting<S, C> {
    ghost Value = { S × C };

    ghost view = { λ s. (s.storage, s.f) };
}

impl<X, A: Drop, S: DataMut<Elem = A>, C: CellCall<A, X>> Turn<(X, usize)> for Overwriting<S, C> {
    type Stop = (S, AllocError);

    ghost can_accept = { MayWrite S.at C.can_call };

    ghost goes = { WriteTurn S.at C.call_gives };

    ghost stops = { WriteStop S.at C.call_gives };

    #[inline(always)]
    fn accept(self, item: (X, usize)) -> Result<Overwriting<S, C>, (S, AllocError)> {
        let Overwriting { mut storage, mut f } = self;
        let (x, place) = item;
        match f.call(storage.element(place), x) {
            Ok(answer) => {
                *storage.element_mut(place) = answer;
                Ok(Overwriting { storage, f })
            }
            Err(refused) => Err((storage, refused)),
        }
    }
}
