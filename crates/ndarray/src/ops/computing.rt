//! What the operators call: each way of computing is here once, for all operations.

ghost use Rattle.std.specs.Prelude.{◌≡◌, Err, IfErr, IfOk, IsOk, length, ⊤};
ghost use Rattle.ndarray.specs.Broadcast.{BroadcastTogether, broadcast_lengths};
ghost use Rattle.ndarray.specs.Elementwise.{CanCombine, CanMap, ClonesAreEqual, MakesCombined, MakesMapped, UpdatesCombined, UpdatesMapped};
ghost use Rattle.ndarray.specs.Grid.{Grid, IsGrid};
ghost use Rattle.ndarray.specs.Index.{size};
ghost use Rattle.ndarray.specs.Orders.{box_in};
ghost use Rattle.ndarray.specs.Runs.{Collects, MayGather};
ghost use Rattle.ndarray.specs.Updates.{UpdatesUntil, answers, is_cell_beside};
ghost use Rattle.ndarray.specs.declared.base.shape.Order.{Order};

use crate::base::array::{Array, ArrayBase, ArrayView};
use crate::base::broadcast::co_broadcast;
use crate::base::dim_max::DimMax;
use crate::base::dimension::Lengths;
use crate::base::storage::Data;
use crate::ops::cell_calls::{CellOperation, IntoLeft, OnBoth, OnEach, WithLeft, WithRight};
use crate::ops::operations::{Exchange, Operation};
use crate::zip::collecting::try_collect_in_either_order;
use crate::zip::producer::{IntoBroadcast, NdProducer};
use crate::zip::repeated::{RepeatsItems, try_collect_of_both, try_update_beside};
use crate::zip::units::Units;
use crate::zip::updating::{CellCall, try_update};
use std::alloc::{AllocError, Global};
use std::marker::PhantomData;

/// The array of what an operation gives on the cells of two arrays broadcast together.
pub(crate) fn combine<O, A, B, S2, D, E>(
    left: &Array<A, D>,
    right: &ArrayBase<S2, E>,
) -> Result<Array<O::Output, <D as DimMax<E>>::Output>, AllocError>
where
    O: Operation<A, B>,
    O::Output: Drop,
    A: Clone,
    B: Clone,
    S2: Data<Elem = B>,
    D: DimMax<E>,
    E: Lengths,
    requires can { CanCombine left.now right.now O.can_apply }
    requires left_clones { ClonesAreEqual A.is_clone }
    requires right_clones { ClonesAreEqual B.is_clone }
    ensures { MakesCombined D.Output.has_axes O.apply_gives left.now right.now result }
{
    let dim = broadcast_dim(left, right);
    combine_at::<O, A, B, D, E, _>(left.allocator(), left.view(), right.view(), dim)
}

/// The same into the cells of the left array, if it has the result's lengths.
pub(crate) fn combine_into_left<O, A, B, S2, D, E>(
    left: Array<A, D>,
    right: &ArrayBase<S2, E>,
) -> Result<Array<A, <D as DimMax<E>>::Output>, AllocError>
where
    O: Operation<A, B, Output = A>,
    A: Clone,
    B: Clone,
    S2: Data<Elem = B>,
    D: DimMax<E>,
    E: Lengths,
    requires can { CanCombine left right.now O.can_apply }
    requires left_clones { ClonesAreEqual A.is_clone }
    requires right_clones { ClonesAreEqual B.is_clone }
    ensures { UpdatesCombined D.Output.has_axes O.apply_gives A.is_infallible B.is_infallible left.lengths left right.now result }
{
    let dim = broadcast_dim(&left, right);
    combine_into_left_at::<O, A, B, D, E, _>(left, right.view(), dim)
}

/// The same for a right array that is passed by value.
pub(crate) fn combine_into_left_by_value<O, A, B, S2, D, E>(
    left: Array<A, D>,
    right: ArrayBase<S2, E>,
) -> Result<Array<A, <D as DimMax<E>>::Output>, AllocError>
where
    O: Operation<A, B, Output = A>,
    A: Clone,
    B: Clone,
    S2: Data<Elem = B>,
    D: DimMax<E>,
    E: Lengths,
    requires can { CanCombine left right O.can_apply }
    requires left_clones { ClonesAreEqual A.is_clone }
    requires right_clones { ClonesAreEqual B.is_clone }
    ensures { UpdatesCombined D.Output.has_axes O.apply_gives A.is_infallible B.is_infallible left.lengths left right result }
{
    combine_into_left::<O, A, B, _, D, E>(left, &right)
}

/// The same as `combine_into_left`, at the lengths of the result.
fn combine_into_left_at<O, A, B, D, E, R>(
    left: Array<A, D>,
    right: ArrayView<'_, B, E>,
    dim: R,
) -> Result<Array<A, R>, AllocError>
where
    O: Operation<A, B, Output = A>,
    A: Clone,
    B: Clone,
    D: Lengths,
    E: Lengths,
    R: Lengths,
    requires lengths { R.numbers dim ≡ broadcast_lengths left.lengths right.lengths }
    requires can { CanCombine left right O.can_apply }
    requires left_clones { ClonesAreEqual A.is_clone }
    requires right_clones { ClonesAreEqual B.is_clone }
    ensures { UpdatesCombined R.has_axes O.apply_gives A.is_infallible B.is_infallible left.lengths left right.entry result }
{
    if dim.slice() != left.shape() {
        return combine_at::<O, A, B, D, E, _>(left.allocator(), left.view(), right, dim);
    }
    let Ok(mut cells) = left.into_dimensionality() else {
        unreachable!()
    };
    let call: IntoLeft<O> = IntoLeft(PhantomData);
    update_cells_beside(cells, right.into_broadcast(dim), call)
}

/// The same into the cells of the right array, if it has the result's lengths.
pub(crate) fn combine_into_right<O, A, B, S, D, E>(
    left: &ArrayBase<S, D>,
    right: Array<B, E>,
) -> Result<Array<B, <E as DimMax<D>>::Output>, AllocError>
where
    O: Operation<A, B, Output = B>,
    A: Clone,
    B: Clone,
    S: Data<Elem = A>,
    D: Lengths,
    E: DimMax<D>,
    requires can { CanCombine left.now right O.can_apply }
    requires left_clones { ClonesAreEqual A.is_clone }
    requires right_clones { ClonesAreEqual B.is_clone }
    ensures { UpdatesCombined E.Output.has_axes O.apply_gives A.is_infallible B.is_infallible right.lengths left.now right result }
{
    combine_into_left::<Exchange<O>, B, A, _, E, D>(right, left)
}

/// The lengths of two arrays broadcast together.
fn broadcast_dim<S, S2, D, E>(
    left: &ArrayBase<S, D>,
    right: &ArrayBase<S2, E>,
) -> <D as DimMax<E>>::Output
where
    S: Data,
    S2: Data,
    D: DimMax<E>,
    E: Lengths,
    requires { BroadcastTogether left.now.lengths right.now.lengths }
    ensures lengths { D.Output.numbers result ≡ broadcast_lengths left.now.lengths right.now.lengths }
    ensures axes { D.Output.has_axes (length (broadcast_lengths left.now.lengths right.now.lengths)) }
{
    let lengths: Option<<D as DimMax<E>>::Output> = co_broadcast(&left.raw_dim(), &right.raw_dim());
    let Some(dim) = lengths else { unreachable!() };
    dim
}

/// The same as `combine`, at the lengths of the result.
fn combine_at<O, A, B, D, E, R>(
    alloc: Global,
    left: ArrayView<'_, A, D>,
    right: ArrayView<'_, B, E>,
    dim: R,
) -> Result<Array<O::Output, R>, AllocError>
where
    O: Operation<A, B>,
    O::Output: Drop,
    A: Clone,
    B: Clone,
    D: Lengths,
    E: Lengths,
    R: Lengths,
    requires lengths { R.numbers dim ≡ broadcast_lengths left.lengths right.lengths }
    requires can { CanCombine left right O.can_apply }
    requires left_clones { ClonesAreEqual A.is_clone }
    requires right_clones { ClonesAreEqual B.is_clone }
    ensures { MakesCombined R.has_axes O.apply_gives left.entry right.entry result }
{
    let call: OnBoth<O> = OnBoth(PhantomData);
    try_collect_of_both(
        alloc,
        left.into_broadcast(dim.copied()),
        right.into_broadcast(dim),
        call,
    )
}

/// The array of what is computed of each cell of an array.
pub(crate) fn map_cells<A, D, C>(
    array: &Array<A, D>,
    operation: C,
) -> Result<Array<C::Output, D>, AllocError>
where
    A: Drop,
    D: Lengths,
    C: CellOperation<A>,
    C::Output: Drop,
    requires { CanMap (C.can_apply operation) array.now }
    ensures { MakesMapped D.has_axes (C.apply_gives operation) array.now result }
{
    try_collect_in_either_order(array.allocator(), array.view(), OnEach(operation))
}

/// The same into the array's own cells.
pub(crate) fn map_cells_in_place<A, D, C>(
    array: Array<A, D>,
    operation: C,
) -> Result<Array<A, D>, AllocError>
where
    A: Drop,
    D: Lengths,
    C: CellOperation<A, Output = A>,
    requires { CanMap (C.can_apply operation) array }
    ensures { UpdatesMapped D.has_axes (C.apply_gives operation) (C.is_infallible operation) array result }
{
    let each = Units::of(array.raw_dim());
    update_cells(array, each, OnEach(operation))
}

/// An array with what a call returns at each of its cells, and the item of a producer there, in the place of the cell.
fn update_cells<P, A, C>(
    mut cells: Array<A, P::Dim>,
    items: P,
    call: C,
) -> Result<Array<A, P::Dim>, AllocError>
where
    P: NdProducer,
    A: Drop,
    C: CellCall<A, P::Item>,
    requires same { P.lengths items ≡ cells.lengths }
    requires callable { (o : Order) → MayGather (is_cell_beside cells (P.yields_at items)) (answers C.call_gives) C.can_call (box_in o cells.lengths) call }
    ensures ran { IfOk result (λ r. (o : Order) × Collects (is_cell_beside cells (P.yields_at items)) (answers C.call_gives) o cells.lengths call r) }
    ensures axes { IfOk result (λ r. P.Dim.has_axes (length r.lengths)) }
    ensures whole { IfOk result IsGrid }
    ensures stopped { IfErr result (λ e. (o : Order) × (new : Grid A) × UpdatesUntil (is_cell_beside cells (P.yields_at items)) C.call_gives o call cells (Err e) new) }
{
    match try_update(&mut cells, items, call) {
        Ok(()) => {
            let _axes = cells.ndim();
            Ok(cells)
        }
        Err(refused) => Err(refused),
    }
}

/// The same beside a producer whose rows may repeat one item.
fn update_cells_beside<P, A, C>(
    mut cells: Array<A, P::Dim>,
    items: P,
    call: C,
) -> Result<Array<A, P::Dim>, AllocError>
where
    P: RepeatsItems,
    A: Drop,
    C: CellCall<A, P::Item>,
    requires same { P.lengths items ≡ cells.lengths }
    requires callable { (o : Order) → MayGather (is_cell_beside cells (P.yields_at items)) (answers C.call_gives) C.can_call (box_in o cells.lengths) call }
    ensures ran { IfOk result (λ r. (o : Order) × Collects (is_cell_beside cells (P.yields_at items)) (answers C.call_gives) o cells.lengths call r) }
    ensures axes { IfOk result (λ r. P.Dim.has_axes (length r.lengths)) }
    ensures whole { IfOk result IsGrid }
    ensures stopped { IfErr result (λ e. (o : Order) × (new : Grid A) × UpdatesUntil (is_cell_beside cells (P.yields_at items)) C.call_gives o call cells (Err e) new) }
{
    match try_update_beside(&mut cells, items, call) {
        Ok(()) => {
            let _axes = cells.ndim();
            Ok(cells)
        }
        Err(refused) => Err(refused),
    }
}

/// The array of what an operation gives on clones of each cell and of a scalar.
pub(crate) fn combine_scalar<O, A, B, D>(
    array: &Array<A, D>,
    scalar: B,
) -> Result<Array<O::Output, D>, AllocError>
where
    O: Operation<A, B>,
    O::Output: Drop,
    A: Clone,
    B: Clone,
    D: Lengths,
    requires can { CanMap (λ x. O.can_apply x scalar) array.now }
    requires cell_clones { ClonesAreEqual A.is_clone }
    requires scalar_clones { ClonesAreEqual B.is_clone }
    ensures { MakesMapped D.has_axes (λ x z. O.apply_gives x scalar z) array.now result }
{
    let operation: WithRight<O, B> = WithRight {
        scalar,
        operation: PhantomData,
    };
    map_cells(array, operation)
}

/// The same into the array's own cells.
pub(crate) fn combine_scalar_in_place<O, A, B, D>(
    array: Array<A, D>,
    scalar: B,
) -> Result<Array<A, D>, AllocError>
where
    O: Operation<A, B, Output = A>,
    A: Clone,
    B: Clone,
    D: Lengths,
    requires can { CanMap (λ x. O.can_apply x scalar) array }
    requires cell_clones { ClonesAreEqual A.is_clone }
    requires scalar_clones { ClonesAreEqual B.is_clone }
    ensures { UpdatesMapped D.has_axes (λ x z. O.apply_gives x scalar z) (λ x. A.is_infallible x × B.is_infallible scalar) array result }
{
    let operation: WithRight<O, B> = WithRight {
        scalar,
        operation: PhantomData,
    };
    map_cells_in_place(array, operation)
}

/// The array of what an operation gives on copies of a scalar and of each cell.
pub(crate) fn combine_left_scalar<O, X, A, D>(
    scalar: X,
    array: &Array<A, D>,
) -> Result<Array<O::Output, D>, AllocError>
where
    O: Operation<X, A>,
    O::Output: Drop,
    X: Copy,
    A: Copy,
    D: Lengths,
    requires { CanMap (λ x. O.can_apply scalar x) array.now }
    ensures { MakesMapped D.has_axes (λ x z. O.apply_gives scalar x z) array.now result }
{
    let operation: WithLeft<O, X> = WithLeft {
        scalar,
        operation: PhantomData,
    };
    map_cells(array, operation)
}

/// The same into the array's own cells.
pub(crate) fn combine_left_scalar_in_place<O, X, A, D>(
    scalar: X,
    array: Array<A, D>,
) -> Result<Array<A, D>, AllocError>
where
    O: Operation<X, A, Output = A>,
    X: Copy,
    A: Copy,
    D: Lengths,
    requires { CanMap (λ x. O.can_apply scalar x) array }
    ensures { UpdatesMapped D.has_axes (λ x z. O.apply_gives scalar x z) (λ _. ⊤) array result }
{
    let operation: WithLeft<O, X> = WithLeft {
        scalar,
        operation: PhantomData,
    };
    map_cells_in_place(array, operation)
}
