//! What the assigning operators call: the left array's cells are updated where they are, and nothing is allocated.

ghost use Rattle.ndarray.specs.Elementwise.{Assigns, CanAssign, CanMap, Maps};

use crate::base::array::{ArrayBase, ArrayView};
use crate::base::dimension::Lengths;
use crate::base::storage::{Data, DataMut};
use crate::ops::cell_calls::{OnCopies, WithCopies};
use crate::ops::operations::Operation;
use crate::zip::producer::IntoBroadcast;
use crate::zip::repeated::try_update_beside;
use crate::zip::units::Units;
use crate::zip::updating::try_update;
use std::marker::PhantomData;

/// Leaves in each cell what an operation gives on it and the cell of another array there, which is broadcast.
pub(crate) fn assign<O, A, B, S, S2, D, E>(array: &mut ArrayBase<S, D>, rhs: &ArrayBase<S2, E>)
where
    O: Operation<A, B, Output = A>,
    A: Copy,
    B: Copy,
    S: DataMut<Elem = A>,
    S2: Data<Elem = B>,
    D: Lengths,
    E: Lengths,
    requires { CanAssign O.can_apply array.old rhs.now }
    ensures { Assigns O.apply_gives array.old rhs.now array.new }
{
    let rhs: ArrayView<'_, B, D> = rhs.view().into_broadcast(array.raw_dim());
    let call: OnCopies<O> = OnCopies(PhantomData);
    match try_update_beside(array, rhs, call) {
        Ok(()) => {}
        Err(_) => unreachable!(),
    }
}

/// Leaves in each cell what an operation gives on it and a scalar.
pub(crate) fn assign_scalar<O, A, B: Copy, S, D: Lengths>(array: &mut ArrayBase<S, D>, scalar: B)
where
    O: Operation<A, B, Output = A>,
    A: Copy,
    S: DataMut<Elem = A>,
    requires { CanMap (λ x. O.can_apply x scalar) array.old }
    ensures { Maps (λ x z. O.apply_gives x scalar z) array.old array.new }
{
    let each = Units::of(array.raw_dim());
    let call: WithCopies<O, B> = WithCopies {
        scalar,
        operation: PhantomData,
    };
    match try_update(array, each, call) {
        Ok(()) => {}
        Err(_) => unreachable!(),
    }
}
