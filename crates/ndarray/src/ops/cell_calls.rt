//! How an operation is called at the cells of arrays: on clones of them.

ghost use Rattle.std.specs.Prelude.{◌≡◌, IfOk, IsOk, MatchResult, ⊤};
ghost use Rattle.ndarray.specs.Elementwise.{ClonesAreEqual};

use crate::ops::operations::{Operation, UnaryOperation};
use crate::zip::closures::ItemCall;
use crate::zip::updating::CellCall;
use std::alloc::AllocError;
use std::marker::PhantomData;

/// An operation on two cells.
#[derive(Drop)]
pub(crate) struct OnBoth<O>(pub(crate) PhantomData<O>);

impl<'a, 'b, A: Clone, B: Clone, O: Operation<A, B>> ItemCall<(&'a A, &'b B)> for OnBoth<O> {
    type Out = Result<O::Output, AllocError>;

    ghost can_call = { λ _ t. O.can_apply t.0.now t.1.now × ClonesAreEqual A.is_clone × ClonesAreEqual B.is_clone };

    ghost call_gives = { λ _ t r _. IfOk r (O.apply_gives t.0.now t.1.now) };

    fn call(&mut self, item: (&'a A, &'b B)) -> Result<O::Output, AllocError> {
        let (a, b) = item;
        Ok(O::apply(a.clone()?, b.clone()?))
    }
}

/// An operation on a cell and an item next to it on its right.
#[derive(Drop)]
pub(crate) struct IntoLeft<O>(pub(crate) PhantomData<O>);

impl<'b, A: Clone, B: Clone, O: Operation<A, B, Output = A>> CellCall<A, &'b B> for IntoLeft<O> {
    ghost can_call = { λ _ t. O.can_apply t.0 t.1.now × ClonesAreEqual A.is_clone × ClonesAreEqual B.is_clone };

    ghost call_gives = { λ _ t r _. IfOk r (O.apply_gives t.0 t.1.now) × (A.is_infallible t.0 → B.is_infallible t.1.now → IsOk r) };

    fn call(&mut self, cell: &A, item: &'b B) -> Result<A, AllocError> {
        Ok(O::apply(cell.clone()?, item.clone()?))
    }
}

/// What is computed of one cell, by clones that may fail.
pub(crate) trait CellOperation<A>: Drop {
    /// What it returns.
    type Output;

    // Whether it is defined on a cell.
    ghost can_apply: { Self → A → Type 0 };

    // Whether it may give this answer on the cell.
    ghost apply_gives: { Self → A → Self.Output → Type 0 };

    // Whether it needs no memory at the cell.
    ghost is_infallible: { Self → A → Type 0 };

    /// Its result on a cell, or that a clone failed.
    fn apply(&self, cell: &A) -> Result<Self::Output, AllocError>
        requires { can_apply self.now cell.now }
        ensures gives { IfOk result (apply_gives self.now cell.now) }
        ensures ok { is_infallible self.now cell.now → IsOk result };
}

/// An operation on one cell.
#[derive(Drop)]
pub(crate) struct OnOne<O>(pub(crate) PhantomData<O>);

impl<A: Clone, O: UnaryOperation<A>> CellOperation<A> for OnOne<O> {
    type Output = O::Output;

    ghost can_apply = { λ _ x. O.can_apply x × ClonesAreEqual A.is_clone };

    ghost apply_gives = { λ _ x r. O.apply_gives x r };

    ghost is_infallible = { λ _ x. A.is_infallible x };

    fn apply(&self, cell: &A) -> Result<O::Output, AllocError> {
        Ok(O::apply(cell.clone()?))
    }
}

/// An operation on a cell and a scalar on its right.
#[derive(Drop)]
pub(crate) struct WithRight<O, B> {
    pub(crate) scalar: B,
    pub(crate) operation: PhantomData<O>,
}

impl<A: Clone, B: Clone, O: Operation<A, B>> CellOperation<A> for WithRight<O, B> {
    type Output = O::Output;

    ghost can_apply = { λ c x. O.can_apply x c.scalar × ClonesAreEqual A.is_clone × ClonesAreEqual B.is_clone };

    ghost apply_gives = { λ c x r. O.apply_gives x c.scalar r };

    ghost is_infallible = { λ c x. A.is_infallible x × B.is_infallible c.scalar };

    fn apply(&self, cell: &A) -> Result<O::Output, AllocError> {
        Ok(O::apply(cell.clone()?, self.scalar.clone()?))
    }
}

/// An operation on copies of a scalar and of a cell on its right.
#[derive(Drop)]
pub(crate) struct WithLeft<O, X> {
    pub(crate) scalar: X,
    pub(crate) operation: PhantomData<O>,
}

impl<A: Copy, X: Copy, O: Operation<X, A>> CellOperation<A> for WithLeft<O, X> {
    type Output = O::Output;

    ghost can_apply = { λ c x. O.can_apply c.scalar x };

    ghost apply_gives = { λ c x r. O.apply_gives c.scalar x r };

    ghost is_infallible = { λ _ _. ⊤ };

    fn apply(&self, cell: &A) -> Result<O::Output, AllocError> {
        Ok(O::apply(self.scalar, *cell))
    }
}

/// What is computed of one cell, as a call at each.
#[derive(Drop)]
pub(crate) struct OnEach<C>(pub(crate) C);

impl<'a, A, C: CellOperation<A>> ItemCall<&'a A> for OnEach<C> {
    type Out = Result<C::Output, AllocError>;

    ghost can_call = { λ c x. C.can_apply c.0 x.now };

    ghost call_gives = { λ c x r d. IfOk r (C.apply_gives c.0 x.now) × (d ≡ c) };

    fn call(&mut self, item: &'a A) -> Result<C::Output, AllocError> {
        self.0.apply(item)
    }
}

impl<A, C: CellOperation<A, Output = A>> CellCall<A, ()> for OnEach<C> {
    ghost can_call = { λ c t. C.can_apply c.0 t.0 };

    ghost call_gives = { λ c t r d. IfOk r (C.apply_gives c.0 t.0) × (C.is_infallible c.0 t.0 → IsOk r) × (d ≡ c) };

    fn call(&mut self, cell: &A, _item: ()) -> Result<A, AllocError> {
        self.0.apply(cell)
    }
}

/// An operation on copies of a cell and of an item next to it on its right.
#[derive(Drop)]
pub(crate) struct OnCopies<O>(pub(crate) PhantomData<O>);

impl<'b, A: Copy, B: Copy, O: Operation<A, B, Output = A>> CellCall<A, &'b B> for OnCopies<O> {
    ghost can_call = { λ _ t. O.can_apply t.0 t.1.now };

    ghost call_gives = { λ _ t r _. MatchResult r (O.apply_gives t.0 t.1.now) (λ _. ⊥) };

    fn call(&mut self, cell: &A, item: &'b B) -> Result<A, AllocError> {
        Ok(O::apply(*cell, *item))
    }
}

/// An operation on copies of a cell and of a scalar on its right.
#[derive(Drop)]
pub(crate) struct WithCopies<O, B> {
    pub(crate) scalar: B,
    pub(crate) operation: PhantomData<O>,
}

impl<A: Copy, B: Copy, O: Operation<A, B, Output = A>> CellCall<A, ()> for WithCopies<O, B> {
    ghost can_call = { λ c t. O.can_apply t.0 c.scalar };

    ghost call_gives = { λ c t r d. MatchResult r (O.apply_gives t.0 c.scalar) (λ _. ⊥) × (d ≡ c) };

    fn call(&mut self, cell: &A, _item: ()) -> Result<A, AllocError> {
        Ok(O::apply(*cell, self.scalar))
    }
}
