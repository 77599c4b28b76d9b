//! How a closure without state is called at the cells of arrays. No call changes it.

ghost use Rattle.std.specs.Prelude.{◌≡◌, MatchResult, ⊤};
ghost use Rattle.ndarray.specs.Everyday.{Leaves, LeavesBeside, ReturnsAtBoth, TakesAtBoth, TakesToWrite, TakesToWriteBeside};

use crate::zip::closures::ItemCall;
use crate::zip::updating::CellCall;
use std::alloc::AllocError;

/// A closure of a cell.
#[derive(Drop)]
pub(super) struct OnCopy<F>(pub(super) F);

impl<'a, A: Copy, R, F: Fn(A) -> R> ItemCall<&'a A> for OnCopy<F> {
    type Out = R;

    ghost can_call = { λ c x. F.pre c.0 x.now };

    ghost call_gives = { λ c x r d. F.post c.0 x.now r × (d ≡ c) };

    fn call(&mut self, item: &'a A) -> R {
        (self.0)(*item)
    }
}

impl<A: Copy, F: Fn(A) -> A> CellCall<A, ()> for OnCopy<F> {
    ghost can_call = { λ c t. F.pre c.0 t.0 };

    ghost call_gives = { λ c t r d. MatchResult r (λ a. F.post c.0 t.0 a) (λ _. ⊥) × (d ≡ c) };

    #[inline(always)]
    fn call(&mut self, cell: &A, _item: ()) -> Result<A, AllocError> {
        Ok((self.0)(*cell))
    }
}

/// A closure of an item that is no reference.
#[derive(Drop)]
pub(super) struct OnItem<F>(pub(super) F);

impl<X, R, F: Fn(X) -> R> ItemCall<X> for OnItem<F> {
    type Out = R;

    ghost can_call = { λ c x. F.pre c.0 x };

    ghost call_gives = { λ c x r d. F.post c.0 x r × (d ≡ c) };

    fn call(&mut self, item: X) -> R {
        (self.0)(item)
    }
}

/// A closure of references to two cells.
#[derive(Drop)]
pub(super) struct OnTwo<F>(pub(super) F);

impl<'a, 'b, A, B, R, F: Fn(&A, &B) -> R> ItemCall<(&'a A, &'b B)> for OnTwo<F> {
    type Out = R;

    ghost can_call = { λ c t. TakesAtBoth F.Fn c.0 t.0.now t.1.now };

    ghost call_gives = { λ c t r d. ReturnsAtBoth F.Fn c.0 t.0.now t.1.now r × (d ≡ c) };

    fn call(&mut self, item: (&'a A, &'b B)) -> R {
        let (x, y) = item;
        (self.0)(x, y)
    }
}

/// A closure that writes to a cell.
#[derive(Drop)]
pub(super) struct Writing<F>(pub(super) F);

impl<A: Copy, F: Fn(&mut A)> CellCall<A, ()> for Writing<F> {
    ghost can_call = { λ c t. TakesToWrite F.Fn c.0 t.0 };

    ghost call_gives = { λ c t r d. MatchResult r (Leaves F.Fn c.0 t.0) (λ _. ⊥) × (d ≡ c) };

    #[inline(always)]
    fn call(&mut self, cell: &A, _item: ()) -> Result<A, AllocError> {
        let mut written = *cell;
        (self.0)(&mut written);
        Ok(written)
    }
}

/// A closure that writes to a cell and reads another one next to it.
#[derive(Drop)]
pub(super) struct WritingBeside<F>(pub(super) F);

impl<'b, A: Copy, B, F: Fn(&mut A, &B)> CellCall<A, &'b B> for WritingBeside<F> {
    ghost can_call = { λ c t. TakesToWriteBeside F.Fn c.0 t.0 t.1.now };

    ghost call_gives = { λ c t r d. MatchResult r (LeavesBeside F.Fn c.0 t.0 t.1.now) (λ _. ⊥) × (d ≡ c) };

    #[inline(always)]
    fn call(&mut self, cell: &A, item: &'b B) -> Result<A, AllocError> {
        let mut written = *cell;
        (self.0)(&mut written, item);
        Ok(written)
    }
}

/// A copy of the cell next to each.
#[derive(Drop)]
pub(super) struct Copies;

impl<'b, A: Copy> CellCall<A, &'b A> for Copies {
    ghost can_call = { λ _ _. ⊤ };

    ghost call_gives = { λ _ t r _. MatchResult r (λ a. a ≡ t.1.now) (λ _. ⊥) };

    #[inline(always)]
    fn call(&mut self, _cell: &A, item: &'b A) -> Result<A, AllocError> {
        Ok(*item)
    }
}
