//! How a closure of one to six items is called at an item of nested pairs. In contracts what wraps it is the closure
//! itself, so that what is known of one is known of the other.

ghost use Rattle.ndarray.specs.Calls.{can_call1, call_gives1, can_call_fold1, call_gives_fold1, can_call2, call_gives2, can_call_fold2, call_gives_fold2, can_call3, call_gives3, can_call_fold3, call_gives_fold3, can_call4, call_gives4, can_call_fold4, call_gives_fold4, can_call5, call_gives5, can_call_fold5, call_gives_fold5, can_call6, call_gives6, can_call_fold6, call_gives_fold6};

use std::marker::Model;

/// What can be called at an item.
pub(crate) trait ItemCall<A>: Drop {
    /// What it returns.
    type Out;

    // Whether it may be called.
    ghost can_call: { Self → A → Type 0 };

    // Whether a call may give this answer and leave it so.
    ghost call_gives: { Self → A → Self.Out → Self → Type 0 };

    /// Calls it.
    fn call(&mut self, item: A) -> Self::Out
        requires { can_call self.old item }
        ensures { call_gives self.old item result self.new };
}

/// What can be called at a total and an item.
pub(crate) trait FoldCall<B, A>: Drop {
    /// What it returns.
    type Out;

    // Whether it may be called.
    ghost can_call: { Self → B → A → Type 0 };

    // Whether a call may give this answer and leave it so.
    ghost call_gives: { Self → B → A → Self.Out → Self → Type 0 };

    /// Calls it.
    fn call(&mut self, total: B, item: A) -> Self::Out
        requires { can_call self.old total item }
        ensures { call_gives self.old total item result self.new };
}

/// A closure of one item.
#[derive(Drop)]
pub(crate) struct On1<F>(pub(crate) F);

impl<F> Model for On1<F> {
    ghost Value = { F };

    ghost view = { λ s. s.0 };
}

impl<X, O, F: FnMut(X) -> O> ItemCall<X> for On1<F> {
    type Out = O;

    ghost can_call = { can_call1 F.FnMut };

    ghost call_gives = { call_gives1 F.FnMut };

    fn call(&mut self, item: X) -> O {
        (self.0)(item)
    }
}

impl<B, X, O, F: FnMut(B, X) -> O> FoldCall<B, X> for On1<F> {
    type Out = O;

    ghost can_call = { can_call_fold1 F.FnMut };

    ghost call_gives = { call_gives_fold1 F.FnMut };

    fn call(&mut self, total: B, item: X) -> O {
        (self.0)(total, item)
    }
}

/// A closure of two items.
#[derive(Drop)]
pub(crate) struct On2<F>(pub(crate) F);

impl<F> Model for On2<F> {
    ghost Value = { F };

    ghost view = { λ s. s.0 };
}

impl<X, Y, O, F: FnMut(X, Y) -> O> ItemCall<(X, Y)> for On2<F> {
    type Out = O;

    ghost can_call = { can_call2 F.FnMut };

    ghost call_gives = { call_gives2 F.FnMut };

    fn call(&mut self, item: (X, Y)) -> O {
        let (x, y) = item;
        (self.0)(x, y)
    }
}

impl<B, X, Y, O, F: FnMut(B, X, Y) -> O> FoldCall<B, (X, Y)> for On2<F> {
    type Out = O;

    ghost can_call = { can_call_fold2 F.FnMut };

    ghost call_gives = { call_gives_fold2 F.FnMut };

    fn call(&mut self, total: B, item: (X, Y)) -> O {
        let (x, y) = item;
        (self.0)(total, x, y)
    }
}

/// A closure of three items.
#[derive(Drop)]
pub(crate) struct On3<F>(pub(crate) F);

impl<F> Model for On3<F> {
    ghost Value = { F };

    ghost view = { λ s. s.0 };
}

impl<X, Y, Z, O, F: FnMut(X, Y, Z) -> O> ItemCall<((X, Y), Z)> for On3<F> {
    type Out = O;

    ghost can_call = { can_call3 F.FnMut };

    ghost call_gives = { call_gives3 F.FnMut };

    fn call(&mut self, item: ((X, Y), Z)) -> O {
        let ((x, y), z) = item;
        (self.0)(x, y, z)
    }
}

impl<B, X, Y, Z, O, F: FnMut(B, X, Y, Z) -> O> FoldCall<B, ((X, Y), Z)> for On3<F> {
    type Out = O;

    ghost can_call = { can_call_fold3 F.FnMut };

    ghost call_gives = { call_gives_fold3 F.FnMut };

    fn call(&mut self, total: B, item: ((X, Y), Z)) -> O {
        let ((x, y), z) = item;
        (self.0)(total, x, y, z)
    }
}

/// A closure of four items.
#[derive(Drop)]
pub(crate) struct On4<F>(pub(crate) F);

impl<F> Model for On4<F> {
    ghost Value = { F };

    ghost view = { λ s. s.0 };
}

impl<X, Y, Z, U, O, F: FnMut(X, Y, Z, U) -> O> ItemCall<(((X, Y), Z), U)> for On4<F> {
    type Out = O;

    ghost can_call = { can_call4 F.FnMut };

    ghost call_gives = { call_gives4 F.FnMut };

    fn call(&mut self, item: (((X, Y), Z), U)) -> O {
        let (((x, y), z), u) = item;
        (self.0)(x, y, z, u)
    }
}

impl<B, X, Y, Z, U, O, F: FnMut(B, X, Y, Z, U) -> O> FoldCall<B, (((X, Y), Z), U)> for On4<F> {
    type Out = O;

    ghost can_call = { can_call_fold4 F.FnMut };

    ghost call_gives = { call_gives_fold4 F.FnMut };

    fn call(&mut self, total: B, item: (((X, Y), Z), U)) -> O {
        let (((x, y), z), u) = item;
        (self.0)(total, x, y, z, u)
    }
}

/// A closure of five items.
#[derive(Drop)]
pub(crate) struct On5<F>(pub(crate) F);

impl<F> Model for On5<F> {
    ghost Value = { F };

    ghost view = { λ s. s.0 };
}

impl<X, Y, Z, U, V, O, F: FnMut(X, Y, Z, U, V) -> O> ItemCall<((((X, Y), Z), U), V)> for On5<F> {
    type Out = O;

    ghost can_call = { can_call5 F.FnMut };

    ghost call_gives = { call_gives5 F.FnMut };

    fn call(&mut self, item: ((((X, Y), Z), U), V)) -> O {
        let ((((x, y), z), u), v) = item;
        (self.0)(x, y, z, u, v)
    }
}

impl<B, X, Y, Z, U, V, O, F: FnMut(B, X, Y, Z, U, V) -> O> FoldCall<B, ((((X, Y), Z), U), V)>
    for On5<F> {
    type Out = O;

    ghost can_call = { can_call_fold5 F.FnMut };

    ghost call_gives = { call_gives_fold5 F.FnMut };

    fn call(&mut self, total: B, item: ((((X, Y), Z), U), V)) -> O {
        let ((((x, y), z), u), v) = item;
        (self.0)(total, x, y, z, u, v)
    }
}

/// A closure of six items.
#[derive(Drop)]
pub(crate) struct On6<F>(pub(crate) F);

impl<F> Model for On6<F> {
    ghost Value = { F };

    ghost view = { λ s. s.0 };
}

impl<X, Y, Z, U, V, W, O, F: FnMut(X, Y, Z, U, V, W) -> O> ItemCall<(((((X, Y), Z), U), V), W)>
    for On6<F> {
    type Out = O;

    ghost can_call = { can_call6 F.FnMut };

    ghost call_gives = { call_gives6 F.FnMut };

    fn call(&mut self, item: (((((X, Y), Z), U), V), W)) -> O {
        let (((((x, y), z), u), v), w) = item;
        (self.0)(x, y, z, u, v, w)
    }
}

impl<B, X, Y, Z, U, V, W, O, F: FnMut(B, X, Y, Z, U, V, W) -> O> FoldCall<
    B,
    (((((X, Y), Z), U), V), W),
> for On6<F> {
    type Out = O;

    ghost can_call = { can_call_fold6 F.FnMut };

    ghost call_gives = { call_gives_fold6 F.FnMut };

    fn call(&mut self, total: B, item: (((((X, Y), Z), U), V), W)) -> O {
        let (((((x, y), z), u), v), w) = item;
        (self.0)(total, x, y, z, u, v, w)
    }
}
