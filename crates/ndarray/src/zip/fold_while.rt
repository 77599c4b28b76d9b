//! The results of a fold that may end early.

ghost use Rattle.std.specs.Prelude.{◌≡◌, ◌↔◌, IsTrue, ⊤};
ghost use Rattle.ndarray.specs.FoldWhiles.{IsDone, value_in};

/// What the closure of `fold_while` returns: whether to go on, and the total.
#[derive(Debug, Clone, Copy)]
pub enum FoldWhile<T> {
    /// Go on with this total.
    Continue(T),
    /// End with this total.
    Done(T),
}

impl<T> FoldWhile<T> {
    /// The total in it.
    ///
    /// ```
    /// assert_eq!(FoldWhile::Done(3).into_inner(), 3);
    /// ```
    pub fn into_inner(self) -> T
        ensures { result ≡ value_in self }
    {
        match self {
            FoldWhile::Continue(x) => x,
            FoldWhile::Done(x) => x,
        }
    }

    /// Whether it is `Done`.
    ///
    /// ```
    /// assert!(!FoldWhile::Continue(3).is_done());
    /// ```
    pub fn is_done(&self) -> bool
        ensures { IsTrue result ↔ IsDone self.now }
    {
        match self {
            FoldWhile::Continue(_) => false,
            FoldWhile::Done(_) => true,
        }
    }
}
