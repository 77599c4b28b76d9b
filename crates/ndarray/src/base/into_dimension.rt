//! What may be written for a dimension.

ghost use Rattle.std.specs.Prelude.{◌≡◌, List, ℕ, [], ◌∷◌};

use crate::base::dimension::{Dim, Dimension, Ix0, Ix1, Ix2, Ix3, Ix4, Ix5, Ix6, Lengths};

/// What may be written for a dimension: a `usize` for one axis, tuples and arrays of `usize`, and a
/// dimension itself.
pub trait IntoDimension {
    /// The dimension.
    type Dim: Dimension;

    // The numbers, that of axis 0 first.
    ghost written_numbers: { Self → List ℕ };

    /// The dimension of these numbers.
    ///
    /// ```
    /// assert_eq!((2, 3).into_dimension(), Ix2(2, 3));
    /// ```
    fn into_dimension(self) -> Self::Dim
        ensures { Self.Dim.numbers result ≡ written_numbers self };
}

impl<D: Dimension> IntoDimension for D {
    type Dim = D;

    ghost written_numbers = { λ d. D.numbers d };

    fn into_dimension(self) -> D {
        self
    }
}

impl<const N: usize> IntoDimension for [usize; N]
where
    Dim<[usize; N]>: Dimension,
{
    type Dim = Dim<[usize; N]>;

    ghost written_numbers = { λ ns. ns };

    fn into_dimension(self) -> Dim<[usize; N]> {
        Dim(self)
    }
}

impl IntoDimension for usize {
    type Dim = Ix1;

    ghost written_numbers = { λ n. n ∷ [] };

    fn into_dimension(self) -> Ix1 {
        Dim([self])
    }
}

impl IntoDimension for () {
    type Dim = Ix0;

    ghost written_numbers = { λ _. [] };

    fn into_dimension(self) -> Ix0 {
        Dim([])
    }
}

impl IntoDimension for (usize,) {
    type Dim = Ix1;

    ghost written_numbers = { λ p. p.0 ∷ [] };

    fn into_dimension(self) -> Ix1 {
        Dim([self.0])
    }
}

impl IntoDimension for (usize, usize) {
    type Dim = Ix2;

    ghost written_numbers = { λ p. p.0 ∷ p.1 ∷ [] };

    fn into_dimension(self) -> Ix2 {
        Dim([self.0, self.1])
    }
}

impl IntoDimension for (usize, usize, usize) {
    type Dim = Ix3;

    ghost written_numbers = { λ p. p.0 ∷ p.1 ∷ p.2 ∷ [] };

    fn into_dimension(self) -> Ix3 {
        Dim([self.0, self.1, self.2])
    }
}

impl IntoDimension for (usize, usize, usize, usize) {
    type Dim = Ix4;

    ghost written_numbers = { λ p. p.0 ∷ p.1 ∷ p.2 ∷ p.3 ∷ [] };

    fn into_dimension(self) -> Ix4 {
        Dim([self.0, self.1, self.2, self.3])
    }
}

impl IntoDimension for (usize, usize, usize, usize, usize) {
    type Dim = Ix5;

    ghost written_numbers = { λ p. p.0 ∷ p.1 ∷ p.2 ∷ p.3 ∷ p.4 ∷ [] };

    fn into_dimension(self) -> Ix5 {
        Dim([self.0, self.1, self.2, self.3, self.4])
    }
}

impl IntoDimension for (usize, usize, usize, usize, usize, usize) {
    type Dim = Ix6;

    ghost written_numbers = { λ p. p.0 ∷ p.1 ∷ p.2 ∷ p.3 ∷ p.4 ∷ p.5 ∷ [] };

    fn into_dimension(self) -> Ix6 {
        Dim([self.0, self.1, self.2, self.3, self.4, self.5])
    }
}
