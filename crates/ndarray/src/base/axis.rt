//! Axes by their numbers.

/// An axis by its number: `Axis(0)` is the first.
#[derive(Clone, Copy, PartialEq, Eq, PartialOrd, Ord, Hash, Debug)]
pub struct Axis(pub usize);
