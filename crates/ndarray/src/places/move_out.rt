//! The elements of a `Vec` that are moved out along a way, and the others dropped at its end.
ghost use Rattle.std.specs.Prelude.{◌≡◌, ◌<◌, ◌⊎◌, ◌↔◌, ℕ, List, length, filter_map, slice_get, All, Contains, Some, IfSome, IsTrue};
ghost use Rattle.std.specs.Iterator.{YieldsFirst};

use crate::places::partly_moved::PartlyMovedVec;
use std::marker::Model;

/// Places that are passed one by one, each at most once.
pub trait PlaceSequence: Drop {
    // The places that are still to come, in their order.
    ghost to_come: { Self → List ℕ };

    // Whether the place was passed.
    ghost passed: { Self → ℕ → Type 0 };

    /// Passes the next place.
    fn next_place(&mut self) -> Option<usize>
        ensures rest { YieldsFirst to_come self.old result self.new }
        ensures once { IfSome result (λ p. Contains (to_come self.new) p → ⊥) }
        ensures passed { (p : ℕ) → passed self.new p ↔ (passed self.old p ⊎ (result ≡ Some p)) };

    /// How many places are still to come.
    fn len(&self) -> usize
        ensures { result ≡ length (to_come self.now) };

    /// Whether a place was passed. One that the way never reaches was not.
    fn has_passed(&self, place: usize) -> bool
        ensures { IsTrue result ↔ passed self.now place };
}

/// A clause sees it as the elements that are still to come. It allocates nothing and has no mark of what was moved out:
/// the sequence of places knows. Its end drops each element that was not moved out, also those that the way never
/// reaches.
pub struct MoveOut<A, W: PlaceSequence> {
    left: PartlyMovedVec<A>,
    way: W,
}

impl<A, W: PlaceSequence> Model for MoveOut<A, W> {
    ghost use Rattle.std.specs.Prelude.{List};
    ghost use Rattle.ndarray.specs.places.Moving.{found, HoldsAllButPassed};

    ghost Value = { List A };

    ghost view = { λ m. found m.left (W.to_come m.way) };

    ghost invariant = { λ m. HoldsAllButPassed (W.passed m.way) (W.to_come m.way) m.left };
}

impl<A, W: PlaceSequence> MoveOut<A, W> {
    /// The elements at the places of a way that has not begun.
    pub fn new(vec: Vec<A>, way: W) -> Self
        requires within { All (λ p. p < length vec.items) (W.to_come way) }
        requires begins { (p : ℕ) → W.passed way p → ⊥ }
        ensures { result ≡ filter_map (slice_get vec.items) (W.to_come way) }
    {
        MoveOut {
            left: PartlyMovedVec::of(vec),
            way,
        }
    }

    /// How many elements are still to come.
    pub fn len(&self) -> usize
        ensures { result ≡ length self.now }
    {
        self.way.len()
    }

    /// Moves the next element out.
    #[inline(always)]
    pub fn next(&mut self) -> Option<A>
        ensures { YieldsFirst (λ rest. rest) self.old result self.new }
    {
        let Some(place) = self.way.next_place() else {
            return None;
        };
        Some(self.left.take(place))
    }
}

impl<A: Drop, W: PlaceSequence> Drop for MoveOut<A, W> {
    fn drop(self) {
        let MoveOut { mut left, way } = self;
        for place in 0..left.len() {
            if !way.has_passed(place) {
                drop(left.take(place));
            }
        }
        left.close();
    }
}
