//! Cells to write to that lie a step apart, one after another.

ghost use Rattle.std.specs.Prelude.{◌≡◌, ◌++◌, List, ℕ, All, IfOk, IfErr, filter_map};
ghost use Rattle.std.specs.Iterator.{YieldsFirstMut, item_count};
ghost use Rattle.ndarray.specs.base.Slots.{held_at};
ghost use Rattle.ndarray.specs.places.ElementPlaces.{AreDistinctPlaces};

use crate::base::region::{Life, RegionRepr};
use crate::places::place_rows::PlaceRow;
use std::marker::{Model, PhantomData};
use std::mem::replace;

/// The cells at some places that are still to come, each a step after the one before, to write to.
#[derive(Drop)]
pub struct StridedMut<'a, A> {
    region: RegionRepr<Life<'a>, A>,
    places: PlaceRow,
    // the lifetime of what it yields, so that `A: 'a` follows from the type
    lifetime: PhantomData<&'a mut A>,
}

impl<'a, A> Model for StridedMut<'a, A> {
    ghost use Rattle.std.specs.Prelude.{List, filter_map};
    ghost use Rattle.ndarray.specs.base.Slots.{held_at};
    ghost use Rattle.ndarray.specs.places.ElementPlaces.{AreDistinctPlaces};

    ghost Value = { List A };

    ghost view = { λ s. filter_map (held_at s.region.slots) s.places };

    ghost invariant = { λ s. AreDistinctPlaces (held_at s.region.slots) s.places };
}

impl<'a, A> StridedMut<'a, A> {
    /// The elements of a slice.
    #[inline(always)]
    pub(crate) fn over(slice: &'a mut [A]) -> Self
        ensures { result ≡ slice.old }
    {
        let left = slice.len();
        StridedMut {
            region: RegionRepr::of(slice),
            places: PlaceRow {
                place: 0,
                stride: 1,
                left,
            },
            lifetime: PhantomData,
        }
    }

    /// Takes the cells at these places out of a region.
    #[inline(always)]
    pub(crate) fn taken_from(region: &mut RegionRepr<Life<'a>, A>, places: PlaceRow) -> Self
        requires { AreDistinctPlaces (held_at region.old.slots) places }
        ensures value { result ≡ filter_map (held_at region.old.slots) places }
        ensures others { (rest : List ℕ) → AreDistinctPlaces (held_at region.old.slots) (places ++ rest) → AreDistinctPlaces (held_at region.new.slots) rest × All (λ p. held_at region.new.slots p ≡ held_at region.old.slots p) rest }
    {
        let whole = replace(region, RegionRepr::of(&mut []));
        let (here, others) = whole.split(&places);
        *region = others;
        StridedMut {
            region: here,
            places,
            lifetime: PhantomData,
        }
    }

    /// The cells as a slice, if they are known to lie side by side; else the cells as they are.
    #[inline(always)]
    pub(crate) fn side_by_side(self) -> Result<&'a mut [A], Self>
        ensures slice { IfOk result (λ s. s.now ≡ self.entry) }
        ensures back { IfErr result (λ cells. cells ≡ self.entry) }
    {
        let StridedMut {
            region,
            places,
            lifetime,
        } = self;
        match places.run_start() {
            Some(from) => Ok(region.into_slice(from, places.len())),
            None => Err(StridedMut {
                region,
                places,
                lifetime,
            }),
        }
    }
}

impl<'a, A> Iterator for StridedMut<'a, A> {
    type Item = &'a mut A;

    ghost next_gives = { YieldsFirstMut (λ rest. rest) };

    ghost remaining = { item_count (λ rest. rest) };

    #[inline(always)]
    fn next(&mut self) -> Option<&'a mut A> {
        let Some(place) = self.places.next() else {
            return None;
        };
        Some(self.region.take(place))
    }
}
