//! Calls on up to six producers in lock step.

ghost use Rattle.std.specs.Prelude.{◌≡◌, ◌↔◌, ℕ, List, Some, IsTrue};
ghost use Rattle.ndarray.specs.Broadcast.{BroadcastsTo};
ghost use Rattle.ndarray.specs.Grid.{array_by, cell};
ghost use Rattle.ndarray.specs.Index.{InBox, size};

pub(crate) mod all_items;
mod arities;
mod assigning;
mod azip;
pub(crate) mod closures;
pub(crate) mod collecting;
pub mod fold_while;
mod index_lists;
mod layout_places;
pub mod pair;
mod part_counts;
pub mod producer;
pub(crate) mod repeated;
pub mod row_items;
mod subviews;
mod turns;
pub(crate) mod units;
pub(crate) mod updating;
mod views;
mod views_mut;
mod walk;

use crate::base::array::ArrayView;
use crate::base::dimension::{Dimension, Lengths};
use crate::base::index_lists::Indices;
pub use crate::zip::fold_while::FoldWhile;
use crate::zip::pair::Pair;
pub use crate::zip::part_counts::{Five, Four, JoinOne, One, Six, Three, Two};
pub use crate::zip::producer::{IntoBroadcast, IntoNdProducer, KeepsLengths, NdProducer, Shaped};
pub use crate::zip::row_items::{RowItems, Run};
use std::alloc::AllocError;
use std::marker::{Model, PhantomData};

/// Producers of the same lengths as one producer of nested pairs of their items, and their number as a type: [`One`] to [`Six`].
#[derive(Drop)]
pub struct Parts<N, K> {
    /// The producer of nested pairs.
    pub nested: N,
    number: PhantomData<K>,
}

/// One to six producers of the same lengths, whose items at each index list are passed to a closure together.
///
/// ```
/// // the sum of the products of two tables' cells, whatever their memory layouts
/// Zip::from(&a).and(&b).fold(0, |sum, x, y| sum + x * y);
/// ```
///
/// Producers are references to arrays, views (a view to write in yields `&mut` cells), [`AxisIter`](crate::subviews::AxisIter) and the
/// other types of subviews but `AxisChunksIter`, and [`indices`](crate::indices). At each index list the closure gets one item of each.
///
/// # Joining
///
/// - [`from`](Self::from): the first producer. [`indexed`](Self::indexed): the index lists, as patterns, and a producer.
/// - [`and`](Self::and): one more of the same lengths; [`fits`](Self::fits) tests that.
/// - [`and_broadcast`](Self::and_broadcast): an array that is broadcast to the lengths; [`broadcasts`](Self::broadcasts) tests that.
/// - [`size`](Self::size): how many index lists there are.
///
/// # Calls
///
/// - [`for_each`](Self::for_each), [`fold`](Self::fold), [`fold_while`](Self::fold_while), [`all`](Self::all), [`any`](Self::any): calls
///   for all index lists, or up to the first that decides.
/// - [`map_collect`](Self::map_collect): an array of results. [`map_assign_into`](Self::map_assign_into): results written to the cells of
///   an array.
///
/// The calls go through the index lists in row order or in column order, whichever suits the memory layouts. A contract says that it is one
/// of the two, so a closure whose effect depends on the order has two possible results; the lemmas of `docs/CALLING.md` are for closures
/// for which both are equal. Each call requires that the closure may be called so in both orders. Only `map_collect` allocates, and only
/// the array that it returns.
#[derive(Drop)]
pub struct Zip<P, D> {
    pub(crate) parts: P,
    pub(crate) dimension: PhantomData<D>,
}

impl<P, D> Model for Zip<P, D> {
    ghost Value = { P };

    ghost view = { λ s. s.parts };
}

impl<N, D, K> Zip<Parts<N, K>, D> {
    /// The producers as one.
    fn of(nested: N) -> Self
        ensures { result.nested ≡ nested }
    {
        Zip {
            parts: Parts {
                nested,
                number: PhantomData,
            },
            dimension: PhantomData,
        }
    }
}

impl<N: Clone, D, K> Clone for Zip<Parts<N, K>, D> {
    ghost is_clone = { λ s r. N.is_clone s.nested r.nested };

    ghost is_infallible = { λ s. N.is_infallible s.nested };

    fn clone(&self) -> Result<Zip<Parts<N, K>, D>, AllocError> {
        Ok(Zip::of(self.parts.nested.clone()?))
    }
}

impl Zip<(), ()> {
    /// A `Zip` of one producer, or of the cells of an array by reference.
    ///
    /// ```
    /// Zip::from(a.rows()).for_each(|row| { .. });
    /// ```
    pub fn from<I: IntoNdProducer>(part: I) -> Zip<Parts<I::Output, One>, I::Dim>
        ensures { I.converts_to part result.nested }
    {
        Zip::of(part.into_producer())
    }

    /// A `Zip` of the index lists and a producer, or the cells of an array by reference: the closure gets an index list, as a pattern, and
    /// the producer's item there.
    ///
    /// ```
    /// // 10 * i + j at (i, j)
    /// Zip::indexed(&a).map_collect(alloc, |(i, j), _x| 10 * i + j)?
    /// ```
    pub fn indexed<I: IntoNdProducer>(
        part: I,
    ) -> Zip<Parts<Pair<Indices<I::Dim>, I::Output>, Two>, I::Dim>
    where
        I::Dim: Dimension,
        ensures part { I.converts_to part result.nested.second }
        ensures lists { result.nested.first ≡ array_by (I.Output.lengths result.nested.second) (λ is. is) }
        ensures lengths { result.nested.first.lengths ≡ I.Output.lengths result.nested.second }
        ensures patterns { (is : List ℕ) (x : I.Dim.Pattern) → cell result.nested.first is ≡ Some (I.Dim.pattern_numbers x) → I.Dim.pattern_numbers x ≡ is }
        ensures items { (is : List ℕ) → InBox (I.Output.lengths result.nested.second) is → (x : I.Dim.Pattern) → (cell result.nested.first is ≡ Some (I.Dim.pattern_numbers x)) ↔ (I.Dim.pattern_numbers x ≡ is) }
    {
        let second = part.into_producer();
        let first = Indices::of(second.raw_dim());
        Zip::of(Pair { first, second })
    }
}

impl<N: NdProducer<Dim = D>, D: Lengths, K> Zip<Parts<N, K>, D> {
    /// The number of index lists, which is the number of items of each producer.
    ///
    /// ```
    /// let a = ArrayView::from_shape((2, 3), &[1, 2, 3, 4, 5, 6])?;
    /// assert_eq!(Zip::from(&a).size(), 6);
    /// ```
    pub fn size(&self) -> usize
        ensures { result ≡ size (N.lengths self.now.nested) }
    {
        self.parts.nested.raw_dim().size()
    }

    /// Whether a producer has the same lengths as those of this `Zip`, so that `and` may be called with it.
    ///
    /// ```
    /// let zip = Zip::from(&a);
    /// if zip.fits(&b.view()) {
    ///     let products = zip.and(&b).map_collect(alloc, |x, y| x * y)?;
    /// }
    /// ```
    pub fn fits<Q: NdProducer<Dim = D>>(&self, part: &Q) -> bool
        ensures { IsTrue result ↔ (Q.lengths part.now ≡ N.lengths self.now.nested) }
    {
        self.parts.nested.raw_dim().slice() == part.raw_dim().slice()
    }

    /// Whether an array broadcasts to the lengths of this `Zip`, so that `and_broadcast` may be called with it.
    ///
    /// ```
    /// let zip = Zip::from(&table);
    /// if zip.broadcasts(&row.view()) {
    ///     let products = zip.and_broadcast(&row).map_collect(alloc, |x, y| x * y)?;
    /// }
    /// ```
    pub fn broadcasts<A, E: Lengths>(&self, part: &ArrayView<'_, A, E>) -> bool
        ensures { IsTrue result ↔ BroadcastsTo part.now.lengths (N.lengths self.now.nested) }
    {
        part.broadcast_to(self.parts.nested.raw_dim()).is_some()
    }
}
