//! Joining one more producer to a `Zip`.

ghost use Rattle.std.specs.Prelude.{◌≡◌};
ghost use Rattle.ndarray.specs.Broadcast.{BroadcastsTo};

use crate::base::dimension::Lengths;
use crate::zip::pair::Pair;
use crate::zip::producer::{IntoBroadcast, IntoNdProducer, NdProducer};
use crate::zip::{Parts, Zip};

/// A number of producers, as a type, to which one more may be joined: `One` to `Five`.
pub trait JoinOne {
    /// The number with one more.
    type Next;
}

/// One producer.
pub struct One;

/// Two producers.
pub struct Two;

/// Three producers.
pub struct Three;

/// Four producers.
pub struct Four;

/// Five producers.
pub struct Five;

/// Six producers, to which no more can be joined.
pub struct Six;

impl JoinOne for One {
    type Next = Two;
}

impl JoinOne for Two {
    type Next = Three;
}

impl JoinOne for Three {
    type Next = Four;
}

impl JoinOne for Four {
    type Next = Five;
}

impl JoinOne for Five {
    type Next = Six;
}

impl<N: NdProducer<Dim = D>, D: Lengths, K: JoinOne> Zip<Parts<N, K>, D> {
    /// Joins one more producer, or the cells of an array by reference. Requires that it has the same lengths; check with `fits`.
    ///
    /// ```
    /// Zip::from(&a).and(&b).and(&c).all(|x, y, z| x + y == *z);
    /// ```
    pub fn and<J: IntoNdProducer<Dim = D>>(
        self,
        part: J,
    ) -> Zip<Parts<Pair<N, J::Output>, K::Next>, D>
        requires { (r : J.Output) → J.converts_to part r → N.lengths self.nested ≡ J.Output.lengths r }
        ensures before { result.nested.first ≡ self.nested }
        ensures last { J.converts_to part result.nested.second }
    {
        let first = self.parts.nested;
        let second = part.into_producer();
        Zip::of(Pair { first, second })
    }

    /// Joins the cells of an array, broadcast to the lengths. Requires that it broadcasts to them; check with `broadcasts`.
    ///
    /// ```
    /// Zip::from(&table).and_broadcast(&row).all(|x, y| x <= y);
    /// ```
    pub fn and_broadcast<J: IntoBroadcast<D>>(
        self,
        part: J,
    ) -> Zip<Parts<Pair<N, J::Output>, K::Next>, D>
    where
        J::Output: NdProducer<Dim = D>,
        requires { BroadcastsTo (J.own_lengths part) (N.lengths self.nested) }
        ensures before { result.nested.first ≡ self.nested }
        ensures last { J.broadcasts_as part (N.lengths self.nested) result.nested.second }
    {
        let first = self.parts.nested;
        let second = part.into_broadcast(first.raw_dim());
        Zip::of(Pair { first, second })
    }
}
