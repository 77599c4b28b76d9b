//! Views with an axis put in, under a type of dimensions that is named.

ghost use Rattle.std.specs.Prelude.{◌≡◌, ◌+◌, ◌≤◌, length, insert};
ghost use Rattle.ndarray.specs.Grid.{IsGrid};
ghost use Rattle.ndarray.specs.Views.{axis_inserted};

use crate::base::array::{ArrayBase, ArrayView};
use crate::base::dimension::Lengths;
use crate::base::layout::Layout;

impl<'a, A, D: Lengths> ArrayView<'a, A, D> {
    /// The view with an axis of length 1 put in, under a type of dimensions that has as many axes.
    pub(crate) fn with_axis<E: Lengths>(self, axis: usize, ndim: usize) -> ArrayView<'a, A, E>
        requires axis { axis ≤ length self.lengths }
        requires more { ndim ≡ length self.lengths + 1 }
        requires has { E.has_axes ndim }
        ensures value { result ≡ axis_inserted self.entry axis }
        ensures whole { IsGrid result }
    {
        let ArrayBase { storage, layout } = self;
        let Layout {
            start,
            dim,
            strides,
        } = layout;
        let lengths = with_one(&dim, axis, ndim);
        let steps = with_one(&strides, axis, ndim);
        let layout = Layout {
            start,
            dim: lengths,
            strides: steps,
        };
        ArrayBase { storage, layout }
    }
}

/// The numbers with a 1 put in at a place, which are then `many`.
fn with_one<D: Lengths, E: Lengths>(numbers: &D, place: usize, many: usize) -> E
    requires place { place ≤ length (D.numbers numbers.now) }
    requires more { many ≡ length (D.numbers numbers.now) + 1 }
    requires has { E.has_axes many }
    ensures { E.numbers result ≡ insert (D.numbers numbers.now) place 1 }
{
    let ndim = numbers.ndim();
    let mut more = E::zeros(many);
    for k in 0..place {
        more.set_axis(k, numbers.axis(k));
    }
    more.set_axis(place, 1);
    for k in place..ndim {
        more.set_axis(k + 1, numbers.axis(k));
    }
    more
}
