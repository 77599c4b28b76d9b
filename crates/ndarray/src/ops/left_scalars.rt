//! Operations with a scalar on the left of an array, by a closure.

ghost use Rattle.std.specs.Prelude.{◌≡◌, IfOk, IsOk, length};
ghost use Rattle.ndarray.specs.Calls.{can_call_by_ref2, call_gives_by_ref2};
ghost use Rattle.ndarray.specs.Everyday.{mapped};
ghost use Rattle.ndarray.specs.Grid.{IsGrid};
ghost use Rattle.ndarray.specs.Index.{size};
ghost use Rattle.ndarray.specs.Orders.{box_in};
ghost use Rattle.ndarray.specs.Runs.{Collects, MayGather};
ghost use Rattle.ndarray.specs.Updates.{is_cell};
ghost use Rattle.ndarray.specs.declared.base.shape.Order.{Order};

use crate::base::array::{Array, ArrayBase};
use crate::base::dimension::Lengths;
use crate::base::storage::Data;
use crate::zip::closures::ItemCall;
use crate::zip::collecting::collect_in_either_order;
use std::alloc::{AllocError, Global};

/// The array whose cell at each index list is what `f` returns for the scalar and the cell of `array` there. It is for scalars on the left
/// whose type has no operator with an array on the right.
///
/// Requires that these calls may be made, in row order and in column order; they go through the index lists in one of the two. The error is
/// an allocation failure, before the first call of `f`, and is never reported if there are no cells.
///
/// ```
/// let array = Array::from_shape_vec((2, 1), vec![in alloc; 1i16, 3]?)?;
/// let made = scalar_left(alloc, 2i16, &array, |x, cell| 10 * x + cell)?; // [[21], [23]]
/// ```
pub fn scalar_left<X: Drop, A, R: Drop, S: Data<Elem = A>, D: Lengths, F: FnMut(&X, &A) -> R>(
    alloc: Global,
    scalar: X,
    array: &ArrayBase<S, D>,
    f: F,
) -> Result<Array<R, D>, AllocError>
    requires callable { (o : Order) → MayGather (is_cell array.now) (λ g cell r h. call_gives_by_ref2 F.FnMut g (scalar, cell) r h) (λ g cell. can_call_by_ref2 F.FnMut g (scalar, cell)) (box_in o array.now.lengths) f }
    ensures ran { IfOk result (λ r. (o : Order) × Collects (is_cell array.now) (λ g cell r h. call_gives_by_ref2 F.FnMut g (scalar, cell) r h) o array.now.lengths f r) }
    ensures follows { (h : A → R) → ((x : A) (r : R) (k : F) → call_gives_by_ref2 F.FnMut f (scalar, x) r k → (k ≡ f) × (r ≡ h x)) → IfOk result (λ r. r ≡ mapped h array.now) }
    ensures axes { IfOk result (λ r. D.has_axes (length r.lengths)) }
    ensures whole { IfOk result IsGrid }
    ensures empty { size array.now.lengths ≡ 0 → IsOk result }
{
    collect_in_either_order(alloc, array.view(), AtScalar { scalar, f })
}

/// A closure at a scalar and a cell, as a call at the cell.
#[derive(Drop)]
struct AtScalar<X, F> {
    scalar: X,
    f: F,
}

impl<'a, X: Drop, A, R, F: FnMut(&X, &A) -> R> ItemCall<&'a A> for AtScalar<X, F> {
    type Out = R;

    ghost can_call = { λ c x. can_call_by_ref2 F.FnMut c.f (c.scalar, x.now) };

    ghost call_gives = { λ c x r d. call_gives_by_ref2 F.FnMut c.f (c.scalar, x.now) r d.f × (d.scalar ≡ c.scalar) };

    fn call(&mut self, item: &'a A) -> R {
        (self.f)(&self.scalar, item)
    }
}
