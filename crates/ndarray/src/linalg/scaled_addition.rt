//! Adding a multiple of an array to another, and a test whether the results are in range.

ghost use Rattle.std.specs.Prelude.{◌≡◌, ◌↔◌, ⊤, IsTrue, MatchResult};
ghost use Rattle.ndarray.specs.Elementwise.{Assigns, CanAssign};
ghost use Rattle.ndarray.specs.Products.{AddsProduct, CanAddProduct};
ghost use Rattle.ndarray.specs.WholeValues.{whole_numbers};

use crate::base::array::{ArrayBase, ArrayView};
use crate::base::dimension::Lengths;
use crate::base::storage::{Data, DataMut};
use crate::elements::sums::add_product;
use crate::elements::{IntegerElem, IntegerScalar, LinalgScalar};
use crate::zip::all_items::all_in_either_order;
use crate::zip::closures::ItemCall;
use crate::zip::pair::Pair;
use crate::zip::producer::IntoBroadcast;
use crate::zip::repeated::try_update_beside;
use crate::zip::updating::CellCall;
use std::alloc::AllocError;

impl<A: LinalgScalar, S: DataMut<Elem = A>, D: Lengths> ArrayBase<S, D> {
    /// Adds to each cell `alpha` times the cell of another array at the same index list, with the other array broadcast to the shape of
    /// this one.
    ///
    /// Requires that `rhs` broadcasts to this shape, which `rhs.broadcast(self.raw_dim())` tests, and that each product and each sum is in
    /// range; for integers check both with [`scaled_add_fits`](Self::scaled_add_fits). It allocates nothing.
    ///
    /// ```
    /// // array = [[1, 2], [3, 4]], row = [1, 2]
    /// array.scaled_add(10, &row);
    /// // array = [[11, 22], [13, 24]]
    /// ```
    pub fn scaled_add<S2: Data<Elem = A>, E: Lengths>(&mut self, alpha: A, rhs: &ArrayBase<S2, E>)
        requires { CanAssign (CanAddProduct A.Valued alpha) self.old rhs.now }
        ensures { Assigns (AddsProduct A.Valued alpha) self.old rhs.now self.new }
    {
        let rhs: ArrayView<'_, A, D> = rhs.view().into_broadcast(self.raw_dim());
        match try_update_beside(self, rhs, ScaledAddition { alpha }) {
            Ok(()) => {}
            Err(_) => unreachable!(),
        }
    }
}

/// A cell plus `alpha` times the item next to it, as a call.
#[derive(Drop)]
struct ScaledAddition<A> {
    alpha: A,
}

impl<'b, A: LinalgScalar> CellCall<A, &'b A> for ScaledAddition<A> {
    ghost can_call = { λ c t. CanAddProduct A.Valued c.alpha t.0 t.1.now };

    ghost call_gives = { λ c t r d. MatchResult r (AddsProduct A.Valued c.alpha t.0 t.1.now) (λ _. ⊥) × (d ≡ c) };

    fn call(&mut self, cell: &A, item: &'b A) -> Result<A, AllocError> {
        Ok(add_product(*cell, self.alpha, *item))
    }
}

impl<A: IntegerScalar, S: Data<Elem = A>, D: Lengths> ArrayBase<S, D> {
    /// Whether `self.scaled_add(alpha, &rhs)` may be called: `rhs` broadcasts to the shape of this array, and at each index list `alpha`
    /// times the cell of `rhs`, and the sum of that and this array's cell, are in the type's range.
    ///
    /// Requires nothing, and the test allocates nothing.
    ///
    /// ```
    /// if table.scaled_add_fits(-2, &row) {
    ///     table.scaled_add(-2, &row);
    /// }
    /// ```
    pub fn scaled_add_fits<S2: Data<Elem = A>, E: Lengths>(
        &self,
        alpha: A,
        rhs: &ArrayBase<S2, E>,
    ) -> bool
        ensures exact { IsTrue result ↔ CanAssign (CanAddProduct (whole_numbers A.value A.fits) alpha) self.now rhs.now }
        ensures defined { IsTrue result → CanAssign (CanAddProduct A.Valued alpha) self.now rhs.now }
    {
        scaled_sums_fit(alpha, &self.view(), &rhs.view())
    }
}

/// The same for views.
fn scaled_sums_fit<A: IntegerElem, D: Lengths, E: Lengths>(
    alpha: A,
    left: &ArrayView<'_, A, D>,
    right: &ArrayView<'_, A, E>,
) -> bool
    ensures { IsTrue result ↔ CanAssign (CanAddProduct (whole_numbers A.value A.fits) alpha) left.now right.now }
{
    let Some(right) = right.broadcast_to(left.raw_dim()) else {
        return false;
    };
    let cells = Pair {
        first: left.view(),
        second: right,
    };
    all_in_either_order(cells, ScaledSumTest { alpha })
}

/// Whether the type has `alpha` times an item, and a cell plus that, as a call.
#[derive(Drop)]
struct ScaledSumTest<A> {
    alpha: A,
}

impl<'a, 'b, A: IntegerElem> ItemCall<(&'a A, &'b A)> for ScaledSumTest<A> {
    type Out = bool;

    ghost can_call = { λ _ _. ⊤ };

    ghost call_gives = { λ c t r d. (IsTrue r ↔ CanAddProduct (whole_numbers A.value A.fits) c.alpha t.0.now t.1.now) × (d ≡ c) };

    fn call(&mut self, item: (&'a A, &'b A)) -> bool {
        let (cell, other) = item;
        let Some(product) = self.alpha.checked_mul(other) else {
            return false;
        };
        cell.checked_add(&product).is_some()
    }
}
