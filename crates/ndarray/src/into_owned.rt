//! Owned arrays made of arrays and views of any storage.

ghost use Rattle.std.specs.Prelude.{◌≡◌, ◌⊎◌, IfOk, IsOk, length, ⊤};
ghost use Rattle.std.specs.List.{AllZip};
ghost use Rattle.ndarray.specs.Grid.{IsGrid};
ghost use Rattle.ndarray.specs.Index.{size};
ghost use Rattle.ndarray.specs.base.Clones.{MakesClones};

use crate::base::array::{Array, ArrayBase, ArrayView};
use crate::base::dimension::Lengths;
use crate::base::shape::Order;
use crate::base::storage::Data;
use crate::zip::closures::ItemCall;
use crate::zip::collecting::try_collect_items;
use std::alloc::{AllocError, Global};

impl<A: Clone, S: Data<Elem = A>, D: Lengths> ArrayBase<S, D> {
    /// An owned array with the same lengths, whose cells are clones of this one's.
    ///
    /// The error is an allocation failure, for the array or for a clone, and is never reported if there are no cells.
    ///
    /// ```
    /// let a = ArrayView::from_shape((2, 3), &[1, 2, 3, 4, 5, 6])?;
    /// a.t().to_owned(alloc)?; // an owned array, [[1, 4], [2, 5], [3, 6]]
    /// ```
    pub fn to_owned(&self, alloc: Global) -> Result<Array<A, D>, AllocError>
        ensures lengths { IfOk result (λ a. a.lengths ≡ self.now.lengths) }
        ensures axes { IfOk result (λ a. D.has_axes (length a.lengths)) }
        ensures cells { IfOk result (λ a. AllZip A.is_clone self.now.cells a.cells) }
        ensures whole { IfOk result IsGrid }
        ensures same { IfOk result (λ a. ((x y : A) → A.is_clone x y → y ≡ x) → a ≡ self.now) }
        ensures empty { size self.now.lengths ≡ 0 → IsOk result }
    {
        clone_of(alloc, &self.view())
    }

    /// An owned array with the same lengths and cells: this one if it owns its cells, else one with clones of them. Contracts do not see
    /// whether a `CowArray` owns its cells, so for one the contract says only that the cells are the same or clones.
    ///
    /// The error is an allocation failure, for the array or for a clone, and is never reported if the array is an `Array` or has no cells.
    /// It drops this array.
    ///
    /// ```
    /// let a = ArrayView::from_shape((2, 3), &[1, 2, 3, 4, 5, 6])?;
    /// let table = CowArray::from(a).into_owned(alloc)?; // clones, since it was a view
    /// ```
    pub fn into_owned(self, alloc: Global) -> Result<Array<A, D>, AllocError>
        ensures owned { ((s : S) → S.owns s) → IsOk result × IfOk result (λ a. a ≡ self) }
        ensures lengths { IfOk result (λ a. a.lengths ≡ self.lengths) }
        ensures axes { IfOk result (λ a. D.has_axes (length a.lengths)) }
        ensures cells { IfOk result (λ a. (a ≡ self) ⊎ AllZip A.is_clone self.cells a.cells) }
        ensures whole { IfOk result IsGrid }
        ensures same { IfOk result (λ a. ((x y : A) → A.is_clone x y → y ≡ x) → a ≡ self) }
        ensures empty { size self.lengths ≡ 0 → IsOk result }
    {
        let _axes = self.ndim();
        let ArrayBase { storage, layout } = self;
        match storage.try_into_owned() {
            Ok(storage) => Ok(ArrayBase { storage, layout }),
            Err(storage) => ArrayBase { storage, layout }.to_owned(alloc),
        }
    }
}

/// An array of the same lengths whose cells are clones of a view's.
fn clone_of<A: Clone, D: Lengths>(
    alloc: Global,
    array: &ArrayView<'_, A, D>,
) -> Result<Array<A, D>, AllocError>
    ensures { MakesClones D.has_axes A.is_clone array.now result }
{
    try_collect_items(alloc, array.view(), order_in_memory(array), Clones)
}

/// The order in which a view's cells lie side by side, and row order if they do not.
fn order_in_memory<A, D: Lengths>(array: &ArrayView<'_, A, D>) -> Order {
    let order = array.fast_order();
    match array.slice_in(order) {
        Some(_) => order,
        None => Order::RowMajor,
    }
}

/// A clone of a cell, as a call.
#[derive(Drop)]
struct Clones;

impl<'a, A: Clone> ItemCall<&'a A> for Clones {
    type Out = Result<A, AllocError>;

    ghost can_call = { λ _ _. ⊤ };

    ghost call_gives = { λ _ x r _. IfOk r (λ y. A.is_clone x.now y) };

    fn call(&mut self, item: &'a A) -> Result<A, AllocError> {
        item.clone()
    }
}
