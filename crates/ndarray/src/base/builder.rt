//! Arrays that are filled one cell after another.

ghost use Rattle.std.specs.Prelude.{◌≡◌, ◌<◌, ◌≤◌, ◌+◌, ◌-◌, ◌++◌, ◌∷◌, [], length, replicate, slice_index_or, take, IfErr, IfOk, IsOk};
ghost use Rattle.ndarray.specs.base.Builder.{pushed_all, pushed_to};
ghost use Rattle.ndarray.specs.Elementwise.{ClonesAreEqual};
ghost use Rattle.ndarray.specs.Grid.{IsGrid};
ghost use Rattle.ndarray.specs.Index.{size};
ghost use Rattle.ndarray.specs.Limits.{IsWithinLimit};
ghost use Rattle.ndarray.specs.Orders.{HasInOrder, cells_in};

use crate::base::array::ArrayBase;
use crate::base::dimension::Lengths;
use crate::base::shape::Order;
use crate::base::storage::DataOwned;
use crate::base::strided::Strided;
use num_traits::Zero;
use std::alloc::{AllocError, Global};
use std::marker::Model;

/// An array that is being filled: its lengths, the order of its cells, and the cells so far.
///
/// All of its memory is reserved before the first cell, so that no push can fail.
#[derive(Drop)]
pub(crate) struct ArrayBuilder<A, D: Lengths> {
    items: Vec<A>,
    dim: D,
    order: Order,
}

impl<A, D: Lengths> Model for ArrayBuilder<A, D> {
    ghost use Rattle.std.specs.Vec.{vec_capacity};
    ghost use Rattle.ndarray.specs.base.Builder.{BuilderState, HasRoom};

    ghost Value = { BuilderState A };

    ghost view = { λ f. record { lengths = D.numbers f.dim; order = f.order; cells = f.items.items } };

    ghost invariant = { λ f. HasRoom (D.numbers f.dim) (vec_capacity f.items) };
}

impl<A: Drop, D: Lengths> ArrayBuilder<A, D> {
    /// Room for all cells of the lengths. Requires them to be within the limit. Nothing is allocated if there are
    /// none.
    pub(crate) fn with_capacity(alloc: Global, dim: D, order: Order) -> Result<Self, AllocError>
        requires { IsWithinLimit (D.numbers dim) }
        ensures room { IfOk result (λ f. f ≡ record { lengths = D.numbers dim; order = order; cells = [] }) }
        ensures empty { size (D.numbers dim) ≡ 0 → IsOk result }
    {
        let items = Vec::with_capacity(alloc, dim.size())?;
        Ok(ArrayBuilder { items, dim, order })
    }

    /// The same with the elements of a vector as the first cells; the vector grows. If it cannot, it comes back with the error. Nothing is
    /// allocated if there are no cells.
    pub(crate) fn extending(
        items: Vec<A>,
        dim: D,
        order: Order,
    ) -> Result<Self, (Vec<A>, AllocError)>
        requires limit { IsWithinLimit (D.numbers dim) }
        requires fewer { length items.items ≤ size (D.numbers dim) }
        ensures room { IfOk result (λ f. f ≡ record { lengths = D.numbers dim; order = order; cells = items.items }) }
        ensures back { IfErr result (λ e. e.0.items ≡ items.items) }
        ensures empty { size (D.numbers dim) ≡ 0 → IsOk result }
    {
        let mut items = items;
        let more = dim.size() - items.len();
        match items.reserve(more) {
            Ok(()) => Ok(ArrayBuilder { items, dim, order }),
            Err(refused) => Err((items, refused)),
        }
    }

    /// The first cells that were pushed.
    pub(crate) fn into_first(self, count: usize) -> Vec<A>
        ensures { result.items ≡ take count self.cells }
    {
        let ArrayBuilder {
            mut items,
            dim: _dim,
            order: _order,
        } = self;
        items.truncate(count);
        items
    }

    /// The cell at the next index list of the order.
    pub(crate) fn push(&mut self, cell: A)
        requires { length self.old.cells < size self.old.lengths }
        ensures { self.new ≡ pushed_to self.old cell }
    {
        self.items.push_reserved(cell);
    }

    /// The cell that was pushed so many pushes ago, 1 for the last.
    pub(crate) fn back(&self, pushes: usize) -> &A
        requires some { 1 ≤ pushes }
        requires within { pushes ≤ length self.now.cells }
        ensures { result.now ≡ slice_index_or self.now.cells (length self.now.cells - pushes) result.now }
    {
        &self.items[self.items.len() - pushes]
    }

    /// The array whose cells in the order are those that were pushed, once there is one for each index
    /// list.
    pub(crate) fn finish<S: DataOwned<Elem = A>>(self) -> ArrayBase<S, D>
        requires { length self.cells ≡ size self.lengths }
        ensures lengths { result.lengths ≡ self.lengths }
        ensures axes { D.has_axes (length result.lengths) }
        ensures cells { HasInOrder self.order result self.cells }
        ensures list { cells_in self.order result ≡ self.cells }
        ensures whole { IsGrid result }
    {
        let ArrayBuilder { items, dim, order } = self;
        ArrayBase::from_elements(dim, order, items)
    }
}

impl<A: Zero + Drop, D: Lengths> ArrayBuilder<A, D> {
    /// Pushes zeros.
    pub(crate) fn push_zeros(&mut self, many: usize)
        requires { length self.old.cells + many ≤ size self.old.lengths }
        ensures { self.new ≡ pushed_all self.old (replicate many A.zero) }
    {
        let before = self.items.len();
        // By their number in the array, so that no other count is kept.
        while self.items.len() - before < many {
            self.push(A::zero());
        }
    }
}

impl<A: Clone, D: Lengths> ArrayBuilder<A, D> {
    /// Pushes clones of cells, up to the first error. The cells that were there stay.
    pub(crate) fn push_clones(&mut self, cells: Strided<'_, A>) -> Result<(), AllocError>
        requires clones { ClonesAreEqual A.is_clone }
        requires room { length self.old.cells + length cells ≤ size self.old.lengths }
        ensures pushed { IfOk result (λ _. self.new ≡ pushed_all self.old cells.entry) }
        ensures front { take (length self.old.cells) self.new.cells ≡ self.old.cells }
        ensures none { length cells.entry ≡ 0 → IsOk result }
    {
        match cells.side_by_side() {
            Some(slice) => self.push_slice(slice),
            None => self.push_steps(cells),
        }
    }

    /// The same for cells that lie side by side.
    fn push_slice(&mut self, cells: &[A]) -> Result<(), AllocError>
        requires clones { ClonesAreEqual A.is_clone }
        requires room { length self.old.cells + length cells.now ≤ size self.old.lengths }
        ensures pushed { IfOk result (λ _. self.new ≡ pushed_all self.old cells.now) }
        ensures front { take (length self.old.cells) self.new.cells ≡ self.old.cells }
        ensures none { length cells.now ≡ 0 → IsOk result }
    {
        for cell in cells {
            self.push(cell.clone()?);
        }
        Ok(())
    }

    /// The same for cells that lie a step apart.
    fn push_steps(&mut self, cells: Strided<'_, A>) -> Result<(), AllocError>
        requires clones { ClonesAreEqual A.is_clone }
        requires room { length self.old.cells + length cells ≤ size self.old.lengths }
        ensures pushed { IfOk result (λ _. self.new ≡ pushed_all self.old cells.entry) }
        ensures front { take (length self.old.cells) self.new.cells ≡ self.old.cells }
        ensures none { length cells.entry ≡ 0 → IsOk result }
    {
        for cell in cells {
            self.push(cell.clone()?);
        }
        Ok(())
    }
}
