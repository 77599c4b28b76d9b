//! The iterator over cells.

ghost use Rattle.std.specs.Prelude.{◌≡◌, ◌<◌, ◌^◌, length, ⊤, IfSome};
ghost use Rattle.std.specs.Iterator.{YieldsFirstRef, YieldsLastRef, UpTo, item_count};
ghost use Rattle.std.specs.Iterator.SizeHint.{IsExactHint, IsWithinCount};
ghost use Rattle.ndarray.specs.Grid.{IsGrid};
ghost use Rattle.ndarray.specs.Orders.{HasInOrder, cells_in};
ghost use Rattle.ndarray.specs.declared.base.shape.Order.TheVariants.{RowMajor};

use crate::base::array::ArrayView;
use crate::base::dimension::{Ix1, Lengths};
use crate::iter::row_elements::RowElements;
use crate::order::Order;
use std::alloc::AllocError;
use std::iter::ExactSizeIterator;
use std::marker::Model;
use std::slice;

/// The iterator over the cells of a view in row order. A contract sees it as the list of the cells still to come.
///
/// Neither making an iterator nor any of its steps allocates.
#[derive(Drop)]
pub struct ElementsBase<'a, A, D: Lengths> {
    source: CellSource<'a, A, D>,
}

/// What the cells are taken from.
#[derive(Drop)]
enum CellSource<'a, A, D: Lengths> {
    /// A slice, whose elements they are.
    Slice(slice::Iter<'a, A>),
    /// The rows of a view.
    Rows(RowElements<'a, A, D>),
}

impl<'a, A, D: Lengths> Model for ElementsBase<'a, A, D> {
    ghost use Rattle.std.specs.Prelude.{List, ⊤};
    ghost use Rattle.ndarray.specs.places.Sources.{cells_to_come};

    ghost Value = { List A };

    ghost view = { λ s. cells_to_come s.source };

    ghost invariant = { λ _. ⊤ };
}

impl<'a, A, D: Lengths> ElementsBase<'a, A, D> {
    /// An iterator over the cells of a view in row order, whatever the strides.
    ///
    /// ```
    /// for cell in ElementsBase::new(view) { .. } // as `view.iter()`, for as long as the elements were borrowed
    /// ```
    pub fn new(v: ArrayView<'a, A, D>) -> Self
        ensures row_order { HasInOrder RowMajor v.entry result }
        ensures cells { result ≡ v.entry.cells }
        ensures fits { length result < 2 ^ 63 }
    {
        ElementsBase::in_order(v, Order::RowMajor)
    }

    /// The cells of a view in an order.
    pub(crate) fn in_order(v: ArrayView<'a, A, D>, order: Order) -> Self
        ensures described { HasInOrder order v.entry result }
        ensures cells { result ≡ cells_in order v.entry }
        ensures fits { length result < 2 ^ 63 }
        ensures whole { IsGrid v.entry }
    {
        let _dim = v.raw_dim();
        match v.slice_in(order) {
            Some(slice) => ElementsBase {
                source: CellSource::Slice(slice.iter()),
            },
            None => ElementsBase {
                source: CellSource::Rows(RowElements::in_order(v, order)),
            },
        }
    }
}

/// The iterator over the cells of an array in row order.
pub type Iter<'a, A, D> = ElementsBase<'a, A, D>;

impl<'a, A, D: Lengths> Iterator for ElementsBase<'a, A, D> {
    type Item = &'a A;

    ghost next_gives = { YieldsFirstRef (λ rest. rest) };

    ghost remaining = { item_count (λ rest. rest) };

    #[inline(always)]
    fn next(&mut self) -> Option<&'a A> {
        match &mut self.source {
            CellSource::Slice(cells) => cells.next(),
            CellSource::Rows(cells) => cells.next(),
        }
    }

    fn size_hint(&self) -> (usize, Option<usize>)
        ensures lower { IsWithinCount result.0 (item_count (λ rest. rest) self.now) }
        ensures upper { IfSome result.1 (UpTo (item_count (λ rest. rest) self.now)) }
        ensures exact { IsExactHint result (length self.now) }
    {
        (self.len(), Some(self.len()))
    }
}

impl<'a, A> DoubleEndedIterator for ElementsBase<'a, A, Ix1> {
    ghost next_back_gives = { YieldsLastRef (λ rest. rest) };

    fn next_back(&mut self) -> Option<&'a A> {
        match &mut self.source {
            CellSource::Slice(cells) => cells.next_back(),
            CellSource::Rows(cells) => cells.next_back(),
        }
    }
}

impl<'a, A, D: Lengths> ExactSizeIterator for ElementsBase<'a, A, D> {
    fn len(&self) -> usize {
        match &self.source {
            CellSource::Slice(cells) => cells.len(),
            CellSource::Rows(cells) => cells.len(),
        }
    }
}

impl<'a, A, D: Lengths> Clone for ElementsBase<'a, A, D> {
    ghost is_clone = { λ s r. r ≡ s };

    ghost is_infallible = { λ _. ⊤ };

    fn clone(&self) -> Result<ElementsBase<'a, A, D>, AllocError> {
        let source = match &self.source {
            CellSource::Slice(cells) => CellSource::Slice(cells.clone()?),
            CellSource::Rows(cells) => CellSource::Rows(cells.again()),
        };
        Ok(ElementsBase { source })
    }
}
