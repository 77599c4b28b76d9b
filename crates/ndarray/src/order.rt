//! The two orders of a box, and the iterator over its index lists.

ghost use Rattle.std.specs.Prelude.{◌≡◌, List, ℕ, ◌+◌, ◌<◌, ◌≤◌, ◌^◌, length, take, drop, ⊤, ◌↔◌, Contains, IfSome, IsPermutation, IsTrue, MatchOption, []};
ghost use Rattle.std.specs.Iterator.{YieldsFirstBy, YieldsLastBy, UpTo, item_count};
ghost use Rattle.std.specs.Iterator.SizeHint.{IsExactHint, IsWithinCount};
ghost use Rattle.ndarray.specs.Index.{InBox, size, IsRowOrder};
ghost use Rattle.ndarray.specs.Limits.{IsWithinLimit};
ghost use Rattle.ndarray.specs.Orders.{box_in, IsBoxIn};
ghost use Rattle.ndarray.specs.base.Ranks.{rank_in};
ghost use Rattle.ndarray.specs.order.Walks.{walk_rest, TakesRow, WalksFrom};

pub(crate) mod rows;

use crate::base::dimension::{Dim, Ix1, Lengths};
use crate::base::layout::{Layout, default_strides};
pub use crate::base::shape::Order;
use crate::base::shape::axis_at;
use std::alloc::AllocError;
use std::iter::ExactSizeIterator;
use std::marker::Model;

/// The iterator over the index lists of a box, in row order or in column order. A contract sees it as the list of those still to come.
///
/// Neither making it nor any of its steps allocates.
#[derive(Drop)]
pub struct Walk<D: Lengths> {
    dim: D,
    index: D,
    left: usize,
    order: Order,
}

impl<D: Lengths> Model for Walk<D> {
    ghost use Rattle.std.specs.Prelude.{List, ℕ};

    ghost Value = { List (List ℕ) };

    ghost use Rattle.ndarray.specs.order.Walks.{walk_rest, WalksFrom};

    ghost view = { λ w. walk_rest w.order (D.numbers w.dim) (D.numbers w.index) w.left };

    ghost invariant = { λ w. WalksFrom w.order (D.numbers w.dim) (D.numbers w.index) w.left };
}

/// How many of the index lists that are left on an axis are taken as a row. On a short axis it is one, since a step of the walk then costs
/// less than a new row.
#[inline(always)]
fn row_len(left: usize, len: usize) -> usize
    requires { 0 < left }
    ensures some { 0 < result }
    ensures within { result ≤ left }
{
    if len < 8 { 1 } else { left }
}

/// Makes `index` the next index list of the box.
#[inline(always)]
fn advance<D: Lengths>(order: Order, dim: &D, index: &mut D)
    requires within { InBox (D.numbers dim.now) (D.numbers index.old) }
    requires more { rank_in order (D.numbers dim.now) (D.numbers index.old) + 1 < size (D.numbers dim.now) }
    ensures within { InBox (D.numbers dim.now) (D.numbers index.new) }
    ensures next { rank_in order (D.numbers dim.now) (D.numbers index.new) ≡ rank_in order (D.numbers dim.now) (D.numbers index.old) + 1 }
{
    let ndim = dim.ndim();
    // Each axis is written on each step, since an index list that is written under a condition is kept in memory.
    let mut carry = 1;
    for p in 0..ndim {
        let k = axis_at(order, ndim, p);
        let end = dim.axis(k);
        let next = index.axis(k) + carry;
        if next < end {
            index.set_axis(k, next);
            carry = 0;
        } else {
            index.set_axis(k, 0);
        }
    }
}

impl<D: Lengths> Walk<D> {
    /// An iterator over the index lists of the box of the lengths, in the order.
    ///
    /// Requires that the nonzero lengths multiply to at most `isize::MAX`; check with `size_ok` of the dimension.
    ///
    /// Only one list is the box in the order. Column order is a rearrangement of row order.
    ///
    /// ```
    /// for index in Walk::new(Ix2(2, 2), Order::RowMajor) { .. } // (0, 0), (0, 1), (1, 0), (1, 1)
    /// for index in Walk::new(Ix2(2, 2), Order::ColumnMajor) { .. } // (0, 0), (1, 0), (0, 1), (1, 1)
    /// ```
    pub fn new(dim: D, order: Order) -> Self
        requires { IsWithinLimit (D.numbers dim) }
        ensures list { result ≡ box_in order (D.numbers dim) }
        ensures described { IsBoxIn order (D.numbers dim) result }
        ensures alone { (xs : List (List ℕ)) → IsBoxIn order (D.numbers dim) xs → xs ≡ result }
        ensures rearranges { (xs : List (List ℕ)) → IsRowOrder (D.numbers dim) xs → IsPermutation xs result }
    {
        let left = dim.size();
        let index = D::zeros(dim.ndim());
        Walk {
            dim,
            index,
            left,
            order,
        }
    }

    /// How many index lists are still to come.
    ///
    /// ```
    /// assert_eq!(Walk::new(Ix2(2, 3), Order::RowMajor).len(), 6);
    /// ```
    pub fn len(&self) -> usize
        ensures { result ≡ length self.now }
    {
        self.left
    }

    /// How many index lists are still to come, which the limit on shapes bounds.
    pub(crate) fn bounded_len(&self) -> usize
        ensures value { result ≡ length self.now }
        ensures fits { result < 2 ^ 63 }
    {
        self.left
    }

    /// Whether an index list is still to come.
    pub(crate) fn is_to_come(&self, index: &D) -> bool
        ensures { IsTrue result ↔ Contains self.now (D.numbers index.now) }
    {
        if self.left == 0 {
            return false;
        }
        let ranks = Layout {
            start: 0,
            dim: self.dim.copied(),
            strides: default_strides(&self.dim, self.order),
        };
        let Some(rank) = ranks.find(index) else {
            return false;
        };
        let next = ranks.place(&self.index);
        next <= rank && rank - next < self.left
    }
}

/// Some index lists, each with an index on the axis that is one larger than that of the one before.
#[derive(Drop)]
pub(crate) struct Row<D> {
    pub(crate) first: D,
    pub(crate) axis: usize,
    pub(crate) count: usize,
}

impl<D: Lengths> Walk<D> {
    /// `count` index lists of the box in the order, from `index` on.
    pub(crate) fn starting_at(dim: D, order: Order, index: D, count: usize) -> Self
        requires { WalksFrom order (D.numbers dim) (D.numbers index) count }
        ensures { result ≡ walk_rest order (D.numbers dim) (D.numbers index) count }
    {
        Walk {
            dim,
            index,
            left: count,
            order,
        }
    }

    /// A copy of it.
    pub(crate) fn again(&self) -> Self
        ensures { result ≡ self.now }
    {
        Walk {
            dim: self.dim.copied(),
            index: self.index.copied(),
            left: self.left,
            order: self.order,
        }
    }

    /// Takes the index lists still to come that are on one row with the next one.
    #[inline(always)]
    pub(crate) fn next_row(&mut self) -> Option<Row<D>>
        ensures { MatchOption result ((self.old ≡ []) × (self.new ≡ [])) (λ row. TakesRow self.old self.new (D.numbers row.first) row.axis row.count) }
    {
        self.next_part(usize::MAX)
    }

    /// The same, but no more than `most` of them.
    #[inline(always)]
    pub(crate) fn next_part(&mut self, most: usize) -> Option<Row<D>>
        requires { 0 < most }
        ensures { MatchOption result ((self.old ≡ []) × (self.new ≡ [])) (λ row. TakesRow self.old self.new (D.numbers row.first) row.axis row.count) }
    {
        if self.left == 0 {
            return None;
        }
        let first = self.index.copied();
        let ndim = self.dim.ndim();
        if ndim == 0 {
            self.left = 0;
            return Some(Row {
                first,
                axis: 0,
                count: 1,
            });
        }
        let axis = axis_at(self.order, ndim, 0);
        let end = self.dim.axis(axis);
        let i = first.axis(axis);
        let count = row_len(end - i, end).min(self.left).min(most);
        self.left -= count;
        if self.left > 0 {
            self.index.set_axis(axis, i + count - 1);
            advance(self.order, &self.dim, &mut self.index);
        }
        Some(Row { first, axis, count })
    }
}

impl Walk<Ix1> {
    /// Takes the first `count` index lists still to come.
    pub(crate) fn take_first(&mut self, count: usize) -> Self
        requires { count ≤ length self.old }
        ensures first { result ≡ take count self.old }
        ensures rest { self.new ≡ drop count self.old }
    {
        let first = Walk {
            dim: self.dim,
            index: self.index,
            left: count,
            order: self.order,
        };
        self.index = Dim([self.index.axis(0) + count]);
        self.left -= count;
        first
    }
}

impl<D: Lengths> Iterator for Walk<D> {
    type Item = D;

    ghost next_gives = { YieldsFirstBy D.numbers (λ rest. rest) };

    ghost remaining = { item_count (λ rest. rest) };

    #[inline(always)]
    fn next(&mut self) -> Option<D> {
        if self.left == 0 {
            return None;
        }
        let index = self.index.copied();
        self.left -= 1;
        if self.left > 0 {
            advance(self.order, &self.dim, &mut self.index);
        }
        Some(index)
    }

    fn size_hint(&self) -> (usize, Option<usize>)
        ensures lower { IsWithinCount result.0 (item_count (λ rest. rest) self.now) }
        ensures upper { IfSome result.1 (UpTo (item_count (λ rest. rest) self.now)) }
        ensures exact { IsExactHint result (length self.now) }
    {
        let len = Walk::len(self);
        (len, Some(len))
    }
}

impl DoubleEndedIterator for Walk<Ix1> {
    ghost use Rattle.std.specs.Prelude.{[], ◌∷◌};

    ghost next_back_gives = { YieldsLastBy (λ d. d.0) (λ rest. rest) };

    fn next_back(&mut self) -> Option<Ix1> {
        if self.left == 0 {
            return None;
        }
        self.left -= 1;
        Some(Dim([self.index.axis(0) + self.left]))
    }
}

impl<D: Lengths> ExactSizeIterator for Walk<D> {
    fn len(&self) -> usize {
        Walk::len(self)
    }
}

impl<D: Lengths> Clone for Walk<D> {
    ghost is_clone = { λ s r. r ≡ s };

    ghost is_infallible = { λ _. ⊤ };

    fn clone(&self) -> Result<Walk<D>, AllocError> {
        Ok(self.again())
    }
}
