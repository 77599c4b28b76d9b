//! The rows of a box, and parts of a row.

ghost use Rattle.std.specs.Prelude.{◌≡◌, ◌-◌, ◌<◌, ◌≤◌, ◌^◌, [], ◌∷◌, MatchOption, length, min};
ghost use Rattle.ndarray.specs.Limits.{IsWithinLimit};
ghost use Rattle.ndarray.specs.order.Rows.{joined, rows_in, one_if_some};
ghost use Rattle.ndarray.specs.base.Ranks.{row_at, row_from};
ghost use Rattle.ndarray.specs.order.Walks.{FitsOnAxis};

use crate::base::dimension::Lengths;
use crate::base::shape::axis_at;
use crate::order::{Order, Row, Walk};
use std::marker::Model;

/// The rows of a box that are still to come.
#[derive(Drop)]
pub struct BoxRows<D: Lengths> {
    firsts: Walk<D>,
    axis: usize,
    count: usize,
}

impl<D: Lengths> Model for BoxRows<D> {
    ghost use Rattle.std.specs.Prelude.{List, ℕ, map};
    ghost use Rattle.ndarray.specs.base.Ranks.{row_from};

    ghost Value = { List (List (List ℕ)) };

    ghost view = { λ s. map (λ is. row_from is s.axis s.count) s.firsts };
}

/// 1 for a number that is not 0.
pub(crate) fn one_if_some(n: usize) -> usize
    ensures { result ≡ one_if_some n }
{
    if n == 0 { 0 } else { 1 }
}

impl<D: Lengths> BoxRows<D> {
    /// All rows of the box of the lengths, in the order: each along the axis that varies fastest.
    #[inline(always)]
    pub(crate) fn new(dim: D, order: Order) -> Self
        requires { IsWithinLimit (D.numbers dim) }
        ensures { result ≡ rows_in order (D.numbers dim) }
    {
        let ndim = dim.ndim();
        if ndim == 0 {
            return BoxRows {
                firsts: Walk::new(dim, order),
                axis: 0,
                count: 1,
            };
        }
        let axis = axis_at(order, ndim, 0);
        let count = dim.axis(axis);
        let mut firsts = dim;
        firsts.set_axis(axis, one_if_some(count));
        BoxRows {
            firsts: Walk::new(firsts, order),
            axis,
            count,
        }
    }

    /// No row.
    pub(crate) fn none(dim: D) -> Self
        requires { IsWithinLimit (D.numbers dim) }
        ensures { result ≡ [] }
    {
        let index = D::zeros(dim.ndim());
        BoxRows {
            firsts: Walk::starting_at(dim, Order::RowMajor, index, 0),
            axis: 0,
            count: 0,
        }
    }

    /// How many index lists they have together.
    pub(crate) fn len(&self) -> usize
        requires { length (joined self.now) < 2 ^ 64 }
        ensures { result ≡ length (joined self.now) }
    {
        self.firsts.len() * self.count
    }

    /// A copy of it.
    pub(crate) fn again(&self) -> Self
        ensures { result ≡ self.now }
    {
        BoxRows {
            firsts: self.firsts.again(),
            axis: self.axis,
            count: self.count,
        }
    }

    /// The next row.
    #[inline(always)]
    pub(crate) fn next(&mut self) -> Option<Row<D>>
        ensures { MatchOption result ((self.old ≡ []) × (self.new ≡ [])) (λ row. self.old ≡ row_from (D.numbers row.first) row.axis row.count ∷ self.new) }
    {
        let Some(first) = self.firsts.next() else {
            return None;
        };
        Some(Row {
            first,
            axis: self.axis,
            count: self.count,
        })
    }
}

impl<D: Lengths> Row<D> {
    /// At most `most` of the index lists, from the one that comes `from` later than the first on.
    pub(crate) fn part(&self, from: usize, most: usize) -> Self
        requires fits { FitsOnAxis (D.numbers self.now.first) self.now.axis self.now.count }
        requires within { from ≤ self.now.count }
        ensures first { D.numbers result.first ≡ row_at (D.numbers self.now.first) self.now.axis from }
        ensures axis { result.axis ≡ self.now.axis }
        ensures count { result.count ≡ min most (self.now.count - from) }
    {
        let mut first = self.first.copied();
        if self.axis < first.ndim() {
            first.set_axis(self.axis, first.axis(self.axis) + from);
        }
        Row {
            first,
            axis: self.axis,
            count: most.min(self.count - from),
        }
    }
}
