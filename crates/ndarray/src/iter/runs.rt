//! The cells of an array in runs, in the order in which they lie: for `reduce`.

ghost use Rattle.std.specs.Prelude.{◌≡◌, [], ◌∷◌, IsPermutation, MatchOption};
ghost use Rattle.ndarray.specs.Grid.{IsGrid};
ghost use Rattle.ndarray.specs.order.Rows.{joined};

use crate::base::array::ArrayView;
use crate::base::dimension::Lengths;
use crate::base::strided::Strided;
use crate::order::Order;
use crate::order::rows::BoxRows;
use std::marker::Model;

/// The runs of cells of a view that are still to come: one if all cells lie side by side, else those of the rows.
#[derive(Drop)]
pub struct CellRuns<'a, A, D: Lengths> {
    is_first: bool,
    first: Strided<'a, A>,
    view: ArrayView<'a, A, D>,
    rows: BoxRows<D>,
}

impl<'a, A, D: Lengths> Model for CellRuns<'a, A, D> {
    ghost use Rattle.std.specs.Prelude.{List, [], ◌∷◌, ◌++◌, filter_map, if◌then◌else◌, map};
    ghost use Rattle.ndarray.specs.Grid.{cell};
    ghost use Rattle.ndarray.specs.order.Rows.{HasRows};

    ghost Value = { List (List A) };

    ghost view = { λ s. (if s.is_first then s.first ∷ [] else []) ++ map (filter_map (cell s.view)) s.rows };

    ghost invariant = { λ s. HasRows s.view s.rows };
}

impl<'a, A, D: Lengths> CellRuns<'a, A, D> {
    /// The runs of a view.
    pub(crate) fn of(view: ArrayView<'a, A, D>) -> Self
        requires { IsGrid view }
        ensures { IsPermutation view.entry.cells (joined result) }
    {
        let view = view.in_memory_order();
        let dim = view.raw_dim();
        match view.to_slice() {
            Some(cells) => CellRuns {
                is_first: true,
                first: Strided::over(cells),
                view,
                rows: BoxRows::none(dim),
            },
            None => CellRuns {
                is_first: false,
                first: view.no_cells(),
                view,
                rows: BoxRows::new(dim, Order::RowMajor),
            },
        }
    }

    /// The next run.
    #[inline(always)]
    pub(crate) fn next(&mut self) -> Option<Strided<'a, A>>
        ensures { MatchOption result ((self.old ≡ []) × (self.new ≡ [])) (λ run. self.old ≡ run ∷ self.new) }
    {
        if self.is_first {
            self.is_first = false;
            return Some(self.first.again());
        }
        let Some(row) = self.rows.next() else {
            return None;
        };
        Some(self.view.cells_along(&row.first, row.axis, row.count))
    }
}
