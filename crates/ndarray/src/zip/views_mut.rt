//! Views to write in, and what is yielded to write in, as producers.

ghost use Rattle.std.specs.Prelude.{◌≡◌, [], ◌∷◌, length, Some, filter_map, IsSome, ⊤};
ghost use Rattle.std.specs.Iterator.{YieldsFirst, YieldsFirstBy, item_count};
ghost use Rattle.ndarray.specs.Grid.{cell, one_axis, IsGrid, HasCells};
ghost use Rattle.ndarray.specs.Producers.{YieldsInTurn};
ghost use Rattle.ndarray.specs.order.Rows.{AreRowsIn};
ghost use Rattle.ndarray.specs.zip.RowCells.{row_cells_mut, IsSliceMut};

use crate::base::array::{ArrayBase, ArrayViewMut};
use crate::base::axis::Axis;
use crate::base::dimension::{Ix1, Lengths};
use crate::base::layout::Layout;
use crate::base::region::{Life, RegionRepr};
use crate::base::storage::DataMut;
use crate::order::Order;
use crate::order::rows::BoxRows;
use crate::places::place_rows::PlaceRow;
use crate::places::strided_cells::StridedMut;
use crate::subviews::axis_mut::AxisIterMut;
use crate::subviews::piece_rows::{PieceRowMut, PieceRowsMut};
use crate::subviews::pieces_mut::PiecesMut;
use crate::zip::producer::{IntoNdProducer, NdProducer, Shaped, rows_of_axis};
use std::iter::Once;
use std::marker::{Model, PhantomData};
use std::slice::IterMut;

impl<'a, A: 'a, D: Lengths> NdProducer for ArrayViewMut<'a, A, D> {
    type Item = &'a mut A;

    type Dim = D;

    ghost yields_at = { λ v i x. cell v i ≡ Some x.now };

    fn raw_dim(&self) -> D {
        self.raw_dim()
    }

    fn split_at(self, axis: Axis, index: usize) -> (Self, Self) {
        self.split_at(axis, index)
    }

    fn tendency(&self) -> i32 {
        self.layout_tendency()
    }

    type Row = ViewRowMut<'a, A>;

    type Rows = ViewRowsMut<'a, A, D>;

    type RowRun = StridedMut<'a, A>;

    type FlatRow = IterMut<'a, A>;

    ghost row_form = { λ v is r. (row_cells_mut r ≡ filter_map (cell v) is) × HasCells v is };

    ghost is_flat = { IsSliceMut };

    ghost rows_form = { λ v o r. AreRowsIn (filter_map (cell v)) o v.lengths r × IsGrid v };

    ghost is_one = { λ r. IsSome r.one };

    #[inline(always)]
    fn into_rows(self, order: Order) -> ViewRowsMut<'a, A, D> {
        let rows = BoxRows::new(self.raw_dim(), order);
        let ArrayBase { storage, layout } = self;
        ViewRowsMut {
            one: PlaceRow::in_order(&layout, order),
            region: storage,
            layout,
            rows,
            lifetime: PhantomData,
        }
    }

    #[inline(always)]
    fn is_one_row(rows: &ViewRowsMut<'a, A, D>) -> bool {
        rows.one.is_some()
    }

    #[inline(always)]
    fn one_row(rows: ViewRowsMut<'a, A, D>) -> Option<ViewRowMut<'a, A>> {
        let ViewRowsMut {
            one,
            region,
            layout: _layout,
            rows: _rows,
            lifetime: _lifetime,
        } = rows;
        let Some(places) = one else {
            return None;
        };
        let mut region = region;
        let cells = StridedMut::taken_from(&mut region, places);
        Some(ViewRowMut::of(cells))
    }

    #[inline(always)]
    fn is_flat_row(row: &ViewRowMut<'a, A>) -> bool {
        match row {
            ViewRowMut::Slice(_slice) => true,
            ViewRowMut::Stepped(_cells) => false,
        }
    }

    #[inline(always)]
    fn flat_row(row: ViewRowMut<'a, A>) -> IterMut<'a, A> {
        match row {
            ViewRowMut::Slice(slice) => slice.iter_mut(),
            ViewRowMut::Stepped(_cells) => unreachable!(),
        }
    }

    #[inline(always)]
    fn run_row(row: ViewRowMut<'a, A>) -> StridedMut<'a, A> {
        match row {
            ViewRowMut::Slice(slice) => StridedMut::over(slice),
            ViewRowMut::Stepped(cells) => cells,
        }
    }
}

/// A row of cells of a view to write in.
#[derive(Drop)]
pub enum ViewRowMut<'a, A> {
    /// Cells that lie side by side.
    Slice(&'a mut [A]),
    /// Cells that lie a step apart.
    Stepped(StridedMut<'a, A>),
}

impl<'a, A> ViewRowMut<'a, A> {
    /// A row of these cells: a slice if they are known to lie side by side.
    #[inline(always)]
    fn of(cells: StridedMut<'a, A>) -> Self
        ensures { row_cells_mut result ≡ cells.entry }
    {
        match cells.side_by_side() {
            Ok(slice) => ViewRowMut::Slice(slice),
            Err(cells) => ViewRowMut::Stepped(cells),
        }
    }
}

/// The rows of cells of a view to write in that are still to come, and, until the first is taken, the places of all cells if these lie side
/// by side in the order.
#[derive(Drop)]
pub struct ViewRowsMut<'a, A, D: Lengths> {
    one: Option<PlaceRow>,
    region: RegionRepr<Life<'a>, A>,
    layout: Layout<D>,
    rows: BoxRows<D>,
    // the lifetime of what it yields, so that `A: 'a` follows from the type
    lifetime: PhantomData<&'a mut A>,
}

impl<'a, A, D: Lengths> Model for ViewRowsMut<'a, A, D> {
    ghost use Rattle.std.specs.Prelude.{List, map, filter_map, option_map, IfSome};
    ghost use Rattle.ndarray.specs.base.Slots.{held_at};
    ghost use Rattle.ndarray.specs.order.Rows.{RowsAndOne};
    ghost use Rattle.ndarray.specs.places.ElementPlaces.{places_along, AreDistinctPlaces, HaveRows};

    ghost Value = { RowsAndOne (List A) };

    ghost view = { λ s. record { one = option_map (filter_map (held_at s.region.slots)) s.one; rows = map (λ row. filter_map (held_at s.region.slots) (places_along s.layout.start (D.numbers s.layout.strides) row)) s.rows } };

    ghost invariant = { λ s. HaveRows (held_at s.region.slots) s.layout.start (D.numbers s.layout.strides) s.rows × IfSome s.one (AreDistinctPlaces (held_at s.region.slots)) };
}

impl<'a, A, D: Lengths> Iterator for ViewRowsMut<'a, A, D> {
    type Item = ViewRowMut<'a, A>;

    ghost next_gives = { YieldsFirstBy row_cells_mut (λ s. s.rows) };

    ghost remaining = { item_count (λ s. s.rows) };

    #[inline(always)]
    fn next(&mut self) -> Option<ViewRowMut<'a, A>> {
        let Some(row) = self.rows.next() else {
            return None;
        };
        let places = PlaceRow::along(&self.layout, &row);
        self.one = None;
        let cells = StridedMut::taken_from(&mut self.region, places);
        Some(ViewRowMut::of(cells))
    }
}

impl<'b, S: DataMut, D: Lengths> IntoNdProducer for &'b mut ArrayBase<S, D>
where
    S::Elem: 'b,
{
    type Item = &'b mut S::Elem;

    type Dim = D;

    type Output = ArrayViewMut<'b, S::Elem, D>;

    ghost converts_to = { λ a v. v ≡ a.now };

    fn into_producer(self) -> ArrayViewMut<'b, S::Elem, D> {
        self.view_mut()
    }
}

impl<'a, A, D: Lengths> Shaped for AxisIterMut<'a, A, D> {
    ghost lengths = { λ s. length s ∷ [] };
}

impl<'a, A, D: Lengths> NdProducer for AxisIterMut<'a, A, D> {
    type Item = ArrayViewMut<'a, A, D>;

    type Dim = Ix1;

    ghost yields_at = { λ s i x. cell (one_axis s) i ≡ Some x };

    fn raw_dim(&self) -> Ix1 {
        self.raw_dim()
    }

    fn split_at(self, _axis: Axis, index: usize) -> (Self, Self) {
        self.split_at(index)
    }

    fn tendency(&self) -> i32 {
        0
    }

    type Row = AxisIterMut<'a, A, D>;

    type Rows = Once<AxisIterMut<'a, A, D>>;

    type RowRun = AxisIterMut<'a, A, D>;

    type FlatRow = AxisIterMut<'a, A, D>;

    ghost row_form = { λ s is r. YieldsInTurn (YieldsFirst (λ rest. rest)) (λ i x. cell (one_axis s) i ≡ Some x) r is };

    ghost is_flat = { λ _. ⊤ };

    ghost rows_form = { λ _ _ _. ⊤ };

    ghost is_one = { λ _. ⊥ };

    fn into_rows(self, _order: Order) -> Once<AxisIterMut<'a, A, D>> {
        let len = self.raw_dim().size();
        rows_of_axis(self, len)
    }

    fn is_one_row(_rows: &Once<AxisIterMut<'a, A, D>>) -> bool {
        false
    }

    fn one_row(_rows: Once<AxisIterMut<'a, A, D>>) -> Option<AxisIterMut<'a, A, D>> {
        None
    }

    fn is_flat_row(_row: &AxisIterMut<'a, A, D>) -> bool {
        true
    }

    #[inline(always)]
    fn flat_row(row: AxisIterMut<'a, A, D>) -> AxisIterMut<'a, A, D> {
        row
    }

    #[inline(always)]
    fn run_row(row: AxisIterMut<'a, A, D>) -> AxisIterMut<'a, A, D> {
        row
    }
}

impl<'a, A, P: Lengths, D: Lengths> Shaped for PiecesMut<'a, A, P, D> {
    ghost lengths = { λ s. s.lengths };
}

impl<'a, A, P: Lengths, D: Lengths> NdProducer for PiecesMut<'a, A, P, D> {
    type Item = ArrayViewMut<'a, A, D>;

    type Dim = P;

    ghost yields_at = { λ s i x. cell s i ≡ Some x };

    fn raw_dim(&self) -> P {
        self.raw_dim()
    }

    fn split_at(self, axis: Axis, index: usize) -> (Self, Self) {
        self.split_at(axis, index)
    }

    fn tendency(&self) -> i32 {
        0
    }

    type Row = PieceRowMut<'a, A, D>;

    type Rows = PieceRowsMut<'a, A, P, D>;

    type RowRun = PieceRowMut<'a, A, D>;

    type FlatRow = PieceRowMut<'a, A, D>;

    ghost row_form = { λ s is r. (r ≡ filter_map (cell s) is) × HasCells s is };

    ghost is_flat = { λ _. ⊤ };

    ghost rows_form = { λ _ _ _. ⊤ };

    ghost is_one = { λ _. ⊥ };

    fn into_rows(self, order: Order) -> PieceRowsMut<'a, A, P, D> {
        self.into_rows(order)
    }

    fn is_one_row(_rows: &PieceRowsMut<'a, A, P, D>) -> bool {
        false
    }

    fn one_row(_rows: PieceRowsMut<'a, A, P, D>) -> Option<PieceRowMut<'a, A, D>> {
        None
    }

    fn is_flat_row(_row: &PieceRowMut<'a, A, D>) -> bool {
        true
    }

    #[inline(always)]
    fn flat_row(row: PieceRowMut<'a, A, D>) -> PieceRowMut<'a, A, D> {
        row
    }

    #[inline(always)]
    fn run_row(row: PieceRowMut<'a, A, D>) -> PieceRowMut<'a, A, D> {
        row
    }
}
