//! Functions that write to the cells of arrays, whatever keeps them. Each loop is in a function of its own over an
//! iterator, and what is held to write in one over any iterator, where what keeps the cells is no parameter.

ghost use Rattle.std.specs.Prelude.{◌≡◌, ◌≢◌, ◌↔◌, ◌∷◌, [], ℕ, List, Some, IsTrue};
ghost use Rattle.ndarray.specs.Grid.{IsGrid, cell};
ghost use Rattle.ndarray.specs.Index.{InBox};

use ndarray::iter::LanesMut;
use ndarray::zip::{One, Parts};
use ndarray::{
    Array, ArrayBase, ArrayViewMut, ArrayViewMut1, Axis, Data, DataMut, Dimension, Ix1, Ix2,
    Lengths, NdProducer, RemoveAxis, Zip,
};
use std::alloc::AllocError;
use std::mem;

/// Writes a value into a cell of a table; or returns `false` where there is no such cell.
pub fn set_cell<S: DataMut<Elem = i64>>(
    table: &mut ArrayBase<S, Ix2>,
    row: usize,
    column: usize,
    value: i64,
) -> bool
    ensures inside { IsTrue result ↔ InBox table.old.lengths (row ∷ column ∷ []) }
    ensures lengths { table.new.lengths ≡ table.old.lengths }
    ensures whole { IsGrid table.new }
    ensures written { IsTrue result → cell table.new (row ∷ column ∷ []) ≡ Some value }
    ensures others { (is : List ℕ) → is ≢ (row ∷ column ∷ []) → cell table.new is ≡ cell table.old is }
{
    let _whole = table.raw_dim();
    match table.get_mut((row, column)) {
        Some(cell) => {
            *cell = value;
            true
        }
        None => false,
    }
}

/// Writes a value into the first cell of a lane.
fn begin<A: Copy>(lane: &mut ArrayViewMut1<'_, A>, value: A) {
    if let Some(cell) = lane.get_mut(0) {
        *cell = value;
    }
}

/// Writes a value into the first cell of each lane.
fn begin_all<A: Copy, D: Lengths>(lanes: LanesMut<'_, A, D>, value: A) {
    for mut lane in lanes {
        begin(&mut lane, value);
    }
}

/// Writes a value into the first cell of each row, then another into the first of each column.
pub fn begin_lanes<A: Copy, S: DataMut<Elem = A>, D: Dimension>(
    array: &mut ArrayBase<S, D>,
    row: A,
    column: A,
) {
    begin_all(array.rows_mut(), row);
    begin_all(array.columns_mut(), column);
}

/// Writes a value into each cell of a view.
fn fill<A: Copy, D: Lengths>(view: &mut ArrayViewMut<'_, A, D>, value: A) {
    for cell in view.iter_mut() {
        *cell = value;
    }
}

/// Writes a value into each cell of each item along axis 0.
pub fn fill_items<A: Copy, S: DataMut<Elem = A>, D: RemoveAxis>(
    array: &mut ArrayBase<S, D>,
    value: A,
) {
    if array.axis_ok(Axis(0)) {
        for mut item in array.axis_iter_mut(Axis(0)) {
            fill(&mut item, value);
        }
    }
}

/// Writes a value into each cell of each chunk of two along axis 0.
pub fn fill_chunks<A: Copy, S: DataMut<Elem = A>, D: Lengths>(
    array: &mut ArrayBase<S, D>,
    value: A,
) {
    if array.chunk_ok(Axis(0), 2) {
        for mut chunk in array.axis_chunks_iter_mut(Axis(0), 2) {
            fill(&mut chunk, value);
        }
    }
}

/// Exchanges the first two cells, held together.
pub fn exchange<'a, I: Iterator<Item = &'a mut i64>>(given: I)
    requires can { (it : I) → I.can_next it }
{
    let mut cells = given;
    if let Some(first) = cells.next() {
        if let Some(second) = cells.next() {
            mem::swap(first, second);
        }
    }
}

/// Writes a value to the first and to the last cell.
pub fn write_both_ends<'a, I: DoubleEndedIterator<Item = &'a mut i64>>(given: I, value: i64)
    requires can { (it : I) → I.can_next it }
    requires back { (it : I) → I.can_next_back it }
{
    let mut cells = given;
    if let Some(cell) = cells.next() {
        *cell = value;
    }
    if let Some(cell) = cells.next_back() {
        *cell = value;
    }
}

/// Writes a value to the last cell of a view whose cells lie side by side in row order, and returns whether they do.
pub fn write_last<D: Lengths>(view: ArrayViewMut<'_, i64, D>, value: i64) -> bool {
    match view.try_into_slice() {
        Ok(slice) => {
            if let Some(last) = slice.last_mut() {
                *last = value;
            }
            true
        }
        Err(_view) => false,
    }
}

/// Adds a row to each row, up to a cell that holds 3.
pub fn add_up_to_three<S: DataMut<Elem = i64>, T: Data<Elem = i64>>(
    array: &mut ArrayBase<S, Ix2>,
    row: &ArrayBase<T, Ix1>,
) -> Result<(), AllocError> {
    if row.broadcast(array.raw_dim()).is_none() {
        return Ok(());
    }
    array.try_zip_assign(row, |x, y| {
        if *x == 3 {
            Err(AllocError)
        } else {
            Ok(x.wrapping_add(*y))
        }
    })
}

/// Writes twice each number, of any producer of numbers, into an array of its lengths; or returns `false`, where the array has
/// others.
pub fn double_into<'a, N: NdProducer<Item = &'a i64, Dim = Ix2>>(
    zip: Zip<Parts<N, One>, Ix2>,
    into: &mut Array<i64, Ix2>,
) -> bool {
    if !zip.fits(&into.view()) {
        return false;
    }
    zip.map_assign_into(into, |x| x.wrapping_mul(2));
    true
}
