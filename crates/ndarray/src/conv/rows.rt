//! Valid convolutions row by row of the result: the sums of a row are made all at once, each cell of the kernel in turn times a run of
//! the array's cells.

ghost use Rattle.std.specs.Prelude.{◌≡◌, ◌+◌, ◌++◌, ◌≤◌, [], length, map, replicate};
ghost use Rattle.std.specs.Vec.{vec_capacity};
ghost use Rattle.ndarray.specs.Convolution.{valid_counts};
ghost use Rattle.ndarray.specs.Index.{row_order, size};
ghost use Rattle.ndarray.specs.Limits.{IsWithinLimit};
ghost use Rattle.ndarray.specs.Products.{MakesValues};
ghost use Rattle.ndarray.specs.conv.WindowSums.{AreInRow, CanSumWindows, window_sum, window_sums};
ghost use Rattle.ndarray.specs.base.Ranks.{row_from};

use crate::base::array::{Array, ArrayBase, ArrayView};
use crate::base::dimension::Lengths;
use crate::base::index_lists::counted_from;
use crate::elements::LinalgScalar;
use crate::linalg::row_sums::{add_scaled, push_zeros};
use crate::order::{Order, Row, Walk};
use std::alloc::{AllocError, Global};

/// The most positions whose sums are made at once, so that they stay in cache until all products are added.
const TILE: usize = 1024;

/// Whether sums that are made all at once take longer runs than inner sums do: if the rows of the positions are no shorter than those of
/// the kernel. A row of fewer than eight positions is not worth it.
pub(super) fn has_long_rows<D: Lengths>(positions: &D, kernel: &D) -> bool {
    let (Some(count), Some(columns)) = (positions.slice().last(), kernel.slice().last()) else {
        return false;
    };
    *count >= 8 && count >= columns
}

/// At each position of a window of the lengths of an array on another, the sum of the products of the window's cells with that array's.
pub(super) fn sums_by_rows<A: LinalgScalar, D: Lengths>(
    alloc: Global,
    a: &ArrayView<'_, A, D>,
    mirrored: &ArrayView<'_, A, D>,
    positions: D,
) -> Result<Array<A, D>, AllocError>
    requires can { CanSumWindows A.Valued a.now mirrored.now }
    requires counts { D.numbers positions ≡ valid_counts a.now.lengths mirrored.now.lengths }
    requires limit { IsWithinLimit (D.numbers positions) }
    ensures { MakesValues A.Valued (valid_counts a.now.lengths mirrored.now.lengths) (window_sum A.Valued a.now mirrored.now) result }
{
    let mut sums = Vec::with_capacity(alloc, positions.size())?;
    push_sums(&mut sums, a, mirrored, &positions);
    Ok(ArrayBase::from_elements(positions, Order::RowMajor, sums))
}

/// Pushes the sums at all positions, in row order.
fn push_sums<A: LinalgScalar, D: Lengths>(
    sums: &mut Vec<A>,
    a: &ArrayView<'_, A, D>,
    mirrored: &ArrayView<'_, A, D>,
    positions: &D,
)
    requires can { CanSumWindows A.Valued a.now mirrored.now }
    requires counts { D.numbers positions.now ≡ valid_counts a.now.lengths mirrored.now.lengths }
    requires limit { IsWithinLimit (D.numbers positions.now) }
    requires none { sums.old.items ≡ [] }
    requires room { size (D.numbers positions.now) ≤ vec_capacity sums.old }
    ensures { map A.meaning sums.new.items ≡ window_sums A.Valued a.now mirrored.now (row_order (D.numbers positions.now)) }
{
    let mut left = Walk::new(positions.copied(), Order::RowMajor);
    while let Some(tile) = left.next_part(TILE) {
        push_tile(sums, a, mirrored, &tile);
    }
}

/// Pushes the sums at some positions of a row.
fn push_tile<A: LinalgScalar, D: Lengths>(
    sums: &mut Vec<A>,
    a: &ArrayView<'_, A, D>,
    mirrored: &ArrayView<'_, A, D>,
    tile: &Row<D>,
)
    requires can { CanSumWindows A.Valued a.now mirrored.now }
    requires row { AreInRow a.now.lengths mirrored.now.lengths (D.numbers tile.now.first) tile.now.axis tile.now.count }
    requires room { length sums.old.items + tile.now.count ≤ vec_capacity sums.old }
    ensures values { map A.meaning sums.new.items ≡ map A.meaning sums.old.items ++ window_sums A.Valued a.now mirrored.now (row_from (D.numbers tile.now.first) tile.now.axis tile.now.count) }
    ensures capacity { vec_capacity sums.old ≤ vec_capacity sums.new }
{
    let before = sums.len();
    push_zeros(sums, tile.count);
    add_products(&mut sums[before..], a, mirrored, tile);
}

/// Adds to sums that are zero the products of each window with the array of its lengths, cell by cell of that array.
fn add_products<A: LinalgScalar, D: Lengths>(
    sums: &mut [A],
    a: &ArrayView<'_, A, D>,
    mirrored: &ArrayView<'_, A, D>,
    tile: &Row<D>,
)
    requires can { CanSumWindows A.Valued a.now mirrored.now }
    requires row { AreInRow a.now.lengths mirrored.now.lengths (D.numbers tile.now.first) tile.now.axis tile.now.count }
    requires zeros { sums.old ≡ replicate tile.now.count A.zero }
    ensures { map A.meaning sums.new ≡ window_sums A.Valued a.now mirrored.now (row_from (D.numbers tile.now.first) tile.now.axis tile.now.count) }
{
    let _limit = a.raw_dim();
    let mut places = Walk::new(mirrored.raw_dim(), Order::RowMajor);
    while let Some(place) = places.next() {
        let first = counted_from(&place, &tile.first);
        let met = a.cells_along(&first, tile.axis, tile.count);
        add_scaled(sums, *mirrored.item(&place), met);
    }
}
