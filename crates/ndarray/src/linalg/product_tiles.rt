//! General products in tiles: the sums of a run of cells are made all at once, in an array on the stack, and then added in.

ghost use Rattle.std.specs.Prelude.{◌≡◌, ◌+◌, ◌<◌, ◌≤◌, List, ℕ, Some, length, slice_index};
ghost use Rattle.std.specs.Mem.{type_size};
ghost use Rattle.ndarray.specs.Grid.{cell};
ghost use Rattle.ndarray.specs.Index.{InBox};
ghost use Rattle.ndarray.specs.linalg.ProductTiles.{AccumulatesIn, CanAccumulateIn, InRun, InTile, entries_along, list_along, other_index, row_along};
ghost use Rattle.ndarray.specs.Products.{Accumulates, AddsScaled, CanAccumulate, CanAddScaled, HasSumsInRange, matrix_of, product_of, row_of};
ghost use Rattle.ndarray.specs.linalg.RowSums.{CanSumRow};
ghost use Rattle.ndarray.specs.Writes.{with_cell};

use crate::base::array::{ArrayBase, ArrayView};
use crate::base::axis::Axis;
use crate::base::dimension::{Dimension, Ix1, Ix2, Lengths};
use crate::base::storage::DataMut;
use crate::elements::LinalgScalar;
use crate::linalg::row_sums::add_rows;

/// Leaves in the cells of an array the old values times `beta` plus `alpha` times the product of two matrices, whose columns lie along an
/// axis of the array, at most 256 columns at a time.
pub(crate) fn accumulate_matrix<A: LinalgScalar, S: DataMut<Elem = A>>(
    alpha: A,
    left: &ArrayView<'_, A, Ix2>,
    right: &ArrayView<'_, A, Ix2>,
    beta: A,
    array: &mut ArrayBase<S, Ix2>,
    axis: usize,
)
    requires small { type_size A.row ≤ 64 }
    requires inner { slice_index left.now.lengths 1 ≡ slice_index right.now.lengths 0 }
    requires sums { HasSumsInRange A.Valued (matrix_of A.Valued left.now) (matrix_of A.Valued right.now) }
    requires axis { axis < 2 }
    requires rows { other_index axis array.old.lengths ≡ slice_index left.now.lengths 0 }
    requires columns { slice_index array.old.lengths axis ≡ slice_index right.now.lengths 1 }
    requires scaled { CanAccumulate A.Valued alpha beta (entries_along axis 0 (product_of A.Valued (matrix_of A.Valued left.now) (matrix_of A.Valued right.now))) array.old }
    ensures { Accumulates A.Valued alpha beta (entries_along axis 0 (product_of A.Valued (matrix_of A.Valued left.now) (matrix_of A.Valued right.now))) array.old array.new }
{
    let _whole = array.raw_dim();
    let (rows, _) = left.raw_dim().into_pattern();
    let (_, columns) = right.raw_dim().into_pattern();
    if rows == 0 {
        // However many columns there are.
        return;
    }
    let mut first = 0;
    'tiles: while first < columns {
        let width = (columns - first).min(256);
        let part = right.part(1, first, width);
        accumulate_columns(alpha, left, &part, beta, array, axis, first);
        first += width;
    }
}

/// The same for the columns from one on, as many as a part of the right matrix has, row by row.
fn accumulate_columns<A: LinalgScalar, S: DataMut<Elem = A>>(
    alpha: A,
    left: &ArrayView<'_, A, Ix2>,
    part: &ArrayView<'_, A, Ix2>,
    beta: A,
    array: &mut ArrayBase<S, Ix2>,
    axis: usize,
    first: usize,
)
    requires small { type_size A.row ≤ 64 }
    requires inner { slice_index left.now.lengths 1 ≡ slice_index part.now.lengths 0 }
    requires sums { HasSumsInRange A.Valued (matrix_of A.Valued left.now) (matrix_of A.Valued part.now) }
    requires width { slice_index part.now.lengths 1 ≤ 256 }
    requires axis { axis < 2 }
    requires rows { other_index axis array.old.lengths ≡ slice_index left.now.lengths 0 }
    requires columns { first + slice_index part.now.lengths 1 ≤ slice_index array.old.lengths axis }
    requires scaled { CanAccumulateIn A.Valued (InTile axis 0 (slice_index left.now.lengths 0) first (first + slice_index part.now.lengths 1)) alpha beta (entries_along axis first (product_of A.Valued (matrix_of A.Valued left.now) (matrix_of A.Valued part.now))) array.old }
    ensures { AccumulatesIn A.Valued (InTile axis 0 (slice_index left.now.lengths 0) first (first + slice_index part.now.lengths 1)) alpha beta (entries_along axis first (product_of A.Valued (matrix_of A.Valued left.now) (matrix_of A.Valued part.now))) array.old array.new }
{
    let _whole = array.raw_dim();
    let (rows, _) = left.raw_dim().into_pattern();
    for i in 0..rows {
        let x = left.index_axis(Axis(0), i);
        // Whichever axis the columns lie along, the other index is i.
        accumulate_run(alpha, &x, part, beta, array, &Ix2(i, i), axis, first);
    }
}

/// Leaves in the cells of a vector the old values times `beta` plus `alpha` times the product of a vector and a matrix, at most 256
/// columns at a time.
pub(crate) fn accumulate_vector<A: LinalgScalar, S: DataMut<Elem = A>>(
    alpha: A,
    x: &ArrayView<'_, A, Ix1>,
    right: &ArrayView<'_, A, Ix2>,
    beta: A,
    array: &mut ArrayBase<S, Ix1>,
)
    requires small { type_size A.row ≤ 64 }
    requires can { CanSumRow A.Valued x.now right.now }
    requires columns { slice_index array.old.lengths 0 ≡ slice_index right.now.lengths 1 }
    requires scaled { CanAccumulate A.Valued alpha beta (row_along 0 0 (product_of A.Valued (row_of A.Valued x.now) (matrix_of A.Valued right.now))) array.old }
    ensures { Accumulates A.Valued alpha beta (row_along 0 0 (product_of A.Valued (row_of A.Valued x.now) (matrix_of A.Valued right.now))) array.old array.new }
{
    let _whole = array.raw_dim();
    let (_, columns) = right.raw_dim().into_pattern();
    let mut first = 0;
    'runs: while first < columns {
        let width = (columns - first).min(256);
        let part = right.part(1, first, width);
        accumulate_run(alpha, x, &part, beta, array, &Ix1(0), 0, first);
        first += width;
    }
}

/// Leaves in the cells of a run the old values times `beta` plus `alpha` times the sums of the products of a vector with each column of
/// a part of a matrix. The run goes along an axis, from a place on; on the other axes it is where the index list is. The sums are made in
/// an array on the stack.
fn accumulate_run<A: LinalgScalar, S: DataMut<Elem = A>, D: Lengths>(
    alpha: A,
    x: &ArrayView<'_, A, Ix1>,
    part: &ArrayView<'_, A, Ix2>,
    beta: A,
    array: &mut ArrayBase<S, D>,
    index: &D,
    axis: usize,
    first: usize,
)
    requires small { type_size A.row ≤ 64 }
    requires can { CanSumRow A.Valued x.now part.now }
    requires width { slice_index part.now.lengths 1 ≤ 256 }
    requires axis { axis < length array.old.lengths }
    requires axes { length (D.numbers index.now) ≡ length array.old.lengths }
    requires columns { first + slice_index part.now.lengths 1 ≤ slice_index array.old.lengths axis }
    requires within { (is : List ℕ) → InRun (D.numbers index.now) axis first (first + slice_index part.now.lengths 1) is → InBox array.old.lengths is }
    requires scaled { CanAccumulateIn A.Valued (InRun (D.numbers index.now) axis first (first + slice_index part.now.lengths 1)) alpha beta (row_along axis first (product_of A.Valued (row_of A.Valued x.now) (matrix_of A.Valued part.now))) array.old }
    ensures { AccumulatesIn A.Valued (InRun (D.numbers index.now) axis first (first + slice_index part.now.lengths 1)) alpha beta (row_along axis first (product_of A.Valued (row_of A.Valued x.now) (matrix_of A.Valued part.now))) array.old array.new }
{
    let (_, columns) = part.raw_dim().into_pattern();
    let mut tile = [A::zero(); 256];
    let sums = &mut tile[..columns];
    add_rows(sums, x, part);
    accumulate_sums(alpha, sums, beta, array, index, axis, first);
}

/// The same for sums that are made.
fn accumulate_sums<A: LinalgScalar, S: DataMut<Elem = A>, D: Lengths>(
    alpha: A,
    sums: &[A],
    beta: A,
    array: &mut ArrayBase<S, D>,
    index: &D,
    axis: usize,
    first: usize,
)
    requires axis { axis < length array.old.lengths }
    requires axes { length (D.numbers index.now) ≡ length array.old.lengths }
    requires columns { first + length sums.now ≤ slice_index array.old.lengths axis }
    requires within { (is : List ℕ) → InRun (D.numbers index.now) axis first (first + length sums.now) is → InBox array.old.lengths is }
    requires scaled { CanAccumulateIn A.Valued (InRun (D.numbers index.now) axis first (first + length sums.now)) alpha beta (list_along A.Valued axis first sums.now) array.old }
    ensures { AccumulatesIn A.Valued (InRun (D.numbers index.now) axis first (first + length sums.now)) alpha beta (list_along A.Valued axis first sums.now) array.old array.new }
{
    let _columns = array.raw_dim().axis(axis);
    let mut t = 0;
    'sums: while t < sums.len() {
        let mut at = index.copied();
        at.set_axis(axis, first + t);
        accumulate_cell(alpha, sums[t], beta, array, &at);
        t += 1;
    }
}

/// Leaves in a cell its old value times `beta` plus `alpha` times a sum.
#[inline(always)]
fn accumulate_cell<A: LinalgScalar, S: DataMut<Elem = A>, D: Lengths>(
    alpha: A,
    sum: A,
    beta: A,
    array: &mut ArrayBase<S, D>,
    index: &D,
)
    requires within { InBox array.old.lengths (D.numbers index.now) }
    requires scaled { (x : A) → cell array.old (D.numbers index.now) ≡ Some x → CanAddScaled A.Valued (A.meaning alpha) (A.meaning beta) (A.meaning x) (A.meaning sum) }
    ensures { (x : A) × (z : A) × (cell array.old (D.numbers index.now) ≡ Some x) × AddsScaled A.Valued (A.meaning alpha) (A.meaning beta) (A.meaning x) (A.meaning sum) (A.meaning z) × (array.new ≡ with_cell array.old (D.numbers index.now) z) }
{
    let Some(cell) = array.cell_mut(index) else {
        unreachable!()
    };
    *cell = scaled_sum(alpha, sum, beta, *cell);
}

/// A value times `beta` plus `alpha` times a sum; if `beta` is zero, `alpha` times the sum alone.
#[inline(always)]
pub(crate) fn scaled_sum<A: LinalgScalar>(alpha: A, sum: A, beta: A, old: A) -> A
    requires { CanAddScaled A.Valued (A.meaning alpha) (A.meaning beta) (A.meaning old) (A.meaning sum) }
    ensures { AddsScaled A.Valued (A.meaning alpha) (A.meaning beta) (A.meaning old) (A.meaning sum) (A.meaning result) }
{
    let added = alpha * sum;
    if beta.is_zero() {
        return added;
    }
    old * beta + added
}
