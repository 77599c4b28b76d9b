//! Rows of products: the sums of the products of a vector with each column of a matrix.

ghost use Rattle.std.specs.Prelude.{◌≡◌, ◌+◌, ◌++◌, ◌∷◌, ◌<◌, ◌≤◌, [], IfSome, length, map, replicate, slice_index, slice_index_or};
ghost use Rattle.std.specs.Vec.{vec_capacity};
ghost use Rattle.ndarray.specs.Grid.{IsGrid};
ghost use Rattle.ndarray.specs.Products.{AddsProduct, CanAddProduct};
ghost use Rattle.ndarray.specs.Views.{axis_item};
ghost use Rattle.ndarray.specs.linalg.RowSums.{AddsRows, AddsRowsAt, AddsRowsTo, AddsScaledRow, AreAsLong, CanAddRows, CanAddRowsAt, CanAddScaledRow, CanSumRow, row_sums, row_sums_to};

use crate::base::array::ArrayView;
use crate::base::axis::Axis;
use crate::base::dimension::{Dimension, Ix1, Ix2};
use crate::base::strided::{Strided, cells_of};
use crate::elements::LinalgScalar;
use crate::elements::sums::add_product;
use crate::linalg::inner::inner_of;
use std::mem::size_of_val;

/// Pushes the sums of the products of a vector with each column of a matrix.
pub(crate) fn push_row<A: LinalgScalar>(
    sums: &mut Vec<A>,
    x: &ArrayView<'_, A, Ix1>,
    right: &ArrayView<'_, A, Ix2>,
)
    requires can { CanSumRow A.Valued x.now right.now }
    requires room { length sums.old.items + slice_index right.now.lengths 1 ≤ vec_capacity sums.old }
    ensures values { map A.meaning sums.new.items ≡ map A.meaning sums.old.items ++ row_sums A.Valued x.now right.now }
    ensures capacity { vec_capacity sums.old ≤ vec_capacity sums.new }
{
    if has_close_rows(right) {
        push_by_rows(sums, x, right);
    } else {
        push_by_columns(sums, x, right);
    }
}

/// Whether a matrix is read fast row by row: the rows are long, and their cells lie no farther apart than those of the columns.
pub(crate) fn has_close_rows<A>(matrix: &ArrayView<'_, A, Ix2>) -> bool {
    let (_, columns) = matrix.raw_dim().into_pattern();
    columns >= 8 && matrix.are_closer_along(1, 0)
}

/// Pushes the sums all at once: of each row of the matrix, the products are added to them.
fn push_by_rows<A: LinalgScalar>(
    sums: &mut Vec<A>,
    x: &ArrayView<'_, A, Ix1>,
    right: &ArrayView<'_, A, Ix2>,
)
    requires can { CanSumRow A.Valued x.now right.now }
    requires room { length sums.old.items + slice_index right.now.lengths 1 ≤ vec_capacity sums.old }
    ensures values { map A.meaning sums.new.items ≡ map A.meaning sums.old.items ++ row_sums A.Valued x.now right.now }
    ensures capacity { vec_capacity sums.old ≤ vec_capacity sums.new }
{
    let (_, columns) = right.raw_dim().into_pattern();
    let before = sums.len();
    push_zeros(sums, columns);
    add_rows(&mut sums[before..], x, right);
}

/// Pushes zeros.
pub(crate) fn push_zeros<A: LinalgScalar>(sums: &mut Vec<A>, many: usize)
    requires { length sums.old.items + many ≤ vec_capacity sums.old }
    ensures items { sums.new.items ≡ sums.old.items ++ replicate many A.zero }
    ensures capacity { vec_capacity sums.new ≡ vec_capacity sums.old }
{
    for _ in 0..many {
        sums.push_reserved(A::zero());
    }
}

/// A number, and a row of cells that it multiplies.
#[derive(Drop)]
struct ScaledRow<A, R> {
    number: A,
    cells: R,
}

/// Adds to sums that are zero the products of a vector with each column of a matrix, four rows of the matrix at a time.
pub(crate) fn add_rows<A: LinalgScalar>(
    sums: &mut [A],
    x: &ArrayView<'_, A, Ix1>,
    right: &ArrayView<'_, A, Ix2>,
)
    requires can { CanSumRow A.Valued x.now right.now }
    requires zeros { map A.meaning sums.old ≡ row_sums_to A.Valued 0 x.now right.now }
    ensures { map A.meaning sums.new ≡ row_sums A.Valued x.now right.now }
{
    let (rows, _) = right.raw_dim().into_pattern();
    let mut numbers = cells_of(x.view());
    let mut i = 0;
    'fours: while rows - i >= 4 {
        let a = next_row(&mut numbers, right, i);
        let b = next_row(&mut numbers, right, i + 1);
        let c = next_row(&mut numbers, right, i + 2);
        let d = next_row(&mut numbers, right, i + 3);
        add_four(sums, a, b, c, d);
        i += 4;
    }
    'others: while i < rows {
        let a = next_row(&mut numbers, right, i);
        add_scaled(sums, a.number, a.cells);
        i += 1;
    }
}

/// The next of some numbers, and a row of a matrix.
#[inline(always)]
fn next_row<'a, A: LinalgScalar>(
    numbers: &mut Strided<'_, A>,
    matrix: &'a ArrayView<'_, A, Ix2>,
    i: usize,
) -> ScaledRow<A, Strided<'a, A>>
    requires number { 0 < length numbers.old }
    requires row { i < slice_index matrix.now.lengths 0 }
    ensures number { numbers.old ≡ result.number ∷ numbers.new }
    ensures cells { result.cells ≡ (axis_item matrix.now 0 i).cells }
    ensures whole { IsGrid (axis_item matrix.now 0 i) }
{
    let _two = matrix.raw_dim();
    let Some(number) = numbers.next() else {
        unreachable!()
    };
    ScaledRow {
        number: *number,
        cells: cells_of(matrix.index_axis(Axis(0), i)),
    }
}

/// Adds to the sum at each place the products of four numbers and the cells of their rows there.
fn add_four<A: LinalgScalar>(
    sums: &mut [A],
    a: ScaledRow<A, Strided<'_, A>>,
    b: ScaledRow<A, Strided<'_, A>>,
    c: ScaledRow<A, Strided<'_, A>>,
    d: ScaledRow<A, Strided<'_, A>>,
)
    requires { CanAddRows A.Valued ((a.number, a.cells) ∷ (b.number, b.cells) ∷ (c.number, c.cells) ∷ (d.number, d.cells) ∷ []) sums.old }
    ensures { AddsRows A.Valued ((a.entry.number, a.entry.cells) ∷ (b.entry.number, b.entry.cells) ∷ (c.entry.number, c.entry.cells) ∷ (d.entry.number, d.entry.cells) ∷ []) sums.old sums.new }
{
    if let Some(first) = in_slice(&a) {
        if let Some(second) = in_slice(&b) {
            if let Some(third) = in_slice(&c) {
                if let Some(fourth) = in_slice(&d) {
                    return add_four_slices(sums, first, second, third, fourth);
                }
            }
        }
    }
    add_scaled(sums, a.number, a.cells);
    add_scaled(sums, b.number, b.cells);
    add_scaled(sums, c.number, c.cells);
    add_scaled(sums, d.number, d.cells);
}

/// The row as a slice, if its cells lie side by side.
#[inline(always)]
fn in_slice<'a, A: LinalgScalar>(
    row: &ScaledRow<A, Strided<'a, A>>,
) -> Option<ScaledRow<A, &'a [A]>>
    ensures { IfSome result (λ s. (s.number ≡ row.now.number) × (s.cells.now ≡ row.now.cells)) }
{
    let cells = row.cells.side_by_side()?;
    Some(ScaledRow {
        number: row.number,
        cells,
    })
}

/// The same for cells that lie side by side. So each sum is read and written once.
fn add_four_slices<A: LinalgScalar>(
    sums: &mut [A],
    a: ScaledRow<A, &[A]>,
    b: ScaledRow<A, &[A]>,
    c: ScaledRow<A, &[A]>,
    d: ScaledRow<A, &[A]>,
)
    requires { CanAddRows A.Valued ((a.number, a.cells.now) ∷ (b.number, b.cells.now) ∷ (c.number, c.cells.now) ∷ (d.number, d.cells.now) ∷ []) sums.old }
    ensures { AddsRows A.Valued ((a.entry.number, a.entry.cells.now) ∷ (b.entry.number, b.entry.cells.now) ∷ (c.entry.number, c.entry.cells.now) ∷ (d.entry.number, d.entry.cells.now) ∷ []) sums.old sums.new }
{
    let mut j = 0;
    // Numbers of eight bytes and more are multiplied one by one, and then four sums at a time are faster; narrower ones as vectors.
    if size_of_val(&a.number) >= 8 {
        j = add_in_fours(sums, &a, &b, &c, &d);
    }
    'cells: while j < sums.len() {
        sums[j] = sum_at(sums, j, &a, &b, &c, &d);
        j += 1;
    }
}

/// The same for as many places as four go into, and how many these are.
fn add_in_fours<A: LinalgScalar>(
    sums: &mut [A],
    a: &ScaledRow<A, &[A]>,
    b: &ScaledRow<A, &[A]>,
    c: &ScaledRow<A, &[A]>,
    d: &ScaledRow<A, &[A]>,
) -> usize
    requires { CanAddRows A.Valued ((a.now.number, a.now.cells.now) ∷ (b.now.number, b.now.cells.now) ∷ (c.now.number, c.now.cells.now) ∷ (d.now.number, d.now.cells.now) ∷ []) sums.old }
    ensures places { result ≤ length sums.old }
    ensures sums { AddsRowsTo A.Valued result ((a.now.number, a.now.cells.now) ∷ (b.now.number, b.now.cells.now) ∷ (c.now.number, c.now.cells.now) ∷ (d.now.number, d.now.cells.now) ∷ []) sums.old sums.new }
{
    let mut j = 0;
    'fours: while sums.len() - j >= 4 {
        let first = sum_at(sums, j, a, b, c, d);
        let second = sum_at(sums, j + 1, a, b, c, d);
        let third = sum_at(sums, j + 2, a, b, c, d);
        let fourth = sum_at(sums, j + 3, a, b, c, d);
        sums[j] = first;
        sums[j + 1] = second;
        sums[j + 2] = third;
        sums[j + 3] = fourth;
        j += 4;
    }
    j
}

/// The sum at a place with the products added.
#[inline(always)]
fn sum_at<A: LinalgScalar>(
    sums: &[A],
    j: usize,
    a: &ScaledRow<A, &[A]>,
    b: &ScaledRow<A, &[A]>,
    c: &ScaledRow<A, &[A]>,
    d: &ScaledRow<A, &[A]>,
) -> A
    requires place { j < length sums.now }
    requires rows { AreAsLong A.Valued (length sums.now) ((a.now.number, a.now.cells.now) ∷ (b.now.number, b.now.cells.now) ∷ (c.now.number, c.now.cells.now) ∷ (d.now.number, d.now.cells.now) ∷ []) }
    requires can { CanAddRowsAt A.Valued j ((a.now.number, a.now.cells.now) ∷ (b.now.number, b.now.cells.now) ∷ (c.now.number, c.now.cells.now) ∷ (d.now.number, d.now.cells.now) ∷ []) sums.now }
    ensures { AddsRowsAt A.Valued j ((a.now.number, a.now.cells.now) ∷ (b.now.number, b.now.cells.now) ∷ (c.now.number, c.now.cells.now) ∷ (d.now.number, d.now.cells.now) ∷ []) sums.now result }
{
    let sum = add_cell(sums[j], a, j);
    let sum = add_cell(sum, b, j);
    let sum = add_cell(sum, c, j);
    add_cell(sum, d, j)
}

/// A sum with the product of a row's number and the row's cell at a place added.
#[inline(always)]
fn add_cell<A: LinalgScalar>(sum: A, row: &ScaledRow<A, &[A]>, j: usize) -> A
    requires place { j < length row.now.cells.now }
    requires can { (d : A) → CanAddProduct A.Valued row.now.number sum (slice_index_or row.now.cells.now j d) }
    ensures { (d : A) → AddsProduct A.Valued row.now.number sum (slice_index_or row.now.cells.now j d) result }
{
    add_product(sum, row.number, row.cells[j])
}

/// Adds a number times each cell of a row to the sum at its place.
pub(crate) fn add_scaled<A: LinalgScalar>(sums: &mut [A], x: A, row: Strided<'_, A>)
    requires { CanAddScaledRow A.Valued x sums.old row }
    ensures { AddsScaledRow A.Valued x row.entry sums.old sums.new }
{
    match row.side_by_side() {
        Some(cells) => add_scaled_slice(sums, x, cells),
        None => add_scaled_steps(sums, x, row),
    }
}

/// The same for cells that lie side by side.
fn add_scaled_slice<A: LinalgScalar>(sums: &mut [A], x: A, cells: &[A])
    requires { CanAddScaledRow A.Valued x sums.old cells.now }
    ensures { AddsScaledRow A.Valued x cells.now sums.old sums.new }
{
    let mut j = 0;
    'cells: while j < cells.len() {
        sums[j] = add_product(sums[j], x, cells[j]);
        j += 1;
    }
}

/// The same for cells that lie a step apart.
fn add_scaled_steps<A: LinalgScalar>(sums: &mut [A], x: A, row: Strided<'_, A>)
    requires { CanAddScaledRow A.Valued x sums.old row }
    ensures { AddsScaledRow A.Valued x row.entry sums.old sums.new }
{
    let mut cells = row;
    let mut j = 0;
    while let Some(cell) = cells.next() {
        sums[j] = add_product(sums[j], x, *cell);
        j += 1;
    }
}

/// Pushes the sums one after another: the inner sum with each column.
fn push_by_columns<A: LinalgScalar>(
    sums: &mut Vec<A>,
    x: &ArrayView<'_, A, Ix1>,
    right: &ArrayView<'_, A, Ix2>,
)
    requires can { CanSumRow A.Valued x.now right.now }
    requires room { length sums.old.items + slice_index right.now.lengths 1 ≤ vec_capacity sums.old }
    ensures values { map A.meaning sums.new.items ≡ map A.meaning sums.old.items ++ row_sums A.Valued x.now right.now }
    ensures capacity { vec_capacity sums.old ≤ vec_capacity sums.new }
{
    let (_, columns) = right.raw_dim().into_pattern();
    let numbers = cells_of(x.view());
    for j in 0..columns {
        let column = cells_of(right.index_axis(Axis(1), j));
        sums.push_reserved(inner_of(numbers.again(), column));
    }
}
