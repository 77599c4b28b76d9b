//! Functions that a user would write over the library, each with what it computes as its contract; those of `reading` and
//! `writing` are proved safe. docs/CALLING.md goes through them.
#![tactic(auto)]

pub mod algebra;
pub mod centring;
pub mod counting;
pub mod dots;
pub mod everyday;
pub mod filters;
pub mod growing;
pub mod images;
pub mod laws;
pub mod laws_of_parts;
pub mod matrix_laws;
pub mod parts;
pub mod product_ranges;
pub mod range_tests;
pub mod reading;
pub mod scan_laws;
pub mod tables;
pub mod unrolled;
pub mod updating;
pub mod walks;
pub mod writing;

ghost use Rattle.std.specs.Prelude.{◌≡◌, ◌≢◌, ◌↔◌, ◌<◌, ◌≤◌, ◌≤ℤ◌, ◌^◌, ◌∷◌, [], ◌++◌, ◌+ℤ◌, ◌-ℤ◌, ◌-◌, ◌/◌, ◌*◌, ℕ, ℤ, List, Some, drop, int_lt, length, map, max, nat_lt, pos, replicate, slice_index, take, false, All, Contains, IfErr, IfOk, IfSome, IsOk, IsSome, IsTrue, FitsSigned};
ghost use Rattle.std.specs.Int.{w64};
ghost use Rattle.std.specs.List.{count_by, fold, list_all, list_any};
ghost use Rattle.ndarray.specs.AlongAxis.{Cumulates, IsDifference, one_further};
ghost use Rattle.ndarray.specs.Broadcast.{BroadcastsTo, broadcast_lengths};
ghost use Rattle.ndarray.specs.Chains.{HasColumn, HasMatrix};
ghost use Rattle.ndarray.specs.Elementwise.{CanCombine, Combines};
ghost use Rattle.ndarray.specs.Everyday.{lanes_mapped, mapped};
ghost use Rattle.ndarray.specs.Grid.{Grid, IsGrid, array_by, cell, one_axis};
ghost use Rattle.ndarray.specs.Index.{InBox, size};
ghost use Rattle.ndarray.specs.Integers.{int_products, int_sums, magnitude_product};
ghost use Rattle.ndarray.specs.Joining.{stack_of};
ghost use Rattle.ndarray.specs.Products.{column_entries, column_of, magnitude_sum, matrix_of, product_of, products_of, ShapesMultiply, ShapesMultiplyInto};
ghost use Rattle.ndarray.specs.Subviews.{window_counts};
ghost use Rattle.ndarray.specs.Sums.{IsSummable, total, total_by};
ghost use Rattle.ndarray.specs.WholeValues.{HasMagnitudesInRange};
ghost use Rattle.ndarray.specs.declared.stacking.error.StackError.TheVariants.{Memory};
ghost use Rattle.ndarray_examples.specs.Callers.{greater_at, greatest_in_square, half_at, multiple_added, off_diagonal, product_added, rest_at, sum_at, sum_below};
ghost use Rattle.residue.specs.Residue.{Below, modulus, modulus_pos, residue_products, residue_sums};

use ndarray::iter::{to_vec, to_vec_mapped};
use ndarray::linalg::{
    dot_ok, entries_fit, general_mat_mul, general_mat_vec_mul, mat_mul_ok, mat_vec_ok,
};
use ndarray::reduce::dot_fits;
use ndarray::{
    Array, ArrayBase, ArrayView, Axis, Data, DataMut, DimMax, Ix1, Ix2, Lengths, NdProducer,
    StackError, Valued, Zip, concatenate, scalar_left, stack,
};
use num_traits::{One, Zero};
use residue::Residue;
use std::alloc::{AllocError, Global};

/// Half of each cell, rounded down, whatever keeps the cells and however they lie.
pub fn halve<S: Data<Elem = u64>, D: Lengths>(
    alloc: Global,
    a: &ArrayBase<S, D>,
) -> Result<Array<u64, D>, AllocError>
    ensures halves { IfOk result (λ b. b ≡ array_by a.now.lengths (half_at a.now)) }
    ensures empty { size a.now.lengths ≡ 0 → IsOk result }
{
    Zip::from(a).map_collect(alloc, |x| *x / 2)
}

/// Halves each cell, rounded down, whatever keeps the cells and however they lie. The array keeps its lengths, and as many cells.
pub fn halve_in_place<S: DataMut<Elem = u64>, D: Lengths>(a: &mut ArrayBase<S, D>)
    ensures lengths { a.new.lengths ≡ a.old.lengths }
    ensures whole { IsGrid a.old → IsGrid a.new }
{
    for x in a.iter_mut() {
        *x /= 2;
    }
}

/// A copy of a table, with zeros on its diagonal.
pub fn clear_diagonal<S: Data<Elem = u64>>(
    alloc: Global,
    a: &ArrayBase<S, Ix2>,
) -> Result<Array<u64, Ix2>, AllocError>
    ensures cells { IfOk result (λ b. b ≡ array_by a.now.lengths (off_diagonal a.now)) }
    ensures empty { size a.now.lengths ≡ 0 → IsOk result }
{
    Zip::indexed(a).map_collect(alloc, |(i, j), x| if i == j { 0 } else { *x })
}

/// Each cell, raised to a limit where it is below it. The limits are broadcast, as one for each column.
pub fn raise_to<S: Data<Elem = u64>, T: Data<Elem = u64>, D: Lengths, E: Lengths>(
    alloc: Global,
    a: &ArrayBase<S, D>,
    limits: &ArrayBase<T, E>,
) -> Result<Array<u64, D>, AllocError>
    requires { BroadcastsTo limits.now.lengths a.now.lengths }
    ensures cells { IfOk result (λ b. b ≡ array_by a.now.lengths (greater_at a.now limits.now)) }
    ensures empty { size a.now.lengths ≡ 0 → IsOk result }
{
    Zip::from(a)
        .and_broadcast(limits)
        .map_collect(alloc, |x, y| (*x).max(*y))
}

/// References to the cells, in row order.
pub fn list_cells<'a, S: Data<Elem = u64>, D: Lengths>(
    alloc: Global,
    a: &'a ArrayBase<S, D>,
) -> Result<Vec<&'a u64>, AllocError>
    ensures cells { IfOk result (λ v. map (λ x. x.now) v.items ≡ a.now.cells) }
    ensures empty { length a.now.cells ≡ 0 → IsOk result }
{
    to_vec(alloc, a.iter())
}

/// Half of each cell, rounded down, in row order.
pub fn list_halves<S: Data<Elem = u64>, D: Lengths>(
    alloc: Global,
    a: &ArrayBase<S, D>,
) -> Result<Vec<u64>, AllocError>
    ensures halves { IfOk result (λ v. v.items ≡ map (λ x. x / 2) a.now.cells) }
    ensures empty { length a.now.cells ≡ 0 → IsOk result }
{
    to_vec_mapped(alloc, a.iter(), |x| *x / 2)
}

/// Whether each cell fits a byte.
pub fn all_bytes<S: Data<Elem = u64>, D: Lengths>(a: &ArrayBase<S, D>) -> bool
    ensures { result ≡ list_all (λ x. nat_lt x 256) a.now.cells }
{
    Zip::from(a.view()).all(|x| *x < 256)
}

/// Whether some cell fits a byte.
pub fn any_byte<S: Data<Elem = u64>, D: Lengths>(a: &ArrayBase<S, D>) -> bool
    ensures { result ≡ list_any (λ x. nat_lt x 256) a.now.cells }
{
    Zip::from(a.view()).any(|x| *x < 256)
}

/// The greatest cell, and 0 where there is none.
pub fn greatest<S: Data<Elem = u64>, D: Lengths>(a: &ArrayBase<S, D>) -> u64
    ensures { result ≡ fold max 0 a.now.cells }
{
    Zip::from(a.view()).fold(0, |most, x| most.max(*x))
}

/// The least cell of a table, and 0 where it has none.
pub fn least_cell(a: &ArrayView<'_, i64, Ix2>) -> i64
    ensures bounds { All (λ y. result ≤ℤ y) a.now.cells }
    ensures reached { length a.now.cells ≢ 0 → Contains a.now.cells result }
{
    let Some(first) = a.iter().next() else {
        return 0;
    };
    Zip::from(a.view()).fold(*first, |least, x| least.min(*x))
}

/// How many cells are greater than a bound.
pub fn count_above<S: Data<Elem = i64>, D: Lengths>(a: &ArrayBase<S, D>, bound: i64) -> usize
    ensures { result ≡ count_by (λ x. int_lt bound x) a.now.cells }
{
    a.iter().filter(|x| **x > bound).count()
}

/// The greatest cell of each view of a producer, as windows or chunks of a table, and 0 where a view has none.
pub fn greatest_of_each<'a, N: NdProducer<Item = ArrayView<'a, u64, Ix2>>>(
    alloc: Global,
    views: N,
) -> Result<Array<u64, N::Dim>, AllocError>
    ensures greatest { IfOk result (λ d. (view_at : List ℕ → Grid ℕ) → ((is : List ℕ) (v : Grid ℕ) → InBox (N.lengths views) is → N.yields_at views is v → v ≡ view_at is) → d ≡ array_by (N.lengths views) (λ is. fold max 0 (view_at is).cells)) }
    ensures empty { size (N.lengths views) ≡ 0 → IsOk result }
{
    Zip::from(views).map_collect(alloc, |view| greatest(&view))
}

/// The greatest pixel of each whole square of three by three pixels; the answer has no pixel where a side of the image is
/// shorter.
pub fn maximum_filter<S: Data<Elem = u64>>(
    alloc: Global,
    image: &ArrayBase<S, Ix2>,
) -> Result<Array<u64, Ix2>, AllocError>
    ensures greatest { IfOk result (λ d. d ≡ array_by (window_counts image.now.lengths (3 ∷ 3 ∷ []) (1 ∷ 1 ∷ [])) (greatest_in_square image.now)) }
    ensures empty { size (window_counts image.now.lengths (3 ∷ 3 ∷ []) (1 ∷ 1 ∷ [])) ≡ 0 → IsOk result }
{
    let _axes = image.ndim();
    greatest_of_each(alloc, image.windows((3, 3)))
}

/// The sum of residues, which never leaves the range.
pub fn residue_sum<const M: u32, S: Data<Elem = Residue<M>>, D: Lengths>(
    a: &ArrayBase<S, D>,
) -> Residue<M>
    ensures { result ≡ total_by (residue_sums (modulus M) (modulus_pos M)) (λ x. x) a.now.cells }
{
    a.sum()
}

/// The table whose cells are the sums of the cells of two tables of one shape.
pub fn table_sums(a: &Array<i64, Ix2>, b: &Array<i64, Ix2>) -> Result<Array<i64, Ix2>, AllocError>
    requires same { a.now.lengths ≡ b.now.lengths }
    requires fits { (is : List ℕ) (x y : ℤ) → cell a.now is ≡ Some x → cell b.now is ≡ Some y → FitsSigned w64 (x +ℤ y) }
    ensures sums { IfOk result (λ c. c ≡ array_by a.now.lengths (sum_at a.now b.now)) }
    ensures empty { size a.now.lengths ≡ 0 → IsOk result }
{
    let _lengths = (a.raw_dim(), b.raw_dim());
    a + b
}

/// Adds the cells of a table of residues to those of another of one shape, in the other's own storage. Sums of residues never leave the
/// range, and nothing is allocated: it never fails.
pub fn add_residues<const M: u32, S: Data<Elem = Residue<M>>>(
    a: Array<Residue<M>, Ix2>,
    b: &ArrayBase<S, Ix2>,
) -> Result<Array<Residue<M>, Ix2>, AllocError>
    requires { a.lengths ≡ b.now.lengths }
    ensures ok { IsOk result }
    ensures sums { IfOk result (Combines a.entry b.now (λ x y z. z ≡ (residue_sums (modulus M) (modulus_pos M)).op x y)) }
{
    let _lengths = (a.raw_dim(), b.raw_dim());
    a + b
}

/// The array of the sums of the cells of two arrays broadcast together, whatever keeps the cells and however they lie.
pub fn cell_sums<S: Data<Elem = i64>, T: Data<Elem = i64>, D: DimMax<D>>(
    alloc: Global,
    a: &ArrayBase<S, D>,
    b: &ArrayBase<T, D>,
) -> Result<Array<i64, <D as DimMax<D>>::Output>, AllocError>
    requires { CanCombine a.now b.now (λ x y. FitsSigned w64 (x +ℤ y)) }
    ensures sums { IfOk result (Combines a.now b.now (λ x y z. z ≡ x +ℤ y)) }
    ensures empty { size a.now.lengths ≡ 0 → size (broadcast_lengths a.now.lengths b.now.lengths) ≡ 0 → IsOk result }
{
    let copy = a.to_owned(alloc)?;
    copy + b
}

/// What is left of a whole at each part, and 0 where the part is greater. `u16` has no operators with a scalar on the
/// left.
pub fn rests<S: Data<Elem = u16>, D: Lengths>(
    alloc: Global,
    whole: u16,
    parts: &ArrayBase<S, D>,
) -> Result<Array<u16, D>, AllocError>
    ensures rests { IfOk result (λ rests. rests ≡ mapped (λ part. whole - part) parts.now) }
    ensures empty { size parts.now.lengths ≡ 0 → IsOk result }
{
    scalar_left(
        alloc,
        whole,
        parts,
        |whole, part| whole.saturating_sub(*part),
    )
}

/// Adds a row to each row of a table.
pub fn add_row(table: &mut Array<i64, Ix2>, row: &Array<i64, Ix1>)
    requires as_long { (n : ℕ) × (table.old.lengths ≡ n ∷ row.now.lengths) }
    requires fits { (i : ℕ) (js : List ℕ) (x y : ℤ) → cell table.old (i ∷ js) ≡ Some x → cell row.now js ≡ Some y → FitsSigned w64 (x +ℤ y) }
    ensures { table.new ≡ array_by table.old.lengths (sum_below table.old row.now) }
{
    let _length = row.raw_dim();
    *table += row;
}

/// The product of all cells, or `None` where the absolute values of those that are not zero multiply to more than the
/// greatest `i64`.
pub fn product_in_range<S: Data<Elem = i64>, D: Lengths>(a: &ArrayBase<S, D>) -> Option<i64>
    ensures fits { IsSome result ↔ FitsSigned w64 (pos (magnitude_product a.now.cells)) }
    ensures product { IfSome result (λ p. p ≡ total int_products a.now.cells) }
{
    if a.products_fit() {
        Some(a.product())
    } else {
        None
    }
}

/// The sum of each row of a table, or `None` where some of its numbers add up to no `i64`.
pub fn row_sums<S: Data<Elem = i64>>(
    alloc: Global,
    a: &ArrayBase<S, Ix2>,
) -> Result<Option<Array<i64, Ix1>>, AllocError>
    ensures fits { IfOk result (λ made. IsSome made ↔ IsSummable int_sums (FitsSigned w64) a.now.cells) }
    ensures sums { IfOk result (λ made. IfSome made (λ r. r ≡ lanes_mapped (λ l. total int_sums l.cells) a.now 1)) }
    ensures error { IfErr result (λ _. IsSummable int_sums (FitsSigned w64) a.now.cells × (slice_index a.now.lengths 0 ≢ 0)) }
{
    let table = a.view();
    if !table.sums_fit() {
        return Ok(None);
    }
    let sums = table.sum_axis(alloc, Axis(1))?;
    Ok(Some(sums))
}

/// Each cell one further along an axis minus the cell, as the increases in a table of a number for each year.
pub fn increases<S: Data<Elem = i64>, D: Lengths>(
    alloc: Global,
    a: &ArrayBase<S, D>,
    axis: Axis,
) -> Result<Array<i64, D>, AllocError>
    requires axis { axis.0 < length a.now.lengths }
    requires some { 1 < slice_index a.now.lengths axis.0 }
    requires fits { (is : List ℕ) (y x : ℤ) → cell a.now (one_further axis.0 is) ≡ Some y → cell a.now is ≡ Some x → FitsSigned w64 (y -ℤ x) }
    ensures differences { IfOk result (IsDifference (λ y x z. z ≡ y -ℤ x) axis.0 a.now) }
    ensures empty { size a.now.lengths ≡ 0 → IsOk result }
{
    a.diff(alloc, 1, axis)
}

/// The running products of residues along an axis, which never leave the range.
pub fn residue_running_products<const M: u32, S: Data<Elem = Residue<M>>, D: Lengths>(
    alloc: Global,
    a: &ArrayBase<S, D>,
    axis: Axis,
) -> Result<Array<Residue<M>, D>, AllocError>
    requires { axis.0 < length a.now.lengths }
    ensures products { IfOk result (Cumulates (λ x p z. z ≡ (residue_products (modulus M) (modulus_pos M)).op x p) axis.0 a.now) }
    ensures empty { size a.now.lengths ≡ 0 → IsOk result }
{
    a.cumprod(alloc, axis)
}

/// The table of two rows of numbers of one length.
pub fn two_rows(
    alloc: Global,
    first: &Array<i64, Ix1>,
    second: &Array<i64, Ix1>,
) -> Result<Array<i64, Ix2>, StackError>
    ensures table { IfOk result (λ t. t ≡ stack_of 0 (first.now ∷ second.now ∷ [])) }
    ensures second_row { IfOk result (λ t. (j : ℕ) → InBox t.lengths (1 ∷ j ∷ []) → cell t (1 ∷ j ∷ []) ≡ cell second.now (j ∷ [])) }
{
    stack(alloc, Axis(0), &[first.view(), second.view()])
}

/// Two vectors, one behind the other, whatever keeps their cells and however they lie.
pub fn join_vectors<S: Data<Elem = i64>, T: Data<Elem = i64>>(
    alloc: Global,
    first: &ArrayBase<S, Ix1>,
    second: &ArrayBase<T, Ix1>,
) -> Result<Array<i64, Ix1>, StackError>
    ensures { IfOk result (λ r. r ≡ one_axis (first.now.cells ++ second.now.cells)) }
{
    concatenate(alloc, Axis(0), &[first.view(), second.view()])
}

/// The cells of a vector from the one at `k` on, and behind them the first `k`; or `None`, where the vector has fewer.
pub fn exchange_halves<S: Data<Elem = i64>>(
    alloc: Global,
    x: &ArrayBase<S, Ix1>,
    k: usize,
) -> Result<Option<Array<i64, Ix1>>, StackError>
    ensures when { IfOk result (λ made. IsSome made ↔ (k ≤ length x.now.cells)) }
    ensures cells { IfOk result (λ made. IfSome made (λ r. r ≡ one_axis (drop k x.now.cells ++ take k x.now.cells))) }
    ensures error { IfErr result (λ _. (k ≤ length x.now.cells) × (length x.now.cells ≢ 0)) }
    ensures memory { IfErr result (λ e. (m : AllocError) × (e ≡ Memory m)) }
{
    let x = x.view();
    if x.len_of(Axis(0)) < k {
        return Ok(None);
    }
    let (first, rest) = x.split_at(Axis(0), k);
    let exchanged = concatenate(alloc, Axis(0), &[rest, first])?;
    Ok(Some(exchanged))
}

/// A signal with zeros behind it.
pub fn pad_with_zeros<S: Data<Elem = i64>>(
    alloc: Global,
    signal: &ArrayBase<S, Ix1>,
    more: usize,
) -> Result<Array<i64, Ix1>, StackError>
    requires { more < 2 ^ 63 }
    ensures { IfOk result (λ p. p ≡ one_axis (signal.now.cells ++ replicate more (pos 0))) }
{
    let zeros: Array<i64, Ix1> = Array::zeros(alloc, more)?;
    join_vectors(alloc, signal, &zeros)
}

/// The cells of a table on and below its diagonal, and zero above it.
pub fn lower_part<S: Data<Elem = i64>>(
    alloc: Global,
    a: &ArrayBase<S, Ix2>,
) -> Result<Array<i64, Ix2>, AllocError>
    ensures lengths { IfOk result (λ l. l.lengths ≡ a.now.lengths) }
    ensures whole { IfOk result IsGrid }
    ensures kept { IfOk result (λ l. (i j : ℕ) → InBox a.now.lengths (i ∷ j ∷ []) → j ≤ i → cell l (i ∷ j ∷ []) ≡ cell a.now (i ∷ j ∷ [])) }
    ensures zero { IfOk result (λ l. (i j : ℕ) → InBox a.now.lengths (i ∷ j ∷ []) → i < j → cell l (i ∷ j ∷ []) ≡ Some (pos 0)) }
    ensures empty { size a.now.lengths ≡ 0 → IsOk result }
{
    a.tril(alloc, 0)
}

/// The inner sum of two vectors, or `None` where they are not of one length, or the absolute values of the products add up to
/// more than the greatest `i64`.
pub fn inner_sum<S: Data<Elem = i64>, T: Data<Elem = i64>>(
    alloc: Global,
    x: &ArrayBase<S, Ix1>,
    y: &ArrayBase<T, Ix1>,
) -> Option<i64>
    ensures fits { IsSome result ↔ ((x.now.lengths ≡ y.now.lengths) × FitsSigned w64 (pos (magnitude_sum (products_of int_products (λ z. z) x.now.cells y.now.cells)))) }
    ensures sum { IfSome result (λ s. s ≡ total int_sums (products_of int_products (λ z. z) x.now.cells y.now.cells)) }
{
    if dot_fits(x, y) {
        Some(x.dot(alloc, y))
    } else {
        None
    }
}

/// The product of two matrices of residues, which never leaves the range, or `None` where their shapes do not multiply.
pub fn residue_product<const M: u32, S: Data<Elem = Residue<M>>, T: Data<Elem = Residue<M>>>(
    alloc: Global,
    a: &ArrayBase<S, Ix2>,
    b: &ArrayBase<T, Ix2>,
) -> Result<Option<Array<Residue<M>, Ix2>>, AllocError>
    ensures shapes { IfOk result (λ made. IsSome made ↔ ShapesMultiply a.now.lengths b.now.lengths) }
    ensures product { let values = ⟦<Residue<M> as Valued>⟧ in IfOk result (λ made. IfSome made (HasMatrix values (product_of values (matrix_of values a.now) (matrix_of values b.now)))) }
    ensures error { IfErr result (λ _. ShapesMultiply a.now.lengths b.now.lengths × (slice_index a.now.lengths 0 * slice_index b.now.lengths 1 ≢ 0)) }
{
    if !dot_ok(a, b) {
        return Ok(None);
    }
    let product = a.dot(alloc, b)?;
    Ok(Some(product))
}

/// A matrix times a vector, or `None` where the lengths do not meet, or the absolute values of the products of some row with
/// the vector add up to more than the greatest `i64`.
pub fn matrix_times_vector<S: Data<Elem = i64>, T: Data<Elem = i64>>(
    alloc: Global,
    a: &ArrayBase<S, Ix2>,
    x: &ArrayBase<T, Ix1>,
) -> Result<Option<Array<i64, Ix1>>, AllocError>
    ensures fits { let values = ⟦<i64 as Valued>⟧ in IfOk result (λ made. IsSome made ↔ (ShapesMultiply a.now.lengths x.now.lengths × HasMagnitudesInRange (FitsSigned w64) (matrix_of values a.now) (column_of values x.now))) }
    ensures product { let values = ⟦<i64 as Valued>⟧ in IfOk result (λ made. IfSome made (HasColumn values (product_of values (matrix_of values a.now) (column_of values x.now)))) }
    ensures error { let values = ⟦<i64 as Valued>⟧ in IfErr result (λ _. HasMagnitudesInRange (FitsSigned w64) (matrix_of values a.now) (column_of values x.now) × (slice_index a.now.lengths 0 ≢ 0)) }
{
    let (a, x) = (a.view(), x.view());
    if !entries_fit(&a, &x) {
        return Ok(None);
    }
    let product = a.dot(alloc, &x)?;
    Ok(Some(product))
}

/// A vector of residues modulo 5.
pub type Vector = Array<Residue<5>, Ix1>;

/// A matrix of residues modulo 5.
pub type Matrix = Array<Residue<5>, Ix2>;

/// Leaves a matrix times a vector in the cells of another vector, in residues modulo 5; or returns `false`, where the lengths do
/// not meet, and leaves it as it is.
pub fn multiply_into(a: &Matrix, x: &Vector, y: &mut Vector) -> bool
    ensures shapes { IsTrue result ↔ ShapesMultiplyInto a.now.lengths x.now.lengths y.old.lengths }
    ensures unchanged { result ≡ false → y.new ≡ y.old }
    ensures product { IsTrue result → y.new ≡ array_by y.old.lengths (column_entries (product_of ⟦<Residue<5> as Valued>⟧ (matrix_of ⟦<Residue<5> as Valued>⟧ a.now) (column_of ⟦<Residue<5> as Valued>⟧ x.now))) }
{
    if !mat_vec_ok(a, x, y) {
        return false;
    }
    general_mat_vec_mul(Residue::one(), a, x, Residue::zero(), y);
    true
}

/// Adds the product of two matrices to the cells of a third, in residues modulo 5; or returns `false`, where the shapes do not
/// meet, and leaves it as it is.
pub fn add_product(a: &Matrix, b: &Matrix, c: &mut Matrix) -> bool
    ensures shapes { IsTrue result ↔ ShapesMultiplyInto a.now.lengths b.now.lengths c.old.lengths }
    ensures unchanged { result ≡ false → c.new ≡ c.old }
    ensures sum { IsTrue result → c.new ≡ array_by c.old.lengths (product_added (product_of ⟦<Residue<5> as Valued>⟧ (matrix_of ⟦<Residue<5> as Valued>⟧ a.now) (matrix_of ⟦<Residue<5> as Valued>⟧ b.now)) c.old) }
{
    if !mat_mul_ok(a, b, c) {
        return false;
    }
    general_mat_mul(Residue::one(), a, b, Residue::one(), c);
    true
}

/// Adds a multiple of a row to each row of a table, in residues modulo 5.
pub fn add_multiple_of_row(table: &mut Matrix, factor: Residue<5>, row: &Vector)
    requires as_long { (n : ℕ) × (table.old.lengths ≡ n ∷ row.now.lengths) }
    ensures { table.new ≡ array_by table.old.lengths (multiple_added factor table.old row.now) }
{
    let _length = row.raw_dim();
    table.scaled_add(factor, row);
}
