//! Functions on integers that ask first whether the results are in range, so that none requires anything.

ghost use Rattle.std.specs.Prelude.{◌≡◌, ◌≢◌, ◌↔◌, ◌<◌, ◌+ℤ◌, ◌-ℤ◌, ◌*ℤ◌, ◌*◌, ◌-◌, ◌∷◌, [], map, pos, neg_ℤ, false, FitsSigned, IfErr, IfOk, IfSome, IsOk, IsSome, IsTrue, slice_index};
ghost use Rattle.std.specs.Int.{w64};
ghost use Rattle.ndarray.specs.Broadcast.{broadcast_lengths};
ghost use Rattle.ndarray.specs.Chains.{HasColumn};
ghost use Rattle.ndarray.specs.Elementwise.{Assigns, CanAssign, CanCombine, CanMap, Combines, Maps};
ghost use Rattle.ndarray.specs.Everyday.{CanMapTwo, combined};
ghost use Rattle.ndarray.specs.Grid.{array_by};
ghost use Rattle.ndarray.specs.Index.{size};
ghost use Rattle.ndarray.specs.Integers.{int_products, int_sums, magnitude_product};
ghost use Rattle.ndarray.specs.Limits.{IsWithinLimit};
ghost use Rattle.ndarray.specs.Products.{HasValues, ShapesMultiply, column_entries, column_of, magnitude_sum, matrix_entries, matrix_of, product_of, products_of};
ghost use Rattle.ndarray.specs.Sums.{IsSummableBy, total, total_by};
ghost use Rattle.ndarray.specs.WholeValues.{HasMagnitudesInRange, whole_numbers, i64_values};
ghost use Rattle.ndarray_examples.specs.RangeTests.{AreProductsInRange, HasDiagonalInRange, MayApplyTwice, amplified_at, applied_twice, diagonal_product, product_of_two, projected_at};

use ndarray::linalg::entries_fit;
use ndarray::reduce::{checked_dot, dot_fits};
use ndarray::{
    Array, ArrayBase, ArrayView, Axis, Data, DataMut, DimMax, Dimension, IntegerScalar, Ix1, Ix2,
    Lengths, Valued,
};
use std::alloc::{AllocError, Global};

/// What a call that tests its range returns: an array, `None` where a result is out of range or the shapes do not fit, or that
/// there was no memory.
pub type Checked<A, D> = Result<Option<Array<A, D>>, AllocError>;

/// Subtracts a row from each row of a table; or returns `false`, where the row does not broadcast to the table's shape or a
/// difference is no `i64`, and leaves the table as it is.
pub fn subtract_row<S: DataMut<Elem = i64>, T: Data<Elem = i64>>(
    table: &mut ArrayBase<S, Ix2>,
    row: &ArrayBase<T, Ix1>,
) -> bool
    ensures when { IsTrue result ↔ CanAssign (λ x y. FitsSigned w64 (x -ℤ y)) table.old row.now }
    ensures unchanged { result ≡ false → table.new ≡ table.old }
    ensures differences { IsTrue result → Assigns (λ x y z. z ≡ x -ℤ y) table.old row.now table.new }
{
    if !table.sub_assign_fits(row) {
        return false;
    }
    *table -= row;
    true
}

/// The sums of the cells of two arrays broadcast together, or `None` where the shapes do not broadcast or a sum is no `i64`.
pub fn sums_in_range<S: Data<Elem = i64>, T: Data<Elem = i64>, D: DimMax<E>, E: Lengths>(
    alloc: Global,
    a: &ArrayBase<S, D>,
    b: &ArrayBase<T, E>,
) -> Checked<i64, <D as DimMax<E>>::Output>
    ensures when { IfOk result (λ made. IsSome made ↔ CanCombine a.now b.now (λ x y. FitsSigned w64 (x +ℤ y))) }
    ensures sums { IfOk result (λ made. IfSome made (Combines a.now b.now (λ x y z. z ≡ x +ℤ y))) }
    ensures error { IfErr result (λ _. CanCombine a.now b.now (λ x y. FitsSigned w64 (x +ℤ y))) }
{
    if !a.add_fits(b) {
        return Ok(None);
    }
    let copy = a.to_owned(alloc)?;
    let sums = (copy + b)?;
    Ok(Some(sums))
}

/// The sums of the cells of two arrays of one shape, or `None` where a sum is no `i64`.
pub fn sums_of_same_shape<S: Data<Elem = i64>, D: DimMax<D>>(
    a: &Array<i64, D>,
    b: &ArrayBase<S, D>,
) -> Checked<i64, <D as DimMax<D>>::Output>
    requires { a.now.lengths ≡ b.now.lengths }
    ensures when { IfOk result (λ made. IsSome made ↔ CanMapTwo (λ x y. FitsSigned w64 (x +ℤ y)) a.now b.now) }
    ensures sums { IfOk result (λ made. IfSome made (λ c. c ≡ combined (λ x y. x +ℤ y) a.now b.now)) }
{
    let _lengths = (a.raw_dim(), b.raw_dim());
    if !a.add_fits(b) {
        return Ok(None);
    }
    let sums = (a + b)?;
    Ok(Some(sums))
}

/// What is left of each cell after another is taken from it, or `None` where the shapes do not broadcast together or the other
/// is greater: an unsigned type has no number below 0.
pub fn what_is_left<D: Lengths + DimMax<D>>(
    whole: &Array<u64, D>,
    part: &Array<u64, D>,
) -> Checked<u64, <D as DimMax<D>>::Output>
    ensures when { IfOk result (λ made. IsSome made ↔ CanCombine whole.now part.now (λ x y. ⟦<u64 as num_traits::Number>⟧.fits (pos x -ℤ pos y))) }
    ensures rests { IfOk result (λ made. IfSome made (Combines whole.now part.now (λ x y z. z ≡ x - y))) }
    ensures error { IfErr result (λ _. CanCombine whole.now part.now (λ x y. ⟦<u64 as num_traits::Number>⟧.fits (pos x -ℤ pos y)) × (size (broadcast_lengths whole.now.lengths part.now.lengths) ≢ 0)) }
{
    if !whole.sub_fits(part) {
        return Ok(None);
    }
    let rests = (whole - part)?;
    Ok(Some(rests))
}

/// Adds a number to each cell; or returns `false`, where a sum is no `i64`, and leaves the array as it is.
pub fn add_to_each<S: DataMut<Elem = i64>, D: Lengths>(
    array: &mut ArrayBase<S, D>,
    more: i64,
) -> bool
    ensures when { IsTrue result ↔ CanMap (λ x. FitsSigned w64 (x +ℤ more)) array.old }
    ensures unchanged { result ≡ false → array.new ≡ array.old }
    ensures sums { IsTrue result → Maps (λ x z. z ≡ x +ℤ more) array.old array.new }
{
    if !array.add_scalar_fits(more) {
        return false;
    }
    *array += more;
    true
}

/// The products of the cells of a table and of one that is broadcast with it, or `None` where the shapes do not broadcast
/// together or a product is no `i64`.
pub fn products_in_range<T: Data<Elem = i64>, E: Lengths>(
    table: &Array<i64, Ix2>,
    factors: &ArrayBase<T, E>,
) -> Checked<i64, <Ix2 as DimMax<E>>::Output>
where
    Ix2: DimMax<E>,
    ensures when { IfOk result (λ made. IsSome made ↔ CanCombine table.now factors.now (λ x y. FitsSigned w64 (x *ℤ y))) }
    ensures products { IfOk result (λ made. IfSome made (Combines table.now factors.now (λ x y z. z ≡ x *ℤ y))) }
    ensures error { IfErr result (λ _. CanCombine table.now factors.now (λ x y. FitsSigned w64 (x *ℤ y)) × (size (broadcast_lengths table.now.lengths factors.now.lengths) ≢ 0)) }
{
    if !table.mul_fits(factors) {
        return Ok(None);
    }
    let products = (table * factors)?;
    Ok(Some(products))
}

/// The table of the products of each number of a vector and each one of another, or `None` where one of them is no `i64`. The
/// error is that there is no memory for it, as where it has more cells than an array may have; there is none where the first vector
/// has no cells.
pub fn multiplication_table<S: Data<Elem = i64>, T: Data<Elem = i64>>(
    alloc: Global,
    x: &ArrayBase<S, Ix1>,
    y: &ArrayBase<T, Ix1>,
) -> Checked<i64, Ix2>
    ensures when { IfOk result (λ made. IsSome made ↔ AreProductsInRange x.now y.now) }
    ensures products { IfOk result (λ made. IfSome made (λ t. t ≡ array_by (slice_index x.now.lengths 0 ∷ slice_index y.now.lengths 0 ∷ []) (product_of_two x.now y.now))) }
    ensures error { IfErr result (λ _. (IsWithinLimit (slice_index x.now.lengths 0 ∷ slice_index y.now.lengths 0 ∷ []) → AreProductsInRange x.now y.now) × (slice_index x.now.lengths 0 ≢ 0)) }
{
    let _lengths = (x.raw_dim(), y.raw_dim());
    let column = x.view().insert_axis(Axis(1));
    if !column.broadcast_ok(y) {
        return Err(AllocError);
    }
    if !column.mul_fits(y) {
        return Ok(None);
    }
    let copy = column.to_owned(alloc)?;
    let products = (copy * y)?;
    Ok(Some(products))
}

/// The negative of each cell, or `None` where a cell is the least `i64`.
pub fn opposite<D: Lengths>(array: Array<i64, D>) -> Checked<i64, D>
    ensures when { IfOk result (λ made. IsSome made ↔ CanMap (λ x. FitsSigned w64 (neg_ℤ x)) array) }
    ensures negatives { IfOk result (λ made. IfSome made (Maps (λ x z. z ≡ neg_ℤ x) array)) }
    ensures ok { IsOk result }
{
    if !array.neg_fits() {
        return Ok(None);
    }
    let negatives = (-array)?;
    Ok(Some(negatives))
}

/// The product of two matrices, or `None` where their shapes do not multiply or, for some row and column, the absolute values
/// of the products add up to more than the greatest `i64`.
pub fn matrix_product_in_range<S: Data<Elem = i64>, T: Data<Elem = i64>>(
    alloc: Global,
    a: &ArrayBase<S, Ix2>,
    b: &ArrayBase<T, Ix2>,
) -> Checked<i64, Ix2>
    ensures when { let values = ⟦<i64 as Valued>⟧ in IfOk result (λ made. IsSome made ↔ (ShapesMultiply a.now.lengths b.now.lengths × HasMagnitudesInRange (FitsSigned w64) (matrix_of values a.now) (matrix_of values b.now))) }
    ensures product { let values = ⟦<i64 as Valued>⟧ in let product = product_of values (matrix_of values a.now) (matrix_of values b.now) in IfOk result (λ made. IfSome made (HasValues values (product.rows ∷ product.columns ∷ []) (matrix_entries product))) }
    ensures error { let values = ⟦<i64 as Valued>⟧ in IfErr result (λ _. ShapesMultiply a.now.lengths b.now.lengths × HasMagnitudesInRange (FitsSigned w64) (matrix_of values a.now) (matrix_of values b.now) × (slice_index a.now.lengths 0 * slice_index b.now.lengths 1 ≢ 0)) }
{
    if !entries_fit(a, b) {
        return Ok(None);
    }
    let product = a.dot(alloc, b)?;
    Ok(Some(product))
}

/// The sum of all cells of any integer type, or `None` where some selection of them has a sum that is no number of the type.
pub fn checked_total<A: IntegerScalar, S: Data<Elem = A>, D: Lengths>(
    a: &ArrayBase<S, D>,
) -> Option<A>
    ensures when { IsSome result ↔ IsSummableBy int_sums A.fits A.value a.now.cells }
    ensures total { IfSome result (λ sum. A.value sum ≡ total_by int_sums A.value a.now.cells) }
{
    if a.sums_fit() { Some(a.sum()) } else { None }
}

/// The inner sum of two vectors of any integer type, or `None` where they are not of one length, or the absolute values of the
/// products add up to more than the type's greatest number.
pub fn checked_inner_sum<A: IntegerScalar, S: Data<Elem = A>, T: Data<Elem = A>>(
    alloc: Global,
    x: &ArrayBase<S, Ix1>,
    y: &ArrayBase<T, Ix1>,
) -> Option<A>
    ensures when { IsSome result ↔ ((x.now.lengths ≡ y.now.lengths) × A.fits (pos (magnitude_sum (products_of int_products A.value x.now.cells y.now.cells)))) }
    ensures sum { IfSome result (λ sum. A.value sum ≡ total int_sums (products_of int_products A.value x.now.cells y.now.cells)) }
{
    let (x, y) = (x.view(), y.view());
    if dot_fits(&x, &y) {
        Some(x.dot(alloc, &y))
    } else {
        None
    }
}

/// The product of all cells of any integer type, or `None` where the absolute values of those that are not zero multiply to more
/// than the type's greatest number.
pub fn checked_product<A: IntegerScalar, S: Data<Elem = A>, D: Lengths>(
    a: &ArrayBase<S, D>,
) -> Option<A>
    ensures when { IsSome result ↔ A.fits (pos (magnitude_product (map A.value a.now.cells))) }
    ensures product { IfSome result (λ product. A.value product ≡ total_by int_products A.value a.now.cells) }
{
    if a.products_fit() {
        Some(a.product())
    } else {
        None
    }
}

/// A matrix times a vector, of any integer type, or `None` where the lengths do not meet or, for some row, the absolute values of
/// the products add up to more than the type's greatest number.
pub fn checked_matrix_times_vector<A: IntegerScalar, S: Data<Elem = A>, T: Data<Elem = A>>(
    alloc: Global,
    a: &ArrayBase<S, Ix2>,
    x: &ArrayBase<T, Ix1>,
) -> Checked<A, Ix1>
    ensures when { let values = whole_numbers A.value A.fits in IfOk result (λ made. IsSome made ↔ (ShapesMultiply a.now.lengths x.now.lengths × HasMagnitudesInRange A.fits (matrix_of values a.now) (column_of values x.now))) }
    ensures product { let product = product_of A.Valued (matrix_of A.Valued a.now) (column_of A.Valued x.now) in IfOk result (λ made. IfSome made (HasValues A.Valued (product.rows ∷ []) (column_entries product))) }
    ensures error { let values = whole_numbers A.value A.fits in IfErr result (λ _. ShapesMultiply a.now.lengths x.now.lengths × HasMagnitudesInRange A.fits (matrix_of values a.now) (column_of values x.now) × (slice_index a.now.lengths 0 ≢ 0)) }
{
    let (a, x) = (a.view(), x.view());
    if !entries_fit(&a, &x) {
        return Ok(None);
    }
    let product = a.dot(alloc, &x)?;
    Ok(Some(product))
}

/// The inner sum of each row of a table with a vector, or `None` where the lengths do not meet or, for some row, the absolute values of the
/// products add up to more than the greatest `i64`.
pub fn projections<S: Data<Elem = i64>, T: Data<Elem = i64>>(
    alloc: Global,
    points: &ArrayBase<S, Ix2>,
    direction: &ArrayBase<T, Ix1>,
) -> Checked<i64, Ix1>
    ensures when { IfOk result (λ made. IsSome made ↔ (ShapesMultiply points.now.lengths direction.now.lengths × HasMagnitudesInRange (FitsSigned w64) (matrix_of i64_values points.now) (column_of i64_values direction.now))) }
    ensures sums { IfOk result (λ made. IfSome made (λ r. r ≡ array_by (slice_index points.now.lengths 0 ∷ []) (projected_at points.now direction.now))) }
    ensures error { IfErr result (λ _. ShapesMultiply points.now.lengths direction.now.lengths × HasMagnitudesInRange (FitsSigned w64) (matrix_of i64_values points.now) (column_of i64_values direction.now) × (slice_index points.now.lengths 0 ≢ 0)) }
{
    let _lengths = (points.raw_dim(), direction.raw_dim());
    if !entries_fit(points, direction) {
        return Ok(None);
    }
    let sums = points.dot(alloc, direction)?;
    Ok(Some(sums))
}

/// A square matrix times a vector, and the matrix times the product; or `None` where the matrix is not square, the lengths do not meet or,
/// for some row of one of the products, the absolute values of what is added make more than the greatest `i64`.
pub fn apply_twice(
    alloc: Global,
    a: &ArrayView<'_, i64, Ix2>,
    x: &ArrayView<'_, i64, Ix1>,
) -> Checked<i64, Ix1>
    ensures when { IfOk result (λ made. IsSome made ↔ MayApplyTwice a.now x.now) }
    ensures product { IfOk result (λ made. IfSome made (HasColumn i64_values (applied_twice a.now x.now))) }
    ensures error { IfErr result (λ _. slice_index a.now.lengths 0 ≢ 0) }
{
    let Some(once) = checked_matrix_times_vector(alloc, a, x)? else {
        return Ok(None);
    };
    let _limits = (a.raw_dim(), once.raw_dim());
    checked_matrix_times_vector(alloc, a, &once)
}

/// Whether two arrays of any layouts have the same sum; `None` where some selection of the cells of one has a sum that is no `i64`.
pub fn have_equal_sums<S: Data<Elem = i64>, T: Data<Elem = i64>, D: Lengths, E: Lengths>(
    a: &ArrayBase<S, D>,
    b: &ArrayBase<T, E>,
) -> Option<bool>
    ensures when { IsSome result ↔ (IsSummableBy int_sums (FitsSigned w64) (λ x. x) a.now.cells × IsSummableBy int_sums (FitsSigned w64) (λ x. x) b.now.cells) }
    ensures equal { IfSome result (λ same. IsTrue same ↔ (total_by int_sums (λ x. x) a.now.cells ≡ total_by int_sums (λ x. x) b.now.cells)) }
{
    let Some(first) = a.checked_sum() else {
        return None;
    };
    let Some(second) = b.checked_sum() else {
        return None;
    };
    Some(first == second)
}

/// The sum of the squares of a vector's cells, or `None` where it is no `i64`.
pub fn squared_length<S: Data<Elem = i64>>(x: &ArrayBase<S, Ix1>) -> Option<i64>
    ensures when { IsSome result ↔ FitsSigned w64 (pos (magnitude_sum (products_of int_products (λ x. x) x.now.cells x.now.cells))) }
    ensures sum { IfSome result (λ sum. sum ≡ total int_sums (products_of int_products (λ x. x) x.now.cells x.now.cells)) }
{
    checked_dot(x, x)
}

/// Each sample of a fixed-point signal times a gain, and then shifted right by a number of bits, which rounds down; or `None` where a
/// product is no `i64`. The error is allocation failure.
pub fn amplify<S: Data<Elem = i64>>(
    alloc: Global,
    signal: &ArrayBase<S, Ix1>,
    gain: i64,
    bits: u32,
) -> Checked<i64, Ix1>
    requires { bits < 64 }
    ensures when { IfOk result (λ made. IsSome made ↔ CanMap (λ x. FitsSigned w64 (x *ℤ gain)) signal.now) }
    ensures samples { IfOk result (λ made. IfSome made (λ s. s ≡ array_by signal.now.lengths (amplified_at gain bits signal.now))) }
    ensures error { IfErr result (λ _. CanMap (λ x. FitsSigned w64 (x *ℤ gain)) signal.now × (size signal.now.lengths ≢ 0)) }
{
    if !signal.mul_scalar_fits(gain) {
        return Ok(None);
    }
    let copy = signal.to_owned(alloc)?;
    let products = (copy * gain)?;
    let samples = (products >> bits)?;
    Ok(Some(samples))
}

/// The product of the numbers on the diagonal of a square matrix, which is the determinant where the matrix is triangular; or
/// `None`, where it is not square, or the product of the first few of them is no `i64`.
pub fn determinant_of_triangle<S: Data<Elem = i64>>(a: &ArrayBase<S, Ix2>) -> Option<i64>
    ensures when { IsSome result ↔ HasDiagonalInRange a.now }
    ensures product { IfSome result (λ p. p ≡ diagonal_product a.now (slice_index a.now.lengths 0)) }
{
    let (rows, columns) = a.raw_dim().into_pattern();
    if rows != columns {
        return None;
    }
    let mut product = 1i64;
    for i in 0..rows {
        let Some(x) = a.get((i, i)) else {
            unreachable!()
        };
        let Some(next) = product.checked_mul(*x) else {
            return None;
        };
        product = next;
    }
    Some(product)
}
