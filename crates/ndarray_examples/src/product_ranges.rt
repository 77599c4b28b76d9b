//! Functions on integers that ask first whether general and Kronecker products, products of three and four arrays, running products
//! and differences are in range, so that none requires anything.

ghost use Rattle.std.specs.Prelude.{◌≡◌, ◌≢◌, ◌⊎◌, ◌↔◌, ◌<◌, ◌-ℤ◌, ◌*ℤ◌, ◌*◌, ◌∷◌, [], false, length, slice_index, FitsSigned, IfErr, IfOk, IfSome, IsSome, IsTrue};
ghost use Rattle.std.specs.Int.{w64};
ghost use Rattle.ndarray.specs.AlongAxis.{Cumulates, IsDifferenceOf};
ghost use Rattle.ndarray.specs.AlongAxisRanges.{HasDifferencesInRange, HasRunningProductsInRange};
ghost use Rattle.ndarray.specs.ChainRanges.{HasChainInRange, HasMixedProductInRange, MixedProductHasCells};
ghost use Rattle.ndarray.specs.Chains.{HasColumn, HasMatrix, ShapesChain, ShapesMultiplyInPairs};
ghost use Rattle.ndarray.specs.Elementwise.{Assigns, CanAssign, CanMap};
ghost use Rattle.ndarray.specs.Index.{size};
ghost use Rattle.ndarray.specs.Limits.{IsWithinLimit};
ghost use Rattle.ndarray.specs.Matrices.{kronecker_product};
ghost use Rattle.ndarray.specs.Products.{Accumulates, AddsProduct, CanAccumulate, CanAddProduct, HasProductsInRange, ShapesMultiplyInto, column_entries, column_of, kronecker_lengths, matrix_entries, matrix_of, product_of};
ghost use Rattle.ndarray.specs.Subviews.{lanes_of};
ghost use Rattle.ndarray.specs.WholeValues.{HasMagnitudesInRange, whole_numbers};

use crate::range_tests::Checked;
use ndarray::linalg::{
    chain_fits, general_mat_mul, general_mat_vec_mul, kron, kron_dot, kron_dot_fits, kron_fits,
    mat_mul_fits, mat_vec_chain, mat_vec_fits,
};
use ndarray::{ArrayBase, Axis, Data, DataMut, IntegerScalar, Ix1, Ix2, Lengths, Valued};
use std::alloc::Global;

/// The Kronecker product of two matrices, or `None` where it would be beyond the limit or a product of a cell of each is no `i64`.
pub fn checked_kronecker_product<S: Data<Elem = i64>, T: Data<Elem = i64>>(
    alloc: Global,
    a: &ArrayBase<S, Ix2>,
    b: &ArrayBase<T, Ix2>,
) -> Checked<i64, Ix2>
    ensures when { let values = ⟦<i64 as Valued>⟧ in IfOk result (λ made. IsSome made ↔ (IsWithinLimit (kronecker_lengths a.now.lengths b.now.lengths) × HasProductsInRange values (matrix_of values a.now) (matrix_of values b.now))) }
    ensures product { let values = ⟦<i64 as Valued>⟧ in IfOk result (λ made. IfSome made (HasMatrix values (kronecker_product values.multiplication (matrix_of values a.now) (matrix_of values b.now)))) }
    ensures error { let values = ⟦<i64 as Valued>⟧ in IfErr result (λ _. IsWithinLimit (kronecker_lengths a.now.lengths b.now.lengths) × HasProductsInRange values (matrix_of values a.now) (matrix_of values b.now) × (size (kronecker_lengths a.now.lengths b.now.lengths) ≢ 0)) }
{
    if !kron_fits(a, b) {
        return Ok(None);
    }
    let product = kron(alloc, a, b)?;
    Ok(Some(product))
}

/// Leaves `alpha` times the product of two matrices plus `beta` times the old cells in the cells of a third, of any integer type; or returns
/// `false`, where the shapes do not meet, the absolute values of the products for some row and column add up to more than the type's greatest
/// number, or what is added is out of range, and leaves it as it is.
pub fn combine_product<A, S, T, U>(
    alpha: A,
    a: &ArrayBase<S, Ix2>,
    b: &ArrayBase<T, Ix2>,
    beta: A,
    c: &mut ArrayBase<U, Ix2>,
) -> bool
where
    A: IntegerScalar,
    S: Data<Elem = A>,
    T: Data<Elem = A>,
    U: DataMut<Elem = A>,
    ensures when { let values = whole_numbers A.value A.fits in IsTrue result ↔ (ShapesMultiplyInto a.now.lengths b.now.lengths c.old.lengths × HasMagnitudesInRange A.fits (matrix_of values a.now) (matrix_of values b.now)
        × CanAccumulate values alpha beta (matrix_entries (product_of values (matrix_of values a.now) (matrix_of values b.now))) c.old) }
    ensures unchanged { result ≡ false → c.new ≡ c.old }
    ensures combined { IsTrue result → Accumulates A.Valued alpha beta (matrix_entries (product_of A.Valued (matrix_of A.Valued a.now) (matrix_of A.Valued b.now))) c.old c.new }
{
    if !mat_mul_fits(alpha, a, b, beta, c) {
        return false;
    }
    general_mat_mul(alpha, a, b, beta, c);
    true
}

/// Leaves `alpha` times a matrix times a vector plus `beta` times the old cells in the cells of another vector, of any integer type; or returns
/// `false`, where the lengths do not meet, the absolute values of the products for some row add up to more than the type's greatest number, or
/// what is added is out of range, and leaves it as it is.
pub fn combine_column<A, S, T, U>(
    alpha: A,
    a: &ArrayBase<S, Ix2>,
    x: &ArrayBase<T, Ix1>,
    beta: A,
    y: &mut ArrayBase<U, Ix1>,
) -> bool
where
    A: IntegerScalar,
    S: Data<Elem = A>,
    T: Data<Elem = A>,
    U: DataMut<Elem = A>,
    ensures when { let values = whole_numbers A.value A.fits in IsTrue result ↔ (ShapesMultiplyInto a.now.lengths x.now.lengths y.old.lengths × HasMagnitudesInRange A.fits (matrix_of values a.now) (column_of values x.now)
        × CanAccumulate values alpha beta (column_entries (product_of values (matrix_of values a.now) (column_of values x.now))) y.old) }
    ensures unchanged { result ≡ false → y.new ≡ y.old }
    ensures combined { IsTrue result → Accumulates A.Valued alpha beta (column_entries (product_of A.Valued (matrix_of A.Valued a.now) (column_of A.Valued x.now))) y.old y.new }
{
    if !mat_vec_fits(alpha, a, x, beta, y) {
        return false;
    }
    general_mat_vec_mul(alpha, a, x, beta, y);
    true
}

/// Adds a multiple of an array, broadcast, to each cell of a table, of any integer type; or returns `false`, where it does not broadcast to the
/// table's shape, or a multiple or a sum is out of range, and leaves the table as it is.
pub fn add_multiple<
    A: IntegerScalar,
    S: DataMut<Elem = A>,
    T: Data<Elem = A>,
    D: Lengths,
    E: Lengths,
>(table: &mut ArrayBase<S, D>, factor: A, other: &ArrayBase<T, E>) -> bool
    ensures when { IsTrue result ↔ CanAssign (CanAddProduct (whole_numbers A.value A.fits) factor) table.old other.now }
    ensures unchanged { result ≡ false → table.new ≡ table.old }
    ensures sums { IsTrue result → Assigns (AddsProduct A.Valued factor) table.old other.now table.new }
{
    if !table.scaled_add_fits(factor, other) {
        return false;
    }
    table.scaled_add(factor, other);
    true
}

/// (AB)x, or `None` where the lengths do not agree or, where A has rows, for some row of Bx or of A(Bx) the absolute values of the products
/// add up to more than the greatest `i64`.
pub fn checked_chain<S: Data<Elem = i64>, T: Data<Elem = i64>, U: Data<Elem = i64>>(
    alloc: Global,
    a: &ArrayBase<S, Ix2>,
    b: &ArrayBase<T, Ix2>,
    x: &ArrayBase<U, Ix1>,
) -> Checked<i64, Ix1>
    ensures when { IfOk result (λ made. IsSome made ↔ (ShapesChain a.now.lengths b.now.lengths x.now.lengths × HasChainInRange (λ n. n) (FitsSigned w64) a.now b.now x.now)) }
    ensures product { let values = ⟦<i64 as Valued>⟧ in IfOk result (λ made. IfSome made (HasColumn values (product_of values (product_of values (matrix_of values a.now) (matrix_of values b.now)) (column_of values x.now)))) }
    ensures error { let values = ⟦<i64 as Valued>⟧ in IfErr result (λ _. ShapesChain a.now.lengths b.now.lengths x.now.lengths × HasMagnitudesInRange (FitsSigned w64) (matrix_of values b.now) (column_of values x.now) × (slice_index a.now.lengths 0 ≢ 0)) }
{
    let fits = chain_fits(alloc, a, b, x)?;
    if !fits {
        return Ok(None);
    }
    let product = mat_vec_chain(alloc, a, b, x)?;
    Ok(Some(product))
}

/// (A kron B)(C kron D), or `None` where the lengths do not agree or are beyond the limit, or where the result has cells and for some row and
/// column of AC or of BD the absolute values of the products add up to more than the greatest `i64`, or a product of a cell of AC and one of
/// BD is no `i64`.
pub fn checked_mixed_product<
    S: Data<Elem = i64>,
    T: Data<Elem = i64>,
    U: Data<Elem = i64>,
    V: Data<Elem = i64>,
>(
    alloc: Global,
    a: &ArrayBase<S, Ix2>,
    b: &ArrayBase<T, Ix2>,
    c: &ArrayBase<U, Ix2>,
    d: &ArrayBase<V, Ix2>,
) -> Checked<i64, Ix2>
    ensures when { IfOk result (λ made. IsSome made ↔ (ShapesMultiplyInPairs a.now.lengths b.now.lengths c.now.lengths d.now.lengths × HasMixedProductInRange (λ n. n) (FitsSigned w64) a.now b.now c.now d.now)) }
    ensures product { let values = ⟦<i64 as Valued>⟧ in let times = values.multiplication in IfOk result (λ made. IfSome made (HasMatrix values
        (product_of values (kronecker_product times (matrix_of values a.now) (matrix_of values b.now)) (kronecker_product times (matrix_of values c.now) (matrix_of values d.now))))) }
    ensures error { IfErr result (λ _. ShapesMultiplyInPairs a.now.lengths b.now.lengths c.now.lengths d.now.lengths × MixedProductHasCells a.now b.now c.now d.now) }
{
    let fits = kron_dot_fits(alloc, a, b, c, d)?;
    if !fits {
        return Ok(None);
    }
    let product = kron_dot(alloc, a, b, c, d)?;
    Ok(Some(product))
}

/// The running products along an axis, or `None` where there is no axis of that number or a product that is taken is no `i64`.
pub fn checked_running_products<S: Data<Elem = i64>, D: Lengths>(
    alloc: Global,
    a: &ArrayBase<S, D>,
    axis: Axis,
) -> Checked<i64, D>
    ensures when { IfOk result (λ made. IsSome made ↔ ((axis.0 < length a.now.lengths) × CanMap (λ lane. HasRunningProductsInRange (λ x. x) (FitsSigned w64) lane.cells) (lanes_of a.now axis.0))) }
    ensures products { IfOk result (λ made. IfSome made (Cumulates (λ x p z. z ≡ x *ℤ p) axis.0 a.now)) }
    ensures error { IfErr result (λ _. (axis.0 < length a.now.lengths) × CanMap (λ lane. HasRunningProductsInRange (λ x. x) (FitsSigned w64) lane.cells) (lanes_of a.now axis.0) × (size a.now.lengths ≢ 0)) }
{
    if !a.cumprod_fits(axis) {
        return Ok(None);
    }
    let products = a.cumprod(alloc, axis)?;
    Ok(Some(products))
}

/// The difference of order `n` along an axis, or `None` where there is no axis of that number, the order is neither 0 nor below its length, or a
/// difference that is taken is no `i64`.
pub fn checked_differences<S: Data<Elem = i64>, D: Lengths>(
    alloc: Global,
    a: &ArrayBase<S, D>,
    n: usize,
    axis: Axis,
) -> Checked<i64, D>
    ensures when { IfOk result (λ made. IsSome made ↔ ((axis.0 < length a.now.lengths) × ((n ≡ 0) ⊎ (n < slice_index a.now.lengths axis.0)) × HasDifferencesInRange (λ x. x) (FitsSigned w64) axis.0 n a.now)) }
    ensures differences { IfOk result (λ made. IfSome made (IsDifferenceOf (λ y x z. z ≡ y -ℤ x) axis.0 n a.now)) }
    ensures error { IfErr result (λ _. (axis.0 < length a.now.lengths) × (size a.now.lengths ≢ 0)) }
{
    let fits = a.diff_fits(alloc, n, axis)?;
    if !fits {
        return Ok(None);
    }
    let differences = a.diff(alloc, n, axis)?;
    Ok(Some(differences))
}
