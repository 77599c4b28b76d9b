//! Functions that rest on laws: each cites a law of `ndarray::laws` on arrays that the calls made.

ghost use Rattle.std.specs.Prelude.{◌≡◌, ◌≢◌, ◌↔◌, ◌≤◌, ◌<◌, ◌∷◌, [], ◌+◌, ◌-◌, ◌^◌, pos, negsuc, ◌<ℤ◌, ◌+ℤ◌, length, reverse, slice_index, Err, None, IfErr, IfOk, IfSome, IsOk, IsSome, FitsSigned};
ghost use Rattle.std.specs.Int.{w64};
ghost use Rattle.ndarray.specs.AlongAxis.{IsDifferenceOf};
ghost use Rattle.ndarray.specs.Chains.{HasColumn, HasMatrix, ShapesChain, ShapesMultiplyInPairs};
ghost use Rattle.ndarray.specs.Errors.{shape_error};
ghost use Rattle.ndarray.specs.Grid.{IsGrid};
ghost use Rattle.ndarray.specs.Index.{size};
ghost use Rattle.ndarray.specs.Integers.{int_sums};
ghost use Rattle.ndarray.specs.Joining.{shapes_of, stack_error, stack_of};
ghost use Rattle.ndarray.specs.Laws.{ArePartsOf, CanTakeDifference};
ghost use Rattle.ndarray.specs.Limits.{IsWithinLimit};
ghost use Rattle.ndarray.specs.Matrices.{kronecker_product, transpose};
ghost use Rattle.ndarray.specs.Products.{HasSumsInRange, MakesMatrix, column_of, matrix_of, product_lengths, product_of};
ghost use Rattle.ndarray.specs.Sums.{IsSummable, total};
ghost use Rattle.ndarray.specs.Views.{transpose_of};
ghost use Rattle.ndarray.specs.declared.base.error.ErrorKind.{ErrorKind};
ghost use Rattle.ndarray.specs.declared.stacking.error.StackError.TheVariants.{Shape};
ghost use Rattle.ndarray_examples.specs.Chains.{HasBothChainsInRange, ShapesMultiplyInTurn};

use ndarray::laws::{
    column_order, diff_adds, mat_assoc, mat_transpose, stack_is_concat, triangles_part,
};
use ndarray::linalg::{chain_ok, kron_dot, kron_dot_ok, mat_vec_chain};
use ndarray::{
    Array, ArrayBase, ArrayView, Axis, Data, Ix1, Ix2, Lengths, LinalgScalar, StackError, Valued,
    concatenate,
};
use residue::Residue;
use std::alloc::{AllocError, Global};
use std::ops::Sub;

/// The sum of all cells, added up column after column, or `None` where some of the cells add up to more than an `i64`.
pub fn sum_by_columns<S: Data<Elem = i64>, D: Lengths>(array: &ArrayBase<S, D>) -> Option<i64>
    ensures fits { IsSome result ↔ IsSummable int_sums (FitsSigned w64) (transpose_of array.now).cells }
    ensures sum { IfSome result (λ s. s ≡ total int_sums array.now.cells) }
{
    column_order::<i64>();
    let _lengths = array.raw_dim();
    let columns = array.t();
    if columns.sums_fit() {
        Some(columns.sum())
    } else {
        None
    }
}

/// (AB)C and A(BC), which are equal arrays. The error is allocation failure.
pub fn both_chains<A: LinalgScalar>(
    alloc: Global,
    a: &ArrayView<'_, A, Ix2>,
    b: &ArrayView<'_, A, Ix2>,
    c: &ArrayView<'_, A, Ix2>,
) -> Result<(Array<A, Ix2>, Array<A, Ix2>), AllocError>
    requires shapes { ShapesMultiplyInTurn a.now.lengths b.now.lengths c.now.lengths }
    requires sums { HasBothChainsInRange A.Valued (matrix_of A.Valued a.now) (matrix_of A.Valued b.now) (matrix_of A.Valued c.now) }
    ensures product { IfOk result (λ r. HasMatrix A.Valued (product_of A.Valued (product_of A.Valued (matrix_of A.Valued a.now) (matrix_of A.Valued b.now)) (matrix_of A.Valued c.now)) r.0) }
    ensures same { IfOk result (λ r. r.0 ≡ r.1) }
    ensures empty { slice_index a.now.lengths 0 ≡ 0 → slice_index b.now.lengths 0 ≡ 0 → IsOk result }
{
    mat_assoc::<A>();
    let _lengths = (a.raw_dim(), b.raw_dim(), c.raw_dim());
    let left = a.dot(alloc, b)?;
    let first = left.dot(alloc, c)?;
    let right = b.dot(alloc, c)?;
    let second = a.dot(alloc, &right)?;
    Ok((first, second))
}

/// The transpose of a matrix times the matrix, which is symmetric. The error is allocation failure.
pub fn transpose_times_itself<A: LinalgScalar>(
    alloc: Global,
    a: &ArrayView<'_, A, Ix2>,
) -> Result<Array<A, Ix2>, AllocError>
    requires limit { IsWithinLimit (product_lengths (reverse a.now.lengths) a.now.lengths) }
    requires sums { HasSumsInRange A.Valued (transpose (matrix_of A.Valued a.now)) (matrix_of A.Valued a.now) }
    ensures product { MakesMatrix A.Valued (product_of A.Valued (transpose (matrix_of A.Valued a.now)) (matrix_of A.Valued a.now)) result }
    ensures symmetric { IfOk result (λ r. r ≡ transpose_of r) }
{
    mat_transpose::<A>();
    a.t().dot(alloc, a)
}

/// The cells from a diagonal of the last two axes on, and those before it, with zeros for the others: two arrays that have each cell
/// once between them, and whose sums add up to the sum of the array. The error is allocation failure.
pub fn triangles<S: Data<Elem = i64>, D: Lengths>(
    alloc: Global,
    array: &ArrayBase<S, D>,
    k: isize,
) -> Result<(Array<i64, D>, Array<i64, D>), AllocError>
    requires axes { 2 ≤ length array.now.lengths }
    requires above_least { negsuc (2 ^ 63 - 1) <ℤ k }
    ensures parts { IfOk result (λ p. ArePartsOf (pos 0) array.now p.0 p.1) }
    ensures totals { IfOk result (λ p. total int_sums p.0.cells +ℤ total int_sums p.1.cells ≡ total int_sums array.now.cells) }
    ensures empty { size array.now.lengths ≡ 0 → IsOk result }
{
    triangles_part::<i64>();
    let _whole = array.raw_dim();
    let upper = array.triu(alloc, k)?;
    let lower = array.tril(alloc, k - 1)?;
    Ok((upper, lower))
}

/// The two triangles of a matrix of residues modulo 5, from a diagonal on and before it, added up: the matrix. The error is
/// allocation failure.
pub fn sum_of_triangles<S: Data<Elem = Residue<5>>>(
    alloc: Global,
    matrix: &ArrayBase<S, Ix2>,
    k: isize,
) -> Result<Array<Residue<5>, Ix2>, AllocError>
    requires above_least { negsuc (2 ^ 63 - 1) <ℤ k }
    ensures same { IfOk result (λ r. r ≡ matrix.now) }
    ensures empty { size matrix.now.lengths ≡ 0 → IsOk result }
{
    triangles_part::<Residue<5>>();
    let _lengths = matrix.raw_dim();
    let upper = matrix.triu(alloc, k)?;
    let lower = matrix.tril(alloc, k - 1)?;
    &upper + &lower
}

/// The difference of order m and then of order n along an axis, which is the difference of order m + n. The error is allocation
/// failure.
pub fn differences_in_turn<A: Copy + Sub<A, Output = A>, S: Data<Elem = A>, D: Lengths>(
    alloc: Global,
    a: &ArrayBase<S, D>,
    m: usize,
    n: usize,
    axis: Axis,
) -> Result<Array<A, D>, AllocError>
    requires { CanTakeDifference A.can_sub A.sub_gives axis.0 (m + n) a.now }
    ensures differences { IfOk result (IsDifferenceOf A.sub_gives axis.0 (m + n) a.now) }
    ensures empty { size a.now.lengths ≡ 0 → IsOk result }
{
    diff_adds::<A>();
    let first = a.diff(alloc, m, axis)?;
    first.diff(alloc, n, axis)
}

/// Two vectors along a new axis, as `stack` makes it, by joining them with that axis inserted. The error is allocation failure.
pub fn stack_by_joining(
    alloc: Global,
    axis: Axis,
    first: &ArrayView<'_, i64, Ix1>,
    second: &ArrayView<'_, i64, Ix1>,
) -> Result<Array<i64, Ix2>, StackError>
    requires may_stack { stack_error axis.0 (shapes_of (first.now ∷ second.now ∷ [])) ≡ None }
    ensures shapes { (k : ErrorKind) → result ≢ Err (Shape (shape_error k)) }
    ensures cells { IfOk result (λ r. r ≡ stack_of axis.0 (first.now ∷ second.now ∷ [])) }
    ensures whole { IfOk result IsGrid }
{
    stack_is_concat::<i64>();
    let one = first.view().insert_axis(axis);
    let other = second.view().insert_axis(axis);
    concatenate(alloc, axis, &[one, other])
}

/// (AB)x of residues modulo 5, which never leave the range, or `None` where the lengths do not agree. The error is allocation failure.
pub fn residue_chain<
    S: Data<Elem = Residue<5>>,
    T: Data<Elem = Residue<5>>,
    U: Data<Elem = Residue<5>>,
>(
    alloc: Global,
    a: &ArrayBase<S, Ix2>,
    b: &ArrayBase<T, Ix2>,
    x: &ArrayBase<U, Ix1>,
) -> Result<Option<Array<Residue<5>, Ix1>>, AllocError>
    ensures fits { IfOk result (λ made. IsSome made ↔ ShapesChain a.now.lengths b.now.lengths x.now.lengths) }
    ensures product { IfOk result (λ made. IfSome made (HasColumn ⟦<Residue<5> as Valued>⟧ (product_of ⟦<Residue<5> as Valued>⟧ (product_of ⟦<Residue<5> as Valued>⟧ (matrix_of ⟦<Residue<5> as Valued>⟧ a.now) (matrix_of ⟦<Residue<5> as Valued>⟧ b.now)) (column_of ⟦<Residue<5> as Valued>⟧ x.now)))) }
    ensures error { IfErr result (λ _. ShapesChain a.now.lengths b.now.lengths x.now.lengths × (slice_index a.now.lengths 0 ≡ 0 → slice_index b.now.lengths 0 ≡ 0 → ⊥)) }
{
    if !chain_ok(a, b, x) {
        return Ok(None);
    }
    let product = mat_vec_chain(alloc, a, b, x)?;
    Ok(Some(product))
}

/// (A kron B)(C kron D) of residues modulo 5, or `None` where the lengths do not agree or a matrix would be beyond the limit. The error is
/// allocation failure.
pub fn residue_kron_dot(
    alloc: Global,
    a: &Array<Residue<5>, Ix2>,
    b: &Array<Residue<5>, Ix2>,
    c: &Array<Residue<5>, Ix2>,
    d: &Array<Residue<5>, Ix2>,
) -> Result<Option<Array<Residue<5>, Ix2>>, AllocError>
    ensures fits { IfOk result (λ made. IsSome made ↔ ShapesMultiplyInPairs a.now.lengths b.now.lengths c.now.lengths d.now.lengths) }
    ensures product { IfOk result (λ made. IfSome made (HasMatrix ⟦<Residue<5> as Valued>⟧ (product_of ⟦<Residue<5> as Valued>⟧ (kronecker_product ⟦<Residue<5> as Valued>⟧.multiplication (matrix_of ⟦<Residue<5> as Valued>⟧ a.now) (matrix_of ⟦<Residue<5> as Valued>⟧ b.now)) (kronecker_product ⟦<Residue<5> as Valued>⟧.multiplication (matrix_of ⟦<Residue<5> as Valued>⟧ c.now) (matrix_of ⟦<Residue<5> as Valued>⟧ d.now))))) }
    ensures error { IfErr result (λ _. ShapesMultiplyInPairs a.now.lengths b.now.lengths c.now.lengths d.now.lengths) }
{
    if !kron_dot_ok(a, b, c, d) {
        return Ok(None);
    }
    let product = kron_dot(alloc, a, b, c, d)?;
    Ok(Some(product))
}
