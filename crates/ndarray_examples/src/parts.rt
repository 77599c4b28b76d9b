//! Functions that a user would write with least and greatest cells, diagonals, axes in another order, slices, other lengths, and
//! text. Each contract says what is computed.

ghost use Rattle.std.specs.Prelude.{◌≡◌, ◌↔◌, ◌≤◌, ◌∷◌, [], ℕ, All, IfOk, IfSome, IsSome, MatchOption, Some, length};
ghost use Rattle.std.specs.Fmt.{signed_decimal};
ghost use Rattle.std.specs.Ordering.{nat_cmp};
ghost use Rattle.std.specs.String.{string_bytes};
ghost use Rattle.ndarray.specs.ArrayTexts.{array_text};
ghost use Rattle.ndarray.specs.AxisOrders.{NamesEachAxis, axes_permuted};
ghost use Rattle.ndarray.specs.AxisSlices.{AreSlicesOf, axes_sliced};
ghost use Rattle.ndarray.specs.Diagonals.{diagonal_of};
ghost use Rattle.ndarray.specs.Extremes.{IsFirstBestCell, greater};
ghost use Rattle.ndarray.specs.Grid.{grid};
ghost use Rattle.ndarray.specs.Index.{size};
ghost use Rattle.ndarray.specs.Integers.{int_sums};
ghost use Rattle.ndarray.specs.Limits.{IsWithinLimit};
ghost use Rattle.ndarray.specs.Sums.{IsSummableBy, total_by};

use ndarray::{
    Array, ArrayBase, ArrayView, CowArray, Data, IntegerScalar, Ix1, Ix2, Ix3, Lengths, Slice,
};
use std::alloc::{AllocError, Global};

/// The darkest pixel of an image; `None` of one without pixels.
pub fn darkest<S: Data<Elem = u64>, D: Lengths>(image: &ArrayBase<S, D>) -> Option<u64>
    ensures { MatchOption result (length image.now.cells ≡ 0) (λ x. All (λ y. x ≤ y) image.now.cells) }
{
    image.min().copied()
}

/// Where the first of the brightest pixels of an image is, row by row; `None` of one without pixels.
pub fn brightest_at<S: Data<Elem = u64>>(image: &ArrayBase<S, Ix2>) -> Option<(usize, usize)>
    ensures { MatchOption result (length image.now.cells ≡ 0) (λ at. (x : ℕ) × IsFirstBestCell (greater nat_cmp) image.now (at.0 ∷ at.1 ∷ []) x) }
{
    image.argmax()
}

/// The trace of a matrix of any integer type, or `None` where some selection of the diagonal has a sum that is no number of the type.
pub fn trace<A: IntegerScalar, S: Data<Elem = A>>(a: &ArrayBase<S, Ix2>) -> Option<A>
    ensures when { IsSome result ↔ IsSummableBy int_sums A.fits A.value (diagonal_of a.now).cells }
    ensures total { IfSome result (λ sum. A.value sum ≡ total_by int_sums A.value (diagonal_of a.now).cells) }
{
    a.diag().checked_sum()
}

/// The diagonal of a matrix, from its lower triangle.
pub fn diagonal_of_lower<S: Data<Elem = i64>>(
    alloc: Global,
    a: &ArrayBase<S, Ix2>,
) -> Result<Array<i64, Ix1>, AllocError>
    ensures { IfOk result (λ d. d ≡ diagonal_of a.now) }
{
    let _axes = a.ndim();
    let lower = a.tril(alloc, 0)?;
    Ok(lower.into_diag())
}

/// An image with its axes in the order that is named; `None` where each axis is not named once.
pub fn reordered<'a>(
    image: ArrayView<'a, u8, Ix3>,
    order: (usize, usize, usize),
) -> Option<ArrayView<'a, u8, Ix3>>
    ensures { MatchOption result (NamesEachAxis (length image.entry.lengths) (order.0 ∷ order.1 ∷ order.2 ∷ []) → ⊥) (λ v. v ≡ axes_permuted image.entry (order.0 ∷ order.1 ∷ order.2 ∷ [])) }
{
    if !image.permutation_ok(order) {
        return None;
    }
    Some(image.permuted_axes(order))
}

/// A part of an image; `None` where a slice is not within its axis.
pub fn part_of<'b, S: Data<Elem = u64>>(
    image: &'b ArrayBase<S, Ix2>,
    rows: Slice,
    columns: Slice,
) -> Option<ArrayView<'b, u64, Ix2>>
    ensures { MatchOption result (AreSlicesOf image.now.lengths (rows ∷ columns ∷ []) → ⊥) (λ v. v ≡ axes_sliced 0 image.now (rows ∷ columns ∷ [])) }
{
    let slices = [rows, columns];
    if !image.slices_ok(&slices) {
        return None;
    }
    Some(image.slice(&slices))
}

/// The pixels of an image in a table of other lengths; `None` where these ask for another number of pixels.
pub fn in_a_table<'b, S: Data<Elem = u64>, D: Lengths>(
    alloc: Global,
    image: &'b ArrayBase<S, D>,
    rows: usize,
    columns: usize,
) -> Result<Option<CowArray<'b, u64, Ix2>>, AllocError>
    ensures when { IfOk result (λ made. IsSome made ↔ (IsWithinLimit (rows ∷ columns ∷ []) × (size (rows ∷ columns ∷ []) ≡ size image.now.lengths))) }
    ensures pixels { IfOk result (λ made. IfSome made (λ table. table ≡ grid (rows ∷ columns ∷ []) image.now.cells)) }
{
    if !image.to_shape_ok((rows, columns)) {
        return Ok(None);
    }
    let table = image.to_shape(alloc, (rows, columns))?;
    Ok(Some(table))
}

/// The text of a table of numbers.
pub fn table_text<S: Data<Elem = i64>, D: Lengths>(
    alloc: Global,
    table: &ArrayBase<S, D>,
) -> Result<String, AllocError>
    ensures { IfOk result (λ text. IfSome (array_text (λ x. Some (signed_decimal x)) table.now.lengths table.now.cells) (λ bytes. string_bytes text ≡ bytes)) }
{
    format!(in alloc; "{table}")
}
