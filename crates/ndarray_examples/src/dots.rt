//! Products of arrays whose number of axes is told as the program runs.

ghost use Rattle.std.specs.Prelude.{◌≡◌, ◌≢◌, ◌↔◌, IfErr, IfOk, IfSome, IsOk, IsSome};
ghost use Rattle.ndarray.specs.DotLaws.{HasOneOrTwoAxes, left_matrix, product_entries, right_matrix};
ghost use Rattle.ndarray.specs.DotRanges.{HasLaneMagnitudesInRange};
ghost use Rattle.ndarray.specs.Index.{size};
ghost use Rattle.ndarray.specs.Products.{HasSumsInRange, HasValues, ShapesMultiply, dot_entries, product_lengths};
ghost use Rattle.ndarray_examples.specs.Dots.{CanMultiplyInTurn, dot_of};

use ndarray::laws::{dot_agrees, dot_assoc};
use ndarray::linalg::{Dot, dot_ok, entries_fit};
use ndarray::{
    Array, ArrayBase, ArrayView, Data, IntegerScalar, IxDyn, Lengths, LinalgScalar, Valued,
};
use residue::Residue;
use std::alloc::{AllocError, Global};

/// The product of two arrays of residues modulo 97, which never leaves the range, or `None` where their shapes do not multiply.
pub fn residue_dot(
    alloc: Global,
    a: &ArrayView<'_, Residue<97>, IxDyn>,
    b: &ArrayView<'_, Residue<97>, IxDyn>,
) -> Result<Option<Array<Residue<97>, IxDyn>>, AllocError>
    ensures shapes { IfOk result (λ made. IsSome made ↔ ShapesMultiply a.now.lengths b.now.lengths) }
    ensures product { let values = ⟦<Residue<97> as Valued>⟧ in IfOk result (λ made. IfSome made (HasValues values (product_lengths a.now.lengths b.now.lengths) (dot_entries values a.now b.now))) }
    ensures error { IfErr result (λ _. ShapesMultiply a.now.lengths b.now.lengths × (size (product_lengths a.now.lengths b.now.lengths) ≢ 0)) }
{
    if !dot_ok(a, b) {
        return Ok(None);
    }
    let product = Dot::dot(a, alloc, b)?;
    Ok(Some(product))
}

/// The product of two vectors or matrices whose number of axes is told as the program runs.
pub fn dynamic_product<A: LinalgScalar>(
    alloc: Global,
    a: &ArrayView<'_, A, IxDyn>,
    b: &ArrayView<'_, A, IxDyn>,
) -> Result<Array<A, IxDyn>, AllocError>
    requires left { HasOneOrTwoAxes a.now.lengths }
    requires right { HasOneOrTwoAxes b.now.lengths }
    requires shapes { ShapesMultiply a.now.lengths b.now.lengths }
    requires sums { HasSumsInRange A.Valued (left_matrix A.Valued a.now) (right_matrix A.Valued b.now) }
    ensures product { IfOk result (HasValues A.Valued (product_lengths a.now.lengths b.now.lengths) (product_entries A.Valued a.now b.now)) }
    ensures empty { size (product_lengths a.now.lengths b.now.lengths) ≡ 0 → IsOk result }
{
    dot_agrees::<A>();
    let _whole = (a.raw_dim(), b.raw_dim());
    Dot::dot(a, alloc, b)
}

/// The product of two arrays of any integer type and any number of axes, or `None` where their shapes do not multiply or, at some
/// index list of the product, the absolute values of the products of the two lanes add up to more than the type's greatest number.
pub fn checked_dynamic_product<A: IntegerScalar, S: Data<Elem = A>, T: Data<Elem = A>>(
    alloc: Global,
    a: &ArrayBase<S, IxDyn>,
    b: &ArrayBase<T, IxDyn>,
) -> Result<Option<Array<A, IxDyn>>, AllocError>
    ensures when { IfOk result (λ made. IsSome made ↔ (ShapesMultiply a.now.lengths b.now.lengths × HasLaneMagnitudesInRange A.value A.fits a.now b.now)) }
    ensures product { IfOk result (λ made. IfSome made (HasValues A.Valued (product_lengths a.now.lengths b.now.lengths) (dot_entries A.Valued a.now b.now))) }
    ensures error { IfErr result (λ _. ShapesMultiply a.now.lengths b.now.lengths × HasLaneMagnitudesInRange A.value A.fits a.now b.now × (size (product_lengths a.now.lengths b.now.lengths) ≢ 0)) }
{
    let (a, b) = (a.view(), b.view());
    if !entries_fit(&a, &b) {
        return Ok(None);
    }
    let product = a.dot(alloc, &b)?;
    Ok(Some(product))
}

/// (a · b) · c of three arrays, which is a · (b · c). `None` where b has fewer than two axes, c has not two, or two of them do not
/// multiply; and where at some index list of a product the absolute values of the products of the two lanes add up to more than the
/// greatest `i64`. The error is allocation failure.
pub fn product_in_turn<S: Data<Elem = i64>, T: Data<Elem = i64>, U: Data<Elem = i64>>(
    alloc: Global,
    a: &ArrayBase<S, IxDyn>,
    b: &ArrayBase<T, IxDyn>,
    c: &ArrayBase<U, IxDyn>,
) -> Result<Option<Array<i64, IxDyn>>, AllocError>
    ensures when { IfOk result (λ made. IsSome made ↔ CanMultiplyInTurn a.now b.now c.now) }
    ensures from_left { IfOk result (λ made. IfSome made (λ r. r ≡ dot_of (dot_of a.now b.now) c.now)) }
    ensures from_right { IfOk result (λ made. IfSome made (λ r. r ≡ dot_of a.now (dot_of b.now c.now))) }
{
    dot_assoc::<i64>();
    let _whole = (a.raw_dim(), b.raw_dim(), c.raw_dim());
    if b.ndim() < 2 {
        return Ok(None);
    }
    if c.ndim() != 2 {
        return Ok(None);
    }
    let Some(first) = checked_dynamic_product(alloc, a, b)? else {
        return Ok(None);
    };
    checked_dynamic_product(alloc, &first, c)
}
