//! The lengths of joined arrays, or why they cannot be joined.

ghost use Rattle.std.specs.Prelude.{◌≡◌, ◌<◌, ◌≤◌, ◌^◌, length, IsTrue, MatchResult, MatchOption, Some, All, sum_by, slice_index};
ghost use Rattle.std.specs.List.{list_all};
ghost use Rattle.ndarray.specs.Grid.{IsGrid, same_index};
ghost use Rattle.ndarray.specs.Joining.{concatenate_error, concatenation_lengths, is_same_but_along, shapes_of, stack_error, stack_lengths};
ghost use Rattle.ndarray.specs.stacking.Blocks.{JoinsAs, outer_lengths};

use crate::base::array::ArrayView;
use crate::base::axis::Axis;
use crate::base::dimension::{Dimension, Lengths, RemoveAxis};
use crate::base::error::{ErrorKind, ShapeError};

/// The lengths of joined arrays, and those of the axes before the one along which they are joined, with 1 on each axis
/// of an array from there on.
#[derive(Drop)]
pub(crate) struct JoinedShape<D, E> {
    pub(crate) outer: D,
    pub(crate) dim: E,
}

/// The lengths of arrays joined along an axis, or the first reason why they cannot be joined.
pub(crate) fn concatenated_shape<A, D: RemoveAxis>(
    axis: Axis,
    arrays: &[ArrayView<'_, A, D>],
) -> Result<JoinedShape<D, D>, ShapeError>
    ensures { MatchResult result (λ s. JoinsAs axis.0 (concatenate_error axis.0) (concatenation_lengths axis.0) arrays.now (D.numbers s.outer) (D.numbers s.dim)) (λ e. concatenate_error axis.0 (shapes_of arrays.now) ≡ Some e.kind) }
{
    let Some((first, others)) = arrays.split_first() else {
        return Err(ShapeError::from_kind(ErrorKind::Unsupported));
    };
    if !first.axis_ok(axis) {
        return Err(ShapeError::from_kind(ErrorKind::OutOfBounds));
    }
    let first = first.raw_dim();
    if !are_same_but_along(axis.0, &first, others) {
        return Err(ShapeError::from_kind(ErrorKind::IncompatibleShape));
    }
    let Some(len) = total_len(axis, arrays) else {
        return Err(ShapeError::from_kind(ErrorKind::Overflow));
    };
    let mut dim = first.copied();
    dim.set_axis(axis.0, len);
    if !dim.size_ok() {
        return Err(ShapeError::from_kind(ErrorKind::Overflow));
    }
    let outer = outer_dim(axis.0, first);
    Ok(JoinedShape { outer, dim })
}

/// The lengths of arrays stacked along a new axis, or the first reason why they cannot be stacked.
pub(crate) fn stacked_shape<A, D: Dimension>(
    axis: Axis,
    arrays: &[ArrayView<'_, A, D>],
) -> Result<JoinedShape<D, D::Larger>, ShapeError>
    ensures { MatchResult result (λ s. JoinsAs axis.0 (stack_error axis.0) (stack_lengths axis.0) arrays.now (D.numbers s.outer) (D.Larger.numbers s.dim)) (λ e. stack_error axis.0 (shapes_of arrays.now) ≡ Some e.kind) }
{
    let Some((first, others)) = arrays.split_first() else {
        return Err(ShapeError::from_kind(ErrorKind::Unsupported));
    };
    let first = first.raw_dim();
    if axis.0 > first.ndim() {
        return Err(ShapeError::from_kind(ErrorKind::OutOfBounds));
    }
    if !are_same(&first, others) {
        return Err(ShapeError::from_kind(ErrorKind::IncompatibleShape));
    }
    if first.ndim() >= 32 {
        return Err(ShapeError::from_kind(ErrorKind::RangeLimited));
    }
    let mut dim = first.insert_axis(axis);
    dim.set_axis(axis.0, arrays.len());
    if !dim.size_ok() {
        return Err(ShapeError::from_kind(ErrorKind::Overflow));
    }
    let outer = outer_dim(axis.0, first);
    Ok(JoinedShape { outer, dim })
}

/// Whether each array has as many axes as `first`, and the same lengths but along one axis.
fn are_same_but_along<A, D: Lengths>(axis: usize, first: &D, others: &[ArrayView<'_, A, D>]) -> bool
    requires { axis < length (D.numbers first.now) }
    ensures value { result ≡ list_all (is_same_but_along axis (D.numbers first.now)) (shapes_of others.now) }
    ensures whole { IsTrue result → All IsGrid others.now }
{
    for other in others {
        if !is_same_but_along(axis, first, other.raw_dim()) {
            return false;
        }
    }
    true
}

/// Whether the lengths are those of `first` but along one axis.
pub(crate) fn is_same_but_along<D: Lengths>(axis: usize, first: &D, mut other: D) -> bool
    requires { axis < length (D.numbers first.now) }
    ensures { result ≡ is_same_but_along axis (D.numbers first.now) (D.numbers other) }
{
    if axis >= other.ndim() {
        return false;
    }
    other.set_axis(axis, first.axis(axis));
    is_same(first, &other)
}

/// Whether each array has the lengths `first`.
fn are_same<A, D: Lengths>(first: &D, others: &[ArrayView<'_, A, D>]) -> bool
    ensures value { result ≡ list_all (same_index (D.numbers first.now)) (shapes_of others.now) }
    ensures whole { IsTrue result → All IsGrid others.now }
{
    for other in others {
        if !is_same(first, &other.raw_dim()) {
            return false;
        }
    }
    true
}

/// Whether the lengths are the same.
fn is_same<D: Lengths>(first: &D, other: &D) -> bool
    ensures { result ≡ same_index (D.numbers first.now) (D.numbers other.now) }
{
    first.slice() == other.slice()
}

/// The lengths along an axis added up, or `None` if they are beyond `usize::MAX`.
fn total_len<A, D: Lengths>(axis: Axis, arrays: &[ArrayView<'_, A, D>]) -> Option<usize>
    requires { All (λ g. axis.0 < length g.lengths) arrays.now }
    ensures { MatchOption result (2 ^ 64 ≤ sum_by (λ ns. slice_index ns axis.0) (shapes_of arrays.now)) (λ n. n ≡ sum_by (λ ns. slice_index ns axis.0) (shapes_of arrays.now)) }
{
    let mut total: usize = 0;
    for array in arrays {
        total = total.checked_add(array.len_of(axis))?;
    }
    Some(total)
}

/// The lengths with 1 on each axis from one on.
fn outer_dim<D: Lengths>(axis: usize, dim: D) -> D
    requires { axis ≤ length (D.numbers dim) }
    ensures { D.numbers result ≡ outer_lengths axis (D.numbers dim) }
{
    let mut outer = dim;
    for k in axis..outer.ndim() {
        outer.set_axis(k, 1);
    }
    outer
}
