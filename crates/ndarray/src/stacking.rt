//! Arrays joined along an axis, or stacked along a new one.

ghost use Rattle.std.specs.Prelude.{◌≡◌, ◌↔◌, length, Err, IfOk, IsOk, None, Some};
ghost use Rattle.ndarray.specs.Elementwise.{ClonesAreEqual};
ghost use Rattle.ndarray.specs.Errors.{shape_error};
ghost use Rattle.ndarray.specs.Grid.{IsGrid};
ghost use Rattle.ndarray.specs.Index.{size};
ghost use Rattle.ndarray.specs.Joining.{concatenate_error, concatenation, concatenation_lengths, shapes_of, stack_error, stack_of, stack_lengths};
ghost use Rattle.ndarray.specs.declared.base.error.ErrorKind.{ErrorKind};
ghost use Rattle.ndarray.specs.declared.stacking.error.StackError.TheVariants.{Shape, Memory};

pub(crate) mod blocks;
mod error;
mod macros;
pub(crate) mod shapes;

use crate::base::array::{Array, ArrayView};
use crate::base::axis::Axis;
use crate::base::dimension::{Dimension, RemoveAxis};
use crate::stacking::blocks::joined_blocks;
pub use crate::stacking::error::StackError;
use crate::stacking::shapes::{concatenated_shape, stacked_shape};
use std::alloc::{AllocError, Global};

/// The array of clones of the cells of several arrays, one array after another along an axis. It has the lengths of the first, but along
/// that axis the sum of the lengths of all.
///
/// The error is the first of these that applies: `Unsupported` if there are no arrays; `OutOfBounds` if the first array does not have the
/// axis; `IncompatibleShape` if an array has another number of axes than the first one, or another length on an axis other than the joined
/// one; `Overflow` if the nonzero lengths of the result multiply to more than `isize::MAX`. If none applies, the error is an allocation
/// failure, for the array or for a clone, and is never reported if the result has no cells. Requires that each clone equals its source.
///
/// ```
/// let a = ArrayView::from_shape((2, 2), &[1, 2, 3, 4])?;
/// let b = ArrayView::from_shape((2, 1), &[5, 6])?;
/// concatenate(alloc, Axis(1), &[a, b])?; // [[1, 2, 5], [3, 4, 6]]
/// ```
pub fn concatenate<A: Clone, D: RemoveAxis>(
    alloc: Global,
    axis: Axis,
    arrays: &[ArrayView<'_, A, D>],
) -> Result<Array<A, D>, StackError>
    requires clones { ClonesAreEqual A.is_clone }
    ensures errors { (k : ErrorKind) → (result ≡ Err (Shape (shape_error k))) ↔ (concatenate_error axis.0 (shapes_of arrays.now) ≡ Some k) }
    ensures memory { (e : AllocError) → result ≡ Err (Memory e) → concatenate_error axis.0 (shapes_of arrays.now) ≡ None }
    ensures cells { IfOk result (λ r. r ≡ concatenation axis.0 arrays.now) }
    ensures whole { IfOk result IsGrid }
    ensures axes { IfOk result (λ r. D.has_axes (length r.lengths)) }
    ensures empty { concatenate_error axis.0 (shapes_of arrays.now) ≡ None → size (concatenation_lengths axis.0 (shapes_of arrays.now)) ≡ 0 → IsOk result }
{
    let shape = concatenated_shape(axis, arrays)?;
    let joined = joined_blocks(alloc, axis.0, arrays, shape)?;
    Ok(joined)
}

/// The array of clones of the cells of several arrays, stacked along a new axis: item i along it is array i. It has the lengths of one
/// array, with the number of arrays put in at that axis.
///
/// The error is the first of these that applies: `Unsupported` if there are no arrays; `OutOfBounds` if the axis is above the number of
/// axes of the first array; `IncompatibleShape` if shapes are unequal; `RangeLimited` if the result would have more than 32 axes;
/// `Overflow` if its nonzero lengths multiply to more than `isize::MAX`. If none applies, the error is an allocation failure, for the array
/// or for a clone, and is never reported if the result has no cells. Requires that each clone equals its source.
///
/// ```
/// let a = ArrayView::from_shape(2, &[1, 2])?;
/// let b = ArrayView::from_shape(2, &[3, 4])?;
/// stack(alloc, Axis(1), &[a, b])?; // [[1, 3], [2, 4]]
/// ```
pub fn stack<A: Clone, D: Dimension>(
    alloc: Global,
    axis: Axis,
    arrays: &[ArrayView<'_, A, D>],
) -> Result<Array<A, D::Larger>, StackError>
where
    D::Larger: RemoveAxis,
    requires clones { ClonesAreEqual A.is_clone }
    ensures errors { (k : ErrorKind) → (result ≡ Err (Shape (shape_error k))) ↔ (stack_error axis.0 (shapes_of arrays.now) ≡ Some k) }
    ensures memory { (e : AllocError) → result ≡ Err (Memory e) → stack_error axis.0 (shapes_of arrays.now) ≡ None }
    ensures cells { IfOk result (λ r. r ≡ stack_of axis.0 arrays.now) }
    ensures whole { IfOk result IsGrid }
    ensures axes { IfOk result (λ r. D.Larger.has_axes (length r.lengths)) }
    ensures empty { stack_error axis.0 (shapes_of arrays.now) ≡ None → size (stack_lengths axis.0 (shapes_of arrays.now)) ≡ 0 → IsOk result }
{
    let shape = stacked_shape(axis, arrays)?;
    let joined = joined_blocks(alloc, axis.0, arrays, shape)?;
    Ok(joined)
}
