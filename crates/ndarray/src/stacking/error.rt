//! Errors of joining arrays.

ghost use Rattle.std.specs.Prelude.{◌≡◌, Some};
ghost use Rattle.ndarray.specs.Joining.{stack_error_text};
ghost use Rattle.ndarray.specs.declared.stacking.error.StackError.TheVariants.{Shape, Memory};

use crate::base::error::ShapeError;
use std::alloc::AllocError;
use std::{error, fmt};

/// Why arrays were not joined: their shapes, or an allocation failure.
#[derive(Clone, Copy, PartialEq, Eq, Debug)]
pub enum StackError {
    /// What is wrong with the axis or the shapes.
    Shape(ShapeError),
    /// An allocation failed, for the array or for the clone of a cell.
    Memory(AllocError),
}

impl From<ShapeError> for StackError {
    ghost from_gives = { λ x y. y ≡ Shape x };

    fn from(error: ShapeError) -> StackError {
        StackError::Shape(error)
    }
}

impl From<AllocError> for StackError {
    ghost from_gives = { λ x y. y ≡ Memory x };

    fn from(error: AllocError) -> StackError {
        StackError::Memory(error)
    }
}

impl fmt::Display for StackError {
    ghost output = { λ e. Some (stack_error_text e) };

    fn fmt<W: fmt::Write>(&self, f: &mut fmt::Formatter<W>) -> fmt::Result {
        match *self {
            StackError::Shape(error) => write!(f, "{error}"),
            StackError::Memory(_) => f.write_str("memory allocation failed"),
        }
    }
}

impl error::Error for StackError {}
