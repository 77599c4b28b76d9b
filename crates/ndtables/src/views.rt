//! Names of what the calculations take and give.

use crate::fault::Fault;
use ndarray::{Array, ArrayView, IxDyn};

/// A view with any number of axes.
pub type View<'a> = ArrayView<'a, i64, IxDyn>;

/// An array with any number of axes, or a fault.
pub type Made = Result<Array<i64, IxDyn>, Fault>;
