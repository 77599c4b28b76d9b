//! Arrays of any number of axes: iterators, views, sums and products whose results are proved to depend only on the lengths and the cells
//! of an array, whatever its memory layout.
//!
//! A contract sees an array as its lengths and its cells (`specs/Grid.antt`). `from_shape_vec`, `zeros` and the like make arrays that own
//! their cells, and `ArrayView::from_shape` makes views over slices. Views are transposed, sliced and broadcast without a copy. `iter` goes
//! through the cells, `rows`, `axis_iter`, `windows` and the like go through subviews, and `Zip` goes through several arrays in lock step,
//! to read or to write. Operators compute with arrays cell by cell; `sum`, `product` and the like add up or multiply all cells of an array,
//! or those of each lane along an axis. `concatenate` and `stack` join arrays, and `triu` and `tril` make triangles; `dot`,
//! `general_mat_mul` and `kron` multiply vectors and matrices, and [`conv`] has convolutions. `map`, `combine`, `fold_axis` and other calls
//! of [`everyday`] take closures without state; `update` and `scan_lanes` replace cells in place. Tests such as `sums_fit`, `add_fits` and
//! [`linalg::entries_fit`] say whether what a call computes is in the range of its integer type, and [`laws`] has proved equations.
//!
//! The names are those of Rust's crate `ndarray` 0.17.2, and each call behaves as its page in the documentation of that crate says, except
//! for what `docs/DIFFERENCES.md` lists. That crate does not have the tests whose names end in `_fits` or `_ok`, `checked_sum`,
//! `checked_dot`, `combine`, `equals`, `update`, `scan_lanes`, `try_zip_assign`, `scalar_left`, `mat_vec_chain`, `kron_dot`, [`conv`] and
//! [`laws`].
//!
//! # Operators
//!
//! `+ - * / % & | ^ << >>` are defined between an `Array`, or a reference to one, and another array, between a reference to any array and
//! an owned `Array`, and between an `Array`, or a reference to one, and a scalar. They return a `Result<Array<..>, AllocError>`: the array
//! that has at each index list what the elements' operation returns for the two cells there, the left one first, with the shapes broadcast
//! together. `-` and `!` apply to each cell of an `Array`.
//!
//! They require that the shapes broadcast together, that the elements' operation is defined on each pair of cells that meet, and that each
//! clone equals its source. For integers `add_fits` and the like test the first two; `broadcast_ok` tests the shapes only, and the example
//! of `broadcast_dim` shows how to test pairs of other elements.
//!
//! The result is written into the cells of the owned operand, or of the left one if both are owned, if that has the result's shape;
//! otherwise it is allocated. The elements of the result have the type of the left array's, but that of the right array's if only the right
//! one is owned. The error is an allocation failure, for the array or for a clone. It leaves borrowed operands as they were, and drops
//! owned ones. It is never reported if the result has no cells, nor if the result is written into an operand and no clone can fail.
//!
//! The assigning forms, as `+=`, require that the right side broadcasts to the left array's shape, which `right.broadcast(left.raw_dim())`
//! tests, and that the elements' operation is defined on each pair of cells. They need elements that are `Copy`, and allocate nothing. For
//! other elements there is `try_zip_assign`.
#![tactic(auto)]

pub mod base;
pub mod conv;
pub mod elements;
pub mod everyday;
pub mod into_owned;
pub mod iter;
pub mod laws;
pub mod linalg;
mod ops;
pub mod order;
pub(crate) mod places;
pub mod reduce;
pub mod stacking;
pub mod subviews;
mod tri;
pub mod unrolled;
pub mod zip;

pub use crate::base::array::{
    Array, ArrayBase, ArrayView, ArrayView1, ArrayViewMut, ArrayViewMut1, CowArray,
};
pub use crate::base::axis::Axis;
pub use crate::base::dim_max::DimMax;
pub use crate::base::dimension::{
    Dim, Dimension, Ix0, Ix1, Ix2, Ix3, Ix4, Ix5, Ix6, IxDyn, Lengths, RemoveAxis,
};
pub use crate::base::error::{ErrorKind, ShapeError};
pub use crate::base::indices::indices;
pub use crate::base::into_dimension::IntoDimension;
pub use crate::base::shape::{Shape, ShapeBuilder};
pub use crate::base::slice::Slice;
pub use crate::base::storage::{CowRepr, Data, DataMut, DataOwned, OwnedRepr, ViewRepr};
pub use crate::elements::{
    IntegerElem, IntegerScalar, LinalgScalar, ProductElem, ScalarOperand, SumElem, Valued,
};
pub use crate::ops::scalar_left;
pub use crate::stacking::{StackError, concatenate, stack};
pub use crate::zip::{FoldWhile, IntoBroadcast, IntoNdProducer, NdProducer, Shaped, Zip};
