//! Products of vectors and matrices.
//!
//! A product is defined on the values of the cells (`specs/Matrices.antt`): its value at row i and column j is the sum of the products of
//! the cells of row i of the left matrix with those of column j of the right one, an inner sum. Each call requires that every selection of
//! the products of an inner sum has its sum in range, so that no order of adding leaves the range.

mod chain_range_tests;
mod chains;
mod dynamic;
mod dynamic_range_tests;
mod entries;
mod general;
mod general_range_tests;
pub(crate) mod inner;
mod kronecker;
mod kronecker_range_test;
mod matrix_products;
mod product_tiles;
mod products;
mod range_tests;
pub(crate) mod row_sums;
mod scaled_addition;

pub use crate::linalg::chain_range_tests::{chain_fits, kron_dot_fits};
pub use crate::linalg::chains::{chain_ok, kron_dot, kron_dot_ok, mat_vec_chain};
pub use crate::linalg::general::{general_mat_mul, general_mat_vec_mul, mat_mul_ok, mat_vec_ok};
pub use crate::linalg::general_range_tests::{mat_mul_fits, mat_vec_fits};
pub use crate::linalg::kronecker::{kron, kron_ok};
pub use crate::linalg::kronecker_range_test::kron_fits;
pub use crate::linalg::products::{Dot, dot_ok};
pub use crate::linalg::range_tests::{IntegerDot, entries_fit};
