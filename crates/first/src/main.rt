//! A table: the sums of its rows, its greatest cell, and its product with its transpose.
#![tactic(auto)]

use ndarray::linalg::{Dot, entries_fit};
use ndarray::{ArrayView, Axis, Ix2};
use std::io;

fn main(rt: HostRuntime) -> io::Result<()> {
    let cells = [1, 2, 3, 4, 5, 6];
    let Ok(table) = ArrayView::<i64, Ix2>::from_shape((2, 3), &cells) else {
        return Ok(());
    };
    if table.sums_fit() {
        let sums = table.sum_axis(rt.alloc(), Axis(1))?;
        println!(rt; "sums of the rows: {sums}")?;
    }
    if let Some(greatest) = table.max() {
        println!(rt; "greatest cell: {greatest}")?;
    }
    let columns = table.t();
    if entries_fit(&table, &columns) {
        let product = table.dot(rt.alloc(), &columns)?;
        println!(rt; "times its transpose:\n{product}")?;
    }
    Ok(())
}
