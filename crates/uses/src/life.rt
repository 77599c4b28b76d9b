//! A grid simulation: the game of life.
//!
//! A grid of cells, alive or dead, changes in steps. A cell's neighbours are the eight cells next to it, of which those outside
//! the grid are dead. A living cell with two or three living neighbours lives on; a dead one with three comes to life; all others
//! are dead in the next generation.
//!
//! One step is an array made by `from_shape_fn`, which calls a function for each index list; that reads the cell there and its
//! neighbours through a view and returns the next state. The closure calls a function with a contract, and the clause `inside`
//! of that call leads from what it returns in the grid to what the whole array is. So the contract of `step` says each cell of
//! the next generation by the rule, for any layout of the grid. Nothing is required of the grid: one without cells has no next
//! generation but itself.
//!
//! ```
//! let row = ArrayView::from_shape((3, 3), &[o, o, o, x, x, x, o, o, o])?;
//! step(alloc, &row)?; // three in a column: [o, x, o, o, x, o, o, x, o]
//! ```

ghost use Rattle.std.specs.Prelude.{◌≡◌, ◌<◌, ◌≤◌, ◌+◌, ◌^◌, ◌∷◌, [], IfOk, IsOk};
ghost use Rattle.ndarray.specs.Grid.{cell};
ghost use Rattle.ndarray.specs.Index.{InBox, size};
ghost use Rattle.uses.specs.Life.{generation, living, living_in_row, next_state_at, next_generation};

use ndarray::{Array, ArrayBase, ArrayView, Data, Dimension, Ix2};
use std::alloc::{AllocError, Global};

/// The grid after a number of steps; one without cells at once. The error is allocation failure.
pub fn after<S: Data<Elem = bool>>(
    alloc: Global,
    grid: &ArrayBase<S, Ix2>,
    steps: u64,
) -> Result<Array<bool, Ix2>, AllocError>
    ensures cells { IfOk result (λ last. last ≡ generation steps grid.now) }
    ensures empty { size grid.now.lengths ≡ 0 → IsOk result }
{
    let mut now = grid.to_owned(alloc)?;
    if now.len() == 0 {
        return Ok(now);
    }
    for _ in 0..steps {
        now = step(alloc, &now)?;
    }
    Ok(now)
}

/// The next generation. The error is allocation failure.
pub fn step<S: Data<Elem = bool>>(
    alloc: Global,
    grid: &ArrayBase<S, Ix2>,
) -> Result<Array<bool, Ix2>, AllocError>
    ensures cells { IfOk result (λ next. next ≡ next_generation grid.now) }
    ensures empty { size grid.now.lengths ≡ 0 → IsOk result }
{
    let grid = grid.view();
    Array::from_shape_fn(alloc, grid.raw_dim(), |(i, j)| next_state(&grid, i, j))
}

/// The next state of a cell; outside the grid `false`.
fn next_state(grid: &ArrayView<'_, bool, Ix2>, i: usize, j: usize) -> bool
    ensures { InBox grid.now.lengths (i ∷ j ∷ []) → result ≡ next_state_at grid.now (i ∷ j ∷ []) }
{
    let (rows, columns) = grid.raw_dim().into_pattern();
    if i >= rows || j >= columns {
        return false;
    }
    let own = count_living(grid, i, j);
    let above = if i == 0 {
        0
    } else {
        count_in_row(grid, i - 1, j)
    };
    let neighbours = above + count_in_row(grid, i, j) + count_in_row(grid, i + 1, j) - own;
    neighbours == 3 || neighbours == 2 && own == 1
}

/// The living cells of a row at a column and next to it.
fn count_in_row(grid: &ArrayView<'_, bool, Ix2>, i: usize, j: usize) -> u8
    requires { j + 1 < 2 ^ 64 }
    ensures count { result ≡ living_in_row grid.now i j }
    ensures three { result ≤ 3 }
    ensures own { living (cell grid.now (i ∷ j ∷ [])) ≤ result }
{
    let left = if j == 0 {
        0
    } else {
        count_living(grid, i, j - 1)
    };
    left + count_living(grid, i, j) + count_living(grid, i, j + 1)
}

/// 1 where the cell at a row and a column is alive, and 0 where it is dead or there is none.
fn count_living(grid: &ArrayView<'_, bool, Ix2>, i: usize, j: usize) -> u8
    ensures count { result ≡ living (cell grid.now (i ∷ j ∷ [])) }
    ensures one { result ≤ 1 }
{
    match grid.get((i, j)) {
        Some(alive) => u8::from(*alive),
        None => 0,
    }
}
