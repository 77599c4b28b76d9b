//! The cells of several arrays, block by block.

ghost use Rattle.std.specs.Prelude.{◌≡◌, ◌+◌, ◌<◌, ◌≤◌, ◌∷◌, [], ℕ, List, length, drop, take, All, IfOk, IsOk};
ghost use Rattle.ndarray.specs.Elementwise.{ClonesAreEqual};
ghost use Rattle.ndarray.specs.Grid.{IsGrid};
ghost use Rattle.ndarray.specs.Index.{InBox, size};
ghost use Rattle.ndarray.specs.Limits.{IsWithinLimit};
ghost use Rattle.ndarray.specs.base.Builder.{pushed_all};
ghost use Rattle.ndarray.specs.stacking.Blocks.{HasBlockAt, IsCellAt, MayJoin, all_blocks, block_at, blocks_at, by_turns};

use crate::base::array::{Array, ArrayView};
use crate::base::builder::ArrayBuilder;
use crate::base::dimension::Lengths;
use crate::base::strided::Strided;
use crate::iter::row_elements::RowElements;
use crate::order::rows::BoxRows;
use crate::order::{Order, Walk};
use crate::stacking::shapes::JoinedShape;
use crate::zip::pair::PairRun;
use std::alloc::{AllocError, Global};

/// The array that has, for each index list of the axes before one, the block of each array in turn: the cells below that
/// index list, in row order.
pub(crate) fn joined_blocks<A: Clone, D: Lengths, E: Lengths>(
    alloc: Global,
    axis: usize,
    arrays: &[ArrayView<'_, A, D>],
    shape: JoinedShape<D, E>,
) -> Result<Array<A, E>, AllocError>
    requires clones { ClonesAreEqual A.is_clone }
    requires may { MayJoin axis arrays.now (D.numbers shape.outer) (E.numbers shape.dim) }
    ensures lengths { IfOk result (λ r. r.lengths ≡ E.numbers shape.dim) }
    ensures axes { IfOk result (λ r. E.has_axes (length r.lengths)) }
    ensures cells { IfOk result (λ r. r.cells ≡ all_blocks axis (D.numbers shape.outer) arrays.now) }
    ensures whole { IfOk result IsGrid }
    ensures empty { size (E.numbers shape.dim) ≡ 0 → IsOk result }
{
    let JoinedShape { outer, dim } = shape;
    let size = dim.size();
    let mut builder = ArrayBuilder::with_capacity(alloc, dim, Order::RowMajor)?;
    if size == 0 {
        // However many index lists the outer axes have.
        return Ok(builder.finish());
    }
    push_all_blocks(&mut builder, axis, arrays, outer)?;
    Ok(builder.finish())
}

/// Pushes clones of the block of each array in turn, at each index list of the axes before one. Of two arrays with blocks of one
/// cell it goes over their rows.
fn push_all_blocks<A: Clone, D: Lengths, E: Lengths>(
    builder: &mut ArrayBuilder<A, E>,
    axis: usize,
    arrays: &[ArrayView<'_, A, D>],
    outer: D,
) -> Result<(), AllocError>
    requires clones { ClonesAreEqual A.is_clone }
    requires limit { IsWithinLimit (D.numbers outer) }
    requires some { 0 < size (D.numbers outer) }
    requires blocks { (is : List ℕ) → InBox (D.numbers outer) is → All (HasBlockAt axis is) arrays.now }
    requires room { length builder.old.cells + length (all_blocks axis (D.numbers outer) arrays.now) ≤ size builder.old.lengths }
    ensures { IfOk result (λ _. builder.new ≡ pushed_all builder.old (all_blocks axis (D.numbers outer) arrays.now)) }
{
    if arrays.len() == 2 {
        let left = &arrays[0];
        let right = &arrays[1];
        if block_len(axis, &left.raw_dim()) == 1 && block_len(axis, &right.raw_dim()) == 1 {
            return push_pairs(builder, axis, left, right, outer);
        }
    }
    push_each_block(builder, axis, arrays, &outer)
}

/// The same block by block.
fn push_each_block<A: Clone, D: Lengths, E: Lengths>(
    builder: &mut ArrayBuilder<A, E>,
    axis: usize,
    arrays: &[ArrayView<'_, A, D>],
    outer: &D,
) -> Result<(), AllocError>
    requires clones { ClonesAreEqual A.is_clone }
    requires limit { IsWithinLimit (D.numbers outer.now) }
    requires blocks { (is : List ℕ) → InBox (D.numbers outer.now) is → All (HasBlockAt axis is) arrays.now }
    requires room { length builder.old.cells + length (all_blocks axis (D.numbers outer.now) arrays.now) ≤ size builder.old.lengths }
    ensures { IfOk result (λ _. builder.new ≡ pushed_all builder.old (all_blocks axis (D.numbers outer.now) arrays.now)) }
{
    for index in Walk::new(outer.copied(), Order::RowMajor) {
        push_blocks(builder, axis, arrays, &index)?;
    }
    Ok(())
}

/// The same for two arrays whose blocks are of one cell, row by row.
fn push_pairs<A: Clone, D: Lengths, E: Lengths>(
    builder: &mut ArrayBuilder<A, E>,
    axis: usize,
    left: &ArrayView<'_, A, D>,
    right: &ArrayView<'_, A, D>,
    outer: D,
) -> Result<(), AllocError>
    requires clones { ClonesAreEqual A.is_clone }
    requires limit { IsWithinLimit (D.numbers outer) }
    requires first { (is : List ℕ) → InBox (D.numbers outer) is → IsCellAt axis is left.now }
    requires second { (is : List ℕ) → InBox (D.numbers outer) is → IsCellAt axis is right.now }
    requires room { length builder.old.cells + length (all_blocks axis (D.numbers outer) (left.now ∷ right.now ∷ [])) ≤ size builder.old.lengths }
    ensures { IfOk result (λ _. builder.new ≡ pushed_all builder.old (all_blocks axis (D.numbers outer) (left.now ∷ right.now ∷ []))) }
{
    let mut rows = BoxRows::new(outer, Order::RowMajor);
    while let Some(row) = rows.next() {
        let xs = left.cells_along(&row.first, row.axis, row.count);
        let ys = right.cells_along(&row.first, row.axis, row.count);
        push_by_turns(builder, xs, ys)?;
    }
    Ok(())
}

/// Pushes clones of the cells of two lists by turns.
fn push_by_turns<A: Clone, E: Lengths>(
    builder: &mut ArrayBuilder<A, E>,
    left: Strided<'_, A>,
    right: Strided<'_, A>,
) -> Result<(), AllocError>
    requires clones { ClonesAreEqual A.is_clone }
    requires room { length builder.old.cells + length (by_turns left right) ≤ size builder.old.lengths }
    ensures { IfOk result (λ _. builder.new ≡ pushed_all builder.old (by_turns left.entry right.entry)) }
{
    if let Some(xs) = left.side_by_side() {
        if let Some(ys) = right.side_by_side() {
            return push_slices_by_turns(builder, xs, ys);
        }
    }
    push_steps_by_turns(
        builder,
        PairRun {
            first: left,
            second: right,
        },
    )
}

/// The same for slices.
fn push_slices_by_turns<A: Clone, E: Lengths>(
    builder: &mut ArrayBuilder<A, E>,
    xs: &[A],
    ys: &[A],
) -> Result<(), AllocError>
    requires clones { ClonesAreEqual A.is_clone }
    requires room { length builder.old.cells + length (by_turns xs.now ys.now) ≤ size builder.old.lengths }
    ensures { IfOk result (λ _. builder.new ≡ pushed_all builder.old (by_turns xs.now ys.now)) }
{
    let mut i = 0;
    'cells: while i < xs.len() && i < ys.len() {
        builder.push(xs[i].clone()?);
        builder.push(ys[i].clone()?);
        i += 1;
    }
    Ok(())
}

/// The same for cells that lie a step apart.
fn push_steps_by_turns<A: Clone, E: Lengths>(
    builder: &mut ArrayBuilder<A, E>,
    pairs: PairRun<Strided<'_, A>, Strided<'_, A>>,
) -> Result<(), AllocError>
    requires clones { ClonesAreEqual A.is_clone }
    requires room { length builder.old.cells + length (by_turns pairs.first pairs.second) ≤ size builder.old.lengths }
    ensures { IfOk result (λ _. builder.new ≡ pushed_all builder.old (by_turns pairs.entry.first pairs.entry.second)) }
{
    let mut pairs = pairs;
    while let Some((x, y)) = pairs.next() {
        builder.push(x.clone()?);
        builder.push(y.clone()?);
    }
    Ok(())
}

/// Pushes clones of the block of each array at an index list.
fn push_blocks<A: Clone, D: Lengths, E: Lengths>(
    builder: &mut ArrayBuilder<A, E>,
    axis: usize,
    arrays: &[ArrayView<'_, A, D>],
    index: &D,
) -> Result<(), AllocError>
    requires clones { ClonesAreEqual A.is_clone }
    requires blocks { All (HasBlockAt axis (D.numbers index.now)) arrays.now }
    requires room { length builder.old.cells + length (blocks_at axis (D.numbers index.now) arrays.now) ≤ size builder.old.lengths }
    ensures pushed { IfOk result (λ _. builder.new ≡ pushed_all builder.old (blocks_at axis (D.numbers index.now) arrays.now)) }
    ensures none { length (blocks_at axis (D.numbers index.now) arrays.now) ≡ 0 → IsOk result }
{
    for array in arrays {
        push_block(builder, axis, array, index)?;
    }
    Ok(())
}

/// Pushes clones of the block of an array at an index list.
fn push_block<A: Clone, D: Lengths, E: Lengths>(
    builder: &mut ArrayBuilder<A, E>,
    axis: usize,
    array: &ArrayView<'_, A, D>,
    index: &D,
) -> Result<(), AllocError>
    requires clones { ClonesAreEqual A.is_clone }
    requires block { HasBlockAt axis (D.numbers index.now) array.now }
    requires room { length builder.old.cells + length (block_at axis (D.numbers index.now) array.now) ≤ size builder.old.lengths }
    ensures pushed { IfOk result (λ _. builder.new ≡ pushed_all builder.old (block_at axis (D.numbers index.now) array.now)) }
    ensures none { length (block_at axis (D.numbers index.now) array.now) ≡ 0 → IsOk result }
{
    let count = block_len(axis, &array.raw_dim());
    if count == 1 {
        builder.push(array.item(index).clone()?);
        return Ok(());
    }
    if axis == 0 {
        // The block is the whole array.
        if let Some(cells) = array.to_slice() {
            return builder.push_clones(Strided::over(cells));
        }
    }
    push_clones(
        builder,
        RowElements::starting_at(array.again(), index.copied(), count),
    )
}

/// Pushes clones of cells, row by row.
pub(crate) fn push_clones<A: Clone, D: Lengths, E: Lengths>(
    builder: &mut ArrayBuilder<A, E>,
    mut cells: RowElements<'_, A, D>,
) -> Result<(), AllocError>
    requires clones { ClonesAreEqual A.is_clone }
    requires room { length builder.old.cells + length cells ≤ size builder.old.lengths }
    ensures pushed { IfOk result (λ _. builder.new ≡ pushed_all builder.old cells.entry) }
    ensures front { take (length builder.old.cells) builder.new.cells ≡ builder.old.cells }
    ensures none { length cells.entry ≡ 0 → IsOk result }
{
    while let Some(row) = cells.take_row() {
        builder.push_clones(row)?;
    }
    Ok(())
}

/// The number of cells below one index list of the axes before an axis.
fn block_len<D: Lengths>(axis: usize, dim: &D) -> usize
    requires below { axis ≤ length (D.numbers dim.now) }
    requires limit { IsWithinLimit (D.numbers dim.now) }
    ensures { result ≡ size (drop axis (D.numbers dim.now)) }
{
    let ndim = dim.ndim();
    let mut len: usize = 1;
    for p in 0..ndim - axis {
        len *= dim.axis(ndim - 1 - p);
    }
    len
}
