//! Functions that read one item after another: by a loop, by `azip!`, and up to the first that decides.

ghost use Rattle.std.specs.Iterator.{IsFinite};
ghost use Rattle.std.specs.Prelude.{◌↔◌, ◌∷◌, [], IfOk, IsSome};
ghost use Rattle.ndarray.specs.Limits.{IsWithinLimit};

use ndarray::zip::{One, Parts};
use ndarray::{Array, ArrayView, FoldWhile, Ix1, Ix2, Lengths, NdProducer, Zip, azip, indices};
use std::alloc::{AllocError, Global};
use std::cell::Cell;

/// The lengths of a view and its cells in row order, as `[2, 2]: [1, 2, 3, 4]`.
pub fn text_of<D: Lengths>(
    alloc: Global,
    view: &ArrayView<'_, i64, D>,
) -> Result<String, AllocError> {
    let cells: Vec<i64> = view.iter().copied().collect(alloc)?;
    format!(in alloc; "{:?}: {:?}", view.shape(), cells.as_slice())
}

/// Each view that is still to come in turn, as `[2]: [1, 2]; [1]: [3]`.
pub fn text_of_all<'a, D: Lengths, I: Iterator<Item = ArrayView<'a, i64, D>>>(
    alloc: Global,
    views: I,
) -> Result<String, AllocError>
    requires can { I.can_next views }
    requires ends { IsFinite (I.remaining views) }
{
    let mut text = String::new(alloc);
    for view in views {
        if !text.is_empty() {
            text.push_str("; ")?;
        }
        text.push_str(text_of(alloc, &view)?.as_str())?;
    }
    Ok(text)
}

/// Each square of two by two cells of a table in turn, as `text_of_all` writes them.
pub fn text_of_squares(
    alloc: Global,
    table: &ArrayView<'_, i64, Ix2>,
) -> Result<String, AllocError> {
    let _axes = table.ndim();
    text_of_all(alloc, table.windows((2, 2)).into_iter())
}

/// The sum of all cells, which wraps.
pub fn wrapping_total(table: &ArrayView<'_, i64, Ix2>) -> i64 {
    let total = Cell::new(0i64);
    azip!((&x in table) total.set(total.get().wrapping_add(x)));
    total.get()
}

/// The first number above 1, of any producer of numbers.
pub fn first_above_one<'a, N: NdProducer<Item = &'a u64, Dim = Ix1>>(
    zip: Zip<Parts<N, One>, Ix1>,
) -> u64 {
    let first = zip.fold_while(0, |_found: u64, x| {
        if *x > 1 {
            FoldWhile::Done(*x)
        } else {
            FoldWhile::Continue(*x)
        }
    });
    first.into_inner()
}

/// The row plus the column, wrapping, at each place of a table of so many rows and columns; or `None` where these are more cells than an array
/// may have.
pub fn index_sums(
    alloc: Global,
    rows: usize,
    columns: usize,
) -> Result<Option<Array<usize, Ix2>>, AllocError>
    ensures when { IfOk result (λ made. IsSome made ↔ IsWithinLimit (rows ∷ columns ∷ [])) }
{
    if !Ix2(rows, columns).size_ok() {
        return Ok(None);
    }
    let sums = Zip::from(indices((rows, columns))).map_collect(alloc, |(i, j)| i.wrapping_add(j))?;
    Ok(Some(sums))
}
