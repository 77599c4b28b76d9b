//! Arrays as text: their cells in nested brackets.

ghost use Rattle.std.specs.Prelude.{◌≡◌, ◌+◌, ◌<◌, ◌^◌, List, ℕ, Option, Some, length, replicate};
ghost use Rattle.std.specs.Fmt.{◌++?◌, DisplaysOnOk, WritesOnOk};
ghost use Rattle.ndarray.specs.ArrayTexts.{array_debug_text, array_text, between_items};
ghost use Rattle.ndarray.specs.Index.{size};
ghost use Rattle.ndarray.specs.every_day.Breaks.{break_text, cells_text, lead_text};

use crate::base::array::ArrayBase;
use crate::base::dimension::Lengths;
use crate::base::storage::Data;
use crate::iter::Iter;
use std::fmt;

/// Writes all cells in row order, however many there are, with a pair of brackets around the items of each axis. A table of two rows is
/// `[[1, 2],` and, on the next line, ` [3, 4]]`. Between two tables there is an empty line, and one more between the items of each axis
/// before. An array without cells is written as a pair of brackets for each axis.
///
/// ```
/// let a = ArrayView::from_shape((2, 2), &[1, 2, 3, 4])?;
/// println!(rt; "{a}")?;
/// // [[1, 2],
/// //  [3, 4]]
/// ```
impl<A: fmt::Display, S: Data<Elem = A>, D: Lengths> fmt::Display for ArrayBase<S, D> {
    ghost output = { λ a. array_text A.output a.lengths a.cells };

    fn fmt<W: fmt::Write>(&self, f: &mut fmt::Formatter<W>) -> fmt::Result {
        let _whole = self.raw_dim();
        write_array::<A, Shown, D, W>(f, self.shape(), self.iter(), self.len())
    }
}

/// Writes the array as `{}` does, but each cell as its `{:?}`, and then the lengths: `[[1, 2],` and, on the next line,
/// ` [3, 4]], shape=[2, 2]`.
impl<A: fmt::Debug, S: Data<Elem = A>, D: Lengths> fmt::Debug for ArrayBase<S, D> {
    ghost debug_output = { λ a. array_debug_text A.debug_output a.lengths a.cells };

    fn fmt<W: fmt::Write>(&self, f: &mut fmt::Formatter<W>) -> fmt::Result {
        let _whole = self.raw_dim();
        write_array::<A, Debugged, D, W>(f, self.shape(), self.iter(), self.len())?;
        f.write_str(", shape=")?;
        fmt::Debug::fmt(self.shape(), f)
    }
}

/// How one cell is written.
trait CellText<A> {
    // The text of a cell, where it has one.
    ghost text: { A → Option (List ℕ) };

    /// Writes a cell.
    fn write<W: fmt::Write>(cell: &A, f: &mut fmt::Formatter<W>) -> fmt::Result
        ensures { DisplaysOnOk W.write_str_gives f.old result (text cell.now) f.new };
}

/// As `{}` writes it.
struct Shown;

impl<A: fmt::Display> CellText<A> for Shown {
    ghost text = { A.output };

    fn write<W: fmt::Write>(cell: &A, f: &mut fmt::Formatter<W>) -> fmt::Result {
        cell.fmt(f)
    }
}

/// As `{:?}` writes it.
struct Debugged;

impl<A: fmt::Debug> CellText<A> for Debugged {
    ghost text = { A.debug_output };

    fn write<W: fmt::Write>(cell: &A, f: &mut fmt::Formatter<W>) -> fmt::Result {
        cell.fmt(f)
    }
}

/// Writes as many cells as there are index lists.
fn write_array<A, T: CellText<A>, D: Lengths, W: fmt::Write>(
    f: &mut fmt::Formatter<W>,
    lengths: &[usize],
    cells: Iter<'_, A, D>,
    count: usize,
) -> fmt::Result
    requires counted { count ≡ length cells }
    requires many { count ≡ size lengths.now }
    ensures { DisplaysOnOk W.write_str_gives f.old result (array_text T.text lengths.now cells.entry) f.new }
{
    let ndim = lengths.len();
    write_many(f, '[', ndim)?;
    write_cells::<A, T, D, W>(f, lengths, cells, count)?;
    write_many(f, ']', ndim)
}

/// Writes cells, each after the brackets or the separator before it.
fn write_cells<A, T: CellText<A>, D: Lengths, W: fmt::Write>(
    f: &mut fmt::Formatter<W>,
    lengths: &[usize],
    cells: Iter<'_, A, D>,
    count: usize,
) -> fmt::Result
    requires counted { count ≡ length cells }
    requires many { count ≡ size lengths.now }
    ensures { DisplaysOnOk W.write_str_gives f.old result (cells_text T.text (lead_text 0 lengths.now) 0 cells.entry) f.new }
{
    let mut j = 0;
    for cell in cells {
        write_cell::<A, T, W>(f, lengths, count, j, cell)?;
        j += 1;
    }
    Ok(())
}

/// Writes cell `j`, after the brackets or the separator before it.
fn write_cell<A, T: CellText<A>, W: fmt::Write>(
    f: &mut fmt::Formatter<W>,
    lengths: &[usize],
    count: usize,
    j: usize,
    cell: &A,
) -> fmt::Result
    requires many { count ≡ size lengths.now }
    requires within { j < count }
    ensures { DisplaysOnOk W.write_str_gives f.old result (Some (lead_text 0 lengths.now j) ++? T.text cell.now) f.new }
{
    if j == 0 {
        return T::write(cell, f);
    }
    write_break(f, lengths, count, j)?;
    T::write(cell, f)
}

/// Writes what comes before cell `j`, which is not the first: closing brackets, the separator, and opening brackets.
fn write_break<W: fmt::Write>(
    f: &mut fmt::Formatter<W>,
    lengths: &[usize],
    cells: usize,
    j: usize,
) -> fmt::Result
    requires many { cells ≡ size lengths.now }
    requires some { 0 < j }
    requires within { j < cells }
    ensures { WritesOnOk W.write_str_gives f.old result (break_text 0 lengths.now j) f.new }
{
    let mut block = cells;
    for axis in 0..lengths.len() {
        block /= lengths[axis];
        if j % block == 0 {
            let inner = lengths.len() - 1 - axis;
            write_many(f, ']', inner)?;
            write_between(f, axis, inner)?;
            return write_many(f, '[', inner);
        }
    }
    Ok(())
}

/// Writes the separator of two items.
fn write_between<W: fmt::Write>(
    f: &mut fmt::Formatter<W>,
    depth: usize,
    inner: usize,
) -> fmt::Result
    requires { depth + 1 < 2 ^ 64 }
    ensures { WritesOnOk W.write_str_gives f.old result (between_items depth inner) f.new }
{
    if inner == 0 {
        return f.write_str(", ");
    }
    f.write_str(",")?;
    write_many(f, '\n', inner)?;
    write_many(f, ' ', depth + 1)
}

/// Writes an ASCII character so many times.
fn write_many<W: fmt::Write>(f: &mut fmt::Formatter<W>, character: char, many: usize) -> fmt::Result
    requires { character < 128 }
    ensures { WritesOnOk W.write_str_gives f.old result (replicate many character) f.new }
{
    for _i in 0..many {
        write!(f, "{character}")?;
    }
    Ok(())
}
