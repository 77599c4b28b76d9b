//! Products of a table with another: of residues modulo 2^32, so that no sum leaves the range, and of the numbers themselves,
//! behind a range test.

use crate::rows::answer::parse_table;
use crate::rows::layouts::{LAYOUTS, Layout, Table};
use crate::rows::operators::push_text;
use crate::rows::reading::{Asked, kind};
use crate::rows::text::{as_text, push_lengths};
use ndarray::linalg::{
    Dot, IntegerDot, dot_ok, entries_fit, general_mat_mul, general_mat_vec_mul, kron, kron_ok,
    mat_mul_ok, mat_vec_ok,
};
use ndarray::reduce::checked_dot;
use ndarray::{Array, ArrayView, ArrayView1, Ix1, Ix2, IxDyn, Lengths, ShapeError};
use residue::Residue;
use std::alloc::{AllocError, Global};

/// A view of cells to multiply.
type View<'a, A> = ArrayView<'a, A, IxDyn>;

/// What a product gives on a table, after calls that view it; `None` where the words spell none.
///
/// It is carried out with each layout of the right table. Answers that differ are joined by `or`.
pub fn answer(alloc: Global, asked: &Asked<'_>) -> Result<Option<String>, AllocError> {
    match asked.words {
        ["dot", words @ ..] => compute(alloc, asked, OfResidues::Dot, words).map(Some),
        ["kron", words @ ..] => compute(alloc, asked, OfResidues::Kron, words).map(Some),
        ["general_product", words @ ..] => {
            compute(alloc, asked, OfResidues::General, words).map(Some)
        }
        ["integer_dot", words @ ..] => compute(alloc, asked, DotOfNumbers, words).map(Some),
        _ => Ok(None),
    }
}

/// A product of two tables.
trait Product: Copy {
    /// What is multiplied.
    type Cell: Drop;

    /// A number of a table as a cell.
    fn cell(number: i64) -> Self::Cell;

    /// What it gives; `refused` where its test says no.
    fn between(
        self,
        alloc: Global,
        left: &View<'_, Self::Cell>,
        right: &View<'_, Self::Cell>,
    ) -> Result<String, AllocError>;
}

/// What a product gives on a table, after calls that view it, and the words of its right side.
fn compute<P: Product>(
    alloc: Global,
    asked: &Asked<'_>,
    product: P,
    words: &[&str],
) -> Result<String, AllocError> {
    let cells = cells_of::<P>(alloc, asked.table.cells.as_slice())?;
    match asked.view_of(alloc, cells.as_slice())? {
        Ok(view) => with_tables(alloc, product, &view, words),
        Err(refusal) => Ok(refusal),
    }
}

/// Numbers of a table as cells.
fn cells_of<P: Product>(alloc: Global, numbers: &[i64]) -> Result<Vec<P::Cell>, AllocError> {
    let mut cells = Vec::new(alloc);
    for number in numbers {
        cells.push(P::cell(*number))?;
    }
    Ok(cells)
}

/// What a product gives with a table, which these words spell, in each layout of it.
fn with_tables<P: Product>(
    alloc: Global,
    product: P,
    left: &View<'_, P::Cell>,
    words: &[&str],
) -> Result<String, AllocError> {
    let mut text = String::new(alloc);
    for layout in LAYOUTS {
        match parse_table(alloc, words, *layout)? {
            Some(table) => {
                let answer = with_table(alloc, product, left, &table)?;
                push_text(&mut text, answer.as_str())?;
            }
            None => return "not understood".to_string(alloc),
        }
    }
    Ok(text)
}

/// What a product gives with a table.
fn with_table<P: Product>(
    alloc: Global,
    product: P,
    left: &View<'_, P::Cell>,
    table: &Table,
) -> Result<String, AllocError> {
    let cells = cells_of::<P>(alloc, table.cells.as_slice())?;
    match table.view_of(cells.as_slice()) {
        Ok(right) => product.between(alloc, left, &right),
        Err(error) => kind(alloc, &error),
    }
}

/// A product of residues.
#[derive(Clone, Copy)]
enum OfResidues {
    Dot,
    Kron,
    General,
}

impl Product for OfResidues {
    type Cell = Residue<0>;

    /// The residue of a number. One that is no `u32` counts as 0.
    fn cell(number: i64) -> Residue<0> {
        Residue::new(u32::try_from(number).unwrap_or(0))
    }

    fn between(
        self,
        alloc: Global,
        left: &View<'_, Residue<0>>,
        right: &View<'_, Residue<0>>,
    ) -> Result<String, AllocError> {
        match self {
            OfResidues::Dot => dot_of_residues(alloc, left, right),
            OfResidues::Kron => kronecker(alloc, left, right),
            OfResidues::General => general_product(alloc, left, right),
        }
    }
}

/// What `dot` of residues gives.
fn dot_of_residues(
    alloc: Global,
    left: &View<'_, Residue<0>>,
    right: &View<'_, Residue<0>>,
) -> Result<String, AllocError> {
    if dot_ok(left, right) {
        text_of(alloc, &Dot::dot(left, alloc, right)?)
    } else {
        "refused".to_string(alloc)
    }
}

/// What `kron` gives on tables of two axes.
fn kronecker(
    alloc: Global,
    left: &View<'_, Residue<0>>,
    right: &View<'_, Residue<0>>,
) -> Result<String, AllocError> {
    let Ok(a) = left.view().into_dimensionality::<Ix2>() else {
        return "refused".to_string(alloc);
    };
    let Ok(b) = right.view().into_dimensionality::<Ix2>() else {
        return "refused".to_string(alloc);
    };
    if kron_ok(&a, &b) {
        text_of(alloc, &kron(alloc, &a, &b)?)
    } else {
        "refused".to_string(alloc)
    }
}

/// Twice the product of a matrix and a matrix or a vector, and three times a table of ones, added up in that table in each layout of it.
fn general_product(
    alloc: Global,
    left: &View<'_, Residue<0>>,
    right: &View<'_, Residue<0>>,
) -> Result<String, AllocError> {
    let a = match left.view().into_dimensionality::<Ix2>() {
        Ok(a) if dot_ok(left, right) => a,
        _ => return "refused".to_string(alloc),
    };
    let product = Dot::dot(left, alloc, right)?;
    let mut text = String::new(alloc);
    for layout in LAYOUTS {
        match table_of_ones(alloc, &product, *layout)? {
            Ok(sums) => {
                let answer = add_product_to(alloc, &a, right, sums)?;
                push_text(&mut text, answer.as_str())?;
            }
            Err(error) => return kind(alloc, &error),
        }
    }
    Ok(text)
}

/// A table of ones in a layout, with the lengths of another.
fn table_of_ones(
    alloc: Global,
    other: &Array<Residue<0>, IxDyn>,
    layout: Layout,
) -> Result<Result<Array<Residue<0>, IxDyn>, ShapeError>, AllocError> {
    let mut ones = Vec::new(alloc);
    for _ in 0..other.len() {
        ones.push(1)?;
    }
    let table = Table::new(alloc, other.raw_dim(), ones, layout)?;
    let mut cells = Vec::new(alloc);
    for _ in table.cells.as_slice() {
        cells.push(Residue::new(1))?;
    }
    Ok(table.array_of(cells))
}

/// Three times the sums and twice the product.
fn add_product_to(
    alloc: Global,
    a: &ArrayView<'_, Residue<0>, Ix2>,
    right: &View<'_, Residue<0>>,
    sums: Array<Residue<0>, IxDyn>,
) -> Result<String, AllocError> {
    if let Ok(x) = right.view().into_dimensionality::<Ix1>() {
        let Ok(mut y) = sums.into_dimensionality::<Ix1>() else {
            return "refused".to_string(alloc);
        };
        if !mat_vec_ok(a, &x, &y) {
            return "refused".to_string(alloc);
        }
        general_mat_vec_mul(Residue::new(2), a, &x, Residue::new(3), &mut y);
        return text_of(alloc, &y);
    }
    let Ok(b) = right.view().into_dimensionality::<Ix2>() else {
        return "refused".to_string(alloc);
    };
    let Ok(mut c) = sums.into_dimensionality::<Ix2>() else {
        return "refused".to_string(alloc);
    };
    if !mat_mul_ok(a, &b, &c) {
        return "refused".to_string(alloc);
    }
    general_mat_mul(Residue::new(2), a, &b, Residue::new(3), &mut c);
    text_of(alloc, &c)
}

/// `dot` of the numbers themselves: of two vectors `checked_dot`. Tables of one or two axes are `Ix1` and `Ix2`, whose products and tests go
/// other ways than those of `IxDyn`.
#[derive(Clone, Copy)]
struct DotOfNumbers;

impl Product for DotOfNumbers {
    type Cell = i64;

    fn cell(number: i64) -> i64 {
        number
    }

    fn between(
        self,
        alloc: Global,
        left: &View<'_, i64>,
        right: &View<'_, i64>,
    ) -> Result<String, AllocError> {
        if let Ok(x) = left.view().into_dimensionality::<Ix1>() {
            if let Ok(y) = right.view().into_dimensionality::<Ix1>() {
                return inner(alloc, &x, &y);
            }
            if let Ok(b) = right.view().into_dimensionality::<Ix2>() {
                return dot(alloc, &x, &b);
            }
        }
        if let Ok(a) = left.view().into_dimensionality::<Ix2>() {
            if let Ok(x) = right.view().into_dimensionality::<Ix1>() {
                return dot(alloc, &a, &x);
            }
            if let Ok(b) = right.view().into_dimensionality::<Ix2>() {
                return dot(alloc, &a, &b);
            }
        }
        dot(alloc, left, right)
    }
}

/// What `checked_dot` gives; `refused` for its `None`.
fn inner(
    alloc: Global,
    x: &ArrayView1<'_, i64>,
    y: &ArrayView1<'_, i64>,
) -> Result<String, AllocError> {
    let Some(sum) = checked_dot(x, y) else {
        return "refused".to_string(alloc);
    };
    let mut text = String::new(alloc);
    write!(&mut text, ". {sum}")?;
    Ok(text)
}

/// What `dot` gives; `refused` where `entries_fit` says no.
fn dot<L: IntegerDot<R, Output = Result<Array<i64, D>, AllocError>>, R, D: Lengths>(
    alloc: Global,
    left: &L,
    right: &R,
) -> Result<String, AllocError> {
    if entries_fit(left, right) {
        as_text(alloc, &left.dot(alloc, right)?.view())
    } else {
        "refused".to_string(alloc)
    }
}

/// The lengths of an array and its cells in row order.
fn text_of<D: Lengths>(alloc: Global, array: &Array<Residue<0>, D>) -> Result<String, AllocError> {
    let mut text = String::new(alloc);
    push_lengths(&mut text, array.shape())?;
    for cell in array.iter() {
        write!(&mut text, " {}", cell.number())?;
    }
    Ok(text)
}
