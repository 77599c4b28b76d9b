//! Operators on a table, with both sides borrowed. unproved/ops.txt has those on owned arrays.

ghost use Rattle.ndarray.specs.Broadcast.{BroadcastTogether};

use crate::rows::answer::parse_table;
use crate::rows::layouts::LAYOUTS;
use crate::rows::reading::{Asked, kind};
use crate::rows::spelling::cell;
use crate::rows::text::push_lengths;
use crate::rows::wrapping::{Wrapped, wrap_all};
use ndarray::{Array, ArrayView, IxDyn, Lengths};
use std::alloc::{AllocError, Global};

type Owned = Array<Wrapped, IxDyn>;

/// A view of numbers to compute with.
pub type View<'a> = ArrayView<'a, Wrapped, IxDyn>;

/// What an operator gives on a table, after calls that view it; `None` where the words spell no operator.
///
/// It is carried out with each layout of the right table. Answers that differ are joined by `or`.
pub fn answer(alloc: Global, asked: &Asked<'_>) -> Result<Option<String>, AllocError> {
    let Some((name, arguments)) = asked.words.split_first() else {
        return Ok(None);
    };
    match Operator::by_name(*name) {
        Some(operator) => compute(alloc, asked, operator, arguments).map(Some),
        None => Ok(None),
    }
}

/// An operator.
#[derive(Clone, Copy)]
enum Operator {
    Sums(Sums),
    Products(Products),
    Bits(Bits),
    // These two have no right side.
    Neg,
    Not,
}

/// An operator that adds or takes away.
#[derive(Clone, Copy)]
enum Sums {
    Add,
    Sub,
}

/// An operator that multiplies or divides.
#[derive(Clone, Copy)]
enum Products {
    Mul,
    Div,
    Rem,
}

/// An operator of bits.
#[derive(Clone, Copy)]
enum Bits {
    And,
    Or,
    Xor,
    Shl,
    Shr,
}

impl Operator {
    /// The operator of this name.
    fn by_name(name: &str) -> Option<Operator> {
        if let Some(operator) = Bits::by_name(name) {
            return Some(Operator::Bits(operator));
        }
        if let Some(operator) = Products::by_name(name) {
            return Some(Operator::Products(operator));
        }
        match name {
            "add" => Some(Operator::Sums(Sums::Add)),
            "sub" => Some(Operator::Sums(Sums::Sub)),
            "neg" => Some(Operator::Neg),
            "not" => Some(Operator::Not),
            _ => None,
        }
    }
}

impl Products {
    /// The operator of this name.
    fn by_name(name: &str) -> Option<Products> {
        match name {
            "mul" => Some(Products::Mul),
            "div" => Some(Products::Div),
            "rem" => Some(Products::Rem),
            _ => None,
        }
    }
}

impl Bits {
    /// The operator of this name.
    fn by_name(name: &str) -> Option<Bits> {
        match name {
            "bitand" => Some(Bits::And),
            "bitor" => Some(Bits::Or),
            "bitxor" => Some(Bits::Xor),
            "shl" => Some(Bits::Shl),
            "shr" => Some(Bits::Shr),
            _ => None,
        }
    }
}

/// What an operator gives on a table, after calls that view it, and the words of its right side.
fn compute(
    alloc: Global,
    asked: &Asked<'_>,
    operator: Operator,
    words: &[&str],
) -> Result<String, AllocError> {
    let cells = wrap_all(alloc, asked.table.cells.as_slice())?;
    let view = match asked.view_of(alloc, cells.as_slice())? {
        Ok(view) => view,
        Err(refusal) => return Ok(refusal),
    };
    match words {
        [] => of_each_cell(alloc, &view, operator),
        [word] => match cell(*word) {
            Some(scalar) => with_scalar(alloc, &view, operator, Wrapped(scalar)),
            None => with_tables(alloc, &view, operator, words),
        },
        words => with_tables(alloc, &view, operator, words),
    }
}

/// What `-` or `!` gives, on a reference to an array.
fn of_each_cell(alloc: Global, view: &View<'_>, operator: Operator) -> Result<String, AllocError> {
    let array = ArrayView::to_owned(view, alloc)?;
    let mut text = String::new(alloc);
    match operator {
        Operator::Neg => push_answer(&mut text, alloc, (-&array)?)?,
        Operator::Not => push_answer(&mut text, alloc, (!&array)?)?,
        _ => text.push_str("not understood")?,
    }
    Ok(text)
}

/// What an operator gives with a scalar, on a reference to an array.
fn with_scalar(
    alloc: Global,
    view: &View<'_>,
    operator: Operator,
    scalar: Wrapped,
) -> Result<String, AllocError> {
    let array = ArrayView::to_owned(view, alloc)?;
    let mut text = String::new(alloc);
    match operator.with(&array, scalar)? {
        Some(answer) => push_answer(&mut text, alloc, answer)?,
        None => text.push_str("not understood")?,
    }
    Ok(text)
}

/// What an operator gives with a table, which these words spell, in each layout of it.
fn with_tables(
    alloc: Global,
    left: &View<'_>,
    operator: Operator,
    words: &[&str],
) -> Result<String, AllocError> {
    let mut text = String::new(alloc);
    for layout in LAYOUTS {
        let Some(table) = parse_table(alloc, words, *layout)? else {
            return "not understood".to_string(alloc);
        };
        let cells = wrap_all(alloc, table.cells.as_slice())?;
        match table.view_of(cells.as_slice()) {
            Ok(right) => push_between(&mut text, alloc, left, operator, &right)?,
            Err(error) => return kind(alloc, &error),
        }
    }
    Ok(text)
}

/// Appends what an operator gives between two tables; `refused` where their shapes do not broadcast together.
fn push_between(
    text: &mut String,
    alloc: Global,
    left: &View<'_>,
    operator: Operator,
    right: &View<'_>,
) -> Result<(), AllocError> {
    if !left.broadcast_ok(right) {
        return push_text(text, "refused");
    }
    let array = ArrayView::to_owned(left, alloc)?;
    match operator.between(&array, right)? {
        Some(answer) => push_answer(text, alloc, answer),
        None => push_text(text, "not understood"),
    }
}

/// Appends an array to other results, unless it is the same.
pub fn push_answer(text: &mut String, alloc: Global, array: Owned) -> Result<(), AllocError> {
    let mut next = String::new(alloc);
    push_lengths(&mut next, array.shape())?;
    for cell in array.iter() {
        write!(&mut next, " {}", cell.0)?;
    }
    push_text(text, next.as_str())
}

/// Appends a result to other results, unless it is the same.
pub fn push_text(text: &mut String, next: &str) -> Result<(), AllocError> {
    if text.as_str() == next {
        return Ok(());
    }
    if !text.is_empty() {
        text.push_str(" or ")?;
    }
    text.push_str(next)
}

impl Operator {
    /// With both sides borrowed; `None` for one that has no right side.
    fn between(self, left: &Owned, right: &View<'_>) -> Result<Option<Owned>, AllocError>
        requires { BroadcastTogether left.now.lengths right.now.lengths }
    {
        match self {
            Operator::Sums(operator) => operator.between(left, right).map(Some),
            Operator::Products(operator) => operator.between(left, right).map(Some),
            Operator::Bits(operator) => operator.between(left, right).map(Some),
            _ => Ok(None),
        }
    }

    /// With a scalar; `None` for one that has no right side.
    fn with(self, left: &Owned, scalar: Wrapped) -> Result<Option<Owned>, AllocError> {
        match self {
            Operator::Sums(operator) => operator.with(left, scalar).map(Some),
            Operator::Products(operator) => operator.with(left, scalar).map(Some),
            Operator::Bits(operator) => operator.with(left, scalar).map(Some),
            _ => Ok(None),
        }
    }
}

/// An operator of sums between two values.
macro_rules! sums {
    ($operator:expr, $left:expr, $right:expr) => {
        match $operator {
            Sums::Add => $left + $right,
            Sums::Sub => $left - $right,
        }
    };
}

impl Sums {
    /// With both sides borrowed.
    fn between(self, left: &Owned, right: &View<'_>) -> Result<Owned, AllocError>
        requires { BroadcastTogether left.now.lengths right.now.lengths }
    {
        sums!(self, left, right)
    }

    /// With a scalar.
    fn with(self, left: &Owned, scalar: Wrapped) -> Result<Owned, AllocError> {
        sums!(self, left, scalar)
    }
}

/// An operator that multiplies or divides between two values.
macro_rules! products {
    ($operator:expr, $left:expr, $right:expr) => {
        match $operator {
            Products::Mul => $left * $right,
            Products::Div => $left / $right,
            Products::Rem => $left % $right,
        }
    };
}

impl Products {
    /// With both sides borrowed.
    fn between(self, left: &Owned, right: &View<'_>) -> Result<Owned, AllocError>
        requires { BroadcastTogether left.now.lengths right.now.lengths }
    {
        products!(self, left, right)
    }

    /// With a scalar.
    fn with(self, left: &Owned, scalar: Wrapped) -> Result<Owned, AllocError> {
        products!(self, left, scalar)
    }
}

/// An operator of bits between two values.
macro_rules! bits {
    ($operator:expr, $left:expr, $right:expr) => {
        match $operator {
            Bits::And => $left & $right,
            Bits::Or => $left | $right,
            Bits::Xor => $left ^ $right,
            Bits::Shl => $left << $right,
            Bits::Shr => $left >> $right,
        }
    };
}

impl Bits {
    /// With both sides borrowed.
    fn between(self, left: &Owned, right: &View<'_>) -> Result<Owned, AllocError>
        requires { BroadcastTogether left.now.lengths right.now.lengths }
    {
        bits!(self, left, right)
    }

    /// With a scalar.
    fn with(self, left: &Owned, scalar: Wrapped) -> Result<Owned, AllocError> {
        bits!(self, left, scalar)
    }
}
