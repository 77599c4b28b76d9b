//! The commands: each reads its arguments and returns what it computes of them.

ghost use Rattle.std.specs.Prelude.{◌≡◌, ◌∷◌, [], MatchOption, IfOk, IfErr};
ghost use Rattle.ndarray.specs.Grid.{grid};
ghost use Rattle.ndarray.specs.Integers.{int_products, int_sums};
ghost use Rattle.ndtables.specs.Faults.{ForbidsAdd, ForbidsConv, ForbidsConvFull, ForbidsCumprod, ForbidsDiff, ForbidsDot, ForbidsTotal, ForbidsTotals};
ghost use Rattle.ndtables.specs.Reading.{ComputesAdd, ComputesConv, ComputesConvFull, ComputesCumprod, ComputesDiff, ComputesDot, ComputesTotal, ComputesTotals};
ghost use Rattle.ndtables.specs.Reducing.{ProductsFit, SumsFit};

use crate::adding::sums_in_range;
use crate::convolving::{full_convolution, valid_convolution};
use crate::fault::Fault;
use crate::multiplying::dot_in_range;
use crate::reducing::{
    differences, product_in_range, products_along, running_products, sum_in_range, sums_along,
};
use crate::views::Made;
use crate::words::Words;
use ndarray::{Array, IxDyn};
use std::alloc::{AllocError, Global};

/// A command, by its name.
#[derive(Clone, Copy, PartialEq, Eq, Debug)]
pub enum Command {
    /// `add TABLE TABLE` computes the array of the sums of the cells of two tables, whose shapes are
    /// broadcast together.
    Add,
    /// `conv TABLE KERNEL` computes the valid convolution of a table with a kernel.
    Conv,
    /// `conv-full TABLE TABLE` computes the full convolution of two tables of one axis each.
    ConvFull,
    /// `cumprod K TABLE` computes the array of the running products along axis K.
    Cumprod,
    /// `diff N K TABLE` computes the difference of order N along axis K.
    Diff,
    /// `dot TABLE TABLE` computes the product of two tables: the sums of the products of the lanes of the
    /// left along its last axis and the lanes of the right along its last axis but one, or its only one.
    Dot,
    /// `product TABLE` computes the product of all cells.
    Product,
    /// `product-axis K TABLE` computes the array of the products of the lanes along axis K.
    ProductAxis,
    /// `sum TABLE` computes the sum of all cells.
    Sum,
    /// `sum-axis K TABLE` computes the array of the sums of the lanes along axis K.
    SumAxis,
}

impl Command {
    ghost use Rattle.ndtables.specs.Answering.{name_of, Computes, Forbids, NamesNoCommand};

    /// The command of a name.
    pub fn named(name: &str) -> Option<Command>
        ensures { MatchOption result (NamesNoCommand name.now) (λ command. name.now ≡ name_of command) }
    {
        match name {
            "add" => Some(Command::Add),
            "conv" => Some(Command::Conv),
            "conv-full" => Some(Command::ConvFull),
            "cumprod" => Some(Command::Cumprod),
            "diff" => Some(Command::Diff),
            "dot" => Some(Command::Dot),
            "product" => Some(Command::Product),
            "product-axis" => Some(Command::ProductAxis),
            "sum" => Some(Command::Sum),
            "sum-axis" => Some(Command::SumAxis),
            _ => None,
        }
    }

    /// Reads the command's arguments, which are all of the words, and returns what it computes of them.
    ///
    /// The fault is the first one that holds as the words are read from left to right, then of what is
    /// computed, or `memory`.
    pub fn answer(self, alloc: Global, words: &mut Words<'_>) -> Made
        ensures computed { IfOk result (Computes self words.old) }
        ensures err { IfErr result (Forbids self words.old) }
    {
        match self {
            Command::Add => add(alloc, words),
            Command::Conv => conv(alloc, words),
            Command::ConvFull => conv_full(alloc, words),
            Command::Cumprod => cumprod(alloc, words),
            Command::Diff => diff(alloc, words),
            Command::Dot => dot(alloc, words),
            Command::Product => product(alloc, words),
            Command::ProductAxis => product_axis(alloc, words),
            Command::Sum => sum(alloc, words),
            Command::SumAxis => sum_axis(alloc, words),
        }
    }
}

/// `add TABLE TABLE`.
fn add(alloc: Global, words: &mut Words<'_>) -> Made
    ensures computed { IfOk result (ComputesAdd words.old) }
    ensures err { IfErr result (ForbidsAdd words.old) }
{
    let (left, right) = words.two_tables(alloc)?;
    let sums = sums_in_range(alloc, &left.view(), &right.view())?;
    Ok(sums)
}

/// `conv TABLE KERNEL`.
fn conv(alloc: Global, words: &mut Words<'_>) -> Made
    ensures computed { IfOk result (ComputesConv words.old) }
    ensures err { IfErr result (ForbidsConv words.old) }
{
    let (table, kernel) = words.two_tables(alloc)?;
    let sums = valid_convolution(alloc, &table.view(), &kernel.view())?;
    Ok(sums)
}

/// `conv-full TABLE TABLE`.
fn conv_full(alloc: Global, words: &mut Words<'_>) -> Made
    ensures computed { IfOk result (ComputesConvFull words.old) }
    ensures err { IfErr result (ForbidsConvFull words.old) }
{
    let (left, right) = words.two_tables(alloc)?;
    let sums = full_convolution(alloc, &left.view(), &right.view())?;
    Ok(sums)
}

/// `cumprod K TABLE`.
fn cumprod(alloc: Global, words: &mut Words<'_>) -> Made
    ensures computed { IfOk result (ComputesCumprod words.old) }
    ensures err { IfErr result (ForbidsCumprod words.old) }
{
    let (axis, table) = words.axis_and_table(alloc)?;
    let products = running_products(alloc, &table.view(), axis)?;
    Ok(products)
}

/// `diff N K TABLE`.
fn diff(alloc: Global, words: &mut Words<'_>) -> Made
    ensures computed { IfOk result (ComputesDiff words.old) }
    ensures err { IfErr result (ForbidsDiff words.old) }
{
    let order = words.count()?;
    let (axis, table) = words.axis_and_table(alloc)?;
    let differences = differences(alloc, &table.view(), order, axis)?;
    Ok(differences)
}

/// `dot TABLE TABLE`.
fn dot(alloc: Global, words: &mut Words<'_>) -> Made
    ensures computed { IfOk result (ComputesDot words.old) }
    ensures err { IfErr result (ForbidsDot words.old) }
{
    let (left, right) = words.two_tables(alloc)?;
    let product = dot_in_range(alloc, &left.view(), &right.view())?;
    Ok(product)
}

/// `product TABLE`.
fn product(alloc: Global, words: &mut Words<'_>) -> Made
    ensures computed { IfOk result (ComputesTotal int_products ProductsFit words.old) }
    ensures err { IfErr result (ForbidsTotal ProductsFit words.old) }
{
    let table = words.last_table(alloc)?;
    let product = product_in_range(&table.view()).ok_or(Fault::Range)?;
    let product = number(alloc, product)?;
    Ok(product)
}

/// `product-axis K TABLE`.
fn product_axis(alloc: Global, words: &mut Words<'_>) -> Made
    ensures computed { IfOk result (ComputesTotals int_products ProductsFit words.old) }
    ensures err { IfErr result (ForbidsTotals ProductsFit words.old) }
{
    let (axis, table) = words.axis_and_table(alloc)?;
    let products = products_along(alloc, &table.view(), axis)?;
    Ok(products)
}

/// `sum TABLE`.
fn sum(alloc: Global, words: &mut Words<'_>) -> Made
    ensures computed { IfOk result (ComputesTotal int_sums SumsFit words.old) }
    ensures err { IfErr result (ForbidsTotal SumsFit words.old) }
{
    let table = words.last_table(alloc)?;
    let total = sum_in_range(&table.view()).ok_or(Fault::Range)?;
    let total = number(alloc, total)?;
    Ok(total)
}

/// `sum-axis K TABLE`.
fn sum_axis(alloc: Global, words: &mut Words<'_>) -> Made
    ensures computed { IfOk result (ComputesTotals int_sums SumsFit words.old) }
    ensures err { IfErr result (ForbidsTotals SumsFit words.old) }
{
    let (axis, table) = words.axis_and_table(alloc)?;
    let sums = sums_along(alloc, &table.view(), axis)?;
    Ok(sums)
}

/// The array of no axes whose cell is a number.
fn number(alloc: Global, number: i64) -> Result<Array<i64, IxDyn>, AllocError>
    ensures { IfOk result (λ a. a ≡ grid [] (number ∷ [])) }
{
    Array::from_elem(alloc, IxDyn(&[]), number)
}
