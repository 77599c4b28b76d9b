//! The commands: the words that spell them, and the text that each prints for its input.

ghost use Rattle.std.specs.Prelude.{◌≡◌, ◌≤◌, ◌∷◌, ◌++◌, [], ℕ, decimal, length, map, slice_index, IfOk, IfErr, MatchOption, string_bytes};
ghost use Rattle.std.specs.Str.Parse.{ParsesUnsigned};
ghost use Rattle.ndarray.specs.Limits.{IsWithinLimit};
ghost use Rattle.residue.specs.Residue.{Below, modulus};
ghost use Rattle.uses.specs.Answering.{PrintsBoxSums, PrintsFiltered, PrintsGeneration, PrintsPicture, PrintsReport, PrintsSmoothed, PrintsTerm};
ghost use Rattle.uses.specs.Commands.{IsSideWord};
ghost use Rattle.uses.specs.Faults.{IsFaultOf};
ghost use Rattle.uses.specs.Inputs.{IsOrder, residue};
ghost use Rattle.uses.specs.Picture.{blur_kernel, edge_kernel, edge_pixel, mean_pixel};
ghost use Rattle.uses.specs.Recurrence.{IsRecurrence};
ghost use Rattle.uses.specs.Spelling.{count_of};

use crate::fault::{Fault, Place};
use crate::printing::{grid_text, line_text, picture_text, report_text, table_text};
use crate::recurrence::{MODULUS, term};
use crate::signal::taps_and_signal;
use crate::spelling::numbers;
use crate::{box_sums, fir, life, picture, reading, report, smooth};
use ndarray::{ArrayView1, Ix2, Lengths, Valued};
use residue::Residue;
use std::alloc::{AllocError, Global};

/// A command, with its number.
#[derive(Clone, Copy, PartialEq, Eq, Debug)]
pub enum Command {
    /// `blur` prints the blur of a picture in plain PGM.
    Blur,
    /// `box-sums ROWS COLUMNS` prints, of each window of so many rows and columns of a table, the sum of its cells.
    BoxSums(usize, usize),
    /// `edges` prints the edges of a picture in plain PGM.
    Edges,
    /// `fir SHIFT` prints a signal, which is the second line, filtered by the taps of the first.
    Fir(u32),
    /// `life N` prints a grid after N steps.
    Life(u64),
    /// `recurrence N` prints term N, modulo 1,000,000,007, of the recurrence whose coefficients and first terms are given, as many of
    /// these as of those.
    Recurrence(u64),
    /// `report` prints a table with the sum of each row behind it, and below it the sum of each column and of all.
    Report,
    /// `smooth` prints the blur of a picture in plain PGM by a larger kernel, whose weights are greatest in the middle.
    Smooth,
}

impl Command {
    ghost use Rattle.uses.specs.Answering.{Prints};
    ghost use Rattle.uses.specs.Commands.{Spells};

    /// The command that words spell.
    pub fn spelled(words: &[String]) -> Result<Command, Fault>
        ensures spelled { IfOk result (Spells (map string_bytes words.now)) }
        ensures err { IfErr result (IsFaultOf (Spells (map string_bytes words.now))) }
    {
        match words {
            [name] => Command::alone(name.as_str()),
            [name, number] => Command::with_number(name.as_str(), number.as_str()),
            [name, first, second] => {
                Command::with_two(name.as_str(), first.as_str(), second.as_str())
            }
            _ => Err(Fault::Usage),
        }
    }

    /// The command that a name alone spells.
    fn alone(name: &str) -> Result<Command, Fault>
        ensures spelled { IfOk result (Spells (name.now ∷ [])) }
        ensures err { IfErr result (IsFaultOf (Spells (name.now ∷ []))) }
    {
        match name {
            "blur" => Ok(Command::Blur),
            "edges" => Ok(Command::Edges),
            "report" => Ok(Command::Report),
            "smooth" => Ok(Command::Smooth),
            _ => Err(Fault::Usage),
        }
    }

    /// The command that a name and a number spell.
    fn with_number(name: &str, number: &str) -> Result<Command, Fault>
        ensures spelled { IfOk result (Spells (name.now ∷ number.now ∷ [])) }
        ensures err { IfErr result (IsFaultOf (Spells (name.now ∷ number.now ∷ []))) }
    {
        match name {
            "fir" => Ok(Command::Fir(shift(number)?)),
            "life" => Ok(Command::Life(count(number)?)),
            "recurrence" => Ok(Command::Recurrence(count(number)?)),
            _ => Err(Fault::Usage),
        }
    }

    /// The command that a name and two numbers spell.
    fn with_two(name: &str, first: &str, second: &str) -> Result<Command, Fault>
        ensures spelled { IfOk result (Spells (name.now ∷ first.now ∷ second.now ∷ [])) }
        ensures err { IfErr result (IsFaultOf (Spells (name.now ∷ first.now ∷ second.now ∷ []))) }
    {
        match name {
            "box-sums" => Ok(Command::BoxSums(side(first, 1)?, side(second, 2)?)),
            _ => Err(Fault::Usage),
        }
    }

    /// What the command prints for an input.
    pub fn answer(self, alloc: Global, input: &str) -> Result<String, Fault>
        ensures text { IfOk result (λ text. Prints self input.now (string_bytes text)) }
        ensures err { IfErr result (IsFaultOf (Prints self input.now)) }
    {
        match self {
            Command::Blur => blur(alloc, input),
            Command::BoxSums(rows, columns) => summed_boxes(alloc, input, rows, columns),
            Command::Edges => edges(alloc, input),
            Command::Fir(shift) => filtered(alloc, input, shift),
            Command::Life(steps) => later(alloc, input, steps),
            Command::Recurrence(n) => nth_term(alloc, input, n),
            Command::Report => reported(alloc, input),
            Command::Smooth => smoothed(alloc, input),
        }
    }
}

/// A word as a number of bits.
fn shift(word: &str) -> Result<u32, Fault>
    ensures { ParsesUnsigned 32 10 word.now result }
{
    word.parse::<u32>()
        .map_err(|_| Fault::Number(Place::Argument(1)))
}

/// A word as a number of steps or of a term.
fn count(word: &str) -> Result<u64, Fault>
    ensures { ParsesUnsigned 64 10 word.now result }
{
    word.parse::<u64>()
        .map_err(|_| Fault::Number(Place::Argument(1)))
}

/// A word, which is the one at a place of the command, as the number of rows or columns of a window, which is at least 1.
fn side(word: &str, at: usize) -> Result<usize, Fault>
    ensures some { IfOk result (λ _. IsSideWord word.now) }
    ensures value { IfOk result (λ n. n ≡ count_of word.now) }
    ensures err { IfErr result (λ _. IsSideWord word.now → ⊥) }
{
    let side = word
        .parse::<usize>()
        .map_err(|_| Fault::Number(Place::Argument(at)))?;
    if side == 0 {
        return Err(Fault::Number(Place::Argument(at)));
    }
    Ok(side)
}

/// The blur of a picture.
fn blur(alloc: Global, input: &str) -> Result<String, Fault>
    ensures text { IfOk result (λ text. PrintsPicture blur_kernel mean_pixel input.now (string_bytes text)) }
    ensures err { IfErr result (IsFaultOf (PrintsPicture blur_kernel mean_pixel input.now)) }
{
    let image = reading::picture(alloc, input)?;
    let Some(blurred) = picture::blur(alloc, &image)? else {
        return Err(Fault::Range);
    };
    let text = picture_text(alloc, &blurred.view())?;
    Ok(text)
}

/// The sums of the windows of a table.
fn summed_boxes(alloc: Global, input: &str, rows: usize, columns: usize) -> Result<String, Fault>
    ensures text { IfOk result (λ text. PrintsBoxSums rows columns input.now (string_bytes text)) }
    ensures err { IfErr result (IsFaultOf (PrintsBoxSums rows columns input.now)) }
{
    let table = reading::table(alloc, input)?;
    let Some(sums) = box_sums::box_sums(alloc, &table, rows, columns)? else {
        return Err(Fault::Range);
    };
    let text = table_text(alloc, &sums.view())?;
    Ok(text)
}

/// The edges of a picture.
fn edges(alloc: Global, input: &str) -> Result<String, Fault>
    ensures text { IfOk result (λ text. PrintsPicture edge_kernel edge_pixel input.now (string_bytes text)) }
    ensures err { IfErr result (IsFaultOf (PrintsPicture edge_kernel edge_pixel input.now)) }
{
    let image = reading::picture(alloc, input)?;
    let Some(edges) = picture::edges(alloc, &image)? else {
        return Err(Fault::Range);
    };
    let text = picture_text(alloc, &edges.view())?;
    Ok(text)
}

/// A grid after some steps.
fn later(alloc: Global, input: &str, steps: u64) -> Result<String, Fault>
    ensures text { IfOk result (λ text. PrintsGeneration steps input.now (string_bytes text)) }
    ensures err { IfErr result (IsFaultOf (PrintsGeneration steps input.now)) }
{
    let grid = reading::grid(alloc, input)?;
    let last = life::after(alloc, &grid, steps)?;
    let text = grid_text(alloc, &last.view())?;
    Ok(text)
}

/// A signal filtered by taps.
fn filtered(alloc: Global, input: &str, shift: u32) -> Result<String, Fault>
    ensures text { IfOk result (λ text. PrintsFiltered shift input.now (string_bytes text)) }
    ensures err { IfErr result (IsFaultOf (PrintsFiltered shift input.now)) }
{
    let (taps, signal) = taps_and_signal(alloc, input)?;
    let taps = ArrayView1::from(taps.as_slice());
    let signal = ArrayView1::from(signal.as_slice());
    let Some(filtered) = fir::filter(alloc, &signal, &taps, shift)? else {
        return Err(Fault::Range);
    };
    let text = line_text(alloc, &filtered.view())?;
    Ok(text)
}

/// Term `n` of the recurrence whose coefficients are the first half of the numbers of an input, and whose first terms are the
/// second.
fn nth_term(alloc: Global, input: &str, n: u64) -> Result<String, Fault>
    ensures text { IfOk result (λ text. PrintsTerm n input.now (string_bytes text)) }
    ensures err { IfErr result (IsFaultOf (PrintsTerm n input.now)) }
{
    let numbers = numbers(alloc, input, 0)?;
    let Some(order) = order_of(numbers.len()) else {
        return Err(Fault::Shape(Place::Whole));
    };
    let residues = residues(alloc, numbers.as_slice())?;
    let (coefficients, first) = residues.as_slice().split_at(order);
    let coefficients = ArrayView1::from(coefficients);
    let first = ArrayView1::from(first);
    let text = term_line(alloc, &coefficients, &first, n)?;
    Ok(text)
}

/// Half of a count of numbers, where that is the order of a recurrence.
fn order_of(count: usize) -> Option<usize>
    ensures { MatchOption result ((order : ℕ) → IsOrder count order → ⊥) (IsOrder count) }
{
    let order = count / 2;
    if order == 0 || count % 2 != 0 {
        return None;
    }
    if !Ix2(order, order).size_ok() {
        return None;
    }
    Some(order)
}

/// Term `n` of a recurrence as a line. Requires what `term` does.
fn term_line(
    alloc: Global,
    coefficients: &ArrayView1<'_, Residue<MODULUS>>,
    first: &ArrayView1<'_, Residue<MODULUS>>,
    n: u64,
) -> Result<String, AllocError>
    requires order { 1 ≤ slice_index first.now.lengths 0 }
    requires lengths { coefficients.now.lengths ≡ first.now.lengths }
    requires limit { IsWithinLimit (slice_index first.now.lengths 0 ∷ slice_index first.now.lengths 0 ∷ []) }
    ensures { IfOk result (λ text. (s : ℕ → Below (modulus 1000000007)) → IsRecurrence ⟦<Residue<1000000007> as Valued>⟧ coefficients.now first.now s → string_bytes text ≡ decimal (s n).number ++ 10 ∷ []) }
{
    let number = term(alloc, coefficients, first, n)?.number();
    let text = format!(in alloc; "{number}\n")?;
    Ok(text)
}

/// Numbers as residues.
fn residues(alloc: Global, numbers: &[i64]) -> Result<Vec<Residue<MODULUS>>, AllocError>
    ensures { IfOk result (λ residues. residues.items ≡ map residue numbers.now) }
{
    let mut residues = Vec::with_capacity(alloc, numbers.len())?;
    for number in numbers {
        residues.push(Residue::new(number.rem_euclid(MODULUS as i64) as u32))?;
    }
    Ok(residues)
}

/// A table with the sum of each row behind it, and below it the sum of each column and of all.
fn reported(alloc: Global, input: &str) -> Result<String, Fault>
    ensures text { IfOk result (λ text. PrintsReport input.now (string_bytes text)) }
    ensures err { IfErr result (IsFaultOf (PrintsReport input.now)) }
{
    let table = reading::table(alloc, input)?;
    let Some((rows, columns, all)) = report::totals(alloc, &table)? else {
        return Err(Fault::Range);
    };
    let text = report_text(alloc, &table.view(), &rows.view(), &columns.view(), all)?;
    Ok(text)
}

/// A picture, smoothed.
fn smoothed(alloc: Global, input: &str) -> Result<String, Fault>
    ensures text { IfOk result (λ text. PrintsSmoothed input.now (string_bytes text)) }
    ensures err { IfErr result (IsFaultOf (PrintsSmoothed input.now)) }
{
    let image = reading::picture(alloc, input)?;
    let Some(smoothed) = smooth::smooth(alloc, &image)? else {
        return Err(Fault::Range);
    };
    let text = picture_text(alloc, &smoothed.view())?;
    Ok(text)
}
