//! The taps and the signal of a filter.

ghost use Rattle.std.specs.Prelude.{◌≡◌, ◌==◌, IfOk, IfErr};
ghost use Rattle.std.specs.List.{after_first, before_first};
ghost use Rattle.uses.specs.Faults.{IsFaultOf};
ghost use Rattle.uses.specs.Signal.{HasTwoLines, ReadsSignal};

use crate::fault::{Fault, Place};
use crate::spelling::numbers;
use std::alloc::Global;

/// The taps of a filter and its signal: the numbers of the first line of a text, and those of all other lines.
pub fn taps_and_signal(alloc: Global, text: &str) -> Result<(Vec<i64>, Vec<i64>), Fault>
    ensures read { IfOk result (λ p. ReadsSignal text.now (p.0.items, p.1.items)) }
    ensures err { IfErr result (IsFaultOf (ReadsSignal text.now)) }
{
    let (first, others) = two_parts(text)?;
    let taps = numbers(alloc, first, 0)?;
    let signal = numbers(alloc, others, taps.len())?;
    Ok((taps, signal))
}

/// The first line of a text, and what follows it. The fault is that it is the only one.
fn two_parts(text: &str) -> Result<(&str, &str), Fault>
    ensures lines { IfOk result (λ _. HasTwoLines text.now) }
    ensures first { IfOk result (λ p. p.0.now ≡ before_first (λ byte. byte == 10) text.now) }
    ensures others { IfOk result (λ p. p.1.now ≡ after_first (λ byte. byte == 10) text.now) }
    ensures err { IfErr result (λ _. HasTwoLines text.now → ⊥) }
{
    match text.split_once('\n') {
        Some(parts) => Ok(parts),
        None => Err(Fault::Input(Place::End)),
    }
}
