//! Rows of a file: a table, calls on it, and the answer that they have to give, each on every layout of the table.

mod along;
mod answer;
mod arrays;
mod calls;
mod items;
mod joining;
mod layouts;
mod lists;
mod operators;
mod products;
mod reading;
mod spelling;
mod stepping;
mod steps;
mod text;
mod updating;
mod values;
mod wrapping;
mod writing;

use crate::counts::Counts;
use crate::rows::answer::answer;
use crate::rows::layouts::{LAYOUTS, Layout};
use std::alloc::{AllocError, Global};
use std::io;

/// Carries out the rows of a file, prints those that give another answer, and counts them.
pub fn compare<R: Print + AllocGlobal>(
    rt: &R,
    name: &str,
    text: &str,
    given: Counts,
) -> io::Result<Counts> {
    let mut counts = given;
    let mut number = 0u64;
    for line in text.lines() {
        number = number.saturating_add(1);
        let row = line.trim();
        if row.is_empty() || row.starts_with('#') {
            continue;
        }
        let differences = differences(rt.alloc(), row)?;
        if !differences.is_empty() {
            println!(rt; "{name}:{number}: {row}")?;
            rt.print(differences.as_str())?;
        }
        counts = counts.with(differences.is_empty());
    }
    Ok(counts)
}

/// What a row gives in place of its answer, a line for each layout on which it does.
fn differences(alloc: Global, row: &str) -> Result<String, AllocError> {
    let mut found = String::new(alloc);
    match row.split_once("=>") {
        Some((calls, wanted)) => {
            for layout in LAYOUTS {
                push_difference(&mut found, alloc, calls, wanted.trim(), *layout)?;
            }
        }
        None => found.push_str("    no answer is given: TABLE | CALL | .. => ANSWER\n")?,
    }
    Ok(found)
}

/// Appends what a row gives on a layout, where that is another answer.
fn push_difference(
    found: &mut String,
    alloc: Global,
    calls: &str,
    wanted: &str,
    layout: Layout,
) -> Result<(), AllocError> {
    let given = answer(alloc, calls, layout)?;
    if given.as_str() == wanted {
        return Ok(());
    }
    write!(found, "    {layout}: {given}\n")
}
