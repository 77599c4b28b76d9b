//! The steps of an iterator, as a row spells them.

use crate::rows::spelling::number;
use std::alloc::{AllocError, Global};

/// A step of an iterator.
#[derive(Clone, Copy, PartialEq, Eq)]
pub enum Step {
    /// `next`: the next item.
    Next,
    /// `next_back`: the last item.
    NextBack,
    /// `nth:2`: the item after so many.
    Nth(usize),
    /// `left`: how many items `size_hint` says are still to come.
    Left,
    /// `clone`: all items of a clone, and a `/`.
    Clone,
    /// `split_at:1`: all items of the first part, and a `/`; the steps go on with the second part.
    SplitAt(usize),
    /// `skip`: the next item is taken, and dropped.
    Skip,
    /// `rest`: all items that are still to come.
    Rest,
    /// `cells`: all items that are still to come, whose cells are written one after another, each with its number.
    Cells,
}

impl Step {
    /// The step that a word spells.
    fn parse(word: &str) -> Option<Step> {
        match word.split_once(':') {
            Some((name, count)) => Step::of_count(name, number(count)?),
            None => Step::by_name(word),
        }
    }

    /// The step of this name with a number of items.
    fn of_count(name: &str, count: usize) -> Option<Step> {
        match name {
            "nth" => Some(Step::Nth(count)),
            "split_at" => Some(Step::SplitAt(count)),
            _ => None,
        }
    }

    /// The step of this name.
    fn by_name(name: &str) -> Option<Step> {
        match name {
            "next" => Some(Step::Next),
            "next_back" => Some(Step::NextBack),
            "left" => Some(Step::Left),
            "clone" => Some(Step::Clone),
            "skip" => Some(Step::Skip),
            "rest" => Some(Step::Rest),
            "cells" => Some(Step::Cells),
            _ => None,
        }
    }

    /// The steps that the last call of a row spells, and with no such call all items. None comes after one that takes
    /// all items.
    pub fn parse_all(alloc: Global, calls: &[&str]) -> Result<Option<Vec<Step>>, AllocError> {
        let mut steps = Vec::new(alloc);
        match calls {
            [] => steps.push(Step::Rest)?,
            [words] => {
                let mut is_ended = false;
                for word in words.split_whitespace() {
                    let Some(step) = Step::parse(word) else {
                        return Ok(None);
                    };
                    if is_ended {
                        return Ok(None);
                    }
                    is_ended = step == Step::Rest || step == Step::Cells;
                    steps.push(step)?;
                }
            }
            _ => return Ok(None),
        }
        Ok(Some(steps))
    }
}
