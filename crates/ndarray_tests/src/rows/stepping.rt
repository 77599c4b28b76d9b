//! The steps of an iterator, carried out one after another.

ghost use Rattle.std.specs.Iterator.{IsFinite};

use crate::rows::items::{Item, number_all};
use crate::rows::steps::Step;
use crate::rows::text::{push_separator, push_word};
use ndarray::iter::{AxisChunksIter, AxisChunksIterMut, AxisIter, AxisIterMut};
use ndarray::{ArrayView, IxDyn};
use std::alloc::{AllocError, Global};

/// How the calls of a row end.
#[derive(Drop)]
pub enum Ending {
    /// These are the results of the steps.
    Done(String),
    /// A test of the library says no.
    Refused,
    /// One is no call and no step of rows.
    Unknown,
}

/// How the steps of an iterator ended, or allocation failure.
pub type Stepped = Result<Ending, AllocError>;

impl Ending {
    /// The returns, or the word for why there are none.
    pub fn into_text(self, alloc: Global) -> Result<String, AllocError> {
        match self {
            Ending::Done(text) => Ok(text),
            Ending::Refused => "refused".to_string(alloc),
            Ending::Unknown => "not understood".to_string(alloc),
        }
    }
}

/// The results of the steps so far, and the number of the next item.
#[derive(Drop)]
struct Answers {
    text: String,
    number: i64,
}

impl Answers {
    /// No answer yet.
    fn new(alloc: Global) -> Answers {
        Answers {
            text: String::new(alloc),
            number: 1,
        }
    }

    /// Takes an item, and returns `none` where there is none.
    fn take<T: Item>(&mut self, item: Option<T>) -> Result<(), AllocError> {
        let Some(item) = item else {
            self.number = self.number.wrapping_add(1);
            return push_word(&mut self.text, "none");
        };
        self.take_one(item)
    }

    /// Takes an item.
    fn take_one<T: Item>(&mut self, item: T) -> Result<(), AllocError> {
        if T::IS_READ {
            push_separator(&mut self.text)?;
        }
        item.take(&mut self.text, self.number)?;
        self.number = self.number.wrapping_add(1);
        Ok(())
    }

    /// Takes all items.
    fn take_all<I: Iterator>(&mut self, items: I) -> Result<(), AllocError>
    where
        I::Item: Item,
        requires can { I.can_next items }
        requires ends { IsFinite (I.remaining items) }
    {
        for item in items {
            self.take_one(item)?;
        }
        Ok(())
    }

    /// Takes all items of a first part: those to read are shown with a mark behind them, and those to write are
    /// numbered from 100.
    fn take_part<I: Iterator>(&mut self, items: I) -> Result<(), AllocError>
    where
        I::Item: Item,
        requires can { I.can_next items }
        requires ends { IsFinite (I.remaining items) }
    {
        let number = self.number;
        self.number = 100;
        self.take_all(items)?;
        self.number = number;
        if I::Item::IS_READ {
            push_word(&mut self.text, "/")?;
        }
        Ok(())
    }

    /// Takes the first so many items, and gives the iterator of the rest; `None` where there are fewer.
    fn split<I: BothEnds>(&mut self, items: I, count: usize) -> Result<Option<I>, AllocError>
    where
        I::Item: Item,
        requires can { (it : I) → I.can_next it }
        requires ends { (it : I) → IsFinite (I.remaining it) }
    {
        let Some((first, second)) = items.split(count) else {
            return Ok(None);
        };
        self.take_part(first)?;
        Ok(Some(second))
    }

    /// Carries out a step that any iterator has, and returns whether it is one.
    fn step<I: Iterator>(&mut self, items: &mut I, step: Step) -> Result<bool, AllocError>
    where
        I::Item: Item,
        requires can { (it : I) → I.can_next it }
    {
        match step {
            Step::Next => self.take(items.next())?,
            Step::Nth(count) => self.take(items.nth(count))?,
            Step::Left => self.push_left(items.size_hint())?,
            Step::Skip => drop(items.next()),
            _ => return Ok(false),
        }
        Ok(true)
    }

    /// Carries out a step that an iterator has which goes from both ends, and returns whether it is one.
    fn step_from_ends<I: DoubleEndedIterator>(
        &mut self,
        items: &mut I,
        step: Step,
    ) -> Result<bool, AllocError>
    where
        I::Item: Item,
        requires can { (it : I) → I.can_next it }
        requires back { (it : I) → I.can_next_back it }
    {
        match step {
            Step::NextBack => self.take(items.next_back())?,
            step => return self.step(items, step),
        }
        Ok(true)
    }

    /// Carries out a step that takes all items.
    fn last_step<I: Iterator>(self, items: I, step: Step) -> Stepped
    where
        I::Item: Item,
        requires can { I.can_next items }
        requires ends { IsFinite (I.remaining items) }
    {
        let mut answers = self;
        match step {
            Step::Rest => answers.take_all(items)?,
            Step::Cells if !I::Item::IS_READ => drop(number_all(items, answers.number)),
            _ => return Ok(Ending::Unknown),
        }
        Ok(Ending::Done(answers.text))
    }

    /// Appends how many items a hint says are still to come.
    fn push_left(&mut self, hint: (usize, Option<usize>)) -> Result<(), AllocError> {
        let (least, most) = hint;
        push_separator(&mut self.text)?;
        if most == Some(least) {
            write!(self.text, "{least}")
        } else {
            write!(self.text, "{least} or more")
        }
    }
}

/// Carries out the steps of an iterator, each of which any iterator has.
pub fn step_forward<I: Iterator>(alloc: Global, given: I, steps: &[Step]) -> Stepped
where
    I::Item: Item,
    requires can { (it : I) → I.can_next it }
    requires ends { (it : I) → IsFinite (I.remaining it) }
{
    let mut items = given;
    let mut answers = Answers::new(alloc);
    for step in steps {
        if !answers.step(&mut items, *step)? {
            return answers.last_step(items, *step);
        }
    }
    Ok(Ending::Done(answers.text))
}

/// Carries out the steps of an iterator that has clones.
pub fn step_with_clones<I: Iterator + Clone>(alloc: Global, given: I, steps: &[Step]) -> Stepped
where
    I::Item: Item,
    requires can { (it : I) → I.can_next it }
    requires ends { (it : I) → IsFinite (I.remaining it) }
{
    let mut items = given;
    let mut answers = Answers::new(alloc);
    for step in steps {
        if *step == Step::Clone {
            answers.take_part(items.clone()?)?;
        } else if !answers.step(&mut items, *step)? {
            return answers.last_step(items, *step);
        }
    }
    Ok(Ending::Done(answers.text))
}

/// An iterator that goes from both ends, and is split.
pub trait BothEnds: DoubleEndedIterator {
    /// The first so many items, and the rest; `None` where there are fewer.
    fn split(self, count: usize) -> Option<(Self, Self)>;
}

/// One whose items are read: it has clones, and an `nth` of its own.
pub trait BothEndsRead: BothEnds + Clone {
    /// The item after so many.
    fn after(&mut self, count: usize) -> Option<Self::Item>;
}

/// Carries out the steps of an iterator that goes from both ends, and is split.
pub fn step_both_ends<I: BothEnds>(alloc: Global, given: I, steps: &[Step]) -> Stepped
where
    I::Item: Item,
    requires can { (it : I) → I.can_next it }
    requires back { (it : I) → I.can_next_back it }
    requires ends { (it : I) → IsFinite (I.remaining it) }
{
    let mut items = given;
    let mut answers = Answers::new(alloc);
    for step in steps {
        if let Step::SplitAt(count) = *step {
            let Some(rest) = answers.split(items, count)? else {
                return Ok(Ending::Refused);
            };
            items = rest;
        } else if !answers.step_from_ends(&mut items, *step)? {
            return answers.last_step(items, *step);
        }
    }
    Ok(Ending::Done(answers.text))
}

/// Carries out the steps of an iterator that goes from both ends and is split, whose items are read.
pub fn read_both_ends<I: BothEndsRead>(alloc: Global, given: I, steps: &[Step]) -> Stepped
where
    I::Item: Item,
    requires can { (it : I) → I.can_next it }
    requires back { (it : I) → I.can_next_back it }
    requires ends { (it : I) → IsFinite (I.remaining it) }
{
    let mut items = given;
    let mut answers = Answers::new(alloc);
    for step in steps {
        match *step {
            Step::Clone => answers.take_part(items.clone()?)?,
            Step::Nth(count) => answers.take(items.after(count))?,
            Step::SplitAt(count) => {
                let Some(rest) = answers.split(items, count)? else {
                    return Ok(Ending::Refused);
                };
                items = rest;
            }
            step => {
                if !answers.step_from_ends(&mut items, step)? {
                    return answers.last_step(items, step);
                }
            }
        }
    }
    Ok(Ending::Done(answers.text))
}

impl<'a> BothEnds for AxisIter<'a, i64, IxDyn> {
    fn split(self, count: usize) -> Option<(Self, Self)> {
        if count > self.len() {
            return None;
        }
        Some(self.split_at(count))
    }
}

impl<'a> BothEndsRead for AxisIter<'a, i64, IxDyn> {
    fn after(&mut self, count: usize) -> Option<ArrayView<'a, i64, IxDyn>> {
        self.nth(count)
    }
}

impl<'a> BothEnds for AxisChunksIter<'a, i64, IxDyn> {
    fn split(self, count: usize) -> Option<(Self, Self)> {
        if count > self.len() {
            return None;
        }
        Some(self.split_at(count))
    }
}

impl<'a> BothEndsRead for AxisChunksIter<'a, i64, IxDyn> {
    fn after(&mut self, count: usize) -> Option<ArrayView<'a, i64, IxDyn>> {
        self.nth(count)
    }
}

impl<'a> BothEnds for AxisIterMut<'a, i64, IxDyn> {
    fn split(self, count: usize) -> Option<(Self, Self)> {
        if count > self.len() {
            return None;
        }
        Some(self.split_at(count))
    }
}

impl<'a> BothEnds for AxisChunksIterMut<'a, i64, IxDyn> {
    fn split(self, count: usize) -> Option<(Self, Self)> {
        if count > self.len() {
            return None;
        }
        Some(self.split_at(count))
    }
}
