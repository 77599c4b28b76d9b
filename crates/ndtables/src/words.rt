//! The words of a command line and of an input, read from left to right.

ghost use Rattle.std.specs.Prelude.{◌≡◌, ◌≤◌, ◌↔◌, ◌∷◌, ◌++◌, [], map, length, IfOk, IfErr, OnErr, MatchResult, IsOk, IsTrue, string_bytes};
ghost use Rattle.ndtables.specs.Faults.{ForbidsAxisAndTable, ForbidsCells, ForbidsCount, ForbidsLastTable, ForbidsTable, ForbidsTables};
ghost use Rattle.ndtables.specs.Reading.{ReadsAxisAndTable, ReadsCount, ReadsNumbers, ReadsTable, ReadsTables};
ghost use Rattle.ndtables.specs.Words.{words_of};

use crate::fault::Fault;
use crate::spelling;
use crate::table::Table;
use ndarray::{Axis, IxDyn, Lengths};
use std::alloc::Global;
use std::marker::Model;
use std::str::SplitAsciiWhitespace;

/// The words that are still to be read: those of a command line, and then those of a text.
#[derive(Drop)]
pub struct Words<'a> {
    rest: &'a [String],
    more: SplitAsciiWhitespace<'a>,
    left: usize,
}

impl<'a> Model for Words<'a> {
    ghost use Rattle.std.specs.Prelude.{◌≡◌, ◌++◌, ℕ, List, length, map, string_bytes};
    ghost use Rattle.std.specs.Str.Iter.{split_ascii_whitespace_text};
    ghost use Rattle.ndtables.specs.Words.{words_of};

    ghost Value = { List (List ℕ) };

    ghost view = { λ w. map string_bytes w.rest.now ++ words_of (split_ascii_whitespace_text w.more) };

    ghost invariant = { λ w. w.left ≡ length (words_of (split_ascii_whitespace_text w.more)) };
}

impl<'a> Words<'a> {
    /// All of these words, and of the words of a text, are still to be read. Requires that the text has so many words.
    pub fn new(words: &'a [String], text: &'a str, count: usize) -> Self
        requires { count ≡ length (words_of text.now) }
        ensures { result ≡ map string_bytes words.now ++ words_of text.now }
    {
        Words {
            rest: words,
            more: text.split_ascii_whitespace(),
            left: count,
        }
    }

    /// How many words of the text are still to be read.
    pub fn left_of_text(&self) -> usize {
        self.left
    }

    /// Whether so many words are still to be read.
    pub fn has(&self, count: usize) -> bool
        ensures { IsTrue result ↔ (count ≤ length self.now) }
    {
        let given = self.rest.len();
        count <= given || count - given <= self.left
    }

    /// Reads the next word. Where there is none the fault is `usage`.
    pub fn word(&mut self) -> Result<&'a str, Fault>
        ensures cases { MatchResult result (λ word. self.old ≡ word.now ∷ self.new) (λ fault. (self.old ≡ []) × (fault ≡ Fault.Usage)) }
        ensures err { OnErr result (self.new ≡ self.old) }
    {
        if let [word, rest @ ..] = self.rest {
            self.rest = rest;
            return Ok(word.as_str());
        }
        let Some(word) = self.more.next() else {
            return Err(Fault::Usage);
        };
        self.left -= 1;
        Ok(word)
    }

    /// Reads the next word as a number: one or more ASCII digits that fit `usize`. Else the fault is
    /// `number`, or `usage` where there is no word.
    pub fn count(&mut self) -> Result<usize, Fault>
        ensures read { IfOk result (ReadsCount self.old self.new) }
        ensures err { IfErr result (ForbidsCount self.old) }
    {
        let word = self.word()?;
        let count = spelling::length(word).ok_or(Fault::Number)?;
        Ok(count)
    }

    /// Reads the next words as a table: a shape word, and then as many cells as the shape has, in
    /// row order. That there are so many words is tested before any cell is read.
    ///
    /// The fault is `usage` where there is no word, `shape` where it spells no shape, `usage` where fewer
    /// words are left than the shape has cells, `number` where one of them spells no cell, and `memory`.
    pub fn table(&mut self, alloc: Global) -> Result<Table<IxDyn>, Fault>
        ensures read { IfOk result (ReadsTable self.old self.new) }
        ensures err { IfErr result (ForbidsTable self.old) }
    {
        let (dim, order) = spelling::shape(self.word()?)?;
        let size = dim.size();
        if !self.has(size) {
            return Err(Fault::Usage);
        }
        let cells = self.cells(alloc, size)?;
        Ok(Table::new(alloc, dim, order, cells)?)
    }

    /// Reads the next words as cells. Requires that there are so many words.
    fn cells(&mut self, alloc: Global, count: usize) -> Result<Vec<i64>, Fault>
        requires { count ≤ length self.old }
        ensures as_many { IfOk result (λ cells. length cells.items ≡ count) }
        ensures read { IfOk result (λ cells. ReadsNumbers self.old self.new cells.items) }
        ensures err { IfErr result (ForbidsCells count self.old) }
    {
        let mut cells = Vec::with_capacity(alloc, count)?;
        for _ in 0..count {
            cells.push(spelling::cell(self.word()?)?)?;
        }
        Ok(cells)
    }

    /// Reads all of the words as a table. The fault is that of the table, or `usage` where a word is left over.
    pub fn last_table(&mut self, alloc: Global) -> Result<Table<IxDyn>, Fault>
        ensures read { IfOk result (ReadsTable self.old []) }
        ensures err { IfErr result (ForbidsLastTable self.old) }
    {
        let table = self.table(alloc)?;
        self.end()?;
        Ok(table)
    }

    /// Reads all of the words as two tables, one after the other.
    pub fn two_tables(&mut self, alloc: Global) -> Result<(Table<IxDyn>, Table<IxDyn>), Fault>
        ensures read { IfOk result (λ tables. ReadsTables self.old tables.0 tables.1) }
        ensures err { IfErr result (ForbidsTables self.old) }
    {
        let left = self.table(alloc)?;
        let right = self.last_table(alloc)?;
        Ok((left, right))
    }

    /// Reads all of the words as an axis and a table.
    pub fn axis_and_table(&mut self, alloc: Global) -> Result<(Axis, Table<IxDyn>), Fault>
        ensures read { IfOk result (λ both. ReadsAxisAndTable self.old both.0.0 both.1) }
        ensures err { IfErr result (ForbidsAxisAndTable self.old) }
    {
        let axis = self.count()?;
        let table = self.last_table(alloc)?;
        Ok((Axis(axis), table))
    }

    /// Tests that no word is left over. Else the fault is `usage`.
    fn end(&self) -> Result<(), Fault>
        ensures none_left { IsOk result ↔ (self.now ≡ []) }
        ensures err { IfErr result (λ fault. fault ≡ Fault.Usage) }
    {
        if self.has(1) {
            return Err(Fault::Usage);
        }
        Ok(())
    }
}
