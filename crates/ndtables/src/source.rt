//! Where the last table comes from, and the words of the input.

ghost use Rattle.std.specs.Prelude.{◌≡◌, ◌<◌, ◌++◌, ◌∷◌, ℕ, List, None, codes, length, map, IfErr, IfOk, IfSome, string_bytes};
ghost use Rattle.ndtables.specs.Lines.{AsksInput, AsksSource, ForbidsInput, IsInput, StandFor, StandForNone};
ghost use Rattle.ndtables.specs.Places.{IsPlaceLine};
ghost use Rattle.ndtables.specs.Records.{SpellsRecords};
ghost use Rattle.ndtables.specs.Words.{words_of};

use crate::fault::{Complaint, Fault};
use crate::input::{before_dash, read, read_words};
use crate::place;
use crate::records::table_words;
use std::alloc::Global;
use std::io::Read;

/// Where the last table comes from.
#[derive(Clone, Copy, PartialEq, Eq, Debug)]
pub enum Source {
    /// From the words, of which a `-` at the end stands for those of the input.
    Words,
    /// From the records of the input, of which each is a row.
    Records,
    /// From the records of the input, of which each but the first is a row.
    RecordsBelowHeader,
}

impl Source {
    /// The source that the first words ask for, and the words after these.
    pub fn asked(words: &[String]) -> (Source, &[String])
        ensures { AsksSource (map string_bytes words.now) result.0 (map string_bytes result.1.now) }
    {
        let [word, rest @ ..] = words else {
            return (Source::Words, words);
        };
        match word.as_str() {
            "--csv" => Source::of_records(rest),
            _ => (Source::Words, words),
        }
    }

    /// The source that the words after a `--csv` ask for, and the words after these.
    fn of_records(words: &[String]) -> (Source, &[String])
        ensures { AsksSource (codes "--csv" ∷ map string_bytes words.now) result.0 (map string_bytes result.1.now) }
    {
        let [word, rest @ ..] = words else {
            return (Source::Records, words);
        };
        match word.as_str() {
            "--header" => (Source::RecordsBelowHeader, rest),
            _ => (Source::Records, words),
        }
    }

    /// The given words but a `-` that stands for those of the input, a text that has the words of the input, and how many it has.
    pub fn given<R: Read + Drop>(
        self,
        alloc: Global,
        words: &[String],
        input: R,
    ) -> Result<(&[String], String, usize), Complaint>
        ensures words { IfOk result (λ given. StandFor self (map string_bytes words.now) (R.remaining input) (map string_bytes given.0.now ++ words_of (string_bytes given.1))) }
        ensures count { IfOk result (λ given. given.2 ≡ length (words_of (string_bytes given.1))) }
        ensures asks { IfOk result (λ given. 0 < given.2 → AsksInput self (map string_bytes words.now)) }
        ensures err { IfErr result (λ complaint. StandForNone self (map string_bytes words.now) (R.remaining input) complaint.fault) }
        ensures place { IfErr result (λ complaint. AsksInput self (map string_bytes words.now) × IfSome complaint.place (λ line. IsPlaceLine (string_bytes line))) }
    {
        match self {
            Source::Words => words_given(alloc, words, input),
            Source::Records => {
                let (text, count) = records_given(alloc, input, false)?;
                Ok((words, text, count))
            }
            Source::RecordsBelowHeader => {
                let (text, count) = records_given(alloc, input, true)?;
                Ok((words, text, count))
            }
        }
    }

    /// The line that says where a fault is in a text of which so many words were read: where these are those of the input, and a number is at
    /// fault, it is the last of them.
    pub fn place(self, alloc: Global, fault: Fault, text: &str, read: usize) -> Option<String>
        ensures line { IfSome result (λ line. IsPlaceLine (string_bytes line)) }
        ensures some { IfSome result (λ _. 0 < read) }
    {
        match (self, fault) {
            (Source::Words, Fault::Number) => place::of_word(alloc, text, read),
            _ => None,
        }
    }
}

/// The words but a `-` at the end, the text of the input that this stands for, and how many words it has.
fn words_given<R: Read + Drop>(
    alloc: Global,
    words: &[String],
    input: R,
) -> Result<(&[String], String, usize), Complaint>
    ensures words { IfOk result (λ given. StandFor Source.Words (map string_bytes words.now) (R.remaining input) (map string_bytes given.0.now ++ words_of (string_bytes given.1))) }
    ensures count { IfOk result (λ given. given.2 ≡ length (words_of (string_bytes given.1))) }
    ensures asks { IfOk result (λ given. 0 < given.2 → AsksInput Source.Words (map string_bytes words.now)) }
    ensures err { IfErr result (λ complaint. StandForNone Source.Words (map string_bytes words.now) (R.remaining input) complaint.fault) }
    ensures place { IfErr result (λ complaint. complaint.place ≡ None) }
{
    let Some(front) = before_dash(words) else {
        return Ok((words, String::new(alloc), 0));
    };
    let (text, count) = read_words(alloc, input)?;
    Ok((front, text, count))
}

/// The words of the table that the records of an input spell, as a text, and how many they are.
fn records_given<R: Read + Drop>(
    alloc: Global,
    input: R,
    below_header: bool,
) -> Result<(String, usize), Complaint>
    ensures words { IfOk result (λ both. (records : List ℕ) × IsInput (R.remaining input) records × SpellsRecords below_header records (words_of (string_bytes both.0))) }
    ensures count { IfOk result (λ both. both.1 ≡ length (words_of (string_bytes both.0))) }
    ensures err { IfErr result (λ complaint. ForbidsInput below_header (R.remaining input) complaint.fault) }
    ensures place { IfErr result (λ complaint. IfSome complaint.place (λ line. IsPlaceLine (string_bytes line))) }
{
    let records = read(alloc, input)?;
    match table_words(alloc, records.as_str(), below_header) {
        Ok(text) => {
            let count = text.as_str().split_ascii_whitespace().count();
            Ok((text, count))
        }
        Err(fault) => {
            let place = record_place(alloc, fault, records.as_str(), below_header);
            Err(Complaint { fault, place })
        }
    }
}

/// The line that says where records are at fault, which they are where it is not memory that failed.
fn record_place(alloc: Global, fault: Fault, records: &str, below_header: bool) -> Option<String>
    ensures { IfSome result (λ line. IsPlaceLine (string_bytes line)) }
{
    match fault {
        Fault::Memory => None,
        _ => place::of_record(alloc, records, below_header),
    }
}
