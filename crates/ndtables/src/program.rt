//! The program over any words, any reader and any two streams.

ghost use Rattle.std.specs.Prelude.{◌≡◌, ◌<◌, ◌⊎◌, ◌++◌, length, map, IfOk, IfErr, IfSome, OnErr, OnOk, drop, string_bytes};
ghost use Rattle.std.specs.Result.{IsOkAnd};
ghost use Rattle.std.specs.Io.KnownBytes.{Appends};
ghost use Rattle.ndtables.specs.Answering.{Answers, ForbidsAnswer, IsFirstFault};
ghost use Rattle.ndtables.specs.Lines.{AnswersLine, ForbidsLine, StandsAlone};
ghost use Rattle.ndtables.specs.Places.{IsPlaceLine};
ghost use Rattle.ndtables.specs.Streams.{AppendsFront, IsPlaceOf, PrintsAnswer, PrintsEither, PrintsFault, PrintsFront, line_of, place_text};
ghost use Rattle.ndtables.specs.Words.{words_of};

use crate::command::Command;
use crate::fault::{Complaint, Fault};
use crate::help::Page;
use crate::options;
use crate::options::begins_wrongly;
use crate::printing::Form;
use crate::source::Source;
use crate::words::Words;
use std::alloc::Global;
use std::io;
use std::io::{ErrorKind, Read, Write};

/// Answers the words of a command line, of which the first is the program's name, and gives the exit
/// status, as [`run`] does of the others. Words that could not be had are the fault `memory`.
pub fn run_line<X: Drop, R: Read + Drop, W: Write, E: Write>(
    alloc: Global,
    line: Result<Vec<String>, X>,
    input: R,
    out: &mut W,
    err: &mut E,
) -> u8
    ensures status { (result ≡ 0) ⊎ (result ≡ 2) }
    ensures answered { result ≡ 0 → IsOkAnd line (λ words. PrintsAnswer (drop 1 (map string_bytes words.items)) (R.remaining input) (W.contents out.old) (W.contents out.new) × (err.new ≡ err.old)) }
    ensures first { IfOk line (λ words. StandsAlone (drop 1 (map string_bytes words.items)) → (fault : Fault) → IsFirstFault (drop 1 (map string_bytes words.items)) fault → (result ≡ 2) × (out.new ≡ out.old) × PrintsEither fault (E.contents err.old) (E.contents err.new)) }
    ensures printed { IfOk line (λ words. result ≡ 2 → (PrintsFault (drop 1 (map string_bytes words.items)) (R.remaining input) (E.contents err.old) (E.contents err.new) × (out.new ≡ out.old)) ⊎ (PrintsFront (drop 1 (map string_bytes words.items)) (R.remaining input) (W.contents out.old) (W.contents out.new) × (err.new ≡ err.old))) }
    ensures none { OnErr line ((result ≡ 2) × (out.new ≡ out.old) × AppendsFront (E.contents err.old) (E.contents err.new) (line_of Fault.Memory)) }
{
    match line {
        Ok(words) => run(alloc, after_name(words.as_slice()), input, out, err),
        Err(_) => report(Fault::Memory, err),
    }
}

/// The words but the first.
fn after_name(words: &[String]) -> &[String]
    ensures { map string_bytes result.now ≡ drop 1 (map string_bytes words.now) }
{
    match words {
        [_, rest @ ..] => rest,
        [] => words,
    }
}

/// Answers the words, which are those after the program's name, and gives the exit status. The input is read only where the last word
/// is `-` or an option is `--csv`, and not where the word behind the options is neither a command's name nor `-`.
///
/// The status is 0 where the result is on `out`. Else it is 2: the first fault of the words, or of the
/// input, or allocation failure, leaves nothing on `out` and one line on `err`, and a second one that says where a number or a record of
/// the input is at fault. After a fault of a stream, which has then taken a front of the text, nothing more is printed on either.
pub fn run<R: Read + Drop, W: Write, E: Write>(
    alloc: Global,
    words: &[String],
    input: R,
    out: &mut W,
    err: &mut E,
) -> u8
    ensures status { (result ≡ 0) ⊎ (result ≡ 2) }
    ensures answered { result ≡ 0 → PrintsAnswer (map string_bytes words.now) (R.remaining input) (W.contents out.old) (W.contents out.new) }
    ensures quiet { result ≡ 0 → err.new ≡ err.old }
    ensures first { StandsAlone (map string_bytes words.now) → (fault : Fault) → IsFirstFault (map string_bytes words.now) fault → (result ≡ 2) × (out.new ≡ out.old) × PrintsEither fault (E.contents err.old) (E.contents err.new) }
    ensures printed { result ≡ 2 → (PrintsFault (map string_bytes words.now) (R.remaining input) (E.contents err.old) (E.contents err.new) × (out.new ≡ out.old)) ⊎ (PrintsFront (map string_bytes words.now) (R.remaining input) (W.contents out.old) (W.contents out.new) × (err.new ≡ err.old)) }
{
    match answer(alloc, words, input) {
        Ok(text) => match print(text.as_str(), out) {
            Ok(()) => 0,
            Err(_) => 2,
        },
        Err(complaint) => complain(complaint, err),
    }
}

/// What the words ask to be printed, whole; or the first fault, where they have no answer, and where it is.
fn answer<R: Read + Drop>(alloc: Global, words: &[String], input: R) -> Result<String, Complaint>
    ensures text { IfOk result (λ text. AnswersLine (map string_bytes words.now) (R.remaining input) (string_bytes text)) }
    ensures err { IfErr result (λ complaint. ForbidsLine (map string_bytes words.now) (R.remaining input) complaint.fault) }
    ensures place { IfErr result (λ complaint. IsPlaceOf (map string_bytes words.now) (place_text complaint.place)) }
{
    if let Some(page) = Page::asked(words) {
        return Ok(String::from_str(alloc, page.text())?);
    }
    let (source, form, words) = options::asked(words);
    if begins_wrongly(words) {
        return Err(Complaint::from(Fault::Usage));
    }
    match source.given(alloc, words, input) {
        Ok((words, text, count)) => computed(alloc, source, form, words, text.as_str(), count),
        Err(complaint) => Err(complaint),
    }
}

/// What the command of these words and of those of a text prints, in a form; or the fault, and where it is in the text, if that has the words
/// of an input. Requires that the text has so many words.
fn computed(
    alloc: Global,
    source: Source,
    form: Form,
    words: &[String],
    text: &str,
    count: usize,
) -> Result<String, Complaint>
    requires { count ≡ length (words_of text.now) }
    ensures text { IfOk result (λ printed. Answers form (map string_bytes words.now ++ words_of text.now) (string_bytes printed)) }
    ensures err { IfErr result (λ complaint. ForbidsAnswer form (map string_bytes words.now ++ words_of text.now) complaint.fault) }
    ensures place { IfErr result (λ complaint. IfSome complaint.place (λ line. (0 < count) × IsPlaceLine (string_bytes line))) }
{
    let mut words = Words::new(words, text, count);
    match printed(alloc, form, &mut words) {
        Ok(printed) => Ok(printed),
        Err(fault) => {
            let read = count.saturating_sub(words.left_of_text());
            let place = source.place(alloc, fault, text, read);
            Err(Complaint { fault, place })
        }
    }
}

/// What the command of words prints, in a form.
fn printed(alloc: Global, form: Form, words: &mut Words<'_>) -> Result<String, Fault>
    ensures text { IfOk result (λ printed. Answers form words.old (string_bytes printed)) }
    ensures err { IfErr result (ForbidsAnswer form words.old) }
{
    let command = Command::named(words.word()?).ok_or(Fault::Usage)?;
    let array = command.answer(alloc, words)?;
    form.text_of(alloc, &array.view())
}

/// Writes a text to a stream. After an error the stream has taken a front of it.
fn print<W: Write>(text: &str, out: &mut W) -> io::Result<()>
    ensures whole { OnOk result (Appends (W.contents out.old) (W.contents out.new) text.now) }
    ensures front { AppendsFront (W.contents out.old) (W.contents out.new) text.now }
{
    let mut rest = text.as_bytes();
    for _ in 0..usize::MAX {
        if rest.is_empty() {
            return out.flush();
        }
        match out.write(rest) {
            Ok(0) => return Err(io::Error::from(ErrorKind::WriteZero)),
            Ok(count) => rest = &rest[count..],
            Err(error) => {
                if error.kind() != ErrorKind::Interrupted {
                    return Err(error);
                }
            }
        }
    }
    Err(io::Error::from(ErrorKind::Interrupted))
}

/// Prints a fault as a line of the stream, and then where it is, and gives the exit status.
fn complain<E: Write>(complaint: Complaint, err: &mut E) -> u8
    ensures status { result ≡ 2 }
    ensures lines { AppendsFront (E.contents err.old) (E.contents err.new) (line_of complaint.fault ++ place_text complaint.place) }
{
    let Ok(()) = print(complaint.fault.line(), err) else {
        return 2;
    };
    if let Some(line) = complaint.place {
        let _ = print(line.as_str(), err);
    }
    2
}

/// Prints a fault as a line of the stream, and gives the exit status.
fn report<E: Write>(fault: Fault, err: &mut E) -> u8
    ensures status { result ≡ 2 }
    ensures line { AppendsFront (E.contents err.old) (E.contents err.new) (line_of fault) }
{
    let _ = print(fault.line(), err);
    2
}
