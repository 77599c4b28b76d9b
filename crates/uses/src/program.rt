//! The program over any words, any reader and any two streams.

ghost use Rattle.std.specs.Prelude.{◌≡◌, ◌⊎◌, map, IfErr, IfOk, OnOk, string_bytes};
ghost use Rattle.std.specs.Io.KnownBytes.{Appends};
ghost use Rattle.uses.specs.Streams.{AppendsFront, IsFaultOfReader, IsInput, PrintsAnswer, PrintsFault, PrintsFront, PrintsLine};

use crate::command::Command;
use crate::fault::{Fault, Place};
use crate::reporting::fault_line;
use std::alloc::Global;
use std::io;
use std::io::{ErrorKind, Read, Write};

/// Prints the result of the words, which are those after the program's name, for the input that the reader has, and returns the exit
/// status: 0 where the result is on `out`. Else it is 2: a fault of the words, which are looked at before anything is read, or of the
/// input leaves nothing on `out` and prints a line on `err`, and after a fault of `out`, which has then taken a front of the result,
/// nothing more is printed.
pub fn run<R: Read + Drop, W: Write, E: Write>(
    alloc: Global,
    words: &[String],
    input: R,
    out: &mut W,
    err: &mut E,
) -> u8
    ensures status { (result ≡ 0) ⊎ (result ≡ 2) }
    ensures answered { result ≡ 0 → PrintsAnswer (map string_bytes words.now) (R.remaining input) (W.contents out.old) (W.contents out.new) }
    ensures quiet { result ≡ 0 → err.new ≡ err.old }
    ensures unanswered { result ≡ 2 → (PrintsFault (map string_bytes words.now) (R.remaining input) (E.contents err.old) (E.contents err.new) × (out.new ≡ out.old)) ⊎ (PrintsFront (map string_bytes words.now) (R.remaining input) (W.contents out.old) (W.contents out.new) × (err.new ≡ err.old)) }
{
    let command = match Command::spelled(words) {
        Ok(command) => command,
        Err(fault) => return report(alloc, fault, words, "", err),
    };
    let input = match read(alloc, input) {
        Ok(input) => input,
        Err(fault) => return report(alloc, fault, words, "", err),
    };
    match command.answer(alloc, input.as_str()) {
        Ok(text) => match print(text.as_str(), out) {
            Ok(()) => 0,
            Err(_) => 2,
        },
        Err(fault) => report(alloc, fault, words, input.as_str(), err),
    }
}

/// Prints a fault, with the words and the input that it is of, as a line of the stream, and returns the exit status. Where there is
/// no memory for the line, that is the fault.
pub fn report<E: Write>(
    alloc: Global,
    fault: Fault,
    words: &[String],
    input: &str,
    err: &mut E,
) -> u8
    ensures status { result ≡ 2 }
    ensures line { PrintsLine fault (E.contents err.old) (E.contents err.new) ⊎ PrintsLine Fault.Memory (E.contents err.old) (E.contents err.new) }
{
    let _ = match fault_line(alloc, fault, words, input) {
        Ok(line) => print(line.as_str(), err),
        Err(_) => print("uses: memory\n", err),
    };
    2
}

/// What a reader has, as text.
fn read<R: Read + Drop>(alloc: Global, input: R) -> Result<String, Fault>
    ensures text { IfOk result (λ text. IsInput (R.remaining input) (string_bytes text)) }
    ensures err { IfErr result IsFaultOfReader }
{
    io::read_to_string(alloc, input).map_err(|error| match error.kind() {
        ErrorKind::OutOfMemory => Fault::Memory,
        _ => Fault::Input(Place::Whole),
    })
}

/// Writes a text to a stream. After an error the stream has taken a front of it.
fn print<W: Write>(text: &str, out: &mut W) -> io::Result<()>
    ensures whole { OnOk result (Appends (W.contents out.old) (W.contents out.new) text.now) }
    ensures front { AppendsFront (W.contents out.old) (W.contents out.new) text.now }
{
    let mut rest = text.as_bytes();
    for _ in 0..usize::MAX {
        if rest.is_empty() {
            return out.flush();
        }
        match out.write(rest) {
            Ok(0) => return Err(io::Error::from(ErrorKind::WriteZero)),
            Ok(count) => rest = &rest[count..],
            Err(error) => {
                if error.kind() != ErrorKind::Interrupted {
                    return Err(error);
                }
            }
        }
    }
    Err(io::Error::from(ErrorKind::Interrupted))
}
