//! The options of a command line, and the word behind them.

ghost use Rattle.std.specs.Prelude.{◌↔◌, map, IsTrue, string_bytes};
ghost use Rattle.ndtables.specs.Lines.{Begins, BeginsWrongly};

use crate::command::Command;
use crate::printing::Form;
use crate::source::Source;

/// What the options in front of a command ask for, in either order, and the words after them.
pub fn asked(words: &[String]) -> (Source, Form, &[String])
    ensures { Begins (map string_bytes words.now) result.0 result.1 (map string_bytes result.2.now) }
{
    let (source, behind) = Source::asked(words);
    match source {
        Source::Words => {
            let (form, behind) = Form::asked(words);
            let (source, rest) = Source::asked(behind);
            (source, form, rest)
        }
        Source::Records | Source::RecordsBelowHeader => {
            let (form, rest) = Form::asked(behind);
            (source, form, rest)
        }
    }
}

/// Whether the first of the words is neither a command's name nor `-`.
pub fn begins_wrongly(words: &[String]) -> bool
    ensures { IsTrue result ↔ BeginsWrongly (map string_bytes words.now) }
{
    let [word, _rest @ ..] = words else {
        return false;
    };
    if word.as_str() == "-" {
        return false;
    }
    Command::named(word.as_str()).is_none()
}
