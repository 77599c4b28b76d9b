//! What a run may end with in place of a result.

ghost use Rattle.uses.specs.declared.fault.Fault.TheVariants.{Memory};
ghost use Rattle.std.specs.Prelude.{◌≡◌};

use std::alloc::{AllocError, AllocFailed};

/// Where a fault is. Words and lines are counted from 0.
#[derive(Clone, Copy, PartialEq, Eq, Debug)]
pub enum Place {
    /// In the whole.
    Whole,
    /// A word of the command, which is a number.
    Argument(usize),
    /// A line of the input.
    Line(usize),
    /// A word of the input, whatever its line.
    Word(usize),
    /// The end of the input.
    End,
}

/// A fault of the words or of the input, or allocation failure. It prints as a line with its word.
#[derive(Clone, Copy, PartialEq, Eq, Debug)]
pub enum Fault {
    /// No command, an unknown one, or a word too few or too many.
    Usage,
    /// An input that cannot be read, is no text, or has not the form that the command reads.
    Input(Place),
    /// A word that spells no number, or a pixel that is not within its range.
    Number(Place),
    /// Rows that are not equally long, or more or fewer numbers than are to be.
    Shape(Place),
    /// A result, on the way too, that may not fit its type.
    Range,
    /// Allocation failure.
    Memory,
}

impl Fault {
    ghost use Rattle.uses.specs.Streams.{word_of};

    /// Its word.
    pub fn word(self) -> &'static str
        ensures { result.now ≡ word_of self }
    {
        match self {
            Fault::Usage => "usage",
            Fault::Input(_) => "input",
            Fault::Number(_) => "number",
            Fault::Shape(_) => "shape",
            Fault::Range => "range",
            Fault::Memory => "memory",
        }
    }

    /// Where it is.
    pub fn place(self) -> Place {
        match self {
            Fault::Input(place) | Fault::Number(place) | Fault::Shape(place) => place,
            Fault::Usage | Fault::Range | Fault::Memory => Place::Whole,
        }
    }
}

impl From<AllocError> for Fault {
    ghost from_gives = { λ _ fault. fault ≡ Memory };

    fn from(_error: AllocError) -> Fault {
        Fault::Memory
    }
}

impl<T: Drop> From<AllocFailed<T>> for Fault {
    ghost from_gives = { λ _ fault. fault ≡ Memory };

    fn from(_error: AllocFailed<T>) -> Fault {
        Fault::Memory
    }
}
