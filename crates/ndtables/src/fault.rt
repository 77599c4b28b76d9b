//! What a run may end with in place of an answer.

ghost use Rattle.ndtables.specs.declared.fault.Fault.TheVariants.{Memory};
ghost use Rattle.std.specs.Prelude.{◌≡◌, None};

use std::alloc::{AllocError, AllocFailed};

/// A fault of the words or of the input, or allocation failure. It prints as a line with its word.
#[derive(Clone, Copy, PartialEq, Eq, Debug)]
pub enum Fault {
    /// No command, an unknown one, a missing word, or a word too many.
    Usage,
    /// A word that is no shape word, a shape beyond the limits, or a condition on shapes that does
    /// not hold.
    Shape,
    /// A number that is not spelled as one, or does not fit its type.
    Number,
    /// A result, on the way too, that may not fit its type.
    Range,
    /// An input that cannot be read, is no text, or has a word of more than 4096 bytes.
    Input,
    /// A failed allocation.
    Memory,
}

impl Fault {
    ghost use Rattle.ndtables.specs.Streams.{line_of};

    /// The line that it prints: `ndtables: `, its word and a newline.
    pub fn line(self) -> &'static str
        ensures { result.now ≡ line_of self }
    {
        match self {
            Fault::Usage => "ndtables: usage\n",
            Fault::Shape => "ndtables: shape\n",
            Fault::Number => "ndtables: number\n",
            Fault::Range => "ndtables: range\n",
            Fault::Input => "ndtables: input\n",
            Fault::Memory => "ndtables: memory\n",
        }
    }
}

/// What a run that has no answer tells: the fault, and then where it is in the input, as a line, where that is known and there was memory
/// for the line.
#[derive(Drop)]
pub struct Complaint {
    /// The fault.
    pub fault: Fault,
    /// The line that says where it is.
    pub place: Option<String>,
}

impl From<Fault> for Complaint {
    ghost from_gives = { λ fault complaint. (complaint.fault ≡ fault) × (complaint.place ≡ None) };

    fn from(fault: Fault) -> Complaint {
        Complaint { fault, place: None }
    }
}

impl From<AllocError> for Complaint {
    ghost from_gives = { λ _ complaint. (complaint.fault ≡ Memory) × (complaint.place ≡ None) };

    fn from(_error: AllocError) -> Complaint {
        Complaint {
            fault: Fault::Memory,
            place: None,
        }
    }
}

impl From<AllocError> for Fault {
    ghost from_gives = { λ _ fault. fault ≡ Memory };

    fn from(_error: AllocError) -> Fault {
        Fault::Memory
    }
}

impl<T: Drop> From<AllocFailed<T>> for Fault {
    ghost from_gives = { λ _ fault. fault ≡ Memory };

    fn from(_error: AllocFailed<T>) -> Fault {
        Fault::Memory
    }
}
