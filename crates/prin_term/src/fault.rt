//! Why bytes are no term.

ghost use Rattle.std.specs.Prelude.{◌≡◌};
ghost use Rattle.prin_term.specs.declared.fault.TermFault.TheVariants.{NoMemory};
ghost use Rattle.prin_term.specs.TermFields.{seen_as};

use byte_fields::FormatFault;
use std::alloc::{AllocError, AllocFailed};
use std::error::Error;
use std::fmt;

/// The first fault in the order of reading, and its place in the input.
#[derive(Clone, Copy, Debug, PartialEq, Eq, Hash)]
pub enum TermFault {
    /// The byte is no tag.
    Tag { offset: usize },
    /// The input has ended.
    Short { offset: usize },
    /// The tag is one level too deep.
    TooDeep { offset: usize },
    /// The tag is one node too many.
    TooLarge { offset: usize },
    /// Memory was refused.
    NoMemory,
}

impl fmt::Display for TermFault {
    fn fmt<W: fmt::Write>(&self, f: &mut fmt::Formatter<W>) -> fmt::Result {
        match self {
            TermFault::Tag { offset } => write!(f, "no term begins with the byte at {offset}"),
            TermFault::Short { offset } => write!(f, "the input ends inside a term, at {offset}"),
            TermFault::TooDeep { offset } => write!(f, "the term is too deep at {offset}"),
            TermFault::TooLarge { offset } => write!(f, "the term has too many nodes at {offset}"),
            TermFault::NoMemory => write!(f, "out of memory"),
        }
    }
}

impl Error for TermFault {}

impl From<AllocError> for TermFault {
    ghost from_gives = { λ _ e. e ≡ NoMemory };

    fn from(_e: AllocError) -> TermFault {
        TermFault::NoMemory
    }
}

impl<T: Drop> From<AllocFailed<T>> for TermFault {
    ghost from_gives = { λ _ e. e ≡ NoMemory };

    fn from(_e: AllocFailed<T>) -> TermFault {
        TermFault::NoMemory
    }
}

impl From<TermFault> for FormatFault {
    ghost from_gives = { λ fault e. e ≡ seen_as fault };

    fn from(fault: TermFault) -> FormatFault {
        match fault {
            TermFault::Tag { offset }
            | TermFault::Short { offset }
            | TermFault::TooDeep { offset }
            | TermFault::TooLarge { offset } => FormatFault::Malformed { offset },
            TermFault::NoMemory => FormatFault::NoMemory,
        }
    }
}
