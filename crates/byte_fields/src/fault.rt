//! Why bytes are nothing of a format.

ghost use Rattle.std.specs.Prelude.{◌≡◌};
ghost use Rattle.byte_fields.specs.declared.fault.FormatFault.TheVariants.{NoMemory};

use std::alloc::{AllocError, AllocFailed};
use std::error::Error;
use std::fmt;

/// Why bytes are nothing of a format: the first fault in the order of reading.
#[derive(Clone, Copy, Debug, PartialEq, Eq, Hash)]
pub enum FormatFault {
    /// The first byte that can't stand where it does, or the length where bytes are lacking.
    Malformed { offset: usize },
    /// Memory was refused.
    NoMemory,
}

impl fmt::Display for FormatFault {
    fn fmt<W: fmt::Write>(&self, f: &mut fmt::Formatter<W>) -> fmt::Result {
        match self {
            FormatFault::Malformed { offset } => write!(f, "byte {offset}: malformed"),
            FormatFault::NoMemory => write!(f, "out of memory"),
        }
    }
}

impl Error for FormatFault {}

impl From<AllocError> for FormatFault {
    ghost from_gives = { λ _ e. e ≡ NoMemory };

    fn from(_e: AllocError) -> FormatFault {
        FormatFault::NoMemory
    }
}

impl<T: Drop> From<AllocFailed<T>> for FormatFault {
    ghost from_gives = { λ _ e. e ≡ NoMemory };

    fn from(_e: AllocFailed<T>) -> FormatFault {
        FormatFault::NoMemory
    }
}
