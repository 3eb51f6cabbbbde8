//! Why a line is refused, whatever its number.

ghost use Rattle.std.specs.Prelude.{◌≡◌};
ghost use Rattle.prin_text.specs.LineView.{fault_at};
ghost use Rattle.prin_text.specs.declared.lines.line_fault.LineFault.TheVariants as lines;

use crate::lines::fault::{FileCause, FileFault};
use std::alloc::{AllocError, AllocFailed};

/// Why a line is refused.
#[derive(Clone, Copy, PartialEq, Eq, Hash)]
pub enum LineFault {
    /// What the line says is refused.
    Refused(FileCause),
    /// Memory was refused.
    NoMemory,
}

impl LineFault {
    /// The fault of the file, where the line has this number.
    pub fn at(self, line: u32) -> FileFault
        ensures { result ≡ fault_at line self }
    {
        match self {
            LineFault::Refused(cause) => FileFault::Line { line, cause },
            LineFault::NoMemory => FileFault::NoMemory,
        }
    }
}

impl From<FileCause> for LineFault {
    ghost from_gives = { λ cause e. e ≡ lines.Refused cause };

    fn from(cause: FileCause) -> LineFault {
        LineFault::Refused(cause)
    }
}

impl From<AllocError> for LineFault {
    ghost from_gives = { λ _ e. e ≡ lines.NoMemory };

    fn from(_e: AllocError) -> LineFault {
        LineFault::NoMemory
    }
}

impl<T: Drop> From<AllocFailed<T>> for LineFault {
    ghost from_gives = { λ _ e. e ≡ lines.NoMemory };

    fn from(_e: AllocFailed<T>) -> LineFault {
        LineFault::NoMemory
    }
}
