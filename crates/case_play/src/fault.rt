//! Why a line is none.

use std::alloc::{AllocError, AllocFailed};
use std::fmt;

/// Why a line is none.
#[derive(Clone, Copy)]
pub enum LineFault {
    /// It stands before the first case.
    NoCase,
    /// Its key is none.
    NoKey,
    /// It stands at most once, or its number or name was there.
    Twice,
    /// A case has no name.
    NoName,
    /// A case has no status.
    NoStatus,
    /// A relay has keys, or says what it says.
    TwoRelays,
    /// No bytes have this name.
    Unnamed,
    /// These are not hex digits, two for each byte.
    Digits,
    /// A key has 32 bytes.
    KeyLength,
    /// This is no number, or one outside its limits.
    Number,
    /// A grant is not written so.
    Grant,
    /// Memory was refused.
    NoMemory,
}

impl fmt::Display for LineFault {
    fn fmt<W: fmt::Write>(&self, f: &mut fmt::Formatter<W>) -> fmt::Result {
        match self {
            LineFault::NoCase => write!(f, "before the first case"),
            LineFault::NoKey => write!(f, "no such key"),
            LineFault::Twice => write!(f, "was there already"),
            LineFault::NoName => write!(f, "a case without a name"),
            LineFault::NoStatus => write!(f, "a case without a status"),
            LineFault::TwoRelays => write!(f, "keys of a relay, and what it says"),
            LineFault::Unnamed => write!(f, "no bytes of this name"),
            LineFault::Digits => write!(f, "not hex digits, two for each byte"),
            LineFault::KeyLength => write!(f, "a key has 32 bytes"),
            LineFault::Number => write!(f, "no number that may stand here"),
            LineFault::Grant => write!(f, "not how a grant is written"),
            LineFault::NoMemory => write!(f, "no memory"),
        }
    }
}

impl From<AllocError> for LineFault {
    fn from(_e: AllocError) -> LineFault {
        LineFault::NoMemory
    }
}

impl<T: Drop> From<AllocFailed<T>> for LineFault {
    fn from(_e: AllocFailed<T>) -> LineFault {
        LineFault::NoMemory
    }
}

/// A line that is none.
#[derive(Clone, Copy)]
pub struct BadLine {
    /// Counted from 1.
    pub line: u64,
    pub fault: LineFault,
}

impl fmt::Display for BadLine {
    fn fmt<W: fmt::Write>(&self, f: &mut fmt::Formatter<W>) -> fmt::Result {
        let (line, fault) = (self.line, self.fault);
        write!(f, "line {line}: {fault}")
    }
}
