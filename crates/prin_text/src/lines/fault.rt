//! Why a file is refused.

ghost use Rattle.std.specs.Prelude.{◌≡◌};
ghost use Rattle.prin_text.specs.declared.lines.fault.FileFault.TheVariants.{NoMemory};

use std::alloc::{AllocError, AllocFailed};
use std::error::Error;
use std::fmt;

/// Why a line of a file is refused: the first of these that holds of it, in this order.
#[derive(Clone, Copy, Debug, PartialEq, Eq, Hash)]
pub enum FileCause {
    /// The first line that isn't skipped is not the mark of such a file.
    FirstLine,
    /// No line begins with this word.
    UnknownWord,
    /// The line has too few words or too many, or a byte that no line has.
    Words,
    /// A number is not spelled as one, or is too large.
    Number,
    /// The digits are not those of bytes, or not of a key.
    Hex,
    /// The word is none of rights.
    Rights,
    /// No domain above has the number, or both numbers are one.
    UnknownDomain,
    /// A certificate stands before the node's own line.
    NodeFirst,
    /// No object above has the number.
    UnknownObject,
    /// No name above, or no role, has the text.
    UnknownName,
    /// The rest of the line is no principal within the limits of a list.
    Principal,
    /// Names and roles may not have this text.
    Text,
    /// The certificate does not open.
    Certificate,
    /// What the line says is said above.
    Twice,
    /// It is more than there may be.
    Limit,
    /// No line says which node it is.
    NoNode,
}

impl fmt::Display for FileCause {
    fn fmt<W: fmt::Write>(&self, f: &mut fmt::Formatter<W>) -> fmt::Result {
        f.write_str(match self {
            FileCause::FirstLine => "first line",
            FileCause::UnknownWord => "unknown word",
            FileCause::Words => "words",
            FileCause::Number => "number",
            FileCause::Hex => "hex",
            FileCause::Rights => "rights",
            FileCause::UnknownDomain => "unknown domain",
            FileCause::NodeFirst => "node first",
            FileCause::UnknownObject => "unknown object",
            FileCause::UnknownName => "unknown name",
            FileCause::Principal => "principal",
            FileCause::Text => "text",
            FileCause::Certificate => "certificate",
            FileCause::Twice => "twice",
            FileCause::Limit => "limit",
            FileCause::NoNode => "no node",
        })
    }
}

/// Why a file is refused.
#[derive(Clone, Copy, Debug, PartialEq, Eq, Hash)]
pub enum FileFault {
    /// The first line that is refused, counted from 1, and why. A file that is too long is refused
    /// at line 0, and what is lacking behind its last line.
    Line { line: u32, cause: FileCause },
    /// The first byte of a binary form that can't stand where it does, or the length where bytes
    /// are lacking.
    Byte { offset: u32 },
    /// Memory was refused.
    NoMemory,
}

impl From<AllocError> for FileFault {
    ghost from_gives = { λ _ e. e ≡ NoMemory };

    fn from(_e: AllocError) -> FileFault {
        FileFault::NoMemory
    }
}

impl<T: Drop> From<AllocFailed<T>> for FileFault {
    ghost from_gives = { λ _ e. e ≡ NoMemory };

    fn from(_e: AllocFailed<T>) -> FileFault {
        FileFault::NoMemory
    }
}

impl fmt::Display for FileFault {
    fn fmt<W: fmt::Write>(&self, f: &mut fmt::Formatter<W>) -> fmt::Result {
        match self {
            FileFault::Line { line, cause } => write!(f, "line {line}: {cause}"),
            FileFault::Byte { offset } => write!(f, "byte {offset}: malformed"),
            FileFault::NoMemory => write!(f, "no memory"),
        }
    }
}

impl Error for FileFault {}
