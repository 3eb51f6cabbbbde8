//! Why a path file is refused.

ghost use Rattle.std.specs.Prelude.{◌≡◌};
ghost use Rattle.relay_path.specs.PathView.{file_cause};

use prin_text::FileCause;
use std::error::Error;
use std::fmt;

/// Why a line of a path file is refused: the first of these that holds of it, in this order.
#[derive(Clone, Copy, Debug, PartialEq, Eq, Hash)]
pub enum PathCause {
    /// The first line that isn't skipped is not the mark of such a file.
    FirstLine,
    /// No line begins with this word.
    UnknownWord,
    /// The line has too few words or too many, or a byte that no line has.
    Words,
    /// A number is not spelled as one, or is too large.
    Number,
    /// The digits are not those of a key.
    Hex,
    /// No domain above has the number, or a domain is linked with itself.
    UnknownDomain,
    /// What the line says is said above.
    Twice,
    /// It is more than there may be.
    Limit,
}

/// Why a path file is refused.
#[derive(Clone, Copy, Debug, PartialEq, Eq, Hash)]
pub enum PathFault {
    /// The first line that is refused, counted from 1, and why. A file that is too long is refused
    /// at line 0.
    Line { line: u32, cause: PathCause },
    /// Memory was refused.
    NoMemory,
}

impl From<PathCause> for FileCause {
    ghost from_gives = { λ cause e. e ≡ file_cause cause };

    fn from(cause: PathCause) -> FileCause {
        match cause {
            PathCause::FirstLine => FileCause::FirstLine,
            PathCause::UnknownWord => FileCause::UnknownWord,
            PathCause::Words => FileCause::Words,
            PathCause::Number => FileCause::Number,
            PathCause::Hex => FileCause::Hex,
            PathCause::UnknownDomain => FileCause::UnknownDomain,
            PathCause::Twice => FileCause::Twice,
            PathCause::Limit => FileCause::Limit,
        }
    }
}

impl fmt::Display for PathCause {
    fn fmt<W: fmt::Write>(&self, f: &mut fmt::Formatter<W>) -> fmt::Result {
        write!(f, "{}", FileCause::from(*self))
    }
}

impl fmt::Display for PathFault {
    fn fmt<W: fmt::Write>(&self, f: &mut fmt::Formatter<W>) -> fmt::Result {
        match self {
            PathFault::Line { line, cause } => write!(f, "line {line}: {cause}"),
            PathFault::NoMemory => write!(f, "no memory"),
        }
    }
}

impl Error for PathFault {}
