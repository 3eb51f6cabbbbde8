//! Why a wallet file is refused.

ghost use Rattle.std.specs.Prelude.{◌≡◌};
ghost use Rattle.cred_pull.specs.WalletView.{file_cause};

use prin_text::FileCause;
use std::error::Error;
use std::fmt;

/// Why a line of a wallet file is refused: the first of these that holds of it, in this order.
#[derive(Clone, Copy, Debug, PartialEq, Eq, Hash)]
pub enum WalletCause {
    /// The first line that isn't skipped is not the mark of such a file.
    FirstLine,
    /// No line begins with this word.
    UnknownWord,
    /// The line has too few words or too many, or a byte that no line has.
    Words,
    /// The channel is not spelled as a number, or is too large.
    Number,
    /// The digits are not those of bytes.
    Hex,
    /// The certificate is too long, or it is one more than there may be.
    Limit,
}

/// Why a wallet file is refused.
#[derive(Clone, Copy, Debug, PartialEq, Eq, Hash)]
pub enum WalletFault {
    /// The first line that is refused, counted from 1, and why. A file that is too long is refused
    /// at line 0.
    Line { line: u32, cause: WalletCause },
    /// Memory was refused.
    NoMemory,
}

impl From<WalletCause> for FileCause {
    ghost from_gives = { λ cause e. e ≡ file_cause cause };

    fn from(cause: WalletCause) -> FileCause {
        match cause {
            WalletCause::FirstLine => FileCause::FirstLine,
            WalletCause::UnknownWord => FileCause::UnknownWord,
            WalletCause::Words => FileCause::Words,
            WalletCause::Number => FileCause::Number,
            WalletCause::Hex => FileCause::Hex,
            WalletCause::Limit => FileCause::Limit,
        }
    }
}

impl fmt::Display for WalletCause {
    fn fmt<W: fmt::Write>(&self, f: &mut fmt::Formatter<W>) -> fmt::Result {
        write!(f, "{}", FileCause::from(*self))
    }
}

impl fmt::Display for WalletFault {
    fn fmt<W: fmt::Write>(&self, f: &mut fmt::Formatter<W>) -> fmt::Result {
        match self {
            WalletFault::Line { line, cause } => write!(f, "line {line}: {cause}"),
            WalletFault::NoMemory => write!(f, "no memory"),
        }
    }
}

impl Error for WalletFault {}
