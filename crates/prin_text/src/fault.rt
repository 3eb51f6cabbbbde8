//! Why a text is not added to a table, and why a text is no principal or list.

ghost use Rattle.std.specs.Prelude.{◌≡◌};
ghost use Rattle.prin_text.specs.declared.fault.NamesFault.TheVariants as of_names;
ghost use Rattle.prin_text.specs.declared.fault.TextFault.TheVariants as of_texts;

use std::alloc::{AllocError, AllocFailed};
use std::error::Error;
use std::fmt;

/// Why a table refused a text.
#[derive(Clone, Copy, Debug, PartialEq, Eq, Hash)]
pub enum NamesFault {
    /// The text cannot be that of a name or of a role.
    BadText,
    /// The number has a text, or the text has a number.
    Twice,
    /// As many texts are there as the table may hold.
    Full { held: u32 },
    /// Memory was refused.
    NoMemory,
}

/// What is wrong with a text.
#[derive(Clone, Copy, Debug, PartialEq, Eq, Hash)]
pub enum TextCause {
    /// A token cannot stand there, or one is lacking.
    Syntax,
    /// The number has a sign or a leading zero, or more than 32 bits.
    Number,
    /// No name or role has the text.
    UnknownName,
    /// The principal is too deep.
    TooDeep,
    /// The principal has too many nodes.
    TooLarge,
    /// The token is no rights, or none stands there.
    Rights,
    /// The list has too many entries.
    TooMany,
}

/// The fault that is reported of a text, with the offset of the token that it is about.
#[derive(Clone, Copy, Debug, PartialEq, Eq, Hash)]
pub enum TextFault {
    /// The text is refused.
    Bad { offset: usize, cause: TextCause },
    /// Memory was refused.
    NoMemory,
}

impl fmt::Display for NamesFault {
    fn fmt<W: fmt::Write>(&self, f: &mut fmt::Formatter<W>) -> fmt::Result {
        match self {
            NamesFault::BadText => write!(f, "no name or role can have this text"),
            NamesFault::Twice => write!(f, "the number or the text is there already"),
            NamesFault::Full { held } => write!(f, "the table holds {held} texts and no more"),
            NamesFault::NoMemory => write!(f, "out of memory"),
        }
    }
}

impl fmt::Display for TextCause {
    fn fmt<W: fmt::Write>(&self, f: &mut fmt::Formatter<W>) -> fmt::Result {
        f.write_str(match self {
            TextCause::Syntax => "this cannot stand here",
            TextCause::Number => "this is no number of 32 bits",
            TextCause::UnknownName => "nothing has this name",
            TextCause::TooDeep => "the principal is too deep",
            TextCause::TooLarge => "the principal has too many nodes",
            TextCause::Rights => "these are no rights",
            TextCause::TooMany => "the list has too many entries",
        })
    }
}

impl fmt::Display for TextFault {
    fn fmt<W: fmt::Write>(&self, f: &mut fmt::Formatter<W>) -> fmt::Result {
        match self {
            TextFault::Bad { offset, cause } => write!(f, "{cause}, at {offset}"),
            TextFault::NoMemory => write!(f, "out of memory"),
        }
    }
}

impl Error for NamesFault {}

impl Error for TextFault {}

impl From<AllocError> for NamesFault {
    ghost from_gives = { λ _ e. e ≡ of_names.NoMemory };

    fn from(_e: AllocError) -> NamesFault {
        NamesFault::NoMemory
    }
}

impl<T: Drop> From<AllocFailed<T>> for NamesFault {
    ghost from_gives = { λ _ e. e ≡ of_names.NoMemory };

    fn from(_e: AllocFailed<T>) -> NamesFault {
        NamesFault::NoMemory
    }
}

impl From<AllocError> for TextFault {
    ghost from_gives = { λ _ e. e ≡ of_texts.NoMemory };

    fn from(_e: AllocError) -> TextFault {
        TextFault::NoMemory
    }
}

impl<T: Drop> From<AllocFailed<T>> for TextFault {
    ghost from_gives = { λ _ e. e ≡ of_texts.NoMemory };

    fn from(_e: AllocFailed<T>) -> TextFault {
        TextFault::NoMemory
    }
}
