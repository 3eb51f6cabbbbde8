//! Why a key was not added.

use std::error::Error;
use std::fmt;

/// Why a table refused a key.
#[derive(Clone, Copy, Debug, PartialEq, Eq, Hash)]
pub enum KeyFault {
    /// The number has a key already.
    Twice { number: u32 },
    /// As many keys are there as the table has room for.
    TableFull { room: usize },
}

impl fmt::Display for KeyFault {
    fn fmt<W: fmt::Write>(&self, f: &mut fmt::Formatter<W>) -> fmt::Result {
        match self {
            KeyFault::Twice { number } => write!(f, "key {number} is there already"),
            KeyFault::TableFull { room } => write!(f, "the table has room for {room} keys"),
        }
    }
}

impl Error for KeyFault {}
