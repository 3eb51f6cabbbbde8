//! Why files are not played to their end.

use crate::fault::BadLine;
use std::alloc::AllocError;
use std::fmt;

/// Why the files are not played to their end.
#[derive(Clone, Copy)]
pub enum Stop {
    NoWords,
    Unread,
    Line(BadLine),
    NoMemory,
    Unwritten,
}

impl fmt::Display for Stop {
    fn fmt<W: fmt::Write>(&self, f: &mut fmt::Formatter<W>) -> fmt::Result {
        match self {
            Stop::NoWords => write!(f, "no words"),
            Stop::Unread => write!(f, "cannot be read"),
            Stop::Line(line) => write!(f, "{line}"),
            Stop::NoMemory => write!(f, "no memory"),
            Stop::Unwritten => write!(f, "cannot be told"),
        }
    }
}

impl From<AllocError> for Stop {
    fn from(_e: AllocError) -> Stop {
        Stop::NoMemory
    }
}
