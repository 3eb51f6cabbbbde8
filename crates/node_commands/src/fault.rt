//! Why a file is refused.

ghost use Rattle.std.specs.Prelude.{◌≡◌};
ghost use Rattle.node_commands.specs.declared.fault.FileFault.TheVariants as fault;

use node_file::FileCause;
use std::alloc::AllocError;

/// Why a file opens no node and no relay that serves.
#[derive(Clone, Copy, PartialEq, Eq)]
pub enum FileFault {
    /// A read failed.
    ReadFault,
    /// The line is refused for the cause: 0 is the whole file, and one more than there are what is
    /// lacking behind the last.
    Refused { line: u32, cause: FileCause },
    /// Its byte at the offset can't stand there, or is lacking.
    Malformed { offset: usize },
    /// Memory was refused, for the opening or for what it opens.
    NoMemory,
}

impl From<AllocError> for FileFault {
    ghost from_gives = { λ _ e. e ≡ fault.NoMemory };

    fn from(_e: AllocError) -> FileFault {
        FileFault::NoMemory
    }
}
