//! Why a request has no ruling.

ghost use Rattle.std.specs.Prelude.{◌≡◌};
ghost use Rattle.taos_wire.specs.View.{reply};
ghost use Rattle.taos_monitor.specs.declared.refusal.Refusal.TheVariants as refusals;
ghost use Rattle.taos_monitor.specs.Refusals.{refusal};

use std::alloc::{AllocError, AllocFailed};
use taos_wire::Reply;

#[derive(Clone, Copy, PartialEq, Eq)]
pub enum Refusal {
    /// The payload is no request: its first byte that can't stand where it does.
    Malformed { offset: u32 },
    /// The node has no such channel.
    UnknownChannel { number: u32 },
    /// The tag is not that of the channel's key.
    BadSeal,
    /// The certificate of this index comes to none; the code says why.
    CertRefused { index: u8, code: u8 },
    /// The link failed at the certificate of this index.
    RelayFailed { index: u8 },
    /// The node has no such object.
    UnknownObject { number: u32 },
    /// Memory was refused.
    NoMemory,
}

impl From<AllocError> for Refusal {
    ghost from_gives = { λ _ e. e ≡ refusals.NoMemory };

    fn from(_e: AllocError) -> Refusal {
        Refusal::NoMemory
    }
}

impl<T: Drop> From<AllocFailed<T>> for Refusal {
    ghost from_gives = { λ _ e. e ≡ refusals.NoMemory };

    fn from(_e: AllocFailed<T>) -> Refusal {
        Refusal::NoMemory
    }
}

/// The reply that says so.
pub fn reply_of(why: Refusal) -> Reply
    ensures { reply result ≡ refusal why }
{
    match why {
        Refusal::Malformed { offset } => Reply::Malformed { offset },
        Refusal::UnknownChannel { number } => Reply::UnknownChannel { number },
        Refusal::BadSeal => Reply::BadSeal,
        Refusal::CertRefused { index, code } => Reply::CertRefused { index, code },
        Refusal::RelayFailed { index } => Reply::RelayFailed { index },
        Refusal::UnknownObject { number } => Reply::UnknownObject { number },
        Refusal::NoMemory => Reply::NoMemory,
    }
}
