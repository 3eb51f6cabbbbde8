//! Why bytes do not open.

ghost use Rattle.std.specs.Prelude.{◌≡◌};
ghost use Rattle.sealed_cert.specs.declared.fault.SealFault.TheVariants.{NoMemory};
ghost use Rattle.sealed_cert.specs.Refusals.{seen_as};

use byte_fields::FormatFault;
use std::alloc::AllocError;
use std::error::Error;
use std::fmt;

/// Why bytes do not open to a certificate.
#[derive(Clone, Copy, Debug, PartialEq, Eq, Hash)]
pub enum SealFault {
    /// The byte at the offset can't stand there, or is lacking.
    Malformed { offset: usize },
    /// The table has no key for the certificate's issuer.
    UnknownIssuer { issuer: u32 },
    /// The tag is not that of the bytes before it.
    BadSeal,
    /// The first byte is that of the other kind.
    WrongKind { kind: u8 },
    /// Memory was refused.
    NoMemory,
}

impl fmt::Display for SealFault {
    fn fmt<W: fmt::Write>(&self, f: &mut fmt::Formatter<W>) -> fmt::Result {
        match self {
            SealFault::Malformed { offset } => {
                write!(f, "the sealed certificate is malformed at {offset}")
            }
            SealFault::UnknownIssuer { issuer } => write!(f, "there is no key of issuer {issuer}"),
            SealFault::BadSeal => write!(f, "the seal is not that of the certificate"),
            SealFault::WrongKind { kind } => write!(f, "the certificate is of kind {kind}"),
            SealFault::NoMemory => write!(f, "out of memory"),
        }
    }
}

impl Error for SealFault {}

impl From<FormatFault> for SealFault {
    ghost from_gives = { λ fault e. e ≡ seen_as fault };

    fn from(fault: FormatFault) -> SealFault {
        match fault {
            FormatFault::Malformed { offset } => SealFault::Malformed { offset },
            FormatFault::NoMemory => SealFault::NoMemory,
        }
    }
}

impl From<AllocError> for SealFault {
    ghost from_gives = { λ _ e. e ≡ NoMemory };

    fn from(_e: AllocError) -> SealFault {
        SealFault::NoMemory
    }
}
