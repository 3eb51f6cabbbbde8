//! Why bytes are no body, and why a body makes no certificate.

ghost use Rattle.std.specs.Prelude.{◌≡◌};
ghost use Rattle.stmt_codec.specs.declared.fault.CertFault.TheVariants.{NoMemory};

/// Why bytes are no body.
pub use byte_fields::FormatFault as BodyFault;
use std::alloc::{AllocError, AllocFailed};
use std::error::Error;
use std::fmt;

/// Why a body makes no certificate.
#[derive(Clone, Copy, Debug, PartialEq, Eq, Hash)]
pub enum CertFault {
    /// A term is too deep or has too many nodes, or there are too many distinct subterms.
    TooLarge,
    /// Memory was refused.
    NoMemory,
}

impl fmt::Display for CertFault {
    fn fmt<W: fmt::Write>(&self, f: &mut fmt::Formatter<W>) -> fmt::Result {
        match self {
            CertFault::TooLarge => write!(f, "the certificate's terms are too large"),
            CertFault::NoMemory => write!(f, "out of memory"),
        }
    }
}

impl Error for CertFault {}

impl From<AllocError> for CertFault {
    ghost from_gives = { λ _ e. e ≡ NoMemory };

    fn from(_e: AllocError) -> CertFault {
        CertFault::NoMemory
    }
}

impl<T: Drop> From<AllocFailed<T>> for CertFault {
    ghost from_gives = { λ _ e. e ≡ NoMemory };

    fn from(_e: AllocFailed<T>) -> CertFault {
        CertFault::NoMemory
    }
}
