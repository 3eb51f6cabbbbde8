//! The codes by which a relay refuses.

ghost use Rattle.std.specs.Prelude.{◌≡◌, ◌≢◌};
ghost use Rattle.sealed_cert.specs.declared.fault.SealFault.TheVariants as seals;
ghost use Rattle.relay_core.specs.Resealing as says;

use sealed_cert::SealFault;

/// The bytes are no certificate under an issuer's seal.
pub const MALFORMED: u8 = 1;

/// The relay has no key of the issuer.
pub const UNKNOWN_ISSUER: u8 = 2;

/// The tag is not that of the bytes before it.
pub const BAD_SEAL: u8 = 3;

/// The certificate is under a relay's seal.
pub const WRONG_KIND: u8 = 4;

/// The relay has no key of the node.
pub const UNKNOWN_NODE: u8 = 5;

pub(crate) fn code_of(fault: SealFault) -> u8
    ensures { result ≡ says.code_of fault }
{
    match fault {
        SealFault::Malformed { .. } | SealFault::NoMemory => MALFORMED,
        SealFault::UnknownIssuer { .. } => UNKNOWN_ISSUER,
        SealFault::BadSeal => BAD_SEAL,
        SealFault::WrongKind { .. } => WRONG_KIND,
    }
}
