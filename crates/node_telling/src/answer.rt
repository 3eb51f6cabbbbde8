//! What the front of a relay's answer says.

ghost use Rattle.std.specs.Prelude.{◌≡◌, ◌≢◌, ◌↔◌, Ok, IfSome, IsTrue};
ghost use Rattle.byte_fields.specs.Formats.{u8_in};

use relay_core::{ANSWER, RESEALED};
use taos_wire::byte_of;

/// Whether a payload is a relay's answer that brings a certificate.
pub fn is_resealed(payload: &[u8]) -> bool
    ensures { IsTrue result ↔ (u8_in payload.now 0 ≡ Ok (ANSWER, 1))
        × (u8_in payload.now 1 ≡ Ok (RESEALED, 2)) }
{
    byte_of(payload, 0) == Some(ANSWER) && byte_of(payload, 1) == Some(RESEALED)
}

/// The code of a relay's answer that brings no certificate, by its payload.
pub fn code_of(payload: &[u8]) -> Option<u8>
    ensures answer { IfSome result (λ _. u8_in payload.now 0 ≡ Ok (ANSWER, 1)) }
    ensures code { IfSome result (λ code. u8_in payload.now 1 ≡ Ok (code, 2)) }
    ensures refused { IfSome result (λ code. code ≢ RESEALED) }
{
    if byte_of(payload, 0)? != ANSWER {
        return None;
    }
    let code = byte_of(payload, 1)?;
    if code == RESEALED {
        return None;
    }
    Some(code)
}
