//! What the lines of every journal have. What an `Err` leaves of the text is not said here.

ghost use Rattle.std.specs.Prelude.{◌≡◌, ◌++◌, OnOk, codes, string_bytes};
ghost use Rattle.hex.specs.Hex.{encode_lower};
ghost use Rattle.audit_text.specs.Lines.{front, numbered};

use hex::encode;
use itoa::Buffer;
use std::alloc::{AllocError, Global};

// A word and a number.
#[tactic(auto, unfolding(crate::specs::Lines::numbered))]
pub(crate) fn push_number(out: &mut String, word: &str, number: u64) -> Result<(), AllocError>
    ensures { OnOk result (string_bytes out.new
        ≡ string_bytes out.old ++ numbered word.now number) }
{
    let mut buffer = Buffer::new();
    out.push_str(word)?;
    out.push_str(" ")?;
    out.push_str(buffer.format(number))
}

// Which entry it is, by whose journal and which place, and a blank.
pub(crate) fn push_front(
    out: &mut String,
    owner: &str,
    number: u32,
    place: usize,
) -> Result<(), AllocError>
    ensures { OnOk result (string_bytes out.new
        ≡ string_bytes out.old ++ (front owner.now number place ++ codes " ")) }
{
    push_number(out, owner, number as u64)?;
    push_number(out, " entry", place as u64)?;
    out.push_str(" ")
}

// A word with its blank, and a digest in hex.
pub(crate) fn push_digest(
    alloc: Global,
    out: &mut String,
    word: &str,
    digest: &[u8; 32],
) -> Result<(), AllocError>
    ensures { OnOk result (string_bytes out.new
        ≡ string_bytes out.old ++ (word.now ++ encode_lower digest.now)) }
{
    let digits = encode(alloc, digest)?;
    out.push_str(word)?;
    out.push_str(digits.as_str())
}
