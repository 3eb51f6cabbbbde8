//! Fields of an opening that no other format has.

ghost use Rattle.std.specs.Prelude.{◌≡◌, ◌≤◌, length, IfOk};
ghost use Rattle.byte_fields.specs.Steps.{Gives};
ghost use Rattle.byte_fields.specs.declared.fault.FormatFault.TheVariants.{NoMemory};
ghost use Rattle.byte_fields.specs.Formats.{u8_in};
ghost use Rattle.node_file.specs.OpeningReading.{exactly, number_in};

use byte_fields::{FormatFault, ended, u8_at, u64_at};

// A byte that has to be this one.
pub(super) fn exactly(bytes: &[u8], at: usize, wanted: u8) -> Result<usize, FormatFault>
    requires { at ≤ length bytes.now }
    ensures value { Gives NoMemory (λ end. (wanted, end)) result
        (exactly wanted (u8_in bytes.now) at) }
    ensures within { IfOk result (λ end. end ≤ length bytes.now) }
{
    let (byte, next) = u8_at(bytes, at, ended(bytes))?;
    if byte == wanted {
        Ok(next)
    } else {
        Err(FormatFault::Malformed { offset: at })
    }
}

// A number of eight bytes between the two.
#[tactic(auto, unfolding(crate::specs::OpeningReading::number_in))]
pub(super) fn number_of(
    bytes: &[u8],
    at: usize,
    low: u64,
    high: u64,
) -> Result<(u64, usize), FormatFault>
    requires { at ≤ length bytes.now }
    ensures value { result ≡ number_in low high bytes.now at }
    ensures within { IfOk result (λ x. x.1 ≤ length bytes.now) }
{
    let (number, next) = u64_at(bytes, at, ended(bytes))?;
    if low <= number && number <= high {
        Ok((number, next))
    } else {
        Err(FormatFault::Malformed { offset: at })
    }
}
