//! Fields that every format has, read at an offset: numbers, fixed and counted bytes.
//!
//! Each answers the field and the offset after it. `short` is the fault for bytes that are lacking;
//! those that bound a number have the faults of formats.

ghost use Rattle.std.specs.Prelude.{◌≡◌, ◌≤◌, length, IfOk};
ghost use Rattle.std.specs.Int.{w16, w32, w64};
ghost use Rattle.byte_fields.specs.Formats.{ended, u8_in, u16_in, within, at_most};
ghost use Rattle.byte_fields.specs.Steps.{with_value, byte_at, bytes_at, mark_at};
ghost use Rattle.byte_fields.specs.Steps.{number_at, counted_at};

use crate::fault::FormatFault;

/// A byte.
#[tactic(auto, unfolding(crate::specs::Steps::byte_at))]
pub fn u8_at<E: Drop>(bytes: &[u8], at: usize, short: E) -> Result<(u8, usize), E>
    requires { at ≤ length bytes.now }
    ensures value { result ≡ byte_at short bytes.now at }
    ensures within { IfOk result (λ x. x.1 ≤ length bytes.now) }
{
    if at < bytes.len() {
        Ok((bytes[at], at + 1))
    } else {
        Err(short)
    }
}

/// The byte `mark`, and `bad` where another stands there.
#[tactic(auto, unfolding(crate::specs::Steps::mark_at))]
pub fn mark_at<E: Drop>(bytes: &[u8], at: usize, mark: u8, short: E, bad: E) -> Result<usize, E>
    requires { at ≤ length bytes.now }
    ensures value { result ≡ mark_at short bad mark bytes.now at }
    ensures within { IfOk result (λ end. end ≤ length bytes.now) }
{
    let (byte, next) = u8_at(bytes, at, short)?;
    if byte == mark { Ok(next) } else { Err(bad) }
}

/// A number of two bytes.
#[tactic(auto, unfolding(crate::specs::Steps::number_at))]
pub fn u16_at<E: Drop>(bytes: &[u8], at: usize, short: E) -> Result<(u16, usize), E>
    requires { at ≤ length bytes.now }
    ensures value { result ≡ number_at short w16 bytes.now at }
    ensures within { IfOk result (λ x. x.1 ≤ length bytes.now) }
{
    let Some((front, _)) = bytes[at..].split_first_chunk::<2>() else {
        return Err(short);
    };
    Ok((u16::from_be_bytes(*front), at + 2))
}

/// A number of four bytes.
#[tactic(auto, unfolding(crate::specs::Steps::number_at))]
pub fn u32_at<E: Drop>(bytes: &[u8], at: usize, short: E) -> Result<(u32, usize), E>
    requires { at ≤ length bytes.now }
    ensures value { result ≡ number_at short w32 bytes.now at }
    ensures within { IfOk result (λ x. x.1 ≤ length bytes.now) }
{
    let Some((front, _)) = bytes[at..].split_first_chunk::<4>() else {
        return Err(short);
    };
    Ok((u32::from_be_bytes(*front), at + 4))
}

/// A number of eight bytes.
#[tactic(auto, unfolding(crate::specs::Steps::number_at))]
pub fn u64_at<E: Drop>(bytes: &[u8], at: usize, short: E) -> Result<(u64, usize), E>
    requires { at ≤ length bytes.now }
    ensures value { result ≡ number_at short w64 bytes.now at }
    ensures within { IfOk result (λ x. x.1 ≤ length bytes.now) }
{
    let Some((front, _)) = bytes[at..].split_first_chunk::<8>() else {
        return Err(short);
    };
    Ok((u64::from_be_bytes(*front), at + 8))
}

/// So many bytes as an array: a key, a digest or a tag.
#[tactic(auto, unfolding(crate::specs::Steps::bytes_at))]
pub fn array_at<const N: usize, E: Drop>(
    bytes: &[u8],
    at: usize,
    short: E,
) -> Result<([u8; N], usize), E>
    requires { at ≤ length bytes.now }
    ensures value { result ≡ bytes_at short N bytes.now at }
    ensures within { IfOk result (λ x. x.1 ≤ length bytes.now) }
{
    let Some((front, _)) = bytes[at..].split_first_chunk::<N>() else {
        return Err(short);
    };
    Ok((*front, at + N))
}

/// So many bytes, as a part of the input.
#[tactic(auto, unfolding(crate::specs::Steps::bytes_at))]
pub fn slice_at<E: Drop>(
    bytes: &[u8],
    at: usize,
    count: usize,
    short: E,
) -> Result<(&[u8], usize), E>
    requires { at ≤ length bytes.now }
    ensures value { with_value (λ x. (x.0.now, x.1)) result ≡ bytes_at short count bytes.now at }
    ensures within { IfOk result (λ x. x.1 ≤ length bytes.now) }
{
    if bytes.len() - at < count {
        return Err(short);
    }
    Ok((&bytes[at..at + count], at + count))
}

/// A length of two bytes, and that many bytes, as a part of the input.
#[tactic(auto, unfolding(crate::specs::Steps::counted_at))]
pub fn counted16_at<E: Copy + Drop>(bytes: &[u8], at: usize, short: E) -> Result<(&[u8], usize), E>
    requires { at ≤ length bytes.now }
    ensures value { with_value (λ x. (x.0.now, x.1)) result ≡ counted_at short w16 bytes.now at }
    ensures within { IfOk result (λ x. x.1 ≤ length bytes.now) }
{
    let (count, next) = u16_at(bytes, at, short)?;
    slice_at(bytes, next, count as usize, short)
}

/// The fault of bytes that are lacking, whose place is their end.
pub fn ended(bytes: &[u8]) -> FormatFault
    ensures { result ≡ ended bytes.now }
{
    FormatFault::Malformed {
        offset: bytes.len(),
    }
}

/// A byte that lies between the two, or is one of them; another is refused at its place.
pub fn byte_within(bytes: &[u8], at: usize, low: u8, high: u8) -> Result<(u8, usize), FormatFault>
    requires { at ≤ length bytes.now }
    ensures value { result ≡ within low high (u8_in bytes.now) at }
    ensures within { IfOk result (λ x. x.1 ≤ length bytes.now) }
{
    let (byte, next) = u8_at(bytes, at, ended(bytes))?;
    if low <= byte && byte <= high {
        Ok((byte, next))
    } else {
        Err(FormatFault::Malformed { offset: at })
    }
}

/// A count of one byte, at most so much; another is refused at its place.
pub fn count_up_to(bytes: &[u8], at: usize, most: u8) -> Result<(u8, usize), FormatFault>
    requires { at ≤ length bytes.now }
    ensures value { result ≡ at_most most (u8_in bytes.now) at }
    ensures most { IfOk result (λ x. x.0 ≤ most) }
    ensures within { IfOk result (λ x. x.1 ≤ length bytes.now) }
{
    let (count, next) = u8_at(bytes, at, ended(bytes))?;
    if count <= most {
        Ok((count, next))
    } else {
        Err(FormatFault::Malformed { offset: at })
    }
}

/// A length of two bytes, at most so much; another is refused at its first byte.
pub fn length_up_to(bytes: &[u8], at: usize, most: u16) -> Result<(u16, usize), FormatFault>
    requires { at ≤ length bytes.now }
    ensures value { result ≡ at_most most (u16_in bytes.now) at }
    ensures most { IfOk result (λ x. x.0 ≤ most) }
    ensures within { IfOk result (λ x. x.1 ≤ length bytes.now) }
{
    let (count, next) = u16_at(bytes, at, ended(bytes))?;
    if count <= most {
        Ok((count, next))
    } else {
        Err(FormatFault::Malformed { offset: at })
    }
}
