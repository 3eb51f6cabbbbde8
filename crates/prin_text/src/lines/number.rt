//! Numbers and keys as they are written in a file.

ghost use Rattle.std.specs.Prelude.{◌≡◌, ◌≤◌, IfOk, IsTrue, Ok, Err, nat_le, if◌then◌else◌};
ghost use Rattle.std.specs.List.{list_all};
ghost use Rattle.prin_text.specs.Fields.{bytes_of_digits, key_of_digits, number_up_to};
ghost use Rattle.prin_text.specs.LineView.{GivesLine};
ghost use Rattle.prin_text.specs.declared.lines.fault.FileCause.TheVariants.{Number};
ghost use Rattle.prin_text.specs.Labels.{is_digit};
ghost use Rattle.prin_text.specs.Words.{are_digits, has_leading_zero, value_after};

use crate::lines::fault::FileCause;
use crate::lines::line_fault::LineFault;
use hex::{FromHexError, decode, decode_to_slice};
use std::alloc::Global;

/// The number that the word is, up to the most.
#[tactic(auto, unfolding(crate::specs::Fields::number_up_to))]
pub fn number_up_to(word: &[u8], most: u64) -> Result<u64, FileCause>
    ensures value { result ≡ number_up_to most word.now }
    ensures most { IfOk result (λ n. n ≤ most) }
{
    if !are_digits(word) || has_leading_zero(word) {
        return Err(FileCause::Number);
    }
    value_up_to(word, most)
}

fn is_digit(byte: u8) -> bool
    ensures { result ≡ is_digit byte }
{
    48 <= byte && byte <= 57
}

fn are_digits(word: &[u8]) -> bool
    ensures { result ≡ are_digits word.now }
{
    word.len() > 0 && all_digits(word)
}

fn all_digits(word: &[u8]) -> bool
    ensures { result ≡ list_all is_digit word.now }
{
    word.iter().all(|byte| is_digit(*byte))
}

fn has_leading_zero(word: &[u8]) -> bool
    ensures { result ≡ has_leading_zero word.now }
{
    match word {
        [] => false,
        [first, rest @ ..] => *first == b'0' && rest.len() > 0,
    }
}

// What the digits write, where it is not above the most.
fn value_up_to(digits: &[u8], most: u64) -> Result<u64, FileCause>
    requires { IsTrue (are_digits digits.now) }
    ensures value { result ≡ (if nat_le (value_after 0 digits.now) most
        then Ok (value_after 0 digits.now) else Err Number) }
    ensures most { IfOk result (λ n. n ≤ most) }
{
    let mut number: u64 = 0;
    for digit in digits {
        let next = number as u128 * 10 + (*digit).saturating_sub(48) as u128;
        if next > most as u128 {
            return Err(FileCause::Number);
        }
        number = next as u64;
    }
    Ok(number)
}

// The key whose digits the word is.
#[tactic(auto, unfolding(crate::specs::Fields::key_of_digits))]
pub(crate) fn key_of_digits(word: &[u8]) -> Result<[u8; 32], FileCause>
    ensures { result ≡ key_of_digits word.now }
{
    let mut key = [0; 32];
    match decode_to_slice(word, &mut key) {
        Ok(()) => Ok(key),
        Err(_) => Err(FileCause::Hex),
    }
}

// The bytes whose digits the word is.
#[tactic(auto, unfolding(crate::specs::Fields::bytes_of_digits))]
pub(crate) fn bytes_of_digits(alloc: Global, word: &[u8]) -> Result<Vec<u8>, LineFault>
    ensures { GivesLine (λ v. v.items) result (bytes_of_digits word.now) }
{
    match decode(alloc, word) {
        Ok(bytes) => Ok(bytes),
        Err(FromHexError::OutOfMemory) => Err(LineFault::NoMemory),
        Err(_) => Err(LineFault::Refused(FileCause::Hex)),
    }
}
