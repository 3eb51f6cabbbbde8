//! The fields of a line behind its first word.

ghost use Rattle.std.specs.Prelude.{◌≡◌, ◌≤◌, IfOk, IsTrue};
ghost use Rattle.prin_text.specs.Fields.{digits, digits_of, granted, keyed, numbered};
ghost use Rattle.prin_text.specs.Fields.{numbered_digits};
ghost use Rattle.prin_text.specs.Fields.{one_number, one_word, three_words, two_and_rest};
ghost use Rattle.prin_text.specs.Fields.{two_numbers_and_key, two_words};
ghost use Rattle.prin_text.specs.Lines.{is_plain};
ghost use Rattle.prin_text.specs.LineView.{GivesLine};
ghost use Rattle.byte_fields.specs.Steps.{with_value};

use crate::lines::fault::FileCause;
use crate::lines::line_fault::LineFault;
use crate::lines::number::{bytes_of_digits, key_of_digits, number_up_to};
use crate::lines::word::{unblanked, word_off};
use crate::rights::rights_of;
use std::alloc::Global;
use std::str::from_utf8;

// One word, and no more.
#[tactic(auto, unfolding(crate::specs::Fields::one_word))]
fn one_word(rest: &[u8]) -> Result<&[u8], FileCause>
    ensures { with_value (λ w. w.now) result ≡ one_word rest.now }
{
    let (word, rest) = word_off(rest);
    if !word.is_empty() && unblanked(rest).is_empty() {
        Ok(word)
    } else {
        Err(FileCause::Words)
    }
}

// Two words, and no more.
#[tactic(auto, unfolding(crate::specs::Fields::two_words))]
fn two_words(rest: &[u8]) -> Result<(&[u8], &[u8]), FileCause>
    ensures { with_value (λ w. (w.0.now, w.1.now)) result ≡ two_words rest.now }
{
    let (first, rest) = word_off(rest);
    let (second, rest) = word_off(rest);
    if !second.is_empty() && unblanked(rest).is_empty() {
        Ok((first, second))
    } else {
        Err(FileCause::Words)
    }
}

// Three words, and no more.
#[tactic(auto, unfolding(crate::specs::Fields::three_words))]
fn three_words(rest: &[u8]) -> Result<(&[u8], &[u8], &[u8]), FileCause>
    ensures { with_value (λ w. (w.0.now, w.1.now, w.2.now)) result ≡ three_words rest.now }
{
    let (first, rest) = word_off(rest);
    let (second, rest) = word_off(rest);
    let (third, rest) = word_off(rest);
    if !third.is_empty() && unblanked(rest).is_empty() {
        Ok((first, second, third))
    } else {
        Err(FileCause::Words)
    }
}

/// A number, and the word behind it.
#[tactic(auto, unfolding(crate::specs::Fields::numbered))]
pub fn numbered(rest: &[u8]) -> Result<(u32, &[u8]), FileCause>
    ensures { with_value (λ x. (x.0, x.1.now)) result ≡ numbered rest.now }
{
    let (number, word) = two_words(rest)?;
    let number = number_up_to(number, u32::MAX as u64)?;
    Ok((number as u32, word))
}

/// A number, and the key behind it.
#[tactic(auto, unfolding(crate::specs::Fields::keyed))]
pub fn keyed(rest: &[u8]) -> Result<(u32, [u8; 32]), FileCause>
    ensures { result ≡ keyed rest.now }
{
    let (number, digits) = numbered(rest)?;
    Ok((number, key_of_digits(digits)?))
}

/// Two numbers, and the key behind them.
#[tactic(auto, unfolding(crate::specs::Fields::two_numbers_and_key))]
pub fn two_numbers_and_key(rest: &[u8]) -> Result<(u32, u32, [u8; 32]), FileCause>
    ensures { result ≡ two_numbers_and_key rest.now }
{
    let (first, second, digits) = three_words(rest)?;
    let first = number_up_to(first, u32::MAX as u64)?;
    let second = number_up_to(second, u32::MAX as u64)?;
    Ok((first as u32, second as u32, key_of_digits(digits)?))
}

/// A number up to the most.
#[tactic(auto, unfolding(crate::specs::Fields::one_number))]
pub fn one_number(rest: &[u8], most: u64) -> Result<u64, FileCause>
    ensures value { result ≡ one_number most rest.now }
    ensures most { IfOk result (λ n. n ≤ most) }
{
    let word = one_word(rest)?;
    number_up_to(word, most)
}

/// Bytes, and nothing else.
#[tactic(auto, unfolding(crate::specs::Fields::digits))]
pub fn digits(alloc: Global, rest: &[u8]) -> Result<Vec<u8>, LineFault>
    ensures { GivesLine (λ v. v.items) result (digits rest.now) }
{
    match one_word(rest) {
        Ok(word) => bytes_of_digits(alloc, word),
        Err(cause) => Err(LineFault::Refused(cause)),
    }
}

// Bytes of a number.
fn digits_of(alloc: Global, number: u32, word: &[u8]) -> Result<(u32, Vec<u8>), LineFault>
    ensures { GivesLine (λ x. (x.0, x.1.items)) result (digits_of number word.now) }
{
    match bytes_of_digits(alloc, word) {
        Ok(bytes) => Ok((number, bytes)),
        Err(fault) => Err(fault),
    }
}

/// A number, and the bytes behind it.
#[tactic(auto, unfolding(crate::specs::Fields::numbered_digits))]
pub fn numbered_digits(alloc: Global, rest: &[u8]) -> Result<(u32, Vec<u8>), LineFault>
    ensures { GivesLine (λ x. (x.0, x.1.items)) result (numbered_digits rest.now) }
{
    match numbered(rest) {
        Ok((number, word)) => digits_of(alloc, number, word),
        Err(cause) => Err(LineFault::Refused(cause)),
    }
}

// Two words, and the text behind them.
#[tactic(auto, unfolding(crate::specs::Fields::two_and_rest))]
fn two_and_rest(rest: &[u8]) -> Result<(&[u8], &[u8], &str), FileCause>
    requires { IsTrue (is_plain rest.now) }
    ensures { with_value (λ w. (w.0.now, w.1.now, w.2.now)) result ≡ two_and_rest rest.now }
{
    let (first, rest) = word_off(rest);
    let (second, rest) = word_off(rest);
    if unblanked(rest).is_empty() {
        return Err(FileCause::Words);
    }
    match from_utf8(rest) {
        Ok(text) => Ok((first, second, text)),
        Err(_) => Err(FileCause::Words),
    }
}

/// A number, rights, and the text of a principal.
#[tactic(auto, unfolding(crate::specs::Fields::granted))]
pub fn granted(rest: &[u8]) -> Result<(u32, u8, &str), FileCause>
    requires { IsTrue (is_plain rest.now) }
    ensures { with_value (λ x. (x.0, x.1, x.2.now)) result ≡ granted rest.now }
{
    let (number, rights, text) = two_and_rest(rest)?;
    let number = number_up_to(number, u32::MAX as u64)?;
    match rights_of(rights) {
        Some(rights) => Ok((number as u32, rights, text)),
        None => Err(FileCause::Rights),
    }
}
