//! What a word stands for.

ghost use Rattle.std.specs.Prelude.{◌≡◌, ◌+◌, ◌*◌, ◌<◌, ◌≤◌, length, IsTrue, IfOk, Ok};
ghost use Rattle.std.specs.Prelude.{bytes_eq, if◌then◌else◌, nat_lt, Some, None};
ghost use Rattle.std.specs.List.{list_all};
ghost use Rattle.byte_fields.specs.Steps.{with_value};
ghost use Rattle.prin_term.specs.View.{principal};
ghost use Rattle.prin_text.specs.Labels.{is_digit};
ghost use Rattle.prin_text.specs.Words.{
  are_digits,
  begins,
  fitting,
  has_leading_zero,
  has_sign,
  number_in,
  operand_of,
  role_of,
  value_after,
};

use crate::fault::TextCause;
use crate::label::{is_digit, is_label};
use crate::names::Names;
use prin_term::Term;

pub fn is_word(word: &[u8], text: &str) -> bool
    ensures { result ≡ bytes_eq word.now text.now }
{
    word == text.as_bytes()
}

fn begins(word: &[u8], front: &str) -> bool
    ensures value { result ≡ begins front.now word.now }
    ensures fits { IsTrue result → length front.now ≤ length word.now }
{
    word.starts_with(front.as_bytes())
}

// The key or the name that the word stands for.
#[tactic(auto, unfolding(crate::specs::Words::operand_of))]
pub fn operand_of(names: &Names, word: &[u8]) -> Result<Term, TextCause>
    ensures { with_value principal result ≡ operand_of names.now.names word.now }
{
    if begins(word, "key:") {
        return Ok(Term::Key(number_in(&word[4..])?));
    }
    if begins(word, "name:") {
        return Ok(Term::Name(number_in(&word[5..])?));
    }
    if !is_label(word) {
        return Err(TextCause::Syntax);
    }
    match names.name_of(word) {
        Some(name) => Ok(Term::Name(name)),
        None => Err(TextCause::UnknownName),
    }
}

// The role that the word stands for.
#[tactic(auto, unfolding(crate::specs::Words::role_of))]
pub fn role_of(names: &Names, word: &[u8]) -> Result<u32, TextCause>
    ensures { result ≡ role_of names.now.roles word.now }
{
    if begins(word, "role:") {
        return number_in(&word[5..]);
    }
    if !is_label(word) {
        return Err(TextCause::Syntax);
    }
    match names.role_of(word) {
        Some(role) => Ok(role),
        None => Err(TextCause::UnknownName),
    }
}

// The number that is written so.
#[tactic(auto, unfolding(crate::specs::Words::number_in))]
fn number_in(digits: &[u8]) -> Result<u32, TextCause>
    ensures { result ≡ number_in digits.now }
{
    if has_sign(digits) {
        if are_digits(&digits[1..]) {
            return Err(TextCause::Number);
        }
        return Err(TextCause::Syntax);
    }
    if !are_digits(digits) {
        return Err(TextCause::Syntax);
    }
    if has_leading_zero(digits) {
        return Err(TextCause::Number);
    }
    fitting(digits)
}

fn has_sign(digits: &[u8]) -> bool
    ensures value { result ≡ has_sign digits.now }
    ensures some { IsTrue result → 1 ≤ length digits.now }
{
    match digits {
        [] => false,
        [first, ..] => *first == b'+' || *first == b'-',
    }
}

fn has_leading_zero(digits: &[u8]) -> bool
    ensures { result ≡ has_leading_zero digits.now }
{
    match digits {
        [] => false,
        [first, rest @ ..] => *first == b'0' && rest.len() > 0,
    }
}

fn are_digits(digits: &[u8]) -> bool
    ensures { result ≡ are_digits digits.now }
{
    digits.len() > 0 && all_digits(digits)
}

fn all_digits(digits: &[u8]) -> bool
    ensures { result ≡ list_all is_digit digits.now }
{
    digits.iter().all(|digit| is_digit(*digit))
}

// The number of digits, where 32 bits hold it.
fn fitting(digits: &[u8]) -> Result<u32, TextCause>
    requires { IsTrue (are_digits digits.now) }
    ensures { result ≡ fitting (value_after 0 digits.now) }
{
    let mut number: u32 = 0;
    for digit in digits {
        let next = number as u64 * 10 + (*digit).saturating_sub(48) as u64;
        if next > u32::MAX as u64 {
            return Err(TextCause::Number);
        }
        number = next as u32;
    }
    Ok(number)
}
