//! The text of a name or of a role.

ghost use Rattle.std.specs.Prelude.{◌≡◌, IfOk, IsTrue};
ghost use Rattle.prin_text.specs.Labels.{
  is_letter,
  is_digit,
  is_label_byte,
  is_reserved,
  is_label,
};
ghost use Rattle.std.specs.List.{list_all};

use crate::limits::MAX_TEXT;
use crate::words::is_word;
use std::alloc::{AllocError, Global};
use std::marker::Model;

/// A text that names and roles may have. A contract sees its bytes.
#[derive(Drop)]
pub struct Label {
    text: String,
}

impl Model for Label {
    ghost use Rattle.std.specs.Prelude.{List, ℕ, string_bytes, IsTrue};
    ghost use Rattle.prin_text.specs.Labels.{is_label};

    ghost Value = { List ℕ };

    ghost view = { λ l. string_bytes l.text };

    ghost invariant = { λ l. IsTrue (is_label (string_bytes l.text)) };
}

impl Label {
    pub fn of(alloc: Global, text: &str) -> Result<Label, AllocError>
        requires { IsTrue (is_label text.now) }
        ensures { IfOk result (λ l. l ≡ text.now) }
    {
        Ok(Label {
            text: String::from_str(alloc, text)?,
        })
    }

    pub fn text(&self) -> &str
        ensures { result.now ≡ self.now }
    {
        self.text.as_str()
    }
}

pub fn is_digit(byte: u8) -> bool
    ensures { result ≡ is_digit byte }
{
    48 <= byte && byte <= 57
}

fn is_letter(byte: u8) -> bool
    ensures { result ≡ is_letter byte }
{
    97 <= byte && byte <= 122
}

fn is_label_byte(byte: u8) -> bool
    ensures { result ≡ is_label_byte byte }
{
    is_letter(byte) || is_digit(byte) || byte == b'-' || byte == b'_' || byte == b'.'
}

// Whether the word has a meaning of its own.
fn is_reserved(word: &[u8]) -> bool
    ensures { result ≡ is_reserved word.now }
{
    is_word(word, "and")
        || is_word(word, "as")
        || is_word(word, "for")
        || is_word(word, "key")
        || is_word(word, "name")
        || is_word(word, "role")
}

// Whether all bytes can stand in the text of a name.
fn are_label_bytes(text: &[u8]) -> bool
    ensures { result ≡ list_all is_label_byte text.now }
{
    text.iter().all(|byte| is_label_byte(*byte))
}

/// Whether names and roles may have this text.
#[tactic(auto, unfolding(crate::specs::Labels::is_label))]
pub fn is_label(text: &[u8]) -> bool
    ensures { result ≡ is_label text.now }
{
    let Some(first) = text.first() else {
        return false;
    };
    is_letter(*first) && text.len() <= MAX_TEXT && are_label_bytes(text) && !is_reserved(text)
}
