//! Rights, as the letters `r`, `w`, `c` and `m`.

ghost use Rattle.std.specs.Prelude.{◌≡◌, ◌++◌, ◌≤◌, ◌/◌, ◌%◌, ◌==◌, Bool, OnOk, string_bytes};
ghost use Rattle.prin_text.specs.Printing.{letter_if, rights_text};
ghost use Rattle.prin_text.specs.Words.{letter_off, rights_of};

use std::alloc::AllocError;

// Appends the letters of rights.
pub fn push_rights(out: &mut String, rights: u8) -> Result<(), AllocError>
    ensures { OnOk result
        (string_bytes out.new ≡ string_bytes out.old ++ rights_text rights) }
{
    push_if(out, rights % 2 == 1, "r")?;
    push_if(out, rights / 2 % 2 == 1, "w")?;
    push_if(out, rights / 4 % 2 == 1, "c")?;
    push_if(out, rights / 8 % 2 == 1, "m")
}

fn push_if(out: &mut String, given: bool, letter: &str) -> Result<(), AllocError>
    ensures { OnOk result
        (string_bytes out.new ≡ string_bytes out.old ++ letter_if given letter.now) }
{
    if given { out.push_str(letter) } else { Ok(()) }
}

/// The rights whose letters the word is: one or more of `r`, `w`, `c` and `m`, in this order.
#[tactic(auto, unfolding(crate::specs::Words::rights_of))]
pub fn rights_of(word: &[u8]) -> Option<u8>
    ensures { result ≡ rights_of word.now }
{
    let (r, rest) = letter_off(word, b'r');
    let (w, rest) = letter_off(rest, b'w');
    let (c, rest) = letter_off(rest, b'c');
    let (m, rest) = letter_off(rest, b'm');
    let rights = r + 2 * w + 4 * c + 8 * m;
    if rest.is_empty() && rights > 0 {
        Some(rights)
    } else {
        None
    }
}

// One and the bytes after the letter, or zero and all of them.
fn letter_off(word: &[u8], letter: u8) -> (u8, &[u8])
    ensures value { (result.0, result.1.now) ≡ letter_off letter word.now }
    ensures one { result.0 ≤ 1 }
{
    match word {
        [first, rest @ ..] if *first == letter => (1, rest),
        _ => (0, word),
    }
}
