//! Printing an opening as a text.

ghost use Rattle.std.specs.Prelude.{◌≡◌, ◌++◌, ◌∷◌, OnErr, OnOk, codes, map, string_bytes};
ghost use Rattle.std.specs.Fmt.{decimal};
ghost use Rattle.keyed_seal.specs.Keys.{IsKeyTable};
ghost use Rattle.prin_text.specs.Labels.{AreLabels};
ghost use Rattle.node_file.specs.FilePrinting.{bytes_line, ended, number_line, numbered_line};
ghost use Rattle.node_file.specs.FilePrinting.{IsReadAgain, opening_text, settings_lines};
ghost use Rattle.node_file.specs.FilePrinting.{text_line, text_of_lines};
ghost use Rattle.node_file.specs.Meaning.{opening as meaning};

use crate::node_text::printing_lists::{push_anchors, push_commons};
use crate::node_text::printing_objects::push_objects;
use crate::opening::Opening;
use hex::encode;
use itoa::Buffer;
use keyed_seal::KeyTable;
use prin_text::Names;
use std::alloc::{AllocError, Global};

// What an `Err` leaves of the text is not said.
fn push_front(out: &mut String, word: &str, number: u64) -> Result<(), AllocError>
    ensures { OnOk result (string_bytes out.new
        ≡ string_bytes out.old ++ (word.now ++ 32 ∷ decimal number)) }
{
    let mut buffer = Buffer::new();
    out.push_str(word)?;
    out.push_str(" ")?;
    out.push_str(buffer.format(number))
}

// A line of a word and a number.
pub(super) fn push_number(out: &mut String, word: &str, number: u64) -> Result<(), AllocError>
    ensures { OnOk result (string_bytes out.new
        ≡ string_bytes out.old ++ ended (number_line word.now number)) }
{
    push_front(out, word, number)?;
    out.push_str("\n")
}

// A line of a word, a number and a text.
pub(super) fn push_text(
    out: &mut String,
    word: &str,
    number: u32,
    text: &str,
) -> Result<(), AllocError>
    ensures { OnOk result (string_bytes out.new
        ≡ string_bytes out.old ++ ended (numbered_line word.now number text.now)) }
{
    push_front(out, word, number as u64)?;
    out.push_str(" ")?;
    out.push_str(text)?;
    out.push_str("\n")
}

// A line of a word, a number and bytes.
pub(super) fn push_bytes(
    alloc: Global,
    out: &mut String,
    word: &str,
    number: u32,
    bytes: &[u8],
) -> Result<(), AllocError>
    ensures { OnOk result (string_bytes out.new
        ≡ string_bytes out.old ++ ended (bytes_line word.now (number, bytes.now))) }
{
    let digits = encode(alloc, bytes)?;
    push_text(out, word, number, digits.as_str())
}

fn push_settings(alloc: Global, out: &mut String, opening: &Opening) -> Result<(), AllocError>
    ensures { OnOk result (string_bytes out.new
        ≡ string_bytes out.old ++ text_of_lines (settings_lines (meaning opening.now))) }
{
    push_bytes(alloc, out, "node", opening.node, &opening.relay_key)?;
    push_number(out, "shards", opening.shards as u64)?;
    push_number(out, "keep", opening.keep)?;
    push_number(out, "journal", opening.limit)
}

fn push_names(out: &mut String, names: &Names) -> Result<(), AllocError>
    ensures printed { OnOk result (string_bytes out.new
        ≡ string_bytes out.old
        ++ text_of_lines (map (text_line (codes "name")) names.now.names)) }
    ensures sound { AreLabels names.now }
{
    for (number, label) in names.names() {
        push_text(out, "name", *number, label.text())?;
    }
    Ok(())
}

fn push_roles(out: &mut String, names: &Names) -> Result<(), AllocError>
    ensures { OnOk result (string_bytes out.new
        ≡ string_bytes out.old
        ++ text_of_lines (map (text_line (codes "role")) names.now.roles)) }
{
    for (number, label) in names.roles() {
        push_text(out, "role", *number, label.text())?;
    }
    Ok(())
}

fn push_channels(alloc: Global, out: &mut String, keys: &KeyTable) -> Result<(), AllocError>
    ensures printed { OnOk result (string_bytes out.new
        ≡ string_bytes out.old
        ++ text_of_lines (map (bytes_line (codes "channel")) keys.now.entries)) }
    ensures sound { IsKeyTable keys.now }
{
    for place in 0..keys.count() {
        if let Some((number, key)) = keys.at(place) {
            push_bytes(alloc, out, "channel", number, key)?;
        }
    }
    Ok(())
}

fn push_opening(alloc: Global, out: &mut String, opening: &Opening) -> Result<(), AllocError>
    ensures printed { OnOk result (string_bytes out.new
        ≡ string_bytes out.old ++ opening_text (meaning opening.now)) }
    ensures again { OnOk result (IsReadAgain opening.now) }
{
    out.push_str("taos 1\n")?;
    push_settings(alloc, out, opening)?;
    push_names(out, &opening.names)?;
    push_roles(out, &opening.names)?;
    push_channels(alloc, out, &opening.channels)?;
    push_anchors(alloc, out, &opening.names, &opening.anchors)?;
    push_commons(alloc, out, &opening.relay_key, &opening.commons)?;
    push_objects(alloc, out, &opening.names, &opening.objects)
}

/// Appends the text of an opening. An `Err` changes nothing.
pub fn print_opening(alloc: Global, out: &mut String, opening: &Opening) -> Result<(), AllocError>
    ensures printed { OnOk result (string_bytes out.new
        ≡ string_bytes out.old ++ opening_text (meaning opening.now)) }
    // What was read of a file is read again from this text.
    ensures again { OnOk result (IsReadAgain opening.now) }
    ensures unchanged { OnErr result (string_bytes out.new ≡ string_bytes out.old) }
{
    let mut text = String::new(alloc);
    push_opening(alloc, &mut text, opening)?;
    out.push_str(text.as_str())
}
