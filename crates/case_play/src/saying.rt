//! What one line adds to its conversation. Each function says whether the key is one of its own.

use crate::bytes::{Names, add_numbers, number_of};
use crate::case::{Conversation, Grant, NumberedKey, Part, RelaySide, Wanted};
use crate::fault::LineFault;

/// The bytes of a grant's payload before the length of its proof.
pub const FRONT: usize = 28;

// Puts a value where none is yet.
fn put<T: Drop>(place: &mut Option<T>, value: T) -> Result<(), LineFault> {
    if place.is_some() {
        return Err(LineFault::Twice);
    }
    *place = Some(value);
    Ok(())
}

fn add_words(names: &Names, words: &mut Vec<String>, text: &str) -> Result<(), LineFault> {
    for word in text.split_ascii_whitespace() {
        words.push(String::from_str(names.alloc, word)?)?;
    }
    Ok(())
}

fn add_bytes(names: &Names, bytes: &mut Vec<u8>, text: &str) -> Result<(), LineFault> {
    let mut more = names.bytes_of(text)?;
    Ok(bytes.append(&mut more)?)
}

// The bytes of a key whose line may be left out.
fn add_some(names: &Names, place: &mut Option<Vec<u8>>, text: &str) -> Result<(), LineFault> {
    let mut bytes = place.take().unwrap_or(Vec::new(names.alloc));
    add_bytes(names, &mut bytes, text)?;
    *place = Some(bytes);
    Ok(())
}

fn put_number(place: &mut Option<u64>, text: &str) -> Result<(), LineFault> {
    put(place, number_of(text)?)
}

// A number of a piece's bytes, at least 1.
fn add_pieces(pieces: &mut Vec<u64>, text: &str) -> Result<(), LineFault> {
    add_numbers(pieces, text)?;
    if pieces.contains(&0) {
        return Err(LineFault::Number);
    }
    Ok(())
}

fn add_key(names: &Names, keys: &mut Vec<NumberedKey>, text: &str) -> Result<(), LineFault> {
    let (number, digits) = text.split_once(' ').unwrap_or((text, ""));
    let Ok(number) = number.parse::<u32>() else {
        return Err(LineFault::Number);
    };
    let bytes = names.bytes_of(digits)?;
    let Some((key, [])) = bytes.split_first_chunk::<32>() else {
        return Err(LineFault::KeyLength);
    };
    if keys.iter().any(|other| other.number == number) {
        return Err(LineFault::Twice);
    }
    Ok(keys.push(NumberedKey { number, key: *key })?)
}

// A key of a relay that says nothing by itself.
fn add_relay_key(
    names: &Names,
    side: &mut RelaySide,
    issues: bool,
    text: &str,
) -> Result<(), LineFault> {
    if side.says.is_some() {
        return Err(LineFault::TwoRelays);
    }
    if issues {
        add_key(names, &mut side.issuers, text)
    } else {
        add_key(names, &mut side.nodes, text)
    }
}

fn add_says(names: &Names, side: &mut RelaySide, text: &str) -> Result<(), LineFault> {
    if !side.nodes.is_empty() || !side.issuers.is_empty() {
        return Err(LineFault::TwoRelays);
    }
    add_some(names, &mut side.says, text)
}

// A frame of this payload, behind what the wallet says already.
fn add_fetched(names: &Names, says: &mut Vec<u8>, text: &str) -> Result<(), LineFault> {
    let mut payload = names.bytes_of(text)?;
    let Ok(length) = u32::try_from(payload.len()) else {
        return Err(LineFault::Number);
    };
    says.extend_from_slice(&length.to_be_bytes())?;
    Ok(says.append(&mut payload)?)
}

// `FRONT certificates N content BYTES`.
fn grant_of(names: &Names, text: &str) -> Result<Grant, LineFault> {
    let Some((front, rest)) = text.split_once(" certificates ") else {
        return Err(LineFault::Grant);
    };
    let Some((count, content)) = rest.split_once(" content") else {
        return Err(LineFault::Grant);
    };
    let front = names.bytes_of(front)?;
    if front.len() != FRONT {
        return Err(LineFault::Grant);
    }
    Ok(Grant {
        front,
        certificates: number_of(count)?,
        content: names.bytes_of(content)?,
    })
}

fn add_output(names: &Names, parts: &mut Vec<Part>, text: &str) -> Result<(), LineFault> {
    let bytes = names.bytes_of(text)?;
    Ok(parts.push(Part::Bytes(bytes))?)
}

fn add_grant(names: &Names, parts: &mut Vec<Part>, text: &str) -> Result<(), LineFault> {
    let grant = grant_of(names, text)?;
    Ok(parts.push(Part::Granted(grant))?)
}

fn put_notes(names: &Names, wanted: &mut Wanted, text: &str, end: &str) -> Result<(), LineFault> {
    let mut bytes = text.as_bytes().to_vec(names.alloc)?;
    bytes.extend_from_slice(end.as_bytes())?;
    put(&mut wanted.notes, bytes)
}

fn put_status(wanted: &mut Wanted, text: &str) -> Result<(), LineFault> {
    put_number(&mut wanted.status, text)?;
    if wanted.status() > 255 {
        return Err(LineFault::Number);
    }
    Ok(())
}

// Adds to what stands round the call.
fn says_setting(
    names: &Names,
    case: &mut Conversation,
    key: &str,
    text: &str,
) -> Result<bool, LineFault> {
    let setting = &mut case.setting;
    let added = match key {
        "words" => add_words(names, &mut setting.words, text),
        "file" => add_bytes(names, &mut setting.file, text),
        "input" => add_bytes(names, &mut setting.input, text),
        "pieces" => add_pieces(&mut setting.pieces, text),
        "clock" => add_numbers(&mut setting.readings, text),
        "connections" => put_number(&mut setting.connections, text),
        "relay-node" => add_relay_key(names, &mut setting.relay, false, text),
        "relay-issuer" => add_relay_key(names, &mut setting.relay, true, text),
        "relay-says" => add_says(names, &mut setting.relay, text),
        "relay-faults" => put_number(&mut setting.relay.faults, text),
        "fetched" => add_fetched(names, &mut setting.wallet.says, text),
        "wallet-says" => add_bytes(names, &mut setting.wallet.says, text),
        "output-room" => put_number(&mut setting.rooms.output, text),
        "notes-room" => put_number(&mut setting.rooms.notes, text),
        "hears-room" => put_number(&mut setting.rooms.hears, text),
        _ => return Ok(false),
    };
    added?;
    Ok(true)
}

// Adds to the calls that fail.
fn says_fails(case: &mut Conversation, key: &str, text: &str) -> Result<bool, LineFault> {
    let wallet = &mut case.setting.wallet;
    let fails = &mut case.setting.fails;
    let added = match key {
        "wallet-says-fails" => add_numbers(&mut wallet.says_fails, text),
        "wallet-hears-fails" => add_numbers(&mut wallet.hears_fails, text),
        "file-fails" => add_numbers(&mut fails.file, text),
        "input-fails" => add_numbers(&mut fails.input, text),
        "byte-fails" => add_numbers(&mut fails.bytes, text),
        "output-fails" => add_numbers(&mut fails.output, text),
        "notes-fails" => add_numbers(&mut fails.notes, text),
        "clock-fails" => add_numbers(&mut fails.clock, text),
        "relay-fails" => add_numbers(&mut fails.relay, text),
        "says-fails" => add_numbers(&mut fails.says, text),
        "hears-fails" => add_numbers(&mut fails.hears, text),
        "door-fails" => add_numbers(&mut fails.door, text),
        "second-door-fails" => add_numbers(&mut fails.second_door, text),
        _ => return Ok(false),
    };
    added?;
    Ok(true)
}

// Adds to what must come of the call.
fn says_wanted(
    names: &Names,
    wanted: &mut Wanted,
    key: &str,
    text: &str,
) -> Result<bool, LineFault> {
    let added = match key {
        "output" => add_output(names, &mut wanted.output, text),
        "grant" => add_grant(names, &mut wanted.output, text),
        "status" => put_status(wanted, text),
        "note" => put_notes(names, wanted, text, "\n"),
        "note-front" => put_notes(names, wanted, text, ""),
        "faults" => put_number(&mut wanted.faults, text),
        "hears" => add_some(names, &mut wanted.hears, text),
        "wallet-hears" => add_some(names, &mut wanted.wallet_hears, text),
        "left" => add_some(names, &mut wanted.left, text),
        _ => return Ok(false),
    };
    added?;
    Ok(true)
}

/// Adds what a line says to its conversation.
pub fn add_line(
    names: &Names,
    case: &mut Conversation,
    key: &str,
    text: &str,
) -> Result<(), LineFault> {
    if says_setting(names, case, key, text)?
        || says_fails(case, key, text)?
        || says_wanted(names, &mut case.wanted, key, text)?
    {
        return Ok(());
    }
    Err(LineFault::NoKey)
}
