//! Bytes and numbers as a line spells them.

use crate::fault::LineFault;
use std::alloc::Global;

// Bytes that stand under a name.
#[derive(Drop)]
struct Named {
    name: String,
    bytes: Vec<u8>,
}

/// The names that a file gives to bytes.
#[derive(Drop)]
pub struct Names {
    pub alloc: Global,
    named: Vec<Named>,
}

fn digit_of(byte: u8) -> Option<u8> {
    match byte {
        b'0'..=b'9' => Some(byte - b'0'),
        b'a'..=b'f' => Some(byte - b'a' + 10),
        _ => None,
    }
}

// Appends the bytes of hex digits.
fn add_digits(bytes: &mut Vec<u8>, digits: &str) -> Result<(), LineFault> {
    let mut high = None;
    for byte in digits.bytes() {
        let Some(low) = digit_of(byte) else {
            return Err(LineFault::Digits);
        };
        match high {
            None => high = Some(low),
            Some(first) => {
                bytes.push((first << 4) | low)?;
                high = None;
            }
        }
    }
    match high {
        None => Ok(()),
        Some(_) => Err(LineFault::Digits),
    }
}

impl Names {
    pub fn new(alloc: Global) -> Names {
        Names {
            alloc,
            named: Vec::new(alloc),
        }
    }

    // The bytes of a name.
    fn find(&self, name: &str) -> Option<&[u8]> {
        for named in &self.named {
            if named.name.as_str() == name {
                return Some(&named.bytes);
            }
        }
        None
    }

    /// Gives bytes a name of their own: `NAME BYTES`.
    pub fn add(&mut self, text: &str) -> Result<(), LineFault> {
        let (name, digits) = text.split_once(' ').unwrap_or((text, ""));
        if name.is_empty() {
            return Err(LineFault::NoName);
        }
        if self.find(name).is_some() {
            return Err(LineFault::Twice);
        }
        let bytes = self.bytes_of(digits)?;
        let name = String::from_str(self.alloc, name)?;
        Ok(self.named.push(Named { name, bytes })?)
    }

    // The bytes of words, each of which is hex digits or `$` and a name.
    fn spelled(&self, text: &str) -> Result<Vec<u8>, LineFault> {
        let mut bytes = Vec::new(self.alloc);
        for word in text.split_ascii_whitespace() {
            match word.strip_prefix('$') {
                None => add_digits(&mut bytes, word)?,
                Some(name) => match self.find(name) {
                    None => return Err(LineFault::Unnamed),
                    Some(more) => bytes.extend_from_slice(more)?,
                },
            }
        }
        Ok(bytes)
    }

    /// The bytes that a text spells: hex digits and names, and at its end `* N` for N times these bytes.
    pub fn bytes_of(&self, text: &str) -> Result<Vec<u8>, LineFault> {
        match text.split_once('*') {
            None => self.spelled(text),
            Some((words, times)) => {
                let bytes = self.spelled(words)?;
                let times = number_of(times)? as usize;
                Ok(bytes.as_slice().repeat(self.alloc, times)?)
            }
        }
    }
}

/// A number in decimal digits.
pub fn number_of(text: &str) -> Result<u64, LineFault> {
    text.trim().parse::<u64>().map_err(|_| LineFault::Number)
}

/// Appends the numbers of a text.
pub fn add_numbers(list: &mut Vec<u64>, text: &str) -> Result<(), LineFault> {
    for word in text.split_ascii_whitespace() {
        list.push(number_of(word)?)?;
    }
    Ok(())
}
