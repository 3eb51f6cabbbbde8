//! What the program prints of itself and of files, and serves nothing by.

use crate::ending::ended;
use edge::{file_of, fresh_key, line_of_file, text_of};
use frame_link::{Sink, pour};
use system_io::Writing;
use taos_node::{Ending, FileFault, Outcome, file_opening};

// Where fresh keys come from.
const RANDOM: &str = "/dev/urandom";

/// Writes a text on standard output, and that alone.
pub fn show<N: Sink>(rt: &HostRuntime, text: &[u8], notes: &mut N) -> u8 {
    let mut output = Writing::new(rt.stdout());
    match pour(&mut output, text) {
        Ok(()) => 0,
        Err(_) => ended(notes, Ending::Served(Outcome::WriteFault)),
    }
}

/// Prints a fresh key of 64 hex digits.
pub fn show_key<N: Sink>(rt: &HostRuntime, notes: &mut N) -> u8 {
    match fresh_key(&mut file_of(rt, RANDOM)) {
        Some(digits) => show(rt, &digits, notes),
        None => ended(notes, Ending::File(FileFault::ReadFault)),
    }
}

/// Prints what a node file means.
pub fn show_file<N: Sink>(rt: &HostRuntime, path: &str, notes: &mut N) -> u8 {
    match file_opening(rt.alloc(), &mut file_of(rt, path)) {
        Ok(opening) => match text_of(rt.alloc(), &opening) {
            Ok(text) => show(rt, text.as_str().as_bytes(), notes),
            Err(_) => ended(notes, Ending::NoMemory),
        },
        Err(fault) => ended(notes, Ending::File(fault)),
    }
}

/// Prints in a line what a node file or a relay file means.
pub fn check_file<N: Sink>(rt: &HostRuntime, path: &str, notes: &mut N) -> u8 {
    match line_of_file(rt.alloc(), &mut file_of(rt, path)) {
        Ok(line) => show(rt, line.as_str().as_bytes(), notes),
        Err(fault) => ended(notes, Ending::File(fault)),
    }
}
