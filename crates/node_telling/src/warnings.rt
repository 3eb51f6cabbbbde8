//! What a file of keys is worth a warning for. Nothing is refused for it.

ghost use Rattle.std.specs.Prelude.{◌≡◌};

use frame_link::{Failed, Source};
use hex::decode_to_slice;
use std::alloc::{Alloc, AllocError, Global};
use std::fs::{File, Files, OpenFile};
use std::io::Write;
use std::os::unix::fs::PermissionsExt;
use std::path::Path;
use std::{fs, str};

// The bits of a mode by which another user than the owner may read.
const READERS: u32 = 0o044;

// Those by which one may write.
const WRITERS: u32 = 0o022;

// That by which each may take away from a folder only what is his own.
const STICKY: u32 = 0o1000;

// A key, and the line that gives it.
#[derive(Clone, Copy, PartialEq, Eq, PartialOrd, Ord)]
struct KeyLine {
    key: [u8; 32],
    line: u64,
}

// The key that a line of a node file or of a relay file gives.
fn key_of(line: &str) -> Option<[u8; 32]> {
    let mut words = line.split_ascii_whitespace();
    let word = words.next()?;
    if word != "node" && word != "channel" && word != "issuer" {
        return None;
    }
    words.next()?;
    let digits = words.next()?;
    let mut key = [0u8; 32];
    match decode_to_slice(digits, &mut key) {
        Ok(()) => Some(key),
        Err(_) => None,
    }
}

// The keys of a text, with equal ones side by side.
fn keys_of(alloc: Global, text: &str) -> Result<Vec<KeyLine>, AllocError> {
    let mut keys = Vec::new(alloc);
    let mut line: u64 = 0;
    for row in text.lines() {
        line = line.saturating_add(1);
        if let Some(key) = key_of(row) {
            keys.push(KeyLine { key, line })?;
        }
    }
    keys.sort_unstable();
    Ok(keys)
}

// A line that can't be written is missing.
fn tell_keys<E: Write>(errors: &mut E, path: &str, keys: &[KeyLine]) {
    for place in 0..keys.len() {
        let it = keys[place];
        if it.key == [0u8; 32] {
            let _ = writeln!(errors, "taosd: {path}: line {}: a key of zeros", it.line);
        }
        if place > 0 && keys[place - 1].key == it.key {
            let other = keys[place - 1].line;
            let _ = writeln!(
                errors,
                "taosd: {path}: line {}: the key of line {other}",
                it.line
            );
        }
    }
}

/// Warns of a file that others than its owner may read or write.
pub fn tell_others<E: Write>(errors: &mut E, path: &str, file: &File) {
    let Ok(about) = file.metadata() else {
        return;
    };
    let mode = about.permissions().mode();
    if mode & READERS != 0 {
        let _ = writeln!(errors, "taosd: {path}: others may read it");
    }
    if mode & WRITERS != 0 {
        let _ = writeln!(errors, "taosd: {path}: others may write it");
    }
}

// Warns of each folder on this way to a file in which others may put another one in its place.
fn tell_above<R: Files, E: Write>(system: &R, errors: &mut E, file: Path<'_>) {
    for folder in file.ancestors().skip(1) {
        if let Ok(about) = folder.metadata(system) {
            let mode = about.permissions().mode();
            if mode & WRITERS != 0 && mode & STICKY == 0 {
                let folder = folder.as_str();
                let _ = writeln!(errors, "taosd: {folder}: others may write it");
            }
        }
    }
}

/// Warns of each folder above a file in which others than its owner may put another one in its place.
/// Links are followed.
pub fn tell_folders<R: Files + Alloc, E: Write>(system: &R, errors: &mut E, path: &str) {
    if let Ok(whole) = fs::canonicalize(system, path) {
        tell_above(system, errors, whole.as_path());
    }
}

/// A source of a file in lines, which warns, once it was read to its end, of lines whose keys are
/// alike, or zero. Where memory is refused for that, or a byte is none of a text, nothing is told.
#[derive(Drop)]
pub struct Watched<'a, S, E> {
    inner: S,
    path: &'a str,
    errors: E,
    alloc: Global,
    seen: Option<Vec<u8>>,
}

impl<'a, S, E> Watched<'a, S, E> {
    pub fn new(alloc: Global, inner: S, path: &'a str, errors: E) -> Watched<'a, S, E>
        ensures { result.inner ≡ inner }
    {
        Watched {
            inner,
            path,
            errors,
            alloc,
            seen: Some(Vec::new(alloc)),
        }
    }
}

// The bytes so far, and these. Nothing is kept where memory is refused.
fn kept_with(seen: Option<Vec<u8>>, piece: &[u8]) -> Option<Vec<u8>> {
    let mut seen = seen?;
    match seen.extend_from_slice(piece) {
        Ok(()) => Some(seen),
        Err(_) => None,
    }
}

fn tell_all<E: Write>(alloc: Global, errors: &mut E, path: &str, seen: &[u8]) {
    if let Ok(text) = str::from_utf8(seen) {
        if let Ok(keys) = keys_of(alloc, text) {
            tell_keys(errors, path, &keys);
        }
    }
}

impl<'a, S: Source, E: Write> Source for Watched<'a, S, E> {
    ghost shown = { λ s. S.shown s.inner };

    ghost borrows = { λ s. S.borrows s.inner };

    fn read(&mut self, into: &mut [u8]) -> Result<usize, Failed> {
        let count = self.inner.read(into)?;
        let seen = self.seen.take();
        if count == 0 {
            if let Some(bytes) = &seen {
                tell_all(self.alloc, &mut self.errors, self.path, bytes);
            }
        } else {
            self.seen = kept_with(seen, &into[..count]);
        }
        Ok(count)
    }
}
