//! The files that the words name.

use std::fs::File;
use std::io::Stderr;
use system_io::{FileReading, Origin};

/// The file at a path: `-` is an empty one, and reads of one that can't be opened fail.
pub fn file_of<'a>(rt: &HostRuntime, path: &'a str) -> FileReading<'a, File, Stderr> {
    if path == "-" {
        return FileReading::new(Origin::Empty, path, rt.stderr());
    }
    match File::open(rt, path) {
        Ok(file) => FileReading::new(Origin::Open(file), path, rt.stderr()),
        Err(reason) => FileReading::new(Origin::Missing(reason), path, rt.stderr()),
    }
}
