//! A file of lines, each of which is whole.

use crate::cut_short::write_on;
use std::fs::File;
use std::io::Seek;

/// A file that lines are appended to, by nobody else. Of a line that can't be written whole nothing
/// stays, or what stays is closed by a line feed before the next one.
#[derive(Drop)]
pub struct LogFile {
    file: File,
    // The most bytes that it may have.
    limit: Option<u64>,
    // Its last line is not closed.
    is_open: bool,
}

// Writes these bytes, as far as the file takes them. How many it did not take.
fn left_of(file: &mut File, bytes: &[u8]) -> usize {
    let mut rest = bytes;
    for _ in 0..bytes.len() {
        match write_on(file, rest) {
            Ok(0) | Err(_) => return rest.len(),
            Ok(count) => rest = &rest[count..],
        }
        if rest.is_empty() {
            return 0;
        }
    }
    rest.len()
}

impl LogFile {
    /// A file that may have so many bytes, and whose last line is closed or not.
    pub fn new(file: File, limit: Option<u64>, is_open: bool) -> LogFile {
        LogFile {
            file,
            limit,
            is_open,
        }
    }

    // Whether so many bytes more are within the limit. A write beyond it would end the program.
    fn has_room(&self, count: usize) -> bool {
        let Some(limit) = self.limit else {
            return true;
        };
        match self.file.metadata() {
            Ok(about) => about.len().saturating_add(count as u64) <= limit,
            Err(_) => false,
        }
    }

    // Closes the last line, where it is open. Whether it is closed.
    fn close(&mut self) -> bool {
        if self.is_open {
            self.is_open = left_of(&mut self.file, b"\n") > 0;
        }
        !self.is_open
    }

    // Takes back the last bytes, where they still end the file. Whether it ends as before them.
    fn take_back(&mut self, count: usize) -> bool {
        let (Ok(about), Ok(end)) = (self.file.metadata(), self.file.stream_position()) else {
            return false;
        };
        let before = end.saturating_sub(count as u64);
        about.is_file() && about.len() == end && self.file.set_len(before).is_ok()
    }

    /// Appends a line, with the line feed at its end. Whether it was written whole.
    pub fn append(&mut self, line: &[u8]) -> bool {
        if !self.has_room(line.len().saturating_add(1)) || !self.close() {
            return false;
        }
        let left = left_of(&mut self.file, line);
        if left > 0 {
            let count = line.len().saturating_sub(left);
            self.is_open = count > 0 && !self.take_back(count);
        }
        left == 0
    }
}
