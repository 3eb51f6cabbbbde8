//! The conversations of a text.

use crate::bytes::Names;
use crate::case::Conversation;
use crate::fault::{BadLine, LineFault};
use crate::saying::add_line;
use std::alloc::Global;

// The bytes that have names, the conversations that have ended, and the one that has not.
#[derive(Drop)]
struct Reading {
    names: Names,
    ended: Vec<Conversation>,
    open: Option<Conversation>,
}

impl Reading {
    // Ends the conversation that is open.
    fn end(&mut self) -> Result<(), BadLine> {
        let Some(case) = self.open.take() else {
            return Ok(());
        };
        let line = case.line;
        if case.wanted.status.is_none() {
            let fault = LineFault::NoStatus;
            return Err(BadLine { line, fault });
        }
        match self.ended.push(case) {
            Ok(()) => Ok(()),
            Err(_) => Err(BadLine {
                line,
                fault: LineFault::NoMemory,
            }),
        }
    }

    // Opens a conversation with a name of its own.
    fn open(&mut self, name: &str, line: u64) -> Result<(), LineFault> {
        if name.is_empty() {
            return Err(LineFault::NoName);
        }
        if self.ended.iter().any(|case| case.name.as_str() == name) {
            return Err(LineFault::Twice);
        }
        let name = String::from_str(self.names.alloc, name)?;
        self.open = Some(Conversation::new(self.names.alloc, name, line));
        Ok(())
    }

    // Takes a line that is no comment and not blank.
    fn say(&mut self, key: &str, text: &str) -> Result<(), LineFault> {
        match &mut self.open {
            Some(case) => add_line(&self.names, case, key, text),
            None if key == "bytes" => self.names.add(text),
            None => Err(LineFault::NoCase),
        }
    }

    fn take(&mut self, text: &str, line: u64) -> Result<(), BadLine> {
        if text.starts_with('#') || text.trim().is_empty() {
            return Ok(());
        }
        let (key, says) = text.split_once(' ').unwrap_or((text, ""));
        let taken = if key == "case" {
            self.end()?;
            self.open(says, line)
        } else {
            self.say(key, says)
        };
        taken.map_err(|fault| BadLine { line, fault })
    }
}

/// The conversations of a text, in order, or the first of its lines that is none.
pub fn conversations_of(alloc: Global, text: &str) -> Result<Vec<Conversation>, BadLine> {
    let mut reading = Reading {
        names: Names::new(alloc),
        ended: Vec::new(alloc),
        open: None,
    };
    let mut line = 0u64;
    for text in text.lines() {
        line = line.saturating_add(1);
        reading.take(text, line)?;
    }
    reading.end()?;
    Ok(reading.ended)
}
