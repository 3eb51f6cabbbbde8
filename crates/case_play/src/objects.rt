//! The objects in memory that stand round a call.

ghost use Rattle.std.specs.Prelude.{◌<◌, ℕ, All, IfOk, length};

use crate::case::{Conversation, Setting};
use frame_link::{Failed, MemDoor, MemSink, MemSource, Source};
use std::alloc::{AllocError, Global};
use std::fmt;

/// How the input comes.
#[derive(Clone, Copy)]
pub enum Manner {
    /// Whole, or in its pieces.
    Whole,
    ByteByByte,
}

impl fmt::Display for Manner {
    fn fmt<W: fmt::Write>(&self, f: &mut fmt::Formatter<W>) -> fmt::Result {
        match self {
            Manner::Whole => write!(f, "whole"),
            Manner::ByteByByte => write!(f, "byte by byte"),
        }
    }
}

// Room beyond what is wanted, so that what is too much shows.
const SPARE: usize = 1_048_576;

/// The bytes that a sink takes.
pub fn room_of(room: Option<u64>, wanted: usize) -> usize {
    match room {
        Some(room) => room as usize,
        None => wanted.saturating_add(SPARE),
    }
}

/// The readings of a clock: 0 where none is said.
pub fn readings_of(alloc: Global, readings: &[u64]) -> Result<Vec<u64>, AllocError>
    ensures { IfOk result (λ v. 0 < length v.items) }
{
    if readings.is_empty() {
        return Ok(vec![in alloc; 0]?);
    }
    readings.to_vec(alloc)
}

// The pieces of the input as it comes whole.
fn pieces_of(alloc: Global, pieces: &[u64]) -> Result<Vec<usize>, AllocError>
    ensures { IfOk result (λ v. All (λ n. 0 < n) v.items) }
{
    let mut most = Vec::new(alloc);
    for piece in pieces {
        most.push((*piece as usize).max(1))?;
    }
    Ok(most)
}

// The pieces of the input as it comes byte by byte.
fn ones(alloc: Global, count: usize) -> Result<Vec<usize>, AllocError>
    ensures { IfOk result (λ v. All (λ n. 0 < n) v.items) }
{
    vec![in alloc; 1; count]
}

fn input_of(alloc: Global, setting: &Setting, manner: Manner) -> Result<MemSource, AllocError> {
    let bytes = setting.input.to_vec(alloc)?;
    match manner {
        Manner::Whole => {
            let pieces = pieces_of(alloc, &setting.pieces)?;
            Ok(MemSource::new(bytes, pieces, setting.fails.input.to_vec(alloc)?))
        }
        Manner::ByteByByte => {
            let pieces = ones(alloc, bytes.len())?;
            Ok(MemSource::new(bytes, pieces, setting.fails.bytes.to_vec(alloc)?))
        }
    }
}

pub fn source_of(alloc: Global, bytes: &[u8], fails: &[u64]) -> Result<MemSource, AllocError> {
    Ok(MemSource::new(bytes.to_vec(alloc)?, Vec::new(alloc), fails.to_vec(alloc)?))
}

pub fn sink_of(alloc: Global, room: usize, fails: &[u64]) -> Result<MemSink, AllocError> {
    MemSink::new(alloc, room, fails.to_vec(alloc)?)
}

/// What the source has not given yet, whatever calls fail.
pub fn left_of(alloc: Global, source: &mut MemSource) -> Result<Vec<u8>, AllocError> {
    let mut left = Vec::new(alloc);
    let mut piece = vec![in alloc; 0; 4096]?;
    for _ in 0..u64::MAX {
        match source.read(&mut piece) {
            Ok(0) => break,
            Ok(count) => left.extend_from_slice(&piece[..count])?,
            Err(Failed) => {}
        }
    }
    Ok(left)
}

/// A door of a lane, over objects in memory.
pub type LaneDoor = MemDoor<MemSource, MemSink>;

/// A door that has no connection, and at which these calls fail.
pub fn no_door(alloc: Global, fails: &[u64]) -> Result<LaneDoor, AllocError> {
    MemDoor::new(alloc, Vec::new(alloc), fails.to_vec(alloc)?)
}

/// The door of a conversation's first lane: each of its connections gives the input.
pub fn door_of(alloc: Global, case: &Conversation, manner: Manner) -> Result<LaneDoor, AllocError> {
    let setting = &case.setting;
    let room = room_of(setting.rooms.output, case.wanted.output_most());
    let mut connections = Vec::new(alloc);
    for _ in 0..setting.connections.unwrap_or(0) {
        let input = input_of(alloc, setting, manner)?;
        connections.push((input, sink_of(alloc, room, &[])?))?;
    }
    MemDoor::new(alloc, connections, setting.fails.door.to_vec(alloc)?)
}

/// What the connections that a door was given back had written to them, one after the other.
pub fn written_to(alloc: Global, door: &LaneDoor) -> Result<Vec<u8>, AllocError> {
    let mut written = Vec::new(alloc);
    for (_, output) in door.kept() {
        written.extend_from_slice(output.written())?;
    }
    Ok(written)
}

/// How often a door and its connections failed, all together.
pub fn faults_at(door: &LaneDoor) -> u64 {
    let mut faults = door.faults();
    for (input, output) in door.kept() {
        let both = input.faults().saturating_add(output.faults());
        faults = faults.saturating_add(both);
    }
    faults
}

/// What a call reads from and writes to.
#[derive(Drop)]
pub struct Around {
    pub file: MemSource,
    pub input: MemSource,
    pub output: MemSink,
    pub notes: MemSink,
}

impl Around {
    /// How often they failed, all together.
    pub fn faults(&self) -> u64 {
        let read = self.file.faults().saturating_add(self.input.faults());
        let written = self.output.faults().saturating_add(self.notes.faults());
        read.saturating_add(written)
    }
}

/// What stands round the call of a conversation.
pub fn around_of(alloc: Global, case: &Conversation, manner: Manner) -> Result<Around, AllocError> {
    let (setting, wanted) = (&case.setting, &case.wanted);
    let (fails, rooms) = (&setting.fails, setting.rooms);
    let output = room_of(rooms.output, wanted.output_most());
    let notes = room_of(rooms.notes, wanted.notes().len());
    Ok(Around {
        file: source_of(alloc, &setting.file, &fails.file)?,
        input: input_of(alloc, setting, manner)?,
        output: sink_of(alloc, output, &fails.output)?,
        notes: sink_of(alloc, notes, &fails.notes)?,
    })
}
