//! The one line that tells an ending in words.

ghost use Rattle.std.specs.Prelude.{◌≡◌, ◌⊎◌, ◌≤◌, ◌++◌, length, decimal};
ghost use Rattle.taos_node.specs.Stops.{status_of};
ghost use Rattle.taos_node.specs.Notes.{IsNoted, cause_text, note_of, stop_note, word_text};

use crate::ending::Ending;
use crate::stop::{Stop, stop_of};
use arrayvec::ArrayVec;
use frame_link::{Sink, pour};
use itoa::Buffer;
use node_commands::MintWord;
use node_file::FileCause;

// A note has no more bytes than this.
const ROOM: usize = 112;

fn plain(text: &[u8]) -> ArrayVec<u8, ROOM>
    requires { length text.now ≤ ROOM }
    ensures { result.items ≡ text.now }
{
    let mut line = ArrayVec::new();
    line.try_extend_from_slice(text).unwrap();
    line
}

// A number between two texts.
fn numbered(front: &[u8], number: u64, back: &[u8]) -> ArrayVec<u8, ROOM>
    requires front { length front.now ≤ 40 }
    requires back { length back.now ≤ 16 }
    ensures text { result.items ≡ front.now ++ decimal number ++ back.now }
    ensures short { length result.items ≤ 76 }
{
    let mut digits = Buffer::new();
    let mut line = ArrayVec::new();
    line.try_extend_from_slice(front).unwrap();
    line.try_extend_from_slice(digits.format(number).as_bytes())
        .unwrap();
    line.try_extend_from_slice(back).unwrap();
    line
}

fn cause_text(cause: FileCause) -> &'static [u8]
    ensures text { result.now ≡ cause_text cause }
    ensures short { length result.now ≤ 16 }
{
    match cause {
        FileCause::FirstLine => b"first line",
        FileCause::UnknownWord => b"unknown word",
        FileCause::Words => b"words",
        FileCause::Number => b"number",
        FileCause::Hex => b"hex",
        FileCause::Rights => b"rights",
        FileCause::UnknownDomain => b"unknown domain",
        FileCause::NodeFirst => b"node first",
        FileCause::UnknownObject => b"unknown object",
        FileCause::UnknownName => b"unknown name",
        FileCause::Principal => b"principal",
        FileCause::Text => b"text",
        FileCause::Certificate => b"certificate",
        FileCause::Twice => b"twice",
        FileCause::Limit => b"limit",
        FileCause::NoNode => b"no node",
    }
}

// The note of a line that is refused.
fn of_line(number: u32, cause: FileCause) -> ArrayVec<u8, ROOM>
    ensures { result.items ≡ stop_note (Stop.Line number cause) }
{
    let mut line = numbered(b"taos: node file: line ", number as u64, b": ");
    line.try_extend_from_slice(cause_text(cause)).unwrap();
    line.try_extend_from_slice(b"\n").unwrap();
    line
}

fn word_text(word: MintWord) -> &'static [u8]
    ensures text { result.now ≡ word_text word }
    ensures short { length result.now ≤ 16 }
{
    match word {
        MintWord::Issuer => b"issuer",
        MintWord::Time => b"time",
        MintWord::Quoted => b"quoted",
        MintWord::Left => b"left",
        MintWord::Right => b"right",
        MintWord::Large => b"large",
    }
}

// The note of a word of `mint` that is refused.
fn of_word(word: MintWord) -> ArrayVec<u8, ROOM>
    ensures { result.items ≡ stop_note (Stop.Word word) }
{
    let mut line = plain(b"taos: mint refused: ");
    line.try_extend_from_slice(word_text(word)).unwrap();
    line.try_extend_from_slice(b"\n").unwrap();
    line
}

// The note of a route that stops at this place, by this code.
fn of_hop(hop: u8, code: u8) -> ArrayVec<u8, ROOM>
    ensures { result.items ≡ stop_note (Stop.Hop hop code) }
{
    let mut digits = Buffer::new();
    let mut line = numbered(b"taos: path refused: hop ", hop as u64, b" code ");
    line.try_extend_from_slice(digits.format(code as u64).as_bytes())
        .unwrap();
    line.try_extend_from_slice(b"\n").unwrap();
    line
}

// The note of a stop: none where a line of the output says it.
fn stop_note(stop: Stop) -> ArrayVec<u8, ROOM>
    ensures { result.items ≡ stop_note stop }
{
    match stop {
        Stop::Usage => plain(b"taos: usage\n"),
        Stop::Line { line, cause } => of_line(line, cause),
        Stop::Malformed { offset } => {
            numbered(b"taos: node file: byte ", offset as u64, b": malformed\n")
        }
        Stop::ReadFault => plain(b"taos: read fault\n"),
        Stop::WriteFault => plain(b"taos: write fault\n"),
        Stop::ClockFault => plain(b"taos: clock fault\n"),
        Stop::NoMemory => plain(b"taos: no memory\n"),
        Stop::Truncated { have } => {
            numbered(b"taos: input ends inside a frame, ", have, b" bytes kept\n")
        }
        Stop::TooLong { length } => numbered(b"taos: frame too long: ", length as u64, b"\n"),
        Stop::DoorFault { lane } => numbered(b"taos: door fault at lane ", lane, b"\n"),
        Stop::Spent { frames } => numbered(b"taos: frames spent: ", frames, b"\n"),
        Stop::Word(word) => of_word(word),
        Stop::Hop { hop, code } => of_hop(hop, code),
        Stop::NotGranted | Stop::Illegal => plain(b""),
    }
}

fn note_of(ending: Ending) -> ArrayVec<u8, ROOM>
    ensures { result.items ≡ note_of ending }
{
    match stop_of(ending) {
        None => plain(b""),
        Some(stop) => stop_note(stop),
    }
}

/// Writes the note of an ending. Where the notes fail, it is cut or missing, and nothing else comes
/// of that.
pub fn tell<N: Sink>(notes: &mut N, ending: Ending)
    ensures told { IsNoted (N.shown notes.old).told (N.shown notes.new).told
        (N.shown notes.old).faults (N.shown notes.new).faults (note_of ending) }
    // Success has no note, nor what a check refused, nor what a replay found.
    ensures silent { (status_of ending ≡ 0) ⊎ ((status_of ending ≡ 11) ⊎ (status_of ending ≡ 14))
        → notes.new ≡ notes.old }
{
    let note = note_of(ending);
    if !note.is_empty() {
        let _ = pour(notes, &note);
    }
}
