//! Journals of an input that are judged beside an opening.

ghost use Rattle.std.specs.Prelude.{◌≡◌, ◌≤◌, ◌++◌, IfOk, codes, decimal, false, length};
ghost use Rattle.std.specs.declared.alloc.Global.{Global};
ghost use Rattle.node_file.specs.Meaning.{opening, FitsByNumber};
ghost use Rattle.node_file.specs.Opening.{Opening as Meaning};
ghost use Rattle.node_file.specs.OpeningView.{Represents};
ghost use Rattle.shard_core.specs.Cells.{AreCellsOf, cells_of};
ghost use Rattle.node_journals.specs.Replaying.{IsToldOf, ReplayCauses, Replays, cause_word, is_legal, replay_line};

use arrayvec::ArrayVec;
use audit_replay::{Cell, ReplayCause, Replayed, replay};
use frame_link::{Failed, Sink, Source, Unread, pour, read_up_to};
use node_file::Opening;
use shard_core::cells_are_of;
use std::alloc::{AllocError, Global};
use taos_lanes::{MAX_LINE, add_number, bench_of};

/// The most bytes of journals that are judged.
pub const MAX_JOURNALS: usize = 268_435_456;

/// How judging journals ended.
#[derive(Clone, Copy, PartialEq, Eq)]
pub enum ReplayEnd {
    /// The line was written; whether the journals are legal.
    Done { legal: bool },
    /// A read failed.
    ReadFault,
    /// A write failed.
    WriteFault,
    /// Memory was refused, and nothing was written.
    NoMemory,
}

// The line of some bytes, and whether they are those of legal journals.
#[derive(Drop)]
struct Judged {
    legal: bool,
    line: ArrayVec<u8, MAX_LINE>,
}

fn cause_word(cause: ReplayCause) -> &'static [u8]
    ensures text { result.now ≡ cause_word cause }
    ensures short { length result.now ≤ 6 }
{
    match cause {
        ReplayCause::Cells => b"cells",
        ReplayCause::Limit => b"limit",
        ReplayCause::Keep => b"keep",
        ReplayCause::Told => b"told",
        ReplayCause::Ask => b"ask",
        ReplayCause::Again => b"again",
        ReplayCause::Ruling => b"ruling",
    }
}

// The line of the entry at this place of a cell that is named so.
fn entry_line(front: &[u8], number: u32, place: u64, cause: ReplayCause) -> ArrayVec<u8, MAX_LINE>
    requires front { length front.now ≤ 16 }
    ensures { result.items ≡ front.now ++ decimal number ++ codes " entry " ++ decimal place
        ++ codes " " ++ cause_word cause ++ codes "\n" }
{
    let mut line = ArrayVec::new();
    add_number(&mut line, front, number as u128);
    add_number(&mut line, b" entry ", place as u128);
    line.try_extend_from_slice(b" ").unwrap();
    line.try_extend_from_slice(cause_word(cause)).unwrap();
    line.try_extend_from_slice(b"\n").unwrap();
    line
}

fn illegal_line(cell: Cell, place: u64, cause: ReplayCause) -> ArrayVec<u8, MAX_LINE>
    ensures { result.items ≡ replay_line (Replayed.Illegal cell place cause) }
{
    match cell {
        Cell::Shard(number) => entry_line(b"illegal shard ", number, place, cause),
        Cell::Object(number) => entry_line(b"illegal object ", number, place, cause),
    }
}

// A number behind a text.
fn numbered_line(front: &[u8], number: u64) -> ArrayVec<u8, MAX_LINE>
    requires front { length front.now ≤ 16 }
    ensures { result.items ≡ front.now ++ decimal number ++ codes "\n" }
{
    let mut line = ArrayVec::new();
    add_number(&mut line, front, number as u128);
    line.try_extend_from_slice(b"\n").unwrap();
    line
}

fn line_of(answer: Replayed) -> ArrayVec<u8, MAX_LINE>
    ensures { result.items ≡ replay_line answer }
{
    match answer {
        Replayed::Legal { entries } => numbered_line(b"legal entries ", entries),
        Replayed::Malformed { offset } => numbered_line(b"malformed byte ", offset as u64),
        Replayed::Illegal { cell, place, cause } => illegal_line(cell, place, cause),
    }
}

fn is_legal(answer: Replayed) -> bool
    ensures { result ≡ is_legal answer }
{
    match answer {
        Replayed::Legal { .. } => true,
        Replayed::Malformed { .. } | Replayed::Illegal { .. } => false,
    }
}

fn too_large() -> Judged
    ensures legal { result.legal ≡ false }
    ensures line { result.line.items ≡ codes "too large\n" }
{
    let mut line = ArrayVec::new();
    line.try_extend_from_slice(b"too large\n").unwrap();
    Judged { legal: false, line }
}

// Judges the bytes beside the opening, where they are not too many.
fn judge(alloc: Global, node: &Opening, bytes: &[u8]) -> Result<Judged, AllocError>
    requires { FitsByNumber (opening node.now) }
    ensures { IfOk result (λ j. IsToldOf (cells_of node.now) bytes.now j.legal j.line.items) }
{
    if bytes.len() > MAX_JOURNALS {
        return Ok(too_large());
    }
    let mut bench = bench_of(alloc, &node.anchors, &node.commons, 0)?;
    let answer = replay(alloc, &mut bench, node, bytes)?;
    Ok(Judged {
        legal: is_legal(answer),
        line: line_of(answer),
    })
}

// That the cells are those of whatever the opening represents.
fn cells_are(node: &Opening)
    ensures { (o : Meaning) → Represents node.now o → AreCellsOf o (cells_of node.now) }
{
    let _channels = node.channels.count();
    let _objects = node.objects.count();
    cells_are_of();
}

/// Judges the journals that the input has, and prints what they come to.
pub fn replay_input<I: Source, O: Sink>(
    alloc: Global,
    node: &Opening,
    input: &mut I,
    output: &mut O,
) -> ReplayEnd
    requires fits { FitsByNumber (opening node.now) }
    ensures replays { (o : Meaning) → Represents node.now o
        → Replays o (I.shown input.old).told (I.shown input.new).told
        (O.shown output.old).told (O.shown output.new).told result }
    ensures causes { ReplayCauses (I.shown input.old).faults (I.shown input.new).faults
        (O.shown output.old).faults (O.shown output.new).faults result }
{
    let bytes = match read_up_to(alloc, input, MAX_JOURNALS + 1) {
        Ok(bytes) => bytes,
        Err(Unread::Failed) => return ReplayEnd::ReadFault,
        Err(Unread::NoMemory) => return ReplayEnd::NoMemory,
    };
    cells_are(node);
    let Ok(judged) = judge(alloc, node, bytes.as_slice()) else {
        return ReplayEnd::NoMemory;
    };
    match pour(output, &judged.line) {
        Ok(()) => ReplayEnd::Done {
            legal: judged.legal,
        },
        Err(Failed) => ReplayEnd::WriteFault,
    }
}
