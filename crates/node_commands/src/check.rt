//! The command that looks over a request and its reply.

ghost use Rattle.std.specs.Prelude.{◌≡◌, List, ℕ, Option, Some, IfErr, IfOk, MatchResult, length};
ghost use Rattle.std.specs.Int.{w32, to_be_bytes};
ghost use Rattle.std.specs.Option.{option_copied, option_map};
ghost use Rattle.taos_wire.specs.View.{text_of};
ghost use Rattle.node_file.specs.Meaning.{opening};
ghost use Rattle.node_commands.specs.Findings.{CheckCauses, Checks, HaltCauses, Halts, HaltsAt, Shows, TakesOne, TakesFrames};
ghost use Rattle.node_file.specs.Opening.{Opening as Node};
ghost use Rattle.node_commands.specs.declared.finding.Finding.{Finding as Found};

use crate::checking::check_frames;
use crate::finding::{Finding, finding_line};
use frame_link::{Failed, MAX_PAYLOAD, Sink, Source, fill, pour};
use node_file::Opening;
use std::alloc::{AllocError, Global};

/// The most bytes of a reply that is looked over.
pub const MAX_REPLY: u32 = 67_108_864;

/// How a check ended.
#[derive(Clone, Copy, PartialEq, Eq)]
pub enum CheckEnd {
    /// The line of the finding was written.
    Done(Finding),
    /// A read failed.
    ReadFault,
    /// A write failed.
    WriteFault,
    /// Memory was refused.
    NoMemory,
}

/// Why no more frames are read.
#[derive(Clone, Copy, PartialEq, Eq)]
pub enum Halt {
    ReadFault,
    NoMemory,
}

fn length_of(word: [u8; 4]) -> u32
    ensures { to_be_bytes w32 result ≡ word }
{
    u32::from_be_bytes(word)
}

fn room_of(alloc: Global, count: u32) -> Result<Vec<u8>, AllocError>
    ensures { IfOk result (λ v. length v.items ≡ count) }
{
    vec![in alloc; 0; count as usize]
}

// The payload of the next frame, where that is there. Its room is taken once its length is known.
fn frame_of<I: Source>(alloc: Global, limit: u32, input: &mut I) -> Result<Option<Vec<u8>>, Halt>
    ensures taken { IfOk result (λ found. TakesOne limit (I.shown input.old).told
        (I.shown input.new).told (option_map text_of found)) }
    ensures halted { IfErr result (HaltsAt limit (I.shown input.old).told
        (I.shown input.new).told) }
    ensures cause { MatchResult result
        (λ _. (I.shown input.new).faults ≡ (I.shown input.old).faults)
        (HaltCauses (I.shown input.old).faults (I.shown input.new).faults) }
{
    let mut word = [0u8; 4];
    match fill(input, &mut word) {
        Err(Failed) => return Err(Halt::ReadFault),
        Ok(0) => return Ok(None),
        Ok(have) => {
            if have < 4 {
                return Ok(None);
            }
        }
    }
    let length = length_of(word);
    if length > limit {
        return Ok(None);
    }
    let Ok(mut room) = room_of(alloc, length) else {
        return Err(Halt::NoMemory);
    };
    match fill(input, &mut room) {
        Err(Failed) => Err(Halt::ReadFault),
        Ok(have) => {
            if have < length as usize {
                return Ok(None);
            }
            Ok(Some(room))
        }
    }
}

// The request's frame, and where that is there the reply's.
fn frames_of<I: Source>(
    alloc: Global,
    input: &mut I,
) -> Result<(Option<Vec<u8>>, Option<Vec<u8>>), Halt>
    ensures taken { IfOk result (λ found. TakesFrames (I.shown input.old).told
        (I.shown input.new).told (option_map text_of found.0) (option_map text_of found.1)) }
    ensures halted { IfErr result (Halts (I.shown input.old).told (I.shown input.new).told) }
    ensures cause { MatchResult result
        (λ _. (I.shown input.new).faults ≡ (I.shown input.old).faults)
        (HaltCauses (I.shown input.old).faults (I.shown input.new).faults) }
{
    let request = match frame_of(alloc, MAX_PAYLOAD, input) {
        Ok(Some(request)) => request,
        Ok(None) => return Ok((None, None)),
        Err(halt) => return Err(halt),
    };
    match frame_of(alloc, MAX_REPLY, input) {
        Ok(reply) => Ok((Some(request), reply)),
        Err(halt) => Err(halt),
    }
}

fn payload_of(frame: &Option<Vec<u8>>) -> Option<&[u8]>
    ensures { option_copied result ≡ option_map text_of frame.now }
{
    match frame {
        Some(bytes) => Some(bytes.as_slice()),
        None => None,
    }
}

/// Reads the frame of a request and that of its reply, and writes the line of what is found in
/// them. A frame that is cut off, or longer than it may be, is not there. Bytes behind the second
/// frame are not read.
pub fn check_connection<I: Source, O: Sink>(
    alloc: Global,
    node: &Opening,
    input: &mut I,
    output: &mut O,
) -> CheckEnd
    ensures checks { Checks (opening node.now) (I.shown input.old).told (I.shown input.new).told
        (O.shown output.old).told (O.shown output.new).told result }
    ensures causes { CheckCauses (I.shown input.old).faults (I.shown input.new).faults
        (O.shown output.old).faults (O.shown output.new).faults result }
{
    let (request, reply) = match frames_of(alloc, input) {
        Ok(frames) => frames,
        Err(Halt::ReadFault) => return CheckEnd::ReadFault,
        Err(Halt::NoMemory) => return CheckEnd::NoMemory,
    };
    let Ok(finding) = check_frames(alloc, node, payload_of(&request), payload_of(&reply)) else {
        return CheckEnd::NoMemory;
    };
    match pour(output, &finding_line(finding)) {
        Ok(()) => CheckEnd::Done(finding),
        Err(Failed) => CheckEnd::WriteFault,
    }
}

/// An input that tells its bytes shows one finding.
pub fn one_check()
    ensures { (o : Node) (bytes : List ℕ) (x y : Option (List ℕ)) (a b : Found)
        → Shows o (Some bytes) x a → Shows o (Some bytes) y b → a ≡ b }
{}
