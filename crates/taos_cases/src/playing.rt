//! The calls of `taos` that a conversation needs.

use case_play::{
    CaseFetch, CaseLane, CaseLink, Claim, Conversation, Difference, LaneDoor, Manner, Stage,
    compare, is_borne_out, played_of, stage_of, stage_of_check,
};
use frame_link::MemClock;
use std::alloc::{AllocError, Global};
use std::sync::Wait;
use std::thread::Threads;
use taos_node::{Lane, taos};

/// A lane of a conversation.
type NodeLane = Lane<MemClock, CaseLink, LaneDoor, CaseFetch>;

fn lane_of(lane: CaseLane) -> NodeLane {
    Lane::of(lane.clock, lane.relay, lane.door, lane.fetch)
}

// What a lane has after the call.
fn left_by(lane: NodeLane) -> CaseLane {
    CaseLane {
        clock: lane.clock,
        relay: lane.relay,
        door: lane.door,
        fetch: lane.fetch,
    }
}

// Calls `taos` over a stage, and gives its status and what it left of the stage.
fn call<W: Threads + Wait + Sync>(rt: &W, alloc: Global, stage: Stage) -> (u8, Stage) {
    let Stage {
        words,
        mut around,
        first,
        second,
    } = stage;
    let mut lanes = [lane_of(first), lane_of(second)];
    let status = taos(
        rt,
        alloc,
        &words,
        &mut around.file,
        &mut around.input,
        &mut around.output,
        &mut around.notes,
        &mut lanes,
    );
    let [first, second] = lanes;
    let (first, second) = (left_by(first), left_by(second));
    let stage = Stage {
        words,
        around,
        first,
        second,
    };
    (status, stage)
}

// Whether `check` bears a claim out, by this node file.
fn is_met<W: Threads + Wait + Sync>(
    rt: &W,
    alloc: Global,
    file: &[u8],
    claim: &Claim<'_>,
) -> Result<bool, AllocError> {
    let stage = stage_of_check(alloc, file, claim)?;
    let (status, stage) = call(rt, alloc, stage);
    is_borne_out(alloc, claim, status, &stage)
}

/// Plays a conversation, and gives the first that differs, where anything does.
pub fn difference_of<W: Threads + Wait + Sync>(
    rt: &W,
    alloc: Global,
    case: &Conversation,
    manner: Manner,
) -> Result<Option<Difference>, AllocError> {
    let stage = stage_of(alloc, case, manner)?;
    let (status, stage) = call(rt, alloc, stage);
    let played = played_of(alloc, case, status, stage)?;
    let compared = compare(alloc, case, &played)?;
    for claim in &compared.claims {
        if !is_met(rt, alloc, &case.setting.file, claim)? {
            let number = claim.number;
            return Ok(Some(Difference::Grant { number }));
        }
    }
    Ok(compared.differs)
}
