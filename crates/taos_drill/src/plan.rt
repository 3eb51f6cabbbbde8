//! A drill's load.

ghost use Rattle.std.specs.Prelude.{◌≡◌, ◌≤◌, IfOk, map};
ghost use Rattle.node_file.specs.Meaning.{FitsByNumber, opening};
ghost use Rattle.node_file.specs.OpeningView.{Represents};
ghost use Rattle.taos_drill.specs.Opened.{drill_opening};
ghost use Rattle.taos_drill.specs.Sent.{drill_streams};
ghost use Rattle.taos_wire.specs.View.{text_of};

use crate::numbers::{MAX_LANES, MAX_REQUESTS};
use crate::opening::opening_of;
use crate::stream::streams_of;
use crate::words::{keys_of, words_of};
use node_file::Opening;
use std::alloc::{AllocError, Global};

/// What the node of a drill is opened with, and what each lane sends, in the order of the lanes.
#[derive(Drop)]
pub struct DrillPlan {
    pub opening: Opening,
    pub streams: Vec<Vec<u8>>,
}

impl DrillPlan {
    /// The load of a number: so many requests, which go round so many lanes. The same number gives
    /// the same load.
    pub fn make(
        alloc: Global,
        seed: u64,
        requests: u32,
        lanes: u32,
    ) -> Result<DrillPlan, AllocError>
        requires few_requests { requests ≤ MAX_REQUESTS }
        requires some_lanes { 1 ≤ lanes }
        requires few_lanes { lanes ≤ MAX_LANES }
        ensures opened { IfOk result
            (λ plan. Represents plan.opening (drill_opening seed requests lanes)) }
        // What is looked up in the opening is within the limits.
        ensures fits { IfOk result (λ plan. FitsByNumber (opening plan.opening)) }
        ensures sent { IfOk result
            (λ plan. map text_of plan.streams.items ≡ drill_streams seed requests lanes) }
    {
        let keys = keys_of(alloc, seed, lanes)?;
        let words = words_of(alloc, seed, requests)?;
        let opening = opening_of(alloc, &keys, requests, lanes)?;
        let streams = streams_of(alloc, &keys, &words, lanes)?;
        Ok(DrillPlan { opening, streams })
    }
}
