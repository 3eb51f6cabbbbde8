//! What lanes are given before their workers run.

ghost use Rattle.std.specs.List.{AllZip};
ghost use Rattle.std.specs.Prelude.{◌≡◌, ◌+◌, ◌<◌, IfOk, OnErr, OnOk, length, map};
ghost use Rattle.taos_lanes.specs.Joining.{AreKept, IsFreshStock, IsGivenStock, passes_of};
ghost use Rattle.taos_lanes.specs.Remembering.{memo_of};
ghost use Rattle.taos_lanes.specs.Stocked.{cells_of};
ghost use Rattle.taos_lanes.specs.Workers.{HasOtherWork};
ghost use Rattle.turn_cell.specs.declared.shares.TheConstants.{ALL_SHARES};

use crate::bench::{Memos, bench_of};
use crate::lane::Stock;
use crate::tally::Tally;
use crate::worker::Worker;
use agent_shards::{Agent, Passes, Rack, RackPasses};
use std::alloc::{AllocError, Global};

// One share of each cell out of the passes, with a decider.
pub(crate) fn stock_of(
    alloc: Global,
    memos: &Memos,
    agent: &Agent,
    rack: &Rack,
    passes: &mut Passes,
    racked: &mut RackPasses,
    given: u64,
) -> Result<Stock, AllocError>
    requires kept { AreKept (cells_of agent.now rack.now) given
        (passes_of passes.old racked.old) }
    requires few { given + 1 < ALL_SHARES }
    ensures stock { IfOk result (λ s. IsFreshStock (cells_of agent.now rack.now) s) }
    ensures kept { IfOk result (λ _. AreKept (cells_of agent.now rack.now) (given + 1)
        (passes_of passes.new racked.new)) }
    ensures memo { IfOk result (λ s. s.bench.memo ≡ memo_of memos.now) }
{
    let bench = bench_of(alloc, &memos.anchors, &memos.commons, memos.lemmas)?;
    Ok(Stock {
        passes: agent.seat(alloc, passes, 1)?,
        racked: rack.seat(alloc, racked, 1)?,
        bench,
        tally: Tally::new(),
    })
}

// Gives each lane a stock. Where memory is refused some may have one.
pub(crate) fn stock_lanes<L: Worker>(
    alloc: Global,
    memos: &Memos,
    agent: &Agent,
    rack: &Rack,
    passes: &mut Passes,
    racked: &mut RackPasses,
    lanes: &mut [L],
) -> Result<(), AllocError>
    requires few { length lanes.old + 1 < ALL_SHARES }
    requires kept { AreKept (cells_of agent.now rack.now) 0 (passes_of passes.old racked.old) }
    ensures stocked { OnOk result (AllZip (IsGivenStock (cells_of agent.now rack.now))
        (map L.shown lanes.old) (map L.shown lanes.new)) }
    ensures kept { OnOk result (AreKept (cells_of agent.now rack.now) (length lanes.old)
        (passes_of passes.new racked.new)) }
    ensures same { OnErr result (AllZip HasOtherWork (map L.shown lanes.old)
        (map L.shown lanes.new)) }
{
    let mut given = 0;
    for lane in lanes.iter_mut() {
        lane.exchange(Some(stock_of(alloc, memos, agent, rack, passes, racked, given)?));
        given += 1;
    }
    Ok(())
}
