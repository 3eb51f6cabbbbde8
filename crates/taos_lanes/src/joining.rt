//! What comes back from lanes after their workers ran.

ghost use Rattle.std.specs.List.{AllZip};
ghost use Rattle.std.specs.Prelude.{◌≡◌, ◌^◌, ◌≤◌, All, length, map};
ghost use Rattle.taos_lanes.specs.Joining.{ArePassesOf, IsEmptied, IsTotalOf, Joins, JoinsAll, WorkIs, passes_of, stocks_in};
ghost use Rattle.taos_lanes.specs.Stocked.{IsStockOf, cells_of};

use crate::lane::Stock;
use crate::tally::Tally;
use crate::total::Total;
use crate::worker::Worker;
use agent_shards::{Agent, Passes, Rack, RackPasses};

// Joins the passes of a stock to the others, and hands out what it has counted.
pub(crate) fn join_stock(
    agent: &Agent,
    rack: &Rack,
    passes: &mut Passes,
    racked: &mut RackPasses,
    stock: Stock,
) -> Tally
    requires passes { ArePassesOf (cells_of agent.now rack.now) (passes_of passes.old racked.old) }
    requires stock { IsStockOf (cells_of agent.now rack.now) stock }
    ensures joined { Joins (cells_of agent.now rack.now) (passes_of passes.old racked.old)
        (passes_of passes.new racked.new) stock }
    ensures passes { ArePassesOf (cells_of agent.now rack.now) (passes_of passes.new racked.new) }
    ensures tally { result ≡ stock.tally }
{
    let Stock {
        passes: back,
        racked: racked_back,
        bench: _,
        tally,
    } = stock;
    agent.unseat(passes, back);
    rack.unseat(racked, racked_back);
    tally
}

// Joins the passes of all lanes to the others. The lanes keep nothing of their work.
pub(crate) fn join_lanes<L: Worker>(
    agent: &Agent,
    rack: &Rack,
    passes: &mut Passes,
    racked: &mut RackPasses,
    lanes: &mut [L],
) -> Total
    requires few { length lanes.old ≤ 2 ^ 32 }
    requires passes { ArePassesOf (cells_of agent.now rack.now) (passes_of passes.old racked.old) }
    requires stocked { All (WorkIs (IsStockOf (cells_of agent.now rack.now)))
        (map L.shown lanes.old) }
    ensures joined { JoinsAll (cells_of agent.now rack.now) (passes_of passes.old racked.old)
        (stocks_in (map L.shown lanes.old)) (passes_of passes.new racked.new) }
    ensures passes { ArePassesOf (cells_of agent.now rack.now) (passes_of passes.new racked.new) }
    ensures total { IsTotalOf (stocks_in (map L.shown lanes.old)) result }
    ensures emptied { AllZip IsEmptied (map L.shown lanes.old) (map L.shown lanes.new) }
{
    let mut total = Total::new();
    for lane in lanes.iter_mut() {
        let stock = lane.exchange(None).unwrap();
        total.add(join_stock(agent, rack, passes, racked, stock));
    }
    total
}
