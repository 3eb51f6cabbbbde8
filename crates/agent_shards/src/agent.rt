//! The shards of a node, which several seats share.

ghost use Rattle.std.specs.Prelude.{◌≡◌, ◌<◌, ◌≤◌, All, IfOk, OnErr, Some, length, slice_get};
ghost use Rattle.shard_core.specs.Alone.{plans_in};
ghost use Rattle.agent_core.specs.Journals.{MayFollow};
ghost use Rattle.agent_core.specs.Plans.{AreShards, IsPlan};
ghost use Rattle.agent_shards.specs.Cells.{AreJoined, AreSplit, HaveAll, HaveMore, shares_of};
ghost use Rattle.agent_shards.specs.Shards.{ArePasses, AreShardsClosed, AreShardsOpened, plans_of};

use crate::cells::{join_all, split_all};
use crate::machine::Machine;
use crate::opening::{close_shards, open_shards};
use crate::passes::Passes;
use crate::seated::Seated;
use crate::whose::OfAgent;
use prin_term::Anchor;
use shard_core::Shard;
use std::alloc::{AllocError, Global};
use std::marker::{Model, PhantomData};
use std::sync::Arc;
use turn_cell::TurnCell;

/// The shards of a node, each in a turn cell.
#[derive(Drop)]
pub struct Agent {
    cells: Vec<TurnCell<Machine>>,
    anchors: Arc<Vec<Anchor>>,
    // Where the shards go when they come back.
    room: Vec<Shard>,
}

impl Model for Agent {
    ghost use Rattle.std.specs.Prelude.{◌≡◌, ◌≤◌, List, [], vec_capacity, vec_len};
    ghost use Rattle.std.specs.Coded.{codes};
    ghost use Rattle.prin_term.specs.Codes.{principal_code};
    ghost use Rattle.agent_core.specs.Plans.{AreShards};
    ghost use Rattle.agent_shards.specs.Shards.{ShardCell, plans_of};

    ghost Value = { List ShardCell };

    ghost coded = { Prim.hlevel (codes, principal_code) };

    ghost view = { λ a. a.cells.items };

    // They are all shards of a node, and there is room for them.
    ghost invariant = { λ a. AreShards (plans_of a.cells.items) a.anchors.value.items
        × (a.room.items ≡ []) × (vec_len a.cells ≤ vec_capacity a.room) };
}

impl Agent {
    /// The shards in the order of their numbers, and passes with all shares of each. All memory is
    /// taken here; where it is refused, the shards are dropped.
    pub fn new(
        alloc: Global,
        shards: Vec<Shard>,
        anchors: Arc<Vec<Anchor>>,
    ) -> Result<(Agent, Passes), AllocError>
        requires { AreShards (plans_in shards.items) anchors.value.items }
        ensures opened { IfOk result (λ r. AreShardsOpened shards.items r.0 r.1) }
        ensures passes { IfOk result (λ r. ArePasses r.0 r.1) }
    {
        let room = Vec::with_capacity(alloc, shards.len())?;
        let (cells, passes) = open_shards(alloc, shards)?;
        Ok((
            Agent {
                cells,
                anchors,
                room,
            },
            Passes { passes },
        ))
    }

    /// Passes with so many of the shares of each shard. They have seen the same, and have no own
    /// places.
    pub fn seat(
        &self,
        alloc: Global,
        passes: &mut Passes,
        shares: u64,
    ) -> Result<Passes, AllocError>
        requires passes { ArePasses self.now passes.old }
        requires some { 1 ≤ shares }
        requires more { HaveMore shares passes.old }
        ensures split { IfOk result
            (λ given. AreSplit shares self.now passes.old passes.new given) }
        ensures passes { ArePasses self.now passes.new }
        ensures given { IfOk result (λ given. ArePasses self.now given) }

        ensures unchanged { OnErr result (passes.new ≡ passes.old) }
    {
        let given = split_all(alloc, &self.cells, &mut passes.passes, shares)?;
        Ok(Passes { passes: given })
    }

    /// Sits down with the passes. Takes no memory.
    pub fn sit<K: OfAgent>(&self, passes: Passes) -> Seated<'_, K>
        requires passes { ArePasses self.now passes }
        requires agent { self.now ≡ K.cells }
        requires shares { shares_of passes ≡ K.shares }
        ensures cells { result.cells ≡ self.now }
        ensures passes { result.passes ≡ passes }
    {
        Seated {
            agent: self,
            passes: passes.passes,
            whose: PhantomData,
        }
    }

    /// Joins the passes that come back into the others. Takes no memory.
    pub fn unseat(&self, passes: &mut Passes, back: Passes)
        requires passes { ArePasses self.now passes.old }
        requires back { ArePasses self.now back }
        ensures joined { AreJoined MayFollow self.now passes.old passes.new back }
        ensures passes { ArePasses self.now passes.new }
    {
        join_all(&self.cells, &mut passes.passes, back.passes);
    }

    /// The shards back, in order, once the passes have all shares. Takes no memory.
    pub fn close(self, passes: Passes) -> Vec<Shard>
        requires passes { ArePasses self passes }
        requires shares { HaveAll passes }
        ensures { AreShardsClosed self passes result.items }
    {
        let Agent {
            cells,
            anchors: _,
            room,
        } = self;
        close_shards(cells, passes.passes, room)
    }

    // Says that there is a shard, and that each plan is one.
    pub(crate) fn known(&self)
        ensures some { 0 < length (plans_of self.now) }
        ensures sound { All IsPlan (plans_of self.now) }
    {
        // What is kept says so.
        let _cells = &self.cells;
    }

    // How many shards there are.
    pub(crate) fn count(&self) -> u32
        ensures count { result ≡ length self.now }
        ensures some { 0 < result }
    {
        self.cells.len() as u32
    }

    // The cell of one shard.
    pub(crate) fn cell(&self, place: usize) -> &TurnCell<Machine>
        requires { place < length self.now }
        ensures { slice_get self.now place ≡ Some result.now }
    {
        &self.cells[place]
    }

    // The anchors of each shard.
    pub(crate) fn anchors(&self) -> &[Anchor]
        ensures { AreShards (plans_of self.now) result.now }
    {
        &self.anchors
    }
}
