//! A node that is opened.

ghost use Rattle.std.specs.Prelude.{◌≡◌, ◌≤◌, length, map, IfOk, None};
ghost use Rattle.object_core.specs.OneOwner.{taken_from};
ghost use Rattle.agent_core.specs.declared.limits.TheConstants.{MAX_SHARDS};
ghost use Rattle.shard_core.specs.Alone.{plans_in};
ghost use Rattle.shard_core.specs.Opened.{new_shard};
ghost use Rattle.node_file.specs.declared.limits.TheConstants.{MAX_OBJECTS};
ghost use Rattle.node_file.specs.Meaning.{opening, FitsByNumber};
ghost use Rattle.node_file.specs.Opening.{Opening as Meaning};
ghost use Rattle.node_file.specs.OpeningView.{Represents};
ghost use Rattle.taos_monitor.specs.Planned.{ArePlanned};
ghost use Rattle.taos_lanes.specs.Parts.{ArePartsNew, node_in};
ghost use Rattle.shard_core.specs.Cells.{its_plans, new_object};
ghost use Rattle.taos_lanes.specs.Opened.{IsNodeOf, IsOpenedBy, IsSmall};

use crate::NodeParts;
use keyed_seal::Sealer;
use node_file::Opening;
use object_core::LoneShelf;
use shard_core::{Lone, objects_of, shards_of};
use std::alloc::{AllocError, Global};
use taos_monitor::NodeKeys;

/// A node's keys, its objects and its shards, which nobody else steps.
#[derive(Drop)]
pub struct OpenNode {
    pub keys: NodeKeys,
    pub shelf: LoneShelf,
    pub shards: Lone,
}

/// The parts of the node of an opening, with empty journals. All memory that its shards and objects
/// want is taken here.
pub fn open_parts(alloc: Global, node: Opening) -> Result<NodeParts, AllocError>
    requires { FitsByNumber (opening node) }
    ensures is_node { IfOk result (λ n. (o : Meaning) → Represents node o
        → IsNodeOf o (node_in n)) }
    ensures shards { IfOk result (λ n. n.shards.items
        ≡ map new_shard (its_plans (opening node) node.channels.entries)) }
    ensures objects { IfOk result (λ n. n.objects.items
        ≡ map (new_object node.limit) node.objects) }
    ensures new { IfOk result ArePartsNew }
{
    let shards = shards_of(alloc, &node)?;
    let objects = objects_of(alloc, &node.objects, node.limit)?;
    Ok(NodeParts {
        keys: NodeKeys {
            node: node.node,
            relay_key: Sealer::of(&node.relay_key),
            channels: node.channels,
        },
        shards,
        anchors: node.anchors,
        commons: node.commons,
        objects,
    })
}

/// The node of an opening, with empty journals. All memory that its shards and objects want is taken
/// here.
pub fn open_node(alloc: Global, node: Opening) -> Result<OpenNode, AllocError>
    requires fits { FitsByNumber (opening node) }
    requires objects { length node.objects ≤ MAX_OBJECTS }
    ensures opened { IfOk result (λ n. (o : Meaning) → Represents node o → IsOpenedBy o n) }
    ensures planned { IfOk result (λ n. ArePlanned n.keys.channels.entries
        (plans_in n.shards.shards)) }
    ensures none_taken { IfOk result (λ n. taken_from n.shelf ≡ None) }
    ensures few { IfOk result (λ n. length n.shards.shards ≤ MAX_SHARDS) }
    ensures small { IfOk result IsSmall }
{
    let parts = open_parts(alloc, node)?;
    Ok(OpenNode {
        keys: parts.keys,
        shelf: LoneShelf::new(alloc, parts.objects)?,
        shards: Lone::new(parts.shards, parts.anchors),
    })
}
