//! Whether the keys of a node are those of channels of its shards.

ghost use Rattle.std.specs.Prelude.{◌↔◌, IsTrue};
ghost use Rattle.shard_core.specs.Alone.{plans_in};
ghost use Rattle.taos_monitor.specs.Planned.{ArePlanned};

use shard_core::Lone;
use taos_monitor::NodeKeys;

/// Whether each channel that has a key is in the plan of its shard, as `serve` asks.
pub fn keys_fit(keys: &NodeKeys, shards: &Lone) -> bool
    ensures { IsTrue result ↔ ArePlanned keys.now.channels.entries (plans_in shards.now.shards) }
{
    for place in 0..keys.channels.count() {
        if let Some((number, _)) = keys.channels.at(place) {
            if !shards.has_channel(number) {
                return false;
            }
        }
    }
    true
}
