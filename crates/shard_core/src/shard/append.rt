//! An entry of the journal, in the room that is reserved.

ghost use Rattle.std.specs.Prelude.{◌≡◌, ◌++◌, ◌∷◌, ◌<◌, ◌≤◌, [], map, vec_len, vec_capacity};
ghost use Rattle.agent_core.specs.declared.told.Told.{Told as ToldValue};
ghost use Rattle.agent_core.specs.Journals.{entry};
ghost use Rattle.agent_core.specs.Views.{entry_of, event_of};

use agent_core::{Event, ShardEntry, Told};

/// Journals the event with what is told of it.
pub(crate) fn append(entries: &mut Vec<ShardEntry>, event: Event, told: Told)
    requires { vec_len entries.old < vec_capacity entries.old }
    ensures added { entries.new.items ≡ entries.old.items
        ++ record { event = event; told = told } ∷ [] }
    ensures capacity { vec_capacity entries.old ≤ vec_capacity entries.new }
{
    let _ = entries.push(ShardEntry { event, told });
}
