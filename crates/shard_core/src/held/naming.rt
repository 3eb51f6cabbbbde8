//! Names of what an entry brought.

ghost use Rattle.std.specs.Prelude.{◌≡◌, ◌+◌, ◌≤◌, ◌++◌, length, map};
ghost use Rattle.shard_core.specs.Names.{name_in};

use crate::held::name::{Name, Names};
use crate::held::newness::Places;

/// Adds the names of the certificates that an entry brought at these places.
pub(crate) fn name_all(names: &mut Names, entry: u32, places: &Places)
    requires { length names.old.items + length places.now.items ≤ 32 }
    ensures { names.new.items ≡ names.old.items ++ map (name_in entry) places.now.items }
{
    for at in 0..places.len() {
        let place = places.as_slice()[at];
        names.push(Name::Brought { entry, place });
    }
}
