//! A relay at hand.

ghost use Rattle.std.specs.Prelude.{◌≡◌, ◌≤◌, length, IfOk, IsOk};
ghost use Rattle.frame_link.specs.Faults.{HasCause};
ghost use Rattle.frame_link.specs.Relay.{HasRelayCode, Reseals};
ghost use Rattle.relay_core.specs.Plans.{local_link};

use crate::resealing::{RelayTable, reseal};
use arrayvec::ArrayVec;
use frame_link::{Failed, RelayAnswer, RelayLink};
use std::alloc::Global;

/// A link to a relay that is this table. It never fails. Its calls are not counted: the count stands
/// at the largest u64.
#[derive(Drop)]
pub struct LocalRelay {
    pub alloc: Global,
    pub table: RelayTable,
}

impl RelayLink for LocalRelay {
    ghost shown = { λ r. local_link r.table };

    fn reseal(
        &mut self,
        node: u32,
        sealed: &[u8],
        out: &mut ArrayVec<u8, 2048>,
    ) -> Result<RelayAnswer, Failed>
        ensures never { IsOk result }
        ensures reseals { Reseals (local_link self.old.table) (local_link self.new.table) node
            sealed.now result out.new.items }
        ensures same { self.new ≡ self.old }
        ensures codes { IfOk result HasRelayCode }
        ensures cause { HasCause 0 0 result }
    {
        Ok(reseal(self.alloc, &self.table, node, sealed, out))
    }
}
