//! What a request reaches of the outside.

ghost use Rattle.std.specs.Prelude.{◌≡◌, ◌≤◌, All, IfErr, IfOk, length};
ghost use Rattle.std.specs.Arc.{arc_value};
ghost use Rattle.frame_link.specs.Faults.{HasCause};
ghost use Rattle.frame_link.specs.Lent.{Both};
ghost use Rattle.frame_link.specs.Outside.{outside_of};
ghost use Rattle.frame_link.specs.Readings.{Reads};
ghost use Rattle.stmt_codec.specs.Certificates.{certificate};
ghost use Rattle.relay_core.specs.Presenting.{OneComes, OneStops};
ghost use Rattle.taos_wire.specs.Request.{FitsRequest};
ghost use Rattle.taos_wire.specs.View.{request};
ghost use Rattle.cred_pull.specs.Pulling.{Pulls};
ghost use Rattle.taos_monitor.specs.Reaching.{ReachSeen, UsesClock, UsesFetch, UsesLink, link_by, pull_by, reach_with};

use crate::node_keys::NodeKeys;
use cred_pull::{Fetch, Pulled, pull_with};
use frame_link::{Clock, Failed, RelayLink};
use relay_core::{OpenedCerts, Unpresented, present_with};
use std::alloc::Global;
use std::sync::Arc;
use stmt_codec::Cert;
use taos_wire::Request;

/// What a request may need of the outside: the time, a relay for the certificates that it presents,
/// and more of them from its caller.
pub trait Reach {
    /// What its clock, its link and its fetch show, and what it borrows.
    ghost shown: { Self → ReachSeen };

    /// As of a clock.
    fn now(&mut self) -> Result<u64, Failed>
        ensures reading { Reads (shown self.old).outside.clock.told
            (shown self.new).outside.clock.told result }
        ensures cause { HasCause (shown self.old).outside.clock.faults
            (shown self.new).outside.clock.faults result }
        ensures rest { UsesClock (shown self.old) (shown self.new) };

    /// A certificate that is presented to the node of this number, opened as by `present_with`.
    fn present(
        &mut self,
        alloc: Global,
        node: u32,
        opened: &mut OpenedCerts,
        text: &[u8],
    ) -> Result<Arc<Cert>, Unpresented>
        requires short { length text.now ≤ 65531 }
        ensures came { IfOk result (λ c. OneComes opened.old
            (link_by node (shown self.old) (shown self.new))
            text.now (certificate (arc_value c).body)) }
        ensures stopped { IfErr result (OneStops opened.old
            (link_by node (shown self.old) (shown self.new)) text.now) }
        ensures rest { UsesLink (shown self.old) (shown self.new) }
        ensures key { opened.new ≡ opened.old };

    /// More certificates for a request, taken in as by `pull_with`. `opened` has the node's key.
    fn pull(
        &mut self,
        alloc: Global,
        keys: &NodeKeys,
        opened: &mut OpenedCerts,
        asked: &mut Request,
    ) -> Pulled
        requires fits { FitsRequest (request asked.old) }
        requires one_key { opened.old ≡ keys.now.relay_key }
        ensures pulls { Pulls keys.now.relay_key
            (pull_by keys.now.node (shown self.old) (shown self.new))
            (request asked.old) (request asked.new) result }
        ensures fits { FitsRequest (request asked.new) }
        ensures short { All (λ t. length t ≤ 65531) (request asked.old).certs
            → All (λ t. length t ≤ 65531) (request asked.new).certs }
        ensures rest { UsesFetch (shown self.old) (shown self.new) }
        ensures key { opened.new ≡ opened.old };
}

/// A clock, a link and a fetch side by side; of `&mut`s to them the owner knows what became of them.
impl<C: Clock, R: RelayLink, P: Fetch> Reach for (C, R, P) {
    ghost shown = { λ p. reach_with (outside_of (C.shown p.0) (R.shown p.1)) (P.shown p.2)
        (Both (Both (C.borrows p.0) (R.borrows p.1)) (P.borrows p.2)) };

    fn now(&mut self) -> Result<u64, Failed> {
        self.0.now()
    }

    fn present(
        &mut self,
        alloc: Global,
        node: u32,
        opened: &mut OpenedCerts,
        text: &[u8],
    ) -> Result<Arc<Cert>, Unpresented> {
        present_with(alloc, node, opened, &mut self.1, text)
    }

    fn pull(
        &mut self,
        alloc: Global,
        keys: &NodeKeys,
        opened: &mut OpenedCerts,
        asked: &mut Request,
    ) -> Pulled {
        pull_with(
            alloc,
            keys.node,
            &keys.relay_key,
            opened,
            &mut self.2,
            &mut self.1,
            asked,
        )
    }
}
