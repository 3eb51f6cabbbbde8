//! Who opens a fetched certificate.

ghost use Rattle.std.specs.Prelude.{◌≤◌, IfErr, IfOk, length};
ghost use Rattle.std.specs.Arc.{arc_value};
ghost use Rattle.stmt_codec.specs.Certificates.{certificate};
ghost use Rattle.frame_link.specs.Lent.{Both, Nothing, To};
ghost use Rattle.relay_core.specs.Presenting.{OneComes, OneStops};
ghost use Rattle.cred_pull.specs.Pulling.{Opener, Remains, opener, used};

use frame_link::RelayLink;
use relay_core::{OpenedCerts, Unpresented, present_with};
use std::alloc::Global;
use std::sync::Arc;
use stmt_codec::Cert;

pub(crate) trait Opens {
    // The key by which it opens, for which node it asks the link, and what the link shows.
    ghost shown: { Self → Opener };

    // The certificate of these bytes, as it is presented to the node.
    fn open(&mut self, alloc: Global, text: &[u8]) -> Result<Arc<Cert>, Unpresented>
        requires short { length text.now ≤ 65531 }
        ensures came { IfOk result (λ c. OneComes (shown self.old).key
            (used (shown self.old) (shown self.new))
            text.now (certificate (arc_value c).body)) }
        ensures stopped { IfErr result (OneStops (shown self.old).key
            (used (shown self.old) (shown self.new)) text.now) }
        ensures rest { Remains (shown self.old) (shown self.new) };
}

// A node with the certificates that it opened, and its link to the relay.
#[derive(Drop)]
pub(crate) struct Presenter<'o, 'l, R> {
    pub(crate) node: u32,
    pub(crate) opened: &'o mut OpenedCerts,
    pub(crate) link: &'l mut R,
}

impl<R: RelayLink> Opens for Presenter<'_, '_, R> {
    ghost shown = { λ s. opener s.opened.now s.node (R.shown s.link.now)
        (Both (To s.opened.ghost_name Nothing)
        (To s.link.ghost_name (R.borrows s.link.now))) };

    fn open(&mut self, alloc: Global, text: &[u8]) -> Result<Arc<Cert>, Unpresented> {
        present_with(alloc, self.node, self.opened, self.link, text)
    }
}
