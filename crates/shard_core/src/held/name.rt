//! Held certificates, named by what brought them: so that to hold one takes no memory.

ghost use Rattle.std.specs.Prelude.{◌≡◌, Some, IsSome};
ghost use Rattle.agent_core.specs.Views.{event_of};
ghost use Rattle.stmt_codec.specs.Certificates.{certificate};
ghost use Rattle.stmt_codec.specs.View.{certificates};
ghost use Rattle.shard_core.specs.Names.{brought_by, named};

use crate::held::book::Book;
use agent_core::{Event, MAX_OWN};
use arrayvec::ArrayVec;
use std::sync::Arc;
use stmt_codec::Cert;

/// The certificate at a place of the plan's commons, or of those that an entry brought.
#[derive(Clone, Copy)]
pub(crate) enum Name {
    Common(u8),
    Brought { entry: u32, place: u8 },
}

impl Default for Name {
    fn default() -> Name {
        Name::Common(0)
    }
}

/// As many as a channel holds, or as are held in common.
pub(crate) type Names = ArrayVec<Name, MAX_OWN>;

/// The certificates that an event brings.
pub(crate) fn brought_by(event: &Event) -> &[Arc<Cert>]
    ensures { certificates result.now ≡ brought_by (event_of event.now) }
{
    match event {
        Event::Ask(ask) => &ask.presented,
        Event::Hold(certs) => certs,
        Event::Keep { .. }
        | Event::Discard(_)
        | Event::Forget(_)
        | Event::Expire(_)
        | Event::Withdraw(_) => &[],
    }
}

/// The certificate of a name.
pub(crate) fn cert_named<'a>(book: &Book<'a>, name: Name) -> &'a Arc<Cert>
    requires { IsSome (named book.now name) }
    ensures { named book.now name ≡ Some (certificate result.now.value.body) }
{
    match name {
        Name::Common(place) => &book.plan.commons[place as usize],
        Name::Brought { entry, place } => &brought_by(
            &book.entries[entry as usize].event,
        )[place as usize],
    }
}
