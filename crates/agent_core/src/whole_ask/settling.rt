//! An Ask that is to be judged, outside of any shard.

ghost use Rattle.std.specs.Prelude.{IfOk, OnErr};
ghost use Rattle.stmt_codec.specs.View.{certificates};
ghost use Rattle.agent_core.specs.Asked.{Names};
ghost use Rattle.agent_core.specs.Judged.{GrantsNow, MayBeJudged};
ghost use Rattle.agent_core.specs.Settling.{IsPlaceIn, Settles};
ghost use Rattle.agent_core.specs.Views.{ask_of};

use crate::asked::Denial;
use crate::event::Ask;
use crate::gate::Gate;
use crate::told::Snapshot;
use crate::whole_ask::grant::proof_for;
use crate::whole_ask::verdict::{Decision, judge};
use denial_link::Link;
use prin_term::Anchor;
use proof_cache::Cached;
use std::alloc::{AllocError, Global};
use std::sync::Arc;
use stmt_codec::Cert;
use taos_calculus::Decide;

/// What an Ask comes to that is judged.
#[derive(Drop)]
pub(crate) enum Settlement {
    /// By this entry of the list and this proof.
    Granted { entry: u8, cached: Arc<Cached> },
    Denied(Denial),
}

// What a denial names of a link: a certificate by its digest.
fn denial_of(link: Link, certs: &[Arc<Cert>]) -> Denial
    requires { IsPlaceIn (certificates certs.now) link }
    ensures { Names (certificates certs.now) link result }
{
    match link {
        Link::Expired { entry, cert } => Denial::Expired {
            entry,
            digest: certs[cert as usize].digest,
        },
        Link::Early { entry, cert } => Denial::Early {
            entry,
            digest: certs[cert as usize].digest,
        },
        Link::Missing { entry, node } => Denial::Missing { entry, node },
        Link::NoEntry => Denial::NoEntry,
    }
}

/// What an Ask comes to by what it was handed out. The gate is passed between the decision and
/// its proof.
pub(crate) fn settle<D: Decide, G: Gate>(
    alloc: Global,
    anchors: &[Anchor],
    bench: &mut D,
    gate: &mut G,
    snapshot: &Snapshot,
    asked: &Ask,
) -> Result<Settlement, AllocError>
    requires { MayBeJudged anchors.now snapshot.now (ask_of asked.now) }
    ensures settled { IfOk result (λ v. Settles anchors.now
        (certificates snapshot.now.certs.items) snapshot.now.moment (ask_of asked.now) v) }

    // Only a grant takes memory.
    ensures wanted { OnErr result (GrantsNow anchors.now (certificates snapshot.now.certs.items)
        snapshot.now.moment (ask_of asked.now)) }
{
    let finding = judge(bench, anchors, snapshot, asked);
    gate.between();
    match finding {
        Decision::Granted { entry } => {
            let cached = proof_for(alloc, bench, anchors, snapshot, asked, entry)?;
            let cached = Arc::new(alloc, cached)?;
            Ok(Settlement::Granted { entry, cached })
        }
        Decision::Denied(link) => Ok(Settlement::Denied(denial_of(link, &snapshot.certs))),
    }
}
