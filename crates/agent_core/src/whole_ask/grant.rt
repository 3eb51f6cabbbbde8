//! The proof of a grant.

ghost use Rattle.std.specs.Prelude.{◌≡◌, ◌<◌, ◌++◌, length, slice_get, filter_map, All, IfOk, OnOk};
ghost use Rattle.stmt_codec.specs.View.{certificates};
ghost use Rattle.proof_cache.specs.Cached.{cached};
ghost use Rattle.agent_core.specs.Granted.{IsGrantedEntry, IsProofFor};
ghost use Rattle.agent_core.specs.Judged.{live_question};
ghost use Rattle.agent_core.specs.Views.{ask_of};

use crate::event::Ask;
use crate::told::Snapshot;
use prin_term::Anchor;
use proof_cache::{Cached, lease_of};
use std::alloc::{AllocError, Global};
use std::sync::Arc;
use stmt_codec::Cert;
use taos_calculus::{Decide, Taken};

// Appends handles to the certificates at these places.
fn push_cited(
    out: &mut Vec<Arc<Cert>>,
    certs: &[Arc<Cert>],
    places: &[u16],
) -> Result<(), AllocError>
    requires { All (λ i. i < length certs.now) places.now }
    ensures { OnOk result (certificates out.new.items ≡ certificates out.old.items
        ++ filter_map (slice_get (certificates certs.now)) places.now) }
{
    for at in 0..places.len() {
        let place = places[at];
        out.push(Arc::try_clone(&certs[place as usize])?)?;
    }
    Ok(())
}

/// The proof that an entry of the list grants an Ask, with what it cites of the live certificates.
/// The decider was asked about these by `judge`.
pub fn proof_for<D: Decide>(
    alloc: Global,
    bench: &mut D,
    anchors: &[Anchor],
    snapshot: &Snapshot,
    asked: &Ask,
    entry: u8,
) -> Result<Cached, AllocError>
    requires asked { D.question bench.old ≡ live_question anchors.now
        (certificates snapshot.now.certs.items) snapshot.now.moment (ask_of asked.now) }
    requires granted { IsGrantedEntry anchors.now (certificates snapshot.now.certs.items)
        snapshot.now.moment (ask_of asked.now) entry }
    ensures { IfOk result (λ c. IsProofFor anchors.now (certificates snapshot.now.certs.items)
        snapshot.now.moment (ask_of asked.now) entry (cached c)) }
{
    let who = &asked.list[entry as usize].who;
    let taken = bench.take_proof(alloc, &asked.subject, who)?;
    let mut cites = Vec::with_capacity(alloc, taken.cites.len())?;
    push_cited(&mut cites, &snapshot.certs, &taken.cites)?;
    let lease = lease_of(&cites);
    let subject = asked.subject.copy(alloc)?;
    let who = who.copy(alloc)?;
    let Taken { proof, cites: _ } = taken;
    let proof = Arc::new(alloc, proof)?;
    Ok(Cached {
        subject,
        who,
        proof,
        cites,
        lease,
    })
}
