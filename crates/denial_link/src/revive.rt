//! Which of the certificates that are not live would have been enough.

ghost use Rattle.std.specs.Prelude.{◌≤◌, true, map, length, replicate};
ghost use Rattle.prin_term.specs.View.{grant, principal};
ghost use Rattle.stmt_codec.specs.Certificates.{live};
ghost use Rattle.stmt_codec.specs.View.{certificates};
ghost use Rattle.taos_calculus.specs.Monitor.{Grants};
ghost use Rattle.taos_calculus.specs.Question.{IsAskable};
ghost use Rattle.denial_link.specs.Revived.{claims, AsksWith};
ghost use Rattle.denial_link.specs.Keys.{AreMarked};
ghost use Rattle.denial_link.specs.Links.{FindsRevived};

use crate::first::first_before;
use crate::order::out_in_order;
use arrayvec::ArrayVec;
use prin_term::{Anchor, Entry, Term};
use std::sync::Arc;
use stmt_codec::Cert;
use taos_calculus::{Decide, MAX_CERTS};

// Marks at the live certificates and at those of the places.
fn marks_of(certs: &[Arc<Cert>], moment: u64, places: &[u8]) -> ArrayVec<bool, MAX_CERTS>
    requires { length certs.now ≤ MAX_CERTS }
    ensures { AreMarked (certificates certs.now) moment places.now
        (length certs.now) result.items }
{
    let mut marks = ArrayVec::new();
    for place in 0..certs.len() {
        marks.push(certs[place].is_live(moment) || places.contains(&(place as u8)));
    }
    marks
}

// The live certificates, and those at the places.
#[derive(Drop)]
struct Revived<'a> {
    certs: &'a [Arc<Cert>],
    moment: u64,
    places: &'a [u8],
}

// Asks about these.
fn ask_with<D: Decide>(
    bench: &mut D,
    anchors: &[Anchor],
    these: &Revived<'_>,
    subject: &Term,
    list: &[Entry],
)
    requires { IsAskable anchors.now (certificates these.now.certs.now)
        (replicate (length these.now.certs.now) true) (principal subject.now)
        (map grant list.now) }
    ensures { AsksWith (D.question bench.new) anchors.now (certificates these.now.certs.now)
        these.now.moment these.now.places.now (principal subject.now) (map grant list.now) }
{
    let marks = marks_of(these.certs, these.moment, these.places);
    bench.begin(anchors, these.certs, &marks, subject, list);
}

/// An entry, and the certificate that is not live with which its principal is derivable first.
#[derive(Clone, Copy)]
pub(crate) struct Revival {
    pub(crate) entry: u8,
    pub(crate) cert: u8,
}

/// The first entry with the right that all certificates together are enough for, with the first of
/// those that are not live with which the live ones are, all before it in their order taken too. They
/// are added one after the other, so that the decider may keep what it knows.
pub(crate) fn first_revived<D: Decide>(
    bench: &mut D,
    anchors: &[Anchor],
    certs: &[Arc<Cert>],
    moment: u64,
    subject: &Term,
    list: &[Entry],
    right: u8,
) -> Option<Revival>
    requires askable { IsAskable anchors.now (certificates certs.now)
        (replicate (length certs.now) true) (principal subject.now) (map grant list.now) }
    requires denied { Grants anchors.now (claims (live (certificates certs.now) moment))
        (principal subject.now) (map grant list.now) right → ⊥ }
    ensures { FindsRevived anchors.now (certificates certs.now) moment (principal subject.now)
        (map grant list.now) right result }
{
    let places = out_in_order(certs, moment);
    let mut end = list.len();
    let mut found = None;
    for n in 0..places.len() {
        let these = Revived {
            certs,
            moment,
            places: &places[..n + 1],
        };
        ask_with(bench, anchors, &these, subject, list);
        if let Some(entry) = first_before(bench, subject, list, right, end) {
            end = entry as usize;
            found = Some(Revival {
                entry,
                cert: places[n],
            });
        }
    }
    found
}
