//! The verdict on an Ask that is to be judged.

ghost use Rattle.std.specs.Prelude.{◌≡◌, ◌≤◌, ◌↔◌, ℕ, true, map, length, replicate, All, IsTrue};
ghost use Rattle.prin_term.specs.View.{grant, principal};
ghost use Rattle.stmt_codec.specs.Certificates.{certificate, live, IsLive};
ghost use Rattle.stmt_codec.specs.View.{certificates};
ghost use Rattle.taos_calculus.specs.Monitor.{Grants};
ghost use Rattle.taos_calculus.specs.Question.{IsAskable, question_of};
ghost use Rattle.denial_link.specs.Revived.{claims};
ghost use Rattle.denial_link.specs.Links.{IsFirstLink};
ghost use Rattle.agent_core.specs.Views.{ask_of};
ghost use Rattle.agent_core.specs.Judged.{live_marks, live_question, FindsGrant, IsFirstGranted, IsGrant, Judges, MayBeJudged};

use crate::event::Ask;
use crate::told::Snapshot;
use arrayvec::ArrayVec;
use denial_link::{Link, first_derivable, first_link, first_link_by_all, first_with};
use prin_term::{Anchor, Entry, Term};
use std::sync::Arc;
use stmt_codec::Cert;
use taos_calculus::{Decide, MAX_CERTS};

/// What was found about a request: the first entry that grants it, or what a denial names.
#[derive(Clone, Copy, PartialEq, Eq)]
pub enum Decision {
    Granted { entry: u8 },
    Denied(Link),
}

// Which certificates are live.
fn marks_of(certs: &[Arc<Cert>], moment: u64) -> ArrayVec<bool, MAX_CERTS>
    requires { length certs.now ≤ MAX_CERTS }
    ensures { result.items ≡ live_marks (certificates certs.now) moment }
{
    let mut marks = ArrayVec::new();
    for cert in certs {
        marks.push(cert.is_live(moment));
    }
    marks
}

// The first entry with the right for whom the subject speaks, by the live certificates.
fn first_granted<D: Decide>(
    bench: &mut D,
    anchors: &[Anchor],
    certs: &[Arc<Cert>],
    moment: u64,
    subject: &Term,
    list: &[Entry],
    right: u8,
) -> Option<u8>
    requires { IsAskable anchors.now (certificates certs.now)
        (replicate (length certs.now) true) (principal subject.now) (map grant list.now) }
    ensures found { IsFirstGranted anchors.now (certificates certs.now) moment
        (principal subject.now) (map grant list.now) right result }
    ensures asked { D.question bench.new ≡ question_of anchors.now (certificates certs.now)
        (live_marks (certificates certs.now) moment) (principal subject.now) (map grant list.now) }
{
    let marks = marks_of(certs, moment);
    bench.begin(anchors, certs, &marks, subject, list);
    first_derivable(bench, subject, list, right)
}

/// The first entry of an Ask's list with the right for whom its subject speaks, by the live
/// certificates of what it was handed out: judged without a link. Takes no memory.
pub fn granting_entry<D: Decide>(
    bench: &mut D,
    anchors: &[Anchor],
    snapshot: &Snapshot,
    asked: &Ask,
) -> Option<u8>
    requires { MayBeJudged anchors.now snapshot.now (ask_of asked.now) }
    ensures found { FindsGrant anchors.now (certificates snapshot.now.certs.items)
        snapshot.now.moment (ask_of asked.now) result }

    // The decider stays asked about the live certificates.
    ensures asked { D.question bench.new ≡ live_question anchors.now
        (certificates snapshot.now.certs.items) snapshot.now.moment (ask_of asked.now) }
{
    first_granted(
        bench,
        anchors,
        &snapshot.certs,
        snapshot.moment,
        &asked.subject,
        &asked.list,
        asked.right,
    )
}

// Whether each is live.
fn are_live(certs: &[Arc<Cert>], moment: u64) -> bool
    ensures { IsTrue result ↔ All (IsLive moment) (certificates certs.now) }
{
    for cert in certs {
        if !cert.is_live(moment) {
            return false;
        }
    }
    true
}

// What is missing, where the live certificates grant nothing and the decider was asked about them.
// Where each is live, it is not asked again.
fn link_of<D: Decide>(
    bench: &mut D,
    anchors: &[Anchor],
    certs: &[Arc<Cert>],
    moment: u64,
    subject: &Term,
    list: &[Entry],
    right: u8,
) -> Link
    requires askable { IsAskable anchors.now (certificates certs.now)
        (replicate (length certs.now) true) (principal subject.now) (map grant list.now) }
    requires asked { D.question bench.old ≡ question_of anchors.now (certificates certs.now)
        (live_marks (certificates certs.now) moment) (principal subject.now) (map grant list.now) }
    requires denied { Grants anchors.now (claims (live (certificates certs.now) moment))
        (principal subject.now) (map grant list.now) right → ⊥ }
    ensures { IsFirstLink anchors.now (certificates certs.now) moment (principal subject.now)
        (map grant list.now) right result }
{
    if are_live(certs, moment) {
        first_link_by_all(bench, anchors, certs, moment, subject, list, right)
    } else {
        first_link(bench, anchors, certs, moment, subject, list, right)
    }
}

/// Judges an Ask by what it was handed out: the monitor's verdict on the live certificates, and
/// what is missing where it grants nothing. Nothing is decided where no entry has the right. Takes
/// no memory.
pub fn judge<D: Decide>(
    bench: &mut D,
    anchors: &[Anchor],
    snapshot: &Snapshot,
    asked: &Ask,
) -> Decision
    requires { MayBeJudged anchors.now snapshot.now (ask_of asked.now) }
    ensures verdict { Judges anchors.now (certificates snapshot.now.certs.items) snapshot.now.moment
        (ask_of asked.now) result }

    // Where it grants, the decider stays asked about the live certificates.
    ensures asked { IsGrant result → D.question bench.new ≡ live_question anchors.now
        (certificates snapshot.now.certs.items) snapshot.now.moment (ask_of asked.now) }
{
    let Some(_) = first_with(&asked.list, asked.right) else {
        return Decision::Denied(Link::NoEntry);
    };
    let certs = &snapshot.certs;
    let moment = snapshot.moment;
    match first_granted(
        bench,
        anchors,
        certs,
        moment,
        &asked.subject,
        &asked.list,
        asked.right,
    ) {
        Some(entry) => Decision::Granted { entry },
        None => Decision::Denied(link_of(
            bench,
            anchors,
            certs,
            moment,
            &asked.subject,
            &asked.list,
            asked.right,
        )),
    }
}
