//! The first missing, expired or early link.

ghost use Rattle.std.specs.Prelude.{◌≡◌, ◌≤◌, ℕ, true, map, length};
ghost use Rattle.std.specs.Prelude.{replicate, slice_get, Some};
ghost use Rattle.prin_term.specs.View.{Grant, grant, principal};
ghost use Rattle.stmt_codec.specs.Certificates.{live};
ghost use Rattle.stmt_codec.specs.View.{certificates};
ghost use Rattle.taos_calculus.specs.Monitor.{Grants};
ghost use Rattle.taos_calculus.specs.Question.{IsAskable, IsTermOf, MayAnswer, question_of};
ghost use Rattle.denial_link.specs.Revived.{claims};
ghost use Rattle.denial_link.specs.Links.{FindsBefore, FindsEntry, IsFirstLink};

use crate::link::Link;
use crate::part::lacking;
use crate::revive::{Revival, first_revived};
use prin_term::{Anchor, Entry, Term};
use std::sync::Arc;
use stmt_codec::Cert;
use taos_calculus::{Decide, MAX_CERTS};

/// The place of the first entry with the right.
pub fn first_with(list: &[Entry], right: u8) -> Option<u8>
    requires { length list.now ≤ 8 }
    ensures { FindsEntry (map grant list.now) right (λ e. Unit {0}) result }
{
    for place in 0..list.len() {
        if list[place].rights & right != 0 {
            return Some(place as u8);
        }
    }
    None
}

/// The first entry before this place with the right for whom the subject speaks, by what `bench` was
/// asked last. Takes no memory.
pub(crate) fn first_before<D: Decide>(
    bench: &mut D,
    subject: &Term,
    list: &[Entry],
    right: u8,
    end: usize,
) -> Option<u8>
    requires few { length list.now ≤ 8 }
    requires end_in { end ≤ length list.now }
    requires asking { IsTermOf (D.question bench.old) (principal subject.now) }
    requires asked { (k : ℕ) (e : Grant) → slice_get (map grant list.now) k ≡ Some e
        → IsTermOf (D.question bench.old) e.who }
    ensures found { FindsBefore (map grant list.now) right
        (λ e. MayAnswer (D.question bench.old) (principal subject.now) e.who) end result }
    ensures same { D.question bench.new ≡ D.question bench.old }
{
    for place in 0..end {
        let entry = &list[place];
        if entry.rights & right != 0 && bench.derives(subject, &entry.who) {
            return Some(place as u8);
        }
    }
    None
}

/// The first entry with the right for whom the subject speaks, by what `bench` was asked last: its
/// place in the list. Takes no memory.
pub fn first_derivable<D: Decide>(
    bench: &mut D,
    subject: &Term,
    list: &[Entry],
    right: u8,
) -> Option<u8>
    requires few { length list.now ≤ 8 }
    requires asking { IsTermOf (D.question bench.old) (principal subject.now) }
    requires asked { (k : ℕ) (e : Grant) → slice_get (map grant list.now) k ≡ Some e
        → IsTermOf (D.question bench.old) e.who }
    ensures found { FindsEntry (map grant list.now) right
        (λ e. MayAnswer (D.question bench.old) (principal subject.now) e.who) result }
    ensures same { D.question bench.new ≡ D.question bench.old }
{
    first_before(bench, subject, list, right, list.len())
}

/// What is missing where nothing is granted: that an entry has the right; or, where the
/// certificates that are not live would do, the first of these that is needed; or the first part of
/// the first entry with the right that nobody whom the subject names speaks for. Takes no memory. A
/// certificate is named by its place in `certs`, a part by its place in the entry, in pre-order.
pub fn first_link<D: Decide>(
    bench: &mut D,
    anchors: &[Anchor],
    certs: &[Arc<Cert>],
    moment: u64,
    subject: &Term,
    list: &[Entry],
    right: u8,
) -> Link
    requires askable { IsAskable anchors.now (certificates certs.now)
        (replicate (length certs.now) true) (principal subject.now) (map grant list.now) }
    requires denied { Grants anchors.now (claims (live (certificates certs.now) moment))
        (principal subject.now) (map grant list.now) right → ⊥ }
    ensures { IsFirstLink anchors.now (certificates certs.now) moment
        (principal subject.now) (map grant list.now) right result }
{
    let Some(first) = first_with(list, right) else {
        return Link::NoEntry;
    };
    if let Some(Revival { entry, cert }) = first_revived(
        bench, anchors, certs, moment, subject, list, right,
    ) {
        return if certs[cert as usize].is_dead(moment) {
            Link::Expired { entry, cert }
        } else {
            Link::Early { entry, cert }
        };
    }
    let all = [true; MAX_CERTS];
    bench.begin(anchors, certs, &all[..certs.len()], subject, list);
    let node = lacking(bench, subject, &list[first as usize].who);
    Link::Missing { entry: first, node }
}

/// The first link, where `bench` was asked last about all certificates: where each is live, it
/// was so by who looked for a grant, and nothing is decided anew. Takes no memory.
pub fn first_link_by_all<D: Decide>(
    bench: &mut D,
    anchors: &[Anchor],
    certs: &[Arc<Cert>],
    moment: u64,
    subject: &Term,
    list: &[Entry],
    right: u8,
) -> Link
    requires askable { IsAskable anchors.now (certificates certs.now)
        (replicate (length certs.now) true) (principal subject.now) (map grant list.now) }
    requires by_all { D.question bench.old ≡ question_of anchors.now (certificates certs.now)
        (replicate (length certs.now) true) (principal subject.now) (map grant list.now) }
    requires denied { Grants anchors.now (claims (live (certificates certs.now) moment))
        (principal subject.now) (map grant list.now) right → ⊥ }
    ensures { IsFirstLink anchors.now (certificates certs.now) moment
        (principal subject.now) (map grant list.now) right result }
{
    let Some(first) = first_with(list, right) else {
        return Link::NoEntry;
    };
    match first_derivable(bench, subject, list, right) {
        Some(_) => first_link(bench, anchors, certs, moment, subject, list, right),
        None => {
            let node = lacking(bench, subject, &list[first as usize].who);
            Link::Missing { entry: first, node }
        }
    }
}
