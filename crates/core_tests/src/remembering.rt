//! That a lemma is kept where it rests on anchors and on what is common alone, and serves while what it cites is chosen.

ghost use Rattle.std.specs.Prelude.{◌≡◌, IfOk};
ghost use Rattle.prin_term.specs.View.{principal};

use goal_search::Workbench;
use lemma_memo::{Lemmas, MAX_LEMMAS};
use prin_term::{Anchor, ENTRY_NODES, Entry, MAX_DEPTH, Term};
use std::alloc::Global;
use std::sync::Arc;
use std::test::Fail;
use stmt_codec::{Cert, CertBody};
use taos_calculus::{Decide, MAX_CERTS};

// Key 1 is alice's, who has the name 10, and key 3 is bob's, who has the name 30.
const ANCHORS: &[Anchor] = &[Anchor { key: 1, name: 10 }, Anchor { key: 3, name: 30 }];

// An issuer's key, and the key to which it hands the name.
type HandOff = (u32, u32, u32);

const ALICE: HandOff = (1, 2, 10);

const BOB: HandOff = (3, 4, 30);

// The certificates, which of them are chosen, the key that asks, for which name, how many lines the proof
// has, where there is one, and how many lemmas are held then.
type Turn = (
    &'static [HandOff],
    &'static [bool],
    u32,
    u32,
    Option<usize>,
    usize,
);

const BY_ALICE: Turn = (&[ALICE], &[true], 2, 10, Some(4), 1);

const BY_BOB: Turn = (&[ALICE, BOB], &[true, true], 4, 30, Some(4), 1);

// Her certificate stands at another place.
const BEHIND: Turn = (&[BOB, ALICE], &[false, true], 2, 10, Some(4), 1);

// It is there, and not chosen.
const GONE: Turn = (&[ALICE], &[false], 2, 10, None, 1);

// What is shown, the room, the commons, and the questions.
type Talk = (&'static str, usize, &'static [HandOff], &'static [Turn]);

const TALKS: &[Talk] = &[
    (
        "a lemma serves where its certificate is",
        1,
        &[ALICE],
        &[BY_ALICE, BY_ALICE, BEHIND, GONE, BY_ALICE],
    ),
    (
        "what rests on another certificate is no lemma",
        1,
        &[],
        &[
            (&[ALICE], &[true], 2, 10, Some(4), 0),
            (&[], &[], 1, 10, Some(1), 1),
        ],
    ),
    (
        "the one used last stays where there is room for one",
        1,
        &[ALICE, BOB],
        &[BY_ALICE, BY_BOB, BY_ALICE, BY_BOB],
    ),
    (
        "both stay where there is room for two",
        2,
        &[ALICE, BOB],
        &[BY_ALICE, (&[ALICE, BOB], &[true, true], 4, 30, Some(4), 2)],
    ),
    (
        "without room there is no lemma",
        0,
        &[ALICE],
        &[(&[ALICE], &[true], 2, 10, Some(4), 0)],
    ),
];

fn certs(alloc: Global, rows: &[HandOff]) -> Result<Vec<Arc<Cert>>, Fail> {
    let mut certs = Vec::new(alloc);
    for &(issuer, key, name) in rows {
        let body = CertBody::says(issuer, None, Term::Key(key), Term::Name(name), 5000, 1);
        certs.push(Arc::new(alloc, Cert::of(alloc, body)?)?)?;
    }
    Ok(certs)
}

fn copied(alloc: Global, who: &Term) -> Result<Term, Fail>
    ensures { IfOk result (λ t. principal t ≡ principal who.now) }
{
    Ok(who.copy(alloc)?)
}

// How many lines the decider's proof has, where it answers yes.
fn answers<D: Decide>(
    alloc: Global,
    decider: &mut D,
    certs: &[Arc<Cert>],
    chosen: &[bool],
    subject: &Term,
    who: &Term,
) -> Result<Option<usize>, Fail> {
    if certs.len() > MAX_CERTS || chosen.len() != certs.len() {
        return Err("too many".into());
    }
    if !subject.fits(ENTRY_NODES, MAX_DEPTH) || !who.fits(ENTRY_NODES, MAX_DEPTH) {
        return Err("too large".into());
    }
    let copied = copied(alloc, who)?;
    let list = [Entry {
        rights: 1,
        who: copied,
    }];
    decider.begin(ANCHORS, certs, chosen, subject, &list);
    if !decider.derives(subject, who) {
        return Ok(None);
    }
    let taken = decider.take_proof(alloc, subject, who)?;
    Ok(Some(taken.proof.lines().len()))
}

// A decider that remembers what it proved from the certificates.
fn remembering(
    alloc: Global,
    room: usize,
    commons: &[Arc<Cert>],
) -> Result<Lemmas<Workbench>, Fail> {
    if room > MAX_LEMMAS || commons.len() > MAX_CERTS {
        return Err("too many".into());
    }
    let anchors = Arc::new(alloc, ANCHORS.to_vec(alloc)?)?;
    let bench = Workbench::reserve(alloc)?;
    Ok(Lemmas::new(bench, alloc, room, anchors, commons)?)
}

// Whether it answers one question after the other as it should, and holds so many lemmas after each.
fn is_remembered(alloc: Global, talk: Talk) -> Result<bool, Fail> {
    let (_, room, commons, turns) = talk;
    let mut decider = remembering(alloc, room, &certs(alloc, commons)?)?;
    for &(rows, chosen, key, name, lines, held) in turns {
        let certs = certs(alloc, rows)?;
        let (subject, who) = (Term::Key(key), Term::Name(name));
        let answer = answers(alloc, &mut decider, &certs, chosen, &subject, &who)?;
        if answer != lines || decider.held() != held {
            return Ok(false);
        }
    }
    Ok(true)
}

#[test]
fn what_rests_on_anchors_and_commons_alone_is_remembered(rt: HostRuntime) -> Result<(), Fail> {
    for &talk in TALKS {
        assert!(rt; is_remembered(rt.alloc(), talk)?, "{}", talk.0);
    }
    Ok(())
}
