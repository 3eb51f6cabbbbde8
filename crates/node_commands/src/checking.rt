//! Looking over a request and its reply.

ghost use Rattle.std.specs.Prelude.{◌≡◌, ◌↔◌, ◌≤◌, List, ℕ, Option, IfErr, IfOk, IsTrue, length, map};
ghost use Rattle.std.specs.Option.{option_copied};
ghost use Rattle.prin_term.specs.View.{grant, principal};
ghost use Rattle.taos_calculus.specs.Tables.{lines_of};
ghost use Rattle.taos_wire.specs.Reply.{FitsReply};
ghost use Rattle.taos_wire.specs.View.{cited, reply as reply_is, request as request_is};
ghost use Rattle.node_file.specs.Meaning.{opening};
ghost use Rattle.node_file.specs.Opening.{Opening as Node};
ghost use Rattle.node_commands.specs.Checking.{Concludes, Finds, FindsOfGrant, HasAsked, IsBelieved, IsEntryAt, OnConclusion, RefusesAt, Stops};
ghost use Rattle.node_commands.specs.declared.finding.Finding.{Finding as Found};

use crate::finding::{CheckWord, Finding};
use keyed_seal::Sealer;
use node_file::Opening;
use object_core::right_of;
use prin_term::{Entry, Term};
use std::alloc::{AllocError, Global};
use std::sync::Arc;
use stmt_codec::{Cert, speaker_of};
use taos_calculus::{Conclusion, Proof, check_proof};
use taos_wire::{MAX_CITED, Reply, Request, WireFault, read_reply, read_request, sealed_with};

// Why no more is looked at.
#[derive(Clone, Copy)]
pub(crate) enum Stop {
    Wrong(CheckWord),
    NoMemory,
}

// The request of the first frame, and the key that it is sealed under.
fn asked_of<'a>(
    alloc: Global,
    node: &'a Opening,
    frame: Option<&[u8]>,
) -> Result<(Request, &'a Sealer), Stop>
    ensures asked { IfOk result (λ x.
        HasAsked (opening node.now) (option_copied frame.entry) (request_is x.0) x.1.now) }
    ensures stops { IfErr result (λ stop. (p : Option (List ℕ))
        → Stops (opening node.now) (option_copied frame.entry) p stop) }
{
    let Some(payload) = frame else {
        return Err(Stop::Wrong(CheckWord::Request));
    };
    let asked = match read_request(alloc, payload) {
        Ok(asked) => asked,
        Err(WireFault::Malformed { .. }) => return Err(Stop::Wrong(CheckWord::Request)),
        Err(WireFault::NoMemory) => return Err(Stop::NoMemory),
    };
    let Some(sealer) = node.channels.sealer(asked.channel) else {
        return Err(Stop::Wrong(CheckWord::Channel));
    };
    if !sealed_with(sealer, payload) {
        return Err(Stop::Wrong(CheckWord::RequestSeal));
    }
    Ok((asked, sealer))
}

fn echoes(asked: &Request, channel: u32, seq: u64) -> bool
    ensures { IsTrue result ↔ ((channel ≡ asked.now.channel) × (seq ≡ asked.now.seq)) }
{
    channel == asked.channel && seq == asked.seq
}

// The reply of the second frame, where it is to the request and sealed under the same key.
fn replied_of(
    alloc: Global,
    frame: Option<&[u8]>,
    asked: &Request,
    sealer: &Sealer,
) -> Result<Reply, Stop>
    ensures believed { IfOk result (λ a. (o : Node) (q : Option (List ℕ))
        → HasAsked o q (request_is asked.now) sealer.now
        → IsBelieved o q (option_copied frame.entry) (request_is asked.now) sealer.now
        (reply_is a)) }
    ensures fits { IfOk result (λ a. FitsReply (reply_is a)) }
    ensures stops { IfErr result (λ stop. (o : Node) (q : Option (List ℕ))
        → HasAsked o q (request_is asked.now) sealer.now
        → Stops o q (option_copied frame.entry) stop) }
{
    let Some(bytes) = frame else {
        return Err(Stop::Wrong(CheckWord::Reply));
    };
    let (channel, seq, answer) = match read_reply(alloc, bytes) {
        Ok(read) => read,
        Err(WireFault::Malformed { .. }) => return Err(Stop::Wrong(CheckWord::Reply)),
        Err(WireFault::NoMemory) => return Err(Stop::NoMemory),
    };
    if !echoes(asked, channel, seq) {
        return Err(Stop::Wrong(CheckWord::Echo));
    }
    if !sealed_with(sealer, bytes) {
        return Err(Stop::Wrong(CheckWord::ReplySeal));
    }
    Ok(answer)
}

// The entry by which a grant is given, where it has the right.
fn entry_of<'a>(node: &'a Opening, asked: &Request, place: u8) -> Result<&'a Entry, CheckWord>
    ensures stands { IfOk result
        (λ entry. IsEntryAt (opening node.now) (request_is asked.now) place (grant entry.now)) }
    ensures stops { IfErr result (RefusesAt (opening node.now) (request_is asked.now) place) }
{
    let Some(plan) = node.objects.get(asked.object) else {
        return Err(CheckWord::Object);
    };
    let Some(entry) = plan.list.get(place as usize) else {
        return Err(CheckWord::Entry);
    };
    if entry.rights & right_of(&asked.op) == 0 {
        return Err(CheckWord::Entry);
    }
    Ok(entry)
}

// A grant by that entry, with what is counted of its proof.
fn granted(place: u8, proof: &Proof, certs: &[Arc<Cert>]) -> Finding
    requires { length certs.now ≤ MAX_CITED }
    ensures { result ≡ Finding.Granted place (length (lines_of proof.now))
        (length (map cited certs.now)) }
{
    Finding::Granted {
        entry: place,
        lines: proof.lines().len() as u32,
        certs: certs.len() as u8,
    }
}

// Whether the conclusion of a proof is that the one speaks for the other.
fn concludes(proof: &Proof, conclusion: Conclusion, subject: &Term, who: &Term) -> bool
    ensures yes { IsTrue result
        → Concludes proof.now conclusion (principal subject.now) (principal who.now) }
    ensures no { OnConclusion proof.now conclusion (principal subject.now) (principal who.now)
        (IsTrue result) }
{
    proof.node_is(conclusion.left, subject) && proof.node_is(conclusion.right, who)
}

// What comes of the proof of a grant by an entry that has the right.
fn judged(
    node: &Opening,
    subject: &Term,
    place: u8,
    entry: &Entry,
    proof: &Proof,
    certs: &[Arc<Cert>],
) -> Finding
    requires { length certs.now ≤ MAX_CITED }
    ensures { FindsOfGrant (opening node.now) (principal subject.now) place (lines_of proof.now)
        (map cited certs.now) (grant entry.now) result }
{
    let Ok(conclusion) = check_proof(&node.anchors, certs, proof) else {
        return Finding::Refused(CheckWord::Proof);
    };
    if !concludes(proof, conclusion, subject, &entry.who) {
        return Finding::Refused(CheckWord::Conclusion);
    }
    granted(place, proof, certs)
}

// What is found in a reply that is believed.
fn ruled(
    alloc: Global,
    node: &Opening,
    asked: &Request,
    answer: &Reply,
) -> Result<Finding, AllocError>
    requires { FitsReply (reply_is answer.now) }
    ensures { IfOk result (λ finding. (q p : Option (List ℕ)) (key : List ℕ)
        → IsBelieved (opening node.now) q p (request_is asked.now) key (reply_is answer.now)
        → Finds (opening node.now) q p finding) }
{
    let Reply::Granted {
        entry: place,
        proof,
        certs,
        ..
    } = answer
    else {
        return Ok(Finding::Refused(CheckWord::Status));
    };
    let entry = match entry_of(node, asked, *place) {
        Ok(entry) => entry,
        Err(word) => return Ok(Finding::Refused(word)),
    };
    let subject = speaker_of(alloc, asked.channel, &asked.quoted)?;
    Ok(judged(node, &subject, *place, entry, proof, certs))
}

fn told(stop: Stop) -> Result<Finding, AllocError>
    ensures { (o : Node) (q p : Option (List ℕ)) → Stops o q p stop → IfOk result (Finds o q p) }
{
    match stop {
        Stop::Wrong(word) => Ok(Finding::Refused(word)),
        Stop::NoMemory => Err(AllocError),
    }
}

/// What is found in the payloads of a request's frame and its reply's, where these are there: the
/// first thing that is wrong, or a grant that its proof bears out. No clock is read, and nothing
/// that is sealed in the reply is opened: it is the node's word.
pub fn check_frames(
    alloc: Global,
    node: &Opening,
    request: Option<&[u8]>,
    reply: Option<&[u8]>,
) -> Result<Finding, AllocError>
    ensures { IfOk result
        (Finds (opening node.now) (option_copied request.entry) (option_copied reply.entry)) }
{
    let (asked, sealer) = match asked_of(alloc, node, request) {
        Ok(found) => found,
        Err(stop) => return told(stop),
    };
    let answer = match replied_of(alloc, reply, &asked, sealer) {
        Ok(answer) => answer,
        Err(stop) => return told(stop),
    };
    ruled(alloc, node, &asked, &answer)
}

/// Two frames show one finding: what is wrong first leaves no other, and a grant neither.
pub fn one_finding()
    ensures { (o : Node) (q p : Option (List ℕ)) (a b : Found) → Finds o q p a →
        Finds o q p b → a ≡ b }
{}
