//! What was ruled on a request, and what became of a grant, as a line of JSON.

ghost use Rattle.std.specs.Prelude.{◌≡◌, ◌++◌, IfOk, OnOk};
ghost use Rattle.taos_wire.specs.View.{request as asked};
ghost use Rattle.node_telling.specs.Decisions.{decision_members, ruled_word};
ghost use Rattle.node_telling.specs.Members.{line_of};
ghost use Rattle.node_telling.specs.Replies.{IsEntry};

use crate::texts::asked::put_asked;
use crate::texts::members::{put_first, put_number, put_peer};
use crate::texts::notices::put_reply;
use crate::texts::reply::ReplyFront;
use json::Writer;
use prin_text::Names;
use std::alloc::{AllocError, Global};
use std::net::SocketAddr;
use taos_wire::Request;

/// A request that was ruled on, and the front of its reply.
#[derive(Clone, Copy)]
pub struct Decision<'a> {
    /// The seconds since 1970, where the clock told them.
    pub seconds: Option<u64>,
    /// The lane, counted from 0.
    pub lane: usize,
    pub peer: Option<SocketAddr>,
    pub request: &'a Request,
    pub front: ReplyFront,
}

fn ruled_of(front: ReplyFront) -> &'static str
    ensures { result.now ≡ ruled_word front }
{
    if front.head.is_grant() {
        return "granted";
    }
    match front.head.is_denial() {
        true => "denied",
        false => "not-done",
    }
}

// What an `Err` leaves of the members is not said.
fn put_decision(
    alloc: Global,
    out: &mut Writer,
    names: &Names,
    decision: Decision<'_>,
) -> Result<(), AllocError>
    ensures kept { out.new.before ≡ out.old.before }
    ensures put { OnOk result (out.new.tokens ≡ out.old.tokens
        ++ decision_members names.now decision.entry.seconds decision.entry.lane decision.entry.peer
        (asked decision.entry.request.now) decision.entry.front) }
{
    put_first(out, decision.seconds, "info", ruled_of(decision.front))?;
    put_number(out, "lane", decision.lane as u64)?;
    put_peer(alloc, out, decision.peer)?;
    put_asked(alloc, out, names, decision.request)?;
    put_reply(out, decision.front)
}

/// The line of a ruling as JSON, with its line feed. A principal is told by these names.
pub fn decision_line(
    alloc: Global,
    names: &Names,
    decision: Decision<'_>,
) -> Result<Vec<u8>, AllocError>
    // It is a grant, a denial, or what was granted and not done, or not whole.
    requires ruled { IsEntry decision.front.head }
    ensures { IfOk result (λ line. line.items ≡ line_of
        (decision_members names.now decision.entry.seconds decision.entry.lane decision.entry.peer
        (asked decision.entry.request.now) decision.entry.front)) }
{
    let mut out = Writer::new(Vec::new(alloc));
    out.begin_object()?;
    put_decision(alloc, &mut out, names, decision)?;
    out.end_object()?;
    let mut line = out.into_inner();
    line.push(b'\n')?;
    Ok(line)
}
