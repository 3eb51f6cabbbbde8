//! Notices as lines of JSON.

ghost use Rattle.std.specs.Prelude.{◌≡◌, ◌++◌, IfOk, OnOk};
ghost use Rattle.node_telling.specs.Members.{line_of};
ghost use Rattle.node_telling.specs.NoticeLines.{
  happening_members,
  journal_members,
  left_out_members,
  link_members,
  named_members,
  notice_members,
  reply_members,
  request_members,
  who_members,
};

use crate::texts::asked::put_asked;
use crate::texts::journal::Journal;
use crate::texts::members::{
    put_byte, put_first, put_number, put_peer, put_short, put_some, put_text,
};
use crate::texts::notice::{Happening, LeftOut, Notice};
use crate::texts::reply::{ReplyFront, link_word_of, names_request};
use json::Writer;
use prin_text::Names;
use std::alloc::{AllocError, Global};
use taos_wire::ReplyHead;

// The request that a reply names. What an `Err` leaves of the members is not said, here and below.
fn put_request(out: &mut Writer, head: ReplyHead) -> Result<(), AllocError>
    ensures kept { out.new.before ≡ out.old.before }
    ensures put { OnOk result (out.new.tokens ≡ out.old.tokens ++ request_members head) }
{
    if !names_request(&head) {
        return Ok(());
    }
    put_number(out, "channel", u64::from(head.channel))?;
    put_number(out, "number", head.number)
}

// The request that a happening names, where it is a reply.
fn put_named(out: &mut Writer, what: Happening) -> Result<(), AllocError>
    ensures kept { out.new.before ≡ out.old.before }
    ensures put { OnOk result (out.new.tokens ≡ out.old.tokens ++ named_members what) }
{
    match what {
        Happening::Replied(front) => put_request(out, front.head),
        Happening::NotResealed { .. }
        | Happening::Broken(_)
        | Happening::RelayFailed
        | Happening::FetchFailed
        | Happening::ClockFailed
        | Happening::Scarce
        | Happening::Full
        | Happening::Filling { .. } => Ok(()),
    }
}

// Who asked what, where that is known, or else which request it was.
fn put_who(
    alloc: Global,
    out: &mut Writer,
    names: &Names,
    notice: &Notice,
) -> Result<(), AllocError>
    ensures kept { out.new.before ≡ out.old.before }
    ensures put { OnOk result (out.new.tokens ≡ out.old.tokens
        ++ who_members names.now notice.now.request notice.now.what) }
{
    match &notice.request {
        Some(request) => put_asked(alloc, out, names, request),
        None => put_named(out, notice.what),
    }
}

// What a denial says that lacks.
fn put_link(out: &mut Writer, link: Option<u8>) -> Result<(), AllocError>
    ensures kept { out.new.before ≡ out.old.before }
    ensures put { OnOk result (out.new.tokens ≡ out.old.tokens ++ link_members link) }
{
    match link {
        Some(kind) => put_text(out, "link", link_word_of(kind)),
        None => Ok(()),
    }
}

// What a reply says but of its request.
pub(crate) fn put_reply(out: &mut Writer, front: ReplyFront) -> Result<(), AllocError>
    ensures kept { out.new.before ≡ out.old.before }
    ensures put { OnOk result (out.new.tokens ≡ out.old.tokens ++ reply_members front) }
{
    put_short(out, "channel", front.head.unknown)?;
    put_number(out, "status", u64::from(front.head.status))?;
    put_link(out, front.link)?;
    put_byte(out, "code", front.code)?;
    put_short(out, "shard", front.head.shard)?;
    put_some(out, "place", front.head.place)
}

fn put_journal(out: &mut Writer, journal: Journal) -> Result<(), AllocError>
    ensures kept { out.new.before ≡ out.old.before }
    ensures put { OnOk result (out.new.tokens ≡ out.old.tokens ++ journal_members journal) }
{
    match journal {
        Journal::Shard(shard) => put_number(out, "shard", u64::from(shard)),
        Journal::Object(object) => put_number(out, "object", u64::from(object)),
    }
}

fn put_happening(out: &mut Writer, what: Happening) -> Result<(), AllocError>
    ensures kept { out.new.before ≡ out.old.before }
    ensures put { OnOk result (out.new.tokens ≡ out.old.tokens ++ happening_members what) }
{
    match what {
        Happening::Replied(front) => put_reply(out, front),
        Happening::NotResealed { code } => put_number(out, "code", u64::from(code)),
        Happening::Broken(why) => put_text(out, "cause", why.word()),
        Happening::Filling { journal, entries } => {
            put_journal(out, journal)?;
            put_number(out, "entries", entries)
        }
        Happening::RelayFailed
        | Happening::FetchFailed
        | Happening::ClockFailed
        | Happening::Scarce
        | Happening::Full => Ok(()),
    }
}

fn put_notice(
    alloc: Global,
    out: &mut Writer,
    names: &Names,
    notice: &Notice,
) -> Result<(), AllocError>
    ensures kept { out.new.before ≡ out.old.before }
    ensures put { OnOk result (out.new.tokens
        ≡ out.old.tokens ++ notice_members names.now notice.now) }
{
    put_first(out, notice.seconds, notice.what.level(), notice.what.word())?;
    put_number(out, "lane", notice.lane as u64)?;
    put_peer(alloc, out, notice.peer)?;
    put_who(alloc, out, names, notice)?;
    put_happening(out, notice.what)
}

fn put_left_out(out: &mut Writer, left_out: &LeftOut) -> Result<(), AllocError>
    ensures kept { out.new.before ≡ out.old.before }
    ensures put { OnOk result (out.new.tokens
        ≡ out.old.tokens ++ left_out_members left_out.now) }
{
    put_first(out, left_out.seconds, "warning", "left-out")?;
    put_number(out, "lines", left_out.count)
}

/// The line of a notice as JSON, with its line feed: one object, whose members stand in the order of the
/// line that is a text. A principal is told by these names.
pub fn notice_line(alloc: Global, names: &Names, notice: &Notice) -> Result<Vec<u8>, AllocError>
    ensures { IfOk result (λ line. line.items ≡ line_of (notice_members names.now notice.now)) }
{
    let mut out = Writer::new(Vec::new(alloc));
    out.begin_object()?;
    put_notice(alloc, &mut out, names, notice)?;
    out.end_object()?;
    let mut line = out.into_inner();
    line.push(b'\n')?;
    Ok(line)
}

/// The line that counts the notices for which there was no line.
pub fn left_out_line(alloc: Global, left_out: &LeftOut) -> Result<Vec<u8>, AllocError>
    ensures { IfOk result (λ line. line.items ≡ line_of (left_out_members left_out.now)) }
{
    let mut out = Writer::new(Vec::new(alloc));
    out.begin_object()?;
    put_left_out(&mut out, left_out)?;
    out.end_object()?;
    let mut line = out.into_inner();
    line.push(b'\n')?;
    Ok(line)
}
