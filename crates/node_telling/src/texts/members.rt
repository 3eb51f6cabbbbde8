//! The members of the objects that lines of JSON are.

ghost use Rattle.std.specs.Prelude.{◌≡◌, ◌++◌, OnOk};
ghost use Rattle.std.specs.Option.{option_map};
ghost use Rattle.node_telling.specs.Members.{
  counted,
  counted_if,
  first_members,
  peer_members,
  worded,
  worded_if,
};

use json::Writer;
use std::alloc::{AllocError, Global};
use std::net::SocketAddr;

// Each of these appends members, and what an `Err` leaves of them is not said.
pub(crate) fn put_number(out: &mut Writer, name: &str, value: u64) -> Result<(), AllocError>
    ensures kept { out.new.before ≡ out.old.before }
    ensures put { OnOk result (out.new.tokens ≡ out.old.tokens ++ counted name.now value) }
{
    out.key(name)?;
    out.u64(value)
}

pub(crate) fn put_text(out: &mut Writer, name: &str, value: &str) -> Result<(), AllocError>
    ensures kept { out.new.before ≡ out.old.before }
    ensures put { OnOk result (out.new.tokens ≡ out.old.tokens ++ worded name.now value.now) }
{
    out.key(name)?;
    out.string(value)
}

pub(crate) fn put_text_if(
    out: &mut Writer,
    name: &str,
    value: Option<&str>,
) -> Result<(), AllocError>
    ensures kept { out.new.before ≡ out.old.before }
    ensures put { OnOk result (out.new.tokens
        ≡ out.old.tokens ++ worded_if name.now (option_map (λ t. t.now) value.entry)) }
{
    match value {
        Some(value) => put_text(out, name, value),
        None => Ok(()),
    }
}

pub(crate) fn put_some(out: &mut Writer, name: &str, value: Option<u64>) -> Result<(), AllocError>
    ensures kept { out.new.before ≡ out.old.before }
    ensures put { OnOk result (out.new.tokens ≡ out.old.tokens ++ counted_if name.now value) }
{
    match value {
        Some(value) => put_number(out, name, value),
        None => Ok(()),
    }
}

pub(crate) fn put_short(out: &mut Writer, name: &str, value: Option<u32>) -> Result<(), AllocError>
    ensures kept { out.new.before ≡ out.old.before }
    ensures put { OnOk result (out.new.tokens ≡ out.old.tokens ++ counted_if name.now value) }
{
    match value {
        Some(value) => put_number(out, name, u64::from(value)),
        None => Ok(()),
    }
}

pub(crate) fn put_byte(out: &mut Writer, name: &str, value: Option<u8>) -> Result<(), AllocError>
    ensures kept { out.new.before ≡ out.old.before }
    ensures put { OnOk result (out.new.tokens ≡ out.old.tokens ++ counted_if name.now value) }
{
    match value {
        Some(value) => put_number(out, name, u64::from(value)),
        None => Ok(()),
    }
}

pub(crate) fn put_peer(
    alloc: Global,
    out: &mut Writer,
    peer: Option<SocketAddr>,
) -> Result<(), AllocError>
    ensures kept { out.new.before ≡ out.old.before }
    ensures put { OnOk result (out.new.tokens ≡ out.old.tokens ++ peer_members peer) }
{
    match peer {
        Some(peer) => {
            let text = peer.to_string(alloc)?;
            put_text(out, "peer", text.as_str())
        }
        None => Ok(()),
    }
}

// When it was, how much it weighs, and its word.
pub(crate) fn put_first(
    out: &mut Writer,
    seconds: Option<u64>,
    level: &str,
    word: &str,
) -> Result<(), AllocError>
    ensures kept { out.new.before ≡ out.old.before }
    ensures put { OnOk result (out.new.tokens
        ≡ out.old.tokens ++ first_members seconds level.now word.now) }
{
    put_some(out, "time", seconds)?;
    put_text(out, "level", level)?;
    put_text(out, "event", word)
}
