//! That a program begins to serve, and that it has served.

ghost use Rattle.std.specs.Prelude.{◌≡◌, ◌++◌, IfOk, OnOk};
ghost use Rattle.node_telling.specs.Members.{line_of};
ghost use Rattle.node_telling.specs.Starts.{
  bound_members,
  ended_members,
  node_members,
  address_members,
  served_members,
  started_members,
};

use crate::texts::members::{put_first, put_number, put_short, put_some, put_text_if};
use crate::texts::notice::When;
use json::Writer;
use std::alloc::{AllocError, Global};
use std::fmt;

/// The node that is served: its number, how many channels, objects and shards it has, and how many entries
/// each journal may have.
#[derive(Clone, Copy)]
pub struct Served {
    pub node: u32,
    pub channels: u64,
    pub objects: u64,
    pub shards: u32,
    pub journal: u64,
}

/// How much a program serves, each where it has a bound.
#[derive(Clone, Copy)]
pub struct Bounds {
    pub lanes: u64,
    /// The clients that may be connected at a time.
    pub clients: Option<u32>,
    /// The connections of each lane.
    pub connections: Option<u64>,
    /// The frames of each connection.
    pub frames: Option<u64>,
    /// The seconds that a peer may be silent.
    pub idle: Option<u64>,
}

/// Where a program listens and whom it asks, each where there is one.
#[derive(Clone, Copy)]
pub struct Addresses<'a> {
    /// The addresses of its lanes as they were bound, joined by commas.
    pub listen: Option<&'a str>,
    pub relay: Option<&'a str>,
    pub wallet: Option<&'a str>,
    /// Where it answers what it has counted.
    pub page: Option<&'a str>,
}

/// A program begins to serve.
#[derive(Clone, Copy)]
pub struct Started<'a> {
    /// The seconds since 1970, where the clock told them.
    pub seconds: Option<u64>,
    /// What is served, where that is a node.
    pub served: Option<Served>,
    pub bounds: Bounds,
    pub addresses: Addresses<'a>,
}

/// A program has served, and ends with this exit status.
#[derive(Clone, Copy)]
pub struct Ended {
    pub seconds: Option<u64>,
    pub status: u8,
}

/// The pairs of the line, with a blank before each.
impl fmt::Display for Served {
    fn fmt<W: fmt::Write>(&self, f: &mut fmt::Formatter<W>) -> fmt::Result {
        let (node, channels, objects) = (self.node, self.channels, self.objects);
        write!(f, " node {node} channels {channels} objects {objects}")?;
        let (shards, journal) = (self.shards, self.journal);
        write!(f, " shards {shards} journal {journal}")
    }
}

/// The pairs of the line, with a blank before each.
impl fmt::Display for Bounds {
    fn fmt<W: fmt::Write>(&self, f: &mut fmt::Formatter<W>) -> fmt::Result {
        let lanes = self.lanes;
        write!(f, " lanes {lanes}")?;
        if let Some(clients) = self.clients {
            write!(f, " clients {clients}")?;
        }
        if let Some(connections) = self.connections {
            write!(f, " connections {connections}")?;
        }
        if let Some(frames) = self.frames {
            write!(f, " frames {frames}")?;
        }
        match self.idle {
            Some(idle) => write!(f, " idle {idle}"),
            None => Ok(()),
        }
    }
}

/// The pairs of the line, with a blank before each.
impl<'a> fmt::Display for Addresses<'a> {
    fn fmt<W: fmt::Write>(&self, f: &mut fmt::Formatter<W>) -> fmt::Result {
        if let Some(listen) = self.listen {
            write!(f, " listen {listen}")?;
        }
        if let Some(relay) = self.relay {
            write!(f, " relay {relay}")?;
        }
        if let Some(wallet) = self.wallet {
            write!(f, " wallet {wallet}")?;
        }
        match self.page {
            Some(page) => write!(f, " page {page}"),
            None => Ok(()),
        }
    }
}

/// The line, without its line feed.
impl<'a> fmt::Display for Started<'a> {
    fn fmt<W: fmt::Write>(&self, f: &mut fmt::Formatter<W>) -> fmt::Result {
        let time = When(self.seconds);
        write!(f, "taosd: {time} started")?;
        if let Some(served) = self.served {
            write!(f, "{served}")?;
        }
        let (bounds, addresses) = (self.bounds, self.addresses);
        write!(f, "{bounds}{addresses}")
    }
}

/// The line, without its line feed.
impl fmt::Display for Ended {
    fn fmt<W: fmt::Write>(&self, f: &mut fmt::Formatter<W>) -> fmt::Result {
        let (time, status) = (When(self.seconds), self.status);
        write!(f, "taosd: {time} ended status {status}")
    }
}

// What an `Err` leaves of the members is not said.
fn put_node(out: &mut Writer, served: Served) -> Result<(), AllocError>
    ensures kept { out.new.before ≡ out.old.before }
    ensures put { OnOk result (out.new.tokens ≡ out.old.tokens ++ node_members served) }
{
    put_number(out, "node", u64::from(served.node))?;
    put_number(out, "channels", served.channels)?;
    put_number(out, "objects", served.objects)?;
    put_number(out, "shards", u64::from(served.shards))?;
    put_number(out, "journal", served.journal)
}

fn put_served(out: &mut Writer, served: Option<Served>) -> Result<(), AllocError>
    ensures kept { out.new.before ≡ out.old.before }
    ensures put { OnOk result (out.new.tokens ≡ out.old.tokens ++ served_members served) }
{
    match served {
        Some(served) => put_node(out, served),
        None => Ok(()),
    }
}

fn put_bounds(out: &mut Writer, bounds: Bounds) -> Result<(), AllocError>
    ensures kept { out.new.before ≡ out.old.before }
    ensures put { OnOk result (out.new.tokens ≡ out.old.tokens ++ bound_members bounds) }
{
    put_number(out, "lanes", bounds.lanes)?;
    put_short(out, "clients", bounds.clients)?;
    put_some(out, "connections", bounds.connections)?;
    put_some(out, "frames", bounds.frames)?;
    put_some(out, "idle", bounds.idle)
}

fn put_addresses(out: &mut Writer, addresses: &Addresses<'_>) -> Result<(), AllocError>
    ensures kept { out.new.before ≡ out.old.before }
    ensures put { OnOk result (out.new.tokens ≡ out.old.tokens ++ address_members addresses.now) }
{
    put_text_if(out, "listen", addresses.listen)?;
    put_text_if(out, "relay", addresses.relay)?;
    put_text_if(out, "wallet", addresses.wallet)?;
    put_text_if(out, "page", addresses.page)
}

fn put_started(out: &mut Writer, started: &Started<'_>) -> Result<(), AllocError>
    ensures kept { out.new.before ≡ out.old.before }
    ensures put { OnOk result (out.new.tokens ≡ out.old.tokens ++ started_members started.now) }
{
    put_first(out, started.seconds, "info", "started")?;
    put_served(out, started.served)?;
    put_bounds(out, started.bounds)?;
    put_addresses(out, &started.addresses)
}

fn put_ended(out: &mut Writer, ended: &Ended) -> Result<(), AllocError>
    ensures kept { out.new.before ≡ out.old.before }
    ensures put { OnOk result (out.new.tokens ≡ out.old.tokens ++ ended_members ended.now) }
{
    put_first(out, ended.seconds, "info", "ended")?;
    put_number(out, "status", u64::from(ended.status))
}

/// The line that tells of the begin as JSON, with its line feed.
pub fn started_line(alloc: Global, started: &Started<'_>) -> Result<Vec<u8>, AllocError>
    ensures { IfOk result (λ line. line.items ≡ line_of (started_members started.now)) }
{
    let mut out = Writer::new(Vec::new(alloc));
    out.begin_object()?;
    put_started(&mut out, started)?;
    out.end_object()?;
    let mut line = out.into_inner();
    line.push(b'\n')?;
    Ok(line)
}

/// The line that tells of the end as JSON, with its line feed.
pub fn ended_line(alloc: Global, ended: &Ended) -> Result<Vec<u8>, AllocError>
    ensures { IfOk result (λ line. line.items ≡ line_of (ended_members ended.now)) }
{
    let mut out = Writer::new(Vec::new(alloc));
    out.begin_object()?;
    put_ended(&mut out, ended)?;
    out.end_object()?;
    let mut line = out.into_inner();
    line.push(b'\n')?;
    Ok(line)
}
