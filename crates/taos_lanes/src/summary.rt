//! What the lanes of a node counted, and the line that tells it.

ghost use Rattle.std.specs.Prelude.{◌≡◌, ◌+◌, ◌≤◌, ◌++◌, count_by, decimal, length, map, not};
ghost use Rattle.object_core.specs.Objects.{is_grant};
ghost use Rattle.object_core.specs.ObjectView.{object_entry};
ghost use Rattle.taos_lanes.specs.Serving.{left_by};
ghost use Rattle.taos_lanes.specs.Summary.{denials_of, drill_line, entries_of, grants_of, lanes_line, relays_line};

use crate::{Served, Total};
use arrayvec::ArrayVec;
use itoa::Buffer;
use object_core::{Object, ObjectEntry, Ruling};
use shard_core::Shard;

/// A line has no more bytes than this.
pub const MAX_LINE: usize = 256;

// Whether a request was granted.
fn is_grant(ruling: Ruling) -> bool
    ensures { result ≡ is_grant ruling }
{
    match ruling {
        Ruling::Granted { .. } => true,
        Ruling::Denied => false,
    }
}

fn grants_among(journal: &[ObjectEntry]) -> usize
    ensures value { result ≡ count_by (λ e. is_grant e.ruling) (map object_entry journal.now) }
    ensures few { result ≤ length journal.now }
{
    let mut count = 0;
    for entry in journal {
        count += is_grant(entry.ruling) as usize;
    }
    count
}

fn denials_among(journal: &[ObjectEntry]) -> usize
    ensures value { result
        ≡ count_by (λ e. not (is_grant e.ruling)) (map object_entry journal.now) }
    ensures few { result ≤ length journal.now }
{
    let mut count = 0;
    for entry in journal {
        count += !is_grant(entry.ruling) as usize;
    }
    count
}

// The entries of all shards' journals.
fn entries_in(shards: &[Shard]) -> u128
    ensures { result ≡ entries_of shards.now }
{
    let mut count = 0;
    for shard in shards {
        count += shard.journal().len() as u128;
    }
    count
}

// The granted entries of all objects' journals.
fn grants_in(objects: &[Object]) -> u128
    ensures { result ≡ grants_of objects.now }
{
    let mut count = 0;
    for object in objects {
        count += grants_among(object.journal()) as u128;
    }
    count
}

// The denied ones.
fn denials_in(objects: &[Object]) -> u128
    ensures { result ≡ denials_of objects.now }
{
    let mut count = 0;
    for object in objects {
        count += denials_among(object.journal()) as u128;
    }
    count
}

/// A number behind its name.
pub fn add_number(line: &mut ArrayVec<u8, MAX_LINE>, name: &[u8], number: u128)
    requires { length line.old.items + length name.now + 40 ≤ MAX_LINE }
    ensures text { line.new.items ≡ line.old.items ++ name.now ++ decimal number }
    ensures few { length line.new.items ≤ length line.old.items + length name.now + 40 }
{
    let mut digits = Buffer::new();
    line.try_extend_from_slice(name).unwrap();
    line.try_extend_from_slice(digits.format(number).as_bytes())
        .unwrap();
}

/// The line that tells what the lanes of a node counted.
pub fn lanes_line(served: &Served) -> ArrayVec<u8, MAX_LINE>
    ensures { result.items ≡ lanes_line (left_by served.now) }
{
    let mut line = ArrayVec::new();
    add_number(&mut line, b"connections ", served.total.served);
    add_number(&mut line, b" broken ", served.total.broken);
    add_number(&mut line, b" entries ", entries_in(&served.shards));
    add_number(&mut line, b" grants ", grants_in(&served.objects));
    add_number(&mut line, b" denials ", denials_in(&served.objects));
    line.try_extend_from_slice(b"\n").unwrap();
    line
}

/// The line that tells what the lanes of a relay counted.
pub fn relays_line(total: Total) -> ArrayVec<u8, MAX_LINE>
    ensures { result.items ≡ relays_line total }
{
    let mut line = ArrayVec::new();
    add_number(&mut line, b"connections ", total.served);
    add_number(&mut line, b" broken ", total.broken);
    line.try_extend_from_slice(b"\n").unwrap();
    line
}

/// The line that tells what a drill of so many requests came to.
pub fn drill_line(requests: u32, served: &Served) -> ArrayVec<u8, MAX_LINE>
    ensures { result.items ≡ drill_line requests (left_by served.now) }
{
    let mut line = ArrayVec::new();
    add_number(&mut line, b"requests ", requests as u128);
    add_number(&mut line, b" entries ", entries_in(&served.shards));
    add_number(&mut line, b" grants ", grants_in(&served.objects));
    add_number(&mut line, b" denials ", denials_in(&served.objects));
    line.try_extend_from_slice(b"\n").unwrap();
    line
}
