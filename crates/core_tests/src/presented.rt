use crate::asks::{asked, one_shard};
use agent_core::*;
use prin_term::Term;
use shard_core::*;
use std::alloc::{AllocError, Global};
use std::sync::{Arc, Wait};
use std::test::*;
use stmt_codec::{Cert, CertBody};
use taos_saturate::Saturator;

// What came of an ask.
#[derive(Clone, Copy, PartialEq, Eq)]
enum End {
    Judged,
    Replayed,
    Full,
    JournalFull,
    NoMemory,
}

// The term and itself.
fn doubled(alloc: Global, term: Term) -> Result<Term, Fail> {
    let copy = Box::new(alloc, term.copy(alloc)?)?;
    Ok(Term::And(Box::new(alloc, term)?, copy))
}

// A term of 63 nodes.
fn large(alloc: Global) -> Result<Term, Fail> {
    let mut term = Term::Key(2);
    for _ in 0..5 {
        term = doubled(alloc, term)?;
    }
    Ok(term)
}

fn large_cert(alloc: Global, serial: u64) -> Result<Arc<Cert>, Fail> {
    let quoted = Some(large(alloc)?);
    let body = CertBody::says(1, quoted, large(alloc)?, large(alloc)?, 2000, serial);
    Ok(Arc::new(alloc, Cert::of(alloc, body)?)?)
}

// Sixteen certificates of this number's own. Each takes about 320 bytes and 32 for each of 4 * 63
// nodes, so all of a number's 134,144, and those of 251 numbers more than 32 MiB.
fn large_certs(alloc: Global, number: u64) -> Result<Vec<Arc<Cert>>, Fail> {
    let mut certs = Vec::new(alloc);
    for place in 0..16 {
        let serial = number.wrapping_mul(16).wrapping_add(place);
        certs.push(large_cert(alloc, serial)?)?;
    }
    Ok(certs)
}

// What comes of an ask of channel 2.
fn end_of<W: Wait + Sync>(
    rt: &W,
    alloc: Global,
    shards: &mut Lone,
    bench: &mut Saturator,
    seq: u64,
    presented: Vec<Arc<Cert>>,
) -> Result<End, Fail> {
    if presented.len() > 16 || !shards.has_channel(2) {
        return Err(Fail::new("not taken"));
    }
    let made = asked(alloc, seq, presented)?;
    match ask(rt, alloc, shards, bench, &mut FreeGate, made) {
        Ok(ended) => match ended.verdict {
            Verdict::Granted { .. } | Verdict::Denied(_) => Ok(End::Judged),
            Verdict::Replayed { .. } => Ok(End::Replayed),
            Verdict::Full { .. } => Ok(End::Full),
            Verdict::JournalFull { .. } => Ok(End::JournalFull),
        },
        Err(AllocError) => Ok(End::NoMemory),
    }
}

// The first number and how many there are, whether they rise, and what comes of each.
type Row = (u64, u64, bool, End);

const ASKS: &[Row] = &[
    (1, 2, true, End::Judged),
    (3, 248, true, End::Full),
    (251, 1, true, End::Full),
    (2, 3, false, End::Replayed),
    (250, 3, false, End::Full),
    (251, 1, true, End::Full),
];

// Whether each ask of a row ends so.
fn end_so<W: Wait + Sync>(
    rt: &W,
    alloc: Global,
    shards: &mut Lone,
    bench: &mut Saturator,
    row: Row,
) -> Result<bool, Fail> {
    let (first, count, rises, expected) = row;
    for more in 0..count {
        let seq = if rises {
            first.wrapping_add(more)
        } else {
            first
        };
        let presented = large_certs(alloc, seq)?;
        if end_of(rt, alloc, shards, bench, seq, presented)? != expected {
            return Ok(false);
        }
    }
    Ok(true)
}

#[test]
fn however_much_was_presented_an_ask_is_answered(rt: HostRuntime) -> Result<(), Fail> {
    let mut shards = one_shard(rt.alloc(), 1000)?;
    let mut bench = Saturator::reserve(rt.alloc())?;
    for &row in ASKS {
        let is_so = end_so(&rt, rt.alloc(), &mut shards, &mut bench, row)?;
        assert!(rt; is_so, "{}, {} times", row.0, row.1);
    }
    Ok(())
}
