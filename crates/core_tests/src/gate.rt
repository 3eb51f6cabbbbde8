use crate::asks::{asked, hand_offs, one_shard};
use agent_core::*;
use shard_core::*;
use std::alloc::Global;
use std::sync::{Arc, Wait};
use std::test::*;
use stmt_codec::Cert;
use taos_saturate::Saturator;

// How often it was passed.
#[derive(Drop)]
struct Counting {
    passed: u64,
}

impl Gate for Counting {
    fn between(&mut self) {
        self.passed = self.passed.wrapping_add(1);
    }
}

// How often an ask passes the gate, and whether it was judged.
fn passes<W: Wait + Sync>(
    rt: &W,
    alloc: Global,
    shards: &mut Lone,
    bench: &mut Saturator,
    seq: u64,
    presented: Vec<Arc<Cert>>,
) -> Result<(u64, bool), Fail> {
    if presented.len() > 16 || !shards.has_channel(2) {
        return Err(Fail::new("not taken"));
    }
    let made = asked(alloc, seq, presented)?;
    let mut gate = Counting { passed: 0 };
    let ended = ask(rt, alloc, shards, bench, &mut gate, made)?;
    let is_judged = match ended.verdict {
        Verdict::Granted { .. } | Verdict::Denied(_) => true,
        _ => false,
    };
    Ok((gate.passed, is_judged))
}

// The number; the first serial number of what is presented and how many there are; how often the
// gate is passed. The second is replayed, the fourth finds the channel full, the last the journal.
const ASKS: &[(u64, u64, u64, u64)] = &[
    (1, 100, 16, 1),
    (1, 100, 0, 0),
    (2, 116, 16, 1),
    (3, 132, 1, 0),
    (3, 0, 0, 1),
    (4, 0, 0, 0),
];

#[test]
fn the_gate_is_passed_where_an_ask_is_judged(rt: HostRuntime) -> Result<(), Fail> {
    let mut shards = one_shard(rt.alloc(), 5)?;
    let mut bench = Saturator::reserve(rt.alloc())?;
    for &(seq, first, count, expected) in ASKS {
        let presented = hand_offs(rt.alloc(), first, count)?;
        let (passed, is_judged) = passes(&rt, rt.alloc(), &mut shards, &mut bench, seq, presented)?;
        let is_so = passed == expected && is_judged == (expected == 1);
        assert!(rt; is_so, "{seq}, by {count}");
    }
    Ok(())
}
