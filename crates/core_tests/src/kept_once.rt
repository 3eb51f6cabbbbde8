//! That certificates which are presented again are kept once.

use crate::asks::hand_offs;
use agent_core::*;
use prin_term::{Entry, Term};
use shard_core::*;
use std::alloc::Global;
use std::sync::Arc;
use std::test::*;
use stmt_codec::Cert;

// A shard of channel 2, with one hand-off in common, of the serial number 1.
fn shard(alloc: Global) -> Result<Shard, Fail> {
    let plan = ShardPlan {
        number: 0,
        shards: 1,
        anchors: Arc::new(alloc, Vec::new(alloc))?,
        channels: vec![in alloc; 2]?,
        commons: hand_offs(alloc, 1, 1)?,
        keep: 3600,
        limit: 10,
    };
    if !plan.is_sound() {
        return Err(Fail::new("no plan"));
    }
    Ok(Shard::new(alloc, plan)?)
}

// Presents handles to these certificates on channel 2. Whether that was a miss.
fn is_miss(shard: &mut Shard, alloc: Global, seq: u64, certs: &[Arc<Cert>]) -> Result<bool, Fail> {
    let mut presented = Vec::new(alloc);
    for cert in certs {
        presented.push(Arc::try_clone(cert)?)?;
    }
    let list: Vec<Entry> = Vec::new(alloc);
    let asked = Ask {
        channel: 2,
        seq,
        reading: 1000,
        subject: Term::Key(2),
        list: Arc::new(alloc, list)?,
        right: 1,
        presented,
    };
    let event = Event::Ask(Arc::new(alloc, asked)?);
    if !shard.takes(&event) {
        return Err(Fail::new("not taken"));
    }
    let (_, answer) = shard.step(alloc, event)?;
    Ok(matches!(answer, Answer::Miss(_)))
}

fn handles(certs: &[Arc<Cert>], place: usize) -> Option<usize> {
    match certs.get(place) {
        Some(cert) => Some(Arc::strong_count(cert)),
        None => None,
    }
}

// The handles are one here, one among what is kept, and one in each entry; a replay's entry has the
// asker's own.
#[test]
fn what_is_presented_again_is_kept_once(rt: HostRuntime) -> Result<(), Fail> {
    let mut shard = shard(rt.alloc())?;
    // serial number 1 is that of the certificate in common
    let certs = hand_offs(rt.alloc(), 1, 2)?;
    let again = hand_offs(rt.alloc(), 1, 2)?;
    assert!(rt; is_miss(&mut shard, rt.alloc(), 1, &certs)?);
    assert!(rt; is_miss(&mut shard, rt.alloc(), 2, &again)?);
    assert!(rt; !is_miss(&mut shard, rt.alloc(), 2, &again)?, "a replay");
    assert!(rt; handles(&shard.plan().commons, 0) == Some(4), "in common");
    assert!(rt; handles(&certs, 0) == Some(1), "as one in common");
    assert!(rt; handles(&certs, 1) == Some(4), "new");
    assert!(rt;
        handles(&again, 1) == Some(2),
        "as before, and in the replay"
    );
    assert!(rt; shard.journal().len() == 3);
    Ok(())
}
