//! A shard of one channel, and what is asked there.

ghost use Rattle.std.specs.Prelude.{◌≡◌, ◌≤◌, IfOk, length};
ghost use Rattle.prin_term.specs.View.{principal};
ghost use Rattle.agent_core.specs.Asked.{FitsAsk};
ghost use Rattle.agent_core.specs.Journals.{IsOn};
ghost use Rattle.agent_core.specs.Views.{ask_of};

use agent_core::*;
use prin_term::{Entry, Term};
use shard_core::*;
use std::alloc::Global;
use std::sync::Arc;
use std::test::*;
use stmt_codec::{Cert, CertBody};

/// One shard of channel 2, whose journal takes so many entries.
pub(crate) fn one_shard(alloc: Global, limit: u64) -> Result<Lone, Fail> {
    let plan = ShardPlan {
        number: 0,
        shards: 1,
        anchors: Arc::new(alloc, Vec::new(alloc))?,
        channels: vec![in alloc; 2]?,
        commons: Vec::new(alloc),
        keep: 3600,
        limit,
    };
    if !plan.is_sound() {
        return Err(Fail::new("no plan"));
    }
    let shards = open_shards(
        alloc,
        &plan.channels,
        plan.shards,
        &plan.anchors,
        &plan.commons,
        plan.keep,
        plan.limit,
    )?;
    Ok(Lone::new(shards, plan.anchors))
}

/// An Ask of channel 2 on an empty list.
pub(crate) fn asked(alloc: Global, seq: u64, presented: Vec<Arc<Cert>>) -> Result<Arc<Ask>, Fail>
    requires { length presented.items ≤ 16 }
    ensures channel { IfOk result (λ a. a.value.channel ≡ 2) }
    ensures subject { IfOk result (λ a. IsOn 2 (principal a.value.subject)) }
    ensures fits { IfOk result (λ a. FitsAsk (ask_of a.value)) }
{
    let list: Vec<Entry> = Vec::new(alloc);
    let made = Ask {
        channel: 2,
        seq,
        reading: 1000,
        subject: Term::Key(2),
        list: Arc::new(alloc, list)?,
        right: 1,
        presented,
    };
    Ok(Arc::new(alloc, made)?)
}

/// That key 1 says that key 2 speaks for name 10, with serial numbers from one on.
pub(crate) fn hand_offs(alloc: Global, first: u64, count: u64) -> Result<Vec<Arc<Cert>>, Fail> {
    let mut certs = Vec::new(alloc);
    for number in 0..count {
        let serial = first.wrapping_add(number);
        let body = CertBody::says(1, None, Term::Key(2), Term::Name(10), 2000, serial);
        certs.push(Arc::new(alloc, Cert::of(alloc, body)?)?)?;
    }
    Ok(certs)
}
