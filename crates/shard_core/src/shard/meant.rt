//! What an event has to be.

ghost use Rattle.std.specs.Prelude.{◌≡◌, ◌↔◌, IsTrue, Contains, map};
ghost use Rattle.std.specs.List.Sorted.{IsStrictlyIncreasing};
ghost use Rattle.prin_term.specs.Principal.{Key};
ghost use Rattle.prin_term.specs.View.{principal};
ghost use Rattle.agent_core.specs.Answers.{FitsEvent};
ghost use Rattle.agent_core.specs.Journals.{IsMeant, IsOn};
ghost use Rattle.agent_core.specs.Views.{entry_of, event_of, plan_of};

use crate::shard::keepable::is_keepable;
use crate::shard::row::place_of;
use agent_core::{Event, MAX_PRESENTED, ShardEntry, ShardPlan};
use prin_term::Term;
use taos_calculus::MAX_ENTRIES;

// Whether the term is the key of this number.
fn is_key(term: &Term, number: u32) -> bool
    ensures { IsTrue result ↔ (principal term.now ≡ Key number) }
{
    match term {
        Term::Key(key) => *key == number,
        _ => false,
    }
}

// Whether the subject speaks on the channel.
fn is_on(channel: u32, subject: &Term) -> bool
    ensures { IsTrue result ↔ IsOn channel (principal subject.now) }
{
    match subject {
        Term::Key(key) => *key == channel,
        Term::Quote(speaker, _) => is_key(speaker, channel),
        _ => false,
    }
}

// Whether the channel is one of these.
fn has_channel(channels: &[u32], channel: u32) -> bool
    requires { IsStrictlyIncreasing channels.now }
    ensures { IsTrue result ↔ Contains channels.now channel }
{
    match place_of(channels, channel) {
        Some(_) => true,
        None => false,
    }
}

/// Whether the event is one that a shard of this plan takes after these entries.
pub(crate) fn is_taken(plan: &ShardPlan, entries: &[ShardEntry], event: &Event) -> bool
    requires { IsStrictlyIncreasing (plan_of plan.now).channels }
    ensures { let e = event_of event.now in
        IsTrue result ↔ (IsMeant (plan_of plan.now) (map entry_of entries.now) e × FitsEvent e) }
{
    match event {
        Event::Ask(asked) => {
            asked.presented.len() <= MAX_PRESENTED
                && asked.list.len() <= MAX_ENTRIES
                && is_on(asked.channel, &asked.subject)
                && has_channel(&plan.channels, asked.channel)
        }
        Event::Keep { ask, entry, cached } => is_keepable(plan, entries, *ask, *entry, cached),
        Event::Hold(certs) => certs.len() <= MAX_PRESENTED,
        Event::Discard(_) | Event::Forget(_) | Event::Expire(_) | Event::Withdraw(_) => true,
    }
}
