//! Laws of what a seat tells, each the contract of a function that does nothing.

ghost use Rattle.agent_core.specs.Journals.{MayFollow};
ghost use Rattle.agent_shards.specs.Laws.{DenialsAreVerdicts, GrantsAreVerdicts, SharesAddUp, StepsAddOne};
ghost use Rattle.agent_shards.specs.Room.{HasRoom};

/// A step among others that finds room adds one own entry, after what was seen.
pub fn steps_among_others()
    ensures { StepsAddOne }
{}

/// The verdict of an ask among others is that at its place, by the entries before it, whatever
/// others do between its two steps.
pub fn asks_among_others()
    ensures granted { GrantsAreVerdicts }
    ensures denied { DenialsAreVerdicts }
{}

/// Passes that were divided, and joined again after each seat kept its shares, have all shares where
/// they had them before: so they close.
pub fn shares_add_up()
    ensures shards { SharesAddUp MayFollow }
    ensures objects { SharesAddUp HasRoom }
{}
