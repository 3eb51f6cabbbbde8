//! Laws of a shard under the load of a drill, each the contract of a function that does nothing.

ghost use Rattle.node_journals.specs.JournalLaws.{AsksAreJudged, ReaderIsGranted, FirstMisses, LaterHit};
ghost use Rattle.node_journals.specs.JournalLaws.{AsksAreOfTheirOwn, VerdictsAreListed, EndsAreListed};
ghost use Rattle.node_journals.specs.JournalLaws.{KeepsAreKept, OneForEach, EntriesAreCounted};

/// No Ask of the load is refused: each is a hit or a miss.
pub fn asks_are_judged()
    ensures { AsksAreJudged }
{}

/// An Ask for an object that name 1 may read is not denied.
pub fn readers_are_granted()
    ensures { ReaderIsGranted }
{}

/// The first Ask of a channel for such an object is a miss.
pub fn first_asks_miss()
    ensures { FirstMisses }
{}

/// Each later one is a hit, where a proof that was made is in the journal before its channel asks
/// again.
pub fn later_asks_hit()
    ensures { LaterHit }
{}

/// An Ask is judged by its channel's certificate alone, at the drill's reading. So its verdict is a
/// grant on the list that lets name 1 read, and on an empty one a denial, and it ends so.
pub fn asks_have_verdicts()
    ensures judged { AsksAreOfTheirOwn }
    ensures verdict { VerdictsAreListed }
    ensures ends { EndsAreListed }
{}

/// A proof that is to be kept is kept. Where each miss has its own, before its channel asks again,
/// there is at most one for each channel.
pub fn proofs_are_kept()
    ensures kept { KeepsAreKept }
    ensures one { OneForEach }
{}

/// Each entry is an Ask or a proof that is to be kept.
pub fn entries_are_counted()
    ensures { EntriesAreCounted }
{}
