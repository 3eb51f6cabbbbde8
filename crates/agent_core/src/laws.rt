//! Laws of shards, each the contract of a function that does nothing.

ghost use Rattle.std.specs.Prelude.{ℕ, List};
ghost use Rattle.prin_term.specs.declared.term.Anchor.{Anchor};
ghost use Rattle.stmt_codec.specs.Certificates.{Certificate};
ghost use Rattle.agent_core.specs.State.{Plan};
ghost use Rattle.agent_core.specs.Laws.{FrontIsLegal, OneMoreIsLegal, LegalIsAllowed, JournalIsLegal};
ghost use Rattle.agent_core.specs.Laws.{HasOneJournal, HoldsFew, JudgesFew, OneVerdict, JudgedIsVerdict};
ghost use Rattle.agent_core.specs.Laws.{MeantStays, StepsAlone, AsksAreVerdicts, AskStays};
ghost use Rattle.agent_core.specs.Laws.{OpenedAreShards, EachChannelAtHome};
ghost use Rattle.agent_core.specs.Laws.{ClockNeverFalls, ClockIsRead};
ghost use Rattle.agent_core.specs.Laws.{WithdrawnAreNotHeld, WithdrawnFromThen};
ghost use Rattle.agent_core.specs.Laws.{GivesPlainVerdicts, CacheIsBacked, CacheIsSmall, HitIsGranted};

/// A beginning of a legal journal is legal.
pub fn fronts_are_legal()
    ensures { (plan : Plan) → FrontIsLegal plan }
{}

/// A legal journal stays legal with an entry that may follow it.
pub fn one_more_is_legal()
    ensures { (plan : Plan) → OneMoreIsLegal plan }
{}

/// A journal is legal exactly where each entry is allowed behind those before it.
pub fn legal_is_allowed()
    ensures { (plan : Plan) → LegalIsAllowed plan }
{}

/// What a shard makes of events that are meant is a legal journal, and the only one of these
/// events.
pub fn events_have_one_journal()
    ensures legal { (plan : Plan) → JournalIsLegal plan }
    ensures one { (plan : Plan) → HasOneJournal plan }
{}

/// A shard with a cache gives the verdicts of the plain machine without one, for every list of
/// events.
pub fn cached_equals_uncached()
    ensures { (plan : Plan) → GivesPlainVerdicts plan }
{}

/// The clock never falls, and stands at the largest reading of Asks and Expires.
pub fn the_clock_never_falls()
    ensures rises { (plan : Plan) → ClockNeverFalls plan }
    ensures read { (plan : Plan) → ClockIsRead plan }
{}

/// After a legal journal each kept proof holds for its subject, by certificates that are held and
/// have begun, until its lease ends.
pub fn kept_proofs_hold()
    ensures { (plan : Plan) → CacheIsBacked plan }
{}

/// At most 64 proofs are kept, no two of which are for the same subject and principal.
pub fn few_proofs_are_kept()
    ensures { (plan : Plan) → CacheIsSmall plan }
{}

/// A hit is a grant.
pub fn hits_are_grants()
    ensures { (plan : Plan) → HitIsGranted plan }
{}

/// How many certificates a shard holds at most, and an Ask is judged by.
pub fn shards_hold_few()
    ensures held { (plan : Plan) → HoldsFew plan }
    ensures judged { (plan : Plan) → JudgesFew plan }
{}

/// No certificate of a withdrawn issuer is held, from its withdrawal on; few issuers are withdrawn.
pub fn the_withdrawn_are_not_held()
    ensures not_held { (plan : Plan) → WithdrawnAreNotHeld plan }
    ensures from_then { (plan : Plan) → WithdrawnFromThen plan }
{}

/// No Ask is both granted and denied.
pub fn verdicts_differ()
    ensures { (plan : Plan) → OneVerdict plan }
{}

/// What is found on what an Ask is judged by is its verdict.
pub fn decisions_are_verdicts()
    ensures { (plan : Plan) → JudgedIsVerdict plan }
{}

/// What an event has to be stays so when the journal goes on.
pub fn what_is_meant_stays()
    ensures { (plan : Plan) → MeantStays plan }
{}

/// A step of a shard is one among others, of which there are none.
pub fn steps_may_be_alone()
    ensures { (plan : Plan) → StepsAlone plan }
{}

/// An ask that is granted or denied has this verdict, behind the entries before its place.
pub fn asks_are_verdicts()
    ensures { (plan : Plan) → AsksAreVerdicts plan }
{}

/// How an Ask ended in a journal it ended in each within the limit that begins with it.
pub fn how_an_ask_ended_stays()
    ensures { (plan : Plan) → AskStays plan }
{}

/// What a node is opened with are the plans of all its shards, and each channel is one of its
/// shard's.
pub fn opened_are_shards()
    ensures shards { (channels : List ℕ) (shards : ℕ) (anchors : List Anchor)
        (commons : List Certificate) (keep limit : ℕ)
        → OpenedAreShards channels shards anchors commons keep limit }
    ensures home { (channels : List ℕ) (shards : ℕ) (anchors : List Anchor)
        (commons : List Certificate) (keep limit : ℕ)
        → EachChannelAtHome channels shards anchors commons keep limit }
{}
