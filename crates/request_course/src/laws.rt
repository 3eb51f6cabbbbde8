//! Laws of courses, each the contract of a function that does nothing.

ghost use Rattle.request_course.specs.Causes.{CausesAreExact};
ghost use Rattle.request_course.specs.Cells.{Node};
ghost use Rattle.request_course.specs.Changes.{NothingChanges, ObjectsAreMade, RepliesTellUngranted};
ghost use Rattle.request_course.specs.Choices.{AnswersAgree, ConnectionsAgree, FramesAreRead};
ghost use Rattle.request_course.specs.Completeness.{AnswersAreWhole, ArrivalsAreJudged, VerdictsAreExact};
ghost use Rattle.request_course.specs.Laws.{AnsweredStays, AnswersMore, ArrivalExcludes, CodesAreKnown, CourseStays, CoursesAgree, FaultsAreCounted, GoesOnTwice, NoEntryAfterFull};
ghost use Rattle.request_course.specs.Projected.{EffectsAreProjected};
ghost use Rattle.request_course.specs.PullCauses.{PulledArePresented, TurnCausesAreExact};
ghost use Rattle.request_course.specs.Verdicts.{RepliesAreVerdicts};
ghost use Rattle.request_course.specs.World.{Setting};

/// A course in journals is one in all legal journals that go on from these.
pub fn courses_stay()
    ensures { (n : Node) → CourseStays n }
{}

/// What went on, and then went on, went on by the places of both.
pub fn going_on_goes_on()
    ensures { GoesOnTwice }
{}

/// What is answered in journals is so, with the same own places, in all legal journals that go on
/// from these.
pub fn what_is_answered_stays()
    ensures { (n : Node) → AnsweredStays n }
{}

/// And so is one frame more, whose course stands in journals that went on, by new places.
pub fn one_more_is_answered()
    ensures { (n : Node) → AnswersMore n }
{}

/// Of any two frames of a connection the earlier does not find a journal full, for itself or for the
/// proof of its grant, where the later has an entry there.
pub fn nothing_follows_a_full_journal()
    ensures { (n : Node) → NoEntryAfterFull n }
{}

/// Kept proofs change no verdict: a grant, by a proof that was kept or not, is one by what its Ask is
/// judged by, and a denial is none by that.
pub fn replies_are_verdicts()
    ensures { (n : Node) → RepliesAreVerdicts n }
{}

/// Courses of one payload in the same journals, with the same answers of the link and the same own
/// places, have one status, unless memory was refused; and what came to its object is refused for
/// nothing before that.
pub fn courses_exclude_each_other()
    ensures agree { (n : Node) → CoursesAgree n }
    ensures arrived { (n : Node) → ArrivalExcludes n }
{}

/// Completeness: a request that came to its object has the verdict on its Ask for its reply, a grant or a
/// denial, unless its number was used, something was full, no shard held what it would discard, or
/// memory was refused.
pub fn arrivals_are_judged()
    ensures judged { (n : Node) → ArrivalsAreJudged n }
    ensures exact { (n : Node) → VerdictsAreExact n }
{}

/// And so what `answer` and `request` promise comes to this where no count of failures rose: there is a
/// reply, no call of the link failed, and what came to its object is judged.
pub fn answers_are_whole()
    ensures { AnswersAreWhole }
{}

/// A reply has the cause of its status, and where the cause of a status stands the reply has that status, in
/// the words of what was presented, of what the link answered and of the journals; unless memory was refused.
pub fn causes_are_exact()
    ensures { (n : Node) → CausesAreExact n }
{}

/// And so where certificates are fetched: a reply says that the fetch failed exactly where it did, and that
/// the link failed at a fetched certificate exactly there; any other has its cause in the words of the
/// payload with what was pulled. What it presents then is what opened.
pub fn causes_of_pulls_are_exact()
    ensures exact { (n : Node) → TurnCausesAreExact n }
    ensures presented { (n : Node) → PulledArePresented n }
{}

/// A certificate is refused by a code of 1 to 6, and each call of the link that failed has a fault
/// of its own.
pub fn refusals_have_causes()
    ensures codes { (n : Node) → CodesAreKnown n }
    ensures faults { FaultsAreCounted }
{}

/// A request that was denied, or refused before it had an entry at an object, has no effect there or
/// in a shard: no byte of an object changes, and no list, where nobody else takes the object.
pub fn no_grant_changes_nothing()
    ensures unchanged { (n : Node) → NothingChanges n }
    ensures told { (n : Node) → RepliesTellUngranted n }
{}

/// The effects of a connection's entries, which are contents that are written, lists that are set and
/// steps of shards, are those due to its granted entries, in order; and they make its objects what
/// they are.
pub fn effects_are_granted()
    ensures projected { (n : Node) → EffectsAreProjected n }
    ensures objects { ObjectsAreMade }
{}

/// Where nobody else steps a cell, what a node answers is a function of the frames, the readings of
/// the clock and the answers of the fetch and of the link, up to the proofs that it makes: two connections that have
/// these in common, and for which memory was never lacking, have the same replies, and leave the
/// same entries after the same entries. The frames are a function of the bytes that were taken.
pub fn a_connection_alone_is_a_function()
    ensures frame { (s : Setting) → AnswersAgree s }
    ensures connection { (s : Setting) → ConnectionsAgree s }
    ensures read { (s : Setting) → FramesAreRead s }
{}
