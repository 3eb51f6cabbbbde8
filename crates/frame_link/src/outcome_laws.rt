//! What the counts of faults say of an outcome, as a law.

ghost use Rattle.frame_link.specs.declared.outcome.Outcome.{Outcome};
ghost use Rattle.frame_link.specs.Served.{FaultCounts, CountsCause, StandStill, IsFault};

/// A connection whose counts stood still has no fault as its outcome.
pub fn steady_counts_cause_no_fault()
    ensures none { (before after : FaultCounts) (outcome : Outcome)
        → CountsCause before after outcome → StandStill before after → IsFault outcome → ⊥ }
{}
