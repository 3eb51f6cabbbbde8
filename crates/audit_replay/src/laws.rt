//! Laws of replays, each the contract of a function that does nothing.

ghost use Rattle.std.specs.Prelude.{◌≡◌, ℕ, List};
ghost use Rattle.shard_core.specs.Cells.{Cells};
ghost use Rattle.audit_replay.specs.declared.replayed.Replayed.{Replayed};
ghost use Rattle.audit_replay.specs.Replays.{IsReplayed};

/// No bytes come to two answers beside one opening.
pub fn one_answer()
    ensures { (cells : Cells) (bytes : List ℕ) (r s : Replayed) → IsReplayed cells bytes r
        → IsReplayed cells bytes s → r ≡ s }
{}
