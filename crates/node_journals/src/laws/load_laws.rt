//! What the lanes of a drill leave in the journals of its node.

ghost use Rattle.std.specs.Prelude.{ℕ};
ghost use Rattle.node_commands.specs.Words.{DrillWords};
ghost use Rattle.request_course.specs.Cells.{Node};
ghost use Rattle.node_journals.specs.LoadLaws.{LoadIsCounted, ShardsHaveLoads};

/// Where each lane answered all its requests and memory was not refused, the journals of the shards
/// are those of a load.
pub fn shards_have_loads()
    ensures { (d : DrillWords) (n : Node) (limit : ℕ) → ShardsHaveLoads d n limit }
{}

/// Where each lane answered all its requests and memory was not refused, the grants are as many as
/// there are even words, the denials as many as there are odd ones, and the entries one for each
/// request and one for each lane that has a grant.
pub fn loads_are_counted()
    ensures { (d : DrillWords) (n : Node) (limit : ℕ) → LoadIsCounted d n limit }
{}
