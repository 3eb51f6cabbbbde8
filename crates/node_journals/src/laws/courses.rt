//! Laws of a node under the load of a drill, each the contract of a function that does nothing.

ghost use Rattle.node_commands.specs.Words.{DrillWords};
ghost use Rattle.request_course.specs.Cells.{Node};
ghost use Rattle.node_journals.specs.Courses.{CoursesAreTurned, ShardsAreLoads, WorksAreCounted};

/// What the course of a load's request can be: a journal was full, its Ask was not judged, or it
/// was denied or granted.
pub fn courses_are_turned()
    ensures { (d : DrillWords) (n : Node) → CoursesAreTurned d n }
{}

/// Where each place of the journals is own of one request, those of the shards are those of a load.
pub fn shards_are_loads()
    ensures { (d : DrillWords) (n : Node) → ShardsAreLoads d n }
{}

/// And the grants are as many as there are even words, the denials as many as there are odd ones,
/// and the entries one for each request and one for each lane that has a grant.
pub fn works_are_counted()
    ensures { (d : DrillWords) (n : Node) → WorksAreCounted d n }
{}
