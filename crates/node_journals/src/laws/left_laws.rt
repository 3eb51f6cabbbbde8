//! The journals that a node left, judged again.

ghost use Rattle.request_course.specs.Cells.{Node};
ghost use Rattle.node_journals.specs.LeftLaws.{LeavesAsksWithin, LeavesLegal, LeavesReplayed, LeavesWritable};

/// Where a node served from empty journals on, those at the end are legal beside its cells: each entry
/// of an object names an Ask of its own, with its right and the list that the object has there, and
/// has the ruling that is due.
pub fn what_a_node_left_is_legal()
    ensures { (n : Node) → LeavesLegal n }
{}

/// These journals themselves come to as many legal entries, and so do all bytes that spell them.
pub fn what_a_node_left_is_replayed()
    ensures { (n : Node) → LeavesReplayed n }
{}

/// These journals can be spelled: no proof that was kept, or was to be, cites more than 64
/// certificates, and each operation is within the limits; so are the subject, the list and the right
/// of each Ask.
pub fn what_a_node_left_is_writable()
    ensures writable { (n : Node) → LeavesWritable n }
    ensures asks { (n : Node) → LeavesAsksWithin n }
{}
