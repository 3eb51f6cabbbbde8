//! The anchors of a question, in the room of a decider.

ghost use Rattle.std.specs.Prelude.{◌≡◌, ◌≤◌, [], length, vec_capacity};

use prin_term::Anchor;

/// Keeps the anchors. Their keys and names are taken in only as far as they are named elsewhere.
pub fn keep_anchors(kept: &mut Vec<Anchor>, anchors: &[Anchor])
    requires none { kept.old.items ≡ [] }
    requires room { length anchors.now ≤ vec_capacity kept.old }
    ensures kept { kept.new.items ≡ anchors.now }
    ensures capacity { vec_capacity kept.old ≤ vec_capacity kept.new }
{
    for i in 0..anchors.len() {
        kept.push(anchors[i]).unwrap();
    }
}
