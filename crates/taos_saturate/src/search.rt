//! Single steps to a fact, but for those that pass on what another speaks for or says.

ghost use Rattle.std.specs.Prelude.{◌≡◌, ℕ, ◌<◌, ◌^◌, Some, MatchOption, slice_get, length};
ghost use Rattle.taos_calculus.specs.declared.line.Fact.{Fact};
ghost use Rattle.taos_calculus.specs.declared.line.Step.{Step};
ghost use Rattle.taos_saturate.specs.Saturating.{GivesIn, Lacks, LacksSpeaks, LacksSays};
ghost use Rattle.taos_saturate.specs.Saturating.{LacksSaying, HasSaying, IsReady, IsNumber};

use crate::saturation::Saturation;
use prin_term::Anchor;
use taos_calculus::{Node, Step};

impl Saturation {
    // From a conjunction to its parts.
    fn by_and(&self, left: u16, right: u16) -> Option<Step>
        requires ready { IsReady self.now }
        requires left_in { IsNumber self.now left }
        requires right_in { IsNumber self.now right }
        ensures { MatchOption result (Lacks self.now (Fact.Speaks left right) Step.Left
            × Lacks self.now (Fact.Speaks left right) Step.Right)
            (GivesIn self.now (Fact.Speaks left right)) }
    {
        if let Node::And(a, b) = self.node(left) {
            if a == right {
                return Some(Step::Left);
            }
            if b == right {
                return Some(Step::Right);
            }
        }
        None
    }

    // To a conjunction.
    fn by_both(&self, left: u16, right: u16) -> Option<Step>
        requires ready { IsReady self.now }
        requires left_in { IsNumber self.now left }
        requires right_in { IsNumber self.now right }
        ensures { MatchOption result
            ((i j : ℕ) → Lacks self.now (Fact.Speaks left right) (Step.Both i j))
            (GivesIn self.now (Fact.Speaks left right)) }
    {
        if let Node::And(a, b) = self.node(right) {
            if let Some((first, second)) = self.both_speak(left, a, left, b) {
                return Some(Step::Both { first, second });
            }
        }
        None
    }

    // Between quotings.
    fn by_quote(&self, left: u16, right: u16) -> Option<Step>
        requires ready { IsReady self.now }
        requires left_in { IsNumber self.now left }
        requires right_in { IsNumber self.now right }
        ensures { MatchOption result
            ((i j : ℕ) → Lacks self.now (Fact.Speaks left right) (Step.Quote i j))
            (GivesIn self.now (Fact.Speaks left right)) }
    {
        if let Node::Quote(a, b) = self.node(left) {
            if let Node::Quote(c, d) = self.node(right) {
                if let Some((first, second)) = self.both_speak(a, c, b, d) {
                    return Some(Step::Quote { first, second });
                }
            }
        }
        None
    }

    // Between delegations.
    fn by_for(&self, left: u16, right: u16) -> Option<Step>
        requires ready { IsReady self.now }
        requires left_in { IsNumber self.now left }
        requires right_in { IsNumber self.now right }
        ensures { MatchOption result
            ((i j : ℕ) → Lacks self.now (Fact.Speaks left right) (Step.For i j))
            (GivesIn self.now (Fact.Speaks left right)) }
    {
        if let Node::For(a, b) = self.node(left) {
            if let Node::For(c, d) = self.node(right) {
                if let Some((first, second)) = self.both_speak(a, c, b, d) {
                    return Some(Step::For { first, second });
                }
            }
        }
        None
    }

    // To a role.
    fn by_role(&self, left: u16, right: u16) -> Option<Step>
        requires ready { IsReady self.now }
        requires left_in { IsNumber self.now left }
        requires right_in { IsNumber self.now right }
        ensures { MatchOption result (Lacks self.now (Fact.Speaks left right) Step.Role)
            (GivesIn self.now (Fact.Speaks left right)) }
    {
        if let Node::AsRole(a, _role) = self.node(right) {
            if a == left {
                return Some(Step::Role);
            }
        }
        None
    }

    // Between principals in one role.
    fn by_role_under(&self, left: u16, right: u16) -> Option<Step>
        requires ready { IsReady self.now }
        requires left_in { IsNumber self.now left }
        requires right_in { IsNumber self.now right }
        ensures { MatchOption result
            ((i : ℕ) → Lacks self.now (Fact.Speaks left right) (Step.RoleUnder i))
            (GivesIn self.now (Fact.Speaks left right)) }
    {
        if let Node::AsRole(a, role) = self.node(left) {
            if let Node::AsRole(b, other) = self.node(right) {
                if role == other {
                    if let Some(first) = self.speaks(a, b) {
                        return Some(Step::RoleUnder { first });
                    }
                }
            }
        }
        None
    }

    // What the right one says of the left.
    fn by_hand_off(&self, left: u16, right: u16) -> Option<Step>
        requires ready { IsReady self.now }
        requires left_in { IsNumber self.now left }
        requires right_in { IsNumber self.now right }
        ensures { MatchOption result
            ((i : ℕ) → Lacks self.now (Fact.Speaks left right) (Step.HandOff i))
            (GivesIn self.now (Fact.Speaks left right)) }
    {
        match self.says(right, left, right) {
            Some(says) => Some(Step::HandOff { says }),
            None => None,
        }
    }

    // From a quoting to a delegation.
    fn by_delegate(&self, left: u16, right: u16) -> Option<Step>
        requires ready { IsReady self.now }
        requires left_in { IsNumber self.now left }
        requires right_in { IsNumber self.now right }
        ensures { MatchOption result
            ((i : ℕ) → Lacks self.now (Fact.Speaks left right) (Step.Delegate i))
            (GivesIn self.now (Fact.Speaks left right)) }
    {
        if let Node::Quote(b, a) = self.node(left) {
            if let Node::For(c, d) = self.node(right) {
                if b == c && a == d {
                    if let Some(says) = self.says(a, left, right) {
                        return Some(Step::Delegate { says });
                    }
                }
            }
        }
        None
    }

    // The place of an anchor.
    fn anchor_at(&self, key: u32, name: u32) -> Option<u16>
        requires { length self.now.anchors.items < 2 ^ 16 }
        ensures { MatchOption result ((i : ℕ) → slice_get self.now.anchors.items i
            ≡ Some (record { key = key; name = name }) → ⊥)
            (λ i. slice_get self.now.anchors.items i ≡ Some (record { key = key; name = name })) }
    {
        for i in 0..self.anchors.len() {
            if self.anchors[i] == (Anchor { key, name }) {
                return Some(i as u16);
            }
        }
        None
    }

    // The place of a certificate's speaker and statement.
    fn cited_at(&self, speaker: u16, left: u16, right: u16) -> Option<u16>
        requires { length self.now.cited.items < 2 ^ 16 }
        ensures { MatchOption result (LacksSaying self.now.cited.items speaker left right)
            (HasSaying self.now.cited.items speaker left right) }
    {
        for i in 0..self.cited.len() {
            if self.cited[i].is(speaker, left, right) {
                return Some(i as u16);
            }
        }
        None
    }

    // From a key to its name.
    fn by_anchor(&self, left: u16, right: u16) -> Option<Step>
        requires ready { IsReady self.now }
        requires left_in { IsNumber self.now left }
        requires right_in { IsNumber self.now right }
        ensures { MatchOption result
            ((i : ℕ) → Lacks self.now (Fact.Speaks left right) (Step.Anchor i))
            (GivesIn self.now (Fact.Speaks left right)) }
    {
        if let Node::Key(key) = self.node(left) {
            if let Node::Name(name) = self.node(right) {
                if let Some(index) = self.anchor_at(key, name) {
                    return Some(Step::Anchor { index });
                }
            }
        }
        None
    }

    // By a certificate.
    fn by_said(&self, who: u16, left: u16, right: u16) -> Option<Step>
        requires ready { IsReady self.now }
        requires who_in { IsNumber self.now who }
        requires left_in { IsNumber self.now left }
        requires right_in { IsNumber self.now right }
        ensures { MatchOption result
            ((i : ℕ) → Lacks self.now (Fact.Says who left right) (Step.Said i))
            (GivesIn self.now (Fact.Says who left right)) }
    {
        match self.cited_at(who, left, right) {
            Some(cite) => Some(Step::Said { cite }),
            None => None,
        }
    }

    // By what both parts of a conjunction say.
    fn by_join(&self, who: u16, left: u16, right: u16) -> Option<Step>
        requires ready { IsReady self.now }
        requires who_in { IsNumber self.now who }
        requires left_in { IsNumber self.now left }
        requires right_in { IsNumber self.now right }
        ensures { MatchOption result
            ((i j : ℕ) → Lacks self.now (Fact.Says who left right) (Step.Join i j))
            (GivesIn self.now (Fact.Says who left right)) }
    {
        if let Node::And(a, b) = self.node(who) {
            if let Some(first) = self.says(a, left, right) {
                if let Some(second) = self.says(b, left, right) {
                    return Some(Step::Join { first, second });
                }
            }
        }
        None
    }

    /// A step to the fact that does not pass on what another says.
    pub fn find_says(&self, who: u16, left: u16, right: u16) -> Option<Step>
        requires ready { IsReady self.now }
        requires who_in { IsNumber self.now who }
        requires left_in { IsNumber self.now left }
        requires right_in { IsNumber self.now right }
        ensures { MatchOption result (LacksSays self.now who left right)
            (GivesIn self.now (Fact.Says who left right)) }
    {
        if let Some(step) = self.by_said(who, left, right) {
            return Some(step);
        }
        self.by_join(who, left, right)
    }

    /// A step to the fact that does not go through a third principal.
    pub fn find_speaks(&self, left: u16, right: u16) -> Option<Step>
        requires ready { IsReady self.now }
        requires left_in { IsNumber self.now left }
        requires right_in { IsNumber self.now right }
        ensures { MatchOption result (LacksSpeaks self.now left right)
            (GivesIn self.now (Fact.Speaks left right)) }
    {
        if left == right {
            return Some(Step::Same);
        }
        if let Some(step) = self.by_and(left, right) {
            return Some(step);
        }
        if let Some(step) = self.by_both(left, right) {
            return Some(step);
        }
        if let Some(step) = self.by_quote(left, right) {
            return Some(step);
        }
        if let Some(step) = self.by_for(left, right) {
            return Some(step);
        }
        if let Some(step) = self.by_role(left, right) {
            return Some(step);
        }
        if let Some(step) = self.by_role_under(left, right) {
            return Some(step);
        }
        if let Some(step) = self.by_anchor(left, right) {
            return Some(step);
        }
        if let Some(step) = self.by_hand_off(left, right) {
            return Some(step);
        }
        self.by_delegate(left, right)
    }
}
