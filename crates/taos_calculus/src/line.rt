/// A principal of a table, whose operands are named by their numbers in it.
#[derive(Clone, Copy, PartialEq, Eq)]
pub enum Node {
    Key(u32),
    Name(u32),
    And(u16, u16),
    /// The first quoting the second.
    Quote(u16, u16),
    /// The principal in a role, which is named by its number.
    AsRole(u16, u32),
    For(u16, u16),
}

/// A judgement over the numbers of a table.
#[derive(Clone, Copy, PartialEq, Eq)]
pub enum Fact {
    /// `left => right`: the left speaks for the right.
    Speaks { left: u16, right: u16 },
    /// `who says (left => right)`.
    Says { who: u16, left: u16, right: u16 },
}

/// The rule that gives a line's fact. Premises are numbers of earlier lines, counted from 0; an
/// anchor is named by its place among the anchors, a certificate by its place among the cited.
#[derive(Clone, Copy, PartialEq, Eq)]
pub enum Step {
    /// `A => A`.
    Same,
    /// `A => B` and `B => C` give `A => C`.
    Chain { first: u32, second: u32 },
    /// `A and B => A`.
    Left,
    /// `A and B => B`.
    Right,
    /// `C => A` and `C => B` give `C => A and B`.
    Both { first: u32, second: u32 },
    /// `A => A'` and `B => B'` give `A quoting B => A' quoting B'`.
    Quote { first: u32, second: u32 },
    /// `A => A'` and `B => B'` give `A for B => A' for B'`.
    For { first: u32, second: u32 },
    /// `A => A as R`.
    Role,
    /// `A => B` gives `A as R => B as R`.
    RoleUnder { first: u32 },
    /// The key of an anchor speaks for its name.
    Anchor { index: u16 },
    /// The speaker of a cited certificate says its statement.
    Said { cite: u16 },
    /// `A says s` and `A => B` give `B says s`.
    Lift { says: u32, speaks: u32 },
    /// `A says s` and `B says s` give `A and B says s`.
    Join { first: u32, second: u32 },
    /// `T says (L => T)` gives `L => T`.
    HandOff { says: u32 },
    /// `A says (B quoting A => B for A)` gives `B quoting A => B for A`.
    Delegate { says: u32 },
}

/// A line of a derivation: what it says, and by which rule.
#[derive(Clone, Copy, PartialEq, Eq)]
pub struct Line {
    pub fact: Fact,
    pub step: Step,
}
