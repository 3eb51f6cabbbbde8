//! Whom a domain passes a certificate to, and what is answered.

/// Whom a domain passes a certificate to.
#[derive(Clone, Copy, PartialEq, Eq)]
pub enum Target {
    /// A node of the domain.
    Node(u32),
    /// Another domain.
    Peer(u32),
}

/// What a domain answers.
#[derive(Clone, Copy, PartialEq, Eq)]
pub enum HopAnswer {
    /// The new certificate is there.
    Passed,
    /// There is none, for the reason that the code names.
    Refused { code: u8 },
    /// Memory was refused.
    NoMemory,
}

/// How a route ended.
#[derive(Clone, Copy, PartialEq, Eq)]
pub enum Along {
    /// The lines are there.
    Done,
    /// The place of the route, from 0, at which it stopped, and why.
    Refused { hop: u8, code: u8 },
    /// Memory was refused.
    NoMemory,
}
