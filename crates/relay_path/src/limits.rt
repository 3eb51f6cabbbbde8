//! The limits of paths and of their files, and the first byte of a certificate on its way.

/// The first byte of a certificate that visited a domain.
pub const CARRIED: u8 = 3;
/// The most domains that a certificate may have visited.
pub const MAX_VISITED: usize = 3;
/// The most domains of a route.
pub const MAX_ROUTE: usize = 4;
/// The most domains of a file.
pub const MAX_DOMAINS: usize = 16;
/// The most issuers of a domain.
pub const MAX_ISSUERS: usize = 1_024;
/// The most nodes of a domain.
pub const MAX_NODES: usize = 1_024;
/// The most domains that a domain is linked with.
pub const MAX_LINKS: usize = 15;
