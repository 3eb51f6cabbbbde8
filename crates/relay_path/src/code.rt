//! The codes by which a path is refused, beside those of a relay.

/// The domain has no key of the one that the certificate visited last.
pub const UNKNOWN_SENDER: u8 = 7;

/// The certificate would come to a domain a second time.
pub const LOOP: u8 = 8;

/// The certificate visited as many domains as it may.
pub const TOO_FAR: u8 = 9;

/// The domain has no key of the domain that comes next.
pub const UNKNOWN_PEER: u8 = 10;

/// There is no domain of the number.
pub const UNKNOWN_DOMAIN: u8 = 11;
