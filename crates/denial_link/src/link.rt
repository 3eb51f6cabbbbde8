//! What a denial names.

/// The first missing, expired or early link. An entry is named by its place in the access list.
#[derive(Clone, Copy, PartialEq, Eq, Hash)]
pub enum Link {
    /// The certificate at this place would have been enough, with those that end later.
    Expired { entry: u8, cert: u8 },
    /// The certificate at this place would have been enough, with those that have ended and those
    /// that begin earlier.
    Early { entry: u8, cert: u8 },
    /// Nobody whom the subject names speaks for this part of the entry: its place in pre-order.
    Missing { entry: u8, node: u8 },
    /// No entry has the right.
    NoEntry,
}
