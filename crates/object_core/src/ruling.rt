//! What is ruled on an operation.

/// Whether an operation is performed.
#[derive(Clone, Copy, PartialEq, Eq)]
pub enum Ruling {
    /// By the entry of the access list that stands at this place.
    Granted { entry: u8 },
    Denied,
}
