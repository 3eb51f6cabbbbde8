//! What a shard holds: its clock, names of certificates, and the issuers that are withdrawn.

use crate::held::name::Names;
use crate::held::withdrawn::Withdrawn;

/// A channel.
#[derive(Drop)]
pub(crate) struct Row {
    /// The last number that was taken.
    pub last: u64,
    /// How long the journal was when the row was swept last.
    pub swept: u64,
    pub own: Names,
}

#[derive(Drop)]
pub(crate) struct Store {
    pub clock: u64,
    /// How long the journal was behind the last entry that swept. Rows are swept when they are met.
    pub swept: u64,
    pub commons: Names,
    pub withdrawn: Withdrawn,
    /// A row for each channel, in their order.
    pub rows: Vec<Row>,
}
