//! Certificates that a shard holds.

pub(crate) mod book;
pub(crate) mod name;
pub(crate) mod naming;
pub(crate) mod newness;
pub(crate) mod presented;
pub(crate) mod removal;
pub(crate) mod snapshot;
pub(crate) mod withdrawn;
