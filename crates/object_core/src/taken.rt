//! What is remembered of an object that is taken.

use crate::object::Object;
use std::snapshot::Snapshot;

/// The place of an object that is taken, and the object as it was then, for contracts alone.
#[derive(Drop)]
pub(crate) struct Taken {
    pub(crate) place: usize,
    pub(crate) object: Snapshot<Object>,
}
