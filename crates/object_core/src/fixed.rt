//! What never changes of an object.

use prin_term::Entry;
use std::sync::Arc;

/// What an object is opened with, and the limit of its journal.
#[derive(Drop)]
pub(crate) struct Fixed {
    pub number: u32,
    pub content: Vec<u8>,
    pub list: Arc<Vec<Entry>>,
    pub limit: u64,
}
