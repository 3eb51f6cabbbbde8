//! An object that a node is opened with.

use prin_term::Entry;
use std::sync::Arc;

/// A guarded object: its number, its content, and its access list in order.
#[derive(Drop)]
pub struct ObjectPlan {
    pub number: u32,
    pub content: Vec<u8>,
    pub list: Arc<Vec<Entry>>,
}
