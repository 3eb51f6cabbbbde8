//! Requests.

use object_core::Op;
use prin_term::Term;
use std::sync::Arc;

/// The most certificates that a request presents.
pub const MAX_CERTS: u8 = 16;

/// What a channel asks: its number, the request's number in the channel's order, the principal
/// that it quotes, the object, the operation, and the certificates that it presents, as bytes
/// that are not opened yet.
#[derive(Drop)]
pub struct Request {
    pub channel: u32,
    pub seq: u64,
    pub quoted: Option<Term>,
    pub object: u32,
    pub op: Arc<Op>,
    pub certs: Vec<Vec<u8>>,
}
