//! Who is told what goes otherwise than well.

use crate::breakage::Breakage;
use std::net::SocketAddr;

/// Who is told what goes otherwise than well. No call may wait.
pub trait Watch {
    /// Whether a reply shows that its frame was sealed right.
    fn is_sealed(&self, reply: &[u8]) -> bool;

    /// A client was given a seat.
    fn came(&self);

    /// A client has left its seat.
    fn went(&self);

    /// A client was let go otherwise than in order.
    fn broke(&self, peer: SocketAddr, why: Breakage);

    /// Descriptors or memory lack, so that clients wait.
    fn scarce(&self);

    /// Each seat is taken, so that clients wait.
    fn full(&self);
}
