//! A notice as it waits for who writes it. What it tells of a request is bytes, which go to another
//! thread as they are: a principal is made of others.

use crate::texts::notice::{Happening, Notice};
use std::alloc::Global;
use std::net::SocketAddr;
use taos_wire::{Request, read_request};

// The bytes of a certificate's length.
const LENGTH: usize = 2;

// No certificate, and a tag that nobody reads.
const NO_CERTS: [u8; 33] = [0; 33];

/// A notice that waits.
#[derive(Drop)]
pub(crate) struct Letter {
    pub seconds: Option<u64>,
    pub lane: usize,
    pub peer: Option<SocketAddr>,
    pub what: Happening,
    /// The request that was replied to, as `bare_of` has it.
    pub asked: Option<Vec<u8>>,
}

impl Letter {
    /// The notice.
    pub(crate) fn open(self, alloc: Global) -> Notice {
        let Letter {
            seconds,
            lane,
            peer,
            what,
            asked,
        } = self;
        let request = match &asked {
            Some(bytes) => read_request(alloc, bytes).ok(),
            None => None,
        };
        Notice {
            seconds,
            lane,
            peer,
            what,
            request,
        }
    }
}

/// The bytes of a request, without what it presents: that is told nowhere. `None` where memory lacks.
pub(crate) fn bare_of(alloc: Global, bytes: &[u8], request: &Request) -> Option<Vec<u8>> {
    let mut behind = NO_CERTS.len();
    for cert in &request.certs {
        behind = behind.saturating_add(LENGTH).saturating_add(cert.len());
    }
    let count = bytes.len().checked_sub(behind)?;
    let mut bare = Vec::new(alloc);
    bare.extend_from_slice(bytes.get(..count)?).ok()?;
    bare.extend_from_slice(&NO_CERTS).ok()?;
    Some(bare)
}
