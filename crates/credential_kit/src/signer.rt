//! Who signs a certificate.

use std::fmt;

/// A key and its number. Its `Debug` prints the number alone.
#[derive(Clone, Copy, PartialEq, Eq)]
pub struct Signer {
    pub issuer: u32,
    pub key: [u8; 32],
}

impl fmt::Debug for Signer {
    fn fmt<W: fmt::Write>(&self, f: &mut fmt::Formatter<W>) -> fmt::Result {
        write!(f, "Signer {{ issuer: {}, .. }}", self.issuer)
    }
}
