//! Certificates that were read, by the spellings of their bodies.

ghost use Rattle.std.specs.Prelude.{◌≡◌, ◌<◌, IfOk, IfSome};
ghost use Rattle.stmt_codec.specs.Certificates.{body_spelling, certificate};
ghost use Rattle.stmt_codec.specs.View.{certificate_of};

use crate::cert::Cert;
use std::alloc::{AllocError, Global};
use std::sync::Arc;

// How many are kept at the most.
const SLOTS: usize = 1_021;

/// A certificate, and the spelling of its body.
#[derive(Drop)]
pub(crate) struct Known {
    pub text: Vec<u8>,
    pub cert: Arc<Cert>,
    pub ghost spelled: { text.items ≡ body_spelling (certificate cert.value.body) },
}

/// The certificates that were read last, each in a slot by its body's spelling. No clause sees which:
/// what is kept is what its bytes read to.
#[derive(Drop)]
pub struct KnownBodies {
    slots: Vec<Option<Known>>,
}

fn slot_of(text: &[u8], count: usize) -> usize
    requires { 0 < count }
    ensures { result < count }
{
    let mut mark: u64 = 0;
    for byte in text {
        mark = mark.wrapping_mul(257).wrapping_add(*byte as u64);
    }
    (mark % count as u64) as usize
}

impl KnownBodies {
    /// Keeps none, and takes no memory.
    pub fn none(alloc: Global) -> KnownBodies {
        KnownBodies {
            slots: Vec::new(alloc),
        }
    }

    /// Keeps some, and none yet.
    pub fn new(alloc: Global) -> Result<KnownBodies, AllocError> {
        let mut slots = Vec::with_capacity(alloc, SLOTS)?;
        for _ in 0..SLOTS {
            slots.push(None)?;
        }
        Ok(KnownBodies { slots })
    }

    // A handle to the certificate whose body is spelled so, where it is kept.
    pub(crate) fn handle_to(&self, text: &[u8]) -> Result<Option<Arc<Cert>>, AllocError>
        ensures { IfOk result (λ found. IfSome found
            (λ handle. text.now ≡ body_spelling (certificate_of handle))) }
    {
        if self.slots.is_empty() {
            return Ok(None);
        }
        match &self.slots[slot_of(text, self.slots.len())] {
            Some(known) => {
                if known.text.as_slice() == text {
                    Ok(Some(Arc::try_clone(&known.cert)?))
                } else {
                    Ok(None)
                }
            }
            None => Ok(None),
        }
    }

    // Keeps one more, in place of another where the slot has one.
    pub(crate) fn keep(
        &mut self,
        alloc: Global,
        text: &[u8],
        cert: &Arc<Cert>,
    ) -> Result<(), AllocError>
        requires { text.now ≡ body_spelling (certificate_of cert.now) }
    {
        if self.slots.is_empty() {
            return Ok(());
        }
        let slot = slot_of(text, self.slots.len());
        let text = text.to_vec(alloc)?;
        let cert = Arc::try_clone(cert)?;
        self.slots[slot] = Some(Known { text, cert });
        Ok(())
    }
}
