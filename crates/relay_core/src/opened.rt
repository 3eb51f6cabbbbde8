//! The certificates that a node opened last.

ghost use Rattle.std.specs.Prelude.{◌≡◌, Contains, IfOk, IfSome, MatchResult};
ghost use Rattle.std.specs.Arc.{arc_value};
ghost use Rattle.byte_fields.specs.Steps.{Gives};
ghost use Rattle.sealed_cert.specs.declared.fault.SealFault.TheVariants.{NoMemory};
ghost use Rattle.sealed_cert.specs.Refusals.{opened};
ghost use Rattle.sealed_cert.specs.Seals.{Opens};
ghost use Rattle.stmt_codec.specs.Certificates.{Certificate, certificate};
ghost use Rattle.stmt_codec.specs.declared.cert.Cert.{Cert as CertValue};
ghost use Rattle.relay_core.specs.Opened.{IsKeptBy, KeepsAtMost, Kept};

use keyed_seal::Sealer;
use lru::LruCache;
use sealed_cert::{SealFault, open_with};
use std::alloc::Global;
use std::marker::Model;
use std::num::NonZeroUsize;
use std::sync::Arc;
use stmt_codec::Cert;

/// The most certificates that are kept at a time.
pub const OPENED_ROOM: usize = 256;

// Bytes, and the certificate that they opened to.
#[derive(Drop)]
pub(crate) struct KeptCert {
    bytes: Vec<u8>,
    cert: Arc<Cert>,
}

// The number by which bytes are looked for: their last eight, which are of a tag. So equal numbers
// of other bytes are as rare as equal tags.
fn number_of(text: &[u8]) -> u64 {
    match text.last_chunk::<8>() {
        Some(last) => u64::from_be_bytes(*last),
        None => 0,
    }
}

// The certificate that is kept by the bytes, which becomes the one used last.
fn recall(certs: &mut LruCache<u64, KeptCert>, text: &[u8]) -> Option<Arc<Cert>>
    ensures kept { IfSome result
        (λ c. IsKeptBy certs.old.entries text.now (arc_value c)) }
    ensures no_more { (e : Kept) → Contains certs.new.entries e → Contains certs.old.entries e }
{
    let number = number_of(text);
    let kept = certs.peek(&number)?;
    if kept.bytes.as_slice() != text {
        return None;
    }
    match Arc::try_clone(&kept.cert) {
        Ok(cert) => {
            certs.promote(&number);
            Some(cert)
        }
        Err(_) => None,
    }
}

// Keeps a certificate by its bytes, unless memory is refused.
fn keep(certs: &mut LruCache<u64, KeptCert>, alloc: Global, text: &[u8], cert: &Arc<Cert>)
    ensures { KeepsAtMost certs.old.entries certs.new.entries text.now
        (arc_value cert.now) }
{
    let Ok(bytes) = text.to_vec(alloc) else {
        return;
    };
    if let Ok(cert) = Arc::try_clone(cert) {
        drop(certs.put(number_of(text), KeptCert { bytes, cert }));
    }
}

/// A node's key, and the certificates that were last opened under it, each by its bytes. A contract
/// sees the key: what bytes open to is a function of them and of it, so what is kept shows nowhere.
#[derive(Drop)]
pub struct OpenedCerts {
    key: Sealer,
    certs: Option<LruCache<u64, KeptCert>>,
}

impl Model for OpenedCerts {
    ghost use Rattle.std.specs.Prelude.{List, ℕ};
    ghost use Rattle.relay_core.specs.Opened.{HoldsOpen};

    ghost Value = { List ℕ };

    ghost view = { λ o. o.key };

    // What is kept by bytes is what they open to.
    ghost invariant = { λ o. HoldsOpen o.key o.certs };
}

impl OpenedCerts {
    /// Keeps none.
    pub fn keeping_none(key: &Sealer) -> OpenedCerts
        ensures { result ≡ key.now }
    {
        OpenedCerts {
            key: Sealer::of(key.key()),
            certs: None,
        }
    }

    /// Keeps the last `OPENED_ROOM` that are opened, or none where memory is refused.
    pub fn new(alloc: Global, key: &Sealer) -> OpenedCerts
        ensures { result ≡ key.now }
    {
        let certs = match NonZeroUsize::new(OPENED_ROOM) {
            Some(room) => LruCache::sparse(alloc, room).ok(),
            None => None,
        };
        OpenedCerts {
            key: Sealer::of(key.key()),
            certs,
        }
    }

    fn recall(&mut self, text: &[u8]) -> Option<Arc<Cert>>
        ensures opens { IfSome result
            (λ c. Opens self.old text.now (certificate (arc_value c).body)) }
        ensures key { self.new ≡ self.old }
    {
        match &mut self.certs {
            Some(certs) => recall(certs, text),
            None => None,
        }
    }

    fn keep(&mut self, alloc: Global, text: &[u8], cert: &Arc<Cert>)
        requires { Opens self.old text.now (certificate (arc_value cert.now).body) }
        ensures { self.new ≡ self.old }
    {
        if let Some(certs) = &mut self.certs {
            keep(certs, alloc, text, cert);
        }
    }

    // The certificate that the bytes open to under the key. One that is kept by these bytes costs
    // no seal.
    pub(crate) fn open(&mut self, alloc: Global, text: &[u8]) -> Result<Arc<Cert>, SealFault>
        ensures found { IfOk result
            (λ c. Opens self.old text.now (certificate (arc_value c).body)) }
        ensures only { (d : Certificate) → Opens self.old text.now d → MatchResult result
            (λ c. certificate (arc_value {X = CertValue} c).body ≡ d) (λ e. e ≡ NoMemory) }
        ensures exact { Gives NoMemory
            (λ c. certificate (arc_value {X = CertValue} c).body) result
            (opened self.old text.now) }
        ensures key { self.new ≡ self.old }
    {
        if let Some(cert) = self.recall(text) {
            return Ok(cert);
        }
        let cert = open_with(alloc, &self.key, text)?;
        let Ok(cert) = Arc::new(alloc, cert) else {
            return Err(SealFault::NoMemory);
        };
        self.keep(alloc, text, &cert);
        Ok(cert)
    }
}
