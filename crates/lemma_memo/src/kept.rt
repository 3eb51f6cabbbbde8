//! Lemmas as they are kept, each by its key.

ghost use Rattle.std.specs.Prelude.{◌≡◌, ◌⊎◌, ◌↔◌, ℕ, List, ◌∷◌, ◌++◌, IsTrue, IfOk, OnOk, OnErr, IfSome};
ghost use Rattle.std.specs.Prelude.{Contains, IsNone, IsSome, Some, bytes_eq};
ghost use Rattle.std.specs.Int.{w32, to_be_bytes};
ghost use Rattle.std.specs.List.{AllZip};
ghost use Rattle.std.specs.Map.{lookup};
ghost use Rattle.lru.specs.LruCache.{lru_cache, promoted, IsValid};
ghost use Rattle.sha2.specs.Hashers.{Holds256};
ghost use Rattle.prin_term.specs.Principal.{spelling};
ghost use Rattle.prin_term.specs.View.{principal};
ghost use Rattle.lemma_memo.specs.Kept.{AreKeyed, Entry, IsFor, IsHit, IsKeptOf, IsMarked};
ghost use Rattle.lemma_memo.specs.Kept.{PutsLemma};
ghost use Rattle.lemma_memo.specs.Memory.{key_of};

use crate::here::{Here, Numbers, Places, numbers_of, places_of};
use lru::LruCache;
use prin_term::Term;
use sha2::{Digest, Sha256};
use std::alloc::{AllocError, Global};
use taos_calculus::{Proof, Taken};

/// A lemma, whose cites are numbers of commons.
#[derive(Drop)]
pub struct Kept {
    pub left: Term,
    pub right: Term,
    pub proof: Proof,
    pub cites: Numbers,
}

/// The SHA-256 of the spellings of two terms, one after the other.
pub type Key = [u8; 32];

// Takes in an atom's spelling.
fn feed_atom(hasher: &mut Sha256, tag: u8, number: u32)
    ensures { (held : List ℕ) → Holds256 hasher.old held
        → Holds256 hasher.new (held ++ tag ∷ to_be_bytes w32 number) }
{
    hasher.update(&[tag]);
    hasher.update(&number.to_be_bytes());
}

// Takes in the spelling of the term.
fn feed(hasher: &mut Sha256, term: &Term)
    ensures { (held : List ℕ) → Holds256 hasher.old held
        → Holds256 hasher.new (held ++ spelling (principal term.now)) }
{
    match term {
        Term::Key(key) => feed_atom(hasher, 1, *key),
        Term::Name(name) => feed_atom(hasher, 2, *name),
        Term::And(left, right) => {
            hasher.update(&[3]);
            feed(hasher, left);
            feed(hasher, right);
        }
        Term::Quote(left, right) => {
            hasher.update(&[4]);
            feed(hasher, left);
            feed(hasher, right);
        }
        Term::AsRole(base, role) => {
            hasher.update(&[5]);
            feed(hasher, base);
            hasher.update(&role.to_be_bytes());
        }
        Term::For(left, right) => {
            hasher.update(&[6]);
            feed(hasher, left);
            feed(hasher, right);
        }
    }
}

fn key_of(left: &Term, right: &Term) -> Key
    ensures { result ≡ key_of (principal left.now) (principal right.now) }
{
    let mut hasher = Sha256::new();
    feed(&mut hasher, left);
    feed(&mut hasher, right);
    hasher.finalize()
}

impl Kept {
    fn is_for(&self, left: &Term, right: &Term) -> bool
        ensures { IsTrue result ↔ IsFor (principal left.now) (principal right.now) self.now }
    {
        self.left.same(left) && self.right.same(right)
    }

    // The proof of these terms, if it rests on commons alone and memory is there.
    fn of(alloc: Global, here: &Here, left: &Term, right: &Term, taken: &Taken) -> Option<Kept>
        ensures { IfSome result (IsKeptOf here.now.items (principal left.now)
            (principal right.now) taken.now) }
    {
        let cites = numbers_of(here, &taken.cites)?;
        Some(Kept {
            left: left.copy(alloc).ok()?,
            right: right.copy(alloc).ok()?,
            proof: taken.proof.copy(alloc).ok()?,
            cites,
        })
    }

    // The proof, citing these places.
    fn taken(&self, alloc: Global, places: &Places) -> Result<Taken, AllocError>
        ensures proof { IfOk result (λ t. t.proof ≡ self.now.proof) }
        ensures cites { IfOk result (λ t. t.cites.items ≡ places.now.items) }
    {
        Ok(Taken {
            proof: self.proof.copy(alloc)?,
            cites: Vec::from_slice(alloc, places)?,
        })
    }
}

// Where the cites stand of the lemma that is kept by this key, if it serves.
fn hit(
    lemmas: &LruCache<Key, Kept>,
    here: &Here,
    key: &Key,
    left: &Term,
    right: &Term,
) -> Option<Places>
    ensures hit { IfSome result (λ places. IsHit lemmas.now.entries here.now.items key.now
        (principal left.now) (principal right.now) places.items) }
    ensures none { IsNone result → (places : List ℕ) → IsHit lemmas.now.entries here.now.items
        key.now (principal left.now) (principal right.now) places → ⊥ }
{
    let kept = lemmas.peek(key)?;
    if !kept.is_for(left, right) {
        return None;
    }
    places_of(here, &kept.cites)
}

/// The key of the lemma that serves, and where its cites stand. It is looked for first by the key
/// that served last.
pub fn search(
    lemmas: &LruCache<Key, Kept>,
    here: &Here,
    last: &Key,
    left: &Term,
    right: &Term,
) -> Option<(Key, Places)>
    requires { AreKeyed lemmas.now.entries }
    ensures hit { IfSome result (λ r. IsHit lemmas.now.entries here.now.items r.0
        (principal left.now) (principal right.now) r.1.items) }
    ensures none { IsNone result → (e : Entry) (places : List ℕ)
        → Contains lemmas.now.entries e → IsFor (principal left.now) (principal right.now) e.1
        → AllZip (IsMarked here.now.items) places e.1.cites.items → ⊥ }
{
    if lemmas.len() == 0 {
        return None;
    }
    if let Some(places) = hit(lemmas, here, last, left, right) {
        return Some((*last, places));
    }
    let key = key_of(left, right);
    let places = hit(lemmas, here, &key, left, right)?;
    Some((key, places))
}

/// The lemma of this key as a proof that cites these places. It becomes the one used last.
pub fn recall(
    lemmas: &mut LruCache<Key, Kept>,
    alloc: Global,
    key: &Key,
    places: &Places,
) -> Result<Taken, AllocError>
    requires { IsSome (lookup (bytes_eq key.now) lemmas.old.entries) }
    ensures proof { IfOk result (λ t. (k : Kept) → lookup (bytes_eq key.now) lemmas.old.entries ≡ Some k
        → (t.proof ≡ k.proof) × (t.cites.items ≡ places.now.items)) }
    ensures used { OnOk result (lemmas.new
        ≡ lru_cache (promoted (bytes_eq key.now) lemmas.old.entries) lemmas.old.cap) }
    ensures stays { OnErr result (lemmas.new ≡ lemmas.old) }
    ensures valid { IsValid bytes_eq lemmas.old }
{
    let _known = lemmas.len();
    let kept = lemmas.peek(key).unwrap();
    let taken = kept.taken(alloc, places)?;
    lemmas.promote(key);
    Ok(taken)
}

/// Keeps the proof of these terms, if it rests on commons alone and memory is there.
pub fn keep(
    lemmas: &mut LruCache<Key, Kept>,
    alloc: Global,
    here: &Here,
    left: &Term,
    right: &Term,
    taken: &Taken,
)
    ensures kept { (lemmas.new ≡ lemmas.old)
        ⊎ PutsLemma lemmas.old lemmas.new here.now.items (principal left.now)
        (principal right.now) taken.now }
    ensures valid { IsValid bytes_eq lemmas.old }
{
    let _known = lemmas.len();
    if let Some(kept) = Kept::of(alloc, here, left, right, taken) {
        drop(lemmas.put(key_of(left, right), kept));
    }
}
