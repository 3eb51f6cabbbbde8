//! Kept proofs, the most recently used first.

ghost use Rattle.std.specs.Prelude.{◌≡◌, [], IfOk};
ghost use Rattle.std.specs.List.{find, list_any};
ghost use Rattle.std.specs.Option.{option_map};
ghost use Rattle.std.specs.Arc.{arc_value};
ghost use Rattle.prin_term.specs.View.{principal};
ghost use Rattle.proof_cache.specs.Cached.{cached};
ghost use Rattle.proof_cache.specs.Cache.{cites_issuer, cites_it, has_lapsed, is_for, is_of_channel, keeping, to_front, without};

use crate::cached::Cached;
use crate::kept::{bring, drop_citing, drop_issued, drop_lapsed, drop_on, place_of, put};
use crate::row::{MAX_KEPT, Row};
use prin_term::Term;
use std::alloc::{AllocError, Global};
use std::marker::Model;
use std::sync::Arc;

/// Kept proofs. A contract sees them as a list of at most 64, the most recently used first, no two
/// of which are for the same subject and principal. Only `new` takes memory.
#[derive(Drop)]
pub struct Cache {
    rows: Vec<Row>,
}

impl Model for Cache {
    ghost use Rattle.std.specs.Prelude.{◌≤◌, List, map, vec_capacity};
    ghost use Rattle.std.specs.Coded.{codes};
    ghost use Rattle.prin_term.specs.Codes.{principal_code};
    ghost use Rattle.proof_cache.specs.Cached.{Cached};
    ghost use Rattle.proof_cache.specs.Cache.{IsCache, kept};
    ghost use Rattle.proof_cache.specs.declared.row.TheConstants.{MAX_KEPT};

    ghost Value = { List Cached };

    ghost coded = { Prim.hlevel (codes, principal_code) };

    ghost view = { λ c. map kept c.rows.items };

    // The room for all was taken at the start.
    ghost invariant = { λ c. IsCache (map kept c.rows.items) × (MAX_KEPT ≤ vec_capacity c.rows) };
}

impl Cache {
    /// Keeps nothing yet, and has the room for all that it may keep.
    pub fn new(alloc: Global) -> Result<Cache, AllocError>
        ensures { IfOk result (λ c. c ≡ []) }
    {
        Ok(Cache {
            rows: Vec::with_capacity(alloc, MAX_KEPT)?,
        })
    }

    /// The proof that is kept for the subject and the principal. It stays where it is.
    pub fn peek(&self, subject: &Term, who: &Term) -> Option<&Arc<Cached>>
        ensures { option_map (λ c. cached (arc_value c.now)) result
            ≡ find (is_for (principal subject.now) (principal who.now)) self.now }
    {
        match place_of(&self.rows, subject, who) {
            Some(place) => Some(&self.rows[place].proof),
            None => None,
        }
    }

    /// Brings the proof that is kept for the subject and the principal to the front, and says
    /// whether there is one.
    pub fn find(&mut self, subject: &Term, who: &Term) -> bool
        ensures found { result ≡ list_any (is_for (principal subject.now) (principal who.now))
            self.old }
        ensures moved { self.new ≡ to_front (is_for (principal subject.now) (principal who.now))
            self.old }
    {
        bring(&mut self.rows, subject, who)
    }

    /// Keeps a proof, in front. One that is kept for the same subject and principal is dropped;
    /// else, where as many are kept as can be, the last.
    pub fn keep(&mut self, proof: Arc<Cached>)
        ensures { self.new ≡ keeping (cached proof.value) self.old }
    {
        put(&mut self.rows, proof);
    }

    /// Drops the proofs that cite a certificate of the digest.
    pub fn purge_cert(&mut self, digest: &[u8; 32])
        ensures { self.new ≡ without (cites_it digest.now) self.old }
    {
        drop_citing(&mut self.rows, digest);
    }

    /// Drops the proofs that cite a certificate of the issuer.
    pub fn purge_issuer(&mut self, issuer: u32)
        ensures { self.new ≡ without (cites_issuer issuer) self.old }
    {
        drop_issued(&mut self.rows, issuer);
    }

    /// Drops the proofs whose lease has ended by the clock.
    pub fn purge_before(&mut self, clock: u64)
        ensures { self.new ≡ without (has_lapsed clock) self.old }
    {
        drop_lapsed(&mut self.rows, clock);
    }

    /// Drops the proofs whose subject is the channel's key, alone or quoting.
    pub fn purge_channel(&mut self, channel: u32)
        ensures { self.new ≡ without (is_of_channel channel) self.old }
    {
        drop_on(&mut self.rows, channel);
    }
}
