//! The laws of the calculus, each the contract of a function that does nothing.

ghost use Rattle.std.specs.Prelude.{◌≡◌, ◌≢◌, ◌↔◌, ◌+◌, ◌<◌, ◌≤◌, ◌++◌, [], List, ℕ, Ok, Err};
ghost use Rattle.std.specs.Prelude.{length, All};
ghost use Rattle.byte_fields.specs.Formats.{IsFaultIn};
ghost use Rattle.byte_fields.specs.Steps.{IsByte};
ghost use Rattle.byte_fields.specs.declared.fault.FormatFault.{FormatFault as ProofFault};
ghost use Rattle.prin_term.specs.declared.term.Anchor.{Anchor};
ghost use Rattle.prin_term.specs.Principal.{Principal};
ghost use Rattle.byte_fields.specs.declared.fault.FormatFault.TheVariants.{Malformed, NoMemory};
ghost use Rattle.taos_calculus.specs.Rules.{Judgement, Claim, Line};
ghost use Rattle.taos_calculus.specs.Tables.{Parts, lines_of};
ghost use Rattle.taos_calculus.specs.Spelling.{numbered, proof_bytes, proof_spelling};
ghost use Rattle.taos_calculus.specs.Spells.{FitsProof, IsProofAt, Spells};
ghost use Rattle.taos_calculus.specs.ProofReading.{proof_at, proof_of};
ghost use Rattle.taos_calculus.specs.Having.{HaveParts, AreAlone};
ghost use Rattle.taos_calculus.specs.Saturation.{HasEveryFact};
ghost use Rattle.taos_calculus.specs.Reach.{KeepsReach, KnowsReach};
ghost use Rattle.taos_calculus.specs.Tidy.{StaysWithin, DerivesMore, CitesDiffer};
ghost use Rattle.taos_calculus.specs.Atoms.{AtomIsDecided};

/// Facts over a table that are closed under the rules within the table are all that is derivable
/// about it, though a derivation may name any principals whatever.
pub fn saturation_is_complete()
    ensures { (anchors : List Anchor) (claims : List Claim) (table : List Principal)
        (known : List Judgement) → HasEveryFact anchors claims table known }
{}

/// Why that is so, of facts that are closed: by each rule, where one speaks for another it reaches
/// whatever that one reaches, and whom a sayer reaches is known to say the same. A member is known
/// to speak for what it reaches.
pub fn rules_keep_reach()
    ensures keeps { (anchors : List Anchor) (claims : List Claim) (table : List Principal)
        (known : List Judgement) → KeepsReach anchors claims table known }
    ensures knows { (anchors : List Anchor) (claims : List Claim) (table : List Principal)
        (known : List Judgement) → KnowsReach anchors claims table known }
{}

/// What is derivable about the members of a table has a derivation that names members only.
pub fn derivations_stay_within()
    ensures { (anchors : List Anchor) (claims : List Claim) (table : List Principal) →
        StaysWithin anchors claims table }
{}

/// More certificates, in any order, derive no less.
pub fn certificates_only_add()
    ensures { (anchors : List Anchor) (claims more : List Claim) →
        DerivesMore anchors claims more }
{}

/// The certificates that a proof without waste cites say different things.
pub fn tidy_cites_differ()
    ensures { (anchors : List Anchor) (said : List Claim) (lines : List Line) (cites : List ℕ)
        (fact : Judgement) → CitesDiffer anchors said lines cites fact }
{}

/// Without certificates a key speaks for itself, for the names that its anchors give it, and for
/// no other key or name.
pub fn atoms_are_decided()
    ensures { (anchors : List Anchor) (k : ℕ) (w : Principal) → AtomIsDecided anchors k w }
{}

/// Every list of lines over principals has parts with a canonical table, which mean these lines.
pub fn lines_have_parts()
    ensures { (lines : List Line) → HaveParts lines }
{}

/// Parts with a canonical table that mean the same lines are the same.
pub fn canonical_parts_are_alone()
    ensures { (parts : Parts) → AreAlone parts }
{}

/// No bytes spell two proofs.
pub fn one_proof()
    ensures { (p q : Parts) (bytes : List ℕ) → Spells p bytes → Spells q bytes → p ≡ q }
{}

/// What is written is read back as the proof that it was.
pub fn written_is_read()
    ensures spelled { (p : Parts) → FitsProof p → Spells p (proof_spelling (lines_of p)) }
    ensures read { (p : Parts) → FitsProof p → proof_of (proof_spelling (lines_of p)) ≡ Ok p }
    ensures lines { (lines : List Line) → FitsProof (numbered lines)
        → proof_of (proof_spelling lines) ≡ Ok (numbered lines) }
{}

/// Reading as a function gives exactly the proof that all of the bytes spell. Other bytes are
/// refused at an offset, and never for memory.
pub fn proofs_are_read()
    ensures read { (bytes : List ℕ) (p : Parts) → All (λ b. b < 256) bytes
        → (proof_of bytes ≡ Ok p) ↔ Spells p bytes }
    ensures refused { (bytes : List ℕ) → proof_of bytes ≢ Err NoMemory }
{}

/// The same of a proof after its length, at an offset: what is read are its lines. Other bytes are
/// refused at one of them or right after the last.
pub fn counted_proofs_are_read()
    ensures read { (bytes : List ℕ) (lines : List Line) (at end : ℕ) → at ≤ length bytes
        → All IsByte bytes → (proof_at bytes at ≡ Ok (lines, end))
        ↔ (IsProofAt bytes at lines × (end ≡ at + length (proof_bytes lines))) }
    ensures refused { (bytes : List ℕ) (at : ℕ) (f : ProofFault) → at ≤ length bytes
        → All IsByte bytes → proof_at bytes at ≡ Err f → IsFaultIn bytes f }
{}

/// No spelling begins another: one that is cut is refused at the cut, and what follows one at its
/// first byte.
pub fn no_proper_prefix()
    ensures alone { (p q : Parts) (front more : List ℕ) → Spells p front
        → Spells q (front ++ more) → more ≡ [] }
    ensures cut { (p : Parts) (front more : List ℕ) → Spells p (front ++ more)
        → 0 < length more → proof_of front ≡ Err (Malformed (length front)) }
    ensures longer { (p : Parts) (bytes more : List ℕ) → Spells p bytes → 0 < length more
        → proof_of (bytes ++ more) ≡ Err (Malformed (length bytes)) }
{}
