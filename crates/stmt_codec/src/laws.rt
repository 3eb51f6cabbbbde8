//! Laws of certificates, stated as contracts of functions that do nothing.

ghost use Rattle.std.specs.Prelude.{◌≡◌, ◌≢◌, ◌↔◌, ◌+◌, ◌<◌, ◌≤◌, ◌++◌};
ghost use Rattle.std.specs.Prelude.{ℕ, List, length, drop, Ok, Err, All, AllPairs, Contains};
ghost use Rattle.std.specs.Prelude.{◌⊎◌, IsTrue};
ghost use Rattle.prin_term.specs.Principal.{Principal};
ghost use Rattle.byte_fields.specs.declared.fault.FormatFault.{FormatFault};
ghost use Rattle.byte_fields.specs.declared.fault.FormatFault.TheVariants.{Malformed};
ghost use Rattle.byte_fields.specs.Formats.{IsFaultIn};
ghost use Rattle.byte_fields.specs.Steps.{IsByte};
ghost use Rattle.stmt_codec.specs.declared.limits.TheConstants.{MAX_BODY_LEN};
ghost use Rattle.stmt_codec.specs.Certificates.{Certificate, FitsBody, body_spelling};
ghost use Rattle.stmt_codec.specs.Certificates.{HasBodySpelling, IsBodyAt, IsWithinLimits};
ghost use Rattle.stmt_codec.specs.Certificates.{is_live, is_dead, IsLive, IsDead, IsEarly, live};
ghost use Rattle.stmt_codec.specs.Distinct.{first_of_each};
ghost use Rattle.stmt_codec.specs.Reading.{body_at};

/// No body's spelling begins another's, and each certificate has one.
pub fn one_body_spelling()
    ensures { (a b : Certificate) (x y : List ℕ) → HasBodySpelling a → HasBodySpelling b
        → body_spelling a ++ x ≡ body_spelling b ++ y → (a ≡ b) × (x ≡ y) }
{}

/// Input that ends inside a spelling is refused at its end.
pub fn short_bodies_are_refused()
    ensures { (bytes more : List ℕ) (at : ℕ) (c : Certificate) → at ≤ length bytes
        → FitsBody c → body_spelling c ≡ drop at bytes ++ more → 0 < length more
        → body_at bytes at ≡ Err (Malformed (length bytes)) }
{}

/// The list of distinct parts has what the whole list has, and nothing twice.
pub fn each_part_is_counted_once()
    ensures members { (ps : List Principal) (p : Principal)
        → Contains (first_of_each ps) p ↔ Contains ps p }
    ensures apart { (ps : List Principal) → AllPairs (λ p q. p ≢ q) (first_of_each ps) }
{}

/// Reading as a function gives exactly the certificate that is spelled at the offset within the
/// limits, and the offset after it. Other bytes are refused at one of them or right after the last,
/// and never for memory.
pub fn bodies_are_read()
    ensures read { (bytes : List ℕ) (at end : ℕ) (c : Certificate) → at ≤ length bytes
        → All IsByte bytes → (body_at bytes at ≡ Ok (c, end))
        ↔ (IsBodyAt bytes at c × (end ≡ at + length (body_spelling c))) }
    ensures refused { (bytes : List ℕ) (at : ℕ) (f : FormatFault) → at ≤ length bytes
        → All IsByte bytes → body_at bytes at ≡ Err f → IsFaultIn bytes f }
{}

/// A body within the limits is at most so long.
pub fn a_body_has_at_most()
    ensures { (c : Certificate) → IsWithinLimits c → length (body_spelling c) ≤ MAX_BODY_LEN }
{}

/// The tests tell which certificates are live and which have ended. One that is not live has ended or
/// is early, never both. The live ones of a list are its members that are.
pub fn the_live_are_told()
    ensures told { (moment : ℕ) (c : Certificate) → IsTrue (is_live moment c) ↔ IsLive moment c }
    ensures ended { (moment : ℕ) (c : Certificate) → IsTrue (is_dead moment c) ↔ IsDead moment c }
    ensures others { (moment : ℕ) (c : Certificate)
        → (¬ IsLive moment c) ↔ (IsDead moment c ⊎ IsEarly moment c) }
    ensures apart { (moment : ℕ) (c : Certificate) → IsDead moment c → ¬ IsEarly moment c }
    ensures members { (certs : List Certificate) (moment : ℕ) (c : Certificate)
        → Contains (live certs moment) c ↔ (Contains certs c × IsLive moment c) }
{}
