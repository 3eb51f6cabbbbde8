//! Laws of spellings, stated as contracts of functions that do nothing.

ghost use Rattle.std.specs.Prelude.{◌≡◌, ◌↔◌, ◌+◌, ◌<◌, ◌≤◌, ◌++◌};
ghost use Rattle.std.specs.Prelude.{length, drop, List, ℕ, All, Ok, Err};
ghost use Rattle.prin_term.specs.declared.fault.TermFault.{TermFault};
ghost use Rattle.prin_term.specs.declared.fault.TermFault.TheVariants.{Short};
ghost use Rattle.prin_term.specs.declared.limits.TheConstants.{MAX_DEPTH};
ghost use Rattle.prin_term.specs.Principal.{Principal, spelling, HasSpelling};
ghost use Rattle.prin_term.specs.Reading.{term_at};
ghost use Rattle.prin_term.specs.Refusal.{FitsLimits, IsTermAt, IsRefused};
ghost use Rattle.byte_fields.specs.Steps.{IsByte};

/// No spelling begins another, and each term has one.
pub fn one_spelling()
    ensures { (a b : Principal) (x y : List ℕ) → HasSpelling a → HasSpelling b
        → spelling a ++ x ≡ spelling b ++ y → (a ≡ b) × (x ≡ y) }
{}

/// A proper prefix of a spelling is refused at its end, as too short; a spelling is read whatever
/// follows it.
pub fn prefixes_are_short()
    ensures prefix { (nodes at : ℕ) (t : Principal) (front more : List ℕ) → FitsLimits nodes t
        → spelling t ≡ front ++ more → 0 < length more
        → IsRefused MAX_DEPTH nodes front at (Short (at + length front)) }
    ensures longer { (nodes : ℕ) (t : Principal) (rest : List ℕ) → FitsLimits nodes t
        → IsTermAt nodes (spelling t ++ rest) 0 t }
{}

/// Reading as a function gives exactly the term that is spelled at the offset within the limits,
/// and the offset after it; or the fault with which the bytes are refused, and never out of memory.
pub fn terms_are_read()
    ensures read { (nodes at end : ℕ) (bytes : List ℕ) (t : Principal) → at ≤ length bytes
        → All IsByte bytes → (term_at nodes bytes at ≡ Ok (t, end))
        ↔ (IsTermAt nodes bytes at t × (end ≡ at + length (spelling t))) }
    ensures refused { (nodes at : ℕ) (bytes : List ℕ) (f : TermFault) → at ≤ length bytes
        → All IsByte bytes → (term_at nodes bytes at ≡ Err f)
        ↔ IsRefused MAX_DEPTH nodes (drop at bytes) at f }
{}
