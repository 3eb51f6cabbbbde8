//! Laws of sealed certificates, stated as contracts of functions that do nothing.

ghost use Rattle.std.specs.Prelude.{◌≡◌, ◌↔◌, ◌<◌, ◌∷◌, ◌++◌, ℕ, List, All, length};
ghost use Rattle.std.specs.Prelude.{None, Some, Ok, Err};
ghost use Rattle.keyed_seal.specs.Keys.{Entries, key_of};
ghost use Rattle.stmt_codec.specs.Certificates.{Certificate, HasBodySpelling, IsWithinLimits};
ghost use Rattle.sealed_cert.specs.Causes.{IsRefused, IsRefusedIssued};
ghost use Rattle.sealed_cert.specs.declared.fault.SealFault.{SealFault};
ghost use Rattle.sealed_cert.specs.declared.fault.SealFault.TheVariants.{Malformed, WrongKind};
ghost use Rattle.sealed_cert.specs.declared.fault.SealFault.TheVariants.{UnknownIssuer, BadSeal};
ghost use Rattle.sealed_cert.specs.Seals.{sealed, Spells};
ghost use Rattle.sealed_cert.specs.Seals.{IsBadTag, IsSealed, Opens, OpensIssued};
ghost use Rattle.sealed_cert.specs.Refusals.{opened, opened_issued};

use crate::kind::{ISSUED, RELAYED};

/// A sealed body opens to itself.
pub fn a_sealed_body_opens()
    ensures relayed { (key : List ℕ) (c : Certificate) → HasBodySpelling c → IsWithinLimits c
        → opened key (sealed RELAYED key c) ≡ Ok c }
    ensures issued { (entries : Entries) (key : List ℕ) (c : Certificate) → HasBodySpelling c
        → IsWithinLimits c → key_of entries c.issuer ≡ Some key
        → opened_issued entries (sealed ISSUED key c) ≡ Ok c }
{}

/// Opening as a function gives exactly the certificates that the bytes are sealed for, and refuses
/// other bytes exactly by what is wrong with them first, which is never memory.
pub fn sealed_bytes_are_opened()
    ensures relayed { (key bytes : List ℕ) (c : Certificate) → All (λ b. b < 256) bytes
        → (opened key bytes ≡ Ok c) ↔ Opens key bytes c }
    ensures issued { (entries : Entries) (bytes : List ℕ) (c : Certificate)
        → All (λ b. b < 256) bytes
        → (opened_issued entries bytes ≡ Ok c) ↔ OpensIssued entries bytes c }
    ensures relayed_refused { (key bytes : List ℕ) (f : SealFault) → All (λ b. b < 256) bytes
        → (opened key bytes ≡ Err f) ↔ IsRefused key bytes f }
    ensures issued_refused { (entries : Entries) (bytes : List ℕ) (f : SealFault)
        → All (λ b. b < 256) bytes
        → (opened_issued entries bytes ≡ Err f) ↔ IsRefusedIssued entries bytes f }
{}

/// Bytes of one kind never open as the other.
pub fn kinds_are_apart()
    ensures relayed { (entries : Entries) (rest : List ℕ)
        → opened_issued entries (RELAYED ∷ rest) ≡ Err (WrongKind RELAYED) }
    ensures issued { (key rest : List ℕ) → opened key (ISSUED ∷ rest) ≡ Err (WrongKind ISSUED) }
    ensures apart { (entries : Entries) (key bytes : List ℕ) (c d : Certificate)
        → Opens key bytes c → OpensIssued entries bytes d → ⊥ }
{}

/// Bytes are sealed for one body at most, whatever the key.
pub fn one_body_opens()
    ensures { (kind : ℕ) (key other bytes : List ℕ) (c d : Certificate)
        → IsSealed kind key bytes c → IsSealed kind other bytes d → c ≡ d }
{}

/// Input that ends inside a sealed certificate is refused at its end.
pub fn cut_seals_are_refused()
    ensures relayed { (key other bytes more : List ℕ) (c : Certificate)
        → IsSealed RELAYED key (bytes ++ more) c → 0 < length more
        → opened other bytes ≡ Err (Malformed (length bytes)) }
    ensures issued { (entries : Entries) (key bytes more : List ℕ) (c : Certificate)
        → IsSealed ISSUED key (bytes ++ more) c → 0 < length more
        → opened_issued entries bytes ≡ Err (Malformed (length bytes)) }
{}

/// Bytes behind a sealed certificate are refused at the first of them.
pub fn bytes_behind_are_refused()
    ensures relayed { (key other bytes more : List ℕ) (c : Certificate)
        → IsSealed RELAYED key bytes c → 0 < length more
        → opened other (bytes ++ more) ≡ Err (Malformed (length bytes)) }
    ensures issued { (entries : Entries) (key bytes more : List ℕ) (c : Certificate)
        → IsSealed ISSUED key bytes c → 0 < length more
        → opened_issued entries (bytes ++ more) ≡ Err (Malformed (length bytes)) }
{}

/// What is spelled whole is judged by its issuer first, then by its tag.
pub fn spelled_bytes_are_judged()
    ensures unknown { (entries : Entries) (bytes tag : List ℕ) (c : Certificate)
        → Spells ISSUED bytes c tag → key_of entries c.issuer ≡ None
        → opened_issued entries bytes ≡ Err (UnknownIssuer c.issuer) }
    ensures issued { (entries : Entries) (key bytes tag : List ℕ) (c : Certificate)
        → Spells ISSUED bytes c tag → key_of entries c.issuer ≡ Some key
        → IsBadTag ISSUED key c tag → opened_issued entries bytes ≡ Err BadSeal }
    ensures relayed { (key bytes tag : List ℕ) (c : Certificate) → Spells RELAYED bytes c tag
        → IsBadTag RELAYED key c tag → opened key bytes ≡ Err BadSeal }
{}
