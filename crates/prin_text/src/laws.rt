//! Laws of texts, stated as contracts of functions that do nothing.

ghost use Rattle.std.specs.Prelude.{◌≡◌, ◌↔◌, ◌≤◌, List, ℕ, length, Ok, Err};
ghost use Rattle.prin_term.specs.declared.limits.TheConstants.{CERT_NODES};
ghost use Rattle.prin_term.specs.Principal.{Principal};
ghost use Rattle.prin_term.specs.Refusal.{FitsLimits};
ghost use Rattle.prin_term.specs.View.{Grant};
ghost use Rattle.prin_text.specs.Labels.{AreLabels, Labels};
ghost use Rattle.prin_text.specs.Meaning.{IsTextWithin};
ghost use Rattle.prin_text.specs.ListMeaning.{IsListText};
ghost use Rattle.prin_text.specs.Lists.{AreEntries, list_in};
ghost use Rattle.prin_text.specs.Printing.{list_text, principal_text};
ghost use Rattle.prin_text.specs.declared.limits.TheConstants.{MAX_ENTRIES};
ghost use Rattle.prin_text.specs.Reading.{principal_in};
ghost use Rattle.prin_text.specs.Refusing.{IsRefused};
ghost use Rattle.prin_text.specs.declared.fault.TextCause.{TextCause};
ghost use Rattle.prin_text.specs.declared.fault.TextFault.TheVariants as texts;

/// A text is read as a principal exactly where it means this principal and is within the limits.
pub fn principals_are_read()
    ensures { (labels : Labels) (bytes : List ℕ) (p : Principal)
        → (principal_in labels bytes ≡ Ok p) ↔ IsTextWithin labels p bytes }
{}

/// A text is refused with a fault exactly where it has this fault.
pub fn faults_are_exact()
    ensures { (labels : Labels) (bytes : List ℕ) (offset : ℕ) (cause : TextCause)
        → (principal_in labels bytes ≡ Err (texts.Bad offset cause))
        ↔ IsRefused labels bytes offset cause }
{}

/// What is printed of a principal within the limits is read as the same.
pub fn printed_principals_are_read()
    ensures { (labels : Labels) (p : Principal) → AreLabels labels → FitsLimits CERT_NODES p
        → principal_in labels (principal_text labels p) ≡ Ok p }
{}

/// A text is read as a list exactly where it is this list.
pub fn lists_are_read()
    ensures { (labels : Labels) (bytes : List ℕ) (entries : List Grant)
        → (list_in labels bytes ≡ Ok entries) ↔ IsListText labels entries bytes }
{}

/// What is printed of a list within the limits is read as the same.
pub fn printed_lists_are_read()
    ensures { (labels : Labels) (entries : List Grant) → AreLabels labels → AreEntries entries
        → length entries ≤ MAX_ENTRIES → list_in labels (list_text labels entries) ≡ Ok entries }
{}
