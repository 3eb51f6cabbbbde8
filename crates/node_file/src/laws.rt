//! Laws of openings, stated as contracts of functions that do nothing.

ghost use Rattle.std.specs.Prelude.{◌≡◌, ◌↔◌, ℕ, List, All, Ok, Err};
ghost use Rattle.byte_fields.specs.Formats.{IsFaultIn};
ghost use Rattle.byte_fields.specs.Steps.{IsByte};
ghost use Rattle.byte_fields.specs.declared.fault.FormatFault.{FormatFault};
ghost use Rattle.node_file.specs.FilePrinting.{opening_text};
ghost use Rattle.node_file.specs.Opening.{FitsOpening, Opening, Spells};
ghost use Rattle.node_file.specs.OpeningFile.{opening_in};
ghost use Rattle.node_file.specs.OpeningReading.{opening_of};

/// No bytes spell two openings.
pub fn one_opening()
    ensures { (o p : Opening) (bytes : List ℕ) → Spells o bytes → Spells p bytes → o ≡ p }
{}

/// Reading the binary form as a function gives exactly the opening that the bytes spell. Other
/// bytes are refused at one of them or right after the last, and never for memory.
pub fn openings_are_read()
    ensures read { (bytes : List ℕ) (o : Opening) → All IsByte bytes
        → (opening_of bytes ≡ Ok o) ↔ Spells o bytes }
    ensures refused { (bytes : List ℕ) (f : FormatFault) → All IsByte bytes
        → opening_of bytes ≡ Err f → IsFaultIn bytes f }
{}

/// What is printed of an opening within the limits is read as the same.
pub fn printed_openings_are_read()
    ensures { (o : Opening) → FitsOpening o → opening_in (opening_text o) ≡ Ok o }
{}
