//! Laws of journals as bytes, stated as contracts of functions that do nothing.

ghost use Rattle.std.specs.Prelude.{◌≡◌, ◌↔◌, ◌+◌, ◌<◌, ◌≤◌, ◌++◌, [], ℕ, List, length, map, All, Ok, Err};
ghost use Rattle.std.specs.Prelude.{Some};
ghost use Rattle.byte_fields.specs.declared.fault.FormatFault.{FormatFault};
ghost use Rattle.byte_fields.specs.declared.fault.FormatFault.TheVariants.{Malformed};
ghost use Rattle.byte_fields.specs.Formats.{IsFaultIn};
ghost use Rattle.byte_fields.specs.Steps.{IsByte};
ghost use Rattle.object_core.specs.Objects.{ObjectEntry};
ghost use Rattle.agent_core.specs.Journals.{Entry, IsLegalJournal, IsMeant};
ghost use Rattle.agent_core.specs.State.{Event, Plan};
ghost use Rattle.journal_bytes.specs.Events.{event_from};
ghost use Rattle.journal_bytes.specs.JournalsReading.{journals_in};
ghost use Rattle.journal_bytes.specs.Limits.{FitsJournals, IsEntryAt, IsRuledAt, Spells};
ghost use Rattle.journal_bytes.specs.Reading.{entry_at, ruled_at};
ghost use Rattle.journal_bytes.specs.Spelled.{Journals, SpelledEntry, event_spelled, spelled};
ghost use Rattle.journal_bytes.specs.Spelling.{entry_bytes, journals_bytes, ruled_bytes};

/// Reading as a function gives exactly the entry of a shard that is spelled at the offset within
/// the limits, and the offset after it. Other bytes are refused at one of them or right after the
/// last, and never for memory.
pub fn entries_are_read()
    ensures read { (bytes : List ℕ) (e : SpelledEntry) (at end : ℕ) → at ≤ length bytes
        → All IsByte bytes → (entry_at bytes at ≡ Ok (e, end))
        ↔ (IsEntryAt bytes at e × (end ≡ at + length (entry_bytes e))) }
    ensures refused { (bytes : List ℕ) (at : ℕ) (f : FormatFault) → at ≤ length bytes
        → All IsByte bytes → entry_at bytes at ≡ Err f → IsFaultIn bytes f }
{}

/// The same of an entry of an object.
pub fn rulings_are_read()
    ensures read { (bytes : List ℕ) (e : ObjectEntry) (at end : ℕ) → at ≤ length bytes
        → All IsByte bytes → (ruled_at bytes at ≡ Ok (e, end))
        ↔ (IsRuledAt bytes at e × (end ≡ at + length (ruled_bytes e))) }
    ensures refused { (bytes : List ℕ) (at : ℕ) (f : FormatFault) → at ≤ length bytes
        → All IsByte bytes → ruled_at bytes at ≡ Err f → IsFaultIn bytes f }
{}

/// The same of the journals that all of the bytes spell.
pub fn journals_are_read()
    ensures read { (bytes : List ℕ) (j : Journals) → All IsByte bytes
        → (journals_in bytes ≡ Ok j) ↔ Spells j bytes }
    ensures refused { (bytes : List ℕ) (f : FormatFault) → All IsByte bytes
        → journals_in bytes ≡ Err f → IsFaultIn bytes f }
{}

/// What is written is read back as the journals that it was.
pub fn written_is_read()
    ensures spelled { (j : Journals) → FitsJournals j → Spells j (journals_bytes j) }
    ensures read { (j : Journals) → FitsJournals j → journals_in (journals_bytes j) ≡ Ok j }
{}

/// No bytes spell two lots of journals.
pub fn one_spelling()
    ensures { (i j : Journals) (bytes : List ℕ) → Spells i bytes → Spells j bytes → i ≡ j }
{}

/// No spelling begins another: one that is cut is refused at the cut, and what follows one at its
/// first byte.
pub fn no_journals_begin_others()
    ensures alone { (i j : Journals) (front more : List ℕ) → Spells i front
        → Spells j (front ++ more) → more ≡ [] }
    ensures cut { (j : Journals) (front more : List ℕ) → All IsByte (front ++ more)
        → Spells j (front ++ more) → 0 < length more
        → journals_in front ≡ Err (Malformed (length front)) }
    ensures longer { (j : Journals) (bytes more : List ℕ) → Spells j bytes → 0 < length more
        → journals_in (bytes ++ more) ≡ Err (Malformed (length bytes)) }
{}

/// What is not spelled of an event follows from the entries before it, so two legal journals of a
/// shard that are spelled alike are one.
pub fn legal_journals_are_one()
    ensures event { (plan : Plan) (before : List Entry) (event : Event)
        → IsMeant plan before event → event_from before (event_spelled event) ≡ Some event }
    ensures one { (plan : Plan) (xs ys : List Entry) → IsLegalJournal plan xs
        → IsLegalJournal plan ys → map spelled xs ≡ map spelled ys → xs ≡ ys }
{}
