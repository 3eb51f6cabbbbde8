//! Laws of objects, contents, access lists and operations, stated as contracts of functions that do nothing.

ghost use Rattle.std.specs.Prelude.{◌≡◌, ◌↔◌, ◌+◌, ◌≤◌, ℕ, List, length, All, Ok, Err};
ghost use Rattle.object_core.specs.Objects.{ChangesByGrants, StaysWhenDenied};
ghost use Rattle.object_core.specs.Operation.{Op};
ghost use Rattle.object_core.specs.Reading.{content_at, fields_at, list_at};
ghost use Rattle.object_core.specs.Spelling.{content_bytes, list_bytes, IsContentAt, IsListAt};
ghost use Rattle.object_core.specs.Spelling.{kind_of, IsOperationUpTo};
ghost use Rattle.byte_fields.specs.declared.fault.FormatFault.{FormatFault};
ghost use Rattle.byte_fields.specs.Formats.{IsFaultIn};
ghost use Rattle.byte_fields.specs.Steps.{IsByte};
ghost use Rattle.prin_term.specs.View.{Grant};

use crate::operation::LAST_KIND;

/// Reading as a function gives exactly the content that is spelled at the offset within the limit,
/// and the offset after it. Other bytes are refused at one of them or right after the last, and
/// never for memory.
pub fn contents_are_read()
    ensures read { (bytes content : List ℕ) (at end : ℕ) → at ≤ length bytes
        → All IsByte bytes → (content_at bytes at ≡ Ok (content, end))
        ↔ (IsContentAt bytes at content × (end ≡ at + length (content_bytes content))) }
    ensures refused { (bytes : List ℕ) (at : ℕ) (f : FormatFault) → at ≤ length bytes
        → All IsByte bytes → content_at bytes at ≡ Err f → IsFaultIn bytes f }
{}

/// The same of an access list.
pub fn lists_are_read()
    ensures read { (bytes : List ℕ) (list : List Grant) (at end : ℕ) → at ≤ length bytes
        → All IsByte bytes → (list_at bytes at ≡ Ok (list, end))
        ↔ (IsListAt bytes at list × (end ≡ at + length (list_bytes list))) }
    ensures refused { (bytes : List ℕ) (at : ℕ) (f : FormatFault) → at ≤ length bytes
        → All IsByte bytes → list_at bytes at ≡ Err f → IsFaultIn bytes f }
{}

/// The same of the fields of an operation, each kind of which is named by a byte of its own.
pub fn operations_are_read()
    ensures named { (op : Op) → (1 ≤ kind_of op) × (kind_of op ≤ LAST_KIND) }
    ensures read { (bytes : List ℕ) (op : Op) (kind at end : ℕ) → 1 ≤ kind → kind ≤ LAST_KIND
        → at ≤ length bytes → All IsByte bytes
        → (fields_at bytes kind at ≡ Ok (op, end)) ↔ IsOperationUpTo bytes kind at op end }
    ensures refused { (bytes : List ℕ) (kind at : ℕ) (f : FormatFault) → at ≤ length bytes
        → All IsByte bytes → fields_at bytes kind at ≡ Err f → IsFaultIn bytes f }
{}

/// What an object shows is made by the entries that were granted, and by no other.
pub fn objects_change_by_grants()
    ensures granted { ChangesByGrants }
    ensures denied { StaysWhenDenied }
{}
