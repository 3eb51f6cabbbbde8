//! Keys and texts that a line adds.

ghost use Rattle.std.specs.Prelude.{◌≡◌, ◌∷◌, ◌++◌, [], if◌then◌else◌};
ghost use Rattle.keyed_seal.specs.Keys.{Entries};
ghost use Rattle.prin_text.specs.Labels.{Rows};
ghost use Rattle.prin_text.specs.declared.limits.TheConstants.{MAX_NAMES, MAX_ROLES};
ghost use Rattle.prin_text.specs.FileLines.{key_cause, text_cause, unless};
ghost use Rattle.prin_text.specs.Held.{HoldsKeys, HoldsRows};
ghost use Rattle.prin_text.specs.LineView.{TakesLine, fault_of};

use crate::fault::NamesFault;
use crate::lines::fault::FileCause;
use crate::lines::key_draft::KeyDraft;
use crate::lines::line_fault::LineFault;
use crate::names::Names;
use std::alloc::Global;
use std::str::from_utf8;

/// Gives a number a key, where there is room for one more.
pub fn add_key(table: &mut KeyDraft, number: u32, key: [u8; 32]) -> Result<(), LineFault>
    ensures takes { (keys : Entries) → HoldsKeys table.old keys
        → TakesLine HoldsKeys result table.new
        (unless (key_cause table.old.room keys number) (keys ++ (number, key) ∷ [])) }
    ensures room { table.new.room ≡ table.old.room }
{
    if table.has(number) {
        return Err(LineFault::Refused(FileCause::Twice));
    }
    if table.is_full() {
        return Err(LineFault::Refused(FileCause::Limit));
    }
    table.add(number, key)?;
    Ok(())
}

// Why the line of a text is refused.
fn fault_of(fault: NamesFault) -> LineFault
    ensures { result ≡ fault_of fault }
{
    match fault {
        NamesFault::BadText => LineFault::Refused(FileCause::Text),
        NamesFault::Twice => LineFault::Refused(FileCause::Twice),
        NamesFault::Full { .. } => LineFault::Refused(FileCause::Limit),
        NamesFault::NoMemory => LineFault::NoMemory,
    }
}

// Gives a name a text.
pub(crate) fn add_name(
    alloc: Global,
    names: &mut Names,
    number: u32,
    text: &[u8],
) -> Result<(), LineFault>
    ensures takes { (rows : Rows) → HoldsRows names.old.names rows
        → TakesLine HoldsRows result names.new.names
        (unless (text_cause MAX_NAMES rows number text.now) (rows ++ (number, text.now) ∷ [])) }
    ensures roles { names.new.roles ≡ names.old.roles }
{
    let Ok(text) = from_utf8(text) else {
        return Err(LineFault::Refused(FileCause::Text));
    };
    match names.add_name(alloc, number, text) {
        Ok(()) => Ok(()),
        Err(fault) => Err(fault_of(fault)),
    }
}

// Gives a role a text.
pub(crate) fn add_role(
    alloc: Global,
    names: &mut Names,
    number: u32,
    text: &[u8],
) -> Result<(), LineFault>
    ensures takes { (rows : Rows) → HoldsRows names.old.roles rows
        → TakesLine HoldsRows result names.new.roles
        (unless (text_cause MAX_ROLES rows number text.now) (rows ++ (number, text.now) ∷ [])) }
    ensures names { names.new.names ≡ names.old.names }
{
    let Ok(text) = from_utf8(text) else {
        return Err(LineFault::Refused(FileCause::Text));
    };
    match names.add_role(alloc, number, text) {
        Ok(()) => Ok(()),
        Err(fault) => Err(fault_of(fault)),
    }
}
