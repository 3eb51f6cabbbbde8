//! Lines of a number with a text, and of a number with a key.

ghost use Rattle.std.specs.Prelude.{◌≡◌};
ghost use Rattle.keyed_seal.specs.Keys.{Entries};
ghost use Rattle.prin_text.specs.Labels.{Rows};
ghost use Rattle.prin_text.specs.declared.limits.TheConstants.{MAX_NAMES, MAX_ROLES};
ghost use Rattle.prin_text.specs.FileLines.{keys_with, texts_with};
ghost use Rattle.prin_text.specs.Held.{HoldsKeys, HoldsRows};
ghost use Rattle.prin_text.specs.LineView.{TakesLine};

use crate::lines::adding::{add_key, add_name, add_role};
use crate::lines::field::{keyed, numbered};
use crate::lines::key_draft::KeyDraft;
use crate::lines::line_fault::LineFault;
use crate::names::Names;
use std::alloc::Global;

/// Gives a name the text that the line says.
pub fn take_name(alloc: Global, names: &mut Names, rest: &[u8]) -> Result<(), LineFault>
    ensures takes { (rows : Rows) → HoldsRows names.old.names rows
        → TakesLine HoldsRows result names.new.names
        (texts_with MAX_NAMES rows rest.now) }
    ensures roles { names.new.roles ≡ names.old.roles }
{
    match numbered(rest) {
        Ok((number, text)) => add_name(alloc, names, number, text),
        Err(cause) => Err(LineFault::Refused(cause)),
    }
}

/// Gives a role the text that the line says.
pub fn take_role(alloc: Global, names: &mut Names, rest: &[u8]) -> Result<(), LineFault>
    ensures takes { (rows : Rows) → HoldsRows names.old.roles rows
        → TakesLine HoldsRows result names.new.roles
        (texts_with MAX_ROLES rows rest.now) }
    ensures names { names.new.names ≡ names.old.names }
{
    match numbered(rest) {
        Ok((number, text)) => add_role(alloc, names, number, text),
        Err(cause) => Err(LineFault::Refused(cause)),
    }
}

/// Gives a number the key that the line says.
pub fn take_key(table: &mut KeyDraft, rest: &[u8]) -> Result<(), LineFault>
    ensures takes { (keys : Entries) → HoldsKeys table.old keys
        → TakesLine HoldsKeys result table.new
        (keys_with table.old.room keys rest.now) }
    ensures room { table.new.room ≡ table.old.room }
{
    match keyed(rest) {
        Ok(said) => {
            let key = said.1;
            add_key(table, said.0, key)
        }
        Err(cause) => Err(LineFault::Refused(cause)),
    }
}
