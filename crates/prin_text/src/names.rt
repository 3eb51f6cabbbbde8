//! The texts of names and of roles.

ghost use Rattle.std.specs.Prelude.{◌≡◌, ◌⊎◌, [], IfErr, IfOk, IsOk, OnOk, OnErr, Some, None};
ghost use Rattle.std.specs.Prelude.{slice_get};
ghost use Rattle.std.specs.Option.{option_map};
ghost use Rattle.prin_text.specs.declared.fault.NamesFault.TheVariants.{NoMemory};
ghost use Rattle.prin_text.specs.Labels.{AddsRow, AreLabels, number_of, refusal, text_of};

use crate::fault::NamesFault;
use crate::label::Label;
use crate::limits::{MAX_NAMES, MAX_ROLES};
use crate::table::Table;
use std::alloc::{AllocError, Global};
use std::collections::btree_map::Iter;
use std::fmt;
use std::marker::Model;

/// The texts of at most 1,024 names and 256 roles. A contract sees, of each sort, the pairs of a
/// number and its text, ascending by number.
#[derive(Drop)]
pub struct Names {
    names: Table,
    roles: Table,
}

impl Model for Names {
    ghost use Rattle.prin_text.specs.Labels.{Labels, AreLabels};

    ghost Value = { Labels };

    ghost view = { λ n. record { names = n.names; roles = n.roles } };

    ghost invariant = { λ n. AreLabels (record { names = n.names; roles = n.roles }) };
}

impl Names {
    /// No texts. Memory is taken for each text as it is added, and none before.
    pub fn new(alloc: Global) -> Result<Names, AllocError>
        ensures succeeds { IsOk result }
        ensures empty { IfOk result (λ n. n ≡ record { names = []; roles = [] }) }
    {
        Ok(Names {
            names: Table::new(alloc),
            roles: Table::new(alloc),
        })
    }

    /// Gives a name a text of its own.
    pub fn add_name(&mut self, alloc: Global, number: u32, text: &str) -> Result<(), NamesFault>
        ensures added { OnOk result (AddsRow self.old.names self.new.names number text.now) }
        // It is added only where nothing speaks against it.
        ensures accepted { OnOk result
            (refusal MAX_NAMES self.old.names number text.now ≡ None) }

        ensures refused { IfErr result (λ e. (e ≡ NoMemory)
            ⊎ (refusal MAX_NAMES self.old.names number text.now ≡ Some e)) }
        ensures unchanged { OnErr result (self.new ≡ self.old) }
        ensures roles { self.new.roles ≡ self.old.roles }
    {
        self.names.add(alloc, MAX_NAMES, number, text)
    }

    /// Gives a role a text of its own.
    pub fn add_role(&mut self, alloc: Global, number: u32, text: &str) -> Result<(), NamesFault>
        ensures added { OnOk result (AddsRow self.old.roles self.new.roles number text.now) }
        // It is added only where nothing speaks against it.
        ensures accepted { OnOk result
            (refusal MAX_ROLES self.old.roles number text.now ≡ None) }

        ensures refused { IfErr result (λ e. (e ≡ NoMemory)
            ⊎ (refusal MAX_ROLES self.old.roles number text.now ≡ Some e)) }
        ensures unchanged { OnErr result (self.new ≡ self.old) }
        ensures names { self.new.names ≡ self.old.names }
    {
        self.roles.add(alloc, MAX_ROLES, number, text)
    }

    /// The numbers and the texts of the names, by ascending number.
    pub fn names(&self) -> Iter<'_, u32, Label>
        ensures rows { result ≡ self.now.names }
        ensures sound { AreLabels self.now }
    {
        self.names.iter()
    }

    /// The numbers and the texts of the roles, by ascending number.
    pub fn roles(&self) -> Iter<'_, u32, Label>
        ensures rows { result ≡ self.now.roles }
        ensures sound { AreLabels self.now }
    {
        self.roles.iter()
    }

    /// The number and the text of a name. Places go from 0 by ascending number; those before
    /// are gone over.
    pub fn name_at(&self, place: usize) -> Option<(u32, &str)>
        ensures value { option_map (λ row. (row.0, row.1.now)) result
            ≡ slice_get self.now.names place }
        ensures sound { AreLabels self.now }
    {
        self.names.row_at(place)
    }

    /// The number and the text of a role. Places go from 0 by ascending number; those before
    /// are gone over.
    pub fn role_at(&self, place: usize) -> Option<(u32, &str)>
        ensures value { option_map (λ row. (row.0, row.1.now)) result
            ≡ slice_get self.now.roles place }
        ensures sound { AreLabels self.now }
    {
        self.roles.row_at(place)
    }

    // The text of a name.
    pub(crate) fn text_of_name(&self, number: u32) -> Option<&str>
        ensures { option_map (λ t. t.now) result ≡ text_of self.now.names number }
    {
        self.names.text_of(number)
    }

    // The text of a role.
    pub(crate) fn text_of_role(&self, number: u32) -> Option<&str>
        ensures { option_map (λ t. t.now) result ≡ text_of self.now.roles number }
    {
        self.roles.text_of(number)
    }

    /// The name that has the text.
    pub fn name_of(&self, text: &[u8]) -> Option<u32>
        ensures { result ≡ number_of self.now.names text.now }
    {
        self.names.number_of(text)
    }

    // The role that has the text.
    pub(crate) fn role_of(&self, text: &[u8]) -> Option<u32>
        ensures { result ≡ number_of self.now.roles text.now }
    {
        self.roles.number_of(text)
    }
}

impl fmt::Debug for Names {
    fn fmt<W: fmt::Write>(&self, f: &mut fmt::Formatter<W>) -> fmt::Result {
        let names = self.names.count();
        let roles = self.roles.count();
        write!(f, "Names {{ names: {names}, roles: {roles}, .. }}")
    }
}
