//! The texts of one sort.

ghost use Rattle.std.specs.Prelude.{◌≡◌, ◌⊎◌, [], length, IfErr, OnOk, IsTrue, OnErr};
ghost use Rattle.std.specs.Prelude.{Some, None, slice_get};
ghost use Rattle.std.specs.BTreeMap.{insert_entry};
ghost use Rattle.std.specs.Option.{option_map};
ghost use Rattle.std.specs.Ordering.{nat_cmp};
ghost use Rattle.prin_text.specs.declared.fault.NamesFault.TheVariants.{NoMemory};
ghost use Rattle.prin_text.specs.Labels.{AddsRow, IsAscending, IsTable, is_label, number_of};
ghost use Rattle.prin_text.specs.Labels.{refusal, text_of};

use crate::fault::NamesFault;
use crate::label::{Label, is_label};
use std::alloc::{AllocError, Global};
use std::collections::BTreeMap;
use std::collections::btree_map::Iter;
use std::marker::Model;

/// Numbers, each with a text of its own. A contract sees the pairs, ascending by number.
#[derive(Drop)]
pub struct Table {
    rows: BTreeMap<u32, Label>,
    // The number of each text.
    numbers: BTreeMap<Vec<u8>, u32>,
}

impl Model for Table {
    ghost use Rattle.prin_text.specs.Labels.{Rows};
    ghost use Rattle.prin_text.specs.Numbers.{IsIndexOf};

    ghost Value = { Rows };

    ghost view = { λ t. t.rows.entries };

    ghost invariant = { λ t. IsIndexOf t.numbers t.rows.entries };
}

impl Table {
    // No texts.
    pub fn new(alloc: Global) -> Table
        ensures { result ≡ [] }
    {
        Table {
            rows: BTreeMap::new(alloc),
            numbers: BTreeMap::new(alloc),
        }
    }

    pub fn count(&self) -> usize
        ensures { result ≡ length self.now }
    {
        self.rows.len()
    }

    // The rows, by ascending number.
    pub fn iter(&self) -> Iter<'_, u32, Label>
        ensures { result ≡ self.now }
    {
        self.rows.iter()
    }

    // The row of a place, which is counted off.
    pub fn row_at(&self, place: usize) -> Option<(u32, &str)>
        ensures { option_map (λ row. (row.0, row.1.now)) result ≡ slice_get self.now place }
    {
        let mut at = 0;
        for (number, label) in &self.rows {
            if at == place {
                return Some((*number, label.text()));
            }
            at += 1;
        }
        None
    }

    pub fn text_of(&self, number: u32) -> Option<&str>
        ensures { option_map (λ t. t.now) result ≡ text_of self.now number }
    {
        match self.rows.get(&number) {
            Some(label) => Some(label.text()),
            None => None,
        }
    }

    pub fn number_of(&self, text: &[u8]) -> Option<u32>
        ensures { result ≡ number_of self.now text.now }
    {
        self.numbers.get(text).copied()
    }

    // Puts in a row of a new number and a new text. An `Err` changes nothing.
    fn put(&mut self, alloc: Global, number: u32, text: &str) -> Result<(), AllocError>
        requires label { IsTrue (is_label text.now) }
        requires ascending { IsAscending self.old }
        requires new_number { text_of self.old number ≡ None }
        requires new_text { number_of self.old text.now ≡ None }
        ensures put { OnOk result (self.new ≡ insert_entry nat_cmp self.old number text.now) }
        ensures unchanged { OnErr result (self.new ≡ self.old) }
    {
        let label = Label::of(alloc, text)?;
        let key = Vec::from_slice(alloc, text.as_bytes())?;
        self.numbers.insert(key, number)?;
        match self.rows.insert(number, label) {
            Ok(_) => Ok(()),
            Err(_) => {
                self.numbers.remove(text.as_bytes());
                Err(AllocError)
            }
        }
    }

    // Gives a number a text, in a table that holds at most `room`.
    #[tactic(auto, unfolding(crate::specs::Labels::refusal))]
    pub fn add(
        &mut self,
        alloc: Global,
        room: u32,
        number: u32,
        text: &str,
    ) -> Result<(), NamesFault>
        requires { IsTable room self.old }
        ensures added { OnOk result (AddsRow self.old self.new number text.now) }
        ensures accepted { OnOk result (refusal room self.old number text.now ≡ None) }
        ensures refused { IfErr result (λ e. (e ≡ NoMemory)
            ⊎ (refusal room self.old number text.now ≡ Some e)) }
        ensures unchanged { OnErr result (self.new ≡ self.old) }
        ensures sound { IsTable room self.new }
    {
        if !is_label(text.as_bytes()) {
            return Err(NamesFault::BadText);
        }
        if self.text_of(number).is_some() {
            return Err(NamesFault::Twice);
        }
        if self.number_of(text.as_bytes()).is_some() {
            return Err(NamesFault::Twice);
        }
        if self.rows.len() == room as usize {
            return Err(NamesFault::Full { held: room });
        }
        self.put(alloc, number, text)?;
        Ok(())
    }
}
