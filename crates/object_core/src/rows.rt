//! Where objects stand in a list, by their numbers.

ghost use Rattle.std.specs.Prelude.{map, Contains, IfOk, MatchOption, MatchResult};
ghost use Rattle.object_core.specs.Numbered.{AreAscending, AreRowsOf, HasNumberAt, LacksNumber, row};
ghost use Rattle.object_core.specs.Shelving.{fixed_of, numbers_of};

use crate::object::Object;
use std::alloc::{AllocError, Global};

/// The number of an object, and its place in the list of all.
#[derive(Clone, Copy)]
pub struct Row {
    pub number: u32,
    pub place: usize,
}

// One row an object, in the order of places.
fn list_rows(alloc: Global, objects: &[Object]) -> Result<Vec<Row>, AllocError>
    ensures { IfOk result (λ v. AreRowsOf (numbers_of (map fixed_of objects.now)) v.items) }
{
    let mut rows = Vec::with_capacity(alloc, objects.len())?;
    for place in 0..objects.len() {
        let number = objects[place].number();
        rows.push(Row { number, place })?;
    }
    Ok(rows)
}

/// One row an object, ascending by number. All memory is taken here.
pub fn rows_of(alloc: Global, objects: &[Object]) -> Result<Vec<Row>, AllocError>
    ensures rows { IfOk result
        (λ v. AreRowsOf (numbers_of (map fixed_of objects.now)) v.items) }
    ensures ascending { IfOk result (λ v. AreAscending v.items) }
{
    let mut rows = list_rows(alloc, objects)?;
    rows.sort_unstable_by_key(|row| row.number);
    Ok(rows)
}

// Where a row of the number is.
fn find_row(rows: &[Row], number: u32) -> Result<usize, usize>
    requires { AreAscending rows.now }
    ensures { MatchResult result (HasNumberAt rows.now number)
        (λ _. LacksNumber rows.now number) }
{
    rows.binary_search_by_key(&number, |row| row.number)
}

/// The place in a row of the number, found by halves.
pub fn place_in(rows: &[Row], number: u32) -> Option<usize>
    requires { AreAscending rows.now }
    ensures { MatchOption result (LacksNumber rows.now number)
        (λ place. Contains rows.now (row number place)) }
{
    match find_row(rows, number) {
        Ok(at) => Some(rows[at].place),
        Err(_) => None,
    }
}
