//! A proof of what a search found: its cells are told in the order in which they were filled.

ghost use Rattle.std.specs.Prelude.{◌≡◌, ℕ, ◌+◌, ◌*◌, ◌<◌, IfOk, length, slice_index, map};
ghost use Rattle.taos_calculus.specs.Question.{Question, IsProofOf};
ghost use Rattle.taos_calculus.specs.Tables.{lines_of, named};
ghost use Rattle.term_pool.specs.Finding.{statement_of};
ghost use Rattle.goal_search.specs.Cells.{AreCells, reason_of};
ghost use Rattle.goal_search.specs.Replaying.{IsOrder, IsQuestionOf};
ghost use Rattle.goal_search.specs.Searching.{core, Has, IsReady, IsNumber};
ghost use Rattle.goal_search.specs.Telling.{IsTelling, TellsBefore, TellsCell, TellsMore};

use crate::cells::{Cells, REASONS};
use crate::search::Search;
use std::alloc::{AllocError, Global};
use taos_calculus::Taken;
use term_pool::{Cited, Found, Pair, take_proof};

// Puts a place where it stands in the order, if its cell was filled up to the last stamp.
fn put_place(order: &mut Vec<u32>, cells: &Cells, last: u32, place: usize)
    requires cells { AreCells cells.now }
    requires place_in { place < length cells.now.cells.items }
    requires order { IsOrder cells.now last order.old.items place }
    ensures { IsOrder cells.now last order.new.items (place + 1) }
{
    let stamp = cells.cells[place] / REASONS;
    if stamp == 0 {
        return;
    }
    if stamp <= last {
        order[stamp as usize - 1] = place as u32;
    }
}

// The places of the cells that were filled up to this stamp, in that order.
fn order_of(alloc: Global, cells: &Cells, last: u32) -> Result<Vec<u32>, AllocError>
    requires cells { AreCells cells.now }
    requires some { 0 < length cells.now.cells.items }
    ensures { IfOk result (λ order. IsOrder cells.now last order.items
        (length cells.now.cells.items)) }
{
    let mut order = vec![in alloc; 0; last as usize]?;
    for place in 0..cells.cells.len() {
        put_place(&mut order, cells, last, place);
    }
    Ok(order)
}

// What the certificates say, by its numbers.
fn statements_of(alloc: Global, cited: &[Cited]) -> Result<Vec<Pair>, AllocError>
    ensures { IfOk result (λ r. r.items ≡ map statement_of cited.now) }
{
    let mut statements = Vec::with_capacity(alloc, cited.len())?;
    for i in 0..cited.len() {
        statements.push(Pair {
            left: cited[i].left,
            right: cited[i].right,
        })?;
    }
    Ok(statements)
}

// No line, with room for one in each cell.
fn no_lines(alloc: Global, search: &Search) -> Result<Found, AllocError>
    requires ready { IsReady (core search.now) }
    ensures { IfOk result (λ f. IsTelling (core search.now) f) }
{
    let count = search.cells.cells.len();
    let statements = statements_of(alloc, &search.cited)?;
    let numbers = Vec::with_capacity(alloc, count)?;
    let lines = Vec::with_capacity(alloc, count)?;
    let mut found = Found {
        width: 0,
        statements,
        numbers,
        lines,
    };
    let width = search.nodes.len();
    found.restart(width);
    Ok(found)
}

// Tells what the cell at a place says.
fn tell_place(search: &Search, found: &mut Found, place: usize)
    requires ready { IsReady (core search.now) }
    requires telling { IsTelling (core search.now) found.old }
    requires place_in { place < length search.now.cells.cells.items }
    ensures more { TellsMore (core search.now) found.old found.new }
    ensures told { TellsCell (core search.now) found.old found.new place
        (reason_of (slice_index search.now.cells.cells.items place)) }
{
    let width = search.cells.width;
    let row = place / width;
    let number = place % width;
    let reason = search.cells.cells[place] % REASONS;
    search.tell_cell(found, row, number as u16, reason as u16);
}

// Tells each cell that was filled up to this stamp.
fn tell_all(search: &Search, found: &mut Found, order: &[u32])
    requires ready { IsReady (core search.now) }
    requires telling { IsTelling (core search.now) found.old }
    requires order { IsOrder search.now.cells (length order.now) order.now
        (length search.now.cells.cells.items) }
    ensures telling { IsTelling (core search.now) found.new }
    ensures told { TellsBefore (core search.now) (length order.now + 1) found.new }
{
    for k in 0..order.len() {
        tell_place(search, found, order[k] as usize);
    }
}

/// A proof that the left one speaks for the right one, which is known.
pub fn replay(alloc: Global, search: &Search, left: u16, right: u16) -> Result<Taken, AllocError>
    requires ready { IsReady (core search.now) }
    requires left_in { IsNumber (core search.now) left }
    requires right_in { IsNumber (core search.now) right }
    requires known { Has (core search.now) left right }
    requires asked { (q : Question) × IsQuestionOf (core search.now) q }
    ensures { IfOk result (λ t. (q : Question) → IsQuestionOf (core search.now) q
        → IsProofOf q (named search.now.nodes.items left) (named search.now.nodes.items right)
        (lines_of t.proof) t.cites.items) }
{
    let last = search.cells.held(left as usize, right as usize) / REASONS;
    let order = order_of(alloc, &search.cells, last)?;
    let mut found = no_lines(alloc, search)?;
    tell_all(search, &mut found, &order);
    let goal = search.speaks_line(&found, left, right).unwrap();
    take_proof(
        alloc,
        &search.nodes,
        &search.cited,
        &found.lines,
        goal as usize,
    )
}
