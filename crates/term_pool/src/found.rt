//! The facts that were found, each at one line, with a table that finds a fact's line at once.

ghost use Rattle.std.specs.Prelude.{◌≡◌, ℕ, ◌+◌, ◌*◌, ◌<◌, ◌≤◌, ◌^◌, List, [], ◌∷◌, ◌++◌};
ghost use Rattle.std.specs.Prelude.{Some, None, MatchOption, slice_get, length, vec_capacity};
ghost use Rattle.taos_calculus.specs.declared.line.Fact.{Fact};
ghost use Rattle.term_pool.specs.declared.found.Pair.{Pair};
ghost use Rattle.term_pool.specs.Finding.{IsCell, IsFirstOf, IsFound, facts_in, HasCell, room};

use taos_calculus::{Fact, Line, Step};

/// A statement by the numbers of its sides.
#[derive(Clone, Copy, PartialEq, Eq)]
pub struct Pair {
    pub left: u16,
    pub right: u16,
}

/// The lines, and for each fact the number of its line and one more, or 0. A row of the table is
/// a principal for what it speaks for, or a statement for who says it.
#[derive(Drop)]
pub struct Found {
    pub width: usize,
    pub statements: Vec<Pair>,
    pub numbers: Vec<u32>,
    pub lines: Vec<Line>,
}

// The place of a row and a column.
fn place(row: usize, column: usize, width: usize, rows: usize) -> usize
    requires row_in { row < rows }
    requires column_in { column < width }
    requires fits { width * rows < 2 ^ 32 }
    ensures { result ≡ row * width + column }
{
    row * width + column
}

impl Found {
    /// No line yet, in a table of this width.
    pub fn restart(&mut self, width: usize)
        requires rows_fit { width + length self.old.statements.items < 2 ^ 32 }
        requires fits { width * (width + length self.old.statements.items) < 2 ^ 32 }
        requires lines_room { width * (width + length self.old.statements.items)
            ≤ vec_capacity self.old.lines }
        requires numbers_room { width * (width + length self.old.statements.items)
            ≤ vec_capacity self.old.numbers }
        ensures found { IsFound self.new }
        ensures width { self.new.width ≡ width }
        ensures statements { self.new.statements ≡ self.old.statements }
        ensures lines { self.new.lines.items ≡ [] }
        ensures lines_kept { vec_capacity self.old.lines ≤ vec_capacity self.new.lines }
        ensures numbers_kept { vec_capacity self.old.numbers ≤ vec_capacity self.new.numbers }
    {
        self.width = width;
        self.lines.clear();
        self.numbers.clear();
        self.numbers
            .resize(width * (width + self.statements.len()), 0)
            .unwrap();
    }

    /// The first place of the statement.
    pub fn row(&self, left: u16, right: u16) -> Option<usize>
        ensures { MatchOption result ((k : ℕ) → slice_get self.now.statements.items k
            ≡ Some (record { left = left; right = right }) → ⊥)
            (IsFirstOf self.now.statements.items left right) }
    {
        for k in 0..self.statements.len() {
            if self.statements[k] == (Pair { left, right }) {
                return Some(k);
            }
        }
        None
    }

    // The fact's place in the table.
    fn cell(&self, fact: Fact) -> Option<usize>
        requires found { IsFound self.now }
        requires below { HasCell self.now fact }
        ensures { MatchOption result
            ((c : ℕ) → IsCell self.now.width self.now.statements.items fact c → ⊥)
            (IsCell self.now.width self.now.statements.items fact) }
    {
        match fact {
            Fact::Speaks { left, right } => {
                Some(place(
                    left as usize,
                    right as usize,
                    self.width,
                    self.width + self.statements.len(),
                ))
            }
            Fact::Says { who, left, right } => match self.row(left, right) {
                Some(k) => Some(place(
                    self.width + k,
                    who as usize,
                    self.width,
                    self.width + self.statements.len(),
                )),
                None => None,
            },
        }
    }

    /// The number of the line that has the fact.
    pub fn number(&self, fact: Fact) -> Option<u32>
        requires found { IsFound self.now }
        requires below { HasCell self.now fact }
        ensures { MatchOption result ((k : ℕ) → slice_get (facts_in self.now) k ≡ Some fact → ⊥)
            (λ k. slice_get (facts_in self.now) k ≡ Some fact) }
    {
        let cell = self.cell(fact)?;
        let number = self.numbers[cell];
        if number == 0 { None } else { Some(number - 1) }
    }

    /// One line more, with a fact that no line has.
    pub fn add(&mut self, fact: Fact, step: Step)
        requires found { IsFound self.old }
        requires below { HasCell self.old fact }
        requires celled { (c : ℕ) × IsCell self.old.width self.old.statements.items fact c }
        requires new { (k : ℕ) → slice_get (facts_in self.old) k ≡ Some fact → ⊥ }
        ensures found { IsFound self.new }
        ensures width { self.new.width ≡ self.old.width }
        ensures statements { self.new.statements ≡ self.old.statements }
        ensures lines { self.new.lines.items
            ≡ self.old.lines.items ++ record { fact = fact; step = step } ∷ [] }
        ensures room { room self.new + 1 ≡ room self.old }
        ensures lines_kept { vec_capacity self.old.lines ≤ vec_capacity self.new.lines }
        ensures numbers_kept { vec_capacity self.old.numbers ≤ vec_capacity self.new.numbers }
    {
        if let Some(cell) = self.cell(fact) {
            self.lines.push(Line { fact, step }).unwrap();
            self.numbers[cell] = self.lines.len() as u32;
        }
    }

    /// The line of a number.
    pub fn line(&self, number: usize) -> Line
        requires { number < length self.now.lines.items }
        ensures { slice_get self.now.lines.items number ≡ Some result }
    {
        self.lines[number]
    }

    /// The statement at a place.
    pub fn statement(&self, place: usize) -> Pair
        requires { place < length self.now.statements.items }
        ensures { slice_get self.now.statements.items place ≡ Some result }
    {
        self.statements[place]
    }
}
