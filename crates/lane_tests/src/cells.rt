//! Cells that threads share.

ghost use Rattle.std.specs.Prelude.{◌≡◌, ◌+◌, ◌<◌, ◌≤◌, [], ◌∷◌, ◌++◌, length, MatchBool};
ghost use Rattle.std.specs.Thread.{IsSync};
ghost use Rattle.turn_cell.specs.Known.{IsPassOf};

use std::alloc::Global;
use std::sync::Wait;
use std::test::Fail;
use std::thread::{Threads, join};
use turn_cell::{Held, Journaled, Pass, TurnCell};

/// Numbers, of which there are at most `limit`.
#[derive(Drop)]
struct Tally {
    limit: u64,
    log: Vec<u64>,
}

impl Journaled for Tally {
    type Fixed = u64;

    type Entry = u64;

    ghost fixed = { λ t. t.limit };

    ghost journal = { λ t. t.log.items };

    ghost allows = { λ limit before entry. length before < limit };

    fn length(&self) -> u64 {
        self.log.len() as u64
    }

    fn longest_pause() -> u32 {
        16
    }
}

impl Tally {
    fn new(alloc: Global, limit: u64) -> Tally
        ensures { (result.limit ≡ limit) × (result.log.items ≡ []) }
    {
        Tally {
            limit,
            log: Vec::new(alloc),
        }
    }

    // Adds a number, unless it is full or memory is refused.
    fn add(&mut self, number: u64) -> bool
        ensures limit { self.new.limit ≡ self.old.limit }
        ensures room { MatchBool result (length self.old.log.items < self.old.limit) (Unit {0}) }
        ensures log { MatchBool result
            (self.new.log.items ≡ self.old.log.items ++ number ∷ [])
            (self.new.log.items ≡ self.old.log.items) }
    {
        if self.log.len() as u64 >= self.limit {
            return false;
        }
        self.log.push(number).is_ok()
    }
}

// One turn: how many entries it added, and the pass.
fn add_one<W: Wait>(
    rt: &W,
    cell: &TurnCell<Tally>,
    pass: Pass<Tally>,
    number: u64,
) -> (u64, Pass<Tally>)
    requires { IsPassOf cell.now pass }
    ensures cell { IsPassOf cell.now result.1 }
    ensures shares { result.1.shares ≡ pass.shares }
    ensures added { (length result.1.own ≡ length pass.own + result.0) × (result.0 ≤ 1) }
{
    let (mut tally, held) = cell.enter(rt, pass);
    if tally.add(number) {
        (1, cell.leave(tally, held))
    } else {
        (0, cell.leave(tally, held))
    }
}

fn add_all<W: Wait>(
    rt: &W,
    cell: &TurnCell<Tally>,
    pass: Pass<Tally>,
    number: u64,
    turns: u64,
) -> (u64, Pass<Tally>)
    requires { IsPassOf cell.now pass }
    ensures cell { IsPassOf cell.now result.1 }
    ensures shares { result.1.shares ≡ pass.shares }
    ensures added { length result.1.own ≡ length pass.own + result.0 }
{
    let mut done = 0;
    let mut pass = pass;
    for _ in 0..turns {
        let (more, next) = add_one(rt, cell, pass, number);
        pass = next;
        done += more;
    }
    (done, pass)
}

type Done = (u64, Pass<Tally>);

// Each of two threads takes its turns with its pass.
fn add_by_two<R: Threads + Wait + Sync>(
    rt: &R,
    cell: &TurnCell<Tally>,
    mine: Pass<Tally>,
    yours: Pass<Tally>,
    turns: u64,
) -> (Done, Done)
    requires { IsPassOf cell.now mine × IsPassOf cell.now yours }
    ensures cell { IsPassOf cell.now result.0.1 × IsPassOf cell.now result.1.1 }
    ensures shares { (result.0.1.shares ≡ mine.shares) × (result.1.1.shares ≡ yours.shares) }
    ensures mine { length result.0.1.own ≡ length mine.own + result.0.0 }
    ensures yours { length result.1.1.own ≡ length yours.own + result.1.0 }
{
    join(
        rt,
        || add_all(rt, cell, mine, 1, turns),
        || add_all(rt, cell, yours, 2, turns),
    )
}

// Four threads, two by two.
fn add_by_four<R: Threads + Wait + Sync>(
    rt: &R,
    cell: &TurnCell<Tally>,
    near: (Pass<Tally>, Pass<Tally>),
    far: (Pass<Tally>, Pass<Tally>),
    turns: u64,
) -> ((Done, Done), (Done, Done))
    requires near { IsPassOf cell.now near.0 × IsPassOf cell.now near.1 }
    requires far { IsPassOf cell.now far.0 × IsPassOf cell.now far.1 }
    ensures near { IsPassOf cell.now result.0.0.1 × IsPassOf cell.now result.0.1.1 }
    ensures far { IsPassOf cell.now result.1.0.1 × IsPassOf cell.now result.1.1.1 }
    ensures near_shares { (result.0.0.1.shares ≡ near.0.shares)
        × (result.0.1.1.shares ≡ near.1.shares) }
    ensures far_shares { (result.1.0.1.shares ≡ far.0.shares)
        × (result.1.1.1.shares ≡ far.1.shares) }
{
    let (a, b) = near;
    let (c, d) = far;
    join(
        rt,
        || -> (Done, Done)
            requires { IsSync R.row × IsPassOf cell.now a × IsPassOf cell.now b }
        { add_by_two(rt, cell, a, b, turns) },
        || -> (Done, Done)
            requires { IsSync R.row × IsPassOf cell.now c × IsPassOf cell.now d }
        { add_by_two(rt, cell, c, d, turns) },
    )
}

#[test]
fn four_threads_end_after_ten_thousand_turns_each(rt: HostRuntime) -> Result<(), Fail> {
    let (cell, pass) = TurnCell::new(rt.alloc(), Tally::new(rt.alloc(), 100_000))?;
    let (pass, b) = cell.split(pass, 100);
    let (pass, c) = cell.split(pass, 1);
    let (a, d) = cell.split(pass, 60_000);
    let (((i, a), (j, b)), ((k, c), (l, d))) = add_by_four(&rt, &cell, (a, b), (c, d), 10_000);
    assert_eq!(rt; (i, j, k, l), (10_000, 10_000, 10_000, 10_000));
    let pass = cell.join(cell.join(a, b), cell.join(d, c));
    assert_eq!(rt; cell.close(pass).length(), 40_000);
    Ok(())
}

fn is_sent<T: Send>() {}

fn is_shared<T: Sync>() {}

// Where a value may go to other threads, its cell may be shared and its passes may go there.
fn crosses<V: Journaled + Send>() {
    is_shared::<TurnCell<V>>();
    is_sent::<TurnCell<V>>();
    is_sent::<Pass<V>>();
    is_sent::<Held<V>>();
}

#[test]
fn cells_are_shared_and_passes_are_sent(_rt: HostRuntime) {
    crosses::<Tally>();
}
