//! How a thread waits until a cell is free: it looks further and further apart, then lets others run
//! between its looks, and then sleeps.
ghost use Rattle.std.specs.Prelude.{◌≡◌, ◌<◌};
ghost use Rattle.turn_cell.specs.Steps.{Drew, IsIdle, SitsAt, StepsBy};
ghost use Rattle.turn_cell.specs.declared.steps.TheConstants.{WORDS};

use crate::journaled::Journaled;
use crate::rule::{Place, Shelf};
use crate::steps::{SERVING, TICKET, draw};
use std::hint::spin_loop;
use std::sync::Wait;
use std::sync::atomic::AtomicU64;
use std::sync::atomic::Ordering::SeqCst;
use std::thread;

// How often a thread pauses before it looks again, and then how often it lets others run first, before
// it sleeps.
const LOOKS: u32 = 16;

const YIELDS: u32 = 64;

// In so many steps pauses become as long as the longest.
const STEPS: u32 = 8;

/// Waits until nobody has a ticket, as it looks, and draws the next one. Few threads wait with a
/// ticket, those that looked at the same time, so hardly one that is not running keeps others out.
pub fn draw_alone<V: Journaled, W: Wait>(
    rt: &W,
    shelf: &Shelf<V>,
    sleepers: &AtomicU64,
    seat: &mut Place<V>,
) -> u64
    requires table { SitsAt seat.old.table_id shelf.now.table_id }
    requires idle { IsIdle seat.old.me }
    ensures drawn { StepsBy (Drew result) seat.old seat.new }
{
    let mut looks = 0;
    for _ in rt.forever() {
        let serving = shelf.peek(SERVING);
        if shelf.peek(TICKET) == serving {
            return draw(shelf, seat);
        }
        looks = waited(rt, shelf, sleepers, serving, looks);
    }
    unreachable!()
}

// The pause after so many looks.
fn pause_after(longest: u32, looks: u32) -> u32
    requires { looks < LOOKS }
{
    (longest / STEPS).saturating_mul(looks + 1).min(longest)
}

fn pause(times: u32) {
    for _ in 0..times {
        spin_loop();
    }
}

// Waits after so many looks at a cell that was not free, where this ticket is served. How many looks
// count from then on.
fn waited<V: Journaled, W: Wait>(
    rt: &W,
    shelf: &Shelf<V>,
    sleepers: &AtomicU64,
    serving: u64,
    looks: u32,
) -> u32
    requires { shelf.now.table_id.words ≡ WORDS }
{
    if looks < LOOKS {
        pause(pause_after(V::longest_pause(), looks));
        return looks + 1;
    }
    if looks < LOOKS + YIELDS {
        thread::yield_now();
        return looks + 1;
    }
    // It is counted before the word is looked at for the last time, so whoever leaves then sees it.
    sleepers.fetch_add(1, SeqCst);
    shelf.park(rt, SERVING, (serving % (1 << 32)) as u32);
    sleepers.fetch_sub(1, SeqCst);
    0
}

/// Wakes one of those who sleep, if there is any.
pub fn wake_one<V: Journaled>(shelf: &Shelf<V>, sleepers: &AtomicU64)
    requires { shelf.now.table_id.words ≡ WORDS }
{
    if sleepers.load(SeqCst) != 0 {
        shelf.wake_one(SERVING);
    }
}
