//! What a node has counted.

ghost use Rattle.std.specs.Prelude.{◌≡◌, ◌<◌, ◌↔◌, ◌⊎◌, [], IfSome, IsSome, decimal, get_or};
ghost use Rattle.system_hub.specs.Causes.{cause_word};
ghost use Rattle.node_telling.specs.Page.{answers, causes};

use crate::texts::journal::Gauge;
use relay_core::NO_MEMORY;
use system_hub::Breakage;

/// How many statuses replies have.
pub const STATUSES: usize = 16;

/// How many codes a relay's answers have.
pub const ANSWERS: usize = 7;

/// How many causes there are of a connection's end.
pub const CAUSES: usize = 8;

/// How many counts of times there are.
pub const BUCKETS: usize = 17;

/// What a node has counted since it began to serve.
#[derive(Drop)]
pub struct Status {
    /// In seconds.
    pub uptime: u64,
    pub connections: u64,
    pub open: u64,
    /// By the place of the cause.
    pub broken: [u64; CAUSES],
    /// By the status.
    pub replies: [u64; STATUSES],
    /// By the place of the code.
    pub answers: [u64; ANSWERS],
    /// How many replies took so long, by the place of the time.
    pub times: [u64; BUCKETS],
    /// What all of them took together, in microseconds.
    pub micros: u64,
    pub relay_calls: u64,
    pub relay_faults: u64,
    pub clock_faults: u64,
    pub scarce: u64,
    pub full: u64,
    pub left_out: u64,
    /// Of the journals that were heard of.
    pub shards: Vec<Gauge>,
    pub objects: Vec<Gauge>,
}

/// The place of a cause among those of a page.
pub fn cause_place(why: Breakage) -> usize
    ensures within { result < CAUSES }
    ensures named { get_or causes result [] ≡ cause_word why }
{
    match why {
        Breakage::Silent => 0,
        Breakage::Slow => 1,
        Breakage::Cut => 2,
        Breakage::Long => 3,
        Breakage::Untaken => 4,
        Breakage::Lost => 5,
        Breakage::GivenUp => 6,
        Breakage::TurnedAway => 7,
    }
}

/// The place of a code among those of a page, where a relay gives such a code.
pub fn answer_place(code: u8) -> Option<usize>
    ensures within { IfSome result (λ place. place < ANSWERS) }
    ensures named { IfSome result (λ place. get_or answers place [] ≡ decimal code) }
    ensures found { IsSome result ↔ (code < 6) ⊎ (code ≡ NO_MEMORY) }
{
    match code {
        0..=5 => Some(code as usize),
        NO_MEMORY => Some(6),
        _ => None,
    }
}
