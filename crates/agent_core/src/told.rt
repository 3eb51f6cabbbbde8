//! What a shard tells of an event.

ghost use Rattle.std.specs.Prelude.{◌≡◌};
ghost use Rattle.agent_core.specs.Answers.{Handed, IsPlain, given_by};
ghost use Rattle.agent_core.specs.Steps.{Other};

use proof_cache::Cached;
use std::sync::Arc;
use stmt_codec::Cert;

/// Why a proof is not kept.
#[derive(Clone, Copy, PartialEq, Eq)]
pub enum DropCause {
    /// The first certificate that it cites and that is not held any more, by its digest.
    NotHeld { digest: [u8; 32] },
    /// Its lease has ended by the clock.
    Lapsed { clock: u64, lease: u64 },
}

/// What a journal has of an answer.
#[derive(Clone, Copy, PartialEq, Eq)]
pub enum Told {
    /// The number is not above the channel's last one.
    Replayed { last: u64 },
    /// The channel would hold too many certificates; it holds so many.
    Full { held: u8 },
    /// A proof that is kept serves this entry of the list.
    Hit { entry: u8 },
    /// The Ask is to be judged.
    Miss,
    /// The proof is kept.
    Kept,
    /// The proof is not kept.
    Dropped(DropCause),
    /// So many certificates are new in common.
    Held { added: u8 },
    /// There would be too many in common; there are so many.
    CommonsFull { held: u8 },
    /// So many certificates were let go; each copy counts.
    Removed { count: u32 },
    /// As many issuers are withdrawn as may be, so many, and this one is none of them.
    WithdrawnFull { held: u8 },
}

/// What an Ask is judged by: the certificates of its channel and those in common, and its moment.
#[derive(Drop)]
pub struct Snapshot {
    pub moment: u64,
    pub certs: Vec<Arc<Cert>>,
}

/// What a step answers. What is told has the sense that `Told` gives it.
#[derive(Drop)]
pub enum Answer {
    Replayed { last: u64 },
    Full { held: u8 },
    Hit { entry: u8, cached: Arc<Cached> },
    Miss(Snapshot),
    Kept,
    Dropped(DropCause),
    Held { added: u8 },
    CommonsFull { held: u8 },
    Removed { count: u32 },
    WithdrawnFull { held: u8 },
    /// The journal has as many entries as its plan allows, and the event was none.
    JournalFull { length: u64 },
}

impl Told {
    /// What is told as the answer.
    pub fn answer(self) -> Answer
        requires { IsPlain self }
        ensures { given_by result ≡ Handed (Other self) }
    {
        match self {
            Told::Replayed { last } => Answer::Replayed { last },
            Told::Full { held } => Answer::Full { held },
            Told::Kept => Answer::Kept,
            Told::Dropped(cause) => Answer::Dropped(cause),
            Told::Held { added } => Answer::Held { added },
            Told::CommonsFull { held } => Answer::CommonsFull { held },
            Told::Removed { count } => Answer::Removed { count },
            Told::WithdrawnFull { held } => Answer::WithdrawnFull { held },
            // These hand something out.
            Told::Hit { .. } | Told::Miss => unreachable!(),
        }
    }
}
