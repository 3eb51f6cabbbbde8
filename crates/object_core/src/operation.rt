//! Operations.

ghost use Rattle.std.specs.Prelude.{◌≡◌};
ghost use Rattle.object_core.specs.Operation as math;
ghost use Rattle.object_core.specs.Spelling as spelling;
ghost use Rattle.object_core.specs.View.{operation};

use prin_term::Entry;
use std::sync::Arc;

const READ: u8 = 1;

const WRITE: u8 = 2;

const CONTROL: u8 = 4;

const MANAGE: u8 = 8;

/// The highest byte that names an operation; the lowest is 1.
pub const LAST_KIND: u8 = 8;

/// What is asked of an object, or at it of the node.
#[derive(Drop)]
pub enum Op {
    /// Gives the content.
    Read,
    /// Replaces the content.
    Write(Vec<u8>),
    /// Replaces the access list.
    SetList(Arc<Vec<Entry>>),
    /// Holds the certificates that are presented, in common.
    Hold,
    /// Removes the certificates of a digest, those of every channel and those held in common.
    Discard([u8; 32]),
    /// Removes what is kept of a channel.
    Forget(u32),
    /// Removes what has expired.
    Sweep,
    /// Withdraws an issuer: none of its certificates is held from then on.
    Withdraw(u32),
}

/// The right that an operation needs: 1 read, 2 write, 4 control, 8 manage.
pub fn right_of(op: &Op) -> u8
    ensures { result ≡ math.right_of (operation op.now) }
{
    match op {
        Op::Read => READ,
        Op::Write(_) => WRITE,
        Op::SetList(_) => CONTROL,
        Op::Hold | Op::Discard(_) | Op::Forget(_) | Op::Sweep | Op::Withdraw(_) => MANAGE,
    }
}

/// The byte that names an operation, in the order of `Op`.
pub fn kind_of(op: &Op) -> u8
    ensures { result ≡ spelling.kind_of (operation op.now) }
{
    match op {
        Op::Read => 1,
        Op::Write(_) => 2,
        Op::SetList(_) => 3,
        Op::Hold => 4,
        Op::Discard(_) => 5,
        Op::Forget(_) => 6,
        Op::Sweep => 7,
        Op::Withdraw(_) => LAST_KIND,
    }
}
