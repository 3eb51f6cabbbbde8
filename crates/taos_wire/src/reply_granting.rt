//! Writing the fields of a grant.

ghost use Rattle.std.specs.Prelude.{◌≡◌, ◌++◌, ◌∷◌, ◌+◌, ◌<◌, ◌≤◌, ◌^◌, length, OnOk};
ghost use Rattle.std.specs.Int.{w32, w64, to_be_bytes};
ghost use Rattle.byte_fields.specs.Appends.{Pushes};
ghost use Rattle.taos_wire.specs.Reply.{fields_of, flag};
ghost use Rattle.taos_wire.specs.View.{lent_grant};

use crate::reply::{LentGrant, MAX_CITED};
use crate::reply_writing::place_of;
use crate::writing::push_counted;
use std::alloc::AllocError;
use stmt_codec::write_bodies;
use taos_calculus::write_counted_proof;

fn flag_of(kept: bool) -> u8
    ensures { result ≡ flag kept }
{
    if kept { 1 } else { 0 }
}

// The fields of a grant.
pub(crate) fn push_granted(out: &mut Vec<u8>, grant: &LentGrant<'_>) -> Result<(), AllocError>
    requires few_certs { length grant.now.certs.now ≤ MAX_CITED }
    requires short { length grant.now.content.now < 2 ^ 16 }
    ensures pushes { Pushes out.old out.new (fields_of (lent_grant grant.now)) result }
    ensures short { OnOk result
        (length (fields_of (lent_grant grant.now)) < 2 ^ 25 + 2 ^ 17 + 2 ^ 16) }
{
    push_told(out, grant)?;
    write_counted_proof(out, grant.proof)?;
    write_bodies(out, grant.certs)?;
    push_counted(out, grant.content)
}

// Whether the proof was kept, the entry, and where it was told.
fn push_told(out: &mut Vec<u8>, grant: &LentGrant<'_>) -> Result<(), AllocError>
    ensures { Pushes out.old out.new (flag grant.now.kept ∷ grant.now.entry
        ∷ to_be_bytes w32 grant.now.shard ++ to_be_bytes w64 grant.now.place) result }
{
    out.extend_from_slice(&[flag_of(grant.kept), grant.entry])?;
    out.extend_from_slice(&place_of(grant.shard, grant.place))
}
