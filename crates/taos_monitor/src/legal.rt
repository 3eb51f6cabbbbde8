//! What is known of the journals that were seen.

ghost use Rattle.agent_core.specs.Plans.{IsPlan};
ghost use Rattle.std.specs.Prelude.{All};
ghost use Rattle.request_course.specs.Cells.{AreLegalCells, both_cells};

use agent_core::Shards;
use object_core::Shelf;

/// Says that what was seen of the shards is legal, and of the objects within their limits.
pub(crate) fn are_legal<H: Shelf, S: Shards>(shelf: &H, shards: &S)
    ensures legal { AreLegalCells (both_cells (S.shown shards.now) (H.shown shelf.now)) }
    ensures sound { All IsPlan (S.shown shards.now).plans }
{
    shards.known();
    shelf.known();
}
