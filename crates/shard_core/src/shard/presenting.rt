//! An Ask as the journal of its shard keeps it.

ghost use Rattle.std.specs.Prelude.{◌≡◌, IfOk};
ghost use Rattle.agent_core.specs.Views.{ask_of};

use crate::held::presented::Presented;
use agent_core::Ask;
use std::alloc::{AllocError, Global};
use std::sync::Arc;

/// The Ask with handles to certificates that are kept, now at the latest. The asker may hold the
/// given one on, so it is another.
pub(crate) fn kept_ask(
    alloc: Global,
    presented: &mut Presented,
    asked: Arc<Ask>,
) -> Result<Arc<Ask>, AllocError>
    ensures { IfOk result (λ kept. ask_of kept.value ≡ ask_of asked.value) }
{
    if asked.presented.is_empty() {
        return Ok(asked);
    }
    let kept = Ask {
        channel: asked.channel,
        seq: asked.seq,
        reading: asked.reading,
        subject: asked.subject.copy(alloc)?,
        list: Arc::try_clone(&asked.list)?,
        right: asked.right,
        presented: presented.take_in(alloc, &asked.presented)?,
    };
    Ok(Arc::new(alloc, kept)?)
}
