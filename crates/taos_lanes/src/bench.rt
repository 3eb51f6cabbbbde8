//! The decider of a lane, and what it remembers.

ghost use Rattle.std.specs.Prelude.{◌≡◌, IfOk};
ghost use Rattle.std.specs.Arc.{arc_value};
ghost use Rattle.stmt_codec.specs.View.{certificates};
ghost use Rattle.taos_lanes.specs.Remembering.{new_memo};

use goal_search::Workbench;
use lemma_memo::{Lemmas, MAX_LEMMAS};
use prin_term::Anchor;
use std::alloc::{AllocError, Global};
use std::sync::Arc;
use stmt_codec::Cert;
use taos_calculus::MAX_CERTS;

// What lemmas rest on, and how many each lane has room for.
#[derive(Drop)]
pub(crate) struct Memos {
    pub anchors: Arc<Vec<Anchor>>,
    pub commons: Vec<Arc<Cert>>,
    pub lemmas: u32,
}

/// A lane's decider, which remembers so many lemmas that rest on these anchors and commons. More
/// lemmas than 1,024 are taken as 1,024, and more commons than 64 as the first 64.
pub fn bench_of(
    alloc: Global,
    anchors: &Arc<Vec<Anchor>>,
    commons: &[Arc<Cert>],
    lemmas: u32,
) -> Result<Lemmas<Workbench>, AllocError>
    ensures { IfOk result (λ l. l.memo ≡ new_memo lemmas (arc_value anchors.now).items
        (certificates commons.now)) }
{
    let bench = Workbench::reserve(alloc)?;
    let anchors = Arc::try_clone(anchors)?;
    let room = (lemmas as usize).min(MAX_LEMMAS);
    let first = &commons[..MAX_CERTS.min(commons.len())];
    let remembering = Lemmas::new(bench, alloc, room, anchors, first)?;
    Ok(remembering)
}
