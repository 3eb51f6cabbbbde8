//! What the lines of a node file say so far.

ghost use Rattle.std.specs.Prelude.{IfOk};
ghost use Rattle.prin_text.specs.LineView.{IsSaidFor};
ghost use Rattle.node_file.specs.NodeFile as meant;
ghost use Rattle.node_file.specs.NodeFile.{no_draft, opening_said, opening_with};
ghost use Rattle.node_file.specs.NodeView.{IsDraftOf};
ghost use Rattle.node_file.specs.OpeningView.{Represents};

use crate::limits::MAX_CHANNELS;
use crate::node_text::settings::Settings;
use crate::object_drafts::ObjectDrafts;
use crate::opening::Opening;
use crate::opening::reading::has_room;
use prin_term::Anchor;
use prin_text::{FileCause, KeyDraft, LineFault, Names};
use std::alloc::{AllocError, Global};
use std::sync::Arc;
use stmt_codec::Cert;

// What the lines say so far.
#[derive(Drop)]
pub(super) struct Draft {
    pub settings: Settings,
    pub names: Names,
    pub channels: KeyDraft,
    pub anchors: Vec<Anchor>,
    pub commons: Vec<Arc<Cert>>,
    pub objects: ObjectDrafts,
}

// No line says anything.
pub(super) fn empty(alloc: Global) -> Result<Draft, AllocError>
    ensures { IfOk result (λ d. IsDraftOf d no_draft) }
{
    Ok(Draft {
        settings: Settings {
            node: None,
            shards: None,
            keep: None,
            limit: None,
        },
        names: Names::new(alloc)?,
        channels: KeyDraft::new(alloc, MAX_CHANNELS as usize),
        anchors: Vec::new(alloc),
        commons: Vec::new(alloc),
        objects: ObjectDrafts::new(alloc),
    })
}

// The opening of a node of this number, with this key of its relay.
fn opening_with(alloc: Global, node: (u32, [u8; 32]), draft: Draft) -> Result<Opening, AllocError>
    ensures { (d : meant.Draft) → IsDraftOf draft d
        → IfOk result (λ x. Represents x (opening_with node d)) }
{
    let relay_key = node.1;
    Ok(Opening {
        node: node.0,
        relay_key,
        shards: draft.settings.shards.unwrap_or(1),
        keep: draft.settings.keep.unwrap_or(3600),
        limit: draft.settings.limit.unwrap_or(16384),
        names: draft.names,
        channels: draft.channels.table(alloc)?,
        anchors: Arc::new(alloc, draft.anchors)?,
        commons: draft.commons,
        objects: draft.objects.plans(alloc)?,
    })
}

// The opening that is said, where its journals have room.
pub(super) fn opening_said(alloc: Global, draft: Draft) -> Result<Opening, LineFault>
    ensures { (d : meant.Draft) → IsDraftOf draft d
        → IsSaidFor Represents result (opening_said d) }
{
    let Some(node) = draft.settings.node else {
        return Err(LineFault::Refused(FileCause::NoNode));
    };
    let opening = opening_with(alloc, node, draft)?;
    if has_room(&opening) {
        Ok(opening)
    } else {
        Err(LineFault::Refused(FileCause::Limit))
    }
}
