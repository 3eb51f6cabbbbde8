//! Taking the lines of a node file.

ghost use Rattle.std.specs.Prelude.{◌≡◌, IsTrue, Option, true};
ghost use Rattle.prin_text.specs.Lines.{is_plain};
ghost use Rattle.prin_text.specs.LineView.{SoFar, TakesLine};
ghost use Rattle.node_file.specs.NodeFile as meant;
ghost use Rattle.node_file.specs.NodeFile.{adds, any_node_step, no_draft, node_step};
ghost use Rattle.node_file.specs.NodeLines.{settings_with};
ghost use Rattle.node_file.specs.NodeView.{IsDraftOf};

use crate::node_text::allow::take_allow;
use crate::node_text::anchor::take_anchor;
use crate::node_text::common::take_common;
use crate::node_text::draft::Draft;
use crate::node_text::kind::{LineKind, Setting, kind_of};
use crate::node_text::object::{take_content, take_object};
use crate::node_text::settings::{Settings, settings_with};
use prin_text::{
    FileCause, LineFault, is_first_line, is_plain, take_key, take_name, take_role, word_off,
};
use std::alloc::Global;

// Sets what the line says.
fn take_setting(settings: &mut Settings, setting: Setting, rest: &[u8]) -> Result<(), LineFault>
    ensures { TakesLine (λ s t. s ≡ t) result settings.new
        (settings_with settings.old setting rest.now) }
{
    match settings_with(*settings, setting, rest) {
        Ok(more) => {
            *settings = more;
            Ok(())
        }
        Err(cause) => Err(LineFault::Refused(cause)),
    }
}

// What a line about this says is added.
fn take_kind(alloc: Global, draft: &mut Draft, kind: LineKind, rest: &[u8]) -> Result<(), LineFault>
    requires { IsTrue (is_plain rest.now) }
    ensures takes { (above : meant.Draft) → IsDraftOf draft.old above
        → TakesLine IsDraftOf result draft.new (adds above kind rest.now) }
{
    match kind {
        LineKind::Setting(setting) => take_setting(&mut draft.settings, setting, rest),
        LineKind::Name => take_name(alloc, &mut draft.names, rest),
        LineKind::Role => take_role(alloc, &mut draft.names, rest),
        LineKind::Channel => take_key(&mut draft.channels, rest),
        LineKind::Anchor => take_anchor(&draft.names, &mut draft.anchors, rest),
        LineKind::Common => take_common(alloc, &draft.settings.node, &mut draft.commons, rest),
        LineKind::Object => take_object(alloc, &mut draft.objects, rest),
        LineKind::Content => take_content(alloc, &mut draft.objects, rest),
        LineKind::Allow => take_allow(alloc, &draft.names, &mut draft.objects, rest),
    }
}

// What a line says is added, or nothing.
#[tactic(auto, unfolding(crate::specs::NodeFile::node_step))]
fn take_line(alloc: Global, draft: &mut Draft, line: &[u8]) -> Result<(), LineFault>
    ensures takes { (above : meant.Draft) → IsDraftOf draft.old above
        → TakesLine IsDraftOf result draft.new (node_step above line.now) }
{
    let (word, rest) = word_off(line);
    let Some(kind) = kind_of(word) else {
        return Err(LineFault::Refused(FileCause::UnknownWord));
    };
    if is_plain(line) {
        take_kind(alloc, draft, kind, rest)
    } else {
        Err(LineFault::Refused(FileCause::Words))
    }
}

// The first line says what file it is, and each behind it adds to it.
pub(super) fn take_any(
    alloc: Global,
    draft: &mut Draft,
    begun: bool,
    line: &[u8],
) -> Result<(), LineFault>
    ensures takes { (so_far : Option meant.Draft)
        → SoFar IsDraftOf no_draft begun draft.old so_far
        → TakesLine (SoFar IsDraftOf no_draft true) result draft.new
        (any_node_step so_far line.now) }
{
    if begun {
        return take_line(alloc, draft, line);
    }
    if is_first_line("taos", line) {
        return Ok(());
    }
    Err(LineFault::Refused(FileCause::FirstLine))
}
