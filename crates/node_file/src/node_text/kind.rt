//! What a line of a node file is about.

ghost use Rattle.std.specs.Prelude.{◌≡◌};
ghost use Rattle.node_file.specs.NodeLines.{kind_of};

use prin_text::is_word;

// What one line may say once of the whole node.
#[derive(Clone, Copy)]
pub(super) enum Setting {
    Node,
    Shards,
    Keep,
    Journal,
}

// What a line is about.
#[derive(Clone, Copy)]
pub(super) enum LineKind {
    Setting(Setting),
    Name,
    Role,
    Channel,
    Anchor,
    Common,
    Object,
    Content,
    Allow,
}

// What a line with this first word is about.
#[tactic(auto, unfolding(crate::specs::NodeLines::kind_of))]
pub(super) fn kind_of(word: &[u8]) -> Option<LineKind>
    ensures { result ≡ kind_of word.now }
{
    if is_word(word, "node") {
        return Some(LineKind::Setting(Setting::Node));
    }
    if is_word(word, "shards") {
        return Some(LineKind::Setting(Setting::Shards));
    }
    if is_word(word, "keep") {
        return Some(LineKind::Setting(Setting::Keep));
    }
    if is_word(word, "journal") {
        return Some(LineKind::Setting(Setting::Journal));
    }
    if is_word(word, "name") {
        return Some(LineKind::Name);
    }
    if is_word(word, "role") {
        return Some(LineKind::Role);
    }
    if is_word(word, "channel") {
        return Some(LineKind::Channel);
    }
    if is_word(word, "anchor") {
        return Some(LineKind::Anchor);
    }
    if is_word(word, "common") {
        return Some(LineKind::Common);
    }
    if is_word(word, "object") {
        return Some(LineKind::Object);
    }
    if is_word(word, "content") {
        return Some(LineKind::Content);
    }
    if is_word(word, "allow") {
        return Some(LineKind::Allow);
    }
    None
}
