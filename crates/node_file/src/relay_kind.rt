//! What a line of a relay file is about.

ghost use Rattle.std.specs.Prelude.{◌≡◌};
ghost use Rattle.node_file.specs.RelayFile.{relay_kind};

use prin_text::is_word;

// What a line is about.
#[derive(Clone, Copy)]
pub(crate) enum RelayKind {
    Name,
    Role,
    Issuer,
    Node,
}

// What a line with this first word is about.
#[tactic(auto, unfolding(crate::specs::RelayFile::relay_kind))]
pub(crate) fn relay_kind(word: &[u8]) -> Option<RelayKind>
    ensures { result ≡ relay_kind word.now }
{
    if is_word(word, "name") {
        return Some(RelayKind::Name);
    }
    if is_word(word, "role") {
        return Some(RelayKind::Role);
    }
    if is_word(word, "issuer") {
        return Some(RelayKind::Issuer);
    }
    if is_word(word, "node") {
        return Some(RelayKind::Node);
    }
    None
}
