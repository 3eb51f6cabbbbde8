//! What a line of a path file is about.

ghost use Rattle.std.specs.Prelude.{◌≡◌};
ghost use Rattle.relay_path.specs.PathFile.{path_kind};

use prin_text::is_word;

// What a line is about.
#[derive(Clone, Copy)]
pub(crate) enum PathKind {
    Domain,
    Issuer,
    Node,
    Link,
}

// What a line with this first word is about.
#[tactic(auto, unfolding(crate::specs::PathFile::path_kind))]
pub(crate) fn path_kind(word: &[u8]) -> Option<PathKind>
    ensures { result ≡ path_kind word.now }
{
    if is_word(word, "domain") {
        return Some(PathKind::Domain);
    }
    if is_word(word, "issuer") {
        return Some(PathKind::Issuer);
    }
    if is_word(word, "node") {
        return Some(PathKind::Node);
    }
    if is_word(word, "link") {
        return Some(PathKind::Link);
    }
    None
}
