//! The anchors of a node file.

ghost use Rattle.std.specs.Prelude.{◌≡◌, ◌≤◌, IsTrue, length};
ghost use Rattle.prin_text.specs.LineView.{TakesLine};
ghost use Rattle.node_file.specs.NodeLines.{anchor_said, anchors_and, anchors_with, name_said};
ghost use Rattle.prin_text.specs.Words.{begins};

use crate::limits::MAX_ANCHORS;
use prin_term::Anchor;
use prin_text::{FileCause, LineFault, Names, number_up_to, numbered};

fn begins(word: &[u8], front: &str) -> bool
    ensures value { result ≡ begins front.now word.now }
    ensures fits { IsTrue result → length front.now ≤ length word.now }
{
    word.starts_with(front.as_bytes())
}

// The name that the word is.
#[tactic(auto, unfolding(crate::specs::NodeLines::name_said))]
fn name_said(names: &Names, word: &[u8]) -> Result<u32, FileCause>
    ensures { result ≡ name_said names.now.names word.now }
{
    if begins(word, "name:") {
        let number = number_up_to(&word[5..], u32::MAX as u64)?;
        return Ok(number as u32);
    }
    match names.name_of(word) {
        Some(name) => Ok(name),
        None => Err(FileCause::UnknownName),
    }
}

#[tactic(auto, unfolding(crate::specs::NodeLines::anchor_said))]
fn anchor_said(names: &Names, rest: &[u8]) -> Result<Anchor, FileCause>
    ensures { result ≡ anchor_said names.now.names rest.now }
{
    let (key, word) = numbered(rest)?;
    let name = name_said(names, word)?;
    Ok(Anchor { key, name })
}

#[tactic(auto, unfolding(crate::specs::NodeLines::anchors_and))]
fn add_anchor(anchors: &mut Vec<Anchor>, anchor: Anchor) -> Result<(), LineFault>
    ensures { TakesLine (λ v l. v.items ≡ l) result anchors.new
        (anchors_and anchors.old.items anchor) }
{
    if anchors.contains(&anchor) {
        return Err(LineFault::Refused(FileCause::Twice));
    }
    if anchors.len() >= MAX_ANCHORS as usize {
        return Err(LineFault::Refused(FileCause::Limit));
    }
    anchors.push(anchor)?;
    Ok(())
}

// Adds the anchor that the line says.
pub(super) fn take_anchor(
    names: &Names,
    anchors: &mut Vec<Anchor>,
    rest: &[u8],
) -> Result<(), LineFault>
    ensures { TakesLine (λ v l. v.items ≡ l) result anchors.new
        (anchors_with names.now.names anchors.old.items rest.now) }
{
    match anchor_said(names, rest) {
        Ok(anchor) => add_anchor(anchors, anchor),
        Err(cause) => Err(LineFault::Refused(cause)),
    }
}
