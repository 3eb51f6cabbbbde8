//! Reading a node's opening from a text.

ghost use Rattle.std.specs.Prelude.{◌≡◌, ◌≤◌, length};
ghost use Rattle.prin_text.specs.Lines.{lines_from};
ghost use Rattle.prin_text.specs.LineView.{IsReadFor};
ghost use Rattle.node_file.specs.NodeFile.{draft_in, text_in};
ghost use Rattle.node_file.specs.NodeView.{IsDraftOf};
ghost use Rattle.node_file.specs.OpeningView.{IsReadAs};
ghost use Rattle.node_file.specs.declared.limits.TheConstants.{MAX_FILE};

use crate::node_text::draft::{Draft, empty, opening_said};
use crate::node_text::line::take_any;
use crate::opening::Opening;
use prin_text::{FileCause, FileFault, LineFault, is_skipped, line_at};
use std::alloc::Global;

// What the lines say together, and how many there are.
fn draft_of(alloc: Global, bytes: &[u8]) -> Result<(Draft, u32), FileFault>
    requires { length bytes.now ≤ MAX_FILE }
    ensures { IsReadFor (λ x d. IsDraftOf x.0 d × (x.1 ≡ length (lines_from bytes.now 0))) result
        (draft_in bytes.now) }
{
    let mut number = 0;
    let mut draft = empty(alloc)?;
    let mut begun = false;
    let mut at = 0;
    while at < bytes.len() {
        let (line, next) = line_at(bytes, at);
        number += 1;
        if !is_skipped(line) {
            if let Err(fault) = take_any(alloc, &mut draft, begun, line) {
                return Err(fault.at(number));
            }
            begun = true;
        }
        at = next;
    }
    if begun {
        Ok((draft, number))
    } else {
        Err(LineFault::Refused(FileCause::FirstLine).at(number + 1))
    }
}

// The opening that a text means, or its first line that is refused.
#[tactic(auto, unfolding(crate::specs::NodeFile::text_in))]
pub(crate) fn text_of(alloc: Global, bytes: &[u8]) -> Result<Opening, FileFault>
    requires { length bytes.now ≤ MAX_FILE }
    ensures { IsReadAs result (text_in bytes.now) }
{
    let (draft, count) = draft_of(alloc, bytes)?;
    match opening_said(alloc, draft) {
        Ok(opening) => Ok(opening),
        Err(fault) => Err(fault.at(count)),
    }
}
