//! What a node is opened with, as a text.

ghost use Rattle.std.specs.Prelude.{◌≡◌, IfOk, string_bytes};
ghost use Rattle.node_file.specs.FilePrinting.{opening_text};
ghost use Rattle.node_file.specs.Meaning.{opening as meaning};

use node_file::{Opening, print_opening};
use std::alloc::{AllocError, Global};

/// The one text of an opening.
pub fn text_of(alloc: Global, opening: &Opening) -> Result<String, AllocError>
    ensures { IfOk result (λ text. string_bytes text ≡ opening_text (meaning opening.now)) }
{
    let mut text = String::new(alloc);
    print_opening(alloc, &mut text, opening)?;
    Ok(text)
}
