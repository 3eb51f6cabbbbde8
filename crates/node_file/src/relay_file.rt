//! What a relay is opened with.

use prin_text::Names;
use relay_core::RelayTable;

/// What a relay is opened with: the keys of issuers and of nodes, and the texts of names and of
/// roles.
#[derive(Drop)]
pub struct RelayFile {
    pub table: RelayTable,
    pub names: Names,
}
