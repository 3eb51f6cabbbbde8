//! What the words behind the options say.

use node_commands::Wanted;

/// What the words say.
#[derive(Drop)]
pub struct Setting<'w> {
    pub path: &'w str,
    /// Where to listen.
    pub addresses: &'w [&'w str],
    /// The relay's address. `-` is none, so a link to it fails at each call.
    pub relay: &'w str,
    /// The address of the wallet from which certificates are fetched. `-` is none, so a fetch fails at
    /// each call.
    pub wallet: &'w str,
    pub command: &'w [String],
    /// What the command asks for.
    pub wanted: Wanted<'w>,
}

/// Whether a command serves the connections of doors, and leaves standard input alone.
pub fn serves_doors(wanted: Wanted<'_>) -> bool {
    matches!(wanted, Wanted::Serve { .. } | Wanted::RelayServe(_))
}

/// The addresses that the word of the relay joins by its first comma: the relay's, and the wallet's,
/// which is `-` where there is no comma.
pub fn partners_of(word: &str) -> (&str, &str) {
    word.split_once(',').unwrap_or((word, "-"))
}
