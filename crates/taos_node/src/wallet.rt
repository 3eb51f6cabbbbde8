//! The command that serves a connection by a wallet.

ghost use Rattle.std.specs.declared.alloc.Global.{Global};
ghost use Rattle.taos_node.specs.Calls.{touched};
ghost use Rattle.taos_node.specs.Status.{EndsWithoutLanes};
ghost use Rattle.node_commands.specs.Words.{Wallet};

use crate::ending::Ending;
use cred_pull::serve_wallet;
use frame_link::{Sink, Source};
use node_commands::file_wallet;
use std::alloc::Global;

/// Serves a connection, of at most so many frames, by the wallet of a file.
pub(crate) fn wallet_by_file<F: Source, I: Source, O: Sink>(
    alloc: Global,
    file: &mut F,
    input: &mut I,
    output: &mut O,
    frames: u64,
) -> Ending
    // Whatever clock, link and fetch there are.
    ensures gives { EndsWithoutLanes (Wallet frames)
        (touched (F.shown file.old) (I.shown input.old) (O.shown output.old))
        (touched (F.shown file.new) (I.shown input.new) (O.shown output.new)) result }
{
    match file_wallet(alloc, file) {
        Ok(wallet) => Ending::Walleted(serve_wallet(alloc, &wallet, input, output, frames)),
        Err(fault) => Ending::File(fault),
    }
}
