//! The commands that want a relay file: a relay that serves, and making a certificate.

ghost use Rattle.std.specs.declared.alloc.Global.{Global};
ghost use Rattle.frame_link.specs.Streams.{Stream};
ghost use Rattle.taos_node.specs.Calls.{touched};
ghost use Rattle.taos_node.specs.Status.{EndsWithoutLanes};
ghost use Rattle.node_commands.specs.Words.{Mint, Relay, mint_words};

use crate::ending::Ending;
use frame_link::{Sink, Source};
use node_commands::{Mint as MintAsked, file_relay, mint};
use relay_core::serve_relay;
use std::alloc::Global;

/// Serves a connection, of at most so many frames, by the relay of a file.
pub(crate) fn relay_by_file<F: Source, I: Source, O: Sink>(
    alloc: Global,
    file: &mut F,
    input: &mut I,
    output: &mut O,
    frames: u64,
) -> Ending
    // Whatever clock and link there are.
    ensures relays { EndsWithoutLanes (Relay frames)
        (touched (F.shown file.old) (I.shown input.old) (O.shown output.old))
        (touched (F.shown file.new) (I.shown input.new) (O.shown output.new)) result }
{
    match file_relay(alloc, file) {
        Ok(relay) => Ending::Relayed(serve_relay(alloc, &relay.table, input, output, frames)),
        Err(fault) => Ending::File(fault),
    }
}

/// Prints the certificate that the words ask for, by what a file says.
pub(crate) fn mint_by_file<F: Source, O: Sink>(
    alloc: Global,
    file: &mut F,
    output: &mut O,
    asked: &MintAsked<'_>,
) -> Ending
    // Whatever input, clock and link there are.
    ensures mints { (input : Stream) → EndsWithoutLanes (Mint (mint_words asked.now))
        (touched (F.shown file.old) input (O.shown output.old))
        (touched (F.shown file.new) input (O.shown output.new)) result }
{
    match file_relay(alloc, file) {
        Ok(relay) => Ending::Minted(mint(alloc, &relay, asked, output)),
        Err(fault) => Ending::File(fault),
    }
}
