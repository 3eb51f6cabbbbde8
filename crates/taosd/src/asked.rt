//! The words that ask for a command of the node, and its work.

use crate::ending::ended;
use crate::serving::listen;
use edge::{Setting, own_of, partners_of, serves_doors};
use frame_link::Sink;
use std::alloc::{AllocError, Global};
use std::sync::Wait;
use std::thread::Threads;
use system_io::addresses_of;
use taos_node::{Ending, Wanted, wanted_of};

// The file that a command reads.
fn path_of<'a>(wanted: Wanted<'_>, path: &'a str) -> &'a str {
    match wanted {
        Wanted::Drill(_) => "-",
        _ => path,
    }
}

// What the words of a command ask for, or how the run ends where they are none.
fn wanted_by(alloc: Global, command: &[String]) -> Result<Wanted<'_>, Ending> {
    match wanted_of(alloc, command) {
        Ok(Some(wanted)) => Ok(wanted),
        Ok(None) => Err(Ending::Usage),
        Err(AllocError) => Err(Ending::NoMemory),
    }
}

/// Behind the options, the first three words are the file, where to listen and the relay with the
/// wallet; the others are the command.
pub fn run<W: Threads + Wait + Sync, N: Sink>(
    rt: &HostRuntime,
    workers: &W,
    words: &[String],
    notes: &mut N,
) -> u8 {
    let Some(own) = own_of(words) else {
        return ended(notes, Ending::Usage);
    };
    let [path, listening, partners, command @ ..] = own.words else {
        return ended(notes, Ending::Usage);
    };
    let (relay, wallet) = partners_of(partners.as_str());
    let Some(mut addresses) = addresses_of(listening.as_str()) else {
        return ended(notes, Ending::Usage);
    };
    let wanted = match wanted_by(rt.alloc(), command) {
        Ok(wanted) => wanted,
        Err(ending) => return ended(notes, ending),
    };
    // What serves no door binds nothing, and has no clients.
    if !serves_doors(wanted) {
        if own.clients.is_some() {
            return ended(notes, Ending::Usage);
        }
        addresses.clear();
    }
    let setting = Setting {
        path: path_of(wanted, path.as_str()),
        addresses: addresses.as_slice(),
        relay,
        wallet,
        command,
        wanted,
    };
    listen(rt, workers, &own, &setting, notes)
}
