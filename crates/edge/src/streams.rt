//! What a command reads and writes: the system's streams, and its file.

use crate::files::file_of;
use node_telling::{Watched, tell_folders, tell_others};
use std::fs::File;
use std::io;
use std::io::{BufReader, Stderr, Stdin, Stdout};
use system_io::{FileReading, Origin, Outbox, PIECE, Patient, Prompt};

/// What waits to be written on standard output.
pub type Waiting = Outbox<Patient<Stdout, HostRuntime>>;

/// Standard input, before whose reads all leaves that waits.
pub type Asked<'a> = BufReader<
    Prompt<'a, Patient<Stdin, HostRuntime>, Patient<Stdout, HostRuntime>>,
>;

/// The file that the words name.
pub type Named<'a> = Watched<'a, FileReading<'a, File, Stderr>, Stderr>;

/// An outbox before standard output, in which nothing waits yet.
pub fn waiting_of(rt: &HostRuntime) -> io::Result<Waiting> {
    Outbox::with_capacity(rt.alloc(), PIECE, Patient::new(rt.stdout(), *rt))
}

/// Standard input before this outbox.
pub fn asked_of<'a>(rt: &HostRuntime, waiting: &'a Waiting) -> io::Result<Asked<'a>> {
    let prompt = Prompt::new(Patient::new(rt.stdin(), *rt), waiting);
    Ok(BufReader::with_capacity(rt.alloc(), PIECE, prompt)?)
}

/// The file of a command. Who else may read or change it is told.
pub fn watched_of<'a>(rt: &HostRuntime, path: &'a str) -> Named<'a> {
    let file = file_of(rt, path);
    if let Origin::Open(open) = file.origin() {
        tell_others(&mut rt.stderr(), path, open);
        tell_folders(rt, &mut rt.stderr(), path);
    }
    Watched::new(rt.alloc(), file, path, rt.stderr())
}
