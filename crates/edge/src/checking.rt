//! A file that is looked over, and not served.

use crate::telling::served_by;
use frame_link::{Failed, Source, fill};
use node_commands::FileFault;
use node_file::{
    FileCause, FileFault as Refusal, MAX_FILE, RelayFile, read_opening, read_relay_file,
};
use std::alloc::{AllocError, Global};

// The bytes of a file, or one more than there may be.
fn bytes_of<F: Source>(alloc: Global, file: &mut F) -> Result<Vec<u8>, FileFault> {
    let mut bytes: Vec<u8> = vec![in alloc; 0; MAX_FILE + 1]?;
    match fill(file, &mut bytes) {
        Ok(length) => {
            bytes.truncate(length);
            Ok(bytes)
        }
        Err(Failed) => Err(FileFault::ReadFault),
    }
}

fn fault_of(refusal: Refusal) -> FileFault {
    match refusal {
        Refusal::Line { line, cause } => FileFault::Refused { line, cause },
        Refusal::Byte { offset } => FileFault::Malformed {
            offset: offset as usize,
        },
        Refusal::NoMemory => FileFault::NoMemory,
    }
}

// Whether a file is one of another kind.
fn is_another(refusal: Refusal) -> bool {
    match refusal {
        Refusal::Line { cause, .. } => cause == FileCause::FirstLine,
        _ => false,
    }
}

fn line_of_relay(alloc: Global, relay: &RelayFile) -> Result<String, AllocError> {
    let (issuers, nodes) = (relay.table.issuers.count(), relay.table.nodes.count());
    format!(in alloc; "relay file: issuers {issuers} nodes {nodes}\n")
}

/// What a node file or a relay file means, as a line, or why it is refused: as a relay file where it
/// begins as one.
pub fn line_of_file<F: Source>(alloc: Global, file: &mut F) -> Result<String, FileFault> {
    let bytes = bytes_of(alloc, file)?;
    let refusal = match read_opening(alloc, &bytes) {
        Ok(opening) => {
            let served = served_by(&opening);
            return Ok(format!(in alloc; "node file:{served}\n")?);
        }
        Err(refusal) => refusal,
    };
    if !is_another(refusal) {
        return Err(fault_of(refusal));
    }
    match read_relay_file(alloc, &bytes) {
        Ok(relay) => Ok(line_of_relay(alloc, &relay)?),
        Err(refusal) => Err(fault_of(refusal)),
    }
}
