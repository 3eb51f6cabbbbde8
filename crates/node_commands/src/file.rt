//! The file of a command, read.

ghost use Rattle.std.specs.Prelude.{◌≡◌, Vec, length, map, IfErr, IfOk};
ghost use Rattle.std.specs.declared.alloc.Global.{Global};
ghost use Rattle.node_file.specs.Meaning.{opening, FitsByNumber};
ghost use Rattle.node_file.specs.Opening.{FitsOpening};
ghost use Rattle.node_file.specs.OpeningView.{Represents};
ghost use Rattle.node_file.specs.RelayView.{StandsFor};
ghost use Rattle.relay_path.specs.Domains.{LinksAgree, knows};
ghost use Rattle.relay_path.specs.PathView.{StandForDomains, file_fault};
ghost use Rattle.cred_pull.specs.WalletFile.{AreShort};
ghost use Rattle.cred_pull.specs.WalletView.{file_fault as wallet_file_fault, rows_of};
ghost use Rattle.node_commands.specs.Files.{fault_of, FileHasCause, IsRead, IsUnread, NodeFileGives, PathFileGives, RelayFileGives, WalletFileGives};

use crate::fault::FileFault;
use cred_pull::{Wallet, WalletFault, read_wallet};
use frame_link::{Source, fill};
use node_file::{
    FileCause, FileFault as Refusal, MAX_FILE, Opening, RelayFile, read_opening, read_relay_file,
};
use relay_path::{Domain, PathFault, read_path_file};
use std::alloc::{AllocError, Global};

fn zeros(alloc: Global, len: usize) -> Result<Vec<u8>, AllocError>
    ensures { IfOk result (λ v. length v.items ≡ len) }
{
    vec![in alloc; 0; len]
}

// The bytes of a file, or one more than there may be.
fn file_bytes<F: Source>(alloc: Global, file: &mut F) -> Result<Vec<u8>, FileFault>
    ensures read { IfOk result (λ v. IsRead (F.shown file.old) (F.shown file.new) v.items) }
    ensures unread { IfErr result (IsUnread (F.shown file.old) (F.shown file.new)) }
    ensures cause { FileHasCause (F.shown file.old) (F.shown file.new) result }
{
    let mut bytes = zeros(alloc, MAX_FILE + 1)?;
    let Ok(len) = fill(file, &mut bytes) else {
        return Err(FileFault::ReadFault);
    };
    bytes.truncate(len);
    Ok(bytes)
}

fn fault_of(refusal: Refusal) -> FileFault
    ensures { result ≡ fault_of refusal }
{
    match refusal {
        Refusal::Line { line, cause } => FileFault::Refused { line, cause },
        Refusal::Byte { offset } => FileFault::Malformed {
            offset: offset as usize,
        },
        Refusal::NoMemory => FileFault::NoMemory,
    }
}

/// The opening of a node that a file means.
pub fn file_opening<F: Source>(alloc: Global, file: &mut F) -> Result<Opening, FileFault>
    ensures gives { NodeFileGives (λ o x. Represents x o) (F.shown file.old)
        (F.shown file.new) result }
    ensures whole { IfOk result (λ x. FitsOpening (opening x)) }
    ensures fits { IfOk result (λ x. FitsByNumber (opening x)) }
    ensures cause { FileHasCause (F.shown file.old) (F.shown file.new) result }
{
    let bytes = file_bytes(alloc, file)?;
    match read_opening(alloc, &bytes) {
        Ok(opening) => Ok(opening),
        Err(refusal) => Err(fault_of(refusal)),
    }
}

/// What a relay knows by a file.
pub fn file_relay<F: Source>(alloc: Global, file: &mut F) -> Result<RelayFile, FileFault>
    ensures gives { RelayFileGives (λ r x. StandsFor x r) (F.shown file.old)
        (F.shown file.new) result }
    ensures cause { FileHasCause (F.shown file.old) (F.shown file.new) result }
{
    let bytes = file_bytes(alloc, file)?;
    match read_relay_file(alloc, &bytes) {
        Ok(relay) => Ok(relay),
        Err(refusal) => Err(fault_of(refusal)),
    }
}

fn path_fault_of(refusal: PathFault) -> FileFault
    ensures { result ≡ fault_of (file_fault refusal) }
{
    match refusal {
        PathFault::Line { line, cause } => FileFault::Refused {
            line,
            cause: FileCause::from(cause),
        },
        PathFault::NoMemory => FileFault::NoMemory,
    }
}

/// The domains of a path file.
pub fn file_domains<F: Source>(alloc: Global, file: &mut F) -> Result<Vec<Domain>, FileFault>
    ensures gives { PathFileGives (λ ds (v : Vec Domain Global). StandForDomains v.items ds)
        (F.shown file.old) (F.shown file.new) result }
    // Two domains that the file links have one key for each other.
    ensures links { IfOk result (λ domains. LinksAgree (map knows domains.items)) }
    ensures cause { FileHasCause (F.shown file.old) (F.shown file.new) result }
{
    let bytes = file_bytes(alloc, file)?;
    match read_path_file(alloc, &bytes) {
        Ok(domains) => Ok(domains),
        Err(refusal) => Err(path_fault_of(refusal)),
    }
}

fn wallet_fault_of(refusal: WalletFault) -> FileFault
    ensures { result ≡ fault_of (wallet_file_fault refusal) }
{
    match refusal {
        WalletFault::Line { line, cause } => FileFault::Refused {
            line,
            cause: FileCause::from(cause),
        },
        WalletFault::NoMemory => FileFault::NoMemory,
    }
}

/// The wallet of a file.
pub fn file_wallet<F: Source>(alloc: Global, file: &mut F) -> Result<Wallet, FileFault>
    ensures gives { WalletFileGives (λ rows w. rows_of w ≡ rows) (F.shown file.old)
        (F.shown file.new) result }
    ensures short { IfOk result (λ w. AreShort (rows_of w)) }
    ensures cause { FileHasCause (F.shown file.old) (F.shown file.new) result }
{
    let bytes = file_bytes(alloc, file)?;
    match read_wallet(alloc, &bytes) {
        Ok(wallet) => Ok(wallet),
        Err(refusal) => Err(wallet_fault_of(refusal)),
    }
}
