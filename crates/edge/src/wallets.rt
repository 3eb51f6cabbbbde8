//! A wallet that listens, by the words `--wallet FILE LISTEN`.

ghost use Rattle.cred_pull.specs.WalletFile.{AreShort};
ghost use Rattle.cred_pull.specs.WalletView.{rows_of};

use crate::files::file_of;
use cred_pull::{Wallet, serve_wallet};
use frame_link::Door;
use node_commands::{FileFault, file_wallet};
use node_telling::{Rounds, Stop};
use std::alloc::Global;
use std::sync::Arc;
use std::thread::Threads;
use std::time::Duration;
use std::{io, thread};
use system_io::{IDLE, TcpDoor, Terms, addresses_of, bind_all, doorways_of, tell_addresses};

/// Why a wallet does not listen, or no more.
#[derive(Drop)]
pub enum WalletEnd {
    /// The word of addresses has none, or more than a program listens at.
    Usage,
    /// The wallet file is refused.
    File(FileFault),
    /// Nothing was begun.
    NotBegun(io::Error),
    /// Each listener has failed: the first door that did, counted from 0.
    Door { lane: u64 },
}

// A door of connections over the system.
type WalletDoor<'a> = TcpDoor<&'a HostRuntime>;

// A door for each address. Each that is bound is told, and each that can't be. Each has rounds of its own:
// by them a peer that asks on is no silent one, and they say nothing of the peers of other doors.
fn wallet_doors<'a>(rt: &'a HostRuntime, addresses: &[&str]) -> io::Result<Vec<WalletDoor<'a>>> {
    let alloc = rt.alloc();
    let listeners = bind_all(rt, alloc, addresses, &mut rt.stderr())?;
    tell_addresses(&mut rt.stderr(), &listeners);
    let stop = Arc::new(alloc, Stop::new())?;
    let mut doors = Vec::new(alloc);
    for doorway in doorways_of(alloc, addresses, &listeners)? {
        let terms = Terms {
            clock: rt,
            stop: Arc::try_clone(&stop)?,
            idle: Duration::from_secs(IDLE),
            teller: None,
            rounds: Arc::new(alloc, Rounds::new())?,
        };
        doors.push(TcpDoor::new(doorway, alloc, terms))?;
    }
    Ok(doors)
}

// Who gives, and where its memory is from.
#[derive(Drop)]
struct Giver<'a> {
    alloc: Global,
    wallet: &'a Wallet,
}

// Serves the connections of a door, one after the other, until it has no more or fails.
fn give_at<D: Door>(giver: &Giver<'_>, door: &mut D)
    requires short { AreShort (rows_of giver.now.wallet.now) }
{
    for _ in 0..u64::MAX {
        let Ok(opened) = door.accept() else {
            return;
        };
        let Some((mut input, mut output)) = opened else {
            return;
        };
        let _ = serve_wallet(giver.alloc, giver.wallet, &mut input, &mut output, u64::MAX);
        door.done(input, output);
    }
}

// Serves the connections of all doors by a wallet, a worker a door.
fn give_at_all<W: Threads + Sync, D: Door + Send>(
    workers: &W,
    alloc: Global,
    wallet: &Wallet,
    doors: &mut [D],
)
    requires short { AreShort (rows_of wallet.now) }
{
    let count = doors.len();
    if count == 0 {
        return;
    }
    let giver = &Giver { alloc, wallet };
    thread::for_each_mut(
        workers,
        doors,
        count,
        &|_, door: &mut D|
            requires short { AreShort (rows_of giver.now.wallet.now) }
        { give_at(giver, door) },
    );
}

// The first door that has failed, counted from 0; the first one where none has.
fn failed_door(doors: &[WalletDoor<'_>]) -> u64 {
    for place in 0..doors.len() {
        if doors[place].faults() > 0 {
            return place as u64;
        }
    }
    0
}

/// Gives what a wallet file has at these addresses, until each listener has failed.
pub fn serve_wallet_at<W: Threads + Sync>(
    rt: &HostRuntime,
    workers: &W,
    path: &str,
    listening: &str,
) -> WalletEnd {
    let Some(addresses) = addresses_of(listening) else {
        return WalletEnd::Usage;
    };
    if addresses.is_empty() {
        return WalletEnd::Usage;
    }
    let wallet = match file_wallet(rt.alloc(), &mut file_of(rt, path)) {
        Ok(wallet) => wallet,
        Err(fault) => return WalletEnd::File(fault),
    };
    let mut doors = match wallet_doors(rt, addresses.as_slice()) {
        Ok(doors) => doors,
        Err(reason) => return WalletEnd::NotBegun(reason),
    };
    give_at_all(workers, rt.alloc(), &wallet, doors.as_mut_slice());
    WalletEnd::Door {
        lane: failed_door(&doors),
    }
}
