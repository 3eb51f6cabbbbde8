//! The work of a command by its lanes.

ghost use Rattle.std.specs.Prelude.{◌<◌, ◌≤◌, length, vec_len};

use crate::ending::{after_leaving, ended};
use crate::lanes::{SystemLane, lanes_of};
use edge::{Setting, asked_of, output_rounds, output_teller, waiting_of, watched_of};
use frame_link::Sink;
use node_telling::{Rounded, Telling};
use std::net::{Net, TcpListener, TcpStream};
use std::sync::{Arc, Wait};
use std::thread::Threads;
use std::{io, time};
use system_io::{Common, Deferred, Doorway, Reading, Writing};
use taos_node::{Ending, taos};

// The work of a command, by these lanes. What is read and written is of the first.
fn work<
    S: Net<Listener = TcpListener, Stream = TcpStream> + time::Clock + Copy + Send,
    W: Threads + Wait + Sync,
    N: Sink,
>(
    rt: &HostRuntime,
    workers: &W,
    setting: &Setting<'_>,
    common: Common<'_>,
    notes: &mut N,
    lanes: &mut [SystemLane<S>],
) -> io::Result<u8>
    requires some { 0 < length lanes.old }
    requires few { length lanes.old ≤ 16 }
{
    let waiting = waiting_of(rt)?;
    let asked = asked_of(rt, &waiting)?;
    let rounds = Arc::try_clone(common.first_rounds)?;
    let mut file = watched_of(rt, setting.path);
    let teller = output_teller(setting.wanted, common.tellers);
    let timed = output_rounds(&teller, &rounds);
    let mut input = Reading::new(Rounded::new(asked, *rt, rounds));
    let mut output = Writing::new(Telling::new(Deferred::new(&waiting), *rt, None, teller, timed));
    let status = taos(
        workers,
        rt.alloc(),
        setting.command,
        &mut file,
        &mut input,
        &mut output,
        notes,
        lanes,
    );
    Ok(after_leaving(notes, status, waiting.leave()))
}

/// The work of a command by the lanes of these doors over a system.
pub fn work_by<
    S: Net<Listener = TcpListener, Stream = TcpStream> + time::Clock + Copy + Send,
    W: Threads + Wait + Sync,
    N: Sink,
>(
    rt: &HostRuntime,
    system: S,
    workers: &W,
    setting: &Setting<'_>,
    common: Common<'_>,
    doorways: Vec<Doorway>,
    notes: &mut N,
) -> u8
    requires some { 0 < vec_len doorways }
    requires few { vec_len doorways ≤ 16 }
{
    let Ok(mut lanes) = lanes_of(system, rt.alloc(), common, doorways) else {
        return ended(notes, Ending::NoMemory);
    };
    match work(rt, workers, setting, common, notes, lanes.as_mut_slice()) {
        Ok(status) => status,
        Err(_) => ended(notes, Ending::NoMemory),
    }
}
