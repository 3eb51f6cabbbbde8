//! The work of a command on its ground, and how it ends.

ghost use Rattle.std.specs.Prelude.{◌<◌, ◌≤◌, length, vec_len};

use crate::ending::{after_recording, not_begun};
use crate::work::work_by;
use edge::{Ground, Own, Setting, begin};
use frame_link::Sink;
use std::sync::Wait;
use std::thread::Threads;

/// A lane for each address, and the work of the command by them. Where nothing is served, there is one,
/// whose door has ended.
pub fn listen<W: Threads + Wait + Sync, N: Sink>(
    rt: &HostRuntime,
    workers: &W,
    own: &Own<'_>,
    setting: &Setting<'_>,
    notes: &mut N,
) -> u8
    requires few { length setting.now.addresses.now ≤ 16 }
{
    match begin(rt, workers, own, setting) {
        Ok(ground) => serve(rt, workers, own, setting, notes, ground),
        Err(reason) => not_begun(rt, notes, &reason),
    }
}

// The work of a command on its ground, and the end of all that looks on.
fn serve<W: Threads + Wait + Sync, N: Sink>(
    rt: &HostRuntime,
    workers: &W,
    own: &Own<'_>,
    setting: &Setting<'_>,
    notes: &mut N,
    ground: Ground,
) -> u8
    requires some { 0 < vec_len ground.doorways }
    requires few { vec_len ground.doorways ≤ 16 }
{
    let Ground { doorways, standing } = ground;
    standing.tell_start(rt, own, setting);
    // The same for as long as what stands beside the lanes.
    let meanwhile = Setting {
        path: setting.path,
        addresses: setting.addresses,
        relay: setting.relay,
        wallet: setting.wallet,
        command: setting.command,
        wanted: setting.wanted,
    };
    let common = standing.common(own, &meanwhile);
    let status = work_by(rt, rt, workers, &meanwhile, common, doorways, notes);
    standing.tell_losses(rt);
    let status = after_recording(notes, status, standing.has_stopped());
    standing.end(rt, workers, own, status);
    status
}
