//! The program that plays files of conversations.
#![tactic(auto)]

mod playing;

use case_play::{Conversation, Manner, Stop, Tally, conversations_of};
use playing::difference_of;
use std::process::ExitCode;
use std::sync::Wait;
use std::thread::Threads;
use std::{env, fs, io};

// Plays a conversation both ways, tells what differs, and says whether anything does.
fn differs<W: Threads + Wait + Sync>(
    rt: &HostRuntime,
    workers: &W,
    path: &str,
    case: &Conversation,
) -> Result<bool, Stop> {
    let mut differs = false;
    for manner in [Manner::Whole, Manner::ByteByByte] {
        if let Some(what) = difference_of(workers, rt.alloc(), case, manner)? {
            differs = true;
            let name = case.name.as_str();
            if println!(rt; "{path}: {name}: {manner}: {what}").is_err() {
                return Err(Stop::Unwritten);
            }
        }
    }
    Ok(differs)
}

// Plays the conversations of a file.
fn play_file<W: Threads + Wait + Sync>(
    rt: &HostRuntime,
    workers: &W,
    path: &str,
    tally: &mut Tally,
) -> Result<(), Stop> {
    let Ok(text) = fs::read_to_string(rt, path) else {
        return Err(Stop::Unread);
    };
    let cases = conversations_of(rt.alloc(), text.as_str()).map_err(Stop::Line)?;
    for case in &cases {
        tally.count(differs(rt, workers, path, case)?);
    }
    Ok(())
}

fn files_of(rt: &HostRuntime) -> io::Result<Vec<String>> {
    Ok(env::args(rt)?.skip(1).collect(rt.alloc())?)
}

// Something stopped the run.
const STOPPED: u8 = 2;

// Tells why a run stops. Where that can't be written, the status alone tells it.
fn stopped(rt: &HostRuntime, path: &str, stop: Stop) -> u8 {
    let _ = eprintln!(rt; "{path}: {stop}");
    STOPPED
}

// Plays all files, and gives the exit status.
fn run<W: Threads + Wait + Sync>(rt: &HostRuntime, workers: &W) -> u8 {
    let Ok(files) = files_of(rt) else {
        return stopped(rt, "taos_cases", Stop::NoWords);
    };
    let mut tally = Tally::new();
    for file in &files {
        if let Err(stop) = play_file(rt, workers, file.as_str(), &mut tally) {
            return stopped(rt, file.as_str(), stop);
        }
    }
    if println!(rt; "{tally}").is_err() {
        return STOPPED;
    }
    if tally.is_any() { 1 } else { 0 }
}

fn main(rt: HostRuntime) -> ExitCode {
    ExitCode::from(run(&rt, &rt))
}
