//! The program: real streams, the system's clock, and the top call.
#![tactic(auto)]

mod asked;
mod ending;
mod lanes;
mod serving;
mod showing;
mod work;

use asked::run;
use edge::{USAGE, VERSION, serve_wallet_at};
use ending::{ended, wallet_ended};
use frame_link::{Sink, pour};
use showing::{check_file, show, show_file, show_key};
use std::env;
use std::fs::File;
use std::io::ErrorKind;
use std::process::ExitCode;
use std::sync::Wait;
use std::thread::Threads;
use system_io::Writing;
use taos_node::Ending;

// The words behind the program's name, or how the run ends where there are none to be had.
fn words_of(rt: &HostRuntime) -> Result<Vec<String>, Ending> {
    match env::args(rt) {
        Ok(words) => words
            .skip(1)
            .collect(rt.alloc())
            .map_err(|_| Ending::NoMemory),
        Err(error) if error.kind() == ErrorKind::OutOfMemory => Err(Ending::NoMemory),
        Err(_) => Err(Ending::Usage),
    }
}

// The words that ask the program itself for something; all others are of the node.
fn answer<W: Threads + Wait + Sync, N: Sink>(
    rt: &HostRuntime,
    workers: &W,
    words: &[String],
    notes: &mut N,
) -> u8 {
    match words {
        [] => {
            let _ = pour(notes, USAGE);
            ended(notes, Ending::Usage)
        }
        [word] => match word.as_str() {
            "--help" => show(rt, USAGE, notes),
            "--version" => show(rt, VERSION, notes),
            "--key" => show_key(rt, notes),
            _ => ended(notes, Ending::Usage),
        },
        [word, path] if word.as_str() == "--print" => show_file(rt, path.as_str(), notes),
        [word, path, listening] if word.as_str() == "--wallet" => {
            let end = serve_wallet_at(rt, workers, path.as_str(), listening.as_str());
            wallet_ended(rt, notes, end)
        }
        [word, path] if word.as_str() == "--check-file" => check_file(rt, path.as_str(), notes),
        _ => run(rt, workers, words, notes),
    }
}

fn main(rt: HostRuntime) -> ExitCode {
    // A standard stream that came closed would lend its number to the next file. A folder that is
    // open for reading takes it: reads and writes of it fail.
    let _first = File::open(&rt, "/");
    let _second = File::open(&rt, "/");
    let _third = File::open(&rt, "/");
    let mut notes = Writing::new(rt.stderr());
    let status = match words_of(&rt) {
        Ok(words) => answer(&rt, &rt, words.as_slice(), &mut notes),
        Err(ending) => ended(&mut notes, ending),
    };
    ExitCode::from(status)
}
