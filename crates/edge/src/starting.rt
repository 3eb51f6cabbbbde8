//! That the program begins to serve, and that it has served.

use crate::doors::Switch;
use crate::own::Own;
use crate::setting::{Setting, serves_doors};
use crate::telling::{Told, served_of};
use node_commands::Wanted;
use node_telling::{
    Addresses, Bounds, Ended, Form, Listener, Started, ended_line, seconds_of, started_line,
};
use std::alloc::{AllocError, Global};
use std::fmt::Display;
use std::io::Write;
use std::time::SystemTime;
use system_io::IDLE;

/// What stands once the doors are open: the listeners, where what was counted is told, and how many clients
/// may be connected at a time.
#[derive(Clone, Copy)]
pub struct Begun<'a> {
    listeners: &'a [Option<Listener>],
    page: Option<&'a str>,
    clients: Option<u32>,
}

impl<'a> Begun<'a> {
    pub fn of(
        listeners: &'a [Option<Listener>],
        told: &'a Told,
        edge: &Option<Switch>,
    ) -> Begun<'a> {
        Begun {
            listeners,
            page: text_in(&told.page),
            clients: match edge {
                Some(switch) => Some(switch.clients()),
                None => None,
            },
        }
    }
}

fn text_in(text: &Option<String>) -> Option<&str> {
    match text {
        Some(text) => Some(text.as_str()),
        None => None,
    }
}

// The seconds since 1970, where the clock tells them.
fn now_of(rt: &HostRuntime) -> Option<u64> {
    let now = SystemTime::now(rt).ok()?;
    Some(seconds_of(now))
}

// Writes a line on standard error, as JSON where that is wanted. One that can't be written is missing.
fn write_line<T: Display>(
    rt: &HostRuntime,
    form: Option<Form>,
    told: &T,
    object: Result<Vec<u8>, AllocError>,
) {
    match (form, object) {
        (Some(Form::Json), Ok(line)) => {
            let _ = rt.stderr().write_all(&line);
        }
        (Some(Form::Json), Err(_)) => {}
        _ => {
            let _ = writeln!(rt.stderr(), "{told}");
        }
    }
}

// The addresses as they were bound, joined by commas, where there are some.
fn listen_of(alloc: Global, listeners: &[Option<Listener>]) -> Result<Option<String>, AllocError> {
    let mut text = String::new(alloc);
    for listener in listeners.iter().flatten() {
        if let Ok(address) = listener.local_addr() {
            if !text.is_empty() {
                text.push_str(",")?;
            }
            let address = address.to_string(alloc)?;
            text.push_str(address.as_str())?;
        }
    }
    match text.is_empty() {
        true => Ok(None),
        false => Ok(Some(text)),
    }
}

// An address of the words, where it is one.
fn address_in(word: &str) -> Option<&str> {
    match word {
        "-" => None,
        _ => Some(word),
    }
}

// Whom a command asks: the relay, and the wallet.
fn partners_in<'a>(setting: &Setting<'a>) -> (Option<&'a str>, Option<&'a str>) {
    match setting.wanted {
        Wanted::Serve { pulls, .. } | Wanted::Run { pulls, .. } => {
            let wallet = match pulls {
                true => address_in(setting.wallet),
                false => None,
            };
            (address_in(setting.relay), wallet)
        }
        _ => (None, None),
    }
}

// How much a command serves.
fn bounds_of(own: &Own<'_>, setting: &Setting<'_>, clients: Option<u32>) -> Bounds {
    let (connections, frames) = match setting.wanted {
        Wanted::Serve { limits, .. } => (Some(limits.connections), Some(limits.frames)),
        Wanted::RelayServe(limits) => (Some(limits.connections), Some(limits.frames)),
        Wanted::Run { frames, .. } => (None, Some(frames)),
        Wanted::Relay { frames } => (None, Some(frames)),
        _ => (None, None),
    };
    let idle = match (serves_doors(setting.wanted), own.idle) {
        (false, _) => None,
        (true, Some(idle)) => Some(idle.as_secs()),
        (true, None) => Some(IDLE),
    };
    Bounds {
        lanes: setting.addresses.len().max(1) as u64,
        clients,
        connections,
        frames,
        idle,
    }
}

/// Tells that the lanes begin to serve, where that is wanted. What memory lacks for is missing.
pub fn tell_start(rt: &HostRuntime, own: &Own<'_>, setting: &Setting<'_>, begun: Begun<'_>) {
    if !own.tells_start {
        return;
    }
    let listen = listen_of(rt.alloc(), begun.listeners).unwrap_or(None);
    let (relay, wallet) = partners_in(setting);
    let started = Started {
        seconds: now_of(rt),
        served: served_of(rt, setting),
        bounds: bounds_of(own, setting, begun.clients),
        addresses: Addresses {
            listen: text_in(&listen),
            relay,
            wallet,
            page: begun.page,
        },
    };
    write_line(rt, own.form, &started, started_line(rt.alloc(), &started));
}

/// Tells how it has served, where that is wanted.
pub fn tell_end(rt: &HostRuntime, own: &Own<'_>, status: u8) {
    if !own.tells_start {
        return;
    }
    let ended = Ended {
        seconds: now_of(rt),
        status,
    };
    write_line(rt, own.form, &ended, ended_line(rt.alloc(), &ended));
}
