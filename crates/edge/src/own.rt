//! The program's own options, before its first three words.

use node_telling::{Form, Tells};
use std::time::Duration;
use system_hub::MAX_CLIENTS;

// The most seconds that a peer may have between frames.
const MAX_IDLE: u64 = 86_400;

/// What the options say, and the words behind them.
#[derive(Drop)]
pub struct Own<'w> {
    /// How long a peer may take between frames, where that is said.
    pub idle: Option<Duration>,
    /// How many clients may be connected at a time, each served by whatever lane its channel has. Without
    /// it each lane serves one connection after the other.
    pub clients: Option<u32>,
    /// The addresses where the program listens are told.
    pub tells_addresses: bool,
    /// The end of standard input stops what serves doors.
    pub stops_at_end: bool,
    /// That it begins to serve is told, and that it has served.
    pub tells_start: bool,
    /// What is told while it serves, and how.
    pub tells: Tells,
    pub form: Option<Form>,
    /// The file that has a line for each ruling, and whether one is only counted that can't be written.
    pub decisions: Option<&'w str>,
    pub may_drop: bool,
    /// Where who asks is told by HTTP what is counted.
    pub status: Option<&'w str>,
    pub words: &'w [String],
}

impl<'w> Own<'w> {
    /// Whether something looks at what lanes do.
    pub fn watches(&self) -> bool {
        self.tells != Tells::Nothing || self.status.is_some() || self.decisions.is_some()
    }
}

// How many seconds a word says, from 1 to a day's, written as all numbers are.
fn seconds_of(word: &str) -> Option<u64> {
    if word.starts_with('+') || word.starts_with('0') {
        return None;
    }
    match word.parse::<u64>() {
        Ok(seconds) if seconds <= MAX_IDLE => Some(seconds),
        _ => None,
    }
}

// How many clients a word says, from 1 to the most that a hub has, written as all numbers are.
fn clients_of(word: &str) -> Option<u32> {
    if word.starts_with('+') || word.starts_with('0') {
        return None;
    }
    match word.parse::<u32>() {
        Ok(clients) if clients <= MAX_CLIENTS => Some(clients),
        _ => None,
    }
}

// In which form a word says that notices are written.
fn form_of(word: &str) -> Option<Form> {
    match word {
        "text" => Some(Form::Text),
        "json" => Some(Form::Json),
        _ => None,
    }
}

// An option that says where and how it is told, taken in, and whether there was one.
fn take_place(own: &mut Own<'_>) -> Option<bool> {
    match own.words {
        [option, form, rest @ ..] if option.as_str() == "--notices" && own.form.is_none() => {
            own.form = Some(form_of(form.as_str())?);
            own.words = rest;
            Some(true)
        }
        [option, address, rest @ ..] if option.as_str() == "--status" && own.status.is_none() => {
            own.status = Some(address.as_str());
            own.words = rest;
            Some(true)
        }
        [option, path, rest @ ..] if option.as_str() == "--decisions" && own.decisions.is_none() =>
            {
                own.decisions = Some(path.as_str());
                own.words = rest;
                Some(true)
            }
        [word, ..] if word.as_str().starts_with("--") => None,
        _ => Some(false),
    }
}

// An option that says what is told, taken in, and whether there was one.
fn take_telling(own: &mut Own<'_>) -> Option<bool> {
    match own.words {
        [option, rest @ ..] if option.as_str() == "--decisions-may-drop" => {
            own.may_drop = true;
            own.words = rest;
            Some(true)
        }
        [option, rest @ ..] if option.as_str() == "--tell-start" => {
            own.tells_start = true;
            own.words = rest;
            Some(true)
        }
        [option, rest @ ..] if option.as_str() == "--tell-refusals" => {
            if own.tells == Tells::Nothing {
                own.tells = Tells::Refusals;
            }
            own.words = rest;
            Some(true)
        }
        [option, rest @ ..] if option.as_str() == "--tell-denials" => {
            own.tells = Tells::Denials;
            own.words = rest;
            Some(true)
        }
        _ => take_place(own),
    }
}

// The first option taken in, and whether there was one. `None` where it is none of the program's.
fn take_one(own: &mut Own<'_>) -> Option<bool> {
    match own.words {
        [option, seconds, rest @ ..] if option.as_str() == "--idle" && own.idle.is_none() => {
            own.idle = Some(Duration::from_secs(seconds_of(seconds.as_str())?));
            own.words = rest;
            Some(true)
        }
        [option, clients, rest @ ..] if option.as_str() == "--clients" && own.clients.is_none() => {
            own.clients = Some(clients_of(clients.as_str())?);
            own.words = rest;
            Some(true)
        }
        [option, rest @ ..] if option.as_str() == "--tell-addresses" => {
            own.tells_addresses = true;
            own.words = rest;
            Some(true)
        }
        [option, rest @ ..] if option.as_str() == "--stop-at-end" => {
            own.stops_at_end = true;
            own.words = rest;
            Some(true)
        }
        _ => take_telling(own),
    }
}

/// Reads the options that stand before the other words. `None` where one is none of the program's.
pub fn own_of(words: &[String]) -> Option<Own<'_>> {
    let mut own = Own {
        idle: None,
        clients: None,
        tells_addresses: false,
        stops_at_end: false,
        tells_start: false,
        tells: Tells::Nothing,
        form: None,
        decisions: None,
        may_drop: false,
        status: None,
        words,
    };
    for _ in 0..words.len() {
        if !take_one(&mut own)? {
            break;
        }
    }
    Some(own)
}
