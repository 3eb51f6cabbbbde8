//! What a conversation sets up, and what must come of it.

use std::alloc::Global;

// A grant is counted with so many bytes.
const GRANTED: usize = 65_536;

/// A key of 32 bytes under its number.
#[derive(Clone, Copy)]
pub struct NumberedKey {
    pub number: u32,
    pub key: [u8; 32],
}

/// The relay: a table of keys, or what it says at the other end of a link, or with neither none.
#[derive(Drop)]
pub struct RelaySide {
    pub nodes: Vec<NumberedKey>,
    pub issuers: Vec<NumberedKey>,
    pub says: Option<Vec<u8>>,
    /// How often a relay of keys had failed before. None is 0.
    pub faults: Option<u64>,
}

/// The wallet at the other end of a link: what it says. With nothing it says no frame, so a fetch
/// fails at each call.
#[derive(Drop)]
pub struct WalletSide {
    pub says: Vec<u8>,
    /// The calls of reading what it says that fail, and of writing to it.
    pub says_fails: Vec<u64>,
    pub hears_fails: Vec<u64>,
}

/// The calls of each object that fail, counted from 0.
#[derive(Drop)]
pub struct Fails {
    pub file: Vec<u64>,
    /// Of the input as it comes whole or in pieces.
    pub input: Vec<u64>,
    /// Of the input as it comes byte by byte.
    pub bytes: Vec<u64>,
    pub output: Vec<u64>,
    pub notes: Vec<u64>,
    pub clock: Vec<u64>,
    pub relay: Vec<u64>,
    pub says: Vec<u64>,
    pub hears: Vec<u64>,
    /// Of the first lane's door.
    pub door: Vec<u64>,
    /// Of the second lane's door, which has no connection.
    pub second_door: Vec<u64>,
}

/// How many bytes each object takes; with no number, enough.
#[derive(Clone, Copy)]
pub struct Rooms {
    pub output: Option<u64>,
    pub notes: Option<u64>,
    pub hears: Option<u64>,
}

/// What stands round the call.
#[derive(Drop)]
pub struct Setting {
    pub words: Vec<String>,
    pub file: Vec<u8>,
    pub input: Vec<u8>,
    /// The most bytes of each of the first reads of the input. None is 0.
    pub pieces: Vec<u64>,
    pub readings: Vec<u64>,
    /// How many connections the first lane's door has, each with this input. None is 0.
    pub connections: Option<u64>,
    pub relay: RelaySide,
    pub wallet: WalletSide,
    pub fails: Fails,
    pub rooms: Rooms,
}

/// A granted reply whose proof may be any.
#[derive(Drop)]
pub struct Grant {
    /// The payload's bytes before the length of the proof.
    pub front: Vec<u8>,
    pub certificates: u64,
    pub content: Vec<u8>,
}

/// A part of the output.
#[derive(Drop)]
pub enum Part {
    Bytes(Vec<u8>),
    Granted(Grant),
}

impl Part {
    /// How many bytes it may have.
    fn most(&self) -> usize {
        match self {
            Part::Bytes(bytes) => bytes.len(),
            Part::Granted(_) => GRANTED,
        }
    }
}

/// What must come of the call. With no value of `hears`, `wallet_hears` or `left` that is not looked at.
#[derive(Drop)]
pub struct Wanted {
    pub status: Option<u64>,
    pub output: Vec<Part>,
    pub notes: Option<Vec<u8>>,
    pub faults: Option<u64>,
    pub hears: Option<Vec<u8>>,
    pub wallet_hears: Option<Vec<u8>>,
    pub left: Option<Vec<u8>>,
}

impl Wanted {
    /// The exit status. The reader refuses a conversation without one.
    pub fn status(&self) -> u64 {
        self.status.unwrap_or(0)
    }

    pub fn faults(&self) -> u64 {
        self.faults.unwrap_or(0)
    }

    /// How many bytes the output may have.
    pub fn output_most(&self) -> usize {
        let mut most = 0usize;
        for part in &self.output {
            most = most.saturating_add(part.most());
        }
        most
    }

    /// The notes' bytes.
    pub fn notes(&self) -> &[u8] {
        match &self.notes {
            Some(bytes) => bytes,
            None => &[],
        }
    }
}

/// A call of `taos` and what must come of it.
#[derive(Drop)]
pub struct Conversation {
    pub name: String,
    /// The line where it begins.
    pub line: u64,
    pub setting: Setting,
    pub wanted: Wanted,
}

fn no_fails(alloc: Global) -> Fails {
    Fails {
        file: Vec::new(alloc),
        input: Vec::new(alloc),
        bytes: Vec::new(alloc),
        output: Vec::new(alloc),
        notes: Vec::new(alloc),
        clock: Vec::new(alloc),
        relay: Vec::new(alloc),
        says: Vec::new(alloc),
        hears: Vec::new(alloc),
        door: Vec::new(alloc),
        second_door: Vec::new(alloc),
    }
}

fn plain_setting(alloc: Global) -> Setting {
    Setting {
        words: Vec::new(alloc),
        file: Vec::new(alloc),
        input: Vec::new(alloc),
        pieces: Vec::new(alloc),
        readings: Vec::new(alloc),
        connections: None,
        relay: RelaySide {
            nodes: Vec::new(alloc),
            issuers: Vec::new(alloc),
            says: None,
            faults: None,
        },
        wallet: WalletSide {
            says: Vec::new(alloc),
            says_fails: Vec::new(alloc),
            hears_fails: Vec::new(alloc),
        },
        fails: no_fails(alloc),
        rooms: Rooms {
            output: None,
            notes: None,
            hears: None,
        },
    }
}

impl Conversation {
    /// A conversation that has only its first line.
    pub fn new(alloc: Global, name: String, line: u64) -> Conversation {
        Conversation {
            name,
            line,
            setting: plain_setting(alloc),
            wanted: Wanted {
                status: None,
                output: Vec::new(alloc),
                notes: None,
                faults: None,
                hears: None,
                wallet_hears: None,
                left: None,
            },
        }
    }
}
