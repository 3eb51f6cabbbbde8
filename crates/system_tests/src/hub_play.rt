ghost use Rattle.std.specs.Prelude.{◌<◌, ◌≤◌, vec_capacity};
ghost use Rattle.frame_link.specs.declared.service.TheConstants.{MAX_PAYLOAD};

use frame_link::MAX_PAYLOAD;
use std::test::*;
use system_hub::{Answer, Hub};

// What happens at a hub of three seats and two lanes, and what has to come of it. The first client
// has number 2, the next ones 1 and 0, and who has the seat of 2 after it has 5.
enum Step {
    Comes {
        client: u64,
    },
    Sends {
        client: u64,
        bytes: &'static [u8],
    },
    Ends {
        client: u64,
    },
    Fails {
        client: u64,
    },
    /// The lane is given this frame of the client.
    Takes {
        lane: usize,
        client: u64,
        payload: &'static [u8],
    },
    /// Nobody waits for the lane.
    Idles {
        lane: usize,
    },
    Replies {
        lane: usize,
        payload: &'static [u8],
        answer: Answer,
    },
    /// This is all that is left to write to the client.
    Gets {
        client: u64,
        bytes: &'static [u8],
    },
    Stays {
        client: u64,
    },
    /// It has its seat no more.
    Left {
        client: u64,
    },
}

use Step::*;

// A reply is for whose frame it was, though another client has its seat by then.
const REPLIES: &[Step] = &[
    Comes { client: 2 },
    Comes { client: 1 },
    Sends {
        client: 2,
        bytes: &[0, 0, 0, 5, 9, 0, 0, 0, 2],
    },
    Sends {
        client: 1,
        bytes: &[0, 0, 0, 5, 9, 0, 0, 0, 2],
    },
    Takes {
        lane: 0,
        client: 2,
        payload: &[9, 0, 0, 0, 2],
    },
    Takes {
        lane: 0,
        client: 1,
        payload: &[9, 0, 0, 0, 2],
    },
    Idles { lane: 0 },
    Fails { client: 2 },
    Left { client: 2 },
    Comes { client: 5 },
    Replies {
        lane: 0,
        payload: &[1],
        answer: Answer::Nobody,
    },
    Replies {
        lane: 0,
        payload: &[2],
        answer: Answer::For { client: 1 },
    },
    Gets {
        client: 5,
        bytes: &[],
    },
    Gets {
        client: 1,
        bytes: &[0, 0, 0, 1, 2],
    },
    Stays { client: 1 },
];

// A client keeps the lane of its first frame. Of two that wait each has a turn before one has two,
// and a third with a part of a frame holds nobody. Who has two frames there has no turn until one is
// answered. Who said its last leaves when it was answered.
const TURNS: &[Step] = &[
    Comes { client: 2 },
    Comes { client: 1 },
    Comes { client: 0 },
    Sends {
        client: 2,
        bytes: &[
            0, 0, 0, 5, 9, 0, 0, 0, 4, 0, 0, 0, 6, 9, 0, 0, 0, 1, 8, 0, 0,
        ],
    },
    Sends {
        client: 0,
        bytes: &[0, 0, 0, 5, 9, 0, 0, 0],
    },
    Sends {
        client: 1,
        bytes: &[0, 0, 0, 5, 9, 0, 0, 0, 2],
    },
    Takes {
        lane: 0,
        client: 2,
        payload: &[9, 0, 0, 0, 4],
    },
    Takes {
        lane: 0,
        client: 1,
        payload: &[9, 0, 0, 0, 2],
    },
    Takes {
        lane: 0,
        client: 2,
        payload: &[9, 0, 0, 0, 1, 8],
    },
    Sends {
        client: 2,
        bytes: &[0, 1, 5, 0],
    },
    Idles { lane: 0 },
    Idles { lane: 1 },
    Ends { client: 2 },
    Replies {
        lane: 0,
        payload: &[3],
        answer: Answer::For { client: 2 },
    },
    Takes {
        lane: 0,
        client: 2,
        payload: &[5],
    },
    Replies {
        lane: 0,
        payload: &[],
        answer: Answer::For { client: 1 },
    },
    Gets {
        client: 2,
        bytes: &[0, 0, 0, 1, 3],
    },
    Stays { client: 2 },
    Replies {
        lane: 0,
        payload: &[4],
        answer: Answer::For { client: 2 },
    },
    Replies {
        lane: 0,
        payload: &[6],
        answer: Answer::For { client: 2 },
    },
    Gets {
        client: 2,
        bytes: &[0, 0, 0, 1, 4, 0, 0, 0, 1, 6],
    },
    Left { client: 2 },
    Gets {
        client: 1,
        bytes: &[0, 0, 0, 0],
    },
    Sends {
        client: 0,
        bytes: &[3],
    },
    Takes {
        lane: 1,
        client: 0,
        payload: &[9, 0, 0, 0, 3],
    },
];

// A length of 65,537 ends a client, and no other.
const TOO_LONG: &[Step] = &[
    Comes { client: 2 },
    Comes { client: 1 },
    Sends {
        client: 2,
        bytes: &[0, 1, 0, 1],
    },
    Left { client: 2 },
    Sends {
        client: 1,
        bytes: &[0, 0, 0, 0],
    },
    Takes {
        lane: 0,
        client: 1,
        payload: &[],
    },
];

// Whether a client's bytes are taken, in pieces of this size.
fn sends(hub: &mut Hub, client: u64, bytes: &[u8], piece: usize) -> bool
    requires { 0 < piece }
{
    for part in bytes.chunks(piece) {
        if !hub.is_open(client) || part.len() > hub.room(client) {
            return false;
        }
        if hub.received(client, part).is_err() {
            return false;
        }
    }
    true
}

// Whether this is all that is left to write to a client, which it takes.
fn gets(hub: &mut Hub, client: u64, bytes: &[u8]) -> bool {
    if !hub.is_well(client) || hub.to_write(client) != bytes {
        return false;
    }
    let count = hub.to_write(client).len();
    hub.wrote(client, count);
    true
}

// Whether a lane is given this frame of this client, or nothing where nobody waits.
fn takes(hub: &mut Hub, lane: usize, want: Option<(u64, &[u8])>, out: &mut Vec<u8>) -> bool
    requires { MAX_PAYLOAD ≤ vec_capacity out.old }
    ensures { MAX_PAYLOAD ≤ vec_capacity out.new }
{
    if !hub.has_room(lane) {
        return false;
    }
    match (hub.next(lane, out), want) {
        (None, None) => true,
        (Some(client), Some((whose, payload))) => client == whose && out.as_slice() == payload,
        _ => false,
    }
}

// Whether a step goes as told.
fn goes(hub: &mut Hub, step: &Step, piece: usize, out: &mut Vec<u8>) -> bool
    requires piece { 0 < piece }
    requires out { MAX_PAYLOAD ≤ vec_capacity out.old }
    ensures { MAX_PAYLOAD ≤ vec_capacity out.new }
{
    match *step {
        Comes { client } => hub.opened() == Some(client),
        Sends { client, bytes } => sends(hub, client, bytes, piece),
        Ends { client } => {
            let open = hub.is_open(client);
            if open {
                hub.ended(client);
            }
            open
        }
        Fails { client } => {
            let here = hub.is_here(client);
            if here {
                hub.failed(client);
            }
            here
        }
        Takes {
            lane,
            client,
            payload,
        } => takes(hub, lane, Some((client, payload)), out),
        Idles { lane } => takes(hub, lane, None, out),
        Replies {
            lane,
            payload,
            answer,
        } => { hub.has_frame(lane) && payload.len() < 100 && hub.replied(lane, payload) == answer }
        Gets { client, bytes } => gets(hub, client, bytes),
        Stays { client } => hub.is_here(client),
        Left { client } => !hub.is_here(client),
    }
}

#[test]
fn bytes_in_pieces_of_every_size_are_served(rt: HostRuntime) -> Result<(), Fail> {
    for piece in 1..=21 {
        for (which, steps) in [REPLIES, TURNS, TOO_LONG].iter().enumerate() {
            let mut hub = Hub::new(rt.alloc(), 3, 2, 1)?;
            let mut out = Vec::with_capacity(rt.alloc(), MAX_PAYLOAD as usize)?;
            for (number, step) in steps.iter().enumerate() {
                assert!(rt;
                    goes(&mut hub, step, piece, &mut out),
                    "at {which}, {number}, in {piece}s"
                );
            }
        }
    }
    Ok(())
}
