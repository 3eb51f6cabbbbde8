//! By which tokens sockets go.

ghost use Rattle.std.specs.Prelude.{◌≡◌, ◌<◌};
ghost use Rattle.system_hub.specs.Sockets.{IsWithin, Names};

use crate::machine::limits::{MAX_CLIENTS, MAX_LANES};
use mio::Token;

/// Whose socket it is.
#[derive(Clone, Copy, PartialEq, Eq)]
pub enum Socket {
    /// The client's in this seat.
    Client { seat: usize },
    Lane { lane: usize },
    Listener { place: usize },
}

const LANES: usize = MAX_CLIENTS as usize;

const LISTENERS: usize = LANES + MAX_LANES as usize;

/// Whose socket goes by a token.
pub fn socket_of(token: Token) -> Socket
    ensures { Names token result }
{
    let Token(number) = token;
    if number < LANES {
        return Socket::Client { seat: number };
    }
    if number < LISTENERS {
        return Socket::Lane {
            lane: number - LANES,
        };
    }
    Socket::Listener {
        place: number - LISTENERS,
    }
}

/// The token of a socket.
pub fn token_of(socket: Socket) -> Token
    requires { IsWithin socket }
    ensures { Names result socket }
{
    match socket {
        Socket::Client { seat } => Token(seat),
        Socket::Lane { lane } => Token(LANES + lane),
        Socket::Listener { place } => Token(LISTENERS + place),
    }
}
