//! What a command line asks for.

ghost use Rattle.std.specs.Prelude.{◌≤◌};
ghost use Rattle.relay_path.specs.declared.limits.TheConstants.{MAX_ROUTE};

use frame_link::Limits;
use relay_path::MAX_ROUTE;

/// The most frames that a connection answers where the words give no other number.
pub const MAX_FRAMES: u64 = 1_000_000;

/// The most connections that a lane serves where the words give no other number.
pub const LANE_CONNECTIONS: u64 = 1;

/// What a certificate is to say, as the words have it.
#[derive(Clone, Copy, PartialEq, Eq)]
pub struct Mint<'a> {
    pub issuer: u32,
    pub serial: u64,
    /// The instant at which it begins, if one is named.
    pub from: Option<&'a str>,
    /// The instant at which it ends.
    pub until: &'a str,
    /// The principal that the issuer quotes, if it quotes any.
    pub quoted: Option<&'a str>,
    /// The principal that speaks for the other.
    pub left: &'a str,
    pub right: &'a str,
}

/// The numbers of the domains of a route, in order: one of them at least.
#[derive(Clone, Copy)]
pub struct Route {
    numbers: [u32; MAX_ROUTE],
    count: usize,
    // There is one.
    ghost some: { 1 ≤ count },
    // The numbers that count lie in the array.
    ghost within: { count ≤ MAX_ROUTE },
}

impl Route {
    ghost use Rattle.std.specs.Prelude.{◌≡◌, ◌≤◌, ◌<◌, ◌+◌, [], ◌∷◌, ◌++◌, length, MatchOption};
    ghost use Rattle.node_commands.specs.Routes.{numbers_in};

    /// The route of one domain.
    pub fn of(number: u32) -> Route
        ensures { numbers_in result ≡ number ∷ [] }
    {
        let mut numbers = [0; MAX_ROUTE];
        let places = &mut numbers[..];
        places[0] = number;
        Route { numbers, count: 1 }
    }

    /// The route with one domain more, where it may have one.
    pub fn and(self, number: u32) -> Option<Route>
        ensures { MatchOption result (MAX_ROUTE ≤ length (numbers_in self))
            (λ route. numbers_in route ≡ numbers_in self ++ number ∷ []) }
    {
        if self.count == MAX_ROUTE {
            return None;
        }
        let count = self.count;
        let mut numbers = self.numbers;
        let places = &mut numbers[..];
        places[count] = number;
        Some(Route {
            numbers,
            count: count + 1,
        })
    }

    /// The numbers.
    pub fn numbers(&self) -> &[u32]
        ensures are { result.now ≡ numbers_in self.now }
        ensures some { 1 ≤ length result.now }
        ensures short { length result.now ≤ MAX_ROUTE }
    {
        &self.numbers[..self.count]
    }
}

/// Where a certificate is to go.
#[derive(Clone, Copy)]
pub struct Path {
    /// The node that it is for.
    pub node: u32,
    /// The domains on its way.
    pub route: Route,
}

/// The load that is to be made and served.
#[derive(Clone, Copy, PartialEq, Eq)]
pub struct Drill {
    /// The number that it is made from.
    pub seed: u64,
    pub requests: u32,
    pub lanes: u32,
}

/// A command with its options.
#[derive(Clone, Copy)]
pub enum Wanted<'a> {
    /// Serve one connection, of at most so many frames, with room for so many lemmas; where `pulls` is
    /// set, with certificates that are fetched.
    Run {
        frames: u64,
        lemmas: u32,
        pulls: bool,
    },
    /// Look over a request and its reply.
    Check,
    /// Serve one connection to a relay, of at most so many frames.
    Relay {
        frames: u64,
    },
    /// Print a certificate.
    Mint(Mint<'a>),
    /// Serve connections of each lane's door, with room for so many lemmas of each lane; where `pulls`
    /// is set, with certificates that are fetched.
    Serve {
        limits: Limits,
        lemmas: u32,
        pulls: bool,
    },
    /// Serve connections of each lane's door as a relay.
    RelayServe(Limits),
    /// Serve one connection, of at most so many frames, and print the journals.
    Audit {
        frames: u64,
    },
    /// Serve a load that is made.
    Drill(Drill),
    /// Pass a certificate along a route.
    Path(Path),
    /// Serve one connection as a wallet, of at most so many frames.
    Wallet {
        frames: u64,
    },
    /// Serve one connection, of at most so many frames, and write the journals as bytes.
    AuditBytes {
        frames: u64,
    },
    /// Judge journals as bytes.
    Replay,
}
