//! What the program tells of itself.

/// How it is used.
pub const USAGE: &[u8] = b"\
taosd [OPTION..] FILE LISTEN RELAY COMMAND
taosd --print FILE
taosd --wallet FILE LISTEN
taosd --check-file FILE
taosd --help | --version | --key

FILE    the path of a node file, or for relay, relay-serve and mint of a relay
        file, for path of a path file, for wallet of a wallet file, or - for
        none
LISTEN  addresses HOST:PORT joined by commas, 16 at most, each with a lane, or
        - for none
RELAY   the address HOST:PORT of the node's relay, or - for none; and behind
        a comma, where there is one, that of the wallet from which it fetches

OPTION is one of
  --idle SECONDS    how long a peer of LISTEN may be silent between frames
                    (1 to 86400; 60 without)
  --clients N       so many clients may be connected at a time (1 to 65536);
                    without, each lane serves one connection after the other
  --tell-addresses  tells on standard error at which addresses it listens
  --stop-at-end     the end of standard input stops what serves LISTEN
  --tell-start      tells on standard error that it begins to serve, what, where
                    and for how many, and that it has served
  --tell-refusals   tells on standard error each refusal, each connection that
                    breaks and each failure of the relay, the wallet or the
                    clock
  --tell-denials    tells these and each denial
  --notices FORM    what is told is written as text, or as json (text without)
  --decisions FILE  appends a line of JSON for each ruling to FILE, which says
                    whether a grant was done, before its reply leaves; where
                    that fails, nothing more is served
  --decisions-may-drop
                    where that fails, it is told, and served on
  --status ADDRESS  answers HTTP at HOST:PORT, or at a PORT of this machine:
                    GET /metrics by what was counted, for Prometheus, and
                    GET /healthz

COMMAND is one of
  run [--frames N] [--lemmas N] [--pull]
                    answers the request frames of standard input on standard
                    output, N of them at most (1 or more; 1000000 without),
                    and remembers N lemmas (1024 at most; 0 without); with
                    --pull it fetches certificates for each request
  serve [--connections N] [--frames N] [--lemmas N] [--pull]
                    answers the connections of LISTEN, all lanes at the same
                    time, each one connection after the other: N of them at
                    most (1 or more; 1 without), N frames each and N lemmas
                    a lane (as run); and prints what was counted
  check             reads a request frame and its reply frame, and prints what
                    the reply shows
  relay [--frames N]
                    answers the frames of a node on standard input as a relay,
                    N of them at most (1 or more; 1000000 without)
  relay-serve [--connections N] [--frames N]
                    answers the connections of LISTEN as a relay, as serve
                    does, and prints what was counted
  wallet [--frames N]
                    gives the certificates of a wallet file to the frames of a
                    node on standard input, N of them at most (1 or more;
                    1000000 without)
  audit [--frames N]
                    serves standard input as run, and prints the journals in
                    place of the replies
  audit-bytes [--frames N]
                    the same, and prints the journals as bytes
  replay            reads journals as bytes, judges them beside what FILE
                    opens, and prints how many entries are legal, or what is
                    not
  drill SEED N LANES
                    serves N requests (10000 at most) over so many lanes (16 at
                    most) that are made from the number SEED, in memory, and
                    prints what they came to; FILE is not read
  mint --issuer N --serial N [--from TIME] --until TIME [--quoted P] --left P
       --right P
                    prints a certificate under the issuer's key, in hex: the
                    issuer, quoting P if so, says from the first TIME on, if
                    there is one, until the second that the left P speaks for
                    the right P
  path --node N --route LIST
                    reads the frame of a certificate, passes it along the
                    domains of LIST (1 to 4 numbers joined by commas), the
                    last of which seals it for the node N, and prints what
                    each sealed, in hex

P is a principal such as key:2, alice or '(ws1 as taos) and key:14', by the
texts of FILE; TIME an instant such as 2030-01-31T12:00:00Z.

--print    prints the text of what a node file means, in either form; it has
           the keys
--wallet   gives the certificates of a wallet file at the addresses of LISTEN,
           each with a lane, and tells these addresses on standard error
--check-file
           prints in a line what a node file or a relay file means, or tells
           why it is refused
--help     prints this text
--version  prints the program's version
--key      prints a fresh key: 64 hex digits, from /dev/urandom

Exit status, told on standard error but for 0, 11 and 14:
  0  done                          6  no memory
  1  the words are no command      7  the input ends inside a frame
  2  the file is refused           8  a frame is too long
  3  a read failed                 9  a door failed
  4  a write failed               10  N frames were answered, and more came
  5  the clock failed             11  check refused the reply
                                  12  mint refused a word
                                  13  path stopped at a domain
                                  14  replay refused the journals
";

/// Its name and version.
pub const VERSION: &[u8] = b"taosd 0.1.0\n";

/// The version alone.
pub const VERSION_NUMBER: &str = "0.1.0";
