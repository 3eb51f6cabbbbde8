//! What is found in a request and its reply, and the line that tells it.

ghost use Rattle.std.specs.Prelude.{◌≡◌, ◌+◌, ◌≤◌, ◌++◌, length, decimal};
ghost use Rattle.node_commands.specs.Findings.{finding_line, word_text};

use arrayvec::ArrayVec;
use itoa::Buffer;

/// What is wrong with a request and its reply: the first of these that holds.
#[derive(Clone, Copy, PartialEq, Eq)]
pub enum CheckWord {
    /// The request's frame is not there, or is no request.
    Request,
    /// The opening does not have its channel.
    Channel,
    /// Its tag is not that of the channel's key.
    RequestSeal,
    /// The reply's frame is not there, or is no reply.
    Reply,
    /// The reply is to another channel, or to another request of it.
    Echo,
    /// Its tag is not that of the channel's key.
    ReplySeal,
    /// It is no grant.
    Status,
    /// The opening does not have the request's object.
    Object,
    /// The object's list has no entry of the grant's number with the right.
    Entry,
    /// A line of the proof does not follow, or the last does not say that somebody speaks for
    /// another.
    Proof,
    /// The proof proves something else.
    Conclusion,
}

/// What is found in a request and its reply.
#[derive(Clone, Copy, PartialEq, Eq)]
pub enum Finding {
    /// The reply's proof, of so many lines and by so many certificates, proves that the request's
    /// subject speaks for that entry, which has the right.
    Granted { entry: u8, lines: u32, certs: u8 },
    Refused(CheckWord),
}

// A line has no more bytes than this.
const ROOM: usize = 128;

fn add(line: &mut ArrayVec<u8, ROOM>, text: &[u8])
    requires { length line.old.items + length text.now ≤ ROOM }
    ensures { line.new.items ≡ line.old.items ++ text.now }
{
    line.try_extend_from_slice(text).unwrap();
}

// A number behind its name.
fn add_number(line: &mut ArrayVec<u8, ROOM>, name: &[u8], number: u64)
    requires { length line.old.items + length name.now + 20 ≤ ROOM }
    ensures text { line.new.items ≡ line.old.items ++ name.now ++ decimal number }
    ensures few { length line.new.items ≤ length line.old.items + length name.now + 20 }
{
    let mut digits = Buffer::new();
    add(line, name);
    add(line, digits.format(number).as_bytes());
}

fn word_text(word: CheckWord) -> &'static [u8]
    ensures text { result.now ≡ word_text word }
    ensures few { length result.now ≤ 12 }
{
    match word {
        CheckWord::Request => b"request",
        CheckWord::Channel => b"channel",
        CheckWord::RequestSeal => b"request-seal",
        CheckWord::Reply => b"reply",
        CheckWord::Echo => b"echo",
        CheckWord::ReplySeal => b"reply-seal",
        CheckWord::Status => b"status",
        CheckWord::Object => b"object",
        CheckWord::Entry => b"entry",
        CheckWord::Proof => b"proof",
        CheckWord::Conclusion => b"conclusion",
    }
}

/// The line that tells a finding.
pub(crate) fn finding_line(finding: Finding) -> ArrayVec<u8, ROOM>
    ensures { result.items ≡ finding_line finding }
{
    let mut line = ArrayVec::new();
    match finding {
        Finding::Granted {
            entry,
            lines,
            certs,
        } => {
            add_number(&mut line, b"granted entry ", entry as u64);
            add_number(&mut line, b" lines ", lines as u64);
            add_number(&mut line, b" certificates ", certs as u64);
        }
        Finding::Refused(word) => {
            add(&mut line, b"refused: ");
            add(&mut line, word_text(word));
        }
    }
    add(&mut line, b"\n");
    line
}
