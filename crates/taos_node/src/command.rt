//! The top call: the words, the file, and then the work.

ghost use Rattle.std.specs.Prelude.{◌≡◌, ◌⊎◌, ◌<◌, ◌≤◌, String, length, map, IfOk, None};
ghost use Rattle.std.specs.declared.alloc.Global.{Global};
ghost use Rattle.agent_core.specs.declared.limits.TheConstants.{MAX_SHARDS};
ghost use Rattle.shard_core.specs.Alone.{plans_in};
ghost use Rattle.frame_link.specs.Served.{HasCauses, IsComplete};
ghost use Rattle.object_core.specs.OneOwner.{taken_from};
ghost use Rattle.taos_monitor.specs.Planned.{ArePlanned};
ghost use Rattle.taos_monitor.specs.Changing.{change_of};
ghost use Rattle.taos_lanes.specs.Telling.{told_by};
ghost use Rattle.taos_lanes.specs.declared.serving.TheConstants.{MAX_LANES};
ghost use Rattle.taos_node.specs.Calls.{call_over, called_by, clock_count, first_line, touched};
ghost use Rattle.taos_node.specs.Command.{Ends, LeavesBy, LeavesDoors, LeavesLanes, ServesDoors, ServesFirst};
ghost use Rattle.taos_node.specs.Status.{Does, EndsWithoutLanes, TellsDoors, TellsStatus};
ghost use Rattle.node_commands.specs.Files.{FileHasCause, NodeFileGives};
ghost use Rattle.taos_lanes.specs.Opened.{IsOpenedBy, IsSameNode, IsSmall};
ghost use Rattle.node_commands.specs.Words.{Check};

use crate::audit::{AuditAsked, audit_by_file};
use crate::drills::drill_asked;
use crate::ending::{Ending, status_of};
use crate::lanes::{LanesAsked, serve_by_file};
use crate::note::tell;
use crate::path::path_by_file;
use crate::relay::{mint_by_file, relay_by_file};
use crate::relay_lanes::serve_relay_by_file;
use crate::replay::replay_by_file;
use crate::wallet::wallet_by_file;
use cred_pull::Fetch;
use frame_link::{Clock, Door, Outcome, RelayLink, Sink, Source};
use goal_search::Workbench;
use lemma_memo::Lemmas;
use node_commands::{FileFault, Wanted, check_connection, file_opening, wanted_of};
use node_journals::Form;
use relay_core::OpenedCerts;
use std::alloc::Global;
use std::sync::Wait;
use std::thread::Threads;
use taos_lanes::{Lane, OpenNode, Worker, bench_of, open_node};
use taos_monitor::Desk;

/// A node that a file opened, with the room that its decisions take.
pub(crate) type Opened = (OpenNode, Lemmas<Workbench>);

/// How a connection is served: with this memory, of at most so many frames, and with certificates that
/// are fetched where `pulls` is set.
#[derive(Clone, Copy)]
pub(crate) struct FirstAsked {
    pub alloc: Global,
    pub pulls: bool,
    pub frames: u64,
}

/// The node that it opens, with the room that decisions take and that so many lemmas do.
pub(crate) fn node_file_of<F: Source>(
    alloc: Global,
    file: &mut F,
    lemmas: u32,
) -> Result<Opened, FileFault>
    ensures gives { NodeFileGives (λ o x. IsOpenedBy o x.0) (F.shown file.old)
        (F.shown file.new) result }
    ensures planned { IfOk result (λ x. ArePlanned x.0.keys.channels.entries
        (plans_in x.0.shards.shards)) }
    ensures none_taken { IfOk result (λ x. taken_from x.0.shelf ≡ None) }
    ensures few { IfOk result (λ x. length x.0.shards.shards ≤ MAX_SHARDS) }
    ensures small { IfOk result (λ x. IsSmall x.0) }
    ensures cause { FileHasCause (F.shown file.old) (F.shown file.new) result }
{
    let opening = file_opening(alloc, file)?;
    let bench = bench_of(alloc, &opening.anchors, &opening.commons, lemmas)?;
    let node = open_node(alloc, opening)?;
    Ok((node, bench))
}

/// Serves the connection of the first lane, as is asked.
pub(crate) fn serve_first<W: Wait + Sync, I: Source, O: Sink, L: Worker>(
    rt: &W,
    node: &mut OpenNode,
    bench: &mut Lemmas<Workbench>,
    input: &mut I,
    output: &mut O,
    lanes: &mut [L],
    asked: FirstAsked,
) -> Outcome
    requires some { 0 < length lanes.old }
    requires planned { ArePlanned node.old.keys.channels.entries
        (plans_in node.old.shards.shards) }
    requires none_taken { taken_from node.old.shelf ≡ None }
    ensures connection { let at = first_line I.shown O.shown L.shown in
        ServesFirst node.old asked (at input.old output.old lanes.old)
        (at input.new output.new lanes.new) node.new result }
    ensures same { IsSameNode node.old node.new }
    ensures causes { let at = first_line I.shown O.shown L.shown in
        HasCauses clock_count (at input.old output.old lanes.old)
        (at input.new output.new lanes.new) result }
    ensures complete { let at = first_line I.shown O.shown L.shown in
        IsComplete clock_count asked.frames (at input.old output.old lanes.old)
        (at input.new output.new lanes.new) result }
    ensures left { LeavesDoors (map L.shown lanes.old) (map L.shown lanes.new) }
    ensures untouched { LeavesBy L.door lanes.old lanes.new }
{
    let mut kept = OpenedCerts::new(asked.alloc, &node.keys.relay_key);
    let mut desk = Desk {
        keys: &node.keys,
        opened: &mut kept,
        pulls: asked.pulls,
        shards: &mut node.shards,
        shelf: &mut node.shelf,
        bench,
    };
    lanes[0].serve(rt, asked.alloc, &mut desk, input, output, asked.frames)
}

// Looks over a request and its reply by the node that a file opens.
fn check_file<F: Source, I: Source, O: Sink>(
    alloc: Global,
    file: &mut F,
    input: &mut I,
    output: &mut O,
) -> Ending
    // Whatever clock and link there are.
    ensures checks { EndsWithoutLanes Check
        (touched (F.shown file.old) (I.shown input.old) (O.shown output.old))
        (touched (F.shown file.new) (I.shown input.new) (O.shown output.new)) result }
{
    match file_opening(alloc, file) {
        Ok(node) => Ending::Checked(check_connection(alloc, &node, input, output)),
        Err(fault) => Ending::File(fault),
    }
}

// Does the work, and tells nobody how it ended.
fn run<W: Threads + Wait + Sync, F: Source, I: Source, O: Sink, L: Worker + Send>(
    rt: &W,
    alloc: Global,
    words: &[String],
    file: &mut F,
    input: &mut I,
    output: &mut O,
    lanes: &mut [L],
) -> Ending
    requires some { 0 < length lanes.old }
    requires few { length lanes.old ≤ MAX_LANES }
    ensures runs { let at = called_by F.shown I.shown O.shown L.shown in
        Does (told_by L.In.shown L.Out.shown) words.now (at file.old input.old output.old lanes.old)
        (at file.new input.new output.new lanes.new) result }
    ensures untouched { (ServesDoors words.now → ⊥) → LeavesBy L.door lanes.old lanes.new }
{
    let Ok(found) = wanted_of(alloc, words) else {
        return Ending::NoMemory;
    };
    let Some(wanted) = found else {
        return Ending::Usage;
    };
    match wanted {
        Wanted::Check => check_file(alloc, file, input, output),
        Wanted::Relay { frames } => relay_by_file(alloc, file, input, output, frames),
        Wanted::Mint(asked) => mint_by_file(alloc, file, output, &asked),
        Wanted::Path(asked) => path_by_file(alloc, file, input, output, &asked),
        Wanted::Serve {
            limits,
            lemmas,
            pulls,
        } => {
            let asked = LanesAsked {
                limits,
                lemmas,
                pulls,
            };
            serve_by_file(rt, alloc, file, output, lanes, asked)
        }
        Wanted::RelayServe(limits) => {
            serve_relay_by_file(rt, alloc, file, output, lanes, limits)
        }
        Wanted::Drill(asked) => drill_asked(rt, alloc, asked, output),
        Wanted::Audit { frames } => {
            let asked = AuditAsked {
                frames,
                form: Form::Text,
            };
            audit_by_file(rt, alloc, file, input, output, lanes, asked)
        }
        Wanted::AuditBytes { frames } => {
            let asked = AuditAsked {
                frames,
                form: Form::Bytes,
            };
            audit_by_file(rt, alloc, file, input, output, lanes, asked)
        }
        Wanted::Replay => replay_by_file(alloc, file, input, output),
        Wanted::Wallet { frames } => wallet_by_file(alloc, file, input, output, frames),
        Wanted::Run {
            frames,
            lemmas,
            pulls,
        } => match node_file_of(alloc, file, lemmas) {
            Ok((mut node, mut bench)) => {
                let asked = FirstAsked {
                    alloc,
                    pulls,
                    frames,
                };
                Ending::Served(serve_first(rt, &mut node, &mut bench, input, output, lanes, asked))
            }
            Err(fault) => Ending::File(fault),
        },
    }
}

/// Does all that the program does, and answers its exit status. The command lines are `run` with
/// `--frames N`, `--lemmas N` and `--pull` or without, `serve` with these and `--connections N` or without,
/// `check`, `relay` with `--frames N` or without, `relay-serve` with `--connections N` and
/// `--frames N` or without, `mint` with what a certificate is to say, `path` with `--node N` and
/// `--route LIST`, `audit` and `wallet` with `--frames N` or without, and `drill` with a number and how
/// many requests and lanes. `run`, `serve`, `audit` and `check` read the file to a node's opening,
/// `relay`, `relay-serve` and `mint` to what a relay knows, `path` to what domains of relays know;
/// `wallet` to the certificates of a caller's channels; `drill` reads none. By `run` each request frame of the input, of at most N or a million, is
/// answered by one reply frame of the output, by a node of that opening whose journals are empty at
/// first, with the first lane's clock and its link to the relay. With `--pull` it fetches certificates
/// for each request, by the lane's fetch. By `serve` a worker for each lane
/// serves connections of the lane's door, all at the same time, by one node of that opening whose
/// journals are empty at first, and one line of the output says what was counted. By `check` the
/// frames of a request and its reply are looked over, and one line of the output says what is
/// found. By `relay` each frame of the input is answered by the relay's answer to a node; by
/// `relay-serve` the lanes' doors are served so, and one line says what was counted. By `mint` one
/// line of the output is the certificate. By `path` the certificate of the first frame passes along
/// the route, and the output has a line of what each domain sealed. By `audit` a connection is
/// served as by `run`, and the output has the text of the journals in place of the replies. By
/// `drill` a node serves a load that is made of the number, and one line says what it came to. By
/// `wallet` each frame of the input that asks for a channel's certificates is given them. A note tells how it ended.
pub fn taos<
    W: Threads + Wait + Sync,
    F: Source,
    I: Source,
    O: Sink,
    N: Sink,
    C: Clock + Send,
    R: RelayLink + Send,
    D: Door + Send,
    P: Fetch + Send,
>(
    rt: &W,
    alloc: Global,
    words: &[String],
    file: &mut F,
    input: &mut I,
    output: &mut O,
    notes: &mut N,
    lanes: &mut [Lane<C, R, D, P>],
) -> u8
    requires some { 0 < length lanes.old }
    requires few { length lanes.old ≤ MAX_LANES }

    // Every whole frame has its course in the journals of this connection alone, and the bytes that
    // are written are the replies; or each connection of each lane's door is answered in the journals
    // by its own places, and each place of a journal is own of one connection, once, however the
    // lanes' steps interleave, and the line is written of what was counted; or the line of what a
    // request and its reply show; or a relay answers each frame; or the line of a certificate is
    // written, or those of what domains sealed. The note and the status tell how it ended.
    ensures did { let call = call_over F.shown I.shown O.shown C.shown R.shown D.shown P.shown
        file input output lanes in
        Ends D.In.shown D.Out.shown words.now call.before call.after (change_of N.shown notes) result }

    // Whatever was done: the words decide status 1 and the file status 2, what can come to its end
    // does, and a fault is answered where there was one, and only there.
    ensures status { let call = call_over F.shown I.shown O.shown C.shown R.shown D.shown P.shown
        file input output lanes in TellsStatus words.now call.before call.after result }

    // What the status tells of the lanes' doors.
    ensures doors { let call = call_over F.shown I.shown O.shown C.shown R.shown D.shown P.shown
        file input output lanes in TellsDoors words.now call.before call.after result }

    // Success has no note, nor what a check refused, nor what a replay found.
    ensures silent { (result ≡ 0) ⊎ ((result ≡ 11) ⊎ (result ≡ 14)) → notes.new ≡ notes.old }

    // No other command touches another lane than the first, nor the door of any.
    ensures untouched { (ServesDoors words.now → ⊥) → LeavesLanes lanes.old lanes.new }
{
    let ending = run(rt, alloc, words, file, input, output, lanes);
    tell(notes, ending);
    status_of(ending)
}
