//! Taking a question into a table of nodes.

ghost use Rattle.std.specs.Prelude.{◌≡◌, ℕ, ◌+◌, ◌*◌, ◌<◌, ◌≤◌, [], All};
ghost use Rattle.std.specs.Prelude.{length, map, take, vec_capacity};
ghost use Rattle.prin_term.specs.Principal.{node_count};
ghost use Rattle.prin_term.specs.View.{grant, principal};
ghost use Rattle.stmt_codec.specs.Certificates.{certificate};
ghost use Rattle.stmt_codec.specs.View.{certificates};
ghost use Rattle.taos_calculus.specs.declared.proof.TheConstants.{MAX_NODES};
ghost use Rattle.taos_calculus.specs.Question.{claim_of, picked};
ghost use Rattle.taos_calculus.specs.Tables.{named};
ghost use Rattle.taos_saturate.specs.Gathering.{Widens, Gathers};
ghost use Rattle.term_pool.specs.Finding.{statement_of};
ghost use Rattle.term_pool.specs.Claims.{CitedIn};
ghost use Rattle.term_pool.specs.Interning.{IsRoomy};
ghost use Rattle.term_pool.specs.Claims.{claim_by};

use prin_term::{Entry, Term};
use std::sync::Arc;
use stmt_codec::Cert;
use taos_calculus::Node;
use term_pool::{Cited, Pair, intern};

/// The number of a term.
pub fn take_term(nodes: &mut Vec<Node>, term: &Term) -> u16
    requires roomy { IsRoomy nodes.old.items (vec_capacity nodes.old) }
    requires room { length nodes.old.items + node_count (principal term.now) ≤ MAX_NODES }
    ensures widens { Widens nodes.old.items nodes.new.items (node_count (principal term.now)) }
    ensures within { result < length nodes.new.items }
    ensures named_is { named nodes.new.items result ≡ principal term.now }
    ensures capacity { vec_capacity nodes.old ≤ vec_capacity nodes.new }
{
    intern(nodes, term)
}

// The speaker and the statement of a certificate, by their numbers.
fn take_cert(nodes: &mut Vec<Node>, cert: &Cert, place: u16) -> Cited
    requires roomy { IsRoomy nodes.old.items (vec_capacity nodes.old) }
    requires room { length nodes.old.items + 16 ≤ MAX_NODES }
    ensures widens { Widens nodes.old.items nodes.new.items 16 }
    ensures within { CitedIn (length nodes.new.items) result }
    ensures place { result.place ≡ place }
    ensures claim { claim_by (named nodes.new.items) result ≡ claim_of (certificate cert.now.body) }
    ensures capacity { vec_capacity nodes.old ≤ vec_capacity nodes.new }
{
    let speaker = intern(nodes, &cert.speaker);
    let left = intern(nodes, &cert.body.statement.left);
    let right = intern(nodes, &cert.body.statement.right);
    Cited {
        place,
        speaker,
        left,
        right,
    }
}

// Takes in the certificate at this place, where it is chosen.
fn take_at(
    nodes: &mut Vec<Node>,
    cited: &mut Vec<Cited>,
    certs: &[Arc<Cert>],
    chosen: &[bool],
    place: usize,
)
    requires roomy { IsRoomy nodes.old.items (vec_capacity nodes.old) }
    requires room { length nodes.old.items + 16 ≤ MAX_NODES }
    requires place_in { place < length certs.now }
    requires few { length certs.now ≤ 64 }
    requires same_length { length chosen.now ≡ length certs.now }
    requires cited_few { length cited.old.items ≤ place }
    requires cited_room { length certs.now ≤ vec_capacity cited.old }
    requires gathers { Gathers nodes.old.items cited.old.items
        (picked 0 (take place (map claim_of (certificates certs.now))) (take place chosen.now)) }
    ensures widens { Widens nodes.old.items nodes.new.items 16 }
    ensures gathers { Gathers nodes.new.items cited.new.items
        (picked 0 (take (place + 1) (map claim_of (certificates certs.now)))
        (take (place + 1) chosen.now)) }
    ensures cited_few { length cited.new.items ≤ place + 1 }
    ensures capacity { vec_capacity nodes.old ≤ vec_capacity nodes.new }
    ensures cited_capacity { vec_capacity cited.old ≤ vec_capacity cited.new }
{
    if chosen[place] {
        let it = take_cert(nodes, &certs[place], place as u16);
        cited.push(it).unwrap();
    }
}

/// Takes in the chosen certificates.
pub fn take_certs(
    nodes: &mut Vec<Node>,
    cited: &mut Vec<Cited>,
    certs: &[Arc<Cert>],
    chosen: &[bool],
)
    requires roomy { IsRoomy nodes.old.items (vec_capacity nodes.old) }
    requires room { length nodes.old.items + 16 * length certs.now ≤ MAX_NODES }
    requires few { length certs.now ≤ 64 }
    requires same_length { length chosen.now ≡ length certs.now }
    requires none { cited.old.items ≡ [] }
    requires cited_room { length certs.now ≤ vec_capacity cited.old }
    ensures widens { Widens nodes.old.items nodes.new.items (16 * length certs.now) }
    ensures gathers { Gathers nodes.new.items cited.new.items
        (picked 0 (map claim_of (certificates certs.now)) chosen.now) }
    ensures cited_few { length cited.new.items ≤ length certs.now }
    ensures capacity { vec_capacity nodes.old ≤ vec_capacity nodes.new }
    ensures cited_capacity { vec_capacity cited.old ≤ vec_capacity cited.new }
{
    for i in 0..certs.len() {
        take_at(nodes, cited, certs, chosen, i);
    }
}

/// Takes in who the entries are, and gives their numbers.
pub fn take_list(nodes: &mut Vec<Node>, numbers: &mut Vec<u16>, list: &[Entry])
    requires roomy { IsRoomy nodes.old.items (vec_capacity nodes.old) }
    requires room { length nodes.old.items + 16 * length list.now ≤ MAX_NODES }
    requires none { numbers.old.items ≡ [] }
    requires numbers_room { length list.now ≤ vec_capacity numbers.old }
    requires small { All (λ e. node_count e.who ≤ 16) (map grant list.now) }
    ensures widens { Widens nodes.old.items nodes.new.items (16 * length list.now) }
    ensures within { All (λ i. i < length nodes.new.items) numbers.new.items }
    ensures named_are { map (named nodes.new.items) numbers.new.items
        ≡ map (λ e. principal e.who) list.now }
    ensures capacity { vec_capacity nodes.old ≤ vec_capacity nodes.new }
    ensures numbers_capacity { vec_capacity numbers.old ≤ vec_capacity numbers.new }
{
    for i in 0..list.len() {
        let number = take_term(nodes, &list[i].who);
        numbers.push(number).unwrap();
    }
}

/// The statements of the certificates.
pub fn state_all(statements: &mut Vec<Pair>, cited: &[Cited])
    requires none { statements.old.items ≡ [] }
    requires room { length cited.now ≤ vec_capacity statements.old }
    ensures stated { statements.new.items ≡ map statement_of cited.now }
    ensures capacity { vec_capacity statements.old ≤ vec_capacity statements.new }
{
    for i in 0..cited.len() {
        statements
            .push(Pair {
                left: cited[i].left,
                right: cited[i].right,
            })
            .unwrap();
    }
}
