//! Taking a question in.

ghost use Rattle.std.specs.Prelude.{◌≡◌, ◌≢◌, ℕ, ◌+◌, ◌*◌, ◌<◌, ◌≤◌, [], ◌∷◌, ◌++◌, Some, All, List};
ghost use Rattle.std.specs.Prelude.{MatchOption, length, map, take, slice_get, vec_capacity};
ghost use Rattle.prin_term.specs.Principal.{Key, Name, node_count};
ghost use Rattle.prin_term.specs.View.{grant, principal};
ghost use Rattle.stmt_codec.specs.Certificates.{certificate};
ghost use Rattle.stmt_codec.specs.View.{certificates};
ghost use Rattle.taos_calculus.specs.declared.line.Node.{Node};
ghost use Rattle.taos_calculus.specs.declared.proof.TheConstants.{MAX_NODES};
ghost use Rattle.taos_calculus.specs.Question.{claim_of};
ghost use Rattle.taos_calculus.specs.Tables.{IsNodeTable, principals_of};
ghost use Rattle.term_pool.specs.Claims.{CitedIn, claim_by};
ghost use Rattle.goal_search.specs.Taking.{Holds, IsUnlinked, LinksAnchors, LinksOne, Widens, principal_at};

use crate::search::Anchored;
use prin_term::{Anchor, Entry, Term};
use std::sync::Arc;
use stmt_codec::Cert;
use taos_calculus::Node;
use term_pool::{Cited, Pool};

/// The number of a term.
pub fn take_term(pool: &mut Pool, term: &Term) -> u16
    requires room { length pool.old.terms + node_count (principal term.now) ≤ pool.old.room }
    ensures widens { Widens pool.old pool.new (node_count (principal term.now)) }
    ensures within { result < length pool.new.terms }
    ensures named_is { principal_at pool.new result ≡ principal term.now }
{
    pool.intern(term)
}

// The speaker and the statement of a certificate, by their numbers.
fn take_cert(pool: &mut Pool, cert: &Cert, place: u16) -> Cited
    requires room { length pool.old.terms + 16 ≤ pool.old.room }
    ensures widens { Widens pool.old pool.new 16 }
    ensures within { CitedIn (length pool.new.terms) result }
    ensures place { result.place ≡ place }
    ensures claim { claim_by (principal_at pool.new) result ≡ claim_of (certificate cert.now.body) }
{
    let speaker = pool.intern(&cert.speaker);
    let left = pool.intern(&cert.body.statement.left);
    let right = pool.intern(&cert.body.statement.right);
    Cited {
        place,
        speaker,
        left,
        right,
    }
}

// A certificate that is not taken in.
fn untaken(place: u16) -> Cited
    ensures { result.place ≡ place }
{
    Cited {
        place,
        speaker: 0,
        left: 0,
        right: 0,
    }
}

// Takes in the certificate at this place, where it is to be taken.
fn take_at(
    pool: &mut Pool,
    held: &mut Vec<Cited>,
    certs: &[Arc<Cert>],
    taken: &[bool],
    place: usize,
)
    requires room { length pool.old.terms + 16 ≤ pool.old.room }
    requires place_in { place < length certs.now }
    requires few { length certs.now ≤ 64 }
    requires same_length { length taken.now ≡ length certs.now }
    requires held_room { length certs.now ≤ vec_capacity held.old }
    requires count { length held.old.items ≡ place }
    requires holds { Holds pool.old held.old.items (map claim_of (certificates certs.now))
        taken.now }
    ensures widens { Widens pool.old pool.new 16 }
    ensures holds { Holds pool.new held.new.items (map claim_of (certificates certs.now))
        taken.now }
    ensures count { length held.new.items ≡ place + 1 }
    ensures held_capacity { vec_capacity held.old ≤ vec_capacity held.new }
{
    if taken[place] {
        let it = take_cert(pool, &certs[place], place as u16);
        held.push(it).unwrap();
    } else {
        held.push(untaken(place as u16)).unwrap();
    }
}

/// Takes in these certificates; each of the others has its place alone.
pub fn take_certs(pool: &mut Pool, held: &mut Vec<Cited>, certs: &[Arc<Cert>], taken: &[bool])
    requires room { length pool.old.terms + 16 * length certs.now ≤ pool.old.room }
    requires few { length certs.now ≤ 64 }
    requires same_length { length taken.now ≡ length certs.now }
    requires none { held.old.items ≡ [] }
    requires held_room { length certs.now ≤ vec_capacity held.old }
    ensures widens { Widens pool.old pool.new (16 * length certs.now) }
    ensures holds { Holds pool.new held.new.items (map claim_of (certificates certs.now))
        taken.now }
    ensures count { length held.new.items ≡ length certs.now }
    ensures held_capacity { vec_capacity held.old ≤ vec_capacity held.new }
{
    for i in 0..certs.len() {
        take_at(pool, held, certs, taken, i);
    }
}

/// Keeps which certificates are taken in.
pub fn keep_marks(kept: &mut Vec<bool>, marks: &[bool])
    requires none { kept.old.items ≡ [] }
    requires room { length marks.now ≤ vec_capacity kept.old }
    ensures kept { kept.new.items ≡ marks.now }
    ensures capacity { vec_capacity kept.old ≤ vec_capacity kept.new }
{
    for i in 0..marks.len() {
        kept.push(marks[i]).unwrap();
    }
}

/// Takes in who the entries are, and gives their numbers.
pub fn take_list(pool: &mut Pool, numbers: &mut Vec<u16>, list: &[Entry])
    requires room { length pool.old.terms + 16 * length list.now ≤ pool.old.room }
    requires none { numbers.old.items ≡ [] }
    requires numbers_room { length list.now ≤ vec_capacity numbers.old }
    requires small { All (λ e. node_count e.who ≤ 16) (map grant list.now) }
    ensures widens { Widens pool.old pool.new (16 * length list.now) }
    ensures within { All (λ i. i < length pool.new.terms) numbers.new.items }
    ensures named_are { map (principal_at pool.new) numbers.new.items
        ≡ map (λ e. principal e.who) list.now }
    ensures numbers_capacity { vec_capacity numbers.old ≤ vec_capacity numbers.new }
{
    for i in 0..list.len() {
        let number = take_term(pool, &list[i].who);
        numbers.push(number).unwrap();
    }
}

/// The nodes of the pool, in a list of their own.
pub fn keep_nodes(kept: &mut Vec<Node>, nodes: &[Node])
    requires none { kept.old.items ≡ [] }
    requires room { length nodes.now ≤ vec_capacity kept.old }
    ensures kept { kept.new.items ≡ nodes.now }
    ensures capacity { vec_capacity kept.old ≤ vec_capacity kept.new }
{
    for i in 0..nodes.len() {
        kept.push(nodes[i]).unwrap();
    }
}

// The number of a key.
fn number_of_key(pool: &Pool, key: u32) -> Option<u16>
    ensures { MatchOption result ((i : ℕ) → slice_get pool.now.terms i ≡ Some (Key key) → ⊥)
        (λ i. slice_get pool.now.terms i ≡ Some (Key key)) }
{
    pool.find(&Term::Key(key))
}

// The number of a name.
fn number_of_name(pool: &Pool, name: u32) -> Option<u16>
    ensures { MatchOption result ((i : ℕ) → slice_get pool.now.terms i ≡ Some (Name name) → ⊥)
        (λ i. slice_get pool.now.terms i ≡ Some (Name name)) }
{
    pool.find(&Term::Name(name))
}

// The anchor by the numbers of its key and its name, where both are there.
fn linked(pool: &Pool, anchor: Anchor) -> Option<Anchored>
    ensures { (nodes : List Node) → IsNodeTable nodes → principals_of nodes ≡ pool.now.terms
        → MatchOption result (IsUnlinked nodes anchor) (LinksOne nodes anchor) }
{
    match number_of_key(pool, anchor.key) {
        Some(key) => match number_of_name(pool, anchor.name) {
            Some(name) => Some(Anchored { key, name }),
            None => None,
        },
        None => None,
    }
}

// Links the anchor at this place, where its key and its name are there.
fn link_one(links: &mut Vec<Anchored>, pool: &Pool, anchors: &[Anchor], place: usize)
    requires place_in { place < length anchors.now }
    requires few { length links.old.items ≤ place }
    requires room { length anchors.now ≤ vec_capacity links.old }
    requires linked { LinksAnchors pool.now (take place anchors.now) links.old.items }
    ensures linked { LinksAnchors pool.now (take (place + 1) anchors.now) links.new.items }
    ensures few { length links.new.items ≤ place + 1 }
    ensures capacity { vec_capacity links.old ≤ vec_capacity links.new }
{
    if let Some(link) = linked(pool, anchors[place]) {
        links.push(link).unwrap();
    }
}

/// The anchors by the numbers of their keys and names, as far as both are there.
pub fn link_anchors(links: &mut Vec<Anchored>, pool: &Pool, anchors: &[Anchor])
    requires none { links.old.items ≡ [] }
    requires room { length anchors.now ≤ vec_capacity links.old }
    ensures linked { LinksAnchors pool.now anchors.now links.new.items }
    ensures few { length links.new.items ≤ length anchors.now }
    ensures capacity { vec_capacity links.old ≤ vec_capacity links.new }
{
    for i in 0..anchors.len() {
        link_one(links, pool, anchors, i);
    }
}
