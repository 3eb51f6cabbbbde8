//! Which part of an entry nobody reaches.

ghost use Rattle.std.specs.Prelude.{◌≡◌, ◌≤◌, ◌<◌, ◌↔◌, Contains, IsTrue};
ghost use Rattle.prin_term.specs.Principal.{Principal, subterms, node_count};
ghost use Rattle.prin_term.specs.View.{principal};
ghost use Rattle.taos_calculus.specs.Question.{IsTermOf, claims_of};
ghost use Rattle.denial_link.specs.Links.{IsReached, Lacks};

use prin_term::Term;
use taos_calculus::Decide;

// Whether some part of the subject speaks for a part of an entry.
fn is_reached<D: Decide>(bench: &mut D, subject: &Term, part: &Term) -> bool
    requires asking { (p : Principal) → Contains (subterms (principal subject.now)) p
        → IsTermOf (D.question bench.old) p }
    requires asked { IsTermOf (D.question bench.old) (principal part.now) }
    ensures reached { IsTrue result ↔ IsReached (D.question bench.old).anchors
        (claims_of (D.question bench.old)) (principal subject.now) (principal part.now) }
    ensures same { D.question bench.new ≡ D.question bench.old }
{
    if bench.derives(subject, part) {
        return true;
    }
    match subject {
        Term::Key(_) | Term::Name(_) => false,
        Term::And(a, b) | Term::Quote(a, b) | Term::For(a, b) => {
            is_reached(bench, a, part) || is_reached(bench, b, part)
        }
        Term::AsRole(a, _) => is_reached(bench, a, part),
    }
}

fn count_of(term: &Term) -> u8
    requires { node_count (principal term.now) < 256 }
    ensures { result ≡ node_count (principal term.now) }
{
    match term {
        Term::Key(_) | Term::Name(_) => 1,
        Term::And(a, b) | Term::Quote(a, b) | Term::For(a, b) => 1 + count_of(a) + count_of(b),
        Term::AsRole(a, _) => 1 + count_of(a),
    }
}

/// The place, in a part of an entry that is not reached, of the first part that lacks.
pub(crate) fn lacking<D: Decide>(bench: &mut D, subject: &Term, part: &Term) -> u8
    requires asking { (p : Principal) → Contains (subterms (principal subject.now)) p
        → IsTermOf (D.question bench.old) p }
    requires asked { (p : Principal) → Contains (subterms (principal part.now)) p
        → IsTermOf (D.question bench.old) p }
    requires small { node_count (principal part.now) < 256 }
    ensures lacks { Lacks (IsReached (D.question bench.old).anchors
        (claims_of (D.question bench.old)) (principal subject.now)) (principal part.now) result }
    ensures within { result < node_count (principal part.now) }
    ensures same { D.question bench.new ≡ D.question bench.old }
{
    match part {
        Term::Key(_) | Term::Name(_) => 0,
        Term::And(a, b) | Term::Quote(a, b) | Term::For(a, b) => {
            if !is_reached(bench, subject, a) {
                1 + lacking(bench, subject, a)
            } else if !is_reached(bench, subject, b) {
                1 + count_of(a) + lacking(bench, subject, b)
            } else {
                0
            }
        }
        Term::AsRole(a, _) => {
            if is_reached(bench, subject, a) {
                0
            } else {
                1 + lacking(bench, subject, a)
            }
        }
    }
}
