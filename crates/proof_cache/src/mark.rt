//! A number of a proof's key.

ghost use Rattle.std.specs.Prelude.{◌≡◌};
ghost use Rattle.prin_term.specs.View.{principal};
ghost use Rattle.proof_cache.specs.Mark as math;

use prin_term::Term;

// An odd number of 64 bits: each of its products is another number.
const FACTOR: u64 = 6_364_136_223_846_793_005;

#[tactic(auto, unfolding(crate::specs::Mark::mixed))]
fn mixed(a: u64, b: u64) -> u64
    ensures { result ≡ math.mixed a b }
{
    a.wrapping_mul(FACTOR).wrapping_add(b)
}

fn mark(term: &Term) -> u64
    ensures { result ≡ math.mark (principal term.now) }
{
    match term {
        Term::Key(key) => mixed(1, *key as u64),
        Term::Name(name) => mixed(2, *name as u64),
        Term::And(left, right) => mixed(mixed(3, mark(left)), mark(right)),
        Term::Quote(left, right) => mixed(mixed(4, mark(left)), mark(right)),
        Term::AsRole(base, role) => mixed(mixed(5, mark(base)), *role as u64),
        Term::For(left, right) => mixed(mixed(6, mark(left)), mark(right)),
    }
}

/// The number of a subject and a principal. Most others have another.
pub fn mark_of(subject: &Term, who: &Term) -> u64
    ensures { result ≡ math.mark_of (principal subject.now) (principal who.now) }
{
    mixed(mark(subject), mark(who))
}
