//! Counting distinct subterms.

ghost use Rattle.std.specs.Prelude.{◌≡◌, ◌≤◌, nat_le, length};
ghost use Rattle.std.specs.Option.{option_map};
ghost use Rattle.prin_term.specs.View.{principal};
ghost use Rattle.stmt_codec.specs.declared.limits.TheConstants.{MAX_DISTINCT};
ghost use Rattle.stmt_codec.specs.Certificates.{key_quoting, distinct_parts};
ghost use Rattle.stmt_codec.specs.Distinct.{same_principal};
ghost use Rattle.prin_term.specs.Principal.{Quoting};

use crate::limits::MAX_DISTINCT;
use prin_term::Term;

pub(crate) fn same(term: &Term, other: &Term) -> bool
    ensures { result ≡ same_principal (principal term.now) (principal other.now) }
{
    term.same(other)
}

// Terms no two of which are equal.
#[derive(Drop)]
struct Seen<'a> {
    terms: [&'a Term; MAX_DISTINCT],
    count: usize,
    // The terms that count lie in the array.
    ghost within: { count ≤ MAX_DISTINCT },
}

impl<'a> Seen<'a> {
    ghost use Rattle.std.specs.Prelude.{◌<◌, [], ◌∷◌, ◌++◌, length};
    ghost use Rattle.std.specs.Bool.{OnTrue, OnFalse};
    ghost use Rattle.std.specs.List.{list_any};
    ghost use Rattle.prin_term.specs.Principal.{Principal, Quoting, subterms};
    ghost use Rattle.stmt_codec.specs.Distinct.{same_principal, met};
    ghost use Rattle.stmt_codec.specs.Seen.{principals};

    fn none(blank: &'a Term) -> Seen<'a>
        ensures { principals result ≡ [] }
    {
        Seen {
            terms: [blank; MAX_DISTINCT],
            count: 0,
        }
    }

    fn len(&self) -> usize
        ensures { result ≡ length (principals self.now) }
    {
        self.count
    }

    fn has(&self, term: &Term) -> bool
        ensures { result ≡ list_any (same_principal (principal term.now)) (principals self.now) }
    {
        self.terms[..self.count].iter().any(|seen| same(term, seen))
    }

    fn has_quoting(&self, first: &Term, second: &Term) -> bool
        ensures { result ≡ list_any
            (same_principal (Quoting (principal first.now) (principal second.now)))
            (principals self.now) }
    {
        self.terms[..self.count]
            .iter()
            .any(|seen| is_quoting(first, second, seen))
    }

    fn push(&mut self, term: &'a Term)
        requires { self.old.count < MAX_DISTINCT }
        ensures { principals self.new ≡ principals self.old ++ principal term.now ∷ [] }
    {
        let count = self.count;
        let mut terms = self.terms;
        let places = &mut terms[..];
        places[count] = term;
        self.terms = terms;
        self.count = count + 1;
    }

    // Adds the term where it is new; false where there is no room for it.
    fn meet(&mut self, term: &'a Term) -> bool
        ensures added { OnTrue result
            (principals self.new ≡ met (principals self.old) (principal term.now ∷ [])) }
        ensures full { OnFalse result
            (MAX_DISTINCT < length (met (principals self.old) (principal term.now ∷ []))) }
    {
        if self.has(term) {
            return true;
        }
        if self.count == MAX_DISTINCT {
            return false;
        }
        self.push(term);
        true
    }

    // Adds each part of the term that is new; false where there is no room for one.
    fn meet_all(&mut self, term: &'a Term) -> bool
        ensures added { OnTrue result
            (principals self.new ≡ met (principals self.old) (subterms (principal term.now))) }
        ensures full { OnFalse result
            (MAX_DISTINCT < length (met (principals self.old) (subterms (principal term.now)))) }
    {
        if !self.meet(term) {
            return false;
        }
        match term {
            Term::Key(_) | Term::Name(_) => true,
            Term::And(left, right) | Term::Quote(left, right) | Term::For(left, right) => {
                self.meet_all(left) && self.meet_all(right)
            }
            Term::AsRole(base, _) => self.meet_all(base),
        }
    }

    fn meet_both(&mut self, first: &'a Term, second: &'a Term) -> bool
        ensures added { OnTrue result (principals self.new ≡ met (principals self.old)
            (subterms (principal first.now) ++ subterms (principal second.now))) }
        ensures full { OnFalse result (MAX_DISTINCT < length (met (principals self.old)
            (subterms (principal first.now) ++ subterms (principal second.now)))) }
    {
        self.meet_all(first) && self.meet_all(second)
    }
}

fn is_quoting(first: &Term, second: &Term, term: &Term) -> bool
    ensures { result ≡ same_principal (Quoting (principal first.now) (principal second.now))
        (principal term.now) }
{
    match term {
        Term::Quote(left, right) => same(first, left) && same(second, right),
        _ => false,
    }
}

// Whether the key, the left and the right have few enough parts.
fn are_few<'a>(key: &'a Term, left: &'a Term, right: &'a Term) -> bool
    ensures { result ≡ nat_le (length (distinct_parts
        (principal key.now) (principal left.now) (principal right.now))) MAX_DISTINCT }
{
    let mut seen = Seen::none(key);
    seen.meet_all(key) && seen.meet_both(left, right)
}

// The same of the key quoting that term.
fn are_few_quoting<'a>(key: &'a Term, quoted: &'a Term, left: &'a Term, right: &'a Term) -> bool
    ensures { result ≡ nat_le (length (distinct_parts
        (Quoting (principal key.now) (principal quoted.now))
        (principal left.now) (principal right.now))) MAX_DISTINCT }
{
    let mut seen = Seen::none(key);
    if !seen.meet_both(key, quoted) {
        return false;
    }
    if !seen.meet_both(left, right) {
        return false;
    }
    seen.len() < MAX_DISTINCT || seen.has_quoting(key, quoted)
}

// Whether the speaker, the left and the right have few enough distinct subterms.
pub(crate) fn has_few_subterms(
    issuer: u32,
    quoted: &Option<Term>,
    left: &Term,
    right: &Term,
) -> bool
    ensures { result ≡ nat_le (length (distinct_parts
        (key_quoting issuer (option_map principal quoted.now))
        (principal left.now) (principal right.now))) MAX_DISTINCT }
{
    let key = Term::Key(issuer);
    match quoted {
        None => are_few(&key, left, right),
        Some(quoted) => are_few_quoting(&key, quoted, left, right),
    }
}
