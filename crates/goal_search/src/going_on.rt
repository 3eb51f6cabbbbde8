//! Whether it is the question that was asked last, and certificates that are chosen besides.

ghost use Rattle.std.specs.Prelude.{◌≡◌, ℕ, ◌<◌, IsTrue, true, false, Some};
ghost use Rattle.std.specs.Prelude.{slice_get, length, map, set};
ghost use Rattle.prin_term.specs.View.{grant, principal};
ghost use Rattle.stmt_codec.specs.Certificates.{certificate};
ghost use Rattle.stmt_codec.specs.View.{certificates};
ghost use Rattle.taos_calculus.specs.Question.{claim_of};
ghost use Rattle.taos_calculus.specs.Tables.{named};
ghost use Rattle.term_pool.specs.Claims.{claim_by};
ghost use Rattle.goal_search.specs.Asked.{AreAmong, AsksAsBefore, IsAbout, IsAsked};
ghost use Rattle.goal_search.specs.Asked.{MakeClaims};

use crate::asked::Asked;
use prin_term::{Anchor, Entry, Term};
use std::sync::Arc;
use stmt_codec::Cert;
use term_pool::Cited;

/// Whether each that is marked here is marked there.
pub fn are_among(marks: &[bool], others: &[bool]) -> bool
    requires { length marks.now ≡ length others.now }
    ensures { IsTrue result → AreAmong marks.now others.now }
{
    for i in 0..marks.len() {
        if marks[i] && !others[i] {
            return false;
        }
    }
    true
}

impl Asked {
    // Whether the term has this number.
    fn is_term(&self, number: u16, term: &Term) -> bool
        requires { IsAsked self.now }
        ensures { IsTrue result → named self.now.search.nodes.items number ≡ principal term.now }
    {
        match self.pool.find(term) {
            Some(found) => found == number,
            None => false,
        }
    }

    // Whether the certificate says what these numbers do.
    fn is_cert(&self, it: Cited, cert: &Cert) -> bool
        requires { IsAsked self.now }
        ensures { IsTrue result → claim_by (named self.now.search.nodes.items) it
            ≡ claim_of (certificate cert.now.body) }
    {
        self.is_term(it.speaker, &cert.speaker)
            && self.is_term(it.left, &cert.body.statement.left)
            && self.is_term(it.right, &cert.body.statement.right)
    }

    // Whether these are the certificates, as far as they are taken in.
    fn are_held(&self, certs: &[Arc<Cert>]) -> bool
        requires { IsAsked self.now }
        ensures { IsTrue result → MakeClaims (named self.now.search.nodes.items)
            self.now.held.items (map claim_of (certificates certs.now)) self.now.taken.items }
    {
        if certs.len() != self.held.len() {
            return false;
        }
        for i in 0..certs.len() {
            if self.taken[i] && !self.is_cert(self.held[i], &certs[i]) {
                return false;
            }
        }
        true
    }

    // Whether this is the list.
    fn are_listed(&self, list: &[Entry]) -> bool
        requires { IsAsked self.now }
        ensures { IsTrue result → map (named self.now.search.nodes.items) self.now.list.items
            ≡ map (λ e. principal e.who) list.now }
    {
        if list.len() != self.list.len() {
            return false;
        }
        for i in 0..list.len() {
            if !self.is_term(self.list[i], &list[i].who) {
                return false;
            }
        }
        true
    }

    // Whether these are the anchors.
    fn are_anchors(&self, anchors: &[Anchor]) -> bool
        ensures { IsTrue result → self.now.search.anchors.items ≡ anchors.now }
    {
        self.search.anchors.as_slice() == anchors
    }

    /// Whether it is the question that was asked last, whichever certificates are chosen.
    pub fn is_about(
        &self,
        anchors: &[Anchor],
        certs: &[Arc<Cert>],
        subject: &Term,
        list: &[Entry],
    ) -> bool
        requires { IsAsked self.now }
        ensures { IsTrue result → IsAbout self.now anchors.now (certificates certs.now)
            (principal subject.now) (map grant list.now) }
    {
        self.is_term(self.subject, subject)
            && self.are_listed(list)
            && self.are_anchors(anchors)
            && self.are_held(certs)
    }

    // Chooses a certificate that is taken in and was not chosen.
    fn choose(&mut self, place: usize)
        requires asked { IsAsked self.old }
        requires new { slice_get self.old.marks.items place ≡ Some false }
        requires taken { slice_get self.old.taken.items place ≡ Some true }
        ensures asked { IsAsked self.new }
        ensures same { AsksAsBefore self.old self.new }
        ensures marks { self.new.marks.items ≡ set self.old.marks.items place true }
    {
        self.marks[place] = true;
        let it = self.held[place];
        let settled = self.settled && self.search.has_followed(it);
        self.search.add_cert(it);
        self.settled = settled;
    }

    /// Chooses these certificates. None that was chosen is left out.
    pub fn choose_all(&mut self, chosen: &[bool])
        requires asked { IsAsked self.old }
        requires taken { AreAmong chosen.now self.old.taken.items }
        requires still { AreAmong self.old.marks.items chosen.now }
        ensures asked { IsAsked self.new }
        ensures same { AsksAsBefore self.old self.new }
        ensures marks { self.new.marks.items ≡ chosen.now }
    {
        for place in 0..chosen.len() {
            if chosen[place] && !self.marks[place] {
                self.choose(place);
            }
        }
    }
}
