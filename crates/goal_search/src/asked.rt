//! A search with what it was asked.

ghost use Rattle.std.specs.Prelude.{◌≡◌, ◌≤◌, vec_capacity};
ghost use Rattle.taos_calculus.specs.declared.decide.TheConstants.{MAX_CERTS, MAX_ENTRIES};
ghost use Rattle.taos_calculus.specs.declared.proof.TheConstants.{MAX_NODES};

use crate::gather::{keep_marks, keep_nodes, link_anchors, take_certs, take_list, take_term};
use crate::going_on::are_among;
use crate::replay::replay;
use crate::search::Search;
use prin_term::{Anchor, Entry, Term};
use std::alloc::{AllocError, Global};
use std::sync::Arc;
use stmt_codec::Cert;
use taos_calculus::{MAX_CERTS, MAX_ENTRIES, MAX_NODES, Taken};
use term_pool::{Cited, Pool, keep_anchors};

/// What was asked, and how far the search for it went.
#[derive(Drop)]
pub struct Asked {
    pub pool: Pool,
    pub search: Search,
    /// All certificates in their order: by the numbers of their terms those that are taken in, by
    /// their place alone the others.
    pub held: Vec<Cited>,
    /// Which of them are taken in.
    pub taken: Vec<bool>,
    /// Which of these are chosen.
    pub marks: Vec<bool>,
    pub subject: u16,
    pub list: Vec<u16>,
    /// Whether nothing is left to do about the rows that are wanted.
    pub settled: bool,
    /// There is room for the largest question.
    ghost pool_room: { pool.room ≡ MAX_NODES },
    ghost list_room: { MAX_ENTRIES ≤ vec_capacity list },
    ghost held_room: { MAX_CERTS ≤ vec_capacity held },
    ghost taken_room: { MAX_CERTS ≤ vec_capacity taken },
    ghost marks_room: { MAX_CERTS ≤ vec_capacity marks },
}

impl Asked {
    ghost use Rattle.std.specs.Prelude.{◌⊎◌, ◌↔◌, [], IsTrue, IfOk, Contains, false, length, map, replicate};
    ghost use Rattle.prin_term.specs.View.{grant, principal};
    ghost use Rattle.stmt_codec.specs.View.{certificates};
    ghost use Rattle.taos_calculus.specs.Question.{question_of, IsAskable, IsProofOf};
    ghost use Rattle.taos_calculus.specs.Question.{IsTermOf, MayAnswer};
    ghost use Rattle.taos_calculus.specs.Tables.{lines_of, named};
    ghost use Rattle.goal_search.specs.Asked.{AreAmong, AsksTheSame, IsAbout, IsAsked, IsGathered, seen};
    ghost use Rattle.goal_search.specs.Searching.{core, IsNumber, IsSettled, Has};

    /// Room for the largest question.
    pub fn reserve(alloc: Global) -> Result<Asked, AllocError> {
        Ok(Asked {
            pool: Pool::reserve(alloc, MAX_NODES as u32)?,
            search: Search::reserve(alloc)?,
            held: Vec::with_capacity(alloc, MAX_CERTS)?,
            taken: Vec::with_capacity(alloc, MAX_CERTS)?,
            marks: Vec::with_capacity(alloc, MAX_CERTS)?,
            subject: 0,
            list: Vec::with_capacity(alloc, MAX_ENTRIES)?,
            settled: false,
        })
    }

    // Nothing is asked, and all room is kept.
    fn forget(&mut self)
        ensures pool { self.new.pool.terms ≡ [] }
        ensures nodes { self.new.search.nodes.items ≡ [] }
        ensures anchors { self.new.search.anchors.items ≡ [] }
        ensures links { self.new.search.links.items ≡ [] }
        ensures cited { self.new.search.cited.items ≡ [] }
        ensures wanted { self.new.search.wanted.items ≡ [] }
        ensures held { self.new.held.items ≡ [] }
        ensures taken { self.new.taken.items ≡ [] }
        ensures marks { self.new.marks.items ≡ [] }
        ensures list { self.new.list.items ≡ [] }
    {
        self.pool.reset();
        self.search.nodes.clear();
        self.search.anchors.clear();
        self.search.links.clear();
        self.search.cited.clear();
        self.search.wanted.clear();
        self.search.queue.clear();
        self.held.clear();
        self.taken.clear();
        self.marks.clear();
        self.list.clear();
        self.settled = false;
    }

    // Takes in what is asked about, and these certificates. None is chosen yet.
    fn gather(
        &mut self,
        anchors: &[Anchor],
        certs: &[Arc<Cert>],
        taken: &[bool],
        subject: &Term,
        list: &[Entry],
    )
        requires pool { self.old.pool.terms ≡ [] }
        requires nodes { self.old.search.nodes.items ≡ [] }
        requires anchors { self.old.search.anchors.items ≡ [] }
        requires links { self.old.search.links.items ≡ [] }
        requires cited { self.old.search.cited.items ≡ [] }
        requires wanted { self.old.search.wanted.items ≡ [] }
        requires held { self.old.held.items ≡ [] }
        requires taken { self.old.taken.items ≡ [] }
        requires marks { self.old.marks.items ≡ [] }
        requires list { self.old.list.items ≡ [] }
        requires askable { IsAskable anchors.now (certificates certs.now) taken.now
            (principal subject.now) (map grant list.now) }
        ensures gathered { IsGathered self.new }
        ensures about { IsAbout self.new anchors.now (certificates certs.now)
            (principal subject.now) (map grant list.now) }
        ensures taken { self.new.taken.items ≡ taken.now }
    {
        keep_anchors(&mut self.search.anchors, anchors);
        take_certs(&mut self.pool, &mut self.held, certs, taken);
        keep_marks(&mut self.taken, taken);
        self.marks.resize(taken.len(), false).unwrap();
        self.subject = take_term(&mut self.pool, subject);
        take_list(&mut self.pool, &mut self.list, list);
        keep_nodes(&mut self.search.nodes, self.pool.nodes());
        link_anchors(&mut self.search.links, &self.pool, anchors);
    }

    /// Asks anew, with these certificates taken in and none chosen.
    pub fn start(
        &mut self,
        anchors: &[Anchor],
        certs: &[Arc<Cert>],
        taken: &[bool],
        subject: &Term,
        list: &[Entry],
    )
        requires { IsAskable anchors.now (certificates certs.now) taken.now
            (principal subject.now) (map grant list.now) }
        ensures asked { IsAsked self.new }
        ensures about { IsAbout self.new anchors.now (certificates certs.now)
            (principal subject.now) (map grant list.now) }
        ensures taken { self.new.taken.items ≡ taken.now }
        ensures none { self.new.marks.items ≡ replicate (length taken.now) false }
    {
        self.forget();
        self.gather(anchors, certs, taken, subject, list);
        self.search.restart();
    }

    // Is asked about these, with none chosen but what stays so. Where that is the question which was
    // asked last, what is known stays known if no certificate fewer is chosen, and all that are have
    // been taken in; else all are taken in, for the questions that come next.
    fn prepare(
        &mut self,
        anchors: &[Anchor],
        certs: &[Arc<Cert>],
        chosen: &[bool],
        subject: &Term,
        list: &[Entry],
    )
        requires asked { IsAsked self.old }
        requires askable { IsAskable anchors.now (certificates certs.now) chosen.now
            (principal subject.now) (map grant list.now) }
        ensures asked { IsAsked self.new }
        ensures about { IsAbout self.new anchors.now (certificates certs.now)
            (principal subject.now) (map grant list.now) }
        ensures taken { AreAmong chosen.now self.new.taken.items }
        ensures still { AreAmong self.new.marks.items chosen.now }
    {
        if !self.is_about(anchors, certs, subject, list) {
            self.start(anchors, certs, chosen, subject, list);
        } else if !are_among(&self.marks, chosen) || !are_among(chosen, &self.taken) {
            let all = [true; MAX_CERTS];
            self.start(anchors, certs, &all[..certs.len()], subject, list);
        }
    }

    /// Asks about the certificates at whose place `chosen` is true. Where that is the question which
    /// was asked last, with no certificate fewer, what is known may stay known.
    pub fn begin(
        &mut self,
        anchors: &[Anchor],
        certs: &[Arc<Cert>],
        chosen: &[bool],
        subject: &Term,
        list: &[Entry],
    )
        requires asked { IsAsked self.old }
        requires askable { IsAskable anchors.now (certificates certs.now) chosen.now
            (principal subject.now) (map grant list.now) }
        ensures asked { IsAsked self.new }
        ensures seen_is { seen self.new ≡ question_of anchors.now (certificates certs.now)
            chosen.now (principal subject.now) (map grant list.now) }
    {
        self.prepare(anchors, certs, chosen, subject, list);
        self.choose_all(chosen);
    }

    // Wants the row of a number.
    fn want(&mut self, number: u16)
        requires asked { IsAsked self.old }
        requires number_in { IsNumber (core self.old.search) number }
        ensures asked { IsAsked self.new }
        ensures same { AsksTheSame self.old self.new }
        ensures wanted { Contains self.new.search.wanted.items number }
    {
        if !self.search.is_wanted(number) {
            self.settled = false;
            self.search.want(number);
        }
    }

    // Searches until the left one is known to speak for the right one, or nothing is left to do.
    fn search_on(&mut self, left: u16, right: u16)
        requires asked { IsAsked self.old }
        requires left_in { IsNumber (core self.old.search) left }
        requires right_in { IsNumber (core self.old.search) right }
        requires wanted { Contains self.old.search.wanted.items left }
        ensures asked { IsAsked self.new }
        ensures same { AsksTheSame self.old self.new }
        ensures wanted { Contains self.new.search.wanted.items left }
        ensures done { Has (core self.new.search) left right ⊎ IsSettled (core self.new.search) }
    {
        if !self.settled {
            let found = self.search.settle(left, right);
            self.settled = !found;
        }
    }

    // Whether the left one speaks for the right one.
    fn decide(&mut self, left: u16, right: u16) -> bool
        requires asked { IsAsked self.old }
        requires left_in { IsNumber (core self.old.search) left }
        requires right_in { IsNumber (core self.old.search) right }
        ensures asked { IsAsked self.new }
        ensures same { AsksTheSame self.old self.new }
        ensures known { IsTrue result → Has (core self.new.search) left right }
        ensures answer { IsTrue result ↔ MayAnswer (seen self.old)
            (named self.old.search.nodes.items left) (named self.old.search.nodes.items right) }
    {
        if self.search.has(left as usize, right) {
            return true;
        }
        self.want(left);
        self.search_on(left, right);
        self.search.has(left as usize, right)
    }

    // The number of a term of the question.
    fn number(&self, term: &Term) -> u16
        requires asked { IsAsked self.now }
        requires term_in { IsTermOf (seen self.now) (principal term.now) }
        ensures number_in { IsNumber (core self.now.search) result }
        ensures named_is { named self.now.search.nodes.items result ≡ principal term.now }
    {
        self.pool.find(term).unwrap()
    }

    /// Whether `left => right` is derivable.
    pub fn derives(&mut self, left: &Term, right: &Term) -> bool
        requires asked { IsAsked self.old }
        requires left_in { IsTermOf (seen self.old) (principal left.now) }
        requires right_in { IsTermOf (seen self.old) (principal right.now) }
        ensures asked { IsAsked self.new }
        ensures seen_is { seen self.new ≡ seen self.old }
        ensures answer { IsTrue result
            ↔ MayAnswer (seen self.old) (principal left.now) (principal right.now) }
    {
        let i = self.number(left);
        let j = self.number(right);
        self.decide(i, j)
    }

    /// A proof of `left => right` without waste.
    pub fn take_proof(
        &mut self,
        alloc: Global,
        left: &Term,
        right: &Term,
    ) -> Result<Taken, AllocError>
        requires asked { IsAsked self.old }
        requires left_in { IsTermOf (seen self.old) (principal left.now) }
        requires right_in { IsTermOf (seen self.old) (principal right.now) }
        requires derivable { MayAnswer (seen self.old) (principal left.now) (principal right.now) }
        ensures asked { IsAsked self.new }
        ensures seen_is { seen self.new ≡ seen self.old }
        ensures proof { IfOk result (λ t. IsProofOf (seen self.old) (principal left.now)
            (principal right.now) (lines_of t.proof) t.cites.items) }
    {
        let i = self.number(left);
        let j = self.number(right);
        self.decide(i, j);
        replay(alloc, &self.search, i, j)
    }
}
