//! Unit propagation over clauses with two watched literals each.
ghost use Rattle.std.specs.Prelude.{◌≡◌, ◌≢◌, ◌⊎◌, ◌<◌, ◌≤◌, [], ◌∷◌, ◌++◌, ◌+◌, ◌*◌, ◌^◌, ℕ, Some, None, Option, IsTrue, true, false, length, map, take, slice_get, slice_index_or, IfOk, IfSome, IfNone, OnOk, OnErr, MatchOption, vec_capacity};
ghost use Rattle.std.specs.List.{All, Contains};
ghost use Rattle.sat_base.specs.declared.literal.SatLit.{SatLit};
ghost use Rattle.sat_base.specs.Literal.{holds, negated, mentions_variable, IsOver};
ghost use Rattle.sat_base.specs.Truth.{AllTrue, assigned};
ghost use Rattle.sat_log.specs.Propagation.{IsFalseIn, IsUnitClause};
ghost use Rattle.sat_propagate.specs.Internal.Insertion.{IsSooner, IsRank, IsBest, IsUnseen};
ghost use Rattle.sat_propagate.specs.Internal.Trail.{literals, IsTrail};
ghost use Rattle.sat_propagate.specs.Internal.Decider.{wished_signs, wished, scores, with_gains, scores_before, next_gain};
ghost use Rattle.sat_propagate.specs.Internal.WatchLists.{watchers, with_entries};
ghost use Rattle.sat_propagate.specs.Internal.Propagator.{IsPropagator, AreDone, AreEntriesDone, IsWatchDone, Grew, IsConflict, Watches, Moves, texts};
ghost use Rattle.sat_base.specs.declared.literal.Var.{Var};
ghost use Rattle.sat_propagate.specs.Internal.Finding.{Finds, FindsOther};
ghost use Rattle.sat_propagate.specs.Internal.ClauseTable.{Watched};

use crate::clause_table::{ClauseTable, NEAR};
use crate::decider::Decider;
use crate::packed::{Packed, narrow};
use crate::part::is_proper_part;
use crate::recent::Recent;
use crate::trail::Trail;
use crate::watch_lists::{Watch, WatchLists};
use sat_base::{SatLit, Var};
use std::alloc::{AllocError, Global};

/// What a visit of a clause found, one of whose watched literals became false.
pub enum Finding {
    Stale,
    Satisfied(Packed),
    Other(Packed),
    Unit(SatLit),
    False,
}

/// How a search ended: all variables have values, or a clause is false.
#[derive(Clone, Copy)]
pub enum Ended {
    Full,
    False(usize),
}

/// What to do after the visit of an entry.
pub enum Visited {
    Next,
    Again,
    False(usize),
}

/// Clauses in the order in which they were inserted, with a trail.
#[derive(Drop)]
pub struct Propagator {
    pub trail: Trail,
    pub processed: usize,
    pub clauses: ClauseTable,
    pub lists: WatchLists,
    pub decider: Decider,
    used: Vec<usize>,
    recent: Recent,
}

impl Propagator {
    pub fn new(alloc: Global) -> Self
        ensures right { IsPropagator result.trail result.processed result.clauses.items result.lists }
        ensures trail { result.trail ≡ record { steps = []; starts = []; phases = [] } }
        ensures clauses { result.clauses.items ≡ [] }
    {
        Propagator {
            trail: Trail::new(alloc),
            processed: 0,
            clauses: ClauseTable::new(alloc),
            lists: WatchLists::new(alloc),
            decider: Decider::new(alloc),
            used: Vec::new(alloc),
            recent: Recent::new(alloc),
        }
    }

    /// One variable more, which has no value.
    pub fn add_variable(&mut self) -> Result<(), AllocError>
        requires right { IsPropagator self.old.trail self.old.processed self.old.clauses.items self.old.lists }
        ensures right { IsPropagator self.new.trail self.new.processed self.new.clauses.items self.new.lists }
        ensures ok { OnOk result (self.new.trail ≡ record self.old.trail { phases = self.old.trail.phases ++ false ∷ [] }) }
        ensures err { OnErr result (self.new.trail ≡ self.old.trail) }
        ensures clauses { self.new.clauses.items ≡ self.old.clauses.items }
    {
        self.lists.add_variable()?;
        self.decider.add_variable()?;
        self.trail.add_variable()?;
        Ok(())
    }

    /// The literals of a clause.
    pub fn literals(&self, n: usize) -> &[Packed]
        requires { n < length self.now.clauses.items }
        ensures { (watched : Watched) → slice_get self.now.clauses.items n ≡ Some watched → result.now ≡ watched.clause }
    {
        self.clauses.literals(n)
    }

    /// Makes true what follows by unit propagation. The number of a clause that is false then, if there is one.
    pub fn propagate(&mut self) -> Result<Option<usize>, AllocError>
        requires right { IsPropagator self.old.trail self.old.processed self.old.clauses.items self.old.lists }
        ensures right { IsPropagator self.new.trail self.new.processed self.new.clauses.items self.new.lists }
        ensures grew { Grew self.old.trail self.old.clauses.items self.new.trail self.new.clauses.items }
        ensures whole { IfOk result (λ r. r ≡ None → self.new.processed ≡ length self.new.trail.steps) }
        ensures conflict { IfOk result (λ r. (n : ℕ) → r ≡ Some n → IsConflict self.new.trail self.new.clauses.items n) }
    {
        while self.processed < self.trail.len() {
            let falsified = self.trail.step(self.processed).literal.negated();
            if let Some(conflict) = self.visit(falsified)? {
                return Ok(Some(conflict));
            }
            self.processed += 1;
        }
        Ok(None)
    }

    /// Visits the clauses that watch a literal which became false.
    fn visit(&mut self, falsified: SatLit) -> Result<Option<usize>, AllocError>
        requires right { IsPropagator self.old.trail self.old.processed self.old.clauses.items self.old.lists }
        requires falsified { IsTrue (holds (literals self.old.trail.steps) (negated falsified)) }
        requires made { falsified.var.0 < length self.old.trail.phases }
        ensures right { IsPropagator self.new.trail self.new.processed self.new.clauses.items self.new.lists }
        ensures grew { Grew self.old.trail self.old.clauses.items self.new.trail self.new.clauses.items }
        ensures processed { self.new.processed ≡ self.old.processed }
        ensures visited { IfOk result (λ r. r ≡ None → AreDone self.new.trail self.new.clauses.items self.new.lists falsified
            (length (watchers self.new.lists falsified))) }
        ensures conflict { IfOk result (λ r. (n : ℕ) → r ≡ Some n → IsConflict self.new.trail self.new.clauses.items n) }
    {
        let packed = Packed::of(falsified)?;
        self.visit_list(packed)
    }

    /// Visits the entries of a literal which became false, by its number.
    fn visit_list(&mut self, falsified: Packed) -> Result<Option<usize>, AllocError>
        requires right { IsPropagator self.old.trail self.old.processed self.old.clauses.items self.old.lists }
        requires falsified { IsTrue (holds (literals self.old.trail.steps) (negated falsified)) }
        requires made { falsified.var.0 < length self.old.trail.phases }
        ensures right { IsPropagator self.new.trail self.new.processed self.new.clauses.items self.new.lists }
        ensures grew { Grew self.old.trail self.old.clauses.items self.new.trail self.new.clauses.items }
        ensures processed { self.new.processed ≡ self.old.processed }
        ensures visited { IfOk result (λ r. r ≡ None → AreDone self.new.trail self.new.clauses.items self.new.lists falsified
            (length (watchers self.new.lists falsified))) }
        ensures conflict { IfOk result (λ r. (n : ℕ) → r ≡ Some n → IsConflict self.new.trail self.new.clauses.items n) }
    {
        let mut entries = self.lists.take(falsified);
        let found = self.visit_entries(falsified, &mut entries);
        self.lists.put(falsified, entries);
        found
    }

    /// Visits the entries of a literal which became false, while they are taken out of the lists.
    fn visit_entries(
        &mut self,
        falsified: Packed,
        entries: &mut Vec<Watch>,
    ) -> Result<Option<usize>, AllocError>
        requires right { IsPropagator self.old.trail self.old.processed self.old.clauses.items
            (with_entries self.old.lists falsified entries.old.items) }
        requires falsified { IsTrue (holds (literals self.old.trail.steps) (negated falsified)) }
        requires made { falsified.var.0 < length self.old.trail.phases }
        ensures right { IsPropagator self.new.trail self.new.processed self.new.clauses.items
            (with_entries self.new.lists falsified entries.new.items) }
        ensures grew { Grew self.old.trail self.old.clauses.items self.new.trail self.new.clauses.items }
        ensures processed { self.new.processed ≡ self.old.processed }
        ensures visited { IfOk result (λ r. r ≡ None → AreEntriesDone self.new.trail self.new.clauses.items falsified entries.new.items
            (length entries.new.items)) }
        ensures conflict { IfOk result (λ r. (n : ℕ) → r ≡ Some n → IsConflict self.new.trail self.new.clauses.items n) }
    {
        let mut i = 0;
        while let Some(at) = self.next_entry(entries.as_slice(), i) {
            match self.visit_entry(falsified, entries, at)? {
                Visited::Next => i = at + 1,
                Visited::Again => i = at,
                Visited::False(conflict) => return Ok(Some(conflict)),
            }
        }
        Ok(None)
    }

    /// The first entry, from a number on, whose blocker is not true.
    fn next_entry(&self, entries: &[Watch], from: usize) -> Option<usize>
        ensures later { IfSome result (λ at. from ≤ at) }
        ensures inside { IfSome result (λ at. at < length entries.now) }
        ensures done { IfSome result (λ at. (l : SatLit) → AreEntriesDone self.now.trail self.now.clauses.items l entries.now from
            → AreEntriesDone self.now.trail self.now.clauses.items l entries.now at) }
        ensures fits { IfSome result (λ at. at + 1 < 2 ^ 64) }
        ensures none { IfNone result ((l : SatLit) → AreEntriesDone self.now.trail self.now.clauses.items l entries.now from
            → AreEntriesDone self.now.trail self.now.clauses.items l entries.now (length entries.now)) }
    {
        for at in from..entries.len() {
            if !self.trail.affirms(entries[at].blocker) {
                return Some(at);
            }
        }
        None
    }

    /// Visits one of the entries of a literal which became false.
    fn visit_entry(
        &mut self,
        falsified: Packed,
        entries: &mut Vec<Watch>,
        i: usize,
    ) -> Result<Visited, AllocError>
        requires right { IsPropagator self.old.trail self.old.processed self.old.clauses.items
            (with_entries self.old.lists falsified entries.old.items) }
        requires falsified { IsTrue (holds (literals self.old.trail.steps) (negated falsified)) }
        requires made { falsified.var.0 < length self.old.trail.phases }
        requires there { i < length entries.old.items }
        ensures right { IsPropagator self.new.trail self.new.processed self.new.clauses.items
            (with_entries self.new.lists falsified entries.new.items) }
        ensures grew { Grew self.old.trail self.old.clauses.items self.new.trail self.new.clauses.items }
        ensures processed { self.new.processed ≡ self.old.processed }
        ensures next { IfOk result (λ r. r ≡ Visited.Next → (length entries.new.items ≡ length entries.old.items)
            × (AreEntriesDone self.old.trail self.old.clauses.items falsified entries.old.items i
            → AreEntriesDone self.new.trail self.new.clauses.items falsified entries.new.items (i + 1))) }
        ensures again { IfOk result (λ r. r ≡ Visited.Again → (length entries.new.items + 1 ≡ length entries.old.items)
            × (AreEntriesDone self.old.trail self.old.clauses.items falsified entries.old.items i
            → AreEntriesDone self.new.trail self.new.clauses.items falsified entries.new.items i)) }
        ensures conflict { IfOk result (λ r. (n : ℕ) → r ≡ Visited.False n → IsConflict self.new.trail self.new.clauses.items n) }
    {
        let watch = entries[i];
        let n = watch.clause as usize;
        match self.look_at(n, falsified) {
            Finding::Stale => {
                let _ = entries.swap_remove(i);
                Ok(Visited::Again)
            }
            Finding::Satisfied(blocker) => {
                let clause = watch.clause;
                entries[i] = Watch { clause, blocker };
                Ok(Visited::Next)
            }
            Finding::Other(literal) => {
                self.watch_other(watch.clause, falsified, literal)?;
                let _ = entries.swap_remove(i);
                Ok(Visited::Again)
            }
            Finding::Unit(literal) => {
                self.trail.assign(literal, Some(n))?;
                Ok(Visited::Next)
            }
            Finding::False => Ok(Visited::False(n)),
        }
    }

    /// Looks at a clause, one of whose watched literals became false.
    fn look_at(&self, n: usize, falsified: Packed) -> Finding
        requires { IsTrue (holds (literals self.now.trail.steps) (negated falsified)) }
        ensures { Finds (literals self.now.trail.steps) (slice_get self.now.clauses.items n) falsified result }
    {
        let Some(other) = self.clauses.other(n, falsified) else {
            return Finding::Stale;
        };
        if self.trail.affirms(other) {
            return Finding::Satisfied(other);
        }
        match self.replacement_in(n, other) {
            Some(literal) if self.clauses.watches(n, falsified) => Finding::Other(literal),
            Some(_) => Finding::Stale,
            None if self.trail.denies(other) => Finding::False,
            None => Finding::Unit(other.literal()),
        }
    }

    /// A literal of a clause that is not false, other than this one. It is looked for among the near ones first.
    fn replacement_in(&self, n: usize, other: Packed) -> Option<Packed>
        requires { n < length self.now.clauses.items }
        ensures new { IfSome result (λ l. (l ≢ other) × (holds (literals self.now.trail.steps) (negated l) ≡ false)) }
        ensures member { IfSome result (λ l. (watched : Watched) → slice_get self.now.clauses.items n ≡ Some watched
            → IsTrue (holds watched.clause l)) }
        ensures none { IfNone result ((watched : Watched) → slice_get self.now.clauses.items n ≡ Some watched → (l : SatLit)
            → IsTrue (holds watched.clause l) → l ≢ other → IsTrue (holds (literals self.now.trail.steps) (negated l))) }
    {
        if let Some(literal) = self.replacement(self.clauses.near(n), other) {
            return Some(literal);
        }
        let literals = self.clauses.literals(n);
        if literals.len() <= NEAR {
            return None;
        }
        self.replacement(&literals[NEAR..], other)
    }

    /// A literal that is not false, other than this one.
    fn replacement(&self, among: &[Packed], other: Packed) -> Option<Packed>
        ensures some { IfSome result (λ l. IsTrue (holds among.now l) × (l ≢ other)
            × (holds (literals self.now.trail.steps) (negated l) ≡ false)) }
        ensures none { IfNone result ((l : SatLit) → IsTrue (holds among.now l) → l ≢ other
            → IsTrue (holds (literals self.now.trail.steps) (negated l))) }
    {
        for packed in among {
            if self.is_free(*packed, other) {
                return Some(*packed);
            }
        }
        None
    }

    fn is_free(&self, literal: Packed, other: Packed) -> bool
        ensures yes { IsTrue result → (literal ≢ other) × (holds (literals self.now.trail.steps) (negated literal) ≡ false) }
        ensures no { result ≡ false → literal ≢ other → IsTrue (holds (literals self.now.trail.steps) (negated literal)) }
    {
        !self.trail.denies(literal) && !literal.is(other)
    }

    /// Watches a literal in place of another one.
    fn watch_other(&mut self, n: u32, from: Packed, to: Packed) -> Result<(), AllocError>
        requires found { FindsOther (literals self.old.trail.steps) (slice_get self.old.clauses.items n) from to }
        requires made { to.var.0 * 2 + 1 < length self.old.lists }
        ensures moved { OnOk result (Moves self.old.clauses.items self.new.clauses.items self.old.lists self.new.lists n from to) }
        ensures clauses_kept { OnErr result (self.new.clauses.items ≡ self.old.clauses.items) }
        ensures lists_kept { OnErr result (self.new.lists ≡ self.old.lists) }
        ensures trail { self.new.trail ≡ self.old.trail }
        ensures processed { self.new.processed ≡ self.old.processed }
    {
        let blocker = self.clauses.other_than(n as usize, from);
        self.lists.push(to.literal(), Watch { clause: n, blocker })?;
        self.clauses.replace(n as usize, from, to);
        Ok(())
    }

    /// Decides and propagates until all variables have values or a clause is false.
    pub fn search(&mut self) -> Result<Ended, AllocError>
        requires right { IsPropagator self.old.trail self.old.processed self.old.clauses.items self.old.lists }
        ensures right { IsPropagator self.new.trail self.new.processed self.new.clauses.items self.new.lists }
        ensures made { length self.new.trail.phases ≡ length self.old.trail.phases }
        ensures texts { texts self.new.clauses.items ≡ texts self.old.clauses.items }
        ensures full { IfOk result (λ r. r ≡ Ended.Full → AllTrue (assigned self.new.trail.phases) (texts self.new.clauses.items)) }
        ensures conflict { IfOk result (λ r. (n : ℕ) → r ≡ Ended.False n → IsConflict self.new.trail self.new.clauses.items n) }
    {
        self.detach_used();
        loop {
            if let Some(conflict) = self.propagate()? {
                return Ok(Ended::False(conflict));
            }
            let _assigned = self.trail.len();
            match self.pick() {
                Some(var) => self.decide(var)?,
                None => return Ok(Ended::Full),
            }
        }
    }

    /// A variable without a value, if there is one.
    fn pick(&mut self) -> Option<Var>
        ensures some { IfSome result
            (λ v. (v.0 < length self.old.trail.phases) × (mentions_variable (literals self.old.trail.steps) v ≡ false)) }
        ensures none { IfNone result ((v : Var) → v.0 < length self.old.trail.phases
            → mentions_variable (literals self.old.trail.steps) v ≢ false) }
        ensures trail { self.new.trail ≡ self.old.trail }
        ensures processed { self.new.processed ≡ self.old.processed }
        ensures clauses { self.new.clauses.items ≡ self.old.clauses.items }
        ensures lists { self.new.lists ≡ self.old.lists }
    {
        if self.trail.len() == self.trail.variables() {
            return None;
        }
        match self.decider.next(&self.trail) {
            Some(var) => Some(var),
            None => self.trail.first_open(),
        }
    }

    /// Makes a variable true or false, as it is wished or was last.
    pub fn decide(&mut self, var: Var) -> Result<(), AllocError>
        requires right { IsPropagator self.old.trail self.old.processed self.old.clauses.items self.old.lists }
        requires whole { self.old.processed ≡ length self.old.trail.steps }
        requires made { var.0 < length self.old.trail.phases }
        requires undecided { mentions_variable (literals self.old.trail.steps) var ≡ false }
        ensures right { IsPropagator self.new.trail self.new.processed self.new.clauses.items self.new.lists }
        ensures clauses { self.new.clauses.items ≡ self.old.clauses.items }
        ensures made { length self.new.trail.phases ≡ length self.old.trail.phases }
        ensures longer { OnOk result (length self.new.trail.steps ≡ length self.old.trail.steps + 1) }
    {
        let positive = self.decider.sign(var);
        self.trail.decide(SatLit { var, positive })?;
        Ok(())
    }

    /// Variables that took part in a conflict are proposed sooner. The clauses from which something was learned are
    /// watched no more if the next clause that is inserted is a part of them; where there is no memory they stay watched.
    pub fn bump(&mut self, variables: &[Var], used: &[usize])
        ensures trail { self.new.trail ≡ self.old.trail }
        ensures processed { self.new.processed ≡ self.old.processed }
        ensures clauses { self.new.clauses.items ≡ self.old.clauses.items }
        ensures lists { self.new.lists ≡ self.old.lists }
        ensures gain { self.new.decider.gain ≡ next_gain self.old.decider.gain }
        ensures signs { wished_signs self.new.decider.standings.items ≡ wished_signs self.old.decider.standings.items }
        ensures scores { scores self.new.decider.standings.items
            ≡ with_gains (scores_before self.old.decider.gain (scores self.old.decider.standings.items)) variables.now
            (next_gain self.old.decider.gain) }
        ensures used { (self.new.used.items ≡ used.now) ⊎ (self.new.used.items ≡ []) }
        ensures room { length used.now ≤ vec_capacity self.old.used → self.new.used.items ≡ used.now }
    {
        self.decider.advance(variables);
        self.used.clear();
        let _kept = self.used.extend_from_slice(used);
    }

    /// Where variables are decided first, they take these values.
    pub fn wish(&mut self, values: &[bool])
        ensures trail { self.new.trail ≡ self.old.trail }
        ensures processed { self.new.processed ≡ self.old.processed }
        ensures clauses { self.new.clauses.items ≡ self.old.clauses.items }
        ensures lists { self.new.lists ≡ self.old.lists }
        ensures gain { self.new.decider.gain ≡ self.old.decider.gain }
        ensures heap { self.new.decider.heap.items ≡ self.old.decider.heap.items }
        ensures signs { wished_signs self.new.decider.standings.items ≡ wished (wished_signs self.old.decider.standings.items) values.now }
        ensures scores { scores self.new.decider.standings.items ≡ scores self.old.decider.standings.items }
    {
        self.decider.wish_all(values);
    }

    /// Where something was learned, the clauses are watched no more that the last clause is a part of: those from which it was learned, and
    /// those that were learned last.
    fn detach_used(&mut self)
        requires right { IsPropagator self.old.trail self.old.processed self.old.clauses.items self.old.lists }
        ensures right { IsPropagator self.new.trail self.new.processed self.new.clauses.items self.new.lists }
        ensures trail { self.new.trail ≡ self.old.trail }
        ensures texts { texts self.new.clauses.items ≡ texts self.old.clauses.items }
    {
        self.note_recent();
        for _ in 0..self.used.len() {
            if let Some(n) = self.used.pop() {
                self.detach_covered(n);
            }
        }
    }

    /// Where something was learned, notes the clauses that were learned before and that the last clause may be a part of. Where there is no
    /// memory they are not noted.
    fn note_recent(&mut self)
        ensures trail { self.new.trail ≡ self.old.trail }
        ensures processed { self.new.processed ≡ self.old.processed }
        ensures clauses { self.new.clauses.items ≡ self.old.clauses.items }
        ensures lists { self.new.lists ≡ self.old.lists }
    {
        let count = self.clauses.len();
        if count == 0 || self.used.is_empty() {
            return;
        }
        let last = self.clauses.literals(count - 1);
        let _noted = self.recent.find_covered(count - 1, last, &mut self.used);
    }

    /// A clause is watched no more where the last one is a part of it, and another one.
    fn detach_covered(&mut self, n: usize)
        requires right { IsPropagator self.old.trail self.old.processed self.old.clauses.items self.old.lists }
        ensures right { IsPropagator self.new.trail self.new.processed self.new.clauses.items self.new.lists }
        ensures trail { self.new.trail ≡ self.old.trail }
        ensures texts { texts self.new.clauses.items ≡ texts self.old.clauses.items }
    {
        let count = self.clauses.len();
        if n >= count || self.clauses.is_detached(n) {
            return;
        }
        let part = self.clauses.literals(count - 1);
        let clause = self.clauses.literals(n);
        if is_proper_part(part, clause) {
            self.clauses.detach(n);
        }
    }

    /// Goes back to a number of decisions, where there are more.
    pub fn back_to(&mut self, levels: usize)
        requires right { IsPropagator self.old.trail self.old.processed self.old.clauses.items self.old.lists }
        ensures right { IsPropagator self.new.trail self.new.processed self.new.clauses.items self.new.lists }
        ensures clauses { self.new.clauses.items ≡ self.old.clauses.items }
        ensures phases { self.new.trail.phases ≡ self.old.trail.phases }
        ensures starts { self.new.trail.starts ≡ take levels self.old.trail.starts }
        ensures steps { levels < length self.old.trail.starts → self.new.trail.steps
            ≡ take (slice_index_or self.old.trail.starts levels 0) self.old.trail.steps }
        ensures same { length self.old.trail.starts ≤ levels → self.new.trail ≡ self.old.trail }
    {
        if levels < self.trail.levels() {
            let start = self.trail.start(levels);
            propose_from(&mut self.decider, &self.trail, start);
            self.trail.back_to(levels);
            self.processed = start;
        }
    }

    /// Inserts a clause, going back as far as it needs. Not inserted, and false is answered, where all its literals are
    /// false without a decision and at most one of them is another than the others.
    pub fn insert(&mut self, clause: &[SatLit]) -> Result<bool, AllocError>
        requires right { IsPropagator self.old.trail self.old.processed self.old.clauses.items self.old.lists }
        requires over { IsOver (length self.old.trail.phases) clause.now }
        ensures right { IsPropagator self.new.trail self.new.processed self.new.clauses.items self.new.lists }
        ensures made { length self.new.trail.phases ≡ length self.old.trail.phases }
        ensures inserted { IfOk result (λ r. r ≡ true → texts self.new.clauses.items ≡ texts self.old.clauses.items ++ clause.now ∷ []) }
        ensures refused { IfOk result (λ r. r ≡ false → self.new.clauses.items ≡ self.old.clauses.items) }
        ensures falsified { IfOk result (λ r. r ≡ false → IsFalseIn (literals self.new.trail.steps) clause.now) }
        ensures root { IfOk result (λ r. r ≡ false → self.new.trail.starts ≡ []) }
        ensures err { OnErr result (self.new.clauses.items ≡ self.old.clauses.items) }
    {
        let Some(first) = self.best(clause, None) else {
            self.back_to(0);
            return Ok(false);
        };
        match self.best(clause, Some(first)) {
            Some(second) => {
                self.insert_watched(clause, first, second)?;
                Ok(true)
            }
            None => self.insert_unit(clause, first),
        }
    }

    /// The literal other than a given one that is not false, or else that became false last.
    fn best(&self, among: &[SatLit], other: Option<SatLit>) -> Option<SatLit>
        ensures some { IfSome result (λ l. IsBest (literals self.now.trail.steps) among.now other l) }
        ensures none { IfNone result ((l : SatLit) → IsTrue (holds among.now l) → other ≡ Some l) }
    {
        let mut best = None;
        for literal in among {
            if self.is_better(*literal, other, best) {
                best = Some(*literal);
            }
        }
        best
    }

    fn is_better(&self, literal: SatLit, other: Option<SatLit>, than: Option<SatLit>) -> bool
        ensures new { IsTrue result → other ≢ Some literal }
        ensures yes { IsTrue result → (t : SatLit) → than ≡ Some t → IsSooner (literals self.now.trail.steps) t literal }
        ensures no { result ≡ false → other ≢ Some literal → (t : SatLit) × (than ≡ Some t)
            × IsSooner (literals self.now.trail.steps) literal t }
    {
        if other == Some(literal) {
            return false;
        }
        match than {
            None => true,
            Some(than) => self.rank(than) < self.rank(literal),
        }
    }

    /// The place where a literal became false, or the end of the trail.
    fn rank(&self, literal: SatLit) -> usize
        ensures { IsRank (literals self.now.trail.steps) literal result }
    {
        if self.trail.is_false(literal) {
            self.trail.place(literal.var)
        } else {
            self.trail.len()
        }
    }

    fn insert_unit(&mut self, clause: &[SatLit], literal: SatLit) -> Result<bool, AllocError>
        requires right { IsPropagator self.old.trail self.old.processed self.old.clauses.items self.old.lists }
        requires over { IsOver (length self.old.trail.phases) clause.now }
        requires member { IsTrue (holds clause.now literal) }
        requires alone { (l : SatLit) → IsTrue (holds clause.now l) → l ≡ literal }
        ensures right { IsPropagator self.new.trail self.new.processed self.new.clauses.items self.new.lists }
        ensures made { length self.new.trail.phases ≡ length self.old.trail.phases }
        ensures inserted { IfOk result (λ r. r ≡ true → texts self.new.clauses.items ≡ texts self.old.clauses.items ++ clause.now ∷ []) }
        ensures refused { IfOk result (λ r. r ≡ false → self.new.clauses.items ≡ self.old.clauses.items) }
        ensures falsified { IfOk result (λ r. r ≡ false → IsFalseIn (literals self.new.trail.steps) clause.now) }
        ensures root { IfOk result (λ r. r ≡ false → self.new.trail.starts ≡ []) }
        ensures err { OnErr result (self.new.clauses.items ≡ self.old.clauses.items) }
    {
        self.back_to(0);
        if self.trail.is_false(literal) {
            return Ok(false);
        }
        self.push_unit(clause, literal)?;
        Ok(true)
    }

    /// Appends a clause of one literal that is not false, and makes it true, where there is no decision.
    fn push_unit(&mut self, clause: &[SatLit], literal: SatLit) -> Result<(), AllocError>
        requires right { IsPropagator self.old.trail self.old.processed self.old.clauses.items self.old.lists }
        requires root { self.old.trail.starts ≡ [] }
        requires undenied { holds (literals self.old.trail.steps) (negated literal) ≡ false }
        requires over { IsOver (length self.old.trail.phases) clause.now }
        requires member { IsTrue (holds clause.now literal) }
        requires alone { (l : SatLit) → IsTrue (holds clause.now l) → l ≡ literal }
        ensures right { IsPropagator self.new.trail self.new.processed self.new.clauses.items self.new.lists }
        ensures made { length self.new.trail.phases ≡ length self.old.trail.phases }
        ensures inserted { OnOk result (texts self.new.clauses.items ≡ texts self.old.clauses.items ++ clause.now ∷ []) }
        ensures err { OnErr result (self.new.clauses.items ≡ self.old.clauses.items) }
    {
        let packed = Packed::of(literal)?;
        let n = self.clauses.len();
        self.clauses.push(clause, packed, packed)?;
        if self.trail.is_true(literal) {
            return Ok(());
        }
        if let Err(refused) = self.trail.assign(literal, Some(n)) {
            self.clauses.pop();
            return Err(refused);
        }
        Ok(())
    }

    /// Inserts a clause with two literals to watch, wherever the second of which is false all others but the first are.
    fn insert_watched(
        &mut self,
        clause: &[SatLit],
        first: SatLit,
        second: SatLit,
    ) -> Result<(), AllocError>
        requires right { IsPropagator self.old.trail self.old.processed self.old.clauses.items self.old.lists }
        requires over { IsOver (length self.old.trail.phases) clause.now }
        requires first { IsTrue (holds clause.now first) }
        requires second { IsTrue (holds clause.now second) }
        requires apart { first ≢ second }
        requires sooner { IsSooner (literals self.old.trail.steps) second first }
        requires rest { (m : SatLit) → IsTrue (holds clause.now m) → m ≢ first → IsSooner (literals self.old.trail.steps) m second }
        ensures right { IsPropagator self.new.trail self.new.processed self.new.clauses.items self.new.lists }
        ensures made { length self.new.trail.phases ≡ length self.old.trail.phases }
        ensures inserted { OnOk result (texts self.new.clauses.items ≡ texts self.old.clauses.items ++ clause.now ∷ []) }
        ensures err { OnErr result (self.new.clauses.items ≡ self.old.clauses.items) }
    {
        if self.goes_back_to_unit(first, second) {
            return self.push_forced(clause, first, second);
        }
        self.push_watched(clause, first, second)
    }

    /// Goes back to the level of a false literal's place. Whether it was false, and the first literal has no value then.
    fn goes_back_to_unit(&mut self, first: SatLit, second: SatLit) -> bool
        requires right { IsPropagator self.old.trail self.old.processed self.old.clauses.items self.old.lists }
        ensures right { IsPropagator self.new.trail self.new.processed self.new.clauses.items self.new.lists }
        ensures made { length self.new.trail.phases ≡ length self.old.trail.phases }
        ensures clauses { self.new.clauses.items ≡ self.old.clauses.items }
        ensures beginning { (n : ℕ) × (literals self.new.trail.steps ≡ take n (literals self.old.trail.steps)) }
        ensures open { IsTrue result → mentions_variable (literals self.new.trail.steps) first.var ≡ false }
        ensures denied { IsTrue result → IsTrue (holds (literals self.new.trail.steps) (negated second)) }
        ensures unseen { IsTrue result → (s : ℕ) → Contains self.new.trail.starts s
            → holds (take s (literals self.new.trail.steps)) (negated second) ≡ false }
    {
        if !self.trail.is_false(second) {
            return false;
        }
        let place = self.trail.place(second.var);
        let level = self.level_of(place);
        self.back_to(level);
        self.trail.is_open(first.var)
    }

    /// Appends a clause all of whose literals but the first are false, and makes that one true.
    fn push_forced(
        &mut self,
        clause: &[SatLit],
        first: SatLit,
        second: SatLit,
    ) -> Result<(), AllocError>
        requires right { IsPropagator self.old.trail self.old.processed self.old.clauses.items self.old.lists }
        requires over { IsOver (length self.old.trail.phases) clause.now }
        requires second { IsTrue (holds clause.now second) }
        requires apart { first ≢ second }
        requires open { mentions_variable (literals self.old.trail.steps) first.var ≡ false }
        requires unit { IsUnitClause (literals self.old.trail.steps) clause.now first }
        requires unseen { (s : ℕ) → Contains self.old.trail.starts s → holds (take s (literals self.old.trail.steps)) (negated second)
            ≡ false }
        ensures right { IsPropagator self.new.trail self.new.processed self.new.clauses.items self.new.lists }
        ensures made { length self.new.trail.phases ≡ length self.old.trail.phases }
        ensures inserted { OnOk result (texts self.new.clauses.items ≡ texts self.old.clauses.items ++ clause.now ∷ []) }
        ensures err { OnErr result (self.new.clauses.items ≡ self.old.clauses.items) }
    {
        let watched = Packed::of(first)?;
        let other = Packed::of(second)?;
        let n = narrow(self.clauses.len())?;
        self.lists.push(
            first,
            Watch {
                clause: n,
                blocker: other,
            },
        )?;
        self.lists.push(
            second,
            Watch {
                clause: n,
                blocker: watched,
            },
        )?;
        self.clauses.push(clause, watched, other)?;
        if let Err(refused) = self.trail.assign(first, Some(n as usize)) {
            self.clauses.pop();
            return Err(refused);
        }
        Ok(())
    }

    /// Appends a clause with two literals to watch, going back as far as it needs.
    fn push_watched(
        &mut self,
        clause: &[SatLit],
        first: SatLit,
        second: SatLit,
    ) -> Result<(), AllocError>
        requires right { IsPropagator self.old.trail self.old.processed self.old.clauses.items self.old.lists }
        requires over { IsOver (length self.old.trail.phases) clause.now }
        requires first { IsTrue (holds clause.now first) }
        requires second { IsTrue (holds clause.now second) }
        requires apart { first ≢ second }
        requires sooner { IsSooner (literals self.old.trail.steps) second first }
        ensures right { IsPropagator self.new.trail self.new.processed self.new.clauses.items self.new.lists }
        ensures made { length self.new.trail.phases ≡ length self.old.trail.phases }
        ensures inserted { OnOk result (texts self.new.clauses.items ≡ texts self.old.clauses.items ++ clause.now ∷ []) }
        ensures err { OnErr result (self.new.clauses.items ≡ self.old.clauses.items) }
    {
        let watched = Packed::of(first)?;
        let other = Packed::of(second)?;
        let n = narrow(self.clauses.len())?;
        self.make_room(second);
        self.lists.push(
            first,
            Watch {
                clause: n,
                blocker: other,
            },
        )?;
        self.lists.push(
            second,
            Watch {
                clause: n,
                blocker: watched,
            },
        )?;
        self.clauses.push(clause, watched, other)?;
        Ok(())
    }

    /// Goes back to where a clause may be watched whose second best literal is this one. Where it is false, the trail
    /// is processed again from its place on, so that propagation finds what the clause makes true.
    fn make_room(&mut self, literal: SatLit)
        requires right { IsPropagator self.old.trail self.old.processed self.old.clauses.items self.old.lists }
        ensures right { IsPropagator self.new.trail self.new.processed self.new.clauses.items self.new.lists }
        ensures made { length self.new.trail.phases ≡ length self.old.trail.phases }
        ensures clauses { self.new.clauses.items ≡ self.old.clauses.items }
        ensures unseen { (l : SatLit) → IsSooner (literals self.old.trail.steps) literal l
            → IsUnseen self.new.trail.starts (literals self.new.trail.steps) self.new.processed l }
    {
        if self.trail.is_false(literal) {
            let place = self.trail.place(literal.var);
            let level = self.level_of(place);
            self.back_to(level);
            self.process_from(place);
        }
    }

    /// Processes the trail again from a place on, where that is sooner.
    fn process_from(&mut self, place: usize)
        requires right { IsPropagator self.old.trail self.old.processed self.old.clauses.items self.old.lists }
        requires started { (s : ℕ) → Contains self.old.trail.starts s → s ≤ place }
        ensures right { IsPropagator self.new.trail self.new.processed self.new.clauses.items self.new.lists }
        ensures trail { self.new.trail ≡ self.old.trail }
        ensures clauses { self.new.clauses.items ≡ self.old.clauses.items }
        ensures processed { self.new.processed ≤ place }
    {
        if place < self.processed {
            self.processed = place;
        }
    }

    /// How many decisions are not after a place.
    fn level_of(&self, place: usize) -> usize
        ensures earlier { (s : ℕ) → Contains (take result self.now.trail.starts) s → s ≤ place }
        ensures later { result < length self.now.trail.starts → place < slice_index_or self.now.trail.starts result 0 }
    {
        let mut level = self.trail.levels();
        while level > 0 {
            if self.trail.start(level - 1) <= place {
                return level;
            }
            level -= 1;
        }
        0
    }
}

/// Proposes the variables that have their values from a place on.
fn propose_from(decider: &mut Decider, trail: &Trail, start: usize) {
    for place in start..trail.len() {
        let literal = trail.step(place).literal;
        decider.wish(literal.var, literal.positive);
        decider.propose(literal.var);
    }
}
