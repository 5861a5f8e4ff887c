//! Clauses, what was learned from them, and how.
ghost use Rattle.std.specs.Prelude.{◌≡◌, ◌≢◌, [], ◌∷◌, ◌++◌, ℕ, true, false, ◌<◌, ◌≤◌, ◌+◌, List, Some, None, IsSome, IfOk, OnOk, OnErr, length, map};
ghost use Rattle.sat_base.specs.declared.literal.SatLit.{SatLit};
ghost use Rattle.sat_log.specs.Propagation.{IsFalseIn, Includes};
ghost use Rattle.sat_log.specs.declared.chain.Premise.{Premise};
ghost use Rattle.sat_propagate.specs.Internal.Trail.{literals};
ghost use Rattle.sat_propagate.specs.Internal.Propagator.{texts, IsConflict};
ghost use Rattle.sat_core.specs.Internal.Learned.{Learns};
ghost use Rattle.sat_core.specs.Internal.Learner.{IsNamedPropagator, IsLearner, IsUnlearned, AreOver, GrewLearner, AnswersSolve, seen};
ghost use Rattle.sat_core.specs.Solver.{learned_from};
ghost use Rattle.sat_log.specs.Chains.{premise_clause, results, IsLogOver, AppendsChain};

use crate::analysis::refuted_chain;
use crate::marks::Marks;
use crate::restarts::Restarts;
use crate::shorten::learned_chain;
use crate::sides::Sides;
use crate::spares::Spares;
use sat_base::{Clause, ClauseStore};
use sat_log::{Chain, Log, Premise};
use sat_propagate::{Ended, Propagator};
use std::alloc::{AllocError, Global};

/// What a call of `solve` found.
#[derive(Clone, Copy, Debug, PartialEq, Eq)]
pub enum Answer {
    /// The clauses have a satisfying assignment.
    Sat,
    /// The clauses are unsatisfiable, and the last result of the log is the empty clause.
    Unsat,
    /// The budget is spent: so many clauses were learned, and there is one more conflict.
    Spent { conflicts: u64 },
}

/// Clauses and the log of what was learned from them, with a propagator into which they are inserted when the next
/// answer is looked for: so many of the clauses and of the log's results are in it, and each of its clauses has the
/// name of the one that it is. Their variables are made in it before that.
#[derive(Drop)]
pub struct Learner {
    alloc: Global,
    pub clauses: ClauseStore,
    pub log: Log,
    pub is_refuted: bool,
    pub propagator: Propagator,
    names: Vec<Premise>,
    inserted_clauses: usize,
    inserted_results: usize,
    marks: Marks,
    spares: Spares,
    sides: Sides,
    used: Vec<usize>,
}

impl Learner {
    pub fn new(alloc: Global) -> Self
        ensures learner { IsLearner result }
        ensures phases { result.propagator.trail.phases ≡ [] }
        ensures clauses { result.clauses ≡ [] }
        ensures log { result.log ≡ [] }
        ensures refuted { result.is_refuted ≡ false }
    {
        Learner {
            alloc,
            clauses: ClauseStore::new(alloc),
            log: Log::new(alloc),
            is_refuted: false,
            propagator: Propagator::new(alloc),
            names: Vec::new(alloc),
            inserted_clauses: 0,
            inserted_results: 0,
            marks: Marks::new(alloc),
            spares: Spares::new(alloc),
            sides: Sides::new(alloc),
            used: Vec::new(alloc),
        }
    }

    /// Makes variables of the propagator until there are so many.
    pub fn make_variables(&mut self, count: usize) -> Result<(), AllocError>
        requires learner { IsLearner self.old }
        requires fits { length self.old.propagator.trail.phases ≤ count }
        ensures learner { IsLearner self.new }
        ensures within { length self.new.propagator.trail.phases ≤ count }
        ensures ok { OnOk result (length self.new.propagator.trail.phases ≡ count) }
        ensures clauses { self.new.clauses ≡ self.old.clauses }
        ensures log { self.new.log ≡ self.old.log }
        ensures refuted { self.new.is_refuted ≡ self.old.is_refuted }
        ensures inserted_clauses { self.new.inserted_clauses ≡ self.old.inserted_clauses }
        ensures inserted_results { self.new.inserted_results ≡ self.old.inserted_results }
    {
        while self.propagator.trail.variables() < count {
            self.make_variable()?;
        }
        Ok(())
    }

    /// One variable of the propagator more.
    fn make_variable(&mut self) -> Result<(), AllocError>
        requires learner { IsLearner self.old }
        ensures learner { IsLearner self.new }
        ensures ok { OnOk result (self.new.propagator.trail.phases ≡ self.old.propagator.trail.phases ++ false ∷ []) }
        ensures err { OnErr result (self.new.propagator.trail.phases ≡ self.old.propagator.trail.phases) }
        ensures clauses { self.new.clauses ≡ self.old.clauses }
        ensures log { self.new.log ≡ self.old.log }
        ensures refuted { self.new.is_refuted ≡ self.old.is_refuted }
        ensures inserted_clauses { self.new.inserted_clauses ≡ self.old.inserted_clauses }
        ensures inserted_results { self.new.inserted_results ≡ self.old.inserted_results }
    {
        self.marks.add_variable()?;
        self.propagator.add_variable()?;
        Ok(())
    }

    /// Adds a clause. It is inserted when the next answer is looked for.
    pub fn add(&mut self, clause: &Clause) -> Result<(), AllocError>
        requires learner { IsLearner self.old }
        ensures learner { IsLearner self.new }
        ensures ok { OnOk result (self.new.clauses ≡ self.old.clauses ++ clause.now ∷ []) }
        ensures err { OnErr result (self.new.clauses ≡ self.old.clauses) }
        ensures log { self.new.log ≡ self.old.log }
        ensures refuted { self.new.is_refuted ≡ self.old.is_refuted }
        ensures propagator { self.new.propagator ≡ self.old.propagator }
        ensures inserted_clauses { self.new.inserted_clauses ≡ self.old.inserted_clauses }
        ensures inserted_results { self.new.inserted_results ≡ self.old.inserted_results }
    {
        let clause = Clause::from_slice(self.alloc, clause.as_slice())?;
        self.clauses.push(clause)?;
        Ok(())
    }

    /// How many clauses were learned.
    pub fn conflicts(&self) -> u64
        requires { IsLearner self.now }
        ensures { result ≡ length (learned_from self.now.is_refuted (results self.now.log)) }
    {
        if self.is_refuted {
            (self.log.len() - 1) as u64
        } else {
            self.log.len() as u64
        }
    }

    /// Looks for values that make the clauses true, and learns at most so many clauses, those of earlier calls among
    /// them.
    pub fn solve(&mut self, budget: u64) -> Result<Answer, AllocError>
        requires learner { IsLearner self.old }
        requires over { AreOver (length self.old.propagator.trail.phases) self.old.clauses }
        requires open { self.old.is_refuted ≡ false }
        requires budget { length self.old.log ≤ budget }
        ensures learner { IsLearner self.new }
        ensures grew { GrewLearner self.old self.new }
        ensures within { length (learned_from self.new.is_refuted (results self.new.log)) ≤ budget }
        ensures answer { IfOk result (λ answer. AnswersSolve budget (seen self.new) answer) }
        ensures more_clauses { self.old.inserted_clauses ≤ self.new.inserted_clauses }
        ensures more_results { self.old.inserted_results ≤ self.new.inserted_results }
        ensures all_clauses { IfOk result (λ answer. answer ≢ Answer.Unsat → self.new.inserted_clauses ≡ length self.new.clauses) }
        ensures all_results { IfOk result (λ answer. answer ≢ Answer.Unsat → self.new.inserted_results ≡ length self.new.log) }
    {
        let mut restarts = Restarts::new();
        loop {
            if let Some(answer) = self.step(budget)? {
                return Ok(answer);
            }
            if restarts.is_due() {
                self.propagator.back_to(0);
            }
        }
    }

    /// Searches up to the next conflict, and learns from it: no answer yet.
    fn step(&mut self, budget: u64) -> Result<Option<Answer>, AllocError>
        requires learner { IsLearner self.old }
        requires over { AreOver (length self.old.propagator.trail.phases) self.old.clauses }
        requires open { self.old.is_refuted ≡ false }
        requires budget { length self.old.log ≤ budget }
        ensures learner { IsLearner self.new }
        ensures grew { GrewLearner self.old self.new }
        ensures within { length (learned_from self.new.is_refuted (results self.new.log)) ≤ budget }
        ensures open { IfOk result (λ r. r ≡ None → self.new.is_refuted ≡ false) }
        ensures longer { IfOk result (λ r. r ≡ None → length self.new.log ≡ length self.old.log + 1) }
        ensures answer { IfOk result (λ r. (answer : Answer) → r ≡ Some answer → AnswersSolve budget (seen self.new) answer) }
        ensures more_clauses { self.old.inserted_clauses ≤ self.new.inserted_clauses }
        ensures more_results { self.old.inserted_results ≤ self.new.inserted_results }
        ensures all_clauses { IfOk result (λ r. r ≢ Some Answer.Unsat → self.new.inserted_clauses ≡ length self.new.clauses) }
        ensures all_results { IfOk result (λ r. r ≢ Some Answer.Unsat → self.new.inserted_results ≡ length self.old.log) }
        ensures log { IfOk result (λ r. IsSome r → r ≢ Some Answer.Unsat → self.new.log ≡ self.old.log) }
    {
        if let Some(premise) = self.insert_all()? {
            self.refute(premise)?;
            return Ok(Some(Answer::Unsat));
        }
        match self.propagator.search()? {
            Ended::Full => Ok(Some(Answer::Sat)),
            Ended::False(conflict) => {
                let answer = self.learn_from(conflict, budget)?;
                Ok(answer)
            }
        }
    }

    /// Learns from a clause that is false. Where there is no decision the clauses are refuted, and where the budget is
    /// spent nothing is learned.
    fn learn_from(&mut self, conflict: usize, budget: u64) -> Result<Option<Answer>, AllocError>
        requires learner { IsLearner self.old }
        requires over { AreOver (length self.old.propagator.trail.phases) self.old.clauses }
        requires open { self.old.is_refuted ≡ false }
        requires budget { length self.old.log ≤ budget }
        requires included { Includes (self.old.clauses ++ results self.old.log) (texts self.old.propagator.clauses.items) }
        requires conflict { IsConflict self.old.propagator.trail self.old.propagator.clauses.items conflict }
        ensures learner { IsLearner self.new }
        ensures grew { GrewLearner self.old self.new }
        ensures within { length (learned_from self.new.is_refuted (results self.new.log)) ≤ budget }
        ensures open { IfOk result (λ r. r ≡ None → self.new.is_refuted ≡ false) }
        ensures longer { IfOk result (λ r. r ≡ None → length self.new.log ≡ length self.old.log + 1) }
        ensures answer { IfOk result (λ r. (answer : Answer) → r ≡ Some answer → AnswersSolve budget (seen self.new) answer) }
        ensures inserted_clauses { self.new.inserted_clauses ≡ self.old.inserted_clauses }
        ensures inserted_results { self.new.inserted_results ≡ self.old.inserted_results }
        ensures log { IfOk result (λ r. IsSome r → r ≢ Some Answer.Unsat → self.new.log ≡ self.old.log) }
    {
        if self.propagator.trail.levels() == 0 {
            let premise = self.names[conflict];
            self.refute(premise)?;
            return Ok(Some(Answer::Unsat));
        }
        let chain = self.analysed(conflict)?;
        let conflicts = self.conflicts();
        if conflicts == budget {
            self.propagator.back_to(0);
            return Ok(Some(Answer::Spent { conflicts }));
        }
        self.learn(chain)?;
        Ok(None)
    }

    /// Inserts the clauses and results that are not yet inserted. One that is false without a decision, if there is one.
    fn insert_all(&mut self) -> Result<Option<Premise>, AllocError>
        requires learner { IsLearner self.old }
        requires over { AreOver (length self.old.propagator.trail.phases) self.old.clauses }
        requires open { self.old.is_refuted ≡ false }
        ensures learner { IsLearner self.new }
        ensures same { IsUnlearned self.old self.new }
        ensures included { IfOk result (λ r. r ≡ None → Includes (self.new.clauses ++ results self.new.log)
            (texts self.new.propagator.clauses.items)) }
        ensures there { IfOk result (λ r. (premise : Premise) → r ≡ Some premise
            → IsSome (premise_clause self.new.clauses (results self.new.log) premise)) }
        ensures falsified { IfOk result (λ r. (premise : Premise) (clause : List SatLit) → r ≡ Some premise
            → premise_clause self.new.clauses (results self.new.log) premise ≡ Some clause
            → IsFalseIn (literals self.new.propagator.trail.steps) clause) }
        ensures root { IfOk result (λ r. (premise : Premise) → r ≡ Some premise → self.new.propagator.trail.starts ≡ []) }
        ensures more_clauses { self.old.inserted_clauses ≤ self.new.inserted_clauses }
        ensures more_results { self.old.inserted_results ≤ self.new.inserted_results }
        ensures all_clauses { IfOk result (λ r. r ≡ None → self.new.inserted_clauses ≡ length self.new.clauses) }
        ensures all_results { IfOk result (λ r. r ≡ None → self.new.inserted_results ≡ length self.new.log) }
    {
        while self.inserted_clauses < self.clauses.len() {
            let premise = Premise::Clause(self.inserted_clauses);
            if !self.insert(premise)? {
                return Ok(Some(premise));
            }
            self.inserted_clauses += 1;
        }
        while self.inserted_results < self.log.len() {
            let premise = Premise::Result(self.inserted_results);
            if !self.insert(premise)? {
                return Ok(Some(premise));
            }
            self.inserted_results += 1;
        }
        Ok(None)
    }

    /// Inserts a clause or a result. Not inserted, and false is answered, where it is false without a decision.
    fn insert(&mut self, premise: Premise) -> Result<bool, AllocError>
        requires learner { IsLearner self.old }
        requires over { AreOver (length self.old.propagator.trail.phases) self.old.clauses }
        requires open { self.old.is_refuted ≡ false }
        requires there { IsSome (premise_clause self.old.clauses (results self.old.log) premise) }
        ensures learner { IsLearner self.new }
        ensures same { IsUnlearned self.old self.new }
        ensures inserted_clauses { self.new.inserted_clauses ≡ self.old.inserted_clauses }
        ensures inserted_results { self.new.inserted_results ≡ self.old.inserted_results }
        ensures inserted { IfOk result (λ r. (clause : List SatLit) → r ≡ true → premise_clause self.old.clauses (results self.old.log)
            premise ≡ Some clause → texts self.new.propagator.clauses.items ≡ texts self.old.propagator.clauses.items ++ clause ∷ []) }
        ensures falsified { IfOk result (λ r. (clause : List SatLit) → r ≡ false
            → premise_clause self.old.clauses (results self.old.log) premise ≡ Some clause
            → IsFalseIn (literals self.new.propagator.trail.steps) clause) }
        ensures root { IfOk result (λ r. r ≡ false → self.new.propagator.trail.starts ≡ []) }
    {
        self.names.reserve(1)?;
        let clause = named(&self.clauses, &self.log, premise).as_slice();
        let inserted = self.propagator.insert(clause)?;
        if inserted {
            self.names.push_reserved(premise);
        }
        Ok(inserted)
    }

    /// The chain of what is learned from a clause that is false.
    fn analysed(&mut self, conflict: usize) -> Result<Chain, AllocError>
        requires learner { IsLearner self.old }
        requires conflict { IsConflict self.old.propagator.trail self.old.propagator.clauses.items conflict }
        requires decided { 0 < length self.old.propagator.trail.starts }
        ensures learner { IsLearner self.new }
        ensures same { IsUnlearned self.old self.new }
        ensures learned { IfOk result (λ chain. Learns self.old.propagator.clauses.items self.old.propagator.trail self.old.names.items
            chain) }
        ensures propagator { self.new.propagator ≡ self.old.propagator }
        ensures names { self.new.names.items ≡ self.old.names.items }
        ensures inserted_clauses { self.new.inserted_clauses ≡ self.old.inserted_clauses }
        ensures inserted_results { self.new.inserted_results ≡ self.old.inserted_results }
    {
        learned_chain(
            self.alloc,
            &self.propagator,
            self.names.as_slice(),
            &mut self.marks,
            &mut self.spares,
            &mut self.used,
            conflict,
        )
    }

    /// Pushes a chain into the log. The variables that took part in the conflict are proposed sooner, where there is no memory fewer of
    /// them.
    fn learn(&mut self, chain: Chain) -> Result<(), AllocError>
        requires learner { IsLearner self.old }
        requires open { self.old.is_refuted ≡ false }
        requires included { Includes (self.old.clauses ++ results self.old.log) (texts self.old.propagator.clauses.items) }
        requires learns { Learns self.old.propagator.clauses.items self.old.propagator.trail self.old.names.items chain }
        ensures learner { IsLearner self.new }
        ensures grew { GrewLearner self.old self.new }
        ensures refuted { self.new.is_refuted ≡ self.old.is_refuted }
        ensures longer { OnOk result (length self.new.log ≡ length self.old.log + 1) }
        ensures err { OnErr result (self.new.log ≡ self.old.log) }
        ensures inserted_clauses { self.new.inserted_clauses ≡ self.old.inserted_clauses }
        ensures inserted_results { self.new.inserted_results ≡ self.old.inserted_results }
    {
        self.log.push(&self.clauses, chain)?;
        let names = self.names.as_slice();
        let _found = self.sides.find(&self.propagator, names, &self.marks);
        let variables = self.sides.found_or(self.marks.met());
        self.propagator.bump(variables, self.used.as_slice());
        Ok(())
    }

    /// Derives the empty clause from a clause that is false without a decision.
    fn refute(&mut self, premise: Premise) -> Result<(), AllocError>
        requires learner { IsLearner self.old }
        requires over { AreOver (length self.old.propagator.trail.phases) self.old.clauses }
        requires open { self.old.is_refuted ≡ false }
        requires there { IsSome (premise_clause self.old.clauses (results self.old.log) premise) }
        requires falsified { (clause : List SatLit) → premise_clause self.old.clauses (results self.old.log) premise ≡ Some clause
            → IsFalseIn (literals self.old.propagator.trail.steps) clause }
        requires root { self.old.propagator.trail.starts ≡ [] }
        ensures learner { IsLearner self.new }
        ensures clauses { self.new.clauses ≡ self.old.clauses }
        ensures propagator { self.new.propagator ≡ self.old.propagator }
        ensures refuted { OnOk result (self.new.is_refuted ≡ true) }
        ensures last { OnOk result (results self.new.log ≡ results self.old.log ++ [] ∷ []) }
        ensures err { OnErr result (self.new.log ≡ self.old.log) }
        ensures open { OnErr result (self.new.is_refuted ≡ false) }
        ensures grew { GrewLearner self.old self.new }
        ensures inserted_clauses { self.new.inserted_clauses ≡ self.old.inserted_clauses }
        ensures inserted_results { self.new.inserted_results ≡ self.old.inserted_results }
    {
        let chain = refuted_chain(
            self.alloc,
            &self.propagator,
            self.names.as_slice(),
            &mut self.marks,
            premise,
            named(&self.clauses, &self.log, premise).as_slice(),
        )?;
        self.log.push(&self.clauses, chain)?;
        self.is_refuted = true;
        Ok(())
    }
}

/// The clause that a premise names.
fn named<'a>(clauses: &'a ClauseStore, log: &'a Log, premise: Premise) -> &'a Clause
    requires { IsSome (premise_clause clauses.now (results log.now) premise) }
    ensures { premise_clause clauses.now (results log.now) premise ≡ Some result.now }
{
    match premise {
        Premise::Clause(n) => clauses.get(n),
        Premise::Result(n) => log.result(n),
    }
}
