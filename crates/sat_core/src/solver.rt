//! The solver as callers see it.
ghost use Rattle.std.specs.Prelude.{◌≡◌, ◌≢◌, ◌<◌, ◌≤◌, ◌^◌, ◌↔◌, [], ◌∷◌, ◌++◌, ℕ, List, true, false, length, IfOk, OnOk, OnErr};
ghost use Rattle.std.specs.List.{All};
ghost use Rattle.sat_base.specs.declared.literal.Var.{Var};
ghost use Rattle.sat_base.specs.declared.literal.SatLit.{SatLit};
ghost use Rattle.sat_base.specs.Literal.{IsOver};
ghost use Rattle.sat_base.specs.Truth.{assigned, AllTrue, Unsat as AreUnsatisfiable, Implies};
ghost use Rattle.sat_log.specs.Chains.{results};
ghost use Rattle.sat_log.specs.Propagation.{ReachesFalse, AreFailingDecisions};

use crate::keeper::Keeper;
use crate::learner::{Answer, Learner};
use sat_base::{Clause, Var};
use sat_log::Log;
use std::alloc::{AllocError, Global};
use std::marker::Model;

/// Clauses to which more can be added between two answers, and the log of what was learned from them. Nothing that was
/// learned is forgotten. Where few of the last values have to change for the clauses that were added, no search begins.
#[derive(Drop)]
pub struct Solver {
    learner: Learner,
    keeper: Keeper,
}

impl Model for Solver {
    ghost use Rattle.sat_core.specs.Solver.{SolverState};
    ghost use Rattle.sat_core.specs.Internal.Learner.{state_with};
    ghost use Rattle.sat_core.specs.Internal.Keeper.{IsSolver};

    ghost Value = { SolverState };

    ghost view = { λ solver. state_with solver.keeper.values.items solver.learner };

    ghost invariant = { λ solver. IsSolver solver.learner solver.keeper };
}

impl Solver {
    ghost use Rattle.sat_core.specs.Solver.{learned, AreAmong, SolverGrows, IsSound};

    /// A solver with no clause and no variable.
    pub fn new(alloc: Global) -> Self
        ensures { result ≡ record { values = []; clauses = []; log = []; is_refuted = false } }
    {
        Solver {
            learner: Learner::new(alloc),
            keeper: Keeper::new(alloc),
        }
    }

    /// How many variables there are.
    pub fn variables(&self) -> usize
        ensures { result ≡ length self.now.values }
    {
        self.keeper.values.len()
    }

    /// One variable more.
    pub fn new_var(&mut self) -> Result<Var, AllocError>
        ensures number { IfOk result (λ v. v.0 ≡ length self.old.values) }
        ensures ok { OnOk result (self.new ≡ record self.old { values = self.old.values ++ false ∷ [] }) }
        ensures err { OnErr result (self.new ≡ self.old) }
    {
        let var = Var(self.keeper.values.len());
        self.keeper.uses.add_variable()?;
        self.keeper.values.push(false)?;
        Ok(var)
    }

    /// Adds a clause, whose number is that of the clauses before it. The values stay those of the last answer.
    pub fn add(&mut self, clause: &Clause) -> Result<(), AllocError>
        requires { IsOver (length self.old.values) clause.now }
        ensures ok { OnOk result (self.new ≡ record self.old { clauses = self.old.clauses ++ clause.now ∷ [] }) }
        ensures err { OnErr result (self.new ≡ self.old) }
    {
        self.learner.add(clause)?;
        Ok(())
    }

    /// Whether the clauses are satisfiable, unless the budget is spent first: at most so many clauses are learned, those
    /// of earlier calls among them. A conflict without a decision is not counted: it gives `Unsat`.
    ///
    /// Where there is no memory the clauses are kept and the log has only grown by new clauses, so a later call goes on
    /// from there.
    pub fn solve(&mut self, budget: u64) -> Result<Answer, AllocError>
        requires budget { length (learned self.old) ≤ budget }
        ensures sat { IfOk result (λ answer. answer ≡ Answer.Sat → AllTrue (assigned self.new.values) self.new.clauses) }
        ensures unsat { IfOk result (λ answer. answer ≡ Answer.Unsat → AreUnsatisfiable self.new.clauses) }
        ensures ends { IfOk result (λ answer. answer ≡ Answer.Unsat → results self.new.log ≡ learned self.new ++ [] ∷ []) }
        ensures refuted { IfOk result (λ answer. (answer ≡ Answer.Unsat) ↔ (self.new.is_refuted ≡ true)) }
        ensures propagated { IfOk result (λ answer. answer ≡ Answer.Unsat → ReachesFalse (self.new.clauses ++ learned self.new) []) }
        ensures reported { IfOk result (λ answer. (conflicts : ℕ) → answer ≡ Answer.Spent conflicts → conflicts ≡ budget) }
        ensures counted { IfOk result (λ answer. (conflicts : ℕ) → answer ≡ Answer.Spent conflicts → length (learned self.new) ≡ budget) }
        ensures failing { IfOk result (λ answer. (conflicts : ℕ) → answer ≡ Answer.Spent conflicts → (decisions : List SatLit)
            × AreFailingDecisions (self.new.clauses ++ learned self.new) decisions) }
        ensures enough { IfOk result (λ answer. (conflicts : ℕ) (variables : List Var) → AreAmong variables self.new.clauses
            → 3 ^ length variables ≤ budget → answer ≢ Answer.Spent conflicts) }
        ensures grows { SolverGrows self.old self.new }
        ensures within { length (learned self.new) ≤ budget }
    {
        if self.learner.is_refuted {
            return Ok(Answer::Unsat);
        }
        if self.keeper.satisfy(&self.learner.clauses)? {
            return Ok(Answer::Sat);
        }
        self.learner.make_variables(self.keeper.values.len())?;
        let values = self.keeper.values.as_slice();
        self.learner.propagator.wish(values);
        let answer = self.learner.solve(budget)?;
        if answer != Answer::Sat {
            return Ok(answer);
        }
        let trail = &self.learner.propagator.trail;
        self.keeper.adopt(&self.learner.clauses, trail)?;
        Ok(Answer::Sat)
    }

    /// The value of a variable. After the answer `Sat`, and until a clause is added, the values make each clause true.
    pub fn value(&self, v: Var) -> bool
        requires { v.0 < length self.now.values }
        ensures { result ≡ assigned self.now.values v }
    {
        self.keeper.values[v.0]
    }

    /// The chains of what was learned, over the clauses in the order in which they were added.
    pub fn log(&self) -> &Log
        ensures log { result.now ≡ self.now.log }
        ensures sound { IsSound self.now }
        ensures implied { All (Implies self.now.clauses) (results self.now.log) }
    {
        &self.learner.log
    }

    /// How many clauses were learned.
    pub fn conflicts(&self) -> u64
        ensures { result ≡ length (learned self.now) }
    {
        self.learner.conflicts()
    }
}
