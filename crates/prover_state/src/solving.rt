//! The solver's answers.
ghost use Rattle.std.specs.Prelude.{◌≡◌, ◌≢◌, ◌≤◌, ◌^◌, ◌++◌, [], true, ℕ, List, length, IfOk};
ghost use Rattle.sat_base.specs.declared.literal.Var.{Var};
ghost use Rattle.sat_base.specs.declared.literal.SatLit.{SatLit};
ghost use Rattle.sat_log.specs.Propagation.{AreFailingDecisions, ReachesFalse};
ghost use Rattle.sat_core.specs.Solver.{learned, AreAmong, SolverGrows};
ghost use Rattle.search_spec.specs.Unsatisfiable.{Unsatisfiable};
ghost use Rattle.prover_state.specs.Internal.Standing.{IsRightState};
ghost use Rattle.prover_state.specs.Internal.Advancing.{state_in};

use crate::tables::Core;
use crate::waiting::Waiting;
use command_queue::Weigher;
use sat_base::valuation_law;
use sat_core::Answer;
use std::alloc::AllocError;
use term_bank::equal_ids_for_equal_terms;

impl<W: Weigher<Waiting>> Core<W> {
    /// Whether the clauses are satisfiable, unless the conflicts of the mode, which are given, are spent first.
    pub fn solve(&mut self, conflicts: u64) -> Result<Answer, AllocError>
        requires right { IsRightState self.old.tables self.old.plan }
        requires budget { conflicts ≡ self.old.plan.rule.mode.conflicts }
        ensures unsat { IfOk result (λ answer. answer ≡ Answer.Unsat → Unsatisfiable (state_in self.old).clauses) }
        ensures sat { IfOk result (λ answer. answer ≡ Answer.Sat → Unsatisfiable (state_in self.old).clauses → ⊥) }
        ensures ends { IfOk result (λ answer. answer ≡ Answer.Unsat → self.new.tables.solver.is_refuted ≡ true) }
        ensures propagated { IfOk result (λ answer. answer ≡ Answer.Unsat → ReachesFalse
            (self.new.tables.solver.clauses ++ learned self.new.tables.solver) []) }
        ensures reported { IfOk result (λ answer. (spent : ℕ) → answer ≡ Answer.Spent spent → spent ≡ conflicts) }
        ensures counted { IfOk result (λ answer. (spent : ℕ) → answer ≡ Answer.Spent spent
            → length (learned self.new.tables.solver) ≡ conflicts) }
        ensures failing { IfOk result (λ answer. (spent : ℕ) → answer ≡ Answer.Spent spent → (decisions : List SatLit)
            × AreFailingDecisions (self.new.tables.solver.clauses ++ learned self.new.tables.solver) decisions) }
        ensures enough { IfOk result (λ answer. (spent : ℕ) (variables : List Var) → AreAmong variables self.new.tables.solver.clauses
            → 3 ^ length variables ≤ conflicts → answer ≢ Answer.Spent spent) }
        ensures grows { SolverGrows self.old.tables.solver self.new.tables.solver }
        ensures right { IsRightState self.new.tables self.new.plan }
        ensures tables { self.new.tables ≡ record self.old.tables { solver = self.new.tables.solver } }
        ensures plan { self.new.plan ≡ self.old.plan }
    {
        equal_ids_for_equal_terms(&self.tables.basis.bank);
        self.tables.basis.lits.atoms_differ();
        valuation_law();
        let answer = self.tables.solver.solve(conflicts)?;
        Ok(answer)
    }
}
