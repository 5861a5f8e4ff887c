//! The search as callers see it.
ghost use Rattle.std.specs.Prelude.{◌≡◌, ◌+◌, ◌++◌, true, false, List, filter, IsErr, IfOk, OnOk, OnErr};
ghost use Rattle.std.specs.List.{All};
ghost use Rattle.stt_core.specs.TypedProblem.{IsTyped};
ghost use Rattle.tableau_calculus.specs.Start.{start};
ghost use Rattle.delta_defs.specs.Unfolding.{unfolded_problem};
ghost use Rattle.sat_base.specs.Truth.{Implies};
ghost use Rattle.sat_log.specs.Chains.{results};
ghost use Rattle.sat_log.specs.declared.log.LogEntry.{LogEntry};
ghost use Rattle.sat_core.specs.Solver.{IsSound};
ghost use Rattle.mode_file.specs.Given.{IsInRange};
ghost use Rattle.search_spec.specs.Shallow.{is_shallow_literal};
ghost use Rattle.type_bound.specs.Modest.{IsModestProblem};
ghost use Rattle.prover_state.specs.Delays.{delay_by};
ghost use Rattle.prover_state.specs.Internal.Standing.{setting_by};
ghost use Rattle.prover_search.specs.Internal.Running.{start_in, IsUnderWay};
ghost use Rattle.prover_search.specs.Internal.Answers.{AnswersStep};
ghost use Rattle.prover_search.specs.Internal.Starting.{IsPreparedFor};

use crate::advance::advance;
use crate::offered::start_offers;
use crate::prepared::Prepared;
use crate::start::start_all;
use crate::stepped::Stepped;
use command_queue::Weigher;
use literal_map::LitTable;
use mode_file::Mode;
use prover_state::{Core, Waiting};
use sat_log::Log;
use std::alloc::{AllocError, Global};
use stt_core::Problem;
use tableau_clauses::StepTable;
use term_bank::Bank;
use witness_names::Witnesses;

/// A search over a problem. Where a step was refused memory, each later one is too.
#[derive(Drop)]
pub struct Search<W: Weigher<Waiting>> {
    pub core: Core<W>,
    pub mode: Mode,
    pub is_refused: bool,
}

impl<W: Weigher<Waiting>> Search<W> {
    /// A search by a mode over a problem, whose definitions are unfolded. The start literals that are too deep are left out. The problem's
    /// types nest so little that all terms of the search are small enough for a text.
    pub fn new(
        alloc: Global,
        problem: &Problem,
        mode: &Mode,
        weigher: W,
    ) -> Result<Self, AllocError>
        requires typed { IsTyped problem.now }
        requires modest { IsModestProblem 1024 problem.now }
        requires range { IsInRange mode.now }
        requires callable { W.is_callable weigher }
        requires answers { W.answers weigher (λ waiting now. now + delay_by mode.now waiting.first) }
        ensures under_way { IfOk result (λ s. IsUnderWay s.core.tables s.core.plan s.mode) }
        ensures mode { IfOk result (λ s. s.mode ≡ mode.now) }
        ensures bases { IfOk result (λ s. s.core.tables.basis.bank.bases ≡ problem.now.declared.bases) }
        ensures consts { IfOk result (λ s. s.core.tables.basis.bank.consts ≡ problem.now.declared.consts) }
        ensures start { IfOk result (λ s. start_in s.core.tables ≡ filter is_shallow_literal (start (unfolded_problem problem.now))) }
        ensures done { IfOk result (λ s. s.core.tables.done ≡ 0) }
        ensures ready { IfOk result (λ s. s.is_refused ≡ false) }
    {
        let prepared = Prepared::new(alloc, problem)?;
        Ok(Search::begin(alloc, problem, prepared, mode, weigher)?)
    }

    /// The same with what was prepared for the problem.
    pub fn begin(
        alloc: Global,
        problem: &Problem,
        prepared: Prepared,
        mode: &Mode,
        weigher: W,
    ) -> Result<Self, AllocError>
        requires typed { IsTyped problem.now }
        requires modest { IsModestProblem 1024 problem.now }
        requires prepared { IsPreparedFor (unfolded_problem problem.now) prepared.basis prepared.start.items }
        requires range { IsInRange mode.now }
        requires callable { W.is_callable weigher }
        requires answers { W.answers weigher (λ waiting now. now + delay_by mode.now waiting.first) }
        ensures under_way { IfOk result (λ s. IsUnderWay s.core.tables s.core.plan s.mode) }
        ensures mode { IfOk result (λ s. s.mode ≡ mode.now) }
        ensures bases { IfOk result (λ s. s.core.tables.basis.bank.bases ≡ problem.now.declared.bases) }
        ensures consts { IfOk result (λ s. s.core.tables.basis.bank.consts ≡ problem.now.declared.consts) }
        ensures start { IfOk result (λ s. start_in s.core.tables ≡ filter is_shallow_literal (start (unfolded_problem problem.now))) }
        ensures done { IfOk result (λ s. s.core.tables.done ≡ 0) }
        ensures ready { IfOk result (λ s. s.is_refused ≡ false) }
    {
        let offers = match start_offers(alloc, mode, &prepared.basis, prepared.start.as_slice()) {
            Ok(offers) => offers,
            Err(AllocError) => {
                drop(prepared);
                return Err(AllocError);
            }
        };
        let Prepared { basis, start } = prepared;
        let mut core = Core::new(alloc, basis, offers, *mode, weigher)?;
        match start_all(&mut core, start.as_slice()) {
            Ok(()) => Ok(Search {
                core,
                mode: *mode,
                is_refused: false,
            }),
            Err(AllocError) => {
                drop(core);
                Err(AllocError)
            }
        }
    }

    /// Asks the solver, and then carries out the next command, where one is left and the limit isn't reached.
    pub fn step(&mut self) -> Result<Stepped, AllocError>
        requires under_way { self.old.is_refused ≡ false → IsUnderWay self.old.core.tables self.old.core.plan self.old.mode }
        ensures answers { IfOk result (AnswersStep (record { tables = self.old.core.tables; plan = self.old.core.plan })
            (record { tables = self.new.core.tables; plan = self.new.core.plan })) }
        ensures under_way { self.new.is_refused ≡ false → IsUnderWay self.new.core.tables self.new.core.plan self.new.mode }
        ensures setting { OnOk result (setting_by self.new.core.tables self.new.core.plan ≡ setting_by self.old.core.tables
            self.old.core.plan) }
        ensures start { OnOk result (start_in self.new.core.tables ≡ start_in self.old.core.tables) }
        ensures mode { self.new.mode ≡ self.old.mode }
        ensures ready { OnOk result (self.new.is_refused ≡ false) }
        ensures refused { OnErr result (self.new.is_refused ≡ true) }
        ensures stays_refused { self.old.is_refused ≡ true → IsErr result }
        ensures bases { self.new.core.tables.basis.bank.bases ≡ self.old.core.tables.basis.bank.bases }
        ensures consts { self.new.core.tables.basis.bank.consts ≡ self.old.core.tables.basis.bank.consts }
        ensures log { (more : List LogEntry) × (self.new.core.tables.solver.log ≡ self.old.core.tables.solver.log ++ more) }
    {
        if self.is_refused {
            return Err(AllocError);
        }
        self.is_refused = true;
        let stepped = advance(&mut self.core, &self.mode)?;
        self.is_refused = false;
        Ok(stepped)
    }

    /// How many commands were carried out.
    pub fn commands(&self) -> u32
        ensures { result ≡ self.now.core.tables.done }
    {
        self.core.tables.done
    }

    /// The clauses with where they come from, and the instances of rules.
    pub fn steps(&self) -> &StepTable
        ensures { result.now ≡ self.now.core.tables.steps }
    {
        &self.core.tables.steps
    }

    /// The chains of what was learned, over the clauses by their numbers.
    pub fn log(&self) -> &Log
        ensures log { result.now ≡ self.now.core.tables.solver.log }
        ensures sound { IsSound self.now.core.tables.solver }
        ensures implied { All (Implies self.now.core.tables.solver.clauses) (results self.now.core.tables.solver.log) }
    {
        self.core.tables.solver.log()
    }

    pub fn witnesses(&self) -> &Witnesses
        ensures { result.now ≡ self.now.core.tables.basis.witnesses }
    {
        &self.core.tables.basis.witnesses
    }

    /// The terms.
    pub fn bank(&self) -> &Bank
        ensures { result.now ≡ self.now.core.tables.basis.bank }
    {
        &self.core.tables.basis.bank
    }

    /// The numbered atoms.
    pub fn lits(&self) -> &LitTable
        ensures { result.now ≡ self.now.core.tables.basis.lits }
    {
        &self.core.tables.basis.lits
    }
}
