//! The literals that a problem starts from.

ghost use Rattle.std.specs.Prelude.{◌≡◌, IfOk, OnOk};
ghost use Rattle.stt_core.specs.TypedProblem.{IsTyped};
ghost use Rattle.stt_core.specs.Declarations.{scope_of};
ghost use Rattle.tableau_calculus.specs.Start.{start};
ghost use Rattle.problem_start.specs.Unfolds.{unfolded_if, start_literals};
ghost use Rattle.refute_check.specs.Internal.Branches.{Represents, AreNumberedBranch};
ghost use Rattle.refute_check.specs.Internal.Shared.{shared_scope, shared_atoms, IsGoodShared, ExtendsShared, AreNumbersOf};

use crate::branch::Branch;
use crate::shared::Shared;
use problem_start::start_numbers;
use sat_base::SatLit;
use std::alloc::{AllocError, Global};
use stt_core::Problem;

impl Shared {
    /// The numbers of the literals of a problem's start, with its definitions unfolded where they are to be.
    fn start_list(
        &mut self,
        alloc: Global,
        problem: &Problem,
        unfolds: bool,
    ) -> Result<Vec<SatLit>, AllocError>
        requires good { IsGoodShared self.old }
        requires scope { shared_scope self.old ≡ scope_of problem.now.declared }
        requires problem { IsTyped problem.now }
        ensures numbers { IfOk result (λ ns. AreNumbersOf self.new (start_literals (unfolded_if unfolds problem.now)) ns.items) }
        ensures extends { OnOk result (ExtendsShared self.old self.new) }
        ensures good { OnOk result (IsGoodShared self.new) }
    {
        let Shared {
            bank,
            normal,
            lits,
            witnesses: _,
            types: _,
        } = self;
        Ok(start_numbers(alloc, bank, normal, lits, problem, unfolds)?)
    }

    /// The literals that a problem starts from, as a set, with its definitions unfolded where they are to be.
    pub(crate) fn start(
        &mut self,
        alloc: Global,
        problem: &Problem,
        unfolds: bool,
    ) -> Result<Branch, AllocError>
        requires good { IsGoodShared self.old }
        requires scope { shared_scope self.old ≡ scope_of problem.now.declared }
        requires problem { IsTyped problem.now }
        ensures set { IfOk result (Represents (shared_atoms self.new) (start (unfolded_if unfolds problem.now))) }
        ensures numbered { OnOk result (AreNumberedBranch (shared_atoms self.new) (start (unfolded_if unfolds problem.now))) }
        ensures extends { OnOk result (ExtendsShared self.old self.new) }
        ensures good { OnOk result (IsGoodShared self.new) }
    {
        let list = self.start_list(alloc, problem, unfolds)?;
        Ok(self.set_by(alloc, list.as_slice())?)
    }
}
