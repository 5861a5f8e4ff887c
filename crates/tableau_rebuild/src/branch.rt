//! The branches of lines.
ghost use Rattle.std.specs.Prelude.{◌≡◌, [], ◌∷◌, length, IfOk, OnOk};
ghost use Rattle.sat_log.specs.Resolution.{resolvent};
ghost use Rattle.tableau_clauses.specs.Table.{the_clauses};
ghost use Rattle.tableau_rebuild.specs.Internal.Branches.{branch_by, IsReady};

use crate::draft::Draft;
use crate::literals::negations;
use crate::packed_branch::PackedBranch;
use sat_base::{Clause, SatLit, Var};
use sat_log::Resolver;
use std::alloc::{AllocError, Global};
use tableau_clauses::StepTable;

/// The clause of two literals.
fn pair(alloc: Global, first: SatLit, second: SatLit) -> Result<Clause, AllocError>
    ensures { IfOk result (λ clause. clause ≡ first ∷ second ∷ []) }
{
    let mut clause = Clause::new(alloc);
    clause.push(first)?;
    clause.push(second)?;
    Ok(clause)
}

/// What resolves packed branches: a resolver, and room for the two branches, which is used again.
#[derive(Drop)]
pub(crate) struct BranchResolver {
    resolver: Resolver,
    holds: Vec<SatLit>,
    fails: Vec<SatLit>,
}

impl BranchResolver {
    pub(crate) fn new(alloc: Global) -> BranchResolver
        ensures { result.resolver ≡ [] }
    {
        BranchResolver {
            resolver: Resolver::new(alloc),
            holds: Vec::new(alloc),
            fails: Vec::new(alloc),
        }
    }

    /// The resolvent of two branches. The resolver is empty before and after.
    fn resolvent_of(
        &mut self,
        var: Var,
        holds: &PackedBranch,
        fails: &PackedBranch,
    ) -> Result<Clause, AllocError>
        requires { self.old.resolver ≡ [] }
        ensures resolvent { IfOk result (λ clause. clause ≡ resolvent var holds.now fails.now) }
        ensures empty { OnOk result (self.new.resolver ≡ []) }
    {
        holds.unpack_to(&mut self.holds)?;
        fails.unpack_to(&mut self.fails)?;
        let clause = self.resolver.resolvent_of(var, &self.holds, &self.fails)?;
        Ok(clause)
    }
}

/// The branch of a line, where the branches of the lines before are there. The resolver is empty before and after.
pub(crate) fn branch_of(
    alloc: Global,
    steps: &StepTable,
    draft: Draft,
    numbers: &[usize],
    branches: &[PackedBranch],
    resolver: &mut BranchResolver,
) -> Result<Clause, AllocError>
    requires ready { IsReady (length (the_clauses steps.now)) numbers.now (length branches.now) draft }
    requires empty { resolver.old.resolver ≡ [] }
    ensures branch { IfOk result (λ clause. clause ≡ branch_by (the_clauses steps.now) numbers.now branches.now draft) }
    ensures empty { OnOk result (resolver.new.resolver ≡ []) }
{
    match draft {
        Draft::Clause(n) => {
            let clause = steps.clause(n)?;
            Ok(negations(alloc, clause.as_slice())?)
        }
        Draft::Close(_, first, second) => Ok(pair(alloc, first, second)?),
        Draft::Cut(_, var, on, off) => {
            let holds = &branches[numbers[on]];
            let fails = &branches[numbers[off]];
            Ok(resolver.resolvent_of(var, holds, fails)?)
        }
    }
}
