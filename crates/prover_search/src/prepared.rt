//! The start of searches: what doesn't depend on a mode.
ghost use Rattle.std.specs.Prelude.{◌≡◌, [], IfOk, OnOk};
ghost use Rattle.stt_core.specs.Declarations.{scope_of};
ghost use Rattle.stt_core.specs.PlainProblem.{PlainProblem};
ghost use Rattle.stt_core.specs.ScopeView.{the_scope};
ghost use Rattle.stt_core.specs.TypedProblem.{IsTyped};
ghost use Rattle.stt_core.specs.Typing.{IsScope};
ghost use Rattle.term_bank.specs.Content.{content_scope};
ghost use Rattle.delta_defs.specs.Unfolding.{unfolded_problem};
ghost use Rattle.problem_start.specs.Unfolds.{start_literals, AreStartNumbers};
ghost use Rattle.prover_state.specs.Internal.Growing.{BasisGrows};
ghost use Rattle.prover_state.specs.Internal.Standing.{IsBasis};
ghost use Rattle.prover_search.specs.Internal.Starting.{IsPreparedFor};

use bank_normal::Normaliser;
use literal_map::LitTable;
use problem_start::start_numbers;
use prover_state::Basis;
use sat_base::SatLit;
use std::alloc::{AllocError, Global};
use stt_core::{Problem, Signature};
use term_bank::Bank;
use witness_names::Witnesses;

/// The terms of a problem's start, and its literals by numbers: those of the assumed formulas, in order, and then the negation of the
/// conjecture's. Definitions are unfolded. Searches by several modes begin with copies of one.
#[derive(Drop)]
pub struct Prepared {
    pub basis: Basis,
    pub start: Vec<SatLit>,
}

/// Terms, numbers and witnesses before there is one.
fn new_basis(alloc: Global, sig: &Signature) -> Result<Basis, AllocError>
    requires declared { IsScope (the_scope sig.now []) }
    ensures good { IfOk result (λ g. IsBasis g) }
    ensures bases { IfOk result (λ g. g.bank.bases ≡ sig.now.bases) }
    ensures consts { IfOk result (λ g. g.bank.consts ≡ sig.now.consts) }
    ensures unwitnessed { IfOk result (λ g. g.witnesses ≡ []) }
{
    let sig = sig.try_clone(alloc)?;
    Ok(Basis {
        bank: Bank::new(alloc, sig),
        normal: Normaliser::new(alloc),
        lits: LitTable::new(alloc),
        witnesses: Witnesses::new(alloc),
    })
}

/// The numbers of the literals from which a problem starts.
fn number_start(
    alloc: Global,
    basis: &mut Basis,
    problem: &Problem,
) -> Result<Vec<SatLit>, AllocError>
    requires typed { IsTyped problem.now }
    requires good { IsBasis basis.old }
    requires scope { content_scope basis.old.bank ≡ scope_of problem.now.declared }
    ensures numbers { IfOk result (λ lits. AreStartNumbers basis.new.bank basis.new.lits (start_literals (unfolded_problem problem.now))
        lits.items) }
    ensures good { OnOk result (IsBasis basis.new) }
    ensures grows { OnOk result (BasisGrows basis.old basis.new) }
{
    let Basis {
        bank,
        normal,
        lits,
        witnesses: _,
    } = basis;
    Ok(start_numbers(alloc, bank, normal, lits, problem, true)?)
}

impl Prepared {
    /// Works out the literals of a problem's formulas, once its definitions are unfolded.
    pub fn new(alloc: Global, problem: &Problem) -> Result<Prepared, AllocError>
        requires typed { IsTyped problem.now }
        ensures { IfOk result (λ prepared. IsPreparedFor (unfolded_problem problem.now) prepared.basis prepared.start.items) }
    {
        let mut basis = new_basis(alloc, &problem.signature)?;
        match number_start(alloc, &mut basis, problem) {
            Ok(start) => Ok(Prepared { basis, start }),
            Err(AllocError) => {
                drop(basis);
                Err(AllocError)
            }
        }
    }

    /// A copy, with which a further search may begin.
    pub fn try_clone(&self, alloc: Global) -> Result<Prepared, AllocError>
        ensures { IfOk result (λ prepared. (p : PlainProblem) → IsPreparedFor p self.now.basis self.now.start.items
            → IsPreparedFor p prepared.basis prepared.start.items) }
    {
        let mut start = Vec::new(alloc);
        start.extend_from_slice(self.start.as_slice())?;
        let lits = self.basis.lits.try_clone()?;
        let bank = self.basis.bank.try_clone(alloc)?;
        Ok(Prepared {
            basis: Basis {
                bank,
                normal: Normaliser::new(alloc),
                lits,
                witnesses: Witnesses::new(alloc),
            },
            start,
        })
    }
}
