//! Tables in which nothing was done yet.
ghost use Rattle.std.specs.Prelude.{◌≡◌, ◌+◌, [], IfOk};
ghost use Rattle.search_spec.specs.After.{nothing_yet};
ghost use Rattle.head_offers.specs.Offering.{the_offers};
ghost use Rattle.prover_state.specs.Delays.{delay_by};
ghost use Rattle.prover_state.specs.Internal.Empty.{AreEmpty};
ghost use Rattle.prover_state.specs.Internal.Standing.{IsBasis, IsRightState};
ghost use Rattle.prover_state.specs.Internal.Advancing.{state_in};

use crate::by_base::ByBase;
use crate::holes::OpenHoles;
use crate::offers::Offered;
use crate::plan::Plan;
use crate::set::{IdSet, LitSet};
use crate::tables::{Basis, Core, Tables};
use crate::waiting::Waiting;
use command_queue::Weigher;
use head_offers::Offers;
use instantiate::Enumerator;
use mating_rules::Index;
use mode_file::Mode;
use sat_core::Solver;
use std::alloc::{AllocError, Global};
use stt_core::Types;
use tableau_clauses::StepTable;

/// Tables in which nothing was done yet.
fn empty_tables(alloc: Global, basis: Basis, offers: Offers, offered: Offered) -> Tables
    ensures { AreEmpty basis offers offered result }
{
    let Offered {
        names,
        bases,
        logical,
    } = offered;
    Tables {
        basis,
        steps: StepTable::new(alloc),
        solver: Solver::new(alloc),
        seen: LitSet::new(alloc),
        noted: Vec::new(alloc),
        index: Index::new(alloc),
        universals: Enumerator::new(alloc),
        terms: Enumerator::new(alloc),
        chosen: IdSet::new(alloc),
        described: IdSet::new(alloc),
        walked: IdSet::new(alloc),
        offers,
        bases,
        names,
        takers: Enumerator::new(alloc),
        stems: Vec::new(alloc),
        open_holes: OpenHoles::new(alloc, logical),
        holes: ByBase::new(alloc),
        roots: Types::new(alloc),
        done: 0,
        moment: 0,
        alloc,
    }
}

impl<W: Weigher<Waiting>> Core<W> {
    /// Tables and a plan, in which nothing was done yet, with what is offered to holes.
    pub fn new(
        alloc: Global,
        basis: Basis,
        offers: Offers,
        mode: Mode,
        weigher: W,
    ) -> Result<Self, AllocError>
        requires basis { IsBasis basis }
        requires unwitnessed { basis.witnesses ≡ [] }
        requires callable { W.is_callable weigher }
        requires answers { W.answers weigher (λ waiting now. now + delay_by mode waiting.first) }
        ensures state { IfOk result (λ core. state_in core ≡ record nothing_yet { offers = the_offers offers }) }
        ensures right { IfOk result (λ core. IsRightState core.tables core.plan) }
        ensures basis { IfOk result (λ core. core.tables.basis ≡ basis) }
        ensures mode { IfOk result (λ core. core.plan.rule.mode ≡ mode) }
        ensures steps { IfOk result (λ core. core.tables.steps ≡ ([], [])) }
    {
        match Offered::listed(alloc, basis.bank.sig(), &offers) {
            Ok(offered) => Ok(Core {
                tables: empty_tables(alloc, basis, offers, offered),
                plan: Plan::new(alloc, mode, weigher),
            }),
            Err(AllocError) => {
                drop(basis);
                drop(offers);
                Err(AllocError)
            }
        }
    }
}
