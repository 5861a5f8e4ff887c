//! Witnesses of predicates that don't hold everywhere.
ghost use Rattle.std.specs.Prelude.{◌≡◌, map, filter, OnOk};
ghost use Rattle.stt_core.specs.SimpleType.{SimpleType};
ghost use Rattle.stt_core.specs.Lambda.{witness, Lambda, constant, every};
ghost use Rattle.tableau_calculus.specs.Literals.{minus};
ghost use Rattle.search_spec.specs.State.{grow, with_commands};
ghost use Rattle.search_spec.specs.Witness.{has_hole_of, with_witness};
ghost use Rattle.prover_growth.specs.Internal.Denials.{with_row};
ghost use Rattle.prover_state.specs.Lasting.{lasting};
ghost use Rattle.prover_state.specs.Internal.Growing.{BasisWidens};
ghost use Rattle.prover_state.specs.Internal.Names.{IsNumberIn};
ghost use Rattle.prover_state.specs.Internal.Standing.{rows_in, sketches_in, IsRightState};
ghost use Rattle.prover_state.specs.Internal.Steps.{IsMadeInstance, StepsGrow};
ghost use Rattle.prover_state.specs.Internal.Advancing.{the_literal, state_in, setting_in, StaysRight, IsReadyCore};

use crate::denial::{denied_target, deny};
use command_queue::Weigher;
use prover_state::{Command, Core, HoleHead, Over, Waiting, number_of};
use sat_base::SatLit;
use std::alloc::AllocError;

/// Each parked partial term whose first hole has a base type is to be filled with a witness.
fn grow_with<W: Weigher<Waiting>>(core: &mut Core<W>, output: u32, w: u32) -> Result<(), AllocError>
    requires right { IsRightState core.old.tables core.old.plan }
    ensures state { OnOk result (state_in core.new
        ≡ with_commands core.old.plan.rule.mode (map (λ p. grow p (constant (witness w))) (filter (has_hole_of output) (sketches_in core.old.tables))) (state_in core.old)) }
    ensures stays { OnOk result (StaysRight core.old core.new) }
    ensures tables { core.new.tables ≡ core.old.tables }
{
    let parked = core.tables.holes.under(output);
    let count = parked.len();
    if count == 0 {
        return Ok(());
    }
    let first = Command::Grow(parked[0] as usize, number_of(HoleHead::Wit(w)));
    core.push_whole(first, Over::Parked, count)?;
    Ok(())
}

/// The rule for a literal that says of a predicate that it doesn't hold everywhere. The predicate gets a witness, where it has none,
/// and with this one the partial terms are to grow.
pub fn add_witness<W: Weigher<Waiting>>(core: &mut Core<W>, lit: SatLit) -> Result<(), AllocError>
    requires ready { IsReadyCore core.old }
    requires number { IsNumberIn core.old.tables.basis.lits lit }
    requires denies { (a : SimpleType) × ((f : Lambda) × (the_literal core.old.tables.basis lit ≡ minus (every a f))) }
    ensures state { OnOk result ((a : SimpleType) (f : Lambda) → the_literal core.old.tables.basis lit ≡ minus (every a f)
        → state_in core.new ≡ with_witness (setting_in core.old) a f (state_in core.old)) }
    ensures stays { OnOk result (StaysRight core.old core.new) }
    ensures rows { OnOk result ((a : SimpleType) (f : Lambda) → the_literal core.old.tables.basis lit ≡ minus (every a f)
        → rows_in core.new.tables.basis ≡ with_row (rows_in core.old.tables.basis) (record { type = a; predicate = f })) }
    ensures basis { OnOk result (BasisWidens core.old.tables.basis core.new.tables.basis) }
    ensures steps { OnOk result (StepsGrow (IsMadeInstance core.new.tables.basis) core.old.tables.steps core.new.tables.steps) }
    ensures tables { OnOk result
        (core.new.tables ≡ record core.old.tables {
          basis = core.new.tables.basis;
          seen = core.new.tables.seen;
          steps
              = core.new.tables.steps;
          solver = core.new.tables.solver;
          takers = core.new.tables.takers;
        }) }
    ensures lasts { lasting core.new.tables ≡ lasting core.old.tables }
{
    let output = denied_target(&core.tables.basis, lit);
    let before = core.tables.basis.witnesses.len();
    let instance = deny(core, output, lit)?;
    core.add_instance(instance)?;
    if core.tables.basis.witnesses.len() == before {
        return Ok(());
    }
    grow_with(core, output, before)?;
    Ok(())
}
