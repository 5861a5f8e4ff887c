//! Claims that a predicate holds everywhere.
ghost use Rattle.std.specs.Prelude.{◌≡◌, true, false, IfOk, OnOk};
ghost use Rattle.stt_core.specs.View.{the_type};
ghost use Rattle.prover_state.specs.Lasting.{lasting};
ghost use Rattle.prover_state.specs.Internal.Names.{IsNumberIn};
ghost use Rattle.prover_state.specs.Internal.Pending.{range_of};
ghost use Rattle.prover_state.specs.Internal.Standing.{IsBasis, IsRightState};
ghost use Rattle.prover_state.specs.Internal.Advancing.{the_atom, state_in, IsReadyCore};
ghost use Rattle.prover_search.specs.Internal.Working.{shape_of, with_rules_for};
ghost use Rattle.prover_search.specs.declared.shape.Shape.TheVariants.{Quantified};
ghost use Rattle.prover_search.specs.Internal.Developing.{Advances, AdvancesAlone};

use crate::shape::atom_of;
use command_queue::Weigher;
use prover_growth::{add_witness, offer_new, prepare};
use prover_state::{Basis, Core, Waiting, quantified_type};
use sat_base::SatLit;
use std::alloc::{AllocError, Global};
use stt_core::Ty;

/// The type over which the atom of a literal ranges.
fn range_of(alloc: Global, basis: &Basis, lit: SatLit) -> Result<Ty, AllocError>
    requires basis { IsBasis basis.now }
    requires number { IsNumberIn basis.now.lits lit }
    requires shape { shape_of (the_atom basis.now lit) ≡ Quantified }
    ensures { IfOk result (λ ty. the_type ty ≡ range_of (the_atom basis.now lit)) }
{
    match quantified_type(&basis.bank, atom_of(basis, lit)) {
        Some(ty) => Ok(ty.try_clone(alloc)?),
        None => unreachable!(),
    }
}

/// A predicate holds everywhere: the type is prepared, and there is to be an instance with each term of the type.
fn work_on_universal<W: Weigher<Waiting>>(core: &mut Core<W>, lit: SatLit) -> Result<(), AllocError>
    requires right { IsRightState core.old.tables core.old.plan }
    requires number { IsNumberIn core.old.tables.basis.lits lit }
    requires shape { shape_of (the_atom core.old.tables.basis lit) ≡ Quantified }
    requires positive { lit.positive ≡ true }
    ensures state { OnOk result (state_in core.new ≡ with_rules_for core.old lit) }
    ensures advances { OnOk result (AdvancesAlone core.old core.new) }
    ensures lasts { lasting core.new.tables ≡ lasting core.old.tables }
{
    let ty = range_of(core.tables.alloc, &core.tables.basis, lit)?;
    prepare(core, &ty)?;
    core.push_instances(lit)?;
    Ok(())
}

/// A predicate doesn't hold everywhere: it gets a witness, where it has none, and a new witness is a term where it is offered as one.
fn work_on_denial<W: Weigher<Waiting>>(core: &mut Core<W>, lit: SatLit) -> Result<(), AllocError>
    requires ready { IsReadyCore core.old }
    requires number { IsNumberIn core.old.tables.basis.lits lit }
    requires shape { shape_of (the_atom core.old.tables.basis lit) ≡ Quantified }
    requires negative { lit.positive ≡ false }
    ensures state { OnOk result (state_in core.new ≡ with_rules_for core.old lit) }
    ensures advances { OnOk result (Advances core.old core.new) }
    ensures lasts { lasting core.new.tables ≡ lasting core.old.tables }
{
    let known = core.tables.basis.witnesses.len();
    add_witness(core, lit)?;
    if core.tables.basis.witnesses.len() == known {
        return Ok(());
    }
    offer_new(core, lit, known)?;
    Ok(())
}

/// A predicate holds everywhere, or it doesn't, and then there is a witness.
pub(crate) fn work_on_quantified<W: Weigher<Waiting>>(
    core: &mut Core<W>,
    lit: SatLit,
) -> Result<(), AllocError>
    requires ready { IsReadyCore core.old }
    requires number { IsNumberIn core.old.tables.basis.lits lit }
    requires shape { shape_of (the_atom core.old.tables.basis lit) ≡ Quantified }
    ensures state { OnOk result (state_in core.new ≡ with_rules_for core.old lit) }
    ensures advances { OnOk result (Advances core.old core.new) }
    ensures lasts { lasting core.new.tables ≡ lasting core.old.tables }
{
    if !lit.positive {
        work_on_denial(core, lit)?;
        return Ok(());
    }
    work_on_universal(core, lit)?;
    Ok(())
}
