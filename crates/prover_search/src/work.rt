//! What is done for a literal.
ghost use Rattle.std.specs.Prelude.{◌≡◌, false, OnOk};
ghost use Rattle.prover_state.specs.Lasting.{lasting};
ghost use Rattle.prover_state.specs.Internal.Names.{IsNumberIn};
ghost use Rattle.prover_state.specs.Internal.Standing.{IsRightState};
ghost use Rattle.prover_state.specs.Internal.Advancing.{the_literal, the_atom, state_in, setting_in, IsReadyCore};
ghost use Rattle.search_spec.specs.Processing.{with_matings};
ghost use Rattle.prover_search.specs.Internal.Working.{denies_itself, shape_of, with_rules_for};
ghost use Rattle.prover_search.specs.declared.shape.Shape.TheVariants.{Other as OtherShape};
ghost use Rattle.prover_search.specs.Internal.Developing.{Advances, AdvancesAlone};

use crate::alone::apply_alone;
use crate::connective::connective_rule;
use crate::equation::{work_on_formulas, work_on_functions, work_on_terms};
use crate::quantifier::work_on_quantified;
use crate::shape::{Shape, atom_of, denies_itself, shape_of};
use crate::spine::is_spine;
use command_queue::Weigher;
use prover_state::{Core, Waiting};
use sat_base::SatLit;
use std::alloc::AllocError;
use tableau_calculus::OnePlace;

/// A literal is to be mated with those noted, where its atom is a compared head with arguments.
fn mate_with_noted<W: Weigher<Waiting>>(core: &mut Core<W>, lit: SatLit) -> Result<(), AllocError>
    requires right { IsRightState core.old.tables core.old.plan }
    requires number { IsNumberIn core.old.tables.basis.lits lit }
    ensures state { OnOk result (state_in core.new ≡ with_matings (setting_in core.old) (the_literal core.old.tables.basis lit)
        (state_in core.old)) }
    ensures advances { OnOk result (AdvancesAlone core.old core.new) }
    ensures lasts { lasting core.new.tables ≡ lasting core.old.tables }
{
    let atom = atom_of(&core.tables.basis, lit);
    if !is_spine(&core.tables.basis.bank, atom) {
        return Ok(());
    }
    core.push_matings(lit)?;
    Ok(())
}

/// A literal of another shape has the rule of its connective, or is to be mated.
fn work_on_other<W: Weigher<Waiting>>(core: &mut Core<W>, lit: SatLit) -> Result<(), AllocError>
    requires ready { IsReadyCore core.old }
    requires number { IsNumberIn core.old.tables.basis.lits lit }
    requires shape { shape_of (the_atom core.old.tables.basis lit) ≡ OtherShape }
    ensures state { OnOk result (state_in core.new ≡ with_rules_for core.old lit) }
    ensures advances { OnOk result (AdvancesAlone core.old core.new) }
    ensures lasts { lasting core.new.tables ≡ lasting core.old.tables }
{
    match connective_rule(&core.tables.basis, lit) {
        Some(rule) => apply_alone(core, rule, lit)?,
        None => mate_with_noted(core, lit)?,
    }
    Ok(())
}

/// What the shape of a literal asks for, unless it denies that a term equals itself.
fn work_by_shape<W: Weigher<Waiting>>(core: &mut Core<W>, lit: SatLit) -> Result<(), AllocError>
    requires ready { IsReadyCore core.old }
    requires number { IsNumberIn core.old.tables.basis.lits lit }
    requires differs { denies_itself (the_literal core.old.tables.basis lit) ≡ false }
    ensures state { OnOk result (state_in core.new ≡ with_rules_for core.old lit) }
    ensures advances { OnOk result (Advances core.old core.new) }
    ensures lasts { lasting core.new.tables ≡ lasting core.old.tables }
{
    let atom = atom_of(&core.tables.basis, lit);
    match shape_of(&core.tables.basis.bank, atom) {
        Shape::FormulaEquation => work_on_formulas(core, lit),
        Shape::FunctionEquation => work_on_functions(core, lit),
        Shape::BaseEquation(n) => work_on_terms(core, lit, n),
        Shape::Quantified => work_on_quantified(core, lit),
        Shape::Other => work_on_other(core, lit),
    }
}

/// What the shape of a literal asks for. That a term differs from itself is refuted.
pub(crate) fn work<W: Weigher<Waiting>>(core: &mut Core<W>, lit: SatLit) -> Result<(), AllocError>
    requires ready { IsReadyCore core.old }
    requires number { IsNumberIn core.old.tables.basis.lits lit }
    ensures state { OnOk result (state_in core.new ≡ with_rules_for core.old lit) }
    ensures advances { OnOk result (Advances core.old core.new) }
    ensures lasts { lasting core.new.tables ≡ lasting core.old.tables }
{
    if denies_itself(&core.tables.basis, lit) {
        apply_alone(core, OnePlace::Refl, lit)?;
        return Ok(());
    }
    work_by_shape(core, lit)
}
