//! Equations.
ghost use Rattle.std.specs.Prelude.{◌≡◌, false, ℕ, suc, OnOk};
ghost use Rattle.stt_core.specs.SimpleType.{base};
ghost use Rattle.stt_core.specs.Lambda.{eq};
ghost use Rattle.tableau_calculus.specs.Literals.{minus};
ghost use Rattle.term_bank.specs.Terms.{term_at};
ghost use Rattle.search_spec.specs.Processing.{with_decomposition};
ghost use Rattle.prover_state.specs.Lasting.{lasting};
ghost use Rattle.prover_state.specs.Internal.Names.{IsNumberIn, IsPlace};
ghost use Rattle.prover_state.specs.Internal.Advancing.{the_literal, the_atom, state_in, setting_in, IsReadyCore};
ghost use Rattle.prover_search.specs.Internal.Working.{denies_itself, shape_of, with_rules_for};
ghost use Rattle.prover_search.specs.declared.shape.Shape.TheVariants.{FormulaEquation, FunctionEquation, BaseEquation};
ghost use Rattle.prover_search.specs.Internal.Developing.{AdvancesAlone};

use crate::alone::apply_alone;
use crate::sides::{Sides, add_terms, offer_sides, sides_of};
use crate::spine::share_spine;
use command_queue::Weigher;
use prover_state::{Core, Waiting};
use sat_base::SatLit;
use std::alloc::AllocError;
use stt_core::Ty;
use tableau_calculus::OnePlace;

/// An equation between formulas, or the negation of one, is split by the truth of its sides.
pub(crate) fn work_on_formulas<W: Weigher<Waiting>>(
    core: &mut Core<W>,
    lit: SatLit,
) -> Result<(), AllocError>
    requires ready { IsReadyCore core.old }
    requires number { IsNumberIn core.old.tables.basis.lits lit }
    requires shape { shape_of (the_atom core.old.tables.basis lit) ≡ FormulaEquation }
    requires differs { denies_itself (the_literal core.old.tables.basis lit) ≡ false }
    ensures state { OnOk result (state_in core.new ≡ with_rules_for core.old lit) }
    ensures advances { OnOk result (AdvancesAlone core.old core.new) }
    ensures lasts { lasting core.new.tables ≡ lasting core.old.tables }
{
    if lit.positive {
        apply_alone(core, OnePlace::BoolPos, lit)?;
        return Ok(());
    }
    apply_alone(core, OnePlace::BoolNeg, lit)?;
    Ok(())
}

/// The negation of an equation between functions: its sides are terms where they are offered, and they don't agree everywhere.
fn work_on_unequal<W: Weigher<Waiting>>(core: &mut Core<W>, lit: SatLit) -> Result<(), AllocError>
    requires ready { IsReadyCore core.old }
    requires number { IsNumberIn core.old.tables.basis.lits lit }
    requires shape { shape_of (the_atom core.old.tables.basis lit) ≡ FunctionEquation }
    requires negative { lit.positive ≡ false }
    requires differs { denies_itself (the_literal core.old.tables.basis lit) ≡ false }
    ensures state { OnOk result (state_in core.new ≡ with_rules_for core.old lit) }
    ensures advances { OnOk result (AdvancesAlone core.old core.new) }
    ensures lasts { lasting core.new.tables ≡ lasting core.old.tables }
{
    offer_sides(core, lit)?;
    apply_alone(core, OnePlace::FunNeg, lit)?;
    Ok(())
}

/// An equation between functions, or the negation of one, says of these that they agree everywhere, or not.
pub(crate) fn work_on_functions<W: Weigher<Waiting>>(
    core: &mut Core<W>,
    lit: SatLit,
) -> Result<(), AllocError>
    requires ready { IsReadyCore core.old }
    requires number { IsNumberIn core.old.tables.basis.lits lit }
    requires shape { shape_of (the_atom core.old.tables.basis lit) ≡ FunctionEquation }
    requires differs { denies_itself (the_literal core.old.tables.basis lit) ≡ false }
    ensures state { OnOk result (state_in core.new ≡ with_rules_for core.old lit) }
    ensures advances { OnOk result (AdvancesAlone core.old core.new) }
    ensures lasts { lasting core.new.tables ≡ lasting core.old.tables }
{
    if lit.positive {
        apply_alone(core, OnePlace::FunPos, lit)?;
        return Ok(());
    }
    work_on_unequal(core, lit)?;
    Ok(())
}

/// The negated equation between two terms with the same compared head is decomposed.
fn decompose<W: Weigher<Waiting>>(
    core: &mut Core<W>,
    lit: SatLit,
    sides: Sides,
) -> Result<(), AllocError>
    requires ready { IsReadyCore core.old }
    requires number { IsNumberIn core.old.tables.basis.lits lit }
    requires left_place { IsPlace core.old.tables.basis.bank.terms sides.left }
    requires right_place { IsPlace core.old.tables.basis.bank.terms sides.right }
    requires denies { (n : ℕ) × (the_literal core.old.tables.basis lit ≡ minus (eq (base (suc n))
        (term_at core.old.tables.basis.bank.terms sides.left) (term_at core.old.tables.basis.bank.terms sides.right))) }
    ensures state { OnOk result (let s = term_at core.old.tables.basis.bank.terms sides.left in let t = term_at core.old.tables.basis.bank.terms sides.right in (n : ℕ) → the_literal core.old.tables.basis lit ≡ minus (eq (base (suc n)) s t)
        → state_in core.new ≡ with_decomposition (setting_in core.old) (base (suc n)) s t (state_in core.old)) }
    ensures advances { OnOk result (AdvancesAlone core.old core.new) }
    ensures lasts { lasting core.new.tables ≡ lasting core.old.tables }
{
    let _declared = core.tables.basis.bank.sig();
    if !share_spine(&core.tables.basis.bank, sides.left, sides.right) {
        return Ok(());
    }
    apply_alone(core, OnePlace::Dec, lit)?;
    Ok(())
}

/// The negation of an equation on a base type: its sides are terms for instances, it is decomposed, and it is to be confronted with
/// equations.
fn work_on_difference<W: Weigher<Waiting>>(
    core: &mut Core<W>,
    lit: SatLit,
    n: u32,
) -> Result<(), AllocError>
    requires ready { IsReadyCore core.old }
    requires number { IsNumberIn core.old.tables.basis.lits lit }
    requires shape { shape_of (the_atom core.old.tables.basis lit) ≡ BaseEquation n }
    requires negative { lit.positive ≡ false }
    requires differs { denies_itself (the_literal core.old.tables.basis lit) ≡ false }
    ensures state { OnOk result (state_in core.new ≡ with_rules_for core.old lit) }
    ensures advances { OnOk result (AdvancesAlone core.old core.new) }
    ensures lasts { lasting core.new.tables ≡ lasting core.old.tables }
{
    let sides = sides_of(&core.tables.basis, lit);
    add_terms(core, &Ty::Base(n), sides)?;
    decompose(core, lit, sides)?;
    core.push_confrontations(lit)?;
    Ok(())
}

/// An equation on a base type other than that of formulas is to be confronted with negations of such, and the other way round.
pub(crate) fn work_on_terms<W: Weigher<Waiting>>(
    core: &mut Core<W>,
    lit: SatLit,
    n: u32,
) -> Result<(), AllocError>
    requires ready { IsReadyCore core.old }
    requires number { IsNumberIn core.old.tables.basis.lits lit }
    requires shape { shape_of (the_atom core.old.tables.basis lit) ≡ BaseEquation n }
    requires differs { denies_itself (the_literal core.old.tables.basis lit) ≡ false }
    ensures state { OnOk result (state_in core.new ≡ with_rules_for core.old lit) }
    ensures advances { OnOk result (AdvancesAlone core.old core.new) }
    ensures lasts { lasting core.new.tables ≡ lasting core.old.tables }
{
    if !lit.positive {
        return work_on_difference(core, lit, n);
    }
    core.push_confrontations(lit)?;
    Ok(())
}
