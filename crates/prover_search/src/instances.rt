//! The commands that add an instance of a rule.
ghost use Rattle.std.specs.Prelude.{◌≡◌, ◌≤◌, [], OnOk};
ghost use Rattle.term_bank.specs.Terms.{term_at};
ghost use Rattle.witness_names.specs.Rows.{binder_of};
ghost use Rattle.stt_core.specs.SimpleType.{predicate};
ghost use Rattle.stt_core.specs.Canonical.{IsCanonical};
ghost use Rattle.refute_print.specs.Sizes.{type_limit, type_depth, IsSmallTerm};
ghost use Rattle.tableau_calculus.specs.Rules.{cho, des};
ghost use Rattle.search_spec.specs.Commands.{with_mating, with_confrontation, with_instantiation};
ghost use Rattle.search_spec.specs.Instances.{with_instance};
ghost use Rattle.search_spec.specs.TypedState.{Mates, Confronts, Instantiates};
ghost use Rattle.prover_state.specs.Lasting.{lasting};
ghost use Rattle.prover_state.specs.Internal.Names.{IsNumberIn, IsPlace};
ghost use Rattle.prover_state.specs.Internal.Standing.{scope_by};
ghost use Rattle.prover_state.specs.Internal.Advancing.{the_literal, state_in, setting_in, IsReadyCore};
ghost use Rattle.prover_search.specs.Internal.Developing.{AdvancesAlone};

use command_queue::Weigher;
use prover_state::{Core, DEPTH, Waiting};
use sat_base::SatLit;
use std::alloc::AllocError;
use tableau_calculus::{OfPredicate, RuleUse, TwoPlaces};
use term_bank::Id;

/// Two literals with the same head are mated: their arguments differ somewhere.
pub(crate) fn mate<W: Weigher<Waiting>>(
    core: &mut Core<W>,
    first: SatLit,
    second: SatLit,
) -> Result<(), AllocError>
    requires ready { IsReadyCore core.old }
    requires first { IsNumberIn core.old.tables.basis.lits first }
    requires second { IsNumberIn core.old.tables.basis.lits second }
    requires typed { Mates (scope_by core.old.tables.basis) (the_literal core.old.tables.basis first)
        (the_literal core.old.tables.basis second) }
    ensures state { OnOk result (state_in core.new
        ≡ with_mating (setting_in core.old) (the_literal core.old.tables.basis first) (the_literal core.old.tables.basis second) (state_in core.old)) }
    ensures advances { OnOk result (AdvancesAlone core.old core.new) }
    ensures lasts { lasting core.new.tables ≡ lasting core.old.tables }
{
    let _declared = core.tables.basis.bank.sig();
    core.apply_rule(RuleUse::AtTwo(TwoPlaces::Mat, first, second))?;
    Ok(())
}

/// An equation is confronted with the negation of one.
pub(crate) fn confront<W: Weigher<Waiting>>(
    core: &mut Core<W>,
    first: SatLit,
    second: SatLit,
) -> Result<(), AllocError>
    requires ready { IsReadyCore core.old }
    requires first { IsNumberIn core.old.tables.basis.lits first }
    requires second { IsNumberIn core.old.tables.basis.lits second }
    requires typed { Confronts (scope_by core.old.tables.basis) (the_literal core.old.tables.basis first)
        (the_literal core.old.tables.basis second) }
    ensures state { OnOk result (let l = the_literal core.old.tables.basis first in let m = the_literal core.old.tables.basis second in
        state_in core.new ≡ with_confrontation (setting_in core.old) l m l.atom m.atom (state_in core.old)) }
    ensures advances { OnOk result (AdvancesAlone core.old core.new) }
    ensures lasts { lasting core.new.tables ≡ lasting core.old.tables }
{
    core.apply_rule(RuleUse::AtTwo(TwoPlaces::Con, first, second))?;
    Ok(())
}

/// A universal literal is instantiated with a term, unless the term is too deep.
pub(crate) fn instantiate<W: Weigher<Waiting>>(
    core: &mut Core<W>,
    lit: SatLit,
    id: Id,
) -> Result<(), AllocError>
    requires ready { IsReadyCore core.old }
    requires number { IsNumberIn core.old.tables.basis.lits lit }
    requires place { IsPlace core.old.tables.basis.bank.terms id }
    requires small { type_depth (term_at core.old.tables.basis.bank.terms id) ≤ type_limit }
    requires typed { Instantiates (scope_by core.old.tables.basis) (the_literal core.old.tables.basis lit)
        (term_at core.old.tables.basis.bank.terms id) }
    ensures state { OnOk result (let l = the_literal core.old.tables.basis lit in
        state_in core.new
        ≡ with_instantiation (setting_in core.old) l l.atom (term_at core.old.tables.basis.bank.terms id) (state_in core.old)) }
    ensures advances { OnOk result (AdvancesAlone core.old core.new) }
    ensures lasts { lasting core.new.tables ≡ lasting core.old.tables }
{
    if core.tables.basis.bank.depth(id) > DEPTH {
        return Ok(());
    }
    core.apply_rule(RuleUse::AllPos(lit, id))?;
    Ok(())
}

/// A value is chosen by a predicate.
pub(crate) fn choose<W: Weigher<Waiting>>(core: &mut Core<W>, id: Id) -> Result<(), AllocError>
    requires ready { IsReadyCore core.old }
    requires place { IsPlace core.old.tables.basis.bank.terms id }
    requires small { IsSmallTerm (term_at core.old.tables.basis.bank.terms id) }
    requires typed { let f = term_at core.old.tables.basis.bank.terms id in IsCanonical (scope_by core.old.tables.basis) []
        (predicate (binder_of f)) f }
    ensures state { OnOk result (let f = term_at core.old.tables.basis.bank.terms id in
        state_in core.new ≡ with_instance core.old.plan.rule.mode [] (cho (binder_of f) f) (state_in core.old)) }
    ensures advances { OnOk result (AdvancesAlone core.old core.new) }
    ensures lasts { lasting core.new.tables ≡ lasting core.old.tables }
{
    core.apply_rule(RuleUse::WithPredicate(OfPredicate::Cho, id))?;
    Ok(())
}

/// A value is described by a predicate.
pub(crate) fn describe<W: Weigher<Waiting>>(core: &mut Core<W>, id: Id) -> Result<(), AllocError>
    requires ready { IsReadyCore core.old }
    requires place { IsPlace core.old.tables.basis.bank.terms id }
    requires small { IsSmallTerm (term_at core.old.tables.basis.bank.terms id) }
    requires typed { let f = term_at core.old.tables.basis.bank.terms id in IsCanonical (scope_by core.old.tables.basis) []
        (predicate (binder_of f)) f }
    ensures state { OnOk result (let f = term_at core.old.tables.basis.bank.terms id in
        state_in core.new ≡ with_instance core.old.plan.rule.mode [] (des (binder_of f) f) (state_in core.old)) }
    ensures advances { OnOk result (AdvancesAlone core.old core.new) }
    ensures lasts { lasting core.new.tables ≡ lasting core.old.tables }
{
    core.apply_rule(RuleUse::WithPredicate(OfPredicate::Des, id))?;
    Ok(())
}
