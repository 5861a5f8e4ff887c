//! Rules that take one literal.
ghost use Rattle.std.specs.Prelude.{◌≡◌, false, List, [], ◌∷◌, OnOk};
ghost use Rattle.tableau_calculus.specs.Literals.{Literal};
ghost use Rattle.tableau_calculus.specs.declared.rule_use.RuleUse.TheVariants.{AtOne};
ghost use Rattle.tableau_rules.specs.Changes.{makes_witness};
ghost use Rattle.tableau_rules.specs.Uses.{IsInstanceBy};
ghost use Rattle.search_spec.specs.Instances.{with_instance};
ghost use Rattle.prover_state.specs.Lasting.{lasting};
ghost use Rattle.prover_state.specs.Internal.Names.{IsNumberIn};
ghost use Rattle.prover_state.specs.Internal.Standing.{rows_in};
ghost use Rattle.prover_state.specs.Internal.Advancing.{the_literal, state_in, IsReadyCore};
ghost use Rattle.prover_search.specs.Internal.Developing.{AdvancesAlone};

use command_queue::Weigher;
use prover_state::{Core, Waiting};
use sat_base::SatLit;
use std::alloc::AllocError;
use tableau_calculus::{OnePlace, RuleUse};

/// Adds the instance of a rule that takes one literal and makes no witness.
pub(crate) fn apply_alone<W: Weigher<Waiting>>(
    core: &mut Core<W>,
    rule: OnePlace,
    lit: SatLit,
) -> Result<(), AllocError>
    requires ready { IsReadyCore core.old }
    requires number { IsNumberIn core.old.tables.basis.lits lit }
    requires unwitnessed { makes_witness rule ≡ false }
    requires fits { (alternatives : List (List Literal)) × IsInstanceBy core.old.tables.basis.bank core.old.tables.basis.lits
        (rows_in core.old.tables.basis) (AtOne rule lit) alternatives }
    ensures state { OnOk result ((alternatives : List (List Literal)) → IsInstanceBy core.old.tables.basis.bank core.old.tables.basis.lits (rows_in core.old.tables.basis) (AtOne rule lit) alternatives
        → state_in core.new
        ≡ with_instance core.old.plan.rule.mode (the_literal core.old.tables.basis lit ∷ []) alternatives (state_in core.old)) }
    ensures advances { OnOk result (AdvancesAlone core.old core.new) }
    ensures lasts { lasting core.new.tables ≡ lasting core.old.tables }
{
    core.apply_rule(RuleUse::AtOne(rule, lit))?;
    Ok(())
}
