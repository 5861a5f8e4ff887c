//! Literals that say of a predicate that it doesn't hold everywhere.
ghost use Rattle.std.specs.Prelude.{◌≡◌, ◌<◌, ◌-◌, ◌^◌, nat_lt, [], ◌∷◌, length, map, if◌then◌else◌, IfOk, OnOk};
ghost use Rattle.stt_core.specs.SimpleType.{SimpleType, base, target};
ghost use Rattle.stt_core.specs.Lambda.{Lambda};
ghost use Rattle.instantiate.specs.Listing.{with_listed};
ghost use Rattle.tableau_calculus.specs.Rules.{all_neg};
ghost use Rattle.search_spec.specs.Witness.{witness_of};
ghost use Rattle.prover_growth.specs.Internal.Denials.{Denies, with_row};
ghost use Rattle.prover_state.specs.Lasting.{declarations_of, lasting};
ghost use Rattle.prover_state.specs.Internal.Growing.{BasisWidens};
ghost use Rattle.prover_state.specs.Internal.Names.{IsNumberIn};
ghost use Rattle.prover_state.specs.Internal.Standing.{rows_in, IsBasis, IsRightState};
ghost use Rattle.prover_state.specs.Internal.Steps.{IsMadeInstance};
ghost use Rattle.prover_state.specs.Internal.Advancing.{the_literal, state_in, IsReadyCore};

use command_queue::Weigher;
use instantiate::{Enumerator, target_of};
use literal_map::Instance;
use prover_state::{Basis, Core, Waiting, quantified_type};
use sat_base::SatLit;
use std::alloc::{AllocError, Global};
use stt_core::Ty;
use tableau_calculus::{OnePlace, RuleUse};
use tableau_rules::{RuleRefused, make};
use term_bank::equal_ids_for_equal_terms;

/// The base type that the type of the predicate's witness gives, once it has all its arguments.
pub(crate) fn denied_target(basis: &Basis, lit: SatLit) -> u32
    requires good { IsBasis basis.now }
    requires number { IsNumberIn basis.now.lits lit }
    requires denies { (a : SimpleType) × ((f : Lambda) × Denies basis.now lit a f) }
    ensures { (a : SimpleType) (f : Lambda) → Denies basis.now lit a f → result ≡ target a }
{
    match quantified_type(&basis.bank, basis.lits.formula_of(lit)) {
        Some(ty) => target_of(ty),
        None => unreachable!(),
    }
}

/// The instance of the rule for the literal. The predicate gets a witness, where it has none.
fn make_denial(alloc: Global, basis: &mut Basis, lit: SatLit) -> Result<Instance, AllocError>
    requires good { IsBasis basis.old }
    requires number { IsNumberIn basis.old.lits lit }
    requires few { length basis.old.witnesses < 2 ^ 32 - 1 }
    requires denies { (a : SimpleType) × ((f : Lambda) × Denies basis.old lit a f) }
    ensures made { IfOk result (IsMadeInstance basis.new) }
    ensures principals { IfOk result (λ i. i.principals ≡ lit ∷ []) }
    ensures alternatives { IfOk result (λ i. (a : SimpleType) (f : Lambda) → Denies basis.old lit a f
        → map (map (the_literal basis.new)) i.alternatives ≡ all_neg a f (witness_of (rows_in basis.old)
        (record { type = a; predicate = f }))) }
    ensures rows { OnOk result ((a : SimpleType) (f : Lambda) → Denies basis.old lit a f
        → rows_in basis.new ≡ with_row (rows_in basis.old) (record { type = a; predicate = f })) }
    ensures good { OnOk result (IsBasis basis.new) }
    ensures widens { OnOk result (BasisWidens basis.old basis.new) }
    ensures declared { declarations_of basis.new ≡ declarations_of basis.old }
{
    let by = RuleUse::AtOne(OnePlace::AllNeg, lit);
    let made = make(
        alloc,
        &mut basis.bank,
        &mut basis.normal,
        &mut basis.lits,
        &mut basis.witnesses,
        &by,
    );
    equal_ids_for_equal_terms(&basis.bank);
    match made {
        Ok(instance) => Ok(instance),
        Err(refused) => match refused {
            RuleRefused::Memory => Err(AllocError),
            RuleRefused::NotThisRule => unreachable!(),
        },
    }
}

/// Lists the witness behind the earlier ones, where there is one, by the base type that its type gives.
fn list_taker(takers: &mut Enumerator, output: u32, before: u32, now: u32) -> Result<(), AllocError>
    ensures { OnOk result (takers.new ≡ (if nat_lt before now then with_listed (base output) before takers.old else takers.old)) }
{
    if before < now {
        takers.add_term(&Ty::Base(output), before)?;
        return Ok(());
    }
    Ok(())
}

/// The instance of the rule for the literal. The predicate gets a witness, where it has none, and this one is listed.
pub(crate) fn deny<W: Weigher<Waiting>>(
    core: &mut Core<W>,
    output: u32,
    lit: SatLit,
) -> Result<Instance, AllocError>
    requires ready { IsReadyCore core.old }
    requires number { IsNumberIn core.old.tables.basis.lits lit }
    requires denies { (a : SimpleType) × ((f : Lambda) × Denies core.old.tables.basis lit a f) }
    requires output { (a : SimpleType) (f : Lambda) → Denies core.old.tables.basis lit a f → output ≡ target a }
    ensures state { OnOk result ((a : SimpleType) (f : Lambda) → Denies core.old.tables.basis lit a f
        → state_in core.new ≡ record (state_in core.old) { rows = with_row (rows_in core.old.tables.basis) (record { type = a; predicate = f }) }) }
    ensures right { OnOk result (IsRightState core.new.tables core.new.plan) }
    ensures made { IfOk result (IsMadeInstance core.new.tables.basis) }
    ensures principals { IfOk result (λ i. i.principals ≡ lit ∷ []) }
    ensures alternatives { IfOk result (λ i. (a : SimpleType) (f : Lambda) → Denies core.old.tables.basis lit a f
        → map (map (the_literal core.new.tables.basis)) i.alternatives ≡ all_neg a f
        (witness_of (rows_in core.old.tables.basis) (record { type = a; predicate = f }))) }
    ensures rows { OnOk result ((a : SimpleType) (f : Lambda) → Denies core.old.tables.basis lit a f
        → rows_in core.new.tables.basis ≡ with_row (rows_in core.old.tables.basis) (record { type = a; predicate = f })) }
    ensures widens { OnOk result (BasisWidens core.old.tables.basis core.new.tables.basis) }
    ensures tables { OnOk result
        (core.new.tables ≡ record core.old.tables { basis = core.new.tables.basis; takers = core.new.tables.takers }) }
    ensures plan { core.new.plan ≡ core.old.plan }
    ensures lasts { lasting core.new.tables ≡ lasting core.old.tables }
{
    let before = core.tables.basis.witnesses.len();
    let instance = make_denial(core.tables.alloc, &mut core.tables.basis, lit)?;
    let now = core.tables.basis.witnesses.len();
    list_taker(&mut core.tables.takers, output, before, now)?;
    Ok(instance)
}
