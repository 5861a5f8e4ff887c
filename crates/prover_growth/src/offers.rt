//! Witnesses that are terms at once.
ghost use Rattle.std.specs.Prelude.{◌≡◌, ◌<◌, [], ◌∷◌, length, slice_get, Some, if◌then◌else◌, IfOk, OnOk};
ghost use Rattle.stt_core.specs.SimpleType.{SimpleType, same_type};
ghost use Rattle.stt_core.specs.Lambda.{Lambda, witness, constant, every};
ghost use Rattle.stt_core.specs.View.{the_type};
ghost use Rattle.normal_forms.specs.Normal.{eta};
ghost use Rattle.tableau_calculus.specs.Literals.{minus};
ghost use Rattle.tableau_calculus.specs.Witnesses.{Row};
ghost use Rattle.term_bank.specs.Content.{HasTerm};
ghost use Rattle.search_spec.specs.Offers.{early_terms, offered_witness, takes_witness};
ghost use Rattle.search_spec.specs.Terms.{with_terms};
ghost use Rattle.prover_state.specs.Lasting.{declarations_of, lasting};
ghost use Rattle.prover_state.specs.Internal.Growing.{BasisGrows};
ghost use Rattle.prover_state.specs.Internal.Names.{IsNumberIn};
ghost use Rattle.prover_state.specs.Internal.Standing.{rows_in, IsBasis, IsRightState};
ghost use Rattle.prover_state.specs.Internal.Advancing.{the_literal, state_in, StaysRight};

use crate::opening::is_prepared;
use command_queue::Weigher;
use prover_state::{Basis, Core, Waiting, quantified_type};
use sat_base::SatLit;
use std::alloc::{AllocError, Global};
use stt_core::{Head, Ty};
use term_bank::{Id, Node};

/// Whether a witness has exactly this type.
fn has_witness_type(basis: &Basis, w: u32, ty: &Ty) -> bool
    requires good { IsBasis basis.now }
    requires number { w < length basis.now.witnesses }
    ensures { (r : Row) → slice_get (rows_in basis.now) w ≡ Some r → result ≡ same_type (the_type ty.now) r.type }
{
    match basis.bank.node(basis.witnesses.predicate(w)) {
        Node::Lam { ty: own, body: _ } => ty.same(own),
        Node::App { head: _, args: _ } => unreachable!(),
    }
}

/// The eta-long form of a witness, in the bank.
fn witness_in(basis: &mut Basis, w: u32, ty: &Ty) -> Result<Id, AllocError>
    requires good { IsBasis basis.old }
    requires row { (r : Row) × ((slice_get (rows_in basis.old) w ≡ Some r) × (r.type ≡ the_type ty.now)) }
    ensures term { IfOk result (λ id. HasTerm basis.new.bank id (eta (the_type ty.now) (constant (witness w)))) }
    ensures good { OnOk result (IsBasis basis.new) }
    ensures grows { OnOk result (BasisGrows basis.old basis.new) }
    ensures declared { declarations_of basis.new ≡ declarations_of basis.old }
{
    Ok(basis.normal.eta(&mut basis.bank, &Head::Wit(w), ty)?)
}

/// A witness is a term of its type.
fn offer_witness<W: Weigher<Waiting>>(core: &mut Core<W>, ty: &Ty, w: u32) -> Result<(), AllocError>
    requires right { IsRightState core.old.tables core.old.plan }
    requires row { (r : Row) × ((slice_get (rows_in core.old.tables.basis) w ≡ Some r) × (r.type ≡ the_type ty.now)) }
    ensures state { OnOk result (let a = the_type ty.now in
        state_in core.new ≡ with_terms core.old.plan.rule.mode a (eta a (constant (witness w)) ∷ []) (state_in core.old)) }
    ensures stays { OnOk result (StaysRight core.old core.new) }
    ensures basis { OnOk result (BasisGrows core.old.tables.basis core.new.tables.basis) }
    ensures tables { OnOk result
        (core.new.tables ≡ record core.old.tables { basis = core.new.tables.basis; terms = core.new.tables.terms }) }
    ensures lasts { lasting core.new.tables ≡ lasting core.old.tables }
{
    let id = witness_in(&mut core.tables.basis, w, ty)?;
    core.add_term(ty, id)?;
    Ok(())
}

/// A witness is a term of the type, where it has exactly this type.
fn offer_where<W: Weigher<Waiting>>(core: &mut Core<W>, ty: &Ty, w: u32) -> Result<(), AllocError>
    requires right { IsRightState core.old.tables core.old.plan }
    requires number { w < length core.old.tables.basis.witnesses }
    ensures state { OnOk result ((r : Row) → slice_get (rows_in core.old.tables.basis) w ≡ Some r
        → (let a = the_type ty.now in
        state_in core.new
        ≡ with_terms core.old.plan.rule.mode a (if same_type a r.type then eta a (constant (witness w)) ∷ [] else []) (state_in core.old))) }
    ensures stays { OnOk result (StaysRight core.old core.new) }
    ensures basis { OnOk result (BasisGrows core.old.tables.basis core.new.tables.basis) }
    ensures tables { OnOk result
        (core.new.tables ≡ record core.old.tables { basis = core.new.tables.basis; terms = core.new.tables.terms }) }
    ensures lasts { lasting core.new.tables ≡ lasting core.old.tables }
{
    if has_witness_type(&core.tables.basis, w, ty) {
        offer_witness(core, ty, w)?;
        return Ok(());
    }
    Ok(())
}

/// A type gets the witnesses of exactly this type, where terms are offered.
pub(crate) fn offer_early<W: Weigher<Waiting>>(
    core: &mut Core<W>,
    ty: &Ty,
) -> Result<(), AllocError>
    requires right { IsRightState core.old.tables core.old.plan }
    ensures state { OnOk result (let s = state_in core.old in let a = the_type ty.now in
        state_in core.new ≡ with_terms core.old.plan.rule.mode a (early_terms core.old.plan.rule.mode a s) s) }
    ensures stays { OnOk result (StaysRight core.old core.new) }
    ensures basis { OnOk result (BasisGrows core.old.tables.basis core.new.tables.basis) }
    ensures tables { OnOk result
        (core.new.tables ≡ record core.old.tables { basis = core.new.tables.basis; terms = core.new.tables.terms }) }
    ensures lasts { lasting core.new.tables ≡ lasting core.old.tables }
{
    if core.plan.mode().terms == 0 {
        return Ok(());
    }
    for w in 0..core.tables.basis.witnesses.len() {
        offer_where(core, ty, w)?;
    }
    Ok(())
}

/// Whether a new witness of a type is one of its terms at once.
fn takes_witness<W: Weigher<Waiting>>(core: &Core<W>, ty: &Ty) -> bool
    requires right { IsRightState core.now.tables core.now.plan }
    ensures { result ≡ takes_witness core.now.plan.rule.mode (the_type ty.now) (state_in core.now) }
{
    if core.plan.mode().terms == 0 {
        return false;
    }
    match ty {
        Ty::Base(_) => true,
        Ty::Arrow(_, _) => is_prepared(core, ty),
    }
}

/// The type over which a literal ranges.
fn denied_type(alloc: Global, basis: &Basis, lit: SatLit) -> Result<Ty, AllocError>
    requires good { IsBasis basis.now }
    requires number { IsNumberIn basis.now.lits lit }
    requires denies { (a : SimpleType) × ((f : Lambda) × (the_literal basis.now lit ≡ minus (every a f))) }
    ensures { IfOk result (λ ty. (a : SimpleType) (f : Lambda) → the_literal basis.now lit ≡ minus (every a f) → the_type ty ≡ a) }
{
    match quantified_type(&basis.bank, basis.lits.formula_of(lit)) {
        Some(ty) => Ok(ty.try_clone(alloc)?),
        None => unreachable!(),
    }
}

/// The witness of a literal's predicate, which is new, is a term of its type, where it is offered as one.
pub fn offer_new<W: Weigher<Waiting>>(
    core: &mut Core<W>,
    lit: SatLit,
    w: u32,
) -> Result<(), AllocError>
    requires right { IsRightState core.old.tables core.old.plan }
    requires number { IsNumberIn core.old.tables.basis.lits lit }
    requires denies { (a : SimpleType) × ((f : Lambda) × ((the_literal core.old.tables.basis lit ≡ minus (every a f))
        × (slice_get (rows_in core.old.tables.basis) w ≡ Some (record { type = a; predicate = f })))) }
    ensures state { OnOk result ((a : SimpleType) (f : Lambda) → the_literal core.old.tables.basis lit ≡ minus (every a f)
        → (let s = state_in core.old in
        state_in core.new ≡ with_terms core.old.plan.rule.mode a (offered_witness core.old.plan.rule.mode a (constant (witness w)) s) s)) }
    ensures stays { OnOk result (StaysRight core.old core.new) }
    ensures basis { OnOk result (BasisGrows core.old.tables.basis core.new.tables.basis) }
    ensures tables { OnOk result
        (core.new.tables ≡ record core.old.tables { basis = core.new.tables.basis; terms = core.new.tables.terms }) }
    ensures lasts { lasting core.new.tables ≡ lasting core.old.tables }
{
    let ty = denied_type(core.tables.alloc, &core.tables.basis, lit)?;
    if takes_witness(core, &ty) {
        offer_witness(core, &ty, w)?;
        return Ok(());
    }
    Ok(())
}
