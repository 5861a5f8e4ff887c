//! The first terms of base types.
ghost use Rattle.std.specs.Prelude.{◌≡◌, ◌<◌, true, length, map, IfOk, OnOk};
ghost use Rattle.stt_core.specs.SimpleType.{base, is_declared};
ghost use Rattle.stt_core.specs.Lambda.{falsity, choice, constant, lam, app, neg};
ghost use Rattle.stt_core.specs.View.{the_type};
ghost use Rattle.term_bank.specs.Content.{HasTerm};
ghost use Rattle.term_bank.specs.Terms.{term_at};
ghost use Rattle.tableau_calculus.specs.Each.{Each};
ghost use Rattle.search_spec.specs.Preparing.{with_beginning};
ghost use Rattle.search_spec.specs.Terms.{first_terms, with_terms};
ghost use Rattle.prover_state.specs.Lasting.{declarations_of, lasting};
ghost use Rattle.prover_state.specs.Internal.Growing.{BasisGrows};
ghost use Rattle.prover_state.specs.Internal.Names.{IsPlace};
ghost use Rattle.prover_state.specs.Internal.Standing.{IsBasis, IsRightState};
ghost use Rattle.prover_state.specs.Internal.Advancing.{state_in, setting_in, StaysRight};

use command_queue::Weigher;
use prover_state::{Basis, Core, Waiting};
use std::alloc::{AllocError, Global};
use stt_core::{Head, Ty};
use term_bank::{Id, Ids};

/// Falsity, in the bank.
fn falsity_in(basis: &mut Basis) -> Result<Id, AllocError>
    requires good { IsBasis basis.old }
    ensures term { IfOk result (λ id. HasTerm basis.new.bank id (constant falsity)) }
    ensures good { OnOk result (IsBasis basis.new) }
    ensures grows { OnOk result (BasisGrows basis.old basis.new) }
    ensures declared { declarations_of basis.new ≡ declarations_of basis.old }
{
    let none: [Id; 0] = [];
    Ok(basis.bank.intern_app(&Head::False, &none)?)
}

/// The negation of falsity, in the bank.
fn truth_in(basis: &mut Basis, bottom: Id) -> Result<Id, AllocError>
    requires good { IsBasis basis.old }
    requires falsity { HasTerm basis.old.bank bottom (constant falsity) }
    ensures term { IfOk result (λ id. HasTerm basis.new.bank id (neg (constant falsity))) }
    ensures good { OnOk result (IsBasis basis.new) }
    ensures grows { OnOk result (BasisGrows basis.old basis.new) }
    ensures declared { declarations_of basis.new ≡ declarations_of basis.old }
{
    Ok(basis.bank.intern_app(&Head::Not, &[bottom])?)
}

/// The predicate on a base type that holds of nothing, in the bank.
fn empty_predicate(basis: &mut Basis, bottom: Id, n: u32) -> Result<Id, AllocError>
    requires good { IsBasis basis.old }
    requires falsity { HasTerm basis.old.bank bottom (constant falsity) }
    requires declared { is_declared (length basis.old.bank.bases) (base n) ≡ true }
    ensures term { IfOk result (λ id. HasTerm basis.new.bank id (lam (base n) (constant falsity))) }
    ensures good { OnOk result (IsBasis basis.new) }
    ensures grows { OnOk result (BasisGrows basis.old basis.new) }
    ensures declared { declarations_of basis.new ≡ declarations_of basis.old }
{
    Ok(basis.bank.intern_lam(&Ty::Base(n), bottom)?)
}

/// What is chosen by the predicate on a base type that holds of nothing, in the bank.
fn chosen_by_empty(basis: &mut Basis, empty: Id, n: u32) -> Result<Id, AllocError>
    requires good { IsBasis basis.old }
    requires empty { HasTerm basis.old.bank empty (lam (base n) (constant falsity)) }
    requires declared { is_declared (length basis.old.bank.bases) (base n) ≡ true }
    ensures term { IfOk result (λ id. HasTerm basis.new.bank id (app (constant (choice (base n))) (lam (base n) (constant falsity)))) }
    ensures good { OnOk result (IsBasis basis.new) }
    ensures grows { OnOk result (BasisGrows basis.old basis.new) }
    ensures declared { declarations_of basis.new ≡ declarations_of basis.old }
{
    Ok(basis.bank.intern_app(&Head::Choice(Ty::Base(n)), &[empty])?)
}

/// The first terms of formulas.
fn first_formulas(alloc: Global, basis: &mut Basis) -> Result<Ids, AllocError>
    requires good { IsBasis basis.old }
    ensures terms { IfOk result (λ ids. map (term_at basis.new.bank.terms) ids ≡ first_terms (base 0)) }
    ensures places { IfOk result (λ ids. Each (IsPlace basis.new.bank.terms) ids) }
    ensures good { OnOk result (IsBasis basis.new) }
    ensures grows { OnOk result (BasisGrows basis.old basis.new) }
    ensures declared { declarations_of basis.new ≡ declarations_of basis.old }
{
    let bottom = falsity_in(basis)?;
    let truth = truth_in(basis, bottom)?;
    let ids = Ids::from_slice(alloc, &[bottom, truth])?;
    Ok(ids)
}

/// The first terms of a base type other than that of formulas.
fn first_values(alloc: Global, basis: &mut Basis, n: u32) -> Result<Ids, AllocError>
    requires good { IsBasis basis.old }
    requires other { 0 < n }
    requires declared { is_declared (length basis.old.bank.bases) (base n) ≡ true }
    ensures terms { IfOk result (λ ids. map (term_at basis.new.bank.terms) ids ≡ first_terms (base n)) }
    ensures places { IfOk result (λ ids. Each (IsPlace basis.new.bank.terms) ids) }
    ensures good { OnOk result (IsBasis basis.new) }
    ensures grows { OnOk result (BasisGrows basis.old basis.new) }
    ensures declared { declarations_of basis.new ≡ declarations_of basis.old }
{
    let bottom = falsity_in(basis)?;
    let empty = empty_predicate(basis, bottom, n)?;
    let chosen = chosen_by_empty(basis, empty, n)?;
    let ids = Ids::from_slice(alloc, &[chosen])?;
    Ok(ids)
}

/// The first terms of a base type.
fn first_terms_of(alloc: Global, basis: &mut Basis, n: u32) -> Result<Ids, AllocError>
    requires good { IsBasis basis.old }
    requires declared { is_declared (length basis.old.bank.bases) (base n) ≡ true }
    ensures terms { IfOk result (λ ids. map (term_at basis.new.bank.terms) ids ≡ first_terms (base n)) }
    ensures places { IfOk result (λ ids. Each (IsPlace basis.new.bank.terms) ids) }
    ensures good { OnOk result (IsBasis basis.new) }
    ensures grows { OnOk result (BasisGrows basis.old basis.new) }
    ensures declared { declarations_of basis.new ≡ declarations_of basis.old }
{
    if n == 0 {
        return Ok(first_formulas(alloc, basis)?);
    }
    Ok(first_values(alloc, basis, n)?)
}

/// Terms of a type are for instances, one after the other.
fn add_terms<W: Weigher<Waiting>>(core: &mut Core<W>, ty: &Ty, ids: &Ids) -> Result<(), AllocError>
    requires right { IsRightState core.old.tables core.old.plan }
    requires places { Each (IsPlace core.old.tables.basis.bank.terms) ids.now }
    ensures state { OnOk result (state_in core.new
        ≡ with_terms core.old.plan.rule.mode (the_type ty.now) (map (term_at core.old.tables.basis.bank.terms) ids.now) (state_in core.old)) }
    ensures stays { OnOk result (StaysRight core.old core.new) }
    ensures tables { OnOk result (core.new.tables ≡ record core.old.tables { terms = core.new.tables.terms }) }
    ensures lasts { lasting core.new.tables ≡ lasting core.old.tables }
{
    for i in 0..ids.len() {
        core.add_term(ty, ids.at(i))?;
    }
    Ok(())
}

/// A base type gets its first terms.
pub(crate) fn begin_base<W: Weigher<Waiting>>(core: &mut Core<W>, n: u32) -> Result<(), AllocError>
    requires right { IsRightState core.old.tables core.old.plan }
    requires declared { is_declared (length core.old.tables.basis.bank.bases) (base n) ≡ true }
    ensures state { OnOk result (state_in core.new ≡ with_beginning (setting_in core.old) (base n) (state_in core.old)) }
    ensures stays { OnOk result (StaysRight core.old core.new) }
    ensures basis { OnOk result (BasisGrows core.old.tables.basis core.new.tables.basis) }
    ensures tables { OnOk result
        (core.new.tables ≡ record core.old.tables { basis = core.new.tables.basis; terms = core.new.tables.terms }) }
    ensures lasts { lasting core.new.tables ≡ lasting core.old.tables }
{
    let ty = Ty::Base(n);
    let first = first_terms_of(core.tables.alloc, &mut core.tables.basis, n)?;
    add_terms(core, &ty, &first)?;
    Ok(())
}
