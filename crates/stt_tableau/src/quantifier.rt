//! Quantified formulas, functions at new variables, and the rules for them: extensionality of functions, the quantifier, and choice.

ghost use Rattle.std.specs.Prelude.{◌≡◌, ◌↔◌, ◌<◌, ℕ, [], ◌∷◌, List, map, IfOk, IsTrue, option_map, Some, slice_get};
ghost use Rattle.stt_core.specs.SimpleType.{SimpleType, predicate};
ghost use Rattle.stt_core.specs.Lambda.{Lambda, constant, witness, lam, applied, every};
ghost use Rattle.stt_core.specs.Typing.{Scope};
ghost use Rattle.stt_core.specs.Canonical.{IsCanonical};
ghost use Rattle.stt_core.specs.View.{the_head, the_type};
ghost use Rattle.stt_core.specs.ScopeView.{the_scope};
ghost use Rattle.normal_forms.specs.Normal.{eta, apply};
ghost use Rattle.normal_forms.specs.Ready.{CanApply};
ghost use Rattle.tableau_calculus.specs.Literals.{as_literal, opposite, IsBranch};
ghost use Rattle.tableau_calculus.specs.Witnesses.{Row};
ghost use Rattle.tableau_calculus.specs.Internal.Heads.{quantified_by};
ghost use Rattle.stt_tableau.specs.Internal.Parts.{IsQuantified};
ghost use Rattle.tableau_calculus.specs.Rules.{at_new, agreement, nowhere, chosen};
ghost use Rattle.tableau_calculus.specs.Checks.{FindsInstance, IsTypedWith};
ghost use Rattle.stt_tableau.specs.Internal.Instances.{IsQuantifiedAt, IsRowOf, IsFunctionFrom, AreFunctionsFrom, IsPredicateOn, IsTypedSomewhere};
ghost use Rattle.tableau_calculus.specs.declared.rule_use.RuleUse.TheVariants.{AtOne, AllPos, WithPredicate};
ghost use Rattle.tableau_calculus.specs.declared.rule_use.OnePlace.TheVariants.{FunPos, FunNeg, AllNeg};
ghost use Rattle.tableau_calculus.specs.declared.rule_use.OfPredicate.TheVariants.{Cho};

use crate::alternatives::{Alternatives, either, one};
use crate::equation::equation_at;
use crate::formula::literal_of;
use std::alloc::{AllocError, Global};
use stt_core::{Head, Nf, Nfs, Signature, Ty, Types, same_nf, type_of_closed};
use stt_normal::{apply_nf, eta_long, lift_nf};
use tableau_calculus::{Lit, Lits, Rows, WitnessRow, is_typed_at};

/// The type that a quantifier ranges over, and the predicate that it holds of.
#[derive(Drop)]
pub struct Quantified<'a> {
    pub ty: &'a Ty,
    pub predicate: &'a Nf,
}

fn quantifier_type(head: &Head) -> Option<&Ty>
    ensures { option_map (λ ty. the_type ty.now) result ≡ quantified_by (the_head head.now) }
{
    match head {
        Head::Bound(_) => None,
        Head::Name(_) => None,
        Head::Wit(_) => None,
        Head::False => None,
        Head::Not => None,
        Head::Imp => None,
        Head::All(ty) => Some(ty),
        Head::Eq(_) => None,
        Head::Choice(_) => None,
        Head::Desc(_) => None,
    }
}

/// The parts of a quantified formula, where the term is one.
fn quantified_of(nf: &Nf) -> Option<Quantified<'_>>
    ensures { IsQuantified nf.now result }
{
    if nf.binders.len() > 0 {
        return None;
    }
    if nf.args.len() != 1 {
        return None;
    }
    match quantifier_type(&nf.head) {
        Some(ty) => Some(Quantified {
            ty,
            predicate: nf.args.at(0),
        }),
        None => None,
    }
}

/// The quantified formula of this sign at a place, where one stands there.
pub fn quantified_at(branch: &Lits, i: usize, positive: bool) -> Option<Quantified<'_>>
    ensures { IsQuantifiedAt branch.now i positive result }
{
    match branch.get(i) {
        Some(lit) => {
            if lit.positive == positive {
                quantified_of(&lit.atom)
            } else {
                None
            }
        }
        None => None,
    }
}

/// What a function gives at a new variable of its argument type.
pub fn at_new_variable(alloc: Global, ty: &Ty, f: &Nf) -> Result<Nf, AllocError>
    requires { IsFunctionFrom (the_type ty.now) f.now }
    ensures { IfOk result (λ nf. nf ≡ at_new (the_type ty.now) f.now) }
{
    let lifted = lift_nf(alloc, 1, 0, f)?;
    let variable = eta_long(alloc, ty, Head::Bound(0), Nfs::new(alloc))?;
    Ok(apply_nf(alloc, &lifted, &variable)?)
}

/// The function that takes the new variable to what a head gives with these arguments.
pub fn of_new_variable(alloc: Global, ty: &Ty, head: Head, args: Nfs) -> Result<Nf, AllocError>
    ensures { IfOk result (λ nf. nf ≡ lam (the_type ty.now) (applied (the_head head) args)) }
{
    let mut binders = Types::new(alloc);
    binders.push(ty.try_clone(alloc)?)?;
    Ok(Nf {
        binders,
        head,
        args,
    })
}

/// The formula that what a head gives with these arguments holds for each value of the new variable.
pub fn everywhere(alloc: Global, ty: &Ty, head: Head, args: Nfs) -> Result<Nf, AllocError>
    ensures { IfOk result (λ nf. nf ≡ every (the_type ty.now) (lam (the_type ty.now) (applied (the_head head) args))) }
{
    let mut predicates = Nfs::new(alloc);
    predicates.push(of_new_variable(alloc, ty, head, args)?)?;
    Ok(Nf {
        binders: Types::new(alloc),
        head: Head::All(ty.try_clone(alloc)?),
        args: predicates,
    })
}

/// The formula that two functions from the first type to the second agree everywhere.
fn agreement_of(alloc: Global, a: &Ty, b: &Ty, s: &Nf, t: &Nf) -> Result<Nf, AllocError>
    requires { AreFunctionsFrom (the_type a.now) s.now t.now }
    ensures { IfOk result (λ nf. nf ≡ agreement (the_type a.now) (the_type b.now) s.now t.now) }
{
    let mut sides = Nfs::new(alloc);
    sides.push(at_new_variable(alloc, a, s)?)?;
    sides.push(at_new_variable(alloc, a, t)?)?;
    Ok(everywhere(alloc, a, Head::Eq(b.try_clone(alloc)?), sides)?)
}

/// The formula that a predicate holds nowhere.
fn nowhere_of(alloc: Global, a: &Ty, f: &Nf) -> Result<Nf, AllocError>
    requires { IsFunctionFrom (the_type a.now) f.now }
    ensures { IfOk result (λ nf. nf ≡ nowhere (the_type a.now) f.now) }
{
    let mut denied = Nfs::new(alloc);
    denied.push(at_new_variable(alloc, a, f)?)?;
    Ok(everywhere(alloc, a, Head::Not, denied)?)
}

/// The literal of the formula that two functions agree everywhere.
fn agreement_literal(alloc: Global, a: &Ty, b: &Ty, s: &Nf, t: &Nf) -> Result<Lit, AllocError>
    requires { AreFunctionsFrom (the_type a.now) s.now t.now }
    ensures { IfOk result (λ l. l ≡ as_literal (agreement (the_type a.now) (the_type b.now) s.now t.now)) }
{
    let formula = agreement_of(alloc, a, b, s, t)?;
    Ok(literal_of(alloc, &formula)?)
}

/// The literal of what a predicate gives at an argument.
pub fn applied_literal(alloc: Global, f: &Nf, u: &Nf) -> Result<Lit, AllocError>
    requires { CanApply f.now u.now }
    ensures { IfOk result (λ l. l ≡ as_literal (apply f.now u.now)) }
{
    let formula = apply_nf(alloc, f, u)?;
    Ok(literal_of(alloc, &formula)?)
}

pub fn fun_pos_instance(
    alloc: Global,
    branch: &Lits,
    i: usize,
) -> Result<Option<Alternatives>, AllocError>
    requires { IsTypedSomewhere branch.now }
    ensures { IfOk result (λ a. (scope : Scope) (rows : List Row) → FindsInstance scope rows branch.now (AtOne FunPos i) a) }
{
    match equation_at(branch, i, true) {
        Some(equation) => match equation.ty {
            Ty::Arrow(a, b) => {
                let agree = agreement_literal(alloc, a, b, equation.left, equation.right)?;
                Ok(Some(one(alloc, agree)?))
            }
            Ty::Base(_) => Ok(None),
        },
        None => Ok(None),
    }
}

pub fn fun_neg_instance(
    alloc: Global,
    branch: &Lits,
    i: usize,
) -> Result<Option<Alternatives>, AllocError>
    requires { IsTypedSomewhere branch.now }
    ensures { IfOk result (λ a. (scope : Scope) (rows : List Row) → FindsInstance scope rows branch.now (AtOne FunNeg i) a) }
{
    match equation_at(branch, i, false) {
        Some(equation) => match equation.ty {
            Ty::Arrow(a, b) => {
                let agree = agreement_literal(alloc, a, b, equation.left, equation.right)?;
                Ok(Some(one(alloc, agree.opposite())?))
            }
            Ty::Base(_) => Ok(None),
        },
        None => Ok(None),
    }
}

pub fn all_pos_instance(
    alloc: Global,
    sig: &Signature,
    types: &Types,
    branch: &Lits,
    i: usize,
    u: &Nf,
) -> Result<Option<Alternatives>, AllocError>
    requires { IsBranch (the_scope sig.now types.now) branch.now }
    ensures { IfOk result (λ a. (rows : List Row) → FindsInstance (the_scope sig.now types.now) rows branch.now (AllPos i u.now) a) }
{
    match quantified_at(branch, i, true) {
        Some(quantified) => {
            if is_typed_at(alloc, sig, types, u, quantified.ty)? {
                let holds = applied_literal(alloc, quantified.predicate, u)?;
                Ok(Some(one(alloc, holds)?))
            } else {
                Ok(None)
            }
        }
        None => Ok(None),
    }
}

/// Whether the row has this type and this predicate.
fn is_row_of(row: &WitnessRow, quantified: &Quantified) -> bool
    ensures { IsTrue result ↔ row.now ≡ record { type = the_type quantified.now.ty.now; predicate = quantified.now.predicate.now } }
{
    if row.ty.same(quantified.ty) {
        same_nf(&row.predicate, quantified.predicate)
    } else {
        false
    }
}

/// The number of the witness whose row has this type and this predicate.
fn witness_of(rows: &Rows, quantified: &Quantified) -> Option<usize>
    ensures { IsRowOf rows.now (the_type quantified.now.ty.now) quantified.now.predicate.now result }
{
    for k in 0..rows.len() {
        if is_row_of(rows.at(k), quantified) {
            return Some(k);
        }
    }
    None
}

/// The eta-long form of a witness of this type.
fn witness_at(alloc: Global, k: usize, ty: &Ty) -> Result<Nf, AllocError>
    ensures { IfOk result (λ nf. nf ≡ eta (the_type ty.now) (constant (witness k))) }
{
    match u32::try_from(k) {
        Ok(k) => Ok(eta_long(alloc, ty, Head::Wit(k), Nfs::new(alloc))?),
        Err(_) => Err(AllocError),
    }
}

/// The literal that a predicate holds of a witness.
fn witness_literal(alloc: Global, k: usize, ty: &Ty, f: &Nf) -> Result<Lit, AllocError>
    requires { CanApply f.now (eta (the_type ty.now) (constant (witness k))) }
    ensures { IfOk result (λ l. l ≡ as_literal (apply f.now (eta (the_type ty.now) (constant (witness k))))) }
{
    let value = witness_at(alloc, k, ty)?;
    Ok(applied_literal(alloc, f, &value)?)
}

/// The alternative of the rule for a negated quantified formula: its predicate doesn't hold of the witness of this number.
pub fn denied_of_witness(
    alloc: Global,
    quantified: &Quantified,
    k: usize,
) -> Result<Alternatives, AllocError>
    requires { CanApply quantified.now.predicate.now (eta (the_type quantified.now.ty.now) (constant (witness k))) }
    ensures { IfOk result
        (λ a. a ≡ (opposite (as_literal (apply quantified.now.predicate.now (eta (the_type quantified.now.ty.now) (constant (witness k)))))
        ∷ []) ∷ []) }
{
    let holds = witness_literal(alloc, k, quantified.ty, quantified.predicate)?;
    Ok(one(alloc, holds.opposite())?)
}

pub fn all_neg_instance(
    alloc: Global,
    rows: &Rows,
    branch: &Lits,
    i: usize,
) -> Result<Option<Alternatives>, AllocError>
    requires { IsTypedWith rows.now branch.now }
    ensures { IfOk result (λ a. (scope : Scope) → FindsInstance scope rows.now branch.now (AtOne AllNeg i) a) }
{
    match quantified_at(branch, i, false) {
        Some(quantified) => match witness_of(rows, &quantified) {
            Some(k) => Ok(Some(denied_of_witness(alloc, &quantified, k)?)),
            None => Ok(None),
        },
        None => Ok(None),
    }
}

/// What is chosen by a predicate on a type.
fn chosen_by(alloc: Global, ty: &Ty, f: &Nf) -> Result<Nf, AllocError>
    ensures { IfOk result (λ nf. nf ≡ chosen (the_type ty.now) f.now) }
{
    let mut args = Nfs::new(alloc);
    args.push(f.try_clone(alloc)?)?;
    Ok(eta_long(alloc, ty, Head::Choice(ty.try_clone(alloc)?), args)?)
}

/// The literal that a predicate holds nowhere.
pub fn nowhere_literal(alloc: Global, ty: &Ty, f: &Nf) -> Result<Lit, AllocError>
    requires { IsFunctionFrom (the_type ty.now) f.now }
    ensures { IfOk result (λ l. l ≡ as_literal (nowhere (the_type ty.now) f.now)) }
{
    let formula = nowhere_of(alloc, ty, f)?;
    Ok(literal_of(alloc, &formula)?)
}

/// The literal that a predicate holds of what is chosen by it.
fn chosen_literal(alloc: Global, ty: &Ty, f: &Nf) -> Result<Lit, AllocError>
    requires { CanApply f.now (chosen (the_type ty.now) f.now) }
    ensures { IfOk result (λ l. l ≡ as_literal (apply f.now (chosen (the_type ty.now) f.now))) }
{
    let value = chosen_by(alloc, ty, f)?;
    Ok(applied_literal(alloc, f, &value)?)
}

/// That a predicate holds nowhere, or that it holds of what is chosen by it.
fn nowhere_or_chosen(alloc: Global, ty: &Ty, f: &Nf) -> Result<Alternatives, AllocError>
    requires { IsPredicateOn (the_type ty.now) f.now }
    ensures { IfOk result (λ a. a ≡ (as_literal (nowhere (the_type ty.now) f.now) ∷ [])
        ∷ (as_literal (apply f.now (chosen (the_type ty.now) f.now)) ∷ []) ∷ []) }
{
    let none = nowhere_literal(alloc, ty, f)?;
    let some = chosen_literal(alloc, ty, f)?;
    Ok(either(alloc, none, some)?)
}

pub fn cho_instance(
    alloc: Global,
    sig: &Signature,
    types: &Types,
    branch: &Lits,
    f: &Nf,
) -> Result<Option<Alternatives>, AllocError>
    requires { (a : SimpleType) × IsCanonical (the_scope sig.now types.now) [] (predicate a) f.now }
    ensures { IfOk result (λ a. (rows : List Row) → FindsInstance (the_scope sig.now types.now) rows branch.now (WithPredicate Cho f.now)
        a) }
{
    match type_of_closed(alloc, sig, types, f)? {
        Some(Ty::Arrow(a, _)) => Ok(Some(nowhere_or_chosen(alloc, &a, f)?)),
        Some(Ty::Base(_)) => Ok(None),
        None => Ok(None),
    }
}
