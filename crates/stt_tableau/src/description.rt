//! The rule for descriptions.

ghost use Rattle.std.specs.Prelude.{◌≡◌, [], ◌∷◌, List, IfOk};
ghost use Rattle.stt_core.specs.SimpleType.{SimpleType, predicate};
ghost use Rattle.stt_core.specs.Lambda.{bound, imp, eq};
ghost use Rattle.stt_core.specs.Canonical.{IsCanonical};
ghost use Rattle.stt_core.specs.View.{the_type};
ghost use Rattle.stt_core.specs.ScopeView.{the_scope};
ghost use Rattle.normal_forms.specs.Normal.{eta, apply};
ghost use Rattle.normal_forms.specs.Ready.{CanApply};
ghost use Rattle.tableau_calculus.specs.Literals.{as_literal, opposite};
ghost use Rattle.tableau_calculus.specs.Witnesses.{Row};
ghost use Rattle.tableau_calculus.specs.Rules.{nowhere, at_outer, at_inner, at_most_once, described};
ghost use Rattle.tableau_calculus.specs.Checks.{FindsInstance};
ghost use Rattle.stt_tableau.specs.Internal.Instances.{IsFunctionFrom, IsPredicateOn};
ghost use Rattle.tableau_calculus.specs.declared.rule_use.RuleUse.TheVariants.{WithPredicate};
ghost use Rattle.tableau_calculus.specs.declared.rule_use.OfPredicate.TheVariants.{Des};

use crate::alternatives::{Alternatives, any_of_three};
use crate::formula::literal_of;
use crate::quantifier::{
    applied_literal, at_new_variable, everywhere, nowhere_literal, of_new_variable,
};
use std::alloc::{AllocError, Global};
use stt_core::{Head, Nf, Nfs, Signature, Ty, Types, type_of_closed};
use stt_normal::{eta_long, lift_nf};
use tableau_calculus::{Lit, Lits};

/// What a predicate gives at the outer one of two new variables.
fn at_outer_variable(alloc: Global, ty: &Ty, f: &Nf) -> Result<Nf, AllocError>
    requires { IsFunctionFrom (the_type ty.now) f.now }
    ensures { IfOk result (λ nf. nf ≡ at_outer (the_type ty.now) f.now) }
{
    let once = at_new_variable(alloc, ty, f)?;
    Ok(lift_nf(alloc, 1, 0, &once)?)
}

/// What a predicate gives at the inner one of two new variables.
fn at_inner_variable(alloc: Global, ty: &Ty, f: &Nf) -> Result<Nf, AllocError>
    requires { IsFunctionFrom (the_type ty.now) f.now }
    ensures { IfOk result (λ nf. nf ≡ at_inner (the_type ty.now) f.now) }
{
    let lifted = lift_nf(alloc, 1, 0, f)?;
    Ok(at_new_variable(alloc, ty, &lifted)?)
}

/// The formula that two new variables are the same.
fn same_variables(alloc: Global, ty: &Ty) -> Result<Nf, AllocError>
    ensures { IfOk result (λ nf. nf ≡ eq (the_type ty.now) (eta (the_type ty.now) (bound 1)) (eta (the_type ty.now) (bound 0))) }
{
    let mut args = Nfs::new(alloc);
    args.push(eta_long(alloc, ty, Head::Bound(1), Nfs::new(alloc))?)?;
    args.push(eta_long(alloc, ty, Head::Bound(0), Nfs::new(alloc))?)?;
    Ok(Nf {
        binders: Types::new(alloc),
        head: Head::Eq(ty.try_clone(alloc)?),
        args,
    })
}

fn implication(alloc: Global, s: Nf, t: Nf) -> Result<Nf, AllocError>
    ensures { IfOk result (λ nf. nf ≡ imp s t) }
{
    let mut args = Nfs::new(alloc);
    args.push(s)?;
    args.push(t)?;
    Ok(Nf {
        binders: Types::new(alloc),
        head: Head::Imp,
        args,
    })
}

/// The formula that a predicate holds of one value at most.
fn at_most_once_of(alloc: Global, ty: &Ty, f: &Nf) -> Result<Nf, AllocError>
    requires { IsFunctionFrom (the_type ty.now) f.now }
    ensures { IfOk result (λ nf. nf ≡ at_most_once (the_type ty.now) f.now) }
{
    let inner = at_inner_variable(alloc, ty, f)?;
    let mut sides = Nfs::new(alloc);
    sides.push(at_outer_variable(alloc, ty, f)?)?;
    sides.push(implication(alloc, inner, same_variables(alloc, ty)?)?)?;
    let mut predicates = Nfs::new(alloc);
    predicates.push(of_new_variable(alloc, ty, Head::Imp, sides)?)?;
    Ok(everywhere(alloc, ty, Head::All(ty.try_clone(alloc)?), predicates)?)
}

/// The literal that a predicate doesn't hold of one value at most.
fn repeated_literal(alloc: Global, ty: &Ty, f: &Nf) -> Result<Lit, AllocError>
    requires { IsFunctionFrom (the_type ty.now) f.now }
    ensures { IfOk result (λ l. l ≡ opposite (as_literal (at_most_once (the_type ty.now) f.now))) }
{
    let formula = at_most_once_of(alloc, ty, f)?;
    let once = literal_of(alloc, &formula)?;
    Ok(once.opposite())
}

/// What a predicate on a type describes.
fn described_by(alloc: Global, ty: &Ty, f: &Nf) -> Result<Nf, AllocError>
    ensures { IfOk result (λ nf. nf ≡ described (the_type ty.now) f.now) }
{
    let mut args = Nfs::new(alloc);
    args.push(f.try_clone(alloc)?)?;
    Ok(eta_long(alloc, ty, Head::Desc(ty.try_clone(alloc)?), args)?)
}

/// The literal that a predicate holds of what it describes.
fn described_literal(alloc: Global, ty: &Ty, f: &Nf) -> Result<Lit, AllocError>
    requires { CanApply f.now (described (the_type ty.now) f.now) }
    ensures { IfOk result (λ l. l ≡ as_literal (apply f.now (described (the_type ty.now) f.now))) }
{
    let value = described_by(alloc, ty, f)?;
    Ok(applied_literal(alloc, f, &value)?)
}

/// That a predicate holds nowhere, that it holds of more than one value, or that it holds of what it describes.
fn nowhere_repeated_or_described(alloc: Global, ty: &Ty, f: &Nf) -> Result<Alternatives, AllocError>
    requires { IsPredicateOn (the_type ty.now) f.now }
    ensures { IfOk result (λ a. a ≡ (as_literal (nowhere (the_type ty.now) f.now) ∷ [])
        ∷ (opposite (as_literal (at_most_once (the_type ty.now) f.now)) ∷ []) ∷ (as_literal
        (apply f.now (described (the_type ty.now) f.now)) ∷ []) ∷ []) }
{
    let none = nowhere_literal(alloc, ty, f)?;
    let more = repeated_literal(alloc, ty, f)?;
    let one = described_literal(alloc, ty, f)?;
    Ok(any_of_three(alloc, none, more, one)?)
}

pub fn des_instance(
    alloc: Global,
    sig: &Signature,
    types: &Types,
    branch: &Lits,
    f: &Nf,
) -> Result<Option<Alternatives>, AllocError>
    requires { (a : SimpleType) × IsCanonical (the_scope sig.now types.now) [] (predicate a) f.now }
    ensures { IfOk result (λ a. (rows : List Row) → FindsInstance (the_scope sig.now types.now) rows branch.now (WithPredicate Des f.now)
        a) }
{
    match type_of_closed(alloc, sig, types, f)? {
        Some(Ty::Arrow(a, _)) => Ok(Some(nowhere_repeated_or_described(alloc, &a, f)?)),
        Some(Ty::Base(_)) => Ok(None),
        None => Ok(None),
    }
}
