//! Whether what a refutation holds is typed.

ghost use Rattle.std.specs.Prelude.{◌≡◌, ◌↔◌, [], IfOk, IsTrue, option_map};
ghost use Rattle.stt_core.specs.SimpleType.{SimpleType, predicate};
ghost use Rattle.stt_core.specs.View.{the_type};
ghost use Rattle.stt_core.specs.ScopeView.{the_scope};
ghost use Rattle.stt_core.specs.Canonical.{IsCanonical};
ghost use Rattle.tableau_calculus.specs.Literals.{IsLiteral, IsBranch};
ghost use Rattle.tableau_calculus.specs.Accepted.{IsTypedUse};

use crate::lit::{Lit, Lits};
use crate::refutation::{PlainRule, WitnessRow};
use crate::rule_use::RuleUse;
use std::alloc::{AllocError, Global};
use stt_core::{Nf, Signature, Ty, Types, type_of_closed};

fn is_type(found: Option<Ty>, ty: &Ty) -> bool
    ensures { IsTrue result ↔ option_map the_type found ≡ Some (the_type ty.now) }
{
    match found {
        Some(found) => found.same(ty),
        None => false,
    }
}

fn is_predicate_on(found: Option<Ty>, ty: &Ty) -> bool
    ensures { IsTrue result ↔ option_map the_type found ≡ Some (predicate (the_type ty.now)) }
{
    match found {
        Some(Ty::Arrow(argument, outcome)) => argument.same(ty) && outcome.same(&Ty::Base(0)),
        Some(Ty::Base(_)) => false,
        None => false,
    }
}

fn is_predicate(found: Option<Ty>) -> bool
    ensures { IsTrue result ↔ ((a : SimpleType) × (option_map the_type found ≡ Some (predicate a))) }
{
    match found {
        Some(Ty::Arrow(_, outcome)) => outcome.same(&Ty::Base(0)),
        Some(Ty::Base(_)) => false,
        None => false,
    }
}

/// Whether the term is closed, canonical and of this type, over the signature and witnesses of these types.
pub fn is_typed_at(
    alloc: Global,
    sig: &Signature,
    types: &Types,
    nf: &Nf,
    ty: &Ty,
) -> Result<bool, AllocError>
    ensures { IfOk result (λ b. IsTrue b ↔ IsCanonical (the_scope sig.now types.now) [] (the_type ty.now) nf.now) }
{
    let found = type_of_closed(alloc, sig, types, nf)?;
    Ok(is_type(found, ty))
}

/// Whether the literal is one over the signature and witnesses of these types.
pub fn is_typed_literal(
    alloc: Global,
    sig: &Signature,
    types: &Types,
    lit: &Lit,
) -> Result<bool, AllocError>
    ensures { IfOk result (λ b. IsTrue b ↔ IsLiteral (the_scope sig.now types.now) lit.now) }
{
    let found = type_of_closed(alloc, sig, types, &lit.atom)?;
    Ok(is_type(found, &Ty::Base(0)))
}

/// Whether each literal of the branch is typed.
pub fn is_typed_branch(
    alloc: Global,
    sig: &Signature,
    types: &Types,
    branch: &Lits,
) -> Result<bool, AllocError>
    ensures { IfOk result (λ b. IsTrue b ↔ IsBranch (the_scope sig.now types.now) branch.now) }
{
    for i in 0..branch.len() {
        let typed = is_typed_literal(alloc, sig, types, branch.at(i))?;
        if !typed {
            return Ok(false);
        }
    }
    Ok(true)
}

fn has_some_type(alloc: Global, sig: &Signature, types: &Types, nf: &Nf) -> Result<bool, AllocError>
    ensures { IfOk result (λ b. IsTrue b ↔ ((a : SimpleType) × IsCanonical (the_scope sig.now types.now) [] a nf.now)) }
{
    let found = type_of_closed(alloc, sig, types, nf)?;
    Ok(found.is_some())
}

fn is_typed_predicate(
    alloc: Global,
    sig: &Signature,
    types: &Types,
    nf: &Nf,
) -> Result<bool, AllocError>
    ensures { IfOk result (λ b. IsTrue b ↔ ((a : SimpleType) × IsCanonical (the_scope sig.now types.now) [] (predicate a) nf.now)) }
{
    let found = type_of_closed(alloc, sig, types, nf)?;
    Ok(is_predicate(found))
}

/// Whether what the rule takes beside its principals is typed.
pub fn is_typed_use(
    alloc: Global,
    sig: &Signature,
    types: &Types,
    rule: &PlainRule,
) -> Result<bool, AllocError>
    ensures { IfOk result (λ b. IsTrue b ↔ IsTypedUse (the_scope sig.now types.now) rule.now) }
{
    match rule {
        RuleUse::AtOne(_, _) => Ok(true),
        RuleUse::AtTwo(_, _, _) => Ok(true),
        RuleUse::AllPos(_, term) => Ok(has_some_type(alloc, sig, types, term)?),
        RuleUse::WithPredicate(_, term) => Ok(is_typed_predicate(alloc, sig, types, term)?),
        RuleUse::Cut(lit) => Ok(is_typed_literal(alloc, sig, types, lit)?),
    }
}

/// Whether the row's predicate is typed over the signature and earlier witnesses of these types.
pub fn is_typed_row(
    alloc: Global,
    sig: &Signature,
    types: &Types,
    row: &WitnessRow,
) -> Result<bool, AllocError>
    ensures { IfOk result (λ b. IsTrue b ↔ IsCanonical (the_scope sig.now types.now) [] (predicate row.now.type) row.now.predicate) }
{
    let found = type_of_closed(alloc, sig, types, &row.predicate)?;
    Ok(is_predicate_on(found, &row.ty))
}
