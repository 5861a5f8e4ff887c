//! The rules for what is chosen and what is described by a predicate.
ghost use Rattle.std.specs.Prelude.{◌≡◌, ◌<◌, [], List, length, IfOk, true, option_map};
ghost use Rattle.stt_core.specs.SimpleType.{is_declared};
ghost use Rattle.stt_core.specs.Lambda.{app, bound, imp, eq};
ghost use Rattle.stt_core.specs.View.{the_type, the_head};
ghost use Rattle.normal_forms.specs.Normal.{eta, apply};
ghost use Rattle.tableau_calculus.specs.Rules.{at_outer, at_inner, at_most_once};
ghost use Rattle.tableau_calculus.specs.Witnesses.{Row};
ghost use Rattle.tableau_calculus.specs.declared.rule_use.OfPredicate.TheVariants.{Cho, Des};
ghost use Rattle.tableau_calculus.specs.declared.rule_use.RuleUse.TheVariants.{WithPredicate};
ghost use Rattle.term_bank.specs.Content.{content_scope, Grows, HasTerm};
ghost use Rattle.term_bank.specs.Terms.{term_at};
ghost use Rattle.bank_normal.specs.Right.{IsRightNormaliser};
ghost use Rattle.tableau_rules.specs.Internal.Drafted.{Drafted};
ghost use Rattle.tableau_rules.specs.Internal.Typed.{IsPredicate, IsPredicateType, IsOperator};

use crate::draft::{Drafts, any_of_three, either, fails, holds};
use crate::function::{at_new_variable, everywhere, nowhere_of};
use bank_normal::Normaliser;
use std::alloc::{AllocError, Global};
use stt_core::{Context, Head, Ty};
use term_bank::{Bank, Id};

/// The type that the predicate is one on, where the term is a closed predicate.
fn predicate_type(alloc: Global, bank: &Bank, f: Id) -> Result<Option<Ty>, AllocError>
    requires { f < length bank.now.terms }
    ensures { IfOk result (λ o. IsPredicateType bank.now f (option_map the_type o)) }
{
    if !bank.is_closed(f) {
        return Ok(None);
    }
    match &bank.ty(f)? {
        Ty::Arrow(argument, outcome) => {
            if outcome.same(&Ty::Base(0)) {
                Ok(Some(argument.try_clone(alloc)?))
            } else {
                Ok(None)
            }
        }
        Ty::Base(_) => Ok(None),
    }
}

/// The formula that a predicate holds of what an operator on predicates gives for it.
fn holds_of_picked(
    bank: &mut Bank,
    normal: &mut Normaliser,
    operator: &Head,
    ty: &Ty,
    f: Id,
) -> Result<Id, AllocError>
    requires operator { IsOperator (the_type ty.now) (the_head operator.now) }
    requires predicate { IsPredicate bank.old (the_type ty.now) f }
    requires right { IsRightNormaliser normal.old bank.old }
    ensures term { IfOk result
        (λ id. HasTerm bank.new id
        (apply (term_at bank.old.terms f) (eta (the_type ty.now) (app (the_head operator.now) (term_at bank.old.terms f))))) }
    ensures grows { Grows bank.old bank.new }
    ensures right { IsRightNormaliser normal.new bank.new }
{
    match bank.head_type(&Context::Empty, operator)? {
        Some(operator_type) => {
            let function = normal.eta(bank, operator, &operator_type)?;
            let picked = normal.instantiate(bank, function, f)?;
            Ok(normal.instantiate(bank, f, picked)?)
        }
        None => unreachable!(),
    }
}

pub(crate) fn cho_drafts(
    alloc: Global,
    bank: &mut Bank,
    normal: &mut Normaliser,
    f: Id,
) -> Result<Option<Drafts>, AllocError>
    requires term { f < length bank.old.terms }
    requires right { IsRightNormaliser normal.old bank.old }
    ensures drafted { IfOk result (λ o. (rows : List Row) → Drafted bank.new rows [] (WithPredicate Cho (term_at bank.old.terms f)) o) }
    ensures grows { Grows bank.old bank.new }
    ensures right { IsRightNormaliser normal.new bank.new }
{
    match predicate_type(alloc, &*bank, f)? {
        Some(ty) => {
            let operator = Head::Choice(ty.try_clone(alloc)?);
            let none = nowhere_of(alloc, bank, &ty, f)?;
            let value = holds_of_picked(bank, normal, &operator, &ty, f)?;
            Ok(Some(either(alloc, holds(none), holds(value))?))
        }
        None => Ok(None),
    }
}

/// What a predicate gives at the outer one of two new variables.
fn at_outer_variable(
    bank: &mut Bank,
    normal: &mut Normaliser,
    ty: &Ty,
    f: Id,
) -> Result<Id, AllocError>
    requires predicate { IsPredicate bank.old (the_type ty.now) f }
    requires right { IsRightNormaliser normal.old bank.old }
    ensures term { IfOk result (λ id. HasTerm bank.new id (at_outer (the_type ty.now) (term_at bank.old.terms f))) }
    ensures grows { Grows bank.old bank.new }
    ensures right { IsRightNormaliser normal.new bank.new }
{
    let variable = normal.eta(bank, &Head::Bound(1), ty)?;
    Ok(normal.instantiate(bank, f, variable)?)
}

/// The formula that two new variables are the same.
fn same_variables(
    alloc: Global,
    bank: &mut Bank,
    normal: &mut Normaliser,
    ty: &Ty,
) -> Result<Id, AllocError>
    requires declared { is_declared (content_scope bank.old).bases (the_type ty.now) ≡ true }
    requires right { IsRightNormaliser normal.old bank.old }
    ensures term { IfOk result
        (λ id. HasTerm bank.new id (eq (the_type ty.now) (eta (the_type ty.now) (bound 1)) (eta (the_type ty.now) (bound 0)))) }
    ensures grows { Grows bank.old bank.new }
    ensures right { IsRightNormaliser normal.new bank.new }
{
    let head = Head::Eq(ty.try_clone(alloc)?);
    let outer = normal.eta(bank, &Head::Bound(1), ty)?;
    let inner = normal.eta(bank, &Head::Bound(0), ty)?;
    Ok(bank.intern_app(&head, &[outer, inner])?)
}

/// The formula that two new variables are the same where a predicate holds of both.
fn both_same(
    alloc: Global,
    bank: &mut Bank,
    normal: &mut Normaliser,
    ty: &Ty,
    f: Id,
) -> Result<Id, AllocError>
    requires predicate { IsPredicate bank.old (the_type ty.now) f }
    requires right { IsRightNormaliser normal.old bank.old }
    ensures term { IfOk result
        (λ id. HasTerm bank.new id (imp (at_outer (the_type ty.now) (term_at bank.old.terms f))
        (imp (at_inner (the_type ty.now) (term_at bank.old.terms f)) (eq (the_type ty.now) (eta (the_type ty.now) (bound 1))
        (eta (the_type ty.now) (bound 0)))))) }
    ensures grows { Grows bank.old bank.new }
    ensures right { IsRightNormaliser normal.new bank.new }
{
    let outer = at_outer_variable(bank, normal, ty, f)?;
    let inner = at_new_variable(&*bank, f);
    let same = same_variables(alloc, bank, normal, ty)?;
    let then = bank.intern_app(&Head::Imp, &[inner, same])?;
    Ok(bank.intern_app(&Head::Imp, &[outer, then])?)
}

/// The formula that a predicate holds of one value at most.
fn at_most_once_of(
    alloc: Global,
    bank: &mut Bank,
    normal: &mut Normaliser,
    ty: &Ty,
    f: Id,
) -> Result<Id, AllocError>
    requires predicate { IsPredicate bank.old (the_type ty.now) f }
    requires right { IsRightNormaliser normal.old bank.old }
    ensures term { IfOk result (λ id. HasTerm bank.new id (at_most_once (the_type ty.now) (term_at bank.old.terms f))) }
    ensures grows { Grows bank.old bank.new }
    ensures right { IsRightNormaliser normal.new bank.new }
{
    let both = both_same(alloc, bank, normal, ty, f)?;
    let of_inner = everywhere(alloc, bank, ty, both)?;
    Ok(everywhere(alloc, bank, ty, of_inner)?)
}

pub(crate) fn des_drafts(
    alloc: Global,
    bank: &mut Bank,
    normal: &mut Normaliser,
    f: Id,
) -> Result<Option<Drafts>, AllocError>
    requires term { f < length bank.old.terms }
    requires right { IsRightNormaliser normal.old bank.old }
    ensures drafted { IfOk result (λ o. (rows : List Row) → Drafted bank.new rows [] (WithPredicate Des (term_at bank.old.terms f)) o) }
    ensures grows { Grows bank.old bank.new }
    ensures right { IsRightNormaliser normal.new bank.new }
{
    match predicate_type(alloc, &*bank, f)? {
        Some(ty) => {
            let operator = Head::Desc(ty.try_clone(alloc)?);
            let none = nowhere_of(alloc, bank, &ty, f)?;
            let once = at_most_once_of(alloc, bank, normal, &ty, f)?;
            let value = holds_of_picked(bank, normal, &operator, &ty, f)?;
            Ok(Some(any_of_three(alloc, holds(none), fails(once), holds(value))?))
        }
        None => Ok(None),
    }
}
