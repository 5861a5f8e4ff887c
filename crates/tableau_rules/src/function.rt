//! Functions at new variables, and the rules for equations between functions.
ghost use Rattle.std.specs.Prelude.{◌≡◌, ◌<◌, [], ◌∷◌, List, length, IfOk};
ghost use Rattle.stt_core.specs.View.{the_type};
ghost use Rattle.stt_core.specs.Lambda.{every, lam};
ghost use Rattle.tableau_calculus.specs.Rules.{at_new, agreement, nowhere};
ghost use Rattle.tableau_calculus.specs.Witnesses.{Row};
ghost use Rattle.tableau_calculus.specs.declared.rule_use.OnePlace.TheVariants.{FunPos, FunNeg};
ghost use Rattle.tableau_calculus.specs.declared.rule_use.RuleUse.TheVariants.{AtOne};
ghost use Rattle.term_bank.specs.Content.{Grows, HasTerm};
ghost use Rattle.term_bank.specs.Terms.{term_at};
ghost use Rattle.tableau_rules.specs.Internal.Drafted.{IsPrincipal, Drafted};
ghost use Rattle.tableau_rules.specs.Internal.Typed.{AreSides, IsFunction, IsOpenFormula, IsPredicate};
ghost use Rattle.tableau_rules.specs.Internal.Functions.{AreFunctionsOf};
ghost use Rattle.stt_core.specs.SimpleType.{SimpleType, arrow};

use crate::draft::{Drafts, Principal, fails, holds, one};
use crate::part::equation_of;
use conv_laws::functions_are_lambdas;
use std::alloc::{AllocError, Global};
use stt_core::{Head, Ty};
use term_bank::{Bank, Id, Node};

/// What a closed function gives at a new variable of its argument type: what stands under its binder, whose variable is the new one.
pub(crate) fn at_new_variable(bank: &Bank, f: Id) -> Id
    requires { (a : SimpleType) × IsFunction bank.now a f }
    ensures { (a : SimpleType) → IsFunction bank.now a f → HasTerm bank.now result (at_new a (term_at bank.now.terms f)) }
{
    functions_are_lambdas();
    match bank.node(f) {
        Node::Lam { ty: _, body } => *body,
        Node::App { head: _, args: _ } => unreachable!(),
    }
}

/// The formula that what stands under a binder of this type holds everywhere.
pub(crate) fn everywhere(
    alloc: Global,
    bank: &mut Bank,
    ty: &Ty,
    body: Id,
) -> Result<Id, AllocError>
    requires { IsOpenFormula bank.old (the_type ty.now) body }
    ensures term { IfOk result (λ id. HasTerm bank.new id (every (the_type ty.now) (lam (the_type ty.now) (term_at bank.old.terms body)))) }
    ensures grows { Grows bank.old bank.new }
{
    let predicate = bank.intern_lam(ty, body)?;
    let head = Head::All(ty.try_clone(alloc)?);
    Ok(bank.intern_app(&head, &[predicate])?)
}

/// Two functions from one type to another.
#[derive(Drop)]
struct Functions {
    argument: Ty,
    outcome: Ty,
    left: Id,
    right: Id,
}

/// The formula that two functions agree everywhere.
fn agreement_of(alloc: Global, bank: &mut Bank, f: &Functions) -> Result<Id, AllocError>
    requires { AreSides bank.old (arrow (the_type f.now.argument) (the_type f.now.outcome)) f.now.left f.now.right }
    ensures term { IfOk result
        (λ id. HasTerm bank.new id (agreement (the_type f.now.argument) (the_type f.now.outcome) (term_at bank.old.terms f.now.left)
        (term_at bank.old.terms f.now.right))) }
    ensures grows { Grows bank.old bank.new }
{
    let left = at_new_variable(&*bank, f.left);
    let right = at_new_variable(&*bank, f.right);
    let head = Head::Eq(f.outcome.try_clone(alloc)?);
    let equation = bank.intern_app(&head, &[left, right])?;
    Ok(everywhere(alloc, bank, &f.argument, equation)?)
}

/// The formula that a predicate holds nowhere.
pub(crate) fn nowhere_of(alloc: Global, bank: &mut Bank, ty: &Ty, f: Id) -> Result<Id, AllocError>
    requires { IsPredicate bank.old (the_type ty.now) f }
    ensures term { IfOk result (λ id. HasTerm bank.new id (nowhere (the_type ty.now) (term_at bank.old.terms f))) }
    ensures grows { Grows bank.old bank.new }
{
    let value = at_new_variable(&*bank, f);
    let denied = bank.intern_app(&Head::Not, &[value])?;
    Ok(everywhere(alloc, bank, ty, denied)?)
}

/// The sides of the equation, where it is one between functions.
fn functions_of(alloc: Global, bank: &Bank, id: Id) -> Result<Option<Functions>, AllocError>
    requires { id < length bank.now.terms }
    ensures { IfOk result (AreFunctionsOf bank.now (term_at bank.now.terms id)) }
{
    match equation_of(bank, id) {
        Some(equation) => match equation.ty {
            Ty::Arrow(argument, outcome) => Ok(Some(Functions {
                argument: argument.try_clone(alloc)?,
                outcome: outcome.try_clone(alloc)?,
                left: equation.left,
                right: equation.right,
            })),
            Ty::Base(_) => Ok(None),
        },
        None => Ok(None),
    }
}

pub(crate) fn fun_pos_drafts(
    alloc: Global,
    bank: &mut Bank,
    p: Principal,
) -> Result<Option<Drafts>, AllocError>
    requires { IsPrincipal bank.old p }
    ensures drafted { IfOk result (λ o. (rows : List Row) → Drafted bank.new rows (p ∷ []) (AtOne FunPos 0) o) }
    ensures grows { Grows bank.old bank.new }
{
    if !p.positive {
        return Ok(None);
    }
    match functions_of(alloc, &*bank, p.atom)? {
        Some(functions) => {
            let agree = agreement_of(alloc, bank, &functions)?;
            Ok(Some(one(alloc, holds(agree))?))
        }
        None => Ok(None),
    }
}

pub(crate) fn fun_neg_drafts(
    alloc: Global,
    bank: &mut Bank,
    p: Principal,
) -> Result<Option<Drafts>, AllocError>
    requires { IsPrincipal bank.old p }
    ensures drafted { IfOk result (λ o. (rows : List Row) → Drafted bank.new rows (p ∷ []) (AtOne FunNeg 0) o) }
    ensures grows { Grows bank.old bank.new }
{
    if p.positive {
        return Ok(None);
    }
    match functions_of(alloc, &*bank, p.atom)? {
        Some(functions) => {
            let agree = agreement_of(alloc, bank, &functions)?;
            Ok(Some(one(alloc, fails(agree))?))
        }
        None => Ok(None),
    }
}
