//! The rules whose principals are equations, but for those between functions.
ghost use Rattle.std.specs.Prelude.{◌≡◌, ◌<◌, ◌↔◌, ℕ, suc, [], ◌∷◌, List, length, IfOk, IsTrue};
ghost use Rattle.stt_core.specs.Lambda.{eq};
ghost use Rattle.stt_core.specs.SimpleType.{base};
ghost use Rattle.stt_core.specs.View.{the_type};
ghost use Rattle.tableau_calculus.specs.Witnesses.{Row};
ghost use Rattle.tableau_calculus.specs.declared.rule_use.OnePlace.TheVariants.{Refl, BoolPos, BoolNeg};
ghost use Rattle.tableau_calculus.specs.declared.rule_use.TwoPlaces.TheVariants.{Con};
ghost use Rattle.tableau_calculus.specs.declared.rule_use.RuleUse.TheVariants.{AtOne, AtTwo};
ghost use Rattle.term_bank.specs.Content.{Grows, HasTerm};
ghost use Rattle.term_bank.specs.Terms.{term_at};
ghost use Rattle.tableau_rules.specs.Internal.Drafted.{IsPrincipal, Drafted, DifferFromBoth};
ghost use Rattle.tableau_rules.specs.Internal.Typed.{AreSides};

use crate::draft::{Drafts, Principal, Signed, either_both, fails, holds};
use crate::part::{Equation, equation_of};
use std::alloc::{AllocError, Global};
use stt_core::{Head, Ty};
use term_bank::{Bank, Id};

pub(crate) fn refl_drafts(alloc: Global, bank: &Bank, p: Principal) -> Option<Drafts>
    requires { IsPrincipal bank.now p }
    ensures { (rows : List Row) → Drafted bank.now rows (p ∷ []) (AtOne Refl 0) result }
{
    if p.positive {
        return None;
    }
    match equation_of(bank, p.atom) {
        Some(equation) => {
            if bank.same(equation.left, equation.right) {
                Some(Drafts::new(alloc))
            } else {
                None
            }
        }
        None => None,
    }
}

pub(crate) fn bool_pos_drafts(
    alloc: Global,
    bank: &Bank,
    p: Principal,
) -> Result<Option<Drafts>, AllocError>
    requires { IsPrincipal bank.now p }
    ensures { IfOk result (λ o. (rows : List Row) → Drafted bank.now rows (p ∷ []) (AtOne BoolPos 0) o) }
{
    if !p.positive {
        return Ok(None);
    }
    match equation_of(bank, p.atom) {
        Some(equation) => {
            if equation.ty.same(&Ty::Base(0)) {
                let both = (holds(equation.left), holds(equation.right));
                let neither = (fails(equation.left), fails(equation.right));
                Ok(Some(either_both(alloc, both, neither)?))
            } else {
                Ok(None)
            }
        }
        None => Ok(None),
    }
}

pub(crate) fn bool_neg_drafts(
    alloc: Global,
    bank: &Bank,
    p: Principal,
) -> Result<Option<Drafts>, AllocError>
    requires { IsPrincipal bank.now p }
    ensures { IfOk result (λ o. (rows : List Row) → Drafted bank.now rows (p ∷ []) (AtOne BoolNeg 0) o) }
{
    if p.positive {
        return Ok(None);
    }
    match equation_of(bank, p.atom) {
        Some(equation) => {
            if equation.ty.same(&Ty::Base(0)) {
                let first = (holds(equation.left), fails(equation.right));
                let second = (fails(equation.left), holds(equation.right));
                Ok(Some(either_both(alloc, first, second)?))
            } else {
                Ok(None)
            }
        }
        None => Ok(None),
    }
}

/// Whether the type is a base type other than `$o`.
pub(crate) fn is_plain_base(ty: &Ty) -> bool
    ensures { IsTrue result ↔ ((n : ℕ) × (the_type ty.now ≡ base (suc n))) }
{
    match ty {
        Ty::Base(n) => *n > 0,
        Ty::Arrow(_, _) => false,
    }
}

/// The equation of two terms of a type.
pub(crate) fn equate(
    alloc: Global,
    bank: &mut Bank,
    ty: &Ty,
    s: Id,
    t: Id,
) -> Result<Id, AllocError>
    requires { AreSides bank.old (the_type ty.now) s t }
    ensures term { IfOk result (λ id. HasTerm bank.new id (eq (the_type ty.now) (term_at bank.old.terms s) (term_at bank.old.terms t))) }
    ensures grows { Grows bank.old bank.new }
{
    let head = Head::Eq(ty.try_clone(alloc)?);
    Ok(bank.intern_app(&head, &[s, t])?)
}

/// An equation without the bank that it stands in: the type of its sides, and the sides.
#[derive(Drop)]
pub(crate) struct OwnEquation {
    pub ty: Ty,
    pub left: Id,
    pub right: Id,
}

fn own(alloc: Global, equation: &Equation) -> Result<OwnEquation, AllocError>
    ensures ty { IfOk result (λ e. the_type e.ty ≡ the_type equation.now.ty.now) }
    ensures left { IfOk result (λ e. e.left ≡ equation.now.left) }
    ensures right { IfOk result (λ e. e.right ≡ equation.now.right) }
{
    Ok(OwnEquation {
        ty: equation.ty.try_clone(alloc)?,
        left: equation.left,
        right: equation.right,
    })
}

/// The term differs from both sides of the equation.
fn differs_from_both(
    alloc: Global,
    bank: &mut Bank,
    equation: &OwnEquation,
    t: Id,
) -> Result<(Signed, Signed), AllocError>
    requires left { AreSides bank.old (the_type equation.now.ty) equation.now.left t }
    requires right { AreSides bank.old (the_type equation.now.ty) equation.now.right t }
    ensures differ { IfOk result (λ ss. DifferFromBoth bank.old bank.new (the_type equation.now.ty) equation.now.left equation.now.right t
        ss.0 ss.1) }
    ensures grows { Grows bank.old bank.new }
{
    let first = equate(alloc, bank, &equation.ty, equation.left, t)?;
    let second = equate(alloc, bank, &equation.ty, equation.right, t)?;
    Ok((fails(first), fails(second)))
}

pub(crate) fn con_drafts(
    alloc: Global,
    bank: &mut Bank,
    p: Principal,
    q: Principal,
) -> Result<Option<Drafts>, AllocError>
    requires first { IsPrincipal bank.old p }
    requires second { IsPrincipal bank.old q }
    ensures drafted { IfOk result (λ o. (rows : List Row) → Drafted bank.new rows (p ∷ q ∷ []) (AtTwo Con 0 1) o) }
    ensures grows { Grows bank.old bank.new }
{
    if !p.positive {
        return Ok(None);
    }
    if q.positive {
        return Ok(None);
    }
    match equation_of(&*bank, p.atom) {
        Some(equation) => match equation_of(&*bank, q.atom) {
            Some(other) => {
                if !is_plain_base(equation.ty) {
                    return Ok(None);
                }
                if !equation.ty.same(other.ty) {
                    return Ok(None);
                }
                let equation = own(alloc, &equation)?;
                let left = other.left;
                let right = other.right;
                let first = differs_from_both(alloc, bank, &equation, left)?;
                let second = differs_from_both(alloc, bank, &equation, right)?;
                Ok(Some(either_both(alloc, first, second)?))
            }
            None => Ok(None),
        },
        None => Ok(None),
    }
}
