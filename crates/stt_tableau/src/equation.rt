//! Equations, and the rules whose principals are equations, but for those between functions.

ghost use Rattle.std.specs.Prelude.{◌≡◌, ◌↔◌, ℕ, suc, [], ◌∷◌, List, IfOk, IsTrue, option_map};
ghost use Rattle.stt_core.specs.Typing.{Scope};
ghost use Rattle.stt_core.specs.SimpleType.{base};
ghost use Rattle.stt_core.specs.Lambda.{eq};
ghost use Rattle.stt_core.specs.View.{the_head, the_type};
ghost use Rattle.tableau_calculus.specs.Literals.{as_literal, opposite, minus};
ghost use Rattle.tableau_calculus.specs.Witnesses.{Row};
ghost use Rattle.tableau_calculus.specs.Internal.Heads.{equality_of};
ghost use Rattle.stt_tableau.specs.Internal.Parts.{IsEquation};
ghost use Rattle.tableau_calculus.specs.Checks.{FindsInstance};
ghost use Rattle.stt_tableau.specs.Internal.Instances.{IsEquationAt};
ghost use Rattle.tableau_calculus.specs.declared.rule_use.RuleUse.TheVariants.{AtOne, AtTwo};
ghost use Rattle.tableau_calculus.specs.declared.rule_use.OnePlace.TheVariants.{Refl, BoolPos, BoolNeg};
ghost use Rattle.tableau_calculus.specs.declared.rule_use.TwoPlaces.TheVariants.{Con};

use crate::alternatives::{Alternatives, either_both};
use crate::formula::literal_of;
use std::alloc::{AllocError, Global};
use stt_core::{Head, Nf, Nfs, Ty, Types, same_nf};
use tableau_calculus::{Lit, Lits};

/// An equation: the type of its sides, and the sides.
#[derive(Drop)]
pub struct Equation<'a> {
    pub ty: &'a Ty,
    pub left: &'a Nf,
    pub right: &'a Nf,
}

fn equality_type(head: &Head) -> Option<&Ty>
    ensures { option_map (λ ty. the_type ty.now) result ≡ equality_of (the_head head.now) }
{
    match head {
        Head::Bound(_) => None,
        Head::Name(_) => None,
        Head::Wit(_) => None,
        Head::False => None,
        Head::Not => None,
        Head::Imp => None,
        Head::All(_) => None,
        Head::Eq(ty) => Some(ty),
        Head::Choice(_) => None,
        Head::Desc(_) => None,
    }
}

/// The parts of an equation, where the term is one.
fn equation_of(nf: &Nf) -> Option<Equation<'_>>
    ensures { IsEquation nf.now result }
{
    if nf.binders.len() > 0 {
        return None;
    }
    if nf.args.len() != 2 {
        return None;
    }
    match equality_type(&nf.head) {
        Some(ty) => Some(Equation {
            ty,
            left: nf.args.at(0),
            right: nf.args.at(1),
        }),
        None => None,
    }
}

/// The equation of this sign at a place, where one stands there.
pub fn equation_at(branch: &Lits, i: usize, positive: bool) -> Option<Equation<'_>>
    ensures { IsEquationAt branch.now i positive result }
{
    match branch.get(i) {
        Some(lit) => {
            if lit.positive == positive {
                equation_of(&lit.atom)
            } else {
                None
            }
        }
        None => None,
    }
}

pub fn refl_instance(alloc: Global, branch: &Lits, i: usize) -> Option<Alternatives>
    ensures { (scope : Scope) (rows : List Row) → FindsInstance scope rows branch.now (AtOne Refl i) result }
{
    match equation_at(branch, i, false) {
        Some(equation) => {
            if same_nf(equation.left, equation.right) {
                Some(Alternatives::new(alloc))
            } else {
                None
            }
        }
        None => None,
    }
}

/// Both formulas, or neither.
fn both_or_neither(alloc: Global, s: &Nf, t: &Nf) -> Result<Alternatives, AllocError>
    ensures { IfOk result
        (λ a. a ≡ (as_literal s.now ∷ as_literal t.now ∷ []) ∷ (opposite (as_literal s.now) ∷ opposite (as_literal t.now) ∷ []) ∷ []) }
{
    let both = (literal_of(alloc, s)?, literal_of(alloc, t)?);
    let neither = (
        literal_of(alloc, s)?.opposite(),
        literal_of(alloc, t)?.opposite(),
    );
    either_both(alloc, both, neither)
}

/// One of the formulas without the other.
fn one_of_both(alloc: Global, s: &Nf, t: &Nf) -> Result<Alternatives, AllocError>
    ensures { IfOk result (λ a. a ≡ (as_literal s.now ∷ opposite (as_literal t.now) ∷ [])
        ∷ (opposite (as_literal s.now) ∷ as_literal t.now ∷ []) ∷ []) }
{
    let first = (literal_of(alloc, s)?, literal_of(alloc, t)?.opposite());
    let second = (literal_of(alloc, s)?.opposite(), literal_of(alloc, t)?);
    either_both(alloc, first, second)
}

pub fn bool_pos_instance(
    alloc: Global,
    branch: &Lits,
    i: usize,
) -> Result<Option<Alternatives>, AllocError>
    ensures { IfOk result (λ a. (scope : Scope) (rows : List Row) → FindsInstance scope rows branch.now (AtOne BoolPos i) a) }
{
    match equation_at(branch, i, true) {
        Some(equation) => {
            if equation.ty.same(&Ty::Base(0)) {
                Ok(Some(both_or_neither(alloc, equation.left, equation.right)?))
            } else {
                Ok(None)
            }
        }
        None => Ok(None),
    }
}

pub fn bool_neg_instance(
    alloc: Global,
    branch: &Lits,
    i: usize,
) -> Result<Option<Alternatives>, AllocError>
    ensures { IfOk result (λ a. (scope : Scope) (rows : List Row) → FindsInstance scope rows branch.now (AtOne BoolNeg i) a) }
{
    match equation_at(branch, i, false) {
        Some(equation) => {
            if equation.ty.same(&Ty::Base(0)) {
                Ok(Some(one_of_both(alloc, equation.left, equation.right)?))
            } else {
                Ok(None)
            }
        }
        None => Ok(None),
    }
}

/// Whether the type is a base type other than `$o`.
pub fn is_plain_base(ty: &Ty) -> bool
    ensures { IsTrue result ↔ ((n : ℕ) × (the_type ty.now ≡ base (suc n))) }
{
    match ty {
        Ty::Base(n) => *n > 0,
        Ty::Arrow(_, _) => false,
    }
}

/// The literal that two terms of a type differ.
pub fn differ(alloc: Global, ty: &Ty, s: &Nf, t: &Nf) -> Result<Lit, AllocError>
    ensures { IfOk result (λ l. l ≡ minus (eq (the_type ty.now) s.now t.now)) }
{
    let mut args = Nfs::new(alloc);
    args.push(s.try_clone(alloc)?)?;
    args.push(t.try_clone(alloc)?)?;
    let atom = Nf {
        binders: Types::new(alloc),
        head: Head::Eq(ty.try_clone(alloc)?),
        args,
    };
    Ok(Lit {
        positive: false,
        atom,
    })
}

/// The term differs from both sides of the equation.
fn differs_from_both(alloc: Global, equation: &Equation, t: &Nf) -> Result<(Lit, Lit), AllocError>
    ensures { IfOk result (λ ls. (ls.0 ≡ minus (eq (the_type equation.now.ty.now) equation.now.left.now t.now))
        × (ls.1 ≡ minus (eq (the_type equation.now.ty.now) equation.now.right.now t.now))) }
{
    let first = differ(alloc, equation.ty, equation.left, t)?;
    let second = differ(alloc, equation.ty, equation.right, t)?;
    Ok((first, second))
}

pub fn con_instance(
    alloc: Global,
    branch: &Lits,
    i: usize,
    j: usize,
) -> Result<Option<Alternatives>, AllocError>
    ensures { IfOk result (λ a. (scope : Scope) (rows : List Row) → FindsInstance scope rows branch.now (AtTwo Con i j) a) }
{
    match equation_at(branch, i, true) {
        Some(equation) => match equation_at(branch, j, false) {
            Some(other) => {
                if !is_plain_base(equation.ty) || !equation.ty.same(other.ty) {
                    return Ok(None);
                }
                let first = differs_from_both(alloc, &equation, other.left)?;
                let second = differs_from_both(alloc, &equation, other.right)?;
                Ok(Some(either_both(alloc, first, second)?))
            }
            None => Ok(None),
        },
        None => Ok(None),
    }
}
