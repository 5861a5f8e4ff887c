//! The rules that compare the arguments of one head.
ghost use Rattle.std.specs.Prelude.{◌<◌, ◌↔◌, ◌∷◌, [], List, length, IfOk, IsTrue};
ghost use Rattle.stt_core.specs.View.{the_head};
ghost use Rattle.tableau_calculus.specs.Internal.Heads.{IsDecomposedHead};
ghost use Rattle.tableau_calculus.specs.Witnesses.{Row};
ghost use Rattle.tableau_calculus.specs.declared.rule_use.OnePlace.TheVariants.{Dec};
ghost use Rattle.tableau_calculus.specs.declared.rule_use.TwoPlaces.TheVariants.{Mat};
ghost use Rattle.tableau_calculus.specs.declared.rule_use.RuleUse.TheVariants.{AtOne, AtTwo};
ghost use Rattle.term_bank.specs.Content.{Grows};
ghost use Rattle.term_bank.specs.Terms.{term_at};
ghost use Rattle.stt_core.specs.SimpleType.{SimpleType};
ghost use Rattle.tableau_rules.specs.Internal.Drafted.{IsPrincipal, Drafted};
ghost use Rattle.tableau_rules.specs.Internal.Typed.{AreSides};
ghost use Rattle.tableau_rules.specs.Internal.Compared.{AreArgumentsOf, AreBaseSides, TakesBoth, DiffersAt, DifferEach, AreComparedBy};

use crate::draft::{Drafts, Principal, Signed, alone, fails};
use crate::equation::is_plain_base;
use crate::part::{equation_of, spine_of};
use std::alloc::{AllocError, Global};
use stt_core::Head;
use term_bank::{Bank, Id, Ids};

/// Whether the arguments of the head are compared.
fn is_compared(head: &Head) -> bool
    ensures { IsTrue result ↔ IsDecomposedHead (the_head head.now) }
{
    match head {
        Head::Bound(_) => false,
        Head::Name(_) => true,
        Head::Wit(_) => true,
        Head::False => false,
        Head::Not => false,
        Head::Imp => false,
        Head::All(_) => false,
        Head::Eq(_) => false,
        Head::Choice(_) => true,
        Head::Desc(_) => true,
    }
}

/// The arguments of two terms, without the bank that they stand in.
#[derive(Drop)]
struct Arguments {
    left: Ids,
    right: Ids,
}

/// The arguments of both terms, where these have one head whose arguments are compared, and both have some.
fn arguments_of(alloc: Global, bank: &Bank, s: Id, t: Id) -> Result<Option<Arguments>, AllocError>
    requires s_within { s < length bank.now.terms }
    requires t_within { t < length bank.now.terms }
    ensures { IfOk result (AreArgumentsOf bank.now (term_at bank.now.terms s) (term_at bank.now.terms t)) }
{
    match spine_of(bank, s) {
        Some(left) => match spine_of(bank, t) {
            Some(right) => {
                if left.args.len() == 0 || right.args.len() == 0 {
                    return Ok(None);
                }
                if !is_compared(left.head) || !left.head.same(right.head) {
                    return Ok(None);
                }
                Ok(Some(Arguments {
                    left: Ids::from_slice(alloc, left.args.as_slice())?,
                    right: Ids::from_slice(alloc, right.args.as_slice())?,
                }))
            }
            None => Ok(None),
        },
        None => Ok(None),
    }
}

/// That two terms of one type differ.
fn differ(alloc: Global, bank: &mut Bank, s: Id, t: Id) -> Result<Signed, AllocError>
    requires { (a : SimpleType) × AreSides bank.old a s t }
    ensures differs { IfOk result (DiffersAt bank.old bank.new s t) }
    ensures grows { Grows bank.old bank.new }
{
    let head = Head::Eq(bank.ty(s)?);
    let equal = bank.intern_app(&head, &[s, t])?;
    Ok(fails(equal))
}

/// For each place of the lists, that the terms there differ.
fn differences(alloc: Global, bank: &mut Bank, arguments: &Arguments) -> Result<Drafts, AllocError>
    requires { (a : SimpleType) × TakesBoth bank.old a arguments.now.left arguments.now.right }
    ensures differ { IfOk result (DifferEach bank.old bank.new arguments.now.left arguments.now.right) }
    ensures grows { Grows bank.old bank.new }
{
    let mut drafts = Drafts::new(alloc);
    for i in 0..arguments.left.len() {
        let signed = differ(alloc, bank, arguments.left.at(i), arguments.right.at(i))?;
        drafts.push(alone(alloc, signed)?)?;
    }
    Ok(drafts)
}

/// The alternatives that the arguments of two terms differ, where these are compared.
fn compared_drafts(
    alloc: Global,
    bank: &mut Bank,
    s: Id,
    t: Id,
) -> Result<Option<Drafts>, AllocError>
    requires { AreBaseSides bank.old s t }
    ensures compared { IfOk result (AreComparedBy bank.old bank.new (term_at bank.old.terms s) (term_at bank.old.terms t)) }
    ensures grows { Grows bank.old bank.new }
{
    // The signature is asked for its clause that all types in it are declared.
    let _sig = bank.sig();
    match arguments_of(alloc, &*bank, s, t)? {
        Some(arguments) => Ok(Some(differences(alloc, bank, &arguments)?)),
        None => Ok(None),
    }
}

pub(crate) fn mat_drafts(
    alloc: Global,
    bank: &mut Bank,
    p: Principal,
    q: Principal,
) -> Result<Option<Drafts>, AllocError>
    requires first { IsPrincipal bank.old p }
    requires second { IsPrincipal bank.old q }
    ensures drafted { IfOk result (λ o. (rows : List Row) → Drafted bank.new rows (p ∷ q ∷ []) (AtTwo Mat 0 1) o) }
    ensures grows { Grows bank.old bank.new }
{
    if !p.positive || q.positive {
        return Ok(None);
    }
    Ok(compared_drafts(alloc, bank, p.atom, q.atom)?)
}

pub(crate) fn dec_drafts(
    alloc: Global,
    bank: &mut Bank,
    p: Principal,
) -> Result<Option<Drafts>, AllocError>
    requires { IsPrincipal bank.old p }
    ensures drafted { IfOk result (λ o. (rows : List Row) → Drafted bank.new rows (p ∷ []) (AtOne Dec 0) o) }
    ensures grows { Grows bank.old bank.new }
{
    if p.positive {
        return Ok(None);
    }
    match equation_of(&*bank, p.atom) {
        Some(equation) => {
            if !is_plain_base(equation.ty) {
                return Ok(None);
            }
            let left = equation.left;
            let right = equation.right;
            Ok(compared_drafts(alloc, bank, left, right)?)
        }
        None => Ok(None),
    }
}
