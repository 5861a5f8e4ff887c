//! Witnesses and their types, and the rule for what doesn't hold everywhere.
ghost use Rattle.std.specs.Prelude.{◌≡◌, ◌<◌, ◌-◌, ◌+◌, ◌^◌, [], ◌∷◌, length, Some, slice_get, IfOk, OnOk, OnErr, ◌⊎◌};
ghost use Rattle.stt_core.specs.View.{the_type};
ghost use Rattle.tableau_calculus.specs.declared.rule_use.OnePlace.TheVariants.{AllNeg};
ghost use Rattle.tableau_calculus.specs.declared.rule_use.RuleUse.TheVariants.{AtOne};
ghost use Rattle.bank_normal.specs.Right.{IsRightNormaliser};
ghost use Rattle.witness_names.specs.Rows.{rows_of, AreRows, with_predicate};
ghost use Rattle.tableau_rules.specs.Changes.{Widens};
ghost use Rattle.tableau_rules.specs.Internal.Declaring.{Declares, AreDeclaredIn, DraftedOver, WitnessedWhere, MayBeWitnessed};
ghost use Rattle.tableau_rules.specs.Internal.Drafted.{IsPrincipal};
ghost use Rattle.tableau_rules.specs.Internal.Typed.{IsPredicate};

use crate::draft::{Drafts, Principal, fails, one};
use crate::part::quantified_of;
use bank_normal::Normaliser;
use std::alloc::{AllocError, Global};
use stt_core::{Head, Ty};
use term_bank::{Bank, Id, Node};
use witness_names::Witnesses;

/// Gives the next witness its type.
fn declare_next(
    alloc: Global,
    bank: &mut Bank,
    witnesses: &Witnesses,
    w: u32,
) -> Result<(), AllocError>
    requires rows { AreRows bank.old witnesses.now }
    requires next { length bank.old.witnesses ≡ w }
    requires within { w < length witnesses.now }
    requires few { w < 2 ^ 32 - 1 }
    ensures declares { Declares bank.old bank.new witnesses.now }
    ensures next { OnOk result (length bank.new.witnesses ≡ w + 1) }
{
    match bank.node(witnesses.predicate(w)) {
        Node::Lam { ty, body: _ } => {
            let ty = ty.try_clone(alloc)?;
            bank.add_witness(&ty)?;
            Ok(())
        }
        Node::App { head: _, args: _ } => unreachable!(),
    }
}

/// Gives each witness that has no type yet its type.
pub(crate) fn declare(
    alloc: Global,
    bank: &mut Bank,
    witnesses: &Witnesses,
) -> Result<(), AllocError>
    requires rows { AreRows bank.old witnesses.now }
    ensures declares { Declares bank.old bank.new witnesses.now }
    ensures all { OnOk result (AreDeclaredIn bank.new witnesses.now) }
{
    for w in bank.witness_types()..witnesses.len() {
        declare_next(alloc, bank, witnesses, w)?;
    }
    Ok(())
}

/// The witness of a predicate. Its type stands in the bank.
fn witness_of(
    alloc: Global,
    bank: &mut Bank,
    witnesses: &mut Witnesses,
    ty: &Ty,
    predicate: Id,
) -> Result<u32, AllocError>
    requires predicate { IsPredicate bank.old (the_type ty.now) predicate }
    requires few { length witnesses.old < 2 ^ 32 - 1 }
    requires rows { AreRows bank.old witnesses.old }
    ensures row { IfOk result (λ w. slice_get witnesses.new w ≡ Some predicate) }
    ensures added { OnOk result (witnesses.new ≡ with_predicate witnesses.old predicate) }
    ensures declares { Declares bank.old bank.new witnesses.new }
    ensures all { OnOk result (AreDeclaredIn bank.new witnesses.new) }
    ensures err { OnErr result ((witnesses.new ≡ witnesses.old) ⊎ (witnesses.new ≡ with_predicate witnesses.old predicate)) }
{
    let w = witnesses.fresh(&*bank, predicate)?;
    declare(alloc, bank, &*witnesses)?;
    Ok(w)
}

pub(crate) fn all_neg_drafts(
    alloc: Global,
    bank: &mut Bank,
    normal: &mut Normaliser,
    witnesses: &mut Witnesses,
    p: Principal,
) -> Result<Option<Drafts>, AllocError>
    requires principal { IsPrincipal bank.old p }
    requires right { IsRightNormaliser normal.old bank.old }
    requires few { length witnesses.old < 2 ^ 32 - 1 }
    requires rows { AreRows bank.old witnesses.old }
    requires all { AreDeclaredIn bank.old witnesses.old }
    ensures drafted { IfOk result (DraftedOver bank.new (rows_of bank.new.terms witnesses.new) (p ∷ []) (AtOne AllNeg 0)) }
    ensures witnesses { IfOk result (WitnessedWhere bank.new p witnesses.old witnesses.new) }
    ensures err { OnErr result (MayBeWitnessed bank.new p witnesses.old witnesses.new) }
    ensures widens { Widens bank.old bank.new }
    ensures right { IsRightNormaliser normal.new bank.new }
    ensures rows { AreRows bank.new witnesses.new }
    ensures all { OnOk result (AreDeclaredIn bank.new witnesses.new) }
{
    if p.positive {
        return Ok(None);
    }
    match quantified_of(&*bank, p.atom) {
        Some(quantified) => {
            let ty = quantified.ty.try_clone(alloc)?;
            let predicate = quantified.predicate;
            let w = witness_of(alloc, bank, witnesses, &ty, predicate)?;
            let witness = normal.eta(bank, &Head::Wit(w), &ty)?;
            let value = normal.instantiate(bank, predicate, witness)?;
            Ok(Some(one(alloc, fails(value))?))
        }
        None => Ok(None),
    }
}
