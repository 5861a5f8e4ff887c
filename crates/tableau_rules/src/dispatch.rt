//! The rules by what they take.
ghost use Rattle.std.specs.Prelude.{◌≡◌, ◌<◌, ◌-◌, ◌^◌, ℕ, List, length, Some, None, All, IfOk, OnOk, OnErr, false, ◌⊎◌};
ghost use Rattle.tableau_calculus.specs.Each.{Each};
ghost use Rattle.tableau_calculus.specs.RuleUses.{principals_of, EachPart};
ghost use Rattle.tableau_calculus.specs.Witnesses.{Row};
ghost use Rattle.tableau_calculus.specs.declared.rule_use.OnePlace.TheVariants.{AllNeg};
ghost use Rattle.tableau_calculus.specs.declared.rule_use.RuleUse.TheVariants.{AtOne, AtTwo, AllPos, WithPredicate, Cut};
ghost use Rattle.term_bank.specs.Content.{Grows};
ghost use Rattle.bank_normal.specs.Right.{IsRightNormaliser};
ghost use Rattle.literal_map.specs.Atoms.{IsAtom};
ghost use Rattle.witness_names.specs.Rows.{rows_of, AreRows};
ghost use Rattle.tableau_rules.specs.Changes.{Widens, makes_witness, denial_of, AreWitnessesBy};
ghost use Rattle.tableau_rules.specs.Internal.Declaring.{AreDeclaredIn};
ghost use Rattle.tableau_rules.specs.Internal.Used.{DraftedBy, WitnessesWhere, IsDenialOf};

use crate::alone::at_one;
use crate::choice::{cho_drafts, des_drafts};
use crate::draft::Drafts;
use crate::equation::con_drafts;
use crate::number::principal_of;
use crate::opposites::{close_drafts, cut_drafts};
use crate::quantifier::all_pos_drafts;
use crate::spine::mat_drafts;
use crate::witness::all_neg_drafts;
use bank_normal::Normaliser;
use literal_map::{BankUse, LitTable};
use sat_base::SatLit;
use std::alloc::{AllocError, Global};
use tableau_calculus::{OfPredicate, OnePlace, RuleUse, TwoPlaces};
use term_bank::{Bank, Id};
use witness_names::Witnesses;

fn at_two(
    alloc: Global,
    bank: &mut Bank,
    lits: &LitTable,
    rule: TwoPlaces,
    first: SatLit,
    second: SatLit,
) -> Result<Option<Drafts>, AllocError>
    requires first { first.var.0 < length lits.now }
    requires second { second.var.0 < length lits.now }
    requires atoms { All (IsAtom bank.old) lits.now }
    ensures drafted { IfOk result (λ o. (rows : List Row) → DraftedBy bank.new lits.now rows (AtTwo rule first second) o) }
    ensures grows { Grows bank.old bank.new }
{
    let p = principal_of(&*bank, lits, first);
    let q = principal_of(&*bank, lits, second);
    match rule {
        TwoPlaces::Close => Ok(close_drafts(alloc, &*bank, p, q)),
        TwoPlaces::Mat => Ok(mat_drafts(alloc, bank, p, q)?),
        TwoPlaces::Con => Ok(con_drafts(alloc, bank, p, q)?),
    }
}

fn all_pos(
    alloc: Global,
    bank: &mut Bank,
    normal: &mut Normaliser,
    lits: &LitTable,
    lit: SatLit,
    term: Id,
) -> Result<Option<Drafts>, AllocError>
    requires number { lit.var.0 < length lits.now }
    requires term { term < length bank.old.terms }
    requires atoms { All (IsAtom bank.old) lits.now }
    requires right { IsRightNormaliser normal.old bank.old }
    ensures drafted { IfOk result (λ o. (rows : List Row) → DraftedBy bank.new lits.now rows (AllPos lit term) o) }
    ensures grows { Grows bank.old bank.new }
    ensures right { IsRightNormaliser normal.new bank.new }
{
    let p = principal_of(&*bank, lits, lit);
    Ok(all_pos_drafts(alloc, bank, normal, p, term)?)
}

fn with_predicate(
    alloc: Global,
    bank: &mut Bank,
    normal: &mut Normaliser,
    rule: OfPredicate,
    term: Id,
) -> Result<Option<Drafts>, AllocError>
    requires term { term < length bank.old.terms }
    requires right { IsRightNormaliser normal.old bank.old }
    ensures drafted { IfOk result (λ o. (atoms : List ℕ) (rows : List Row) → DraftedBy bank.new atoms rows (WithPredicate rule term) o) }
    ensures grows { Grows bank.old bank.new }
    ensures right { IsRightNormaliser normal.new bank.new }
{
    match rule {
        OfPredicate::Cho => Ok(cho_drafts(alloc, bank, normal, term)?),
        OfPredicate::Des => Ok(des_drafts(alloc, bank, normal, term)?),
    }
}

fn cut(alloc: Global, bank: &Bank, lits: &LitTable, lit: SatLit) -> Result<Drafts, AllocError>
    requires number { lit.var.0 < length lits.now }
    requires atoms { All (IsAtom bank.now) lits.now }
    ensures { IfOk result (λ ds. (rows : List Row) → DraftedBy bank.now lits.now rows (Cut lit) (Some ds)) }
{
    let p = principal_of(bank, lits, lit);
    Ok(cut_drafts(alloc, bank, p)?)
}

/// The drafts of a rule that makes no witness.
fn unwitnessed_drafts(
    alloc: Global,
    bank: &mut Bank,
    normal: &mut Normaliser,
    lits: &LitTable,
    by: &BankUse,
) -> Result<Option<Drafts>, AllocError>
    requires unwitnessed { denial_of by.now ≡ None }
    requires principals { Each (λ l. l.var.0 < length lits.now) (principals_of by.now) }
    requires parts { EachPart (λ id. id < length bank.old.terms) (λ l. l.var.0 < length lits.now) by.now }
    requires atoms { All (IsAtom bank.old) lits.now }
    requires right { IsRightNormaliser normal.old bank.old }
    ensures drafted { IfOk result (λ o. (rows : List Row) → DraftedBy bank.new lits.now rows by.now o) }
    ensures grows { Grows bank.old bank.new }
    ensures right { IsRightNormaliser normal.new bank.new }
{
    match by {
        RuleUse::AtOne(rule, lit) => Ok(at_one(alloc, bank, lits, *rule, *lit)?),
        RuleUse::AtTwo(rule, first, second) => {
            Ok(at_two(alloc, bank, lits, *rule, *first, *second)?)
        }
        RuleUse::AllPos(lit, term) => Ok(all_pos(alloc, bank, normal, lits, *lit, *term)?),
        RuleUse::WithPredicate(rule, term) => {
            Ok(with_predicate(alloc, bank, normal, *rule, *term)?)
        }
        RuleUse::Cut(lit) => Ok(Some(cut(alloc, &*bank, lits, *lit)?)),
    }
}

/// The principal of the rule that makes a witness.
fn denial(by: &BankUse) -> Option<SatLit>
    ensures { IsDenialOf by.now result }
{
    match by {
        RuleUse::AtOne(rule, lit) => match rule {
            OnePlace::AllNeg => Some(*lit),
            _ => None,
        },
        _ => None,
    }
}

/// The drafts of the rule that makes a witness.
fn witnessed_drafts(
    alloc: Global,
    bank: &mut Bank,
    normal: &mut Normaliser,
    lits: &LitTable,
    witnesses: &mut Witnesses,
    lit: SatLit,
) -> Result<Option<Drafts>, AllocError>
    requires number { lit.var.0 < length lits.now }
    requires atoms { All (IsAtom bank.old) lits.now }
    requires right { IsRightNormaliser normal.old bank.old }
    requires few { length witnesses.old < 2 ^ 32 - 1 }
    requires rows { AreRows bank.old witnesses.old }
    requires all { AreDeclaredIn bank.old witnesses.old }
    ensures drafted { IfOk result (DraftedBy bank.new lits.now (rows_of bank.new.terms witnesses.new) (AtOne AllNeg lit)) }
    ensures witnesses { IfOk result (WitnessesWhere bank.new lits.now (AtOne AllNeg lit) witnesses.old witnesses.new) }
    ensures err { OnErr result ((witnesses.new ≡ witnesses.old) ⊎ AreWitnessesBy bank.new lits.now (AtOne AllNeg lit) witnesses.old
        witnesses.new) }
    ensures widens { Widens bank.old bank.new }
    ensures right { IsRightNormaliser normal.new bank.new }
    ensures rows { AreRows bank.new witnesses.new }
    ensures all { OnOk result (AreDeclaredIn bank.new witnesses.new) }
{
    let p = principal_of(&*bank, lits, lit);
    Ok(all_neg_drafts(alloc, bank, normal, witnesses, p)?)
}

/// The alternatives of the rule's instance, where it has one. The one rule that makes a witness does so.
pub(crate) fn drafts_of(
    alloc: Global,
    bank: &mut Bank,
    normal: &mut Normaliser,
    lits: &LitTable,
    witnesses: &mut Witnesses,
    by: &BankUse,
) -> Result<Option<Drafts>, AllocError>
    requires principals { Each (λ l. l.var.0 < length lits.now) (principals_of by.now) }
    requires parts { EachPart (λ id. id < length bank.old.terms) (λ l. l.var.0 < length lits.now) by.now }
    requires atoms { All (IsAtom bank.old) lits.now }
    requires right { IsRightNormaliser normal.old bank.old }
    requires few { length witnesses.old < 2 ^ 32 - 1 }
    requires rows { AreRows bank.old witnesses.old }
    requires all { AreDeclaredIn bank.old witnesses.old }
    ensures drafted { IfOk result (DraftedBy bank.new lits.now (rows_of bank.new.terms witnesses.new) by.now) }
    ensures witnesses { IfOk result (WitnessesWhere bank.new lits.now by.now witnesses.old witnesses.new) }
    ensures err { OnErr result ((witnesses.new ≡ witnesses.old) ⊎ AreWitnessesBy bank.new lits.now by.now witnesses.old witnesses.new) }
    ensures widens { Widens bank.old bank.new }
    ensures right { IsRightNormaliser normal.new bank.new }
    ensures rows { AreRows bank.new witnesses.new }
    ensures all { OnOk result (AreDeclaredIn bank.new witnesses.new) }
{
    match denial(by) {
        Some(lit) => Ok(witnessed_drafts(alloc, bank, normal, lits, witnesses, lit)?),
        None => Ok(unwitnessed_drafts(alloc, bank, normal, lits, by)?),
    }
}
