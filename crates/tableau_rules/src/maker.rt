//! Instances of rules.
ghost use Rattle.std.specs.Prelude.{◌≡◌, ◌<◌, ◌-◌, ◌^◌, ◌++◌, List, length, map, All, Err, IfOk, IfErr, OnOk, OnErr};
ghost use Rattle.tableau_calculus.specs.Literals.{Literal};
ghost use Rattle.tableau_calculus.specs.RuleUses.{principals_of, EachPart};
ghost use Rattle.tableau_calculus.specs.Witnesses.{Row};
ghost use Rattle.bank_normal.specs.Right.{IsRightNormaliser};
ghost use Rattle.literal_map.specs.Atoms.{bank_literal, IsAtom, Begins};
ghost use Rattle.witness_names.specs.Rows.{rows_of, AreRows};
ghost use Rattle.tableau_calculus.specs.Each.{Each};
ghost use Rattle.tableau_rules.specs.Uses.{IsInstanceBy};
ghost use Rattle.tableau_rules.specs.Changes.{Widens, AreWitnessesBy, LeavesWitnesses};
ghost use Rattle.tableau_rules.specs.Internal.Drafted.{alternatives_at};
ghost use Rattle.tableau_rules.specs.Internal.Made.{AreDraftsOf};
ghost use Rattle.tableau_rules.specs.Internal.Numbered.{AllFormulas, AllNumbered};
ghost use Rattle.tableau_rules.specs.declared.refusal.RuleRefused.TheVariants.{NotThisRule};

use crate::dispatch::drafts_of;
use crate::draft::Drafts;
use crate::number::number_drafts;
use crate::refusal::RuleRefused;
use crate::witness::declare;
use bank_normal::Normaliser;
use literal_map::{BankUse, Instance, LitList, LitLists, LitTable};
use std::alloc::{AllocError, Global};
use tableau_calculus::RuleUse;
use term_bank::Bank;
use witness_names::Witnesses;

/// The principals of a rule.
fn principals(alloc: Global, by: &BankUse) -> Result<LitList, AllocError>
    ensures { IfOk result (λ list. list ≡ principals_of by.now) }
{
    let mut list = LitList::new(alloc);
    match by {
        RuleUse::AtOne(_, lit) => list.push(*lit)?,
        RuleUse::AtTwo(_, first, second) => {
            list.push(*first)?;
            list.push(*second)?;
        }
        RuleUse::AllPos(lit, _) => list.push(*lit)?,
        RuleUse::WithPredicate(_, _) | RuleUse::Cut(_) => {}
    }
    Ok(list)
}

/// The drafts with numbers for their formulas. Where memory runs out no formula gets a number.
fn number_all(
    alloc: Global,
    bank: &Bank,
    lits: &mut LitTable,
    drafts: &Drafts,
) -> Result<LitLists, AllocError>
    requires formulas { AllFormulas bank.now drafts.now }
    requires atoms { All (IsAtom bank.now) lits.old }
    ensures numbered { IfOk result (AllNumbered bank.now lits.new drafts.now) }
    ensures begins { Begins lits.old lits.new }
    ensures atoms { All (IsAtom bank.now) lits.new }
    ensures err { OnErr result (lits.new ≡ lits.old) }
{
    let before = lits.len();
    match number_drafts(alloc, bank, lits, drafts) {
        Ok(lists) => Ok(lists),
        Err(error) => {
            lits.truncate(before);
            Err(error)
        }
    }
}

/// The instance with these alternatives.
fn instance_of(
    alloc: Global,
    bank: &Bank,
    lits: &mut LitTable,
    by: &BankUse,
    drafts: &Drafts,
) -> Result<Instance, AllocError>
    requires principals { Each (λ l. l.var.0 < length lits.old) (principals_of by.now) }
    requires atoms { All (IsAtom bank.now) lits.old }
    requires drafts { AreDraftsOf bank.now lits.old by.now drafts.now }
    ensures by { IfOk result (λ i. i.by ≡ by.now) }
    ensures principals { IfOk result (λ i. i.principals ≡ principals_of by.now) }
    ensures numbers { IfOk result (λ i. Each (Each (λ l. l.var.0 < length lits.new)) i.alternatives) }
    ensures alternatives { IfOk result (λ i. map (map (bank_literal bank.now.terms lits.new)) i.alternatives ≡ alternatives_at bank.now
        drafts.now) }
    ensures begins { Begins lits.old lits.new }
    ensures atoms { All (IsAtom bank.now) lits.new }
    ensures err { OnErr result (lits.new ≡ lits.old) }
{
    let _declared = bank.sig();
    let principals = principals(alloc, by)?;
    let alternatives = number_all(alloc, bank, lits, drafts)?;
    Ok(Instance {
        by: by.copied(),
        principals,
        alternatives,
    })
}

/// The instance of a rule with these principals and this term. A predicate that doesn't hold everywhere gets its witness, and the bank
/// the types of all witnesses.
pub fn make(
    alloc: Global,
    bank: &mut Bank,
    normal: &mut Normaliser,
    lits: &mut LitTable,
    witnesses: &mut Witnesses,
    by: &BankUse,
) -> Result<Instance, RuleRefused>
    requires principals { Each (λ l. l.var.0 < length lits.old) (principals_of by.now) }
    requires parts { EachPart (λ id. id < length bank.old.terms) (λ l. l.var.0 < length lits.old) by.now }
    requires atoms { All (IsAtom bank.old) lits.old }
    requires right { IsRightNormaliser normal.old bank.old }
    requires rows { AreRows bank.old witnesses.old }
    requires few { length witnesses.old < 2 ^ 32 - 1 }
    ensures by { IfOk result (λ i. i.by ≡ by.now) }
    ensures principals { IfOk result (λ i. i.principals ≡ principals_of by.now) }
    ensures numbers { IfOk result (λ i. Each (Each (λ l. l.var.0 < length lits.new)) i.alternatives) }
    ensures instance { IfOk result (λ i. IsInstanceBy bank.new lits.new (rows_of bank.new.terms witnesses.new) by.now
        (map (map (bank_literal bank.new.terms lits.new)) i.alternatives)) }
    ensures not_this_rule { result ≡ Err NotThisRule → (rows : List Row) (alternatives : List (List Literal))
        → IsInstanceBy bank.old lits.old rows by.now alternatives → ⊥ }
    ensures widens { Widens bank.old bank.new }
    ensures right { IsRightNormaliser normal.new bank.new }
    ensures begins { Begins lits.old lits.new }
    ensures atoms { All (IsAtom bank.new) lits.new }
    ensures rows { AreRows bank.new witnesses.new }
    ensures types { OnOk result (map (λ r. r.type) (rows_of bank.new.terms witnesses.new) ≡ bank.new.witnesses) }
    ensures witnesses { OnOk result (AreWitnessesBy bank.new lits.new by.now witnesses.old witnesses.new) }
    ensures refused_lits { OnErr result (lits.new ≡ lits.old) }
    ensures refused_witnesses { IfErr result (LeavesWitnesses bank.new lits.new by.now witnesses.old witnesses.new) }
{
    declare(alloc, bank, &*witnesses)?;
    match drafts_of(alloc, bank, normal, &*lits, witnesses, by)? {
        Some(drafts) => Ok(instance_of(alloc, &*bank, lits, by, &drafts)?),
        None => Err(RuleRefused::NotThisRule),
    }
}
