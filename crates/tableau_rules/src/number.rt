//! Numbers for the formulas of drafts.
ghost use Rattle.std.specs.Prelude.{◌≡◌, ◌<◌, length, map, IfOk, OnErr, All};
ghost use Rattle.term_bank.specs.Terms.{term_at};
ghost use Rattle.literal_map.specs.Atoms.{bank_literal, IsAtom, Begins};
ghost use Rattle.tableau_rules.specs.Internal.Drafted.{principal_at, signed_at, alternatives_at, IsPrincipal};
ghost use Rattle.tableau_rules.specs.Internal.Numbered.{IsSignedFormula, AreFormulasIn, AllFormulas, IsNumbered, AreNumberedLiterals, AllNumbered};

use crate::draft::{Draft, Drafts, Principal, Signed};
use literal_map::{LitList, LitLists, LitTable};
use sat_base::SatLit;
use std::alloc::{AllocError, Global};
use term_bank::Bank;

/// The principal with this number.
pub(crate) fn principal_of(bank: &Bank, lits: &LitTable, lit: SatLit) -> Principal
    requires number { lit.var.0 < length lits.now }
    requires atoms { All (IsAtom bank.now) lits.now }
    ensures is { principal_at bank.now result ≡ bank_literal bank.now.terms lits.now lit }
    ensures principal { IsPrincipal bank.now result }
{
    Principal {
        atom: lits.formula_of(lit),
        positive: lit.positive,
    }
}

fn number_signed(bank: &Bank, lits: &mut LitTable, signed: Signed) -> Result<SatLit, AllocError>
    requires formula { IsSignedFormula bank.now signed }
    requires atoms { All (IsAtom bank.now) lits.old }
    ensures numbered { IfOk result (IsNumbered bank.now lits.new signed) }
    ensures begins { Begins lits.old lits.new }
    ensures atoms { All (IsAtom bank.now) lits.new }
{
    let lit = lits.lit_of(bank, signed.formula)?;
    if signed.positive {
        Ok(lit)
    } else {
        Ok(lit.negated())
    }
}

fn number_draft(
    alloc: Global,
    bank: &Bank,
    lits: &mut LitTable,
    draft: &Draft,
) -> Result<LitList, AllocError>
    requires formulas { AreFormulasIn bank.now draft.now }
    requires atoms { All (IsAtom bank.now) lits.old }
    ensures numbered { IfOk result (AreNumberedLiterals bank.now lits.new draft.now) }
    ensures begins { Begins lits.old lits.new }
    ensures atoms { All (IsAtom bank.now) lits.new }
{
    let mut list = LitList::new(alloc);
    for i in 0..draft.len() {
        let lit = number_signed(bank, lits, draft.at(i))?;
        list.push(lit)?;
    }
    Ok(list)
}

/// The drafts with numbers for their formulas.
pub(crate) fn number_drafts(
    alloc: Global,
    bank: &Bank,
    lits: &mut LitTable,
    drafts: &Drafts,
) -> Result<LitLists, AllocError>
    requires formulas { AllFormulas bank.now drafts.now }
    requires atoms { All (IsAtom bank.now) lits.old }
    ensures numbered { IfOk result (AllNumbered bank.now lits.new drafts.now) }
    ensures begins { Begins lits.old lits.new }
    ensures atoms { All (IsAtom bank.now) lits.new }
{
    let mut lists = LitLists::new(alloc);
    for i in 0..drafts.len() {
        let list = number_draft(alloc, bank, lits, drafts.at(i))?;
        lists.push(list)?;
    }
    Ok(lists)
}
