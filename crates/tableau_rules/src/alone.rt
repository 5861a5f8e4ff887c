//! The rules that take one principal; those of falsity and of implications stand here.
ghost use Rattle.std.specs.Prelude.{◌≡◌, ◌<◌, false, [], ◌∷◌, List, length, All, IfOk};
ghost use Rattle.tableau_calculus.specs.Witnesses.{Row};
ghost use Rattle.tableau_calculus.specs.declared.rule_use.OnePlace.TheVariants.{False, ImpPos, ImpNeg};
ghost use Rattle.tableau_calculus.specs.declared.rule_use.RuleUse.TheVariants.{AtOne};
ghost use Rattle.term_bank.specs.Content.{Grows};
ghost use Rattle.literal_map.specs.Atoms.{IsAtom};
ghost use Rattle.tableau_rules.specs.Changes.{makes_witness};
ghost use Rattle.tableau_rules.specs.Internal.Drafted.{IsPrincipal, Drafted};
ghost use Rattle.tableau_rules.specs.Internal.Used.{DraftedBy};

use crate::draft::{Drafts, Principal, both, either, fails, holds};
use crate::equation::{bool_neg_drafts, bool_pos_drafts, refl_drafts};
use crate::function::{fun_neg_drafts, fun_pos_drafts};
use crate::number::principal_of;
use crate::part::{implication_of, is_falsity};
use crate::spine::dec_drafts;
use literal_map::LitTable;
use sat_base::SatLit;
use std::alloc::{AllocError, Global};
use tableau_calculus::OnePlace;
use term_bank::Bank;

fn false_drafts(alloc: Global, bank: &Bank, p: Principal) -> Option<Drafts>
    requires { IsPrincipal bank.now p }
    ensures { (rows : List Row) → Drafted bank.now rows (p ∷ []) (AtOne False 0) result }
{
    if p.positive {
        if is_falsity(bank, p.atom) {
            return Some(Drafts::new(alloc));
        }
    }
    None
}

fn imp_pos_drafts(alloc: Global, bank: &Bank, p: Principal) -> Result<Option<Drafts>, AllocError>
    requires { IsPrincipal bank.now p }
    ensures { IfOk result (λ o. (rows : List Row) → Drafted bank.now rows (p ∷ []) (AtOne ImpPos 0) o) }
{
    if !p.positive {
        return Ok(None);
    }
    match implication_of(bank, p.atom) {
        Some(sides) => Ok(Some(either(alloc, fails(sides.left), holds(sides.right))?)),
        None => Ok(None),
    }
}

fn imp_neg_drafts(alloc: Global, bank: &Bank, p: Principal) -> Result<Option<Drafts>, AllocError>
    requires { IsPrincipal bank.now p }
    ensures { IfOk result (λ o. (rows : List Row) → Drafted bank.now rows (p ∷ []) (AtOne ImpNeg 0) o) }
{
    if p.positive {
        return Ok(None);
    }
    match implication_of(bank, p.atom) {
        Some(sides) => Ok(Some(both(alloc, holds(sides.left), fails(sides.right))?)),
        None => Ok(None),
    }
}

/// The drafts of a rule that takes one principal and makes no witness.
pub(crate) fn at_one(
    alloc: Global,
    bank: &mut Bank,
    lits: &LitTable,
    rule: OnePlace,
    lit: SatLit,
) -> Result<Option<Drafts>, AllocError>
    requires rule { makes_witness rule ≡ false }
    requires number { lit.var.0 < length lits.now }
    requires atoms { All (IsAtom bank.old) lits.now }
    ensures drafted { IfOk result (λ o. (rows : List Row) → DraftedBy bank.new lits.now rows (AtOne rule lit) o) }
    ensures grows { Grows bank.old bank.new }
{
    let p = principal_of(&*bank, lits, lit);
    match rule {
        OnePlace::False => Ok(false_drafts(alloc, &*bank, p)),
        OnePlace::Refl => Ok(refl_drafts(alloc, &*bank, p)),
        OnePlace::ImpPos => Ok(imp_pos_drafts(alloc, &*bank, p)?),
        OnePlace::ImpNeg => Ok(imp_neg_drafts(alloc, &*bank, p)?),
        OnePlace::BoolPos => Ok(bool_pos_drafts(alloc, &*bank, p)?),
        OnePlace::BoolNeg => Ok(bool_neg_drafts(alloc, &*bank, p)?),
        OnePlace::FunPos => Ok(fun_pos_drafts(alloc, bank, p)?),
        OnePlace::FunNeg => Ok(fun_neg_drafts(alloc, bank, p)?),
        OnePlace::AllNeg => unreachable!(),
        OnePlace::Dec => Ok(dec_drafts(alloc, bank, p)?),
    }
}
