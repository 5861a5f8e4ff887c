//! The rule for what holds everywhere.
ghost use Rattle.std.specs.Prelude.{◌≡◌, ◌<◌, ◌↔◌, [], ◌∷◌, List, length, IfOk, IsTrue};
ghost use Rattle.stt_core.specs.Canonical.{IsCanonical};
ghost use Rattle.stt_core.specs.View.{the_type};
ghost use Rattle.tableau_calculus.specs.Witnesses.{Row};
ghost use Rattle.tableau_calculus.specs.declared.rule_use.RuleUse.TheVariants.{AllPos};
ghost use Rattle.term_bank.specs.Content.{content_scope, Grows};
ghost use Rattle.term_bank.specs.Terms.{term_at};
ghost use Rattle.bank_normal.specs.Right.{IsRightNormaliser};
ghost use Rattle.tableau_rules.specs.Internal.Drafted.{IsPrincipal, Drafted};

use crate::draft::{Drafts, Principal, holds, one};
use crate::part::quantified_of;
use bank_normal::Normaliser;
use std::alloc::{AllocError, Global};
use stt_core::Ty;
use term_bank::{Bank, Id};

/// Whether the term is closed and has this type.
fn is_closed_of(bank: &Bank, u: Id, ty: &Ty) -> Result<bool, AllocError>
    requires { u < length bank.now.terms }
    ensures { IfOk result (λ is. IsTrue is ↔ IsCanonical (content_scope bank.now) [] (the_type ty.now) (term_at bank.now.terms u)) }
{
    if bank.is_closed(u) {
        Ok(bank.ty(u)?.same(ty))
    } else {
        Ok(false)
    }
}

pub(crate) fn all_pos_drafts(
    alloc: Global,
    bank: &mut Bank,
    normal: &mut Normaliser,
    p: Principal,
    u: Id,
) -> Result<Option<Drafts>, AllocError>
    requires principal { IsPrincipal bank.old p }
    requires term { u < length bank.old.terms }
    requires right { IsRightNormaliser normal.old bank.old }
    ensures drafted { IfOk result (λ o. (rows : List Row) → Drafted bank.new rows (p ∷ []) (AllPos 0 (term_at bank.old.terms u)) o) }
    ensures grows { Grows bank.old bank.new }
    ensures right { IsRightNormaliser normal.new bank.new }
{
    if !p.positive {
        return Ok(None);
    }
    match quantified_of(&*bank, p.atom) {
        Some(quantified) => {
            if is_closed_of(&*bank, u, quantified.ty)? {
                let predicate = quantified.predicate;
                let value = normal.instantiate(bank, predicate, u)?;
                Ok(Some(one(alloc, holds(value))?))
            } else {
                Ok(None)
            }
        }
        None => Ok(None),
    }
}
