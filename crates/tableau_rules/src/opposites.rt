//! A literal and its negation: how they close a branch, and the cut.
ghost use Rattle.std.specs.Prelude.{[], ◌∷◌, List, Some, IfOk};
ghost use Rattle.tableau_calculus.specs.Witnesses.{Row};
ghost use Rattle.tableau_calculus.specs.declared.rule_use.TwoPlaces.TheVariants.{Close};
ghost use Rattle.tableau_calculus.specs.declared.rule_use.RuleUse.TheVariants.{AtTwo, Cut};
ghost use Rattle.tableau_rules.specs.Internal.Drafted.{principal_at, IsPrincipal, Drafted};

use crate::draft::{Drafts, Principal, Signed, either};
use std::alloc::{AllocError, Global};
use term_bank::Bank;

pub(crate) fn close_drafts(alloc: Global, bank: &Bank, p: Principal, q: Principal) -> Option<Drafts>
    requires first { IsPrincipal bank.now p }
    requires second { IsPrincipal bank.now q }
    ensures { (rows : List Row) → Drafted bank.now rows (p ∷ q ∷ []) (AtTwo Close 0 1) result }
{
    if p.positive == q.positive {
        return None;
    }
    if bank.same(p.atom, q.atom) {
        Some(Drafts::new(alloc))
    } else {
        None
    }
}

pub(crate) fn cut_drafts(alloc: Global, bank: &Bank, p: Principal) -> Result<Drafts, AllocError>
    requires { IsPrincipal bank.now p }
    ensures { IfOk result (λ ds. (rows : List Row) → Drafted bank.now rows [] (Cut (principal_at bank.now p)) (Some ds)) }
{
    let left = Signed {
        formula: p.atom,
        positive: p.positive,
    };
    let right = Signed {
        formula: p.atom,
        positive: !p.positive,
    };
    Ok(either(alloc, left, right)?)
}
