//! The alternatives of a rule at its principals.

ghost use Rattle.std.specs.Prelude.{◌≡◌, [], List, map, IfOk};
ghost use Rattle.stt_core.specs.SimpleType.{SimpleType, predicate};
ghost use Rattle.stt_core.specs.Canonical.{IsCanonical};
ghost use Rattle.stt_core.specs.ScopeView.{the_scope};
ghost use Rattle.tableau_calculus.specs.Literals.{IsBranch};
ghost use Rattle.tableau_calculus.specs.Witnesses.{Row};
ghost use Rattle.tableau_calculus.specs.Accepted.{IsTypedUse};
ghost use Rattle.tableau_calculus.specs.Checks.{FindsInstance};
ghost use Rattle.tableau_calculus.specs.declared.rule_use.RuleUse.TheVariants.{AtTwo, WithPredicate};

use crate::alone::at_one;
use crate::alternatives::Alternatives;
use crate::decompose::mat_instance;
use crate::description::des_instance;
use crate::equation::con_instance;
use crate::opposites::{close_instance, cut_instance};
use crate::quantifier::{all_pos_instance, cho_instance};
use std::alloc::{AllocError, Global};
use stt_core::{Nf, Signature, Types};
use tableau_calculus::{Lits, OfPredicate, PlainRule, Rows, RuleUse, TwoPlaces};

/// The alternatives of a rule whose principals stand at its places in the branch, or none where it doesn't fit.
fn at_two(
    alloc: Global,
    sig: &Signature,
    types: &Types,
    branch: &Lits,
    rule: TwoPlaces,
    i: usize,
    j: usize,
) -> Result<Option<Alternatives>, AllocError>
    requires { IsBranch (the_scope sig.now types.now) branch.now }
    ensures { IfOk result (λ a. (rows : List Row) → FindsInstance (the_scope sig.now types.now) rows branch.now (AtTwo rule i j) a) }
{
    match rule {
        TwoPlaces::Close => Ok(close_instance(alloc, branch, i, j)),
        TwoPlaces::Mat => Ok(mat_instance(alloc, sig, types, branch, i, j)?),
        TwoPlaces::Con => Ok(con_instance(alloc, branch, i, j)?),
    }
}

/// The alternatives of a rule that takes a predicate, or none where it doesn't fit.
fn with_predicate(
    alloc: Global,
    sig: &Signature,
    types: &Types,
    branch: &Lits,
    rule: OfPredicate,
    f: &Nf,
) -> Result<Option<Alternatives>, AllocError>
    requires { (a : SimpleType) × IsCanonical (the_scope sig.now types.now) [] (predicate a) f.now }
    ensures { IfOk result (λ a. (rows : List Row) → FindsInstance (the_scope sig.now types.now) rows branch.now (WithPredicate rule f.now)
        a) }
{
    match rule {
        OfPredicate::Cho => Ok(cho_instance(alloc, sig, types, branch, f)?),
        OfPredicate::Des => Ok(des_instance(alloc, sig, types, branch, f)?),
    }
}

/// The alternatives of a rule whose principals stand at its places in the branch, or none where it doesn't fit.
pub fn find_instance(
    alloc: Global,
    sig: &Signature,
    types: &Types,
    rows: &Rows,
    branch: &Lits,
    rule: &PlainRule,
) -> Result<Option<Alternatives>, AllocError>
    requires types { types.now ≡ map (λ r. r.type) rows.now }
    requires branch { IsBranch (the_scope sig.now types.now) branch.now }
    requires typed { IsTypedUse (the_scope sig.now types.now) rule.now }
    ensures { IfOk result (FindsInstance (the_scope sig.now types.now) rows.now branch.now rule.now) }
{
    match rule {
        RuleUse::AtOne(rule, i) => Ok(at_one(alloc, sig, types, rows, branch, *rule, *i)?),
        RuleUse::AtTwo(rule, i, j) => Ok(at_two(alloc, sig, types, branch, *rule, *i, *j)?),
        RuleUse::AllPos(i, u) => Ok(all_pos_instance(alloc, sig, types, branch, *i, u)?),
        RuleUse::WithPredicate(rule, f) => {
            Ok(with_predicate(alloc, sig, types, branch, *rule, f)?)
        }
        RuleUse::Cut(lit) => Ok(Some(cut_instance(alloc, branch, lit)?)),
    }
}
