//! The rules that take one principal; those of falsity and of implications stand here.

ghost use Rattle.std.specs.Prelude.{◌≡◌, List, map, IfOk};
ghost use Rattle.stt_core.specs.Typing.{Scope};
ghost use Rattle.stt_core.specs.ScopeView.{the_scope};
ghost use Rattle.tableau_calculus.specs.Literals.{IsBranch};
ghost use Rattle.tableau_calculus.specs.Witnesses.{Row};
ghost use Rattle.tableau_calculus.specs.Checks.{FindsInstance};
ghost use Rattle.stt_tableau.specs.Internal.Instances.{HasShapeAt};
ghost use Rattle.tableau_calculus.specs.declared.rule_use.RuleUse.TheVariants.{AtOne};
ghost use Rattle.tableau_calculus.specs.declared.rule_use.OnePlace.TheVariants.{False, ImpPos, ImpNeg};

use crate::alternatives::{Alternatives, both, either};
use crate::decompose::dec_instance;
use crate::equation::{bool_neg_instance, bool_pos_instance, refl_instance};
use crate::formula::literal_of;
use crate::quantifier::{all_neg_instance, fun_neg_instance, fun_pos_instance};
use std::alloc::{AllocError, Global};
use stt_core::{Signature, Types};
use tableau_calculus::{Lits, OnePlace, Rows, Shape, shape_of};

/// The shape of the atom of the literal of this sign at a place; `Other` where none stands there.
fn shape_at(branch: &Lits, i: usize, positive: bool) -> Shape<'_>
    ensures { HasShapeAt branch.now i positive result }
{
    match branch.get(i) {
        Some(lit) => {
            if lit.positive == positive {
                shape_of(&lit.atom)
            } else {
                Shape::Other
            }
        }
        None => Shape::Other,
    }
}

fn false_instance(alloc: Global, branch: &Lits, i: usize) -> Option<Alternatives>
    ensures { (scope : Scope) (rows : List Row) → FindsInstance scope rows branch.now (AtOne False i) result }
{
    match shape_at(branch, i, true) {
        Shape::False => Some(Alternatives::new(alloc)),
        Shape::Not(_) => None,
        Shape::Imp(_, _) => None,
        Shape::Other => None,
    }
}

fn imp_pos_instance(
    alloc: Global,
    branch: &Lits,
    i: usize,
) -> Result<Option<Alternatives>, AllocError>
    ensures { IfOk result (λ a. (scope : Scope) (rows : List Row) → FindsInstance scope rows branch.now (AtOne ImpPos i) a) }
{
    match shape_at(branch, i, true) {
        Shape::Imp(s, t) => {
            let left = literal_of(alloc, s)?.opposite();
            let right = literal_of(alloc, t)?;
            Ok(Some(either(alloc, left, right)?))
        }
        Shape::False => Ok(None),
        Shape::Not(_) => Ok(None),
        Shape::Other => Ok(None),
    }
}

fn imp_neg_instance(
    alloc: Global,
    branch: &Lits,
    i: usize,
) -> Result<Option<Alternatives>, AllocError>
    ensures { IfOk result (λ a. (scope : Scope) (rows : List Row) → FindsInstance scope rows branch.now (AtOne ImpNeg i) a) }
{
    match shape_at(branch, i, false) {
        Shape::Imp(s, t) => {
            let left = literal_of(alloc, s)?;
            let right = literal_of(alloc, t)?.opposite();
            Ok(Some(both(alloc, left, right)?))
        }
        Shape::False => Ok(None),
        Shape::Not(_) => Ok(None),
        Shape::Other => Ok(None),
    }
}

/// The alternatives of a rule whose principal stands at its place in the branch, or none where it doesn't fit.
pub fn at_one(
    alloc: Global,
    sig: &Signature,
    types: &Types,
    rows: &Rows,
    branch: &Lits,
    rule: OnePlace,
    i: usize,
) -> Result<Option<Alternatives>, AllocError>
    requires types { types.now ≡ map (λ r. r.type) rows.now }
    requires branch { IsBranch (the_scope sig.now types.now) branch.now }
    ensures { IfOk result (FindsInstance (the_scope sig.now types.now) rows.now branch.now (AtOne rule i)) }
{
    match rule {
        OnePlace::False => Ok(false_instance(alloc, branch, i)),
        OnePlace::Refl => Ok(refl_instance(alloc, branch, i)),
        OnePlace::ImpPos => Ok(imp_pos_instance(alloc, branch, i)?),
        OnePlace::ImpNeg => Ok(imp_neg_instance(alloc, branch, i)?),
        OnePlace::BoolPos => Ok(bool_pos_instance(alloc, branch, i)?),
        OnePlace::BoolNeg => Ok(bool_neg_instance(alloc, branch, i)?),
        OnePlace::FunPos => Ok(fun_pos_instance(alloc, branch, i)?),
        OnePlace::FunNeg => Ok(fun_neg_instance(alloc, branch, i)?),
        OnePlace::AllNeg => Ok(all_neg_instance(alloc, rows, branch, i)?),
        OnePlace::Dec => Ok(dec_instance(alloc, sig, types, branch, i)?),
    }
}
