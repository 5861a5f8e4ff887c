//! A literal and its negation: how they close a branch, and the cut.

ghost use Rattle.std.specs.Prelude.{[], ◌∷◌, List, Some, IfOk};
ghost use Rattle.stt_core.specs.Typing.{Scope};
ghost use Rattle.tableau_calculus.specs.Literals.{IsLiteral};
ghost use Rattle.tableau_calculus.specs.Witnesses.{Row};
ghost use Rattle.tableau_calculus.specs.Checks.{FindsInstance};
ghost use Rattle.tableau_calculus.specs.declared.rule_use.RuleUse.TheVariants.{AtTwo, Cut};
ghost use Rattle.tableau_calculus.specs.declared.rule_use.TwoPlaces.TheVariants.{Close};

use crate::alternatives::{Alternatives, either};
use std::alloc::{AllocError, Global};
use tableau_calculus::{Lit, Lits};

pub fn close_instance(alloc: Global, branch: &Lits, i: usize, j: usize) -> Option<Alternatives>
    ensures { (scope : Scope) (rows : List Row) → FindsInstance scope rows branch.now (AtTwo Close i j) result }
{
    match branch.get(i) {
        Some(lit) => match branch.get(j) {
            Some(other) => {
                if lit.is_opposite(other) {
                    Some(Alternatives::new(alloc))
                } else {
                    None
                }
            }
            None => None,
        },
        None => None,
    }
}

pub fn cut_instance(alloc: Global, branch: &Lits, lit: &Lit) -> Result<Alternatives, AllocError>
    ensures { IfOk result (λ a. (scope : Scope) (rows : List Row) → IsLiteral scope lit.now
        → FindsInstance scope rows branch.now (Cut lit.now) (Some a)) }
{
    let left = lit.try_clone(alloc)?;
    let right = lit.try_clone(alloc)?.opposite();
    Ok(either(alloc, left, right)?)
}
