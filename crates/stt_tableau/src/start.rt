//! The literals from which the refutations of a problem start.

ghost use Rattle.std.specs.Prelude.{◌≡◌, [], ◌∷◌, map, IfOk, OnOk};
ghost use Rattle.stt_core.specs.View.{the_term};
ghost use Rattle.stt_core.specs.ScopeView.{the_scope};
ghost use Rattle.stt_core.specs.Typing.{IsScope};
ghost use Rattle.stt_core.specs.TypedProblem.{IsFormula, AreFormulas, IsTyped};
ghost use Rattle.tableau_calculus.specs.Start.{without_repeats, normal_literal, start};
ghost use Rattle.tableau_calculus.specs.Kinds.{added, formulas};

use crate::formula::literal_of;
use std::alloc::{AllocError, Global};
use stt_core::{Problem, Signature, Term, Terms, Types};
use stt_normal::normalise;
use tableau_calculus::{Lit, Lits};

/// Adds the literal where the list doesn't have it.
fn add(lits: &mut Lits, lit: Lit) -> Result<(), AllocError>
    ensures { OnOk result (lits.new ≡ added formulas lits.old (lit ∷ [])) }
{
    if !lits.contains(&lit) {
        lits.push(lit)?;
    }
    Ok(())
}

/// The literal of a formula's normal form.
pub fn formula_literal(alloc: Global, sig: &Signature, formula: &Term) -> Result<Lit, AllocError>
    requires scope { IsScope (the_scope sig.now []) }
    requires formula { IsFormula (the_scope sig.now []) (the_term formula.now) }
    ensures { IfOk result (λ lit. lit ≡ normal_literal (the_scope sig.now []) (the_term formula.now)) }
{
    let none = Types::new(alloc);
    let canonical = normalise(alloc, sig, &none, &none, formula)?;
    Ok(literal_of(alloc, &canonical)?)
}

/// The literals of the assumed formulas, without repeats.
fn assumed_literals(alloc: Global, sig: &Signature, assumed: &Terms) -> Result<Lits, AllocError>
    requires scope { IsScope (the_scope sig.now []) }
    requires assumed { AreFormulas (the_scope sig.now []) assumed.now }
    ensures { IfOk result (λ lits. lits ≡ without_repeats (map (normal_literal (the_scope sig.now [])) assumed.now)) }
{
    let mut lits = Lits::new(alloc);
    for i in 0..assumed.len() {
        let lit = formula_literal(alloc, sig, assumed.at(i))?;
        add(&mut lits, lit)?;
    }
    Ok(lits)
}

/// The start of a problem: the literals of the assumed formulas and the negation of the conjecture's, without repeats.
pub fn start_literals(alloc: Global, problem: &Problem) -> Result<Lits, AllocError>
    requires { IsTyped problem.now }
    ensures { IfOk result (λ lits. lits ≡ start problem.now) }
{
    let sig = &problem.signature;
    let mut lits = assumed_literals(alloc, sig, &problem.assumed)?;
    match &problem.conjecture {
        None => Ok(lits),
        Some(conjecture) => {
            let denied = formula_literal(alloc, sig, conjecture)?.opposite();
            add(&mut lits, denied)?;
            Ok(lits)
        }
    }
}
