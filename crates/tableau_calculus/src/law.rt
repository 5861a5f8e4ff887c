//! Soundness: the start of a problem keeps its models, rules keep models along the witness table, and an accepted refutation shows that its
//! start has no model.

ghost use Rattle.std.specs.Prelude.{[]};
ghost use Rattle.stt_core.specs.Meaning.{Model, IsModel};
ghost use Rattle.stt_core.specs.ScopeView.{the_scope};
ghost use Rattle.stt_core.specs.Declarations.{scope_of};
ghost use Rattle.stt_core.specs.TypedProblem.{IsTyped};
ghost use Rattle.stt_core.specs.Meets.{MeetsProblem};
ghost use Rattle.tableau_calculus.specs.Literals.{IsBranch};
ghost use Rattle.tableau_calculus.specs.Meets.{MeetsBranch};
ghost use Rattle.tableau_calculus.specs.Start.{start};
ghost use Rattle.tableau_calculus.specs.Witnesses.{NoneNamesWitness};
ghost use Rattle.tableau_calculus.specs.Accepted.{IsAccepted};
ghost use Rattle.tableau_calculus.specs.Laws.{ModelsExtend, RulesKeepModels};
ghost use Rattle.tableau_calculus.specs.Closed.{Closes, tableau_of};

use crate::lit::Lits;
use crate::refutation::{Refutation, Rows};
use stt_core::{Problem, Signature};

/// A model that meets a typed problem meets the problem's start, whose literals are typed and name no witness.
pub fn start_keeps_models(problem: &Problem)
    requires { IsTyped problem.now }
    ensures meets { (m : Model) → IsModel (scope_of problem.now.declared) m → MeetsProblem problem.now m
        → MeetsBranch (scope_of problem.now.declared) m (start problem.now) }
    ensures typed { IsBranch (scope_of problem.now.declared) (start problem.now) }
    ensures unnamed { NoneNamesWitness (start problem.now) }
{}

/// Where a refutation is accepted for a start that names no witness, no model meets the start, and the tableau of the refutation's
/// last line closes it.
pub fn soundness_law(sig: &Signature, start: &Lits, refutation: &Refutation)
    requires { NoneNamesWitness start.now }
    ensures no_model { IsAccepted (the_scope sig.now []) start.now refutation.now → (m : Model) → IsModel (the_scope sig.now []) m
        → MeetsBranch (the_scope sig.now []) m start.now → ⊥ }
    ensures closed { IsAccepted (the_scope sig.now []) start.now refutation.now → Closes (the_scope sig.now []) refutation.now.witnesses
        (tableau_of refutation.now) start.now }
{}

/// Every model of a signature extends along a witness table: the value of a witness is the least at which its predicate doesn't hold,
/// or 0 where it holds of every value.
pub fn models_extend(sig: &Signature, rows: &Rows)
    ensures { ModelsExtend (the_scope sig.now []) rows.now }
{}

/// Each rule keeps models along the witness table.
pub fn rules_keep_models(sig: &Signature, rows: &Rows)
    ensures { RulesKeepModels (the_scope sig.now []) rows.now }
{}
