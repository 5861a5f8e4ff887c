//! Laws of accepted texts. Each function does nothing: what it says stands in its contract.

ghost use Rattle.std.specs.Prelude.{◌≡◌, ℕ};
ghost use Rattle.stt_core.specs.Meaning.{Model, IsModel};
ghost use Rattle.stt_core.specs.Declarations.{scope_of};
ghost use Rattle.stt_core.specs.TypedProblem.{IsTyped};
ghost use Rattle.stt_core.specs.Meets.{MeetsProblem};
ghost use Rattle.tableau_calculus.specs.Start.{start};
ghost use Rattle.tableau_calculus.specs.declared.refutation.Why.{Why};
ghost use Rattle.delta_defs.specs.Unfolding.{unfolded_problem};
ghost use Rattle.refute_print.specs.Trees.{RefutationTree};
ghost use Rattle.refute_check.specs.Acceptance.{taken_texts, NamesDefinitions, refuted_problem, IsAcceptedFor, TextFailsAt};

use stt_core::Problem;

/// Where a text of either version is accepted for a typed problem, no model meets the problem.
pub fn accepted_texts_refute(problem: &Problem)
    requires { IsTyped problem.now }
    ensures { (t : RefutationTree) → IsAcceptedFor problem.now t → (m : Model) → IsModel (scope_of problem.now.declared) m
        → MeetsProblem problem.now m → ⊥ }
{}

/// A text is refused at one line, for one cause, and isn't accepted then.
pub fn one_refusal(problem: &Problem)
    ensures one { (t : RefutationTree) (first line other : ℕ) (why cause : Why) → TextFailsAt problem.now t first line why
        → TextFailsAt problem.now t first other cause → (line ≡ other) × (why ≡ cause) }
    ensures refused { (t : RefutationTree) (first line : ℕ) (why : Why) → TextFailsAt problem.now t first line why
        → IsAcceptedFor problem.now t → ⊥ }
{}

/// The start of the unfolded problem is its own. A text with the names of the definitions that are taken, of whichever version it is, is
/// one for that start.
pub fn unfolded_start(problem: &Problem)
    ensures once { start (unfolded_problem (unfolded_problem problem.now)) ≡ start (unfolded_problem problem.now) }
    ensures named { NamesDefinitions problem.now (taken_texts problem.now) }
    ensures taken { start (refuted_problem problem.now (taken_texts problem.now)) ≡ start (unfolded_problem problem.now) }
{}
