//! Laws of the definitions, each as the contract of a function that does nothing.

ghost use Rattle.std.specs.Prelude.{◌≡◌, ℕ, List};
ghost use Rattle.stt_core.specs.PlainProblem.{PlainProblem};
ghost use Rattle.tableau_calculus.specs.declared.refutation.Why.{Why};
ghost use Rattle.cli_words.specs.declared.Cuts.{Cuts};
ghost use Rattle.request_answers.specs.Checked.{IsAcceptedText, IsRefusedText};

/// No text is both accepted and refused, and none is refused at two lines or for two causes.
pub fn one_check()
    ensures accepted { (cuts : Cuts) (p : PlainProblem) (bytes : List ℕ) (line : ℕ) (why : Why) → IsAcceptedText cuts p bytes
        → IsRefusedText cuts p bytes line why → ⊥ }
    ensures refused { (cuts : Cuts) (p : PlainProblem) (bytes : List ℕ) (line other : ℕ) (why cause : Why)
        → IsRefusedText cuts p bytes line why → IsRefusedText cuts p bytes other cause
        → (line ≡ other) × (why ≡ cause) }
{}
