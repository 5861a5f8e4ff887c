//! That a mode file has one answer. The function does nothing: what it says stands in its contract.
ghost use Rattle.std.specs.Prelude.{◌≡◌, List, ℕ};
ghost use Rattle.mode_file.specs.declared.Mode.{Mode};
ghost use Rattle.mode_file.specs.declared.refused.ModeRefused.{ModeRefused};
ghost use Rattle.mode_file.specs.Grammar.{States};
ghost use Rattle.mode_file.specs.Refusals.{Refuses};

/// Lines state one mode, or have one first bad line with one cause, and never both.
pub fn one_answer()
    ensures mode { (lines : List (List ℕ)) (m n : Mode) → States lines m → States lines n → m ≡ n }
    ensures refusal { (lines : List (List ℕ)) (r s : ModeRefused) → Refuses lines r → Refuses lines s → r ≡ s }
    ensures apart { (lines : List (List ℕ)) (m : Mode) (r : ModeRefused) → States lines m → Refuses lines r → ⊥ }
{}
