//! A law about gatherings.

ghost use Rattle.std.specs.Prelude.{◌≡◌, ℕ, List};
ghost use Rattle.thf_include.specs.Gathering.{Ending, IsGathering};

/// Texts have one gathering.
pub fn one_gathering()
    ensures { (texts : List (List ℕ)) (name : List ℕ) (names others : List (List ℕ)) (one other : Ending)
        → IsGathering texts name names one → IsGathering texts name others other
        → (names ≡ others) × (one ≡ other) }
{}
