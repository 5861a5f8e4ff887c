//! Laws of clauses. Each function does nothing: what it says stands in its contract.
ghost use Rattle.std.specs.Prelude.{◌≡◌, ◌<◌, ◌≤◌, ◌^◌, ◌↔◌, ℕ, Bool, List, [], length, IsTrue};
ghost use Rattle.std.specs.List.{All, AllPairs};
ghost use Rattle.sat_base.specs.declared.literal.Var.{Var};
ghost use Rattle.sat_base.specs.declared.literal.SatLit.{SatLit};
ghost use Rattle.sat_base.specs.Literal.{HoldsNoVariableTwice, IsAlike, IsOver};
ghost use Rattle.sat_base.specs.Truth.{clause_value, AllTrue, Unsat, Implies};

/// Clauses over n variables, each without a variable twice and no two alike as sets, are at most 3^n.
pub fn clause_count_law()
    ensures { (n : ℕ) (clauses : List (List SatLit)) → All (IsOver n) clauses
        → All HoldsNoVariableTwice clauses → AllPairs (λ a b. ¬ IsAlike a b) clauses
        → length clauses ≤ 3 ^ n }
{}

/// Clauses are unsatisfiable exactly where they imply the clause without literals.
pub fn empty_clause_law()
    ensures { (clauses : List (List SatLit)) → Unsat clauses ↔ Implies clauses [] }
{}

/// What holds for each list of true variables holds for each way to give the variables values: where all clauses
/// are true, so is each clause that they imply, and they are not unsatisfiable.
pub fn valuation_law()
    ensures implied { (clauses : List (List SatLit)) (clause : List SatLit) → Implies clauses clause
        → (value : Var → Bool) → AllTrue value clauses → IsTrue (clause_value value clause) }
    ensures satisfiable { (clauses : List (List SatLit)) (value : Var → Bool)
        → AllTrue value clauses → ¬ Unsat clauses }
{}
