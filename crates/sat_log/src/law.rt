//! Laws of logs and of unit propagation. Each function does nothing: what it says stands in its contract.
ghost use Rattle.std.specs.Prelude.{◌↔◌, List, [], ◌∷◌, ◌++◌};
ghost use Rattle.std.specs.List.{All, Contains};
ghost use Rattle.sat_base.specs.declared.literal.Var.{Var};
ghost use Rattle.sat_base.specs.declared.literal.SatLit.{SatLit};
ghost use Rattle.sat_base.specs.Literal.{HoldsNoVariableTwice, IsAlike};
ghost use Rattle.sat_base.specs.Truth.{Unsat, Implies};
ghost use Rattle.sat_log.specs.declared.log.LogEntry.{LogEntry};
ghost use Rattle.sat_log.specs.Resolution.{resolvent, ClashesOnlyOn};
ghost use Rattle.sat_log.specs.Chains.{results, IsLogOver};
ghost use Rattle.sat_log.specs.Propagation.{IsConsistent, IsFalseIn, IsPropagation, Reaches, ReachesFalse, IsNew, Includes};

/// The clauses imply each result of a right log.
pub fn implied_results_law()
    ensures { (clauses : List (List SatLit)) (log : List LogEntry) → IsLogOver clauses log
        → All (Implies clauses) (results log) }
{}

/// A log stays right where clauses are appended.
pub fn appended_clauses_law()
    ensures { (clauses more : List (List SatLit)) (log : List LogEntry) → IsLogOver clauses log
        → IsLogOver (clauses ++ more) log }
{}

/// Of two clauses that hold no variable twice, the resolvent holds none twice exactly where they clash on no other
/// variable. The resolvent of any two clauses holds none twice where all its literals are false in a consistent list.
pub fn no_variable_twice_law()
    ensures kept { (v : Var) (a b : List SatLit) → HoldsNoVariableTwice a → HoldsNoVariableTwice b
        → (HoldsNoVariableTwice (resolvent v a b) ↔ ClashesOnlyOn v a b) }
    ensures falsified { (literals : List SatLit) (v : Var) (a b : List SatLit) → IsConsistent literals
        → IsFalseIn literals (resolvent v a b) → HoldsNoVariableTwice (resolvent v a b) }
{}

/// Propagation lists only grow with the clauses, and so does what they reach.
pub fn growing_propagation_law()
    ensures lists { (clauses others : List (List SatLit)) → Includes clauses others
        → (given literals : List SatLit) → IsPropagation clauses given literals → IsPropagation others given literals }
    ensures literals { (clauses others : List (List SatLit)) → Includes clauses others
        → (given : List SatLit) (l : SatLit) → Reaches clauses given l → Reaches others given l }
    ensures false_clauses { (clauses others : List (List SatLit)) → Includes clauses others
        → (given : List SatLit) → ReachesFalse clauses given → ReachesFalse others given }
    ensures appended { (clauses more : List (List SatLit)) → Includes clauses (clauses ++ more) }
{}

/// Where unit propagation from no literals reaches a literal, the clauses imply it, and where it reaches a false clause
/// they are unsatisfiable.
pub fn unit_propagation_law()
    ensures implied { (clauses : List (List SatLit)) (l : SatLit) → Reaches clauses [] l → Implies clauses (l ∷ []) }
    ensures unsatisfiable { (clauses : List (List SatLit)) → ReachesFalse clauses [] → Unsat clauses }
{}

/// A clause that is new to unit propagation over some clauses is none of them, not even as a set.
pub fn new_clause_law()
    ensures { (clauses : List (List SatLit)) (clause other : List SatLit) → IsNew clauses clause
        → Contains clauses other → ¬ IsAlike other clause }
{}
