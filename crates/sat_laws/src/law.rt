//! Laws of unit propagation. Each function does nothing: what it says stands in its contract.
ghost use Rattle.std.specs.Prelude.{◌≡◌, ◌≤◌, ◌^◌, ◌++◌, ◌∷◌, [], ℕ, List, IsTrue, length, take, false};
ghost use Rattle.std.specs.List.{All, AllPairs, Contains};
ghost use Rattle.sat_base.specs.declared.literal.Var.{Var};
ghost use Rattle.sat_base.specs.declared.literal.SatLit.{SatLit};
ghost use Rattle.sat_base.specs.Literal.{holds, negated, same_literal, HoldsNoVariableTwice, IsAlike};
ghost use Rattle.sat_log.specs.Propagation.{Reaches, ReachesFalse, IsConsistent, IsFalseIn, IsUnitClause, AreFailingDecisions, IsNew};
ghost use Rattle.sat_laws.specs.Internal.Complete.{IsComplete, IsClausePart};
ghost use Rattle.sat_laws.specs.Internal.Counting.{IsAmong};
ghost use Rattle.sat_laws.specs.Internal.Trail.{IsForced};
ghost use Rattle.sat_laws.specs.Internal.Watching.{IsKept};

/// What unit propagation reaches from literals of a complete list is in the list, and it reaches no false clause.
pub fn complete_law()
    ensures reached { (clauses : List (List SatLit)) (literals given : List SatLit) (l : SatLit) → IsComplete clauses literals
        → IsClausePart given literals → Reaches clauses given l → IsTrue (holds literals l) }
    ensures not_false { (clauses : List (List SatLit)) (literals given : List SatLit) → IsComplete clauses literals
        → IsClausePart given literals → ¬ ReachesFalse clauses given }
{}

/// A clause is new to unit propagation where one of its literals is not in some complete list and the negations of all
/// the others are.
pub fn new_clause_law()
    ensures { (clauses : List (List SatLit)) (literals clause : List SatLit) (l : SatLit) → IsComplete clauses literals
        → IsTrue (holds clause l) → holds literals l ≡ false
        → ((m : SatLit) → IsTrue (holds clause m) → same_literal l m ≡ false → IsTrue (holds literals (negated m)))
        → IsNew clauses clause }
{}

/// Where each literal of a trail is given or forced, unit propagation reaches what the trail shows: a clause that is
/// false in it, and so that decisions fail, where it was complete before the last of them.
pub fn forced_trail_law()
    ensures falsified { (clauses : List (List SatLit)) (given trail clause : List SatLit) → IsForced clauses given trail
        → IsConsistent trail → IsClausePart given trail → Contains clauses clause → IsFalseIn trail clause → ReachesFalse clauses given }
    ensures fails { (clauses : List (List SatLit)) (before : List SatLit) (last : SatLit) (prefix trail clause : List SatLit)
        → IsComplete clauses prefix → IsClausePart before prefix → holds prefix last ≡ false → holds prefix (negated last) ≡ false
        → IsForced clauses (before ++ last ∷ []) trail → IsConsistent trail → IsClausePart (before ++ last ∷ []) trail
        → Contains clauses clause → IsFalseIn trail clause → AreFailingDecisions clauses (before ++ last ∷ []) }
{}

/// Two watched literals show, at each decision and where the whole trail is processed, that their clause is not false
/// and that the trail holds what it forces.
pub fn watched_law()
    ensures at_decisions { (starts : List ℕ) (trail : List SatLit) (processed : ℕ) (clause : List SatLit) (first second : SatLit) (s : ℕ)
        → Contains starts s → IsConsistent (take s trail) → IsKept starts trail processed clause first second
        → ¬ IsFalseIn (take s trail) clause × ((l : SatLit) → IsUnitClause (take s trail) clause l → IsTrue (holds (take s trail) l)) }
    ensures now { (starts : List ℕ) (trail clause : List SatLit) (first second : SatLit) → IsConsistent trail
        → IsKept starts trail (length trail) clause first second
        → ¬ IsFalseIn trail clause × ((l : SatLit) → IsUnitClause trail clause l → IsTrue (holds trail l)) }
{}

/// Clauses over some variables, each without a variable twice and no two alike as sets, are at most 3 to the number of
/// these variables.
pub fn clause_count_law()
    ensures { (variables : List Var) (clauses : List (List SatLit)) → All (IsAmong variables) clauses
        → All HoldsNoVariableTwice clauses → AllPairs (λ a b. ¬ IsAlike a b) clauses
        → length clauses ≤ 3 ^ length variables }
{}
