//! The value of a clause.
ghost use Rattle.std.specs.Prelude.{◌≡◌};
ghost use Rattle.sat_base.specs.Truth.{clause_value, assigned, IsAssigned};

use crate::assignment::Assignment;
use crate::clause::Clause;

/// Whether some literal of the clause is true.
pub fn value_in(clause: &Clause, assignment: &Assignment) -> bool
    requires { IsAssigned assignment.now clause.now }
    ensures { result ≡ clause_value (assigned assignment.now) clause.now }
{
    for literal in clause.as_slice() {
        if assignment.value(literal.var) == literal.positive {
            return true;
        }
    }
    false
}
