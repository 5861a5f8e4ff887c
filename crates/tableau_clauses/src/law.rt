//! Laws of the clauses of instances. The function does nothing: what it says stands in its contract.
ghost use Rattle.std.specs.Prelude.{List};
ghost use Rattle.sat_base.specs.declared.literal.SatLit.{SatLit};
ghost use Rattle.sat_base.specs.Literal.{HoldsNoVariableTwice};
ghost use Rattle.search_spec.specs.Clauses.{instance_clauses};
ghost use Rattle.tableau_calculus.specs.Each.{Each};
ghost use Rattle.search_spec.specs.Numbered.{numbers};

/// No clause of an instance holds a variable twice, so a solver takes it.
pub fn clauses_hold_no_variable_twice()
    ensures { (principals : List SatLit) (alternatives : List (List SatLit)) → Each HoldsNoVariableTwice
        (instance_clauses numbers principals alternatives) }
{}
