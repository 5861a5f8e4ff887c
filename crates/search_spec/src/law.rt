//! Laws of the definitions.
ghost use Rattle.search_spec.specs.Laws.{ClosedTermsAreTold, ExamplesRun, NumberedClauses, NumberedInstances, NumberedUnsatisfiable, RunsEndOneWay, StandardKeysChangeNothing, StatesAreTyped};

/// A term without free variables is told by a walk over it.
pub fn closed_terms_are_told()
    ensures { ClosedTermsAreTold }
{}

/// Clauses of numbered literals stand for clauses of formulas.
pub fn numbers_stand_for_formulas()
    ensures instance { NumberedInstances }
    ensures clauses { NumberedClauses }
    ensures unsatisfiable { NumberedUnsatisfiable }
{}

/// A run ends in one way at most.
pub fn runs_end_one_way()
    ensures { RunsEndOneWay }
{}

/// The worked examples run as they are to.
pub fn examples_run()
    ensures { ExamplesRun }
{}

/// Every state of a run is typed.
pub fn states_are_typed()
    ensures { StatesAreTyped }
{}

/// At their standard numbers the keys of this project's own change nothing.
pub fn standard_keys_change_nothing()
    ensures { StandardKeysChangeNothing }
{}
