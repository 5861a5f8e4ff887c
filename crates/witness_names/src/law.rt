//! Laws of the definitions, as the contract of a function that does nothing.
ghost use Rattle.witness_names.specs.Laws.{RowsStay};

/// What is said of a witness table holds too where the bank has grown.
pub fn rows_stay()
    ensures { RowsStay }
{}
