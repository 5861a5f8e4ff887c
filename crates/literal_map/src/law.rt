//! Laws of the definitions, as the contract of a function that does nothing.
ghost use Rattle.literal_map.specs.Laws.{AtomsStay, LiteralsStay};

/// What is said of a table holds too where the bank has grown.
pub fn literals_stay()
    ensures atoms { AtomsStay }
    ensures literals { LiteralsStay }
{}
