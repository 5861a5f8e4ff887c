//! Laws of the definitions, as the contracts of functions that do nothing.
ghost use Rattle.mating_rules.specs.Laws.{RightStays, PartnersOfLiterals};

/// An index that is right stays so where the bank and the table grow.
pub fn index_stays_right()
    ensures { RightStays }
{}

/// The partners by numbers stand for those of the literal.
pub fn partners_of_literals()
    ensures { PartnersOfLiterals }
{}
