//! A law of the definitions.
ghost use Rattle.small_rebuilt.specs.Small.{RebuiltTermsAreSmall, SmallInRange, UsesTakeSmall};

/// Where the literals of the clauses, the terms of the instances and the rows' predicates are small enough for a text, those of a
/// refutation that is rebuilt from them are.
pub fn rebuilt_terms_are_small()
    ensures { RebuiltTermsAreSmall }
{}

/// A refutation whose terms are small and whose numbers are in range is small enough for a text.
pub fn small_in_range()
    ensures { SmallInRange }
{}

/// What rules take is small where the terms at its numbers are.
pub fn uses_take_small()
    ensures { UsesTakeSmall }
{}
