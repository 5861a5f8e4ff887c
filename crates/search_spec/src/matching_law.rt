//! Laws of matching.
ghost use Rattle.search_spec.specs.Matching.Examples.{ExamplesMatch};
ghost use Rattle.search_spec.specs.Matching.Laws.{FoundTermsAreClosed};

/// The worked examples have the patterns and the matches that they are to have.
pub fn examples_match()
    ensures { ExamplesMatch }
{}

/// What matching finds is closed.
pub fn found_terms_are_closed()
    ensures { FoundTermsAreClosed }
{}
