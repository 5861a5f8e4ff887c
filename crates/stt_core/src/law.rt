//! Laws of the definitions, each as the contract of a function that does nothing.

ghost use Rattle.stt_core.specs.OccurrenceLaw.{ValuesDependOnOccurrences};

/// A term has the same value in two models that agree on what occurs in it.
pub fn values_depend_on_occurrences()
    ensures { ValuesDependOnOccurrences }
{}
