//! Laws of the definitions.
ghost use Rattle.read_bound.specs.Read.{ReadingsAreModest, RunsOfFilesStaySmall};

/// The problem that gathered statements state has types that nest at most 1,024 deep.
pub fn readings_are_modest()
    ensures { ReadingsAreModest }
{}

/// The terms of each state of a run over a problem that files state are small enough for a text.
pub fn runs_of_files_stay_small()
    ensures { RunsOfFilesStaySmall }
{}
