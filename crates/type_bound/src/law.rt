//! Laws of the definitions.
ghost use Rattle.type_bound.specs.Deep.{RunsStayFlat};
ghost use Rattle.type_bound.specs.Modest.{RunsKeepTypes, StartsKeepTypes, UnfoldingKeepsTypes};
ghost use Rattle.type_bound.specs.Small.{RunsStaySmall};
ghost use Rattle.type_bound.specs.Types.{NormalFormsKeepTypes};

/// A term and its normal form have types within the same limit.
pub fn normal_forms_keep_types()
    ensures { NormalFormsKeepTypes }
{}

/// The types of a problem's start nest no deeper than the problem's own.
pub fn starts_keep_types()
    ensures { StartsKeepTypes }
{}

/// A problem with its definitions unfolded has types that nest no deeper than the problem's own.
pub fn unfolding_keeps_types()
    ensures { UnfoldingKeepsTypes }
{}

/// The types of every state of a run nest no deeper than those of its start and of the names.
pub fn runs_keep_types()
    ensures { RunsKeepTypes }
{}

/// The literals of every state of a run nest no deeper than the terms of a text may.
pub fn runs_stay_flat()
    ensures { RunsStayFlat }
{}

/// Where the types of the start and of the names nest at most 1,024 deep, the terms of every state of a run are small enough for a text.
pub fn runs_stay_small()
    ensures { RunsStaySmall }
{}
