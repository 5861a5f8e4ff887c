//! Laws of the definitions.
ghost use Rattle.prover_run.specs.Laws.{EnoughIsNeverSpent, LearnedIsNotEmpty, OneTreeOfRefutation, OneUsedList, PropagatesWithoutConflict, RunPropagatesWithoutConflict, RunWithEnoughIsNeverSpent, SpentEndsEarlier, SpentEndsNoLater, SpentIsNotRefuted};

/// Conflicts that are enough for all clauses over the atoms are never spent. So no run ends by its conflicts where the mode has enough for
/// the clauses of each of its states.
pub fn enough_conflicts()
    ensures clauses { EnoughIsNeverSpent }
    ensures run { RunWithEnoughIsNeverSpent }
{}

/// The empty clause isn't learned. Without a conflict nothing is, and then unit propagation over the clauses alone reaches a false clause.
pub fn no_conflicts()
    ensures not_empty { LearnedIsNotEmpty }
    ensures clauses { PropagatesWithoutConflict }
    ensures run { RunPropagatesWithoutConflict }
{}

/// What was learned where the conflicts are spent doesn't refute the clauses, nor does a part of it. So a run whose conflicts are spent
/// ends no later than one that is proved, and earlier where this one learned nothing else. Two runs over one problem by one mode may learn
/// different clauses, so that the one is spent in the state where the other is proved.
pub fn spent_is_not_refuted()
    ensures clauses { SpentIsNotRefuted }
    ensures no_later { SpentEndsNoLater }
    ensures earlier { SpentEndsEarlier }
{}

/// The log of one input uses one list of instances. Where one refutation is rebuilt from the logs of two runs, these use the same
/// instances, and what comes of the tree is the same.
pub fn one_tree_of_refutation()
    ensures used { OneUsedList }
    ensures tree { OneTreeOfRefutation }
{}
