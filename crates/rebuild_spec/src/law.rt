//! Laws of the definitions.
ghost use Rattle.rebuild_spec.specs.Examples.{ExamplesAreRebuilt};
ghost use Rattle.rebuild_spec.specs.Laws.{BranchesArePicked, OneIsRebuilt, RebuiltFixesInstances, RebuiltHasUsed, RebuiltIsAccepted, RebuiltIsClosed, RebuiltIsFew, RebuiltIsFromSearch, RebuiltIsReached, SomeIsRebuilt};

/// What is rebuilt is accepted, and the tableau of its last line closes the start.
pub fn rebuilt_is_accepted()
    ensures accepted { RebuiltIsAccepted }
    ensures closed { RebuiltIsClosed }
{}

/// From a right log whose last result is the empty clause one refutation is rebuilt.
pub fn one_is_rebuilt()
    ensures some { SomeIsRebuilt }
    ensures one { OneIsRebuilt }
{}

/// The lines of what is rebuilt are reached from the last one, come from the clauses of the search, are few, and are those of all clauses
/// that are used.
pub fn rebuilt_is_trimmed()
    ensures reached { RebuiltIsReached }
    ensures from_search { RebuiltIsFromSearch }
    ensures few { RebuiltIsFew }
    ensures used { RebuiltHasUsed }
{}

/// A refutation fixes which clauses of instances are used, and the instances.
pub fn rebuilt_fixes_instances()
    ensures { RebuiltFixesInstances }
{}

/// The branch of a clause's line is the principals and then the negations of what was picked from the alternatives.
pub fn branches_are_picked()
    ensures { BranchesArePicked }
{}

/// The worked examples are rebuilt as they are to.
pub fn examples_are_rebuilt()
    ensures { ExamplesAreRebuilt }
{}
