//! Laws of the definitions, each as the contract of a function that does nothing.

ghost use Rattle.std.specs.Prelude.{◌≡◌, ℕ, List, Option};
ghost use Rattle.outside.specs.Seen.{Seen};
ghost use Rattle.stt_core.specs.PlainProblem.{PlainProblem};
ghost use Rattle.mode_file.specs.declared.Mode.{Mode};
ghost use Rattle.mode_schedule.specs.declared.Block.{Block};
ghost use Rattle.szs_report.specs.Outcomes.{outcome_of, without_refutation};
ghost use Rattle.szs_report.specs.declared.answer.Answer.{Answer};
ghost use Rattle.szs_report.specs.declared.answer.Answer.TheVariants.{ConflictLimit};
ghost use Rattle.request_answers.specs.Solved.{IsSolved, IsSolvedInTurns};
ghost use Rattle.request_answers.specs.Answers.{IsSettled, Defined, IsAnswer};
ghost use Rattle.satallax_top.specs.Headline.{AreConflictsEnough};
ghost use Rattle.satallax_top.specs.Laws.{ProofPropagatesWithoutConflict, SpentEndsBeforeProof, SpentEndsNoLaterThanProof};

/// Where the files tell their contents there is one defined answer, but for the refutation of a proof, which may be any accepted one.
/// So there is one outcome. A run ends in one way, after one number of commands, where its conflicts aren't spent, and so does a schedule
/// of runs.
pub fn one_answer()
    ensures run { (nodes : Option ℕ) (m : Mode) (p : PlainProblem) (one other : Answer) → IsSettled one → IsSettled other
        → IsSolved nodes m p one → IsSolved nodes m p other
        → without_refutation one ≡ without_refutation other }
    ensures schedule { (blocks : List Block) (p : PlainProblem) (one other : Answer) → IsSettled one → IsSettled other
        → IsSolvedInTurns blocks p one → IsSolvedInTurns blocks p other
        → without_refutation one ≡ without_refutation other }
    ensures answer { (words : List (List ℕ)) (contents : List ℕ → Option (List ℕ)) (one other : Answer)
        → Defined words contents one → Defined words contents other
        → without_refutation one ≡ without_refutation other }
    ensures outcome { (words : List (List ℕ)) (contents : List ℕ → Option (List ℕ)) (one other : Answer)
        → Defined words contents one → Defined words contents other
        → outcome_of one ≡ outcome_of other }
{}

/// Where the mode has enough conflicts for all clauses over the atoms of each state of the run, it isn't answered that they are spent.
pub fn enough_is_never_spent()
    ensures { (words : List (List ℕ)) (seen : Seen) (conflicts : ℕ) → AreConflictsEnough words seen
        → IsAnswer words seen (ConflictLimit conflicts) → ⊥ }
{}

/// Where a proof is reported by a mode that has no conflicts, unit propagation over the clauses of the search reaches a false clause. A run
/// over the same problem by the same mode whose conflicts are spent ends no later, and earlier where the proof learned nothing else.
pub fn conflicts_of_a_proof()
    ensures propagated { ProofPropagatesWithoutConflict }
    ensures no_later { SpentEndsNoLaterThanProof }
    ensures earlier { SpentEndsBeforeProof }
{}
