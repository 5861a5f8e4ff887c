//! From a problem to the answer.

ghost use Rattle.std.specs.Prelude.{◌≡◌, IfOk};
ghost use Rattle.delta_defs.specs.Unfolding.{taken_names, unfolded_problem};
ghost use Rattle.mode_file.specs.Given.{IsInRange};
ghost use Rattle.prover_run.specs.Ended.{EndsAs};
ghost use Rattle.refute_print.specs.Named.{named_refutation, IsNamed};
ghost use Rattle.refute_print.specs.Text.{text_lines, as_bytes};
ghost use Rattle.stt_core.specs.TypedProblem.{IsTyped};
ghost use Rattle.request_answers.specs.Names.{names_in};
ghost use Rattle.request_answers.specs.Internal.Texts.{HasTexts};
ghost use Rattle.request_answers.specs.Solved.{claim_of, reported_refutation, tree_told, IsSolved};

use delta_defs::taken;
use mode_file::Mode;
use plain_tableau::Stripped;
use prover_run::{Ended, run};
use refute_share::SharedRefutation;
use std::alloc::{AllocError, Global};
use stt_core::Problem;
use szs_report::{Answer, Claim, ProofText, TreeReport};

/// What a refutation of the problem's start shows.
pub(crate) fn claim_of(problem: &Problem) -> Claim
    ensures { result ≡ claim_of problem.now }
{
    match &problem.conjecture {
        Some(_) => Claim::Theorem,
        None => Claim::Unsatisfiable,
    }
}

/// The refutation that is written, and what is told of a tree.
fn written(rebuilt: SharedRefutation, tree: Option<Stripped>) -> (SharedRefutation, TreeReport)
    ensures written { result.0 ≡ reported_refutation rebuilt tree }
    ensures told { result.1 ≡ tree_told tree }
{
    match tree {
        None => (rebuilt, TreeReport::Unasked),
        Some(Stripped::Tree { refutation, nodes }) => (refutation, TreeReport::Tree { nodes }),
        Some(Stripped::Open { .. }) => (rebuilt, TreeReport::Open),
        Some(Stripped::Over { nodes }) => (rebuilt, TreeReport::Over { nodes }),
    }
}

/// The text of a refutation of the unfolded problem, with the names of the definitions that are taken.
pub(crate) fn proof_text(
    alloc: Global,
    problem: &Problem,
    refutation: SharedRefutation,
) -> Result<ProofText, AllocError>
    requires typed { IsTyped problem.now }
    requires named { IsNamed (names_in problem.now) refutation }
    ensures { IfOk result
        (λ text. text ≡ as_bytes (text_lines (named_refutation (names_in problem.now) (taken_names problem.now) refutation))) }
{
    let names = taken(alloc, problem)?;
    ProofText::new(alloc, &problem.signature, names.as_slice(), refutation)
}

/// The answer for a run over the unfolded problem that has ended.
fn ended_answer(
    alloc: Global,
    problem: &Problem,
    mode: &Mode,
    nodes: Option<u32>,
    ended: Ended,
) -> Result<Answer, AllocError>
    requires texts { HasTexts problem.now }
    requires ended { EndsAs (unfolded_problem problem.now) mode.now nodes ended }
    ensures { IfOk result (IsSolved nodes mode.now problem.now) }
{
    match ended {
        Ended::Proved {
            commands,
            refutation,
            tree,
        } => {
            let (refutation, tree) = written(refutation, tree);
            let text = proof_text(alloc, problem, refutation)?;
            Ok(Answer::Proved {
                claim: claim_of(problem),
                commands,
                mode: None,
                tree,
                text,
            })
        }
        Ended::GaveUp { commands } => Ok(Answer::GaveUp { commands }),
        Ended::CommandLimit { commands } => Ok(Answer::CommandLimit { commands }),
        Ended::ConflictLimit { conflicts } => Ok(Answer::ConflictLimit { conflicts }),
    }
}

/// The answer for a problem, whose definitions the run unfolds.
fn solve_unfolded(
    alloc: Global,
    problem: &Problem,
    mode: &Mode,
    nodes: Option<u32>,
) -> Result<Answer, AllocError>
    requires texts { HasTexts problem.now }
    requires range { IsInRange mode.now }
    ensures { IfOk result (IsSolved nodes mode.now problem.now) }
{
    let ended = run(alloc, problem, mode, nodes)?;
    ended_answer(alloc, problem, mode, nodes, ended)
}

/// The answer for a problem that is to be proved, with a tree without cut of at most so many nodes where one is asked for.
pub(crate) fn solve(alloc: Global, problem: &Problem, mode: &Mode, nodes: Option<u32>) -> Answer
    requires texts { HasTexts problem.now }
    requires range { IsInRange mode.now }
    ensures { IsSolved nodes mode.now problem.now result }
{
    match solve_unfolded(alloc, problem, mode, nodes) {
        Ok(answer) => answer,
        Err(AllocError) => Answer::Memory,
    }
}
