//! From a problem and a schedule to the answer.

ghost use Rattle.std.specs.Prelude.{◌≤◌, ◌<◌, length, IfOk};
ghost use Rattle.std.specs.List.{All};
ghost use Rattle.delta_defs.specs.Unfolding.{unfolded_problem};
ghost use Rattle.mode_file.specs.Given.{IsInRange};
ghost use Rattle.mode_schedule.specs.Grammar.{most_blocks, greatest_slice};
ghost use Rattle.mode_schedule.specs.Scheduled.{EndsBy};
ghost use Rattle.request_answers.specs.Internal.Texts.{HasTexts};
ghost use Rattle.request_answers.specs.Solved.{IsSolvedInTurns};

use crate::solve::{claim_of, proof_text};
use mode_schedule::{Block, Scheduled, run_schedule};
use std::alloc::{AllocError, Global};
use stt_core::Problem;
use szs_report::{Answer, TreeReport};

/// The answer for a schedule over the unfolded problem that has ended. A proof is told with the commands of all runs, and with the number
/// of its block from 1 on.
fn scheduled_answer(
    alloc: Global,
    problem: &Problem,
    blocks: &[Block],
    scheduled: Scheduled,
) -> Result<Answer, AllocError>
    requires texts { HasTexts problem.now }
    requires few { length blocks.now ≤ most_blocks }
    requires ended { EndsBy (unfolded_problem problem.now) blocks.now scheduled }
    ensures { IfOk result (IsSolvedInTurns blocks.now problem.now) }
{
    match scheduled {
        Scheduled::Closed {
            block,
            total,
            refutation,
        } => {
            let text = proof_text(alloc, problem, refutation)?;
            Ok(Answer::Proved {
                claim: claim_of(problem),
                commands: total,
                mode: Some(block + 1),
                tree: TreeReport::Unasked,
                text,
            })
        }
        Scheduled::Empty { total } => Ok(Answer::GaveUp { commands: total }),
        Scheduled::Limit { total } => Ok(Answer::CommandLimit { commands: total }),
        Scheduled::Spent { conflicts } => Ok(Answer::ConflictLimit { conflicts }),
    }
}

/// The answer for a problem, whose definitions the schedule's runs unfold.
fn solve_unfolded_in_turns(
    alloc: Global,
    problem: &Problem,
    blocks: &[Block],
) -> Result<Answer, AllocError>
    requires texts { HasTexts problem.now }
    requires few { length blocks.now ≤ most_blocks }
    requires slices { All (λ b. (0 < b.slice) × (b.slice ≤ greatest_slice)) blocks.now }
    requires in_range { All (λ b. IsInRange b.mode) blocks.now }
    ensures { IfOk result (IsSolvedInTurns blocks.now problem.now) }
{
    let scheduled = run_schedule(alloc, problem, blocks)?;
    scheduled_answer(alloc, problem, blocks, scheduled)
}

/// The answer for a problem that is to be proved by the blocks of a schedule, which take turns.
pub(crate) fn solve_in_turns(alloc: Global, problem: &Problem, blocks: &[Block]) -> Answer
    requires texts { HasTexts problem.now }
    requires few { length blocks.now ≤ most_blocks }
    requires slices { All (λ b. (0 < b.slice) × (b.slice ≤ greatest_slice)) blocks.now }
    requires in_range { All (λ b. IsInRange b.mode) blocks.now }
    ensures { IsSolvedInTurns blocks.now problem.now result }
{
    match solve_unfolded_in_turns(alloc, problem, blocks) {
        Ok(answer) => answer,
        Err(AllocError) => Answer::Memory,
    }
}
