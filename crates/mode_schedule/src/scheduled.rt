//! The schedule of blocks over a problem.
ghost use Rattle.std.specs.Prelude.{◌≡◌, ◌+◌, ◌<◌, ◌≤◌, ℕ, Some, length, map, slice_get, IfOk, IfSome};
ghost use Rattle.std.specs.List.{All};
ghost use Rattle.stt_core.specs.TypedProblem.{IsTyped};
ghost use Rattle.delta_defs.specs.Unfolding.{unfolded_problem};
ghost use Rattle.type_bound.specs.Modest.{IsModestProblem};
ghost use Rattle.prover_state.specs.Delays.{delay_by};
ghost use Rattle.mode_file.specs.Given.{IsInRange};
ghost use Rattle.prover_search.specs.Internal.Starting.{IsPreparedFor};
ghost use Rattle.mode_schedule.specs.Grammar.{most_blocks};
ghost use Rattle.mode_schedule.specs.Scheduled.{EndsBy};
ghost use Rattle.mode_schedule.specs.Internal.Standing.{IsFresh};

use crate::Block;
use crate::ended::Ended;
use crate::mode_weigher::ModeWeigher;
use crate::schedule::Schedule;
use crate::searches::Searches;
use crate::turns::{SliceWeigher, Turn};
use command_queue::Weigher;
use prover_run::refutation_of;
use prover_search::{Prepared, Search, Waiting};
use refute_share::SharedRefutation;
use std::alloc::{AllocError, Global};
use stt_core::Problem;

/// How the schedule of blocks over a problem ends. Where it is closed, the refutation is that of the block's run. Blocks are counted from
/// 0, and `total` is the number of the commands of all runs.
#[derive(Drop)]
pub enum Scheduled {
    Closed {
        block: u32,
        total: u32,
        refutation: SharedRefutation,
    },
    Empty {
        total: u32,
    },
    Limit {
        total: u32,
    },
    Spent {
        conflicts: u64,
    },
}

/// Runs a schedule before its first turn to its end. Where it is closed, the refutation is rebuilt from the log of the search that is left.
fn run_all<W: Weigher<Waiting> + Copy, V: Weigher<Turn>>(
    schedule: &mut Schedule<Search<W>, V>,
    maker: &Searches<'_, W>,
) -> Result<Scheduled, AllocError>
    requires fresh { IsFresh (map (λ b. b.slice) maker.now.blocks.now) schedule.old.turns.entries schedule.old.turns.pushes
        schedule.old.total schedule.old.is_exhausted schedule.old.runs.items }
    requires typed { IsTyped maker.now.problem.now }
    requires modest { IsModestProblem 1024 maker.now.problem.now }
    requires prepared { IsPreparedFor (unfolded_problem maker.now.problem.now) maker.now.prepared.now.basis
        maker.now.prepared.now.start.items }
    requires few { length maker.now.blocks.now ≤ most_blocks }
    requires slices { All (λ b. 0 < b.slice) maker.now.blocks.now }
    requires in_range { All (λ b. IsInRange b.mode) maker.now.blocks.now }
    requires many { length maker.now.weighers.now ≡ length maker.now.blocks.now }
    requires callable { (k : ℕ) → IfSome (slice_get maker.now.weighers.now k) (λ w. W.is_callable w) }
    requires answers { (k : ℕ) (block : _) → slice_get maker.now.blocks.now k ≡ Some block
        → IfSome (slice_get maker.now.weighers.now k) (λ w. W.answers w (λ waiting now. now + delay_by block.mode waiting.first)) }
    ensures { IfOk result (EndsBy (unfolded_problem maker.now.problem.now) maker.now.blocks.now) }
{
    match schedule.run(maker)? {
        Ended::Closed { block, total } => {
            let search = schedule.held(block);
            let refutation = refutation_of(maker.alloc, &search.core.tables)?;
            Ok(Scheduled::Closed {
                block,
                total,
                refutation,
            })
        }
        Ended::Empty { total } => Ok(Scheduled::Empty { total }),
        Ended::Limit { total } => Ok(Scheduled::Limit { total }),
        Ended::Spent { conflicts } => Ok(Scheduled::Spent { conflicts }),
    }
}

/// Runs the schedule over what was prepared for the problem, with what computes when the commands of each search, and turns, are due.
fn run_prepared<W: Weigher<Waiting> + Copy, V: Weigher<Turn>>(
    alloc: Global,
    problem: &Problem,
    prepared: &Prepared,
    blocks: &[Block],
    weighers: &[W],
    turns: V,
) -> Result<Scheduled, AllocError>
    requires typed { IsTyped problem.now }
    requires modest { IsModestProblem 1024 problem.now }
    requires prepared { IsPreparedFor (unfolded_problem problem.now) prepared.now.basis prepared.now.start.items }
    requires few { length blocks.now ≤ most_blocks }
    requires slices { All (λ b. 0 < b.slice) blocks.now }
    requires in_range { All (λ b. IsInRange b.mode) blocks.now }
    requires many { length weighers.now ≡ length blocks.now }
    requires callable { (k : ℕ) → IfSome (slice_get weighers.now k) (λ w. W.is_callable w) }
    requires answers { (k : ℕ) (block : _) → slice_get blocks.now k ≡ Some block
        → IfSome (slice_get weighers.now k) (λ w. W.answers w (λ waiting now. now + delay_by block.mode waiting.first)) }
    requires turns_callable { V.is_callable turns }
    requires turns_answer { V.answers turns (λ turn now. now + turn.slice) }
    ensures { IfOk result (EndsBy (unfolded_problem problem.now) blocks.now) }
{
    let maker = Searches {
        alloc,
        problem,
        prepared,
        blocks,
        weighers,
    };
    let mut schedule = Schedule::new(alloc, blocks, turns)?;
    let scheduled = run_all(&mut schedule, &maker);
    drop(schedule);
    scheduled
}

/// Prepares the start for all searches and runs the schedule, with what computes when the commands of each search, and turns, are due.
fn run_by<W: Weigher<Waiting> + Copy, V: Weigher<Turn>>(
    alloc: Global,
    problem: &Problem,
    blocks: &[Block],
    weighers: &[W],
    turns: V,
) -> Result<Scheduled, AllocError>
    requires typed { IsTyped problem.now }
    requires modest { IsModestProblem 1024 problem.now }
    requires few { length blocks.now ≤ most_blocks }
    requires slices { All (λ b. 0 < b.slice) blocks.now }
    requires in_range { All (λ b. IsInRange b.mode) blocks.now }
    requires many { length weighers.now ≡ length blocks.now }
    requires callable { (k : ℕ) → IfSome (slice_get weighers.now k) (λ w. W.is_callable w) }
    requires answers { (k : ℕ) (block : _) → slice_get blocks.now k ≡ Some block
        → IfSome (slice_get weighers.now k) (λ w. W.answers w (λ waiting now. now + delay_by block.mode waiting.first)) }
    requires turns_callable { V.is_callable turns }
    requires turns_answer { V.answers turns (λ turn now. now + turn.slice) }
    ensures { IfOk result (EndsBy (unfolded_problem problem.now) blocks.now) }
{
    let prepared = Prepared::new(alloc, problem)?;
    let scheduled = run_prepared(alloc, problem, &prepared, blocks, weighers, turns);
    drop(prepared);
    scheduled
}

/// Runs the schedule of the blocks over a problem, whose definitions are unfolded. The problem's types nest so little that each refutation
/// is small enough for a text.
pub fn run_schedule(
    alloc: Global,
    problem: &Problem,
    blocks: &[Block],
) -> Result<Scheduled, AllocError>
    requires typed { IsTyped problem.now }
    requires modest { IsModestProblem 1024 problem.now }
    requires few { length blocks.now ≤ most_blocks }
    requires slices { All (λ b. 0 < b.slice) blocks.now }
    requires in_range { All (λ b. IsInRange b.mode) blocks.now }
    ensures { IfOk result (EndsBy (unfolded_problem problem.now) blocks.now) }
{
    let mut weighers = Vec::new(alloc);
    for block in blocks {
        weighers.push(ModeWeigher { mode: block.mode })?;
    }
    run_by(alloc, problem, blocks, weighers.as_slice(), SliceWeigher)
}
