//! Searches as the runs of a schedule.
ghost use Rattle.std.specs.Prelude.{◌≡◌, ◌+◌, Some, filter, length, slice_get};
ghost use Rattle.stt_core.specs.TypedProblem.{IsTyped};
ghost use Rattle.delta_defs.specs.Unfolding.{unfolded_problem};
ghost use Rattle.type_bound.specs.Modest.{IsModestProblem};
ghost use Rattle.mode_file.specs.Given.{IsInRange};
ghost use Rattle.tableau_calculus.specs.Start.{start};
ghost use Rattle.search_spec.specs.Shallow.{is_shallow_literal};
ghost use Rattle.prover_state.specs.Delays.{delay_by};
ghost use Rattle.prover_search.specs.Internal.Starting.{IsPreparedFor};
ghost use Rattle.mode_schedule.specs.Scheduled.{slots_for};
ghost use Rattle.mode_schedule.specs.Internal.Searching.{IsReadyAt, IsClosedAfter};

use crate::Block;
use crate::run::{MakesRuns, Run};
use crate::turn::take_turn;
use crate::turned::Took;
use command_queue::Weigher;
use prover_search::{Prepared, Search, Waiting};
use std::alloc::{AllocError, Global};
use stt_core::Problem;

impl<W: Weigher<Waiting>> Run for Search<W> {
    ghost at = { λ s setting literals n. IsReadyAt setting literals n s.core.tables s.core.plan s.mode s.is_refused };

    ghost left = { λ s setting literals n. IsClosedAfter setting literals n s.core.tables s.core.plan s.mode };

    fn turn(&mut self, slice: u32) -> Result<Took, AllocError> {
        let before = self.commands();
        let turned = take_turn(self, slice)?;
        Ok(Took {
            turned,
            commands: self.commands() - before,
        })
    }
}

/// What makes the search of a block over a problem, whose definitions are unfolded. What doesn't depend on the block is prepared once.
#[derive(Clone, Copy)]
pub struct Searches<'a, W: Weigher<Waiting> + Copy> {
    pub alloc: Global,
    pub problem: &'a Problem,
    pub prepared: &'a Prepared,
    pub blocks: &'a [Block],
    pub weighers: &'a [W],
}

impl<W: Weigher<Waiting> + Copy> MakesRuns<Search<W>> for Searches<'_, W> {
    ghost slots = { λ s. slots_for (unfolded_problem s.problem.now) s.blocks.now };

    ghost start = { λ s. filter is_shallow_literal (start (unfolded_problem s.problem.now)) };

    ghost may_make = { λ s k. IsTyped s.problem.now × IsModestProblem 1024 s.problem.now
        × IsPreparedFor (unfolded_problem s.problem.now) s.prepared.now.basis s.prepared.now.start.items
        × (length s.weighers.now ≡ length s.blocks.now)
        × ((block : _) → slice_get s.blocks.now k ≡ Some block → IsInRange block.mode)
        × ((w : _) → slice_get s.weighers.now k ≡ Some w → W.is_callable w)
        × ((block : _) (w : _) → slice_get s.blocks.now k ≡ Some block → slice_get s.weighers.now k ≡ Some w
        → W.answers w (λ waiting now. now + delay_by block.mode waiting.first)) };

    fn make(&self, number: u32) -> Result<Search<W>, AllocError> {
        let number = number as usize;
        let prepared = self.prepared.try_clone(self.alloc)?;
        Search::begin(
            self.alloc,
            self.problem,
            prepared,
            &self.blocks[number].mode,
            self.weighers[number],
        )
    }
}
