//! Schedules.
ghost use Rattle.std.specs.Prelude.{◌≡◌, ◌+◌, ◌<◌, ◌≤◌, ◌^◌, ◌≢◌, ℕ, Some, None, map, length, slice_get, IfOk, IfSome, IfNone};
ghost use Rattle.mode_schedule.specs.Grammar.{most_blocks};
ghost use Rattle.mode_schedule.specs.Ends.{EndsWith, IsLeft, WhereClosedBy};
ghost use Rattle.mode_schedule.specs.Internal.Standing.{IsFresh, StandsForCourse, AreSlots, turns_left};

use crate::Block;
use crate::closing::let_others_go;
use crate::ended::Ended;
use crate::place::turn_at;
use crate::run::{MakesRuns, Run};
use crate::turned::Turned;
use crate::turns::{SliceRule, Turn};
use command_queue::{Agenda, Weigher};
use std::alloc::{AllocError, Global};

/// How many turns there can be at most.
const MOST_TURNS: u32 = 16_000_017;

/// Runs that take turns. A run is made when its first turn comes, and dropped when it leaves.
#[derive(Drop)]
pub struct Schedule<R: Run, V: Weigher<Turn>> {
    pub runs: Vec<Option<R>>,
    pub turns: Agenda<Turn, SliceRule, V>,
    pub total: u32,
    pub is_exhausted: bool,
}

impl<R: Run, V: Weigher<Turn>> Schedule<R, V> {
    /// A schedule of a run for each block, before its first turn.
    pub fn new(alloc: Global, blocks: &[Block], weigher: V) -> Result<Self, AllocError>
        requires callable { V.is_callable weigher }
        requires answers { V.answers weigher (λ turn now. now + turn.slice) }
        requires few { length blocks.now ≤ most_blocks }
        ensures { IfOk result (λ s. IsFresh (map (λ b. b.slice) blocks.now) s.turns.entries s.turns.pushes s.total s.is_exhausted
            s.runs.items) }
    {
        let mut runs = Vec::new(alloc);
        let mut turns = Agenda::new(alloc, SliceRule, weigher);
        let mut number = 0;
        for block in blocks {
            runs.push(None)?;
            turns.push(
                Turn {
                    block: number,
                    slice: block.slice,
                },
                0,
            )?;
            number += 1;
        }
        Ok(Schedule {
            runs,
            turns,
            total: 0,
            is_exhausted: false,
        })
    }

    /// A turn of the run that is next. The answer is how the schedule ends, where it ends with it.
    fn turn<M: MakesRuns<R>>(&mut self, maker: &M) -> Result<Option<Ended>, AllocError>
        requires stands { StandsForCourse (λ setting n run. R.at run setting (M.start maker.now) n) (M.slots maker.now) (M.start maker.now)
            self.old.turns.entries self.old.turns.pushes self.old.total self.old.is_exhausted self.old.runs.items }
        requires slots { AreSlots (M.slots maker.now) }
        requires may { (k : ℕ) → k < length (M.slots maker.now) → M.may_make maker.now k }
        ensures ended { IfOk result (λ o. IfSome o (EndsWith (M.slots maker.now) (M.start maker.now))) }
        ensures closed { IfOk result
            (λ o. IfSome o
            (λ e. WhereClosedBy e (IsLeft (λ setting n run. R.left run setting (M.start maker.now) n) (M.slots maker.now)
            (M.start maker.now) self.new.runs.items))) }
        ensures goes_on { IfOk result
            (λ o. IfNone o (StandsForCourse (λ setting n run. R.at run setting (M.start maker.now) n) (M.slots maker.now)
            (M.start maker.now) self.new.turns.entries self.new.turns.pushes self.new.total self.new.is_exhausted self.new.runs.items)) }
        ensures fewer { IfOk result
            (λ o. IfNone o (turns_left self.new.total self.new.turns.entries < turns_left self.old.total self.old.turns.entries)) }
    {
        let Some(entry) = self.turns.pop_entry() else {
            if self.is_exhausted {
                return Ok(Some(Ended::Empty { total: self.total }));
            }
            return Ok(Some(Ended::Limit { total: self.total }));
        };
        let turn = entry.command;
        let took = turn_at(maker, turn, &mut self.runs[turn.block as usize])?;
        self.total += took.commands;
        match took.turned {
            Turned::Closed => Ok(Some(Ended::Closed {
                block: turn.block,
                total: self.total,
            })),
            Turned::HasNoneLeft => {
                self.is_exhausted = true;
                Ok(None)
            }
            Turned::IsAtLimit => Ok(None),
            Turned::Spent { conflicts } => Ok(Some(Ended::Spent { conflicts })),
            Turned::Paused => {
                self.turns.push(turn, self.total as u64)?;
                Ok(None)
            }
        }
    }

    /// Takes turns until the schedule ends. Then no run is left but one that closed it.
    pub fn run<M: MakesRuns<R>>(&mut self, maker: &M) -> Result<Ended, AllocError>
        requires fresh { IsFresh (map (λ s. s.slice) (M.slots maker.now)) self.old.turns.entries self.old.turns.pushes self.old.total
            self.old.is_exhausted self.old.runs.items }
        requires slots { AreSlots (M.slots maker.now) }
        requires may { (k : ℕ) → k < length (M.slots maker.now) → M.may_make maker.now k }
        ensures ended { IfOk result (EndsWith (M.slots maker.now) (M.start maker.now)) }
        ensures closed { IfOk result
            (λ e. WhereClosedBy e (IsLeft (λ setting n run. R.left run setting (M.start maker.now) n) (M.slots maker.now)
            (M.start maker.now) self.new.runs.items)) }
        ensures gone { IfOk result (λ e. WhereClosedBy e (λ number. (k : ℕ) → k < length self.new.runs.items → k ≢ number
            → slice_get self.new.runs.items k ≡ Some None)) }
    {
        for _turns in 0..MOST_TURNS {
            if let Some(ended) = self.turn(maker)? {
                let_others_go(&mut self.runs, ended);
                return Ok(ended);
            }
        }
        unreachable!()
    }

    /// The run of a number, which is there.
    pub fn held(&self, number: u32) -> &R
        requires { (run : _) × slice_get self.now.runs.items number ≡ Some (Some run) }
        ensures { slice_get self.now.runs.items number ≡ Some (Some result.now) }
    {
        match &self.runs[number as usize] {
            Some(run) => run,
            None => unreachable!(),
        }
    }
}
