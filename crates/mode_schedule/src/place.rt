//! Places of runs: each run is made when its first turn comes, and dropped when it leaves.
ghost use Rattle.std.specs.Prelude.{◌≡◌, ◌+◌, ◌<◌, ◌≤◌, ℕ, Some, None, length, slice_get, IfOk, IfSome, OnOk, IsSome};
ghost use Rattle.mode_schedule.specs.Turns.{Slot};
ghost use Rattle.mode_schedule.specs.Internal.Turning.{IsRunPlace, IsRunThere, TookTurn, TookPlace, WhereLeft, WherePaused, WhereClosed};

use crate::run::{MakesRuns, Run};
use crate::turned::{Took, Turned};
use crate::turns::Turn;
use std::alloc::AllocError;

/// Makes the run of a slot, where it isn't there yet.
fn begin<R: Run, M: MakesRuns<R>>(
    maker: &M,
    number: u32,
    place: &mut Option<R>,
) -> Result<(), AllocError>
    requires within { number < length (M.slots maker.now) }
    requires may { M.may_make maker.now number }
    ensures { OnOk result ((slot : Slot) (n : ℕ) → slice_get (M.slots maker.now) number ≡ Some slot
        → IsRunPlace (λ k run. R.at run slot.setting (M.start maker.now) k) n place.old
        → IsRunThere (λ k run. R.at run slot.setting (M.start maker.now) k) n place.new) }
{
    if place.is_none() {
        let run = maker.make(number)?;
        *place = Some(run);
    }
    Ok(())
}

/// Lets a run go that leaves.
fn let_go<R: Run>(turned: Turned, place: &mut Option<R>)
    ensures left { WhereLeft turned (place.new ≡ None) }
    ensures paused { WherePaused turned (place.new ≡ place.old) }
    ensures closed { WhereClosed turned (place.new ≡ place.old) }
{
    match turned {
        Turned::HasNoneLeft | Turned::IsAtLimit => *place = None,
        Turned::Closed | Turned::Spent { .. } | Turned::Paused => {}
    }
}

/// A turn of the run at a place.
pub(crate) fn turn_at<R: Run, M: MakesRuns<R>>(
    maker: &M,
    turn: Turn,
    place: &mut Option<R>,
) -> Result<Took, AllocError>
    requires within { turn.block < length (M.slots maker.now) }
    requires may { M.may_make maker.now turn.block }
    requires held { (slot : Slot) × (n : ℕ) × (slice_get (M.slots maker.now) turn.block ≡ Some slot)
        × IsRunPlace (λ k run. R.at run slot.setting (M.start maker.now) k) n place.old }
    ensures { IfOk result (λ took. (slot : Slot) (n : ℕ) → slice_get (M.slots maker.now) turn.block ≡ Some slot
        → IsRunPlace (λ k run. R.at run slot.setting (M.start maker.now) k) n place.old
        → TookPlace (λ k run. R.at run slot.setting (M.start maker.now) k) (λ k run. R.left run slot.setting (M.start maker.now) k)
        slot.setting (M.start maker.now) turn.slice n place.new took.turned took.commands) }
{
    begin(maker, turn.block, place)?;
    let took = match place {
        Some(run) => run.turn(turn.slice)?,
        None => unreachable!(),
    };
    let_go(took.turned, place);
    Ok(took)
}
