//! What is left of the runs of a schedule that has ended.
ghost use Rattle.std.specs.Prelude.{◌≡◌, ◌≢◌, ◌<◌, ℕ, Some, None, length, slice_get};
ghost use Rattle.mode_schedule.specs.Ends.{WhereClosedBy};

use crate::ended::Ended;
use crate::run::Run;

/// Lets all runs go but that of a number.
fn keep_only<R: Run>(runs: &mut Vec<Option<R>>, number: usize)
    ensures kept { slice_get runs.new.items number ≡ slice_get runs.old.items number }
    ensures gone { (k : ℕ) → k < length runs.new.items → k ≢ number → slice_get runs.new.items k ≡ Some None }
{
    for other in 0..runs.len() {
        if other != number {
            runs[other] = None;
        }
    }
}

/// Lets all runs go that nobody needs once a schedule has ended so.
pub(crate) fn let_others_go<R: Run>(runs: &mut Vec<Option<R>>, ended: Ended)
    ensures kept { WhereClosedBy ended (λ number. slice_get runs.new.items number ≡ slice_get runs.old.items number) }
    ensures gone { WhereClosedBy ended (λ number. (k : ℕ) → k < length runs.new.items → k ≢ number
        → slice_get runs.new.items k ≡ Some None) }
{
    match ended {
        Ended::Closed { block, .. } => keep_only(runs, block as usize),
        Ended::Empty { .. } | Ended::Limit { .. } | Ended::Spent { .. } => runs.clear(),
    }
}
