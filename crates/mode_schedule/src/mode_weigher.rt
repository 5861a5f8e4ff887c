//! What computes when the commands of a search are due.
ghost use Rattle.std.specs.Prelude.{◌≡◌, ◌+◌, ◌<◌, ◌^◌, ℕ};
ghost use Rattle.prover_state.specs.Delays.{delay_by};

use command_queue::Weigher;
use mode_file::Mode;
use prover_run::delay;
use prover_search::Waiting;

/// What computes when the commands of a search are due, by its mode.
#[derive(Clone, Copy)]
pub struct ModeWeigher {
    pub mode: Mode,
}

impl Weigher<Waiting> for ModeWeigher {
    ghost is_callable = { λ _. Unit {0} };

    ghost answers = { λ w due. (waiting : _) (now : ℕ) → now < 2 ^ 32 → due waiting now ≡ now + delay_by w.mode waiting.first };

    fn weigh(&self, command: &Waiting, now: u64) -> u64 {
        now + delay(&self.mode, &command.command()) as u64
    }
}
