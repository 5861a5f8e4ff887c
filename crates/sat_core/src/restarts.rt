//! When to start again from the root.
ghost use Rattle.std.specs.Prelude.{◌≡◌, ◌+◌, ◌*◌, ◌&&◌, IsTrue, false, not, if◌then◌else◌};
ghost use Rattle.sat_core.specs.Internal.Restarts.{capped, is_restart, is_round_over};

/// After how many conflicts to go back to the root: a unit times 1, 1, 2, 1, 1, 2, 4, 1, 1, 2, ...
#[derive(Clone, Copy)]
pub struct Restarts {
    round: u64,
    factor: u64,
    met: u64,
}

const UNIT: u64 = 1024;

impl Restarts {
    pub fn new() -> Self
        ensures { result ≡ record { round = 1; factor = 1; met = 0 } }
    {
        Restarts {
            round: 1,
            factor: 1,
            met: 0,
        }
    }

    /// Counts a conflict: whether it is time to go back to the root.
    pub fn is_due(&mut self) -> bool
        ensures due { result ≡ is_restart self.old }
        ensures met { self.new.met ≡ (if result then 0 else capped (self.old.met + 1)) }
        ensures round { self.new.round ≡ (if result && is_round_over self.old then capped (self.old.round + 1) else self.old.round) }
        ensures first { IsTrue (result && is_round_over self.old) → self.new.factor ≡ 1 }
        ensures next { IsTrue (result && not (is_round_over self.old)) → self.new.factor ≡ capped (self.old.factor * 2) }
        ensures factor { result ≡ false → self.new.factor ≡ self.old.factor }
    {
        self.met = self.met.saturating_add(1);
        if self.met < self.factor.saturating_mul(UNIT) {
            return false;
        }
        self.met = 0;
        if self.round & self.round.wrapping_neg() == self.factor {
            self.round = self.round.saturating_add(1);
            self.factor = 1;
        } else {
            self.factor = self.factor.saturating_mul(2);
        }
        true
    }
}
