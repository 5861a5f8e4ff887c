//! Turns that wait, and what computes when they are due.
ghost use Rattle.std.specs.Prelude.{◌≡◌, ◌+◌, ◌<◌, ◌^◌, ℕ};

use command_queue::{DueRule, Weigher};

/// A turn of the search of a block, by the block's number, and how many commands it carries out at most.
#[derive(Clone, Copy, PartialEq, Eq)]
pub struct Turn {
    pub block: u32,
    pub slice: u32,
}

/// A turn is due when as many commands were carried out as its slice has.
#[derive(Clone, Copy)]
pub struct SliceRule;

impl DueRule<Turn> for SliceRule {
    ghost due = { λ _ turn now. now + turn.slice };
}

/// What computes when turns are due.
#[derive(Clone, Copy)]
pub struct SliceWeigher;

impl Weigher<Turn> for SliceWeigher {
    ghost is_callable = { λ _. Unit {0} };

    ghost answers = { λ _ due. (turn : _) (now : ℕ) → now < 2 ^ 32 → due turn now ≡ now + turn.slice };

    fn weigh(&self, command: &Turn, now: u64) -> u64 {
        now + command.slice as u64
    }
}
