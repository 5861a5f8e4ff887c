//! Why tokens aren't read.
ghost use Rattle.std.specs.Prelude.{◌≡◌};
ghost use Rattle.thf_parse.specs.declared.refusal.Refusal.TheVariants.{Memory};

use std::alloc::{AllocError, AllocFailed};

/// Why tokens aren't read: the first of those that are left is wrong or too deep, or memory ran out.
#[derive(Clone, Copy)]
pub enum Refusal {
    Wrong,
    TooDeep,
    Memory,
}

impl From<AllocError> for Refusal {
    ghost from_gives = { λ _ e. e ≡ Memory };

    fn from(_: AllocError) -> Self {
        Refusal::Memory
    }
}

impl<T: Drop> From<AllocFailed<T>> for Refusal {
    ghost from_gives = { λ _ e. e ≡ Memory };

    fn from(_: AllocFailed<T>) -> Self {
        Refusal::Memory
    }
}
