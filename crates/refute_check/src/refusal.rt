//! Why a check refuses.

use std::alloc::AllocError;
use tableau_calculus::Why;
use thiserror::Error;

/// Why a text isn't accepted: the first of its lines that fails, counted from 1 in the whole file, and why; or memory ran out.
#[derive(Clone, Copy, Debug, PartialEq, Eq, Error)]
pub enum CheckRefused {
    #[error("line {line}: {why}")]
    Line { line: usize, why: Why },
    #[error("no memory is left")]
    Memory,
}

impl From<AllocError> for CheckRefused {
    ghost use Rattle.std.specs.Prelude.{◌≡◌};
    ghost use Rattle.refute_check.specs.declared.refusal.CheckRefused.TheVariants.{Memory};

    ghost from_gives = { λ _ e. e ≡ Memory };

    fn from(_: AllocError) -> CheckRefused {
        CheckRefused::Memory
    }
}
