//! Why a refutation is refused.

use crate::refutation::Why;
use std::alloc::AllocError;
use thiserror::Error;

/// Why a refutation isn't accepted: the first row or line that fails, and why; or memory ran out. Rows count from 0, and then lines.
#[derive(Debug, Drop, Error)]
pub enum PlainRefused {
    #[error("row or line {line}: {why}")]
    Refused { line: usize, why: Why },
    #[error("no memory is left")]
    Memory,
}

impl From<AllocError> for PlainRefused {
    ghost use Rattle.std.specs.Prelude.{◌≡◌};
    ghost use Rattle.tableau_calculus.specs.declared.refused.PlainRefused.TheVariants.{Memory};

    ghost from_gives = { λ _ e. e ≡ Memory };

    fn from(_: AllocError) -> PlainRefused {
        PlainRefused::Memory
    }
}
