//! Why a text isn't read.

ghost use Rattle.std.specs.Prelude.{◌≡◌};
ghost use Rattle.refute_text.specs.declared.refusal.Refusal.TheVariants.{Memory};

use std::alloc::{AllocError, AllocFailed};
use thiserror::Error;

/// Why a text isn't read: it has a form that isn't the format's, or memory ran out.
#[derive(Clone, Copy, PartialEq, Eq)]
pub(crate) enum Refusal {
    Form,
    Memory,
}

impl From<AllocError> for Refusal {
    ghost from_gives = { λ _ e. e ≡ Memory };

    fn from(_: AllocError) -> Self {
        Refusal::Memory
    }
}

impl<T: Drop> From<AllocFailed<T>> for Refusal {
    ghost from_gives = { λ _ e. e ≡ Memory };

    fn from(_: AllocFailed<T>) -> Self {
        Refusal::Memory
    }
}

/// Why a text isn't read. Lines are counted from 1.
#[derive(Clone, Copy, Debug, PartialEq, Eq, Error)]
pub enum TextRefused {
    /// The first line behind the start line that isn't as it should be.
    #[error("line {line} isn't as it should be")]
    BadLine { line: usize },
    /// There is no start line: one line past the last.
    #[error("line {line}: there is no start line")]
    NoStart { line: usize },
    /// There is no end line, and no bad line: one line past the last.
    #[error("line {line}: there is no end line")]
    NoEnd { line: usize },
    /// There is no memory for the refutation.
    #[error("no memory is left")]
    Memory,
}
