//! Why a problem isn't read.

ghost use Rattle.std.specs.Prelude.{◌≡◌};
ghost use Rattle.type_check.specs.declared.refusal.Refusal.TheVariants.{Memory};

use std::alloc::{AllocError, AllocFailed};
use thiserror::Error;

/// What is wrong at the place of a type error.
#[derive(Clone, Copy, Debug, PartialEq, Eq, Error)]
pub enum IllWhy {
    /// A name that isn't declared or bound, a type's name used as a term, or a name in a type that is no declared base type.
    #[error("an unknown name")]
    Unknown,
    /// A declared name that is declared again.
    #[error("a name that is declared twice")]
    Twice,
    /// A node whose parts don't have the types that it wants.
    #[error("types that don't fit together")]
    Mismatch,
    /// A formula that isn't of type `$o`.
    #[error("no formula")]
    NotFormula,
    /// A conjecture after another one.
    #[error("a second conjecture")]
    SecondConjecture,
    /// A role that isn't known.
    #[error("an unknown role")]
    RoleUnknown,
}

/// Why a statement isn't read: its first type error, or memory ran out.
#[derive(Clone, Copy, PartialEq, Eq)]
pub(crate) enum Refusal {
    At { at: u32, why: IllWhy },
    Memory,
}

impl From<AllocError> for Refusal {
    ghost from_gives = { λ _ e. e ≡ Memory };

    fn from(_: AllocError) -> Self {
        Refusal::Memory
    }
}

impl<T: Drop> From<AllocFailed<T>> for Refusal {
    ghost from_gives = { λ _ e. e ≡ Memory };

    fn from(_: AllocFailed<T>) -> Self {
        Refusal::Memory
    }
}

/// Why a problem isn't read: the first type error of the first statement that has one, with the number of that statement's file; or
/// memory ran out.
#[derive(Clone, Copy, Debug, PartialEq, Eq, Error)]
pub enum Ill {
    #[error("file {file}, byte {at}: {why}")]
    At { file: u32, at: u32, why: IllWhy },
    #[error("no memory is left")]
    Memory,
}
