//! Why a row isn't worked out.

use std::alloc::AllocError;
use thiserror::Error;

/// Why a row isn't worked out.
#[derive(Clone, Copy, Debug, Drop, Error, PartialEq, Eq)]
pub enum RowRefused {
    #[error("a term has no type")]
    Untyped,
    #[error("memory ran out")]
    Memory,
}

impl From<AllocError> for RowRefused {
    fn from(_error: AllocError) -> RowRefused {
        RowRefused::Memory
    }
}
