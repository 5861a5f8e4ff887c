//! Why a row has no answer.

use std::alloc::{AllocError, AllocFailed};
use thiserror::Error;

/// Why a row has no answer: it says nothing, or memory ran out.
#[derive(Clone, Copy, Debug, PartialEq, Eq, Error)]
pub enum RowRefused {
    #[error("the row says nothing")]
    Unread,
    #[error("no memory is left")]
    Memory,
}

impl From<AllocError> for RowRefused {
    fn from(_: AllocError) -> RowRefused {
        RowRefused::Memory
    }
}

impl<T: Drop> From<AllocFailed<T>> for RowRefused {
    fn from(_: AllocFailed<T>) -> RowRefused {
        RowRefused::Memory
    }
}
