//! Why statements aren't gathered.

ghost use Rattle.std.specs.Prelude.{◌≡◌};
ghost use Rattle.thf_include.specs.declared.refused.GatherRefused.TheVariants.{Memory};

use std::alloc::{AllocError, AllocFailed};
use thiserror::Error;

/// Why statements aren't gathered: a file or an include stops it, or memory ran out. Each `file` is a file's number, and each `at` a byte
/// place in that file.
#[derive(Clone, Copy, Debug, PartialEq, Eq, Error)]
pub enum GatherRefused {
    /// A call on this file failed, and the count of its name rose.
    #[error("file {file} can't be read")]
    Fault { file: u32 },
    /// The files up to this one have more than 16,777,216 bytes together.
    #[error("the files up to file {file} are too long")]
    TooLong { file: u32 },
    /// The tokens of the file begin no file of the grammar, or one of them is too deep.
    #[error("file {file}, byte {at}: a wrong token, or one that is too deep")]
    Syntax { file: u32, at: u32 },
    /// The include of a file that is open, at the place of its name.
    #[error("file {file}, byte {at}: an include of a file that is open")]
    Cycle { file: u32, at: u32 },
    /// A selected name that no statement has.
    #[error("file {file}, byte {at}: no statement has the selected name")]
    NoSuchName { file: u32, at: u32 },
    /// The include of a 257th file, at the place of its name.
    #[error("file {file}, byte {at}: an include of one file too many")]
    TooMany { file: u32, at: u32 },
    #[error("no memory is left")]
    Memory,
}

impl From<AllocError> for GatherRefused {
    ghost from_gives = { λ _ e. e ≡ Memory };

    fn from(_: AllocError) -> Self {
        GatherRefused::Memory
    }
}

impl<T: Drop> From<AllocFailed<T>> for GatherRefused {
    ghost from_gives = { λ _ e. e ≡ Memory };

    fn from(_: AllocFailed<T>) -> Self {
        GatherRefused::Memory
    }
}
