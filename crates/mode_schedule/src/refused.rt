//! Why a schedule isn't read.
ghost use Rattle.std.specs.Prelude.{◌≡◌, ◌+◌, ◌<◌, ◌^◌, List, ℕ};
ghost use Rattle.mode_schedule.specs.declared.refused.ScheduleRefused.TheVariants.{Memory};
ghost use Rattle.mode_schedule.specs.Internal.Refused.{bad_line_of, cause_of, schedule_refused_at};

use mode_file::ModeRefused;
use std::alloc::{AllocError, AllocFailed};
use thiserror::Error;

/// Why a line is bad.
#[derive(Clone, Copy)]
pub(crate) enum Cause {
    UnknownKey,
    NoSlice,
    TooManyBlocks,
    Twice,
    BadNumber,
    OutOfRange,
}

/// A line, counted from 1, and why it is bad.
#[derive(Clone, Copy)]
pub(crate) struct BadLine {
    pub line: u32,
    pub cause: Cause,
}

/// The line that a mode's refusal names, and why.
pub(crate) fn bad_line(refused: ModeRefused) -> BadLine
    ensures line { result.line ≡ bad_line_of refused }
    ensures cause { result.cause ≡ cause_of refused }
{
    match refused {
        ModeRefused::UnknownKey { line } => BadLine {
            line,
            cause: Cause::UnknownKey,
        },
        ModeRefused::Twice { line } => BadLine {
            line,
            cause: Cause::Twice,
        },
        ModeRefused::BadNumber { line } => BadLine {
            line,
            cause: Cause::BadNumber,
        },
        ModeRefused::OutOfRange { line } => BadLine {
            line,
            cause: Cause::OutOfRange,
        },
    }
}

/// The first bad line, counted from 1, or that there is no memory for the blocks.
#[derive(Clone, Copy, Debug, PartialEq, Eq, Error)]
pub enum ScheduleRefused {
    /// Its first word is neither a key nor `slice`.
    #[error("line {line}: there is no such key")]
    UnknownKey { line: u32 },
    /// It is a mode's, and no line before begins a block; or there is no block: one line past the last.
    #[error("line {line}: there is no slice before it")]
    NoSlice { line: u32 },
    /// It begins a 17th block.
    #[error("line {line}: there are too many blocks")]
    TooManyBlocks { line: u32 },
    /// A line before in its block gives a number to its key.
    #[error("line {line}: its key has a number")]
    Twice { line: u32 },
    /// Its first word isn't followed by spaces, a number, any spaces, and at most one carriage return.
    #[error("line {line}: it has no number")]
    BadNumber { line: u32 },
    /// Its number isn't one that its key or a slice takes.
    #[error("line {line}: its number is out of range")]
    OutOfRange { line: u32 },
    /// There is no memory for the blocks.
    #[error("no memory is left")]
    Memory,
}

impl From<AllocError> for ScheduleRefused {
    ghost from_gives = { λ _ e. e ≡ Memory };

    fn from(_: AllocError) -> Self {
        ScheduleRefused::Memory
    }
}

impl<T: Drop> From<AllocFailed<T>> for ScheduleRefused {
    ghost from_gives = { λ _ e. e ≡ Memory };

    fn from(_: AllocFailed<T>) -> Self {
        ScheduleRefused::Memory
    }
}

impl ScheduleRefused {
    pub(crate) fn at(line: u32, cause: Cause) -> Self
        ensures { result ≡ schedule_refused_at line cause }
    {
        match cause {
            Cause::UnknownKey => ScheduleRefused::UnknownKey { line },
            Cause::NoSlice => ScheduleRefused::NoSlice { line },
            Cause::TooManyBlocks => ScheduleRefused::TooManyBlocks { line },
            Cause::Twice => ScheduleRefused::Twice { line },
            Cause::BadNumber => ScheduleRefused::BadNumber { line },
            Cause::OutOfRange => ScheduleRefused::OutOfRange { line },
        }
    }
}
