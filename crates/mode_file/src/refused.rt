//! The refusals.
ghost use Rattle.std.specs.Prelude.{List, ℕ};

use thiserror::Error;

/// Why a line is bad.
#[derive(Clone, Copy)]
pub(crate) enum Cause {
    UnknownKey,
    Twice,
    BadNumber,
    OutOfRange,
}

/// The first bad line, counted from 1.
#[derive(Clone, Copy, Debug, PartialEq, Eq, Error)]
pub enum ModeRefused {
    /// Its first word isn't a key.
    #[error("line {line}: there is no such key")]
    UnknownKey { line: u32 },
    /// A line before gives a number to its key.
    #[error("line {line}: its key has a number")]
    Twice { line: u32 },
    /// Its key isn't followed by spaces, a number, any spaces, and at most one carriage return.
    #[error("line {line}: it has no number")]
    BadNumber { line: u32 },
    /// Its number is above the greatest that the key takes.
    #[error("line {line}: its number is out of range")]
    OutOfRange { line: u32 },
}

impl ModeRefused {
    ghost use Rattle.mode_file.specs.Grammar.{IsFirstBad};
    ghost use Rattle.mode_file.specs.Refusals.{Refuses};

    pub(crate) fn at(line: u32, cause: Cause) -> Self
        ensures { (lines : List (List ℕ)) → IsFirstBad lines line cause → Refuses lines result }
    {
        match cause {
            Cause::UnknownKey => ModeRefused::UnknownKey { line },
            Cause::Twice => ModeRefused::Twice { line },
            Cause::BadNumber => ModeRefused::BadNumber { line },
            Cause::OutOfRange => ModeRefused::OutOfRange { line },
        }
    }
}
