//! The line of a slice.
ghost use Rattle.std.specs.Prelude.{◌≡◌, ◌≤◌, ◌<◌, true, false, List, length, MatchResult};
ghost use Rattle.mode_schedule.specs.declared.Block.{Block};
ghost use Rattle.mode_schedule.specs.Grammar.{is_slice_line, IsSlice, most_blocks};
ghost use Rattle.mode_schedule.specs.Internal.Refused.{IsBadSliceFor};

use crate::refused::Cause;
use mode_file::{NumberRefused, read_number};

/// How many blocks there may be.
const MOST_BLOCKS: usize = 16;

/// The greatest slice.
const GREATEST_SLICE: u64 = 1_000_000;

/// The slice of a line, behind so many blocks.
pub(crate) fn read_slice(line: &[u8], blocks: usize) -> Result<u32, Cause>
    requires { is_slice_line line.now ≡ true }
    ensures { MatchResult result
        (λ n. IsSlice line.now n × (blocks < most_blocks))
        (λ cause. (read : List Block) → length read ≡ blocks → IsBadSliceFor read line.now cause) }
{
    if blocks >= MOST_BLOCKS {
        return Err(Cause::TooManyBlocks);
    }
    let number = match read_number(line) {
        Ok(number) => number,
        Err(NumberRefused::Missing) => return Err(Cause::BadNumber),
        Err(NumberRefused::TooGreat) => return Err(Cause::OutOfRange),
    };
    if number == 0 || number > GREATEST_SLICE {
        return Err(Cause::OutOfRange);
    }
    Ok(number as u32)
}
