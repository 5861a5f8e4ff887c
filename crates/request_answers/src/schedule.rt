//! The schedule that a problem is proved by.

ghost use Rattle.std.specs.Prelude.{◌≡◌, ◌≤◌, ◌<◌, ℕ, List, Some, length, IfOk, IfErr, IsErrOf, OnOk};
ghost use Rattle.std.specs.List.{All};
ghost use Rattle.outside.specs.Causes.{Rose};
ghost use Rattle.mode_file.specs.Given.{IsInRange};
ghost use Rattle.mode_schedule.specs.Grammar.{most_blocks, greatest_slice};
ghost use Rattle.request_answers.specs.Schedules.{IsScheduleBy};
ghost use Rattle.request_answers.specs.Internal.RefusedSchedules.{schedule_answer};
ghost use Rattle.request_answers.specs.Internal.ReadFaults.{IsNoReadFault};
ghost use Rattle.request_answers.specs.Internal.Unread.{IsUnreadSchedule};
ghost use Rattle.szs_report.specs.declared.answer.Answer.TheVariants as answer;
ghost use Rattle.szs_report.specs.declared.answer.NamedFile.TheVariants as named;

use crate::limits::MAX_BYTES;
use mode_schedule::{Block, ScheduleRefused, read_schedule};
use outside::{Bytes, Files, ReadRefused, read_whole};
use std::alloc::Global;
use szs_report::{Answer, NamedFile, ScheduleWhy};

/// The answer where a line of a schedule's file isn't taken.
fn line_answer(line: u32, why: ScheduleWhy) -> Answer
    ensures { result ≡ answer.ScheduleAt line why }
{
    Answer::ScheduleAt { line, why }
}

/// The answer where a schedule isn't read.
fn schedule_answer(refused: ScheduleRefused) -> Answer
    ensures { result ≡ schedule_answer refused }
{
    match refused {
        ScheduleRefused::UnknownKey { line } => line_answer(line, ScheduleWhy::UnknownKey),
        ScheduleRefused::NoSlice { line } => line_answer(line, ScheduleWhy::NoSlice),
        ScheduleRefused::TooManyBlocks { line } => line_answer(line, ScheduleWhy::TooManyBlocks),
        ScheduleRefused::Twice { line } => line_answer(line, ScheduleWhy::Twice),
        ScheduleRefused::BadNumber { line } => line_answer(line, ScheduleWhy::BadNumber),
        ScheduleRefused::OutOfRange { line } => line_answer(line, ScheduleWhy::OutOfRange),
        ScheduleRefused::Memory => Answer::Memory,
    }
}

/// The blocks that the file of a name states, or what is answered in their place.
pub(crate) fn read_schedule_file<F: Files>(
    alloc: Global,
    files: &mut F,
    name: &str,
) -> Result<Vec<Block>, Answer>
    ensures stated { IfOk result (λ blocks. IsScheduleBy (F.seen files.old) (Some name.now) blocks.items) }
    ensures few { IfOk result (λ blocks. length blocks.items ≤ most_blocks) }
    ensures slices { IfOk result (λ blocks. All (λ b. (0 < b.slice) × (b.slice ≤ greatest_slice)) blocks.items) }
    ensures in_range { IfOk result (λ blocks. All (λ b. IsInRange b.mode) blocks.items) }
    ensures unread { IfErr result (IsUnreadSchedule (F.seen files.old) name.now) }
    ensures fault { (own : List ℕ) → IsErrOf result (answer.ReadFault (named.Schedule own))
        → Rose (F.faults files.old name.now) (F.faults files.new name.now) }
    ensures quiet { OnOk result ((other : List ℕ) → F.faults files.new other ≡ F.faults files.old other) }
    ensures quiet_unread { IfErr result (λ a. IsNoReadFault a → (other : List ℕ) → F.faults files.new other ≡ F.faults files.old other) }

    ensures later { (other : List ℕ) → F.faults files.old other ≤ F.faults files.new other }
    ensures same { F.seen files.new ≡ F.seen files.old }
{
    // The name is copied before the file is read, so that a fault is answered where memory is short.
    let Ok(own) = Bytes::from_slice(alloc, name.as_bytes()) else {
        return Err(Answer::Memory);
    };
    match read_whole(alloc, files, name, MAX_BYTES) {
        Ok(bytes) => match read_schedule(alloc, bytes.as_slice()) {
            Ok(blocks) => Ok(blocks),
            Err(refused) => Err(schedule_answer(refused)),
        },
        Err(ReadRefused::Fault) => Err(Answer::ReadFault {
            file: NamedFile::Schedule { name: own },
        }),
        Err(ReadRefused::TooLong) => Err(Answer::TooLong {
            file: NamedFile::Schedule { name: own },
        }),
        Err(ReadRefused::Memory) => Err(Answer::Memory),
    }
}
