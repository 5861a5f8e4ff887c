//! The mode that a problem is proved by.

ghost use Rattle.std.specs.Prelude.{◌≡◌, ◌≤◌, ℕ, List, Some, option_map, IfOk, IfErr, IsErrOf, OnOk};
ghost use Rattle.outside.specs.Causes.{Rose};
ghost use Rattle.mode_file.specs.Given.{IsInRange};
ghost use Rattle.request_answers.specs.Modes.{IsModeBy};
ghost use Rattle.request_answers.specs.Internal.RefusedModes.{mode_answer};
ghost use Rattle.request_answers.specs.Internal.ReadFaults.{IsNoReadFault};
ghost use Rattle.request_answers.specs.Internal.Unread.{IsUnreadMode, IsUnaskedMode};
ghost use Rattle.szs_report.specs.declared.answer.Answer.TheVariants as answer;
ghost use Rattle.szs_report.specs.declared.answer.NamedFile.TheVariants as named;

use crate::limits::MAX_BYTES;
use mode_file::{Mode, ModeRefused, read_mode};
use outside::{Bytes, Files, ReadRefused, read_whole};
use std::alloc::Global;
use szs_report::{Answer, ModeWhy, NamedFile};

/// The answer where a line of a mode's file isn't taken.
fn mode_answer(refused: ModeRefused) -> Answer
    ensures { result ≡ mode_answer refused }
{
    match refused {
        ModeRefused::UnknownKey { line } => Answer::ModeAt {
            line,
            why: ModeWhy::UnknownKey,
        },
        ModeRefused::Twice { line } => Answer::ModeAt {
            line,
            why: ModeWhy::Twice,
        },
        ModeRefused::BadNumber { line } => Answer::ModeAt {
            line,
            why: ModeWhy::BadNumber,
        },
        ModeRefused::OutOfRange { line } => Answer::ModeAt {
            line,
            why: ModeWhy::OutOfRange,
        },
    }
}

/// The mode that the file of a name states, or what is answered in its place.
fn read_mode_file<F: Files>(alloc: Global, files: &mut F, name: &str) -> Result<Mode, Answer>
    ensures stated { IfOk result (IsModeBy (F.seen files.old) (Some name.now)) }
    ensures in_range { IfOk result IsInRange }
    ensures unread { IfErr result (IsUnreadMode (F.seen files.old) name.now) }
    ensures fault { (own : List ℕ) → IsErrOf result (answer.ReadFault (named.Mode own))
        → Rose (F.faults files.old name.now) (F.faults files.new name.now) }
    ensures quiet { OnOk result ((other : List ℕ) → F.faults files.new other ≡ F.faults files.old other) }
    ensures quiet_unread { IfErr result (λ a. IsNoReadFault a → (other : List ℕ) → F.faults files.new other ≡ F.faults files.old other) }

    ensures later { (other : List ℕ) → F.faults files.old other ≤ F.faults files.new other }
    ensures same { F.seen files.new ≡ F.seen files.old }
{
    // The name is copied before the file is read, so that a fault is answered where memory is short.
    let Ok(own) = Bytes::from_slice(alloc, name.as_bytes()) else {
        return Err(Answer::Memory);
    };
    match read_whole(alloc, files, name, MAX_BYTES) {
        Ok(bytes) => read_mode(bytes.as_slice()).map_err(mode_answer),
        Err(ReadRefused::Fault) => Err(Answer::ReadFault {
            file: NamedFile::Mode { name: own },
        }),
        Err(ReadRefused::TooLong) => Err(Answer::TooLong {
            file: NamedFile::Mode { name: own },
        }),
        Err(ReadRefused::Memory) => Err(Answer::Memory),
    }
}

/// The mode of a file, or the standard one where no file is named; or what is answered in its place.
pub(crate) fn mode_by<F: Files>(
    alloc: Global,
    files: &mut F,
    file: Option<&str>,
) -> Result<Mode, Answer>
    ensures stated { IfOk result (IsModeBy (F.seen files.old) (option_map (λ f. f.now) file.entry)) }
    ensures in_range { IfOk result IsInRange }
    ensures unread { IfErr result (IsUnaskedMode (F.seen files.old) (option_map (λ f. f.now) file.entry)) }
    ensures fault { (own : List ℕ) → IsErrOf result (answer.ReadFault (named.Mode own))
        → Rose (F.faults files.old own) (F.faults files.new own) }
    ensures quiet { OnOk result ((other : List ℕ) → F.faults files.new other ≡ F.faults files.old other) }
    ensures quiet_unread { IfErr result (λ a. IsNoReadFault a → (other : List ℕ) → F.faults files.new other ≡ F.faults files.old other) }

    ensures later { (other : List ℕ) → F.faults files.old other ≤ F.faults files.new other }
    ensures same { F.seen files.new ≡ F.seen files.old }
{
    match file {
        None => Ok(Mode::standard()),
        Some(name) => read_mode_file(alloc, files, name),
    }
}
