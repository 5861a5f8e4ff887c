//! The words that reports have for causes.

ghost use Rattle.std.specs.Prelude.{◌≡◌};
ghost use Rattle.szs_report.specs.Report.{ill_word, include_word, mode_word, schedule_word, why_word};

use crate::outcome::{IncludeWhy, ModeWhy, ScheduleWhy};
use tableau_calculus::Why;
use type_check::IllWhy;

pub(crate) fn ill_word(why: IllWhy) -> &'static [u8]
    ensures { result.now ≡ ill_word why }
{
    match why {
        IllWhy::Unknown => b"unknown",
        IllWhy::Twice => b"twice",
        IllWhy::Mismatch => b"mismatch",
        IllWhy::NotFormula => b"notformula",
        IllWhy::SecondConjecture => b"conjecture",
        IllWhy::RoleUnknown => b"role",
    }
}

pub(crate) fn include_word(why: IncludeWhy) -> &'static [u8]
    ensures { result.now ≡ include_word why }
{
    match why {
        IncludeWhy::Cycle => b"cycle",
        IncludeWhy::NoSuchName => b"noname",
        IncludeWhy::TooMany => b"toomany",
    }
}

pub(crate) fn why_word(why: Why) -> &'static [u8]
    ensures { result.now ≡ why_word why }
{
    match why {
        Why::Form => b"form",
        Why::Start => b"start",
        Why::End => b"end",
        Why::Typing => b"type",
        Why::Twice => b"twice",
        Why::Cut => b"cut",
        Why::Principal => b"principal",
        Why::Child => b"child",
        Why::Last => b"last",
        Why::Defs => b"defs",
    }
}

pub(crate) fn mode_word(why: ModeWhy) -> &'static [u8]
    ensures { result.now ≡ mode_word why }
{
    match why {
        ModeWhy::UnknownKey => b"key",
        ModeWhy::Twice => b"twice",
        ModeWhy::BadNumber => b"number",
        ModeWhy::OutOfRange => b"range",
    }
}

pub(crate) fn schedule_word(why: ScheduleWhy) -> &'static [u8]
    ensures { result.now ≡ schedule_word why }
{
    match why {
        ScheduleWhy::UnknownKey => b"key",
        ScheduleWhy::Twice => b"twice",
        ScheduleWhy::BadNumber => b"number",
        ScheduleWhy::OutOfRange => b"range",
        ScheduleWhy::NoSlice => b"noslice",
        ScheduleWhy::TooManyBlocks => b"toomany",
    }
}
