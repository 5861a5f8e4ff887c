//! From a problem and the text of a refutation to the answer.

ghost use Rattle.std.specs.Prelude.{◌≡◌, ◌≤◌, ◌<◌, ◌+◌, ◌^◌, List, ℕ, length, OnOk, IfErr};
ghost use Rattle.stt_core.specs.TypedProblem.{IsTyped};
ghost use Rattle.outside.specs.Causes.{Rose};
ghost use Rattle.refute_print.specs.TextView.{the_text, IsNumberedText};
ghost use Rattle.refute_check.specs.Refusal.{IfLine};
ghost use Rattle.request_answers.specs.Checked.{Accepts, FailsCheck, AnswersBytes, AnswersText};
ghost use Rattle.request_answers.specs.Internal.RefusedTexts.{unread_answer, failed_answer};
ghost use Rattle.request_answers.specs.Internal.ReadFaults.{IsNoReadFault};
ghost use Rattle.szs_report.specs.declared.answer.NamedFile.TheVariants.{Check};

use crate::limits::MAX_BYTES;
use cli_words::Cuts;
use outside::{Bytes, Files, ReadRefused, read_whole};
use refute_check::{CheckRefused, check_refutation, check_strict};
use refute_print::RefutationText;
use refute_text::{TextRefused, read_text};
use std::alloc::Global;
use stt_core::Problem;
use szs_report::{Answer, NamedFile};
use tableau_calculus::Why;

/// The answer where a text isn't read.
fn unread_answer(refused: TextRefused) -> Answer
    ensures { result ≡ unread_answer refused }
{
    match refused {
        TextRefused::BadLine { line } => Answer::Refused {
            line,
            why: Why::Form,
        },
        TextRefused::NoStart { line } => Answer::Refused {
            line,
            why: Why::Start,
        },
        TextRefused::NoEnd { line } => Answer::Refused {
            line,
            why: Why::End,
        },
        TextRefused::Memory => Answer::Memory,
    }
}

/// The answer where what is read isn't accepted.
fn failed_answer(refused: CheckRefused) -> Answer
    ensures { result ≡ failed_answer refused }
{
    match refused {
        CheckRefused::Line { line, why } => Answer::Refused { line, why },
        CheckRefused::Memory => Answer::Memory,
    }
}

/// Whether a text is an accepted refutation of the problem, by a check that allows cuts, or forbids them.
fn check_by(
    alloc: Global,
    problem: &Problem,
    text: &RefutationText,
    cuts: Cuts,
) -> Result<(), CheckRefused>
    requires problem { IsTyped problem.now }
    requires numbered { IsNumberedText text.now }
    requires lines { text.now.first + length text.now.witnesses + length text.now.lines < 2 ^ 64 }
    ensures accepted { OnOk result (Accepts cuts problem.now (the_text text.now)) }
    ensures refused { IfErr result (λ e. IfLine e (FailsCheck cuts problem.now (the_text text.now) text.now.first)) }
{
    match cuts {
        Cuts::Allowed => check_refutation(alloc, problem, text),
        Cuts::Forbidden => check_strict(alloc, problem, text),
    }
}

/// The answer for the bytes of a text.
pub(crate) fn check_bytes(alloc: Global, problem: &Problem, bytes: &[u8], cuts: Cuts) -> Answer
    requires { IsTyped problem.now }
    ensures { AnswersBytes cuts problem.now bytes.now result }
{
    match read_text(alloc, bytes) {
        Ok(text) => match check_by(alloc, problem, &text, cuts) {
            Ok(()) => Answer::Accepted,
            Err(refused) => failed_answer(refused),
        },
        Err(refused) => unread_answer(refused),
    }
}

/// The answer for the text in a file.
pub(crate) fn check_file<F: Files>(
    alloc: Global,
    files: &mut F,
    problem: &Problem,
    name: &str,
    cuts: Cuts,
) -> Answer
    requires { IsTyped problem.now }
    ensures answers { AnswersText cuts (F.seen files.old) name.now problem.now result }
    ensures fault { (own : List ℕ) → result ≡ Answer.ReadFault (Check own) → Rose (F.faults files.old name.now)
        (F.faults files.new name.now) }
    ensures quiet { IsNoReadFault result → (other : List ℕ) → F.faults files.new other ≡ F.faults files.old other }

    ensures later { (other : List ℕ) → F.faults files.old other ≤ F.faults files.new other }
    ensures same { F.seen files.new ≡ F.seen files.old }
{
    // The name is copied before the file is read, so that a fault is answered where memory is short.
    let Ok(own) = Bytes::from_slice(alloc, name.as_bytes()) else {
        return Answer::Memory;
    };
    match read_whole(alloc, files, name, MAX_BYTES) {
        Ok(bytes) => check_bytes(alloc, problem, bytes.as_slice(), cuts),
        Err(ReadRefused::Fault) => Answer::ReadFault {
            file: NamedFile::Check { name: own },
        },
        Err(ReadRefused::TooLong) => Answer::TooLong {
            file: NamedFile::Check { name: own },
        },
        Err(ReadRefused::Memory) => Answer::Memory,
    }
}
