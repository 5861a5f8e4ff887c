//! Generated problems: each is made, proved, and its report read back and checked, all in memory.

ghost use Rattle.std.specs.Prelude.{◌≡◌, ◌≤◌, ◌<◌, ◌++◌, true, false, codes, decimal, string_bytes, IfOk, None};
ghost use Rattle.outside.specs.Seen.{Seen};
ghost use Rattle.refute_text.specs.Reading.{is_one_line};
ghost use Rattle.problem_gen.specs.Chain.{text};
ghost use Rattle.cli_words.specs.Requests.{generated};
ghost use Rattle.mode_file.specs.Given.{nothing_given, mode_of};
ghost use Rattle.request_answers.specs.Internal.Texts.{HasTexts};
ghost use Rattle.cli_words.specs.declared.Cuts.TheVariants.{Allowed};
ghost use Rattle.request_answers.specs.Checked.{IsAcceptedText};
ghost use Rattle.request_answers.specs.Internal.Unread.{verdict_of};
ghost use Rattle.request_answers.specs.Solved.{IsSolved, IsDemoed};
ghost use Rattle.request_answers.specs.Answers.{AnswersRequest};
ghost use Rattle.request_answers.specs.Internal.ReadFaults.{IsNoReadFault};
ghost use Rattle.szs_report.specs.Report.{report_of};

use crate::check::check_bytes;
use crate::solve::solve;
use crate::stated::read_problem;
use cli_words::Cuts;
use itoa::Buffer;
use mode_file::Mode;
use outside::{Bytes, Failed, GrowSink, OneFile};
use problem_gen::make;
use std::alloc::{AllocError, Global};
use stt_core::Problem;
use szs_report::{Answer, write_report};

/// The name by which a report calls a generated problem.
pub(crate) fn demo_name(alloc: Global, n: u32) -> Result<String, AllocError>
    ensures { IfOk result (λ name. string_bytes name ≡ codes "demo " ++ decimal n) }
{
    let mut name = String::from_str(alloc, "demo ")?;
    let mut buffer = Buffer::new();
    name.push_str(buffer.format(n))?;
    Ok(name)
}

/// The text of a generated problem.
fn demo_text(alloc: Global, n: u32) -> Result<Bytes, AllocError>
    requires some { 0 < n }
    requires limit { n ≤ 1000 }
    ensures { IfOk result (λ bytes. bytes ≡ text n) }
{
    let mut sink = GrowSink::new(alloc);
    match make(n, &mut sink) {
        Ok(()) => Ok(sink.into_bytes()),
        Err(Failed) => Err(AllocError),
    }
}

/// The report of an answer.
fn report(alloc: Global, name: &str, answer: &Answer) -> Result<Bytes, AllocError>
    ensures { IfOk result (λ bytes. bytes ≡ report_of name.now answer.now) }
{
    let mut sink = GrowSink::new(alloc);
    match write_report(&mut sink, name.as_bytes(), answer) {
        Ok(()) => Ok(sink.into_bytes()),
        Err(Failed) => Err(AllocError),
    }
}

/// Whether an answer is that a text is accepted; none where it is that memory ran out.
fn verdict(answer: &Answer) -> Option<bool>
    ensures { result ≡ verdict_of answer.now }
{
    match answer {
        Answer::Memory => None,
        Answer::Accepted => Some(true),
        _ => Some(false),
    }
}

/// Whether the bytes hold the text of a refutation that is accepted for the problem.
#[tactic(auto, using(crate::proofs::CheckedLaws::verdict_accepts, crate::proofs::CheckedLaws::verdict_refuses))]
fn is_accepted(alloc: Global, problem: &Problem, bytes: &[u8]) -> Result<bool, AllocError>
    requires { HasTexts problem.now }
    ensures accepted { IfOk result (λ is. is ≡ true → IsAcceptedText Allowed problem.now bytes.now) }
    ensures refused { IfOk result (λ is. is ≡ false → IsAcceptedText Allowed problem.now bytes.now → ⊥) }
{
    let answer = check_bytes(alloc, problem, bytes, Cuts::Allowed);
    let verdict = verdict(&answer);
    drop(answer);
    match verdict {
        Some(is) => Ok(is),
        None => Err(AllocError),
    }
}

/// The answer for a generated problem whose run is answered so.
fn checked(
    alloc: Global,
    problem: &Problem,
    name: &str,
    answer: Answer,
) -> Result<Answer, AllocError>
    requires texts { HasTexts problem.now }
    requires named { is_one_line name.now ≡ true }
    requires solved { IsSolved None (mode_of nothing_given) problem.now answer }
    ensures { IfOk result (IsDemoed (mode_of nothing_given) problem.now) }
{
    let Answer::Proved {
        claim,
        commands,
        ..
    } = &answer
    else {
        return Ok(answer);
    };
    let (claim, commands) = (*claim, *commands);
    let bytes = report(alloc, name, &answer);
    // The refutation is let go before its text is read.
    drop(answer);
    let bytes = bytes?;
    if is_accepted(alloc, problem, bytes.as_slice())? {
        Ok(Answer::DemoDone { claim, commands })
    } else {
        unreachable!()
    }
}

/// The answer for a generated problem, once it is read.
fn demo_answer(alloc: Global, problem: &Problem, name: &str) -> Answer
    requires texts { HasTexts problem.now }
    requires named { is_one_line name.now ≡ true }
    ensures { IsDemoed (mode_of nothing_given) problem.now result }
{
    let answer = solve(alloc, problem, &Mode::standard(), None);
    checked(alloc, problem, name, answer).unwrap_or(Answer::Memory)
}

/// The answer for the generated problem of a number, which reports call by its name.
pub(crate) fn demo(alloc: Global, n: u32, name: &str) -> Answer
    requires some { 0 < n }
    requires limit { n ≤ 1000 }
    requires named { name.now ≡ codes "demo " ++ decimal n }
    ensures answers { (seen : Seen) → AnswersRequest (generated n) seen result }
    ensures quiet { IsNoReadFault result }
{
    let Ok(bytes) = demo_text(alloc, n) else {
        return Answer::Memory;
    };
    let mut files = OneFile::new(bytes);
    match read_problem(alloc, &mut files, name) {
        Ok(problem) => demo_answer(alloc, &problem, name),
        Err(answer) => answer,
    }
}
