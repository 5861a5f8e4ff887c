//! What each request is answered with.

ghost use Rattle.std.specs.Prelude.{◌≡◌, ◌<◌, ◌≤◌, ℕ, List, length, option_map, string_bytes, IfOk};
ghost use Rattle.std.specs.List.{All};
ghost use Rattle.outside.specs.Causes.{Rose};
ghost use Rattle.mode_file.specs.Given.{IsInRange};
ghost use Rattle.mode_schedule.specs.Grammar.{most_blocks, greatest_slice};
ghost use Rattle.cli_words.specs.Requests.{prove, by_schedule, refutation, models, sides};
ghost use Rattle.cli_words.specs.View.{the_request};
ghost use Rattle.request_answers.specs.Requested.{problem_name, IsRequestInRange};
ghost use Rattle.request_answers.specs.Checked.{AnswersText};
ghost use Rattle.request_answers.specs.Compared.{AnswersSides};
ghost use Rattle.request_answers.specs.Modelled.{AnswersModels};
ghost use Rattle.request_answers.specs.Solved.{IsSolved, IsSolvedInTurns};
ghost use Rattle.request_answers.specs.Answers.{AnswersRequest};
ghost use Rattle.request_answers.specs.Causes.{IsFaultIn, IsTextFault, HasCauseOf};
ghost use Rattle.request_answers.specs.Internal.ReadFaults.{IsNoReadFault};
ghost use Rattle.request_answers.specs.Internal.Unread.{IsFilesAnswer};
ghost use Rattle.szs_report.specs.Outcomes.{outcome_of};
ghost use Rattle.szs_report.specs.declared.answer.NamedFile.TheVariants.{Part, Check};
ghost use Rattle.szs_report.specs.declared.answer.NamedFile.TheVariants as named;

use crate::check::check_file;
use crate::demo::{demo, demo_name};
use crate::mode::mode_by;
use crate::models::look;
use crate::schedule::read_schedule_file;
use crate::sides::compare;
use crate::solve::solve;
use crate::stated::read_problem;
use crate::turns::solve_in_turns;
use cli_words::{Asked, Cuts};
use mode_file::Mode;
use mode_schedule::Block;
use outside::Files;
use std::alloc::{AllocError, Global};
use szs_report::Answer;

/// The answer where the problem of a name is to be proved by a mode, with a tree where one is asked for.
fn prove_by<F: Files>(
    alloc: Global,
    files: &mut F,
    problem: &str,
    mode: &Mode,
    nodes: Option<u32>,
) -> Answer
    requires range { IsInRange mode.now }
    ensures answers { IsFilesAnswer (IsSolved nodes mode.now) problem.now (F.seen files.old) result }
    ensures fault { (k : ℕ) (names : List (List ℕ)) → result ≡ Answer.ReadFault (Part k names)
        → IsFaultIn problem.now (F.seen files.old) (F.faults files.old) (F.faults files.new) k }
    ensures quiet { IsNoReadFault result → (other : List ℕ) → F.faults files.new other ≡ F.faults files.old other }

    ensures later { (other : List ℕ) → F.faults files.old other ≤ F.faults files.new other }
    ensures same { F.seen files.new ≡ F.seen files.old }
{
    match read_problem(alloc, files, problem) {
        Ok(stated) => solve(alloc, &stated, mode, nodes),
        Err(answer) => answer,
    }
}

/// The answer where the problem of a name is to be proved, by the mode of a file or by the standard one.
fn prove<F: Files>(
    alloc: Global,
    files: &mut F,
    problem: &str,
    mode: Option<&str>,
    nodes: Option<u32>,
) -> Answer
    ensures answers { AnswersRequest (prove problem.now (option_map (λ f. f.now) mode.entry) nodes) (F.seen files.old) result }
    ensures fault { (k : ℕ) (names : List (List ℕ)) → result ≡ Answer.ReadFault (Part k names)
        → IsFaultIn problem.now (F.seen files.old) (F.faults files.old) (F.faults files.new) k }
    ensures mode_fault { (own : List ℕ) → result ≡ Answer.ReadFault (named.Mode own)
        → Rose (F.faults files.old own) (F.faults files.new own) }
    ensures quiet { IsNoReadFault result → (other : List ℕ) → F.faults files.new other ≡ F.faults files.old other }

    ensures later { (other : List ℕ) → F.faults files.old other ≤ F.faults files.new other }
    ensures same { F.seen files.new ≡ F.seen files.old }
{
    match mode_by(alloc, files, mode) {
        Ok(mode) => prove_by(alloc, files, problem, &mode, nodes),
        Err(answer) => answer,
    }
}

/// The answer where the problem of a name is to be proved by the blocks of a schedule.
fn prove_in_turns<F: Files>(alloc: Global, files: &mut F, problem: &str, blocks: &[Block]) -> Answer
    requires few { length blocks.now ≤ most_blocks }
    requires slices { All (λ b. (0 < b.slice) × (b.slice ≤ greatest_slice)) blocks.now }
    requires in_range { All (λ b. IsInRange b.mode) blocks.now }
    ensures answers { IsFilesAnswer (IsSolvedInTurns blocks.now) problem.now (F.seen files.old) result }
    ensures fault { (k : ℕ) (names : List (List ℕ)) → result ≡ Answer.ReadFault (Part k names)
        → IsFaultIn problem.now (F.seen files.old) (F.faults files.old) (F.faults files.new) k }
    ensures quiet { IsNoReadFault result → (other : List ℕ) → F.faults files.new other ≡ F.faults files.old other }

    ensures later { (other : List ℕ) → F.faults files.old other ≤ F.faults files.new other }
    ensures same { F.seen files.new ≡ F.seen files.old }
{
    match read_problem(alloc, files, problem) {
        Ok(stated) => solve_in_turns(alloc, &stated, blocks),
        Err(answer) => answer,
    }
}

/// The answer where the problem of a name is to be proved by the schedule of a file.
fn prove_by_schedule<F: Files>(
    alloc: Global,
    files: &mut F,
    schedule: &str,
    problem: &str,
) -> Answer
    ensures answers { AnswersRequest (by_schedule schedule.now problem.now) (F.seen files.old) result }
    ensures fault { (k : ℕ) (names : List (List ℕ)) → result ≡ Answer.ReadFault (Part k names)
        → IsFaultIn problem.now (F.seen files.old) (F.faults files.old) (F.faults files.new) k }
    ensures schedule_fault { (own : List ℕ) → result ≡ Answer.ReadFault (named.Schedule own)
        → Rose (F.faults files.old own) (F.faults files.new own) }
    ensures quiet { IsNoReadFault result → (other : List ℕ) → F.faults files.new other ≡ F.faults files.old other }

    ensures later { (other : List ℕ) → F.faults files.old other ≤ F.faults files.new other }
    ensures same { F.seen files.new ≡ F.seen files.old }
{
    match read_schedule_file(alloc, files, schedule) {
        Ok(blocks) => prove_in_turns(alloc, files, problem, blocks.as_slice()),
        Err(answer) => answer,
    }
}

/// The answer where the text in a file is to be checked against the problem of a name.
fn check<F: Files>(alloc: Global, files: &mut F, text: &str, problem: &str, cuts: Cuts) -> Answer
    ensures answers { IsFilesAnswer (AnswersText cuts (F.seen files.old) text.now) problem.now (F.seen files.old) result }
    ensures fault { (k : ℕ) (names : List (List ℕ)) → result ≡ Answer.ReadFault (Part k names)
        → IsFaultIn problem.now (F.seen files.old) (F.faults files.old) (F.faults files.new) k }
    ensures text_fault { (own : List ℕ) → result ≡ Answer.ReadFault (Check own)
        → IsTextFault (refutation cuts text.now problem.now) (F.seen files.old) (F.faults files.old) (F.faults files.new) }
    ensures quiet { IsNoReadFault result → (other : List ℕ) → F.faults files.new other ≡ F.faults files.old other }

    ensures later { (other : List ℕ) → F.faults files.old other ≤ F.faults files.new other }
    ensures same { F.seen files.new ≡ F.seen files.old }
{
    match read_problem(alloc, files, problem) {
        Ok(stated) => check_file(alloc, files, &stated, text, cuts),
        Err(answer) => answer,
    }
}

/// The answer where a finite model of the problem of a name is to be looked for.
fn look_in<F: Files>(alloc: Global, files: &mut F, upto: u32, problem: &str) -> Answer
    requires some { 0 < upto }
    requires few { upto ≤ 8 }
    ensures answers { IsFilesAnswer (AnswersModels upto) problem.now (F.seen files.old) result }
    ensures fault { (k : ℕ) (names : List (List ℕ)) → result ≡ Answer.ReadFault (Part k names)
        → IsFaultIn problem.now (F.seen files.old) (F.faults files.old) (F.faults files.new) k }
    ensures quiet { IsNoReadFault result → (other : List ℕ) → F.faults files.new other ≡ F.faults files.old other }

    ensures later { (other : List ℕ) → F.faults files.old other ≤ F.faults files.new other }
    ensures same { F.seen files.new ≡ F.seen files.old }
{
    match read_problem(alloc, files, problem) {
        Ok(stated) => look(alloc, &stated, upto),
        Err(answer) => answer,
    }
}

/// The answer where the two sides of the conjecture of the problem of a name are to be compared.
fn compare_in<F: Files>(alloc: Global, files: &mut F, problem: &str) -> Answer
    ensures answers { IsFilesAnswer AnswersSides problem.now (F.seen files.old) result }
    ensures fault { (k : ℕ) (names : List (List ℕ)) → result ≡ Answer.ReadFault (Part k names)
        → IsFaultIn problem.now (F.seen files.old) (F.faults files.old) (F.faults files.new) k }
    ensures quiet { IsNoReadFault result → (other : List ℕ) → F.faults files.new other ≡ F.faults files.old other }

    ensures later { (other : List ℕ) → F.faults files.old other ≤ F.faults files.new other }
    ensures same { F.seen files.new ≡ F.seen files.old }
{
    match read_problem(alloc, files, problem) {
        Ok(stated) => compare(alloc, &stated),
        Err(answer) => answer,
    }
}

/// The name by which a report calls the problem that is asked for.
pub fn name_of(alloc: Global, asked: &Asked) -> Result<String, AllocError>
    ensures { IfOk result (λ name. string_bytes name ≡ problem_name (the_request asked.now)) }
{
    match asked {
        Asked::Prove { problem, .. } | Asked::BySchedule { problem, .. } => {
            String::from_str(alloc, problem)
        }
        Asked::Check { problem, .. } => String::from_str(alloc, problem),
        Asked::Demo { n } => demo_name(alloc, *n),
        Asked::Models { problem, .. } | Asked::Same { problem } => {
            String::from_str(alloc, problem)
        }
    }
}

/// The answer to a request, which reports call by its name.
pub fn answer<F: Files>(alloc: Global, files: &mut F, asked: &Asked, name: &str) -> Answer
    requires named { name.now ≡ problem_name (the_request asked.now) }
    requires in_range { IsRequestInRange (the_request asked.now) }
    ensures answers { AnswersRequest (the_request asked.now) (F.seen files.old) result }
    ensures cause { HasCauseOf (the_request asked.now) (F.seen files.old) (F.faults files.old) (F.faults files.new) (outcome_of result) }

    ensures later { (other : List ℕ) → F.faults files.old other ≤ F.faults files.new other }
    ensures same { F.seen files.new ≡ F.seen files.old }
{
    match asked {
        Asked::Prove {
            problem,
            mode,
            nodes,
        } => prove(alloc, files, problem, *mode, *nodes),
        Asked::BySchedule { schedule, problem } => {
            prove_by_schedule(alloc, files, schedule, problem)
        }
        Asked::Check {
            text,
            problem,
            cuts,
        } => check(alloc, files, text, problem, *cuts),
        Asked::Demo { n } => demo(alloc, *n, name),
        Asked::Models { upto, problem } => look_in(alloc, files, *upto, problem),
        Asked::Same { problem } => compare_in(alloc, files, problem),
    }
}
