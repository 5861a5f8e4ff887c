//! The call that does all that the program does.

ghost use Rattle.std.specs.Prelude.{◌≡◌, ◌≤◌, ℕ, List, IsTrue, Some, None, string_bytes};
ghost use Rattle.outside.specs.Causes.{Rose};
ghost use Rattle.cli_words.specs.Requests.{by_schedule, asked_by};
ghost use Rattle.request_answers.specs.Requested.{asked_name};
ghost use Rattle.request_answers.specs.Answers.{IsAnswer, IsDefined};
ghost use Rattle.request_answers.specs.Causes.{IsNoWriteFault, HasCause};
ghost use Rattle.satallax_top.specs.Headline.{IsProvedOutcome, ShowsNoModel, HasNoModel, IsOfSides, HasSidesSo, IsProofReport, Appends, IsWritten, IsOutcome};
ghost use Rattle.satallax_top.specs.Models.{IsModelOutcome, IsOfModels, HasModelsSo, IsModelReport};
ghost use Rattle.satallax_top.specs.Scheduling.{IsOfRuns, HasScheduleSo};
ghost use Rattle.szs_report.specs.Outcomes.{outcome_of};
ghost use Rattle.szs_report.specs.Report.{report_of};

use cli_words::{Words, WordsRefused, read_words};
use outside::{Failed, Files, Sink};
use request_answers::{answer, name_of};
use std::alloc::{AllocError, Global};
use szs_report::{Answer, Outcome, write_report};

/// What a call answers, and the name by which its report calls the problem.
#[derive(Drop)]
struct Called {
    name: String,
    answer: Answer,
}

/// The answer to the words.
fn call<F: Files>(alloc: Global, words: &Words, files: &mut F) -> Called
    ensures answers { IsAnswer words.now (F.seen files.old) result.answer }
    ensures reported { report_of (string_bytes result.name) result.answer ≡ report_of (asked_name words.now) result.answer }
    ensures cause { HasCause words.now (F.seen files.old) (F.faults files.old) (F.faults files.new) (outcome_of result.answer) }

    ensures later { (other : List ℕ) → F.faults files.old other ≤ F.faults files.new other }
    ensures same { F.seen files.new ≡ F.seen files.old }
{
    let unnamed = String::new(alloc);
    match read_words(alloc, words) {
        Ok(asked) => match name_of(alloc, &asked) {
            Ok(name) => {
                let answer = answer(alloc, files, &asked, name.as_str());
                Called { name, answer }
            }
            Err(AllocError) => Called {
                name: unnamed,
                answer: Answer::UnreadWords,
            },
        },
        Err(WordsRefused::Words) => Called {
            name: unnamed,
            answer: Answer::Words,
        },
        Err(WordsRefused::Memory) => Called {
            name: unnamed,
            answer: Answer::UnreadWords,
        },
    }
}

/// Proves the problem that the words name, by one mode or by several that take turns, or checks the text of a refutation against it, or
/// makes and proves one, or looks for a finite model of it, or compares the two sides of its conjecture, and writes the report. The words
/// are those behind the program's name. All is built before the first byte is written, and from then on no memory is taken.
pub fn satallax<F: Files, S: Sink>(
    alloc: Global,
    words: &Words,
    files: &mut F,
    out: &mut S,
) -> Outcome
    // The outcome is that of an answer for these words and for the contents of the files that they name.
    ensures outcome { IsOutcome words.now (F.seen files.old) result }

    // What is written is the report of the outcome, or where a write failed a proper prefix of the report of an answer whose cause is
    // there.
    ensures bytes { IsTrue (S.tells out.old)
        → IsWritten words.now (F.seen files.old) (F.faults files.old) (F.faults files.new) (S.written out.old) (S.written out.new) result }

    // Where a proof is reported, what is written holds one refutation, the one that was found. It is accepted: so the check of these bytes
    // accepts them, its tableau is closed, and no model meets the problem. After the reported number of commands, and not before, the
    // clauses of the search are unsatisfiable; under a schedule, after a number of commands of the run that closes it.
    ensures proof { IsTrue (S.tells out.old) → IsProvedOutcome result
        → Appends (S.written out.old) (S.written out.new) (IsProofReport words.now (F.seen files.old) result) }

    // Where a schedule is asked for and its runs end it, a proof is reported exactly where the run of some block is proved, and else how
    // the schedule ends.
    ensures schedule { (file problem : List ℕ) → asked_by words.now ≡ Some (by_schedule file problem) → IsOfRuns result
        → HasScheduleSo words.now (F.seen files.old) file result }

    // Where a proof is reported, of the problem in a file or of a generated one, or a text is accepted, no model meets the problem.
    ensures no_model { ShowsNoModel result → HasNoModel words.now (F.seen files.old) }

    // Where a finite model is reported, what is written gives the values of the problem's symbols in a model that meets the problem.
    ensures model { IsTrue (S.tells out.old) → IsModelOutcome result
        → Appends (S.written out.old) (S.written out.new) (IsModelReport words.now (F.seen files.old) result) }

    // What is said of finite models holds: there is one, there is none within the bound, or there is too much to look at.
    ensures models { IsOfModels result → HasModelsSo words.now (F.seen files.old) result }

    // What is said of the two sides of a conjecture holds: they are convertible, they aren't, or it is no equation.
    ensures sides { IsOfSides result → HasSidesSo words.now (F.seen files.old) result }

    // The causes of what doesn't hang on contents. A fault is answered exactly where a call of the files or of the sink counted one.
    ensures words { result ≡ Outcome.Words → asked_by words.now ≡ None }
    ensures read { IsNoWriteFault result → HasCause words.now (F.seen files.old) (F.faults files.old) (F.faults files.new) result }
    ensures write { result ≡ Outcome.WriteFault → Rose (S.faults out.old) (S.faults out.new) }
    ensures quiet { IsNoWriteFault result → S.faults out.new ≡ S.faults out.old }

    // What is known of the files stays, the sink goes on to tell, and no count of faults falls.
    ensures same { F.seen files.new ≡ F.seen files.old }
    ensures later { (other : List ℕ) → F.faults files.old other ≤ F.faults files.new other }
    ensures out_telling { IsTrue (S.tells out.old) → IsTrue (S.tells out.new) }
    ensures out_later { S.faults out.old ≤ S.faults out.new }

    // Where contents are told and no count of faults rises, the outcome is that of the defined answer, or memory ran out, or the conflicts
    // were spent.
    ensures complete { IsTrue (F.seen files.old).tells
        → ((file : List ℕ) → Rose (F.faults files.old file) (F.faults files.new file) → ⊥)
        → (Rose (S.faults out.old) (S.faults out.new) → ⊥)
        → IsDefined words.now (F.seen files.old).contents result }
{
    let called = call(alloc, words, files);
    match write_report(out, called.name.as_bytes(), &called.answer) {
        Ok(()) => called.answer.outcome(),
        Err(Failed) => Outcome::WriteFault,
    }
}
