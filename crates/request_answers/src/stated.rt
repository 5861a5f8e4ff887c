//! The problem that files state.

ghost use Rattle.std.specs.Prelude.{◌≡◌, ◌≤◌, ◌<◌, ◌-◌, ◌^◌, ℕ, List, Ok, length, IfOk, IfErr, IsErrOf, OnOk};
ghost use Rattle.stt_core.specs.PlainProblem.{PlainProblem};
ghost use Rattle.thf_grammar.specs.Printable.{IsPrintable};
ghost use Rattle.thf_include.specs.View.{the_statements};
ghost use Rattle.type_check.specs.Statements.{problem_of};
ghost use Rattle.type_check.specs.Internal.ProblemNames.{AllDeclared};
ghost use Rattle.type_bound.specs.Modest.{IsModestProblem};
ghost use Rattle.request_answers.specs.Files.{OfFiles, Statements};
ghost use Rattle.request_answers.specs.Internal.Texts.{HasTexts};
ghost use Rattle.request_answers.specs.Internal.RefusedFiles.{refused_answer};
ghost use Rattle.request_answers.specs.Causes.{IsFaultIn};
ghost use Rattle.request_answers.specs.Internal.ReadFaults.{IsNoReadFault};
ghost use Rattle.request_answers.specs.Internal.Unread.{IsIllProblem, IsUnread};
ghost use Rattle.szs_report.specs.declared.answer.Answer.TheVariants as answer;
ghost use Rattle.szs_report.specs.declared.answer.NamedFile.TheVariants.{Part};

use outside::Files;
use std::alloc::Global;
use stt_core::Problem;
use szs_report::{Answer, IncludeWhy, NamedFile};
use thf_include::{FileNames, GatherRefused, Gathered, gather};
use type_check::{Ill, check};

/// The answer where the files aren't gathered. The names are those of the files that were opened.
fn refused_answer(names: FileNames, refused: GatherRefused) -> Answer
    ensures { result ≡ refused_answer names refused }
{
    match refused {
        GatherRefused::Fault { file: number } => Answer::ReadFault {
            file: NamedFile::Part { number, names },
        },
        GatherRefused::TooLong { file: number } => Answer::TooLong {
            file: NamedFile::Part { number, names },
        },
        GatherRefused::Syntax { file: number, at } => Answer::SyntaxAt {
            file: NamedFile::Part { number, names },
            at,
        },
        GatherRefused::Cycle { file: number, at } => Answer::IncludeAt {
            file: NamedFile::Part { number, names },
            at,
            why: IncludeWhy::Cycle,
        },
        GatherRefused::NoSuchName { file: number, at } => Answer::IncludeAt {
            file: NamedFile::Part { number, names },
            at,
            why: IncludeWhy::NoSuchName,
        },
        GatherRefused::TooMany { file: number, at } => Answer::IncludeAt {
            file: NamedFile::Part { number, names },
            at,
            why: IncludeWhy::TooMany,
        },
        GatherRefused::Memory => Answer::Memory,
    }
}

/// The problem that statements from files of these names state, or what they are answered with.
fn check_problem(alloc: Global, gathered: Gathered, names: FileNames) -> Result<Problem, Answer>
    requires few { length gathered < 2 ^ 32 - 2 }
    requires printable { AllDeclared IsPrintable (the_statements gathered) }
    requires modest { (p : PlainProblem) → problem_of (the_statements gathered) ≡ Ok p → IsModestProblem 1024 p }
    ensures stated { IfOk result (λ p. problem_of (the_statements gathered) ≡ Ok p) }
    ensures texts { IfOk result (λ p. HasTexts p) }
    ensures ill { IfErr result (IsIllProblem names (the_statements gathered)) }
{
    match check(alloc, gathered) {
        Ok(problem) => Ok(problem),
        Err(Ill::At { file, at, why }) => {
            let file = NamedFile::Part {
                number: file,
                names,
            };
            Err(Answer::TypeAt { file, at, why })
        }
        Err(Ill::Memory) => Err(Answer::Memory),
    }
}

/// The problem that the file of a name states, with those that it includes, or what is answered in its place.
pub(crate) fn read_problem<F: Files>(
    alloc: Global,
    files: &mut F,
    name: &str,
) -> Result<Problem, Answer>
    ensures stated { IfOk result (λ p. (names : List (List ℕ)) × OfFiles name.now (F.seen files.old) names (Statements p)) }
    ensures texts { IfOk result (λ p. HasTexts p) }
    ensures unread { IfErr result (IsUnread name.now (F.seen files.old)) }
    ensures fault { (k : ℕ) (names : List (List ℕ)) → IsErrOf result (answer.ReadFault (Part k names))
        → IsFaultIn name.now (F.seen files.old) (F.faults files.old) (F.faults files.new) k }
    ensures quiet { OnOk result ((other : List ℕ) → F.faults files.new other ≡ F.faults files.old other) }
    ensures quiet_unread { IfErr result (λ a. IsNoReadFault a → (other : List ℕ) → F.faults files.new other ≡ F.faults files.old other) }

    ensures later { (other : List ℕ) → F.faults files.old other ≤ F.faults files.new other }
    ensures same { F.seen files.new ≡ F.seen files.old }
{
    let mut names = FileNames::new(alloc);
    match gather(alloc, files, &mut names, name) {
        Ok(gathered) => check_problem(alloc, gathered, names),
        Err(refused) => Err(refused_answer(names, refused)),
    }
}
