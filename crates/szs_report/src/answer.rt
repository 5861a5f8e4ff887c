//! What a call answers.

ghost use Rattle.std.specs.Prelude.{◌≡◌, slice_get, unwrap_or, []};
ghost use Rattle.szs_report.specs.Outcomes.{claim_outcome, file_ref, outcome_of};
ghost use Rattle.szs_report.specs.Report.{file_name};
ghost use Rattle.szs_report.specs.declared.outcome.Outcome.TheVariants as outcome;

use crate::outcome::{FileRef, IncludeWhy, ModeWhy, Outcome, ScheduleWhy};
use crate::proof_text::ProofText;
use outside::Bytes;
use tableau_calculus::Why;
use thf_include::FileNames;
use type_check::IllWhy;

/// What a refutation of a problem's start shows.
#[derive(Clone, Copy, PartialEq, Eq)]
pub enum Claim {
    /// The conjecture follows from the axioms.
    Theorem,
    /// The axioms have no model, and there is no conjecture.
    Unsatisfiable,
}

/// What came of a tree without cut. A tree that has been asked for is made of the instances that the refutation uses.
#[derive(Clone, Copy, PartialEq, Eq)]
pub enum TreeReport {
    /// None was asked for.
    Unasked,
    /// The refutation that is written is that of a tree of so many nodes.
    Tree { nodes: u32 },
    /// A branch of it stays open.
    Open,
    /// It has more nodes than this.
    Over { nodes: u32 },
}

/// A file that a call reads, with its name.
#[derive(Drop)]
pub enum NamedFile {
    /// A file of the problem: its number, and the names of the files that were opened, in their order.
    Part { number: u32, names: FileNames },
    /// The file of a mode.
    Mode { name: Bytes },
    /// The file of a schedule.
    Schedule { name: Bytes },
    /// The text of a refutation that is checked.
    Check { name: Bytes },
}

/// What a call answers, with what its report needs. Places count the bytes of a file from 0.
#[derive(Drop)]
pub enum Answer {
    /// The problem is proved after so many commands. The text is that of a refutation. Where several modes take turns, the commands of all
    /// are counted, and the mode is that which proved it, counted from 1.
    Proved {
        claim: Claim,
        commands: u32,
        mode: Option<u32>,
        tree: TreeReport,
        text: ProofText,
    },
    /// No command is left after so many, and nothing is proved.
    GaveUp {
        commands: u32,
    },
    /// The limit of commands is reached.
    CommandLimit {
        commands: u32,
    },
    /// The conflicts that the mode gives are spent.
    ConflictLimit {
        conflicts: u64,
    },
    /// The generated problem is proved after so many commands, and the check accepts the report of its proof.
    DemoDone {
        claim: Claim,
        commands: u32,
    },
    /// The refutation's text is accepted for the problem.
    Accepted,
    /// The refutation's text fails first at this line, counted from 1.
    Refused {
        line: usize,
        why: Why,
    },
    /// A finite model of the axioms, in which the conjecture fails: how many values each base type from `$i` on has, and the lines of the
    /// symbols' values.
    CounterSatisfiable {
        size: u32,
        lines: Bytes,
    },
    /// A finite model of the axioms, where there is no conjecture: the same.
    Satisfiable {
        size: u32,
        lines: Bytes,
    },
    /// There is no such model of at most so many values.
    NoneSmall {
        upto: u32,
    },
    /// At this size there is too much to look at.
    ModelsTooMany {
        size: u32,
    },
    /// The two sides of the conjecture are convertible.
    Same,
    /// The two sides of the conjecture aren't convertible.
    Different,
    /// There is no conjecture, or it is no equation.
    NoEquation,
    /// The file's tokens are wrong at this one, or too much is open there.
    SyntaxAt {
        file: NamedFile,
        at: u32,
    },
    /// The statement has no meaning, from this place on.
    TypeAt {
        file: NamedFile,
        at: u32,
        why: IllWhy,
    },
    /// The include at this place isn't followed.
    IncludeAt {
        file: NamedFile,
        at: u32,
        why: IncludeWhy,
    },
    /// The line of the mode's file, counted from 1, isn't taken.
    ModeAt {
        line: u32,
        why: ModeWhy,
    },
    /// The line of the schedule's file, counted from 1, isn't taken.
    ScheduleAt {
        line: u32,
        why: ScheduleWhy,
    },
    /// The words ask for nothing that the program does.
    Words,
    /// With this file, the problem's files, the mode's file, the schedule's file or the text that is checked have too many bytes.
    TooLong {
        file: NamedFile,
    },
    /// The file can't be read.
    ReadFault {
        file: NamedFile,
    },
    /// Memory ran out.
    Memory,
    /// Memory ran out before the words were read.
    UnreadWords,
}

/// The name of a file of the problem, as it was opened.
fn part_name(names: &FileNames, k: u32) -> &[u8]
    ensures { result.now ≡ unwrap_or (slice_get names.now k) [] }
{
    if (k as usize) < names.len() {
        names.get(k as usize)
    } else {
        b""
    }
}

impl NamedFile {
    /// The file's name, as it was opened.
    pub(crate) fn name(&self) -> &[u8]
        ensures { result.now ≡ file_name self.now }
    {
        match self {
            NamedFile::Part { number, names } => part_name(names, *number),
            NamedFile::Mode { name } | NamedFile::Schedule { name } | NamedFile::Check { name } =>
                name.as_slice(),
        }
    }

    /// The file, without its name.
    fn file_ref(&self) -> FileRef
        ensures { result ≡ file_ref self.now }
    {
        match self {
            NamedFile::Part { number, .. } => FileRef::Part(*number),
            NamedFile::Mode { .. } => FileRef::Mode,
            NamedFile::Schedule { .. } => FileRef::Schedule,
            NamedFile::Check { .. } => FileRef::Check,
        }
    }
}

/// The outcome of a proof.
fn claim_outcome(claim: Claim) -> Outcome
    ensures { result ≡ claim_outcome claim }
{
    match claim {
        Claim::Theorem => Outcome::Theorem,
        Claim::Unsatisfiable => Outcome::Unsatisfiable,
    }
}

/// The outcome of wrong tokens.
fn syntax_outcome(file: &NamedFile, at: u32) -> Outcome
    ensures { result ≡ outcome.SyntaxAt (file_ref file.now) at }
{
    Outcome::SyntaxAt {
        file: file.file_ref(),
        at,
    }
}

/// The outcome of a statement without a meaning.
fn type_outcome(file: &NamedFile, at: u32, why: IllWhy) -> Outcome
    ensures { result ≡ outcome.TypeAt (file_ref file.now) at why }
{
    Outcome::TypeAt {
        file: file.file_ref(),
        at,
        why,
    }
}

/// The outcome of an include that isn't followed.
fn include_outcome(file: &NamedFile, at: u32, why: IncludeWhy) -> Outcome
    ensures { result ≡ outcome.IncludeAt (file_ref file.now) at why }
{
    Outcome::IncludeAt {
        file: file.file_ref(),
        at,
        why,
    }
}

impl Answer {
    /// The outcome of a call that answers so and writes its report.
    pub fn outcome(&self) -> Outcome
        ensures { result ≡ outcome_of self.now }
    {
        match self {
            Answer::Proved { claim, .. } => claim_outcome(*claim),
            Answer::GaveUp { .. } => Outcome::GaveUp,
            Answer::CommandLimit { commands } => Outcome::CommandLimit {
                commands: *commands,
            },
            Answer::ConflictLimit { conflicts } => Outcome::ConflictLimit {
                conflicts: *conflicts,
            },
            Answer::DemoDone { .. } => Outcome::DemoDone,
            Answer::Accepted => Outcome::Accepted,
            Answer::Refused { line, why } => Outcome::Refused {
                line: *line,
                why: *why,
            },
            Answer::CounterSatisfiable { size, .. } => Outcome::CounterSatisfiable { size: *size },
            Answer::Satisfiable { size, .. } => Outcome::Satisfiable { size: *size },
            Answer::NoneSmall { upto } => Outcome::NoneSmall { upto: *upto },
            Answer::ModelsTooMany { size } => Outcome::ModelsTooMany { size: *size },
            Answer::Same => Outcome::Same,
            Answer::Different => Outcome::Different,
            Answer::NoEquation => Outcome::NoEquation,
            Answer::SyntaxAt { file, at } => syntax_outcome(file, *at),
            Answer::TypeAt { file, at, why } => type_outcome(file, *at, *why),
            Answer::IncludeAt { file, at, why } => include_outcome(file, *at, *why),
            Answer::ModeAt { line, why } => Outcome::ModeAt {
                line: *line,
                why: *why,
            },
            Answer::ScheduleAt { line, why } => Outcome::ScheduleAt {
                line: *line,
                why: *why,
            },
            Answer::Words => Outcome::Words,
            Answer::TooLong { file } => Outcome::TooLong {
                file: file.file_ref(),
            },
            Answer::ReadFault { file } => Outcome::ReadFault {
                file: file.file_ref(),
            },
            Answer::Memory | Answer::UnreadWords => Outcome::Memory,
        }
    }
}
