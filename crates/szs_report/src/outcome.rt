//! How a call of the prover ends.

ghost use Rattle.std.specs.Prelude.{◌≡◌};
ghost use Rattle.szs_report.specs.Status.{status_of};

use tableau_calculus::Why;
use type_check::IllWhy;

/// A file that a call reads: the files of the problem are numbered from 0 in the order in which they are opened, and the problem itself is
/// part 0.
#[derive(Clone, Copy, Debug, PartialEq, Eq)]
pub enum FileRef {
    /// A file of the problem, by its number.
    Part(u32),
    /// The file of a mode.
    Mode,
    /// The file of a schedule.
    Schedule,
    /// The text of a refutation that is checked.
    Check,
}

/// Why an include isn't followed.
#[derive(Clone, Copy, Debug, PartialEq, Eq)]
pub enum IncludeWhy {
    /// The file is open already, further up the chain of includes.
    Cycle,
    /// No statement of the file has the selected name.
    NoSuchName,
    /// The file would be number 257.
    TooMany,
}

/// Why a line of a mode's file isn't taken.
#[derive(Clone, Copy, Debug, PartialEq, Eq)]
pub enum ModeWhy {
    /// Its first word isn't a key.
    UnknownKey,
    /// A line before gives a number to its key.
    Twice,
    /// Its key isn't followed by a number alone.
    BadNumber,
    /// Its number is above the greatest that the key takes.
    OutOfRange,
}

/// Why a line of a schedule's file isn't taken.
#[derive(Clone, Copy, Debug, PartialEq, Eq)]
pub enum ScheduleWhy {
    /// Its first word is neither `slice` nor a key.
    UnknownKey,
    /// A line before gives a number to its key, in the same block.
    Twice,
    /// Its first word isn't followed by a number alone.
    BadNumber,
    /// Its number isn't within the range of the key or of a slice.
    OutOfRange,
    /// There is no block yet to which its key belongs, or the file has none and this is the line behind its last one.
    NoSlice,
    /// It begins one more block than there may be.
    TooManyBlocks,
}

/// How a call of the prover ends. Places count the bytes of a file from 0.
#[derive(Clone, Copy, Debug, PartialEq, Eq)]
pub enum Outcome {
    /// The conjecture follows from the axioms.
    Theorem,
    /// The axioms have no model, and there is no conjecture.
    Unsatisfiable,
    /// No command is left, and nothing is proved.
    GaveUp,
    /// The limit of commands is reached.
    CommandLimit {
        commands: u32,
    },
    /// The conflicts that the mode gives are spent.
    ConflictLimit {
        conflicts: u64,
    },
    /// The generated problem is proved, and the check accepts the report of its proof.
    DemoDone,
    /// The refutation's text is accepted for the problem.
    Accepted,
    /// The refutation's text fails first at this line, counted from 1.
    Refused {
        line: usize,
        why: Why,
    },
    /// A finite model of the axioms, in which the conjecture fails, has so many values for each base type from `$i` on.
    CounterSatisfiable {
        size: u32,
    },
    /// A finite model of the axioms has so many values, and there is no conjecture.
    Satisfiable {
        size: u32,
    },
    /// There is no such model of at most so many values.
    NoneSmall {
        upto: u32,
    },
    /// At this size there is too much to look at.
    ModelsTooMany {
        size: u32,
    },
    /// The two sides of the conjecture are convertible.
    Same,
    /// The two sides of the conjecture aren't convertible.
    Different,
    /// There is no conjecture, or it is no equation.
    NoEquation,
    /// The file's tokens are wrong at this one, or too much is open there.
    SyntaxAt {
        file: FileRef,
        at: u32,
    },
    /// The statement has no meaning, from this place on.
    TypeAt {
        file: FileRef,
        at: u32,
        why: IllWhy,
    },
    /// The include at this place isn't followed.
    IncludeAt {
        file: FileRef,
        at: u32,
        why: IncludeWhy,
    },
    /// The line of the mode's file, counted from 1, isn't taken.
    ModeAt {
        line: u32,
        why: ModeWhy,
    },
    /// The line of the schedule's file, counted from 1, isn't taken.
    ScheduleAt {
        line: u32,
        why: ScheduleWhy,
    },
    /// The words ask for nothing that the program does.
    Words,
    /// With this file, the problem's files have more than 16,777,216 bytes together, or the mode's file, the schedule's file or the text
    /// that is checked has more of them.
    TooLong {
        file: FileRef,
    },
    /// The file can't be read.
    ReadFault {
        file: FileRef,
    },
    /// The report can't be written.
    WriteFault,
    /// Memory ran out.
    Memory,
}

impl Outcome {
    /// The status that the program exits with.
    pub fn status(&self) -> u8
        ensures { result ≡ status_of self.now }
    {
        match self {
            Outcome::Theorem | Outcome::Unsatisfiable | Outcome::DemoDone | Outcome::Accepted => 0,
            Outcome::CounterSatisfiable { .. } | Outcome::Satisfiable { .. } => 0,
            Outcome::Same => 0,
            Outcome::GaveUp => 1,
            Outcome::CommandLimit { .. } => 2,
            Outcome::ConflictLimit { .. } => 3,
            Outcome::Refused { .. } => 4,
            Outcome::NoneSmall { .. } => 5,
            Outcome::ModelsTooMany { .. } => 6,
            Outcome::Different => 7,
            Outcome::NoEquation => 8,
            Outcome::SyntaxAt { .. } => 10,
            Outcome::TypeAt { .. } => 11,
            Outcome::IncludeAt { .. } => 12,
            Outcome::ModeAt { .. } => 13,
            Outcome::Words => 14,
            Outcome::TooLong { .. } => 15,
            Outcome::ScheduleAt { .. } => 17,
            Outcome::ReadFault { .. } => 20,
            Outcome::WriteFault => 21,
            Outcome::Memory => 30,
        }
    }
}
