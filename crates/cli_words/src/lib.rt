//! Reads the words of the command line.
#![tactic(auto)]

ghost use Rattle.std.specs.Prelude.{◌≡◌, [], ◌∷◌, ◌++◌, IfOk, IsErrOf, OnOk, OnErr, Some, None};
ghost use Rattle.cli_words.specs.Requests.{asked_by};
ghost use Rattle.cli_words.specs.View.{the_request};

mod entry;
mod law;
mod line;
mod names;
mod options;
mod words;

pub use law::rows_law;
use std::alloc::{AllocError, Global};
use thiserror::Error;
pub use words::Words;

/// What the words ask for.
#[derive(Clone, Copy, Debug, PartialEq, Eq)]
pub enum Asked<'a> {
    /// Prove the problem, with the mode of a file or with the standard mode. Where a number of nodes is given, turn the proof into a tree
    /// without cut of at most so many nodes.
    Prove {
        problem: &'a str,
        mode: Option<&'a str>,
        nodes: Option<u32>,
    },
    /// Prove the problem by the schedule of a file.
    BySchedule {
        schedule: &'a str,
        problem: &'a str,
    },
    /// Check a refutation's text against a problem.
    Check {
        text: &'a str,
        problem: &'a str,
        cuts: Cuts,
    },
    /// Make a problem of this number, and prove it.
    Demo {
        n: u32,
    },
    /// Look for a finite model of at most so many values for each base type.
    Models {
        upto: u32,
        problem: &'a str,
    },
    /// Ask whether the two sides of the problem's conjecture are convertible.
    Same {
        problem: &'a str,
    },
}

/// What the check of a text makes of cuts.
#[derive(Clone, Copy, Debug, PartialEq, Eq)]
pub enum Cuts {
    Allowed,
    Forbidden,
}

#[derive(Clone, Copy, Debug, PartialEq, Eq, Error)]
pub enum WordsRefused {
    #[error("usage: satallax [--mode FILE] [--check FILE] [--demo N] [--models K] [--schedule FILE] [--tree N] [--strict FILE] [--same] PROBLEM")]
    Words,
    #[error("no memory for the words")]
    Memory,
}

impl From<AllocError> for WordsRefused {
    ghost use Rattle.cli_words.specs.declared.WordsRefused.{WordsRefused};

    ghost from_gives = { λ _ refused. refused ≡ WordsRefused.Memory };

    fn from(_: AllocError) -> WordsRefused {
        WordsRefused::Memory
    }
}

/// Reads the words by the one command of the program, and then by the table of what they may ask for.
pub fn read_words<'a>(alloc: Global, words: &'a Words) -> Result<Asked<'a>, WordsRefused>
    ensures asked { IfOk result (λ a. asked_by words.entry.now ≡ Some (the_request a)) }
    ensures refused { IsErrOf result WordsRefused.Words → asked_by words.entry.now ≡ None }
{
    let entries = line::entries(alloc, words.texts())?;
    entry::asked(entries.as_slice()).ok_or(WordsRefused::Words)
}
