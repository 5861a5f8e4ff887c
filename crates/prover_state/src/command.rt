//! Commands by numbers, and when they are due.
ghost use Rattle.std.specs.Prelude.{◌+◌};

use crate::waiting::Waiting;
use command_queue::DueRule;
use mode_file::Mode;
use sat_base::SatLit;
use term_bank::Id;

/// A command. Its literals, its terms and its predicates are given by their numbers, a partial term by its number among those that are
/// parked, and a head by its number in the search's own list.
#[derive(Clone, Copy, PartialEq, Eq)]
pub enum Command {
    Process(SatLit),
    Mate(SatLit, SatLit),
    Confront(SatLit, SatLit),
    Inst(SatLit, Id),
    Grow(usize, usize),
    Choose(Id),
    Describe(Id),
}

/// Over what a loop of commands goes: the terms of a type for a literal, the universal literals of a type for a term, the partners of a
/// literal, which is the first or the second one of each command, the heads for a partial term, with so many witnesses, or the
/// partial terms that take a head.
#[derive(Clone, Copy, PartialEq, Eq)]
pub enum Over {
    Terms,
    Universals,
    Negatives,
    Positives,
    Heads { witnesses: usize },
    Parked,
}

/// The later commands of a loop: those with these places among all that the loop goes over.
#[derive(Clone, Copy, PartialEq, Eq)]
pub struct Rest {
    pub over: Over,
    pub next: usize,
    pub end: usize,
}

impl Rest {
    ghost use Rattle.std.specs.Prelude.{◌≡◌};
    ghost use Rattle.prover_state.specs.Internal.Pending.{rest_between};

    /// What is left of a loop between two places, where anything is.
    pub fn between(over: Over, next: usize, end: usize) -> Option<Rest>
        ensures { result ≡ rest_between over next end }
    {
        if next < end {
            Some(Rest { over, next, end })
        } else {
            None
        }
    }
}

/// A command with the later ones of its loop, where it is one of a loop.
#[derive(Clone, Copy, PartialEq, Eq)]
pub struct Planned {
    pub first: Command,
    pub rest: Option<Rest>,
}

impl Planned {
    ghost use Rattle.std.specs.Prelude.{◌≡◌};
    ghost use Rattle.prover_state.specs.Internal.Pending.{span};

    /// How many commands come after the first one.
    pub fn len(&self) -> u64
        ensures { result ≡ span self.now }
    {
        match self.rest {
            Some(rest) => rest.end.saturating_sub(rest.next) as u64,
            None => 0,
        }
    }
}

/// How long commands wait.
#[derive(Clone, Copy, Drop)]
pub struct Delays {
    pub mode: Mode,
}

impl DueRule<Waiting> for Delays {
    ghost use Rattle.prover_state.specs.Delays.{delay_by};

    ghost due = { λ delays planned now. now + delay_by delays.mode planned.first };
}
