//! Lines before they have numbers.

use sat_base::{SatLit, Var};

/// A step of the chain of a result, by its number in the chain.
#[derive(Clone, Copy)]
pub(crate) struct At {
    pub(crate) result: usize,
    pub(crate) step: usize,
}

/// A line: that of a clause, one on which two literals of the start close each other, or a cut on a variable, with the lines for where it
/// holds and for where it doesn't. Lines are named by their numbers among the drafts.
#[derive(Clone, Copy)]
pub(crate) enum Draft {
    Clause(usize),
    Close(At, SatLit, SatLit),
    Cut(At, Var, usize, usize),
}
