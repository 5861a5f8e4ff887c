//! An agenda of commands, each with a due number: the one with the least due number comes first, and among equal ones
//! the one that was pushed first.
#![tactic(auto)]

mod agenda;
mod bag;
mod entry;
mod rule;

pub use agenda::Agenda;
pub use entry::Entry;
pub use rule::{DueRule, Weigher};
