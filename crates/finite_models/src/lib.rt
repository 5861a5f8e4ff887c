//! Finite models of a problem: an exhaustive search within a bound on the size of the base types.
#![tactic(auto)]

mod binder;
mod chooser;
mod compile;
mod expr;
mod forms;
mod found;
mod law;
mod lawful;
mod models;
mod search;
mod size;

pub use chooser::{Chooser, Choosers};
pub use found::{Found, Values};
pub use law::{candidates_are_models, candidates_suffice, one_answer};
pub use models::{choosers_of, search_models};
