//! Resolution chains and their log, in which each result is its chain's and is implied by the clauses.
#![tactic(auto)]

mod chain;
mod law;
mod log;
mod resolver;
mod stamps;

pub use chain::{Chain, ChainStep, ChainSteps, Premise};
pub use law::{
    appended_clauses_law, growing_propagation_law, implied_results_law, new_clause_law,
    no_variable_twice_law, unit_propagation_law,
};
pub use log::{Log, LogEntry};
pub use resolver::Resolver;
