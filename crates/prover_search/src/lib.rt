//! The search: commands are carried out one after the other, until the clauses are unsatisfiable, no command is left, or the limit is
//! reached.
#![tactic(auto)]

mod advance;
mod alone;
mod carry;
mod connective;
mod equation;
mod instances;
mod offered;
mod prepared;
mod process;
mod quantifier;
mod search;
mod shape;
mod sides;
mod spine;
mod start;
mod stepped;
mod work;

pub use prepared::Prepared;
pub use prover_state::{Command, Waiting};
pub use search::Search;
pub use stepped::Stepped;
