//! Propositional variables, literals and clauses, their values, and what unsatisfiable means.
#![tactic(auto)]

mod assignment;
mod clause;
mod law;
mod literal;
mod store;
mod truth;

pub use assignment::Assignment;
pub use clause::Clause;
pub use law::{clause_count_law, empty_clause_law, valuation_law};
pub use literal::{SatLit, Var};
pub use store::ClauseStore;
pub use truth::value_in;
