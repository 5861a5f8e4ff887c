//! The clauses of the steps of a search.
#![tactic(auto)]

mod choice;
mod instances;
mod key;
mod law;
mod lists;
mod origin;
mod steps;
mod table;

pub use law::clauses_hold_no_variable_twice;
pub use origin::Origin;
pub use table::{NewClauses, StepTable};
