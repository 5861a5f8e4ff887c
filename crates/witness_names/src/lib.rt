//! Witnesses for predicates that don't hold everywhere.
#![tactic(auto)]

mod law;
mod table;

pub use law::rows_stay;
pub use table::Witnesses;
