//! What unit propagation with watched literals keeps, and what follows from it. Definitions and laws alone.
#![tactic(auto)]

mod law;

pub use law::{clause_count_law, complete_law, forced_trail_law, new_clause_law, watched_law};
