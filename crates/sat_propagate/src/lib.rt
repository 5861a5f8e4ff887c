//! Unit propagation over clauses with two watched literals each, decisions, and the insertion of clauses.
#![tactic(auto)]

mod clause_table;
mod decider;
mod packed;
mod part;
mod propagator;
mod recent;
mod trail;
mod values;
mod watch_lists;

pub use clause_table::ClauseTable;
pub use decider::Decider;
pub use packed::Packed;
pub use propagator::{Ended, Propagator};
pub use trail::{Step, Trail};
pub use watch_lists::WatchLists;
