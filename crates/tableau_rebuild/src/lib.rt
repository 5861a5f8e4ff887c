//! Refutations from the log of a solver.
#![tactic(auto)]

mod arena;
mod branch;
mod draft;
mod in_range;
mod law;
mod line;
mod lines;
mod literals;
mod needed;
mod numbering;
mod packed_branch;
mod pool;
mod reached;
mod refutation;
mod rows;
mod walk;

pub use in_range::line_in_range;
pub use law::tables_are_given;
pub use line::{places_of, rule_of};
pub use literals::{lits_of, position};
pub use needed::{rows_for_branch, rows_for_instance};
pub use pool::Pool;
pub use reached::{UsedList, used};
pub use refutation::{rebuild, rebuild_shared};
pub use rows::write_rows;
