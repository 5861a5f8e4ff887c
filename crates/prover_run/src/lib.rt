//! The run of the search over a problem, to its end, with the refutation where it is proved.
#![tactic(auto)]

mod delays;
mod ended;
mod law;
mod running;
mod tree;

pub use delays::delay;
pub use ended::Ended;
pub use law::{enough_conflicts, no_conflicts, one_tree_of_refutation, spent_is_not_refuted};
pub use running::{refutation_of, run};
pub use tree::{tree_asked, tree_of};
