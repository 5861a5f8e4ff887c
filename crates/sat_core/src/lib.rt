//! An incremental solver for clauses: it learns a clause from each conflict, and its log shows how.
#![tactic(auto)]

mod analysis;
mod keeper;
mod learner;
mod marks;
mod restarts;
mod shorten;
mod sides;
mod solver;
mod spares;
mod uses;

pub use learner::Answer;
pub use solver::Solver;
