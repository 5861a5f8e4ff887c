//! How deep the types nest in what files state: no deeper than their tokens allow. There is no code here; the laws stand as contracts of
//! functions that do nothing.
#![tactic(auto)]

mod law;

pub use law::{readings_are_modest, runs_of_files_stay_small};
