//! What the search is: its state, its commands, its run and its results. There is no code of the search here; the laws of these
//! definitions stand as contracts of functions that do nothing.
#![tactic(auto)]

mod law;
mod matching_law;

pub use law::{
    closed_terms_are_told, examples_run, numbers_stand_for_formulas, runs_end_one_way,
    standard_keys_change_nothing, states_are_typed,
};
pub use matching_law::{examples_match, found_terms_are_closed};
