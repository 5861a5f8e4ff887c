//! How deep the types and the literals of a run nest: no deeper than those of its problem, and no deeper than a text's may. There is no
//! code here; the laws stand as contracts of functions that do nothing.
#![tactic(auto)]

mod law;

pub use law::{
    normal_forms_keep_types, runs_keep_types, runs_stay_flat, runs_stay_small, starts_keep_types,
    unfolding_keeps_types,
};
