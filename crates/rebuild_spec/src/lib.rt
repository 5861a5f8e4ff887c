//! What refutation the log of a solver gives: which lines stand for its clauses and its results, in which order they are written, and which
//! witness rows stand before them. There is no code here; the laws of these definitions stand as contracts of functions that do nothing.
#![tactic(auto)]

mod law;

pub use law::{
    branches_are_picked, examples_are_rebuilt, one_is_rebuilt, rebuilt_fixes_instances,
    rebuilt_is_accepted, rebuilt_is_trimmed,
};
