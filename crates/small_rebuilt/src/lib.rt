//! What is rebuilt from small terms has small terms.
#![tactic(auto)]

mod law;

pub use law::{rebuilt_terms_are_small, small_in_range, uses_take_small};
