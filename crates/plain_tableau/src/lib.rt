//! Tableaux without cut, expanded from the instances that a refutation uses.
#![tactic(auto)]

mod due;
mod expand;
mod law;
mod noting;
mod path;
mod places;
mod stripped;
mod walk;
mod writing;

pub use expand::strip;
pub use law::{
    examples_are_expanded, numbers_expand_as_formulas, one_expansion, tree_is_accepted,
    tree_terms_are_small, trees_are_small, used_may_be_used,
};
pub use stripped::Stripped;
