//! The tableau calculus: literals, refutations as lists of lines, which of them are accepted, and why these show that there is no model.
#![tactic(auto)]

mod law;
mod lit;
mod refused;
mod refutation;
mod rule_use;
mod shape;
mod typed;

pub use law::{models_extend, rules_keep_models, soundness_law, start_keeps_models};
pub use lit::{Lit, Lits};
pub use refused::PlainRefused;
pub use refutation::{Child, Children, Line, Lines, PlainRule, Refutation, Rows, Why, WitnessRow};
pub use rule_use::{OfPredicate, OnePlace, RuleUse, TwoPlaces};
pub use shape::{Connective, Shape, shape_of};
pub use typed::{is_typed_at, is_typed_branch, is_typed_literal, is_typed_row, is_typed_use};
