//! The rules of the calculus over shared terms.
#![tactic(auto)]

mod alone;
mod choice;
mod dispatch;
mod draft;
mod equation;
mod function;
mod maker;
mod number;
mod opposites;
mod part;
mod quantifier;
mod refusal;
mod spine;
mod witness;

pub use maker::make;
pub use part::{Sides, implication_of, is_falsity};
pub use refusal::RuleRefused;
