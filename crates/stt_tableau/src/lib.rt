//! A plain decider of the tableau calculus: it reads a refutation line by line and looks for the instance of each rule.
#![tactic(auto)]

mod accepts;
mod alone;
mod alternatives;
mod children;
mod decompose;
mod description;
mod equation;
mod formula;
mod instance;
mod opposites;
mod quantifier;
mod start;

pub use accepts::accepts_plain;
pub use alternatives::Alternatives;
pub use formula::literal_of;
pub use instance::find_instance;
pub use quantifier::{Quantified, denied_of_witness, quantified_at};
pub use start::{formula_literal, start_literals};
pub use tableau_calculus::{
    Child, Children, Connective, Line, Lines, Lit, Lits, OfPredicate, OnePlace, PlainRefused,
    PlainRule, Refutation, Rows, RuleUse, Shape, TwoPlaces, Why, WitnessRow, is_typed_literal,
    is_typed_row, is_typed_use, models_extend, rules_keep_models, shape_of, soundness_law,
    start_keeps_models,
};
