//! Types, and the reading of statements into terms.
#![tactic(auto)]

mod declared;
mod nodes;
mod problem;
mod refusal;
mod rows;
mod scope;
mod statements;
mod term;
mod terms;
mod type_list;
mod typed;
mod types;

pub use problem::check;
pub use refusal::{Ill, IllWhy};
