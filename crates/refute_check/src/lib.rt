//! The check of refutations' texts, over shared terms.
#![tactic(auto)]

mod branch;
mod check;
mod children;
mod definitions;
mod instance;
mod known;
mod law;
mod lines;
mod number_line;
mod number_term;
mod numbering;
mod refusal;
mod rows;
mod same;
mod seen;
mod shared;
mod start;
mod strict;
mod taking;

pub use check::{check_refutation, check_strict};
pub use law::{accepted_texts_refute, one_refusal, unfolded_start};
pub use refusal::CheckRefused;
