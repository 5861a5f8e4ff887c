//! Refutations whose terms are shared, and the writer of their texts.
#![tactic(auto)]

mod lit;
mod plain;
mod pool;
mod refutation;
mod term;
mod write_bytes;
mod write_line;
mod write_rule;
mod write_term;
mod write_whole;

pub use lit::{SharedLit, SharedLits};
pub use pool::TermPool;
pub use refutation::{
    SharedLine, SharedLines, SharedRefutation, SharedRow, SharedRows, SharedRule,
};
pub use term::{SharedTerm, SharedTerms};
pub use write_whole::write_shared_text;
