//! The whole prover as one call.
#![tactic(auto)]

mod law;
mod top;

pub use cli_words::Words;
pub use law::{conflicts_of_a_proof, enough_is_never_spent, one_answer};
pub use szs_report::{
    Answer, Claim, FileRef, IncludeWhy, ModeWhy, NamedFile, Outcome, ScheduleWhy,
};
pub use top::satallax;
