//! What a call of the prover answers, and its report in SZS words.
#![tactic(auto)]

mod answer;
mod causes;
mod model_lines;
mod outcome;
mod piece;
mod proof_text;
mod report;

pub use answer::{Answer, Claim, NamedFile, TreeReport};
pub use model_lines::model_text;
pub use outcome::{FileRef, IncludeWhy, ModeWhy, Outcome, ScheduleWhy};
pub use proof_text::ProofText;
pub use report::write_report;
