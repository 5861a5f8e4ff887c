//! The parser of THF files.
#![tactic(auto)]

mod cursor;
mod formula;
mod include;
mod law;
mod notes;
mod parser;
mod refusal;
mod room;
mod statement;
mod terminal;
mod types;
mod typing;
mod variable;
mod words;

pub use law::{declared_are_printable, included_are_printable, one_refusal, one_tree};
pub use parser::{MAX_DEPTH, ParseRefused, parse};
