//! Refutations as they are written: their trees, and the text of one, written.
#![tactic(auto)]

mod line;
mod rule_mark;
mod tree;
mod write_bytes;
mod write_line;
mod write_rule;
mod write_term;
mod write_whole;

pub use line::{RefutationText, TextLine, TextLines, TextLit, TextLits, TextNames, TextRule};
pub use rule_mark::NamedRule;
pub use tree::{TextHead, TextNode, TextTerm, TextTerms, TextTy};
pub use write_whole::write_text;
