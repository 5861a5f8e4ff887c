//! Refutations as they are written: their texts, written and read.
#![tactic(auto)]

mod known;
mod law;
mod lines;
mod read_line;
mod read_name;
mod read_rule;
mod read_term;
mod read_type;
mod refusal;
mod text;

pub use law::{one_reading, one_refutation, texts_read_back};
pub use refusal::TextRefused;
pub use refute_print::{
    RefutationText, TextHead, TextLine, TextLines, TextLit, TextLits, TextNames, TextNode,
    TextRule, TextTerm, TextTerms, TextTy, write_text,
};
pub use text::read_text;
