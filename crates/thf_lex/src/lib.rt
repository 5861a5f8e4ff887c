//! The tokens of THF files.
#![tactic(auto)]

mod bytes;
mod comment;
mod law;
mod lexer;
mod piece;
mod quoted;
mod symbol;

pub use law::one_reading;
pub use lexer::lex;
pub use thf_grammar::{Token, TokenKind, Tokens};
