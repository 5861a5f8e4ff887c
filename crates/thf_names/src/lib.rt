//! Names as they are spelled in THF files and in texts of refutations.
#![tactic(auto)]

mod names;
mod write_bytes;

pub use names::{is_lower_word, is_word_byte, write_label, write_name, write_quoted};
pub use write_bytes::{write, write_between};
