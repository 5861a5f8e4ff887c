//! The literals that were processed, from which the partners of a literal are found.
#![tactic(auto)]

mod heads;
mod index;
mod key;
mod law;
mod partners;
mod signed;

pub use index::Index;
pub use law::{index_stays_right, partners_of_literals};
pub use partners::Partners;
