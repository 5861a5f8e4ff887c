//! Canonical terms as shared nodes: equal terms have equal numbers.
#![tactic(auto)]

mod bank;
mod copy;
mod declare;
mod intern;
mod key;
mod law;
mod mark;
mod marks;
mod node;
mod read;
mod tree;
mod types;

pub use bank::Bank;
pub use key::hash_head;
pub use law::{equal_ids_for_equal_terms, ids_keep_their_terms};
pub use node::{Id, Ids, Node};
