//! Which heads grow partial terms, by what occurs in the terms of the start.
#![tactic(auto)]

mod bases;
mod marks;
mod names;
mod offers;
mod reached;
mod selected;

pub use offers::{Offers, is_offered, offered_heads};
