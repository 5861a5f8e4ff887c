//! What the search grows: partial terms, the terms of types, and witnesses.
#![tactic(auto)]

mod base_terms;
mod denial;
mod filling;
mod heads;
mod offers;
mod opening;
mod parking;
mod stems;
mod taking;
mod witness;

pub use filling::fill;
pub use offers::offer_new;
pub use opening::prepare;
pub use witness::add_witness;
