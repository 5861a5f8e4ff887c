//! Numbers for atoms, so that literals are numbers with a sign.
#![tactic(auto)]

mod instance;
mod law;
mod table;
mod unsigned;

pub use instance::{BankUse, Instance, LitList, LitLists};
pub use law::literals_stay;
pub use table::LitTable;
pub use unsigned::{SignedAtom, atom_of};
