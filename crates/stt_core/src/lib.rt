//! Types, terms and canonical terms of simple type theory, signatures and problems, with their values in finite models.
#![tactic(auto)]

mod copy;
mod flags;
mod law;
mod measure;
mod nf;
mod problem;
mod same;
mod signature;
mod term;
mod term_type;
mod ty;
mod typing;

pub use flags::Flags;
pub use law::values_depend_on_occurrences;
pub use measure::{closed, occurs, size_sat};
pub use nf::{Head, Nf, Nfs};
pub use problem::{Problem, Terms};
pub use same::same_nf;
pub use signature::{Consts, Names, Signature, Symbol};
pub use term::Term;
pub use term_type::type_of;
pub use ty::{Ty, Types};
pub use typing::{Context, Declared, head_type, type_of_closed};
