//! The statements of a problem: those of a file, and of the files that it includes, in their place.
#![tactic(auto)]

mod chain;
mod gathered;
mod gathering;
mod law;
mod limits;
mod names;
mod opened;
mod refused;
mod selection;
mod text;

pub use gathered::{Gathered, Placed};
pub use gathering::gather;
pub use law::one_gathering;
pub use limits::{MAX_BYTES, MAX_FILES};
pub use names::FileNames;
pub use refused::GatherRefused;
