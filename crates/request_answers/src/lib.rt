//! What the program's requests are answered with, before a report is written.
#![tactic(auto)]

mod check;
mod demo;
mod law;
mod limits;
mod mode;
mod models;
mod request;
mod schedule;
mod sides;
mod solve;
mod stated;
mod turns;

pub use law::one_check;
pub use request::{answer, name_of};
