//! The tables of the search, by numbers.
#![tactic(auto)]

mod by_base;
mod cells;
mod clauses;
mod command;
mod contexts;
mod fitting;
mod head;
mod head_types;
mod holes;
mod instance;
mod noting;
mod offers;
mod partners;
mod piece;
mod places;
mod plan;
mod pushing;
mod rule;
mod selected;
mod selecting;
mod selection;
mod set;
mod shape;
mod solving;
mod start;
mod stem;
mod tables;
mod taking;
mod terms;
mod waiting;

pub use by_base::ByBase;
pub use clauses::{DEPTH, make_variables};
pub use command::{Command, Delays, Over, Planned, Rest};
pub use fitting::small;
pub use head::{HoleHead, head_of, number_of, numbered_head};
pub use holes::OpenHoles;
pub use plan::Plan;
pub use selected::part_of;
pub use set::{IdSet, LitSet};
pub use shape::{has_equal_sides, quantified_type};
pub use stem::Stem;
pub use tables::{Basis, Core, Tables};
pub use waiting::Waiting;
