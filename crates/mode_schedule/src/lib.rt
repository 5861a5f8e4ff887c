//! Schedules of modes: several searches over one problem, each by a mode of its own, that take turns.
#![tactic(auto)]

mod closing;
mod ended;
mod law;
mod lines;
mod mode_weigher;
mod place;
mod read;
mod refused;
mod run;
mod schedule;
mod scheduled;
mod searches;
mod slice;
mod turn;
mod turned;
mod turns;

pub use ended::Ended;
pub use law::{
    closed_where_proved, examples_end, one_schedule, schedules_end_one_way, spent_in_turn,
};
use mode_file::Mode;
pub use mode_weigher::ModeWeigher;
pub use read::read_schedule;
pub use refused::ScheduleRefused;
pub use run::{MakesRuns, Run};
pub use schedule::Schedule;
pub use scheduled::{Scheduled, run_schedule};
pub use searches::Searches;
pub use turned::{Took, Turned};
pub use turns::{SliceRule, SliceWeigher, Turn};

/// A mode, and how many commands its search carries out in a turn at most.
#[derive(Clone, Copy, PartialEq, Eq)]
pub struct Block {
    pub slice: u32,
    pub mode: Mode,
}
