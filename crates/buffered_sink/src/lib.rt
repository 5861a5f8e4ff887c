//! A sink that gathers bytes for another one.
#![tactic(auto)]

mod hand_on;
mod sink;

pub use sink::BufferedSink;
