//! Replays a trace tick by tick. At each tick the replay samples the groups of the trace, evaluates
//! the rules, and writes the output lines of the tick.
//!
//! Other crates perform the individual steps: replay_workers advances the clocks, tick_engine
//! computes averages and triggers, and kill_engine decides kills. This crate doesn't read files or
//! parse the command line. The crate replay_core does both.
#![tactic(auto)]

mod beside;
mod live;
mod replay;
mod reports;
mod run_timing;
mod start;

pub use replay::{Replay, TickFault};
pub use start::prepare;
