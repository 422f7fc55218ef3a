//! Decides which groups the rules kill at the ticks of a replay.
//!
//! [`Judge`] has all state that the rules need between ticks: the state of detectors, the delays
//! after kills, and the values that the trace reports about memory, preferences and tasks. At each
//! evaluation the judge collects the values of all live groups and returns the kills.
//! [`tick_moment`] returns the time of a tick, and [`is_due`] returns whether a periodic action is
//! due at a tick.
//!
//! This crate doesn't evaluate rules (kill_engine does), prints nothing and kills nothing.
#![tactic(auto)]

mod evaluator;
mod judge;
mod laws;
mod schedule;
mod seen;

pub use judge::Judge;
pub use kill_spec::Kill;
pub use laws::{law_evaluations, law_readings};
pub use schedule::{is_due, tick_moment};
