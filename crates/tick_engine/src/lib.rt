//! Updates the totals and averages of all groups and the state of all triggers at each tick.
//!
//! The caller (replay_ticks) passes the times of each tick, which replay_workers collects. This
//! crate doesn't compute these times. Rules and reports use its results.
#![tactic(auto)]

mod engine;
mod group;
mod last;
mod watch;

pub use engine::{Engine, law_engine};
pub use group::is_live_at;
