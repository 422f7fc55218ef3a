//! Follows the state of a trace's groups other than their stall times: the memory of each group,
//! its preference, and whether it has live tasks. Also follows the memory of the host.
//!
//! [`SideWatch`] reads the *side events* of a trace in order: memory samples, preferences, and
//! tasks that join or leave groups. Its contracts state that its content at each time is the state
//! that `kill_spec` defines for the events up to that time.
//!
//! This crate doesn't extract side events from a trace (proc_plan does), and it makes no decisions
//! (the rules do).
#![tactic(auto)]

mod cell;
mod laws;
mod steps;
mod watch;

pub use cell::GroupMemory;
pub use laws::law_sides_show;
pub use watch::SideWatch;
