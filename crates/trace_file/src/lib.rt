//! Reads traces line by line from a file store, and plays each event as soon as its line is read.
//! The file store is the trait `Shelf`. psi_trace parses the lines.
//!
//! [`play_trace`] plays a trace on any player, [`read_plans`] splits a trace into plans by
//! processor, and a [`Keeper`] stores the events of a trace. [`put_refusal`] writes the message for
//! a rejected line.
#![tactic(auto)]

mod keeper;
mod plans;
mod refusal;
mod trace;

pub use keeper::Keeper;
pub use plans::read_plans;
pub use refusal::put_refusal;
pub use trace::{TraceFault, play_trace};
