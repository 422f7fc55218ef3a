//! Removes the tasks of a killed group from a trace, and states laws about the resulting trace.
//!
//! This crate removes one group at one time. The crate whatif_rounds finds the kills and repeats
//! the removal for each kill.
//!
//! In `specs/`, `Left` defines the events that remain, as the code computes them: with a list of
//! the running tasks. `Rest` relates the scheduler states of the new and the original trace.
//! `Bounded` limits the number of events, and `Laws` states the laws.
#![tactic(auto)]

mod copies;
mod exits;
mod laws;
mod members;
mod removal;
mod rest;
mod runners;

pub use copies::copy_event;
pub use laws::{law_without, law_worlds_without};
pub use removal::{TooLarge, without};
