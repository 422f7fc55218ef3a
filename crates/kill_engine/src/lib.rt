//! Decides kills: at each evaluation, every ruleset that fires runs its actions in order. A ruleset
//! *rests* during the delay after a kill that ended its chain of actions: then it runs no actions.
//!
//! [`Killer`] has the state of all detectors and the stored past of all groups. It evaluates
//! readings in order, and returns the kills at the last reading. A reading is the input of one
//! evaluation: the time, the host's memory and the live groups. All memory is allocated when the
//! killer is made.
//!
//! This crate kills nothing and prints nothing.
#![tactic(auto)]

mod chain;
mod group;
mod killer;
mod ruleset;

pub use kill_spec::Kill;
pub use killer::Killer;
