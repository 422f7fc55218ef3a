//! Pressure triggers: a trigger fires if the stall time of a group grows by a threshold within a
//! time window.
//!
//! This crate has the state of a single trigger. The crate tick_engine updates all triggers at each
//! tick.
#![tactic(auto)]

mod trigger;

pub use trigger::Trigger;
