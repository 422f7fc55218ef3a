//! The meaning of rules: the definitions of readings, detectors, victims and kills that the
//! contracts of other crates use, their types, and laws about them. This crate computes nothing.
//!
//! Read the files of `specs/` in this order: `Readings` (the state that rules see at an
//! evaluation), `LegalReadings` (invariants of readings), `Detectors` (when a detector is true and
//! a ruleset fires), `Victims` (which group an action kills), `Kills` (which groups are killed at
//! an evaluation), `Evaluations` (the readings of a trace). `Laws` and `Choices` contain only laws.
#![tactic(auto)]

mod kill;
mod laws;
mod reading;

pub use kill::Kill;
pub use laws::{law_choices, law_durations, law_kills, law_victims};
pub use reading::{GroupReading, HostReading};
