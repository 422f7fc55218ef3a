//! Readings of control groups, and oomd's detectors, which are true or false at a reading.
//!
//! A reading is the input of one evaluation of the rules: the time, the host's memory and the live
//! groups. The *slot* of a group is its index in the list of all groups that the trace ever
//! creates. This crate doesn't combine detectors into rulesets (kill_engine does), and doesn't
//! choose victims (victim_rank does).
#![tactic(auto)]

mod conditions;
mod copies;
mod detector;
mod moments;
mod places;
mod reading;
mod scans;

pub use detector::Detector;
pub use kill_spec::{GroupReading, HostReading};
pub use reading::Reading;
