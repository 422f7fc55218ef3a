//! Tests of rules: rules files and the patterns in them, detectors, victims and kills.
//!
//! The tests build readings (the values of the host and of all groups at one evaluation) directly,
//! without a trace. Rules in whole replays are tested in replay_tests.
#![tactic(auto)]

#[cfg(test)]
mod checks;
#[cfg(test)]
mod detections;
#[cfg(test)]
mod kills;
#[cfg(test)]
mod readings;
#[cfg(test)]
mod rig;
#[cfg(test)]
mod rules;
#[cfg(test)]
mod victims;
