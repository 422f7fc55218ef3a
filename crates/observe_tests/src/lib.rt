//! Tests of the entry point of psi_observe with files and sinks in memory: observers whose threads
//! are blocked at gates, gates that count calls, groups that are created and removed, command
//! words, failures of each call, and the limit of samples.
//!
//! The board and the journal alone are tested in world_tests.
#![tactic(auto)]

#[cfg(test)]
mod faults;
#[cfg(test)]
mod gates;
#[cfg(test)]
mod known;
#[cfg(test)]
mod limits;
#[cfg(test)]
mod lives;
#[cfg(test)]
mod runs;
#[cfg(test)]
mod shares;
#[cfg(test)]
mod words;
